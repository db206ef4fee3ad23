//! Lists of values (RFC 8259, 5).
ghost use Rattle.std.specs.Prelude.{◌≡◌, ◌++◌, ◌∷◌, [], ℕ, List, OnOk};
ghost use Rattle.std.specs.List.{flat_map, join_by};
ghost use Rattle.dns_query_json.specs.Json.{listed};

use dns_record::NoMemory;

/// What stands as a value in a list.
pub(crate) trait JsonValue {
    /// The text of the value.
    ghost text: { Self → List ℕ };

    /// Appends the value.
    fn push_value(&self, into: &mut Vec<u8>) -> Result<(), NoMemory>
        ensures { OnOk result (into.new.items ≡ into.old.items ++ text self.now) };
}

// Appends values with a comma before each.
fn push_more<T: JsonValue>(into: &mut Vec<u8>, values: &[T]) -> Result<(), NoMemory>
    ensures { OnOk result (into.new.items ≡ into.old.items ++ flat_map (λ x. 44 ∷ T.text x) values.now) }
{
    for value in values {
        into.push(b',')?;
        value.push_value(into)?;
    }
    Ok(())
}

// Appends values with a comma between each two.
fn push_between<T: JsonValue>(into: &mut Vec<u8>, values: &[T]) -> Result<(), NoMemory>
    ensures { OnOk result (into.new.items ≡ into.old.items ++ join_by T.text (44 ∷ []) values.now) }
{
    if let Some((first, more)) = values.split_first() {
        first.push_value(into)?;
        push_more(into, more)?;
    }
    Ok(())
}

/// Appends a list of values.
pub(crate) fn push_list<T: JsonValue>(into: &mut Vec<u8>, values: &[T]) -> Result<(), NoMemory>
    ensures { OnOk result (into.new.items ≡ into.old.items ++ listed T.text values.now) }
{
    into.push(b'[')?;
    push_between(into, values)?;
    into.push(b']')?;
    Ok(())
}

//! The fields of an rdata, one after another.
ghost use Rattle.std.specs.Prelude.{◌≡◌, ◌++◌, OnOk};
ghost use Rattle.std.specs.Option.{option_map};
ghost use Rattle.dns_model.specs.Shapes.{part_in, canonical_part, plain_front as plain_bytes};
ghost use Rattle.dns_rdata.specs.Fields.{field_value, part_value};

use crate::counted::counted_front;
use crate::shape::Field;
use crate::type_set::is_bitmap;
use dns_record::{NameRef, NoMemory};

// A field as it was read.
#[derive(Drop)]
pub(crate) enum Part<'a> {
    // Bytes that mean no name.
    Plain(&'a [u8]),
    Named(NameRef<'a>),
}

// The part at the front that is a field, and the bytes after it.
pub(crate) fn part_front<'a>(field: Field, bytes: &'a [u8]) -> Option<(Part<'a>, &'a [u8])>
    ensures { option_map (λ p. (part_value p.0, p.1.now)) result ≡ part_in (field_value field) bytes.now }
{
    match field {
        Field::Octets(size) => plain_front(bytes, usize::from(size)),
        Field::DomainName => {
            let (name, rest) = NameRef::front(bytes)?;
            Some((Part::Named(name), rest))
        }
        Field::CharacterString => {
            let (text, _) = counted_front(bytes)?;
            plain_front(bytes, text.len() + 1)
        }
        Field::TypeBitmap => {
            if !is_bitmap(bytes) {
                return None;
            }
            plain_front(bytes, bytes.len())
        }
        Field::Remainder => plain_front(bytes, bytes.len()),
    }
}

// So many bytes of the front as they stand.
fn plain_front(bytes: &[u8], size: usize) -> Option<(Part<'_>, &[u8])>
    ensures { option_map (λ p. (part_value p.0, p.1.now)) result ≡ plain_bytes size bytes.now }
{
    if size > bytes.len() {
        return None;
    }
    let (front, rest) = bytes.split_at(size);
    Some((Part::Plain(front), rest))
}

impl<'a> Part<'a> {
    // Appends the part as it stands in canonical form: a name lower-cased. Where memory runs out, `into` stays as it was.
    pub(crate) fn push_canonical(&self, into: &mut Vec<u8>) -> Result<(), NoMemory>
        ensures { OnOk result (into.new.items ≡ into.old.items ++ canonical_part (part_value self.now)) }
    {
        match self {
            Part::Plain(bytes) => into.extend_from_slice(bytes)?,
            Part::Named(name) => name.push_folded(into)?,
        }
        Ok(())
    }
}

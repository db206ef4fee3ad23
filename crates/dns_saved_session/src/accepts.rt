//! The lines of what a lookup judges by: its algorithms, its trusted keys, and the signatures that were accepted.
ghost use Rattle.std.specs.Prelude.{◌≡◌, ◌++◌, ◌∷◌, map, nat_lt, OnOk, IsTrue};
ghost use Rattle.std.specs.Fmt.{decimal};
ghost use Rattle.std.specs.List.{flat_map, list_all};
ghost use Rattle.dns_model.specs.Bytes.{is_bytes};
ghost use Rattle.dns_text.specs.Lines.{line_rest};
ghost use Rattle.dns_saved_session.specs.SavedText.{accept_text, algorithms_text, anchor_text, fitting_accept, fitting_anchor};

use dns_record::NoMemory;
use dns_session::{AcceptedSignature, Anchor};
use dns_text::{end_line, push_name_word, push_number, push_octets_word, push_text};

// Appends a number of eight bits.
fn push_small(into: &mut Vec<u8>, number: u8) -> Result<(), NoMemory>
    ensures ok { OnOk result (into.new.items ≡ into.old.items ++ (32 ∷ decimal number)) }
    ensures fits { IsTrue (nat_lt number 256) }
{
    push_number(into, u64::from(number))
}

// Appends the words of numbers, and ends the line.
fn push_numbers(into: &mut Vec<u8>, numbers: &[u8]) -> Result<(), NoMemory>
    ensures ok { OnOk result (into.new.items ≡ into.old.items ++ line_rest (map decimal numbers.now)) }
    ensures fits { OnOk result (IsTrue (is_bytes numbers.now)) }
{
    let mut left = numbers;
    'numbers: while let Some((number, more)) = left.split_first() {
        push_small(into, *number)?;
        left = more;
    }
    end_line(into)
}

/// Appends the line of the algorithms that are supported.
pub(crate) fn push_algorithms(into: &mut Vec<u8>, algorithms: &[u8]) -> Result<(), NoMemory>
    ensures ok { OnOk result (into.new.items ≡ into.old.items ++ algorithms_text algorithms.now) }
    ensures fits { OnOk result (IsTrue (is_bytes algorithms.now)) }
{
    push_text(into, b"algorithms")?;
    push_numbers(into, algorithms)
}

// Appends the line of a trusted key.
fn push_anchor(into: &mut Vec<u8>, anchor: &Anchor) -> Result<(), NoMemory>
    ensures ok { OnOk result (into.new.items ≡ into.old.items ++ anchor_text anchor.now) }
    ensures fits { OnOk result (IsTrue (fitting_anchor anchor.now)) }
{
    push_text(into, b"anchor")?;
    push_name_word(into, &anchor.owner)?;
    push_small(into, anchor.algorithm)?;
    push_octets_word(into, anchor.key.as_slice())?;
    end_line(into)
}

/// Appends the lines of trusted keys, in order.
pub(crate) fn push_anchors(into: &mut Vec<u8>, anchors: &[Anchor]) -> Result<(), NoMemory>
    ensures ok { OnOk result (into.new.items ≡ into.old.items ++ flat_map anchor_text anchors.now) }
    ensures fits { OnOk result (IsTrue (list_all fitting_anchor anchors.now)) }
{
    let mut left = anchors;
    'anchors: while let Some((anchor, more)) = left.split_first() {
        push_anchor(into, anchor)?;
        left = more;
    }
    Ok(())
}

// Appends the line of an accepted signature.
fn push_accept(into: &mut Vec<u8>, accept: &AcceptedSignature) -> Result<(), NoMemory>
    ensures ok { OnOk result (into.new.items ≡ into.old.items ++ accept_text accept.now) }
    ensures fits { OnOk result (IsTrue (fitting_accept accept.now)) }
{
    push_text(into, b"accept")?;
    push_small(into, accept.algorithm)?;
    push_octets_word(into, accept.key.as_slice())?;
    push_octets_word(into, accept.bytes.as_slice())?;
    push_octets_word(into, accept.signature.as_slice())?;
    end_line(into)
}

/// Appends the lines of accepted signatures, in order.
pub(crate) fn push_accepts(
    into: &mut Vec<u8>,
    accepts: &[AcceptedSignature],
) -> Result<(), NoMemory>
    ensures ok { OnOk result (into.new.items ≡ into.old.items ++ flat_map accept_text accepts.now) }
    ensures fits { OnOk result (IsTrue (list_all fitting_accept accepts.now)) }
{
    let mut left = accepts;
    'accepts: while let Some((accept, more)) = left.split_first() {
        push_accept(into, accept)?;
        left = more;
    }
    Ok(())
}

//! Reading the labels of a wire form from left to right (RFC 1035, 3.1).
ghost use Rattle.std.specs.Prelude.{◌≡◌, ◌≤◌, ◌<◌, ◌+◌, ◌++◌, ◌∷◌, true, Option, None, Some, IfSome, OnOk, OnErr, MatchOption, length, map, option_map};
ghost use Rattle.std.specs.Char.{to_ascii_lowercase};
ghost use Rattle.dns_model.specs.Bytes.{is_bytes};
ghost use Rattle.dns_model.specs.NameForm.{name_in, label_in};
ghost use Rattle.dns_record.specs.NameEnds.{end_in, IsFront};

use crate::{Name, NoMemory};

// The label at the front of bytes, empty for the closing zero byte, and the bytes after it.
pub(crate) fn label_at<'a>(bytes: &'a [u8]) -> Option<(&'a [u8], &'a [u8])>
    ensures value { option_map (λ p. (p.0.now, p.1.now)) result ≡ label_in bytes.now }
    ensures size { IfSome result (λ p. length p.0.now + length p.1.now + 1 ≡ length bytes.now) }
{
    let (size, rest) = bytes.split_first()?;
    label_after(usize::from(*size), rest)
}

// The label of this size at the front of bytes, and the bytes after it.
#[tactic(auto, unfolding(dns_model::specs::NameForm::label_in))]
fn label_after<'a>(size: usize, rest: &'a [u8]) -> Option<(&'a [u8], &'a [u8])>
    ensures value { option_map (λ p. (p.0.now, p.1.now)) result ≡ label_in (size ∷ rest.now) }
    ensures size { IfSome result (λ p. length p.0.now + length p.1.now ≡ length rest.now) }
{
    if size <= Name::MAX_LABEL_LEN && size <= rest.len() {
        Some(rest.split_at(size))
    } else {
        None
    }
}

// Where the labels at the front of bytes end, however many they are.
fn labels_end(bytes: &[u8]) -> Option<usize>
    ensures { result ≡ end_in bytes.now }
{
    let mut rest = bytes;
    let mut end = 0;
    'labels: loop {
        let (label, more) = label_at(rest)?;
        if label.len() == 0 {
            return Some(end + 1);
        }
        end += label.len() + 1;
        rest = more;
    }
}

// Where the name at the front of bytes ends.
pub(crate) fn name_end(bytes: &[u8]) -> Option<usize>
    ensures { MatchOption result (name_in bytes.now ≡ None) (IsFront bytes.now) }
{
    let end = labels_end(bytes)?;
    if end <= Name::MAX_LEN {
        Some(end)
    } else {
        None
    }
}

// Appends bytes with A to Z as a to z.
pub(crate) fn push_lowered(into: &mut Vec<u8>, bytes: &[u8]) -> Result<(), NoMemory>
    ensures ok { OnOk result (into.new.items ≡ into.old.items ++ map to_ascii_lowercase bytes.now) }
    ensures err { OnErr result (into.new.items ≡ into.old.items) }
{
    let start = into.len();
    into.extend_from_slice(bytes)?;
    into[start..].make_ascii_lowercase();
    Ok(())
}

// The same bytes, known to be below 256.
pub(crate) fn known_bytes<'a>(bytes: &'a [u8]) -> &'a [u8]
    ensures same { result.now ≡ bytes.now }
    ensures bytes { is_bytes bytes.now ≡ true }
{
    bytes
}

//! Names as strings of bytes that sort in canonical order (RFC 4034, 6.1): a search compares bytes, and no labels.
ghost use Rattle.std.specs.Prelude.{◌≡◌, ◌+◌, ◌<◌, ◌≤◌, ◌++◌, length};
ghost use Rattle.arrayvec.specs.ArrayVec.{array_vec_len};
ghost use Rattle.dns_denial_index.specs.NameKeys.{symbol as symbol_of, label_key, name_key as name_key_of};

use arrayvec::ArrayVec;
use dns_record::NameRef;

/// The key of a name: its labels from the root on.
#[tactic(auto, using(crate::proofs::NameKeys::key_fits))]
pub(crate) fn name_key(name: &NameRef<'_>) -> ArrayVec<u8, 255>
    ensures value { result.items ≡ name_key_of name.now }
    ensures room { array_vec_len result < 255 }
{
    // `copy` tells that its labels are a name
    let name = name.copy();
    let mut key = ArrayVec::new();
    push_labels(&name, &mut key);
    key
}

// Appends the labels of a name, that of the root's side first.
#[tactic(auto, using(crate::proofs::NameKeys::key_of, crate::proofs::NameKeys::key_length_of, crate::proofs::NameKeys::key_of_root))]
fn push_labels(name: &NameRef<'_>, key: &mut ArrayVec<u8, 255>)
    requires { array_vec_len key.old + length (name_key_of name.now) ≤ 255 }
    ensures items { key.new.items ≡ key.old.items ++ name_key_of name.now }
    ensures len { array_vec_len key.new ≡ array_vec_len key.old + length (name_key_of name.now) }
{
    if let Some((label, above)) = name.split_first() {
        push_labels(&above, key);
        push_label(label, key);
    }
}

// Appends a label and its end.
fn push_label(label: &[u8], key: &mut ArrayVec<u8, 255>)
    requires { array_vec_len key.old + length (label_key label.now) ≤ 255 }
    ensures items { key.new.items ≡ key.old.items ++ label_key label.now }
    ensures len { array_vec_len key.new ≡ array_vec_len key.old + length (label_key label.now) }
{
    for byte in label {
        key.push(symbol(*byte));
    }
    key.push(0);
}

// A byte of a label as a byte of a key. No folded byte is A to Z, so there is room for 0 before all and for 255 after all.
fn symbol(byte: u8) -> u8
    ensures { result ≡ symbol_of byte }
{
    let folded = byte.to_ascii_lowercase();
    if folded < b'A' {
        folded + 1
    } else {
        folded - 1
    }
}

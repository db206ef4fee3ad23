//! Names with the case of chosen letters changed (RFC 4343).
ghost use Rattle.std.specs.Prelude.{◌≡◌, [], IfOk};
ghost use Rattle.dns_handle.specs.LetterCase.{byte_cased, is_chosen, label_cased, letters, name_cased, other_case};

use dns_record::{Name, NoMemory, Octets};
use std::alloc::Global;

// A letter in the other case.
fn other_case(letter: u8) -> u8
    ensures { result ≡ other_case letter }
{
    if letter.is_ascii_uppercase() {
        letter.to_ascii_lowercase()
    } else {
        letter.to_ascii_uppercase()
    }
}

// Whether bit number `place` is set, the lowest of each byte first.
fn is_chosen(bits: &[u8], place: usize) -> bool
    ensures { result ≡ is_chosen bits.now place }
{
    match bits.get(place / 8) {
        None => false,
        Some(byte) => (*byte >> (place % 8)) % 2 == 1,
    }
}

// The byte in its other case, if it is a letter whose bit is set.
#[tactic(auto, unfolding(crate::specs::LetterCase::byte_cased))]
fn byte_cased(bits: &[u8], place: usize, byte: u8) -> u8
    ensures { result ≡ byte_cased bits.now place byte }
{
    if byte.is_ascii_alphabetic() && is_chosen(bits, place) {
        other_case(byte)
    } else {
        byte
    }
}

// The bytes with each letter in its other case whose bit is set; letters count from 0.
fn bytes_cased(alloc: Global, bytes: &[u8], bits: &[u8]) -> Result<Vec<u8>, NoMemory>
    ensures { IfOk result (λ v. v.items ≡ label_cased bits.now [] bytes.now) }
{
    let mut all = Vec::new(alloc);
    let mut letters: usize = 0;
    for byte in bytes {
        all.push(byte_cased(bits, letters, *byte))?;
        if byte.is_ascii_alphabetic() {
            letters += 1;
        }
    }
    Ok(all)
}

/// The name with each letter in its other case whose bit is set. Letters count from 0 over the labels, the leaf first; a bit
/// behind the last byte is clear.
pub(crate) fn name_cased(alloc: Global, name: &Name, bits: &[u8]) -> Result<Name, NoMemory>
    ensures { IfOk result (λ n. n ≡ name_cased bits.now name.now) }
{
    let wire = bytes_cased(alloc, name.wire(), bits)?;
    Ok(Name::from_octets(Octets::from_vec(wire)))
}

//! The types that a type bitmap lists (RFC 4034, 4.1.2).
ghost use Rattle.std.specs.Prelude.{◌≡◌, ◌++◌, ◌+◌, ◌*◌, ◌≤◌, ◌<◌, OnOk, IfOk, IfSome, length};
ghost use Rattle.std.specs.Option.{option_map};
ghost use Rattle.dns_model.specs.Shapes.{has_bit as bit_of, window_in};
ghost use Rattle.dns_presentation.specs.TypeLists.{bit_types, types_below, types_in};

use dns_rdata::is_bitmap;
use dns_record::NoMemory;
use std::alloc::Global;

// The number and the bits of the window at the front, which has 1 to 32 bytes, and the bytes after it.
#[tactic(auto, unfolding(dns_model::specs::Shapes::window_in))]
fn window_front(bytes: &[u8]) -> Option<(u8, &[u8], &[u8])>
    ensures window { option_map (λ w. (record { number = w.0; bits = w.1.now }, w.2.now)) result ≡ window_in bytes.now }
    ensures size { IfSome result (λ w. length w.1.now ≤ 32) }
    ensures some { IfSome result (λ w. 0 < length w.1.now) }
    ensures shorter { IfSome result (λ w. length w.2.now < length bytes.now) }
{
    let [number, size, rest @ ..] = bytes else {
        return None;
    };
    let size = usize::from(*size);
    if size == 0 || size > 32 || size > rest.len() {
        return None;
    }
    let (bits, after) = rest.split_at(size);
    Some((*number, bits, after))
}

// Whether a bit stands; bit 0 is the highest of the first byte.
fn has_bit(bits: &[u8], place: usize) -> bool
    ensures { result ≡ bit_of bits.now place }
{
    match bits.get(place / 8) {
        None => false,
        Some(byte) => (*byte >> (7 - place % 8)) % 2 == 1,
    }
}

// Appends the type of a bit, if the bit stands.
fn push_bit(types: &mut Vec<u16>, number: u8, bits: &[u8], place: usize) -> Result<(), NoMemory>
    requires { place < 256 }
    ensures { OnOk result (types.new.items ≡ types.old.items ++ bit_types (number * 256) bits.now place) }
{
    if has_bit(bits, place) {
        types.push(u16::from(number) * 256 + place as u16)?;
    }
    Ok(())
}

// Appends the types of a window.
fn push_window(types: &mut Vec<u16>, number: u8, bits: &[u8]) -> Result<(), NoMemory>
    requires { length bits.now ≤ 32 }
    ensures { OnOk result (types.new.items ≡ types.old.items ++ types_below (number * 256) bits.now (length bits.now * 8)) }
{
    for place in 0..bits.len() * 8 {
        push_bit(types, number, bits, place)?;
    }
    Ok(())
}

/// The types that a bitmap lists, in rising order; None where the bytes are no bitmap, or a longer one than these types need.
#[tactic(auto, using(crate::proofs::ListLemmas::types_start, crate::proofs::ListLemmas::types_more, crate::proofs::ListLemmas::types_longer, crate::proofs::ListLemmas::bitmap_rest, crate::proofs::ListLemmas::types_end, crate::proofs::ListLemmas::types_none))]
pub(crate) fn types_of(alloc: Global, bytes: &[u8]) -> Result<Option<Vec<u16>>, NoMemory>
    ensures { IfOk result (λ types. option_map (λ v. v.items) types ≡ types_in bytes.now) }
{
    if !is_bitmap(bytes) {
        return Ok(None);
    }
    let mut types = Vec::new(alloc);
    let mut rest = bytes;
    'windows: while let Some((number, bits, after)) = window_front(rest) {
        if bits[bits.len() - 1] == 0 {
            return Ok(None);
        }
        push_window(&mut types, number, bits)?;
        rest = after;
    }
    Ok(Some(types))
}

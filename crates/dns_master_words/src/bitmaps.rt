//! Type bitmaps (RFC 4034, 4.1.2).
ghost use Rattle.std.specs.Prelude.{◌≡◌, ◌++◌, ◌+◌, ◌*◌, ◌≤◌, ◌<◌, OnOk, IfOk};
ghost use Rattle.dns_master_words.specs.Bitmaps.{bit_of as bit_in, bitmap_of, has_type as is_among, larger as larger_of, needed as bytes_needed, octet_of as octet_in, octets_of, window_of, window_size as size_of_window};

use dns_record::NoMemory;
use std::alloc::Global;

// Whether a type is among these.
#[tactic(auto, unfolding(crate::specs::Bitmaps::has_type))]
fn has_type(types: &[u16], rtype: u16) -> bool
    ensures { result ≡ is_among types.now rtype }
{
    let mut rest = types;
    'types: while let Some((first, more)) = rest.split_first() {
        if *first == rtype {
            return true;
        }
        rest = more;
    }
    false
}

// 1 where a type is among these.
#[tactic(auto, unfolding(crate::specs::Bitmaps::bit_of))]
fn bit_of(types: &[u16], rtype: u16) -> u8
    ensures value { result ≡ bit_in types.now rtype }
    ensures most { result ≤ 1 }
{
    u8::from(has_type(types, rtype))
}

// The byte of eight types, of which the first has the highest bit.
#[tactic(auto, unfolding(crate::specs::Bitmaps::octet_of))]
fn octet_of(types: &[u16], first: u16) -> u8
    requires { first ≤ 65528 }
    ensures { result ≡ octet_in types.now first }
{
    let high = bit_of(types, first) * 128
        + bit_of(types, first + 1) * 64
        + bit_of(types, first + 2) * 32
        + bit_of(types, first + 3) * 16;
    high + bit_of(types, first + 4) * 8
        + bit_of(types, first + 5) * 4
        + bit_of(types, first + 6) * 2
        + bit_of(types, first + 7)
}

// How many bytes a window has for a type.
#[tactic(auto, unfolding(crate::specs::Bitmaps::needed))]
fn needed(number: u8, rtype: u16) -> u8
    ensures value { result ≡ bytes_needed number rtype }
    ensures most { result ≤ 32 }
{
    if rtype / 256 == u16::from(number) {
        (rtype % 256 / 8) as u8 + 1
    } else {
        0
    }
}

fn larger(one: u8, two: u8) -> u8
    ensures { result ≡ larger_of one two }
{
    if one < two { two } else { one }
}

// How many bytes a window has.
#[tactic(auto, using(crate::proofs::BitmapSteps::size_start, crate::proofs::BitmapSteps::size_more, crate::proofs::BitmapSteps::size_end, crate::proofs::BitmapSteps::larger_most))]
fn window_size(types: &[u16], number: u8) -> u8
    ensures value { result ≡ size_of_window types.now number }
    ensures most { result ≤ 32 }
{
    let mut size = 0;
    let mut rest = types;
    'types: while let Some((first, more)) = rest.split_first() {
        size = larger(size, needed(number, *first));
        rest = more;
    }
    size
}

// Appends so many bytes, the first of them of the eight types from this one on.
#[tactic(auto, using(crate::proofs::BitmapSteps::octets_more, crate::proofs::BitmapSteps::octets_end))]
fn push_octets(into: &mut Vec<u8>, types: &[u16], number: u8, size: u8) -> Result<(), NoMemory>
    requires { size ≤ 32 }
    ensures { OnOk result (into.new.items ≡ into.old.items ++ octets_of types.now (number * 256) size) }
{
    let mut place = 0;
    'octets: while place < size {
        let first = u16::from(number) * 256 + u16::from(place) * 8;
        into.push(octet_of(types, first))?;
        place += 1;
    }
    Ok(())
}

// Appends a window, if it has types.
#[tactic(auto, unfolding(crate::specs::Bitmaps::window_of))]
fn push_window(into: &mut Vec<u8>, types: &[u16], number: u8) -> Result<(), NoMemory>
    ensures { OnOk result (into.new.items ≡ into.old.items ++ window_of types.now number) }
{
    let size = window_size(types, number);
    if size == 0 {
        return Ok(());
    }
    into.push(number)?;
    into.push(size)?;
    push_octets(into, types, number, size)
}

/// The bitmap of types, which may stand in any order (RFC 4034, 4.1.2).
#[tactic(auto, using(crate::proofs::BitmapSteps::windows_start, crate::proofs::BitmapSteps::windows_more, crate::proofs::BitmapSteps::windows_end))]
pub fn bitmap_of(alloc: Global, types: &[u16]) -> Result<Vec<u8>, NoMemory>
    ensures { IfOk result (λ bitmap. bitmap.items ≡ bitmap_of types.now) }
{
    let mut bitmap = Vec::new(alloc);
    let mut number = 0u16;
    'windows: while number < 256 {
        push_window(&mut bitmap, types, number as u8)?;
        number += 1;
    }
    Ok(bitmap)
}

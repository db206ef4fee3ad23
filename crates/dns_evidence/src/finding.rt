//! Places in a list by numbers that are mixed from what is looked for.
ghost use Rattle.std.specs.Prelude.{◌≡◌, [], ◌∷◌, ℕ, map, OnOk, OnErr};
ghost use Rattle.std.specs.Char.{to_ascii_lowercase};
ghost use Rattle.dns_evidence.specs.Finding.{mixed, mixed_once, places_at, places_after};

use dns_record::NoMemory;
use std::alloc::Global;
use std::collections::BTreeMap;

/// Places in a list, by the numbers of their elements.
pub type PlacesByNumber = BTreeMap<u64, Vec<usize>>;

/// By how much a byte moves a number on.
const FACTOR: u64 = 1_099_511_628_211;

/// By how much two bytes do, below 2^64, and three and four.
const FACTOR_OF_TWO: u64 = 956_575_116_354_345;

const FACTOR_OF_THREE: u64 = 624_165_263_380_053_675;

const FACTOR_OF_FOUR: u64 = 11_527_715_348_014_283_921;

/// A number mixed with bytes.
#[tactic(auto, unfolding(crate::specs::Finding::mixed))]
pub fn mix(seed: u64, bytes: &[u8]) -> u64
    ensures { result ≡ mixed seed bytes.now }
{
    let mut number = seed;
    let mut rest = bytes;
    'fours: while let [first, second, third, fourth, after @ ..] = rest {
        number = mix_four(number, *first, *second, *third, *fourth);
        rest = after;
    }
    'bytes: for byte in rest {
        number = mix_once(number, *byte);
    }
    number
}

/// A number mixed with bytes, A to Z as a to z.
#[tactic(auto, unfolding(crate::specs::Finding::mixed))]
pub fn mix_lowered(seed: u64, bytes: &[u8]) -> u64
    ensures { result ≡ mixed seed (map to_ascii_lowercase bytes.now) }
{
    let mut number = seed;
    let mut rest = bytes;
    'fours: while let [first, second, third, fourth, after @ ..] = rest {
        number = mix_four(
            number,
            first.to_ascii_lowercase(),
            second.to_ascii_lowercase(),
            third.to_ascii_lowercase(),
            fourth.to_ascii_lowercase(),
        );
        rest = after;
    }
    'bytes: for byte in rest {
        number = mix_once(number, byte.to_ascii_lowercase());
    }
    number
}

// A number mixed with one byte.
fn mix_once(seed: u64, byte: u8) -> u64
    ensures { result ≡ mixed_once seed byte }
{
    seed.wrapping_mul(FACTOR).wrapping_add(u64::from(byte))
}

// A number mixed with four bytes. No product waits for another.
#[tactic(auto, unfolding(crate::specs::Finding::mixed), using(crate::proofs::Mixing::four_at_once))]
fn mix_four(seed: u64, first: u8, second: u8, third: u8, fourth: u8) -> u64
    ensures { result ≡ mixed seed (first ∷ second ∷ third ∷ fourth ∷ []) }
{
    let front = seed
        .wrapping_mul(FACTOR_OF_FOUR)
        .wrapping_add(u64::from(first).wrapping_mul(FACTOR_OF_THREE));
    let back = u64::from(second)
        .wrapping_mul(FACTOR_OF_TWO)
        .wrapping_add(u64::from(third).wrapping_mul(FACTOR));
    front.wrapping_add(back).wrapping_add(u64::from(fourth))
}

/// The places that are kept for a number.
#[tactic(auto, unfolding(crate::specs::Finding::places_at))]
pub fn places_of(places: &PlacesByNumber, number: u64) -> &[usize]
    ensures { result.now ≡ places_at places.now number }
{
    match places.get(&number) {
        Some(there) => there.as_slice(),
        None => &[],
    }
}

/// Adds a place to those of a number. Where memory runs out, all stay as they were.
#[tactic(auto, unfolding(crate::specs::Finding::places_at))]
pub fn add_place(
    alloc: Global,
    places: &mut PlacesByNumber,
    number: u64,
    place: usize,
) -> Result<(), NoMemory>
    ensures ok { OnOk result ((n : ℕ) → places_at places.new n ≡ places_after places.old number place n) }
    ensures err { OnErr result ((n : ℕ) → places_at places.new n ≡ places_at places.old n) }
{
    if let Some(there) = places.get_mut(&number) {
        there.push(place)?;
        return Ok(());
    }
    let mut first = Vec::new(alloc);
    first.push(place)?;
    places.insert(number, first)?;
    Ok(())
}

//! The test of a signature (RFC 8032, 5.1.7), by its equation without a cofactor.

ghost use Rattle.std.specs.Prelude.{◌≡◌, ◌++◌, ◌+◌, ◌*◌, ◌%◌, length, nat_lt, true};
ghost use Rattle.big_numbers.specs.Limbs.{value};
ghost use Rattle.edwards_curves.specs.Ed25519.{base, challenge, ed25519_accepts, parts_pass, passes, points_pass};
ghost use Rattle.edwards_curves.specs.Numbers.{curve_d, little, order, prime, root_of_minus_one};
ghost use Rattle.edwards_curves.specs.Points.{is_on_curve};
ghost use Rattle.sha2.specs.Sha512.{sha512};

use crate::decoding::{affine, point_in, read_little, read_number};
use crate::field::Element;
use crate::points::Point;
use big_numbers::{is_below, remainder};
use sha2::{Digest, Sha512};

/// The order of the base point: 2^252 and a number of 125 binary digits (RFC 8032, 5.1).
const ORDER: [u64; 5] = [
    0x5812_631a_5cf5_d3ed,
    0x14de_f9de_a2f7_9cd6,
    0x0000_0000_0000_0000,
    0x1000_0000_0000_0000,
    0x0000_0000_0000_0000,
];

/// The base point (RFC 8032, 5.1).
#[tactic(auto, unfolding(crate::specs::Ed25519::base))]
fn base() -> Point
    ensures { result ≡ base }
{
    Point {
        x: Element::base_x(),
        y: Element::base_y(),
        z: Element::small(1),
        t: Element::base_t(),
    }
}

/// The constants are what the standard says of them (RFC 8032, 5.1): d is -121665/121666, the root of -1 is one, and the base point is
/// on the curve, with y = 4/5 and an even x.
#[tactic(auto, unfolding(crate::specs::Numbers::prime, crate::specs::Numbers::curve_d, crate::specs::Numbers::root_of_minus_one, crate::specs::Ed25519::base, crate::specs::Points::is_on_curve))]
pub fn ed25519_constants()
    ensures d { (curve_d * 121666 + 121665) % prime ≡ 0 }
    ensures root { (root_of_minus_one * root_of_minus_one + 1) % prime ≡ 0 }
    ensures base_y { (base.y * 5) % prime ≡ 4 }
    ensures base_x { base.x % 2 ≡ 0 }
    ensures base_on_curve { is_on_curve base.x base.y ≡ true }
    ensures base_product { base.t ≡ (base.x * base.y) % prime }
{}

/// The digest by SHA-512 of R, key and bytes.
fn digest_of(first: &[u8], key: &[u8], bytes: &[u8]) -> [u8; 64]
    ensures { result ≡ sha512 ((first.now ++ key.now) ++ bytes.now) }
{
    let mut hasher = Sha512::new();
    hasher.update(first);
    hasher.update(key);
    hasher.update(bytes);
    hasher.finalize()
}

/// The digest as a number, its lowest byte first, modulo the order.
fn challenge(first: &[u8], key: &[u8], bytes: &[u8]) -> [u64; 5]
    ensures { value result ≡ challenge first.now key.now bytes.now }
{
    let mut digest = digest_of(first, key, bytes);
    let number: [u64; 8] = read_little(&mut digest);
    let mut rest = [0u64; 5];
    remainder(&number, &ORDER, &mut rest);
    rest
}

/// [S]B = R + [k]A.
#[tactic(auto, unfolding(crate::specs::Ed25519::passes))]
fn passes(r: &Point, a: &Point, k: &[u64; 5], s: &[u64; 5]) -> bool
    ensures { result ≡ passes r.now a.now (value k.now) (value s.now) }
{
    base().multiple(s).is_same(&r.add(&a.multiple(k)))
}

/// Key and R are points, and the equation holds.
#[tactic(auto, unfolding(crate::specs::Ed25519::points_pass))]
fn points_pass(key: &[u8], bytes: &[u8], first: &[u8], s: &[u64; 5]) -> bool
    requires key { length key.now ≡ 32 }
    requires first { length first.now ≡ 32 }
    ensures { result ≡ points_pass key.now bytes.now first.now (value s.now) }
{
    match point_in(key) {
        Some(a) => match point_in(first) {
            Some(r) => passes(&r, &a, &challenge(first, key, bytes), s),
            None => false,
        },
        None => false,
    }
}

/// The number is below the order.
#[tactic(auto, unfolding(crate::specs::Numbers::order))]
fn is_below_order(s: &[u64; 5]) -> bool
    ensures { result ≡ nat_lt (value s.now) order }
{
    is_below(s, &ORDER)
}

/// S is below the order, and key and R pass with it.
#[tactic(auto, unfolding(crate::specs::Ed25519::parts_pass))]
fn parts_pass(key: &[u8], bytes: &[u8], first: &[u8], second: &[u8]) -> bool
    requires key { length key.now ≡ 32 }
    requires first { length first.now ≡ 32 }
    requires second { length second.now ≡ 32 }
    ensures { result ≡ parts_pass key.now bytes.now first.now second.now }
{
    let s: [u64; 5] = read_number(second);
    is_below_order(&s) && points_pass(key, bytes, first, &s)
}

/// The signature over the bytes is the key's: it has 64 bytes, R and S, and the key 32 (RFC 8032, 5.1.5 and 5.1.6); R and the key
/// are written as points are, S is below the order, and the equation holds (5.1.7).
#[tactic(auto, unfolding(crate::specs::Ed25519::ed25519_accepts))]
pub fn ed25519_accepts(key: &[u8], bytes: &[u8], signature: &[u8]) -> bool
    ensures { result ≡ ed25519_accepts key.now bytes.now signature.now }
{
    if key.len() != 32 || signature.len() != 64 {
        return false;
    }
    let (first, second) = signature.split_at(32);
    parts_pass(key, bytes, first, second)
}

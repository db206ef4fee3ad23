//! Keys and signatures of RSA (RFC 3110; RFC 5702; RFC 8017, 8.2.2).

ghost use Rattle.std.specs.Prelude.{◌≡◌, ℕ, ◌+◌, ◌-◌, ◌*◌, ◌%◌, ◌^◌, ◌<◌, ◌≤◌, ◌&&◌, ◌==◌, length, nat_lt, nat_le, slice_index, option_map};
ghost use Rattle.big_numbers.specs.Limbs.{number};
ghost use Rattle.dns_signatures.specs.Rsa.{is_good_key, is_rsa, key_accepts, key_after, key_in, opens_to, rsa_accepts};

use crate::padding::{digest_info, padded};
use big_numbers::{is_below, is_equal, power_of, read_bytes, read_word};
use std::marker::Model;

/// The greatest exponent has 34 bits.
const MOST_EXPONENT: u64 = 17_179_869_183;

/// A key of RSA: the bytes of its exponent and of its modulus.
#[derive(Drop)]
struct RsaKey<'a> {
    exponent: &'a [u8],
    modulus: &'a [u8],
}

impl<'a> Model for RsaKey<'a> {
    ghost use Rattle.dns_signatures.specs.Rsa.{RsaKeyValue};

    ghost Value = { RsaKeyValue };

    ghost view = { λ k. record { exponent = k.exponent.now; modulus = k.modulus.now } };
}

impl<'a> RsaKey<'a> {
    /// The key that a DNSKEY's public key field has.
    fn read(key: &'a [u8]) -> Option<RsaKey<'a>>
        ensures { result ≡ key_in key.now }
    {
        match key {
            [0, high, low, rest @ ..] => RsaKey::after(
                usize::from(*high) * 256 + usize::from(*low),
                rest,
            ),
            [0, ..] => None,
            [size, rest @ ..] => RsaKey::after(usize::from(*size), rest),
            [] => None,
        }
    }

    /// An exponent of so many bytes, and the modulus.
    fn after(size: usize, rest: &'a [u8]) -> Option<RsaKey<'a>>
        ensures { result ≡ key_after size rest.now }
    {
        if size > rest.len() {
            return None;
        }
        Some(RsaKey {
            exponent: &rest[..size],
            modulus: &rest[size..],
        })
    }

    /// Neither number begins with a zero, and both are within their bounds.
    fn is_good(&self, least: usize) -> bool
        ensures { result ≡ is_good_key least self.now }
    {
        begins_nonzero(self.exponent)
            && self.exponent.len() <= 5
            && read_word(self.exponent) <= MOST_EXPONENT
            && begins_nonzero(self.modulus)
            && least <= self.modulus.len()
            && self.modulus.len() <= 512
    }
}

/// The first byte is there and not zero.
fn begins_nonzero(bytes: &[u8]) -> bool
    ensures { result ≡ nat_lt 0 (slice_index bytes.now 0) }
{
    !bytes.is_empty() && bytes[0] > 0
}

/// The signature's power is the number that the bytes write.
fn opens_to(signature: &[u8], exponent: &[u8], modulus: &[u8], expected: &[u8]) -> bool
    requires exponent { length exponent.now ≤ 8 }
    requires modulus { length modulus.now ≤ 512 }
    requires positive { 0 < slice_index modulus.now 0 }
    requires signature { length signature.now ≡ length modulus.now }
    requires expected { length expected.now ≡ length modulus.now }
    ensures { result ≡ opens_to signature.now (record { exponent = exponent.now; modulus = modulus.now }) expected.now }
{
    let width = (modulus.len() + 7) / 8 + 1;
    let mut modulus_space = [0u64; 65];
    let mut base_space = [0u64; 65];
    let mut power_space = [0u64; 65];
    let mut scaled_space = [0u64; 65];
    let mut wide_space = [0u64; 65];
    let mut product_space = [0u64; 130];
    let modulus_limbs = &mut modulus_space[..width];
    let base = &mut base_space[..width];
    let power = &mut power_space[..width];
    read_bytes(modulus, modulus_limbs);
    read_bytes(signature, base);
    if !is_below(base, modulus_limbs) {
        return false;
    }
    power_of(
        base,
        read_word(exponent),
        modulus_limbs,
        power,
        &mut scaled_space[..width],
        &mut wide_space[..width],
        &mut product_space[..2 * width],
    );
    read_bytes(expected, base);
    is_equal(power, base)
}

/// The signature over the bytes is the key's.
fn key_accepts(algorithm: u8, bytes: &[u8], signature: &[u8], key: &RsaKey<'_>) -> bool
    ensures { result ≡ key_accepts algorithm bytes.now signature.now key.now }
{
    let least = if algorithm == 10 { 128 } else { 64 };
    if !key.is_good(least) || signature.len() != key.modulus.len() {
        return false;
    }
    let info = digest_info(algorithm, bytes);
    let expected = padded(key.modulus.len(), info.as_slice());
    opens_to(signature, key.exponent, key.modulus, expected.as_slice())
}

/// The signature over the bytes is the key's, under an algorithm of RSA.
pub fn rsa_accepts(algorithm: u8, key: &[u8], bytes: &[u8], signature: &[u8]) -> bool
    ensures { result ≡ rsa_accepts algorithm key.now bytes.now signature.now }
{
    if !is_rsa(algorithm) {
        return false;
    }
    match RsaKey::read(key) {
        Some(key) => key_accepts(algorithm, bytes, signature, &key),
        None => false,
    }
}

/// The algorithm is one of RSA.
pub fn is_rsa(algorithm: u8) -> bool
    ensures { result ≡ is_rsa algorithm }
{
    algorithm == 5 || algorithm == 7 || algorithm == 8 || algorithm == 10
}

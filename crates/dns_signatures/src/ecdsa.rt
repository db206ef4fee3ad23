//! Signatures by ECDSA on P-256 and P-384 (RFC 6605, 4).

ghost use Rattle.std.specs.Prelude.{◌≡◌, ◌*◌, ◌≤◌, length};
ghost use Rattle.big_numbers.specs.Limbs.{number, value};
ghost use Rattle.dns_signatures.specs.Ecdsa.{p256_accepts, p384_accepts, sized_accepts};

use crate::padding::{sha256_of, sha384_of};
use big_numbers::read_bytes;
use weierstrass_curves::Curve;

/// The signature over the bytes is the key's, under ECDSA on P-256 with SHA-256.
#[tactic(auto, unfolding(crate::specs::Ecdsa::p256_accepts))]
pub fn p256_accepts(key: &[u8], bytes: &[u8], signature: &[u8]) -> bool
    ensures { result ≡ p256_accepts key.now bytes.now signature.now }
{
    sized_accepts(&Curve::p256(), 32, key, &sha256_of(bytes), signature)
}

/// The signature over the bytes is the key's, under ECDSA on P-384 with SHA-384.
#[tactic(auto, unfolding(crate::specs::Ecdsa::p384_accepts))]
pub fn p384_accepts(key: &[u8], bytes: &[u8], signature: &[u8]) -> bool
    ensures { result ≡ p384_accepts key.now bytes.now signature.now }
{
    sized_accepts(&Curve::p384(), 48, key, &sha384_of(bytes), signature)
}

/// The signature over a digest is the key's, where each number has so many bytes.
#[tactic(auto, unfolding(crate::specs::Ecdsa::sized_accepts))]
fn sized_accepts<const N: usize>(
    curve: &Curve<N>,
    size: usize,
    key: &[u8],
    digest: &[u8],
    signature: &[u8],
) -> bool
    requires few { N ≤ 7 }
    requires size { size ≤ 8 * N }
    requires digest { length digest.now ≤ 8 * N }
    ensures { result ≡ sized_accepts curve.now size key.now digest.now signature.now }
{
    if key.len() != size + size || signature.len() != size + size {
        return false;
    }
    let (x, y) = key.split_at(size);
    let (r, s) = signature.split_at(size);
    curve.accepts(&read(x), &read(y), &read(digest), &read(r), &read(s))
}

/// The number that bytes write.
fn read<const N: usize>(bytes: &[u8]) -> [u64; N]
    requires few { N ≤ 7 }
    requires fits { length bytes.now ≤ 8 * N }
    ensures { value result ≡ number bytes.now }
{
    let mut limbs = [0; N];
    read_bytes(bytes, &mut limbs);
    limbs
}

//! Digests, and what a signature by RSA encodes (EMSA-PKCS1-v1_5, RFC 8017, 9.2).

ghost use Rattle.std.specs.Prelude.{◌≡◌, ◌+◌, ◌≤◌, ◌++◌, length};
ghost use Rattle.dns_signatures.specs.Rsa.{digest_info, least_size, padded};
ghost use Rattle.sha1.specs.Sha1.{sha1};
ghost use Rattle.sha2.specs.Sha256.{sha256};
ghost use Rattle.sha2.specs.Sha512.{sha384, sha512};

use arrayvec::ArrayVec;
use sha1::Sha1;
use sha2::{Digest, Sha256, Sha384, Sha512};

const SHA1_PREFIX: [u8; 15] = [48, 33, 48, 9, 6, 5, 43, 14, 3, 2, 26, 5, 0, 4, 20];

const SHA256_PREFIX: [u8; 19] = [
    48, 49, 48, 13, 6, 9, 96, 134, 72, 1, 101, 3, 4, 2, 1, 5, 0, 4, 32,
];

const SHA512_PREFIX: [u8; 19] = [
    48, 81, 48, 13, 6, 9, 96, 134, 72, 1, 101, 3, 4, 2, 3, 5, 0, 4, 64,
];

/// The digest's name and the digest, by an algorithm of RSA.
pub fn digest_info(algorithm: u8, bytes: &[u8]) -> ArrayVec<u8, 83>
    ensures items { result.items ≡ digest_info algorithm bytes.now }
    ensures fits { length result.items + 11 ≤ least_size algorithm }
{
    if algorithm == 8 {
        return joined(&SHA256_PREFIX, &sha256_of(bytes));
    }
    if algorithm == 10 {
        return joined(&SHA512_PREFIX, &sha512_of(bytes));
    }
    joined(&SHA1_PREFIX, &Sha1::digest(bytes))
}

/// The digest by SHA-256.
pub fn sha256_of(bytes: &[u8]) -> [u8; 32]
    ensures { result ≡ sha256 bytes.now }
{
    let mut hasher = Sha256::new();
    hasher.update(bytes);
    hasher.finalize()
}

/// The digest by SHA-384.
pub fn sha384_of(bytes: &[u8]) -> [u8; 48]
    ensures { result ≡ sha384 bytes.now }
{
    let mut hasher = Sha384::new();
    hasher.update(bytes);
    hasher.finalize()
}

/// The digest by SHA-512.
fn sha512_of(bytes: &[u8]) -> [u8; 64]
    ensures { result ≡ sha512 bytes.now }
{
    let mut hasher = Sha512::new();
    hasher.update(bytes);
    hasher.finalize()
}

/// Two parts, one after the other.
fn joined(first: &[u8], second: &[u8]) -> ArrayVec<u8, 83>
    requires { length first.now + length second.now ≤ 83 }
    ensures { result.items ≡ first.now ++ second.now }
{
    let mut parts = ArrayVec::new();
    push_all(&mut parts, first);
    push_all(&mut parts, second);
    parts
}

/// Bytes more, for which there is room.
fn push_all<const N: usize>(bytes: &mut ArrayVec<u8, N>, more: &[u8])
    requires { length bytes.old.items + length more.now ≤ N }
    ensures { bytes.new.items ≡ bytes.old.items ++ more.now }
{
    for byte in more {
        bytes.push(*byte);
    }
}

/// The bytes that a signature's power is compared with.
pub fn padded(size: usize, info: &[u8]) -> ArrayVec<u8, 512>
    requires least { length info.now + 11 ≤ size }
    requires most { size ≤ 512 }
    ensures items { result.items ≡ padded size info.now }
    ensures len { length result.items ≡ size }
{
    let mut bytes = ArrayVec::new();
    bytes.push(0);
    bytes.push(1);
    for _ in 0..size - 3 - info.len() {
        bytes.push(255);
    }
    bytes.push(0);
    push_all(&mut bytes, info);
    bytes
}

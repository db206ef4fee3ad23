//! Digests of keys, by which DS records name them (RFC 4034, 5.1.4).
ghost use Rattle.std.specs.Prelude.{◌≡◌, ◌++◌};
ghost use Rattle.dns_model.specs.Keys.{covers_key};
ghost use Rattle.dns_model.specs.Names.{wire, folded};
ghost use Rattle.dns_model.specs.Views.{ds_in};
ghost use Rattle.dns_rdata.specs.Covers.{covers_read, digest_type_of};
ghost use Rattle.sha1.specs.Sha1.{sha1};
ghost use Rattle.sha2.specs.Sha256.{sha256};
ghost use Rattle.sha2.specs.Sha512.{sha384};

use crate::{Ds, FoldedWire};
use dns_record::Name;
use sha1::Sha1;
use sha2::{Digest, Sha256, Sha384};

/// A digest type that is supported.
#[derive(Clone, Copy, Debug, PartialEq, Eq)]
pub enum DigestType {
    /// SHA-1 (RFC 4034, A.2).
    Sha1,
    /// SHA-256 (RFC 4509, 2).
    Sha256,
    /// SHA-384 (RFC 6605, 2).
    Sha384,
}

impl DigestType {
    /// The digest type of a number; None exactly where it isn't supported.
    pub fn of(number: u8) -> Option<DigestType>
        ensures { result ≡ digest_type_of number }
    {
        match number {
            Ds::SHA1 => Some(DigestType::Sha1),
            Ds::SHA256 => Some(DigestType::Sha256),
            Ds::SHA384 => Some(DigestType::Sha384),
            _ => None,
        }
    }
}

/// Whether the bytes read as a DS whose digest type is supported, 1, 2 or 4, and whose digest is that of the owner and the
/// DNSKEY rdata (RFC 4034, 5.1.4; RFC 4509; RFC 6605). It takes no memory.
pub fn ds_covers(owner: &Name, key: &[u8], ds: &[u8]) -> bool
    ensures { result ≡ covers_read owner.now key.now (ds_in ds.now) }
{
    match Ds::read(ds) {
        Some(ds) => ds.covers(owner, key),
        None => false,
    }
}

impl<'a> Ds<'a> {
    /// Whether the digest type is supported, 1, 2 or 4, and the digest is that of the owner and the DNSKEY rdata.
    pub fn covers(&self, owner: &Name, key: &[u8]) -> bool
        ensures { result ≡ covers_key owner.now key.now self.now }
    {
        let Some(digest_type) = DigestType::of(self.digest_type) else {
            return false;
        };
        let name = FoldedWire::of(owner);
        match digest_type {
            DigestType::Sha1 => sha1_of(name.as_slice(), key).as_slice() == self.digest,
            DigestType::Sha256 => sha256_of(name.as_slice(), key).as_slice() == self.digest,
            DigestType::Sha384 => sha384_of(name.as_slice(), key).as_slice() == self.digest,
        }
    }
}

// The SHA-1 digest of two pieces, one behind the other.
pub(crate) fn sha1_of(first: &[u8], second: &[u8]) -> [u8; 20]
    ensures { result ≡ sha1 (first.now ++ second.now) }
{
    let mut hasher = Sha1::new();
    hasher.update(first);
    hasher.update(second);
    hasher.finalize()
}

// The SHA-256 digest of two pieces, one behind the other.
fn sha256_of(first: &[u8], second: &[u8]) -> [u8; 32]
    ensures { result ≡ sha256 (first.now ++ second.now) }
{
    let mut hasher = Sha256::new();
    hasher.update(first);
    hasher.update(second);
    hasher.finalize()
}

// The SHA-384 digest of two pieces, one behind the other.
fn sha384_of(first: &[u8], second: &[u8]) -> [u8; 48]
    ensures { result ≡ sha384 (first.now ++ second.now) }
{
    let mut hasher = Sha384::new();
    hasher.update(first);
    hasher.update(second);
    hasher.finalize()
}

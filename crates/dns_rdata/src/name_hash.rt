//! The hash of a name in NSEC3 records (RFC 5155, 5).
ghost use Rattle.std.specs.Prelude.{◌≡◌};
ghost use Rattle.dns_model.specs.Nsec3Hash.{iterated_hash, nsec3_hash as hash_of_name};

use crate::FoldedWire;
use crate::digest::sha1_of;
use dns_record::{Name, NameRef};

/// The hash of a name in NSEC3 records (RFC 5155, 5): SHA-1 of its wire form with A to Z as a to z and of the salt, and then
/// `iterations` times more of that digest and the salt. It takes no memory.
pub fn nsec3_hash(salt: &[u8], name: &Name, iterations: u16) -> [u8; 20]
    ensures { result ≡ hash_of_name salt.now name.now iterations }
{
    nsec3_hash_of(salt, &name.borrowed(), iterations)
}

/// The same of a name read where it stands.
pub fn nsec3_hash_of(salt: &[u8], name: &NameRef<'_>, iterations: u16) -> [u8; 20]
    ensures { result ≡ hash_of_name salt.now name.now iterations }
{
    let wire = FoldedWire::of_ref(name);
    hash_of(salt, wire.as_slice(), iterations)
}

// The hash of a name's bytes under a salt, once and then so many times more (RFC 5155, 5).
fn hash_of(salt: &[u8], bytes: &[u8], iterations: u16) -> [u8; 20]
    ensures { result ≡ iterated_hash salt.now bytes.now iterations }
{
    let mut hash = sha1_of(bytes, salt);
    for _round in 0..iterations {
        hash = sha1_of(hash.as_slice(), salt);
    }
    hash
}

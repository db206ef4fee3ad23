//! What the fields of one NSEC3 record say: whether it counts, its hashes, its zone (RFC 5155, 3, 8.1 and 8.2).
ghost use Rattle.std.specs.Prelude.{◌≡◌, Some, length};
ghost use Rattle.dns_model.specs.Nsec3Hash.{base32hex_decode as decoded};
ghost use Rattle.dns_rules.specs.Nsec3Covering.{first_label as first_label_of, is_opt_out as is_opt_out_in, is_considered as is_considered_in, nsec3_matches as matches_in};
ghost use Rattle.dns_rules.specs.Nsec3Verdict.{is_of_zone as is_of_zone_in};

use crate::hash_text::HashText;
use dns_rdata::{Nsec3Record, is_hash_text};
use dns_record::{Name, NameRef};

/// SHA-1, the one hash algorithm that is known (RFC 5155, 11).
const SHA1: u8 = 1;

/// Whether the record isn't to be ignored: its hash algorithm and its flags are known, and its owner and its next hash are
/// hashes (RFC 5155, 3, 8.1 and 8.2).
pub fn is_considered(nsec3: &Nsec3Record) -> bool
    ensures { result ≡ is_considered_in nsec3.now }
{
    nsec3.hash_algorithm == SHA1
        && nsec3.flags <= 1
        && is_hash_text(first_label(&nsec3.owner))
        && nsec3.next.len() == 20
}

// The first label of an owner; no byte of the root.
fn first_label(owner: &Name) -> &[u8]
    ensures { result.now ≡ first_label_of owner.now }
{
    match owner.borrowed().split_first() {
        Some((label, _)) => label,
        None => owner.wire().split_at(0).0,
    }
}

/// Whether unsigned delegations may lie between the record's hashes (RFC 5155, 3.1.2.1).
pub(crate) fn is_opt_out(nsec3: &Nsec3Record) -> bool
    ensures { result ≡ is_opt_out_in nsec3.now }
{
    nsec3.flags & 1 != 0
}

/// The hash that the owner's first label is; `None` where it is none.
pub(crate) fn owner_hash(nsec3: &Nsec3Record) -> Option<HashText>
    ensures { result ≡ decoded (first_label_of nsec3.now.owner) }
{
    HashText::of_label(first_label(&nsec3.owner))
}

/// The next hash; `None` where it hasn't 20 bytes.
pub(crate) fn next_hash(nsec3: &Nsec3Record) -> Option<HashText>
    requires { length nsec3.now.fields.next ≡ 20 }
    ensures { result ≡ Some nsec3.now.fields.next }
{
    let (hash, _) = nsec3.next.as_slice().split_first_chunk::<20>()?;
    Some(HashText::of(hash))
}

/// Whether the record's owner has the hash (RFC 5155, 1.3). Few owners do, so their texts are compared first.
pub(crate) fn matches(hash: &HashText, nsec3: &Nsec3Record) -> bool
    ensures { result ≡ matches_in hash.now nsec3.now }
{
    hash.is_written(first_label(&nsec3.owner)) && is_considered(nsec3)
}

/// Whether the record stands right below the zone's apex (RFC 5155, 3).
pub fn is_of_zone(zone: &NameRef<'_>, nsec3: &Nsec3Record) -> bool
    ensures { result ≡ is_of_zone_in zone.now nsec3.now }
{
    nsec3.owner.borrowed().parent().eq_name(zone)
}

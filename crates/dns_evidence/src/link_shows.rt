//! Tests of the links that a link names by their numbers (RFC 4035, 5.2 and 5.3), for whoever makes or checks a chain.

ghost use Rattle.std.specs.Prelude.{◌≡◌, ◌==◌, ◌&&◌, Some, map, slice_get};
ghost use Rattle.dns_model.specs.Names.{name_eq};
ghost use Rattle.dns_model.specs.Chains.{has_bytes, shows_key, shows_ds, shows_member, all_shown};
ghost use Rattle.dns_evidence.specs.Link.{link_value};

use crate::Link;
use dns_record::{DNSClass, Name, NameRef, Rdata, RecordType};

/// The list holds these bytes.
pub fn has_rdata(rdatas: &[Rdata], rdata: &[u8]) -> bool
    ensures { result ≡ has_bytes rdatas.now rdata.now }
{
    rdatas.iter().any(|r| rdata == r.as_slice())
}

/// The two names are equal, letters folded, and so are the two classes.
pub fn same_owner(owner: &NameRef, class: DNSClass, name: &Name, of: DNSClass) -> bool
    ensures { result ≡ (name_eq owner.now name.now && (class.0 == of.0)) }
{
    owner.eq_name(&name.borrowed()) && class == of
}

// The link shows that the owner's zone trusts this key.
fn link_shows_key(link: &Link, owner: &NameRef, class: DNSClass, key: &[u8]) -> bool
    ensures { result ≡ shows_key owner.now class.0 key.now (Some (link_value link.now)) }
{
    match link {
        Link::Anchored {
            owner: name,
            class: of,
            key: shown,
        } => same_owner(owner, class, name, *of) && key == shown.as_slice(),
        Link::Matched {
            owner: name,
            class: of,
            key: shown,
            ..
        } => same_owner(owner, class, name, *of) && key == shown.as_slice(),
        _ => false,
    }
}

// The link shows a DS of the owner.
fn link_shows_ds(link: &Link, owner: &NameRef, class: DNSClass, ds: &[u8]) -> bool
    ensures { result ≡ shows_ds owner.now class.0 ds.now (Some (link_value link.now)) }
{
    match link {
        Link::Signed {
            owner: name,
            class: of,
            record_type,
            rdatas,
            ..
        } => {
            *record_type == RecordType::DS
                && same_owner(owner, class, name, *of)
                && has_rdata(rdatas, ds)
        }
        _ => false,
    }
}

// The link shows a key set of the owner with this key in it.
fn link_shows_member(link: &Link, owner: &NameRef, class: DNSClass, key: &[u8]) -> bool
    ensures { result ≡ shows_member owner.now class.0 key.now (Some (link_value link.now)) }
{
    match link {
        Link::KeySet {
            owner: name,
            class: of,
            keys,
            ..
        } => same_owner(owner, class, name, *of) && has_rdata(keys, key),
        Link::Signed {
            owner: name,
            class: of,
            record_type,
            rdatas,
            ..
        } => {
            *record_type == RecordType::DNSKEY
                && same_owner(owner, class, name, *of)
                && has_rdata(rdatas, key)
        }
        _ => false,
    }
}

/// The link with this number shows that the owner's zone trusts this key: it is anchored, or matched by a DS.
pub fn shows_key(
    earlier: &[Link],
    number: u32,
    owner: &NameRef,
    class: DNSClass,
    key: &[u8],
) -> bool
    ensures { result ≡ shows_key owner.now class.0 key.now (slice_get (map link_value earlier.now) number) }
{
    match earlier.get(number as usize) {
        Some(link) => link_shows_key(link, owner, class, key),
        None => false,
    }
}

/// The link with this number shows a DS of the owner.
pub fn shows_ds(earlier: &[Link], number: u32, owner: &NameRef, class: DNSClass, ds: &[u8]) -> bool
    ensures { result ≡ shows_ds owner.now class.0 ds.now (slice_get (map link_value earlier.now) number) }
{
    match earlier.get(number as usize) {
        Some(link) => link_shows_ds(link, owner, class, ds),
        None => false,
    }
}

/// The link with this number shows a key set of the owner with this key in it.
pub fn shows_member(
    earlier: &[Link],
    number: u32,
    owner: &NameRef,
    class: DNSClass,
    key: &[u8],
) -> bool
    ensures { result ≡ shows_member owner.now class.0 key.now (slice_get (map link_value earlier.now) number) }
{
    match earlier.get(number as usize) {
        Some(link) => link_shows_member(link, owner, class, key),
        None => false,
    }
}

/// Each key is shown by the link whose number stands at its place, and there are as many numbers as keys.
#[tactic(auto, unfolding(dns_model::specs::Chains::all_shown))]
pub fn all_shown(
    earlier: &[Link],
    owner: &NameRef,
    class: DNSClass,
    mut keys: &[Rdata],
    mut numbers: &[u32],
) -> bool
    ensures { result ≡ all_shown (map link_value earlier.now) owner.now class.0 keys.entry.now numbers.entry.now }
{
    'keys: while let Some((key, other_keys)) = keys.split_first() {
        let Some((number, other_numbers)) = numbers.split_first() else {
            return false;
        };
        if !shows_key(earlier, *number, owner, class, key.as_slice()) {
            return false;
        }
        keys = other_keys;
        numbers = other_numbers;
    }
    numbers.is_empty()
}

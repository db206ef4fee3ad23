//! A link with an index of the rdatas that it shows, so that many links that name one of them are tested in little time.

ghost use Rattle.std.specs.Prelude.{◌≡◌, IfOk, Some};
ghost use Rattle.dns_model.specs.Chains.{has_bytes, shows_ds as shows_ds_in, shows_member as shows_member_in};
ghost use Rattle.dns_evidence.specs.Link.{link_value};
ghost use Rattle.dns_chain_check.specs.Indexed.{Holds, IndexesLink, members_in};

use dns_evidence::{Link, same_owner};
use dns_record::{DNSClass, NameRef, NoMemory, Rdata, RecordType};
use std::alloc::Global;
use std::collections::BTreeSet;
use std::marker::Model;

// Rdatas in their order, so that no choice of them makes a search longer, as it would where a hash can be foreseen.
type Members<'a> = BTreeSet<&'a [u8]>;

/// A link, with the rdatas of its set in an index.
#[derive(Drop)]
pub(crate) struct IndexedLink<'a> {
    link: &'a Link,
    members: Members<'a>,
}

impl<'a> Model for IndexedLink<'a> {
    ghost use Rattle.dns_model.specs.Chains.{LinkValue};
    ghost use Rattle.dns_evidence.specs.Link.{link_value};
    ghost use Rattle.dns_chain_check.specs.Indexed.{IndexesLink};

    ghost Value = { LinkValue };

    ghost view = { λ i. link_value i.link.now };

    ghost invariant = { λ i. IndexesLink i.members (link_value i.link.now) };
}

impl<'a> IndexedLink<'a> {
    /// The index of a link.
    pub(crate) fn of(alloc: Global, link: &'a Link) -> Result<IndexedLink<'a>, NoMemory>
        ensures { IfOk result (λ i. i ≡ link_value link.now) }
    {
        let members = members_of(alloc, link)?;
        Ok(IndexedLink { link, members })
    }

    /// The link shows a DS of the owner.
    pub(crate) fn shows_ds(&self, owner: &NameRef, class: DNSClass, ds: &[u8]) -> bool
        ensures { result ≡ shows_ds_in owner.now class.0 ds.now (Some self.now) }
    {
        match self.link {
            Link::Anchored { .. } | Link::Matched { .. } | Link::KeySet { .. } => false,
            Link::Signed {
                owner: name,
                class: of,
                record_type,
                ..
            } => {
                *record_type == RecordType::DS
                    && same_owner(owner, class, name, *of)
                    && self.has_member(ds)
            }
        }
    }

    /// The link shows a key set of the owner with this key in it.
    pub(crate) fn shows_member(&self, owner: &NameRef, class: DNSClass, key: &[u8]) -> bool
        ensures { result ≡ shows_member_in owner.now class.0 key.now (Some self.now) }
    {
        match self.link {
            Link::Anchored { .. } | Link::Matched { .. } => false,
            Link::KeySet {
                owner: name,
                class: of,
                ..
            } => same_owner(owner, class, name, *of) && self.has_member(key),
            Link::Signed {
                owner: name,
                class: of,
                record_type,
                ..
            } => {
                *record_type == RecordType::DNSKEY
                    && same_owner(owner, class, name, *of)
                    && self.has_member(key)
            }
        }
    }

    // The link's set has this rdata.
    fn has_member(&self, rdata: &[u8]) -> bool
        ensures { result ≡ has_bytes (members_in self.now) rdata.now }
    {
        self.members.contains(rdata)
    }
}

// The rdatas of a link's set.
fn members_of<'a>(alloc: Global, link: &'a Link) -> Result<Members<'a>, NoMemory>
    ensures { IfOk result (λ m. IndexesLink m (link_value link.now)) }
{
    match link {
        Link::Anchored { .. } | Link::Matched { .. } => rdatas_in(alloc, &[]),
        Link::KeySet { keys, .. } => rdatas_in(alloc, keys),
        Link::Signed { rdatas, .. } => rdatas_in(alloc, rdatas),
    }
}

// These rdatas, each once.
fn rdatas_in<'a>(alloc: Global, rdatas: &'a [Rdata]) -> Result<Members<'a>, NoMemory>
    ensures { IfOk result (λ m. Holds m rdatas.now) }
{
    let mut members = BTreeSet::new(alloc);
    for rdata in rdatas {
        members.insert(rdata.as_slice())?;
    }
    Ok(members)
}

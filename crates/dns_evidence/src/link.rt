//! Links of a chain of trust, and chains (RFC 4035, 5.2 and 5.3).
ghost use Rattle.std.specs.Prelude.{◌≡◌, IfOk, map};
ghost use Rattle.dns_model.specs.Chains.{Matched as matched, KeySet as key_set, Signed as signed};
ghost use Rattle.dns_evidence.specs.Link.{link_value};

use dns_model::Section;
use dns_record::{DNSClass, Name, NoMemory, Rdata, RecordType};
use std::marker::Model;

/// A step of a chain of trust (RFC 4035, 5.2 and 5.3). Numbers are those of earlier links, from 0.
pub enum Link {
    /// A key that a trust anchor names.
    Anchored {
        owner: Name,
        class: DNSClass,
        key: Rdata,
    },
    /// A key that matches a DS record of an earlier link.
    Matched {
        owner: Name,
        class: DNSClass,
        key: Rdata,
        ds_link: u32,
        ds: Rdata,
    },
    /// A key set, each of whose keys an earlier link shows.
    KeySet {
        owner: Name,
        class: DNSClass,
        keys: Vec<Rdata>,
        links: Vec<u32>,
    },
    /// A set that a key of an earlier link signed.
    Signed {
        owner: Name,
        class: DNSClass,
        record_type: RecordType,
        rdatas: Vec<Rdata>,
        sig: Rdata,
        key_link: u32,
        key: Rdata,
    },
}

// By hand, so that a function that lets one go calls this.
impl Drop for Link {
    fn drop(self) {
        match self {
            Link::Anchored {
                owner: _,
                class: _,
                key: _,
            } => {}
            Link::Matched {
                owner: _,
                class: _,
                key: _,
                ds_link: _,
                ds: _,
            } => {}
            Link::KeySet {
                owner: _,
                class: _,
                keys: _,
                links: _,
            } => {}
            Link::Signed {
                owner: _,
                class: _,
                record_type: _,
                rdatas: _,
                sig: _,
                key_link: _,
                key: _,
            } => {}
        }
    }
}

/// The signature of a signed set, and the key that made it (RFC 4035, 5.3).
#[derive(Clone, Copy)]
pub struct LinkSignature<'a> {
    /// The rdata of the signature.
    pub sig: &'a Rdata,
    /// The number of the link that shows the key.
    pub key_link: u32,
    /// The rdata of the key.
    pub key: &'a Rdata,
}

/// The chain of a Secure set, whose last link is that set.
#[derive(Drop)]
pub struct Chain {
    /// Where the set stands.
    pub section: Section,
    /// The links, each after those that it stands on.
    pub links: Vec<Link>,
}

impl Model for Chain {
    ghost use Rattle.std.specs.Prelude.{map};
    ghost use Rattle.dns_model.specs.SoundAnswers.{ChainValue};
    ghost use Rattle.dns_evidence.specs.Link.{link_value};

    ghost Value = { ChainValue };

    ghost view = { λ c. record { section = c.section; links = map link_value c.links.items } };
}

/// Equal rdatas in memory of their own, in order.
pub fn clone_rdatas(rdatas: &Vec<Rdata>) -> Result<Vec<Rdata>, NoMemory>
    ensures { IfOk result (λ v. v.items ≡ rdatas.now.items) }
{
    let mut all = Vec::with_capacity(*rdatas.allocator(), rdatas.len())?;
    for rdata in rdatas {
        all.push(rdata.try_clone()?)?;
    }
    Ok(all)
}

/// Equal links in memory of their own, in order.
pub fn clone_links(links: &Vec<Link>) -> Result<Vec<Link>, NoMemory>
    ensures { IfOk result (λ v. map link_value v.items ≡ map link_value links.now.items) }
{
    let mut all = Vec::with_capacity(*links.allocator(), links.len())?;
    for link in links {
        all.push(link.try_clone()?)?;
    }
    Ok(all)
}

// A link to a key that matches a DS record, in memory of its own.
fn clone_matched(
    owner: &Name,
    class: DNSClass,
    key: &Rdata,
    ds_link: u32,
    ds: &Rdata,
) -> Result<Link, NoMemory>
    ensures { IfOk result (λ l. link_value l ≡ matched owner.now class.0 key.now ds_link ds.now) }
{
    let owner = owner.try_clone()?;
    let key = key.try_clone()?;
    let ds = ds.try_clone()?;
    Ok(Link::Matched {
        owner,
        class,
        key,
        ds_link,
        ds,
    })
}

// A link to a key set, in memory of its own.
fn clone_key_set(
    owner: &Name,
    class: DNSClass,
    keys: &Vec<Rdata>,
    links: &Vec<u32>,
) -> Result<Link, NoMemory>
    ensures { IfOk result (λ l. link_value l ≡ key_set owner.now class.0 keys.now.items links.now.items) }
{
    let links = links.clone()?;
    let keys = clone_rdatas(keys)?;
    let owner = owner.try_clone()?;
    Ok(Link::KeySet {
        owner,
        class,
        keys,
        links,
    })
}

// A link to a signed set, in memory of its own.
fn clone_signed(
    owner: &Name,
    class: DNSClass,
    record_type: RecordType,
    rdatas: &Vec<Rdata>,
    by: &LinkSignature<'_>,
) -> Result<Link, NoMemory>
    ensures { IfOk result (λ l. link_value l ≡ signed owner.now class.0 record_type.0 rdatas.now.items
        by.now.sig.now by.now.key_link by.now.key.now) }
{
    let rdatas = clone_rdatas(rdatas)?;
    let owner = owner.try_clone()?;
    let sig = by.sig.try_clone()?;
    let key = by.key.try_clone()?;
    Ok(Link::Signed {
        owner,
        class,
        record_type,
        rdatas,
        sig,
        key_link: by.key_link,
        key,
    })
}

impl Link {
    /// A link that says the same, in memory of its own.
    pub fn try_clone(&self) -> Result<Link, NoMemory>
        ensures { IfOk result (λ l. link_value l ≡ link_value self.now) }
    {
        match self {
            Link::Anchored { owner, class, key } => {
                let owner = owner.try_clone()?;
                let key = key.try_clone()?;
                let class = *class;
                Ok(Link::Anchored { owner, class, key })
            }
            Link::Matched {
                owner,
                class,
                key,
                ds_link,
                ds,
            } => clone_matched(owner, *class, key, *ds_link, ds),
            Link::KeySet {
                owner,
                class,
                keys,
                links,
            } => clone_key_set(owner, *class, keys, links),
            Link::Signed {
                owner,
                class,
                record_type,
                rdatas,
                sig,
                key_link,
                key,
            } => {
                let by = LinkSignature {
                    sig,
                    key_link: *key_link,
                    key,
                };
                clone_signed(owner, *class, *record_type, rdatas, &by)
            }
        }
    }
}

impl Chain {
    /// An equal value in memory of its own.
    pub fn try_clone(&self) -> Result<Chain, NoMemory>
        ensures { IfOk result (λ c. c ≡ self.now) }
    {
        let links = clone_links(&self.links)?;
        Ok(Chain {
            section: self.section,
            links,
        })
    }
}

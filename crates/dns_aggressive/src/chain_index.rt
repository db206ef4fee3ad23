//! The chains of a response's authority section, by the owner and type of their sets.
ghost use Rattle.std.specs.Prelude.{◌≡◌, ℕ, IfOk, OnOk, Some, option_copied, option_map};
ghost use Rattle.dns_model.specs.Names.{Labels};
ghost use Rattle.dns_model.specs.Chains.{last_link};
ghost use Rattle.dns_evidence.specs.Link.{link_value};
ghost use Rattle.dns_aggressive.specs.Chains.{AreIndexed, chain_at, set_at_end, set_of_link, with_chain};

use dns_evidence::{Chain, Link};
use dns_model::Section;
use dns_record::{Name, NoMemory, RecordType};
use std::alloc::Global;
use std::collections::BTreeMap;

/// The chains of the authority section, each by the owner and type of the set at its end; of several for one set the first.
pub(crate) struct ChainIndex<'a> {
    chains: BTreeMap<(&'a Name, u16), &'a Chain>,
}

// By hand, so that a function that lets one go calls this.
impl<'a> Drop for ChainIndex<'a> {
    fn drop(self) {
        let ChainIndex { chains: _ } = self;
    }
}

impl<'a> ChainIndex<'a> {
    /// That of the chains of a response.
    pub(crate) fn new(alloc: Global, chains: &'a [Chain]) -> Result<ChainIndex<'a>, NoMemory>
        ensures { IfOk result (λ index. AreIndexed index chains.now) }
    {
        let mut index = ChainIndex {
            chains: BTreeMap::new(alloc),
        };
        let mut place = chains.len();
        // from the last on, so that the first one of a set stays
        'chains: while place > 0 {
            place -= 1;
            index.add(&chains[place])?;
        }
        Ok(index)
    }

    // Adds a chain, in place of a later one for its set.
    fn add(&mut self, chain: &'a Chain) -> Result<(), NoMemory>
        ensures { OnOk result ((owner : Labels) (rtype : ℕ) → chain_at self.new owner rtype
            ≡ with_chain chain.now (chain_at self.old) owner rtype) }
    {
        if let Some((owner, record_type)) = end_of(chain) {
            self.chains.insert((owner, record_type), chain)?;
        }
        Ok(())
    }

    /// The first chain for the set of an owner and type.
    pub(crate) fn get(&self, owner: &'a Name, record_type: RecordType) -> Option<&'a Chain>
        ensures { option_map (λ chain. chain.now) result ≡ chain_at self.now owner.now record_type.0 }
    {
        self.chains.get(&(owner, record_type.0)).copied()
    }
}

// The owner and type of the set at the end of a chain of the authority section; `None` of any other chain.
fn end_of<'a>(chain: &'a Chain) -> Option<(&'a Name, u16)>
    ensures { option_map (λ end. (end.0.now, end.1)) result ≡ set_at_end chain.now }
{
    if chain.section != Section::Authority {
        return None;
    }
    set_of(last(chain)?)
}

/// The last link of a chain.
pub(crate) fn last<'a>(chain: &'a Chain) -> Option<&'a Link>
    ensures { option_map link_value (option_copied result) ≡ last_link chain.now.links }
{
    chain.links.last()
}

// The owner and type of the set that a link is.
fn set_of<'a>(link: &'a Link) -> Option<(&'a Name, u16)>
    ensures { option_map (λ set. (set.0.now, set.1)) result ≡ set_of_link (Some (link_value link.now)) }
{
    match link {
        Link::KeySet { owner, .. } => Some((owner, RecordType::DNSKEY.0)),
        Link::Signed {
            owner,
            record_type,
            ..
        } => Some((owner, record_type.0)),
        _ => None,
    }
}

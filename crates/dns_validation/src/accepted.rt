//! The chains of asked key sets that the verifier accepts, so that none is put to it again in the same validation (RFC 4035, 5.3.3).

ghost use Rattle.std.specs.Prelude.{◌≡◌, IsTrue, OnErr, OnOk, Some, true};
ghost use Rattle.std.specs.BTreeMap.{Updates, get as get_in};
ghost use Rattle.std.specs.Option.{option_copied};
ghost use Rattle.dns_model.specs.Chains.{accepted_alone};
ghost use Rattle.dns_model.specs.Keys.{VerifierAnswers};
ghost use Rattle.dns_cache.specs.Caches.{HasAccepted};
ghost use Rattle.dns_cache.specs.KeyOrder.{key_cmp};
ghost use Rattle.dns_validation.specs.AcceptedChains.{AreAccepted, SameChains};

use crate::links::same_links;
use dns_cache::{CacheKey, Entry};
use dns_chain_check::mark_of;
use dns_evidence::Chain;
use dns_model::{Proof, Section};
use dns_record::{NoMemory, RecordType};
use std::alloc::Global;
use std::collections::BTreeMap;

/// Chains that the verifier accepts, each by the key of its set: at most one for each send.
#[derive(Drop)]
pub(crate) struct AcceptedChains {
    chains: BTreeMap<CacheKey, Chain>,
}

impl AcceptedChains {
    /// None yet.
    pub(crate) fn new(alloc: Global) -> AcceptedChains
        ensures { (answers : VerifierAnswers) → AreAccepted answers result.chains }
    {
        AcceptedChains {
            chains: BTreeMap::new(alloc),
        }
    }

    /// Whether the chain of an entry is one of them.
    pub(crate) fn has(&self, entry: &Entry) -> bool
        ensures { IsTrue result → (answers : VerifierAnswers) → AreAccepted answers self.now.chains
            → HasAccepted answers entry.now }
    {
        let Some(chain) = &entry.chain else {
            return false;
        };
        match chain_at(&self.chains, &entry.key) {
            Some(known) => is_same(known, chain),
            None => false,
        }
    }

    /// Takes the chain of an entry that the verifier accepts, where it is that of an asked key set. Where memory runs out for it, it
    /// isn't known, and is put to the verifier again.
    pub(crate) fn add(&mut self, entry: &Entry)
        ensures { (answers : VerifierAnswers) → AreAccepted answers self.old.chains → HasAccepted answers entry.now
            → AreAccepted answers self.new.chains }
    {
        let Some(chain) = &entry.chain else {
            return;
        };
        if mark_of(&entry.result) == Proof::Secure && is_asked(&entry.key, chain) {
            let _ = insert(&mut self.chains, &entry.key, chain);
        }
    }
}

// The chain that is known by a key.
fn chain_at<'a>(chains: &'a BTreeMap<CacheKey, Chain>, key: &CacheKey) -> Option<&'a Chain>
    ensures { option_copied result ≡ get_in key_cmp chains.now key.now }
{
    chains.get(key)
}

// Whether two chains have the same links.
fn is_same(chain: &Chain, other: &Chain) -> bool
    ensures { IsTrue result → chain.now.links ≡ other.now.links }
{
    same_links(&chain.links, &other.links)
}

// The key set was asked for: it stands in the answer section, and has the name, type and class of the question.
fn is_asked(key: &CacheKey, chain: &Chain) -> bool {
    key.query.query_type == RecordType::DNSKEY
        && key.set.record_type == RecordType::DNSKEY
        && key.set.name == key.query.name
        && key.set.dns_class == key.query.query_class
        && chain.section == Section::Answer
}

// A copy of one more chain.
fn insert(
    chains: &mut BTreeMap<CacheKey, Chain>,
    key: &CacheKey,
    chain: &Chain,
) -> Result<(), NoMemory>
    ensures { (answers : VerifierAnswers) → AreAccepted answers chains.old → accepted_alone answers chain.now.links ≡ true
        → AreAccepted answers chains.new }
{
    let own_key = key.try_clone()?;
    let copy = chain.try_clone()?;
    note_chain(chains, own_key, copy)
}

// Gives a key another chain. After an error each key has the chain that it had.
fn note_chain(
    chains: &mut BTreeMap<CacheKey, Chain>,
    key: CacheKey,
    chain: Chain,
) -> Result<(), NoMemory>
    ensures ok { OnOk result (Updates key_cmp chains.old chains.new key (Some chain)) }
    ensures err { OnErr result (SameChains chains.old chains.new) }
{
    chains.insert(key, chain)?;
    Ok(())
}

//! What a cache keeps of a set: what was found, until when, and of a Secure one its chain (RFC 4035, 4.5).

ghost use Rattle.std.specs.Prelude.{◌≡◌, true, IfOk};
ghost use Rattle.dns_rules.specs.CacheEntries.{is_backed};
ghost use Rattle.dns_cache.specs.KeptEntries.{entry_of};

use crate::kept::Kept;
use crate::{CacheKey, ProofError, RrsetProof};
use dns_evidence::Chain;
use dns_record::NoMemory;
use std::marker::Model;

/// What a cache keeps of a set. Each entry whose mark is Secure has a result that is Ok, and a chain.
pub struct Entry {
    /// By what the cache knows the set.
    pub key: CacheKey,
    /// Seconds since 1970: the first moment at which the entry isn't given any more.
    pub expires: u64,
    /// What was found, or why the set isn't Secure.
    pub result: Result<RrsetProof, ProofError>,
    /// Of a Secure set the chain that ends at it.
    pub chain: Option<Chain>,
}

// By hand, so that a function that lets one go calls this.
impl Drop for Entry {
    fn drop(self) {
        let Entry {
            key: _,
            expires: _,
            result: _,
            chain: _,
        } = self;
    }
}

impl Model for Entry {
    ghost use Rattle.std.specs.Prelude.{◌≡◌, true};
    ghost use Rattle.dns_rules.specs.CacheEntries.{EntryValue, is_backed};

    ghost Value = { EntryValue };

    ghost view = { λ e. record { key = e.key; expires = e.expires; found = e.result; chain = e.chain } };

    ghost invariant = { λ e. is_backed e.result e.chain ≡ true };
}

impl Entry {
    /// An entry of these parts.
    pub fn new(
        key: CacheKey,
        expires: u64,
        found: Result<RrsetProof, ProofError>,
        chain: Option<Chain>,
    ) -> Entry
        requires { is_backed found chain ≡ true }
        ensures { result ≡ record { key = key; expires = expires; found = found; chain = chain } }
    {
        Entry {
            key,
            expires,
            result: found,
            chain,
        }
    }

    /// An equal value in memory of its own.
    pub fn try_clone(&self) -> Result<Entry, NoMemory>
        ensures { IfOk result (λ e. e ≡ self.now) }
    {
        copied(&self.key, self.expires, &self.result, &self.chain)
    }

    /// The chain alone.
    pub fn into_chain(self) -> Option<Chain>
        ensures { result ≡ self.chain }
    {
        let Entry {
            key: _,
            expires: _,
            result: _,
            chain,
        } = self;
        chain
    }

    /// The two parts of an entry.
    pub(crate) fn into_parts(self) -> (CacheKey, Kept)
        ensures { entry_of result ≡ self }
    {
        let Entry {
            key,
            expires,
            result: found,
            chain,
        } = self;
        let kept = Kept {
            expires,
            found,
            chain,
        };
        (key, kept)
    }
}

/// An entry of copies of these parts, each in memory of its own.
pub(crate) fn copied(
    key: &CacheKey,
    expires: u64,
    found: &Result<RrsetProof, ProofError>,
    chain: &Option<Chain>,
) -> Result<Entry, NoMemory>
    requires { is_backed found.now chain.now ≡ true }
    ensures { IfOk result (λ e. e ≡ record { key = key.now; expires = expires; found = found.now; chain = chain.now }) }
{
    let key = key.try_clone()?;
    let found = clone_found(found)?;
    let chain = clone_chain(chain)?;
    Ok(Entry::new(key, expires, found, chain))
}

// A copy of what was found, in memory of its own.
fn clone_found(
    found: &Result<RrsetProof, ProofError>,
) -> Result<Result<RrsetProof, ProofError>, NoMemory>
    ensures { IfOk result (λ f. f ≡ found.now) }
{
    match found {
        Ok(proof) => Ok(Ok(*proof)),
        Err(error) => Ok(Err(error.try_clone()?)),
    }
}

// A copy of a chain, in memory of its own.
fn clone_chain(chain: &Option<Chain>) -> Result<Option<Chain>, NoMemory>
    ensures { IfOk result (λ c. c ≡ chain.now) }
{
    match chain {
        Some(chain) => Ok(Some(chain.try_clone()?)),
        None => Ok(None),
    }
}

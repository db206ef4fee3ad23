//! An entry without its key, as a map from keys keeps it.

ghost use Rattle.std.specs.Prelude.{◌≡◌, IfOk};
ghost use Rattle.dns_cache.specs.KeptEntries.{entry_of};

use crate::entry::copied;
use crate::{CacheKey, Entry, ProofError, RrsetProof};
use dns_evidence::Chain;
use dns_record::NoMemory;
use std::marker::Model;

/// An entry without its key, which stands beside it.
pub(crate) struct Kept {
    /// Seconds since 1970: the first moment at which the entry isn't given any more.
    pub(crate) expires: u64,
    /// What was found, or why the set isn't Secure.
    pub(crate) found: Result<RrsetProof, ProofError>,
    /// Of a Secure set the chain that ends at it.
    pub(crate) chain: Option<Chain>,
}

// By hand, so that a function that lets one go calls this.
impl Drop for Kept {
    fn drop(self) {
        let Kept {
            expires: _,
            found: _,
            chain: _,
        } = self;
    }
}

impl Model for Kept {
    ghost use Rattle.std.specs.Prelude.{◌≡◌, true};
    ghost use Rattle.dns_rules.specs.CacheEntries.{is_backed};
    ghost use Rattle.dns_cache.specs.KeptEntries.{KeptValue};

    ghost Value = { KeptValue };

    ghost view = { λ k. record { expires = k.expires; found = k.found; chain = k.chain } };

    ghost invariant = { λ k. is_backed k.found k.chain ≡ true };
}

impl Kept {
    /// A copy of the entry, in memory of its own, with a copy of this key.
    pub(crate) fn entry(&self, key: &CacheKey) -> Result<Entry, NoMemory>
        ensures { IfOk result (λ e. e ≡ entry_of (key.now, self.now)) }
    {
        copied(key, self.expires, &self.found, &self.chain)
    }
}

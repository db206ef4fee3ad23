//! Whose acceptance the chain of an entry has, and caches that say so.

ghost use Rattle.std.specs.Prelude.{◌≡◌, ℕ, Bool, IfOk, IfSome, IsTrue, false};
ghost use Rattle.std.specs.Option.{option_map};
ghost use Rattle.dns_cache.specs.CacheLists.{IsCacheList};
ghost use Rattle.dns_cache.specs.declared.acceptance.Acceptance.TheVariants.{Unknown};
ghost use Rattle.dns_rules.specs.CacheKeys.{CacheKeyValue};
ghost use Rattle.dns_cache.specs.Caches.{AreUnknown, GivenWith, GivesHit, GivesHitOf, KeptIsAccepted, LeftByGet, TellsNoOther, entry_given, hits_after};

use crate::{CacheKey, Entry, ValidationCache};
use dns_evidence::Verifier;
use dns_record::NoMemory;
use std::alloc::Global;

/// Whose acceptance the chain of an entry has.
#[derive(Clone, Copy, Debug, PartialEq, Eq, Hash)]
pub enum Acceptance {
    /// That of a verifier which answers as the asker's does: each signature of a Secure entry's chain was accepted.
    Kept,
    /// Nobody's that is known of.
    Unknown,
    /// That of another verifier.
    Other,
}

/// A cache that says with an entry whose acceptance its chain has.
pub trait AcceptedBy<V: Verifier>: ValidationCache {
    /// Whether the cache knows of nobody's acceptance, so that each one is `Unknown`.
    ghost knows_nobody: { Self → Bool } = { λ _. false };

    /// What it may give for a key at a moment, in seconds since 1970; where it doesn't say, anything.
    ghost may_give: { Self → CacheKeyValue → ℕ → GivenWith → Type 0 } = { λ _ _ _ _. Unit {0} };

    /// As `get`, with whose acceptance the entry's chain has. A cache that knows of nobody's gives `Unknown` with what `get` gives.
    fn get_for(
        &mut self,
        alloc: Global,
        key: &CacheKey,
        now: u64,
        verifier: &V,
    ) -> Result<Option<(Entry, Acceptance)>, NoMemory>
        ensures given { GivesHit key.now now (entry_given result) }
        ensures found { GivesHitOf (Self.told self.old) key.now now (entry_given result) }
        ensures after { LeftByGet key.now now (Self.told self.old) (Self.told self.new) (entry_given result) }
        ensures hits { Self.hits self.new ≡ hits_after (Self.hits self.old) (entry_given result) }
        ensures listed_before { IfSome (Self.told self.old) IsCacheList }
        ensures listed { IfSome (Self.told self.new) IsCacheList }
        ensures accepted { KeptIsAccepted (V.answers verifier.now) result }
        ensures told { TellsNoOther (Self.told self.old) result }
        ensures unknown { IsTrue (Self.knows_nobody self.old) → AreUnknown result }
        ensures may_give { IfOk result (Self.may_give self.old key.now now) };
}

/// What a cache gives that knows of nobody's acceptance.
pub(crate) fn of_nobody(given: Option<Entry>) -> Option<(Entry, Acceptance)>
    ensures entry { option_map (λ p. p.0) result ≡ given }
    ensures unknown { IfSome result (λ p. p.1 ≡ Unknown) }
{
    given.map(|entry| (entry, Acceptance::Unknown))
}

//! By what a cache knows a set (RFC 4035, 4.5).

ghost use Rattle.std.specs.Prelude.{◌≡◌, IfOk};
ghost use Rattle.dns_rules.specs.CacheKeys.{key_of};

use dns_record::{NoMemory, Query, RecordSet};
use std::marker::Model;

/// By what a cache knows a set: the question in whose answer it stands, and the set as it came (RFC 4035, 4.5).
///
/// Equality, order and hash go by the question, whose name they fold, and by each record and signature byte for byte, their order
/// too, but for ttls and marks. So a set that came with another ttl is the same set, and one that came in another case isn't.
pub struct CacheKey {
    /// The question.
    pub query: Query,
    /// The set with its signatures.
    pub set: RecordSet,
}

// By hand, so that a function that lets one go calls this.
impl Drop for CacheKey {
    fn drop(self) {
        let CacheKey { query: _, set: _ } = self;
    }
}

impl Model for CacheKey {
    ghost use Rattle.dns_rules.specs.CacheKeys.{CacheKeyValue, key_of};

    ghost Value = { CacheKeyValue };

    ghost view = { λ k. key_of k.query k.set };
}

impl CacheKey {
    /// The key of a set in the answer to a question.
    pub fn of(query: &Query, set: &RecordSet) -> Result<CacheKey, NoMemory>
        ensures { IfOk result (λ k. k ≡ key_of query.now set.now) }
    {
        Ok(CacheKey {
            query: query.try_clone()?,
            set: set.try_clone()?,
        })
    }

    /// An equal value in memory of its own.
    pub fn try_clone(&self) -> Result<CacheKey, NoMemory>
        ensures { IfOk result (λ k. k ≡ self.now) }
    {
        CacheKey::of(&self.query, &self.set)
    }
}

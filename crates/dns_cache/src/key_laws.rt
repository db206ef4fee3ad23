//! Laws of the comparisons of keys. Each is the contract of a function that does nothing.

ghost use Rattle.std.specs.Prelude.{◌≡◌, ◌↔◌, IsTrue};
ghost use Rattle.std.specs.Ordering.{ordering_reverse};
ghost use Rattle.std.specs.declared.cmp.Ordering.TheVariants.{Less, Equal};
ghost use Rattle.dns_rules.specs.CacheKeys.{key_eq};
ghost use Rattle.dns_cache.specs.KeyOrder.{key_cmp};

use crate::CacheKey;
use std::hash::Hash;

/// A law: keys are equal exactly where all that contracts see of them is one, and the order then tells them not apart. The order
/// is total: of two keys that aren't equal one comes first, and what comes before a key comes before all that come after it.
pub fn equal_keys_are_one(_a: &CacheKey, _b: &CacheKey, _c: &CacheKey)
    ensures value { ⟦<CacheKey as PartialEq>⟧.eq _a.now _b.now ≡ key_eq _a.now _b.now }
    ensures one { IsTrue (key_eq _a.now _b.now) ↔ (_a.now ≡ _b.now) }
    ensures order { IsTrue (key_eq _a.now _b.now) ↔ (⟦<CacheKey as Ord>⟧.cmp _a.now _b.now ≡ Equal) }
    ensures turned { key_cmp _b.now _a.now ≡ ordering_reverse (key_cmp _a.now _b.now) }
    ensures after { key_cmp _a.now _b.now ≡ Less → key_cmp _b.now _c.now ≡ Less → key_cmp _a.now _c.now ≡ Less }
{}

/// A law: equal keys give a hasher the same bytes.
pub fn equal_keys_hash_alike(_a: &CacheKey, _b: &CacheKey)
    requires { IsTrue (key_eq _a.now _b.now) }
    ensures { ⟦<CacheKey as Hash>⟧.hash_input _a.now ≡ ⟦<CacheKey as Hash>⟧.hash_input _b.now }
{}

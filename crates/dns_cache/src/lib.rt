//! A cache of what validation found of sets (RFC 4035, 4.5 and 4.7), and what that is: a mark with its chain and its cause.
//! The layer above may use it as the list of its entries, the most recently used first, where it tells them; of one that doesn't
//! it may use that what is given has the key asked for.
//!
//! `ListCache` is that list. `LruValidationCache` finds a key by its hash, and is the default.
#![tactic(auto)]

mod acceptance;
mod cache_key;
mod entry;
mod expiry;
mod kept;
mod key_hasher;
mod key_laws;
mod key_order;
mod list_cache;
mod lru_validation_cache;
mod proof_error;
mod rrset_proof;
mod validation_cache;

pub use acceptance::{Acceptance, AcceptedBy};
pub use cache_key::CacheKey;
pub use entry::Entry;
pub use expiry::{BOGUS_CACHE_TTL, TtlRange, TtlRanges};
pub use key_hasher::{DefaultHasher, KeyHasher};
pub use key_laws::{equal_keys_are_one, equal_keys_hash_alike};
pub use list_cache::ListCache;
pub use lru_validation_cache::{DefaultCache, LruValidationCache};
pub use proof_error::{ProofError, ProofErrorKind};
pub use rrset_proof::RrsetProof;
pub use validation_cache::ValidationCache;

//! A cache that threads share (RFC 4035, 4.5): a shelf, which keeps a Secure entry only where its verifier accepts the chain of that
//! entry, and holders of one shelf under a lock. The layer above may use of a shelf that it is the list of its entries with that one
//! difference, and of a holder what it may use of any cache.
#![tactic(auto)]

mod shared_cache;
mod shelf;

pub use shared_cache::{DefaultSharedCache, SharedCache};
pub use shelf::Shelf;

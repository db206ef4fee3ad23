//! Trusted keys from the records of a file of trust anchors: keys as they stand there, and for digests of keys those of the key sets that
//! zones answer with. The layer above may use [`anchor_keys`], whose clause says what is asked and which keys are trusted.
#![tactic(auto)]

mod asking;
mod fault;
mod keys;
mod matching;
mod zones;

pub use fault::AnchorsFault;
pub use keys::{TrustedKeys, anchor_keys};

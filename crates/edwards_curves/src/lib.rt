//! Points of the curve of Ed25519, and the test of its signatures (RFC 8032, 5.1).
//!
//! Who calls hands a key, bytes and a signature, each as it came. `docs/ARITHMETIC.md` says what is proved of the answer.
#![tactic(auto)]

mod decoding;
mod ed25519;
mod field;
mod limbs;
mod points;

pub use crate::ed25519::{ed25519_accepts, ed25519_constants};

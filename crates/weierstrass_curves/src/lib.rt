//! Points of elliptic curves in the form of Weierstrass with a = -3, and the test of ECDSA on P-256 and P-384
//! (FIPS 186-4, 6.4 and D.1.2; SEC 1, 4.1.4).
//!
//! Who calls takes a curve and hands it numbers: key, digest, signature. `docs/ARITHMETIC.md` says what is proved of the answer.
#![tactic(auto)]

mod p256;
mod p384;
mod points;

pub use crate::points::{Curve, Point};

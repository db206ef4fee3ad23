//! What follows from a trail's being a derivation, and from nothing else: definitions in `specs/` and the laws in `proofs/`.
#![tactic(auto)]

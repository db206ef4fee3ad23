//! How sets and answers are judged, as definitions in `specs/` and laws over them in `proofs/`. It stands above `dns_model`
//! because its tables gain rows, while names, records and chains stay as they are.
#![tactic(auto)]

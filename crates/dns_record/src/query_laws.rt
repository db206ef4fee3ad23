//! Laws of the comparisons of queries (RFC 1035, 4.1.2; RFC 4343, 3), which follow from those of names. Each is the contract
//! of a function that does nothing.
ghost use Rattle.std.specs.Prelude.{◌≡◌, ◌↔◌, IsTrue};
ghost use Rattle.std.specs.declared.cmp.Ordering.TheVariants.{Equal};
ghost use Rattle.dns_model.specs.Names.{folded};
ghost use Rattle.dns_model.specs.Records.{question_eq};

use crate::Query;
use std::hash::Hash;

/// A law: queries are equal exactly where their types and classes are one, and their names with A to Z as a to z. The order
/// then tells them not apart.
pub fn equal_queries_differ_in_case_alone(_a: &Query, _b: &Query)
    ensures value { ⟦<Query as PartialEq>⟧.eq _a.now _b.now ≡ question_eq _a.now _b.now }
    ensures folds { IsTrue (question_eq _a.now _b.now) ↔ ((folded _a.now.owner ≡ folded _b.now.owner)
        × (_a.now.rtype ≡ _b.now.rtype) × (_a.now.class ≡ _b.now.class)) }
    ensures order { IsTrue (question_eq _a.now _b.now) ↔ (⟦<Query as Ord>⟧.cmp _a.now _b.now ≡ Equal) }
{}

/// A law: equal queries give a hasher the same bytes.
pub fn equal_queries_hash_alike(_a: &Query, _b: &Query)
    requires { IsTrue (question_eq _a.now _b.now) }
    ensures { ⟦<Query as Hash>⟧.hash_input _a.now ≡ ⟦<Query as Hash>⟧.hash_input _b.now }
{}

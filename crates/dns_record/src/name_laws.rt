//! Laws of the comparisons of names (RFC 4034, 6.1; RFC 4343, 3): equality, order and hash fold case and agree with each
//! other, and the order is total. Each is the contract of a function that does nothing.
ghost use Rattle.std.specs.Prelude.{◌≡◌, ◌↔◌, IsTrue};
ghost use Rattle.std.specs.Ordering.{ordering_reverse};
ghost use Rattle.std.specs.declared.cmp.Ordering.TheVariants.{Less, Equal};
ghost use Rattle.dns_model.specs.Names.{folded, name_cmp, name_eq};

use crate::Name;
use std::hash::Hash;

/// A law: names are equal exactly where their labels are with A to Z as a to z, and the order then tells them not apart.
pub fn equal_names_differ_in_case_alone(_a: &Name, _b: &Name)
    ensures value { ⟦<Name as PartialEq>⟧.eq _a.now _b.now ≡ name_eq _a.now _b.now }
    ensures folds { IsTrue (name_eq _a.now _b.now) ↔ (folded _a.now ≡ folded _b.now) }
    ensures order { IsTrue (name_eq _a.now _b.now) ↔ (⟦<Name as Ord>⟧.cmp _a.now _b.now ≡ Equal) }
{}

/// A law: equal names give a hasher the same bytes.
pub fn equal_names_hash_alike(_a: &Name, _b: &Name)
    requires { IsTrue (name_eq _a.now _b.now) }
    ensures { ⟦<Name as Hash>⟧.hash_input _a.now ≡ ⟦<Name as Hash>⟧.hash_input _b.now }
{}

/// A law: the canonical order is total. Of two names that aren't equal one comes first, and what comes before a name comes
/// before all that come after it; equal names have one place in it.
pub fn names_are_in_a_total_order(_a: &Name, _b: &Name, _c: &Name)
    ensures value { ⟦<Name as Ord>⟧.cmp _a.now _b.now ≡ name_cmp _a.now _b.now }
    ensures turned { name_cmp _b.now _a.now ≡ ordering_reverse (name_cmp _a.now _b.now) }
    ensures after { name_cmp _a.now _b.now ≡ Less → name_cmp _b.now _c.now ≡ Less → name_cmp _a.now _c.now ≡ Less }
    ensures place { IsTrue (name_eq _a.now _b.now) → name_cmp _a.now _c.now ≡ name_cmp _b.now _c.now }
{}

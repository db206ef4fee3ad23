//! Sets with their sections, marks and chains.
use crate::Link;
use dns_model::{Proof, Section};
use dns_record::{Record, RecordSet};
use std::marker::Model;

/// A set, and the section that it stands in.
#[derive(Drop)]
pub struct PlacedSet {
    /// The section in which the set stands.
    pub section: Section,
    /// The set.
    pub set: RecordSet,
}

impl Model for PlacedSet {
    ghost use Rattle.dns_model.specs.SoundAnswers.{PlacedSet as Placed};

    ghost Value = { Placed };

    ghost view = { λ p. record { section = p.section; set = p.set } };
}

/// An RRset with its mark and the signature that decided.
#[derive(Drop)]
pub struct MarkedSet {
    /// The section in which the set stands.
    pub section: Section,
    /// The set.
    pub set: RecordSet,
    /// What was found of it.
    pub mark: Proof,
    /// The place, among the set's signatures, of the one that decided.
    pub sig: Option<u32>,
}

impl Model for MarkedSet {
    ghost use Rattle.dns_rules.specs.MarkedSets.{MarkedSet as Marked};

    ghost Value = { Marked };

    ghost view = { λ m. record { section = m.section; set = m.set; mark = m.mark; sig = m.sig } };
}

/// A marked set and its chain.
#[derive(Drop)]
pub struct ChainedSet {
    /// The set with its mark.
    pub judged: MarkedSet,
    /// The links to the set, where it is Secure.
    pub chain: Vec<Link>,
}

impl Model for ChainedSet {
    ghost use Rattle.std.specs.Prelude.{map};
    ghost use Rattle.dns_evidence.specs.Link.{link_value};
    ghost use Rattle.dns_rules.specs.ChainedSets.{ChainedSet as Chained};

    ghost Value = { Chained };

    ghost view = { λ c. record { judged = c.judged; chain = map link_value c.chain.items } };
}

//! By what the sets of a step are judged: the steps before it, and what these give to those that repeat their sets.

use crate::given::GivenCauses;
use dns_evidence::{Asked, Limits};
use dns_record::Query;
use dns_trust::Judge;
use std::alloc::Global;

/// By what the sets of a step are judged.
#[derive(Drop)]
pub(crate) struct Context<'a, 'j, V> {
    pub(crate) alloc: Global,
    /// Verifier, trust anchors and moment.
    pub(crate) judge: &'a Judge<'j, V>,
    /// How far the lookup went.
    pub(crate) limits: Limits,
    /// The steps before it.
    pub(crate) earlier: &'a [Asked],
    /// What these give, by their numbers.
    pub(crate) given: &'a [GivenCauses],
    /// The question of the step.
    pub(crate) query: &'a Query,
    /// How deep it was asked.
    pub(crate) depth: u16,
}

//! What is tested, and by what and when.

use crate::KeyAnswer;
use dns_record::RecordSet;
use dns_trust::SetSignature;

/// A signature of a set, which is read, and by what and when it is tested.
#[derive(Drop)]
pub(crate) struct Tested<'v, 's, V> {
    /// What tests signatures.
    pub(crate) verifier: &'v V,
    /// The signature and its set.
    pub(crate) signature: SetSignature<'s>,
    /// Seconds since 1970.
    pub(crate) moment: u64,
}

/// A set and the answers to the asks of its signatures, and by what and when these are tested.
#[derive(Drop)]
pub(crate) struct SetAnswers<'a, V> {
    /// What tests signatures.
    pub(crate) verifier: &'a V,
    /// The set.
    pub(crate) set: &'a RecordSet,
    /// One answer for each of the first eight signatures, in order.
    pub(crate) answers: &'a [KeyAnswer],
    /// Seconds since 1970.
    pub(crate) moment: u64,
}

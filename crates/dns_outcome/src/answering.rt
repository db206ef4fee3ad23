//! How the answer section of a response answers its query (RFC 4035, 5.3.4).
ghost use Rattle.std.specs.Prelude.{◌≡◌};
ghost use Rattle.std.specs.List.{filter, filter_map, list_any};
ghost use Rattle.dns_model.specs.SoundAnswers.{told_by};
ghost use Rattle.dns_rules.specs.MarkedSets.{decider as decider_of};
ghost use Rattle.dns_rules.specs.ChainedSets.{bare};
ghost use Rattle.dns_rules.specs.MarkParts.{is_expanded_by};
ghost use Rattle.dns_rules.specs.Outcome.{answers_query as answers_asked, is_wildcard_signature, is_expanded_answer as is_expanded_in, is_expanded_for as is_expanded_for_in, decider_labels as labels_of_decider, least, answered_from as answered_from_in, answered as answered_in};
ghost use Rattle.dns_outcome.specs.Expansions.{fewer as fewer_of, expanded_labels as expanded_labels_in};

use dns_evidence::{ChainedSet, MarkedSet, decider};
use dns_message::Message;
use dns_model::{Answered, Proof, Section};
use dns_rdata::Rrsig;
use dns_record::{Query, Record, RecordType};

/// Whether some record answers the query.
pub(crate) fn has_answer(query: &Query, answers: &[Record]) -> bool
    ensures { result ≡ list_any (answers_asked query.now) answers.now }
{
    for found in answers {
        if answers_query(query, found) {
            return true;
        }
    }
    false
}

// Whether a record at the query name has the query's type, or is a CNAME.
fn answers_query(query: &Query, found: &Record) -> bool
    ensures { result ≡ answers_asked query.now found.now }
{
    query.name == found.name
        && (found.record_type == query.query_type || found.record_type == RecordType::CNAME)
}

/// Whether a readable signature among the records has fewer labels than its owner.
pub(crate) fn has_wildcard_signature(records: &[Record]) -> bool
    ensures { result ≡ list_any is_wildcard_signature records.now }
{
    for signature in records {
        if is_expanded(signature) {
            return true;
        }
    }
    false
}

// Whether a record is a readable signature that has fewer labels than its owner.
fn is_expanded(signature: &Record) -> bool
    ensures { result ≡ is_wildcard_signature signature.now }
{
    match Rrsig::of(signature) {
        Some(sig) => sig.labels < signature.name.borrowed().num_labels(),
        None => false,
    }
}

/// Whether a set of the answer section is Secure and was expanded from a wildcard.
pub(crate) fn has_expanded_answer(sets: &[ChainedSet]) -> bool
    ensures { result ≡ list_any (λ c. is_expanded_in c.judged) sets.now }
{
    for set in sets {
        if is_expanded_answer(&set.judged) {
            return true;
        }
    }
    false
}

// Whether a set is of the answer section, and Secure by a signature that has fewer labels than its owner.
fn is_expanded_answer(set: &MarkedSet) -> bool
    ensures { result ≡ is_expanded_in set.now }
{
    set.section == Section::Answer && set.mark == Proof::Secure && is_decided_by_wildcard(set)
}

// Whether the signature that decided has fewer labels than its owner.
fn is_decided_by_wildcard(set: &MarkedSet) -> bool
    ensures { result ≡ is_expanded_by (decider_of set.now) }
{
    match decider(set) {
        Some(signature) => is_expanded(signature),
        None => false,
    }
}

/// How the answer section answers: by an expansion where a Secure set says so.
#[tactic(auto, unfolding(dns_rules::specs::Outcome::answered))]
pub(crate) fn answered(query: &Query, message: &Message, sets: &[ChainedSet]) -> Answered
    ensures { result ≡ answered_in query.now (told_by message.now) (bare sets.now) }
{
    if has_answer(query, &message.answers) {
        answered_from(fewest_labels(query, sets))
    } else {
        Answered::No
    }
}

// The answer is an expansion where a number of labels is given.
fn answered_from(labels: Option<u8>) -> Answered
    ensures { result ≡ answered_from_in labels }
{
    match labels {
        Some(labels) => Answered::Expanded(labels),
        None => Answered::Plain,
    }
}

// The fewest labels of the wildcards that the sets that answer were expanded from.
fn fewest_labels(query: &Query, sets: &[ChainedSet]) -> Option<u8>
    ensures { result ≡ least (filter_map labels_of_decider (filter (is_expanded_for_in query.now) (bare sets.now))) }
{
    let mut fewest = None;
    for set in sets {
        fewest = fewer(fewest, expanded_labels(query, &set.judged));
    }
    fewest
}

// The fewer of two numbers of labels.
fn fewer(one: Option<u8>, other: Option<u8>) -> Option<u8>
    ensures { result ≡ fewer_of one other }
{
    match (one, other) {
        (Some(labels), Some(others)) => Some(labels.min(others)),
        (Some(labels), None) => Some(labels),
        (None, labels) => labels,
    }
}

// How many labels the signature that decided has, of a set that answers and was expanded.
fn expanded_labels(query: &Query, set: &MarkedSet) -> Option<u8>
    ensures { result ≡ expanded_labels_in query.now set.now }
{
    if !is_expanded_for(query, set) {
        return None;
    }
    decider_labels(set)
}

// Whether a set that was expanded answers.
fn is_expanded_for(query: &Query, set: &MarkedSet) -> bool
    ensures { result ≡ is_expanded_for_in query.now set.now }
{
    let record_type = set.set.record_type;
    is_expanded_answer(set)
        && query.name == set.set.name
        && (record_type == query.query_type || record_type == RecordType::CNAME)
}

// How many labels the signature that decided has.
fn decider_labels(set: &MarkedSet) -> Option<u8>
    ensures { result ≡ labels_of_decider set.now }
{
    let sig = Rrsig::of(decider(set)?)?;
    Some(sig.labels)
}

//! How a response says that its answer was made from a wildcard, and that wildcard's name (RFC 4035, 5.3.4; RFC 4592, 2.1.1).
ghost use Rattle.std.specs.Prelude.{◌≡◌, IfOk};
ghost use Rattle.std.specs.List.{find, list_any};
ghost use Rattle.std.specs.Option.{option_copied};
ghost use Rattle.dns_model.specs.Names.{star, wire};
ghost use Rattle.dns_rules.specs.Outcome.{answers_query as answers_asked, is_wildcard_signature as is_of_wildcard};
ghost use Rattle.dns_query_answer.specs.Wildcards.{expanded_labels as labels_expanded, expands as expands_name, is_plain_answer as is_plain, wildcard_below as wildcard_in};

use dns_evidence::Told;
use dns_rdata::Rrsig;
use dns_record::{Name, NameRef, NoMemory, Query, Record, RecordType};
use std::alloc::Global;

// The wire form of the wildcard right below a name.
fn wildcard_wire(alloc: Global, encloser: &NameRef<'_>) -> Result<Vec<u8>, NoMemory>
    ensures { IfOk result (λ v. v.items ≡ wire (star encloser.now)) }
{
    let mut bytes = Vec::new(alloc);
    bytes.push(1)?;
    bytes.push(b'*')?;
    bytes.extend_from_slice(encloser.wire())?;
    Ok(bytes)
}

/// The wildcard right below a name; `None` where that would be too long for a name.
pub(crate) fn wildcard_below(
    alloc: Global,
    encloser: &NameRef<'_>,
) -> Result<Option<Name>, NoMemory>
    ensures { IfOk result (λ n. n ≡ wildcard_in encloser.now) }
{
    let bytes = wildcard_wire(alloc, encloser)?;
    Name::from_wire(alloc, &bytes)
}

// Whether a record answers a query.
fn answers_query(query: &Query, one: &Record) -> bool
    ensures { result ≡ answers_asked query.now one.now }
{
    query.name == one.name
        && (one.record_type == query.query_type || one.record_type == RecordType::CNAME)
}

/// Whether a record among some answers a query.
pub(crate) fn has_answer(query: &Query, answers: &[Record]) -> bool
    ensures { result ≡ list_any (answers_asked query.now) answers.now }
{
    answers.iter().any(|one| answers_query(query, one))
}

// Whether a record is a signature that has fewer labels than its owner.
fn is_wildcard_signature(one: &Record) -> bool
    ensures { result ≡ is_of_wildcard one.now }
{
    match Rrsig::of(one) {
        Some(sig) => sig.labels < one.name.num_labels(),
        None => false,
    }
}

// Whether such a signature stands at the name that was asked for.
fn expands(query: &Query, one: &Record) -> bool
    ensures { result ≡ expands_name query.now one.now }
{
    query.name == one.name && is_wildcard_signature(one)
}

// The first such signature.
fn first_expanding<'a>(query: &Query, answers: &'a [Record]) -> Option<&'a Record>
    ensures { option_copied result ≡ find (expands_name query.now) answers.now }
{
    answers.iter().find(|one| expands(query, one))
}

/// How many labels, a leading `*` aside, the wildcard has that an answer was made from; `None` where it was made from none.
pub(crate) fn expanded_labels(query: &Query, answers: &[Record]) -> Option<u8>
    ensures { result ≡ labels_expanded query.now answers.now }
{
    let sig = Rrsig::of(first_expanding(query, answers)?)?;
    Some(sig.labels)
}

/// Whether records answer that weren't made from a wildcard, so that nothing need be denied.
pub(crate) fn is_plain_answer(query: &Query, told: &Told) -> bool
    ensures { result ≡ is_plain query.now told.now.0 }
{
    has_answer(query, &told.answers) && expanded_labels(query, &told.answers).is_none()
}

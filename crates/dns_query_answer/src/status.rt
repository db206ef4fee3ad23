//! The status that tells how far an answer is proved.
ghost use Rattle.std.specs.Prelude.{◌≡◌, ◌&&◌, false};
ghost use Rattle.std.specs.Option.{option_map_or};
ghost use Rattle.std.specs.List.{list_any};
ghost use Rattle.dns_handle.specs.Replies.{error_of, reply_of};
ghost use Rattle.dns_query_answer.specs.Status.{IsProved, answer_status as status_in, counts as is_counted, denial_mark, error_status, has_status as has_mark_status, mark_status, shows_status, worst_status};

use dns_handle::{DnsError, DnsResponse, NetError};
use dns_model::{Denial, Proof};
use dns_record::{Query, Record, RecordType};

/// All that counts is Secure.
const SECURE: u8 = 0;

/// Something is Insecure, and nothing worse.
const INSECURE: u8 = 1;

/// Something is Bogus, or nobody judged it.
const BOGUS: u8 = 3;

/// An error stands in place of an answer.
const NO_ANSWER: u8 = 4;

/// Memory ran out.
const NO_MEMORY: u8 = 6;

// The status of a mark.
fn mark_status(mark: Proof) -> u8
    ensures { result ≡ mark_status mark }
{
    match mark {
        Proof::Secure => SECURE,
        Proof::Insecure => INSECURE,
        Proof::Bogus => BOGUS,
        Proof::Indeterminate => BOGUS,
    }
}

// Whether a mark has a status.
fn has_status(status: u8, mark: Proof) -> bool
    ensures { result ≡ has_mark_status status mark }
{
    mark_status(mark) == status
}

// Whether the mark of a record counts.
fn counts(query: &Query, one: &Record) -> bool
    ensures { result ≡ is_counted query.now one.now }
{
    one.record_type != RecordType::RRSIG || query.query_type == RecordType::RRSIG
}

// Whether a record counts and has a status.
fn counts_as(status: u8, query: &Query, one: &Record) -> bool
    ensures { result ≡ (is_counted query.now one.now && has_mark_status status one.now.proof) }
{
    counts(query, one) && has_status(status, one.proof)
}

// Whether a denial has a status.
fn denies_as(status: u8, denial: Option<Proof>) -> bool
    ensures { result ≡ option_map_or (has_mark_status status) denial false }
{
    match denial {
        Some(mark) => has_status(status, mark),
        None => false,
    }
}

// Whether a record that counts has a status.
fn holds_status(status: u8, query: &Query, records: &[Record]) -> bool
    ensures { result ≡ list_any (λ r. is_counted query.now r && has_mark_status status r.proof) records.now }
{
    records.iter().any(|one| counts_as(status, query, one))
}

// Whether a record that counts, or the denial, has a status.
fn shows_status(status: u8, query: &Query, denial: Option<Proof>, records: &[Record]) -> bool
    ensures { result ≡ shows_status status query.now denial records.now }
{
    holds_status(status, query, records) || denies_as(status, denial)
}

// The worst status of a denial and of the records that count.
#[tactic(auto, unfolding(crate::specs::Status::worst_status))]
fn worst_status(query: &Query, denial: Option<Proof>, records: &[Record]) -> u8
    ensures { result ≡ worst_status query.now denial records.now }
{
    if shows_status(BOGUS, query, denial, records) {
        return BOGUS;
    }
    if shows_status(INSECURE, query, denial, records) {
        return INSECURE;
    }
    if shows_status(SECURE, query, denial, records) {
        return SECURE;
    }
    BOGUS
}

// The mark of what is denied.
fn denial_mark(denial: Denial) -> Option<Proof>
    ensures { result ≡ denial_mark denial }
{
    match denial {
        Denial::None => None,
        Denial::Absent(mark) => Some(mark),
        Denial::Expanded(mark) => Some(mark),
    }
}

// The status of an error.
fn error_status(query: &Query, error: &NetError) -> u8
    ensures { result ≡ error_status query.now (error_of error.now) }
{
    match error {
        NetError::Dns(
            DnsError::Nsec {
                query: _,
                response,
                proof,
            },
        ) => worst_status(query, Some(*proof), &response.message.answers),
        NetError::Dns(DnsError::DnssecBogus) => BOGUS,
        NetError::NoMemory => NO_MEMORY,
        _ => NO_ANSWER,
    }
}

// The status of an answer or of an error.
fn status_of(query: &Query, reply: &Result<DnsResponse, NetError>) -> u8
    ensures { result ≡ status_in query.now (reply_of reply.now) }
{
    match reply {
        Ok(answer) => worst_status(query, denial_mark(answer.denial), &answer.message.answers),
        Err(error) => error_status(query, error),
    }
}

/// The status of what a lookup of a question came to (RFC 4035, 4.3).
///
/// 0: all that counts is Secure. 1: something is Insecure, and nothing worse. 3: something is Bogus, or nobody judged it, or nothing
/// counts. 4: an error stands in place of an answer. 6: memory ran out. What counts are the records of the answer section but
/// signatures, and what is denied, whether the denial holds or is refused; where signatures are asked for, they count too.
pub fn answer_status(query: &Query, reply: &Result<DnsResponse, NetError>) -> u8
    ensures status { result ≡ status_in query.now (reply_of reply.now) }

    // 0 comes only where each record that was asked for is Secure, or its denial is.
    ensures proved { result ≡ 0 → IsProved query.now (reply_of reply.now) }
{
    status_of(query, reply)
}

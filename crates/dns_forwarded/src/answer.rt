//! What a client is told of a response (RFC 3225, 3; RFC 4035, 3.2; RFC 6840, 5.7 to 5.9).
ghost use Rattle.std.specs.Prelude.{◌≡◌, ◌&&◌, false, map, IfOk};
ghost use Rattle.std.specs.List.{filter, list_all, list_any};
ghost use Rattle.dns_forwarded.specs.Requests.{course_of};
ghost use Rattle.dns_forwarded.specs.Replies.{asks_if_authentic, has_no_place, is_authentic, is_bogus, is_dnssec_type, is_secure_absence, is_secure_answer, is_secure_denial, is_withheld, judged_reply, looked_up_reply, reply_by, reply_with, told_to, wants_dnssec};
ghost use Rattle.dns_forwarded.specs.Seen.{is_asked_for, is_secure_or_signature, is_shown_by, message_of};

use crate::course::course_of;
use crate::outcome::Outcome;
use crate::reply::Reply;
use dns_handle::DnsResponse;
use dns_message::{Edns, Message};
use dns_model::{Denial, Proof};
use dns_record::{NoMemory, Query, Record, RecordType, ResponseCode};
use std::alloc::Global;

/// Which records a client is told.
#[derive(Clone, Copy)]
struct Showing {
    /// DO: it takes DNSSEC records.
    dnssec_ok: bool,
    /// It takes Bogus records.
    bogus: bool,
    /// The type that it asks for.
    query_type: RecordType,
}

// Whether the client takes DNSSEC records: DO.
fn wants_dnssec(edns: &Option<Edns>) -> bool
    ensures { result ≡ wants_dnssec edns.now }
{
    match edns {
        None => false,
        Some(edns) => edns.dnssec_ok,
    }
}

// Whether a type is RRSIG, NSEC or NSEC3.
fn is_dnssec_type(record_type: RecordType) -> bool
    ensures { result ≡ is_dnssec_type record_type.0 }
{
    record_type == RecordType::RRSIG
        || record_type == RecordType::NSEC
        || record_type == RecordType::NSEC3
}

// Whether a record is marked Bogus.
fn is_bogus(from: &Record) -> bool
    ensures { result ≡ is_bogus from.now.proof }
{
    matches!(from.proof, Proof::Bogus)
}

// Whether a client is told a record.
fn is_shown(showing: Showing, from: &Record) -> bool
    ensures { result ≡ is_shown_by showing from.now }
{
    let of_a_type = showing.dnssec_ok
        || !is_dnssec_type(from.record_type)
        || from.record_type == showing.query_type;
    of_a_type && (showing.bogus || !is_bogus(from))
}

// The records of a section that a client is told.
fn shown<'a>(
    alloc: Global,
    showing: Showing,
    section: &'a [Record],
) -> Result<Vec<&'a Record>, NoMemory>
    ensures { IfOk result (λ v. map (λ r. r.now) v.items ≡ filter (is_shown_by showing) section.now) }
{
    let mut all = Vec::new(alloc);
    for next in section {
        if is_shown(showing, next) {
            all.push(next)?;
        }
    }
    Ok(all)
}

// Whether a section has a Bogus record.
fn has_bogus(section: &[Record]) -> bool
    ensures { result ≡ list_any (λ r. is_bogus r.proof) section.now }
{
    section.iter().any(|next| is_bogus(next))
}

// Whether a client that doesn't check for itself is to get nothing of a response; `bogus`: it is denied, and Bogus.
fn is_withheld(checks: bool, bogus: bool, response: &Message) -> bool
    ensures { result ≡ is_withheld checks bogus response.now }
{
    !checks && (bogus || has_bogus(&response.answers) || has_bogus(&response.authorities))
}

// Whether a code has more bits than a reply without EDNS.
fn has_no_place(edns: &Option<Edns>, code: ResponseCode) -> bool
    ensures { result ≡ has_no_place edns.now code.0 }
{
    edns.is_none() && 15 < code.0
}

// Whether a record is of the type that is asked for, and no signature.
fn is_asked_for(query_type: RecordType, from: &Record) -> bool
    ensures { result ≡ is_asked_for query_type.0 from.now }
{
    from.record_type == query_type && from.record_type != RecordType::RRSIG
}

// Whether a record is Secure or a signature.
fn is_secure_or_signature(from: &Record) -> bool
    ensures { result ≡ is_secure_or_signature from.now }
{
    from.record_type == RecordType::RRSIG || matches!(from.proof, Proof::Secure)
}

// Whether a section has a record of the type that is asked for, and no signature.
fn has_asked_for(query_type: RecordType, section: &[Record]) -> bool
    ensures { result ≡ list_any (is_asked_for query_type.0) section.now }
{
    section.iter().any(|next| is_asked_for(query_type, next))
}

// Whether all of a section but signatures is Secure.
fn is_secure_section(section: &[Record]) -> bool
    ensures { result ≡ list_all is_secure_or_signature section.now }
{
    section.iter().all(|next| is_secure_or_signature(next))
}

// Whether a response has what was asked for, and all of its answer section but signatures is Secure.
fn is_secure_answer(query_type: RecordType, response: &Message) -> bool
    ensures { result ≡ is_secure_answer query_type.0 response.now }
{
    response.response_code == ResponseCode::NO_ERROR
        && has_asked_for(query_type, &response.answers)
        && is_secure_section(&response.answers)
}

// Whether a denial says that what is asked for is absent, and Secure.
fn is_secure_absence(denial: Denial) -> bool
    ensures { result ≡ is_secure_absence denial }
{
    matches!(denial, Denial::Absent(Proof::Secure))
}

// Whether nothing is there, and that is proved.
fn is_secure_denial(answers: &[Record], denial: Denial) -> bool
    ensures { result ≡ is_secure_denial answers.now denial }
{
    answers.is_empty() && is_secure_absence(denial)
}

// Whether a response is authentic for who asked this.
fn is_authentic(query: &Query, response: &DnsResponse) -> bool
    ensures { result ≡ is_authentic query.now response.now }
{
    is_secure_answer(query.query_type, &response.message)
        || is_secure_denial(&response.message.answers, response.denial)
}

// Whether a client asks to be told that a response is authentic.
fn asks_if_authentic(request: &Message) -> bool
    ensures { result ≡ asks_if_authentic request.now }
{
    wants_dnssec(&request.edns) || request.authentic_data
}

// The code and the sections of a response, as a client is told them.
fn told_to<'a>(
    alloc: Global,
    request: &Message,
    query: &Query,
    response: &'a Message,
    authentic: bool,
) -> Result<Reply<'a>, NoMemory>
    ensures { IfOk result
        (λ r. message_of request.now r ≡ reply_with request.now (told_to request.now query.now response.now) authentic false) }
{
    let all = Showing {
        dnssec_ok: wants_dnssec(&request.edns),
        bogus: true,
        query_type: query.query_type,
    };
    let beside = Showing {
        bogus: request.checking_disabled,
        ..all
    };
    let answers = shown(alloc, all, &response.answers)?;
    let authorities = shown(alloc, all, &response.authorities)?;
    let additionals = shown(alloc, beside, &response.additionals)?;
    Ok(Reply {
        code: response.response_code,
        authentic,
        truncated: false,
        answers,
        authorities,
        additionals,
    })
}

// The reply by a response that was looked up; `bogus`: it is denied, and Bogus.
fn judged_reply<'a>(
    alloc: Global,
    request: &Message,
    query: &Query,
    response: &'a Message,
    bogus: bool,
    authentic: bool,
) -> Result<Reply<'a>, NoMemory>
    ensures { IfOk result
        (λ r. message_of request.now r ≡ judged_reply request.now query.now response.now bogus authentic) }
{
    if is_withheld(request.checking_disabled, bogus, response)
        || has_no_place(&request.edns, response.response_code)
    {
        return Ok(Reply::bare(alloc, ResponseCode::SERV_FAIL));
    }
    told_to(alloc, request, query, response, authentic)
}

// The reply by what the lookup of a question came to.
fn looked_up_reply<'a>(
    alloc: Global,
    request: &Message,
    query: &Query,
    outcome: &'a Outcome,
) -> Result<Reply<'a>, NoMemory>
    ensures { IfOk result (λ r. message_of request.now r ≡ looked_up_reply request.now query.now outcome.now) }
{
    match outcome {
        Outcome::None | Outcome::Failed(_) => Ok(Reply::bare(alloc, ResponseCode::SERV_FAIL)),
        Outcome::Denied(response, proof) => {
            let bogus = matches!(proof, Proof::Bogus);
            judged_reply(alloc, request, query, &response.message, bogus, false)
        }
        Outcome::Answered(response) => {
            let authentic = asks_if_authentic(request) && is_authentic(query, response);
            judged_reply(alloc, request, query, &response.message, false, authentic)
        }
    }
}

/// The reply to a request, whatever its length: by the code by which it is refused, or by what the lookup of its question came to.
pub(crate) fn reply_of<'a>(
    alloc: Global,
    request: &Message,
    outcome: &'a Outcome,
) -> Result<Reply<'a>, NoMemory>
    ensures { IfOk result
        (λ r. message_of request.now r ≡ reply_by request.now (course_of request.now) outcome.now) }
{
    match course_of(request) {
        Ok(query) => looked_up_reply(alloc, request, query, outcome),
        Err(code) => Ok(Reply::bare(alloc, code)),
    }
}

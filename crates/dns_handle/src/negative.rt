//! Responses that say that there are no records (RFC 2308, 2), and those that say a failure.
ghost use Rattle.std.specs.Prelude.{◌≡◌, IfOk, unwrap_or};
ghost use Rattle.std.specs.List.{find};
ghost use Rattle.std.specs.Option.{option_and_then, option_copied};
ghost use Rattle.dns_handle.specs.Requests.{first_query};
ghost use Rattle.dns_handle.specs.Replies.{response_of};
ghost use Rattle.dns_handle.specs.Responses.{from_response, is_failure, is_negative, is_soa, negative_ttl_of, no_records_of, root_question};

use crate::answered::contains_answer;
use crate::glue::forwarded_among;
use crate::{DnsError, DnsResponse, NoRecords};
use dns_message::Message;
use dns_rdata::Soa;
use dns_record::{DNSClass, Name, NoMemory, Query, Record, RecordType, ResponseCode};
use std::alloc::Global;
use std::mem;

// Whether a server says by the code that it failed or refused.
fn is_failure(code: ResponseCode) -> bool
    ensures { result ≡ is_failure code.0 }
{
    matches!(code.0, 1 | 2 | 4..=10 | 16..=23)
}

// Whether the message says that there are no records.
fn is_negative(alloc: Global, message: &Message) -> Result<bool, NoMemory>
    ensures { IfOk result (λ b. b ≡ is_negative message.now) }
{
    if !message.response_code.can_deny() || message.truncated {
        return Ok(false);
    }
    Ok(!contains_answer(alloc, message)?)
}

// The question for the root's addresses.
fn ask_root(alloc: Global) -> Result<Query, NoMemory>
    ensures { IfOk result (λ q. q ≡ root_question) }
{
    let name = Name::root(alloc)?;
    Ok(Query {
        name,
        query_type: RecordType::A,
        query_class: DNSClass::IN,
    })
}

// The first question, or the root's addresses.
fn question_of(alloc: Global, queries: &[Query]) -> Result<Query, NoMemory>
    ensures { IfOk result (λ q. q ≡ unwrap_or (first_query queries.now) root_question) }
{
    match queries.first() {
        Some(query) => query.try_clone(),
        None => ask_root(alloc),
    }
}

// Whether this is an SOA that can be read.
fn is_soa(of: &Record) -> bool
    ensures { result ≡ is_soa of.now }
{
    Soa::of(of).is_some()
}

// The first SOA that can be read.
fn first_soa(section: &[Record]) -> Option<&Record>
    ensures { option_copied result ≡ find is_soa section.now }
{
    section.iter().find(|r| is_soa(r))
}

// A copy of the first SOA that can be read.
fn soa_of(section: &[Record]) -> Result<Option<Record>, NoMemory>
    ensures { IfOk result (λ s. s ≡ find is_soa section.now) }
{
    match first_soa(section) {
        None => Ok(None),
        Some(soa) => {
            let soa = soa.try_clone()?;
            Ok(Some(soa))
        }
    }
}

// For how long an SOA lets it be believed that there are no records (RFC 2308, 5).
fn negative_ttl_of(soa: &Option<Record>) -> Option<u32>
    ensures { result ≡ option_and_then negative_ttl_of soa.now }
{
    let soa = soa.as_ref()?;
    let ttl = soa.ttl;
    let read = Soa::of(soa)?;
    Some(ttl.min(read.minimum))
}

// What a message says that has no records. Its last two sections are taken from it.
fn no_records_of(alloc: Global, message: &mut Message) -> Result<NoRecords, NoMemory>
    ensures { IfOk result (λ n. n ≡ no_records_of message.old) }
{
    let additionals = mem::replace(&mut message.additionals, Vec::new(alloc));
    let ns = forwarded_among(alloc, additionals, &message.authorities)?;
    let query = question_of(alloc, &message.queries)?;
    let soa = soa_of(&message.authorities)?;
    let negative_ttl = negative_ttl_of(&soa);
    Ok(NoRecords {
        query,
        soa,
        ns,
        negative_ttl,
        response_code: message.response_code,
        authorities: mem::replace(&mut message.authorities, Vec::new(alloc)),
    })
}

impl DnsError {
    /// What becomes of a response: the error of its code, where a server says by it that it failed (RFC 6895, 2.3); that there
    /// are no records, where its code is NOERROR or NXDOMAIN, it answers none of its questions and it isn't cut off
    /// (RFC 2308, 2); else the response itself. The outer error says that memory ran out.
    pub fn from_response(
        alloc: Global,
        mut response: DnsResponse,
    ) -> Result<Result<DnsResponse, DnsError>, NoMemory>
        ensures { IfOk result (λ r. response_of r ≡ from_response response) }
    {
        let code = response.message.response_code;
        if is_failure(code) {
            return Ok(Err(DnsError::ResponseCode(code)));
        }
        if !is_negative(alloc, &response.message)? {
            return Ok(Ok(response));
        }
        let missing = no_records_of(alloc, &mut response.message)?;
        Ok(Err(DnsError::NoRecordsFound(missing)))
    }
}

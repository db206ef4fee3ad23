//! What a validation takes of a reply.

ghost use Rattle.std.specs.Prelude.{◌≡◌, false, Err, IfOk};
ghost use Rattle.std.specs.List.{list_any};
ghost use Rattle.dns_model.specs.Sections.{same_record};
ghost use Rattle.dns_model.specs.SoundAnswers.{told_by};
ghost use Rattle.dns_model.specs.Trails.{Records};
ghost use Rattle.dns_evidence.specs.Trail.{heard_value};
ghost use Rattle.dns_rules.specs.Marking.{cleared_message};
ghost use Rattle.dns_handle.specs.Replies.{reply_of};
ghost use Rattle.dns_validation.specs.Received.{no_records_message, with_soa as with_soa_of, received_value, is_out_of_memory};
ghost use Rattle.dns_validation.specs.ReceivedParts.{as_received};

use dns_evidence::{Reply, Told};
use dns_handle::{DnsError, DnsResponse, NetError, NoRecords};
use dns_message::Message;
use dns_outcome::clear_marks;
use dns_record::{NoMemory, OpCode, Record};
use std::alloc::Global;

/// The message of a reply, without the marks that came with it.
pub(crate) struct ReceivedMessage {
    pub(crate) message: Message,
    /// The reply said that there are no records.
    pub(crate) empty: bool,
}

// By hand, so that a function that lets one go calls this.
impl Drop for ReceivedMessage {
    fn drop(self) {
        let ReceivedMessage {
            message: _,
            empty: _,
        } = self;
    }
}

impl ReceivedMessage {
    /// The message alone.
    pub(crate) fn into_message(self) -> Message
        ensures { result ≡ self.message }
    {
        let ReceivedMessage { message, empty: _ } = self;
        message
    }

    /// Its records, and whether the reply said that there are none, as a step keeps them.
    pub(crate) fn into_reply(self) -> Reply
        ensures { heard_value result ≡ Records (told_by self.message) self.empty }
    {
        let ReceivedMessage { message, empty } = self;
        Reply::Told(Told {
            code: message.response_code,
            empty,
            answers: message.answers,
            authorities: message.authorities,
            additionals: message.additionals,
        })
    }
}

/// What a reply is taken as.
#[derive(Drop)]
pub(crate) enum Received {
    /// A message, also that of a denial and of a reply that says that there are no records.
    Message(ReceivedMessage),
    /// An error without a message.
    Failed(NetError),
}

/// The message of a reply, or its error. Memory ran out here or in the handle.
pub(crate) fn receive(
    alloc: Global,
    reply: Result<DnsResponse, NetError>,
) -> Result<Received, NoMemory>
    ensures received { IfOk result (λ r. as_received r ≡ received_value (reply_of reply)) }
    ensures kept { IfOk result (λ r. is_out_of_memory (reply_of reply) ≡ false) }
{
    match reply {
        Ok(response) => Ok(Received::Message(received_records(response.message))),
        Err(error) => receive_error(alloc, error),
    }
}

// The message of an error, if it has one.
fn receive_error(alloc: Global, error: NetError) -> Result<Received, NoMemory>
    ensures received { IfOk result (λ r. as_received r ≡ received_value (reply_of (Err error))) }
    ensures kept { IfOk result (λ r. is_out_of_memory (reply_of (Err error)) ≡ false) }
{
    match error {
        NetError::Dns(
            DnsError::Nsec {
                query: _,
                response,
                proof: _,
            },
        ) => { Ok(Received::Message(received_records(Box::into_inner(response).message))) }
        NetError::Dns(DnsError::NoRecordsFound(missing)) => {
            let message = message_without_records(alloc, missing)?;
            Ok(Received::Message(ReceivedMessage {
                message: cleared(message),
                empty: true,
            }))
        }
        NetError::NoMemory => Err(NoMemory),
        error => Ok(Received::Failed(error)),
    }
}

// What is received by a message.
fn received_records(message: Message) -> ReceivedMessage
    ensures message { result.message ≡ cleared_message message }
    ensures empty { result.empty ≡ false }
{
    ReceivedMessage {
        message: cleared(message),
        empty: false,
    }
}

// A message, without marks.
fn cleared(message: Message) -> Message
    ensures { result ≡ cleared_message message }
{
    let mut message = message;
    clear_marks(&mut message);
    message
}

// That there are no records, as the message of a response (RFC 2308, 2).
fn message_without_records(alloc: Global, missing: NoRecords) -> Result<Message, NoMemory>
    ensures { IfOk result (λ m. m ≡ no_records_message missing) }
{
    let NoRecords {
        query,
        soa,
        ns: _,
        negative_ttl: _,
        response_code,
        authorities,
    } = missing;
    let authorities = with_soa(authorities, soa)?;
    let queries = vec![in alloc; query]?;
    Ok(Message {
        id: 0,
        response: true,
        op_code: OpCode::QUERY,
        authoritative: false,
        truncated: false,
        recursion_desired: false,
        recursion_available: false,
        authentic_data: false,
        checking_disabled: false,
        response_code,
        queries,
        answers: Vec::new(alloc),
        authorities,
        additionals: Vec::new(alloc),
        edns: None,
    })
}

// The authorities, and behind them the SOA that came beside them, if it isn't one of them.
fn with_soa(authorities: Vec<Record>, soa: Option<Record>) -> Result<Vec<Record>, NoMemory>
    ensures { IfOk result (λ v. v.items ≡ with_soa_of authorities.items soa) }
{
    let Some(soa) = soa else {
        return Ok(authorities);
    };
    if has_record(&authorities, &soa) {
        return Ok(authorities);
    }
    let mut authorities = authorities;
    authorities.push(soa)?;
    Ok(authorities)
}

// The record is among these, whatever its ttl and mark.
fn has_record(records: &[Record], one: &Record) -> bool
    ensures { result ≡ list_any (same_record one.now) records.now }
{
    records.iter().any(|other| one.is_same(other))
}

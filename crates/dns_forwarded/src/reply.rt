//! Replies: what they repeat of their requests, and how they are written into the room that there is (RFC 1035, 4.1.1 and 4.2;
//! RFC 6891, 6.2 and 7).
ghost use Rattle.std.specs.Prelude.{◌≡◌, ◌≤◌, length, IfNone, IfOk, IfSome};
ghost use Rattle.std.specs.List.{flat_map};
ghost use Rattle.dns_model.specs.Gives.{Gives};
ghost use Rattle.dns_model.specs.Records.{MessageValue};
ghost use Rattle.dns_message.specs.WrittenAs.{encoded, question_bytes, written};
ghost use Rattle.dns_message.specs.declared.encode_error.EncodeError.TheVariants as errors;
ghost use Rattle.dns_forwarded.specs.Replies.{bare_reply, fitted, replied_edns, replied_questions, room_of, payload_of, shortened, unreadable_reply};
ghost use Rattle.dns_forwarded.specs.Seen.{message_of, IsBare};

use dns_handle::Protocol;
use dns_message::{Edns, EncodeError, Message, MessageRef};
use dns_record::{NoMemory, Octets, Query, Record, ResponseCode};
use std::alloc::Global;

/// The most bytes of a datagram that a reply asks for (RFC 6891, 6.2.5).
const PAYLOAD: u16 = 1232;

/// The most bytes of a datagram for a client that doesn't say how many it takes (RFC 1035, 4.2.1).
const SMALL: usize = 512;

/// The most bytes of a message over a connection (RFC 1035, 4.2.2).
const MOST: usize = 65535;

/// What a reply tells beside what it repeats of its request: a code, and records that stand in a response.
#[derive(Drop)]
pub(crate) struct Reply<'a> {
    pub(crate) code: ResponseCode,
    /// AD.
    pub(crate) authentic: bool,
    /// TC.
    pub(crate) truncated: bool,
    pub(crate) answers: Vec<&'a Record>,
    pub(crate) authorities: Vec<&'a Record>,
    pub(crate) additionals: Vec<&'a Record>,
}

impl<'a> Reply<'a> {
    /// A code, and no record.
    pub(crate) fn bare(alloc: Global, code: ResponseCode) -> Reply<'a>
        ensures value { (m : MessageValue) → message_of m result ≡ bare_reply m code.0 }
        ensures bare { IsBare result }
    {
        Reply {
            code,
            authentic: false,
            truncated: false,
            answers: Vec::new(alloc),
            authorities: Vec::new(alloc),
            additionals: Vec::new(alloc),
        }
    }

    // The same where there is no room for it: cut off over UDP, and none over TCP.
    fn shortened(&self, alloc: Global, protocol: Protocol) -> Reply<'a>
        ensures value { (m : MessageValue) → message_of m result ≡ shortened m protocol (message_of m self.now) }
        ensures bare { IsBare result }
    {
        match protocol {
            Protocol::Udp => Reply {
                code: self.code,
                authentic: self.authentic,
                truncated: true,
                answers: Vec::new(alloc),
                authorities: Vec::new(alloc),
                additionals: Vec::new(alloc),
            },
            Protocol::Tcp => Reply::bare(alloc, ResponseCode::SERV_FAIL),
        }
    }
}

// The question that a reply repeats, where there is exactly one.
fn replied_questions(queries: &[Query]) -> &[Query]
    ensures value { result.now ≡ replied_questions queries.now }
    ensures short { length (flat_map question_bytes result.now) ≤ 259 }
{
    match queries {
        [query] => {
            // A name has at most 255 bytes.
            let _wire = query.name.wire();
            queries
        }
        _ => &[],
    }
}

// The EDNS of a reply, where its request has any.
fn replied_edns(alloc: Global, edns: &Option<Edns>) -> Option<Edns>
    ensures { result ≡ replied_edns edns.now }
{
    match edns {
        None => None,
        Some(edns) => Some(Edns {
            max_payload: PAYLOAD,
            version: 0,
            dnssec_ok: edns.dnssec_ok,
            flags: 0,
            options: Octets::empty(alloc),
        }),
    }
}

// The most bytes of a datagram that a client says it takes.
fn payload_of(edns: &Option<Edns>) -> u16
    ensures { result ≡ payload_of edns.now }
{
    match edns {
        None => 0,
        Some(edns) => edns.max_payload,
    }
}

// The most bytes of a reply to a request with this EDNS.
fn room_of(protocol: Protocol, edns: &Option<Edns>) -> usize
    ensures { result ≡ room_of protocol edns.now }
{
    match protocol {
        Protocol::Udp => usize::from(payload_of(edns).min(PAYLOAD)).max(SMALL),
        Protocol::Tcp => MOST,
    }
}

// A reply to a request in wire form.
fn write(alloc: Global, request: &Message, reply: &Reply<'_>) -> Result<Octets, EncodeError>
    ensures exact { Gives (λ o. o) errors.NoMemory result (encoded (message_of request.now reply.now)) }
    ensures short { length (flat_map question_bytes (replied_questions request.now.queries)) ≤ 259 }
{
    let edns = replied_edns(alloc, &request.edns);
    let parts = MessageRef {
        id: request.id,
        response: true,
        op_code: request.op_code,
        authoritative: false,
        truncated: reply.truncated,
        recursion_desired: request.recursion_desired,
        recursion_available: true,
        authentic_data: reply.authentic,
        checking_disabled: request.checking_disabled,
        response_code: reply.code,
        queries: replied_questions(&request.queries),
        answers: &reply.answers,
        authorities: &reply.authorities,
        additionals: &reply.additionals,
        edns: &edns,
    };
    parts.to_vec(alloc)
}

// The same of a reply that has no record: for it there is always room.
#[tactic(auto, using(crate::proofs::RoomLemmas::bare_written, crate::proofs::RoomLemmas::bare_small))]
fn write_bare(alloc: Global, request: &Message, reply: &Reply<'_>) -> Result<Octets, NoMemory>
    requires { IsBare reply.now }
    ensures exact { IfOk result (λ o. o ≡ written (message_of request.now reply.now)) }
    ensures short { IfOk result (λ o. length o ≤ 282) }
{
    match write(alloc, request, reply) {
        Ok(bytes) => Ok(bytes),
        Err(EncodeError::NoMemory) => Err(NoMemory),
        Err(EncodeError::TooLong) => unreachable!(),
    }
}

// A reply to a request in wire form, where there is room for it.
#[tactic(auto, using(crate::proofs::RoomLemmas::fits, crate::proofs::RoomLemmas::shortened_here, crate::proofs::RoomLemmas::shortened_always))]
fn write_within(
    alloc: Global,
    request: &Message,
    protocol: Protocol,
    reply: &Reply<'_>,
) -> Result<Option<Octets>, NoMemory>
    ensures some { IfOk result (λ r. IfSome r (λ o. o ≡ written (fitted request.now protocol (message_of request.now reply.now)))) }
    ensures small { IfOk result (λ r. IfSome r (λ o. length o ≤ room_of protocol request.now.edns)) }
    ensures none { IfOk result (λ r. IfNone r (fitted request.now protocol (message_of request.now reply.now)
        ≡ shortened request.now protocol (message_of request.now reply.now))) }
{
    match write(alloc, request, reply) {
        Ok(bytes) => {
            if bytes.len() <= room_of(protocol, &request.edns) {
                Ok(Some(bytes))
            } else {
                Ok(None)
            }
        }
        Err(EncodeError::TooLong) => Ok(None),
        Err(EncodeError::NoMemory) => Err(NoMemory),
    }
}

/// A reply to a request in wire form, or what stands for one that is too long.
#[tactic(auto, using(crate::proofs::RoomLemmas::room_least))]
pub(crate) fn fit(
    alloc: Global,
    request: &Message,
    protocol: Protocol,
    reply: &Reply<'_>,
) -> Result<Octets, NoMemory>
    ensures exact { IfOk result (λ o. o ≡ written (fitted request.now protocol (message_of request.now reply.now))) }
    ensures small { IfOk result (λ o. length o ≤ room_of protocol request.now.edns) }
{
    match write_within(alloc, request, protocol, reply)? {
        Some(bytes) => Ok(bytes),
        None => write_bare(alloc, request, &reply.shortened(alloc, protocol)),
    }
}

/// The reply to bytes that are no message, in wire form: their id, QR and the code.
#[tactic(auto, using(crate::proofs::RoomLemmas::unreadable_written, crate::proofs::RoomLemmas::unreadable_short))]
pub(crate) fn unreadable(alloc: Global, id: u16) -> Result<Octets, NoMemory>
    ensures exact { IfOk result (λ o. o ≡ written (unreadable_reply id)) }
    ensures short { IfOk result (λ o. length o ≡ 12) }
{
    let mut reply = Message::query(alloc);
    reply.id = id;
    reply.response = true;
    reply.response_code = ResponseCode::FORM_ERR;
    match reply.to_vec() {
        Ok(bytes) => Ok(bytes),
        Err(EncodeError::NoMemory) => Err(NoMemory),
        Err(EncodeError::TooLong) => unreachable!(),
    }
}

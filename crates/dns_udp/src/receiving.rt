//! What becomes of a datagram that comes.
ghost use Rattle.std.specs.Prelude.{◌≡◌, ◌<◌, ◌≤◌, ◌^◌, IfOk, OnOk, length, map, take};
ghost use Rattle.dns_multiplexer.specs.Messages.{plain_response};
ghost use Rattle.dns_udp.specs.Encodings.{IsEncoded};
ghost use Rattle.dns_udp.specs.Requests.{put_back, questions_put_back, response_by};
ghost use Rattle.dns_udp.specs.Waiting.{Judges};

use crate::{Accepted, accept_datagram};
use dns_evidence::Trail;
use dns_handle::{DnsRequest, DnsResponse, NetError, ProtoError};
use dns_message::{EncodeError, Message};
use dns_model::Denial;
use dns_record::{NoMemory, Octets, Query};
use std::alloc::Global;
use std::net::SocketAddr;

/// A message alone as a response.
fn response_of(alloc: Global, message: Message) -> DnsResponse
    ensures { result ≡ plain_response message }
{
    DnsResponse {
        message,
        chains: Vec::new(alloc),
        denial: Denial::None,
        trail: Trail::new(alloc),
    }
}

/// Puts the question as it was before its letters' case was changed in the place of one that is equal to it.
fn put_back(query: &mut Query, original: &Query) -> Result<(), NoMemory>
    ensures { OnOk result (query.new ≡ put_back original.now query.old) }
{
    if *query == *original {
        *query = original.try_clone()?;
    }
    Ok(())
}

/// The same for each question.
fn put_all_back(queries: &mut [Query], original: &Query) -> Result<(), NoMemory>
    ensures { OnOk result (queries.new ≡ map (put_back original.now) queries.old) }
{
    for query in queries.iter_mut() {
        put_back(query, original)?;
    }
    Ok(())
}

/// The same where letters were sent in a random case.
fn restore(request: &DnsRequest, queries: &mut Vec<Query>) -> Result<(), NoMemory>
    ensures { OnOk result (queries.new.items
        ≡ questions_put_back request.now.options.case_randomization request.now.original queries.old.items) }
{
    if !request.options.case_randomization {
        return Ok(());
    }
    match &request.original {
        None => Ok(()),
        Some(original) => put_all_back(queries, original),
    }
}

/// The response that a message is to a request.
fn respond(
    alloc: Global,
    request: &DnsRequest,
    mut message: Message,
) -> Result<DnsResponse, NoMemory>
    ensures { IfOk result (λ r. r ≡ response_by request.now message) }
{
    restore(request, &mut message.queries)?;
    Ok(response_of(alloc, message))
}

/// What a datagram that came makes of the call: nothing, a response or an error.
fn judge(
    alloc: Global,
    request: &DnsRequest,
    server: SocketAddr,
    from: SocketAddr,
    bytes: &[u8],
) -> Option<Result<DnsResponse, NetError>>
    requires { length bytes.now < 2 ^ 32 }
    ensures { Judges request.now server (bytes.now, from) result }
{
    let case = request.options.case_randomization;
    match accept_datagram(alloc, &request.message, server, case, from, bytes) {
        Err(error) => Some(Err(NetError::from(error))),
        Ok(Accepted::Ignored) => None,
        Ok(Accepted::Undecodable(error)) => Some(Err(NetError::Proto(ProtoError::Decode(error)))),
        Ok(Accepted::CaseMismatch) => Some(Err(NetError::QueryCaseMismatch)),
        Ok(Accepted::Answer(message)) => match respond(alloc, request, message) {
            Ok(response) => Some(Ok(response)),
            Err(error) => Some(Err(NetError::from(error))),
        },
    }
}

/// The same of a datagram that stands in the front of a buffer.
pub(crate) fn judge_front(
    alloc: Global,
    request: &DnsRequest,
    server: SocketAddr,
    came: (usize, SocketAddr),
    buf: &[u8],
) -> Option<Result<DnsResponse, NetError>>
    requires inside { came.0 ≤ length buf.now }
    requires short { length buf.now < 2 ^ 32 }
    ensures { Judges request.now server (take came.0 buf.now, came.1) result }
{
    let (bytes, _) = buf.split_at(came.0);
    judge(alloc, request, server, came.1, bytes)
}

/// The request's bytes.
pub(crate) fn encoded(request: &DnsRequest) -> Result<Octets, NetError>
    ensures { IsEncoded request.now.message result }
{
    match request.message.to_vec() {
        Ok(bytes) => Ok(bytes),
        Err(EncodeError::TooLong) => Err(NetError::Proto(ProtoError::TooLong)),
        Err(EncodeError::NoMemory) => Err(NetError::NoMemory),
    }
}

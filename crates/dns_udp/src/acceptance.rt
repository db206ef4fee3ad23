//! Which datagrams are an answer (RFC 5452, 9.1).
ghost use Rattle.std.specs.Prelude.{◌≡◌, ◌<◌, ◌^◌, true, length, IfOk, IfErr};
ghost use Rattle.dns_udp.specs.Acceptance.{accepted, accepted_message, accepted_reading, is_addressed};
ghost use Rattle.dns_message.specs.MessageAt.{message_at};
ghost use Rattle.dns_udp.specs.Undecodables.{IsUndecodable};

use crate::addresses::is_same_peer;
use crate::questions::{asks_alike, spells_alike};
use dns_message::{DecodeError, DecodeKind, Message};
use dns_record::NoMemory;
use std::alloc::Global;
use std::net::SocketAddr;

/// What becomes of a datagram that came while a request waits.
#[derive(Drop)]
pub enum Accepted {
    /// It is no answer to the request: from elsewhere, with another id, or with other questions.
    Ignored,
    /// The server and the id are the request's, and the bytes are no message.
    Undecodable(DecodeError),
    /// It has the request's questions in other letters, and these count.
    CaseMismatch,
    /// It is the answer.
    Answer(Message),
}

/// Whether a datagram is from the server that was asked, and begins with the request's id.
fn is_addressed(id: u16, server: &SocketAddr, from: &SocketAddr, bytes: &[u8]) -> bool
    ensures { result ≡ is_addressed id server.now from.now bytes.now }
{
    is_same_peer(server, from)
        && bytes.len() >= 2
        && u16::from(bytes[0]) * 256 + u16::from(bytes[1]) == id
}

/// What becomes of a message that came from the server with the request's id.
fn accept_message(request: &Message, case: bool, message: Message) -> Accepted
    ensures { result ≡ accepted_message request.now case message }
{
    if !asks_alike(&request.queries, &message.queries) {
        return Accepted::Ignored;
    }
    if case && !spells_alike(&request.queries, &message.queries) {
        return Accepted::CaseMismatch;
    }
    Accepted::Answer(message)
}

/// What bytes are called that are no message; running out of memory says nothing of them.
fn undecodable(error: DecodeError) -> Result<Accepted, NoMemory>
    ensures { IsUndecodable error result }
{
    match error.kind {
        DecodeKind::NoMemory => Err(NoMemory),
        _ => Ok(Accepted::Undecodable(error)),
    }
}

/// What becomes of bytes that came from the server and begin with the request's id.
fn accept_bytes(
    alloc: Global,
    request: &Message,
    case: bool,
    bytes: &[u8],
) -> Result<Accepted, NoMemory>
    requires { length bytes.now < 2 ^ 32 }
    ensures { IfOk result (λ a. a ≡ accepted_reading request.now case (message_at bytes.now)) }
{
    match Message::from_vec(alloc, bytes) {
        Ok(message) => Ok(accept_message(request, case, message)),
        Err(error) => undecodable(error),
    }
}

/// Judges a datagram that came from `from` while a request to `server` waits, in this order (RFC 5452, 9.1).
///
/// `Ignored` where address or port aren't the server's (an IPv4 address also as ::ffff:a.b.c.d), where it has less than two
/// bytes, and where these aren't the request's id. `Undecodable` where it is no message. Where it has as many questions as the
/// request, each of them one of the request's: `CaseMismatch` where `case` is set and the letters of some are others, else
/// `Answer`. `Ignored` where its questions are others.
///
/// Memory is asked for only once server and id have been found to be the request's.
///
/// The answer in a datagram, if there is one, where the letters of names count:
///
/// ```
/// fn answer_in(
///     alloc: Global,
///     request: &Message,
///     server: SocketAddr,
///     from: SocketAddr,
///     bytes: &[u8],
/// ) -> Result<Option<Message>, NoMemory> {
///     if bytes.len() > 65_535 {
///         return Ok(None);
///     }
///     match accept_datagram(alloc, request, server, true, from, bytes)? {
///         Accepted::Answer(answer) => Ok(Some(answer)),
///         _ => Ok(None),
///     }
/// }
/// ```
pub fn accept_datagram(
    alloc: Global,
    request: &Message,
    server: SocketAddr,
    case: bool,
    from: SocketAddr,
    bytes: &[u8],
) -> Result<Accepted, NoMemory>
    requires { length bytes.now < 2 ^ 32 }
    ensures accepted { IfOk result (λ a. a ≡ accepted request.now server case from bytes.now) }
    ensures memory { IfErr result (λ _. is_addressed request.now.id server from bytes.now ≡ true) }
{
    if !is_addressed(request.id, &server, &from, bytes) {
        return Ok(Accepted::Ignored);
    }
    accept_bytes(alloc, request, case, bytes)
}

//! What came as a request, and the reply to it.
ghost use Rattle.std.specs.Prelude.{◌≡◌, IfOk, IfSome, option_map};
ghost use Rattle.dns_forwarded.specs.Requests.{query_of, received_of};
ghost use Rattle.dns_forwarded.specs.Laws.{IsSmall};
ghost use Rattle.dns_forwarded.specs.Replies.{forwarded, reply_bytes};

use crate::answer::reply_of;
use crate::course::course_of;
use crate::outcome::Outcome;
use crate::reply::{fit, unreadable};
use dns_handle::Protocol;
use dns_message::{DecodeKind, Message};
use dns_rdata::u16_at;
use dns_record::{NoMemory, Octets, Query};
use std::alloc::Global;

/// What came as a request (RFC 1035, 4.1.1).
pub enum Received {
    /// Fewer bytes than a header has, or a response. There is no reply.
    Ignored,
    /// No message, with the id that its first two bytes are.
    Unreadable(u16),
    /// A message that is no response.
    Read(Message),
}

// By hand, so that a function that lets one go calls this.
impl Drop for Received {
    fn drop(self) {
        match self {
            Received::Ignored => {}
            Received::Unreadable(_) => {}
            Received::Read(_) => {}
        }
    }
}

/// How many bytes a header has (RFC 1035, 4.1.1).
const HEADER: usize = 12;

/// QR in the third byte of a header.
const RESPONSE: u8 = 0x80;

/// The most bytes that are read; no transport carries as many.
const MOST: usize = 0xffff_ffff;

impl Received {
    /// What these bytes are. The only error is that memory ran out, as it does for 4 GiB and more.
    #[tactic(auto, unfolding(crate::specs::Requests::received_of))]
    pub fn of(alloc: Global, bytes: &[u8]) -> Result<Received, NoMemory>
        ensures { IfOk result (λ r. r ≡ received_of bytes.now) }
    {
        if bytes.len() < HEADER || bytes[2] & RESPONSE != 0 {
            return Ok(Received::Ignored);
        }
        if MOST < bytes.len() {
            return Err(NoMemory);
        }
        match Message::from_vec(alloc, bytes) {
            Ok(message) => Ok(Received::Read(message)),
            Err(error) => {
                if error.kind == DecodeKind::NoMemory {
                    return Err(NoMemory);
                }
                Ok(Received::Unreadable(u16_at(bytes, 0)))
            }
        }
    }

    /// The question to look up for it, where there is one. There is none where it is answered by a code alone, or not at all.
    pub fn query(&self) -> Option<&Query>
        ensures { option_map (λ q. q.now) result ≡ query_of self.now }
    {
        match self {
            Received::Ignored | Received::Unreadable(_) => None,
            Received::Read(request) => course_of(request).ok(),
        }
    }

    /// The reply, in wire form, where there is one, by what the lookup of its question came to. The only error is that memory ran out.
    #[tactic(auto, unfolding(crate::specs::Replies::reply_to), using(crate::proofs::RoomLemmas::is_small, crate::proofs::RoomLemmas::is_small_unreadable))]
    pub fn reply(
        &self,
        alloc: Global,
        protocol: Protocol,
        outcome: &Outcome,
    ) -> Result<Option<Octets>, NoMemory>
        ensures exact { IfOk result (λ r. r ≡ reply_bytes self.now protocol outcome.now) }
        // Over UDP it has at most 1,232 bytes, and at most 512 where the client doesn't say that it takes more.
        ensures small { IfOk result (λ r. IfSome r (IsSmall protocol self.now)) }
    {
        match self {
            Received::Ignored => Ok(None),
            Received::Unreadable(id) => {
                let bytes = unreadable(alloc, *id)?;
                Ok(Some(bytes))
            }
            Received::Read(request) => {
                let reply = reply_of(alloc, request, outcome)?;
                let bytes = fit(alloc, request, protocol, &reply)?;
                Ok(Some(bytes))
            }
        }
    }
}

/// The reply to the bytes of a request, in wire form, where there is one, by what the lookup of its question came to (RFC 1035, 4.1.1;
/// RFC 4035, 3.2). The only error is that memory ran out.
pub fn forwarded(
    alloc: Global,
    request: &[u8],
    protocol: Protocol,
    outcome: &Outcome,
) -> Result<Option<Octets>, NoMemory>
    ensures exact { IfOk result (λ r. r ≡ forwarded request.now protocol outcome.now) }
    // Over UDP it has at most 1,232 bytes, and at most 512 where the client doesn't say that it takes more.
    ensures small { IfOk result (λ r. IfSome r (IsSmall protocol (received_of request.now))) }
{
    Received::of(alloc, request)?.reply(alloc, protocol, outcome)
}

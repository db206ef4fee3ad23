//! A request, and the session over which it is answered.
ghost use Rattle.std.specs.Prelude.{◌<◌, ◌^◌, length};

use crate::replies::{octets_at, protocol_in, push_reply};
use dns_handle::Protocol;
use dns_record::{NoMemory, Octets};
use dns_respond::respond_over;
use dns_session::{Lines, Session, SessionStop, next_word, read_session};
use dns_session_lookup::{SessionLookup, Verification, session_lookup};
use std::alloc::Global;

// The reply to a request over a session: by its validator, at its moment and as deep as it says.
fn response_over(
    alloc: Global,
    session: Session,
    protocol: Protocol,
    request: &[u8],
) -> Result<Option<Octets>, NoMemory> {
    let SessionLookup {
        mut validator,
        query: _,
        options,
        moment,
    } = session_lookup(alloc, Verification::ByList, session)?;
    let depth = options.max_request_depth;
    let exchanged = respond_over(alloc, &mut validator, request, protocol, depth, moment)?;
    Ok(exchanged.reply)
}

/// Puts the reply in hexadecimal digits, or `none`, behind a text. The bytes are a line `PROTOCOL REQUEST`, `udp` or `tcp` and the request
/// in hexadecimal digits, and behind it a session, whose lines are counted from 1.
pub(crate) fn push_response(
    alloc: Global,
    bytes: &[u8],
    text: &mut Vec<u8>,
) -> Result<(), SessionStop>
    requires { length bytes.now < 2 ^ 32 }
{
    let bad = SessionStop::BadLine(1);
    let (line, _) = Lines::of(bytes).next().ok_or(bad)?;
    let behind = bytes.get(line.len() + 1..).ok_or(bad)?;
    let (protocol, request) = next_word(line);
    let protocol = protocol_in(protocol).ok_or(bad)?;
    let request = octets_at(alloc, request.ok_or(bad)?, bad)?;
    let session = read_session(alloc, behind)?;
    let reply = response_over(alloc, session, protocol, request.as_slice())?;
    push_reply(text, reply)?;
    Ok(())
}

//! A request over a shared connection, from its send to its end.
ghost use Rattle.std.specs.Prelude.{◌≡◌, ◌<◌, ◌≤◌, ◌+◌};
ghost use Rattle.dns_handle.specs.Replies.{reply_of};
ghost use Rattle.dns_shared_upstream.specs.Holders.{value_of};
ghost use Rattle.dns_shared_upstream.specs.Rounds.{Progresses, Waits, if_came};
ghost use Rattle.dns_shared_upstream.specs.Sends.{Asked};

use crate::held::Held;
use crate::holder::Holder;
use crate::progress::Progress;
use dns_handle::{DnsRequest, DnsResponse, NetError};
use dns_link::Link;
use dns_multiplexer::{Draws, RequestId};
use std::alloc::Global;
use std::sync::ledger::Ledger;
use std::sync::{Mutex, Wait};

/// So many messages are waited for.
const MOST_MESSAGES: u32 = 1024;

// A turn at the stream, once no other holder has it. What another holder handed to the exchange in the meantime is taken first.
fn turn<L: Link + Drop, R: Draws + Drop, G: Ledger, W: Wait>(
    rt: &W,
    alloc: Global,
    held: &Mutex<Held<L, G>>,
    holder: &mut Holder<R, G>,
    number: RequestId,
) -> Result<Progress, NetError>
    ensures { Progresses number.0 (value_of holder.old) (value_of holder.new) result }
{
    let mut held = held.lock(rt);
    if let Some(reply) = holder.take(rt, alloc, number)? {
        return Ok(Progress::Answered(reply));
    }
    let came = held.round(rt, alloc, holder)?;
    Ok(Progress::Read(came))
}

// One message more, if one came.
fn counted(messages: u32, came: bool) -> u32
    requires { messages < 1024 }
    ensures counted { result ≡ messages + if_came came }
    ensures most { result ≤ 1024 }
{
    if came { messages + 1 } else { messages }
}

// Waits for what comes for a request.
fn wait<L: Link + Drop, R: Draws + Drop, G: Ledger, W: Wait>(
    rt: &W,
    alloc: Global,
    held: &Mutex<Held<L, G>>,
    holder: &mut Holder<R, G>,
    number: RequestId,
) -> Result<DnsResponse, NetError>
    ensures { Waits number.0 (value_of holder.old) (value_of holder.new) (reply_of result) }
{
    let mut messages = 0;
    'round: for _ in rt.forever() {
        if let Some(reply) = holder.take(rt, alloc, number)? {
            return reply;
        }
        if messages == MOST_MESSAGES {
            return Err(NetError::Timeout);
        }
        let progress = turn(rt, alloc, held, holder, number)?;
        match progress {
            Progress::Answered(reply) => return reply,
            Progress::Read(came) => messages = counted(messages, came),
        }
    }
    unreachable!()
}

/// Sends a request at a moment, in milliseconds, and waits for its answer. After it the request is live no more.
pub(crate) fn ask<L: Link + Drop, R: Draws + Drop, G: Ledger, W: Wait>(
    rt: &W,
    alloc: Global,
    held: &Mutex<Held<L, G>>,
    holder: &mut Holder<R, G>,
    request: &DnsRequest,
    now_ms: u64,
) -> Result<DnsResponse, NetError>
    ensures { Asked request.now now_ms (value_of holder.old) (value_of holder.new) (reply_of result) }
{
    let number = holder.send(rt, alloc, request, now_ms)?;
    let reply = wait(rt, alloc, held, holder, number);
    holder.cancel(rt, alloc, number)?;
    reply
}

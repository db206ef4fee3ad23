//! What lies under the lock of a shared connection.
ghost use Rattle.std.specs.Prelude.{◌≡◌, true, IfErr, length, nat_le};
ghost use Rattle.dns_tcp.specs.StreamViews.{state_of};
ghost use Rattle.dns_shared_upstream.specs.Books.{CountedAlike, Covers, IsStreamError, failures_after, fault_of, has_failed_write, is_failure, total_after};
ghost use Rattle.dns_shared_upstream.specs.Holders.{value_of};
ghost use Rattle.dns_shared_upstream.specs.Rounds.{Fails, Goes, if_came, none_came};

use crate::holder::Holder;
use dns_handle::{IoKind, NetError};
use dns_link::Link;
use dns_multiplexer::{BufDnsStreamHandle, Draws, SerialMessage};
use dns_tcp::{Feed, TcpStream};
use std::alloc::Global;
use std::sync::Wait;
use std::sync::ledger::{Book, Ledger};

/// A stream, a handle that puts messages into its queue, and a book of its failures that holders counted. The book has no more than
/// the stream has.
#[derive(Drop)]
pub(crate) struct Held<L: Link + Drop, G: Ledger> {
    stream: TcpStream<L>,
    handle: BufDnsStreamHandle,
    book: Book<G>,
    ghost covers: { Covers book.total (state_of stream).failures },
    ghost addressed: { handle.addr ≡ (state_of stream).peer },
}

impl<L: Link + Drop, G: Ledger> Held<L, G> {
    pub(crate) fn new(stream: TcpStream<L>, handle: BufDnsStreamHandle, book: Book<G>) -> Self
        requires handle { handle.addr ≡ (state_of stream).peer }
        requires book { book.total ≡ 0 }
    {
        Held {
            stream,
            handle,
            book,
        }
    }

    /// Moves and writes what is to be sent, and reads once. Whether a message came.
    pub(crate) fn round<R: Draws + Drop, W: Wait>(
        &mut self,
        rt: &W,
        alloc: Global,
        holder: &mut Holder<R, G>,
    ) -> Result<bool, NetError>
        ensures { Goes if_came (value_of holder.old) (value_of holder.new) result }
    {
        move_out(rt, &mut self.stream, &mut self.handle, holder)?;
        self.write(rt, alloc, holder)?;
        self.read(rt, alloc, holder)
    }

    /// Writes all that waits in the stream's queue.
    fn write<R: Draws + Drop, W: Wait>(
        &mut self,
        rt: &W,
        alloc: Global,
        holder: &mut Holder<R, G>,
    ) -> Result<(), NetError>
        ensures went { Goes none_came (value_of holder.old) (value_of holder.new) result }
        ensures counted { CountedAlike (state_of self.old.stream).failures (state_of self.new.stream).failures
            (value_of holder.old).failures (value_of holder.new).failures }
    {
        match drain_all(&mut self.stream) {
            Ok(()) => Ok(()),
            Err(error) => Err(fail(rt, alloc, &mut self.book, holder, error)),
        }
    }

    /// Reads once. A message that is whole then is handed to the exchange.
    fn read<R: Draws + Drop, W: Wait>(
        &mut self,
        rt: &W,
        alloc: Global,
        holder: &mut Holder<R, G>,
    ) -> Result<bool, NetError>
        ensures went { Goes if_came (value_of holder.old) (value_of holder.new) result }
        ensures counted { CountedAlike (state_of self.old.stream).failures (state_of self.new.stream).failures
            (value_of holder.old).failures (value_of holder.new).failures }
    {
        match self.stream.feed() {
            Ok(Feed::More) => Ok(false),
            Ok(Feed::Message(message)) => {
                holder.arrive(rt, alloc, message.bytes.as_slice())?;
                Ok(true)
            }
            Ok(Feed::Closed) => {
                holder.close(rt, alloc, &mut self.book, IoKind::UnexpectedEof)?;
                Ok(false)
            }
            Err(error) => Err(fail(rt, alloc, &mut self.book, holder, error)),
        }
    }
}

// Puts a message into a stream's queue, which has room; one without a byte is none.
fn put<L: Link + Drop>(
    stream: &mut TcpStream<L>,
    handle: &mut BufDnsStreamHandle,
    message: SerialMessage,
) -> Result<(), NetError>
    requires room { nat_le (length (state_of stream.old).queue) handle.old.buffer ≡ true }
    ensures error { IfErr result (λ e. e ≡ NetError.NoMemory) }
    ensures failures { (state_of stream.new).failures ≡ (state_of stream.old).failures }
    ensures peer { (state_of stream.new).peer ≡ (state_of stream.old).peer }
    ensures handle { handle.new ≡ handle.old }
{
    if message.bytes.is_empty() {
        return Ok(());
    }
    stream.enqueue(handle, message)
}

// Puts what the exchange has to send into the stream's queue, while that has room. A message that was taken out of the exchange and
// found none would be lost to whoever sent it.
fn move_out<L: Link + Drop, R: Draws + Drop, G: Ledger, W: Wait>(
    rt: &W,
    stream: &mut TcpStream<L>,
    handle: &mut BufDnsStreamHandle,
    holder: &mut Holder<R, G>,
) -> Result<(), NetError>
    ensures went { Goes none_came (value_of holder.old) (value_of holder.new) result }
    ensures failures { (state_of stream.new).failures ≡ (state_of stream.old).failures }
    ensures peer { (state_of stream.new).peer ≡ (state_of stream.old).peer }
    ensures handle { handle.new ≡ handle.old }
{
    'message: for _ in rt.forever() {
        if !stream.has_room(handle) {
            return Ok(());
        }
        let Some(message) = holder.pop(rt) else {
            return Ok(());
        };
        put(stream, handle, message)?;
    }
    unreachable!()
}

// Writes all that waits in a stream's queue.
fn drain_all<L: Link + Drop>(stream: &mut TcpStream<L>) -> Result<(), NetError>
    ensures failures { (state_of stream.new).failures ≡ failures_after (has_failed_write result) (state_of stream.old).failures }
    ensures peer { (state_of stream.new).peer ≡ (state_of stream.old).peer }
    ensures error { IfErr result IsStreamError }
{
    'write: loop {
        if stream.drain()? {
            return Ok(());
        }
    }
}

// The fault of the outside that an error is.
fn fault_of(error: &NetError) -> Option<IoKind>
    ensures { result ≡ fault_of error.now }
{
    match error {
        NetError::Timeout => Some(IoKind::TimedOut),
        NetError::Io(kind) => Some(*kind),
        _ => None,
    }
}

// Counts an error of the stream, unless memory ran out, and closes the exchange with it.
fn fail<R: Draws + Drop, G: Ledger, W: Wait>(
    rt: &W,
    alloc: Global,
    book: &mut Book<G>,
    holder: &mut Holder<R, G>,
    error: NetError,
) -> NetError
    requires { IsStreamError error }
    ensures total { book.new.total ≡ total_after (is_failure (fault_of error)) book.old.total }
    ensures failures { (value_of holder.new).failures ≡ total_after (is_failure (fault_of error)) (value_of holder.old).failures }
    ensures failed { Fails (value_of holder.old) (value_of holder.new) result }
{
    let Some(fault) = fault_of(&error) else {
        return error;
    };
    match holder.close(rt, alloc, book, fault) {
        Ok(()) => error,
        Err(_) => NetError::NoMemory,
    }
}

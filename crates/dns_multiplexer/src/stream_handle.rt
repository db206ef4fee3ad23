//! Queues of messages that are to be sent (RFC 1035, 4.2.2).
ghost use Rattle.std.specs.Prelude.{◌≡◌, ◌≢◌, ◌∷◌, ◌++◌, ℕ, List, [], length, drop, slice_get, nat_le, option_copied, OnOk, OnErr, IfErr};
ghost use Rattle.dns_handle.specs.declared.error.NetError.TheVariants.{NoMemory};
ghost use Rattle.std.specs.declared.net.socket_addr.SocketAddr.{SocketAddr};
ghost use Rattle.dns_multiplexer.specs.Messages.{SerialMessageValue};
ghost use Rattle.dns_multiplexer.specs.Queues.{IsPut};

use crate::SerialMessage;
use dns_handle::{NetError, Notice};
use std::alloc::Global;
use std::collections::VecDeque;
use std::marker::Model;
use std::net::SocketAddr;

/// How many messages wait beside one more, unless another number is given.
const DEFAULT_BUFFER_SIZE: usize = 32;

/// Messages that wait to be sent, the first one first.
#[derive(Drop)]
pub struct StreamReceiver {
    messages: VecDeque<SerialMessage>,
}

impl Model for StreamReceiver {
    ghost use Rattle.std.specs.Prelude.{List};
    ghost use Rattle.dns_multiplexer.specs.Messages.{SerialMessageValue};

    ghost Value = { List SerialMessageValue };

    ghost view = { λ r. r.messages.items };
}

impl StreamReceiver {
    /// The first message, which stays. None exactly where none waits.
    pub fn peek(&self) -> Option<&SerialMessage>
        ensures { option_copied result ≡ slice_get self.now 0 }
    {
        self.messages.front()
    }

    /// Takes the first message out. None exactly where none waits.
    pub fn pop(&mut self) -> Option<SerialMessage>
        ensures first { result ≡ slice_get self.old 0 }
        ensures rest { self.new ≡ drop 1 self.old }
    {
        self.messages.pop_front()
    }

    /// How many messages wait.
    pub fn len(&self) -> usize
        ensures { result ≡ length self.now }
    {
        self.messages.len()
    }

    /// Takes back the message that was put in last.
    pub(crate) fn take_back(&mut self)
        ensures { (l : List SerialMessageValue) → (m : SerialMessageValue) → self.old ≡ l ++ m ∷ [] → self.new ≡ l }
    {
        let _ = self.messages.pop_back();
    }

    // Puts a message at the end.
    fn put(&mut self, message: SerialMessage) -> Result<(), NetError>
        ensures ok { OnOk result (self.new ≡ self.old ++ message ∷ []) }
        ensures err { OnErr result (self.new ≡ self.old) }
        ensures memory { IfErr result (λ e. e ≡ NoMemory) }
    {
        self.messages.push_back(message)?;
        Ok(())
    }
}

/// What puts messages into a queue.
pub trait DnsStreamHandle {
    /// The address that its messages go to.
    ghost addr: { Self → SocketAddr };

    /// How many messages wait beside one more at most.
    ghost buffer: { Self → ℕ };

    /// Puts the bytes at the end of the queue, under the handle's address. `SendQueueFull` comes exactly where one more than
    /// the size waits. After an error the queue is as it was.
    fn send(&mut self, queue: &mut StreamReceiver, message: SerialMessage) -> Result<(), NetError>
        requires { message.bytes ≢ [] }
        ensures put { IsPut (addr self.old) (buffer self.old) message queue.old queue.new result }
        ensures addr { addr self.new ≡ addr self.old }
        ensures buffer { buffer self.new ≡ buffer self.old };
}

/// Puts messages for one server into a queue.
#[derive(Drop)]
pub struct BufDnsStreamHandle {
    addr: SocketAddr,
    size: usize,
}

impl Model for BufDnsStreamHandle {
    ghost use Rattle.dns_multiplexer.specs.Queues.{StreamHandleValue};

    ghost Value = { StreamHandleValue };

    ghost view = { λ h. record { addr = h.addr; buffer = h.size } };
}

impl BufDnsStreamHandle {
    /// A handle with an empty queue, in which 32 messages and one more may wait.
    pub fn new(alloc: Global, remote: SocketAddr) -> (BufDnsStreamHandle, StreamReceiver)
        ensures handle { result.0 ≡ record { addr = remote; buffer = 32 } }
        ensures queue { result.1 ≡ [] }
    {
        BufDnsStreamHandle::with_buffer_size(alloc, remote, DEFAULT_BUFFER_SIZE)
    }

    /// A handle with an empty queue, in which so many messages and one more may wait.
    pub fn with_buffer_size(
        alloc: Global,
        remote: SocketAddr,
        size: usize,
    ) -> (BufDnsStreamHandle, StreamReceiver)
        ensures handle { result.0 ≡ record { addr = remote; buffer = size } }
        ensures queue { result.1 ≡ [] }
    {
        let handle = BufDnsStreamHandle { addr: remote, size };
        let queue = StreamReceiver {
            messages: VecDeque::new(alloc),
        };
        (handle, queue)
    }

    /// The address that its messages go to.
    pub fn remote_addr(&self) -> SocketAddr
        ensures { result ≡ self.now.addr }
    {
        self.addr
    }

    /// A handle for another address, of the same size.
    pub fn with_remote_addr(&self, remote: SocketAddr) -> BufDnsStreamHandle
        ensures { result ≡ record self.now { addr = remote } }
    {
        BufDnsStreamHandle {
            addr: remote,
            size: self.size,
        }
    }

    /// Whether the queue takes one message more. `false` exactly where `send` would answer that it is full.
    pub fn has_room(&self, queue: &StreamReceiver) -> bool
        ensures { result ≡ nat_le (length queue.now) self.now.buffer }
    {
        queue.len() <= self.size
    }
}

impl DnsStreamHandle for BufDnsStreamHandle {
    ghost addr = { λ h. h.addr };

    ghost buffer = { λ h. h.buffer };

    fn send(&mut self, queue: &mut StreamReceiver, message: SerialMessage) -> Result<(), NetError> {
        if queue.len() > self.size {
            return Err(NetError::Message(Notice::SendQueueFull));
        }
        queue.put(SerialMessage {
            bytes: message.bytes,
            addr: self.addr,
        })
    }
}

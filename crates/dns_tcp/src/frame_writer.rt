//! A frame while it is written (RFC 1035, 4.2.2).
ghost use Rattle.std.specs.Prelude.{◌≡◌, ◌≤◌, ◌↔◌, ◌++◌, [], IsTrue, OnErr, OnOk, drop, length};
ghost use Rattle.dns_tcp.specs.Frames.{frame, most_framed};

use dns_record::NoMemory;
use std::alloc::Global;
use std::marker::Model;

/// The frame that is written now. Contracts see it as the bytes that are still to be written.
#[derive(Drop)]
pub(crate) struct FrameWriter {
    bytes: Vec<u8>,
    /// So many of them are written.
    sent: usize,
}

impl Model for FrameWriter {
    ghost use Rattle.std.specs.Prelude.{◌≤◌, List, ℕ, drop, length};

    ghost Value = { List ℕ };

    ghost view = { λ w. drop w.sent w.bytes.items };

    ghost invariant = { λ w. w.sent ≤ length w.bytes.items };
}

/// Puts a message behind its length (RFC 1035, 4.2.2). Where there is no room for it, a part of it may stand there.
fn put_frame(bytes: &mut Vec<u8>, message: &[u8]) -> Result<(), NoMemory>
    requires { length message.now ≤ most_framed }
    ensures { OnOk result (bytes.new.items ≡ bytes.old.items ++ frame message.now) }
{
    let len = message.len() as u16;
    bytes.push((len / 256) as u8)?;
    bytes.push((len % 256) as u8)?;
    bytes.extend_from_slice(message)?;
    Ok(())
}

impl FrameWriter {
    /// Nothing is to be written.
    pub(crate) fn new(alloc: Global) -> FrameWriter
        ensures { result ≡ [] }
    {
        FrameWriter {
            bytes: Vec::new(alloc),
            sent: 0,
        }
    }

    /// The bytes that are still to be written.
    pub(crate) fn unsent(&self) -> &[u8]
        ensures { result.now ≡ self.now }
    {
        &self.bytes[self.sent..]
    }

    /// Whether nothing is to be written.
    pub(crate) fn is_idle(&self) -> bool
        ensures { IsTrue result ↔ (self.now ≡ []) }
    {
        self.unsent().is_empty()
    }

    /// Takes the next message to be written. Where there is no room for its frame, nothing has changed.
    pub(crate) fn load(&mut self, message: &[u8]) -> Result<(), NoMemory>
        requires idle { self.old ≡ [] }
        requires most { length message.now ≤ most_framed }
        ensures ok { OnOk result (self.new ≡ frame message.now) }
        ensures err { OnErr result (self.new ≡ []) }
    {
        self.sent = 0;
        self.bytes.clear();
        let put = put_frame(&mut self.bytes, message);
        if put.is_err() {
            self.bytes.clear();
        }
        put
    }

    /// So many more bytes are written.
    pub(crate) fn advance(&mut self, count: usize)
        requires { count ≤ length self.old }
        ensures { self.new ≡ drop count self.old }
    {
        self.sent += count;
    }
}

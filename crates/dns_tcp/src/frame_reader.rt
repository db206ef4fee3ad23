//! A frame while it is read (RFC 1035, 4.2.2).
ghost use Rattle.std.specs.Prelude.{◌≡◌, ◌<◌, ◌≤◌, ◌+◌, ◌^◌, [], IfOk, IfSome, IfNone, IsTrue, ◌↔◌, OnErr, drop, length, take, vec_len};
ghost use Rattle.dns_tcp.specs.Frames.{frame, lacking, most_framed};
ghost use Rattle.dns_tcp.specs.Links.{link_view};
ghost use Rattle.dns_tcp.specs.LinkReads.{ReadsOnto};
ghost use Rattle.dns_tcp.specs.Parts.{HasLength, IsPart, part_of};

use crate::link_reads::read_behind;
use dns_handle::IoKind;
use dns_link::Link;
use dns_record::NoMemory;
use std::alloc::Global;
use std::marker::Model;
use std::mem;

/// What was read of a frame. Contracts see it as the bytes.
#[derive(Drop)]
pub(crate) struct FrameReader {
    /// What the length says, once its two bytes were read.
    announced: Option<u16>,
    /// The bytes of the length, and once it was read those of the message: so many of the first ones.
    bytes: Vec<u8>,
    len: usize,
}

impl Model for FrameReader {
    ghost use Rattle.std.specs.Prelude.{◌≤◌, List, ℕ, length, take};
    ghost use Rattle.dns_tcp.specs.Parts.{part_of, IsPart};

    ghost Value = { List ℕ };

    ghost view = { λ r. part_of r.announced (take r.len r.bytes.items) };

    ghost invariant = { λ r. IsPart r.announced r.len × (r.len ≤ length r.bytes.items) };
}

/// Takes the length for itself once its two bytes are there.
fn settle_length(announced: &mut Option<u16>, bytes: &[u8], len: &mut usize)
    requires length { HasLength announced.old len.old }
    requires within { len.old ≤ length bytes.now }
    ensures kept { part_of announced.new (take len.new bytes.now) ≡ part_of announced.old (take len.old bytes.now) }
    ensures part { IsPart announced.new len.new }
    ensures within { len.new ≤ length bytes.now }
{
    if announced.is_some() || *len < 2 {
        return;
    }
    *announced = Some(u16::from(bytes[0]) * 256 + u16::from(bytes[1]));
    *len = 0;
}

impl FrameReader {
    /// Nothing was read.
    pub(crate) fn new(alloc: Global) -> FrameReader
        ensures { result ≡ [] }
    {
        FrameReader {
            announced: None,
            bytes: Vec::new(alloc),
            len: 0,
        }
    }

    /// Whether nothing was read of a frame.
    pub(crate) fn is_empty(&self) -> bool
        ensures { IsTrue result ↔ (self.now ≡ []) }
    {
        self.announced.is_none() && self.len == 0
    }

    /// How many bytes are lacking.
    fn lacking(&self) -> usize
        ensures lacking { result ≡ lacking self.now }
        ensures small { result < 2 ^ 16 }
    {
        match self.announced {
            None => 2 - self.len,
            Some(length) => usize::from(length) - self.len,
        }
    }

    /// Reads once, at most what is lacking.
    pub(crate) fn read<L: Link>(&mut self, link: &mut L) -> Result<Result<usize, IoKind>, NoMemory>
        requires { 0 < lacking self.old }
        ensures read { IfOk result (λ outcome. ReadsOnto (link_view L.counts L.given L.left L.taken L.calls) (lacking self.old)
            link.old link.new self.old self.new outcome) }
        ensures small { length self.new ≤ 65537 }
        ensures link { OnErr result (link.new ≡ link.old) }
        ensures bytes { OnErr result (self.new ≡ self.old) }
    {
        let most = self.lacking();
        let outcome = read_behind(link, &mut self.bytes, self.len, most)?;
        if let Ok(count) = outcome {
            self.len += count;
        }
        settle_length(&mut self.announced, &self.bytes, &mut self.len);
        Ok(outcome)
    }

    /// Takes the message out once its frame is whole.
    pub(crate) fn take_message(&mut self) -> Option<Vec<u8>>
        ensures whole { IfSome result (λ message. self.old ≡ frame message.items) }
        ensures most { IfSome result (λ message. length message.items ≤ most_framed) }
        ensures used { IfSome result (λ _. self.new ≡ []) }
        ensures lacks { IfSome result (λ _. lacking self.old ≡ 0) }
        ensures part { IfNone result (self.new ≡ self.old) }
        ensures shorter { length self.new ≤ length self.old }
        ensures more { IfNone result (0 < lacking self.old) }
    {
        let length = self.announced?;
        if self.len < usize::from(length) {
            return None;
        }
        let fresh = Vec::new(*self.bytes.allocator());
        let mut message = mem::replace(&mut self.bytes, fresh);
        message.truncate(self.len);
        self.announced = None;
        self.len = 0;
        Some(message)
    }
}

//! The law of frames: however they are cut, they give their messages.
ghost use Rattle.std.specs.Prelude.{◌≡◌, ◌≢◌, ◌⊎◌, ℕ, List, [], false, true, All, IfErr, IfOk, Ok, Some, length};
ghost use Rattle.std.specs.Io.{ReadsAtMost, WritesAtMost};
ghost use Rattle.std.specs.List.{concat};
ghost use Rattle.dns_model.specs.Gives.{Gives};
ghost use Rattle.dns_tcp.specs.Rows.{AreFrames, AreNoFrames};
ghost use Rattle.dns_tcp.specs.SureReads.{GivesNext, IsOpen, unread};

use crate::{Feed, TcpStream};
use dns_handle::{IoKind, NetError};
use dns_link::{Link, PairLink};
use dns_record::{NoMemory, Octets};
use std::alloc::Global;
use std::marker::Model;
use std::net::{IpAddr, Ipv4Addr, SocketAddr};

/// A link in memory that never fails.
#[derive(Drop)]
struct SureLink {
    link: PairLink,
}

impl Model for SureLink {
    ghost use Rattle.std.specs.Prelude.{◌≡◌, []};
    ghost use Rattle.dns_link.specs.Pairs.{PairLinkValue};

    ghost Value = { PairLinkValue };

    ghost view = { λ s. s.link };

    ghost invariant = { λ s. s.link.plan.fails ≡ [] };
}

impl SureLink {
    /// A link that gives these pieces.
    fn new(alloc: Global, pieces: Vec<Octets>) -> Result<SureLink, NoMemory>
        requires { All (λ piece. piece ≢ []) pieces.items }
        ensures left { IfOk result (λ link. link.pieces.left ≡ concat pieces.items) }
    {
        let link = PairLink::new(alloc, pieces, 0, Vec::new(alloc))?;
        Ok(SureLink { link })
    }
}

impl Link for SureLink {
    ghost counts = { λ l. record l.counts { faults = 0 } };

    ghost given = { λ l. Some l.pieces.given };

    ghost left = { λ l. Some l.pieces.left };

    ghost taken = { λ l. Some l.taken };

    fn read(&mut self, buf: &mut [u8]) -> Result<usize, IoKind> {
        let Ok(count) = self.link.read(buf) else {
            unreachable!()
        };
        Ok(count)
    }

    fn write(&mut self, bytes: &[u8]) -> Result<usize, IoKind> {
        let Ok(count) = self.link.write(bytes) else {
            unreachable!()
        };
        Ok(count)
    }
}

/// Reads on until a message is whole; none at the end.
fn next_message(stream: &mut TcpStream<SureLink>) -> Result<Option<Octets>, NetError>
    requires { IsOpen stream.old }
    ensures next { IfOk result (λ next. GivesNext stream.old stream.new next) }
    ensures err { IfErr result (λ e. (e ≡ NetError.NoMemory) ⊎ AreNoFrames (unread stream.old)) }
{
    'frame: loop {
        match stream.feed()? {
            Feed::More => (),
            Feed::Message(message) => return Ok(Some(message.bytes)),
            Feed::Closed => return Ok(None),
        }
    }
}

/// An address for a stream that goes nowhere.
fn nowhere() -> SocketAddr {
    SocketAddr::new(IpAddr::V4(Ipv4Addr::new(0, 0, 0, 0)), 0)
}

/// The messages whose frames these pieces are, one behind the other (RFC 1035, 4.2.2). It doesn't matter where they are cut. An
/// error other than running out of memory comes only where the bytes are no row of frames.
pub fn unframe(alloc: Global, pieces: Vec<Octets>) -> Result<Vec<Octets>, NetError>
    requires { All (λ piece. piece ≢ []) pieces.items }
    ensures framed { IfOk result (λ messages. AreFrames (concat pieces.items) messages.items) }
    ensures err { IfErr result (λ e. (e ≡ NetError.NoMemory) ⊎ AreNoFrames (concat pieces.items)) }

    // The law: what was framed is read again.
    ensures law { (messages : List (List ℕ)) → AreFrames (concat pieces.items) messages
        → Gives (λ all. all.items) NetError.NoMemory result (Ok messages) }
{
    let link = SureLink::new(alloc, pieces)?;
    let (mut stream, _) = TcpStream::from_stream(alloc, link, nowhere());
    let mut messages = Vec::new(alloc);
    'row: while let Some(message) = next_message(&mut stream)? {
        messages.push(message)?;
    }
    Ok(messages)
}

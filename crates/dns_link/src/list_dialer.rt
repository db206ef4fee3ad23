//! A dialer in memory.
ghost use Rattle.std.specs.Prelude.{◌≡◌, All, IfErr, IfOk, None, Some, drop};
ghost use Rattle.std.specs.Option.{option_map};
ghost use Rattle.dns_link.specs.Calls.{IsToldWith, IsToldWithThose, Tells, answered, no_calls};
ghost use Rattle.dns_link.specs.Counts.{after_dial, no_counts, with_counts};
ghost use Rattle.dns_link.specs.Listed.{IsNewLink, IsNewSocket, first_or_refused};
ghost use Rattle.dns_link.specs.Moved.{IsNew, and_those};

use crate::call_log::CallLog;
use crate::counts::Counts;
use crate::dialer::Dialer;
use crate::list_datagrams::ListDatagrams;
use crate::net_call::NetCall;
use crate::pair_link::PairLink;
use dns_handle::IoKind;
use std::collections::VecDeque;
use std::marker::Model;
use std::net::SocketAddr;

/// A dialer in memory. It gives links and sockets in order, or a kind of fault in place of one, and refuses with
/// `AddrNotAvailable` where none is left. It doesn't tell what came.
#[derive(Drop)]
pub struct ListDialer {
    links: VecDeque<Result<PairLink, IoKind>>,
    sockets: VecDeque<Result<ListDatagrams, IoKind>>,
    counts: Counts,
    calls: CallLog,
}

impl Model for ListDialer {
    ghost use Rattle.std.specs.Prelude.{All};
    ghost use Rattle.dns_link.specs.Listed.{IsNewLink, IsNewSocket, ListDialerValue};

    ghost Value = { ListDialerValue };

    ghost view = { λ d. record { links = d.links.items; sockets = d.sockets.items; counts = d.counts; calls = d.calls } };

    ghost invariant = { λ d. All IsNewLink d.links.items × All IsNewSocket d.sockets.items };
}

/// Takes the first of a list out, or answers that no address is there.
fn next_of<X: Drop>(list: &mut VecDeque<Result<X, IoKind>>) -> Result<X, IoKind>
    ensures first { result ≡ first_or_refused list.old.items }
    ensures rest { list.new.items ≡ drop 1 list.old.items }
{
    match list.pop_front() {
        Some(next) => next,
        None => Err(IoKind::AddrNotAvailable),
    }
}

impl ListDialer {
    /// A dialer that gives these links and sockets, none of which was used before.
    pub fn new(
        links: Vec<Result<PairLink, IoKind>>,
        sockets: Vec<Result<ListDatagrams, IoKind>>,
    ) -> ListDialer
        requires links { All IsNewLink links.items }
        requires sockets { All IsNewSocket sockets.items }
        ensures { result
            ≡ record { links = links.items; sockets = sockets.items; counts = no_counts; calls = Some no_calls } }
    {
        let calls = CallLog::new(*links.allocator());
        ListDialer {
            links: VecDeque::from_vec(links),
            sockets: VecDeque::from_vec(sockets),
            counts: Counts::new(),
            calls,
        }
    }

    /// What was asked of it, in order, with what was sent by the sockets that it has back. None once memory ran out for one.
    pub fn calls(&self) -> Option<&[NetCall]>
        ensures { option_map (λ calls. calls.now) result ≡ option_map (λ told. told.made) self.now.calls }
    {
        self.calls.calls()
    }
}

impl Dialer for ListDialer {
    type Link = PairLink;

    type Datagrams = ListDatagrams;

    ghost counts = { λ d. d.counts };

    ghost given_bytes = { λ _. None };

    ghost given_datagrams = { λ _. None };

    ghost calls = { λ d. d.calls };

    fn connect(
        &mut self,
        peer: SocketAddr,
        bind: Option<SocketAddr>,
        timeout_ms: u64,
    ) -> Result<PairLink, IoKind>
        ensures made { IfOk result (λ link. IsNew link.counts (Some link.pieces.given)) }
        ensures unasked { IfOk result (λ link. Tells link.calls no_calls) }
        ensures counts { self.new.counts ≡ after_dial result self.old.counts }
        ensures first { result ≡ first_or_refused self.old.links }
        ensures rest { self.new.links ≡ drop 1 self.old.links }
        ensures sockets { self.new.sockets ≡ self.old.sockets }
        ensures calls { IsToldWith self.old.calls (answered (NetCall.Connect peer bind timeout_ms) result) self.new.calls }
    {
        let result = next_of(&mut self.links);
        self.counts.count_dial(&result);
        self.calls
            .add(NetCall::Connect(peer, bind, timeout_ms), &result);
        result
    }

    fn bind(&mut self, local: SocketAddr) -> Result<ListDatagrams, IoKind>
        ensures made { IfOk result (λ socket. IsNew socket.counts (Some socket.given)) }
        ensures unasked { IfOk result (λ socket. Tells socket.calls no_calls) }
        ensures counts { self.new.counts ≡ after_dial result self.old.counts }
        ensures first { result ≡ first_or_refused self.old.sockets }
        ensures rest { self.new.sockets ≡ drop 1 self.old.sockets }
        ensures links { self.new.links ≡ self.old.links }
        ensures calls { IsToldWith self.old.calls (answered (NetCall.Bind local) result) self.new.calls }
    {
        let result = next_of(&mut self.sockets);
        self.counts.count_dial(&result);
        self.calls.add(NetCall::Bind(local), &result);
        result
    }

    fn retire(&mut self, link: PairLink)
        ensures kept { self.new ≡ record self.old { counts = with_counts self.old.counts link.counts; calls = self.new.calls } }
        ensures calls { IsToldWithThose self.old.calls link.calls self.new.calls }
    {
        let (counts, calls) = link.into_met();
        self.counts.add(&counts);
        self.calls.append(calls);
    }

    fn retire_datagrams(&mut self, socket: ListDatagrams)
        ensures kept { self.new ≡ record self.old { counts = with_counts self.old.counts socket.counts; calls = self.new.calls } }
        ensures calls { IsToldWithThose self.old.calls socket.calls self.new.calls }
    {
        let (counts, calls) = socket.into_met();
        self.counts.add(&counts);
        self.calls.append(calls);
    }
}

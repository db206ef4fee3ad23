//! A datagram socket in memory.
ghost use Rattle.std.specs.Prelude.{◌≡◌, ◌↔◌, ◌≤◌, ◌++◌, [], None, Some, Ok, IsErr, IfErr, IfOk, IfSome, IsTrue, length, drop, take};
ghost use Rattle.std.specs.VecDeque.{deque_len, deque_capacity};
ghost use Rattle.std.specs.Io.{WritesAtMost};
ghost use Rattle.std.specs.Option.{option_map};
ghost use Rattle.dns_link.specs.Calls.{IsToldWith, answered, only_fault};
ghost use Rattle.dns_link.specs.Counts.{after_receive, after_send};
ghost use Rattle.dns_link.specs.Moved.{and_then, received_by};
ghost use Rattle.dns_link.specs.Listed.{IsNext, IsReceived, new_datagrams};
ghost use Rattle.dns_link.specs.Plans.{next_fails, with_call};

use crate::call_log::CallLog;
use crate::call_plan::CallPlan;
use crate::counts::Counts;
use crate::datagrams::Datagrams;
use crate::net_call::NetCall;
use dns_handle::IoKind;
use dns_record::Octets;
use std::collections::VecDeque;
use std::marker::Model;
use std::net::SocketAddr;

/// A datagram socket in memory. It gives datagrams in order and then none, takes all that is sent, and fails where it is told to.
#[derive(Drop)]
pub struct ListDatagrams {
    /// Those that are to come, and behind them those that came.
    datagrams: VecDeque<(Octets, SocketAddr)>,
    /// So many are to come.
    left: usize,
    plan: CallPlan,
    counts: Counts,
    calls: CallLog,
}

impl Model for ListDatagrams {
    ghost use Rattle.std.specs.Prelude.{◌≤◌, drop, take, length};
    ghost use Rattle.std.specs.VecDeque.{deque_len, deque_capacity};
    ghost use Rattle.dns_link.specs.Listed.{ListDatagramsValue};

    ghost Value = { ListDatagramsValue };

    ghost view = { λ d. record {
      given = drop d.left d.datagrams.items;
      incoming = take d.left d.datagrams.items;
      plan = d.plan;
      counts = d.counts;
      calls = d.calls;
    } };

    ghost invariant = { λ d. (d.left ≤ deque_len d.datagrams) × (deque_len d.datagrams ≤ deque_capacity d.datagrams) };
}

/// Takes the first datagram out, puts what fits of it into the front of `buf`, and keeps that behind the others.
fn receive_first(
    datagrams: &mut VecDeque<(Octets, SocketAddr)>,
    buf: &mut [u8],
) -> Option<(usize, SocketAddr)>
    requires { deque_len datagrams.old ≤ deque_capacity datagrams.old }
    ensures fits { deque_len datagrams.new ≤ deque_capacity datagrams.new }
    ensures received { IsReceived datagrams.old.items datagrams.new.items result buf.new }
{
    let (bytes, from) = datagrams.pop_front()?;
    let bytes = bytes.truncated(buf.len());
    copy_in(bytes.as_slice(), buf);
    let count = bytes.len();
    let Ok(()) = datagrams.push_back((bytes, from)) else {
        unreachable!()
    };
    Some((count, from))
}

/// Copies bytes into the front of `buf`.
fn copy_in(bytes: &[u8], buf: &mut [u8])
    requires { length bytes.now ≤ length buf.old }
    ensures { take (length bytes.now) buf.new ≡ bytes.now }
{
    buf[..bytes.len()].copy_from_slice(bytes);
}

impl ListDatagrams {
    /// A socket to which these datagrams come. `fails` are the numbers, from 0, of the calls that fail; their kind is `Other`.
    pub fn new(incoming: Vec<(Octets, SocketAddr)>, fails: Vec<u64>) -> ListDatagrams
        ensures { result ≡ new_datagrams incoming.items fails.items }
    {
        let left = incoming.len();
        let calls = CallLog::new(*incoming.allocator());
        ListDatagrams {
            datagrams: VecDeque::from_vec(incoming),
            left,
            plan: CallPlan::new(fails),
            counts: Counts::new(),
            calls,
        }
    }

    /// What was sent where, in order: each is a [`NetCall::Send`]. None once memory ran out for one.
    pub fn calls(&self) -> Option<&[NetCall]>
        ensures { option_map (λ calls. calls.now) result ≡ option_map (λ told. told.made) self.now.calls }
    {
        self.calls.calls()
    }

    /// What it met, and what was sent.
    pub(crate) fn into_met(self) -> (Counts, CallLog)
        ensures { result ≡ (self.counts, self.calls) }
    {
        (self.counts, self.calls)
    }

    /// Takes what is to come next, unless none is, or the call is one that fails.
    fn try_receive(&mut self, buf: &mut [u8]) -> Result<Option<(usize, SocketAddr)>, IoKind>
        ensures fails { IsErr result ↔ IsTrue (next_fails self.old.plan) }
        ensures kind { IfErr result (λ kind. kind ≡ IoKind.Other) }
        ensures none { result ≡ Ok None → self.old.incoming ≡ [] }
        ensures some { IfOk result (λ came. IfSome came (λ d. IsNext self.old.incoming (length buf.new) d)) }
        ensures bound { IfOk result (λ came. IfSome came (λ d. d.0 ≤ length buf.new)) }
        ensures moved { self.new ≡ record self.old {
          given = self.old.given ++ received_by result buf.new;
          incoming = drop (length (received_by result buf.new)) self.old.incoming;
          plan = with_call self.old.plan;
        } }
    {
        if self.plan.make() {
            return Err(IoKind::Other);
        }
        if self.left == 0 {
            return Ok(None);
        }
        self.left -= 1;
        Ok(receive_first(&mut self.datagrams, buf))
    }

    /// Takes all that is sent, unless the call is one that fails.
    fn try_send(&mut self, bytes: &[u8]) -> Result<usize, IoKind>
        ensures fails { IsErr result ↔ IsTrue (next_fails self.old.plan) }
        ensures kind { IfErr result (λ kind. kind ≡ IoKind.Other) }
        ensures count { IfOk result (λ n. n ≡ length bytes.now) }
        ensures kept { self.new ≡ record self.old { plan = with_call self.old.plan } }
    {
        if self.plan.make() {
            return Err(IoKind::Other);
        }
        Ok(bytes.len())
    }
}

impl Datagrams for ListDatagrams {
    ghost counts = { λ d. d.counts };

    ghost given = { λ d. Some d.given };

    ghost calls = { λ d. d.calls };

    fn send_to(&mut self, bytes: &[u8], to: SocketAddr) -> Result<usize, IoKind>
        ensures bound { WritesAtMost result bytes.now }
        ensures counts { self.new.counts ≡ after_send (length bytes.now) result self.old.counts }
        ensures given { Some self.new.given ≡ Some self.old.given }
        ensures calls { IsToldWith self.old.calls (answered (NetCall.Send bytes.now to) result) self.new.calls }

        // All is taken, unless the call is to fail.
        ensures fails { IsErr result ↔ IsTrue (next_fails self.old.plan) }
        ensures kind { IfErr result (λ kind. kind ≡ IoKind.Other) }
        ensures count { IfOk result (λ n. n ≡ length bytes.now) }
        ensures incoming { self.new.incoming ≡ self.old.incoming }
        ensures plan { self.new.plan ≡ with_call self.old.plan }
    {
        let result = self.try_send(bytes);
        self.counts.count_send(bytes.len(), &result);
        self.calls.add_send(bytes, to, &result);
        result
    }

    fn recv_from(&mut self, buf: &mut [u8]) -> Result<Option<(usize, SocketAddr)>, IoKind>
        ensures bound { IfOk result (λ came. IfSome came (λ d. d.0 ≤ length buf.new)) }
        ensures counts { self.new.counts ≡ after_receive result self.old.counts }
        ensures given { Some self.new.given ≡ and_then (Some self.old.given) (received_by result buf.new) }
        ensures calls { IsToldWith self.old.calls (only_fault result) self.new.calls }

        // The next datagram comes as far as it fits, unless none is to come or the call is to fail.
        ensures fails { IsErr result ↔ IsTrue (next_fails self.old.plan) }
        ensures kind { IfErr result (λ kind. kind ≡ IoKind.Other) }
        ensures none { result ≡ Ok None → self.old.incoming ≡ [] }
        ensures some { IfOk result (λ came. IfSome came (λ d. IsNext self.old.incoming (length buf.new) d)) }
        ensures incoming { self.new.incoming ≡ drop (length (received_by result buf.new)) self.old.incoming }
        ensures plan { self.new.plan ≡ with_call self.old.plan }
    {
        let result = self.try_receive(buf);
        self.counts.count_receive(&result);
        self.calls.add_fault(&result);
        result
    }
}

//! The calls of an object in memory, as it tells them.
ghost use Rattle.std.specs.Prelude.{◌≡◌, Some};
ghost use Rattle.std.specs.Option.{option_map};
ghost use Rattle.dns_link.specs.Calls.{IsToldWith, IsToldWithThose, answered, fault_of, last_fault, no_calls, only_fault};

use crate::net_call::NetCall;
use dns_handle::IoKind;
use dns_record::Octets;
use std::alloc::Global;
use std::marker::Model;
use std::net::SocketAddr;

/// The calls that were made, in order, and the kind of the last fault. Once memory runs out for one, nothing is told any more.
#[derive(Drop)]
pub(crate) struct CallLog {
    calls: Vec<NetCall>,
    fault: Option<IoKind>,
    /// No call is missing.
    is_whole: bool,
}

impl Model for CallLog {
    ghost use Rattle.std.specs.Prelude.{Option};
    ghost use Rattle.dns_link.specs.Calls.{NetCalls};
    ghost use Rattle.dns_link.specs.Logs.{log_of};

    ghost Value = { Option NetCalls };

    ghost view = { λ l. log_of l.is_whole (record { made = l.calls.items; fault = l.fault }) };
}

/// The kind of the fault that a call is answered.
fn fault_of<X>(outcome: &Result<X, IoKind>) -> Option<IoKind>
    ensures { result ≡ fault_of outcome.now }
{
    match outcome {
        Ok(_) => None,
        Err(kind) => Some(*kind),
    }
}

/// Puts the kind of a fault, if there is one, in the place of an earlier one.
fn keep_fault(last: &mut Option<IoKind>, fault: Option<IoKind>)
    ensures { last.new ≡ last_fault last.old fault }
{
    if fault.is_some() {
        *last = fault;
    }
}

impl CallLog {
    /// No call was made yet.
    pub(crate) fn new(alloc: Global) -> CallLog
        ensures { result ≡ Some no_calls }
    {
        CallLog {
            calls: Vec::new(alloc),
            fault: None,
            is_whole: true,
        }
    }

    /// The calls, where none is missing.
    pub(crate) fn calls(&self) -> Option<&[NetCall]>
        ensures { option_map (λ calls. calls.now) result ≡ option_map (λ told. told.made) self.now }
    {
        if self.is_whole {
            Some(&self.calls)
        } else {
            None
        }
    }

    /// Keeps a call and how it was answered.
    pub(crate) fn add<X>(&mut self, call: NetCall, outcome: &Result<X, IoKind>)
        ensures { IsToldWith self.old (answered call outcome.now) self.new }
    {
        keep_fault(&mut self.fault, fault_of(outcome));
        if self.calls.push(call).is_err() {
            self.is_whole = false;
        }
    }

    /// Keeps that a datagram was sent, and how that was answered.
    pub(crate) fn add_send(&mut self, bytes: &[u8], to: SocketAddr, outcome: &Result<usize, IoKind>)
        ensures { IsToldWith self.old (answered (NetCall.Send bytes.now to) outcome.now) self.new }
    {
        match Octets::from_slice(*self.calls.allocator(), bytes) {
            Ok(bytes) => self.add(NetCall::Send(bytes, to), outcome),
            Err(_) => self.is_whole = false,
        }
    }

    /// Keeps the kind of the fault that a read, a write or a wait is answered.
    pub(crate) fn add_fault<X>(&mut self, outcome: &Result<X, IoKind>)
        ensures { IsToldWith self.old (only_fault outcome.now) self.new }
    {
        keep_fault(&mut self.fault, fault_of(outcome));
    }

    /// Keeps the calls of an object that is given back.
    pub(crate) fn append(&mut self, mut those: CallLog)
        ensures { IsToldWithThose self.old those self.new }
    {
        keep_fault(&mut self.fault, those.fault);
        if !those.is_whole || self.calls.append(&mut those.calls).is_err() {
            self.is_whole = false;
        }
    }
}

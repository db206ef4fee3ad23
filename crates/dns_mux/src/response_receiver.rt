//! What a request that was put into a queue has come to.
ghost use Rattle.std.specs.Prelude.{◌≡◌, ◌∷◌, [], ⊤, slice_get, drop, IfSome, OnSome};
ghost use Rattle.futures.specs.Task.{Covers, Keeps};
ghost use Rattle.futures.specs.Poll.{IfReady, OnPending};
ghost use Rattle.futures.specs.Runs.{After, Within};
ghost use Rattle.dns_mux.specs.Receivers.{settled, poll_of_coming, left_of, coming};
ghost use Rattle.dns_mux.specs.Streams.{poll_of};

use crate::DnsResponseStream;
use dns_handle::{DnsResponse, NetError};
use futures::Stream;
use futures::task::{Context, Poll};

/// What a request that was put into a queue has come to. A poll of it is pending, and asks to be polled again, until it is
/// settled; then it polls the stream, or gives the error once and ends.
#[derive(Drop)]
pub enum DnsResponseReceiver {
    /// Nothing yet: the request waits in the queue, or is being sent. It has this slot.
    Receiver(u64),
    /// What comes for it.
    Received(DnsResponseStream),
    /// It wasn't sent: the error, until it was given.
    Err(Option<NetError>),
}

impl DnsResponseReceiver {
    /// Says what a request that waits has come to. What is settled already stays as it is.
    pub fn settle(&mut self, made: Result<DnsResponseStream, NetError>)
        ensures { self.new ≡ settled made self.old }
    {
        if !matches!(self, DnsResponseReceiver::Receiver(_)) {
            return;
        }
        *self = match made {
            Ok(stream) => DnsResponseReceiver::Received(stream),
            Err(error) => DnsResponseReceiver::Err(Some(error)),
        };
    }
}

impl Stream for DnsResponseReceiver {
    ghost use Rattle.dns_mux.specs.Receivers.{YieldsSettled};

    type Item = Result<DnsResponse, NetError>;

    ghost yields = { λ r. YieldsSettled (coming r) };

    // The trait's clauses, and which item comes and what it leaves.
    fn poll_next(&mut self, cx: &mut Context<'_>) -> Poll<Option<Result<DnsResponse, NetError>>>
        ensures value { IfReady result (YieldsSettled (coming self.old) []) }
        ensures rest { IfReady result (λ o. IfSome o (λ x.
            After (YieldsSettled (coming self.old)) x (YieldsSettled (coming self.new)))) }
        ensures goes { IfReady result (λ o. OnSome o ⊤) }
        ensures again { OnPending result ⊤ }
        ensures same { OnPending result (Within (YieldsSettled (coming self.old)) (YieldsSettled (coming self.new))) }
        ensures registered { OnPending result (Covers cx.new (λ _. ⊥)) }
        ensures kept { Keeps cx.old cx.new }
        ensures polled { poll_of result ≡ poll_of_coming (coming self.old) }
        ensures left { coming self.new ≡ left_of (coming self.old) }
        ensures unsettled { OnPending result (self.new ≡ self.old) }
    {
        match self {
            DnsResponseReceiver::Receiver(_) => cx.yield_now(),
            DnsResponseReceiver::Received(stream) => stream.poll_next(cx),
            DnsResponseReceiver::Err(error) => Poll::Ready(error.take().map(Err)),
        }
    }
}

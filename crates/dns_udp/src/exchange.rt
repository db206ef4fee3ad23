//! A handle that sends its requests by datagrams.
ghost use Rattle.std.specs.Prelude.{◌≡◌};
ghost use Rattle.dns_handle.specs.Replies.{reply_of};
ghost use Rattle.dns_udp.specs.Exchanges.{Exchanged, faults_of, parts_of, sends_of, under_id};

use crate::client_stream::UdpClientStream;
use dns_handle::{DnsHandle, DnsRequest, DnsResponse, NetError, faults_after};
use dns_link::Dialer;
use dns_multiplexer::Draws;
use std::alloc::Global;

/// A handle that sends each request by datagrams, under an id that is drawn. An error that it answers, other than that there are
/// no records and running out of memory, is a fault of this handle. A truncated response is given as it is.
#[derive(Drop)]
pub struct UdpExchange<D: Drop, R: Drop> {
    stream: UdpClientStream,
    dial: D,
    draws: R,
    sends: u64,
    faults: u64,
}

impl<D: Dialer + Drop, R: Draws + Drop> UdpExchange<D, R> {
    /// A handle over a stream that isn't shut down.
    pub(crate) fn over(stream: UdpClientStream, dial: D, draws: R) -> UdpExchange<D, R>
        ensures stream { (parts_of result).stream ≡ stream }
        ensures dial { (parts_of result).dial ≡ dial }
        ensures draws { (parts_of result).draws ≡ draws }
        ensures sends { sends_of result ≡ 0 }
        ensures faults { faults_of result ≡ 0 }
    {
        UdpExchange {
            stream,
            dial,
            draws,
            sends: 0,
            faults: 0,
        }
    }

    /// The dialer, with what it and its sockets met.
    pub fn into_dialer(self) -> D
        ensures { result ≡ (parts_of self).dial }
    {
        self.dial
    }
}

/// The same request under another id.
fn under_id(mut request: DnsRequest, id: u16) -> DnsRequest
    ensures { result ≡ under_id id request }
{
    request.message.id = id;
    request
}

/// Sends a request under an id that is drawn.
fn exchange<D: Dialer, R: Draws>(
    alloc: Global,
    stream: &UdpClientStream,
    dial: &mut D,
    draws: &mut R,
    request: DnsRequest,
) -> Result<DnsResponse, NetError>
    ensures { Exchanged D.counts D.given_datagrams D.calls R.draws_id R.draws_port
        (record { stream = stream.now; dial = dial.old; draws = draws.old })
        (record { stream = stream.now; dial = dial.new; draws = draws.new }) request (reply_of result) }
{
    let id = draws.id();
    let request = under_id(request, id);
    stream.ask(alloc, dial, draws, &request)
}

/// It tells nothing of its replies.
impl<D: Dialer + Drop, R: Draws + Drop> DnsHandle for UdpExchange<D, R> {
    ghost use Rattle.std.specs.Prelude.{None};
    ghost use Rattle.dns_udp.specs.Exchanges.{Exchanged, ExchangesQuestion, faults_of, parts_of, sends_of};

    ghost sends = { sends_of };

    ghost faults = { faults_of };

    ghost sent = { λ old question new reply. ExchangesQuestion D.counts D.given_datagrams D.calls R.draws_id R.draws_port (parts_of old)
        (parts_of new) question reply };

    ghost told = { λ _. None };

    ghost requested = { λ old request now new reply. Exchanged D.counts D.given_datagrams D.calls R.draws_id R.draws_port (parts_of old)
        (parts_of new) request reply };

    fn send(
        &mut self,
        alloc: Global,
        request: DnsRequest,
        _now: u64,
    ) -> Result<DnsResponse, NetError> {
        let reply = exchange(
            alloc,
            &self.stream,
            &mut self.dial,
            &mut self.draws,
            request,
        );
        self.sends = self.sends.saturating_add(1);
        self.faults = faults_after(self.faults, &reply);
        reply
    }

    fn is_using_edns(&self) -> bool {
        true
    }
}

//! A handle that makes a connection for each request.
ghost use Rattle.std.specs.Prelude.{◌≡◌};
ghost use Rattle.dns_handle.specs.Replies.{reply_of};
ghost use Rattle.dns_query_handle.specs.Connections.{AsksOver, connections};

use crate::drawn_id::DrawnId;
use dns_handle::{DnsHandle, DnsRequest, DnsResponse, NetError, faults_after};
use dns_link::{Dialer, Link};
use dns_multiplexer::Draws;
use dns_tcp::TcpExchange;
use std::alloc::Global;
use std::net::SocketAddr;

/// A handle that sends each request over a connection of its own, under an id that is drawn (RFC 1035, 4.2.2; RFC 7766). An error that it
/// answers, other than that there are no records and running out of memory, is a fault of this handle.
#[derive(Drop)]
pub struct ConnectingHandle<D: Drop, R: Drop> {
    dial: D,
    draws: R,
    server: SocketAddr,
    timeout_ms: u64,
    sends: u64,
    faults: u64,
}

impl<D: Dialer + Drop, R: Draws + Drop> ConnectingHandle<D, R> {
    ghost use Rattle.dns_query_handle.specs.ConnectingHandles.{faults_of, parts_of, sends_of};

    /// A handle to a server. Connecting, and each read and write, waits for so many milliseconds at most.
    pub fn new(dial: D, draws: R, server: SocketAddr, timeout_ms: u64) -> ConnectingHandle<D, R>
        ensures parts { parts_of result ≡ record { dial = dial; draws = draws; server = server; timeout = timeout_ms } }
        ensures sends { sends_of result ≡ 0 }
        ensures faults { faults_of result ≡ 0 }
    {
        ConnectingHandle {
            dial,
            draws,
            server,
            timeout_ms,
            sends: 0,
            faults: 0,
        }
    }

    /// The dialer, with what it and its links met.
    pub fn into_dialer(self) -> D
        ensures { result ≡ (parts_of self).dial }
    {
        self.dial
    }
}

// Sends a request under an id over a connection that is made for it.
fn ask_over_connection<D: Dialer + Drop>(
    alloc: Global,
    dial: &mut D,
    server: SocketAddr,
    timeout_ms: u64,
    id: u16,
    request: DnsRequest,
    now: u64,
) -> Result<DnsResponse, NetError>
    ensures { AsksOver
        (connections D.counts D.given_bytes D.given_datagrams D.calls D.Link.counts D.Link.given D.Link.calls
        ⟦<TcpExchange<D::Link, DrawnId> as DnsHandle>⟧)
        server timeout_ms id dial.old dial.new request now (reply_of result) }
{
    let made = TcpExchange::connect(alloc, dial, server, None, timeout_ms, None, DrawnId { id });
    match made {
        Ok(mut exchange) => {
            let reply = exchange.send(alloc, request, now);
            dial.retire(exchange.into_link());
            reply
        }
        Err(error) => Err(error),
    }
}

/// It tells nothing of its replies.
impl<D: Dialer + Drop, R: Draws + Drop> DnsHandle for ConnectingHandle<D, R> {
    ghost use Rattle.std.specs.Prelude.{None};
    ghost use Rattle.dns_query_handle.specs.Connections.{connections};
    ghost use Rattle.dns_query_handle.specs.ConnectingHandles.{Connects, ConnectsQuestion, faults_of, sends_of};

    ghost sends = { sends_of };

    ghost faults = { faults_of };

    ghost sent = { ConnectsQuestion
        (connections D.counts D.given_bytes D.given_datagrams D.calls D.Link.counts D.Link.given D.Link.calls
        ⟦<TcpExchange<D::Link, DrawnId> as DnsHandle>⟧) R.draws_id };

    ghost told = { λ _. None };

    ghost requested = { Connects
        (connections D.counts D.given_bytes D.given_datagrams D.calls D.Link.counts D.Link.given D.Link.calls
        ⟦<TcpExchange<D::Link, DrawnId> as DnsHandle>⟧) R.draws_id };

    fn send(
        &mut self,
        alloc: Global,
        request: DnsRequest,
        now: u64,
    ) -> Result<DnsResponse, NetError> {
        let id = self.draws.id();
        let reply = ask_over_connection(
            alloc,
            &mut self.dial,
            self.server,
            self.timeout_ms,
            id,
            request,
            now,
        );
        self.sends = self.sends.saturating_add(1);
        self.faults = faults_after(self.faults, &reply);
        reply
    }

    fn is_using_edns(&self) -> bool {
        true
    }
}

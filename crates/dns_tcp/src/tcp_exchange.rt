//! A handle that sends its requests over one connection.
ghost use Rattle.std.specs.Prelude.{◌≡◌, [], IfOk, IsOk};
ghost use Rattle.dns_link.specs.Moved.{IsNew};
ghost use Rattle.dns_tcp.specs.Dialing.{IsDialed, dial_to};
ghost use Rattle.dns_tcp.specs.Streams.{new_stream};
ghost use Rattle.dns_tcp.specs.Exchanges.{milliseconds};
ghost use Rattle.dns_tcp.specs.Making.{maximum_of, new_parts};

use crate::TcpStream;
use crate::carrying::exchange;
use dns_handle::{DnsHandle, DnsRequest, DnsResponse, NetError, faults_after};
use dns_link::{Dialer, Link};
use dns_multiplexer::{BufDnsStreamHandle, DnsMultiplexer, Draws};
use std::alloc::Global;
use std::net::SocketAddr;

/// A handle that sends its requests over one connection, one at a time (RFC 1035, 4.2.2; RFC 7766, 6).
///
/// A send writes all that waits, the request last, and then reads messages until one has the request's id; others are passed over.
/// It answers `Timeout` after 1,024 of them, and `Io(UnexpectedEof)` where the link ended between two; then each later send is
/// `NoConnections`. How long a read or a write waits is the link's. Each error that it answers is a fault, but for running out of memory.
#[derive(Drop)]
pub struct TcpExchange<L: Link + Drop, R: Draws + Drop> {
    stream: TcpStream<L>,
    multiplexer: DnsMultiplexer<R>,
    sends: u64,
    faults: u64,
}

/// So many requests are live at most: 32, unless another number is given.
fn most_requests(max: Option<usize>) -> usize
    ensures { result ≡ maximum_of max }
{
    match max {
        None => 32,
        Some(max) => max,
    }
}

impl<L: Link + Drop, R: Draws + Drop> TcpExchange<L, R> {
    ghost use Rattle.dns_tcp.specs.StreamViews.{link_of, state_of};
    ghost use Rattle.dns_tcp.specs.ExchangeParts.{faults_of, parts_of, sends_of};

    /// A handle over a stream. Ids are drawn by `draws`; `max` requests are live at most, 32 where none is given. A request
    /// would end after `timeout_ms` milliseconds, but this handle tells its multiplexer no time. There is always room.
    pub fn over(
        alloc: Global,
        stream: TcpStream<L>,
        draws: R,
        timeout_ms: u64,
        max: Option<usize>,
    ) -> Result<TcpExchange<L, R>, NetError>
        ensures ok { IsOk result }
        ensures made { IfOk result (λ made. parts_of made ≡ new_parts (link_of stream) (state_of stream) draws timeout_ms max) }
        ensures sends { IfOk result (λ made. sends_of made ≡ 0) }
        ensures faults { IfOk result (λ made. faults_of made ≡ 0) }
    {
        let server = stream.peer_addr();
        let (sender, queue) = BufDnsStreamHandle::new(alloc, server);
        let multiplexer = DnsMultiplexer::new(alloc, server, sender, queue, draws)
            .with_timeout(timeout_ms)
            .with_max_active_requests(most_requests(max));
        Ok(TcpExchange {
            stream,
            multiplexer,
            sends: 0,
            faults: 0,
        })
    }

    /// The same over a new link to a server, from a local address if one is given. Connecting, and each read and write later, waits
    /// for so many milliseconds at most. Its errors are the dialer's.
    ///
    /// ```
    /// fn ask_over_connection<R: Net + Clock + Copy + Drop>(
    ///     alloc: Global,
    ///     net: R,
    ///     server: SocketAddr,
    ///     seed: u64,
    ///     request: DnsRequest,
    ///     now: u64,
    /// ) -> Result<DnsResponse, NetError> {
    ///     let mut dial = SocketDialer::new(net).with_deadline(5000);
    ///     let draws = RandDraws::from_seed(seed);
    ///     let mut exchange =
    ///         TcpExchange::connect(alloc, &mut dial, server, None, 5000, None, draws)?;
    ///     exchange.send(alloc, request, now)
    /// }
    /// ```
    pub fn connect<D: Dialer<Link = L>>(
        alloc: Global,
        dial: &mut D,
        server: SocketAddr,
        bind: Option<SocketAddr>,
        timeout_ms: u64,
        max: Option<usize>,
        draws: R,
    ) -> Result<TcpExchange<L, R>, NetError>
        ensures dialed { IsDialed D.counts D.calls (dial_to server bind timeout_ms) dial.old dial.new result }
        ensures bytes { D.given_bytes dial.new ≡ D.given_bytes dial.old }
        ensures datagrams { D.given_datagrams dial.new ≡ D.given_datagrams dial.old }
        ensures link { IfOk result (λ made. IsNew (L.counts (parts_of made).link) (L.given (parts_of made).link)) }
        ensures made { IfOk result (λ made.
            parts_of made ≡ new_parts (parts_of made).link (new_stream server []) draws timeout_ms max) }
        ensures sends { IfOk result (λ made. sends_of made ≡ 0) }
        ensures faults { IfOk result (λ made. faults_of made ≡ 0) }
    {
        let link = dial.connect(server, bind, timeout_ms)?;
        let (stream, _) = TcpStream::from_stream(alloc, link, server);
        TcpExchange::over(alloc, stream, draws, timeout_ms, max)
    }

    /// Gives the link back.
    pub fn into_link(self) -> L
        ensures { result ≡ (parts_of self).link }
    {
        self.stream.into_link()
    }
}

/// A moment in milliseconds, of one in seconds.
fn milliseconds(seconds: u64) -> u64
    ensures { result ≡ milliseconds seconds }
{
    seconds.saturating_mul(1000)
}

/// It tells nothing of its replies.
impl<L: Link + Drop, R: Draws + Drop> DnsHandle for TcpExchange<L, R> {
    ghost use Rattle.std.specs.Prelude.{None};
    ghost use Rattle.dns_tcp.specs.Links.{link_view};
    ghost use Rattle.dns_tcp.specs.Exchanges.{Exchanged, ExchangesQuestion, milliseconds};
    ghost use Rattle.dns_tcp.specs.ExchangeParts.{faults_of, parts_of, sends_of};

    ghost sends = { sends_of };

    ghost faults = { faults_of };

    ghost sent = { λ old question new reply. ExchangesQuestion (link_view L.counts L.given L.left L.taken L.calls) R.draws_id
        (parts_of old) (parts_of new) question reply };

    ghost told = { λ _. None };

    ghost requested = { λ old request now new reply. Exchanged (link_view L.counts L.given L.left L.taken L.calls) R.draws_id
        (parts_of old) (parts_of new) request (milliseconds now) reply };

    fn send(
        &mut self,
        alloc: Global,
        request: DnsRequest,
        now: u64,
    ) -> Result<DnsResponse, NetError> {
        let reply = exchange(
            alloc,
            &mut self.stream,
            &mut self.multiplexer,
            &request,
            milliseconds(now),
        );
        self.sends = self.sends.saturating_add(1);
        self.faults = faults_after(self.faults, &reply);
        reply
    }

    fn is_using_edns(&self) -> bool {
        true
    }
}

//! What is chosen for a client.
ghost use Rattle.std.specs.Prelude.{◌≡◌};
ghost use Rattle.dns_udp.specs.ClientStreams.{IsBuilt, plain_builder};
ghost use Rattle.dns_udp.specs.Exchanges.{IsExchangeOf};

use crate::client_stream::UdpClientStream;
use crate::exchange::UdpExchange;
use crate::{Binding, any_address};
use dns_link::Dialer;
use dns_multiplexer::Draws;
use std::alloc::Global;
use std::collections::BTreeSet;
use std::marker::Model;
use std::net::SocketAddr;

/// Makes a [`UdpClientStream`].
#[derive(Drop)]
pub struct UdpClientStreamBuilder {
    server: SocketAddr,
    timeout: Option<u64>,
    bind: Option<SocketAddr>,
    avoid: BTreeSet<u16>,
    os_ports: bool,
    max_retries: u8,
    retry_interval_floor: u64,
}

impl Model for UdpClientStreamBuilder {
    ghost use Rattle.dns_udp.specs.ClientStreams.{BuilderValue};

    ghost Value = { BuilderValue };

    ghost view = { λ b. record {
      server = b.server;
      timeout = b.timeout;
      bind = b.bind;
      avoid = b.avoid;
      os_ports = b.os_ports;
      max_retries = b.max_retries;
      floor = b.retry_interval_floor;
    } };
}

impl UdpClientStreamBuilder {
    /// The defaults for a server.
    pub(crate) fn new(alloc: Global, server: SocketAddr) -> UdpClientStreamBuilder
        ensures { result ≡ plain_builder server }
    {
        UdpClientStreamBuilder {
            server,
            timeout: None,
            bind: None,
            avoid: BTreeSet::new(alloc),
            os_ports: false,
            max_retries: 3,
            retry_interval_floor: 333,
        }
    }

    /// For how long an answer is awaited, in milliseconds; None is 5,000.
    pub fn with_timeout(mut self, timeout_ms: Option<u64>) -> UdpClientStreamBuilder
        ensures { result ≡ record self { timeout = timeout_ms } }
    {
        self.timeout = timeout_ms;
        self
    }

    /// The local address of the sockets; port 0 stands for one that is drawn. None is every address of the server's family.
    pub fn with_bind_addr(mut self, bind: Option<SocketAddr>) -> UdpClientStreamBuilder
        ensures { result ≡ record self { bind = bind } }
    {
        self.bind = bind;
        self
    }

    /// Ports that aren't drawn.
    pub fn avoid_local_ports(mut self, ports: BTreeSet<u16>) -> UdpClientStreamBuilder
        ensures { result ≡ record self { avoid = ports } }
    {
        self.avoid = ports;
        self
    }

    /// Whether the system chooses the local port in place of a draw.
    pub fn with_os_port_selection(mut self, os_ports: bool) -> UdpClientStreamBuilder
        ensures { result ≡ record self { os_ports = os_ports } }
    {
        self.os_ports = os_ports;
        self
    }

    /// On so many sockets at most a request is sent, at least on one.
    pub fn with_max_retries(mut self, retries: u8) -> UdpClientStreamBuilder
        ensures { result ≡ record self { max_retries = retries } }
    {
        self.max_retries = retries;
        self
    }

    /// The least time between two sends, in milliseconds.
    pub fn with_retry_interval_floor(mut self, floor_ms: u64) -> UdpClientStreamBuilder
        ensures { result ≡ record self { floor = floor_ms } }
    {
        self.retry_interval_floor = floor_ms;
        self
    }

    /// The stream.
    pub fn build(self) -> UdpClientStream
        ensures { IsBuilt self result }
    {
        UdpClientStream {
            server: self.server,
            timeout: self.timeout.unwrap_or(5000),
            is_shutdown: false,
            binding: Binding {
                local: self.bind.unwrap_or(any_address(&self.server)),
                avoid: self.avoid,
                os_ports: self.os_ports,
            },
            max_retries: self.max_retries,
            retry_interval_floor: self.retry_interval_floor,
        }
    }

    /// A handle over the stream, by a dialer and draws.
    ///
    /// ```
    /// fn ask_by_datagrams<R: Net + Clock + Copy + Drop>(
    ///     alloc: Global,
    ///     net: R,
    ///     server: SocketAddr,
    ///     seed: u64,
    ///     request: DnsRequest,
    ///     now: u64,
    /// ) -> Result<DnsResponse, NetError> {
    ///     let draws = RandDraws::from_seed(seed);
    ///     let mut exchange =
    ///         UdpClientStream::builder(alloc, server).exchange(SocketDialer::new(net), draws);
    ///     exchange.send(alloc, request, now)
    /// }
    /// ```
    pub fn exchange<D: Dialer + Drop, R: Draws + Drop>(self, dial: D, draws: R) -> UdpExchange<D, R>
        ensures { IsExchangeOf self dial draws result }
    {
        UdpExchange::over(self.build(), dial, draws)
    }
}

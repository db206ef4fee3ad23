//! `Client`, a handle over a connection, or over any other handle, that is told whether to use EDNS.
ghost use Rattle.std.specs.Prelude.{◌≡◌, IfOk, IsOk, true, false};

use dns_handle::{DnsHandle, DnsRequest, DnsResponse, NetError};
use dns_link::Link;
use dns_multiplexer::Draws;
use dns_tcp::{TcpExchange, TcpStream};
use std::alloc::Global;

/// A client: a handle that sends its requests, and whether they are to have an OPT record (RFC 6891), as they are at first.
///
/// Its sends are those of the handle inside. `ClientHandle` has the calls that build what is sent.
#[derive(Drop)]
pub struct Client<S: Drop> {
    sender: S,
    use_edns: bool,
}

/// A request would end after so many milliseconds, if no other number is given.
const TIMEOUT_MS: u64 = 5000;

impl<L: Link + Drop, R: Draws + Drop> Client<TcpExchange<L, R>> {
    ghost use Rattle.dns_tcp.specs.StreamViews.{link_of, state_of};
    ghost use Rattle.dns_client.specs.Clients.{IsNewClient};

    /// A client over a stream. Ids are drawn by `draws`, and 32 requests are live at most. There is always room.
    ///
    /// ```
    /// fn ask_for_servers<L: Link + Drop>(
    ///     alloc: Global,
    ///     stream: TcpStream<L>,
    ///     seed: u64,
    ///     zone: Name,
    ///     now: u64,
    /// ) -> Result<DnsResponse, NetError> {
    ///     let mut client = Client::new(alloc, stream, RandDraws::from_seed(seed))?;
    ///     client.query(alloc, zone, DNSClass::IN, RecordType::NS, now)
    /// }
    /// ```
    pub fn new(alloc: Global, stream: TcpStream<L>, draws: R) -> Result<Self, NetError>
        ensures ok { IsOk result }
        ensures made { IfOk result (λ c. IsNewClient (link_of stream) (state_of stream) draws 5000 c) }
    {
        Client::with_timeout(alloc, stream, draws, TIMEOUT_MS)
    }

    /// The same client, whose requests would end after so many milliseconds. How long a read or a write waits is the link's.
    pub fn with_timeout(
        alloc: Global,
        stream: TcpStream<L>,
        draws: R,
        ms: u64,
    ) -> Result<Self, NetError>
        ensures ok { IsOk result }
        ensures made { IfOk result (λ c. IsNewClient (link_of stream) (state_of stream) draws ms c) }
    {
        let exchange = TcpExchange::over(alloc, stream, draws, ms, None)?;
        Ok(Client::from_sender(exchange))
    }
}

impl<S: DnsHandle + Drop> Client<S> {
    ghost use Rattle.dns_client.specs.Clients.{edns_of, sender_of};

    /// A client over a handle.
    pub fn from_sender(sender: S) -> Client<S>
        ensures sender { sender_of result ≡ sender }
        ensures edns { edns_of result ≡ true }
    {
        Client {
            sender,
            use_edns: true,
        }
    }

    /// From now on its requests are to have an OPT record.
    pub fn enable_edns(&mut self)
        ensures edns { edns_of self.new ≡ true }
        ensures sender { sender_of self.new ≡ sender_of self.old }
    {
        self.use_edns = true;
    }

    /// From now on its requests are to have none.
    pub fn disable_edns(&mut self)
        ensures edns { edns_of self.new ≡ false }
        ensures sender { sender_of self.new ≡ sender_of self.old }
    {
        self.use_edns = false;
    }

    /// The handle that sends, handed back.
    pub fn into_sender(self) -> S
        ensures { result ≡ sender_of self }
    {
        self.sender
    }
}

/// It tells what the handle inside tells, and validates where that does.
impl<S: DnsHandle + Drop> DnsHandle for Client<S> {
    ghost use Rattle.dns_client.specs.Clients.{edns_of, sender_of, SendsInside};

    ghost sends = { λ c. S.sends (sender_of c) };

    ghost faults = { λ c. S.faults (sender_of c) };

    ghost sent = { λ old asked new reply. SendsInside old new (λ from to. S.sent from asked to reply) };

    ghost told = { λ c. S.told (sender_of c) };

    ghost requested = { λ old request now new reply. SendsInside old new (λ from to. S.requested from request now to reply) };

    ghost validates = { λ c. S.validates (sender_of c) };

    ghost uses_edns = { edns_of };

    fn send(
        &mut self,
        alloc: Global,
        request: DnsRequest,
        now: u64,
    ) -> Result<DnsResponse, NetError> {
        self.sender.send(alloc, request, now)
    }

    fn is_verifying_dnssec(&self) -> bool {
        self.sender.is_verifying_dnssec()
    }

    fn is_using_edns(&self) -> bool {
        self.use_edns
    }
}

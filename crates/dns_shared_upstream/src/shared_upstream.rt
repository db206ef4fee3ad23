//! A handle of one of several holders of a connection.
ghost use Rattle.std.specs.Prelude.{◌≡◌, ◌+◌, ◌<◌, ◌≤◌, IfOk, IfErr};
ghost use Rattle.dns_tcp.specs.Exchanges.{milliseconds};
ghost use Rattle.dns_tcp.specs.StreamViews.{state_of};
ghost use Rattle.dns_shared_upstream.specs.Upstreams.{beginner, faults_of, holder_of, parts_of, sends_of};

use crate::held::Held;
use crate::holder::Holder;
use crate::sending::ask;
use dns_handle::{DnsHandle, DnsRequest, DnsResponse, NetError, faults_after};
use dns_link::Link;
use dns_multiplexer::{BufDnsStreamHandle, Draws};
use dns_record::NoMemory;
use dns_shared_exchange::{CallerToken, DnsExchange};
use dns_tcp::TcpStream;
use std::alloc::Global;
use std::sync::ledger::{Blank, Ledger};
use std::sync::{Arc, Mutex, Wait};

/// A handle that sends its requests over a connection which other holders send theirs over too, in this thread or in others (RFC 7766,
/// 6.2.1). They share one exchange, and one stream under a lock. Each holder waits in a `send` of its own; whoever has the lock writes what
/// waits, of all holders, and reads.
///
/// A send answers `Timeout` after 1,024 messages that it read and that weren't its answer, and where its request was ended by another
/// holder's tick or cancel. A fault of the connection ends the requests of all: one holder meets it, and closes the exchange with it; it
/// is the answer of each request that is live, and each later send is `NoConnections`. A read that takes too long is such a fault:
/// `Timeout` to whoever read, `Timeout` to the others, for good. After about 110,000 sends the exchange's history is full; then sends
/// answer `Message(HistoryFull)`, and a new connection is needed.
#[derive(Drop)]
pub struct SharedUpstream<L: Link + Drop, R: Draws + Drop, G: Ledger, T: Wait + Copy> {
    holder: Holder<R, G>,
    held: Arc<Mutex<Held<L, G>>, Global>,
    rt: T,
    sends: u64,
    faults: u64,
}

impl<L: Link + Drop, R: Draws + Drop, G: Ledger, T: Wait + Copy> SharedUpstream<L, R, G, T> {
    /// The first holder of a stream, whose requests are those of an exchange. The token is one of that exchange. The handle puts messages
    /// into the stream's queue, and sends them to its peer. The blank is of the ledger `G`, and has a part for each holder that there is
    /// to be. The only error is that memory ran out.
    pub fn new(
        rt: T,
        alloc: Global,
        exchange: DnsExchange<R>,
        token: CallerToken,
        stream: TcpStream<L>,
        handle: BufDnsStreamHandle,
        blank: Blank,
    ) -> Result<Self, NoMemory>
        requires token { token.line ≡ exchange }
        requires handle { handle.addr ≡ (state_of stream).peer }
        requires name { blank.name ≡ G.name }
        requires parts { blank.parts ≡ G.parts }
        requires some { 0 < G.parts }
        ensures holder { IfOk result (λ made. holder_of made ≡ record { token = token; failures = 0 }) }
        ensures parts { IfOk result (λ made. parts_of made ≡ G.parts) }
        ensures sends { IfOk result (λ made. sends_of made ≡ 0) }
        ensures faults { IfOk result (λ made. faults_of made ≡ 0) }
    {
        let (book, share) = blank.open::<G>();
        let held = Held::new(stream, handle, book);
        let held = Arc::new(alloc, Mutex::new(held))?;
        Ok(SharedUpstream {
            holder: Holder::new(exchange, token, share),
            held,
            rt,
            sends: 0,
            faults: 0,
        })
    }

    /// The holder and another one, which has seen as much of the exchange and has sent nothing. It gets one of the parts, of which
    /// there are two at least. For want of memory the holder comes back as it was.
    pub fn split(self) -> Result<(Self, Self), Self>
        requires { 2 ≤ parts_of self }
        ensures same { IfOk result (λ both. holder_of both.0 ≡ holder_of self) }
        ensures left { IfOk result (λ both. parts_of both.0 + 1 ≡ parts_of self) }
        ensures sends { IfOk result (λ both. sends_of both.0 ≡ sends_of self) }
        ensures faults { IfOk result (λ both. faults_of both.0 ≡ faults_of self) }
        ensures new { IfOk result (λ both. holder_of both.1 ≡ beginner (holder_of self)) }
        ensures one { IfOk result (λ both. parts_of both.1 ≡ 1) }
        ensures none { IfOk result (λ both. sends_of both.1 ≡ 0) }
        ensures unmet { IfOk result (λ both. faults_of both.1 ≡ 0) }
        ensures err { IfErr result (λ back. back ≡ self) }
    {
        let Ok(held) = Arc::try_clone(&self.held) else {
            return Err(self);
        };
        let SharedUpstream {
            holder,
            held: own,
            rt,
            sends,
            faults,
        } = self;
        match holder.split() {
            Ok((holder, beside)) => Ok((
                SharedUpstream {
                    holder,
                    held: own,
                    rt,
                    sends,
                    faults,
                },
                SharedUpstream {
                    holder: beside,
                    held,
                    rt,
                    sends: 0,
                    faults: 0,
                },
            )),
            Err(holder) => Err(SharedUpstream {
                holder,
                held: own,
                rt,
                sends,
                faults,
            }),
        }
    }
}

// A moment in milliseconds, of one in seconds.
fn milliseconds(seconds: u64) -> u64
    ensures { result ≡ milliseconds seconds }
{
    seconds.saturating_mul(1000)
}

/// It tells nothing of its replies.
impl<L: Link + Drop, R: Draws + Drop, G: Ledger, T: Wait + Copy> DnsHandle
    for SharedUpstream<L, R, G, T> {
    ghost use Rattle.std.specs.Prelude.{None};
    ghost use Rattle.dns_tcp.specs.Exchanges.{milliseconds};
    ghost use Rattle.dns_shared_upstream.specs.Upstreams.{faults_of, holder_of, sends_of};
    ghost use Rattle.dns_shared_upstream.specs.Sends.{Asked, AskedQuestion};

    ghost sends = { sends_of };

    ghost faults = { faults_of };

    ghost sent = { λ old question new reply. AskedQuestion question (holder_of old) (holder_of new) reply };

    ghost told = { λ _. None };

    ghost requested = { λ old request now new reply. Asked request (milliseconds now) (holder_of old) (holder_of new) reply };

    fn send(
        &mut self,
        alloc: Global,
        request: DnsRequest,
        now: u64,
    ) -> Result<DnsResponse, NetError> {
        let now_ms = milliseconds(now);
        let reply = ask(
            &self.rt,
            alloc,
            &self.held,
            &mut self.holder,
            &request,
            now_ms,
        );
        self.sends = self.sends.saturating_add(1);
        self.faults = faults_after(self.faults, &reply);
        reply
    }

    fn is_using_edns(&self) -> bool {
        true
    }
}

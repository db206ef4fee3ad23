//! A lookup over one server.
ghost use Rattle.std.specs.Prelude.{◌≡◌, ◌≤◌, length};
ghost use Rattle.dns_model.specs.Names.{wire};
ghost use Rattle.dns_handle.specs.Replies.{reply_of};
ghost use Rattle.dns_udp.specs.Met.{dialer_view};
ghost use Rattle.dns_asking.specs.Causes.{AnswerCause};
ghost use Rattle.dns_asking.specs.Servers.{AsksByDatagrams, AsksOverConnection, AsksServer, network};

use crate::address::ServerAddress;
use crate::inquiry::Inquiry;
use crate::looking::{LookupEnd, look_up};
use dns_evidence::Verifier;
use dns_handle::{DnsHandle, DnsResponse, NetError, Protocol};
use dns_link::{Dialer, Link};
use dns_multiplexer::Draws;
use dns_record::{Name, Query};
use dns_tcp::TcpExchange;
use dns_udp::{UdpClientStream, UdpExchange};
use std::alloc::Global;
use std::net::SocketAddr;

/// Connecting, and each read and write of a connection, waits for so many milliseconds at most.
const CONNECTION_TIMEOUT: u64 = 5000;

/// How a lookup over a server ended.
#[derive(Drop)]
pub struct AskEnd<D: Drop> {
    /// The answer, or an error.
    pub reply: Result<DnsResponse, NetError>,
    /// The dialer that was given, which has each link and socket back.
    pub dial: D,
}

/// How many bytes the name of a query has in its wire form.
fn wire_length(query: &Query) -> usize
    ensures value { result ≡ length (wire query.now.owner) }
    ensures most { result ≤ 255 }
{
    query.name.wire().len()
}

/// Looks up by datagrams what is asked for. The name of its query leaves room for a request.
fn ask_by_datagrams<D: Dialer + Drop, R: Draws + Drop, V: Verifier + Drop>(
    alloc: Global,
    dial: D,
    draws: R,
    server: SocketAddr,
    inquiry: Inquiry<V>,
) -> AskEnd<D>
    requires { length (wire inquiry.query.owner) ≤ 255 }
    ensures asked { AsksByDatagrams (network D.counts D.given_bytes D.given_datagrams D.calls D.Link.counts D.Link.given D.Link.calls
        ⟦<UdpExchange<D, R> as DnsHandle>⟧ ⟦<TcpExchange<D::Link, R> as DnsHandle>⟧)
        V.Verifier server inquiry draws dial result.dial (reply_of result.reply) }
    ensures caused { AnswerCause Protocol.Udp (dialer_view D.counts D.given_datagrams dial)
        (dialer_view D.counts D.given_datagrams result.dial) (reply_of result.reply) }
{
    let exchange = UdpClientStream::builder(alloc, server).exchange(dial, draws);
    let LookupEnd { reply, handle } = look_up(alloc, exchange, inquiry);
    AskEnd {
        reply,
        dial: handle.into_dialer(),
    }
}

/// Looks up over one connection what is asked for.
#[tactic(auto, using(crate::proofs::ConnectionLemmas::unreached_cause))]
fn ask_over_connection<D: Dialer + Drop, R: Draws + Drop, V: Verifier + Drop>(
    alloc: Global,
    mut dial: D,
    draws: R,
    server: SocketAddr,
    inquiry: Inquiry<V>,
) -> AskEnd<D>
    requires { length (wire inquiry.query.owner) ≤ 255 }
    ensures asked { AsksOverConnection (network D.counts D.given_bytes D.given_datagrams D.calls D.Link.counts D.Link.given D.Link.calls
        ⟦<UdpExchange<D, R> as DnsHandle>⟧ ⟦<TcpExchange<D::Link, R> as DnsHandle>⟧)
        V.Verifier server inquiry draws dial result.dial (reply_of result.reply) }
    ensures caused { AnswerCause Protocol.Tcp (dialer_view D.counts D.given_datagrams dial)
        (dialer_view D.counts D.given_datagrams result.dial) (reply_of result.reply) }
{
    let made = TcpExchange::connect(
        alloc,
        &mut dial,
        server,
        None,
        CONNECTION_TIMEOUT,
        None,
        draws,
    );
    match made {
        Ok(exchange) => {
            let LookupEnd { reply, handle } = look_up(alloc, exchange, inquiry);
            dial.retire(handle.into_link());
            AskEnd { reply, dial }
        }
        Err(error) => AskEnd {
            reply: Err(error),
            dial,
        },
    }
}

/// Looks up over a server what is asked for: by datagrams, from ports that are drawn, or over one connection. Ids are drawn too. The
/// dialer is given back once it has each link and socket back.
///
/// Errors: those of a lookup. `Timeout` and `Io` come where the dialer, a link or a socket failed, or an answer was too late or cut
/// short; `Proto(Decode(..))` where a datagram that came from the server under the request's id is no message; `NotAllBytesSent` where
/// a socket took less than the request. No other error of an upstream comes.
pub fn ask_server<D: Dialer + Drop, R: Draws + Drop, V: Verifier + Drop>(
    alloc: Global,
    dial: D,
    draws: R,
    protocol: Protocol,
    server: ServerAddress,
    inquiry: Inquiry<V>,
) -> AskEnd<D>
    // The answer is what a validator answers over a handle to that server.
    ensures asked { AsksServer (network D.counts D.given_bytes D.given_datagrams D.calls D.Link.counts D.Link.given D.Link.calls
        ⟦<UdpExchange<D, R> as DnsHandle>⟧ ⟦<TcpExchange<D::Link, R> as DnsHandle>⟧)
        V.Verifier server inquiry draws dial result.dial (reply_of result.reply) protocol }

    // And each answer has its cause in what the dialer met.
    ensures caused { AnswerCause protocol (dialer_view D.counts D.given_datagrams dial)
        (dialer_view D.counts D.given_datagrams result.dial) (reply_of result.reply) }
{
    let length = wire_length(&inquiry.query);
    prove!(length <= Name::MAX_LEN);
    let server = server.socket_addr();
    match protocol {
        Protocol::Udp => ask_by_datagrams(alloc, dial, draws, server, inquiry),
        Protocol::Tcp => ask_over_connection(alloc, dial, draws, server, inquiry),
    }
}

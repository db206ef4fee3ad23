//! A session that clients are served for, and bytes that may be one.
ghost use Rattle.std.specs.Prelude.{◌≡◌, ◌≢◌, ◌≤◌, ◌<◌, ◌^◌, length, None};
ghost use Rattle.dns_io.specs.Reading.{input_limit};
ghost use Rattle.dns_io.specs.Leaving.{Wrote, WrotePrefix};
ghost use Rattle.dns_session.specs.Grammar.{session_of};
ghost use Rattle.dns_forward_run.specs.Forms.{AreFew};
ghost use Rattle.dns_forward_run.specs.Judging.{TellsAnswered, judging_by};
ghost use Rattle.dns_forward_run.specs.Forwards.{ForwardEnds, ForwardTells, IsUnserved, met_of, net_view};
ghost use Rattle.dns_forward_run.specs.Steps.{ComesTo, IsLow, KeepsDialer, KeepsWriting, Refuses, ServesAs, WhenTold};

use crate::connections::over_connections;
use crate::datagrams::over_datagrams;
use crate::ending::{Ending, ForwardEnding, write_ending};
use crate::form::{Carried, Service};
use crate::seating::Setting;
use crate::trust::trust_of;
use dns_io::{RunEnd, Sink, status};
use dns_link::{Clock, Dialer};
use dns_listener::Listener;
use dns_multiplexer::RandDraws;
use dns_record::NoMemory;
use dns_session::{Session, SessionStop, bad_line_text, read_session};
use std::alloc::Global;
use std::random::RandomSource;
use std::sync::Wait;
use std::thread::Threads;

/// What is served, and what is needed for that beside a listener.
#[derive(Drop)]
pub(crate) struct Forwarding<D: Drop, K: Drop> {
    pub(crate) service: Service,
    /// What ids and ports are drawn from; None for the clock's moment.
    pub(crate) seed: Option<u64>,
    pub(crate) dial: D,
    pub(crate) clock: K,
}

// Serves the clients of a session.
fn forward_session<N, D, K, T>(
    rt: T,
    alloc: Global,
    given: Forwarding<D, K>,
    session: Session,
    listen: &mut N,
) -> ForwardEnding<D>
where
    N: Listener,
    N::Port: Send,
    D: Dialer + Drop + Send,
    D::Link: Send,
    D::Datagrams: Send,
    K: Clock + Clone + Drop + Send,
    T: Threads + Wait + RandomSource + Copy + Send + Sync,
    requires few { AreFew given.service.carried }
    requires bound { given.service.count ≤ 1000 }
    ensures served { ServesAs (net_view D.counts D.calls N.counts N.told) given.service
        (met_of given.dial result.dial listen.old listen.new) result.ending }
    ensures answered { WhenTold result.ending (TellsAnswered (judging_by session given.service.carried)
        (N.told listen.old) (N.told listen.new)) }
    ensures low { IsLow result.ending }
    ensures kept { KeepsDialer result.dial result.ending }
{
    let Forwarding {
        service,
        seed,
        dial,
        mut clock,
    } = given;
    let seed = match seed {
        Some(seed) => seed,
        None => clock.now(),
    };
    let Ok(trust) = trust_of(alloc, session) else {
        return ForwardEnding {
            ending: Ending::NoMemory,
            dial: Some(dial),
        };
    };
    let setting = Setting {
        rt,
        alloc,
        service,
        trust,
        clock,
    };
    let draws = RandDraws::from_seed(seed);
    match service.carried {
        Carried::Datagrams => over_datagrams(&setting, draws, dial, listen),
        Carried::Connections(n) => over_connections(&setting, draws, dial, n, listen),
    }
}

// The line that names the first bad line.
fn refused(alloc: Global, number: u64) -> Ending
    ensures named { Refuses number result }
    ensures low { IsLow result }
{
    match bad_line_text(alloc, number) {
        Ok(text) => Ending::Told(status::BAD_INPUT, text),
        Err(NoMemory) => Ending::NoMemory,
    }
}

// Serves the clients of bytes that are a session.
fn forward_bytes<N, D, K, T>(
    rt: T,
    alloc: Global,
    given: Forwarding<D, K>,
    bytes: &[u8],
    listen: &mut N,
) -> ForwardEnding<D>
where
    N: Listener,
    N::Port: Send,
    D: Dialer + Drop + Send,
    D::Link: Send,
    D::Datagrams: Send,
    K: Clock + Clone + Drop + Send,
    T: Threads + Wait + RandomSource + Copy + Send + Sync,
    requires few { AreFew given.service.carried }
    requires bound { given.service.count ≤ 1000 }
    requires length { length bytes.now < 2 ^ 32 }
    ensures comes { ComesTo (net_view D.counts D.calls N.counts N.told) given.service
        (met_of given.dial result.dial listen.old listen.new) (session_of bytes.now) result.ending }
    ensures low { IsLow result.ending }
    ensures kept { KeepsDialer result.dial result.ending }
{
    match read_session(alloc, bytes) {
        Ok(session) => forward_session(rt, alloc, given, session, listen),
        Err(SessionStop::BadLine(number)) => ForwardEnding {
            ending: refused(alloc, number),
            dial: Some(given.dial),
        },
        Err(SessionStop::NoMemory) => ForwardEnding {
            ending: Ending::NoMemory,
            dial: Some(given.dial),
        },
    }
}

/// Serves the clients of bytes that are a session, and writes how their seats ended.
pub(crate) fn forward<W, N, D, K, T>(
    rt: T,
    alloc: Global,
    given: Forwarding<D, K>,
    bytes: &[u8],
    output: &mut W,
    listen: &mut N,
) -> RunEnd<D>
where
    W: Sink,
    N: Listener,
    N::Port: Send,
    D: Dialer + Drop + Send,
    D::Link: Send,
    D::Datagrams: Send,
    K: Clock + Clone + Drop + Send,
    T: Threads + Wait + RandomSource + Copy + Send + Sync,
    requires few { AreFew given.service.carried }
    requires bound { given.service.count ≤ 1000 }
    requires length { length bytes.now ≤ input_limit }
    ensures wrote { result.status < 4 → Wrote (W.taken output.old) (W.taken output.new)
        (ForwardEnds (net_view D.counts D.calls N.counts N.told) given.service
        (met_of given.dial result.dial listen.old listen.new) (session_of bytes.now) result.status) }
    ensures form { result.status ≢ 2 }
    ensures prefix { WrotePrefix (W.taken output.old) (W.taken output.new) (ForwardTells (net_view D.counts D.calls N.counts N.told) given.service
        (met_of given.dial result.dial listen.old listen.new) bytes.now) }
    ensures failed { result.status ≡ 4 → IsUnserved (net_view D.counts D.calls N.counts N.told) given.service
        (met_of given.dial result.dial listen.old listen.new) }
    ensures kept { result.dial ≡ None → result.status ≡ 6 }
    ensures keeps { KeepsWriting W.faults result.status output.old output.new }
{
    let ForwardEnding { ending, dial } = forward_bytes(rt, alloc, given, bytes, listen);
    RunEnd {
        status: write_ending(&ending, output),
        dial,
    }
}

//! What tests share: words, ports, and a run over a session.
use crate::replying::Replying;
use crate::watched::{Uses, Watched};
use dns_forward_run::run_forward_seeded;
use dns_handle::IoKind;
use dns_io::{TextSink, TextSource};
use dns_link::Clock;
use dns_ports::ListPort;
use dns_record::Octets;
use std::alloc::{AllocError, Global};
use std::process::Abort;
use std::random::RandomSource;
use std::sync::Wait;
use std::thread::Threads;

/// The root's key is trusted, and the signature of its name servers accepted.
pub(crate) const SESSION: &[u8] =
    b"dns-session 1\nmoment 9000\nalgorithms 13\nanchor . 13 aabb\naccept 13 aabb 00020d0000000e10000007d000000384aec900000002000100000e100003016100 c0de\nquery . NS\nend\n";

/// A request that is no message, which is answered without a lookup.
const UNREAD: &[u8] = b"\0\x07\x29\x10\0\x01\0\0\0\0\0\0";

/// A request for the root's name servers, with AD set.
const SERVERS: &[u8] = b"\0\x07\x01\x20\0\x01\0\0\0\0\0\0\0\0\x02\0\x01";

/// A clock that stands at 1000.
#[derive(Drop)]
pub(crate) struct Standing;

impl Clone for Standing {
    fn clone(&self) -> Result<Standing, AllocError> {
        Ok(Standing)
    }
}

impl Clock for Standing {
    fn now(&mut self) -> u64 {
        1000
    }
}

/// What comes to a port: so many requests that are no message, and then so many that are looked up; and the numbers of its calls that fail.
#[derive(Clone, Copy)]
pub(crate) struct Coming {
    pub(crate) unread: u32,
    pub(crate) queries: u32,
    pub(crate) fails: &'static [u64],
}

// Puts a request behind others, so often.
fn put(rt: &impl Abort, alloc: Global, requests: &mut Vec<Octets>, bytes: &[u8], times: u32) {
    for _ in 0..times {
        let request = Octets::from_slice(alloc, bytes).expect(rt, "memory");
        requests.push(request).expect(rt, "memory");
    }
}

// A port to which that comes.
fn port_of(rt: &impl Abort, alloc: Global, coming: &Coming) -> ListPort {
    let mut requests = Vec::new(alloc);
    put(rt, alloc, &mut requests, UNREAD, coming.unread);
    put(rt, alloc, &mut requests, SERVERS, coming.queries);
    let fails = Vec::from_slice(alloc, coming.fails).expect(rt, "memory");
    ListPort::new(requests, fails)
}

/// A listener that gives such ports, and then refuses.
pub(crate) fn listener_of(rt: &impl Abort, alloc: Global, ports: &[Coming]) -> Watched<ListPort> {
    let mut all = Vec::new(alloc);
    for coming in ports {
        let port: Result<ListPort, IoKind> = Ok(port_of(rt, alloc, coming));
        all.push(port).expect(rt, "memory");
    }
    Watched::new(all)
}

/// The words of a run.
pub(crate) fn words_of(rt: &impl Abort, alloc: Global, words: &str) -> Vec<Vec<u8>> {
    let mut all = Vec::new(alloc);
    let mut word = Vec::new(alloc);
    for byte in words.as_bytes() {
        if *byte == b' ' {
            all.push(word).expect(rt, "memory");
            word = Vec::new(alloc);
        } else {
            word.push(*byte).expect(rt, "memory");
        }
    }
    all.push(word).expect(rt, "memory");
    all
}

/// What a run is given: its words, its input, the numbers of the reads and of the writes that fail, whether the server refuses to be
/// connected, and the ports of clients.
#[derive(Clone, Copy)]
pub(crate) struct Given {
    pub(crate) words: &'static str,
    pub(crate) session: &'static [u8],
    pub(crate) failed_reads: &'static [u64],
    pub(crate) failed_writes: &'static [u64],
    pub(crate) refuses: bool,
    pub(crate) ports: &'static [Coming],
}

/// How a run ended: its status, whether the text is this one, how often the server was to be connected, and how the listener was used. Where
/// the dialer wasn't given back, it was never asked.
#[derive(Clone, Copy, Debug, PartialEq, Eq, Drop)]
pub(crate) struct Seen {
    pub(crate) status: u8,
    pub(crate) is_text: bool,
    pub(crate) connects: u32,
    pub(crate) uses: Uses,
}

/// How a run ends that is given that, and is to write this text.
pub(crate) fn run_over<R: Abort + Threads + Wait + RandomSource + Copy + Send + Sync>(
    rt: R,
    alloc: Global,
    given: &Given,
    text: &[u8],
) -> Seen {
    let words = words_of(&rt, alloc, given.words);
    let session = Octets::from_slice(alloc, given.session).expect(&rt, "memory");
    let failed_reads = Vec::from_slice(alloc, given.failed_reads).expect(&rt, "memory");
    let failed_writes = Vec::from_slice(alloc, given.failed_writes).expect(&rt, "memory");
    let mut source = TextSource::new(session, failed_reads);
    let mut sink = TextSink::new(alloc, failed_writes);
    let mut listen = listener_of(&rt, alloc, given.ports);
    let dial = Replying::new(alloc, given.refuses);
    let end = run_forward_seeded(
        &rt,
        alloc,
        &words,
        &mut source,
        &mut sink,
        dial,
        &mut listen,
        Standing,
        Some(7),
    );
    let connects = match &end.dial {
        Some(dial) => dial.connects(),
        None => 0,
    };
    Seen {
        status: end.status,
        is_text: *sink.taken() == *text,
        connects,
        uses: listen.uses(),
    }
}

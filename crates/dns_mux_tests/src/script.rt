use crate::heard::{Heard, heard_error, heard_reply};
use crate::parts::{check, draws_of, query, response_bytes, server};
use dns_handle::{DnsRequest, IoKind, NetError};
use dns_model::Proof;
use dns_mux::{
    Arrival, BufDnsStreamHandle, DnsMultiplexer, DnsRequestSender, ListDraws, RequestId,
    SerialMessage, Taken,
};
use dns_record::{DNSClass, Name, Octets, Rdata, Record, RecordType};
use std::alloc::Global;
use std::process::Abort;

/// A call, and what it has to answer.
pub(crate) enum Step {
    /// A request is sent at a moment and gets the number, or is refused.
    Sends(u64, Result<u64, Heard>),
    /// The same of one with so many bytes in its rdata, at 0.
    Long(usize, Result<u64, Heard>),
    /// A response with the id comes.
    Arrives(u16, Arrival),
    /// The next message to be sent comes back as it is, and waits for the request with the number.
    Echoes(u64),
    /// What waits for the request is asked for.
    Takes(u64, Heard),
    Cancels(u64),
    Ticks(u64),
    /// The connection ends by this fault.
    Closes(IoKind),
    /// The next message to be sent has the id, or there is none.
    Pops(Option<u16>),
}

/// The calls of one multiplexer, and of what it is made.
pub(crate) struct Script {
    pub(crate) message: &'static str,
    pub(crate) maximum: usize,
    pub(crate) size: usize,
    pub(crate) ids: &'static [u16],
    pub(crate) steps: &'static [Step],
}

fn long_record(rt: &impl Abort, alloc: Global, rdata: usize) -> Record {
    let mut bytes = Vec::new(alloc);
    bytes.resize(rdata.min(65535), 0u8).expect(rt, "memory");
    let name = Name::root(alloc).expect(rt, "memory");
    Record {
        name,
        record_type: RecordType(65280),
        dns_class: DNSClass::IN,
        ttl: 0,
        rdata: Rdata::from_octets(Octets::from_vec(bytes)),
        proof: Proof::Indeterminate,
    }
}

/// A request that is encoded as 12 bytes for the header, 11 for the rest of a record at the root, and these of its rdata.
fn long_request(rt: &impl Abort, alloc: Global, rdata: usize) -> DnsRequest {
    let record = long_record(rt, alloc, rdata);
    let mut long = query(alloc);
    long.message.answers.push(record).expect(rt, "memory");
    long
}

/// The send has the number, or the refusal.
fn is_told(sent: &Result<RequestId, NetError>, told: &Result<u64, Heard>) -> bool {
    match (sent, told) {
        (Ok(RequestId(sent)), Ok(number)) => *sent == *number,
        (Err(error), Err(heard)) => heard_error(error) == *heard,
        _ => false,
    }
}

fn is_sent(
    rt: &impl Abort,
    alloc: Global,
    mux: &mut DnsMultiplexer<ListDraws>,
    request: DnsRequest,
    now: u64,
    told: &Result<u64, Heard>,
) -> bool {
    check(rt, "a multiplexer that isn't shut down", !mux.is_shutdown());
    let sent = mux.send_message(alloc, &request, now);
    is_told(&sent, told)
}

/// The id of a message, if there is one.
fn id_of(message: Option<&SerialMessage>) -> Option<u16> {
    match message?.bytes.as_slice() {
        [high, low, ..] => Some(u16::from_be_bytes([*high, *low])),
        _ => None,
    }
}

fn is_popped(mux: &mut DnsMultiplexer<ListDraws>, id: Option<u16>) -> bool {
    let message = mux.pop_outbound();
    message.is_some() == id.is_some() && id_of(message.as_ref()) == id
}

fn heard_taken(taken: &Taken) -> Heard {
    match taken {
        Taken::Item(reply) => heard_reply(reply),
        Taken::Pending => Heard::Pending,
        Taken::Ended => Heard::Ended,
    }
}

/// What waits for the request.
fn taken(mux: &mut DnsMultiplexer<ListDraws>, number: u64) -> Heard {
    let taken = mux.take(RequestId(number));
    heard_taken(&taken)
}

/// Where bytes that come wait.
fn arrived(
    rt: &impl Abort,
    alloc: Global,
    mux: &mut DnsMultiplexer<ListDraws>,
    bytes: &[u8],
) -> Arrival {
    check(rt, "a message that isn't too long", bytes.len() <= 65535);
    mux.arrive(alloc, bytes).expect(rt, "memory")
}

fn is_echoed(
    rt: &impl Abort,
    alloc: Global,
    mux: &mut DnsMultiplexer<ListDraws>,
    number: u64,
) -> bool {
    let message = mux.pop_outbound().expect(rt, "a message");
    arrived(rt, alloc, mux, message.bytes.as_slice()) == Arrival::Queued(RequestId(number))
}

fn plays(rt: &impl Abort, alloc: Global, mux: &mut DnsMultiplexer<ListDraws>, step: &Step) -> bool {
    match step {
        Step::Sends(now, told) => is_sent(rt, alloc, mux, query(alloc), *now, told),
        Step::Long(rdata, told) => {
            is_sent(rt, alloc, mux, long_request(rt, alloc, *rdata), 0, told)
        }
        Step::Echoes(number) => is_echoed(rt, alloc, mux, *number),
        Step::Arrives(id, arrival) => arrived(rt, alloc, mux, &response_bytes(*id)) == *arrival,
        Step::Takes(number, heard) => taken(mux, *number) == *heard,
        Step::Cancels(number) => {
            mux.cancel(RequestId(*number));
            true
        }
        Step::Ticks(now) => {
            mux.tick(*now);
            true
        }
        Step::Closes(fault) => {
            mux.close(*fault);
            mux.is_shutdown()
        }
        Step::Pops(id) => is_popped(mux, *id),
    }
}

fn steps_of(
    rt: &impl Abort,
    alloc: Global,
    mux: &mut DnsMultiplexer<ListDraws>,
    steps: &[Step],
) -> usize {
    let mut place: usize = 0;
    for step in steps {
        if !plays(rt, alloc, mux, step) {
            return place;
        }
        place = place.saturating_add(1);
    }
    place
}

/// A multiplexer with a queue of a size, so many live requests, and ids that are drawn in turn.
fn multiplexer(rt: &impl Abort, alloc: Global, script: &Script) -> DnsMultiplexer<ListDraws> {
    let (handle, queue) = BufDnsStreamHandle::with_buffer_size(alloc, server(), script.size);
    let draws = draws_of(rt, alloc, script.ids);
    let made = DnsMultiplexer::new(alloc, server(), handle, queue, draws);
    made.with_max_active_requests(script.maximum)
}

/// The first step that was answered otherwise, counted from 0; as many as there are where none was.
pub(crate) fn steps_played(rt: &impl Abort, alloc: Global, script: &Script) -> usize {
    let mut mux = multiplexer(rt, alloc, script);
    steps_of(rt, alloc, &mut mux, script.steps)
}

ghost use Rattle.std.specs.Prelude.{◌≡◌, false};

use crate::heard::{Heard, heard_reply};
use crate::parts::{ANSWER, ASKED, check, draws_of, request_of, server};
use crate::watching::{Coming, Watching};
use dns_handle::{DnsRequest, DnsResponse, NetError};
use dns_record::{DNSClass, Name, Query, RecordType};
use dns_udp::{UdpClientStream, UdpClientStreamBuilder};
use std::alloc::Global;
use std::process::Abort;

/// A response with another id.
const OTHER: &[u8] = b"\x00\x02\x81\x80\x00\x01\x00\x00\x00\x00\x00\x00\x01a\x00\x00\x01\x00\x01";

/// The request with its letter in the other case.
const UPPER: &[u8] = b"\x00\x01\x01\x00\x00\x01\x00\x00\x00\x00\x00\x00\x01A\x00\x00\x01\x00\x01";

/// The request with an OPT record that names 1,232 bytes, and with one that names 65,535.
const LARGE: &[u8] = b"\x00\x01\x01\x00\x00\x01\x00\x00\x00\x00\x00\x01\x01a\x00\x00\x01\x00\x01\
\x00\x00\x29\x04\xd0\x00\x00\x00\x00\x00\x00";

const LARGEST: &[u8] = b"\x00\x01\x01\x00\x00\x01\x00\x00\x00\x00\x00\x01\x01a\x00\x00\x01\x00\x01\
\x00\x00\x29\xff\xff\x00\x00\x00\x00\x00\x00";

/// Responses with one record, up to the length of its rdata, for 512, 513, 1,232, 1,233, 4,096 and 4,097 bytes.
const OF_512: &[u8] = b"\x00\x01\x81\x80\x00\x01\x00\x01\x00\x00\x00\x00\x01a\x00\x00\x01\x00\x01\
\x00\xff\x00\x00\x01\x00\x00\x00\x00\x01\xe2";

const OF_513: &[u8] = b"\x00\x01\x81\x80\x00\x01\x00\x01\x00\x00\x00\x00\x01a\x00\x00\x01\x00\x01\
\x00\xff\x00\x00\x01\x00\x00\x00\x00\x01\xe3";

const OF_1232: &[u8] = b"\x00\x01\x81\x80\x00\x01\x00\x01\x00\x00\x00\x00\x01a\x00\x00\x01\x00\x01\
\x00\xff\x00\x00\x01\x00\x00\x00\x00\x04\xb2";

const OF_1233: &[u8] = b"\x00\x01\x81\x80\x00\x01\x00\x01\x00\x00\x00\x00\x01a\x00\x00\x01\x00\x01\
\x00\xff\x00\x00\x01\x00\x00\x00\x00\x04\xb3";

const OF_4096: &[u8] = b"\x00\x01\x81\x80\x00\x01\x00\x01\x00\x00\x00\x00\x01a\x00\x00\x01\x00\x01\
\x00\xff\x00\x00\x01\x00\x00\x00\x00\x0f\xe2";

const OF_4097: &[u8] = b"\x00\x01\x81\x80\x00\x01\x00\x01\x00\x00\x00\x00\x01a\x00\x00\x01\x00\x01\
\x00\xff\x00\x00\x01\x00\x00\x00\x00\x0f\xe3";

/// A call: what it asks, what comes to its sockets, and what it comes to.
struct Call {
    message: &'static str,
    asked: &'static [u8],
    /// Whether letters count, where `a.` is asked for in other letters.
    case: Option<bool>,
    /// The question in its own letters isn't kept.
    is_bare: bool,
    coming: &'static [Coming],
    /// In so many waits on each socket nothing comes first.
    quiet: u32,
    is_short: bool,
    /// In milliseconds.
    timeout: u64,
    /// The least time between two sends, in milliseconds, and the most sends, where they aren't the builder's.
    tries: Option<(u64, u8)>,
    heard: Heard,
    /// The request is sent, once each and in its own bytes, on so many sockets.
    sockets: u32,
}

/// A call to whose sockets nothing comes.
const PLAIN: Call = Call {
    message: "nothing comes",
    asked: ASKED,
    case: None,
    is_bare: false,
    coming: &[],
    quiet: 0,
    is_short: false,
    timeout: 5000,
    tries: None,
    heard: Heard::Timeout,
    sockets: 3,
};

const CALLS: &[Call] = &[
    PLAIN,
    Call {
        message: "an answer is given",
        coming: &[Coming(ANSWER, 19, 1)],
        heard: Heard::Id(1),
        sockets: 1,
        ..PLAIN
    },
    Call {
        message: "an answer is given on the second socket",
        coming: &[Coming(OTHER, 19, 3), Coming(ANSWER, 19, 1)],
        heard: Heard::Id(1),
        sockets: 2,
        ..PLAIN
    },
    Call {
        message: "an answer is given where nothing comes to the first socket",
        coming: &[Coming(ANSWER, 19, 0), Coming(ANSWER, 19, 1)],
        heard: Heard::Id(1),
        sockets: 2,
        ..PLAIN
    },
    Call {
        message: "an answer is given on the first socket once the third is open",
        coming: &[Coming(ANSWER, 19, 1)],
        quiet: 10,
        heard: Heard::Id(1),
        ..PLAIN
    },
    Call {
        message: "other letters end a call where no question is kept",
        asked: UPPER,
        case: Some(true),
        is_bare: true,
        coming: &[Coming(ANSWER, 19, 1)],
        heard: Heard::CaseMismatch,
        sockets: 1,
        ..PLAIN
    },
    Call {
        message: "what can't be read ends a call",
        coming: &[Coming(ANSWER, 2, 1), Coming(ANSWER, 19, 1)],
        heard: Heard::Undecodable,
        sockets: 1,
        ..PLAIN
    },
    Call {
        message: "time runs out where no answer comes",
        coming: &[Coming(OTHER, 19, 2), Coming(OTHER, 19, 2)],
        ..PLAIN
    },
    Call {
        message: "there is no time",
        coming: &[Coming(ANSWER, 19, 1), Coming(ANSWER, 19, 1)],
        timeout: 0,
        sockets: 1,
        ..PLAIN
    },
    Call {
        message: "there is time for one socket",
        coming: &[Coming(ANSWER, 19, 0), Coming(ANSWER, 19, 1)],
        timeout: 400,
        sockets: 1,
        ..PLAIN
    },
    Call {
        message: "65,535 strangers end no call",
        coming: &[Coming(OTHER, 19, 65_535)],
        ..PLAIN
    },
    Call {
        message: "65,536 strangers end a call",
        coming: &[Coming(OTHER, 19, 65_536), Coming(ANSWER, 19, 1)],
        sockets: 1,
        ..PLAIN
    },
    Call {
        message: "a short send is told",
        is_short: true,
        heard: Heard::Short,
        sockets: 1,
        ..PLAIN
    },
    Call {
        message: "the original question is put back",
        asked: UPPER,
        case: Some(true),
        coming: &[Coming(UPPER, 19, 1)],
        heard: Heard::Original,
        sockets: 1,
        ..PLAIN
    },
    Call {
        message: "the question stays where letters don't count",
        asked: UPPER,
        case: Some(false),
        coming: &[Coming(UPPER, 19, 1)],
        heard: Heard::Id(1),
        sockets: 1,
        ..PLAIN
    },
    Call {
        message: "512 bytes fit where no OPT says otherwise",
        coming: &[Coming(OF_512, 512, 1)],
        heard: Heard::Id(1),
        sockets: 1,
        ..PLAIN
    },
    Call {
        message: "513 bytes don't",
        coming: &[Coming(OF_513, 513, 1)],
        heard: Heard::Undecodable,
        sockets: 1,
        ..PLAIN
    },
    Call {
        message: "as many fit as an OPT names",
        asked: LARGE,
        coming: &[Coming(OF_1232, 1232, 1)],
        heard: Heard::Id(1),
        sockets: 1,
        ..PLAIN
    },
    Call {
        message: "one more doesn't",
        asked: LARGE,
        coming: &[Coming(OF_1233, 1233, 1)],
        heard: Heard::Undecodable,
        sockets: 1,
        ..PLAIN
    },
    Call {
        message: "4,096 bytes fit where an OPT names more",
        asked: LARGEST,
        coming: &[Coming(OF_4096, 4096, 1)],
        heard: Heard::Id(1),
        sockets: 1,
        ..PLAIN
    },
    Call {
        message: "4,097 bytes don't",
        asked: LARGEST,
        coming: &[Coming(OF_4097, 4097, 1)],
        heard: Heard::Undecodable,
        sockets: 1,
        ..PLAIN
    },
    Call {
        message: "there is no time to send again",
        tries: Some((200, 5)),
        timeout: 100,
        sockets: 1,
        ..PLAIN
    },
    Call {
        message: "a request is sent again after each interval",
        tries: Some((200, 5)),
        timeout: 600,
        ..PLAIN
    },
    Call {
        message: "five times at most",
        tries: Some((200, 5)),
        timeout: 1600,
        sockets: 5,
        ..PLAIN
    },
    Call {
        message: "once at least",
        tries: Some((200, 0)),
        timeout: 1600,
        sockets: 1,
        ..PLAIN
    },
];

fn calls() -> &'static [Call] {
    CALLS
}

/// The request of a call. Where letters count or don't, it asks in place of a question for `a.`.
fn request_for(rt: &impl Abort, alloc: Global, call: &Call) -> DnsRequest {
    let original = match call.case {
        Some(_) if !call.is_bare => Some(Query {
            name: Name::from_ascii(alloc, "a.").expect(rt, "a name"),
            query_type: RecordType::A,
            query_class: DNSClass::IN,
        }),
        _ => None,
    };
    let mut request = request_of(rt, alloc, call.asked, original);
    request.options.case_randomization = call.case == Some(true);
    request
}

/// What a reply is heard as; a response may ask for the original question, letter for letter.
fn heard_for(request: &DnsRequest, reply: &Result<DnsResponse, NetError>) -> Heard {
    match (reply, &request.original) {
        (Ok(response), Some(original)) => match response.message.queries.first() {
            Some(query) if query.name.eq_case(&original.name) => Heard::Original,
            _ => Heard::Id(response.message.id),
        },
        _ => heard_reply(reply),
    }
}

fn built(builder: UdpClientStreamBuilder, tries: Option<(u64, u8)>) -> UdpClientStream
    ensures { result.is_shutdown ≡ false }
{
    match tries {
        Some((floor, most)) => builder
            .with_retry_interval_floor(floor)
            .with_max_retries(most)
            .build(),
        None => builder.build(),
    }
}

/// What a call hears over a dialer.
fn heard_over(
    rt: &impl Abort,
    alloc: Global,
    dial: &mut Watching,
    request: &DnsRequest,
    call: &Call,
) -> Heard {
    let builder = UdpClientStream::builder(alloc, server()).with_timeout(Some(call.timeout));
    let mut stream = built(builder, call.tries);
    let mut draws = draws_of(rt, alloc, &[]);
    let reply = stream.send_message(alloc, dial, &mut draws, request);
    heard_for(request, &reply)
}

/// Whether a call comes to what it is to come to, and its request is sent alike on as many sockets as it is to.
fn holds(rt: &impl Abort, alloc: Global, call: &Call) -> bool {
    let request = request_for(rt, alloc, call);
    let mut dial = Watching::new(call.asked, call.coming, call.is_short, 0).after(call.quiet);
    let heard = heard_over(rt, alloc, &mut dial, &request, call);
    heard == call.heard && dial.alike == call.sockets && dial.others == 0
}

#[test]
fn calls_come_to_what_the_cases_say(rt: HostRuntime) {
    for call in calls() {
        check(&rt, call.message, holds(&rt, rt.alloc(), call));
    }
}

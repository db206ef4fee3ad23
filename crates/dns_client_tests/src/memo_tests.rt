//! A client that keeps each reply.
use crate::parts::{check, name};
use dns_client::{ClientHandle, MemoizeClientHandle};
use dns_evidence::Trail;
use dns_handle::{
    DnsHandle, DnsRequest, DnsRequestOptions, DnsResponse, NetError, Notice, faults_after,
};
use dns_message::Message;
use dns_model::Denial;
use dns_record::{DNSClass, Name, RecordType};
use std::alloc::Global;
use std::process::Abort;
use std::rt::HostRuntime;

// The example of the crate, word for word.

fn ask_twice<H: DnsHandle + Drop>(
    alloc: Global,
    client: H,
    name: Name,
    now: u64,
) -> Result<DnsResponse, NetError> {
    let mut memo = MemoizeClientHandle::new(alloc, client);
    let again = name.try_clone()?;
    let _first = memo.query(alloc, name, DNSClass::IN, RecordType::A, now)?;
    memo.query(alloc, again, DNSClass::IN, RecordType::A, now)
}

/// A handle that is busy for so many sends, and whose responses have as id how many came before.
#[derive(Drop)]
struct Counting {
    busy: u64,
    sends: u64,
    faults: u64,
}

impl Counting {
    fn new(busy: u64) -> Counting {
        Counting {
            busy,
            sends: 0,
            faults: 0,
        }
    }
}

// A response with an id.
fn response_with(alloc: Global, id: u16) -> DnsResponse {
    let mut message = Message::query(alloc);
    message.id = id;
    DnsResponse {
        message,
        chains: Vec::new(alloc),
        denial: Denial::None,
        trail: Trail::new(alloc),
    }
}

impl DnsHandle for Counting {
    ghost use Rattle.std.specs.Prelude.{⊤, None};

    ghost sends = { λ c. c.sends };

    ghost faults = { λ c. c.faults };

    ghost sent = { λ from asked to reply. ⊤ };

    ghost told = { λ c. None };

    fn send(
        &mut self,
        alloc: Global,
        _request: DnsRequest,
        _now: u64,
    ) -> Result<DnsResponse, NetError> {
        let reply = if self.sends < self.busy {
            Err(NetError::Busy)
        } else {
            Ok(response_with(alloc, (self.sends % 65_536) as u16))
        };
        self.sends = self.sends.saturating_add(1);
        self.faults = faults_after(self.faults, &reply);
        reply
    }

    fn is_using_edns(&self) -> bool {
        true
    }
}

/// A question, and the id of its response, or `None` where it is answered that the handle is busy.
struct Asked(&'static str, u16, u16, Option<u16>);

const ALL: &[Asked] = &[
    Asked("a.", 1, 1, Some(0)),
    Asked("a.", 1, 28, Some(1)),
    Asked("A.", 1, 1, Some(0)),
    Asked("a.", 1, 28, Some(1)),
    Asked("a.", 3, 1, Some(2)),
    Asked("b.a.", 1, 1, Some(3)),
    Asked("a.", 3, 1, Some(2)),
];

const BUSY: &[Asked] = &[
    Asked("a.", 1, 1, None),
    Asked("a.", 1, 1, None),
    Asked("a.", 1, 28, Some(1)),
    Asked("A.", 1, 1, None),
];

/// Whether a reply has this id, or says that the handle is busy where there is none.
fn is_said(reply: Result<DnsResponse, NetError>, id: Option<u16>) -> bool {
    match reply {
        Ok(response) => id == Some(response.message.id),
        Err(NetError::Busy) => id.is_none(),
        Err(_) => false,
    }
}

/// Whether a memo answers as is said, over a handle that is busy so often, which is asked so often.
fn answers(rt: &impl Abort, alloc: Global, busy: u64, all: &[Asked], sends: u64) -> bool {
    let mut memo = MemoizeClientHandle::new(alloc, Counting::new(busy));
    let mut held = true;
    for asked in all {
        let owner = name(rt, alloc, asked.0);
        let reply = memo.query(alloc, owner, DNSClass(asked.1), RecordType(asked.2), 1000);
        held = is_said(reply, asked.3) && held;
    }
    held && memo.into_client().sends == sends
}

/// Whether the example gives the first response.
fn is_given_twice(rt: &impl Abort, alloc: Global) -> bool {
    let twice = ask_twice(alloc, Counting::new(0), name(rt, alloc, "a."), 1000);
    is_said(twice, Some(0))
}

#[test]
fn a_memo_gives_the_first_reply_again(rt: HostRuntime) {
    let alloc = rt.alloc();
    check(&rt, "responses", answers(&rt, alloc, 0, ALL, 4));
    check(&rt, "an error", answers(&rt, alloc, 1, BUSY, 2));
    check(&rt, "the same response", is_given_twice(&rt, alloc));
}

/// Whether a memo refuses a request without a question, and asks nobody.
fn is_refused(alloc: Global) -> bool {
    let mut memo = MemoizeClientHandle::new(alloc, Counting::new(0));
    let request = DnsRequest {
        message: Message::query(alloc),
        options: DnsRequestOptions::default(),
        original: None,
    };
    let reply = memo.send(alloc, request, 1000);
    let refused = matches!(reply, Err(NetError::Message(Notice::NoQueryInRequest)));
    refused && memo.into_client().sends == 0
}

#[test]
fn a_memo_refuses_a_request_without_a_question(rt: HostRuntime) {
    check(&rt, "no question", is_refused(rt.alloc()));
}

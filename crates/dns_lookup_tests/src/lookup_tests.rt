//! What a lookup sends, and what a denial holds (RFC 1035, 4.1; RFC 6891, 6.1.2; RFC 4035, 4.1).
use crate::given::{Answer, MOMENT, ask, ask_scene, put_message, upstream_of};
use crate::rows::check_held;
use crate::scenes::servers;
use dns_evidence::Listed;
use dns_handle::{DnsError, DnsHandle, DnsRequest, DnsResponse, NetError};
use dns_lookup::DnssecDnsHandle;
use dns_model::Proof;
use dns_record::{Octets, Record, RecordType};
use dns_recorded::Recorded;
use dns_trust::TrustAnchors;
use std::alloc::Global;
use std::process::Abort;

/// The message of a request, and when it was sent.
#[derive(Drop)]
pub(crate) struct Sending {
    pub(crate) message: Octets,
    moment: u64,
}

/// A handle that keeps what it sends.
#[derive(Drop)]
pub(crate) struct Keeping {
    replies: Recorded,
    pub(crate) kept: Vec<Sending>,
}

impl DnsHandle for Keeping {
    ghost use Rattle.std.specs.Prelude.{Some};
    ghost use Rattle.dns_recorded.specs.Recording.{replies_of, AnswersFrom};

    ghost sends = { λ h. h.replies.sends };

    ghost faults = { λ h. h.replies.faults };

    ghost sent = { λ from asked to reply. AnswersFrom from.replies asked to.replies reply };

    ghost told = { λ h. Some (replies_of h.replies) };

    fn send(
        &mut self,
        alloc: Global,
        request: DnsRequest,
        now: u64,
    ) -> Result<DnsResponse, NetError> {
        keep(&mut self.kept, &request, now);
        self.replies.send(alloc, request, now)
    }

    fn is_using_edns(&self) -> bool {
        true
    }
}

// Keeps a request where memory is enough.
fn keep(kept: &mut Vec<Sending>, request: &DnsRequest, moment: u64) {
    if let Ok(message) = request.message.to_vec() {
        let _ = kept.push(Sending { message, moment });
    }
}

/// An NS set of `b.` that its signature, with no label, would expand.
const EXPANDED: &[u8] =
    b"\0\0\x84\0\0\x01\0\x02\0\0\0\0\x01b\0\0\x02\0\x01\x01b\0\0\x02\0\x01\0\0\x0e\x10\0\x03\x01a\0\x01b\0\0\x2e\0\x01\0\0\x0e\x10\0\x15\0\x02\x0d\0\0\0\x0e\x10\0\0\x07\xd0\0\0\x03\x84\xae\xc9\0\xc0\xde";

/// A handle over an upstream, that trusts no key and accepts no signature.
pub(crate) fn handle_over(
    rt: &impl Abort,
    alloc: Global,
    replies: Recorded,
) -> DnssecDnsHandle<Keeping, Listed> {
    let upstream = Keeping {
        replies,
        kept: Vec::new(alloc),
    };
    let (anchors, verifier) = (TrustAnchors::empty(alloc), Listed::new(alloc));
    DnssecDnsHandle::with_trust_anchor(alloc, upstream, anchors, verifier).expect(rt, "memory")
}

/// An ask of the lookup of `. NS` with default options.
struct Asked {
    name: &'static str,
    place: usize,
    message: &'static [u8],
}

const ASKS: usize = 2;

const ASKED: &[Asked] = &[
    Asked {
        name: "the query",
        place: 0,
        message: b"\0\0\x01\x20\0\x01\0\0\0\0\0\x01\0\0\x02\0\x01\0\0\x29\x04\xd0\0\0\x80\0\0\0",
    },
    Asked {
        name: "the keys",
        place: 1,
        message: b"\0\0\x01\x20\0\x01\0\0\0\0\0\x01\0\0\x30\0\x01\0\0\x29\x04\xd0\0\0\x80\0\0\0",
    },
];

// What was kept at the row's place is its message, sent at the moment of all scenes, and nothing else was kept.
fn is_kept(kept: &[Sending], row: &Asked) -> bool {
    let Some(sending) = kept.get(row.place) else {
        return false;
    };
    sending.moment == MOMENT && *sending.message.as_slice() == *row.message && kept.len() == ASKS
}

/// What the lookup of `. NS` sends at a place is the row's message.
fn is_sent(rt: &impl Abort, alloc: Global, row: &Asked) -> bool {
    let mut handle = handle_over(rt, alloc, upstream_of(rt, alloc, servers()));
    let answer = ask_scene(rt, alloc, &mut handle, servers(), MOMENT);
    let answered = answer.is_ok();
    answered && is_kept(handle.inner().kept.as_slice(), row)
}

#[test]
fn each_ask_has_the_options_of_the_lookup_and_its_moment(rt: HostRuntime) {
    for row in ASKED {
        check_held(&rt, row.name, is_sent(&rt, rt.alloc(), row));
    }
}

fn is_seen(record: &Record, record_type: RecordType, proof: Proof) -> bool {
    record.record_type == record_type && record.ttl == 3600 && record.proof == proof
}

// The answer section of the judged response: a bogus NS record, and its signature.
fn is_judged(answers: &[Record]) -> bool {
    match answers {
        [first, second] => is_seen(first, RecordType::NS, Proof::Bogus)
            && is_seen(second, RecordType::RRSIG, Proof::Indeterminate),
        _ => false,
    }
}

/// The answer is a Bogus denial that holds the judged response.
fn is_denial(answer: &Answer) -> bool {
    match answer {
        Err(
            NetError::Dns(
                DnsError::Nsec {
                    response,
                    proof,
                    ..
                },
            ),
        ) => *proof == Proof::Bogus && is_judged(&response.message.answers),
        _ => false,
    }
}

/// The root's servers are known, and the set of `b.`
fn is_denied(rt: &impl Abort, alloc: Global) -> bool {
    let mut upstream = upstream_of(rt, alloc, servers());
    put_message(rt, alloc, &mut upstream, "b.", RecordType::NS, EXPANDED);
    let mut handle = handle_over(rt, alloc, upstream);
    let answer = ask(rt, alloc, &mut handle, "b.", RecordType::NS, 26, MOMENT);
    is_denial(&answer)
}

#[test]
fn a_denial_holds_the_judged_response(rt: HostRuntime) {
    check_held(&rt, "an expansion", is_denied(&rt, rt.alloc()));
}

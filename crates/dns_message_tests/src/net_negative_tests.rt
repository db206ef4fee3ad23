//! What becomes of a response: it answers, it denies, or its server failed.
use crate::parts::{ask_also, record, response};
use crate::rows::{Row, check_numbered};
use dns_handle::{DnsError, DnsResponse};
use dns_message::Message;
use dns_model::Section;
use dns_record::{Record, ResponseCode};
use std::alloc::Global;
use std::process::Abort;

/// What becomes of a response.
pub(crate) type Became = Result<DnsResponse, DnsError>;

pub(crate) fn from_message(rt: &impl Abort, alloc: Global, message: Message) -> Became {
    DnsError::from_response(alloc, response(alloc, message)).expect(rt, "memory")
}

/// A question, by its name and its type.
pub(crate) type Asked = (&'static str, u16);

/// A record by its section, name, type, ttl and rdata; without a ttl it has the one that is asked for.
#[derive(Drop)]
pub(crate) struct Held(
    pub(crate) Section,
    pub(crate) &'static str,
    pub(crate) u16,
    pub(crate) Option<u32>,
    pub(crate) &'static [u8],
);

fn add(rt: &impl Abort, alloc: Global, message: &mut Message, held: &Held, ttl: u32) {
    let next = record(rt, alloc, held.1, held.2, held.3.unwrap_or(ttl), held.4);
    let section = match held.0 {
        Section::Answer => &mut message.answers,
        Section::Authority => &mut message.authorities,
        Section::Additional => &mut message.additionals,
    };
    section.push(next).expect(rt, "memory");
}

/// Puts questions and records into a message.
pub(crate) fn fill(
    rt: &impl Abort,
    alloc: Global,
    message: &mut Message,
    asked: &[Asked],
    records: &[Held],
    ttl: u32,
) {
    for question in asked {
        ask_also(rt, alloc, &mut message.queries, question.0, question.1);
    }
    for held in records {
        add(rt, alloc, message, held, ttl);
    }
}

/// What becomes of a response.
#[derive(Clone, Copy, PartialEq)]
enum Outcome {
    Failure(u16),
    Missing,
    Response,
    OtherError,
}

fn outcome_of(became: &Became) -> Outcome {
    match became {
        Ok(_) => Outcome::Response,
        Err(DnsError::ResponseCode(code)) => Outcome::Failure(code.0),
        Err(DnsError::NoRecordsFound(_)) => Outcome::Missing,
        Err(_) => Outcome::OtherError,
    }
}

fn becomes(rt: &impl Abort, alloc: Global, message: Message, want: Outcome) -> bool {
    let became = from_message(rt, alloc, message);
    outcome_of(&became) == want
}

const A: u16 = 1;

const NS: u16 = 2;

const CNAME: u16 = 5;

const SOA: u16 = 6;

const ANY: u16 = 255;

/// A question; a record by its section, name and type; what becomes of a response that has just these.
struct One(&'static str, u16, Section, &'static str, u16, Outcome);

#[rattlefmt::skip]
const ROWS: &[One] = &[
    // whatever stands in the answer section answers
    One("a.", A, Section::Answer, "a.", A, Outcome::Response),
    One("a.", A, Section::Answer, "a.", CNAME, Outcome::Response),
    One("a.", A, Section::Answer, "b.", NS, Outcome::Response),
    // in another section a record of the type at the name
    One("a.", A, Section::Authority, "a.", A, Outcome::Response),
    One("a.b.", A, Section::Additional, "A.B.", A, Outcome::Response),
    One("a.b.", A, Section::Authority, "b.", A, Outcome::Missing),
    One("b.", A, Section::Authority, "a.b.", A, Outcome::Missing),
    One("a.", A, Section::Authority, "a.", NS, Outcome::Missing),
    One("a.", A, Section::Additional, "a.", ANY, Outcome::Missing),
    One("a.", A, Section::Authority, "a.", SOA, Outcome::Missing),
    // a question of type ANY takes any record at the name, and no other
    One("a.", ANY, Section::Additional, "A.", NS, Outcome::Response),
    One("a.", ANY, Section::Answer, "a.", SOA, Outcome::Response),
    One("a.", ANY, Section::Answer, "b.", A, Outcome::Missing),
    One("b.", ANY, Section::Answer, "a.b.", ANY, Outcome::Missing),
    // one of type SOA takes the SOA of a zone that the name is in
    One("a.b.", SOA, Section::Answer, "a.b.", SOA, Outcome::Response),
    One("a.b.", SOA, Section::Authority, "B.", SOA, Outcome::Response),
    One("a.b.", SOA, Section::Additional, ".", SOA, Outcome::Response),
    One(".", SOA, Section::Authority, ".", SOA, Outcome::Response),
    One("b.", SOA, Section::Authority, "a.b.", SOA, Outcome::Missing),
    One("a.b.", SOA, Section::Authority, "a.", SOA, Outcome::Missing),
    One("a.b.", SOA, Section::Answer, "a.b.", NS, Outcome::Missing),
    One("a.ab.", SOA, Section::Authority, "b.", SOA, Outcome::Missing),
];

fn rows() -> &'static [One] {
    ROWS
}

impl Row for One {
    fn holds(&self, rt: &impl Abort, alloc: Global) -> bool {
        let mut message = Message::query(alloc);
        ask_also(rt, alloc, &mut message.queries, self.0, self.1);
        let held = Held(self.2, self.3, self.4, None, b"");
        add(rt, alloc, &mut message, &held, 60);
        becomes(rt, alloc, message, self.5)
    }
}

/// What a response was asked: for the address of `a.b.`, and for the SOA of `b.` or of `c.`, or nothing.
#[derive(Clone, Copy)]
enum Asking {
    Host,
    HostAndZone,
    HostAndOther,
    Nothing,
}

fn questions(asking: Asking) -> &'static [Asked] {
    match asking {
        Asking::Host => &[("a.b.", A)],
        Asking::HostAndZone => &[("a.b.", A), ("b.", SOA)],
        Asking::HostAndOther => &[("a.b.", A), ("c.", SOA)],
        Asking::Nothing => &[],
    }
}

/// The records of a response: none, an SOA that denies, or that and an answer.
#[derive(Clone, Copy)]
enum Holding {
    Nothing,
    Denial,
    AnsweredDenial,
}

fn records(holding: Holding) -> &'static [Held] {
    match holding {
        Holding::Nothing => &[],
        Holding::Denial => &[Held(Section::Authority, "b.", SOA, None, b"")],
        Holding::AnsweredDenial => &[
            Held(Section::Authority, "b.", SOA, None, b""),
            Held(Section::Answer, "a.b.", A, None, b""),
        ],
    }
}

/// What a response was asked, its records, whether it was cut off, and its code; what becomes of it.
struct Case(Asking, Holding, bool, u16, Outcome);

#[rattlefmt::skip]
const CASES: &[Case] = &[
    // the codes by which a server says that it failed (RFC 6895, 2.3): FORMERR, SERVFAIL, NOTIMP to NOTZONE, BADVERS to BADCOOKIE
    Case(Asking::Host, Holding::Nothing, false, 1, Outcome::Failure(1)),
    Case(Asking::Host, Holding::Nothing, false, 2, Outcome::Failure(2)),
    Case(Asking::Host, Holding::Nothing, false, 4, Outcome::Failure(4)),
    Case(Asking::Host, Holding::Nothing, false, 5, Outcome::Failure(5)),
    Case(Asking::Host, Holding::Nothing, false, 6, Outcome::Failure(6)),
    Case(Asking::Host, Holding::Nothing, false, 7, Outcome::Failure(7)),
    Case(Asking::Host, Holding::Nothing, false, 8, Outcome::Failure(8)),
    Case(Asking::Host, Holding::Nothing, false, 9, Outcome::Failure(9)),
    Case(Asking::Host, Holding::Nothing, false, 10, Outcome::Failure(10)),
    Case(Asking::Host, Holding::Nothing, false, 16, Outcome::Failure(16)),
    Case(Asking::Host, Holding::Nothing, false, 17, Outcome::Failure(17)),
    Case(Asking::Host, Holding::Nothing, false, 18, Outcome::Failure(18)),
    Case(Asking::Host, Holding::Nothing, false, 19, Outcome::Failure(19)),
    Case(Asking::Host, Holding::Nothing, false, 20, Outcome::Failure(20)),
    Case(Asking::Host, Holding::Nothing, false, 21, Outcome::Failure(21)),
    Case(Asking::Host, Holding::Nothing, false, 22, Outcome::Failure(22)),
    Case(Asking::Host, Holding::Nothing, false, 23, Outcome::Failure(23)),
    // NOERROR and NXDOMAIN
    Case(Asking::Host, Holding::Nothing, false, 0, Outcome::Missing),
    Case(Asking::Host, Holding::Nothing, false, 3, Outcome::Missing),
    // codes that aren't assigned to any answer of a server
    Case(Asking::Host, Holding::Nothing, false, 11, Outcome::Response),
    Case(Asking::Host, Holding::Nothing, false, 12, Outcome::Response),
    Case(Asking::Host, Holding::Nothing, false, 13, Outcome::Response),
    Case(Asking::Host, Holding::Nothing, false, 14, Outcome::Response),
    Case(Asking::Host, Holding::Nothing, false, 15, Outcome::Response),
    Case(Asking::Host, Holding::Nothing, false, 24, Outcome::Response),
    Case(Asking::Host, Holding::Nothing, false, 256, Outcome::Response),
    Case(Asking::Host, Holding::Nothing, false, 4095, Outcome::Response),
    // with an SOA
    Case(Asking::Host, Holding::Denial, false, 0, Outcome::Missing),
    Case(Asking::Host, Holding::Denial, false, 3, Outcome::Missing),
    Case(Asking::Host, Holding::Denial, true, 0, Outcome::Response),
    Case(Asking::Host, Holding::Denial, true, 3, Outcome::Response),
    // a failure stays one
    Case(Asking::Host, Holding::Denial, true, 2, Outcome::Failure(2)),
    // a second question that the authority section answers, and one without an answer
    Case(Asking::HostAndZone, Holding::Denial, false, 3, Outcome::Response),
    Case(Asking::HostAndOther, Holding::Denial, false, 3, Outcome::Missing),
    Case(Asking::Nothing, Holding::Denial, false, 0, Outcome::Missing),
    Case(Asking::Nothing, Holding::Denial, false, 2, Outcome::Failure(2)),
    // no question has an answer then
    Case(Asking::Nothing, Holding::AnsweredDenial, false, 0, Outcome::Missing),
];

fn cases() -> &'static [Case] {
    CASES
}

impl Row for Case {
    fn holds(&self, rt: &impl Abort, alloc: Global) -> bool {
        let mut message = Message::query(alloc);
        message.truncated = self.2;
        message.response_code = ResponseCode(self.3);
        fill(
            rt,
            alloc,
            &mut message,
            questions(self.0),
            records(self.1),
            60,
        );
        becomes(rt, alloc, message, self.4)
    }
}

#[test]
fn a_denial_is_whole_and_answers_no_question(rt: HostRuntime) {
    check_numbered(&rt, rt.alloc(), "answers", rows());
    check_numbered(&rt, rt.alloc(), "denials", cases());
}

//! Errors without what they might hold.
use crate::net_negative_tests::{Asked, Became, Held, fill, from_message};
use crate::parts::is_named;
use crate::rows::{Row, check_numbered};
use dns_handle::{DnsError, ForwardNSData, NetError};
use dns_message::Message;
use dns_model::Section;
use dns_record::{DNSClass, Record, ResponseCode};
use std::alloc::Global;
use std::process::Abort;

/// An SOA of the root, with a minimum of 30 seconds.
const SOA_RDATA: &[u8] = b"\0\0\0\0\0\x01\0\0\0\x02\0\0\0\x03\0\0\0\x04\0\0\0\x1e";

/// The name `ns.`.
const SERVER: &[u8] = b"\x02ns\0";

/// A referral that also denies: NS records, one of whose servers has addresses and one that can't be read; an SOA that can't be
/// read, and two that can; addresses of `ns.` in either case, and records that are none.
#[rattlefmt::skip]
const REFERRAL: &[Held] = &[
    Held(Section::Authority, "b.", 2, Some(60), SERVER),
    Held(Section::Authority, "c.", 6, Some(5), b""),
    Held(Section::Authority, "C.", 6, None, SOA_RDATA),
    Held(Section::Authority, "b.", 2, Some(60), b"\x02nt\0"),
    Held(Section::Authority, "d.", 2, Some(60), b""),
    Held(Section::Authority, "e.", 6, Some(1), SOA_RDATA),
    Held(Section::Additional, "ns.", 28, Some(60), b"0123456789abcdef"),
    Held(Section::Additional, "a.", 1, Some(60), b"addr"),
    Held(Section::Additional, "ns.", 16, Some(60), b"\0"),
    Held(Section::Additional, "NS.", 1, Some(60), b"addr"),
];

/// The questions of a response, its code, its records with the ttl of those without one, and what it becomes: question, ttl of
/// the SOA, how long it may be believed, and how many records of the authority section; if any, they refer.
struct Missing {
    asked: &'static [Asked],
    code: u16,
    records: &'static [Held],
    ttl: u32,
    name: &'static [u8],
    record_type: u16,
    soa: Option<u32>,
    negative_ttl: Option<u32>,
    authorities: usize,
}

const BARE: Missing = Missing {
    asked: &[("o.", 43)],
    code: 0,
    records: &[],
    ttl: 0,
    name: b"\x01o\0",
    record_type: 43,
    soa: None,
    negative_ttl: None,
    authorities: 0,
};

const REFERRED: Missing = Missing {
    asked: &[("a.b.", 16)],
    code: 3,
    records: REFERRAL,
    ttl: 60,
    name: b"\x01a\x01b\0",
    record_type: 16,
    soa: Some(60),
    negative_ttl: Some(30),
    authorities: 6,
};

const ROWS: &[Missing] = &[
    BARE,
    REFERRED,
    Missing {
        code: 0,
        ttl: 10,
        soa: Some(10),
        negative_ttl: Some(10),
        ..REFERRED
    },
    // where there is no question, it is the root's addresses
    Missing {
        asked: &[],
        name: b"\0",
        record_type: 1,
        ..BARE
    },
    // the first of more questions
    Missing {
        asked: &[("x.", 1), ("y.", 1)],
        code: 3,
        name: b"\x01x\0",
        record_type: 1,
        ..BARE
    },
];

fn rows() -> &'static [Missing] {
    ROWS
}

/// The SOA is `C.`'s with this ttl, or there is none.
pub(crate) fn has_soa(soa: &Option<Record>, ttl: Option<u32>) -> bool {
    match soa {
        Some(soa) => is_named(&soa.name, b"\x01C\0") && Some(soa.ttl) == ttl,
        None => ttl.is_none(),
    }
}

fn is_glue(glue: &[Record]) -> bool {
    match glue {
        [one, other] => {
            is_named(&one.name, b"\x02ns\0")
                && one.record_type.0 == 28
                && is_named(&other.name, b"\x02NS\0")
                && other.record_type.0 == 1
        }
        _ => false,
    }
}

/// The servers of `REFERRAL`.
fn are_servers(servers: &[ForwardNSData]) -> bool {
    match servers {
        [one, two, three] => {
            is_named(&one.ns.name, b"\x01b\0")
                && is_glue(&one.glue)
                && is_named(&two.ns.name, b"\x01b\0")
                && two.glue.is_empty()
                && is_named(&three.ns.name, b"\x01d\0")
                && three.glue.is_empty()
        }
        _ => false,
    }
}

fn is_missing(became: &Became, row: &Missing) -> bool {
    match became {
        Err(DnsError::NoRecordsFound(missing)) => {
            is_named(&missing.query.name, row.name)
                && missing.query.query_type.0 == row.record_type
                && missing.query.query_class == DNSClass::IN
                && missing.response_code.0 == row.code
                && has_soa(&missing.soa, row.soa)
                && missing.negative_ttl == row.negative_ttl
                && missing.authorities.len() == row.authorities
                && missing.ns.is_empty() == row.records.is_empty()
                && (missing.ns.is_empty() || are_servers(&missing.ns))
        }
        _ => false,
    }
}

/// What becomes of the row's response.
fn became_of(rt: &impl Abort, alloc: Global, row: &Missing) -> Became {
    let mut message = Message::query(alloc);
    message.response_code = ResponseCode(row.code);
    fill(rt, alloc, &mut message, row.asked, row.records, row.ttl);
    from_message(rt, alloc, message)
}

impl Row for Missing {
    fn holds(&self, rt: &impl Abort, alloc: Global) -> bool {
        let became = became_of(rt, alloc, self);
        is_missing(&became, self)
    }
}

#[test]
fn no_records_keep_what_the_server_said(rt: HostRuntime) {
    check_numbered(&rt, rt.alloc(), "missing", rows());
}

/// The error that a referral becomes.
pub(crate) fn denied_by_referral(rt: &impl Abort, alloc: Global) -> NetError {
    let denied = became_of(rt, alloc, &REFERRED).err();
    NetError::from(denied.expect(rt, "a denial"))
}

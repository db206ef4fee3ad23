//! Errors of the network with their texts.
use crate::net_missing_tests::{denied_by_referral, has_soa};
use crate::parts::{name, query, response, shows};
use crate::rows::{Row, check_numbered};
use dns_handle::{DnsError, IoKind, NetError, NoRecords, Notice, ProtoError};
use dns_message::{DecodeError, DecodeKind, Message};
use dns_model::Proof;
use dns_record::{DNSClass, NoMemory, RecordType, ResponseCode, Text};
use std::alloc::Global;
use std::process::Abort;

/// An error of each kind.
#[derive(Clone, Copy)]
enum Sample {
    Busy,
    Code(u16),
    Bogus,
    Fixed(Notice),
    NoConnections,
    Undecoded(DecodeKind),
    TooLong,
    Outside(IoKind),
    Timeout,
    Case,
    Truncated,
    NoMemory,
    /// No records of a name and a type, by a code, with nothing beside.
    Missing(&'static str, u16, u16),
    /// No records of `a.b. TXT`, as a referral says.
    Referred,
    Denied,
    OwnText,
    Foreign,
}

/// What an error tells.
#[derive(Clone, Copy)]
enum Tells {
    Nothing,
    /// There are no records, by NXDOMAIN.
    NameMissing,
    /// There are no records, by NOERROR.
    TypeMissing,
    /// There are no records, by NXDOMAIN, with the SOA of a referral.
    Referral,
    NoMemory,
    /// A connection is gone.
    Closed,
}

/// An error, what it tells, and its text.
struct Shown(Sample, Tells, &'static str);

#[rattlefmt::skip]
const SHOWN: &[Shown] = &[
    Shown(Sample::Busy, Tells::Nothing, "resource too busy"),
    Shown(Sample::Code(5), Tells::Nothing, "DNS error: error response: 5"),
    Shown(Sample::Code(3), Tells::Nothing, "DNS error: error response: 3"),
    Shown(Sample::Missing("o\\.g.\\128-.", 48, 3), Tells::NameMissing, "DNS error: no records found for o\\.g.\\128-. IN DNSKEY"),
    Shown(Sample::Missing("a.b.", 16, 3), Tells::NameMissing, "DNS error: no records found for a.b. IN TXT"),
    Shown(Sample::Missing("a.b.", 16, 0), Tells::TypeMissing, "DNS error: no records found for a.b. IN TXT"),
    Shown(Sample::Referred, Tells::Referral, "DNS error: no records found for a.b. IN TXT"),
    Shown(Sample::Denied, Tells::Nothing, "DNS error: DNSSEC Negative Record Response for o\\.g.\\128-. IN DNSKEY, Bogus"),
    Shown(Sample::Bogus, Tells::Nothing, "DNS error: DNSSEC validation failed"),
    Shown(Sample::Fixed(Notice::ExpiredRrsig), Tells::Nothing, "ExpiredRrsig"),
    Shown(Sample::Fixed(Notice::WrongDnskey), Tells::Nothing, "WrongDnskey"),
    Shown(Sample::Fixed(Notice::WrongRrsig), Tells::Nothing, "WrongRrsig"),
    Shown(Sample::Fixed(Notice::NoQueryInRequest), Tells::Nothing, "no query in request"),
    Shown(Sample::Fixed(Notice::ExceededMaxValidationDepth), Tells::Nothing, "exceeded max validation depth"),
    Shown(Sample::Fixed(Notice::ExceededMaxNestedQueries), Tells::Nothing, "exceeded max nested queries"),
    Shown(Sample::Fixed(Notice::IdSpaceExhausted), Tells::Nothing, "id space exhausted, consider filing an issue"),
    Shown(Sample::Fixed(Notice::SendQueueFull), Tells::Nothing, "send queue full"),
    Shown(Sample::Fixed(Notice::PolledAfterCompletion), Tells::Nothing, "polled after completion"),
    Shown(Sample::Fixed(Notice::NotAllBytesSent), Tells::Nothing, "not all bytes of message sent"),
    Shown(Sample::Fixed(Notice::TransferHasTrailingRecords), Tells::Nothing, "invalid zone transfer, contains trailing records"),
    Shown(Sample::Fixed(Notice::TransferIsIncremental), Tells::Nothing, "invalid zone transfer, expected AXFR, got IXFR"),
    Shown(Sample::Fixed(Notice::HistoryFull), Tells::Nothing, "history full"),
    Shown(Sample::OwnText, Tells::Nothing, "the pool is closed"),
    Shown(Sample::NoConnections, Tells::Nothing, "no connections available"),
    Shown(Sample::Undecoded(DecodeKind::Short), Tells::Nothing, "protocol error: Short 12"),
    Shown(Sample::Undecoded(DecodeKind::NoMemory), Tells::NoMemory, "out of memory"),
    Shown(Sample::TooLong, Tells::Nothing, "protocol error: TooLong"),
    // five kinds of faults outside say that a connection is gone, and one is `Timeout`
    Shown(Sample::Outside(IoKind::PermissionDenied), Tells::Nothing, "io error: PermissionDenied"),
    Shown(Sample::Outside(IoKind::ConnectionRefused), Tells::Nothing, "io error: ConnectionRefused"),
    Shown(Sample::Outside(IoKind::ConnectionReset), Tells::Closed, "io error: ConnectionReset"),
    Shown(Sample::Outside(IoKind::ConnectionAborted), Tells::Closed, "io error: ConnectionAborted"),
    Shown(Sample::Outside(IoKind::NotConnected), Tells::Closed, "io error: NotConnected"),
    Shown(Sample::Outside(IoKind::AddrInUse), Tells::Nothing, "io error: AddrInUse"),
    Shown(Sample::Outside(IoKind::AddrNotAvailable), Tells::Nothing, "io error: AddrNotAvailable"),
    Shown(Sample::Outside(IoKind::BrokenPipe), Tells::Closed, "io error: BrokenPipe"),
    Shown(Sample::Outside(IoKind::InvalidData), Tells::Nothing, "io error: InvalidData"),
    Shown(Sample::Outside(IoKind::TimedOut), Tells::Nothing, "request timed out"),
    Shown(Sample::Outside(IoKind::UnexpectedEof), Tells::Closed, "io error: UnexpectedEof"),
    Shown(Sample::Outside(IoKind::RequestTooLong), Tells::Nothing, "io error: RequestTooLong"),
    Shown(Sample::Outside(IoKind::Other), Tells::Nothing, "io error: Other"),
    Shown(Sample::Timeout, Tells::Nothing, "request timed out"),
    Shown(Sample::Case, Tells::Nothing, "case of query name in response did not match"),
    Shown(Sample::Foreign, Tells::Nothing, "foreign class record in response: . CH TYPE65534"),
    Shown(Sample::Truncated, Tells::Nothing, "response was truncated; TCP already tried or no other transport available"),
    Shown(Sample::NoMemory, Tells::NoMemory, "out of memory"),
];

fn shown_rows() -> &'static [Shown] {
    SHOWN
}

/// An error that holds nothing; another sample is taken for `NoMemory`.
fn plain(sample: Sample) -> NetError {
    match sample {
        Sample::Busy => NetError::Busy,
        Sample::Code(code) => NetError::from(DnsError::ResponseCode(ResponseCode(code))),
        Sample::Bogus => NetError::from(DnsError::DnssecBogus),
        Sample::Fixed(notice) => NetError::from(notice),
        Sample::NoConnections => NetError::NoConnections,
        Sample::Undecoded(kind) => NetError::from(DecodeError { kind, offset: 12 }),
        Sample::TooLong => NetError::from(ProtoError::TooLong),
        Sample::Outside(kind) => NetError::from(kind),
        Sample::Timeout => NetError::Timeout,
        Sample::Case => NetError::QueryCaseMismatch,
        Sample::Truncated => NetError::Truncated,
        _ => NetError::from(NoMemory),
    }
}

fn missing(rt: &impl Abort, alloc: Global, text: &str, record_type: u16, code: u16) -> NetError {
    let query = query(rt, alloc, text, record_type);
    NetError::from(NoRecords::new(alloc, query, ResponseCode(code)))
}

fn denied(rt: &impl Abort, alloc: Global) -> NetError {
    let response = response(alloc, Message::query(alloc));
    NetError::from(DnsError::Nsec {
        query: query(rt, alloc, "o\\.g.\\128-.", 48),
        response: Box::new(alloc, response).expect(rt, "memory"),
        proof: Proof::Bogus,
    })
}

fn foreign(rt: &impl Abort, alloc: Global) -> NetError {
    NetError::ForeignClassRecord {
        record_name: name(rt, alloc, "."),
        record_class: DNSClass::CH,
        record_type: RecordType(65534),
    }
}

fn error_of(rt: &impl Abort, alloc: Global, sample: Sample) -> NetError {
    match sample {
        Sample::Missing(text, record_type, code) => missing(rt, alloc, text, record_type, code),
        Sample::Referred => denied_by_referral(rt, alloc),
        Sample::Denied => denied(rt, alloc),
        Sample::OwnText => NetError::from(Text::from_str(alloc, "the pool is closed").expect(
            rt, "memory",
        )),
        Sample::Foreign => foreign(rt, alloc),
        _ => plain(sample),
    }
}

fn is_told(error: &NetError, want: Tells) -> bool {
    error.is_nx_domain() == matches!(want, Tells::NameMissing | Tells::Referral)
        && error.is_no_records_found()
            == matches!(
                want,
                Tells::NameMissing | Tells::TypeMissing | Tells::Referral
            )
        && error.is_no_memory() == matches!(want, Tells::NoMemory)
        && error.is_connection_closed() == matches!(want, Tells::Closed)
}

fn soa_is(error: NetError, want: Tells) -> bool {
    let soa = error.into_soa();
    match want {
        Tells::Referral => has_soa(&soa, Some(60)),
        _ => soa.is_none(),
    }
}

/// The error tells this and has no other SOA than it says, and both it and its copy show the text.
impl Row for Shown {
    fn holds(&self, rt: &impl Abort, alloc: Global) -> bool {
        let error = error_of(rt, alloc, self.0);
        let copy = error.try_clone().expect(rt, "memory");
        let held = is_told(&error, self.1)
            && shows(rt, alloc, &error, self.2)
            && shows(rt, alloc, &copy, self.2);
        soa_is(error, self.1) && held
    }
}

#[test]
fn errors_show_their_texts(rt: HostRuntime) {
    check_numbered(&rt, rt.alloc(), "shown", shown_rows());
}

//! The status that goes with an answer, by the marks of its records and by its denial.
use crate::given::{answer_of, query_of};
use dns_handle::{DnsError, IoKind, NetError, ProtoError};
use dns_model::{Denial, Proof};
use dns_query_answer::{answer_status, write_answer};
use dns_record::{NoMemory, ResponseCode};
use std::alloc::Global;

const S: Proof = Proof::Secure;

const I: Proof = Proof::Insecure;

const B: Proof = Proof::Bogus;

const N: Proof = Proof::Indeterminate;

/// The type that is asked for, the types and marks of the answer section's records, what is denied, and the status.
struct Row(u16, &'static [(u16, Proof)], Denial, u8);

#[rattlefmt::skip]
const GIVEN: &[Row] = &[
    Row(1, &[(1, S)], Denial::None, 0),
    Row(1, &[(1, S), (46, S)], Denial::None, 0),
    Row(1, &[(1, S), (46, N)], Denial::None, 0),
    Row(1, &[(46, B), (1, S), (46, I)], Denial::None, 0),
    Row(1, &[(1, S)], Denial::Expanded(S), 0),
    Row(1, &[], Denial::Absent(S), 0),
    Row(1, &[(46, B)], Denial::Absent(S), 0),
    Row(1, &[(1, I)], Denial::None, 1),
    Row(1, &[(5, S), (1, I)], Denial::None, 1),
    Row(1, &[(5, I), (1, S), (46, S)], Denial::None, 1),
    Row(1, &[], Denial::Absent(I), 1),
    Row(1, &[(1, S)], Denial::Expanded(I), 1),
    Row(1, &[(1, B)], Denial::None, 3),
    Row(1, &[(1, N)], Denial::None, 3),
    Row(1, &[(1, S), (1, N)], Denial::None, 3),
    Row(1, &[(5, I), (1, B)], Denial::None, 3),
    Row(1, &[(5, B), (1, I)], Denial::None, 3),
    Row(1, &[(5, B), (1, S)], Denial::Expanded(S), 3),
    Row(1, &[], Denial::Absent(B), 3),
    Row(1, &[], Denial::Absent(N), 3),
    Row(1, &[(1, S)], Denial::Expanded(B), 3),
    // nothing counts
    Row(1, &[], Denial::None, 3),
    Row(1, &[(46, S)], Denial::None, 3),
    // signatures are asked for
    Row(46, &[(46, S)], Denial::None, 0),
    Row(46, &[(46, S), (46, N)], Denial::None, 3),
    Row(46, &[(5, S), (46, I)], Denial::None, 1),
];

/// The same, where the denial of this mark is refused.
#[rattlefmt::skip]
const REFUSED: &[(&[(u16, Proof)], Proof, u8)] = &[
    (&[], B, 3),
    (&[], N, 3),
    (&[], I, 1),
    (&[(1, S)], I, 1),
    (&[(1, S), (46, S)], B, 3),
    (&[(1, B)], I, 3),
    (&[(1, N)], I, 3),
    (&[(46, B)], I, 1),
];

// The status of an answer with these records.
fn given_status(alloc: Global, row: &Row) -> Result<u8, NoMemory> {
    let query = query_of(alloc, row.0)?;
    let reply = Ok(answer_of(alloc, row.1, row.2)?);
    Ok(answer_status(&query, &reply))
}

// The status where the denial of this mark is refused.
fn refused_status(alloc: Global, records: &[(u16, Proof)], proof: Proof) -> Result<u8, NoMemory> {
    let query = query_of(alloc, 1)?;
    let answer = answer_of(alloc, records, Denial::None)?;
    let error = DnsError::Nsec {
        query: query_of(alloc, 1)?,
        response: Box::new(alloc, answer)?,
        proof,
    };
    let reply = Err(NetError::Dns(error));
    Ok(answer_status(&query, &reply))
}

#[test]
fn the_worst_of_what_counts_is_the_status(rt: HostRuntime) {
    let alloc = rt.alloc();
    for (number, row) in GIVEN.iter().enumerate() {
        let held = matches!(given_status(alloc, row), Ok(status) if status == row.3);
        assert!(rt; held, "given {number}");
    }
    for (number, row) in REFUSED.iter().enumerate() {
        let held = matches!(refused_status(alloc, row.0, row.1), Ok(status) if status == row.2);
        assert!(rt; held, "refused {number}");
    }
}

// An error, by its number.
fn error_of(number: u8) -> NetError {
    match number {
        0 => NetError::Timeout,
        1 => NetError::Busy,
        2 => NetError::NoConnections,
        3 => NetError::Truncated,
        4 => NetError::Io(IoKind::ConnectionRefused),
        5 => NetError::Dns(DnsError::ResponseCode(ResponseCode(5))),
        6 => NetError::Dns(DnsError::ResponseCode(ResponseCode(23))),
        7 => NetError::Proto(ProtoError::TooLong),
        8 => NetError::QueryCaseMismatch,
        9 => NetError::Dns(DnsError::DnssecBogus),
        _ => NetError::NoMemory,
    }
}

/// The status of each such error, and what is written of it.
#[rattlefmt::skip]
const ERRORS: &[(u8, u8, &[u8])] = &[
    (0, 4, b"no answer: the server didn't answer in time\n"),
    (1, 4, b"no answer: the server was busy\n"),
    (2, 4, b"no answer: no connection can be made\n"),
    (3, 4, b"no answer: the reply was truncated\n"),
    (4, 4, b"no answer: fault io ConnectionRefused\n"),
    (5, 4, b"no answer: the server answered with REFUSED\n"),
    (6, 4, b"no answer: the server answered with code 23\n"),
    (7, 4, b"no answer: fault proto TooLong\n"),
    (8, 4, b"no answer: fault case\n"),
    (9, 3, b"Bogus: validation failed\n"),
    (10, 6, b""),
];

// Whether an error has this status and this text.
fn is_told(alloc: Global, row: &(u8, u8, &[u8])) -> Result<bool, NoMemory> {
    let query = query_of(alloc, 1)?;
    let reply = Err(error_of(row.0));
    let text = write_answer(alloc, &query, 0, &[], &reply)?;
    Ok(answer_status(&query, &reply) == row.1 && *text.as_slice() == *row.2)
}

#[test]
fn an_error_is_named(rt: HostRuntime) {
    let alloc = rt.alloc();
    for row in ERRORS {
        assert!(rt; matches!(is_told(alloc, row), Ok(true)), "error {}", row.0);
    }
}

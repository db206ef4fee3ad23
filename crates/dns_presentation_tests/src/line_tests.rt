//! Records as lines of a master file (RFC 1035, 5; RFC 3597, 5; RFC 4034; RFC 5155).
use crate::rows::{GENERIC, OF_DNSPYTHON, OF_RFCS, OF_THE_ROOT, Told};
use dns_model::Proof;
use dns_presentation::presentation;
use dns_record::{DNSClass, Name, NoMemory, Rdata, Record, RecordType};
use std::alloc::Global;
use std::process::Abort;

// The record with this rdata.
fn record_of(alloc: Global, told: &Told, octets: &[u8]) -> Option<Record> {
    if octets.len() > Rdata::MAX_LEN {
        return None;
    }
    let name = Name::from_ascii(alloc, told.0).ok()?;
    let rdata = Rdata::from_slice(alloc, octets).ok()?;
    Some(Record {
        name,
        record_type: RecordType(told.3),
        dns_class: DNSClass(told.2),
        ttl: told.1,
        rdata,
        proof: Proof::Indeterminate,
    })
}

// Whether a record's line is this one.
fn is_line(alloc: Global, line: &str, told: &Told) -> bool {
    let Some(record) = record_of(alloc, told, told.4) else {
        return false;
    };
    match presentation(alloc, &record) {
        Ok(text) => *text.as_slice() == *line.as_bytes(),
        Err(_) => false,
    }
}

fn check_lines(rt: &impl Abort, alloc: Global, rows: &[(&str, Told)]) {
    for row in rows {
        assert!(rt; is_line(alloc, row.0, &row.1), "{}", row.0);
    }
}

#[test]
fn records_of_the_rfcs_have_their_lines(rt: HostRuntime) {
    check_lines(&rt, rt.alloc(), OF_RFCS);
}

#[test]
fn records_have_the_lines_that_dnspython_writes(rt: HostRuntime) {
    check_lines(&rt, rt.alloc(), OF_DNSPYTHON);
}

#[test]
fn other_shapes_stand_as_their_bytes(rt: HostRuntime) {
    check_lines(&rt, rt.alloc(), GENERIC);
}

#[test]
fn keys_of_the_root_have_the_lines_that_are_shipped(rt: HostRuntime) {
    check_lines(&rt, rt.alloc(), OF_THE_ROOT);
}

/// As an array of a function it would be dear to prove.
const PIECE: &[u8] = &[0xab; 255];

/// The line of a type without a form, up to the first byte of the longest rdata.
const LONGEST: &[u8] = b". 0 IN TYPE65280 \\# 65535 ab";

fn longest_octets(alloc: Global) -> Result<Vec<u8>, NoMemory> {
    let mut octets = Vec::new(alloc);
    for _ in 0..257 {
        octets.extend_from_slice(PIECE)?;
    }
    Ok(octets)
}

// Whether a record of 65,535 bytes has its line: two digits for each of them.
fn is_written(alloc: Global) -> bool {
    let Ok(octets) = longest_octets(alloc) else {
        return false;
    };
    let Some(record) = record_of(alloc, &Told(".", 0, 1, 65280, b""), &octets) else {
        return false;
    };
    match presentation(alloc, &record) {
        Ok(text) => {
            text.as_slice().starts_with(LONGEST) && text.len() == LONGEST.len() + 2 * 65534
        }
        Err(_) => false,
    }
}

#[test]
fn the_longest_rdata_has_a_line(rt: HostRuntime) {
    assert!(rt; is_written(rt.alloc()), "65,535 bytes");
}

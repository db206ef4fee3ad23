//! What lines say, and which are refused (RFC 1035, 5; RFC 3597, 5; RFC 4034; RFC 4291, 2.2; RFC 5155, 3.3; RFC 8659, 4.1.1).
use crate::rows::{OF_RFCS, Read, SHIPPED, SPELLED};
use dns_master_file::{LineError, RecordLine, Refusal, read_line};
use dns_record::{Name, NoMemory};
use std::alloc::Global;
use std::process::Abort;

// Whether a line that was read says this.
fn is_read(alloc: Global, line: &RecordLine, read: &Read) -> bool {
    let Ok(name) = Name::from_ascii(alloc, read.0) else {
        return false;
    };
    line.name.eq_case(&name)
        && line.ttl == read.1
        && line.dns_class.0 == read.2
        && line.record_type.0 == read.3
        && *line.rdata.as_slice() == *read.4
}

// Whether a line says this.
fn says(alloc: Global, line: &str, read: &Read) -> bool {
    match read_line(alloc, line.as_bytes()) {
        Ok(Some(found)) => is_read(alloc, &found, read),
        _ => false,
    }
}

fn check_lines(rt: &impl Abort, alloc: Global, rows: &[(&str, Read)]) {
    for row in rows {
        assert!(rt; says(alloc, row.0, &row.1), "{}", row.0);
    }
}

#[test]
fn shipped_keys_and_digests_of_the_root_are_read(rt: HostRuntime) {
    check_lines(&rt, rt.alloc(), SHIPPED);
}

#[test]
fn lines_of_rfcs_are_read(rt: HostRuntime) {
    check_lines(&rt, rt.alloc(), OF_RFCS);
}

#[test]
fn lines_say_what_dnspython_reads(rt: HostRuntime) {
    check_lines(&rt, rt.alloc(), SPELLED);
}

/// Lines that say nothing.
const BLANK: &[&str] = &["", " \t ", "\r", "; a comment", " ;x", ";"];

// Whether a line says nothing.
fn is_blank(alloc: Global, line: &str) -> bool {
    match read_line(alloc, line.as_bytes()) {
        Ok(None) => true,
        _ => false,
    }
}

#[test]
fn blank_lines_and_comments_say_nothing(rt: HostRuntime) {
    for line in BLANK {
        assert!(rt; is_blank(rt.alloc(), *line), "{line}");
    }
}

/// Each refusal, with the line and the column of what is wrong, which is the byte under the mark.
#[rattlefmt::skip]
const REFUSED: &[(&str, Refusal, usize)] = &[
    (" 60 IN NS ns.", Refusal::NoOwner, 1),
    ("$TTL 3600", Refusal::Directive, 1),
    ("a. 60 IN NS ( ns. )", Refusal::Bracket, 13),
    ("a. 60 IN DS 1 8 2 0a (", Refusal::Bracket, 22),
    ("a.", Refusal::MissingWord, 3),
    ("a. 60", Refusal::MissingWord, 6),
    ("a. 60 IN", Refusal::MissingWord, 9),
    ("a. 60 IN MX 10", Refusal::MissingWord, 15),
    ("a. 60 IN MX 10 ; no exchange", Refusal::MissingWord, 16),
    ("a. 60 IN TYPE7 \\#", Refusal::MissingWord, 18),
    ("a. 60 IN NS ns. x", Refusal::ExtraWord, 17),
    ("a. 60 IN NS \"ns.\"", Refusal::QuotedWord, 13),
    ("\"a.\" 60 IN NS ns.", Refusal::QuotedWord, 1),
    ("a..b 60 IN NS ns.", Refusal::BadName, 1),
    ("@ 60 IN NS ns.", Refusal::BadName, 1),
    ("a. 60 IN NS @", Refusal::BadName, 13),
    ("a. 60 IN NS a\\256b.", Refusal::BadName, 13),
    ("a. 60 in NS ns.", Refusal::BadClass, 7),
    ("a. 4294967296 IN NS ns.", Refusal::BadClass, 4),
    ("a. NS ns.", Refusal::BadClass, 4),
    ("a. 60 IN NSX ns.", Refusal::BadType, 10),
    ("a. 60 IN TYPE65536 \\# 0", Refusal::BadType, 10),
    ("a. 60 IN MX 65536 ns.", Refusal::BadNumber, 13),
    ("a. 60 IN MX 010 ns.", Refusal::BadNumber, 13),
    ("a. 60 IN DS 1 256 2 0a", Refusal::BadNumber, 15),
    ("a. 60 IN TYPE7 \\# x", Refusal::BadNumber, 19),
    ("a. 60 IN DS 1 8 2 0a b", Refusal::BadDigits, 19),
    ("a. 60 IN DS 1 8 2", Refusal::BadDigits, 18),
    ("a. 60 IN NSEC3PARAM 1 0 0 0g", Refusal::BadDigits, 27),
    ("a. 60 IN TYPE7 \\# 1 0g", Refusal::BadDigits, 21),
    ("a. 60 IN DNSKEY 257 3 8 AQI", Refusal::BadBase64, 25),
    ("a. 60 IN DNSKEY 257 3 8 ;AQID", Refusal::BadBase64, 25),
    ("a. 60 IN TYPE7 \\# 2 0a", Refusal::BadLength, 21),
    ("a. 60 IN TYPE7 \\# 0 0a", Refusal::BadLength, 21),
    ("a. 60 IN TYPE7 0a", Refusal::NoForm, 16),
    ("a. 60 CH NS ns.", Refusal::NoForm, 13),
];

/// Addresses and texts that are refused.
#[rattlefmt::skip]
const REFUSED_ADDRESSES: &[(&str, Refusal, usize)] = &[
    ("a. 60 IN A 192.0.2", Refusal::BadAddress, 12),
    ("a. 60 IN A 192.0.2.256", Refusal::BadAddress, 12),
    ("a. 60 IN A 192.0.2.01", Refusal::BadAddress, 12),
    ("a. 60 IN A 192.0.2.1.", Refusal::BadAddress, 12),
    ("a. 60 IN A 1.2.3.4.5", Refusal::BadAddress, 12),
    ("a. 60 IN A 0x1.2.3.4", Refusal::BadAddress, 12),
    ("a. 60 IN A 192.0.2.1 x", Refusal::ExtraWord, 22),
    ("a. 60 IN A", Refusal::MissingWord, 11),
    ("a. 60 IN A \"192.0.2.1\"", Refusal::QuotedWord, 12),
    ("a. 60 IN AAAA 1:2:3:4:5:6:7", Refusal::BadAddress, 15),
    ("a. 60 IN AAAA 1:2:3:4:5:6:7:8:9", Refusal::BadAddress, 15),
    ("a. 60 IN AAAA 1:2:3:4:5:6:7::8", Refusal::BadAddress, 15),
    ("a. 60 IN AAAA ::1::", Refusal::BadAddress, 15),
    ("a. 60 IN AAAA 12345::", Refusal::BadAddress, 15),
    ("a. 60 IN AAAA :1:2:3:4:5:6:7", Refusal::BadAddress, 15),
    ("a. 60 IN AAAA 1.2.3.4::", Refusal::BadAddress, 15),
    ("a. 60 IN AAAA ::1.2.3", Refusal::BadAddress, 15),
    ("a. 60 IN AAAA 1::g", Refusal::BadAddress, 15),
    ("a. 60 IN AAAA ::%1", Refusal::BadAddress, 15),
    ("a. 60 IN AAAA 192.0.2.1", Refusal::BadAddress, 15),
    ("a. 60 IN TXT", Refusal::MissingWord, 13),
    ("a. 60 IN TXT ", Refusal::MissingWord, 14),
    ("a. 60 IN TXT \"open", Refusal::OpenQuote, 14),
    ("a. 60 IN TXT a \"open\\\"", Refusal::OpenQuote, 16),
    ("a. 60 IN TXT a\\256", Refusal::BadEscape, 14),
    ("a. 60 IN TXT a b \"\\25\"", Refusal::BadEscape, 18),
    ("a. 60 IN TXT a\\", Refusal::BadEscape, 14),
    ("a. 60 IN TXT a ( b )", Refusal::Bracket, 16),
];

/// Rdata of RRSIG, CAA, NSEC and NSEC3 that are refused.
#[rattlefmt::skip]
const REFUSED_DNSSEC: &[(&str, Refusal, usize)] = &[
    ("a. 60 IN RRSIG A 5 3 86400 20230229000000 20240201000000 2642 b. AQ==", Refusal::BadTime, 28),
    ("a. 60 IN RRSIG A 5 3 86400 20240230000000 20240201000000 2642 b. AQ==", Refusal::BadTime, 28),
    ("a. 60 IN RRSIG A 5 3 86400 20240001000000 20240201000000 2642 b. AQ==", Refusal::BadTime, 28),
    ("a. 60 IN RRSIG A 5 3 86400 20241301000000 20240201000000 2642 b. AQ==", Refusal::BadTime, 28),
    ("a. 60 IN RRSIG A 5 3 86400 20240100000000 20240201000000 2642 b. AQ==", Refusal::BadTime, 28),
    ("a. 60 IN RRSIG A 5 3 86400 20240132000000 20240201000000 2642 b. AQ==", Refusal::BadTime, 28),
    ("a. 60 IN RRSIG A 5 3 86400 20240431000000 20240201000000 2642 b. AQ==", Refusal::BadTime, 28),
    ("a. 60 IN RRSIG A 5 3 86400 20240101240000 20240201000000 2642 b. AQ==", Refusal::BadTime, 28),
    ("a. 60 IN RRSIG A 5 3 86400 20240101006000 20240201000000 2642 b. AQ==", Refusal::BadTime, 28),
    ("a. 60 IN RRSIG A 5 3 86400 20240101000060 20240201000000 2642 b. AQ==", Refusal::BadTime, 28),
    ("a. 60 IN RRSIG A 5 3 86400 19691231235959 20240201000000 2642 b. AQ==", Refusal::BadTime, 28),
    ("a. 60 IN RRSIG A 5 3 86400 21060207062816 20240201000000 2642 b. AQ==", Refusal::BadTime, 28),
    ("a. 60 IN RRSIG A 5 3 86400 22000101000000 20240201000000 2642 b. AQ==", Refusal::BadTime, 28),
    ("a. 60 IN RRSIG A 5 3 86400 2024010100000x 20240201000000 2642 b. AQ==", Refusal::BadTime, 28),
    ("a. 60 IN RRSIG A 5 3 86400 2024010100000 20240201000000 2642 b. AQ==", Refusal::BadTime, 28),
    ("a. 60 IN RRSIG A 5 3 86400 4294967296 20240201000000 2642 b. AQ==", Refusal::BadTime, 28),
    ("a. 60 IN RRSIG A 5 3 86400 01 20240201000000 2642 b. AQ==", Refusal::BadTime, 28),
    ("a. 60 IN RRSIG A 5 3 86400 20240301000000 20230229000000 2642 b. AQ==", Refusal::BadTime, 43),
    ("a. 60 IN RRSIG AX 5 3 86400 20240301000000 20240201000000 2642 b. AQ==", Refusal::BadType, 16),
    ("a. 60 IN CAA 256 issue x", Refusal::BadNumber, 14),
    ("a. 60 IN CAA 0 is-sue x", Refusal::BadTag, 16),
    ("a. 60 IN CAA 0 issue", Refusal::MissingWord, 21),
    ("a. 60 IN CAA 0 issue x y", Refusal::ExtraWord, 24),
    ("a. 60 IN CAA 0 issue \"x", Refusal::OpenQuote, 22),
    ("a. 60 IN NSEC b. A AX", Refusal::BadType, 20),
    ("a. 60 IN NSEC b. A TYPE65536", Refusal::BadType, 20),
    ("a. 60 IN NSEC @ A", Refusal::BadName, 15),
    ("a. 60 IN NSEC3 1 0 0 - 2t7b4g4vsa5smi47k61mv5bv1a22boj A", Refusal::BadHash, 24),
    ("a. 60 IN NSEC3 1 0 0 - 2t7b4g4vsa5smi47k61mv5bv1a22bojr0 A", Refusal::BadHash, 24),
    ("a. 60 IN NSEC3 1 0 0 - 2t7b4g4vsa5smi47k61mv5bv1a22bojw A", Refusal::BadHash, 24),
    ("a. 60 IN NSEC3 1 0 0 - 2t7b4g4vsa5smi47k61mv5bv1a22boj- A", Refusal::BadHash, 24),
    ("a. 60 IN NSEC3 1 0 0 -", Refusal::MissingWord, 23),
    ("a. 60 IN NSEC3 1 0 0 - 2t7b4g4vsa5smi47k61mv5bv1a22bojr A B", Refusal::BadType, 59),
];

// Whether a line is refused so.
fn is_refused(alloc: Global, line: &str, refusal: Refusal, column: usize) -> bool {
    match read_line(alloc, line.as_bytes()) {
        Err(error) => error == LineError::Refused(refusal, column),
        Ok(_) => false,
    }
}

fn check_refused(rt: &impl Abort, alloc: Global, rows: &[(&str, Refusal, usize)]) {
    for row in rows {
        assert!(rt; is_refused(alloc, row.0, row.1, row.2), "{}", row.0);
    }
}

#[test]
fn each_refused_line_has_its_reason_and_column(rt: HostRuntime) {
    check_refused(&rt, rt.alloc(), REFUSED);
}

#[test]
fn each_refused_address_and_text_has_its_reason_and_column(rt: HostRuntime) {
    check_refused(&rt, rt.alloc(), REFUSED_ADDRESSES);
}

#[test]
fn each_refused_rdata_of_dnssec_has_its_reason_and_column(rt: HostRuntime) {
    check_refused(&rt, rt.alloc(), REFUSED_DNSSEC);
}

/// The line of a record up to its digits.
const FRONT: &[u8] = b". IN TLSA 3 0 0 ";

/// As an array of a function it would be dear to prove.
const DIGITS: &[u8] = &[b'a'; 256];

// A line of an rdata of 128 bytes for each piece, and three more.
fn long_line(alloc: Global, pieces: usize) -> Result<Vec<u8>, NoMemory> {
    let mut line = Vec::from_slice(alloc, FRONT)?;
    for _ in 0..pieces {
        line.extend_from_slice(DIGITS)?;
    }
    Ok(line)
}

// How a line of so many pieces is read: the size of the rdata, or 0 where it is too long.
fn size_of_long(alloc: Global, pieces: usize) -> Option<usize> {
    let line = long_line(alloc, pieces).ok()?;
    match read_line(alloc, &line) {
        Ok(Some(read)) => Some(read.rdata.as_slice().len()),
        Err(LineError::Refused(Refusal::LongRdata, 11)) => Some(0),
        _ => None,
    }
}

// A line with so many letters between these.
fn text_line(alloc: Global, front: &[u8], back: &[u8], size: usize) -> Result<Vec<u8>, NoMemory> {
    let mut line = Vec::from_slice(alloc, front)?;
    for _ in 0..size {
        line.push(b'a')?;
    }
    line.extend_from_slice(back)?;
    Ok(line)
}

// How many bytes the rdata of such a line has, or 0 where the letters are too many.
fn size_of_text(alloc: Global, front: &[u8], back: &[u8], size: usize) -> Option<usize> {
    let line = text_line(alloc, front, back, size).ok()?;
    match read_line(alloc, &line) {
        Ok(Some(read)) => Some(read.rdata.as_slice().len()),
        Err(LineError::Refused(Refusal::LongText, 10) | LineError::Refused(Refusal::BadTag, 12)) =>
            { Some(0) }
        _ => None,
    }
}

/// What stands before a text and after it, and the size of the rdata of a text of 255 bytes; one of 256 bytes is refused, or read.
const LONG_TEXTS: &[(&[u8], &[u8], usize, usize)] = &[
    (b". IN TXT ", b"", 256, 0),
    (b". IN TXT \"", b"\"", 256, 0),
    (b". IN CAA 0 ", b" \"\"", 257, 0),
    (b". IN CAA 0 a ", b"", 258, 259),
];

#[test]
fn a_text_of_255_bytes_is_read_and_a_longer_one_is_refused(rt: HostRuntime) {
    for row in LONG_TEXTS {
        assert!(rt;
            size_of_text(rt.alloc(), row.0, row.1, 255) == Some(row.2),
            "255"
        );
        assert!(rt;
            size_of_text(rt.alloc(), row.0, row.1, 256) == Some(row.3),
            "256"
        );
    }
}

#[test]
fn a_long_rdata_is_read_and_a_longer_one_is_refused(rt: HostRuntime) {
    assert!(rt;
        size_of_long(rt.alloc(), 511) == Some(65411),
        "65,411 bytes"
    );
    assert!(rt; size_of_long(rt.alloc(), 512) == Some(0), "65,539 bytes");
}

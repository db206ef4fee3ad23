//! Texts of trusted keys: those that Debian ships, and texts that are refused (RFC 1035, 5; RFC 4034, 2 and 5; RFC 7958).
use dns_master_file::{RecordLine, Refusal};
use dns_query_files::{AnchorsError, read_anchors, root_anchors};
use dns_rdata::key_tag;
use dns_record::NoMemory;
use std::alloc::Global;
use std::process::Abort;

/// `root.key` of Debian's package `dns-root-data` 2024071801.
#[rattlefmt::skip]
const ROOT_KEY: &[u8] = b". IN DNSKEY 257 3 8 AwEAAaz/tAm8yTn4Mfeh5eyI96WSVexTBAvkMgJzkKTOiW1vkIbzxeF3+/4RgWOq7HrxRixHlFlExOLAJr5emLvN7SWXgnLh4+B5xQlNVz8Og8kvArMtNROxVQuCaSnIDdD5LKyWbRd2n9WGe2R8PzgCmr3EgVLrjyBxWezF0jLHwVN8efS3rCj/EWgvIWgb9tarpVUDK/b58Da+sqqls3eNbuv7pr+eoZG+SrDK6nWeL3c6H5Apxz7LjVc1uTIdsIXxuOLYA4/ilBmSVIzuDWfdRUfhHdY6+cn8HFRm+2hM8AnXGXws9555KrUB5qihylGa8subX2Nn6UwNR1AkUTV74bU= ; keytag 20326\n. IN DNSKEY 257 3 8 AwEAAa96jeuknZlaeSrvyAJj6ZHv28hhOKkx3rLGXVaC6rXTsDc449/cidltpkyGwCJNnOAlFNKF2jBosZBU5eeHspaQWOmOElZsjICMQMC3aeHbGiShvZsx4wMYSjH8e7Vrhbu6irwCzVBApESjbUdpWWmEnhathWu1jo+siFUiRAAxm9qyJNg/wOZqqzL/dL/q8PkcRU5oUKEpUge71M3ej2/7CPqpdVwuMoTvoB+ZOT4YeGyxMvHmbrxlFzGOHOijtzN+u1TQNatX2XBuzZNQ1K+s2CXkPIZo7s6JgZyvaBevYtxPvYLw4z9mR7K2vaF18UYH9Z9GNUUeayffKC73PYc= ; keytag 38696\n";

/// `root.ds` of the same package.
#[rattlefmt::skip]
const ROOT_DS: &[u8] = b". IN DS 20326 8 2 E06D44B80B8F1D39A95C0B0D7C65D08458E880409BBC683457104237C7F8EC8D\n. IN DS 38696 8 2 683D2D0ACB8C9B712A1948B27F741219298D0A450D612C483AF444A4C0FB2B16\n";

/// The same keys among comments and blank lines, and without the last LF.
#[rattlefmt::skip]
const MIXED: &[u8] = b"; autotrust trust anchor file\n;;id: . 1\n\n \t\n.\t172800\tIN\tDNSKEY\t257 3 8 AwEAAQ== ;{id = 11, size = 8b} ;;state=2 [  VALID  ]\r\nexample. 1 IN DS 1 8 2 00";

// The records of a text, which is no longer than an input may be.
fn read(alloc: Global, text: &[u8]) -> Result<Vec<RecordLine>, AnchorsError> {
    if text.len() > 16_777_216 {
        return Err(AnchorsError::NoMemory);
    }
    read_anchors(alloc, text)
}

// The types and key tags of a text's records, in order; 0 in place of the tag of a DS.
fn tags_of(alloc: Global, text: &[u8]) -> Option<Vec<(u16, u16)>> {
    let lines = read(alloc, text).ok()?;
    let mut tags = Vec::new(alloc);
    for line in &lines {
        let tag = tag_of(line);
        tags.push((line.record_type.0, tag)).ok()?;
    }
    Some(tags)
}

fn tag_of(line: &RecordLine) -> u16 {
    if line.record_type.0 == 48 {
        key_tag(line.rdata.as_slice()).unwrap_or(0)
    } else {
        0
    }
}

// Whether these are the types and key tags of a text.
fn has_tags(alloc: Global, text: &[u8], expected: &[(u16, u16)]) -> bool {
    match tags_of(alloc, text) {
        Some(tags) => *tags.as_slice() == *expected,
        None => false,
    }
}

#[test]
fn what_debian_ships_is_read(rt: HostRuntime) {
    let alloc = rt.alloc();
    assert!(rt;
        has_tags(alloc, ROOT_KEY, &[(48, 20326), (48, 38696)]),
        "root.key"
    );
    assert!(rt; has_tags(alloc, ROOT_DS, &[(43, 0), (43, 0)]), "root.ds");
    assert!(rt; has_tags(alloc, MIXED, &[(48, 1803), (43, 0)]), "comments");
}

#[test]
fn the_keys_that_are_built_in_are_those_of_the_root(rt: HostRuntime) {
    assert!(rt;
        has_tags(rt.alloc(), root_anchors(), &[(48, 20326), (48, 38696)]),
        "key tags"
    );
}

/// Texts, and why they are refused.
#[rattlefmt::skip]
const REFUSED: &[(&str, AnchorsError)] = &[
    ("", AnchorsError::Empty),
    ("; no key\n\n", AnchorsError::Empty),
    (". IN NS a.\n", AnchorsError::NoAnchor(1)),
    (". CH DNSKEY \\# 5 0101030801\n", AnchorsError::NoAnchor(1)),
    ("\n. IN DNSKEY \\# 3 010103\n", AnchorsError::NoAnchor(2)),
    (". IN DS \\# 3 010103\n", AnchorsError::NoAnchor(1)),
    (". IN DS 1 8 2 00\n. IN DNSKEY 385 3 8 AwEAAQ== ; revoked\n", AnchorsError::NoAnchor(2)),
    (". IN DNSKEY 1 3 8 AwEAAQ== ; no zone key\n", AnchorsError::NoAnchor(1)),
    (". IN DNSKEY \\# 8 0101020803010001\n", AnchorsError::NoAnchor(1)),
    (". IN DS 1 8 2 00\n. IN DS 1 8 2 0\n. IN NS a.", AnchorsError::BadLine(2, Refusal::BadDigits, 15)),
    (". IN DNSKEY 257 3 8 AQI\n", AnchorsError::BadLine(1, Refusal::BadBase64, 21)),
    ("$TTL 5\n", AnchorsError::BadLine(1, Refusal::Directive, 1)),
];

// Whether a text is refused so.
fn is_refused(alloc: Global, text: &str, error: AnchorsError) -> bool {
    match read(alloc, text.as_bytes()) {
        Err(found) => found == error,
        Ok(_) => false,
    }
}

#[test]
fn each_text_that_is_none_of_keys_has_its_reason(rt: HostRuntime) {
    for row in REFUSED {
        assert!(rt; is_refused(rt.alloc(), row.0, row.1), "{}", row.0);
    }
}

/// A line of a digest.
const LINE: &[u8] =
    b"example.com. 3600 IN DS 12345 8 2 000102030405060708090a0b0c0d0e0f ; one of many\n";

// A text of so many such lines.
fn many_lines(alloc: Global, count: usize) -> Result<Vec<u8>, NoMemory> {
    let mut text = Vec::new(alloc);
    for _ in 0..count {
        text.extend_from_slice(LINE)?;
    }
    Ok(text)
}

// How many records so many lines are.
fn count_of(alloc: Global, count: usize) -> Option<usize> {
    let text = many_lines(alloc, count).ok()?;
    let lines = read(alloc, &text).ok()?;
    Some(lines.len())
}

#[test]
fn many_lines_of_keys_are_read(rt: HostRuntime) {
    assert!(rt; count_of(rt.alloc(), 10000) == Some(10000), "ten thousand");
}

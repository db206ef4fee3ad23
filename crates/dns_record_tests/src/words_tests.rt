//! The words of types and classes, and their numbers.
use crate::rows::{Row, check_held, check_rows};
use dns_record::{DNSClass, NoMemory, Octets, OpCode, RecordType, ResponseCode};
use dns_text::*;
use std::alloc::Global;

/// A type's or a class's number.
enum Code {
    Type(u16),
    Class(u16),
}

const CODES: &[(&str, Code)] = &[
    ("A", Code::Type(1)),
    ("AAAA", Code::Type(28)),
    ("NS", Code::Type(2)),
    ("CNAME", Code::Type(5)),
    ("PTR", Code::Type(12)),
    ("DNAME", Code::Type(39)),
    ("SOA", Code::Type(6)),
    ("MX", Code::Type(15)),
    ("AFSDB", Code::Type(18)),
    ("RT", Code::Type(21)),
    ("KX", Code::Type(36)),
    ("RP", Code::Type(17)),
    ("PX", Code::Type(26)),
    ("SRV", Code::Type(33)),
    ("NAPTR", Code::Type(35)),
    ("DS", Code::Type(43)),
    ("RRSIG", Code::Type(46)),
    ("NSEC", Code::Type(47)),
    ("DNSKEY", Code::Type(48)),
    ("NSEC3", Code::Type(50)),
    ("TXT", Code::Type(16)),
    ("OPT", Code::Type(41)),
    ("NSEC3PARAM", Code::Type(51)),
    ("IXFR", Code::Type(251)),
    ("AXFR", Code::Type(252)),
    ("ANY", Code::Type(255)),
    ("TYPE0", Code::Type(0)),
    ("TYPE3", Code::Type(3)),
    ("TYPE257", Code::Type(257)),
    ("TYPE65535", Code::Type(65535)),
    ("IN", Code::Class(1)),
    ("CH", Code::Class(3)),
    ("HS", Code::Class(4)),
    ("NONE", Code::Class(254)),
    ("ANY", Code::Class(255)),
    ("CLASS2", Code::Class(2)),
    ("CLASS65535", Code::Class(65535)),
];

impl Row for Code {
    /// The code is printed as the word, and read from it.
    fn holds(&self, alloc: Global, word: &str) -> bool {
        let word = word.as_bytes();
        let mut text = Vec::new(alloc);
        let held = match self {
            Code::Type(number) => {
                push_type(&mut text, RecordType(*number)) == Ok(())
                    && type_word_in(word) == Some(RecordType(*number))
            }
            Code::Class(number) => {
                push_class(&mut text, DNSClass(*number)) == Ok(())
                    && class_word_in(word) == Some(DNSClass(*number))
            }
        };
        held && *text.as_slice() == *word
    }
}

/// A code's number here, and its number in the registry.
struct Registered(u16, u16);

/// The opcodes (RFC 6895, 2.2; RFC 1996 for Notify, RFC 2136 for Update), and the response codes (RFC 6895, 2.3; RFC
/// 2136, 2.2, for 6 to 10; RFC 7873, 8, for the last).
const REGISTERED: &[(&str, Registered)] = &[
    ("Query", Registered(OpCode::QUERY.0 as u16, 0)),
    ("Notify", Registered(OpCode::NOTIFY.0 as u16, 4)),
    ("Update", Registered(OpCode::UPDATE.0 as u16, 5)),
    ("NoError", Registered(ResponseCode::NO_ERROR.0, 0)),
    ("FormErr", Registered(ResponseCode::FORM_ERR.0, 1)),
    ("ServFail", Registered(ResponseCode::SERV_FAIL.0, 2)),
    ("NXDomain", Registered(ResponseCode::NX_DOMAIN.0, 3)),
    ("NotImp", Registered(ResponseCode::NOT_IMP.0, 4)),
    ("Refused", Registered(ResponseCode::REFUSED.0, 5)),
    ("YXDomain", Registered(ResponseCode::YX_DOMAIN.0, 6)),
    ("YXRRSet", Registered(ResponseCode::YX_RR_SET.0, 7)),
    ("NXRRSet", Registered(ResponseCode::NX_RR_SET.0, 8)),
    ("NotAuth", Registered(ResponseCode::NOT_AUTH.0, 9)),
    ("NotZone", Registered(ResponseCode::NOT_ZONE.0, 10)),
    ("BADVERS", Registered(ResponseCode::BAD_VERS.0, 16)),
    ("BADSIG", Registered(ResponseCode::BAD_SIG.0, 16)),
    ("BADKEY", Registered(ResponseCode::BAD_KEY.0, 17)),
    ("BADTIME", Registered(ResponseCode::BAD_TIME.0, 18)),
    ("BADMODE", Registered(ResponseCode::BAD_MODE.0, 19)),
    ("BADNAME", Registered(ResponseCode::BAD_NAME.0, 20)),
    ("BADALG", Registered(ResponseCode::BAD_ALG.0, 21)),
    ("BADTRUNC", Registered(ResponseCode::BAD_TRUNC.0, 22)),
    ("BADCOOKIE", Registered(ResponseCode::BAD_COOKIE.0, 23)),
];

impl Row for Registered {
    fn holds(&self, _alloc: Global, _word: &str) -> bool {
        self.0 == self.1
    }
}

#[test]
fn numbers_of_codes(rt: HostRuntime) {
    check_rows(&rt, rt.alloc(), REGISTERED);
}

/// Words that are no class. `rows/lines.py` has those that are no type, number, name or bytes.
const NO_CLASSES: &[&str] = &["", "in", "CLASS1", "CLASS", "CLASS255"];

#[test]
fn words_of_types_and_classes(rt: HostRuntime) {
    check_rows(&rt, rt.alloc(), CODES);
    for word in NO_CLASSES {
        check_held(&rt, word, class_word_in(word.as_bytes()).is_none());
    }
}

/// The bytes that a word stands for, and the word that they are printed as.
struct Written(&'static [u8], &'static str);

const WRITTEN: &[(&str, Written)] = &[
    ("-", Written(b"", "-")),
    ("00fF", Written(b"\x00\xff", "00ff")),
    ("C0de", Written(b"\xc0\xde", "c0de")),
];

fn are_octets(read: Result<Option<Octets>, NoMemory>, want: &[u8]) -> bool {
    match read {
        Ok(Some(octets)) => *octets.as_slice() == *want,
        _ => false,
    }
}

impl Row for Written {
    fn holds(&self, alloc: Global, word: &str) -> bool {
        let mut text = Vec::new(alloc);
        push_octets(&mut text, self.0) == Ok(())
            && *text.as_slice() == *self.1.as_bytes()
            && are_octets(octets_in(alloc, word.as_bytes()), self.0)
    }
}

#[test]
fn words_of_bytes(rt: HostRuntime) {
    check_rows(&rt, rt.alloc(), WRITTEN);
}

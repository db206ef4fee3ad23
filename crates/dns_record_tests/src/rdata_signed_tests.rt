//! Signed texts, and views of rdata (RFC 4034, 3 to 5 and 6.3; RFC 5155, 3).
use crate::record_tests::{rdata, record};
use crate::rows::{Row, check_held, check_rows};
use dns_model::NameError;
use dns_rdata::{Dnskey, Ds, Ns, Nsec, Nsec3, RdataSet, Rrsig, SerialNumber, Soa, signed_data_of};
use dns_record::{DNSClass, Name, NoMemory, Octets, Rdata, Record, RecordType};
use std::alloc::Global;

/// The RRSIG rdata of a signature over the root's NS set: algorithm 13, valid from 900 to 2000, original ttl 3600.
const ROOT_SIG: &[u8] = b"\0\x02\x0d\0\0\0\x0e\x10\0\0\x07\xd0\0\0\x03\x84\xae\xc9\0\xc0\xde";

/// The same over an A set below `W.`, with one label.
const WILD_SIG: &[u8] =
    b"\0\x01\x0d\x01\0\0\x0e\x10\0\0\x07\xd0\0\0\x03\x84\xae\xc9\x01\x57\0\xc0\xde";

/// A set's owner, its type and rdatas, a signature, and the signed text.
struct Signed {
    owner: &'static str,
    record_type: u16,
    rdatas: &'static [&'static [u8]],
    sig: &'static [u8],
    want: &'static [u8],
}

const SIGNED: &[(&str, Signed)] = &[
    (
        "one record",
        Signed {
            owner: ".",
            record_type: 2,
            rdatas: &[b"\x01a\0"],
            sig: ROOT_SIG,
            want: b"\0\x02\x0d\0\0\0\x0e\x10\0\0\x07\xd0\0\0\x03\x84\xae\xc9\0\0\0\x02\0\x01\0\0\x0e\x10\0\x03\x01\x61\0",
        },
    ),
    (
        "lower-cased, equal records once, in rising order",
        Signed {
            owner: ".",
            record_type: 2,
            rdatas: &[b"\x01b\0", b"\x01A\0", b"\x01a\0", b"\0"],
            sig: ROOT_SIG,
            want: b"\0\x02\x0d\0\0\0\x0e\x10\0\0\x07\xd0\0\0\x03\x84\xae\xc9\0\0\0\x02\0\x01\0\0\x0e\x10\0\x01\0\0\0\x02\0\x01\0\0\x0e\x10\0\x03\x01\x61\0\0\0\x02\0\x01\0\0\x0e\x10\0\x03\x01\x62\0",
        },
    ),
    (
        "an owner that was expanded from a wildcard",
        Signed {
            owner: "X.W.",
            record_type: 1,
            rdatas: &[b"\xc0\0\x02\x01"],
            sig: WILD_SIG,
            want: b"\0\x01\x0d\x01\0\0\x0e\x10\0\0\x07\xd0\0\0\x03\x84\xae\xc9\x01\x77\0\x01\x2a\x01\x77\0\0\x01\0\x01\0\0\x0e\x10\0\x04\xc0\0\x02\x01",
        },
    ),
    (
        "the wildcard itself",
        Signed {
            owner: "*.W.",
            record_type: 1,
            rdatas: &[b"\xc0\0\x02\x01"],
            sig: WILD_SIG,
            want: b"\0\x01\x0d\x01\0\0\x0e\x10\0\0\x07\xd0\0\0\x03\x84\xae\xc9\x01\x77\0\x01\x2a\x01\x77\0\0\x01\0\x01\0\0\x0e\x10\0\x04\xc0\0\x02\x01",
        },
    ),
];

fn rdatas_of(alloc: Global, all: &[&[u8]]) -> Result<Vec<Rdata>, NoMemory> {
    let mut rdatas = Vec::new(alloc);
    for bytes in all {
        rdatas.push(rdata(alloc, bytes)?)?;
    }
    Ok(rdatas)
}

/// Whether they are these bytes.
pub(crate) fn are_octets(made: Result<Octets, NoMemory>, bytes: &[u8]) -> bool {
    match made {
        Ok(made) => *made.as_slice() == *bytes,
        Err(_) => false,
    }
}

fn is_signed(alloc: Global, row: &Signed, owner: &Name, rdatas: &[Rdata]) -> bool {
    let set = RdataSet {
        name: owner,
        record_type: RecordType(row.record_type),
        dns_class: DNSClass::IN,
        rdatas,
    };
    match Rrsig::read(row.sig) {
        Some(sig) => are_octets(signed_data_of(alloc, &set, &sig), row.want),
        None => false,
    }
}

fn is_signed_by(alloc: Global, row: &Signed) -> Result<bool, NameError> {
    let rdatas = rdatas_of(alloc, row.rdatas)?;
    let owner = Name::from_ascii(alloc, row.owner)?;
    Ok(is_signed(alloc, row, &owner, &rdatas))
}

impl Row for Signed {
    fn holds(&self, alloc: Global, _name: &str) -> bool {
        matches!(is_signed_by(alloc, self), Ok(true))
    }
}

/// The same clause says what `signed_data` gives for the rdatas of a set, which the rows of rows/ call.
#[test]
fn the_text_that_is_signed_is_the_standards(rt: HostRuntime) {
    check_rows(&rt, rt.alloc(), SIGNED);
}

/// A type's number, an rdata of its shape, and the place of the view that there is.
struct Viewed(u16, &'static [u8], usize);

const VIEWS: &[(&str, Viewed)] = &[
    ("RRSIG", Viewed(46, b"\0\x02\x0d\0aaaabbbbcccctt\0", 0)),
    ("DNSKEY", Viewed(48, b"\x01\x01\x03\x0d", 1)),
    ("DS", Viewed(43, b"\x01\x01\x03\x0d", 2)),
    ("NSEC", Viewed(47, b"\x01b\0\0\x01\x40", 3)),
    (
        "NSEC3",
        Viewed(50, b"\x01\x01\0\x0c\x02\xaa\xbb\x01\xcc\0\x01\x20", 4),
    ),
    (
        "SOA",
        Viewed(
            6,
            b"\0\x01r\0\0\0\0\x01\0\0\0\x02\0\0\0\x03\0\0\0\x04\0\0\0\x05",
            5,
        ),
    ),
    ("NS", Viewed(2, b"\x01b\0", 6)),
];

/// The view at this place is there, and no other.
fn is_only_view(from: &Record, place: usize) -> bool {
    Rrsig::of(from).is_some() == (place == 0)
        && Dnskey::of(from).is_some() == (place == 1)
        && Ds::of(from).is_some() == (place == 2)
        && Nsec::of(from).is_some() == (place == 3)
        && Nsec3::of(from).is_some() == (place == 4)
        && Soa::of(from).is_some() == (place == 5)
        && Ns::of(from).is_some() == (place == 6)
}

impl Row for Viewed {
    fn holds(&self, alloc: Global, _name: &str) -> bool {
        match record(alloc, ".", self.0, self.1) {
            Ok(from) => is_only_view(&from, self.2),
            Err(_) => false,
        }
    }
}

#[test]
fn views_read_their_own_type_alone(rt: HostRuntime) {
    check_rows(&rt, rt.alloc(), VIEWS);
}

/// The signature above.
fn sig_has_its_numbers() -> bool {
    match Rrsig::read(ROOT_SIG) {
        Some(sig) => {
            sig.type_covered == RecordType::NS
                && sig.labels == 0
                && sig.original_ttl == 3600
                && sig.expiration == SerialNumber(2000)
                && sig.inception == SerialNumber(900)
                && sig.key_tag == 44745
        }
        None => false,
    }
}

/// An SOA with the numbers from 1 to 5.
fn soa_has_its_numbers() -> bool {
    match Soa::read(b"\0\x01r\0\0\0\0\x01\0\0\0\x02\0\0\0\x03\0\0\0\x04\0\0\0\x05") {
        Some(soa) => {
            soa.serial == 1
                && soa.refresh == 2
                && soa.retry == 3
                && soa.expire == 4
                && soa.minimum == 5
        }
        None => false,
    }
}

#[test]
fn numbers_stand_in_their_places(rt: HostRuntime) {
    check_held(&rt, "RRSIG", sig_has_its_numbers());
    check_held(&rt, "SOA", soa_has_its_numbers());
}

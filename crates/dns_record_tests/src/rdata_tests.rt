//! Rdata: serial numbers, key tags, digests, shapes, canonical forms and bitmaps (RFC 1982; RFC 4034; RFC 4509; RFC
//! 6605).
use crate::rdata_signed_tests::are_octets;
use crate::rows::{NameRow, Row, check_held, check_names, check_rows};
use dns_rdata::{Nsec, SerialNumber, TypeSet, canonical_rdata, ds_covers, has_shape, key_tag};
use dns_record::{Name, RecordType};
use std::alloc::Global;
use std::cmp::Ordering;

/// Two numbers, and how they are ordered.
struct Serials(u32, u32, Option<Ordering>);

#[rattlefmt::skip]
const SERIALS: &[(&str, Serials)] = &[
    ("0 and 0", Serials(0, 0, Some(Ordering::Equal))),
    ("0 and 1", Serials(0, 1, Some(Ordering::Less))),
    ("1 and 0", Serials(1, 0, Some(Ordering::Greater))),
    ("0 and 2147483647", Serials(0, 2147483647, Some(Ordering::Less))),
    ("0 and 2147483648", Serials(0, 2147483648, None)),
    ("2147483648 and 0", Serials(2147483648, 0, None)),
    ("0 and 2147483649", Serials(0, 2147483649, Some(Ordering::Greater))),
    ("4294967290 and 10", Serials(4294967290, 10, Some(Ordering::Less))),
    ("10 and 4294967290", Serials(10, 4294967290, Some(Ordering::Greater))),
    ("4294967290 and 3", Serials(4294967290, 3, Some(Ordering::Less))),
    ("1000 and 2147484648", Serials(1000, 2147484648, None)),
    ("1000 and 2147484647", Serials(1000, 2147484647, Some(Ordering::Less))),
];

impl Row for Serials {
    fn holds(&self, _alloc: Global, _name: &str) -> bool {
        let (one, two) = (SerialNumber(self.0), SerialNumber(self.1));
        let comes_first = self.2 == Some(Ordering::Less) || self.2 == Some(Ordering::Equal);
        one.serial_cmp(two) == self.2 && one.at_or_before(two) == comes_first
    }
}

/// A moment before or past 2^32 seconds, and how far expiration 2000 lies ahead of it.
struct Moment(u64, u32);

const MOMENTS: &[(&str, Moment)] = &[
    ("before", Moment(1000, 1000)),
    ("at", Moment(2000, 0)),
    ("past", Moment(2001, 4294967295)),
    ("before, on the next turn", Moment(4294968296, 1000)),
];

impl Row for Moment {
    fn holds(&self, _alloc: Global, _name: &str) -> bool {
        SerialNumber::of_moment(self.0).distance_to(SerialNumber(2000)) == self.1
    }
}

#[test]
fn serial_numbers_and_moments_go_around_the_circle(rt: HostRuntime) {
    check_rows(&rt, rt.alloc(), SERIALS);
    check_rows(&rt, rt.alloc(), MOMENTS);
}

/// The key of RFC 4034, 5.4.
#[rattlefmt::skip]
const DSKEY: &[u8] =
    b"\x01\0\x03\x05\x01\x03\x9e\x8a\x24\x74\x18\xe3\x18\x90\x3b\x21\x5a\x84\x8a\xcf\xd5\xf3\x7f\x02\x6b\xd4\x06\x2d\xb2\x6c\x77\x4c\x69\x09\x68\xd5\xd5\x6d\xf8\xbf\xda\x91\xe6\xf3\x6d\x9a\x27\x98\x88\xf4\x13\x33\x35\x7c\x5e\x60\x29\x99\x0d\x10\xfd\xf5\x66\x30\x62\xa5\x12\x76\x33\x26\x98\x0a\x61\x5d\xdb\xf1\x7a\x05\xdd\xfc\xce\x7e\x5f\xb3\xab\xcc\xa0\x5a\x31\xb0\x95\x74\x52\xd4\x52\x1e\x83\x87\x07\x89\x06\x31\x15\xbf\x97\xf6\xc3\x08\xcc\xf5\x7c\xdc\x9c\xe7\xfe\x10\xf6\xed\x1b\xd0\xcc\x06\x60\x03\x8c\x50\xdc\xdb\x0f\xeb\x96\x3c\x2f\x17";

/// The key of RFC 6605, 6.2.
const EXAMPLE_KEY: &[u8] =
    b"\x01\x01\x03\x0e\xc4\xa6\x1a\x36\x15\x9d\x18\xe7\xc9\xfa\x73\xeb\x2f\xcf\xda\xae\x4c\x1f\xd8\x46\x37\x30\x32\x7e\x48\x4a\xca\x8a\xf0\x55\x4a\xe9\xb5\xc3\xf7\xa0\xb1\x7b\xd2\0\x3b\x4d\x26\x1c\x9e\x9b\x94\x42\x3a\x98\x10\xe8\xaf\x17\xd4\x34\x52\x12\x4a\xdb\x61\x0f\x8e\x07\xeb\xfc\xfe\xe5\xf8\xe4\xd0\x70\x63\xca\xe9\xeb\x91\x7a\x1a\x5b\xab\xf0\x8f\xe6\x95\x53\x60\x17\xa5\xbf\xa9\x32\x37\xee\x6e\x34";

/// A key and its tag: two told apart by the revoke flag, those of the standards, and what is too short.
struct Tagged(&'static [u8], Option<u16>);

const TAGS: &[(&str, Tagged)] = &[
    ("a key", Tagged(b"\x01\x01\x03\x0d\xaa\xbb", Some(44745))),
    (
        "a revoked key",
        Tagged(b"\x01\x81\x03\x0d\xaa\xbb", Some(44873)),
    ),
    ("RFC 4034, 5.4", Tagged(DSKEY, Some(60485))),
    ("RFC 6605, 6.2", Tagged(EXAMPLE_KEY, Some(10771))),
    ("three bytes", Tagged(b"\x01\x01\x03", None)),
    ("none", Tagged(b"", None)),
];

impl Row for Tagged {
    fn holds(&self, _alloc: Global, _name: &str) -> bool {
        key_tag(self.0) == self.1
    }
}

/// A key, a DS, and whether it covers the key of the row's owner.
struct Covered(&'static [u8], &'static [u8], bool);

#[rattlefmt::skip]
const COVERED: &[(&str, Covered)] = &[
    // RFC 4034, 5.4
    ("dskey.EXAMPLE.com.", Covered(DSKEY, b"\xec\x45\x05\x01\x2b\xb1\x83\xaf\x5f\x22\x58\x81\x79\xa5\x3b\x0a\x98\x63\x1f\xad\x1a\x29\x21\x18", true)),
    // RFC 4509, 2.3
    ("dskey.EXAMPLE.com.", Covered(DSKEY, b"\xec\x45\x05\x02\xd4\xb7\xd5\x20\xe7\xbb\x5f\x0f\x67\x67\x4a\x0c\xce\xb1\xe3\xe0\x61\x4b\x93\xc4\xf9\xe9\x9b\x83\x83\xf6\xa1\xe4\x46\x9d\xa5\x0a", true)),
    // RFC 6605, 6.2
    ("example.net.", Covered(EXAMPLE_KEY, b"\x2a\x13\x0e\x04\x72\xd7\xb6\x29\x76\xce\x06\x43\x8e\x9c\x0b\xf3\x19\x01\x3c\xf8\x01\xf0\x9e\xcc\x84\xb8\xd7\xe9\x49\x5f\x27\xe3\x05\xc6\xa9\xb0\x56\x3a\x9b\x5f\x4d\x28\x84\x05\xc3\0\x8a\x94\x6d\xf9\x83\xd6", true)),
    // another owner
    ("example.net.", Covered(DSKEY, b"\xec\x45\x05\x01\x2b\xb1\x83\xaf\x5f\x22\x58\x81\x79\xa5\x3b\x0a\x98\x63\x1f\xad\x1a\x29\x21\x18", false)),
    // a wrong digest
    ("dskey.EXAMPLE.com.", Covered(DSKEY, b"\xec\x45\x05\x01\x2b\xb1\x83\xaf\x5f\x22\x58\x81\x79\xa5\x3b\x0a\x98\x63\x1f\xad\x1a\x29\x21\x19", false)),
    // SHA-1 as SHA-256
    ("dskey.EXAMPLE.com.", Covered(DSKEY, b"\xec\x45\x05\x02\x2b\xb1\x83\xaf\x5f\x22\x58\x81\x79\xa5\x3b\x0a\x98\x63\x1f\xad\x1a\x29\x21\x18", false)),
    // SHA-1 as GOST R 34.11-94
    ("dskey.EXAMPLE.com.", Covered(DSKEY, b"\xec\x45\x05\x03\x2b\xb1\x83\xaf\x5f\x22\x58\x81\x79\xa5\x3b\x0a\x98\x63\x1f\xad\x1a\x29\x21\x18", false)),
    // no DS
    ("dskey.EXAMPLE.com.", Covered(DSKEY, b"\xec\x45\x05", false)),
];

impl NameRow for Covered {
    fn holds(&self, _alloc: Global, name: &Name) -> bool {
        ds_covers(name, self.0, self.1) == self.2
    }
}

#[test]
fn key_tags_and_digests_are_those_of_the_standard(rt: HostRuntime) {
    check_rows(&rt, rt.alloc(), TAGS);
    check_names(&rt, rt.alloc(), COVERED);
}

/// Types, an rdata of their shape with a further 0 behind it, and whether that still fits.
struct Shaped(&'static [u16], &'static [u8], bool);

#[rattlefmt::skip]
const SHAPES: &[(&str, Shaped)] = &[
    ("A", Shaped(&[1], b"\xc0\0\x02\x01\0", false)),
    ("NS, CNAME, PTR, DNAME", Shaped(&[2, 5, 12, 39], b"\x01\x61\0\0", false)),
    ("SOA", Shaped(&[6], b"\x01\x61\0\0\0\0\0\x01\0\0\0\x02\0\0\0\x03\0\0\0\x04\0\0\0\x05\0", false)),
    ("MX, AFSDB, RT, KX", Shaped(&[15, 18, 21, 36], b"\0\x0a\x01\x61\0\0", false)),
    ("RP", Shaped(&[17], b"\x01\x61\0\0\0", false)),
    ("PX", Shaped(&[26], b"\0\x0a\x01\x61\0\0\0", false)),
    ("AAAA", Shaped(&[28], b"\x20\x01\x0d\xb8\0\0\0\0\0\0\0\0\0\0\0\x01\0", false)),
    ("SRV", Shaped(&[33], b"\0\x01\0\x02\0\x03\x01\x61\0\0", false)),
    ("NAPTR", Shaped(&[35], b"\0\x01\0\x02\x01\x73\0\x02\x78\x79\x01\x61\0\0", false)),
    ("DS", Shaped(&[43], b"\xae\xc9\x0d\x02\0", true)),
    ("RRSIG", Shaped(&[46], b"\0\x02\x0d\0\0\0\x0e\x10\0\0\x07\xd0\0\0\x03\x84\xae\xc9\0\0", true)),
    ("NSEC", Shaped(&[47], b"\x01\x61\0\0\x01\x40\0", false)),
    ("DNSKEY", Shaped(&[48], b"\x01\x01\x03\x0d\0", true)),
    ("NSEC3", Shaped(&[50], b"\x01\0\0\x01\x01\xaa\x01\xbb\0\x01\x40\0", false)),
    ("NSEC of two windows", Shaped(&[47], b"\0\0\x01\x40\x01\x01\x20\0", false)),
];

/// A type's shape fits an rdata, not one a byte shorter, and one a byte longer where it may.
fn fits_whole(record_type: u16, longer: &[u8], may: bool) -> bool {
    let size = longer.len();
    let exact = &longer[..size.saturating_sub(1)];
    let shorter = &longer[..size.saturating_sub(2)];
    has_shape(RecordType(record_type), exact)
        && !has_shape(RecordType(record_type), shorter)
        && has_shape(RecordType(record_type), longer) == may
}

impl Row for Shaped {
    fn holds(&self, _alloc: Global, _name: &str) -> bool {
        for record_type in self.0 {
            if !fits_whole(*record_type, self.1, self.2) {
                return false;
            }
        }
        true
    }
}

#[test]
fn rdata_has_its_types_shape_and_no_byte_less_or_more(rt: HostRuntime) {
    check_rows(&rt, rt.alloc(), SHAPES);
    let are_opaque = has_shape(RecordType::TXT, b"") && has_shape(RecordType(65280), b"\xff");
    check_held(&rt, "TXT and 65280", are_opaque);
}

/// A type, an rdata, and its canonical form.
struct Lowered(u16, &'static [u8], &'static [u8]);

#[rattlefmt::skip]
const LOWERED: &[(&str, Lowered)] = &[
    ("NS", Lowered(2, b"\x01A\x02Bc\0", b"\x01a\x02bc\0")),
    ("MX", Lowered(15, b"\x4a\x5a\x01A\0", b"\x4a\x5a\x01a\0")),
    ("SOA", Lowered(6, b"\x01A\0\x01B\0AAAABBBBCCCCDDDDEEEE", b"\x01a\0\x01b\0AAAABBBBCCCCDDDDEEEE")),
    ("SRV", Lowered(33, b"AABBCC\x01D\0", b"AABBCC\x01d\0")),
    ("NAPTR", Lowered(35, b"AABB\x01S\x01T\x02RE\x01N\0", b"AABB\x01S\x01T\x02RE\x01n\0")),
    ("RRSIG", Lowered(46, b"AABBCCDDEEFFGGHHII\x01S\0SIG", b"AABBCCDDEEFFGGHHII\x01s\0SIG")),
    ("NSEC", Lowered(47, b"\x01A\0\0\x01\x40", b"\x01A\0\0\x01\x40")),
    ("MX cut off", Lowered(15, b"\0\x0a\x01A", b"\0\x0a\x01A")),
    ("MX with a byte more", Lowered(15, b"\0\x0a\x01A\0X", b"\0\x0a\x01A\0X")),
    ("TXT", Lowered(16, b"\x01A", b"\x01A")),
    ("NS of none", Lowered(2, b"", b"")),
];

impl Row for Lowered {
    fn holds(&self, alloc: Global, _name: &str) -> bool {
        are_octets(canonical_rdata(alloc, RecordType(self.0), self.1), self.2)
    }
}

#[test]
fn names_are_lowered_where_the_type_asks_it(rt: HostRuntime) {
    check_rows(&rt, rt.alloc(), LOWERED);
}

/// An NSEC whose next name is `a.`, whether its bitmap is one, and whether it has the types 1, 2 and 257.
struct Bitmap(&'static [u8], bool, (bool, bool, bool));

#[rattlefmt::skip]
const BITMAPS: &[(&str, Bitmap)] = &[
    ("none", Bitmap(b"\x01a\0", true, (false, false, false))),
    ("A", Bitmap(b"\x01a\0\0\x01\x40", true, (true, false, false))),
    ("NS", Bitmap(b"\x01a\0\0\x01\x20", true, (false, true, false))),
    ("two windows", Bitmap(b"\x01a\0\0\x01\x60\x01\x01\x40", true, (true, true, true))),
    ("windows that fall", Bitmap(b"\x01a\0\x01\x01\x40\0\x01\x40", false, (true, false, true))),
    ("a window twice", Bitmap(b"\x01a\0\0\x01\x40\0\x01\x40", false, (true, false, false))),
    ("a window of none", Bitmap(b"\x01a\0\0\0", false, (false, false, false))),
    ("a window of 33", Bitmap(b"\x01a\0\0\x21aaaaaaaaaaaaaaaaaaaaaaaaaaaaaaaaa", false, (false, false, false))),
    ("a window cut off", Bitmap(b"\x01a\0\0\x01\x40\x01", false, (false, false, false))),
];

impl Row for Bitmap {
    fn holds(&self, _alloc: Global, _name: &str) -> bool {
        let types = TypeSet::over(self.0.get(3..).unwrap_or_default());
        Nsec::read(self.0).is_some() == self.1
            && types.contains(RecordType::A) == self.2.0
            && types.contains(RecordType::NS) == self.2.1
            && types.contains(RecordType(257)) == self.2.2
    }
}

#[test]
fn a_bitmap_rises_window_by_window(rt: HostRuntime) {
    check_rows(&rt, rt.alloc(), BITMAPS);
}

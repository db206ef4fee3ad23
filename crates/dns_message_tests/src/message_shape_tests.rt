//! Messages with one record at the root: each type's shape, and the longest message.
use crate::message_tests::{Seen, is_seen, push};
use crate::rows::{Row, check_numbered};
use dns_message::DecodeKind;
use std::alloc::Global;
use std::process::Abort;

/// Whether a message with one answer at the root, which is this, comes to this.
fn comes_to(
    rt: &impl Abort,
    alloc: Global,
    record_type: u8,
    class: u8,
    rdata: &[u8],
    seen: Seen,
) -> bool {
    let size = (rdata.len() % 256) as u8;
    let mut bytes = Vec::new(alloc);
    push(rt, &mut bytes, b"\0\0\x80\0\0\0\0\x01\0\0\0\0\0\0");
    push(
        rt,
        &mut bytes,
        &[record_type, 0, class, 0, 0, 0, 0, 0, size],
    );
    push(rt, &mut bytes, rdata);
    is_seen(rt, alloc, &bytes, seen)
}

/// The rdata is refused at its first byte.
const BAD: Seen = Seen::Fault(DecodeKind::BadRdata, 23);

/// A type, an rdata of its shape that has no bytes to spare with a further 0 behind it, and whether that byte is taken.
struct Shape(u8, &'static [u8], bool);

#[rattlefmt::skip]
const SHAPES: &[Shape] = &[
    // A
    Shape(1, b"\xc0\0\x02\x01\0", false),
    // AAAA
    Shape(28, b"\x20\x01\x0d\xb8\0\0\0\0\0\0\0\0\0\0\0\x01\0", false),
    // NS
    Shape(2, b"\x01\x61\0\0", false),
    // CNAME
    Shape(5, b"\x01\x61\0\0", false),
    // PTR
    Shape(12, b"\x01\x61\0\0", false),
    // DNAME
    Shape(39, b"\x01\x61\0\0", false),
    // SOA
    Shape(6, b"\0\x01\x61\0\0\0\0\x01\0\0\0\x02\0\0\0\x03\0\0\0\x04\0\0\0\x05\0", false),
    // MX
    Shape(15, b"\0\x0a\x01\x61\0\0", false),
    // AFSDB
    Shape(18, b"\0\x01\x01\x61\0\0", false),
    // RT
    Shape(21, b"\0\x01\x01\x61\0\0", false),
    // KX
    Shape(36, b"\0\x01\x01\x61\0\0", false),
    // RP
    Shape(17, b"\0\x01\x61\0\0", false),
    // PX
    Shape(26, b"\0\x0a\0\x01\x61\0\0", false),
    // SRV
    Shape(33, b"\0\x01\0\x02\0\x03\x01\x61\0\0", false),
    // NAPTR
    Shape(35, b"\0\x01\0\x02\x01\x53\0\x01\x41\x01\x61\0\0", false),
    // DS
    Shape(43, b"\xae\xc9\x0d\x02\0", true),
    // RRSIG
    Shape(46, b"\0\x02\x0d\0\0\0\x0e\x10\0\0\x07\xd0\0\0\x03\x84\xae\xc9\x01\x61\0\0", true),
    // NSEC
    Shape(47, b"\x01\x61\0\0\x01\x40\x01\x01\x80\0", false),
    // DNSKEY
    Shape(48, b"\x01\x01\x03\x0d\0", true),
    // NSEC3
    Shape(50, b"\x01\0\0\x01\x02\xaa\xbb\x01\xcc\0\x01\x40\0", false),
];

fn shapes() -> &'static [Shape] {
    SHAPES
}

/// Taken without the zero, and written as it was read; refused one byte shorter, and with the zero taken only where the shape
/// ends in any bytes. In a class of another kind, and where it is empty, any rdata is taken.
impl Row for Shape {
    fn holds(&self, rt: &impl Abort, alloc: Global) -> bool {
        let exact = &self.1[..self.1.len().saturating_sub(1)];
        let short = &self.1[..self.1.len().saturating_sub(2)];
        let longer = if self.2 { Seen::Rdata(self.1) } else { BAD };
        comes_to(rt, alloc, self.0, 1, exact, Seen::Rdata(exact))
            && comes_to(rt, alloc, self.0, 1, exact, Seen::Same)
            && comes_to(rt, alloc, self.0, 3, short, Seen::Rdata(short))
            && comes_to(rt, alloc, self.0, 1, b"", Seen::Rdata(b""))
            && comes_to(rt, alloc, self.0, 1, short, BAD)
            && comes_to(rt, alloc, self.0, 1, self.1, longer)
    }
}

#[test]
fn each_type_in_its_shape(rt: HostRuntime) {
    check_numbered(&rt, rt.alloc(), "shapes", shapes());
}

/// The bytes of an rdata, those of the message, and what it comes to.
struct Long(u16, usize, Seen);

/// The longest message that can be written, read again (RFC 1035, 4.2.2), and one that is a byte longer.
const SIZES: &[Long] = &[
    Long(65_512, 65_535, Seen::Same),
    Long(65_513, 65_536, Seen::TooLong),
];

/// The message has one root record of an opaque type.
impl Row for Long {
    fn holds(&self, rt: &impl Abort, alloc: Global) -> bool {
        let mut bytes = Vec::new(alloc);
        push(
            rt,
            &mut bytes,
            b"\0\0\0\0\0\0\0\x01\0\0\0\0\0\xff\0\0\x01\0\0\0\0",
        );
        push(rt, &mut bytes, &self.0.to_be_bytes());
        bytes.resize(self.1.min(70_000), 7u8).expect(rt, "memory");
        is_seen(rt, alloc, &bytes, self.2)
    }
}

#[test]
fn longest_message(rt: HostRuntime) {
    check_numbered(&rt, rt.alloc(), "sizes", SIZES);
}

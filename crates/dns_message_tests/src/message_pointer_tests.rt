//! Names with compression pointers: rows of pointers, and each pointer at a place, with what exactly is read (RFC 1035, 4.1.4).
use crate::message_tests::{Seen, is_seen, push};
use crate::rows::check_row;
use dns_message::DecodeKind;
use std::alloc::Global;
use std::process::Abort;

/// An opaque rdata with the name `a.` and 1,000 pointers, each to the one before, the first to that name; then a record whose
/// owner is a pointer to the last.
fn row_is_read(rt: &impl Abort, alloc: Global) -> bool {
    let mut bytes = Vec::new(alloc);
    push(
        rt,
        &mut bytes,
        b"\0\0\x80\0\0\0\0\x02\0\0\0\0\0\xff\0\0\x03\0\0\0\0\x07\xd3\x01\x61\0",
    );
    for i in 0..=1000u16 {
        let target = if i == 0 { 23 } else { 24 + 2 * i };
        push(rt, &mut bytes, &(49152 + target % 16384).to_be_bytes());
    }
    push(rt, &mut bytes, &[255, 0, 0, 3, 0, 0, 0, 0, 0, 0]);
    is_seen(rt, alloc, &bytes, Seen::Owner(b"\x01a\0"))
}

/// A message with a pointer at a place, and what it comes to: for each of the first targets a letter, which is a for the first
/// that is seen, and for all other targets.
struct Pointed {
    name: &'static str,
    /// The bytes before the pointer, and those behind it.
    before: &'static [u8],
    after: &'static [u8],
    first: &'static [u8],
    seen: &'static [Seen],
    others: Seen,
}

const POINTED: &[Pointed] = &[
    // the question's name; a target before it leaves two bytes for its type and class, and a record that is cut off
    Pointed {
        name: "the question",
        before: b"\0\0\x80\0\0\x01\0\x01\0\0\0\0",
        after: b"\0\0\x01\0\x01\xc0\x0c\0\x01\0\x01\0\0\x0e\x10\0\x04\xc0\0\x02\x01",
        first: b"aabaaaaaaaaa",
        seen: &[
            Seen::Fault(DecodeKind::Short, 33),
            Seen::Fault(DecodeKind::BadName, 2),
        ],
        others: Seen::Fault(DecodeKind::BadName, 12),
    },
    // the owner of an A record
    Pointed {
        name: "an owner",
        before: b"\0\0\x80\0\0\x01\0\x01\0\0\0\0\x01\x61\0\0\x01\0\x01",
        after: b"\0\x01\0\x01\0\0\x0e\x10\0\x04\xc0\0\x02\x01",
        first: b"aabaacadaaaaefaagag",
        seen: &[
            Seen::Owner(b"\0"),
            Seen::Fault(DecodeKind::BadName, 2),
            Seen::Owner(b"\x01\0\x01\0\0"),
            Seen::Owner(b"\x01\0\0"),
            Seen::Owner(b"\x01a\0"),
            Seen::Fault(DecodeKind::BadName, 13),
            Seen::Fault(DecodeKind::Short, 20),
        ],
        others: Seen::Fault(DecodeKind::BadName, 19),
    },
    // the end of the name in an NS record's rdata, behind a label
    Pointed {
        name: "an rdata",
        before: b"\0\0\x80\0\0\x01\0\x01\0\0\0\0\x01\x61\0\0\x01\0\x01\xc0\x0c\0\x02\0\x01\0\0\x0e\x10\0\x04\x01\x62",
        after: b"",
        first: b"aabaacadaaaaebaababebafadaabbab",
        seen: &[
            Seen::Rdata(b"\x01b\0"),
            Seen::Fault(DecodeKind::BadRdata, 31),
            Seen::Rdata(b"\x01b\x01\0\x01\0\0"),
            Seen::Rdata(b"\x01b\x01\0\0"),
            Seen::Rdata(b"\x01b\x01a\0"),
            Seen::Rdata(b"\x01b\x02\0\x01\0"),
        ],
        others: Seen::Fault(DecodeKind::BadRdata, 31),
    },
];

// The row's message with this pointer is what the row says.
fn is_read(rt: &impl Abort, alloc: Global, row: &Pointed, target: u16) -> bool {
    let seen = match row.first.get(usize::from(target)) {
        Some(letter) => {
            let place = usize::from(letter.wrapping_sub(b'a'));
            *row.seen.get(place).unwrap_or(&row.others)
        }
        None => row.others,
    };
    let mut bytes = Vec::new(alloc);
    push(rt, &mut bytes, row.before);
    push(rt, &mut bytes, &(49_152 | target).to_be_bytes());
    push(rt, &mut bytes, row.after);
    is_seen(rt, alloc, &bytes, seen)
}

// The first target that comes to something else than the row says.
fn first_other(rt: &impl Abort, alloc: Global, row: &Pointed) -> Option<u16> {
    for target in 0..16_384u16 {
        if !is_read(rt, alloc, row, target) {
            return Some(target);
        }
    }
    None
}

fn all_pointed() -> &'static [Pointed] {
    POINTED
}

#[test]
fn rows_of_pointers_and_every_pointer_at_a_place_are_read_so(rt: HostRuntime) {
    check_row(&rt, "1,000 pointers", row_is_read(&rt, rt.alloc()));
    for row in all_pointed() {
        let other = first_other(&rt, rt.alloc(), row);
        assert!(rt; other.is_none(), "{} to {other:?}", row.name);
    }
}

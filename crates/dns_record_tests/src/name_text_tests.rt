//! Names: how they are printed and read, and how long they may be (RFC 1035, 2.3.4 and 5.1).
use crate::name_tests::{is_name, is_text};
use crate::record_tests::is_shown;
use crate::rows::{NameRow, Row, check_names, check_rows};
use dns_model::NameError;
use dns_record::{Name, Octets};
use std::alloc::Global;

/// Four labels of 63 bytes, and one of 64.
const LONG: &str = "\
aaaaaaaaaaaaaaaaaaaaaaaaaaaaaaaaaaaaaaaaaaaaaaaaaaaaaaaaaaaaaaa.\
aaaaaaaaaaaaaaaaaaaaaaaaaaaaaaaaaaaaaaaaaaaaaaaaaaaaaaaaaaaaaaa.\
aaaaaaaaaaaaaaaaaaaaaaaaaaaaaaaaaaaaaaaaaaaaaaaaaaaaaaaaaaaaaaa.\
aaaaaaaaaaaaaaaaaaaaaaaaaaaaaaaaaaaaaaaaaaaaaaaaaaaaaaaaaaaaaaa.\
aaaaaaaaaaaaaaaaaaaaaaaaaaaaaaaaaaaaaaaaaaaaaaaaaaaaaaaaaaaaaaaa";

/// 128 labels of one byte.
const MANY: &str =
    "a.a.a.a.a.a.a.a.a.a.a.a.a.a.a.a.a.a.a.a.a.a.a.a.a.a.a.a.a.a.a.a.a.a.a.a.a.a.a.a.a.a.a.a.a.a.a.a.a.a.a.a.a.a.a.a.a.a.a.a.a.a.a.a.a.a.a.a.a.a.a.a.a.a.a.a.a.a.a.a.a.a.a.a.a.a.a.a.a.a.a.a.a.a.a.a.a.a.a.a.a.a.a.a.a.a.a.a.a.a.a.a.a.a.a.a.a.a.a.a.a.a.a.a.a.a.a.a.";

/// The part of a text from a byte to another.
fn part(text: &str, from: usize, to: usize) -> &str {
    text.get(from..to).unwrap_or_default()
}

/// The text of the longest name of labels of one byte: 127 of them.
pub(crate) fn longest() -> &'static str {
    part(MANY, 0, 254)
}

/// The wire form and the printed form of the name that the row's text gives.
struct Read(&'static [u8], &'static str);

#[rattlefmt::skip]
const READ: &[(&str, Read)] = &[
    (".", Read(b"\0", ".")),
    ("example", Read(b"\x07example\0", "example.")),
    ("Example.ORG.", Read(b"\x07Example\x03ORG\0", "Example.ORG.")),
    ("*.a", Read(b"\x01*\x01a\0", "*.a.")),
    ("\\065\\.\\\\b.", Read(b"\x04A.\\b\0", "A\\.\\\\b.")),
    ("\\a\\\"\\127", Read(b"\x03a\"\x7f\0", "a\"\\127.")),
    ("\\000\\255.x", Read(b"\x02\0\xff\x01x\0", "\\000\\255.x.")),
    ("a\\032b.c", Read(b"\x03a b\x01c\0", "a\\032b.c.")),
    ("a\\.", Read(b"\x02a.\0", "a\\..")),
    ("example.", Read(b"\x07example\0", "example.")),
    ("a.example.", Read(b"\x01a\x07example\0", "a.example.")),
    ("yljkjljk.a.example.", Read(b"\x08yljkjljk\x01a\x07example\0", "yljkjljk.a.example.")),
    ("Z.a.example.", Read(b"\x01Z\x01a\x07example\0", "Z.a.example.")),
    ("zABC.a.EXAMPLE.", Read(b"\x04zABC\x01a\x07EXAMPLE\0", "zABC.a.EXAMPLE.")),
    ("z.example.", Read(b"\x01z\x07example\0", "z.example.")),
    ("*.z.example.", Read(b"\x01*\x01z\x07example\0", "*.z.example.")),
    ("\\001.z.example.", Read(b"\x01\x01\x01z\x07example\0", "\\001.z.example.")),
    ("\\200.z.example.", Read(b"\x01\xc8\x01z\x07example\0", "\\200.z.example.")),
];

impl NameRow for Read {
    fn holds(&self, alloc: Global, name: &Name) -> bool {
        *name.wire() == *self.0
            && is_text(name.to_ascii(), self.1)
            && is_name(Name::from_bytes(alloc, self.1.as_bytes()).ok(), self.0)
            && matches!(is_shown(alloc, name, self.1), Ok(true))
    }
}

#[test]
fn texts_are_read(rt: HostRuntime) {
    check_names(&rt, rt.alloc(), READ);
}

/// Why the row's text gives no name.
struct Refused(NameError);

const REFUSED: &[(&str, Refused)] = &[
    ("", Refused(NameError::EmptyLabel)),
    ("..", Refused(NameError::EmptyLabel)),
    (".a", Refused(NameError::EmptyLabel)),
    ("a..b", Refused(NameError::EmptyLabel)),
    ("a..\\256", Refused(NameError::EmptyLabel)),
    ("a\\1", Refused(NameError::BadEscape)),
    ("a\\12.", Refused(NameError::BadEscape)),
    ("\\256", Refused(NameError::BadEscape)),
    ("a\\", Refused(NameError::BadEscape)),
    ("a b", Refused(NameError::BadEscape)),
    ("a\\ b", Refused(NameError::BadEscape)),
    ("a\u{e9}", Refused(NameError::BadEscape)),
    ("\\256..", Refused(NameError::BadEscape)),
];

impl Row for Refused {
    fn holds(&self, alloc: Global, text: &str) -> bool {
        Name::from_ascii(alloc, text).err() == Some(self.0)
            && Name::from_bytes(alloc, text.as_bytes()).err() == Some(self.0)
    }
}

#[test]
fn texts_are_refused(rt: HostRuntime) {
    check_rows(&rt, rt.alloc(), REFUSED);
}

/// What a part of a long text is: a text, a label in front of `z`, or a label that is put in front of a name with a
/// wire form of 253 bytes, by itself or as a text below that name.
enum Made {
    Text,
    Label,
    InFront,
    Below,
}

/// The long text, the part of it from a byte to another, and the size of its name's wire form or the error.
struct Limit(Made, &'static str, usize, usize, Result<usize, NameError>);

#[rattlefmt::skip]
const LIMITS: &[(&str, Limit)] = &[
    ("a label of 63", Limit(Made::Text, LONG, 0, 64, Ok(65))),
    ("one of 64", Limit(Made::Text, LONG, 256, 320, Err(NameError::LongLabel))),
    ("63, 63, 63 and 61", Limit(Made::Text, LONG, 0, 253, Ok(255))),
    ("63, 63, 63 and 62", Limit(Made::Text, LONG, 0, 254, Err(NameError::LongName))),
    ("64 behind four of 63", Limit(Made::Text, LONG, 0, 320, Err(NameError::LongLabel))),
    ("127 of one", Limit(Made::Text, MANY, 0, 254, Ok(255))),
    ("128 of one", Limit(Made::Text, MANY, 0, 256, Err(NameError::LongName))),
    ("a label of none", Limit(Made::Label, LONG, 0, 0, Err(NameError::EmptyLabel))),
    ("of 63", Limit(Made::Label, LONG, 256, 319, Ok(67))),
    ("of 64", Limit(Made::Label, LONG, 256, 320, Err(NameError::LongLabel))),
    ("one byte in front", Limit(Made::InFront, LONG, 0, 1, Ok(255))),
    ("none in front", Limit(Made::InFront, LONG, 0, 0, Err(NameError::EmptyLabel))),
    ("two in front", Limit(Made::InFront, LONG, 0, 2, Err(NameError::LongName))),
    ("one byte below", Limit(Made::Below, LONG, 0, 1, Ok(255))),
    ("none below", Limit(Made::Below, LONG, 0, 0, Err(NameError::EmptyLabel))),
    ("two below", Limit(Made::Below, LONG, 0, 2, Err(NameError::LongName))),
];

/// The name of this label, so many times, and the other label.
pub(crate) fn labelled(
    alloc: Global,
    label: &[u8],
    times: usize,
    last: &[u8],
) -> Result<Name, NameError> {
    let mut labels = Vec::new(alloc);
    for _ in 0..times {
        labels.push(Octets::from_slice(alloc, label)?)?;
    }
    labels.push(Octets::from_slice(alloc, last)?)?;
    Name::from_labels(alloc, labels.as_slice())
}

/// The name that is made of a label and a name with a wire form of 253 bytes.
fn joined(alloc: Global, made: &Made, label: &str) -> Result<Name, NameError> {
    let long = Name::from_ascii(alloc, part(LONG, 0, 251))?;
    match made {
        Made::InFront => long.prepend_label(label.as_bytes()),
        _ => Name::parse(alloc, label, Some(&long)),
    }
}

fn named(alloc: Global, made: &Made, text: &str) -> Result<Name, NameError> {
    match made {
        Made::Text => Name::from_ascii(alloc, text),
        Made::Label => labelled(alloc, text.as_bytes(), 1, b"z"),
        _ => joined(alloc, made, text),
    }
}

impl Row for Limit {
    fn holds(&self, alloc: Global, _name: &str) -> bool {
        match named(alloc, &self.0, part(self.1, self.2, self.3)) {
            Ok(name) => self.4 == Ok(name.wire().len()),
            Err(error) => self.4 == Err(error),
        }
    }
}

#[test]
fn limits_of_labels_and_names(rt: HostRuntime) {
    check_rows(&rt, rt.alloc(), LIMITS);
}

/// The wire forms of what the row's text gives below `Example.org`, and alone.
struct Below(&'static [u8], &'static [u8]);

#[rattlefmt::skip]
const BELOW: &[(&str, Below)] = &[
    ("www", Below(b"\x03www\x07Example\x03org\0", b"\x03www\0")),
    ("www.", Below(b"\x03www\0", b"\x03www\0")),
    (".", Below(b"\0", b"\0")),
    ("a\\.", Below(b"\x02a.\x07Example\x03org\0", b"\x02a.\0")),
    ("*.b", Below(b"\x01*\x01b\x07Example\x03org\0", b"\x01*\x01b\0")),
];

fn below_origin(alloc: Global, text: &str) -> Result<Name, NameError> {
    let origin = Name::from_ascii(alloc, "Example.org")?;
    Name::parse(alloc, text, Some(&origin))
}

impl Row for Below {
    fn holds(&self, alloc: Global, text: &str) -> bool {
        is_name(below_origin(alloc, text).ok(), self.0)
            && is_name(Name::parse(alloc, text, None).ok(), self.1)
    }
}

#[test]
fn texts_below_an_origin(rt: HostRuntime) {
    check_rows(&rt, rt.alloc(), BELOW);
}

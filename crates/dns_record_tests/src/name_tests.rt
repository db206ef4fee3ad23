//! Names: how they compare, their wire form and their labels (RFC 1035, 3.1; RFC 4034, 6.1).
use crate::rdata_signed_tests::are_octets;
use crate::rows::{NameRow, Row, check_held, check_names, check_rows};
use dns_record::{Name, NameRef, NoMemory, Octets, Text};
use std::alloc::Global;
use std::cmp::Ordering;
use std::hash::{DefaultHasher, Hash, Hasher};

/// Whether it is this text.
pub(crate) fn is_text(made: Result<Text, NoMemory>, text: &str) -> bool {
    match made {
        Ok(made) => made.as_str() == text,
        Err(_) => false,
    }
}

/// Whether it is the name of this wire form.
pub(crate) fn is_name(made: Option<Name>, wire: &[u8]) -> bool {
    match made {
        Some(name) => *name.wire() == *wire,
        None => false,
    }
}

pub(crate) fn hash_of<T: Hash>(value: &T) -> u64 {
    let mut state = DefaultHasher::new();
    value.hash(&mut state);
    state.finish()
}

/// A second name: how the row's name is ordered to it, whether the two have the same bytes, and whether the row's, a
/// zone, is at or above it.
struct Pair(&'static str, Ordering, bool, bool);

/// The last eight are nine names in canonical order.
#[rattlefmt::skip]
const PAIRS: &[(&str, Pair)] = &[
    ("ZABC.A.example", Pair("zABC.a.EXAMPLE", Ordering::Equal, false, true)),
    ("ZABC.A.example", Pair("ZABC.A.example.", Ordering::Equal, true, true)),
    ("a.example", Pair("zABC.a.EXAMPLE", Ordering::Less, false, true)),
    ("z.example", Pair("zABC.a.EXAMPLE", Ordering::Greater, false, false)),
    (".", Pair("a.", Ordering::Less, false, true)),
    ("a.", Pair(".", Ordering::Greater, false, false)),
    ("Example.", Pair("www.eXample.", Ordering::Less, false, true)),
    ("Example.", Pair("eXample.", Ordering::Equal, false, true)),
    ("ample.", Pair("www.example.", Ordering::Less, false, false)),
    ("b.", Pair("a.c.", Ordering::Less, false, false)),
    ("example.", Pair("a.example.", Ordering::Less, false, true)),
    ("a.example.", Pair("yljkjljk.a.example.", Ordering::Less, false, true)),
    ("yljkjljk.a.example.", Pair("Z.a.example.", Ordering::Less, false, false)),
    ("Z.a.example.", Pair("zABC.a.EXAMPLE.", Ordering::Less, false, false)),
    ("zABC.a.EXAMPLE.", Pair("z.example.", Ordering::Less, false, false)),
    ("z.example.", Pair("\\001.z.example.", Ordering::Less, false, true)),
    ("\\001.z.example.", Pair("*.z.example.", Ordering::Less, false, false)),
    ("*.z.example.", Pair("\\200.z.example.", Ordering::Less, false, false)),
];

/// They are equal, also as names lent and for a hasher, where neither comes first. A zone that isn't equal stands strictly above.
fn are_pair(one: &Name, two: &Name, row: &Pair) -> bool {
    let equal = row.1 == Ordering::Equal;
    one.cmp(two) == row.1
        && one.eq_case(two) == row.2
        && (one == two) == equal
        && (one.borrowed() == two.borrowed()) == equal
        && (hash_of(one) == hash_of(two)) == equal
        && one.zone_of(two) == row.3
        && one.borrowed().strictly_above(&two.borrowed()) == (row.3 && !equal)
}

impl NameRow for Pair {
    fn holds(&self, alloc: Global, name: &Name) -> bool {
        match Name::from_ascii(alloc, self.0) {
            Ok(two) => are_pair(name, &two, self),
            Err(_) => false,
        }
    }
}

#[test]
fn names_compare_with_case_folded_and_stand_below_zones(rt: HostRuntime) {
    check_names(&rt, rt.alloc(), PAIRS);
}

/// Bytes, and how many of them are left behind the row's name, if there is a name in front.
struct Front(&'static [u8], Option<usize>);

const FRONTS: &[(&str, Front)] = &[
    ("*.b\\.c.", Front(b"\x01*\x03b.c\0\x07", Some(1))),
    ("A.", Front(b"\x01A\0", Some(0))),
    (".", Front(b"\0", Some(0))),
    ("nothing", Front(b"", None)),
    ("no end", Front(b"\x01a", None)),
    ("a label of 64", Front(b"\x40a\0", None)),
    ("a pointer", Front(b"\x01a\xc0\0", None)),
];

/// Whether the whole of the bytes is a name, which it is exactly where nothing is left behind it.
fn is_whole(alloc: Global, row: &Front) -> bool {
    match Name::from_wire(alloc, row.0) {
        Ok(Some(name)) => is_name(Some(name), row.0) && row.1 == Some(0),
        Ok(None) => row.1 != Some(0),
        Err(_) => false,
    }
}

impl Row for Front {
    fn holds(&self, alloc: Global, text: &str) -> bool {
        let is_front = match NameRef::front(self.0) {
            Some((name, rest)) => self.1 == Some(rest.len()) && is_text(name.to_ascii(alloc), text),
            None => self.1.is_none(),
        };
        is_front && is_whole(alloc, self)
    }
}

#[test]
fn wire_forms_are_read(rt: HostRuntime) {
    check_rows(&rt, rt.alloc(), FRONTS);
}

/// A name's labels, those without a leading `*`, and the wire forms of its parent and its last two labels.
struct Counted(u8, u8, &'static [u8], &'static [u8]);

#[rattlefmt::skip]
const COUNTED: &[(&str, Counted)] = &[
    (".", Counted(0, 0, b"\0", b"\0")),
    ("a.", Counted(1, 1, b"\0", b"\x01a\0")),
    ("*.", Counted(1, 0, b"\0", b"\x01*\0")),
    ("*.B.c.", Counted(3, 2, b"\x01B\x01c\0", b"\x01B\x01c\0")),
    ("a.*.c.d.", Counted(4, 4, b"\x01*\x01c\x01d\0", b"\x01c\x01d\0")),
    ("*a.c.", Counted(2, 2, b"\x01c\0", b"\x02*a\x01c\0")),
];

impl NameRow for Counted {
    fn holds(&self, _alloc: Global, name: &Name) -> bool {
        name.label_count() == self.0
            && name.num_labels() == self.1
            && name.is_root() == (self.0 == 0)
            && name.is_wildcard() == (self.1 < self.0)
            && is_name(name.base_name().ok(), self.2)
            && is_name(name.trim_to(2).ok(), self.3)
    }
}

#[test]
fn labels_and_wildcards(rt: HostRuntime) {
    check_names(&rt, rt.alloc(), COUNTED);
    let root = Name::root(rt.alloc()).ok();
    check_held(&rt, "the root", is_name(root, b"\0"));
}

/// The name's wire form with A to Z as a to z.
struct Folded(&'static [u8]);

const FOLDED: &[(&str, Folded)] = &[("WwW.Ex-9", Folded(b"\x03www\x04ex-9\0"))];

pub(crate) fn folded_wire(alloc: Global, name: &Name) -> Result<Octets, NoMemory> {
    let mut bytes = Vec::new(alloc);
    name.push_folded(&mut bytes)?;
    Ok(Octets::from_vec(bytes))
}

impl NameRow for Folded {
    fn holds(&self, alloc: Global, name: &Name) -> bool {
        are_octets(folded_wire(alloc, name), self.0)
    }
}

#[test]
fn names_are_folded(rt: HostRuntime) {
    check_names(&rt, rt.alloc(), FOLDED);
}

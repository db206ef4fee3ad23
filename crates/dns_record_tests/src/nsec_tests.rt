//! Which NSEC record covers a name. `rows/verdicts.txt` has the verdicts (RFC 4035, 5.4).
use crate::record_tests::record;
use crate::rows::{NameRow, check_names};
use dns_denial::nsec_covering;
use dns_model::NameError;
use dns_rdata::NsecRecord;
use dns_record::Name;
use std::alloc::Global;

/// An NSEC record: its owner and its rdata.
type Told = (&'static str, &'static [u8]);

/// A record that can't be read fails its test by this error.
fn push_nsec(alloc: Global, records: &mut Vec<NsecRecord>, told: &Told) -> Result<(), NameError> {
    let from = record(alloc, told.0, 47, told.1)?;
    match NsecRecord::of(alloc, &from)? {
        Some(nsec) => Ok(records.push(nsec)?),
        None => Err(NameError::EmptyLabel),
    }
}

fn records_of(alloc: Global, all: &[Told]) -> Result<Vec<NsecRecord>, NameError> {
    let mut records = Vec::new(alloc);
    for told in all {
        push_nsec(alloc, &mut records, told)?;
    }
    Ok(records)
}

/// From `a.` to `z.`, with A.
const WIDE: Told = ("a.", b"\x01z\0\0\x01\x40");

/// Both of the first cover `m.`, and the second owner is the nearer one; the third's types say that `m.` lies below a
/// zone cut.
const BELOW: &[Told] = &[
    (".", b"\x01z\0\0\x01\x22"),
    ("l.", b"\x01n\0\0\x01\x40"),
    ("m.", b"\x01n\0\0\x01\x20"),
];

/// Records, and the number of the one that covers the row's name.
struct Nearest(&'static [Told], Option<u32>);

const COVERS: &[(&str, Nearest)] = &[
    (
        "m.",
        Nearest(&[WIDE, ("b.", b"\x01c\0\0\x01\x40")], Some(0)),
    ),
    ("m.", Nearest(&[WIDE, WIDE], Some(0))),
    ("m.", Nearest(&[], None)),
    ("m.", Nearest(BELOW, Some(1))),
    ("a.m.", Nearest(BELOW, None)),
];

impl NameRow for Nearest {
    fn holds(&self, alloc: Global, name: &Name) -> bool {
        match records_of(alloc, self.0) {
            Ok(records) => records.len() < 10 && nsec_covering(name, &records) == self.1,
            Err(_) => false,
        }
    }
}

#[test]
fn the_nearest_record_covers(rt: HostRuntime) {
    check_names(&rt, rt.alloc(), COVERS);
}

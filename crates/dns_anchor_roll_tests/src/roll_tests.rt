//! `roll`: `new`, and then `see` of each sighting in order, up to the first error.

use crate::counting::Counting;
use crate::parts::*;
use dns_anchor_roll::{RollError, Sighting, roll};
use dns_record::Name;
use std::alloc::Global;
use std::cell::Cell;
use std::process::Abort;

/// Sightings of two keys at these moments, signed by the first.
fn at_moments(rt: &impl Abort, alloc: Global, moments: &[u64]) -> Vec<Sighting> {
    let mut all = Vec::new(alloc);
    for moment in moments {
        let next = sighting(rt, alloc, *moment, &[K, N], &[(K, 3600)]);
        all.push(next).expect(rt, "memory");
    }
    all
}

/// What comes of sightings at these moments: the trusted keys, or the error.
fn comes_to(
    rt: &impl Abort,
    alloc: Global,
    moments: &[u64],
    want: &Result<&[&[u8]], RollError>,
) -> bool {
    let questions = Cell::new(0);
    let counting = Counting {
        questions: &questions,
    };
    let root = Name::root(alloc).expect(rt, "memory");
    let keys = rdatas_of(rt, alloc, &[K]);
    let sightings = at_moments(rt, alloc, moments);
    match roll(alloc, counting, root, keys, &sightings) {
        Ok(followed) => {
            let anchors = followed.anchors().expect(rt, "memory");
            match want {
                Ok(trusted) => are_anchors(rt, alloc, &anchors, trusted),
                Err(_) => false,
            }
        }
        Err(error) => match want {
            Ok(_) => false,
            Err(wanted) => error == *wanted,
        },
    }
}

#[test]
fn a_roll_takes_sightings_in_order(rt: HostRuntime) {
    let alloc = rt.alloc();
    check_row(&rt, "none", comes_to(&rt, alloc, &[], &Ok(&[K])));
    check_row(&rt, "due", comes_to(&rt, alloc, &[0, 1, D], &Ok(&[K, N])));
    check_row(
        &rt,
        "the same moment",
        comes_to(&rt, alloc, &[7, 7], &Ok(&[K])),
    );
    let falls = Err(RollError::Earlier { last: 9 });
    check_row(
        &rt,
        "a moment falls",
        comes_to(&rt, alloc, &[1, 9, 8, 2], &falls),
    );
}

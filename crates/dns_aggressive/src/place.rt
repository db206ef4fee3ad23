//! Where records stand: of one place only the newest is kept.
ghost use Rattle.std.specs.Prelude.{◌≡◌};
ghost use Rattle.std.specs.Ordering.{is_eq};
ghost use Rattle.dns_aggressive.specs.Lists.{place_of};
ghost use Rattle.dns_aggressive.specs.Places.{key_place, record_cmp};

use crate::kept::{Kept, KeptRecord};
use dns_record::{Name, RecordType};
use std::cmp::Ordering;

/// A record's zone and type, of an NSEC3 record its iterations and salt, and its owner, all lent.
type PlaceKey<'a> = (&'a Name, u16, u16, &'a [u8], &'a Name);

// The place of a record.
fn place_key<'a>(kept: &'a Kept) -> PlaceKey<'a>
    ensures { key_place result ≡ place_of kept.now }
{
    match &kept.item {
        KeptRecord::Nsec(nsec) => (&kept.zone, RecordType::NSEC.0, 0, &[], &nsec.owner),
        KeptRecord::Nsec3(nsec3) => (
            &kept.zone,
            RecordType::NSEC3.0,
            nsec3.iterations,
            nsec3.salt.as_slice(),
            &nsec3.owner,
        ),
    }
}

/// Which of two records comes first, by their places. Names are compared with A to Z folded.
pub(crate) fn compare_places(one: &Kept, two: &Kept) -> Ordering
    ensures { result ≡ record_cmp one.now two.now }
{
    place_key(one).cmp(&place_key(two))
}

/// Whether neither comes first.
pub(crate) fn have_one_place(one: &Kept, two: &Kept) -> bool
    ensures { result ≡ is_eq (record_cmp one.now two.now) }
{
    compare_places(one, two) == Ordering::Equal
}

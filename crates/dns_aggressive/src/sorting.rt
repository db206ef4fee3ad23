//! Positions of records by when these expire, those of one zone or of one group together.
ghost use Rattle.std.specs.Prelude.{◌≡◌, ◌+◌, ◌-◌, ◌<◌, ◌≤◌, ℕ, nat_le, length};
ghost use Rattle.std.specs.List.{filter};
ghost use Rattle.std.specs.Option.{option_copied};
ghost use Rattle.std.specs.Vec.{vec_capacity};
ghost use Rattle.dns_aggressive.specs.Orders.{AreInside};
ghost use Rattle.dns_aggressive.specs.Expiring.{expiry_cmp, group_at, group_in, group_of, AreSorted, HasAll, IsOrder, IsWith};

use crate::kept::{Kept, KeptRecord};
use crate::order::{Probe, passed, put_in, record_at};
use dns_denial::Nsec3Parameters;
use dns_record::{Name, RecordType};
use std::cmp::Ordering;

/// A group's zone and type, of NSEC3 records their iterations and salt, and a moment.
pub(crate) type ExpiryKey<'a> = (&'a Name, u16, u16, &'a [u8], u64);

/// Which records stand together, in the order in which they expire.
#[derive(Clone, Copy)]
pub(crate) enum Sorting {
    /// Those of one zone.
    ByZone,
    /// Those of one group.
    ByGroup,
}

/// The key of a group at a moment.
pub(crate) fn group_key<'a>(
    zone: &'a Name,
    way: Option<&Nsec3Parameters<'a>>,
    moment: u64,
) -> ExpiryKey<'a>
    ensures group { group_in result ≡ group_at zone.now (option_copied way.entry) }
    ensures moment { result.4 ≡ moment }
{
    match way {
        None => (zone, RecordType::NSEC.0, 0, &[], moment),
        Some(way) => (zone, RecordType::NSEC3.0, way.iterations, way.salt, moment),
    }
}

// The key of a record's group when the record expires.
fn expiry_key<'a>(kept: &'a Kept) -> ExpiryKey<'a>
    ensures group { group_in result ≡ group_of kept.now }
    ensures moment { result.4 ≡ kept.now.expires }
{
    match &kept.item {
        KeptRecord::Nsec(_) => (&kept.zone, RecordType::NSEC.0, 0, &[], kept.expires),
        KeptRecord::Nsec3(nsec3) => (
            &kept.zone,
            RecordType::NSEC3.0,
            nsec3.iterations,
            nsec3.salt.as_slice(),
            kept.expires,
        ),
    }
}

// Which of two records comes first.
fn compare(sorting: Sorting, one: &Kept, two: &Kept) -> Ordering
    ensures { result ≡ expiry_cmp sorting one.now two.now }
{
    match sorting {
        Sorting::ByZone => (&one.zone, one.expires).cmp(&(&two.zone, two.expires)),
        Sorting::ByGroup => expiry_key(one).cmp(&expiry_key(two)),
    }
}

// Records that don't come after this one.
#[derive(Drop)]
struct UpTo<'a> {
    sorting: Sorting,
    last: &'a Kept,
}

impl<'a> Probe for UpTo<'a> {
    ghost use Rattle.std.specs.Ordering.{is_le};
    ghost use Rattle.dns_aggressive.specs.Expiring.{expiry_cmp};

    ghost passes = { λ p k. is_le (expiry_cmp p.sorting k p.last.now) };

    fn is_passed(&self, kept: &Kept) -> bool {
        compare(self.sorting, kept, self.last) != Ordering::Greater
    }
}

/// Records of groups before this one, and those of this one that are dead at the moment.
#[derive(Drop)]
pub(crate) struct DeadIn<'a>(pub(crate) ExpiryKey<'a>);

impl<'a> Probe for DeadIn<'a> {
    ghost use Rattle.std.specs.Ordering.{is_le};
    ghost use Rattle.dns_aggressive.specs.Expiring.{moment_cmp};

    ghost passes = { λ p k. is_le (moment_cmp k p.0) };

    fn is_passed(&self, kept: &Kept) -> bool {
        expiry_key(kept).cmp(&self.0) != Ordering::Greater
    }
}

/// Puts a position where its record belongs.
pub(crate) fn sort_in(kept: &[Kept], order: &mut Vec<usize>, sorting: Sorting, position: usize)
    requires sorted { AreSorted (expiry_cmp sorting) kept.now order.old.items }
    requires inside { AreInside (length kept.now) order.old.items }
    requires within { position < length kept.now }
    requires room { length order.old.items < vec_capacity order.old }
    ensures sorted { AreSorted (expiry_cmp sorting) kept.now order.new.items }
    ensures with { IsWith order.old.items order.new.items position }
    ensures capacity { vec_capacity order.old ≤ vec_capacity order.new }
{
    let last = record_at(kept, position);
    let number = passed(kept, order, &UpTo { sorting, last });
    put_in(order, number, position);
}

/// Puts all positions from one on where their records belong.
pub(crate) fn sort_in_from(kept: &[Kept], order: &mut Vec<usize>, sorting: Sorting, from: usize)
    requires order { IsOrder (expiry_cmp sorting) kept.now from order.old.items }
    requires within { from ≤ length kept.now }
    requires room { length order.old.items + (length kept.now - from) ≤ vec_capacity order.old }
    ensures order { IsOrder (expiry_cmp sorting) kept.now (length kept.now) order.new.items }
    ensures all { (gone : ℕ) → gone ≤ from → HasAll gone from order.old.items → HasAll gone (length kept.now) order.new.items }
{
    for position in from..kept.len() {
        sort_in(kept, order, sorting, position);
    }
}

/// Takes out the positions before one.
pub(crate) fn let_go(order: &mut Vec<usize>, gone: usize)
    ensures { order.new.items ≡ filter (λ position. nat_le gone position) order.old.items }
{
    order.retain(|position| gone <= *position);
}

//! Positions of records in an order of these records, and where such an order is searched.
ghost use Rattle.std.specs.Prelude.{◌≡◌, ◌≤◌, ◌<◌, length};
ghost use Rattle.std.specs.List.{insert};
ghost use Rattle.std.specs.Vec.{vec_capacity};
ghost use Rattle.dns_aggressive.specs.Orders.{at, AreInside, IsFront, IsParted};

use crate::kept::Kept;
use crate::place::compare_places;
use std::cmp::Ordering;

/// The record at a position.
pub(crate) fn record_at<'a>(kept: &'a [Kept], position: usize) -> &'a Kept
    requires { position < length kept.now }
    ensures { result.now ≡ at kept.now position }
{
    &kept[position]
}

/// What the first records of an order pass, and no later one.
pub(crate) trait Probe {
    ghost use Rattle.std.specs.Prelude.{Bool};
    ghost use Rattle.dns_aggressive.specs.Records.{KeptValue};

    ghost passes: { Self → KeptValue → Bool };

    /// Whether a record is one of the first ones.
    fn is_passed(&self, kept: &Kept) -> bool
        ensures { result ≡ passes self.now kept.now };
}

/// How many positions of an order are of records that pass: a search, since these stand in front.
pub(crate) fn passed<P: Probe>(kept: &[Kept], order: &[usize], probe: &P) -> usize
    requires inside { AreInside (length kept.now) order.now }
    requires front { IsFront (P.passes probe.now) kept.now order.now }
    ensures { IsParted (P.passes probe.now) kept.now order.now result result }
{
    let mut low = 0;
    let mut high = order.len();
    'halves: while low < high {
        let middle = low + (high - low) / 2;
        if probe.is_passed(record_at(kept, order[middle])) {
            low = middle + 1;
        } else {
            high = middle;
        }
    }
    low
}

/// Records whose place comes before that of this one.
#[derive(Drop)]
pub(crate) struct BeforePlace<'a>(pub(crate) &'a Kept);

impl<'a> Probe for BeforePlace<'a> {
    ghost use Rattle.std.specs.Ordering.{is_lt};
    ghost use Rattle.dns_aggressive.specs.Places.{record_cmp};

    ghost passes = { λ p k. is_lt (record_cmp k p.0.now) };

    fn is_passed(&self, kept: &Kept) -> bool {
        compare_places(kept, self.0) == Ordering::Less
    }
}

/// Puts a position into an order that has room for it.
pub(crate) fn put_in(order: &mut Vec<usize>, number: usize, position: usize)
    requires room { length order.old.items < vec_capacity order.old }
    requires within { number ≤ length order.old.items }
    ensures items { order.new.items ≡ insert order.old.items number position }
    ensures capacity { vec_capacity order.old ≤ vec_capacity order.new }
{
    let _ = order.insert(number, position);
}

//! NSEC records that reach: their names go on behind the owner that comes next in their zone. True records of one moment never do;
//! where what stands next to a name doesn't cover it, only these may.
ghost use Rattle.std.specs.Prelude.{◌≡◌, ◌+◌, ◌-◌, ◌<◌, ◌≤◌, ◌&&◌, ◌||◌, ℕ, true, length};
ghost use Rattle.std.specs.List.{Contains};
ghost use Rattle.std.specs.Ordering.{is_le};
ghost use Rattle.std.specs.Vec.{vec_capacity};
ghost use Rattle.dns_model.specs.Names.{name_cmp, before};
ghost use Rattle.dns_aggressive.specs.declared.sorting.Sorting.TheVariants.{ByZone};
ghost use Rattle.dns_aggressive.specs.Expiring.{expiry_cmp, IsOrder};
ghost use Rattle.dns_aggressive.specs.Orders.{at, nth, nth_of, AreInside, IsPlaced};
ghost use Rattle.dns_aggressive.specs.Reaching.{reaches as reaches_in, AreReaching, IsZonePart};

use crate::kept::Kept;
use crate::order::{BeforePlace, passed, record_at};
use crate::sorting::{Sorting, sort_in};
use crate::zone_run::{BeforeZone, UpToZone};
use dns_rdata::NsecRecord;
use dns_record::NameRef;
use std::cmp::Ordering;

/// Whether the first name comes before the second in canonical order (RFC 4034, 6.1).
pub(crate) fn comes_before(one: &NameRef<'_>, two: &NameRef<'_>) -> bool
    ensures { result ≡ before one.now two.now }
{
    one.cmp_name(two) == Ordering::Less
}

/// Whether the next owner is no later than the owner (RFC 4034, 4.1.1).
pub(crate) fn leads_back(owner: &NameRef<'_>, next: &NameRef<'_>) -> bool
    ensures { result ≡ is_le (name_cmp next.now owner.now) }
{
    next.cmp_name(owner) != Ordering::Greater
}

// Whether the owner of the second record comes after that of the first, and the names of the first one go on behind it.
fn nsec_reaches(one: &NsecRecord, two: &NsecRecord) -> bool
    ensures { result ≡ (before one.now.owner two.now.owner && (before two.now.owner one.now.fields.next || is_le (name_cmp one.now.fields.next one.now.owner))) }
{
    let owner = one.owner.borrowed();
    let next = one.next.borrowed();
    let later = two.owner.borrowed();
    comes_before(&owner, &later) && (comes_before(&later, &next) || leads_back(&owner, &next))
}

// The same of records of one zone.
fn reaches(one: &Kept, two: &Kept) -> bool
    ensures { result ≡ reaches_in one.now two.now }
{
    match (one.item.nsec(), two.item.nsec()) {
        (Some(nsec), Some(later)) => one.zone == two.zone && nsec_reaches(nsec, later),
        _ => false,
    }
}

// Notes a position, if its record reaches behind the other one.
fn note_pair(kept: &[Kept], reaching: &mut Vec<usize>, position: usize, later: usize)
    requires order { IsOrder (expiry_cmp ByZone) kept.now (length kept.now) reaching.old.items }
    requires within { position < length kept.now }
    requires later { later < length kept.now }
    requires room { length reaching.old.items < vec_capacity reaching.old }
    ensures order { IsOrder (expiry_cmp ByZone) kept.now (length kept.now) reaching.new.items }
    ensures there { (p : ℕ) → Contains reaching.old.items p → Contains reaching.new.items p }
    ensures here { reaches_in (at kept.now position) (at kept.now later) ≡ true → Contains reaching.new.items position }
    ensures len { length reaching.new.items ≤ length reaching.old.items + 1 }
    ensures capacity { vec_capacity reaching.old ≤ vec_capacity reaching.new }
{
    if reaches(record_at(kept, position), record_at(kept, later)) {
        sort_in(kept, reaching, Sorting::ByZone, position);
    }
}

// Notes the position before a number, if its record reaches behind the one that stands there.
fn note_before(
    kept: &[Kept],
    by_place: &[usize],
    reaching: &mut Vec<usize>,
    number: usize,
    position: usize,
)
    requires order { IsOrder (expiry_cmp ByZone) kept.now (length kept.now) reaching.old.items }
    requires inside { AreInside (length kept.now) by_place.now }
    requires number { number ≤ length by_place.now }
    requires within { position < length kept.now }
    requires room { length reaching.old.items < vec_capacity reaching.old }
    ensures order { IsOrder (expiry_cmp ByZone) kept.now (length kept.now) reaching.new.items }
    ensures there { (p : ℕ) → Contains reaching.old.items p → Contains reaching.new.items p }
    ensures here { 0 < number → reaches_in (nth_of kept.now by_place.now (number - 1)) (at kept.now position) ≡ true
        → Contains reaching.new.items (nth by_place.now (number - 1)) }
    ensures len { length reaching.new.items ≤ length reaching.old.items + 1 }
    ensures capacity { vec_capacity reaching.old ≤ vec_capacity reaching.new }
{
    if number > 0 {
        note_pair(kept, reaching, by_place[number - 1], position);
    }
}

// Notes a position, if its record reaches behind the one that stands after a number.
fn note_after(
    kept: &[Kept],
    by_place: &[usize],
    reaching: &mut Vec<usize>,
    number: usize,
    position: usize,
)
    requires order { IsOrder (expiry_cmp ByZone) kept.now (length kept.now) reaching.old.items }
    requires inside { AreInside (length kept.now) by_place.now }
    requires number { number ≤ length by_place.now }
    requires within { position < length kept.now }
    requires room { length reaching.old.items < vec_capacity reaching.old }
    ensures order { IsOrder (expiry_cmp ByZone) kept.now (length kept.now) reaching.new.items }
    ensures there { (p : ℕ) → Contains reaching.old.items p → Contains reaching.new.items p }
    ensures here { number + 1 < length by_place.now
        → reaches_in (at kept.now position) (nth_of kept.now by_place.now (number + 1)) ≡ true
        → Contains reaching.new.items position }
    ensures len { length reaching.new.items ≤ length reaching.old.items + 1 }
    ensures capacity { vec_capacity reaching.old ≤ vec_capacity reaching.new }
{
    if by_place.len() - number > 1 {
        note_pair(kept, reaching, position, by_place[number + 1]);
    }
}

/// Notes which records reach, once a position was put in order of places: it may itself, and so may the one before it.
pub(crate) fn note(kept: &[Kept], by_place: &[usize], reaching: &mut Vec<usize>, position: usize)
    requires placed { IsPlaced kept.now (position + 1) by_place.now }
    requires within { position < length kept.now }
    requires reaching { AreReaching kept.now position reaching.old.items }
    requires room { length reaching.old.items + 2 ≤ vec_capacity reaching.old }
    ensures reaching { AreReaching kept.now (position + 1) reaching.new.items }
    ensures len { length reaching.new.items ≤ length reaching.old.items + 2 }
    ensures capacity { vec_capacity reaching.old ≤ vec_capacity reaching.new }
{
    let number = passed(kept, by_place, &BeforePlace(record_at(kept, position)));
    note_before(kept, by_place, reaching, number, position);
    note_after(kept, by_place, reaching, number, position);
}

/// Of positions, zone by zone, those of one zone.
pub(crate) fn zone_part<'a>(kept: &[Kept], order: &'a [usize], zone: &NameRef<'_>) -> &'a [usize]
    requires { IsOrder (expiry_cmp ByZone) kept.now (length kept.now) order.now }
    ensures { IsZonePart kept.now zone.now order.now result.now }
{
    let low = passed(kept, order, &BeforeZone(zone));
    let high = passed(kept, order, &UpToZone(zone));
    &order[low..high]
}

//! Which NSEC record covers a name (RFC 4034, 4.1.1 and 6.1; RFC 4035, 5.4).
ghost use Rattle.std.specs.Prelude.{◌≡◌, ◌<◌, ◌^◌, ℕ, Some, length, option_map, position};
ghost use Rattle.std.specs.List.{find};
ghost use Rattle.std.specs.Option.{option_copied};
ghost use Rattle.std.specs.Ordering.{is_le};
ghost use Rattle.dns_model.specs.Names.{name_cmp, before};
ghost use Rattle.dns_rules.specs.DenialInZones.{IsOwnerless};
ghost use Rattle.dns_rules.specs.Covering.{nsec_spans as spans_in, counts_for, is_silent_on as is_silent_in, nsec_covering as covering_in, covering_number};
ghost use Rattle.dns_denial.specs.Best.{owned_before, is_better, next_best};

use crate::listed_types::ends_zone;
use dns_rdata::NsecRecord;
use dns_record::{Name, NameRef};
use std::cmp::Ordering;

/// The number of the NSEC record, from 0, that covers a name (RFC 4035, 5.4): of those whose owner comes before the name in
/// canonical order and whose next owner after it, the first with the greatest owner. `None` where there is none, and where
/// that one's owner is above the name and is a delegation or has DNAME: it tells nothing of the names below (RFC 6840, 4.1).
pub fn nsec_covering(name: &Name, nsecs: &[NsecRecord]) -> Option<u32>
    requires { length nsecs.now < 2 ^ 32 }
    ensures number { result ≡ covering_number name.now nsecs.now }
    ensures ownerless { (number : ℕ) → result ≡ Some number → IsOwnerless name.now nsecs.now }
{
    covering_place(name, nsecs)
}

// The number of that record.
#[tactic(auto, unfolding(dns_rules::specs::Covering::nsec_covering, dns_rules::specs::Covering::covering_number))]
fn covering_place(name: &Name, nsecs: &[NsecRecord]) -> Option<u32>
    requires { length nsecs.now < 2 ^ 32 }
    ensures { result ≡ covering_number name.now nsecs.now }
{
    let name = name.borrowed();
    let (place, nsec) = nearest(&name, nsecs)?;
    if is_silent_on(&name, nsec) {
        return None;
    }
    Some(place as u32)
}

// The record that covers a name.
#[tactic(auto, unfolding(dns_rules::specs::Covering::nsec_covering))]
pub(crate) fn covering_nsec<'a>(
    name: &NameRef<'_>,
    nsecs: &'a [NsecRecord],
) -> Option<&'a NsecRecord>
    ensures { option_copied result ≡ covering_in name.now nsecs.now }
{
    let (_, nsec) = nearest(name, nsecs)?;
    if is_silent_on(name, nsec) {
        return None;
    }
    Some(nsec)
}

/// Whether the record tells nothing of a name below its owner, which is a delegation or has DNAME (RFC 6840, 4.1).
pub fn is_silent_on(name: &NameRef<'_>, nsec: &NsecRecord) -> bool
    ensures { result ≡ is_silent_in name.now nsec.now }
{
    nsec.owner.borrowed().strictly_above(name) && ends_zone(&nsec.type_set())
}

// Of the records that span the name the first with the greatest owner, and its number.
fn nearest<'a>(name: &NameRef<'_>, nsecs: &'a [NsecRecord]) -> Option<(usize, &'a NsecRecord)>
    ensures number { option_map (λ p. p.0) result ≡ position (counts_for name.now nsecs.now) nsecs.now }
    ensures found { option_map (λ p. p.1.now) result ≡ find (counts_for name.now nsecs.now) nsecs.now }
    ensures bound { (i : ℕ) → option_map (λ p. p.0) result ≡ Some i → i < length nsecs.now }
{
    let mut best = None;
    for (place, nsec) in nsecs.iter().enumerate() {
        best = nearer(name, best, place, nsec);
    }
    best
}

// The nearer of the record found so far and the next one.
fn nearer<'a>(
    name: &NameRef<'_>,
    best: Option<(usize, &'a NsecRecord)>,
    place: usize,
    nsec: &'a NsecRecord,
) -> Option<(usize, &'a NsecRecord)>
    ensures { option_map (λ p. (p.0, p.1.now)) result
        ≡ next_best (spans_in name.now) owned_before (option_map (λ p. (p.0, p.1.now)) best.entry) place nsec.now }
{
    if nsec_spans(name, nsec) && is_nearer(&best, nsec) {
        Some((place, nsec))
    } else {
        best
    }
}

// Whether a record's owner comes after that of the record found so far.
fn is_nearer(best: &Option<(usize, &NsecRecord)>, nsec: &NsecRecord) -> bool
    ensures { result ≡ is_better owned_before (option_map (λ p. (p.0, p.1.now)) best.now) nsec.now }
{
    match best {
        Some((_, found)) => comes_before(&found.owner.borrowed(), &nsec.owner.borrowed()),
        None => true,
    }
}

// Whether the name comes after the record's owner and before its next one. After the zone's last owner comes the apex
// again (RFC 4034, 4.1.1), and all names at or below it that are left.
fn nsec_spans(name: &NameRef<'_>, nsec: &NsecRecord) -> bool
    ensures { result ≡ spans_in name.now nsec.now }
{
    let owner = nsec.owner.borrowed();
    let next = nsec.next.borrowed();
    comes_before(&owner, name)
        && (comes_before(name, &next) || (leads_back(&owner, &next) && next.zone_of(name)))
}

// Whether the next owner is no later than the owner.
fn leads_back(owner: &NameRef<'_>, next: &NameRef<'_>) -> bool
    ensures { result ≡ is_le (name_cmp next.now owner.now) }
{
    next.cmp_name(owner) != Ordering::Greater
}

// Whether the first name comes before the second in canonical order (RFC 4034, 6.1).
fn comes_before(one: &NameRef<'_>, two: &NameRef<'_>) -> bool
    ensures { result ≡ before one.now two.now }
{
    one.cmp_name(two) == Ordering::Less
}

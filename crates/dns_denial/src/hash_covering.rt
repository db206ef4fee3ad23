//! Which NSEC3 record covers a hash (RFC 5155, 1.3).
ghost use Rattle.std.specs.Prelude.{◌≡◌, ◌<◌, ◌^◌, ℕ, Some, true, length, option_map, position};
ghost use Rattle.std.specs.List.{find};
ghost use Rattle.std.specs.Option.{option_copied};
ghost use Rattle.dns_rules.specs.Nsec3Covering.{counts_for, nsec3_covering as covering_in, covering_number, is_farther as is_farther_in, is_considered as is_considered_in, lies_between as lies_between_in, owner_hash as owner_hash_in, nsec3_spans as spans_in};
ghost use Rattle.dns_denial.specs.Best.{is_better, next_best, passes_if_there};

use crate::hash_text::{HashText, lies_between};
use crate::nsec3_fields::{is_considered, next_hash, owner_hash};
use dns_rdata::Nsec3Record;

/// The number of the NSEC3 record, from 0 in the given list, that covers a hash (RFC 5155, 1.3): of those between whose owner
/// hash and next hash it lies the first with the nearest owner hash before it. Records of an unknown hash algorithm or with
/// unknown flags, and those whose owner or next hash is no hash, are ignored (RFC 5155, 8.1 and 8.2). Salt and iterations
/// aren't looked at. `None` where no record covers it.
#[tactic(auto, unfolding(dns_rules::specs::Nsec3Covering::covering_number))]
pub fn nsec3_covering(hash: &[u8; 20], nsec3s: &[Nsec3Record]) -> Option<u32>
    requires { length nsec3s.now < 2 ^ 32 }
    ensures number { result ≡ covering_number hash.now nsec3s.now }
{
    let hash = HashText::of(hash);
    let (place, _) = nearest(&hash, nsec3s)?;
    Some(place as u32)
}

/// The record that covers a hash.
#[tactic(auto, unfolding(dns_rules::specs::Nsec3Covering::nsec3_covering))]
pub(crate) fn covering_nsec3<'a>(
    hash: &HashText,
    nsec3s: &'a [Nsec3Record],
) -> Option<&'a Nsec3Record>
    ensures { option_copied result ≡ covering_in hash.now nsec3s.now }
{
    let (_, nsec3) = nearest(hash, nsec3s)?;
    Some(nsec3)
}

// Of the records that cover the hash the first with the nearest owner hash, and its number.
fn nearest<'a>(hash: &HashText, nsec3s: &'a [Nsec3Record]) -> Option<(usize, &'a Nsec3Record)>
    ensures number { option_map (λ p. p.0) result ≡ position (counts_for hash.now nsec3s.now) nsec3s.now }
    ensures found { option_map (λ p. p.1.now) result ≡ find (counts_for hash.now nsec3s.now) nsec3s.now }
    ensures bound { (i : ℕ) → option_map (λ p. p.0) result ≡ Some i → i < length nsec3s.now }
{
    let mut best = None;
    for (place, nsec3) in nsec3s.iter().enumerate() {
        best = nearer(hash, best, place, nsec3);
    }
    best
}

// The nearer of the record found so far and the next one.
fn nearer<'a>(
    hash: &HashText,
    best: Option<(usize, &'a Nsec3Record)>,
    place: usize,
    nsec3: &'a Nsec3Record,
) -> Option<(usize, &'a Nsec3Record)>
    requires { passes_if_there (spans_in hash.now) (option_map (λ p. (p.0, p.1.now)) best) ≡ true }
    ensures { option_map (λ p. (p.0, p.1.now)) result
        ≡ next_best (spans_in hash.now) (is_farther_in hash.now) (option_map (λ p. (p.0, p.1.now)) best.entry) place nsec3.now }
{
    if nsec3_spans(hash, nsec3) && is_nearer(hash, &best, nsec3) {
        Some((place, nsec3))
    } else {
        best
    }
}

// Whether a record's owner hash is nearer before the hash than that of the record found so far.
fn is_nearer(hash: &HashText, best: &Option<(usize, &Nsec3Record)>, nsec3: &Nsec3Record) -> bool
    requires met { passes_if_there (spans_in hash.now) (option_map (λ p. (p.0, p.1.now)) best.now) ≡ true }
    requires next { spans_in hash.now nsec3.now ≡ true }
    ensures { result ≡ is_better (is_farther_in hash.now) (option_map (λ p. (p.0, p.1.now)) best.now) nsec3.now }
{
    match best {
        Some((_, found)) => is_farther(hash, found, nsec3),
        None => true,
    }
}

// Whether the second record's owner hash is nearer before the hash than the first one's.
fn is_farther(hash: &HashText, one: &Nsec3Record, two: &Nsec3Record) -> bool
    requires one { is_considered_in one.now ≡ true }
    requires two { is_considered_in two.now ≡ true }
    ensures { result ≡ is_farther_in hash.now one.now two.now }
{
    match (owner_hash(one), owner_hash(two)) {
        (Some(first), Some(second)) => lies_between(&first, hash, &second),
        _ => false,
    }
}

// Whether the hash lies between the record's owner hash and its next hash.
fn nsec3_spans(hash: &HashText, nsec3: &Nsec3Record) -> bool
    ensures { result ≡ spans_in hash.now nsec3.now }
{
    is_considered(nsec3) && is_between(hash, nsec3)
}

// The same of a record that isn't ignored.
fn is_between(hash: &HashText, nsec3: &Nsec3Record) -> bool
    requires { is_considered_in nsec3.now ≡ true }
    ensures { result ≡ lies_between_in (owner_hash_in nsec3.now) nsec3.now.fields.next hash.now }
{
    match (owner_hash(nsec3), next_hash(nsec3)) {
        (Some(owner), Some(next)) => lies_between(&owner, &next, hash),
        _ => false,
    }
}

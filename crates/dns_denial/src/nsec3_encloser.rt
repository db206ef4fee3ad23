//! The closest encloser that NSEC3 records prove (RFC 5155, 8.3).
ghost use Rattle.std.specs.Prelude.{◌≡◌, ◌+◌, ◌≤◌, true, length, option_map, IfSome};
ghost use Rattle.dns_model.specs.Names.{at_or_above, star};
ghost use Rattle.dns_rules.specs.Nsec3Verdict.{hashed, nearest_match as nearest_match_in, provable_encloser as provable_encloser_in};
ghost use Rattle.dns_denial.specs.Candidates.{label_counts};
ghost use Rattle.dns_denial.specs.Counts.{steps_above};
ghost use Rattle.dns_denial.specs.Enclosers.{IsEncloserOf, IsHashedBy};

use crate::encloser::wildcard_below;
use crate::listed_types::ends_zone;
use crate::nsec3_parameters::Nsec3Parameters;
use crate::nsec3_records::Nsec3Records;
use dns_rdata::Nsec3Record;
use dns_record::{Name, NameRef};
use std::marker::Model;

/// The label counts of the names that may enclose a name in a zone: of the name itself, and of each ancestor up to the zone's
/// apex (RFC 5155, 8.3).
#[derive(Drop)]
pub struct EncloserCandidates {
    /// One more than the count that comes next.
    above: u8,
    /// The last count.
    zone: u8,
}

impl Model for EncloserCandidates {
    ghost use Rattle.std.specs.Prelude.{List, ℕ};
    ghost use Rattle.dns_denial.specs.Candidates.{label_counts};

    ghost Value = { List ℕ };

    ghost view = { λ c. label_counts c.zone c.above };
}

impl EncloserCandidates {
    /// Those of a name, on the condition that the zone is at or above it.
    pub fn new(name: &Name, zone: &Name) -> EncloserCandidates
        requires { at_or_above zone.now name.now ≡ true }
        ensures { result ≡ label_counts (length zone.now) (length name.now + 1) }
    {
        EncloserCandidates {
            above: name.label_count() + 1,
            zone: zone.label_count(),
        }
    }
}

impl Iterator for EncloserCandidates {
    ghost use Rattle.std.specs.Prelude.{List, ℕ};
    ghost use Rattle.std.specs.Iterator.{YieldsFirst, item_count};

    type Item = u8;

    ghost next_gives = { YieldsFirst (λ (c : List ℕ). c) };

    ghost remaining = { item_count (λ (c : List ℕ). c) };

    fn next(&mut self) -> Option<u8> {
        if self.above <= self.zone {
            return None;
        }
        self.above -= 1;
        Some(self.above)
    }
}

/// A closest encloser, and the name with one label more, which is or encloses the name (RFC 5155, 1.3).
#[derive(Drop)]
pub(crate) struct Encloser<'a> {
    /// The closest encloser.
    pub(crate) name: NameRef<'a>,
    /// The next closer name.
    pub(crate) next_closer: NameRef<'a>,
    /// The hash of the next closer name.
    pub(crate) hash: [u8; 20],
}

impl<'a> Model for Encloser<'a> {
    ghost use Rattle.dns_denial.specs.Enclosers.{EncloserValue};

    ghost Value = { EncloserValue };

    ghost view = { λ e. record { name = e.name; next_closer = e.next_closer; hash = e.hash } };
}

// The closest encloser that the records prove of a name with this hash.
pub(crate) fn provable_encloser<'a, R: Nsec3Records>(
    by: &Nsec3Parameters<'_>,
    zone: &NameRef<'_>,
    records: &R,
    name: &NameRef<'a>,
    hash: &[u8; 20],
    notes: &mut R::Notes,
) -> Option<Encloser<'a>>
    requires { hash.now ≡ hashed by.now name.now }
    ensures name { option_map (λ e. e.name) result ≡ provable_encloser_in by.now zone.now (R.records records.now) name.now }
    ensures closer { IfSome result (λ e. IsEncloserOf by.now name.now e) }
    ensures steps { R.steps notes.new ≤ R.steps notes.old + steps_above (R.most_steps records.now) name.now }
    ensures hashes { R.hashes notes.new ≤ R.hashes notes.old + length name.now }
{
    let (encloser, nsec3) = nearest_match(by, zone, records, name, hash, notes)?;
    if ends_zone(&nsec3.type_set()) {
        return None;
    }
    Some(encloser)
}

// The nearest ancestor at or below the zone that a record matches, and the first such record.
fn nearest_match<'a, 'b, R: Nsec3Records>(
    by: &Nsec3Parameters<'_>,
    zone: &NameRef<'_>,
    records: &'b R,
    name: &NameRef<'a>,
    hash: &[u8; 20],
    notes: &mut R::Notes,
) -> Option<(Encloser<'a>, &'b Nsec3Record)>
    requires { hash.now ≡ hashed by.now name.now }
    ensures found { option_map (λ p. (p.0.name, p.1.now)) result
        ≡ nearest_match_in by.now zone.now (R.records records.now) name.now }
    ensures closer { IfSome result (λ p. IsEncloserOf by.now name.now p.0) }
    ensures steps { R.steps notes.new ≤ R.steps notes.old + steps_above (R.most_steps records.now) name.now }
    ensures hashes { R.hashes notes.new ≤ R.hashes notes.old + length name.now }
{
    let mut next_closer = name.copy();
    let mut closer_hash = *hash;
    'names: while let Some((_, above)) = next_closer.split_first() {
        if !zone.zone_of(&above) {
            return None;
        }
        let higher = records.hash(by, &above, notes);
        if let Some(nsec3) = records.matching(&higher, notes) {
            let encloser = Encloser {
                name: above,
                next_closer,
                hash: closer_hash,
            };
            return Some((encloser, nsec3));
        }
        next_closer = above;
        closer_hash = higher;
    }
    None
}

impl<'a> Encloser<'a> {
    // The hash of the wildcard right below the closest encloser, which may be the next closer name (RFC 4592, 2.1.1).
    pub(crate) fn wildcard_hash<R: Nsec3Records>(
        &self,
        by: &Nsec3Parameters<'_>,
        records: &R,
        notes: &mut R::Notes,
    ) -> [u8; 20]
        requires { IsHashedBy by.now self.now }
        ensures hash { result ≡ hashed by.now (star self.now.name) }
        ensures steps { R.steps notes.new ≡ R.steps notes.old }
        ensures hashes { R.hashes notes.new ≤ R.hashes notes.old + 1 }
    {
        if self.next_closer.is_wildcard() {
            return self.hash;
        }
        let bytes = wildcard_below(&self.name);
        match NameRef::front(bytes.as_slice()) {
            Some((wildcard, _)) => records.hash(by, &wildcard, notes),
            // a wildcard's wire form is a name's
            None => self.hash,
        }
    }
}

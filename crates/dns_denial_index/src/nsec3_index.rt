//! NSEC3 records that a search finds (RFC 5155, 3 and 8).
ghost use Rattle.std.specs.Prelude.{◌≡◌, ◌+◌, ◌-◌, ◌*◌, ◌<◌, ◌≤◌, ◌^◌, ◌&&◌, ◌++◌, IfOk, OnOk, Some, length, map, position};
ghost use Rattle.std.specs.List.{count_by, flat_map, list_any};
ghost use Rattle.std.specs.Option.{option_copied};
ghost use Rattle.dns_model.specs.Nsec3Hash.{base32hex_decode as decoded};
ghost use Rattle.dns_rules.specs.ListedTypes.{wildcard_lacks as wildcard_lacks_in};
ghost use Rattle.dns_rules.specs.Nsec3Covering.{covering_number, first_label, is_considered as is_considered_in, nsec3_matches as matches_in};
ghost use Rattle.dns_denial_index.specs.HashParts.{AreHashPlaced, hash_keys, hash_span as hash_span_of, hashes_of, span_between as span_between_in};
ghost use Rattle.dns_denial_index.specs.NsecParts.{numbered};
ghost use Rattle.dns_denial_index.specs.Places.{place_of};

use crate::places::{Placing, Points};
use crate::spans::{Span, SpanTable};
use dns_denial::{is_considered, wildcard_lacks};
use dns_evidence::Steps;
use dns_rdata::{Nsec3Record, base32hex_decode};
use dns_record::{NoMemory, Octets, RecordType};
use std::alloc::Global;
use std::marker::Model;
use std::sync::ledger::Ledger;

/// NSEC3 records, in which the one that covers a hash is found by a search. Contracts see the list of them.
///
/// The records needn't be those of one zone, nor true: a search finds the one that `nsec3_covering` finds in the list.
#[derive(Drop)]
pub struct Nsec3Index {
    nsec3s: Vec<Nsec3Record>,
    /// The owners' hashes and the next ones.
    points: Points,
    /// What lies between the two of each record. Past the places of the points come those of a second lap, in which what goes
    /// past the greatest hash ends.
    table: SpanTable,
}

impl Model for Nsec3Index {
    ghost use Rattle.std.specs.Prelude.{List};
    ghost use Rattle.dns_model.specs.Owned.{OwnedNsec3};
    ghost use Rattle.dns_denial_index.specs.HashParts.{IsNsec3Index};

    ghost Value = { List OwnedNsec3 };

    ghost view = { λ i. i.nsec3s.items };

    ghost invariant = { λ i. IsNsec3Index i.nsec3s.items i.points i.table };
}

// The two hashes of a record.
#[derive(Drop)]
struct HashPair {
    owner: [u8; 20],
    next: [u8; 20],
}

/// What a search finds of a hash.
#[derive(Clone, Copy)]
pub(crate) struct HashFound {
    /// The first record that matches the hash.
    pub(crate) matching: Option<u32>,
    /// The record that covers the hash.
    pub(crate) covering: Option<u32>,
}

impl Nsec3Index {
    /// The index of records. It takes as many comparisons as sorting them does.
    pub fn new(nsec3s: Vec<Nsec3Record>) -> Result<Nsec3Index, NoMemory>
        requires { length nsec3s.items < 2 ^ 32 }
        ensures { IfOk result (λ index. index ≡ nsec3s.items) }
    {
        let alloc = *nsec3s.allocator();
        let Placing { points, places } = Points::placing(keys_in(alloc, nsec3s.as_slice())?)?;
        let spans = spans_of(alloc, &points, places.as_slice(), nsec3s.as_slice())?;
        let table = SpanTable::new(spans, 2 * points.places())?;
        Ok(Nsec3Index {
            nsec3s,
            points,
            table,
        })
    }

    /// The records, in the order in which they were given.
    pub fn records(&self) -> &[Nsec3Record]
        ensures { result.now ≡ self.now }
    {
        self.nsec3s.as_slice()
    }

    /// The number of the record that covers a hash, as `nsec3_covering` finds it in the list. It takes no memory. A step is one
    /// turn of the search, with one comparison of hashes.
    pub fn covering<L: Ledger>(&self, hash: &[u8; 20], steps: &mut Steps<L>) -> Option<u32>
        ensures number { result ≡ covering_number hash.now self.now }
        ensures rises { steps.old ≤ steps.new }
        ensures steps { 2 ^ (steps.new - steps.old) ≤ 4 * length self.now + 1 }
        ensures ticks { count_by is_considered_in self.now < 2 ^ (steps.new - steps.old) }
    {
        self.found(hash, steps).covering
    }

    /// What one search finds of a hash. What isn't covered at its place in the first lap may be at the one in the second.
    pub(crate) fn found<L: Ledger>(&self, hash: &[u8; 20], steps: &mut Steps<L>) -> HashFound
        ensures matching { result.matching ≡ position (matches_in hash.now) self.now }
        ensures covering { result.covering ≡ covering_number hash.now self.now }
        ensures rises { steps.old ≤ steps.new }
        ensures steps { 2 ^ (steps.new - steps.old) ≤ 4 * length self.now + 1 }
        ensures ticks { count_by is_considered_in self.now < 2 ^ (steps.new - steps.old) }
    {
        let place = self.points.place(hash.as_slice(), steps);
        let again = place + self.points.places();
        let matching = self.table.first(place);
        let covering = self.table.counting(place).or(self.table.counting(again));
        HashFound { matching, covering }
    }

    /// The record with a number, where there is one.
    pub(crate) fn numbered(&self, number: Option<u32>) -> Option<&Nsec3Record>
        ensures { option_copied result ≡ numbered self.now number }
    {
        self.nsec3s.get(number? as usize)
    }

    /// Whether some record that matches a wildcard's hash shows that it has no data of the type. After the search for the first
    /// of them all are gone over.
    pub(crate) fn wildcard_denies<L: Ledger>(
        &self,
        wildcard: &[u8; 20],
        record_type: RecordType,
        steps: &mut Steps<L>,
    ) -> bool
        ensures denies { result ≡ list_any (λ nsec3. matches_in wildcard.now nsec3 && wildcard_lacks_in record_type.0 nsec3.fields.types)
            self.now }
        ensures rises { steps.old ≤ steps.new }
        ensures steps { 2 ^ (steps.new - steps.old) ≤ 4 * length self.now + 1 }
    {
        let mut next = self.found(wildcard, steps).matching;
        'matching: while let Some(number) = next {
            if wildcard_lacks(&self.nsec3s[number as usize].type_set(), record_type) {
                return true;
            }
            next = self.table.following(number);
        }
        false
    }

    /// An equal value in memory of its own.
    pub fn try_clone(&self) -> Result<Nsec3Index, NoMemory>
        ensures { IfOk result (λ index. index ≡ self.now) }
    {
        let mut nsec3s = Vec::with_capacity(*self.nsec3s.allocator(), self.nsec3s.len())?;
        for nsec3 in &self.nsec3s {
            nsec3s.push(nsec3.try_clone()?)?;
        }
        Nsec3Index::new(nsec3s)
    }
}

// The hashes of the records that aren't ignored.
fn keys_in(alloc: Global, nsec3s: &[Nsec3Record]) -> Result<Vec<Octets>, NoMemory>
    ensures { IfOk result (λ keys. keys.items ≡ flat_map hash_keys nsec3s.now) }
{
    let mut keys = Vec::with_capacity(alloc, nsec3s.len())?;
    for nsec3 in nsec3s {
        push_hashes(alloc, nsec3, &mut keys)?;
    }
    Ok(keys)
}

// Appends the two hashes of a record, unless it is ignored.
fn push_hashes(alloc: Global, nsec3: &Nsec3Record, keys: &mut Vec<Octets>) -> Result<(), NoMemory>
    ensures { OnOk result (keys.new.items ≡ keys.old.items ++ hash_keys nsec3.now) }
{
    if let Some(both) = hashes(nsec3) {
        keys.push(Octets::from_slice(alloc, both.owner.as_slice())?)?;
        keys.push(Octets::from_slice(alloc, both.next.as_slice())?)?;
    }
    Ok(())
}

// What lies between the hashes of each record, by the places of the hashes of those that aren't ignored. One that is ignored
// starts where no hash is looked up, so that it matches none.
fn spans_of(
    alloc: Global,
    points: &Points,
    places: &[usize],
    nsec3s: &[Nsec3Record],
) -> Result<Vec<Span>, NoMemory>
    requires few { length points.now < 2 ^ 40 }
    requires placed { AreHashPlaced points.now nsec3s.now }
    requires places { places.now ≡ map (place_of points.now) (flat_map hash_keys nsec3s.now) }
    ensures { IfOk result (λ spans. spans.items ≡ map (hash_span_of points.now) nsec3s.now) }
{
    let lap = points.places();
    let mut spans = Vec::with_capacity(alloc, nsec3s.len())?;
    let mut next = 0;
    for nsec3 in nsec3s {
        if !is_considered(nsec3) {
            spans.push(Span { start: lap, end: 0 })?;
            continue;
        }
        spans.push(span_between(places[next], places[next + 1], lap))?;
        next += 2;
    }
    Ok(spans)
}

// What lies between two places. It ends in the second lap, where it goes past the greatest hash.
fn span_between(start: usize, end: usize, lap: usize) -> Span
    requires { end + lap < 2 ^ 64 }
    ensures { result ≡ span_between_in start end lap }
{
    let end = if start < end { end } else { end + lap };
    Span { start, end }
}

// The two hashes of a record; `None` where it is ignored.
fn hashes(nsec3: &Nsec3Record) -> Option<HashPair>
    ensures { result ≡ hashes_of nsec3.now }
{
    if !is_considered(nsec3) {
        return None;
    }
    match (owner_hash(nsec3), next_hash(nsec3)) {
        (Some(owner), Some(next)) => Some(HashPair { owner, next }),
        _ => None,
    }
}

// The hash that the owner's first label is; `None` where it is none.
fn owner_hash(nsec3: &Nsec3Record) -> Option<[u8; 20]>
    ensures { result ≡ decoded (first_label nsec3.now.owner) }
{
    match nsec3.owner.borrowed().split_first() {
        Some((label, _)) => base32hex_decode(label),
        None => None,
    }
}

// The next hash; `None` where it hasn't 20 bytes.
fn next_hash(nsec3: &Nsec3Record) -> Option<[u8; 20]>
    requires { length nsec3.now.fields.next ≡ 20 }
    ensures { result ≡ Some nsec3.now.fields.next }
{
    let (hash, _) = nsec3.next.as_slice().split_first_chunk::<20>()?;
    Some(*hash)
}

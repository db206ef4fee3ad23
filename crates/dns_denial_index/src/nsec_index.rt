//! NSEC records that a search finds (RFC 4034, 4; RFC 4035, 5.4).
ghost use Rattle.std.specs.Prelude.{◌≡◌, ◌+◌, ◌-◌, ◌*◌, ◌<◌, ◌≤◌, ◌^◌, IfOk, length, map, position};
ghost use Rattle.std.specs.List.{flat_map};
ghost use Rattle.std.specs.Option.{option_copied};
ghost use Rattle.dns_rules.specs.Covering.{counts_for, covering_number};
ghost use Rattle.dns_rules.specs.NsecVerdict.{is_owned_by as is_owned_by_in, wildcard_denies as wildcard_denies_in};
ghost use Rattle.dns_denial_index.specs.NsecParts.{keys_of, numbered, paired};

use crate::keyed_nsec::KeyedNsec;
use crate::name_keys::name_key;
use crate::places::{Placing, Points};
use crate::spans::{Span, SpanTable};
use dns_denial::{is_silent_on, wildcard_lacks};
use dns_evidence::Steps;
use dns_rdata::NsecRecord;
use dns_record::{Name, NameRef, NoMemory, Octets, RecordType};
use std::alloc::Global;
use std::marker::Model;
use std::sync::ledger::Ledger;

/// NSEC records, in which the one that covers a name is found by a search. Contracts see the list of them.
///
/// The records needn't be those of one zone, nor true: a search finds the one that `nsec_covering` finds in the list.
#[derive(Drop)]
pub struct NsecIndex {
    nsecs: Vec<NsecRecord>,
    /// The owners, and where the names between each owner and the next one end.
    points: Points,
    /// What lies between the two of each record.
    table: SpanTable,
}

impl Model for NsecIndex {
    ghost use Rattle.std.specs.Prelude.{List};
    ghost use Rattle.dns_model.specs.Owned.{OwnedNsec};
    ghost use Rattle.dns_denial_index.specs.NsecParts.{IsNsecIndex};

    ghost Value = { List OwnedNsec };

    ghost view = { λ i. i.nsecs.items };

    ghost invariant = { λ i. IsNsecIndex i.nsecs.items i.points i.table };
}

/// What a search finds of a name.
#[derive(Clone, Copy)]
pub(crate) struct Found {
    /// The first record that the name owns.
    pub(crate) owned: Option<u32>,
    /// The record that covers the name.
    pub(crate) covering: Option<u32>,
}

impl NsecIndex {
    /// The index of records. It takes as many comparisons as sorting them does.
    pub fn new(nsecs: Vec<NsecRecord>) -> Result<NsecIndex, NoMemory>
        requires { length nsecs.items < 2 ^ 32 }
        ensures { IfOk result (λ index. index ≡ nsecs.items) }
    {
        let alloc = *nsecs.allocator();
        let Placing { points, places } = Points::placing(keys_in(alloc, nsecs.as_slice())?)?;
        let spans = spans_of(alloc, places.as_slice())?;
        let table = SpanTable::new(spans, points.places())?;
        Ok(NsecIndex {
            nsecs,
            points,
            table,
        })
    }

    /// The records, in the order in which they were given.
    pub fn records(&self) -> &[NsecRecord]
        ensures { result.now ≡ self.now }
    {
        self.nsecs.as_slice()
    }

    /// The number of the record that covers a name, as `nsec_covering` finds it in the list. It takes no memory. A step is one
    /// turn of the search, with one comparison of bytes.
    pub fn covering<L: Ledger>(&self, name: &Name, steps: &mut Steps<L>) -> Option<u32>
        ensures number { result ≡ covering_number name.now self.now }
        ensures rises { steps.old ≤ steps.new }
        ensures steps { 2 ^ (steps.new - steps.old) ≤ 4 * length self.now + 1 }
        ensures ticks { length self.now < 2 ^ (steps.new - steps.old) }
    {
        self.found(&name.borrowed(), steps).covering
    }

    /// What one search finds of a name.
    pub(crate) fn found<L: Ledger>(&self, name: &NameRef<'_>, steps: &mut Steps<L>) -> Found
        ensures owned { result.owned ≡ position (is_owned_by_in name.now) self.now }
        ensures covering { result.covering ≡ covering_number name.now self.now }
        ensures rises { steps.old ≤ steps.new }
        ensures steps { 2 ^ (steps.new - steps.old) ≤ 4 * length self.now + 1 }
        ensures ticks { length self.now < 2 ^ (steps.new - steps.old) }
    {
        // `copy` tells that its labels have bytes
        let name = name.copy();
        let place = self.points.place(name_key(&name).as_slice(), steps);
        let owned = self.table.first(place);
        let covering = unless_silent(&name, &self.nsecs, self.table.counting(place));
        Found { owned, covering }
    }

    /// The record with a number, where there is one.
    pub(crate) fn numbered(&self, number: Option<u32>) -> Option<&NsecRecord>
        ensures { option_copied result ≡ numbered self.now number }
    {
        self.nsecs.get(number? as usize)
    }

    /// Whether some record that the wildcard owns shows that it has no data of the type. After the search for the first of them
    /// all are gone over.
    pub(crate) fn wildcard_denies<L: Ledger>(
        &self,
        wildcard: &NameRef<'_>,
        record_type: RecordType,
        steps: &mut Steps<L>,
    ) -> bool
        ensures denies { result ≡ wildcard_denies_in record_type.0 wildcard.now self.now }
        ensures rises { steps.old ≤ steps.new }
        ensures steps { 2 ^ (steps.new - steps.old) ≤ 4 * length self.now + 1 }
    {
        let mut next = self.found(wildcard, steps).owned;
        'owned: while let Some(number) = next {
            if wildcard_lacks(&self.nsecs[number as usize].type_set(), record_type) {
                return true;
            }
            next = self.table.following(number);
        }
        false
    }

    /// An equal value in memory of its own.
    pub fn try_clone(&self) -> Result<NsecIndex, NoMemory>
        ensures { IfOk result (λ index. index ≡ self.now) }
    {
        let mut nsecs = Vec::with_capacity(*self.nsecs.allocator(), self.nsecs.len())?;
        for nsec in &self.nsecs {
            nsecs.push(nsec.try_clone()?)?;
        }
        NsecIndex::new(nsecs)
    }
}

// The keys of the records' owners and ends.
fn keys_in(alloc: Global, nsecs: &[NsecRecord]) -> Result<Vec<Octets>, NoMemory>
    ensures { IfOk result (λ keys. keys.items ≡ flat_map keys_of nsecs.now) }
{
    let mut keys = Vec::with_capacity(alloc, nsecs.len())?;
    let mut last = None;
    for nsec in nsecs {
        let keyed = KeyedNsec::new(alloc, nsec, &last)?;
        keys.push(keyed.owner().try_clone()?)?;
        keys.push(keyed.end().try_clone()?)?;
        last = Some(keyed);
    }
    Ok(keys)
}

// What lies between each two places.
fn spans_of(alloc: Global, places: &[usize]) -> Result<Vec<Span>, NoMemory>
    ensures { IfOk result (λ spans. spans.items ≡ paired places.now) }
{
    let mut spans = Vec::with_capacity(alloc, places.len() / 2)?;
    let mut left = places;
    'pairs: while let [start, end, more @ ..] = left {
        spans.push(Span {
            start: *start,
            end: *end,
        })?;
        left = more;
    }
    Ok(spans)
}

// The number of the nearest record around a name, unless that one tells nothing of the name (RFC 6840, 4.1).
#[tactic(auto, unfolding(dns_rules::specs::Covering::nsec_covering, dns_rules::specs::Covering::covering_number))]
fn unless_silent(name: &NameRef<'_>, nsecs: &[NsecRecord], nearest: Option<u32>) -> Option<u32>
    requires { nearest ≡ position (counts_for name.now nsecs.now) nsecs.now }
    ensures { result ≡ covering_number name.now nsecs.now }
{
    let number = nearest?;
    if is_silent_on(name, &nsecs[number as usize]) {
        return None;
    }
    Some(number)
}

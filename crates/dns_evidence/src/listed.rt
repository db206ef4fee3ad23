//! A verifier that accepts what is listed.
ghost use Rattle.std.specs.Prelude.{◌≡◌, ◌↔◌, ◌==◌, ◌&&◌, ◌||◌, ◌++◌, ◌∷◌, [], false, IsTrue, IfOk, OnOk, OnErr};
ghost use Rattle.std.specs.List.{list_all, list_any};
ghost use Rattle.dns_evidence.specs.Verifiers.{AnswerAlike};
ghost use Rattle.dns_evidence.specs.ByteSets.{IsByteSet};
ghost use Rattle.dns_evidence.specs.Finding.{passes_at};
ghost use Rattle.dns_evidence.specs.Listing.{answers_of, holds as holds_in, is_entry as is_entry_of, is_listed, SaysSame, is_within as is_within_of, signature_number as number_in, with_accepted, with_algorithm};

use crate::Verifier;
use crate::finding::{PlacesByNumber, add_place, mix, places_of};
use arrayvec::ArrayVec;
use dns_record::{NoMemory, Octets};
use std::alloc::Global;
use std::collections::BTreeMap;
use std::marker::Model;

/// A signature that is accepted.
#[derive(Drop)]
struct ListedSignature {
    algorithm: u8,
    key: Octets,
    bytes: Octets,
    signature: Octets,
}

impl Model for ListedSignature {
    ghost use Rattle.dns_model.specs.Keys.{AcceptedSignatureValue};

    ghost Value = { AcceptedSignatureValue };

    ghost view = { λ a. record { algorithm = a.algorithm; key = a.key; bytes = a.bytes; signature = a.signature } };
}

/// A signature that is looked for among those that are accepted.
#[derive(Drop)]
struct SoughtSignature<'a> {
    algorithm: u8,
    key: &'a [u8],
    bytes: &'a [u8],
    signature: &'a [u8],
}

impl<'a> Model for SoughtSignature<'a> {
    ghost use Rattle.dns_model.specs.Keys.{AcceptedSignatureValue};

    ghost Value = { AcceptedSignatureValue };

    ghost view = { λ s. record {
      algorithm = s.algorithm;
      key = s.key.now;
      bytes = s.bytes.now;
      signature = s.signature.now;
    } };
}

impl ListedSignature {
    // An equal signature in memory of its own.
    fn try_clone(&self) -> Result<ListedSignature, NoMemory>
        ensures { IfOk result (λ entry. entry ≡ self.now) }
    {
        let key = self.key.try_clone()?;
        let bytes = self.bytes.try_clone()?;
        let signature = self.signature.try_clone()?;
        Ok(ListedSignature {
            algorithm: self.algorithm,
            key,
            bytes,
            signature,
        })
    }

    // The same as a signature that is looked for.
    fn sought(&self) -> SoughtSignature<'_>
        ensures { result ≡ self.now }
    {
        SoughtSignature {
            algorithm: self.algorithm,
            key: self.key.as_slice(),
            bytes: self.bytes.as_slice(),
            signature: self.signature.as_slice(),
        }
    }
}

/// A verifier that supports and accepts what was listed, and nothing else; algorithm 1 never. It computes nothing.
#[derive(Drop)]
pub struct Listed {
    algorithms: ArrayVec<u8, 256>,
    accepted: Vec<ListedSignature>,
    places: PlacesByNumber,
}

impl Model for Listed {
    ghost use Rattle.dns_evidence.specs.Listing.{ListedValue, signature_number};
    ghost use Rattle.dns_evidence.specs.ByteSets.{IsByteSet};
    ghost use Rattle.dns_evidence.specs.Finding.{Covers};

    ghost Value = { ListedValue };

    ghost view = { λ l. record { algorithms = l.algorithms.items; accepted = l.accepted.items } };

    ghost invariant = { λ l. Covers signature_number l.places l.accepted.items × IsByteSet l.algorithms.items };
}

impl Listed {
    /// Nothing is supported, and nothing accepted.
    pub fn new(alloc: Global) -> Listed
        ensures { result ≡ record { algorithms = []; accepted = [] } }
    {
        Listed {
            algorithms: ArrayVec::new(),
            accepted: Vec::new(alloc),
            places: BTreeMap::new(alloc),
        }
    }

    /// Supports an algorithm from now on; algorithm 1 changes nothing.
    pub fn support(&mut self, algorithm: u8)
        ensures { self.new ≡ with_algorithm self.old algorithm }
    {
        if algorithm == 1 || has_algorithm(self.algorithms.as_slice(), algorithm) {
            return;
        }
        add_algorithm(&mut self.algorithms, algorithm);
    }

    /// Accepts a signature over bytes by a key under an algorithm from now on; algorithm 1 changes nothing. Where memory
    /// runs out, all stays as it was.
    pub fn accept(
        &mut self,
        algorithm: u8,
        key: &[u8],
        bytes: &[u8],
        signature: &[u8],
    ) -> Result<(), NoMemory>
        ensures ok { OnOk result (self.new ≡
            with_accepted self.old
            (record { algorithm = algorithm; key = key.now; bytes = bytes.now; signature = signature.now })) }
        ensures err { OnErr result (self.new ≡ self.old) }
    {
        if algorithm == 1 {
            return Ok(());
        }
        let alloc = *self.accepted.allocator();
        let key = Octets::from_slice(alloc, key)?;
        let bytes = Octets::from_slice(alloc, bytes)?;
        let signature = Octets::from_slice(alloc, signature)?;
        self.accept_octets(algorithm, key, bytes, signature)
    }

    /// The same as `accept`, of bytes that are handed over, so that none is copied.
    pub fn accept_octets(
        &mut self,
        algorithm: u8,
        key: Octets,
        bytes: Octets,
        signature: Octets,
    ) -> Result<(), NoMemory>
        ensures ok { OnOk result (self.new ≡
            with_accepted self.old
            (record { algorithm = algorithm; key = key; bytes = bytes; signature = signature })) }
        ensures err { OnErr result (self.new ≡ self.old) }
    {
        if algorithm == 1 {
            return Ok(());
        }
        self.push(ListedSignature {
            algorithm,
            key,
            bytes,
            signature,
        })
    }

    /// An equal list in memory of its own.
    pub fn try_clone(&self) -> Result<Listed, NoMemory>
        ensures { IfOk result (λ copy. copy ≡ self.now) }
    {
        let mut copy = self.supporting_alike()?;
        for entry in &self.accepted {
            let next = entry.try_clone()?;
            copy.push(next)?;
        }
        Ok(copy)
    }
}

impl Verifier for Listed {
    ghost use Rattle.dns_evidence.specs.Listing.{answers_of, SaysSame};

    ghost answers = { answers_of };

    ghost says_same = { SaysSame };

    fn supports(&self, algorithm: u8) -> bool {
        algorithm != 1 && self.lists(algorithm)
    }

    fn accepts(&self, algorithm: u8, key: &[u8], bytes: &[u8], signature: &[u8]) -> bool {
        let sought = SoughtSignature {
            algorithm,
            key,
            bytes,
            signature,
        };
        algorithm != 1 && self.holds(&sought)
    }

    /// Both hold the same, in whatever order and however often.
    fn same(&self, other: &Listed) -> bool
        ensures alike { IsTrue result → AnswerAlike (answers_of self.now) (answers_of other.now) }
        ensures exact { IsTrue result ↔ AnswerAlike (answers_of self.now) (answers_of other.now) }
        ensures says { SaysSame self.now other.now result }
    {
        holds_same(self, other)
    }
}

impl Listed {
    // What supports the same, and accepts nothing.
    fn supporting_alike(&self) -> Result<Listed, NoMemory>
        ensures { IfOk result (λ copy. copy ≡ record { algorithms = self.now.algorithms; accepted = [] }) }
    {
        let algorithms = self.algorithms.clone()?;
        let alloc = *self.accepted.allocator();
        Ok(Listed {
            algorithms,
            accepted: Vec::new(alloc),
            places: BTreeMap::new(alloc),
        })
    }

    // One signature more. Where memory runs out, all stays as it was.
    fn push(&mut self, entry: ListedSignature) -> Result<(), NoMemory>
        ensures ok { OnOk result (self.new ≡ record self.old { accepted = self.old.accepted ++ entry ∷ [] }) }
        ensures err { OnErr result (self.new ≡ self.old) }
    {
        let alloc = *self.accepted.allocator();
        let number = signature_number(&entry.sought());
        add_place(alloc, &mut self.places, number, self.accepted.len())?;
        self.accepted.push(entry)?;
        Ok(())
    }

    // A signature is listed.
    fn holds(&self, sought: &SoughtSignature<'_>) -> bool
        ensures { result ≡ holds_in self.now sought.now }
    {
        let places = places_of(&self.places, signature_number(sought));
        is_at(&self.accepted, places, sought)
    }

    // The other supports and accepts what this does.
    fn is_within(&self, other: &Listed) -> bool
        ensures { result ≡ is_within_of self.now other.now }
    {
        supports_all(other, self.algorithms.as_slice()) && accepts_all(other, &self.accepted)
    }

    // An algorithm is listed.
    fn lists(&self, algorithm: u8) -> bool
        ensures { result ≡ is_listed self.now algorithm }
    {
        has_algorithm(self.algorithms.as_slice(), algorithm)
    }
}

// Each holds what the other holds.
fn holds_same(one: &Listed, other: &Listed) -> bool
    ensures { result ≡ (is_within_of one.now other.now && is_within_of other.now one.now) }
{
    one.is_within(other) && other.is_within(one)
}

// All these algorithms but 1 are supported.
fn supports_all(listed: &Listed, algorithms: &[u8]) -> bool
    ensures { result ≡ list_all (λ a. (a == 1) || is_listed listed.now a) algorithms.now }
{
    algorithms
        .iter()
        .all(|algorithm| *algorithm == 1 || listed.lists(*algorithm))
}

// All these signatures are accepted, but those of algorithm 1.
fn accepts_all(listed: &Listed, entries: &[ListedSignature]) -> bool
    ensures { result ≡ list_all (λ e. (e.algorithm == 1) || holds_in listed.now e) entries.now }
{
    entries.iter().all(|entry| entry.algorithm == 1 || listed.holds(&entry.sought()))
}

// One algorithm more, for which there is room, since each has another number of a byte.
fn add_algorithm(algorithms: &mut ArrayVec<u8, 256>, algorithm: u8)
    requires set { IsByteSet algorithms.old.items }
    requires new { list_any (λ a. algorithm == a) algorithms.old.items ≡ false }
    ensures items { algorithms.new.items ≡ algorithms.old.items ++ algorithm ∷ [] }
    ensures set { IsByteSet algorithms.new.items }
{
    algorithms.push(algorithm);
}

// An algorithm is listed.
fn has_algorithm(algorithms: &[u8], algorithm: u8) -> bool
    ensures { result ≡ list_any (λ a. algorithm == a) algorithms.now }
{
    algorithms.iter().any(|listed| algorithm == *listed)
}

// The entry at one of some places is this signature.
fn is_at(accepted: &[ListedSignature], places: &[usize], sought: &SoughtSignature<'_>) -> bool
    ensures { result ≡ list_any (passes_at (is_entry_of sought.now) accepted.now) places.now }
{
    places
        .iter()
        .any(|place| is_entry_at(accepted, *place, sought))
}

// The entry at a place is this signature.
fn is_entry_at(accepted: &[ListedSignature], place: usize, sought: &SoughtSignature<'_>) -> bool
    ensures { result ≡ passes_at (is_entry_of sought.now) accepted.now place }
{
    match accepted.get(place) {
        Some(entry) => is_entry(entry, sought),
        None => false,
    }
}

// The entry is this signature.
fn is_entry(entry: &ListedSignature, sought: &SoughtSignature<'_>) -> bool
    ensures { result ≡ is_entry_of sought.now entry.now }
{
    sought.algorithm == entry.algorithm
        && sought.key == entry.key.as_slice()
        && sought.bytes == entry.bytes.as_slice()
        && sought.signature == entry.signature.as_slice()
}

// The number by which a signature is found.
fn signature_number(sought: &SoughtSignature<'_>) -> u64
    ensures { result ≡ number_in sought.now }
{
    mix(
        mix(mix(u64::from(sought.algorithm), sought.key), sought.bytes),
        sought.signature,
    )
}

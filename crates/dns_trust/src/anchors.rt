//! The set of keys that are trusted without a signature (RFC 4035, 4.4).

ghost use Rattle.std.specs.Prelude.{◌≡◌, ◌↔◌, ◌++◌, ◌∷◌, [], not, length, IsTrue, IfOk, OnOk, OnErr};
ghost use Rattle.std.specs.List.{list_any};
ghost use Rattle.dns_model.specs.Keys.{holds_anchor, is_anchor as is_anchor_of};
ghost use Rattle.dns_evidence.specs.Finding.{passes_at};
ghost use Rattle.dns_trust.specs.Anchoring.{anchor_number, with_anchor};

use dns_evidence::{PlacesByNumber, add_place, mix, mix_lowered, places_of};
use dns_record::{Name, NoMemory, Octets};
use std::alloc::Global;
use std::collections::BTreeMap;
use std::marker::Model;

// A key that is trusted without a signature.
#[derive(Drop)]
struct TrustAnchor {
    owner: Name,
    algorithm: u8,
    key: Octets,
}

impl Model for TrustAnchor {
    ghost use Rattle.dns_model.specs.Keys.{AnchorValue as Trusted};

    ghost Value = { Trusted };

    ghost view = { λ a. record { owner = a.owner; algorithm = a.algorithm; key = a.key } };
}

impl TrustAnchor {
    // An equal key in memory of its own.
    fn try_clone(&self) -> Result<TrustAnchor, NoMemory>
        ensures { IfOk result (λ anchor. anchor ≡ self.now) }
    {
        let owner = self.owner.try_clone()?;
        let key = self.key.try_clone()?;
        Ok(TrustAnchor {
            owner,
            algorithm: self.algorithm,
            key,
        })
    }
}

/// The keys that are trusted without a signature, as a set: a zone's name, an algorithm and a public key. Flags don't count.
#[derive(Drop)]
pub struct TrustAnchors {
    anchors: Vec<TrustAnchor>,
    places: PlacesByNumber,
}

impl Model for TrustAnchors {
    ghost use Rattle.std.specs.Prelude.{List};
    ghost use Rattle.dns_model.specs.Keys.{AnchorValue as Trusted};
    ghost use Rattle.dns_trust.specs.Anchoring.{number_of_anchor};
    ghost use Rattle.dns_evidence.specs.Finding.{Covers};

    ghost Value = { List Trusted };

    ghost view = { λ a. a.anchors.items };

    ghost invariant = { λ a. Covers number_of_anchor a.places a.anchors.items };
}

impl TrustAnchors {
    /// No key is trusted.
    pub fn empty(alloc: Global) -> TrustAnchors
        ensures { result ≡ [] }
    {
        TrustAnchors {
            anchors: Vec::new(alloc),
            places: BTreeMap::new(alloc),
        }
    }

    /// Trusts a key from now on; whether it wasn't trusted before. Where memory runs out all stays as it was.
    pub fn insert_with_name(
        &mut self,
        owner: Name,
        algorithm: u8,
        key: Octets,
    ) -> Result<bool, NoMemory>
        ensures new { IfOk result (λ b. b ≡ not (holds_anchor self.old owner algorithm key)) }
        ensures ok { OnOk result (self.new
            ≡ with_anchor self.old (record { owner = owner; algorithm = algorithm; key = key })) }
        ensures err { OnErr result (self.new ≡ self.old) }
    {
        if self.contains_with_name(&owner, algorithm, key.as_slice()) {
            return Ok(false);
        }
        self.push(TrustAnchor {
            owner,
            algorithm,
            key,
        })?;
        Ok(true)
    }

    /// An equal set in memory of its own.
    pub fn try_clone(&self) -> Result<TrustAnchors, NoMemory>
        ensures { IfOk result (λ copy. copy ≡ self.now) }
    {
        let mut copy = TrustAnchors::empty(*self.anchors.allocator());
        for anchor in &self.anchors {
            copy.push(anchor.try_clone()?)?;
        }
        Ok(copy)
    }

    // One key more. Where memory runs out all stays as it was.
    fn push(&mut self, anchor: TrustAnchor) -> Result<(), NoMemory>
        ensures ok { OnOk result (self.new ≡ self.old ++ anchor ∷ []) }
        ensures err { OnErr result (self.new ≡ self.old) }
    {
        let alloc = *self.anchors.allocator();
        let number = anchor_number(&anchor.owner, anchor.algorithm, anchor.key.as_slice());
        add_place(alloc, &mut self.places, number, self.anchors.len())?;
        self.anchors.push(anchor)?;
        Ok(())
    }

    /// Whether a key is trusted.
    pub fn contains_with_name(&self, owner: &Name, algorithm: u8, key: &[u8]) -> bool
        ensures { result ≡ holds_anchor self.now owner.now algorithm key.now }
    {
        let places = places_of(&self.places, anchor_number(owner, algorithm, key));
        is_at(&self.anchors, places, owner, algorithm, key)
    }

    /// How many keys are trusted.
    pub fn len(&self) -> usize
        ensures { result ≡ length self.now }
    {
        self.anchors.len()
    }

    /// Whether no key is trusted.
    pub fn is_empty(&self) -> bool
        ensures { IsTrue result ↔ (self.now ≡ []) }
    {
        self.anchors.is_empty()
    }
}

// The anchor at one of some places is this key.
fn is_at(anchors: &[TrustAnchor], places: &[usize], owner: &Name, algorithm: u8, key: &[u8]) -> bool
    ensures { result ≡ list_any (passes_at (is_anchor_of owner.now algorithm key.now) anchors.now) places.now }
{
    for place in places {
        if is_anchor_at(anchors, *place, owner, algorithm, key) {
            return true;
        }
    }
    false
}

// The anchor at a place is this key.
fn is_anchor_at(
    anchors: &[TrustAnchor],
    place: usize,
    owner: &Name,
    algorithm: u8,
    key: &[u8],
) -> bool
    ensures { result ≡ passes_at (is_anchor_of owner.now algorithm key.now) anchors.now place }
{
    match anchors.get(place) {
        Some(anchor) => is_anchor(anchor, owner, algorithm, key),
        None => false,
    }
}

// The anchor is this key.
fn is_anchor(anchor: &TrustAnchor, owner: &Name, algorithm: u8, key: &[u8]) -> bool
    ensures { result ≡ is_anchor_of owner.now algorithm key.now anchor.now }
{
    *owner == anchor.owner && algorithm == anchor.algorithm && key == anchor.key.as_slice()
}

// The number by which an anchor is found.
fn anchor_number(owner: &Name, algorithm: u8, key: &[u8]) -> u64
    ensures { result ≡ anchor_number owner.now algorithm key.now }
{
    mix_lowered(mix(u64::from(algorithm), key), owner.wire())
}

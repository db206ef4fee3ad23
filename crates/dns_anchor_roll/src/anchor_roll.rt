//! A zone's trusted keys, which follow what is seen of its key set (RFC 5011, 2).
ghost use Rattle.std.specs.Prelude.{◌≡◌, ◌∷◌, [], ℕ, List, None, false, is_some, if◌then◌else◌, IfOk, IfErr, OnOk, OnErr, reverse};
ghost use Rattle.dns_anchor_roll.specs.Sightings.{SightingValue};
ghost use Rattle.dns_anchor_roll.specs.Trust.{Start, is_accepted, trusted};
ghost use Rattle.dns_anchor_roll.specs.States.{state_of};
ghost use Rattle.dns_anchor_roll.specs.After.{AreAnchors, IsAfter, IsAsBefore, IsCause, IsFall, first_fall, is_before, is_earlier, seen, starting, with_key, with_trusted};
ghost use Rattle.dns_anchor_roll.specs.Tables.{state_in as state_in_table, is_trusted, standing_in};

use crate::examining::examine;
use crate::follow::key_of;
use crate::key_table::KeyTable;
use crate::standing::Standing;
use crate::{KeyState, RollError, Seen, Sighting};
use dns_evidence::Verifier;
use dns_record::{Name, NoMemory, Octets, Rdata};
use dns_trust::TrustAnchors;
use std::alloc::Global;

/// Seconds from which on a revoked key counts as removed: 30 days (RFC 5011, 2.4.2).
const REMOVE_HOLD_DOWN: u64 = 2_592_000;

/// The trusted keys of one zone, which follow what is seen of its key set. None of the sightings is kept.
#[derive(Drop)]
pub struct AnchorRoll<V: Verifier> {
    alloc: Global,
    verifier: V,
    zone: Name,
    table: KeyTable,
}

impl<V: Verifier + Drop> AnchorRoll<V> {
    /// Begins with keys that are trusted, as DNSKEY rdatas, whatever their flag REVOKE. Only those that can be read and have the
    /// flags 0x0100, a zone's key, and 0x0001, a secure entry point, count (RFC 4034, 2.1.1). The verifier says which signatures
    /// are good.
    pub fn new(
        alloc: Global,
        verifier: V,
        zone: Name,
        keys: Vec<Rdata>,
    ) -> Result<AnchorRoll<V>, NoMemory>
        ensures { IfOk result (λ roll. IsAfter V.answers (starting (V.answers verifier) zone keys.items) [] roll) }
    {
        let table = KeyTable::new(alloc, &keys)?;
        Ok(AnchorRoll {
            alloc,
            verifier,
            zone,
            table,
        })
    }

    /// Takes a sighting. It is accepted where one of its first eight signatures is good, at its moment, by an unrevoked key in it
    /// that was trusted before (RFC 5011, 2.2).
    ///
    /// `Earlier` has the moment of the last sighting, which is later than this one's. After an error all is as before.
    pub fn see(&mut self, sighting: &Sighting) -> Result<Seen, RollError>
        ensures after { OnOk result ((start : Start) (list : List SightingValue) → IsAfter V.answers start list self.old
            → IsAfter V.answers start (sighting.now ∷ list) self.new) }
        ensures seen { IfOk result (λ s. (start : Start) (list : List SightingValue) → IsAfter V.answers start list self.old
            → s ≡ seen (is_accepted start list sighting.now)) }
        ensures rises { OnOk result ((start : Start) (list : List SightingValue) → IsAfter V.answers start list self.old
            → is_earlier list sighting.now.moment ≡ false) }
        ensures earlier { IfErr result (λ e. (start : Start) (list : List SightingValue) → IsAfter V.answers start list self.old
            → IsCause list sighting.now.moment e) }
        ensures err { OnErr result (IsAsBefore self.old self.new) }
    {
        if let Some(last) = later_last(self.table.last, sighting.moment) {
            return Err(RollError::Earlier { last });
        }
        match self.take(sighting) {
            Ok(seen) => Ok(seen),
            Err(NoMemory) => Err(RollError::NoMemory),
        }
    }

    // Takes a sighting, which isn't earlier than the last.
    fn take(&mut self, sighting: &Sighting) -> Result<Seen, NoMemory>
        ensures after { OnOk result ((start : Start) (list : List SightingValue) → IsAfter V.answers start list self.old
            → IsAfter V.answers start (sighting.now ∷ list) self.new) }
        ensures seen { IfOk result (λ s. (start : Start) (list : List SightingValue) → IsAfter V.answers start list self.old
            → s ≡ seen (is_accepted start list sighting.now)) }
        ensures err { OnErr result (IsAsBefore self.old self.new) }
    {
        let found = examine(
            self.alloc,
            &self.verifier,
            &self.zone,
            &self.table,
            sighting,
        )?;
        self.table.take(self.alloc, sighting.moment, &found)?;
        Ok(seen_of(found.ttl))
    }

    /// The zone's trusted keys, each once, in no order that is promised.
    pub fn anchors(&self) -> Result<TrustAnchors, NoMemory>
        ensures { IfOk result (λ anchors. (start : Start) (list : List SightingValue) → IsAfter V.answers start list self.now
            → AreAnchors start.zone (trusted start list) anchors) }
    {
        anchors_of(self.alloc, &self.zone, &self.table)
    }

    /// The state of a key, which is given as a DNSKEY rdata, whatever its flag REVOKE, at a moment in seconds since 1970
    /// (RFC 5011, 4). One that doesn't count has none, nor has one that isn't trusted, isn't revoked and isn't shown by the last
    /// accepted sighting.
    pub fn state(&self, key: &[u8], now: u64) -> Option<KeyState>
        ensures { (start : Start) (list : List SightingValue) → IsAfter V.answers start list self.now
            → result ≡ state_of start list key.now now }
    {
        let Some(key) = key_of(key) else {
            return None;
        };
        state_in(&self.table, key.bytes(), now)
    }
}

/// Begins with keys that are trusted, and takes sightings in their order: `AnchorRoll::new`, and then `AnchorRoll::see` of each.
///
/// `Earlier` has the moment of the sighting before the first one that is earlier than the one before it.
pub fn roll<V: Verifier + Drop>(
    alloc: Global,
    verifier: V,
    zone: Name,
    keys: Vec<Rdata>,
    sightings: &[Sighting],
) -> Result<AnchorRoll<V>, RollError>
    ensures after { IfOk result (λ roll.
        IsAfter V.answers (starting (V.answers verifier) zone keys.items) (reverse sightings.now) roll) }
    ensures rises { OnOk result (first_fall sightings.now ≡ None) }
    ensures err { IfErr result (IsFall (first_fall sightings.now)) }
{
    let mut roll = AnchorRoll::new(alloc, verifier, zone, keys)?;
    for sighting in sightings {
        roll.see(sighting)?;
    }
    Ok(roll)
}

// The moment of the last sighting, where that is later than another one.
fn later_last(last: Option<u64>, moment: u64) -> Option<u64>
    ensures { result ≡ (if is_before last moment then last else None) }
{
    match last {
        Some(last) if moment < last => Some(last),
        _ => None,
    }
}

// What is answered of a sighting that is accepted by an original ttl, or isn't.
fn seen_of(ttl: Option<u32>) -> Seen
    ensures { result ≡ seen (is_some ttl) }
{
    match ttl {
        Some(_) => Seen::Accepted,
        None => Seen::Ignored,
    }
}

// The state of a key, by what is kept.
fn state_in(table: &KeyTable, key: &[u8], now: u64) -> Option<KeyState>
    ensures { result ≡ state_in_table table.now key.now now }
{
    match table.standing(key) {
        Standing::Revoked(moment) => {
            let removed = now >= moment && now - moment >= REMOVE_HOLD_DOWN;
            Some(if removed {
                KeyState::Removed
            } else {
                KeyState::Revoked
            })
        }
        Standing::Trusted => {
            let valid = !table.accepted || table.shows(key);
            Some(if valid {
                KeyState::Valid
            } else {
                KeyState::Missing
            })
        }
        Standing::Unknown => {
            if table.shows(key) {
                Some(KeyState::Pending)
            } else {
                None
            }
        }
    }
}

// The trusted keys of a table, as anchors of a zone.
fn anchors_of(alloc: Global, zone: &Name, table: &KeyTable) -> Result<TrustAnchors, NoMemory>
    ensures { IfOk result (λ anchors. AreAnchors zone.now (λ key. is_trusted (standing_in table.now.known key)) anchors) }
{
    let mut anchors = TrustAnchors::empty(alloc);
    for (key, standing) in &table.known {
        add_trusted(alloc, &mut anchors, zone, key.as_slice(), *standing)?;
    }
    Ok(anchors)
}

// Adds a key of a zone to anchors, if it is trusted.
fn add_trusted(
    alloc: Global,
    anchors: &mut TrustAnchors,
    zone: &Name,
    key: &[u8],
    standing: Standing,
) -> Result<(), NoMemory>
    ensures { OnOk result (anchors.new ≡ with_trusted (is_trusted standing) zone.now key.now anchors.old) }
{
    if !standing.is_trusted() {
        return Ok(());
    }
    add_anchor(alloc, anchors, zone, key)
}

// Adds a key of a zone to anchors, by its algorithm and the public key behind that.
fn add_anchor(
    alloc: Global,
    anchors: &mut TrustAnchors,
    zone: &Name,
    key: &[u8],
) -> Result<(), NoMemory>
    ensures { OnOk result (anchors.new ≡ with_key zone.now key.now anchors.old) }
{
    let Some((algorithm, public)) = key.split_first() else {
        return Ok(());
    };
    let public = Octets::from_slice(alloc, public)?;
    anchors.insert_with_name(zone.try_clone()?, *algorithm, public)?;
    Ok(())
}

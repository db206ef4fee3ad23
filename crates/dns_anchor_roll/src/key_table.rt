//! What a roll keeps of the keys of its zone: none of the sightings, and of an ignored one nothing but its moment and which trusted
//! keys it revokes.
ghost use Rattle.std.specs.Prelude.{◌≡◌, ℕ, List, None, Some, true, false, ◌&&◌, ◌∷◌, [], IfOk, OnOk, OnErr, if◌then◌else◌};
ghost use Rattle.dns_anchor_roll.specs.FollowedKeys.{is_given};
ghost use Rattle.dns_anchor_roll.specs.Tables.{among, entry_at, gone_on, has_entry, is_done_at, IsSameTable, settled, standing_in, TakesFound};
ghost use Rattle.dns_anchor_roll.specs.declared.standing.Standing.TheVariants.{Trusted, Unknown};

use crate::follow::key_of;
use crate::found::Found;
use crate::known::{Known, change_all, make_all_room, standing};
use crate::standing::{Change, Standing, Stretch};
use dns_record::{NoMemory, Rdata};
use std::alloc::Global;
use std::collections::BTreeMap;

/// The stretches of the keys that a sighting shows, by their bytes.
type Shown = BTreeMap<Vec<u8>, Stretch>;

/// What is kept of the keys of a zone.
#[derive(Drop)]
pub(crate) struct KeyTable {
    /// What is known of keys for good.
    pub(crate) known: Known,
    /// The stretches that go on: those of the keys that the last accepted sighting shows.
    pub(crate) shown: Shown,
    /// Whether a sighting was accepted.
    pub(crate) accepted: bool,
    /// The moment of the last sighting, in seconds since 1970.
    pub(crate) last: Option<u64>,
}

impl KeyTable {
    /// Some keys are trusted, as rdatas; those that don't count are passed over. Nothing was seen.
    pub(crate) fn new(alloc: Global, given: &[Rdata]) -> Result<KeyTable, NoMemory>
        ensures known { IfOk result (λ t. (q : List ℕ) → standing_in t.known q
            ≡ (if is_given given.now q then Trusted else Unknown)) }
        ensures shown { IfOk result (λ t. (q : List ℕ) → entry_at t.shown q ≡ None) }
        ensures accepted { IfOk result (λ t. t.accepted ≡ false) }
        ensures last { IfOk result (λ t. t.last ≡ None) }
    {
        let known = known_of(alloc, given)?;
        Ok(KeyTable {
            known,
            shown: BTreeMap::new(alloc),
            accepted: false,
            last: None,
        })
    }

    /// What is known of a key.
    pub(crate) fn standing(&self, key: &[u8]) -> Standing
        ensures { result ≡ standing_in self.now.known key.now }
    {
        standing(&self.known, key)
    }

    /// Whether the last accepted sighting shows a key.
    pub(crate) fn shows(&self, key: &[u8]) -> bool
        ensures { result ≡ has_entry self.now.shown key.now }
    {
        self.shown.contains_key(key)
    }

    /// Takes what was found of a sighting. Where memory runs out, nothing changes that is kept of any key.
    pub(crate) fn take(
        &mut self,
        alloc: Global,
        moment: u64,
        found: &Found<'_>,
    ) -> Result<(), NoMemory>
        ensures ok { OnOk result (TakesFound found.now moment self.old self.new) }
        ensures err { OnErr result (IsSameTable self.old self.new) }
    {
        match found.ttl {
            Some(ttl) => self.take_accepted(alloc, moment, ttl, found),
            None => self.take_ignored(alloc, moment, found),
        }
    }

    // Takes what was found of an accepted sighting.
    fn take_accepted(
        &mut self,
        alloc: Global,
        moment: u64,
        ttl: u32,
        found: &Found<'_>,
    ) -> Result<(), NoMemory>
        requires { found.now.ttl ≡ Some ttl }
        ensures ok { OnOk result (TakesFound found.now moment self.old self.new) }
        ensures err { OnErr result (IsSameTable self.old self.new) }
    {
        let shown = stretches(alloc, &self.shown, moment, ttl, found.shown.as_slice())?;
        let through = keys_through(alloc, &shown, moment, found.shown.as_slice())?;
        settle(
            alloc,
            &mut self.known,
            through.as_slice(),
            found.revoked.as_slice(),
            moment,
        )?;
        self.shown = shown;
        self.accepted = true;
        self.last = Some(moment);
        Ok(())
    }

    // Takes what was found of an ignored sighting.
    fn take_ignored(
        &mut self,
        alloc: Global,
        moment: u64,
        found: &Found<'_>,
    ) -> Result<(), NoMemory>
        requires { found.now.ttl ≡ None }
        ensures ok { OnOk result (TakesFound found.now moment self.old self.new) }
        ensures err { OnErr result (IsSameTable self.old self.new) }
    {
        settle(
            alloc,
            &mut self.known,
            &[],
            found.revoked.as_slice(),
            moment,
        )?;
        self.last = Some(moment);
        Ok(())
    }
}

// A key is trusted, as an rdata, if it counts.
fn trust(alloc: Global, known: &mut Known, rdata: &[u8]) -> Result<(), NoMemory>
    ensures { OnOk result ((q : List ℕ) → standing_in known.new q
        ≡ (if is_given (rdata.now ∷ []) q then Trusted else standing_in known.old q)) }
{
    let Some(key) = key_of(rdata) else {
        return Ok(());
    };
    let own = Vec::from_slice(alloc, key.bytes())?;
    known.insert(own, Standing::Trusted)?;
    Ok(())
}

// The keys that are given, as rdatas, are trusted.
fn known_of(alloc: Global, given: &[Rdata]) -> Result<Known, NoMemory>
    ensures { IfOk result (λ known. (q : List ℕ) → standing_in known q ≡ (if is_given given.now q then Trusted else Unknown)) }
{
    let mut known = BTreeMap::new(alloc);
    for rdata in given {
        trust(alloc, &mut known, rdata.as_slice())?;
    }
    Ok(known)
}

// The stretch of a key that a sighting shows: the one that goes on, or one that begins.
fn stretch_on(old: &Shown, key: &[u8], moment: u64, ttl: u32) -> Stretch
    ensures { Some result ≡ gone_on true (entry_at old.now key.now) moment ttl }
{
    match old.get(key) {
        Some(stretch) => *stretch,
        None => Stretch::begun(moment, ttl),
    }
}

// The stretches of the keys that an accepted sighting shows.
fn stretches(
    alloc: Global,
    old: &Shown,
    moment: u64,
    ttl: u32,
    keys: &[&[u8]],
) -> Result<Shown, NoMemory>
    ensures { IfOk result (λ shown. (q : List ℕ) → entry_at shown q
        ≡ gone_on (among q keys.now) (entry_at old.now q) moment ttl) }
{
    let mut shown = BTreeMap::new(alloc);
    for key in keys {
        let stretch = stretch_on(old, *key, moment, ttl);
        let own = Vec::from_slice(alloc, *key)?;
        shown.insert(own, stretch)?;
    }
    Ok(shown)
}

// The hold-down of a key is over at a moment.
fn is_through(shown: &Shown, key: &[u8], moment: u64) -> bool
    ensures { result ≡ is_done_at (entry_at shown.now key.now) moment }
{
    match shown.get(key) {
        Some(stretch) => stretch.is_done(moment),
        None => false,
    }
}

// Those of some keys whose hold-down is over at a moment.
fn keys_through<'a>(
    alloc: Global,
    shown: &Shown,
    moment: u64,
    keys: &[&'a [u8]],
) -> Result<Vec<&'a [u8]>, NoMemory>
    ensures { IfOk result (λ v. (q : List ℕ) → among q v.items
        ≡ (is_done_at (entry_at shown.now q) moment && among q keys.now)) }
{
    let mut through = Vec::new(alloc);
    for key in keys {
        let key = *key;
        if is_through(shown, key, moment) {
            through.push(key)?;
        }
    }
    Ok(through)
}

// Some keys came through their hold-down, and some are revoked. Where memory runs out, what is known of each stays.
fn settle(
    alloc: Global,
    known: &mut Known,
    through: &[&[u8]],
    revoked: &[&[u8]],
    moment: u64,
) -> Result<(), NoMemory>
    ensures ok { OnOk result ((q : List ℕ) → standing_in known.new q
        ≡ settled (among q revoked.now) moment (among q through.now) (standing_in known.old q)) }
    ensures err { OnErr result ((q : List ℕ) → standing_in known.new q ≡ standing_in known.old q) }
{
    make_all_room(alloc, known, through)?;
    make_all_room(alloc, known, revoked)?;
    change_all(known, through, Change::Trust);
    change_all(known, revoked, Change::Revoke(moment));
    Ok(())
}

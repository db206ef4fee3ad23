//! The records that are kept, in order, and where the one of each place stands.
ghost use Rattle.std.specs.Prelude.{◌≡◌, ◌≤◌, [], length, drop, OnOk, OnErr};
ghost use Rattle.dns_aggressive.specs.Lists.{kept_after};
ghost use Rattle.std.specs.Option.{option_copied};
ghost use Rattle.dns_aggressive.specs.Denials.{group, has_live as has_live_in, seconds_left as seconds_left_in};
ghost use Rattle.dns_aggressive.specs.KeptLists.{AreNsecsOf};
ghost use Rattle.dns_aggressive.specs.ZoneRuns.{IsZoneRun};

use crate::compacting::{Room, settle};
use crate::expiries::Expiries;
use crate::kept::Kept;
use crate::nsec_group::NsecGroup;
use crate::placing::place_from;
use crate::reaching::zone_part;
use crate::zone_run::ZoneRun;
use dns_denial::Nsec3Parameters;
use dns_record::{Name, NameRef, NoMemory};
use std::alloc::Global;
use std::marker::Model;

/// Records, the one that was kept first first, each with a place of its own. Contracts see the list.
pub(crate) struct KeptList {
    records: Vec<Kept>,
    // So many first ones are no longer kept: they are passed over, until all are gone over once.
    gone: usize,
    // The position of the newest record of each place, in order of places.
    by_place: Vec<usize>,
    // The positions of those that aren't gone, by when they expire.
    expiries: Expiries,
    // The positions of those whose names go on behind the owner that comes next, zone by zone.
    reaching: Vec<usize>,
}

impl Model for KeptList {
    ghost use Rattle.std.specs.Prelude.{List, drop};
    ghost use Rattle.dns_aggressive.specs.Records.{KeptValue};
    ghost use Rattle.dns_aggressive.specs.KeptLists.{IsKeptList};

    ghost Value = { List KeptValue };

    ghost view = { λ l. drop l.gone l.records.items };

    ghost invariant = { λ l. IsKeptList l.records.items l.gone l.by_place.items l.expiries l.reaching.items };
}

// By hand, so that a function that lets one go calls this.
impl Drop for KeptList {
    fn drop(self) {
        let KeptList {
            records: _,
            gone: _,
            by_place: _,
            expiries: _,
            reaching: _,
        } = self;
    }
}

impl KeptList {
    /// No record.
    pub(crate) fn new(alloc: Global) -> KeptList
        ensures { result ≡ [] }
    {
        KeptList {
            records: Vec::new(alloc),
            gone: 0,
            by_place: Vec::new(alloc),
            expiries: Expiries::new(alloc),
            reaching: Vec::new(alloc),
        }
    }

    /// The records.
    pub(crate) fn as_slice(&self) -> &[Kept]
        ensures { result.now ≡ self.now }
    {
        &self.records[self.gone..]
    }

    /// Those of a zone.
    pub(crate) fn of_zone(&self, zone: &NameRef<'_>) -> ZoneRun<'_>
        ensures { IsZoneRun self.now zone.now result }
    {
        ZoneRun::new(&self.records, self.gone, &self.by_place, zone)
    }

    /// The live NSEC records of a zone at a moment.
    pub(crate) fn nsecs(&self, zone: &NameRef<'_>, now: u64) -> NsecGroup<'_>
        ensures { AreNsecsOf self.now zone.now now result }
    {
        let run = ZoneRun::new(&self.records, self.gone, &self.by_place, zone);
        NsecGroup::new(run, zone_part(&self.records, &self.reaching, zone), now)
    }

    /// Whether a zone has a record that is still used at a moment.
    pub(crate) fn has_live(&self, zone: &NameRef<'_>, now: u64) -> bool
        ensures { result ≡ has_live_in now self.now zone.now }
    {
        self.expiries.has_live(&self.records, zone, now)
    }

    /// Seconds for which all live records of a group are still used, and no more than a ttl can say.
    pub(crate) fn seconds_left(
        &self,
        zone: &Name,
        way: Option<&Nsec3Parameters<'_>>,
        now: u64,
    ) -> u32
        ensures { result ≡ seconds_left_in now (group now zone.now self.now (option_copied way.entry)) }
    {
        self.expiries.seconds_left(&self.records, zone, way, now)
    }

    /// Keeps more records behind the others, each in place of an older one of its place, and then no more than the limit: the first
    /// ones go.
    pub(crate) fn learn(&mut self, taken: Vec<Kept>, limit: usize) -> Result<(), NoMemory>
        ensures ok { OnOk result (self.new ≡ kept_after limit self.old taken.items) }
        ensures err { OnErr result (self.new ≡ self.old) }
    {
        let mut taken = taken;
        let count = self.records.len();
        self.records.try_reserve(taken.len())?;
        self.by_place.try_reserve(taken.len())?;
        self.expiries.reserve(taken.len())?;
        self.reaching.try_reserve(2 * taken.len())?;
        let room = Room::new(*self.records.allocator(), count + taken.len())?;
        self.records.append(&mut taken)?;
        let replaced = place_from(
            &self.records,
            &mut self.by_place,
            &mut self.reaching,
            count,
            self.gone,
        );
        self.expiries.add_from(&self.records, count);
        self.gone = settle(
            &mut self.records,
            &mut self.by_place,
            &mut self.expiries,
            &mut self.reaching,
            self.gone,
            replaced,
            room,
        );
        let more = (self.records.len() - self.gone).saturating_sub(limit);
        self.let_go(more);
        Ok(())
    }

    // The first ones go, so many.
    fn let_go(&mut self, more: usize)
        requires { more ≤ length self.old }
        ensures { self.new ≡ drop more self.old }
    {
        if more > 0 {
            self.gone += more;
            self.expiries.let_go(self.gone);
        }
    }
}

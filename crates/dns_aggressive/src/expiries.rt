//! When the records of a zone and those of a group expire: whether one is live, and for how long all live ones are, by searches.
ghost use Rattle.std.specs.Prelude.{◌≡◌, ◌-◌, ◌≤◌, ℕ, [], length, drop, nat_le, OnOk};
ghost use Rattle.std.specs.List.{filter};
ghost use Rattle.std.specs.Option.{option_copied};
ghost use Rattle.dns_aggressive.specs.Denials.{group, has_live as has_live_in, seconds_left as seconds_left_in};
ghost use Rattle.dns_aggressive.specs.Expiring.{AreExpiries, HasSpace, HaveAll};

use crate::kept::Kept;
use crate::live::{is_live_in, left_of};
use crate::order::{passed, record_at};
use crate::sorting::{DeadIn, Sorting, group_key, let_go, sort_in_from};
use crate::zone_run::UpToZone;
use dns_denial::Nsec3Parameters;
use dns_record::{Name, NameRef, NoMemory};
use std::alloc::Global;

/// The positions of records that aren't gone, by when these expire.
pub(crate) struct Expiries {
    /// Those of one zone together.
    pub(crate) by_zone: Vec<usize>,
    /// Those of one group together.
    pub(crate) by_group: Vec<usize>,
}

// By hand, so that a function that lets one go calls this.
impl Drop for Expiries {
    fn drop(self) {
        let Expiries {
            by_zone: _,
            by_group: _,
        } = self;
    }
}

impl Expiries {
    /// Those of no record.
    pub(crate) fn new(alloc: Global) -> Expiries
        ensures zone { result.by_zone.items ≡ [] }
        ensures group { result.by_group.items ≡ [] }
    {
        Expiries {
            by_zone: Vec::new(alloc),
            by_group: Vec::new(alloc),
        }
    }

    /// Makes room for so many more.
    pub(crate) fn reserve(&mut self, more: usize) -> Result<(), NoMemory>
        ensures zone { self.new.by_zone.items ≡ self.old.by_zone.items }
        ensures group { self.new.by_group.items ≡ self.old.by_group.items }
        ensures room { OnOk result (HasSpace more self.new) }
    {
        self.by_zone.try_reserve(more)?;
        self.by_group.try_reserve(more)?;
        Ok(())
    }

    /// Adds the positions from one on.
    pub(crate) fn add_from(&mut self, kept: &[Kept], from: usize)
        requires sorted { AreExpiries kept.now from self.old }
        requires within { from ≤ length kept.now }
        requires room { HasSpace (length kept.now - from) self.old }
        ensures sorted { AreExpiries kept.now (length kept.now) self.new }
        ensures all { (gone : ℕ) → gone ≤ from → HaveAll gone from self.old → HaveAll gone (length kept.now) self.new }
    {
        sort_in_from(kept, &mut self.by_zone, Sorting::ByZone, from);
        sort_in_from(kept, &mut self.by_group, Sorting::ByGroup, from);
    }

    /// Takes out the positions before one.
    pub(crate) fn let_go(&mut self, gone: usize)
        ensures zone { self.new.by_zone.items ≡ filter (λ position. nat_le gone position) self.old.by_zone.items }
        ensures group { self.new.by_group.items ≡ filter (λ position. nat_le gone position) self.old.by_group.items }
    {
        let_go(&mut self.by_zone, gone);
        let_go(&mut self.by_group, gone);
    }

    /// Whether a zone has a live record: the one that expires last is live.
    pub(crate) fn has_live(&self, kept: &[Kept], zone: &NameRef<'_>, now: u64) -> bool
        requires { AreExpiries kept.now (length kept.now) self.now }
        ensures { (gone : ℕ) → HaveAll gone (length kept.now) self.now → result ≡ has_live_in now (drop gone kept.now) zone.now }
    {
        let number = passed(kept, &self.by_zone, &UpToZone(zone));
        if number == 0 {
            return false;
        }
        let position = self.by_zone[number - 1];
        is_live_in(record_at(kept, position), zone, now)
    }

    /// Seconds for which all live records of a group are still used, and no more than a ttl can say.
    pub(crate) fn seconds_left(
        &self,
        kept: &[Kept],
        zone: &Name,
        way: Option<&Nsec3Parameters<'_>>,
        now: u64,
    ) -> u32
        requires { AreExpiries kept.now (length kept.now) self.now }
        ensures { (gone : ℕ) → HaveAll gone (length kept.now) self.now
            → result ≡ seconds_left_in now (group now zone.now (drop gone kept.now) (option_copied way.entry)) }
    {
        let number = passed(kept, &self.by_group, &DeadIn(group_key(zone, way, now)));
        if number == self.by_group.len() {
            return u32::MAX;
        }
        let position = self.by_group[number];
        left_of(record_at(kept, position), zone, way, now)
    }
}

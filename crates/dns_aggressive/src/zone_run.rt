//! The records of one zone among those that are kept.
ghost use Rattle.std.specs.Prelude.{◌≡◌, ◌++◌, ◌∷◌, ◌≤◌, ◌<◌, ℕ, [], false, length, IfOk, OnOk, option_copied};
ghost use Rattle.std.specs.Prelude.{List};
ghost use Rattle.std.specs.List.{filter, list_any, Contains};
ghost use Rattle.dns_model.specs.Names.{Labels};
ghost use Rattle.dns_aggressive.specs.Records.{KeptValue};
ghost use Rattle.dns_aggressive.specs.Groups.{lent};
ghost use Rattle.dns_aggressive.specs.Denials.{is_live_in, nsec3s_in};
ghost use Rattle.dns_aggressive.specs.ZoneRuns.{IsAscending};
ghost use Rattle.dns_aggressive.specs.Places.{record_cmp};
ghost use Rattle.dns_aggressive.specs.Orders.{at, AreInside, AreLatest, AreRising, IsPlaced};
ghost use Rattle.dns_aggressive.specs.ZoneRuns.{standing, standing_at, stands_hashed, IsZoneRun};
ghost use Rattle.std.specs.Prelude.{drop};

use crate::kept::Kept;
use crate::order::{Probe, passed, record_at};
use dns_rdata::Nsec3Record;
use dns_record::{NameRef, NoMemory};
use std::alloc::Global;
use std::cmp::Ordering;

/// The records of one zone, by their positions in order of places. Some of them may be gone.
#[derive(Drop)]
pub(crate) struct ZoneRun<'a> {
    pub(crate) kept: &'a [Kept],
    pub(crate) gone: usize,
    pub(crate) positions: &'a [usize],
}

/// Records of zones that come before this one.
#[derive(Drop)]
pub(crate) struct BeforeZone<'a, 'b>(pub(crate) &'a NameRef<'b>);

impl<'a, 'b> Probe for BeforeZone<'a, 'b> {
    ghost use Rattle.dns_model.specs.Names.{before};

    ghost passes = { λ p k. before k.zone p.0.now };

    fn is_passed(&self, kept: &Kept) -> bool {
        kept.zone.borrowed().cmp_name(self.0) == Ordering::Less
    }
}

/// Records of this zone and of those that come before it.
#[derive(Drop)]
pub(crate) struct UpToZone<'a, 'b>(pub(crate) &'a NameRef<'b>);

impl<'a, 'b> Probe for UpToZone<'a, 'b> {
    ghost use Rattle.std.specs.Ordering.{is_le};
    ghost use Rattle.dns_model.specs.Names.{name_cmp};

    ghost passes = { λ p k. is_le (name_cmp k.zone p.0.now) };

    fn is_passed(&self, kept: &Kept) -> bool {
        kept.zone.borrowed().cmp_name(self.0) != Ordering::Greater
    }
}

impl<'a> ZoneRun<'a> {
    /// Those of a zone among records of which the first ones are gone, where all stand in order of their places.
    pub(crate) fn new(
        kept: &'a [Kept],
        gone: usize,
        by_place: &'a [usize],
        zone: &NameRef<'_>,
    ) -> ZoneRun<'a>
        requires placed { IsPlaced kept.now (length kept.now) by_place.now }
        requires latest { AreLatest kept.now gone (length kept.now) }
        ensures run { IsZoneRun (drop gone kept.now) zone.now result }
        ensures kept { result.kept.now ≡ kept.now }
        ensures among { (position : ℕ) → Contains result.positions.now position → Contains by_place.now position }
    {
        let low = passed(kept, by_place, &BeforeZone(zone));
        let high = passed(kept, by_place, &UpToZone(zone));
        let positions = &by_place[low..high];
        ZoneRun {
            kept,
            gone,
            positions,
        }
    }

    /// The record at a position, where it isn't gone and is still used.
    pub(crate) fn standing(&self, position: usize, now: u64) -> Option<&'a Kept>
        requires { position < length self.now.kept.now }
        ensures { option_copied result ≡ standing_at self.now.kept.now self.now.gone now position }
    {
        let one = record_at(self.kept, position);
        if self.gone <= position && one.is_live(now) {
            Some(one)
        } else {
            None
        }
    }

    /// Whether the zone may have NSEC3 records: these stand behind all others.
    pub(crate) fn has_nsec3(&self) -> bool
        requires inside { AreInside (length self.now.kept.now) self.now.positions.now }
        requires rising { AreRising record_cmp self.now.kept.now self.now.positions.now }
        ensures { (list : List KeptValue) (zone : Labels) (now : ℕ) → IsZoneRun list zone self.now → result ≡ false
            → list_any (stands_hashed self.now now) self.now.positions.now ≡ false }
    {
        let number = self.positions.len();
        if number == 0 {
            return false;
        }
        let position = self.positions[number - 1];
        record_at(self.kept, position).is_nsec3()
    }

    /// The NSEC3 records that are still used at a moment, in the order in which they were kept.
    pub(crate) fn live_nsec3s(
        &self,
        alloc: Global,
        now: u64,
    ) -> Result<Vec<&'a Nsec3Record>, NoMemory>
        requires { AreInside (length self.now.kept.now) self.now.positions.now }
        ensures { (list : List KeptValue) (zone : Labels) → IsZoneRun list zone self.now
            → IfOk result (λ nsec3s. lent nsec3s.items ≡ nsec3s_in (filter (is_live_in now zone) list)) }
    {
        let positions = ascending(alloc, self.positions)?;
        self.nsec3s_at(alloc, &positions, now)
    }

    // Those at some positions, in their order.
    fn nsec3s_at(
        &self,
        alloc: Global,
        positions: &[usize],
        now: u64,
    ) -> Result<Vec<&'a Nsec3Record>, NoMemory>
        requires { AreInside (length self.now.kept.now) positions.now }
        ensures { IfOk result (λ nsec3s. lent nsec3s.items ≡ nsec3s_in (standing self.now now positions.now)) }
    {
        let mut nsec3s = Vec::new(alloc);
        for position in positions {
            self.push_nsec3(&mut nsec3s, *position, now)?;
        }
        Ok(nsec3s)
    }

    // Adds the record at a position, if it is an NSEC3 record that is still used.
    #[tactic(auto, using(crate::proofs::Loops::lent_more))]
    fn push_nsec3(
        &self,
        nsec3s: &mut Vec<&'a Nsec3Record>,
        position: usize,
        now: u64,
    ) -> Result<(), NoMemory>
        requires { position < length self.now.kept.now }
        ensures { OnOk result (lent nsec3s.new.items ≡ lent nsec3s.old.items ++ nsec3s_in (standing self.now now (position ∷ []))) }
    {
        let Some(one) = self.standing(position, now) else {
            return Ok(());
        };
        if let Some(nsec3) = one.item.nsec3() {
            nsec3s.push(nsec3)?;
        }
        Ok(())
    }
}

// The positions from the least on, each once.
fn ascending(alloc: Global, positions: &[usize]) -> Result<Vec<usize>, NoMemory>
    ensures { IfOk result (λ all. IsAscending positions.now all.items) }
{
    let mut all = Vec::from_slice(alloc, positions)?;
    all.sort_unstable();
    all.dedup();
    Ok(all)
}

//! A zone: its name and its key.
ghost use Rattle.std.specs.Prelude.{◌≡◌, ◌<◌, ◌≤◌, ◌+◌, ◌∷◌, length, IfOk};
ghost use Rattle.dns_model.specs.Names.{folded, wire};
ghost use Rattle.dns_model.specs.Signing.{key_tag_of};
ghost use Rattle.dns_bench_zones.specs.NestedZones.{zone_name, host_name, key_rdata};

use crate::ZoneCount;
use dns_rdata::key_tag;
use dns_record::{Name, NoMemory, Octets};
use std::alloc::Global;
use std::marker::Model;

/// A zone, the root or one of at most 100 below it. Contracts see it as its number, from 0.
#[derive(Drop)]
pub(crate) struct Zone {
    number: u8,
    name: Name,
}

impl Model for Zone {
    ghost use Rattle.std.specs.Prelude.{ℕ, ◌≡◌, ◌≤◌};
    ghost use Rattle.dns_bench_zones.specs.NestedZones.{zone_name};

    ghost Value = { ℕ };

    ghost view = { λ z. z.number };

    ghost invariant = { λ z. (z.number ≤ 100) × (z.name ≡ zone_name z.number) };
}

// The name with one more label in front.
#[tactic(auto, using(crate::proofs::NameLemmas::form_below, crate::proofs::NameLemmas::read_below))]
fn below(alloc: Global, label: &[u8], name: &Name) -> Result<Name, NoMemory>
    requires some { 0 < length label.now }
    requires short { length label.now ≤ 3 }
    requires room { length (wire name.now) < 250 }
    ensures { IfOk result (λ n. n ≡ label.now ∷ name.now) }
{
    let mut bytes = Vec::new(alloc);
    bytes.push(label.len() as u8)?;
    bytes.extend_from_slice(label)?;
    bytes.extend_from_slice(name.wire())?;
    Ok(Name::from_octets(Octets::from_vec(bytes)))
}

impl Zone {
    /// The root.
    pub(crate) fn root(alloc: Global) -> Result<Zone, NoMemory>
        ensures { IfOk result (λ z. z ≡ 0) }
    {
        let name = Name::root(alloc)?;
        Ok(Zone { number: 0, name })
    }

    /// The zone below this one.
    #[tactic(auto, using(crate::proofs::NameLemmas::zone_room))]
    pub(crate) fn child(&self, alloc: Global) -> Result<Zone, NoMemory>
        requires { self.now < 100 }
        ensures { IfOk result (λ z. z ≡ self.now + 1) }
    {
        let name = below(alloc, b"z", &self.name)?;
        Ok(Zone {
            number: self.number + 1,
            name,
        })
    }

    /// The last of so many zones below the root.
    pub(crate) fn last(alloc: Global, zones: ZoneCount) -> Result<Zone, NoMemory>
        ensures { IfOk result (λ z. z ≡ zones) }
    {
        let mut zone = Zone::root(alloc)?;
        'zones: while zone.number() < zones.number() {
            zone = zone.child(alloc)?;
        }
        Ok(zone)
    }

    /// The number.
    pub(crate) fn number(&self) -> u8
        ensures number { result ≡ self.now }
        ensures most { result ≤ 100 }
    {
        self.number
    }

    /// The name.
    #[tactic(auto, using(crate::proofs::NameLemmas::folded_room))]
    pub(crate) fn name(&self) -> &Name
        ensures value { result.now ≡ zone_name self.now }
        ensures short { length (wire (folded result.now)) ≤ 255 }
    {
        &self.name
    }

    /// The name of the zone's host.
    #[tactic(auto, using(crate::proofs::NameLemmas::zone_room))]
    pub(crate) fn host_name(&self, alloc: Global) -> Result<Name, NoMemory>
        ensures { IfOk result (λ n. n ≡ host_name self.now) }
    {
        below(alloc, b"www", &self.name)
    }

    /// The rdata of the key.
    pub(crate) fn key(&self) -> [u8; 6]
        ensures { result ≡ key_rdata self.now }
    {
        [1, 1, 3, 13, 0, self.number]
    }

    /// The tag of the key.
    pub(crate) fn key_tag(&self) -> u16
        ensures { result ≡ key_tag_of (key_rdata self.now) }
    {
        key_tag(&self.key()).unwrap_or(0)
    }
}

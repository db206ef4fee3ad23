//! NSEC3 records by how their owners are hashed (RFC 5155, 8.2): records that are hashed in several ways prove nothing together.
ghost use Rattle.std.specs.Prelude.{◌≡◌, ◌++◌, ◌∷◌, [], IfOk, OnOk};
ghost use Rattle.dns_model.specs.Owned.{OwnedNsec3};
ghost use Rattle.std.specs.Prelude.{List};
ghost use Rattle.dns_aggressive.specs.Groups.{IsGrouped, lent, of_way};

use dns_denial::Nsec3Parameters;
use dns_rdata::Nsec3Record;
use dns_record::NoMemory;
use std::alloc::Global;
use std::collections::BTreeMap;

// Iterations and salt, as a key of an ordered map.
type WayKey<'a> = (u16, &'a [u8]);

/// NSEC3 records by how their owners are hashed.
pub(crate) struct Nsec3Groups<'a> {
    /// The first record of each group, in order.
    pub(crate) firsts: Vec<&'a Nsec3Record>,
    groups: BTreeMap<WayKey<'a>, Vec<&'a Nsec3Record>>,
}

// By hand, so that a function that lets one go calls this.
impl<'a> Drop for Nsec3Groups<'a> {
    fn drop(self) {
        let Nsec3Groups {
            firsts: _,
            groups: _,
        } = self;
    }
}

impl<'a> Nsec3Groups<'a> {
    /// Those of a list.
    pub(crate) fn new(
        alloc: Global,
        nsec3s: &[&'a Nsec3Record],
    ) -> Result<Nsec3Groups<'a>, NoMemory>
        ensures { IfOk result (λ groups. IsGrouped (lent nsec3s.now) groups) }
    {
        let mut groups = Nsec3Groups {
            firsts: Vec::new(alloc),
            groups: BTreeMap::new(alloc),
        };
        for nsec3 in nsec3s {
            groups.add(alloc, *nsec3)?;
        }
        Ok(groups)
    }

    // Adds a record behind the others.
    fn add(&mut self, alloc: Global, nsec3: &'a Nsec3Record) -> Result<(), NoMemory>
        ensures { (list : List OwnedNsec3) → IsGrouped list self.old → OnOk result (IsGrouped (list ++ nsec3.now ∷ []) self.new) }
    {
        let way = (nsec3.iterations, nsec3.salt.as_slice());
        if let Some(group) = self.groups.get_mut(&way) {
            group.push(nsec3)?;
            return Ok(());
        }
        let mut group = Vec::new(alloc);
        group.push(nsec3)?;
        self.groups.insert(way, group)?;
        self.firsts.push(nsec3)?;
        Ok(())
    }

    /// Copies of the records of a group, in order.
    pub(crate) fn copies(
        &self,
        alloc: Global,
        way: &Nsec3Parameters<'a>,
    ) -> Result<Vec<Nsec3Record>, NoMemory>
        ensures { (list : List OwnedNsec3) → IsGrouped list self.now → IfOk result (λ nsec3s. nsec3s.items ≡ of_way way.now list) }
    {
        match self.groups.get(&(way.iterations, way.salt)) {
            Some(group) => copies_of(alloc, group),
            None => Ok(Vec::new(alloc)),
        }
    }
}

// Copies of records, in order.
fn copies_of(alloc: Global, nsec3s: &[&Nsec3Record]) -> Result<Vec<Nsec3Record>, NoMemory>
    ensures { IfOk result (λ copies. copies.items ≡ lent nsec3s.now) }
{
    let mut copies = Vec::with_capacity(alloc, nsec3s.len())?;
    for nsec3 in nsec3s {
        copies.push(nsec3.try_clone()?)?;
    }
    Ok(copies)
}

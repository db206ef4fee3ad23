//! The records of one name, type and class, with their signatures (RFC 2181, 5).
ghost use Rattle.std.specs.Prelude.{◌≡◌, ◌∷◌, ◌++◌, [], IsTrue, IfOk, IfErr, OnOk, OnErr, slice_get};
ghost use Rattle.dns_model.specs.Names.{name_eq};
ghost use Rattle.dns_model.specs.SoundAnswers.{ttl_of};

use crate::record::clone_records;
use crate::{DNSClass, Name, NoMemory, Record, RecordType};
use std::alloc::Global;
use std::marker::Model;

/// The records of one name, type and class, with the signatures that cover them (RFC 2181, 5).
pub struct RecordSet {
    /// The owner of each record.
    pub name: Name,
    /// The type of each record.
    pub record_type: RecordType,
    /// The class of each record.
    pub dns_class: DNSClass,
    /// The records of the type.
    pub records: Vec<Record>,
    /// The signatures over them.
    pub rrsigs: Vec<Record>,
}

impl Model for RecordSet {
    ghost use Rattle.dns_model.specs.Records.{RrSet};

    ghost Value = { RrSet };

    ghost view = { λ s. record {
      owner = s.name;
      rtype = s.record_type.0;
      class = s.dns_class.0;
      records = s.records.items;
      signatures = s.rrsigs.items;
    } };
}

// By hand, so that a function that lets a set go calls this.
impl Drop for RecordSet {
    fn drop(self) {
        let RecordSet {
            name: _,
            record_type: _,
            dns_class: _,
            records: _,
            rrsigs: _,
        } = self;
    }
}

impl RecordSet {
    /// The set of one record: its name, type and class, and no signatures.
    pub fn of(alloc: Global, first: Record) -> Result<RecordSet, NoMemory>
        ensures { IfOk result (λ s. s ≡ record {
          owner = first.owner;
          rtype = first.rtype;
          class = first.class;
          records = first ∷ [];
          signatures = [];
        }) }
    {
        let name = first.name.try_clone()?;
        let record_type = first.record_type;
        let dns_class = first.dns_class;
        let mut records = Vec::new(alloc);
        records.push(first)?;
        Ok(RecordSet {
            name,
            record_type,
            dns_class,
            records,
            rrsigs: Vec::new(alloc),
        })
    }

    /// Adds a record of the same name, type and class. Where memory runs out, it hands the record back, and the set stays.
    pub fn push(&mut self, next: Record) -> Result<(), Record>
        requires name { IsTrue (name_eq self.old.owner next.owner) }
        requires rtype { self.old.rtype ≡ next.rtype }
        requires class { self.old.class ≡ next.class }
        ensures ok { OnOk result (self.new ≡ record self.old { records = self.old.records ++ next ∷ [] }) }
        ensures err { OnErr result (self.new ≡ self.old) }
        ensures back { IfErr result (λ r. r ≡ next) }
    {
        match self.records.push(next) {
            Ok(()) => Ok(()),
            Err(refused) => Err(refused.value),
        }
    }

    /// Seconds: the ttl of the first record, and 0 where there is none.
    pub fn first_ttl(&self) -> u32
        ensures { result ≡ ttl_of (slice_get self.now.records 0) }
    {
        match self.records.first() {
            Some(first) => first.ttl,
            None => 0,
        }
    }

    /// An equal value; long octets are shared.
    pub fn try_clone(&self) -> Result<RecordSet, NoMemory>
        ensures { IfOk result (λ s. s ≡ self.now) }
    {
        let name = self.name.try_clone()?;
        let records = clone_records(&self.records)?;
        let rrsigs = clone_records(&self.rrsigs)?;
        Ok(RecordSet {
            name,
            record_type: self.record_type,
            dns_class: self.dns_class,
            records,
            rrsigs,
        })
    }
}

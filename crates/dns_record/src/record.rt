//! Resource records with their marks (RFC 1035, 3.2.1).
ghost use Rattle.std.specs.Prelude.{◌≡◌, IfOk};
ghost use Rattle.dns_model.specs.Sections.{same_record};

use crate::{DNSClass, Name, NoMemory, Rdata, RecordType};
use dns_model::Proof;
use std::marker::Model;

/// A resource record (RFC 1035, 3.2.1), with what validation found out of it.
#[derive(Drop)]
pub struct Record {
    /// The owner.
    pub name: Name,
    /// What the rdata is.
    pub record_type: RecordType,
    /// The class, IN for nearly all.
    pub dns_class: DNSClass,
    /// Seconds for which the record may be kept.
    pub ttl: u32,
    /// The data, in the shape of its type.
    pub rdata: Rdata,
    /// The mark: what was found out of the record (RFC 4033, 5).
    pub proof: Proof,
}

impl Model for Record {
    ghost use Rattle.dns_model.specs.Records.{Rr};

    ghost Value = { Rr };

    ghost view = { λ r. record {
      owner = r.name;
      rtype = r.record_type.0;
      class = r.dns_class.0;
      ttl = r.ttl;
      rdata = r.rdata;
      proof = r.proof;
    } };
}

impl Record {
    /// An equal value; long octets are shared.
    pub fn try_clone(&self) -> Result<Record, NoMemory>
        ensures { IfOk result (λ r. r ≡ self.now) }
    {
        let name = self.name.try_clone()?;
        let rdata = self.rdata.try_clone()?;
        Ok(Record {
            name,
            record_type: self.record_type,
            dns_class: self.dns_class,
            ttl: self.ttl,
            rdata,
            proof: self.proof,
        })
    }

    /// One record with another, whatever their ttls and marks: of one name, type, class and rdata (RFC 2181, 5).
    pub fn is_same(&self, other: &Record) -> bool
        ensures { result ≡ same_record self.now other.now }
    {
        self.name == other.name
            && self.record_type == other.record_type
            && self.dns_class == other.dns_class
            && self.rdata == other.rdata
    }
}

/// Equal records in order, which share their long octets.
pub fn clone_records(records: &Vec<Record>) -> Result<Vec<Record>, NoMemory>
    ensures { IfOk result (λ v. v.items ≡ records.now.items) }
{
    let mut all = Vec::with_capacity(*records.allocator(), records.len())?;
    for record in records {
        let next = record.try_clone()?;
        all.push(next)?;
    }
    Ok(all)
}

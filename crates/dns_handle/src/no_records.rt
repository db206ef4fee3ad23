//! That there are no records to a question (RFC 2308, 2), and what a server says beside it.
ghost use Rattle.std.specs.Prelude.{◌≡◌, IfOk};
ghost use Rattle.dns_handle.specs.NoRecords.{bare_no_records};

use dns_record::{NoMemory, Query, Record, ResponseCode, clone_records};
use std::alloc::Global;
use std::marker::Model;

/// That there are no records to a question, and what the server said beside it (RFC 2308, 2).
#[derive(Drop)]
pub struct NoRecords {
    /// The question that has no records.
    pub query: Query,
    /// The SOA of the zone that says so.
    pub soa: Option<Record>,
    /// The servers of the zone to ask, where the server only refers to it.
    pub ns: Vec<ForwardNSData>,
    /// Seconds for which it may be believed (RFC 2308, 5).
    pub negative_ttl: Option<u32>,
    /// NOERROR, or NXDOMAIN where the name doesn't exist.
    pub response_code: ResponseCode,
    /// The records of the authority section.
    pub authorities: Vec<Record>,
}

impl Model for NoRecords {
    ghost use Rattle.dns_handle.specs.NoRecords.{NoRecordsValue};

    ghost Value = { NoRecordsValue };

    ghost view = { λ n. record {
      query = n.query;
      soa = n.soa;
      ns = n.ns.items;
      negative_ttl = n.negative_ttl;
      response_code = n.response_code.0;
      authorities = n.authorities.items;
    } };
}

/// An NS record, with the addresses of the server that it names (RFC 1034, 4.2.1).
pub struct ForwardNSData {
    /// The NS record.
    pub ns: Record,
    /// A and AAAA records.
    pub glue: Vec<Record>,
}

// By hand, so that a function that drops one calls this.
impl Drop for ForwardNSData {
    fn drop(self) {
        let ForwardNSData { ns: _, glue: _ } = self;
    }
}

impl Model for ForwardNSData {
    ghost use Rattle.dns_handle.specs.NoRecords.{ForwardNsValue};

    ghost Value = { ForwardNsValue };

    ghost view = { λ f. record { ns = f.ns; glue = f.glue.items } };
}

// A copy of the name servers of a referral.
fn clone_forwarded(all: &Vec<ForwardNSData>) -> Result<Vec<ForwardNSData>, NoMemory>
    ensures { IfOk result (λ v. v.items ≡ all.now.items) }
{
    let mut copies = Vec::new(*all.allocator());
    for forwarded in all {
        let next = forwarded.try_clone()?;
        copies.push(next)?;
    }
    Ok(copies)
}

// A copy of the record, if there is one.
fn clone_soa(soa: &Option<Record>) -> Result<Option<Record>, NoMemory>
    ensures { IfOk result (λ s. s ≡ soa.now) }
{
    match soa {
        None => Ok(None),
        Some(soa) => {
            let soa = soa.try_clone()?;
            Ok(Some(soa))
        }
    }
}

impl NoRecords {
    /// A question and a code, and nothing beside them.
    pub fn new(alloc: Global, query: Query, response_code: ResponseCode) -> NoRecords
        ensures { result ≡ bare_no_records query response_code.0 }
    {
        NoRecords {
            query,
            soa: None,
            ns: Vec::new(alloc),
            negative_ttl: None,
            response_code,
            authorities: Vec::new(alloc),
        }
    }

    /// An equal value in memory of its own.
    pub fn try_clone(&self) -> Result<NoRecords, NoMemory>
        ensures { IfOk result (λ n. n ≡ self.now) }
    {
        let query = self.query.try_clone()?;
        let soa = clone_soa(&self.soa)?;
        let ns = clone_forwarded(&self.ns)?;
        let authorities = clone_records(&self.authorities)?;
        Ok(NoRecords {
            query,
            soa,
            ns,
            negative_ttl: self.negative_ttl,
            response_code: self.response_code,
            authorities,
        })
    }
}

impl ForwardNSData {
    /// An equal value in memory of its own.
    pub fn try_clone(&self) -> Result<ForwardNSData, NoMemory>
        ensures { IfOk result (λ f. f ≡ self.now) }
    {
        let ns = self.ns.try_clone()?;
        let glue = clone_records(&self.glue)?;
        Ok(ForwardNSData { ns, glue })
    }
}

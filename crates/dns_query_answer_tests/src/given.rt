//! What tests share: questions for the root, and answers to them.
use dns_evidence::Trail;
use dns_handle::DnsResponse;
use dns_message::Message;
use dns_model::{Denial, Proof};
use dns_record::{DNSClass, Name, NoMemory, Query, Rdata, Record, RecordType};
use std::alloc::Global;

/// What is asked for at the root.
pub(crate) fn query_of(alloc: Global, record_type: u16) -> Result<Query, NoMemory> {
    Ok(Query {
        name: Name::root(alloc)?,
        query_type: RecordType(record_type),
        query_class: DNSClass::IN,
    })
}

/// A record at the root.
pub(crate) fn record_of(alloc: Global, record_type: u16, proof: Proof) -> Result<Record, NoMemory> {
    Ok(Record {
        name: Name::root(alloc)?,
        record_type: RecordType(record_type),
        dns_class: DNSClass::IN,
        ttl: 60,
        rdata: Rdata::from_slice(alloc, b"")?,
        proof,
    })
}

/// An answer with these records.
pub(crate) fn answer_of(
    alloc: Global,
    records: &[(u16, Proof)],
    denial: Denial,
) -> Result<DnsResponse, NoMemory> {
    let mut message = Message::query(alloc);
    for one in records {
        let next = record_of(alloc, one.0, one.1)?;
        message.answers.push(next)?;
    }
    Ok(DnsResponse {
        message,
        chains: Vec::new(alloc),
        denial,
        trail: Trail::new(alloc),
    })
}

//! The signed bytes of a set, made many times.

use dns_model::Proof;
use dns_rdata::{Rrsig, signed_data};
use dns_record::{DNSClass, Name, NoMemory, Rdata, Record, RecordSet, RecordType};
use std::alloc::Global;

// An RRSIG's rdata without the signature, which isn't among the signed bytes: type A, algorithm 13, two labels, an hour,
// two moments, a tag, and the signer `zone.example.`.
fn signature_head() -> &'static [u8] {
    b"\x00\x01\x0d\x02\x00\x00\x0e\x10\x6a\x00\x00\x00\x69\x00\x00\x00\x12\x34\x04zone\x07example\x00"
}

// The address that is a number.
fn address(alloc: Global, owner: &Name, number: u16) -> Result<Record, NoMemory> {
    let rdata = Rdata::from_slice(alloc, &u32::from(number).to_be_bytes())?;
    let name = owner.try_clone()?;
    Ok(Record {
        name,
        record_type: RecordType::A,
        dns_class: DNSClass::IN,
        ttl: 3600,
        rdata,
        proof: Proof::Indeterminate,
    })
}

// The addresses of the numbers below this one, the greatest first.
fn address_records(alloc: Global, owner: &Name, count: u16) -> Result<Vec<Record>, NoMemory> {
    let mut records = Vec::new(alloc);
    for index in 0..count {
        let number = count - 1 - index;
        records.push(address(alloc, owner, number)?)?;
    }
    Ok(records)
}

// How many bytes the passes make: a signature of the signer's own set of so many addresses is over them.
fn count_signed(alloc: Global, set: &RecordSet, sig: &Rrsig, passes: u32) -> Result<u64, NoMemory> {
    let mut count: u64 = 0;
    for _ in 0..passes {
        let bytes = signed_data(alloc, set, sig)?;
        count = count.saturating_add(bytes.len() as u64);
    }
    Ok(count)
}

/// Makes the signed bytes of a set of so many addresses so many times, and answers how many bytes that were.
pub(crate) fn signed_count(alloc: Global, records: u16, passes: u32) -> Result<u64, NoMemory> {
    match Rrsig::read(signature_head()) {
        Some(sig) => {
            let owner = sig.signer.to_name(alloc)?;
            let records = address_records(alloc, &owner, records)?;
            let set = RecordSet {
                name: owner,
                record_type: RecordType::A,
                dns_class: DNSClass::IN,
                records,
                rrsigs: Vec::new(alloc),
            };
            count_signed(alloc, &set, &sig, passes)
        }
        None => Ok(0),
    }
}

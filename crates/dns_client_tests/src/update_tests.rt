//! Messages that change a zone, tell of it or ask for it, by their bytes.
use crate::parts::{Given, are_digits, check, first, name, set};
use crate::update_rows::{Call, Row, rows};
use dns_message::Message;
use dns_rdata::Soa;
use dns_record::{DNSClass, Name, Record, RecordSet, RecordType};
use dns_update::{
    append, compare_and_swap, create, delete_all, delete_by_rdata, delete_rrset, notify,
    zone_transfer,
};
use std::alloc::Global;
use std::process::Abort;
use std::rt::HostRuntime;

/// A message about a set of the zone; `None` where the zone isn't at or above it.
fn about_set(
    rt: &impl Abort,
    alloc: Global,
    zone: Name,
    call: &Call,
    set: RecordSet,
    edns: bool,
) -> Option<Message> {
    if !zone.zone_of(&set.name) {
        return None;
    }
    let message = match call {
        Call::Create(_) => create(alloc, set, zone, edns),
        Call::AppendToSet(_) => append(alloc, set, zone, true, edns),
        Call::Append(_) => append(alloc, set, zone, false, edns),
        _ => delete_by_rdata(alloc, set, zone, edns),
    };
    Some(message.expect(rt, "memory"))
}

/// A message that changes one set of the zone for another.
fn swapped(
    rt: &impl Abort,
    alloc: Global,
    zone: Name,
    current: RecordSet,
    new: RecordSet,
    edns: bool,
) -> Option<Message> {
    if !zone.zone_of(&current.name) || !zone.zone_of(&new.name) {
        return None;
    }
    let message = compare_and_swap(alloc, current, new, zone, edns);
    Some(message.expect(rt, "memory"))
}

/// A message that deletes all records of a name and type.
fn without_set(
    rt: &impl Abort,
    alloc: Global,
    zone: Name,
    first: Record,
    edns: bool,
) -> Option<Message> {
    if !zone.zone_of(&first.name) {
        return None;
    }
    let message = delete_rrset(alloc, first, zone, edns);
    Some(message.expect(rt, "memory"))
}

/// A message that deletes all records of a name.
fn without_name(
    rt: &impl Abort,
    alloc: Global,
    zone: Name,
    given: &Given,
    edns: bool,
) -> Option<Message> {
    let owner = name(rt, alloc, given.owner);
    if !zone.zone_of(&owner) {
        return None;
    }
    let message = delete_all(alloc, owner, zone, DNSClass(given.class), edns);
    Some(message.expect(rt, "memory"))
}

/// A message that tells a server of a set, with its records or without.
fn told(
    rt: &impl Abort,
    alloc: Global,
    given: &Given,
    records: Option<RecordSet>,
    edns: bool,
) -> Option<Message> {
    let owner = name(rt, alloc, given.owner);
    let class = DNSClass(given.class);
    let record_type = RecordType(given.record_type);
    let message = notify(alloc, owner, class, record_type, records, edns);
    Some(message.expect(rt, "memory"))
}

/// A query for a zone, or for its changes; `None` where the SOA can't be read.
fn asked(rt: &impl Abort, alloc: Global, zone: Name, known: Option<Record>) -> Option<Message> {
    if let Some(soa) = &known
        && Soa::of(soa).is_none()
    {
        return None;
    }
    let message = zone_transfer(alloc, zone, known);
    Some(message.expect(rt, "memory"))
}

/// The message that a call builds, if it may be made.
pub(crate) fn built(
    rt: &impl Abort,
    alloc: Global,
    zone: &str,
    call: &Call,
    edns: bool,
) -> Option<Message> {
    let zone = name(rt, alloc, zone);
    match call {
        Call::Swap(current, new) => {
            let current = set(rt, alloc, current);
            swapped(rt, alloc, zone, current, set(rt, alloc, new), edns)
        }
        Call::DeleteRrset(given) => without_set(rt, alloc, zone, first(rt, alloc, given), edns),
        Call::DeleteAll(given) => without_name(rt, alloc, zone, given, edns),
        Call::Notify(given) => told(rt, alloc, given, None, edns),
        Call::NotifyWith(given) => told(rt, alloc, given, Some(set(rt, alloc, given)), edns),
        Call::Axfr => asked(rt, alloc, zone, None),
        Call::Ixfr(soa) => asked(rt, alloc, zone, Some(first(rt, alloc, soa))),
        Call::Create(given)
        | Call::Append(given)
        | Call::AppendToSet(given)
        | Call::DeleteByRdata(given) => {
            about_set(rt, alloc, zone, call, set(rt, alloc, given), edns)
        }
    }
}

/// Whether what is read of bytes is written as these bytes again.
fn reads_back(rt: &impl Abort, alloc: Global, bytes: &[u8]) -> bool {
    if bytes.len() > 65_535 {
        return false;
    }
    let Ok(message) = Message::from_vec(alloc, bytes) else {
        return false;
    };
    let again = message.to_vec().expect(rt, "memory");
    again.as_slice() == bytes
}

fn holds(rt: &impl Abort, alloc: Global, row: &Row) -> bool {
    let Some(message) = built(rt, alloc, row.1, &row.2, row.3) else {
        return false;
    };
    let bytes = message.to_vec().expect(rt, "memory");
    are_digits(rt, alloc, bytes.as_slice(), row.4) && reads_back(rt, alloc, bytes.as_slice())
}

#[test]
fn messages_that_change_a_zone_have_their_bytes(rt: HostRuntime) {
    for row in rows() {
        check(&rt, row.0, holds(&rt, rt.alloc(), row));
    }
}

//! The calls of a client that send the messages of rows, over any handle, and what the client is answered.
use crate::parts::{Given, first, name, set};
use crate::transfer_tests::polled;
use crate::transfers::Came;
use crate::update_rows::Call;
use dns_client::ClientHandle;
use dns_handle::{DnsResponse, NetError, ProtoError};
use dns_mux::DnsResponseStream;
use dns_rdata::Soa;
use dns_record::{DNSClass, Name, Record, RecordSet, RecordType};
use dns_transfer::ClientStreamXfr;
use futures::test::MockTask;
use std::alloc::Global;
use std::process::Abort;

/// The time of each send.
pub(crate) const NOW: u64 = 1000;

/// What a client is answered.
#[derive(Clone, Copy, PartialEq)]
pub(crate) enum Said {
    Response,
    /// The message is too long.
    TooLong,
    Other,
    /// Nothing, since the call may not be made: the zone isn't at or above the name, or the SOA can't be read.
    Nothing,
}

fn said_by(reply: Result<DnsResponse, NetError>) -> Said {
    match reply {
        Ok(_) => Said::Response,
        Err(NetError::Proto(ProtoError::TooLong)) => Said::TooLong,
        Err(_) => Said::Other,
    }
}

/// Sends a message about a set of the zone.
fn send_about_set<C: ClientHandle>(
    alloc: Global,
    client: &mut C,
    zone: Name,
    call: &Call,
    set: RecordSet,
) -> Said {
    if !zone.zone_of(&set.name) {
        return Said::Nothing;
    }
    match call {
        Call::Create(_) => said_by(client.create(alloc, set, zone, NOW)),
        Call::AppendToSet(_) => said_by(client.append(alloc, set, zone, true, NOW)),
        Call::Append(_) => said_by(client.append(alloc, set, zone, false, NOW)),
        _ => said_by(client.delete_by_rdata(alloc, set, zone, NOW)),
    }
}

/// Sends a message that changes one set of the zone for another.
fn swap_sets<C: ClientHandle>(
    alloc: Global,
    client: &mut C,
    zone: Name,
    current: RecordSet,
    new: RecordSet,
) -> Said {
    if !zone.zone_of(&current.name) || !zone.zone_of(&new.name) {
        return Said::Nothing;
    }
    said_by(client.compare_and_swap(alloc, current, new, zone, NOW))
}

/// Sends a message that deletes all records of a name and type.
fn delete_set<C: ClientHandle>(alloc: Global, client: &mut C, zone: Name, first: Record) -> Said {
    if !zone.zone_of(&first.name) {
        return Said::Nothing;
    }
    said_by(client.delete_rrset(alloc, first, zone, NOW))
}

/// Sends a message that deletes all records of a name.
fn delete_name<C: ClientHandle>(
    alloc: Global,
    client: &mut C,
    zone: Name,
    owner: Name,
    class: DNSClass,
) -> Said {
    if !zone.zone_of(&owner) {
        return Said::Nothing;
    }
    said_by(client.delete_all(alloc, owner, zone, class, NOW))
}

/// Sends a message that tells a server of a set, with its records or without.
fn notify<C: ClientHandle>(
    alloc: Global,
    client: &mut C,
    owner: Name,
    given: &Given,
    records: Option<RecordSet>,
) -> Said {
    let class = DNSClass(given.class);
    let record_type = RecordType(given.record_type);
    said_by(client.notify(alloc, owner, class, record_type, records, NOW))
}

/// What comes of a transfer: a response, if it is the only one, without answers, and the end doesn't end the transfer.
fn said_by_transfer(mut transfer: ClientStreamXfr<DnsResponseStream>, task: &MockTask) -> Said {
    let came = polled(&mut transfer, task) == Came::Answers(0);
    let ends = polled(&mut transfer, task) == Came::End;
    if came && ends && !transfer.is_ended() {
        Said::Response
    } else {
        Said::Other
    }
}

/// Asks for a zone.
fn ask_for_zone<C: ClientHandle>(
    alloc: Global,
    client: &mut C,
    zone: Name,
    known: Option<Record>,
    task: &MockTask,
) -> Said {
    if let Some(soa) = &known
        && Soa::of(soa).is_none()
    {
        return Said::Nothing;
    }
    match client.zone_transfer(alloc, zone, known, NOW) {
        Ok(transfer) => said_by_transfer(transfer, task),
        Err(_) => Said::Other,
    }
}

/// What a client is answered to the call of a row.
pub(crate) fn said_to<C: ClientHandle>(
    rt: &impl Abort,
    alloc: Global,
    client: &mut C,
    zone: &str,
    call: &Call,
    task: &MockTask,
) -> Said {
    let zone = name(rt, alloc, zone);
    match call {
        Call::Swap(current, new) => {
            let current = set(rt, alloc, current);
            swap_sets(alloc, client, zone, current, set(rt, alloc, new))
        }
        Call::DeleteRrset(given) => delete_set(alloc, client, zone, first(rt, alloc, given)),
        Call::DeleteAll(given) => {
            let owner = name(rt, alloc, given.owner);
            delete_name(alloc, client, zone, owner, DNSClass(given.class))
        }
        Call::Notify(given) => notify(alloc, client, name(rt, alloc, given.owner), given, None),
        Call::NotifyWith(given) => {
            let records = Some(set(rt, alloc, given));
            notify(alloc, client, name(rt, alloc, given.owner), given, records)
        }
        Call::Axfr => ask_for_zone(alloc, client, zone, None, task),
        Call::Ixfr(soa) => {
            let known = Some(first(rt, alloc, soa));
            ask_for_zone(alloc, client, zone, known, task)
        }
        Call::Create(given)
        | Call::Append(given)
        | Call::AppendToSet(given)
        | Call::DeleteByRdata(given) => {
            send_about_set(alloc, client, zone, call, set(rt, alloc, given))
        }
    }
}

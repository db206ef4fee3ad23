//! An update, and a transfer by its messages. docs/LIBRARY.md shows this file up to the tests.
use crate::client_parts::{RESPONSE, client_over};
use crate::parts::{ADDRESS, check, first, name};
use crate::transfers::{Part, messages_of};
use dns_client::{Client, ClientHandle};
use dns_handle::{DnsHandle, NetError};
use dns_message::Message;
use dns_record::{Name, Record, RecordSet, ResponseCode};
use dns_transfer::TransferState;
use std::alloc::Global;
use std::process::Abort;
use std::rt::HostRuntime;

/// Adds an address to a zone that has none of that name. Whether the server did so.
fn add_address<S: DnsHandle + Drop>(
    alloc: Global,
    client: &mut Client<S>,
    zone: Name,
    address: Record,
    now: u64,
) -> Result<bool, NetError> {
    let set = RecordSet::of(alloc, address)?;
    if !zone.zone_of(&set.name) {
        return Ok(false);
    }
    let response = client.create(alloc, set, zone, now)?;
    Ok(response.message.response_code == ResponseCode::NO_ERROR)
}

/// The records of a zone, by the messages of a transfer, if all of it has come.
fn records_of(alloc: Global, messages: Vec<Message>) -> Result<Option<Vec<Record>>, NetError> {
    let mut transfer = TransferState::new(false);
    let mut records = Vec::new(alloc);
    for message in messages {
        transfer.process(&message.answers)?;
        let mut more = message.answers;
        records.append(&mut more)?;
    }
    Ok(if transfer.is_ended() {
        Some(records)
    } else {
        None
    })
}

/// What a client is answered that adds an address to a zone.
fn is_added(rt: &impl Abort, alloc: Global, zone: &str, frame: &[u8]) -> Option<bool> {
    let mut client = client_over(rt, alloc, frame);
    let address = first(rt, alloc, &ADDRESS);
    let added = add_address(alloc, &mut client, name(rt, alloc, zone), address, 1000);
    added.ok()
}

/// The frame of a response of id 0 with code YXRRSET (RFC 2136, 2.2).
const REFUSED: &[u8] = b"\0\x0c\0\0\x80\x07\0\0\0\0\0\0\0\0";

#[test]
fn an_address_is_added_or_refused(rt: HostRuntime) {
    let alloc = rt.alloc();
    let added = is_added(&rt, alloc, ".", RESPONSE);
    check(&rt, "added", added == Some(true));
    let refused = is_added(&rt, alloc, ".", REFUSED);
    check(&rt, "refused", refused == Some(false));
    let other = is_added(&rt, alloc, "b.", RESPONSE);
    check(&rt, "another zone", other == Some(false));
    let none = is_added(&rt, alloc, ".", b"");
    check(&rt, "no response", none.is_none());
}

/// How many records of a zone came by these messages, if all of it did.
fn count(rt: &impl Abort, alloc: Global, messages: &[&[Part]]) -> Option<usize> {
    let all = messages_of(rt, alloc, messages);
    let records = records_of(alloc, all).ok().expect(rt, "a transfer")?;
    Some(records.len())
}

#[test]
fn a_zone_comes_whole_or_not(rt: HostRuntime) {
    let alloc = rt.alloc();
    let begin: &[Part] = &[Part::Soa(3), Part::Address];
    let end: &[Part] = &[Part::Address, Part::Soa(3)];
    check(&rt, "whole", count(&rt, alloc, &[begin, end]) == Some(4));
    check(&rt, "cut off", count(&rt, alloc, &[begin]).is_none());
}

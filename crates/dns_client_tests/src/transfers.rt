//! What tests of transfers share: records as plain words, messages of them, and what is given for each.
use crate::parts::{SOA, first, name};
use dns_evidence::Trail;
use dns_handle::{DnsResponse, NetError, Notice};
use dns_message::Message;
use dns_model::{Denial, Proof};
use dns_record::{DNSClass, Rdata, Record, RecordType};
use futures::task::Poll;
use std::alloc::Global;
use std::process::Abort;

/// A record of a zone.
#[derive(Clone, Copy, PartialEq)]
pub(crate) enum Part {
    /// An SOA with this serial number.
    Soa(u8),
    /// A record of an SOA's type that can't be read.
    NoSoa,
    /// An address.
    Address,
}

/// What a stream gives.
#[derive(Clone, Copy, PartialEq)]
pub(crate) enum Came {
    /// A response with so many answers.
    Answers(usize),
    Trailing,
    Incremental,
    Busy,
    /// A future that was polled after its answer.
    Again,
    Other,
    End,
    Pending,
}

fn address(rt: &impl Abort, alloc: Global) -> Record {
    Record {
        name: name(rt, alloc, "a."),
        record_type: RecordType::A,
        dns_class: DNSClass::IN,
        ttl: 60,
        rdata: Rdata::from_slice(alloc, b"\xc0\0\x02\x01").expect(rt, "memory"),
        proof: Proof::Indeterminate,
    }
}

fn soa(rt: &impl Abort, alloc: Global, serial: u8) -> Record {
    let mut soa = first(rt, alloc, &SOA);
    let bytes = [
        1, b'a', 0, 0, 0, 0, 0, serial, 0, 0, 0, 0, 0, 0, 0, 0, 0, 0, 0, 0, 0, 0, 0, 0,
    ];
    soa.rdata = Rdata::from_slice(alloc, &bytes).expect(rt, "memory");
    soa
}

/// The record that a word stands for.
pub(crate) fn record_of(rt: &impl Abort, alloc: Global, part: Part) -> Record {
    match part {
        Part::Soa(serial) => soa(rt, alloc, serial),
        Part::NoSoa => {
            let mut record = address(rt, alloc);
            record.record_type = RecordType::SOA;
            record
        }
        Part::Address => address(rt, alloc),
    }
}

/// Puts the records that words stand for behind the others.
pub(crate) fn push_records(
    rt: &impl Abort,
    alloc: Global,
    records: &mut Vec<Record>,
    parts: &[Part],
) {
    for part in parts {
        let next = record_of(rt, alloc, *part);
        records.push(next).expect(rt, "memory");
    }
}

/// A message with these answers.
pub(crate) fn message_of(rt: &impl Abort, alloc: Global, parts: &[Part]) -> Message {
    let mut message = Message::query(alloc);
    push_records(rt, alloc, &mut message.answers, parts);
    message
}

/// Messages with these answers.
pub(crate) fn messages_of(rt: &impl Abort, alloc: Global, messages: &[&[Part]]) -> Vec<Message> {
    let mut all = Vec::new(alloc);
    for parts in messages {
        let message = message_of(rt, alloc, parts);
        all.push(message).expect(rt, "memory");
    }
    all
}

/// A response with these answers.
pub(crate) fn response_of(rt: &impl Abort, alloc: Global, parts: &[Part]) -> DnsResponse {
    DnsResponse {
        message: message_of(rt, alloc, parts),
        chains: Vec::new(alloc),
        denial: Denial::None,
        trail: Trail::new(alloc),
    }
}

/// What an item is.
fn came_by(item: &Result<DnsResponse, NetError>) -> Came {
    match item {
        Ok(response) => Came::Answers(response.message.answers.len()),
        Err(NetError::Message(Notice::TransferHasTrailingRecords)) => Came::Trailing,
        Err(NetError::Message(Notice::TransferIsIncremental)) => Came::Incremental,
        Err(NetError::Message(Notice::PolledAfterCompletion)) => Came::Again,
        Err(NetError::Busy) => Came::Busy,
        Err(_) => Came::Other,
    }
}

/// What a poll of a stream gives.
pub(crate) fn came_next(poll: Poll<Option<Result<DnsResponse, NetError>>>) -> Came {
    match poll {
        Poll::Pending => Came::Pending,
        Poll::Ready(None) => Came::End,
        Poll::Ready(Some(item)) => came_by(&item),
    }
}

/// What a poll of a future gives, where a time-out says that nothing comes.
pub(crate) fn came_first(poll: Poll<Result<DnsResponse, NetError>>) -> Came {
    match poll {
        Poll::Pending => Came::Pending,
        Poll::Ready(Err(NetError::Timeout)) => Came::End,
        Poll::Ready(item) => came_by(&item),
    }
}

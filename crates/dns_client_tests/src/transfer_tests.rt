//! Transfers by their messages, as a stream gives them and one by one.
use crate::parts::check;
use crate::transfers::{Came, Part, came_next, message_of, messages_of, response_of};
use dns_handle::{DnsResponse, NetError};
use dns_message::Message;
use dns_mux::{DnsResponseReceiver, DnsResponseStream};
use dns_record::Record;
use dns_transfer::{ClientStreamXfr, TransferState};
use futures::Stream;
use futures::task::{Context, Poll};
use futures::test::MockTask;
use std::alloc::Global;
use std::process::Abort;
use std::rt::HostRuntime;

// The examples of the crate, word for word.

fn all_of(alloc: Global, messages: Vec<Message>) -> Result<Option<Vec<Record>>, NetError> {
    let mut transfer = TransferState::new(false);
    let mut records = Vec::new(alloc);
    for message in messages {
        transfer.process(&message.answers)?;
        let mut more = message.answers;
        records.append(&mut more)?;
    }
    Ok(if transfer.is_ended() {
        Some(records)
    } else {
        None
    })
}

fn poll_transfer(
    transfer: &mut ClientStreamXfr<DnsResponseStream>,
    cx: &mut Context<'_>,
) -> Poll<Option<Result<DnsResponse, NetError>>> {
    transfer.poll_next(cx)
}

/// What the stream inside gives: a message with these answers, or the error `Busy`.
#[derive(Drop)]
enum Inner {
    Message(&'static [Part]),
    Busy,
}

/// Whether changes were asked for, what the stream inside gives, what is given for it, and whether the transfer has ended then.
struct Row {
    incremental: bool,
    inner: &'static [Inner],
    came: &'static [Came],
    is_ended: bool,
}

const WHOLE: &[Part] = &[Part::Soa(3), Part::Address, Part::Address];

const REST: &[Part] = &[Part::Address, Part::Address, Part::Soa(3)];

/// The changes of a zone from serial number 1 to 3.
const CHANGES: &[Part] = &[
    Part::Soa(3),
    Part::Soa(1),
    Part::Address,
    Part::Soa(3),
    Part::Address,
    Part::Soa(3),
];

#[rattlefmt::skip]
const ROWS: &[(&str, Row)] = &[
    ("a zone in two messages", Row { incremental: false,
        inner: &[Inner::Message(WHOLE), Inner::Message(REST), Inner::Message(WHOLE)],
        came: &[Came::Answers(3), Came::Answers(3), Came::End, Came::End], is_ended: true }),
    ("a zone where changes were asked for", Row { incremental: true,
        inner: &[Inner::Message(WHOLE), Inner::Message(REST)],
        came: &[Came::Answers(3), Came::Answers(3), Came::End], is_ended: true }),
    ("a record behind the last SOA", Row { incremental: false,
        inner: &[Inner::Message(&[Part::Soa(3), Part::Address, Part::Soa(3), Part::Address]), Inner::Message(REST)],
        came: &[Came::Trailing, Came::End], is_ended: true }),
    ("a record behind the last SOA of an empty zone", Row { incremental: false,
        inner: &[Inner::Message(&[Part::Soa(3)]), Inner::Message(&[Part::Soa(3), Part::Address])],
        came: &[Came::Answers(1), Came::Trailing, Came::End], is_ended: true }),
    ("two SOAs at the end", Row { incremental: false,
        inner: &[Inner::Message(WHOLE), Inner::Message(&[Part::Soa(3), Part::Soa(3)])],
        came: &[Came::Answers(3), Came::Trailing, Came::End], is_ended: true }),
    ("an empty zone", Row { incremental: false,
        inner: &[Inner::Message(&[Part::Soa(3), Part::Soa(3)])],
        came: &[Came::Answers(2), Came::End], is_ended: true }),
    ("a zone that changed meanwhile", Row { incremental: false,
        inner: &[Inner::Message(WHOLE), Inner::Message(&[Part::Address, Part::Soa(4)])],
        came: &[Came::Answers(3), Came::Answers(2), Came::End], is_ended: true }),
    ("changes that weren't asked for", Row { incremental: false,
        inner: &[Inner::Message(&[Part::Soa(3), Part::Soa(1)]), Inner::Message(REST)],
        came: &[Came::Incremental, Came::End], is_ended: true }),
    ("no changes", Row { incremental: true,
        inner: &[Inner::Message(&[Part::Soa(3)])],
        came: &[Came::Answers(1), Came::End, Came::End], is_ended: false }),
    ("changes in one message", Row { incremental: true,
        inner: &[Inner::Message(CHANGES), Inner::Message(REST)],
        came: &[Came::Answers(6), Came::End], is_ended: true }),
    ("changes that are cut off where they are added", Row { incremental: true,
        inner: &[Inner::Message(&[Part::Soa(3), Part::Soa(1), Part::Address, Part::Soa(3)])],
        came: &[Came::Answers(4), Came::End], is_ended: false }),
    ("changes over two versions", Row { incremental: true,
        inner: &[Inner::Message(&[Part::Soa(3), Part::Soa(1), Part::Soa(2), Part::Address, Part::Soa(2), Part::Soa(3)]),
            Inner::Message(&[Part::Address, Part::Soa(3)]), Inner::Message(REST)],
        came: &[Came::Answers(6), Came::Answers(2), Came::End], is_ended: true }),
    ("an error in between", Row { incremental: false,
        inner: &[Inner::Message(WHOLE), Inner::Busy, Inner::Message(&[]), Inner::Message(REST), Inner::Busy],
        came: &[Came::Answers(3), Came::Busy, Came::Answers(0), Came::Answers(3), Came::End], is_ended: true }),
    ("a zone that is cut off", Row { incremental: false,
        inner: &[Inner::Message(WHOLE)],
        came: &[Came::Answers(3), Came::End], is_ended: false }),
    ("no SOA at first", Row { incremental: true,
        inner: &[Inner::Message(REST), Inner::Message(WHOLE)],
        came: &[Came::Answers(3), Came::End], is_ended: true }),
    ("an SOA at first that can't be read", Row { incremental: false,
        inner: &[Inner::Message(&[Part::NoSoa, Part::Address]), Inner::Message(WHOLE)],
        came: &[Came::Answers(2), Came::End], is_ended: true }),
    ("second an SOA that can't be read", Row { incremental: false,
        inner: &[Inner::Message(&[Part::Soa(3), Part::NoSoa]), Inner::Message(&[Part::Address, Part::NoSoa])],
        came: &[Came::Answers(2), Came::Answers(2), Came::End], is_ended: true }),
    ("nothing", Row { incremental: false, inner: &[], came: &[Came::End, Came::End], is_ended: false }),
];

fn rows() -> &'static [(&'static str, Row)] {
    ROWS
}

fn item(rt: &impl Abort, alloc: Global, inner: &Inner) -> Result<DnsResponse, NetError> {
    match inner {
        Inner::Message(parts) => Ok(response_of(rt, alloc, parts)),
        Inner::Busy => Err(NetError::Busy),
    }
}

fn inner_stream(rt: &impl Abort, alloc: Global, inner: &[Inner]) -> DnsResponseStream {
    let mut items = Vec::new(alloc);
    for next in inner {
        items.push(item(rt, alloc, next)).expect(rt, "memory");
    }
    DnsResponseStream::from_items(items)
}

/// What a poll of a transfer gives.
pub(crate) fn polled(transfer: &mut ClientStreamXfr<DnsResponseStream>, task: &MockTask) -> Came {
    came_next(task.enter(|cx| poll_transfer(transfer, cx)))
}

/// Whether polls of a transfer give these.
fn gives(
    transfer: &mut ClientStreamXfr<DnsResponseStream>,
    wanted: &[Came],
    task: &MockTask,
) -> bool {
    for next in wanted {
        if polled(transfer, task) != *next {
            return false;
        }
    }
    true
}

fn holds(rt: &impl Abort, alloc: Global, row: &Row, task: &MockTask) -> bool {
    let stream = inner_stream(rt, alloc, row.inner);
    let mut transfer = ClientStreamXfr::new(stream, row.incremental);
    gives(&mut transfer, row.came, task) && transfer.is_ended() == row.is_ended
}

#[test]
fn a_transfer_gives_its_messages_up_to_its_end(rt: HostRuntime) {
    let task = MockTask::new(&rt).ok().expect(&rt, "a task");
    for row in rows() {
        check(&rt, row.0, holds(&rt, rt.alloc(), &row.1, &task));
    }
}

/// Whether a transfer waits for a stream that isn't ready.
fn waits(task: &MockTask) -> bool {
    let mut transfer = ClientStreamXfr::new(DnsResponseReceiver::Receiver(0), false);
    let poll = task.enter(|cx| transfer.poll_next(cx));
    poll.is_pending() && !transfer.is_ended()
}

/// Whether what a transfer leaves of its stream is given back.
fn gives_back(rt: &impl Abort, alloc: Global, task: &MockTask) -> bool {
    let items = [Inner::Message(&[Part::Address]), Inner::Message(WHOLE)];
    let stream = inner_stream(rt, alloc, &items);
    let mut transfer = ClientStreamXfr::new(stream, false);
    let gave = gives(&mut transfer, &[Came::Answers(1), Came::End], task);
    let mut again = ClientStreamXfr::new(transfer.into_inner(), false);
    let rest = gives(&mut again, &[Came::Answers(3), Came::End], task);
    gave && rest && !again.is_ended()
}

#[test]
fn a_transfer_waits_and_gives_its_stream_back(rt: HostRuntime) {
    let task = MockTask::new(&rt).ok().expect(&rt, "a task");
    check(&rt, "waits", waits(&task));
    check(&rt, "gives back", gives_back(&rt, rt.alloc(), &task));
}

/// The messages of changes that are cut as the bits say, with an empty one at each cut where that is asked for.
fn pieces(rt: &impl Abort, alloc: Global, cuts: u32, with_empty: bool) -> Vec<&'static [Part]> {
    let mut pieces = Vec::new(alloc);
    let mut start: usize = 0;
    let mut bits = cuts | 32;
    for end in 1..=CHANGES.len() {
        if bits % 2 == 1 {
            let piece = CHANGES.get(start..end).unwrap_or(&[]);
            pieces.push(piece).expect(rt, "memory");
            if with_empty {
                pieces.push(&[]).expect(rt, "memory");
            }
            start = end;
        }
        bits /= 2;
    }
    pieces
}

/// Whether the last of these messages ends a transfer of changes, and none before it, but for empty ones.
fn are_ended_by_the_last(rt: &impl Abort, alloc: Global, pieces: &[&[Part]]) -> bool {
    let mut transfer = TransferState::new(true);
    for parts in pieces {
        if transfer.is_ended() && !parts.is_empty() {
            return false;
        }
        let message = message_of(rt, alloc, parts);
        if transfer.process(&message.answers).is_err() {
            return false;
        }
    }
    transfer.is_ended()
}

/// A stream of responses with these answers.
fn stream_of(rt: &impl Abort, alloc: Global, pieces: &[&[Part]]) -> DnsResponseStream {
    let mut items = Vec::new(alloc);
    for parts in pieces {
        let response = response_of(rt, alloc, parts);
        items.push(Ok(response)).expect(rt, "memory");
    }
    DnsResponseStream::from_items(items)
}

/// How many answers a transfer gives up to its end, if it has one and all has come.
fn answers_of(transfer: &mut ClientStreamXfr<DnsResponseStream>, task: &MockTask) -> Option<usize> {
    let mut count: usize = 0;
    for _response in 0u32..20 {
        match polled(transfer, task) {
            Came::Answers(more) => count = count.saturating_add(more),
            Came::End => {
                return if transfer.is_ended() {
                    Some(count)
                } else {
                    None
                };
            }
            _ => return None,
        }
    }
    None
}

/// Whether a transfer gives all records of changes in these messages.
fn give_all(rt: &impl Abort, alloc: Global, pieces: &[&[Part]], task: &MockTask) -> bool {
    let stream = stream_of(rt, alloc, pieces);
    let mut transfer = ClientStreamXfr::new(stream, true);
    answers_of(&mut transfer, task) == Some(CHANGES.len())
}

#[test]
fn changes_may_be_cut_anywhere(rt: HostRuntime) {
    let alloc = rt.alloc();
    let task = MockTask::new(&rt).ok().expect(&rt, "a task");
    for cuts in 0u32..32 {
        for with_empty in [false, true] {
            let pieces = pieces(&rt, alloc, cuts, with_empty);
            let ended = are_ended_by_the_last(&rt, alloc, &pieces);
            check(&rt, "ended by the last record", ended);
            let given = give_all(&rt, alloc, &pieces, &task);
            check(&rt, "all records", given);
        }
    }
}

/// So many records come of these messages, if all of the zone does.
fn collected(rt: &impl Abort, alloc: Global, messages: &[&[Part]]) -> Option<usize> {
    let all = messages_of(rt, alloc, messages);
    let records = all_of(alloc, all).ok().expect(rt, "a transfer")?;
    Some(records.len())
}

#[test]
fn a_zone_is_whole_or_cut_off(rt: HostRuntime) {
    let alloc = rt.alloc();
    let whole = collected(&rt, alloc, &[WHOLE, REST]);
    check(&rt, "whole", whole == Some(6));
    let cut = collected(&rt, alloc, &[WHOLE]);
    check(&rt, "cut off", cut.is_none());
}

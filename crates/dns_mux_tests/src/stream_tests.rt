use crate::replies::{Said, reply, said_by};
use crate::waiting::{Waiting, check_waiting, said_in};
use dns_handle::{DnsResponse, NetError};
use dns_mux::{DnsResponseReceiver, DnsResponseStream, FirstAnswer};
use futures::task::Poll;
use futures::test::MockTask;
use futures::{Future, Stream};
use std::alloc::Global;
use std::process::Abort;

/// What a poll of a stream gives.
#[derive(Clone, Copy, PartialEq)]
enum Given {
    Item(Said),
    End,
    Pending,
}

fn came(poll: &Poll<Option<Result<DnsResponse, NetError>>>) -> Given {
    match poll {
        Poll::Pending => Given::Pending,
        Poll::Ready(None) => Given::End,
        Poll::Ready(Some(item)) => Given::Item(said_by(item)),
    }
}

/// What a receiver is settled with.
enum Made {
    /// A stream of these items.
    Items(&'static [Said]),
    /// A stream of a single item.
    Single(Said),
    /// The error `Busy`.
    Refusal,
}

/// What a receiver is settled with, what its polls give then, and its first answer.
struct Row {
    made: Made,
    polls: &'static [Given],
    first: Said,
}

const ROWS: &[(&str, Row)] = &[
    (
        "a stream ends at a time-out, again and again",
        Row {
            made: Made::Items(&[
                Said::Response(1),
                Said::Reset,
                Said::TimedOut,
                Said::Response(3),
            ]),
            polls: &[
                Given::Item(Said::Response(1)),
                Given::Item(Said::Reset),
                Given::End,
                Given::End,
            ],
            first: Said::Response(1),
        },
    ),
    (
        "a stream without an item has ended",
        Row {
            made: Made::Items(&[]),
            polls: &[Given::End, Given::End],
            first: Said::TimedOut,
        },
    ),
    (
        "a first time-out is the end",
        Row {
            made: Made::Items(&[Said::TimedOut, Said::Response(1)]),
            polls: &[Given::End, Given::End],
            first: Said::TimedOut,
        },
    ),
    (
        "an error is an item",
        Row {
            made: Made::Items(&[Said::Busy]),
            polls: &[Given::Item(Said::Busy), Given::End],
            first: Said::Busy,
        },
    ),
    (
        "a single response is given once",
        Row {
            made: Made::Single(Said::Response(7)),
            polls: &[Given::Item(Said::Response(7)), Given::End],
            first: Said::Response(7),
        },
    ),
    (
        "a single time-out is the end",
        Row {
            made: Made::Single(Said::TimedOut),
            polls: &[Given::End],
            first: Said::TimedOut,
        },
    ),
    (
        "a refusal is given once",
        Row {
            made: Made::Refusal,
            polls: &[Given::Item(Said::Busy), Given::End],
            first: Said::Busy,
        },
    ),
];

fn rows() -> &'static [(&'static str, Row)] {
    ROWS
}

fn stream(rt: &impl Abort, alloc: Global, items: &[Said]) -> DnsResponseStream {
    let mut all = Vec::new(alloc);
    for said in items {
        all.push(reply(alloc, *said)).expect(rt, "memory");
    }
    DnsResponseStream::from_items(all)
}

/// What the receiver is settled with, if not with a refusal.
fn settled(rt: &impl Abort, alloc: Global, made: &Made) -> Result<DnsResponseStream, NetError> {
    match made {
        Made::Items(items) => Ok(stream(rt, alloc, items)),
        Made::Single(item) => Ok(DnsResponseStream::from_result(alloc, reply(alloc, *item))),
        Made::Refusal => Err(NetError::Busy),
    }
}

fn poll_once(receiver: &mut DnsResponseReceiver, task: &MockTask) -> Given {
    let poll = task.enter(|cx| receiver.poll_next(cx));
    came(&poll)
}

/// Whether polls of a receiver give these.
fn gives(receiver: &mut DnsResponseReceiver, polls: &[Given], task: &MockTask) -> bool {
    for wanted in polls {
        if poll_once(receiver, task) != *wanted {
            return false;
        }
    }
    true
}

/// Whether a receiver that is settled gives these and ends, whatever it is told later.
fn stays_settled(receiver: &mut DnsResponseReceiver, polls: &[Given], task: &MockTask) -> bool {
    receiver.settle(Err(NetError::Timeout));
    let held = gives(receiver, polls, task);
    receiver.settle(Err(NetError::Timeout));
    held && poll_once(receiver, task) == Given::End
}

/// Whether a receiver waits, and gives what the row says once it is settled.
fn is_streamed(rt: &impl Abort, alloc: Global, row: &Row, task: &MockTask) -> bool {
    let mut receiver = DnsResponseReceiver::Receiver(0);
    let waits = gives(&mut receiver, &[Given::Pending, Given::Pending], task);
    receiver.settle(settled(rt, alloc, &row.made));
    let held = stays_settled(&mut receiver, row.polls, task);
    waits && held
}

/// What the first answer of a receiver says, and what a poll after it says.
fn first_twice(receiver: DnsResponseReceiver, task: &MockTask) -> [Option<Said>; 2] {
    let mut first = receiver.first_answer();
    let once = task.poll(&mut first);
    match &once {
        Poll::Ready(answer) => {
            let again = task.poll(&mut first);
            [Some(said_by(answer)), said_in(&again)]
        }
        Poll::Pending => [None, None],
    }
}

fn is_answered(rt: &impl Abort, alloc: Global, row: &Row, task: &MockTask) -> bool {
    let mut receiver = DnsResponseReceiver::Receiver(1);
    receiver.settle(settled(rt, alloc, &row.made));
    first_twice(receiver, task) == [Some(row.first), Some(Said::PolledAgain)]
}

impl Waiting for Row {
    fn holds(&self, rt: &impl Abort, alloc: Global, task: &MockTask) -> bool {
        is_streamed(rt, alloc, self, task) && is_answered(rt, alloc, self, task)
    }
}

#[test]
fn streams_end_at_a_time_out_and_have_one_first_answer(rt: HostRuntime) {
    check_waiting(&rt, rows());
}

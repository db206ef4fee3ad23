use crate::replies::{Said, question, reply, said_by};
use crate::waiting::{Waiting, check_waiting, said_in};
use dns_handle::{DnsHandle, DnsRequest, DnsRequestOptions};
use dns_recorded::Recorded;
use dns_retry::{RetryDnsHandle, RetrySend};
use futures::test::MockTask;
use std::alloc::Global;
use std::process::Abort;

/// So many attempts of a client that is busy so often, and then gives these replies: each of them is asked for, and the last
/// one answered.
struct Row {
    attempts: usize,
    busy: usize,
    replies: &'static [Said],
}

const ROWS: &[(&str, Row)] = &[
    (
        "two attempts over a client that fails once",
        Row {
            attempts: 2,
            busy: 0,
            replies: &[Said::Reset, Said::Response(1)],
        },
    ),
    (
        "one attempt over a client that is busy 64 times",
        Row {
            attempts: 1,
            busy: 63,
            replies: &[Said::Busy],
        },
    ),
    (
        "a client that is busy 63 times",
        Row {
            attempts: 1,
            busy: 63,
            replies: &[Said::Response(1)],
        },
    ),
    (
        "with no attempt a busy client is answered at once",
        Row {
            attempts: 0,
            busy: 0,
            replies: &[Said::Busy],
        },
    ),
    (
        "with no attempt an error is answered at once",
        Row {
            attempts: 0,
            busy: 0,
            replies: &[Said::Reset],
        },
    ),
    (
        "a resend costs an attempt, and one after being busy none",
        Row {
            attempts: 1,
            busy: 2,
            replies: &[Said::Reset, Said::TimedOut],
        },
    ),
    (
        "with no attempt left a busy client is answered",
        Row {
            attempts: 1,
            busy: 1,
            replies: &[Said::Reset, Said::Busy],
        },
    ),
    (
        "no connections",
        Row {
            attempts: 9,
            busy: 0,
            replies: &[Said::NoConnections],
        },
    ),
    (
        "validation failed",
        Row {
            attempts: 9,
            busy: 1,
            replies: &[Said::Bogus],
        },
    ),
];

fn rows() -> &'static [(&'static str, Row)] {
    ROWS
}

/// What the client gives behind all replies of a row.
const NEXT: Said = Said::Response(9);

fn record(rt: &impl Abort, alloc: Global, client: &mut Recorded, said: Said) {
    let question = question(rt, alloc, ".", 1);
    client
        .push(question, reply(alloc, said))
        .expect(rt, "memory");
}

fn fill(rt: &impl Abort, alloc: Global, client: &mut Recorded, row: &Row) {
    for _ in 0..row.busy {
        record(rt, alloc, client, Said::Busy);
    }
    for said in row.replies {
        record(rt, alloc, client, *said);
    }
    record(rt, alloc, client, NEXT);
}

fn retrying(rt: &impl Abort, alloc: Global, row: &Row) -> RetryDnsHandle<Recorded> {
    let mut client = Recorded::in_turn(alloc);
    fill(rt, alloc, &mut client, row);
    RetryDnsHandle::new(client, row.attempts)
}

/// A request for the question of each reply.
fn request(rt: &impl Abort, alloc: Global) -> DnsRequest {
    let question = question(rt, alloc, ".", 1);
    DnsRequest::from_query(alloc, question, DnsRequestOptions::default()).expect(rt, "memory")
}

/// What a send answers.
fn send(rt: &impl Abort, alloc: Global, retry: &mut RetryDnsHandle<Recorded>) -> Said {
    let reply = retry.send(alloc, request(rt, alloc), 0);
    said_by(&reply)
}

/// Whether a send answers the row's last reply, and the next one what the client gives behind it.
fn is_sent(rt: &impl Abort, alloc: Global, row: &Row) -> bool {
    let mut retry = retrying(rt, alloc, row);
    let last = send(rt, alloc, &mut retry);
    let next = send(rt, alloc, &mut retry);
    Some(last) == row.replies.last().copied() && next == NEXT
}

/// What a poll answers, if it does.
fn poll_once(sending: &mut RetrySend<Recorded>, task: &MockTask) -> Option<Said> {
    let poll = task.poll(sending);
    said_in(&poll)
}

/// Whether so many polls answer nothing.
fn waits(sending: &mut RetrySend<Recorded>, polls: usize, task: &MockTask) -> bool {
    for _ in 0..polls {
        if poll_once(sending, task).is_some() {
            return false;
        }
    }
    true
}

/// Whether a poll makes one send, and a poll after the answer is an error of its own.
fn is_polled(sending: &mut RetrySend<Recorded>, row: &Row, task: &MockTask) -> bool {
    let sends = row.busy.saturating_add(row.replies.len());
    waits(sending, sends.saturating_sub(1), task)
        && poll_once(sending, task) == row.replies.last().copied()
        && poll_once(sending, task) == Some(Said::PolledAgain)
}

fn polls(rt: &impl Abort, alloc: Global, row: &Row, task: &MockTask) -> bool {
    let request = request(rt, alloc);
    let mut sending = retrying(rt, alloc, row).send_polled(alloc, request, 0);
    is_polled(&mut sending, row, task)
}

impl Waiting for Row {
    fn holds(&self, rt: &impl Abort, alloc: Global, task: &MockTask) -> bool {
        is_sent(rt, alloc, self) && polls(rt, alloc, self, task)
    }
}

#[test]
fn a_request_is_sent_again_while_attempts_are_left(rt: HostRuntime) {
    check_waiting(&rt, rows());
}

//! Polls for one request, and of a background.
use crate::echo::check;
use crate::polled::{End, Polled, Said, Script, response_bytes, said_of_item};
use dns_handle::IoKind;
use dns_polled_exchange::{DnsExchangeBackground, DnsExchangeSend};
use dns_transfer::ClientStreamXfr;
use futures::Stream;
use futures::test::MockTask;
use std::alloc::Global;
use std::process::Abort;
use std::sync::Wait;

const EOF: IoKind = IoKind::UnexpectedEof;

const RESET: IoKind = IoKind::ConnectionReset;

/// Each poll for a request is a take.
fn polls_one<W: Abort + Wait>(rt: &W, alloc: Global) {
    let mut polled = Polled::new(rt, alloc);
    let id = polled.send(rt, alloc);
    let mut send = DnsExchangeSend::new(id);
    let before = polled.poll_take(rt, alloc, &mut send);
    check(rt, "nothing yet", before == Said::Pending);
    check(
        rt,
        "a response comes",
        polled.arrive(rt, alloc, &response_bytes(7)),
    );
    let came = polled.poll_take(rt, alloc, &mut send);
    check(rt, "the response", came == Said::Response(7));
    check(rt, "a close", polled.close(rt, alloc, RESET) == Said::Done);
    let fault = polled.poll_take(rt, alloc, &mut send);
    check(rt, "the fault", fault == Said::Fault(RESET));
    let end = polled.poll_take(rt, alloc, &mut send);
    check(rt, "the end", end == Said::Ended);
}

#[test]
fn a_poll_for_a_request_is_a_take(rt: HostRuntime) {
    polls_one(&rt, rt.alloc());
}

/// A stream asks to be polled again where nothing waits yet.
fn streams_one<W: Abort + Wait>(rt: &W, alloc: Global, task: &MockTask) {
    let mut polled = Polled::new(rt, alloc);
    let id = polled.send(rt, alloc);
    check(
        rt,
        "a response comes",
        polled.arrive(rt, alloc, &response_bytes(7)),
    );
    let mut stream = polled.into_stream(rt, alloc, id);
    let came = task.enter(|cx| stream.poll_next(cx));
    check(rt, "the response", said_of_item(&came) == Said::Response(7));
    let none = task.enter(|cx| stream.poll_next(cx));
    check(rt, "nothing more yet", said_of_item(&none) == Said::Pending);
    check(rt, "it wakes itself", task.is_woken());
}

#[test]
fn a_stream_wakes_itself_while_nothing_waits(rt: HostRuntime) {
    let task = MockTask::new(&rt).ok().expect(&rt, "a task");
    streams_one(&rt, rt.alloc(), &task);
}

/// A response with id 7 and the SOA of the root alone (RFC 1035, 3.3.13 and 4.1).
const SOA: &[u8] =
    b"\0\x07\x80\0\0\0\0\x01\0\0\0\0\0\0\x06\0\x01\0\0\0\x3c\0\x16\0\0\0\0\0\x01\0\0\0\0\0\0\0\0\0\0\0\0\0\0\0\0";

/// The messages of a transfer come over an exchange.
fn transfers<W: Abort + Wait>(rt: &W, alloc: Global, task: &MockTask) {
    let mut polled = Polled::new(rt, alloc);
    let id = polled.send(rt, alloc);
    check(rt, "its first message", polled.arrive(rt, alloc, SOA));
    check(rt, "its last message", polled.arrive(rt, alloc, SOA));
    let stream = polled.into_stream(rt, alloc, id);
    let mut transfer = ClientStreamXfr::new(stream, false);
    for _ in 0..2u8 {
        let came = task.enter(|cx| transfer.poll_next(cx));
        let said = said_of_item(&came);
        check(rt, "a message", said == Said::Response(7));
    }
    let end = task.enter(|cx| transfer.poll_next(cx));
    check(rt, "the end", said_of_item(&end) == Said::Ended);
}

#[test]
fn a_transfer_comes_over_an_exchange(rt: HostRuntime) {
    let task = MockTask::new(&rt).ok().expect(&rt, "a task");
    transfers(&rt, rt.alloc(), &task);
}

/// So many responses to a request with id 7, and then an end.
fn background(alloc: Global, left: u32, end: End) -> DnsExchangeBackground<Script> {
    DnsExchangeBackground::new(Script {
        alloc,
        id: 7,
        left,
        end,
    })
}

/// What polls of a background say, one after another.
fn are_said<W: Abort + Wait>(
    rt: &W,
    alloc: Global,
    polled: &mut Polled,
    mut background: DnsExchangeBackground<Script>,
    task: &MockTask,
    wanted: &[Said],
) -> bool {
    for said in wanted {
        if task.enter(|cx| polled.run(rt, alloc, &mut background, cx)) != *said {
            return false;
        }
    }
    true
}

/// Of 101 messages and a fault a poll hands 100 over and asks for another one.
fn hands_over<W: Abort + Wait>(rt: &W, alloc: Global, task: &MockTask) {
    let mut polled = Polled::new(rt, alloc);
    let id = polled.send(rt, alloc);
    let mut messages = background(alloc, 101, End::Fault(RESET));
    let first = task.enter(|cx| polled.run(rt, alloc, &mut messages, cx));
    let wakes = first == Said::Pending && task.is_woken();
    check(rt, "a hundred, and it wakes itself", wakes);
    let wanted = [Said::Done, Said::Done, Said::Done];
    let held = are_said(rt, alloc, &mut polled, messages, task, &wanted);
    check(rt, "the last one, and the fault", held);
    for _ in 0..9u8 {
        let taken = polled.take(rt, alloc, id);
        check(rt, "nine wait", taken == Said::Response(7));
    }
    check(
        rt,
        "then the end",
        polled.take(rt, alloc, id) == Said::Ended,
    );
}

#[test]
fn a_poll_hands_a_hundred_messages_over(rt: HostRuntime) {
    let task = MockTask::new(&rt).ok().expect(&rt, "a task");
    hands_over(&rt, rt.alloc(), &task);
}

/// Whether the request ends with a fault after an end of the stream.
fn closes<W: Abort + Wait>(
    rt: &W,
    alloc: Global,
    task: &MockTask,
    end: End,
    fault: IoKind,
) -> bool {
    let mut polled = Polled::new(rt, alloc);
    let id = polled.send(rt, alloc);
    let messages = background(alloc, 1, end);
    let wanted = [Said::Done, Said::Done, Said::Done];
    are_said(rt, alloc, &mut polled, messages, task, &wanted)
        && polled.take(rt, alloc, id) == Said::Response(7)
        && polled.take(rt, alloc, id) == Said::Fault(fault)
        && polled.take(rt, alloc, id) == Said::Ended
}

#[test]
fn a_fault_closes_by_its_kind_and_the_end_by_unexpected_eof(rt: HostRuntime) {
    let alloc = rt.alloc();
    let task = MockTask::new(&rt).ok().expect(&rt, "a task");
    check(&rt, "end", closes(&rt, alloc, &task, End::End, EOF));
    let fault = closes(&rt, alloc, &task, End::Fault(RESET), RESET);
    check(&rt, "fault", fault);
}

/// A poll waits where the stream does.
fn waits<W: Abort + Wait>(rt: &W, alloc: Global, task: &MockTask) {
    let mut polled = Polled::new(rt, alloc);
    let messages = background(alloc, 0, End::Nothing);
    let wanted = [Said::Pending, Said::Pending];
    let held = are_said(rt, alloc, &mut polled, messages, task, &wanted);
    check(rt, "it waits", held && task.is_woken());
}

#[test]
fn a_background_waits(rt: HostRuntime) {
    let task = MockTask::new(&rt).ok().expect(&rt, "a task");
    waits(&rt, rt.alloc(), &task);
}

/// In a full history an item says so, a message is dropped, the first close goes, and a later one is refused.
fn is_full<W: Abort + Wait>(rt: &W, alloc: Global, task: &MockTask) {
    let mut polled = Polled::new(rt, alloc);
    let mut send = DnsExchangeSend::new(polled.send(rt, alloc));
    polled.tick(rt, alloc, 1_048_576);
    let full = polled.poll_take(rt, alloc, &mut send);
    check(rt, "an item", full == Said::Full);
    let first = background(alloc, 1, End::End);
    let wanted = [Said::Done, Said::Done];
    let held = are_said(rt, alloc, &mut polled, first, task, &wanted);
    check(rt, "the first close", held);
    let second = background(alloc, 1, End::End);
    let wanted = [Said::Full, Said::Done, Said::Done];
    let held = are_said(rt, alloc, &mut polled, second, task, &wanted);
    check(rt, "a refused close", held);
}

#[test]
fn polls_tell_of_a_full_history(rt: HostRuntime) {
    let task = MockTask::new(&rt).ok().expect(&rt, "a task");
    is_full(&rt, rt.alloc(), &task);
}

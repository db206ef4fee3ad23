//! What comes for a request of a client: the first response, and each.
use crate::parts::check;
use crate::transfers::{Came, Part, came_first, came_next, response_of};
use dns_client::{ClientResponse, ClientStreamingResponse};
use dns_handle::{DnsResponse, NetError};
use dns_mux::{DnsResponseReceiver, DnsResponseStream};
use futures::task::{Context, Poll};
use futures::test::MockTask;
use futures::{Future, Stream};
use std::alloc::Global;
use std::process::Abort;
use std::rt::HostRuntime;

// The example of the crate, word for word.

fn poll_response(
    stream: DnsResponseStream,
    cx: &mut Context<'_>,
) -> Poll<Result<DnsResponse, NetError>> {
    let mut response = ClientResponse::new(stream);
    response.poll(cx)
}

/// A stream of responses with so many answers each.
fn stream_of(rt: &impl Abort, alloc: Global, counts: &[usize]) -> DnsResponseStream {
    let mut items = Vec::new(alloc);
    for count in counts {
        let parts: &[Part] = if *count == 0 { &[] } else { &[Part::Address] };
        let response = response_of(rt, alloc, parts);
        items.push(Ok(response)).expect(rt, "memory");
    }
    DnsResponseStream::from_items(items)
}

/// What the example gives for a stream.
fn first_of(stream: DnsResponseStream, task: &MockTask) -> Came {
    came_first(task.enter(|cx| poll_response(stream, cx)))
}

#[test]
fn a_response_is_the_first_item(rt: HostRuntime) {
    let alloc = rt.alloc();
    let task = MockTask::new(&rt).ok().expect(&rt, "a task");
    let first = first_of(stream_of(&rt, alloc, &[1, 0]), &task);
    check(&rt, "the first", first == Came::Answers(1));
    let none = first_of(stream_of(&rt, alloc, &[]), &task);
    check(&rt, "none", none == Came::End);
}

/// What a poll of a response gives.
fn polled(response: &mut ClientResponse<DnsResponseStream>, task: &MockTask) -> Came {
    came_first(task.enter(|cx| response.poll(cx)))
}

#[test]
fn a_response_comes_once(rt: HostRuntime) {
    let task = MockTask::new(&rt).ok().expect(&rt, "a task");
    let mut response = ClientResponse::new(stream_of(&rt, rt.alloc(), &[0, 1]));
    for wanted in [Came::Answers(0), Came::Again] {
        check(&rt, "once", polled(&mut response, &task) == wanted);
    }
}

#[test]
fn a_response_is_waited_for(rt: HostRuntime) {
    let task = MockTask::new(&rt).ok().expect(&rt, "a task");
    let mut waiting = ClientResponse::new(DnsResponseReceiver::Receiver(0));
    let poll = task.enter(|cx| waiting.poll(cx));
    check(&rt, "not yet", poll.is_pending());
}

#[test]
fn responses_come_one_after_another(rt: HostRuntime) {
    let task = MockTask::new(&rt).ok().expect(&rt, "a task");
    let stream = stream_of(&rt, rt.alloc(), &[1, 0]);
    let mut responses = ClientStreamingResponse::new(stream);
    for wanted in [Came::Answers(1), Came::Answers(0), Came::End] {
        let poll = came_next(task.enter(|cx| responses.poll_next(cx)));
        check(&rt, "an item", poll == wanted);
    }
}

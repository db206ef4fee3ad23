//! The examples that stand with the calls of `dns_net` and `dns_mux`, word for word. What `dns_net` gives is named by the crates
//! from which it takes it.
use crate::parts::{check, query, response_bytes, server};
use crate::replies::{Said, question, reply, said_by};
use crate::waiting::said_in;
use dns_handle::{DnsHandle, DnsRequest, DnsRequestOptions, DnsResponse, NetError};
use dns_mux::{
    BufDnsRequestStreamHandle, BufDnsStreamHandle, DnsMultiplexer, DnsRequestSender,
    DnsResponseStream, FirstAnswer, ListDraws, RandDraws, RequestId, SerialMessage, Taken,
};
use dns_record::{DNSClass, Name, NoMemory, Query, RecordType};
use dns_recorded::Recorded;
use dns_retry::RetryDnsHandle;
use futures::Future;
use futures::task::{Context, Poll};
use futures::test::MockTask;
use std::alloc::Global;
use std::net::SocketAddr;
use std::process::Abort;

fn ask<H: DnsHandle>(
    alloc: Global,
    handle: &mut H,
    name: Name,
    now: u64,
) -> Result<DnsResponse, NetError> {
    let query = Query {
        name,
        query_type: RecordType::A,
        query_class: DNSClass::IN,
    };
    handle.lookup(alloc, query, DnsRequestOptions::default(), now)
}

fn request_with_edns(alloc: Global, query: Query) -> Result<DnsRequest, NoMemory> {
    let mut options = DnsRequestOptions::default();
    options.use_edns = true;
    DnsRequest::from_query(alloc, query, options)
}

fn recorded(alloc: Global, query: Query, response: DnsResponse) -> Result<Recorded, NoMemory> {
    let mut upstream = Recorded::new(alloc);
    upstream.push(query, Ok(response))?;
    Ok(upstream)
}

fn ask_again<H: DnsHandle + Drop>(
    alloc: Global,
    handle: H,
    request: DnsRequest,
    now: u64,
) -> Result<DnsResponse, NetError> {
    let mut handle = RetryDnsHandle::new(handle, 2);
    handle.send(alloc, request, now)
}

fn first_message(
    alloc: Global,
    server: SocketAddr,
    request: &DnsRequest,
    now_ms: u64,
) -> Result<Option<SerialMessage>, NetError> {
    let (handle, queue) = BufDnsStreamHandle::new(alloc, server);
    let draws = RandDraws::from_seed(now_ms);
    let mut multiplexer = DnsMultiplexer::new(alloc, server, handle, queue, draws);
    multiplexer.send_message(alloc, request, now_ms)?;
    Ok(multiplexer.pop_outbound())
}

fn received<S: DnsRequestSender>(
    alloc: Global,
    sender: &mut S,
    id: RequestId,
    bytes: &[u8],
) -> Result<Taken, NoMemory> {
    if bytes.len() <= 65_535 {
        sender.arrive(alloc, bytes)?;
    }
    Ok(sender.take(id))
}

fn first_queued(alloc: Global, request: DnsRequest) -> Result<Option<u64>, NetError> {
    let mut queue = BufDnsRequestStreamHandle::new(alloc);
    queue.send(request)?;
    Ok(queue.pop().map(|first| first.slot))
}

fn poll_first(
    stream: DnsResponseStream,
    cx: &mut Context<'_>,
) -> Poll<Result<DnsResponse, NetError>> {
    let mut first = stream.first_answer();
    first.poll(cx)
}

/// A handle that answers a query for the addresses of `a.` with a response of this id.
fn upstream(rt: &impl Abort, alloc: Global, id: u16) -> Recorded {
    let response = reply(alloc, Said::Response(id)).expect(rt, "a response");
    recorded(alloc, question(rt, alloc, "a.", 1), response).expect(rt, "memory")
}

fn is_asked(rt: &impl Abort, alloc: Global) -> bool {
    let name = Name::from_ascii(alloc, "a.").expect(rt, "a name");
    let reply = ask(alloc, &mut upstream(rt, alloc, 7), name, 0);
    said_by(&reply) == Said::Response(7)
}

fn is_asked_again(rt: &impl Abort, alloc: Global) -> bool {
    let request = request_with_edns(alloc, question(rt, alloc, "a.", 1)).expect(rt, "memory");
    let has_edns = request.message.edns.is_some();
    let reply = ask_again(alloc, upstream(rt, alloc, 8), request, 0);
    has_edns && said_by(&reply) == Said::Response(8)
}

#[test]
fn examples_of_handles_answer(rt: HostRuntime) {
    check(&rt, "a lookup", is_asked(&rt, rt.alloc()));
    check(&rt, "a send", is_asked_again(&rt, rt.alloc()));
}

fn is_sent(rt: &impl Abort, alloc: Global) -> bool {
    let message = first_message(alloc, server(), &query(alloc), 0).expect(rt, "a send");
    message.expect(rt, "a message").bytes.len() == 12
}

/// A multiplexer that draws the id 5 for its first request.
fn multiplexer(rt: &impl Abort, alloc: Global) -> DnsMultiplexer<ListDraws> {
    let (handle, queue) = BufDnsStreamHandle::new(alloc, server());
    let ids = Vec::from_slice(alloc, &[5]).expect(rt, "memory");
    let draws = ListDraws::new(ids, Vec::new(alloc));
    DnsMultiplexer::new(alloc, server(), handle, queue, draws)
}

fn is_received(rt: &impl Abort, alloc: Global) -> bool {
    let mut multiplexer = multiplexer(rt, alloc);
    check(rt, "an open multiplexer", !multiplexer.is_shutdown());
    let id = multiplexer
        .send_message(alloc, &query(alloc), 0)
        .expect(rt, "a send");
    match received(alloc, &mut multiplexer, id, &response_bytes(5)).expect(rt, "memory") {
        Taken::Item(reply) => said_by(&reply) == Said::Response(5),
        _ => false,
    }
}

#[test]
fn examples_of_the_multiplexer_carry_messages(rt: HostRuntime) {
    let alloc = rt.alloc();
    check(&rt, "a message", is_sent(&rt, alloc));
    check(&rt, "a response", is_received(&rt, alloc));
    let slot = first_queued(alloc, query(alloc)).expect(&rt, "room");
    check(&rt, "a slot", slot == Some(0));
}

#[test]
fn the_example_of_a_first_answer_is_ready(rt: HostRuntime) {
    let task = MockTask::new(&rt).ok().expect(&rt, "a task");
    let stream = DnsResponseStream::from_result(rt.alloc(), reply(rt.alloc(), Said::Response(3)));
    let poll = task.enter(|cx| poll_first(stream, cx));
    check(&rt, "an answer", said_in(&poll) == Some(Said::Response(3)));
}

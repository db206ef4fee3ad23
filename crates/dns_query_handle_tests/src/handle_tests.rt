//! Handles over handles: the CD bit, truncated responses, the end of asking, and notes (RFC 1035, 4.2.1 and 7.1; RFC 4035, 3.2.2).
use crate::echo::Echo;
use crate::replies::{question, request, response};
use dns_handle::{DnsHandle, DnsResponse, NetError};
use dns_query_handle::{
    CheckingHandle, DeadlineHandle, FallbackHandle, ListStopwatch, Note, NotingHandle,
};
use dns_recorded::Recorded;
use std::alloc::Global;
use std::process::Abort;

// A handle that gives these responses to questions for a., each an id and whether it is truncated, and then nothing.
fn upstream(rt: &impl Abort, alloc: Global, responses: &[(u16, bool)]) -> Recorded {
    let mut upstream = Recorded::in_turn(alloc);
    for (id, truncated) in responses {
        let query = question(rt, alloc, "a.");
        upstream
            .push(query, Ok(response(alloc, *id, *truncated)))
            .expect(rt, "memory");
    }
    upstream
}

// A stopwatch that tells these milliseconds.
fn watch(rt: &impl Abort, alloc: Global, readings: &[u64]) -> ListStopwatch {
    ListStopwatch::new(readings.to_vec(alloc).expect(rt, "memory"))
}

// The id of a response, and 0 in place of an error.
fn id_of(reply: &Result<DnsResponse, NetError>) -> u16 {
    match reply {
        Ok(response) => response.message.id,
        Err(_) => 0,
    }
}

// Whether the CD bit of what a handle sends is set, where it is to be so.
fn sends_cd(rt: &impl Abort, alloc: Global, is_disabled: bool) -> bool {
    let mut handle = CheckingHandle::new(Echo::new(), is_disabled);
    match handle.send(alloc, request(rt, alloc, "a."), 0) {
        Ok(response) => response.message.checking_disabled,
        Err(_) => !is_disabled,
    }
}

#[test]
fn the_cd_bit_is_set_or_cleared(rt: HostRuntime) {
    let alloc = rt.alloc();
    assert!(rt; sends_cd(&rt, alloc, true), "set");
    assert!(rt; !sends_cd(&rt, alloc, false), "clear");
}

/// What the first handle and the second answer, and what is answered.
const TRUNCATED: &[(&[(u16, bool)], &[(u16, bool)], u16)] = &[
    (&[(1, false)], &[(2, false)], 1),
    (&[(1, true)], &[(2, false)], 2),
    (&[(1, true)], &[(2, true)], 2),
    (&[(1, true)], &[], 0),
    (&[], &[(2, false)], 0),
];

// What is answered by two handles that answer so.
fn answered_by(
    rt: &impl Abort,
    alloc: Global,
    first: &[(u16, bool)],
    second: &[(u16, bool)],
) -> u16 {
    let first = upstream(rt, alloc, first);
    let second = upstream(rt, alloc, second);
    let mut handle = FallbackHandle::new(first, second);
    let reply = handle.send(alloc, request(rt, alloc, "a."), 0);
    id_of(&reply)
}

#[test]
fn truncated_responses_are_asked_for_again(rt: HostRuntime) {
    let alloc = rt.alloc();
    for row in TRUNCATED {
        let id = answered_by(&rt, alloc, row.0, row.1);
        assert!(rt; id == row.2, "{id}");
    }
}

#[test]
fn nothing_is_sent_once_the_time_is_over(rt: HostRuntime) {
    let alloc = rt.alloc();
    let inner = upstream(&rt, alloc, &[(1, false)]);
    let readings = watch(&rt, alloc, &[0, 29_999, 30_000, 29_999]);
    let mut handle = DeadlineHandle::new(inner, readings, 30_000);
    for expected in [1u16, 1, 0, 1] {
        let reply = handle.send(alloc, request(&rt, alloc, "a."), 0);
        assert!(rt; id_of(&reply) == expected, "{expected}");
    }
}

// Whether a note is of the question for a., this response, and so many milliseconds.
fn says(rt: &impl Abort, alloc: Global, note: &Note, id: u16, elapsed_ms: u64) -> bool {
    note.query == question(rt, alloc, "a.")
        && id_of(&note.reply) == id
        && note.elapsed_ms == elapsed_ms
}

#[test]
fn queries_are_noted_with_their_answers_and_times(rt: HostRuntime) {
    let alloc = rt.alloc();
    let inner = upstream(&rt, alloc, &[(1, false), (2, false)]);
    let readings = watch(&rt, alloc, &[5, 12, 20, 19]);
    let mut handle = NotingHandle::new(alloc, inner, readings);
    for expected in [1u16, 2] {
        let reply = handle.send(alloc, request(&rt, alloc, "a."), 0);
        assert!(rt; id_of(&reply) == expected, "{expected}");
    }
    let notes = handle.take_notes(alloc);
    match notes.as_slice() {
        [one, other] => {
            assert!(rt; says(&rt, alloc, one, 1, 7), "the first");
            assert!(rt;
                says(&rt, alloc, other, 2, 0),
                "a clock that goes back took no time"
            );
        }
        _ => assert!(rt; false, "two notes"),
    }
    let (_, rest) = handle.into_parts();
    assert!(rt; rest.is_empty(), "the notes were taken");
}

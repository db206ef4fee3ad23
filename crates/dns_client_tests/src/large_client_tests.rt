//! Calls of a client with more records than a message holds, and with names as long as may be.
use crate::client_calls::{NOW, Said, said_to};
use crate::client_parts::{RESPONSE, client_over};
use crate::large_rows::{LONGEST, LargeRow, rows_of_many, rows_of_the_longest};
use crate::parts::{check, name};
use dns_client::ClientHandle;
use dns_record::{DNSClass, RecordType};
use futures::test::MockTask;
use std::alloc::Global;
use std::process::Abort;
use std::rt::HostRuntime;

/// What a new client is answered, and whether it has sent nothing.
fn said_and_silent(
    rt: &impl Abort,
    alloc: Global,
    row: &LargeRow,
    task: &MockTask,
) -> (Said, bool) {
    let mut client = client_over(rt, alloc, RESPONSE);
    let said = said_to(rt, alloc, &mut client, row.1, &row.2, task);
    let link = client.into_sender().into_link();
    (said, link.taken().is_empty())
}

#[test]
fn a_client_refuses_70_000_records(rt: HostRuntime) {
    let task = MockTask::new(&rt).ok().expect(&rt, "a task");
    for row in rows_of_many() {
        let (said, silent) = said_and_silent(&rt, rt.alloc(), row, &task);
        check(&rt, row.0, said == Said::TooLong && silent);
    }
}

fn is_asked(rt: &impl Abort, alloc: Global) -> bool {
    let mut client = client_over(rt, alloc, RESPONSE);
    let owner = name(rt, alloc, LONGEST);
    let answer = client.query(alloc, owner, DNSClass::IN, RecordType::A, NOW);
    answer.is_ok()
}

#[test]
fn a_client_sends_the_longest_names(rt: HostRuntime) {
    let task = MockTask::new(&rt).ok().expect(&rt, "a task");
    check(&rt, "a query", is_asked(&rt, rt.alloc()));
    for row in rows_of_the_longest() {
        let (said, _) = said_and_silent(&rt, rt.alloc(), row, &task);
        check(&rt, row.0, said == Said::Response);
    }
}

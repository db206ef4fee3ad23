//! Requests that wait: a task in which polls are made by hand, and what a poll says.
use crate::parts::check;
use crate::replies::{Said, said_by};
use dns_handle::{DnsResponse, NetError};
use futures::task::Poll;
use futures::test::MockTask;
use std::alloc::{AllocGlobal, Global};
use std::process::Abort;
use std::random::RandomSource;

/// What the reply of a poll says, where there is one.
pub(crate) fn said_in(poll: &Poll<Result<DnsResponse, NetError>>) -> Option<Said> {
    match poll {
        Poll::Ready(reply) => Some(said_by(reply)),
        Poll::Pending => None,
    }
}

/// What a table of requests that wait says behind the name of a row.
pub(crate) trait Waiting {
    /// Whether it holds where the task polls.
    fn holds(&self, rt: &impl Abort, alloc: Global, task: &MockTask) -> bool;
}

/// Each row of a table holds in a task in which polls are made by hand.
pub(crate) fn check_waiting<W: Waiting>(
    rt: &(impl Abort + RandomSource + AllocGlobal),
    rows: &[(&str, W)],
) {
    let task = MockTask::new(rt).ok().expect(rt, "a task");
    for row in rows {
        check(rt, row.0, row.1.holds(rt, rt.alloc(), &task));
    }
}

//! Replies that were recorded, served by turn and without turns.
use crate::parts::{check, query};
use crate::replies::{Said, question, reply, said_by};
use dns_handle::{DnsHandle, DnsRequestOptions, DnsResponse, NetError, faults_after};
use dns_record::Query;
use dns_recorded::Recorded;
use std::alloc::Global;
use std::process::Abort;

/// What is done with a handle. A name and a type are those of a query.
#[derive(Clone, Copy)]
enum Step {
    /// The reply is put in.
    Put(&'static str, u16, Said),
    /// The query is sent, and that reply comes.
    Send(&'static str, u16, Said),
    /// A request without a question is sent, and `Timeout` comes.
    SendNothing,
}

const BY_TURN: &[Step] = &[
    Step::Put("a.", 1, Said::Response(1)),
    Step::Put("b.", 1, Said::Response(4)),
    Step::Put("A.", 1, Said::Response(2)),
    Step::Put("a.", 1, Said::Response(3)),
    Step::Put("b.", 1, Said::Busy),
    Step::Put("a.", 2, Said::Response(5)),
    Step::Send("a.", 1, Said::Response(1)),
    Step::Send("b.", 1, Said::Response(4)),
    // in whatever case the name is
    Step::Send("A.", 1, Said::Response(2)),
    // what isn't there takes no other's turn
    Step::Send("c.", 1, Said::TimedOut),
    Step::SendNothing,
    Step::Send("a.", 2, Said::Response(5)),
    Step::Send("a.", 1, Said::Response(3)),
    // the last one stays
    Step::Send("a.", 1, Said::Response(3)),
    Step::Send("a.", 1, Said::Response(3)),
    Step::Send("b.", 1, Said::Busy),
    Step::Send("b.", 1, Said::Busy),
    Step::Send("a.", 2, Said::Response(5)),
];

/// Replies that are put in between sends come behind those that are left.
const PUT_LATER: &[Step] = &[
    Step::Send("a.", 1, Said::TimedOut),
    Step::Put("a.", 1, Said::Response(1)),
    Step::Send("a.", 1, Said::Response(1)),
    Step::Send("a.", 1, Said::Response(1)),
    Step::Put("a.", 1, Said::Response(2)),
    Step::Put("b.", 1, Said::Response(3)),
    Step::Put("a.", 1, Said::Response(4)),
    Step::Send("a.", 1, Said::Response(1)),
    Step::Send("a.", 1, Said::Response(2)),
    Step::Send("a.", 1, Said::Response(4)),
    Step::Send("a.", 1, Said::Response(4)),
];

/// Without turns the first reply serves each send.
const NOT_BY_TURN: &[Step] = &[
    Step::Put("a.", 1, Said::Response(1)),
    Step::Put("a.", 1, Said::Response(2)),
    Step::Put("b.", 1, Said::Busy),
    Step::Send("a.", 1, Said::Response(1)),
    Step::Send("b.", 1, Said::Busy),
    Step::Send("A.", 1, Said::Response(1)),
    Step::Send("a.", 1, Said::Response(1)),
    Step::Send("b.", 1, Said::Busy),
];

/// One reply to each query is served alike with turns and without.
const ONE_EACH: &[Step] = &[
    Step::Put("a.", 1, Said::Response(1)),
    Step::Put("b.", 1, Said::Response(2)),
    Step::Send("a.", 1, Said::Response(1)),
    Step::Send("b.", 1, Said::Response(2)),
    Step::Send("a.", 1, Said::Response(1)),
    Step::Send("b.", 1, Said::Response(2)),
];

/// What a handle was told, and what it replies without turns.
const TOLD: &[Step] = &[
    Step::Put("org.", 2, Said::Response(0)),
    Step::Put("ORG.", 2, Said::Response(5)),
    Step::Put("org.", 1, Said::Response(3)),
    Step::Put(".", 2, Said::Response(2)),
    Step::Put("net.", 2, Said::Busy),
    // the first reply serves
    Step::Send("org.", 2, Said::Response(0)),
    // in whatever case the name is
    Step::Send("oRg.", 2, Said::Response(0)),
    Step::Send("org.", 1, Said::Response(3)),
    Step::Send(".", 2, Said::Response(2)),
    Step::Send("net.", 2, Said::Busy),
    // none was recorded
    Step::Send("net.", 1, Said::TimedOut),
    Step::Send("a.org.", 2, Said::TimedOut),
    // none was asked for
    Step::SendNothing,
];

/// Whether replies are served by turn, and what is done with a handle that knows nothing before.
struct Script(bool, &'static [Step]);

const SCRIPTS: &[(&str, Script)] = &[
    ("by turn", Script(true, BY_TURN)),
    ("put later", Script(true, PUT_LATER)),
    ("one each, by turn", Script(true, ONE_EACH)),
    ("not by turn", Script(false, NOT_BY_TURN)),
    ("one each", Script(false, ONE_EACH)),
    ("the first reply", Script(false, TOLD)),
];

fn scripts() -> &'static [(&'static str, Script)] {
    SCRIPTS
}

fn put(rt: &impl Abort, alloc: Global, handle: &mut Recorded, question: Query, said: Said) {
    handle
        .push(question, reply(alloc, said))
        .expect(rt, "memory");
}

/// What a count of 7 faults is after such a reply.
fn faults_of(said: Said) -> u64 {
    match said {
        Said::Response(_) => 7,
        _ => 8,
    }
}

/// The reply says this.
fn is_reply(reply: Result<DnsResponse, NetError>, said: Said) -> bool {
    said_by(&reply) == said && faults_after(7, &reply) == faults_of(said)
}

/// Whether the question, when it is sent, is answered so.
fn sends(alloc: Global, handle: &mut Recorded, question: Query, said: Said) -> bool {
    let options = DnsRequestOptions::default();
    is_reply(handle.lookup(alloc, question, options, 1000), said)
}

/// The step goes as it says.
fn goes(rt: &impl Abort, alloc: Global, handle: &mut Recorded, step: Step) -> bool {
    match step {
        Step::Put(name, record_type, said) => {
            put(
                rt,
                alloc,
                handle,
                question(rt, alloc, name, record_type),
                said,
            );
            true
        }
        Step::Send(name, record_type, said) => {
            sends(alloc, handle, question(rt, alloc, name, record_type), said)
        }
        Step::SendNothing => is_reply(handle.send(alloc, query(alloc), 1000), Said::TimedOut),
    }
}

/// Each step goes as it says, and the handle takes what a server says and verifies nothing.
fn all_go(rt: &impl Abort, alloc: Global, handle: &mut Recorded, steps: &[Step]) -> bool {
    for step in steps {
        if !goes(rt, alloc, handle, *step) {
            return false;
        }
    }
    !handle.is_verifying_dnssec() && handle.is_using_edns()
}

fn handle(alloc: Global, by_turn: bool) -> Recorded {
    if by_turn {
        Recorded::in_turn(alloc)
    } else {
        Recorded::new(alloc)
    }
}

fn holds(rt: &impl Abort, alloc: Global, script: &Script) -> bool {
    let mut handle = handle(alloc, script.0);
    all_go(rt, alloc, &mut handle, script.1)
}

#[test]
fn recorded_replies_are_served(rt: HostRuntime) {
    for script in scripts() {
        check(&rt, script.0, holds(&rt, rt.alloc(), &script.1));
    }
}

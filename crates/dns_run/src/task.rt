//! What is asked of an input besides the report of its lookup, and how a run ends that does it.
ghost use Rattle.std.specs.Prelude.{◌≡◌, ◌≢◌, ◌<◌, ◌^◌, ◌≤◌, false, length, IfOk};
ghost use Rattle.dns_io.specs.Reading.{input_limit};
ghost use Rattle.dns_io.specs.Runs.{outside, AnInput, KeepsOutside, KeepsSink};
ghost use Rattle.dns_io.specs.Leaving.{Leaves, Wrote, WrotePrefix};
ghost use Rattle.dns_run.specs.Forms.{goes_further};
ghost use Rattle.dns_run.specs.Outcomes.{Fails};
ghost use Rattle.dns_run.specs.Tasks.{TaskEnds, TaskTells, EndsTask};
ghost use Rattle.dns_session_lookup.specs.declared.verification.Verification.TheVariants.{ByList};

use crate::audit::audit_ending;
use crate::deny::deny_ending;
use crate::explain::explain_ending;
use crate::questions::questions_ending;
use crate::roll::roll_ending;
use dns_io::status::{self, read_status, refuse_long, write_text};
use dns_io::{ReadStop, Sink, Source, read_all};
use dns_record::NoMemory;
use dns_session_lookup::Verification;
use std::alloc::Global;

/// What is asked of an input besides the report of its lookup.
#[derive(Clone, Copy)]
pub enum Task {
    /// Whether the report behind a session holds.
    Audit,
    /// Which questions a verifier must be asked for a session.
    Questions,
    /// Which keys of a zone are trusted after sightings of them.
    Roll,
    /// Which questions the records of the answer to a session deny.
    Deny,
    /// Why the sets of its lookup's trail aren't Secure, with signatures verified so.
    Explain(Verification),
}

// What bytes come to by a task: a status, and a text.
fn task_ending(alloc: Global, task: Task, bytes: &[u8]) -> Result<(u8, Vec<u8>), NoMemory>
    requires { length bytes.now < 2 ^ 32 }
    ensures ends { IfOk result (λ x. TaskEnds task bytes.now x.0 x.1.items) }
    ensures low { IfOk result (λ x. x.0 < 4) }
{
    match task {
        Task::Audit => audit_ending(alloc, bytes),
        Task::Questions => questions_ending(alloc, bytes),
        Task::Roll => roll_ending(alloc, bytes),
        Task::Deny => deny_ending(alloc, bytes),
        Task::Explain(how) => explain_ending(alloc, how, bytes),
    }
}

// Does a task on bytes.
#[tactic(auto, using(crate::proofs::TaskLemmas::ended_wrote, crate::proofs::TaskLemmas::ended_prefix, crate::proofs::TaskLemmas::nothing_ended))]
fn done<W: Sink>(alloc: Global, task: Task, bytes: &[u8], output: &mut W) -> u8
    requires { length bytes.now ≤ input_limit }
    ensures ends { result < 4 → Wrote (W.taken output.old) (W.taken output.new) (TaskEnds task bytes.now result) }
    ensures prefix { WrotePrefix (W.taken output.old) (W.taken output.new) (TaskTells task bytes.now) }
    ensures keeps { KeepsSink W.faults result output.old output.new }
{
    match task_ending(alloc, task, bytes) {
        Ok((status, text)) => write_text(status, &text, output),
        Err(NoMemory) => status::NO_MEMORY,
    }
}

// Reads an input and does a task on it.
#[tactic(auto, using(dns_io::proofs::Leaving::of_read, dns_io::proofs::Runs::keeps_answered, dns_io::proofs::Runs::keeps_long, dns_io::proofs::Runs::keeps_stopped, crate::proofs::TaskLemmas::read_ends, crate::proofs::TaskLemmas::long_ends, crate::proofs::TaskLemmas::stopped_ends))]
fn read_and_done<S: Source, W: Sink>(alloc: Global, task: Task, input: &mut S, output: &mut W) -> u8
    ensures ends { EndsTask task result (S.left input.old) (W.taken output.old) (W.taken output.new) }
    ensures outside { KeepsOutside (outside S.left S.faults W.taken W.faults W.takes_memory) AnInput
        result input.old input.new output.old output.new }
{
    match read_all(alloc, input) {
        Ok(bytes) => done(alloc, task, &bytes, output),
        Err(ReadStop::TooLong) => refuse_long(output),
        Err(stop) => read_status(stop),
    }
}

/// Reads an input and does a task on it.
pub(crate) fn do_task<S: Source, W: Sink>(
    alloc: Global,
    task: Task,
    input: &mut S,
    output: &mut W,
) -> u8
    ensures ends { EndsTask task result (S.left input.old) (W.taken output.old) (W.taken output.new) }

    // What follows of that for single statuses.
    ensures fault { goes_further task ≡ false → result ≡ 1 → Leaves (Fails ByList) (S.left input.old) (W.taken output.old) (W.taken output.new) }
    ensures form { result ≢ 2 }

    ensures outside { KeepsOutside (outside S.left S.faults W.taken W.faults W.takes_memory) AnInput
        result input.old input.new output.old output.new }
{
    read_and_done(alloc, task, input, output)
}

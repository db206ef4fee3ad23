//! The program for words that ask no server, over any source and any sink.
ghost use Rattle.std.specs.Prelude.{◌≡◌, ◌≢◌, ◌≤◌, false, length};
ghost use Rattle.dns_io.specs.Reading.{input_limit};
ghost use Rattle.dns_io.specs.Runs.{outside, AnInput, KeepsOutside, KeepsSink};
ghost use Rattle.dns_io.specs.Leaving.{Leaves, Wrote, WrotePrefix};
ghost use Rattle.dns_run.specs.Ends.{EndsRun};
ghost use Rattle.dns_run.specs.Forms.{asked_form, asks_server, words_ask};
ghost use Rattle.dns_run.specs.Outcomes.{LeavesPrefix, ComesTo, Derives, Fails, Refuses};

use crate::bench::write_bench;
use crate::form::{Form, form_of, help_text, version_text};
use crate::outcome::{InputEnding, session_ending};
use crate::task::do_task;
use dns_io::status::{self, read_status, refuse_long, refuse_words, write_text};
use dns_io::{ReadStop, Sink, Source, read_all};
use dns_record::NoMemory;
use dns_report::Parts;
use dns_session_lookup::Verification;
use std::alloc::Global;

// Answers the session that bytes are.
#[tactic(auto, using(crate::proofs::OutcomeLemmas::report_prefix, crate::proofs::OutcomeLemmas::fault_prefix, crate::proofs::OutcomeLemmas::refused_prefix, crate::proofs::OutcomeLemmas::nothing_written))]
fn answer<W: Sink>(
    alloc: Global,
    how: Verification,
    shows: Parts,
    bytes: &[u8],
    output: &mut W,
) -> u8
    requires { length bytes.now ≤ input_limit }
    ensures derived { result ≡ 0 → Wrote (W.taken output.old) (W.taken output.new) (Derives how shows bytes.now) }
    ensures fault { result ≡ 1 → Wrote (W.taken output.old) (W.taken output.new) (Fails how bytes.now) }
    ensures form { result ≢ 2 }
    ensures grammar { result ≡ 3 → Wrote (W.taken output.old) (W.taken output.new) (Refuses bytes.now) }
    ensures prefix { WrotePrefix (W.taken output.old) (W.taken output.new) (ComesTo how shows bytes.now) }
    ensures keeps { KeepsSink W.faults result output.old output.new }
{
    match session_ending(alloc, how, shows, bytes) {
        Ok((InputEnding::Report, text)) => write_text(status::DONE, &text, output),
        Ok((InputEnding::Fault, text)) => write_text(status::FAULT, &text, output),
        Ok((InputEnding::BadLine, text)) => write_text(status::BAD_INPUT, &text, output),
        Err(NoMemory) => status::NO_MEMORY,
    }
}

// Reads a session and answers it.
#[tactic(auto, using(dns_io::proofs::Leaving::of_read, dns_io::proofs::Runs::keeps_answered, dns_io::proofs::Runs::keeps_long, dns_io::proofs::Runs::keeps_stopped, crate::proofs::OutcomeLemmas::nothing_told, crate::proofs::OutcomeLemmas::long_prefix))]
fn validate<S: Source, W: Sink>(
    alloc: Global,
    how: Verification,
    shows: Parts,
    input: &mut S,
    output: &mut W,
) -> u8
    ensures derived { result ≡ 0 → Leaves (Derives how shows) (S.left input.old) (W.taken output.old) (W.taken output.new) }
    ensures fault { result ≡ 1 → Leaves (Fails how) (S.left input.old) (W.taken output.old) (W.taken output.new) }
    ensures form { result ≢ 2 }
    ensures grammar { result ≡ 3 → Leaves Refuses (S.left input.old) (W.taken output.old) (W.taken output.new) }
    ensures prefix { LeavesPrefix how shows (S.left input.old) (W.taken output.old) (W.taken output.new) }
    ensures outside { KeepsOutside (outside S.left S.faults W.taken W.faults W.takes_memory) AnInput
        result input.old input.new output.old output.new }
{
    match read_all(alloc, input) {
        Ok(bytes) => answer(alloc, how, shows, &bytes, output),
        Err(ReadStop::TooLong) => refuse_long(output),
        Err(stop) => read_status(stop),
    }
}

/// Runs the program with words that ask no server.
#[tactic(auto, using(dns_io::proofs::Runs::keeps_unread, crate::proofs::OutcomeLemmas::leaves_reports))]
pub(crate) fn run_offline<S: Source, W: Sink>(
    alloc: Global,
    words: &[Vec<u8>],
    input: &mut S,
    output: &mut W,
) -> u8
    requires { asks_server (asked_form words.now) ≡ false }

    // How the run ends by its words, its input and its output.
    ensures ends { EndsRun words.now result (S.left input.old) (W.taken output.old) (W.taken output.new) }

    // The statuses from 4 on have their causes outside, an input is read to its end or not at all, and counts never fall.
    ensures outside { KeepsOutside (outside S.left S.faults W.taken W.faults W.takes_memory) (words_ask words.now)
        result input.old input.new output.old output.new }
{
    match form_of(words) {
        Some(Form::Validate(how, shows)) => validate(alloc, how, shows, input, output),
        Some(Form::Task(task)) => do_task(alloc, task, input, output),
        Some(Form::Bench(number)) => write_bench(alloc, number, output),
        Some(Form::Ask(_, _, _, _)) => unreachable!(),
        Some(Form::Help) => write_text(status::DONE, help_text(), output),
        Some(Form::Version) => write_text(status::DONE, version_text(), output),
        None => refuse_words(output),
    }
}

//! The program over any sink.
ghost use Rattle.std.specs.Prelude.{◌≡◌, ◌<◌, ◌⊎◌};
ghost use Rattle.std.specs.Io.KnownBytes.{Appends};
ghost use Rattle.dns_io.specs.Runs.{KeepsSink};
ghost use Rattle.dns_io.specs.Writing.{bad_words_text};

use crate::counts::push_line;
use crate::events::{Beside, first_difference};
use crate::form::{Form, Work, form_of};
use crate::mux_load::{decoded, load};
use crate::rounds::{longest_alone, longest_shared, rounds_alone, rounds_shared, ticks};
use crate::sockets::answered;
use crate::together::responses_alike;
use dns_io::Sink;
use dns_io::status::{self, refuse_words, write_text};
use dns_record::NoMemory;
use std::alloc::Global;
use std::sync::Wait;
use std::thread::Threads;

// The line of what was played: how much was answered alike, or the number of the first difference.
fn push_played<W: Wait + Copy>(
    rt: W,
    alloc: Global,
    text: &mut Vec<u8>,
    beside: Beside,
    form: Form,
) -> Result<(), NoMemory> {
    match first_difference(rt, alloc, beside, u64::from(form.first), form.second)? {
        None => push_line(text, b"alike ", u64::from(form.second)),
        Some(number) => push_line(text, b"different ", u64::from(number)),
    }
}

// The lines of random events: how many responses callers side by side were given, as one history says.
fn push_all<T: Threads + Wait + Copy + Send + Sync>(
    rt: T,
    alloc: Global,
    text: &mut Vec<u8>,
    form: Form,
) -> Result<u64, NoMemory> {
    push_played(rt, alloc, text, Beside::Multiplexer, form)?;
    push_played(rt, alloc, text, Beside::Exchange, form)?;
    responses_alike(rt, alloc, u64::from(form.first))
}

// Puts the line of the longest call behind a text: how often it went well.
fn push_longest(text: &mut Vec<u8>, done: (u64, u64)) -> Result<u64, NoMemory> {
    let (answered, longest) = done;
    push_line(text, b"longest ", longest)?;
    Ok(answered)
}

// Does what is asked for, and puts other lines of it behind a text: how often it went well.
fn done<T: Threads + Wait + Copy + Send + Sync>(
    rt: &HostRuntime,
    threads: &T,
    alloc: Global,
    form: Form,
    text: &mut Vec<u8>,
) -> Result<u64, NoMemory> {
    match form.work {
        Work::All => push_all(*threads, alloc, text, form),
        Work::Sends | Work::Arrivals => load(alloc, form),
        Work::Decoded => Ok(decoded(alloc, form.first)),
        Work::Rounds => rounds_alone(alloc, form.first),
        Work::SharedRounds => rounds_shared(*threads, alloc, form.first, form.second),
        Work::Ticks => ticks(*threads, alloc, form.first),
        Work::Longest => push_longest(text, longest_alone(alloc, rt, form.first)?),
        Work::SharedLongest => {
            push_longest(text, longest_shared(*threads, alloc, rt, form.first)?)
        }
        Work::Asked | Work::Plain | Work::Shared | Work::Apart => answered(
            rt, threads, alloc, form.work, form.first,
        ),
    }
}

// Does what is asked for, and writes its lines.
fn answer<T: Threads + Wait + Copy + Send + Sync, W: Sink>(
    rt: &HostRuntime,
    threads: &T,
    alloc: Global,
    form: Form,
    output: &mut W,
) -> u8
    ensures ends { result < 4 → result ≡ 0 }
    ensures keeps { KeepsSink W.faults result output.old output.new }
{
    let mut text = Vec::new(alloc);
    match push_lines(rt, threads, alloc, form, &mut text) {
        Ok(()) => write_text(status::DONE, &text, output),
        Err(NoMemory) => status::NO_MEMORY,
    }
}

// Puts the lines of what is asked for behind a text.
fn push_lines<T: Threads + Wait + Copy + Send + Sync>(
    rt: &HostRuntime,
    threads: &T,
    alloc: Global,
    form: Form,
    text: &mut Vec<u8>,
) -> Result<(), NoMemory> {
    let count = done(rt, threads, alloc, form, text)?;
    push_line(text, b"done ", count)
}

/// Runs the program with its words, those after its name, and answers its status. `threads` is the runtime as well, which lets only `main`
/// start threads.
///
/// `sends LIVE COUNT` sends requests while so many others are live, `arrivals LIVE COUNT` hands responses of 50 bytes to so many live
/// requests and takes them, and `decoded COUNT` decodes such responses alone.
///
/// `rounds COUNT` brings so many requests from their send to their end by a multiplexer alone, with five calls each: a send, a pop, an arrival, a
/// take and a cancel. `shared-rounds THREADS COUNT` does as many by each of so many threads at once, at least one, through tokens of one exchange, of
/// which one tries again where another has its message. `ticks COUNT` ticks through a token, and nothing else. `longest COUNT` and
/// `shared-longest COUNT` are rounds whose calls are timed, by a multiplexer alone and through a token; they write `longest` with the nanoseconds of
/// the longest call.
///
/// `asked COUNT` sends requests to a server of this machine, and `plain COUNT` carries as many bytes by plain sockets. `shared COUNT` sends so many by
/// each of four threads over one connection, and `apart COUNT` over a connection each.
///
/// Each writes `done` and how often it went well. `all SEED COUNT` plays random events on a multiplexer and on a plain machine, and then through a token
/// and on a plain machine. Of each it writes `alike COUNT`, or `different` with the number of the first event that they answer otherwise, counted from 0.
/// Then four threads make a thousand requests each over one exchange, and a fifth hands responses over, in any order: done are the responses that the
/// four were given, where what all did is one history of the plain machine, and else none.
///
/// 0: the lines are written. 2: the words are no form. 5: a write failed after a prefix of the text. 6: memory ran out.
pub(crate) fn run<T: Threads + Wait + Copy + Send + Sync, W: Sink>(
    rt: &HostRuntime,
    threads: &T,
    alloc: Global,
    words: &[Vec<u8>],
    output: &mut W,
) -> u8
    ensures ends { result < 4 → (result ≡ 0) ⊎ (result ≡ 2) }
    ensures refused { result ≡ 2 → Appends (W.taken output.old) (W.taken output.new) bad_words_text }
    ensures keeps { KeepsSink W.faults result output.old output.new }
{
    match form_of(words) {
        Some(form) => answer(rt, threads, alloc, form, output),
        None => refuse_words(output),
    }
}

//! `dns_query`: the records of a name from a server, each behind its mark, with what proves it checked from trusted keys on.
#![tactic(auto)]

mod session_file;

use crate::session_file::SessionFile;
use dns_io::{InputSource, OutputSink, ReadStop, read_all, status, words_of};
use dns_link::{SocketDialer, SystemClock};
use dns_query_handle::SystemStopwatch;
use dns_query_lookup::Outside;
use dns_query_run::{FileTexts, run_query};
use dns_query_waits::WaitingDialer;
use dns_query_words::{Arguments, Form, WordsError, read_words};
use dns_record::NoMemory;
use std::fs::File;
use std::io::{ErrorKind, IsTerminal, Stderr};
use std::process::ExitCode;
use std::random::RandomSource;

// A connection answers within so many milliseconds of a request, or has failed. What is on its way when the time is over is awaited for as long.
const DEADLINE_MS: u64 = 5000;

// Where Debian keeps the root's trust anchors, and where the system says whom it asks.
const ROOT_KEYS: &str = "/usr/share/dns/root.key";

const RESOLVER: &str = "/etc/resolv.conf";

// No answer: nobody is asked.
const NO_ANSWER: u8 = 4;

// A seed from the system's random source; None where it gives none.
fn seed_of<R: RandomSource>(source: &R) -> Option<u64> {
    let mut bytes = [0u8; 8];
    match source.fill_bytes(&mut bytes) {
        Ok(()) => Some(u64::from_le_bytes(bytes)),
        Err(_) => None,
    }
}

// Why nobody is asked.
#[derive(Drop)]
enum Stop {
    // The file of trust anchors that the words name can't be read.
    Unreadable,
    NoMemory,
}

impl From<NoMemory> for Stop {
    fn from(_: NoMemory) -> Stop {
        Stop::NoMemory
    }
}

// The bytes of a file; None where it can't be read.
fn text_of(rt: &HostRuntime, path: &str) -> Result<Option<Vec<u8>>, NoMemory> {
    let file = match File::open(rt, path) {
        Ok(file) => file,
        Err(error) if error.kind() == ErrorKind::OutOfMemory => return Err(NoMemory),
        Err(_) => return Ok(None),
    };
    let mut source = InputSource::new(file);
    match read_all(rt.alloc(), &mut source) {
        Ok(text) => Ok(Some(text)),
        Err(ReadStop::Failed | ReadStop::TooLong) => Ok(None),
        Err(ReadStop::NoMemory) => Err(NoMemory),
    }
}

// The words of a question, if they ask one.
fn asked<'a>(rt: &HostRuntime, words: &'a [Vec<u8>]) -> Result<Option<Arguments<'a>>, NoMemory> {
    match read_words(rt.alloc(), words) {
        Ok(Form::Ask(arguments)) => Ok(Some(arguments)),
        Ok(Form::Help | Form::Version) | Err(WordsError::Refused(_, _)) => Ok(None),
        Err(WordsError::NoMemory) => Err(NoMemory),
    }
}

// The path of the file of trust anchors that a question names.
fn anchors_path<'a>(asked: &Option<Arguments<'a>>) -> Option<&'a [u8]> {
    match asked {
        Some(arguments) => arguments.anchors,
        None => None,
    }
}

// The path of the file that the session is to be written to; None where a question names none, or bytes that are no path.
fn save_path<'a>(asked: &Option<Arguments<'a>>) -> Option<&'a str> {
    match asked {
        Some(arguments) => str::from_utf8(arguments.save?).ok(),
        None => None,
    }
}

// The text of the file of trust anchors that a question names, or of the system's. Running out of memory isn't taken for a file that
// can't be read, since other keys would then be trusted than those that are named.
fn anchors_of(rt: &HostRuntime, asked: &Option<Arguments<'_>>) -> Result<Option<Vec<u8>>, Stop> {
    let Some(path) = anchors_path(asked) else {
        return Ok(text_of(rt, ROOT_KEYS)?);
    };
    let Ok(path) = str::from_utf8(path) else {
        return Err(Stop::Unreadable);
    };
    match text_of(rt, path)? {
        Some(text) => Ok(Some(text)),
        None => Err(Stop::Unreadable),
    }
}

// Says which keys are trusted where a question is asked and there is no file of them.
fn say_built_in(rt: &HostRuntime, is_asked: bool, anchors: &Option<Vec<u8>>) {
    if is_asked && anchors.is_none() {
        let _ = eprintln!(rt;
            "dns_query: the root's keys 20326 and 38696 are trusted, since {ROOT_KEYS} can't be read"
        );
    }
}

// A dialer that waits for nothing once the time is over, and says whom it waits for where somebody reads it.
fn waiting<'a>(
    rt: &'a HostRuntime,
    dial: SocketDialer<&'a HostRuntime>,
    limit_ms: u64,
) -> WaitingDialer<SocketDialer<&'a HostRuntime>, &'a HostRuntime, Stderr> {
    let errors = rt.stderr();
    let speaks = errors.is_terminal();
    WaitingDialer::new(rt.alloc(), dial, limit_ms, speaks, rt, errors)
}

// For so many milliseconds something is awaited: while a question may be asked, and for what is on its way then.
fn limit_of(asked: &Option<Arguments<'_>>) -> u64 {
    match asked {
        Some(arguments) => u64::from(arguments.timeout) * 1000 + DEADLINE_MS,
        None => 0,
    }
}

// Runs the program with these texts.
fn run_with(
    rt: &HostRuntime,
    words: &[Vec<u8>],
    anchors: Option<&[u8]>,
    resolver: Option<&[u8]>,
    save: Option<&str>,
    limit_ms: u64,
) -> u8 {
    let files = FileTexts { anchors, resolver };
    let outside = Outside {
        datagrams: waiting(rt, SocketDialer::new(rt), limit_ms),
        connections: waiting(
            rt,
            SocketDialer::new(rt).with_deadline(DEADLINE_MS),
            limit_ms,
        ),
        deadline: SystemStopwatch::new(rt),
        notes: SystemStopwatch::new(rt),
    };
    let mut clock = SystemClock::new(rt);
    let mut output = OutputSink::new(rt.stdout());
    let mut saved = SessionFile::new(rt, save);
    let mut errors = OutputSink::new(rt.stderr());
    run_query(
        rt.alloc(),
        words,
        files,
        outside,
        seed_of(rt),
        &mut clock,
        &mut output,
        &mut saved,
        &mut errors,
    )
}

// The status of what the words come to, by the files that they need.
fn status_of(rt: &HostRuntime, words: &[Vec<u8>]) -> Result<u8, Stop> {
    let asked = asked(rt, words)?;
    let anchors = anchors_of(rt, &asked)?;
    say_built_in(rt, asked.is_some(), &anchors);
    let resolver = text_of(rt, RESOLVER)?;
    let save = save_path(&asked);
    Ok(run_with(
        rt,
        words,
        anchors.as_deref(),
        resolver.as_deref(),
        save,
        limit_of(&asked),
    ))
}

// Says why nobody is asked.
fn stopped(rt: &HostRuntime, stop: Stop) -> ExitCode {
    match stop {
        Stop::NoMemory => {
            let _ = eprintln!(rt; "dns_query: out of memory");
            ExitCode::from(status::NO_MEMORY)
        }
        Stop::Unreadable => {
            let _ = eprintln!(rt; "dns_query: can't read the file of trust anchors");
            ExitCode::from(NO_ANSWER)
        }
    }
}

// Words that can't be read are no call.
fn main(rt: HostRuntime) -> ExitCode {
    let words = match words_of(&rt) {
        Ok(Some(words)) => words,
        Ok(None) => Vec::new(rt.alloc()),
        Err(_) => return stopped(&rt, Stop::NoMemory),
    };
    match status_of(&rt, &words) {
        Ok(status) => ExitCode::from(status),
        Err(stop) => stopped(&rt, stop),
    }
}

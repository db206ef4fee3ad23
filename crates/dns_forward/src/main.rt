//! `dns_forward`: a validating forwarder, which answers the requests of clients over one server, by a session on the standard input.
#![tactic(auto)]

use dns_forward_run::run_forward_seeded;
use dns_io::{InputSource, OutputSink, status, words_of};
use dns_link::{SocketDialer, SystemClock};
use dns_listener::SocketListener;
use std::process::ExitCode;
use std::random::RandomSource;

// The connection to the server answers within so many milliseconds of a request, or has failed.
const DEADLINE_MS: u64 = 5000;

// A seed from the system's random source; None where it gives none.
fn seed_of<R: RandomSource>(source: &R) -> Option<u64> {
    let mut bytes = [0u8; 8];
    match source.fill_bytes(&mut bytes) {
        Ok(()) => Some(u64::from_le_bytes(bytes)),
        Err(_) => None,
    }
}

// Words that can't be read are no form.
fn main(rt: HostRuntime) -> ExitCode {
    let alloc = rt.alloc();
    let words = match words_of(&rt) {
        Ok(Some(words)) => words,
        Ok(None) => Vec::new(alloc),
        Err(_) => return ExitCode::from(status::NO_MEMORY),
    };
    let mut input = InputSource::new(rt.stdin());
    let mut output = OutputSink::new(rt.stdout());
    let mut listen = SocketListener::new(rt, alloc);
    let seed = seed_of(&rt);
    let dial = SocketDialer::new(rt).with_deadline(DEADLINE_MS);
    let end = run_forward_seeded(
        &rt,
        alloc,
        &words,
        &mut input,
        &mut output,
        dial,
        &mut listen,
        SystemClock::new(rt),
        seed,
    );
    ExitCode::from(end.status)
}

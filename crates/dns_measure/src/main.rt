//! `dns_measure`: does one thing many times, so that a script can measure what it costs; and tells three things for tools: what the NSEC or
//! NSEC3 records in each reply of a session prove of its question, in the zone that the session's query names; which signatures of
//! some lines the verifier that computes accepts; and which replies a forwarder gives, to the requests of some lines or over a session.
#![tactic(auto)]

mod counts;
mod denials;
mod form;
mod frames;
mod lookups;
mod program;
mod replies;
mod responses;
mod signatures;
mod signing;
mod texts;
mod verdicts;

use dns_io::{InputSource, OutputSink, status, words_of};
use program::run;
use std::process::ExitCode;

// Words that can't be read are no form.
fn main(rt: HostRuntime) -> ExitCode {
    let alloc = rt.alloc();
    let words = match words_of(&rt) {
        Ok(Some(words)) => words,
        Ok(None) => Vec::new(alloc),
        Err(_) => return ExitCode::from(status::NO_MEMORY),
    };
    let mut input = InputSource::new(rt.stdin());
    let mut output = OutputSink::new(rt.stdout());
    let status = run(alloc, &words, &mut input, &mut output);
    ExitCode::from(status)
}

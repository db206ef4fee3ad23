//! `dns_kept_trial`: plays random calls on a store of kept denials and on a plain list, and asks or teaches a store many times, so that a
//! script can measure what it costs.
//!
//! Its contracts say when it ends with which status; that all answer alike is only tested.
#![tactic(auto)]

mod form;
mod kept_load;
mod plain;
mod program;
mod random;
mod random_calls;
mod records;

use dns_io::{OutputSink, status, words_of};
use program::run;
use std::process::ExitCode;

// Words that can't be read are no form.
fn main(rt: HostRuntime) -> ExitCode {
    let alloc = rt.alloc();
    let words = match words_of(&rt) {
        Ok(Some(words)) => words,
        Ok(None) => Vec::new(alloc),
        Err(_) => return ExitCode::from(status::NO_MEMORY),
    };
    let mut output = OutputSink::new(rt.stdout());
    let status = run(alloc, &words, &mut output);
    ExitCode::from(status)
}

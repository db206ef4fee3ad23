//! `dns_exchange_trial`: plays random events on a multiplexer and on an exchange that callers share, each beside a plain machine, lets
//! threads share one, and does one thing with one of them many times, so that a script can measure what it costs.
//!
//! Its contracts say when it ends with which status; that all answer alike is only tested.
#![tactic(auto)]

mod asking;
mod caller;
mod counts;
mod events;
mod few_ids;
mod form;
mod history;
mod holders;
mod machine;
mod measured;
mod mux_load;
mod plain_mux;
mod program;
mod rounds;
mod server;
mod sockets;
mod together;
mod wire;

use dns_io::{OutputSink, status, words_of};
use program::run;
use std::process::ExitCode;

// Words that can't be read are no form.
fn main(rt: HostRuntime) -> ExitCode {
    let alloc = rt.alloc();
    let words = match words_of(&rt) {
        Ok(Some(words)) => words,
        Ok(None) => Vec::new(alloc),
        Err(_) => return ExitCode::from(status::NO_MEMORY),
    };
    let mut output = OutputSink::new(rt.stdout());
    let status = run(&rt, &rt, alloc, &words, &mut output);
    ExitCode::from(status)
}

//! `dns_trial`: plays random calls on caches beside a plain list, carries messages over links in memory, transfers and updates a zone of
//! a real server, and does one thing with a cache or with a roll of keys many times, so that a script can measure what it costs.
//!
//! Its contracts say when it ends with which status; that all answer alike is only tested.
#![tactic(auto)]

mod cache_load;
mod caches_played;
mod calls;
mod carried;
mod cuts;
mod entries;
mod follow_load;
mod form;
mod plain_cache;
mod program;
mod serve_load;
mod shared_load;
mod shared_lookups;
mod shelf_played;
mod texts;
mod transferring;
mod trial_zone;
mod updating;
mod weighing;

use dns_io::{OutputSink, status, words_of};
use program::run;
use std::process::ExitCode;

// Words that can't be read are no form.
fn main(rt: HostRuntime) -> ExitCode {
    let alloc = rt.alloc();
    let words = match words_of(&rt) {
        Ok(Some(words)) => words,
        Ok(None) => Vec::new(alloc),
        Err(_) => return ExitCode::from(status::NO_MEMORY),
    };
    let mut output = OutputSink::new(rt.stdout());
    let status = run(&rt, &rt, alloc, &words, &mut output);
    ExitCode::from(status)
}

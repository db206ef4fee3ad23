//! The program's outside: where its input comes from, and where its output goes.
//!
//! [`Source`] gives bytes and [`Sink`] takes them. Each counts its faults, and answers a fault only
//! where that count rose in the call. The layer above is generic over both, reads by [`read_all`],
//! writes by [`write_all`], and rests on the clauses of those four alone. [`TextSource`] and
//! [`TextSink`] hold their bytes in memory and fail where they are told to, [`SureSource`] and
//! [`SureSink`] never do, and [`InputSource`] and [`OutputSink`] stand over std's readers and writers.
//!
//! A program takes its words by [`words_of`], and ends with one of the statuses of [`status`]. One that is given a dialer gives it back
//! beside the status, as [`RunEnd`].
#![tactic(auto)]

mod calls;
mod run_end;
mod sink;
mod source;
mod standard;
pub mod status;
mod text_sink;
mod text_source;
mod words;

pub use run_end::RunEnd;
pub use sink::{Sink, SinkFault, write_all};
pub use source::{Failed, INPUT_LIMIT, ReadStop, Source, read_all};
pub use standard::{InputSource, OutputSink};
pub use text_sink::{SureSink, TextSink};
pub use text_source::{SureSource, TextSource};
pub use words::words_of;

//! The library behind the program: [`run`] reads a session from any source, looks its query up, and writes a report to any
//! sink.
//!
//! A program gives the words after its name, a source and a sink, and ends with the status that [`run`] answers. Other
//! crates may make of a session its upstream, its verifier, its trusted keys and its options, the lookup of these, or the
//! whole answer to it. What a caller needs to name beside these calls is given here too: sources, sinks, sessions and answers.
#![tactic(auto)]

mod audit;
mod bench;
mod deny;
mod explain;
mod fault;
mod form;
mod judging;
mod offline;
mod outcome;
mod program;
mod questions;
mod roll;
mod server;
mod task;

pub use dns_evidence::Listed;
pub use dns_handle::{DnsRequestOptions, DnsResponse, NetError};
pub use dns_io::{
    Failed, InputSource, OutputSink, RunEnd, Sink, SinkFault, Source, SureSink, SureSource,
    TextSink, TextSource, words_of,
};
pub use dns_link::{Clock, Dialer, FixedClock, ListDialer, SocketDialer, SystemClock};
pub use dns_lookup::DnssecDnsHandle;
pub use dns_record::{NoMemory, Octets};
pub use dns_recorded::Recorded;
pub use dns_session::{
    AcceptedSignature, Anchor, ReplyFault, ReplyKind, Session, SessionReply, SessionStop,
    read_session,
};
pub use dns_session_lookup::{
    SessionLookup, SessionVerifier, Verification, listed_verifier, session_anchors, session_answer,
    session_lookup, session_options, session_upstream, session_verifier,
};
pub use dns_trust::TrustAnchors;
pub use program::{run, run_seeded};

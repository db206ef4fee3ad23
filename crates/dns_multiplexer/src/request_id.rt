//! The names of requests.

/// Names a request: the number of sends that a multiplexer accepted before it.
#[derive(Clone, Copy, Debug, PartialEq, Eq, PartialOrd, Ord, Hash)]
pub struct RequestId(pub u64);

//! Nested zones, each proved by the one above it, as a measure of a lookup that climbs through all of them: an upstream that tells of
//! them, and one lookup of the host in the last, over any handle. The layer above may use `bench_replies` as the upstream of `specs/`,
//! and `bench_over` by its clauses.
#![tactic(auto)]

mod bench;
mod judging;
mod records;
mod upstream;
mod zone;
mod zone_count;

pub use bench::{BenchCount, BenchEnd, bench_count, bench_over};
pub use upstream::bench_replies;
pub use zone_count::ZoneCount;

//! A lookup below nested zones to which nothing replies. Rows of `bench` have lookups over their replies.
use crate::rows::check_row;
use dns_bench_zones::{BenchEnd, ZoneCount, bench_over};
use dns_handle::NetError;
use dns_recorded::Recorded;

/// Nothing came in time, and the handle is back.
fn is_late(end: &BenchEnd<Recorded>) -> bool {
    match &end.result {
        Err(NetError::Timeout) => end.handle.is_some(),
        _ => false,
    }
}

#[test]
fn an_upstream_without_a_reply_is_late(rt: HostRuntime) {
    let zones = ZoneCount::new(3).expect(&rt, "a number of zones");
    let end = bench_over(rt.alloc(), Recorded::new(rt.alloc()), zones);
    check_row(&rt, "no reply", is_late(&end));
}

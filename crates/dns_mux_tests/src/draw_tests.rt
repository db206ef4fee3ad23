use crate::parts::check;
use dns_mux::{Draws, RandDraws};

/// Whether two generators draw alike in a row.
fn are_alike(a: &mut RandDraws, b: &mut RandDraws) -> bool {
    for _ in 0..20 {
        if a.id() != b.id() || a.port() != b.port() {
            return false;
        }
    }
    true
}

#[test]
fn draws_go_by_the_seed(rt: HostRuntime) {
    check(
        &rt,
        "one seed gives one row of draws",
        are_alike(&mut RandDraws::from_seed(5), &mut RandDraws::from_seed(5)),
    );
    check(
        &rt,
        "another seed gives another",
        !are_alike(&mut RandDraws::from_seed(5), &mut RandDraws::from_seed(6)),
    );
}

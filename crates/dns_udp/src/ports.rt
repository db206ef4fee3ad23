//! Local ports that are drawn (RFC 5452, 9.2).
ghost use Rattle.std.specs.Prelude.{◌≡◌, ◌≤◌, ◌⊎◌};
ghost use Rattle.dns_udp.specs.Ports.{IsNextPort, is_avoided};

use dns_multiplexer::Draws;
use std::collections::BTreeSet;

/// So many attempts are made at most.
const MOST_ATTEMPTS: u8 = 10;

/// Draws a local port that isn't avoided, so that a forged reply has to guess it (RFC 5452, 4.5 and 9.2). Each port that is
/// avoided is one attempt more; 0 once there were ten.
#[tactic(auto, using(crate::proofs::PortLemmas::no_port, crate::proofs::PortLemmas::first_port))]
pub fn next_port<R: Draws>(draws: &mut R, attempted: &mut u8, avoid: &BTreeSet<u16>) -> u16
    ensures next { IsNextPort R.draws_port (is_avoided avoid.now) draws.old draws.new attempted.old attempted.new result }
    ensures range { (result ≡ 0) ⊎ (1024 ≤ result) }
{
    if *attempted >= MOST_ATTEMPTS {
        return 0;
    }
    let port = draws.port();
    if !avoid.contains(&port) {
        return port;
    }
    *attempted += 1;
    next_port(draws, attempted, avoid)
}

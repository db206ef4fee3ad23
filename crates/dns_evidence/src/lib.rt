//! What a mark stands on: links and chains of trust, the trail of a lookup with its limits, sets with their marks, and the
//! verifiers that test signatures (RFC 4035, 5). The layer above may use `Verifier` as a bound, `Listed` as a verifier by a list,
//! each type as the plain value that its model names, and `Steps` to let a call count what only its contract sees.
#![tactic(auto)]

mod deciding;
mod finding;
mod judged_sets;
mod limits;
mod link;
mod link_shows;
mod listed;
mod steps;
mod trail;
mod trail_copies;
mod verifier;

pub use deciding::decider;
pub use finding::{PlacesByNumber, add_place, mix, mix_lowered, places_of};
pub use judged_sets::{ChainedSet, MarkedSet, PlacedSet};
pub use limits::{IterationLimits, Limits, MOST_SENDS, depth_limit, effective};
pub use link::{Chain, Link, LinkSignature, clone_links, clone_rdatas};
pub use link_shows::{all_shown, has_rdata, same_owner, shows_ds, shows_key, shows_member};
pub use listed::Listed;
pub use steps::Steps;
pub use trail::{Asked, Ending, JudgedSet, Reply, Told, Trail};
pub use verifier::Verifier;

//! Work that threads do side by side.
ghost use Rattle.std.specs.Prelude.{◌<◌, ◌≡◌, IfOk, length, slice_index_or, vec_len, ℕ};

use crate::gate::Gate;
use std::alloc::{AllocError, Global};
use std::thread::{self, Threads};

/// What a thread of its own may do.
pub(crate) trait Work {
    /// What comes of it.
    type Done;

    ghost becomes: { Self → ℕ → Self.Done → Type 0 };

    /// Does it: so many requests at the most, each of which passes the gate.
    fn run<G: Gate>(self, alloc: Global, count: u32, gate: &G) -> Self::Done
        ensures { becomes self count result };
}

/// Does all works side by side; what comes of each stands in its place.
pub(crate) fn run_all<W, G, R>(
    rt: &R,
    alloc: Global,
    works: Vec<W>,
    count: u32,
    gate: &G,
) -> Result<Vec<W::Done>, AllocError>
where
    W: Work + Drop + Send,
    W::Done: Drop + Send,
    G: Gate + Sync,
    R: Threads + Sync,
    ensures len { IfOk result (λ v. vec_len v ≡ vec_len works) }
    ensures each { IfOk result (λ v. (i : ℕ) (work : _) (done : _) → i < length works.items
        → W.becomes (slice_index_or works.items i work) count (slice_index_or v.items i done)) }
{
    thread::map_vec(rt, works, &|work: W| work.run(alloc, count, gate))
}

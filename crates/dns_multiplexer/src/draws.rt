//! Generators of ids and ports.
ghost use Rattle.std.specs.Prelude.{◌≡◌, ◌≤◌, ℕ, drop, All};
ghost use Rattle.dns_multiplexer.specs.Draws.{IsPortDraw, first_or};

use rand::RngExt;
use rand::distr::SampleStandard;
use rand::rngs::StdRng;
use rand_core::{Rng, SeedableRng};
use std::collections::VecDeque;
use std::marker::Model;

/// A generator of ids and ports.
pub trait Draws {
    /// The generator before a draw of an id, the id, and the generator after.
    ghost draws_id: { Self → ℕ → Self → Type 0 };

    /// The same of a port.
    ghost draws_port: { Self → ℕ → Self → Type 0 };

    /// Draws an id for a request.
    fn id(&mut self) -> u16
        ensures { draws_id self.old result self.new };

    /// Draws a local port, from 1024 on.
    fn port(&mut self) -> u16
        ensures drawn { draws_port self.old result self.new }
        ensures range { 1024 ≤ result };
}

/// Draws from two lists: each call takes the first value that is left in its own. With none left an id is 0 and a port 1024.
#[derive(Drop)]
pub struct ListDraws {
    ids: VecDeque<u16>,
    ports: VecDeque<u16>,
}

impl Model for ListDraws {
    ghost use Rattle.std.specs.Prelude.{◌≤◌, All};
    ghost use Rattle.dns_multiplexer.specs.Draws.{ListDrawsValue};

    ghost Value = { ListDrawsValue };

    ghost view = { λ d. record { ids = d.ids.items; ports = d.ports.items } };

    ghost invariant = { λ d. All (λ port. 1024 ≤ port) d.ports.items };
}

impl ListDraws {
    /// Draws these ids and ports, each list from its front. It takes no memory.
    pub fn new(ids: Vec<u16>, ports: Vec<u16>) -> ListDraws
        requires { All (λ port. 1024 ≤ port) ports.items }
        ensures { result ≡ record { ids = ids.items; ports = ports.items } }
    {
        ListDraws {
            ids: VecDeque::from_vec(ids),
            ports: VecDeque::from_vec(ports),
        }
    }
}

impl Draws for ListDraws {
    ghost draws_id = { λ old id new. (id ≡ first_or 0 old.ids) × (new ≡ record old { ids = drop 1 old.ids }) };

    ghost draws_port = { λ old port new. (port ≡ first_or 1024 old.ports)
        × (new ≡ record old { ports = drop 1 old.ports }) };

    fn id(&mut self) -> u16 {
        match self.ids.pop_front() {
            Some(id) => id,
            None => 0,
        }
    }

    fn port(&mut self) -> u16 {
        match self.ports.pop_front() {
            Some(port) => port,
            None => 1024,
        }
    }
}

/// Draws by the generator of `rand` that is for general use. From one seed the draws are the same.
#[derive(Drop)]
pub struct RandDraws {
    generator: StdRng,
}

impl RandDraws {
    /// The generator of a seed. Whoever knows the seed knows the draws.
    pub fn from_seed(seed: u64) -> RandDraws
        ensures { result.generator ≡ ⟦<StdRng as SeedableRng>⟧.of_seed (⟦<StdRng as SeedableRng>⟧.seed_of_u64 seed) }
    {
        RandDraws {
            generator: StdRng::seed_from_u64(seed),
        }
    }
}

impl Draws for RandDraws {
    ghost draws_id = { λ old id new. ⟦<u16 as SampleStandard>⟧.draws (⟦<StdRng as Rng>⟧.stream old.generator) id
        (⟦<StdRng as Rng>⟧.stream new.generator) };

    ghost draws_port = { λ old port new. IsPortDraw (⟦<StdRng as Rng>⟧.stream old.generator) port
        (⟦<StdRng as Rng>⟧.stream new.generator) };

    fn id(&mut self) -> u16 {
        self.generator.random()
    }

    fn port(&mut self) -> u16 {
        self.generator.random_range(1024u16..=65535)
    }
}

//! One id, for a connection with one request.
ghost use Rattle.std.specs.Prelude.{◌≡◌};

use dns_multiplexer::Draws;

/// Draws the same id each time, and the port 1024.
#[derive(Clone, Copy, Debug, PartialEq, Eq, Drop)]
pub struct DrawnId {
    /// The id.
    pub id: u16,
}

impl Draws for DrawnId {
    ghost draws_id = { λ old id new. (id ≡ old.id) × (new ≡ old) };

    ghost draws_port = { λ old port new. (port ≡ 1024) × (new ≡ old) };

    fn id(&mut self) -> u16 {
        self.id
    }

    fn port(&mut self) -> u16 {
        1024
    }
}

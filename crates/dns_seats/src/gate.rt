//! What each request of a seat waits for.

/// What each request of a seat waits for: a test may hold a seat there, and a program doesn't.
pub trait Gate {
    /// Passed before a seat receives a request, with the numbers of the seat and of the request, both from 0.
    fn pass(&self, seat: u32, number: u32);
}

/// A gate that holds nothing.
#[derive(Clone, Copy, Debug, Drop)]
pub struct OpenGate;

impl Gate for OpenGate {
    fn pass(&self, _seat: u32, _number: u32) {}
}

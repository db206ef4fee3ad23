//! What is found of a sighting.

/// What is found of a sighting, by who was trusted before it.
#[derive(Drop)]
pub(crate) struct Found<'a> {
    /// The original ttl of the signature by which it is accepted, in seconds.
    pub(crate) ttl: Option<u32>,
    /// The keys that it shows without the flag REVOKE, by their bytes.
    pub(crate) shown: Vec<&'a [u8]>,
    /// The keys that it revokes.
    pub(crate) revoked: Vec<&'a [u8]>,
}

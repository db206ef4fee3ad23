//! What a text of sightings says.
use dns_record::{Name, Octets, Rdata};
use dns_session::AcceptedSignature;
use std::marker::Model;

/// A key that is trusted at the start.
#[derive(Drop)]
pub struct GivenKey {
    /// The rdata of a DNSKEY record; one that can't be read or doesn't count is passed over.
    pub rdata: Rdata,
}

impl Model for GivenKey {
    ghost use Rattle.std.specs.Prelude.{List, ℕ};

    ghost Value = { List ℕ };

    ghost view = { λ k. k.rdata };
}

/// What was seen at a moment.
#[derive(Drop)]
pub struct Sight {
    /// Seconds since 1970.
    pub moment: u64,
    /// The bytes of a message, or bytes that are none.
    pub bytes: Octets,
}

impl Model for Sight {
    ghost use Rattle.std.specs.Prelude.{length, ◌<◌, ◌^◌};
    ghost use Rattle.dns_roll.specs.RollValue.{SightValue};

    ghost Value = { SightValue };

    ghost view = { λ s. record { moment = s.moment; bytes = s.bytes } };

    ghost invariant = { λ s. length s.bytes < 2 ^ 32 };
}

/// What a text of sightings says.
#[derive(Drop)]
pub struct RollText {
    /// The zone whose keys are followed.
    pub zone: Name,
    /// The algorithms that the verifier supports.
    pub algorithms: Vec<u8>,
    /// The keys that are trusted at the start.
    pub keys: Vec<GivenKey>,
    /// The signatures that the verifier accepts.
    pub accepts: Vec<AcceptedSignature>,
    /// In the order of time.
    pub sights: Vec<Sight>,
}

impl Model for RollText {
    ghost use Rattle.dns_roll.specs.RollValue.{RollValue};

    ghost Value = { RollValue };

    ghost view = { λ t. record {
      zone = t.zone;
      algorithms = t.algorithms.items;
      keys = t.keys.items;
      accepts = t.accepts.items;
      sights = t.sights.items;
    } };
}

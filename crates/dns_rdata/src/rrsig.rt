//! What an RRSIG record says (RFC 4034, 3.1).
ghost use Rattle.std.specs.Prelude.{◌≡◌, Some};
ghost use Rattle.dns_model.specs.Views.{rrsig_in};
ghost use Rattle.dns_model.specs.RecordViews.{rrsig_of};
ghost use Rattle.dns_model.specs.SoundAnswers.{signed_ttl};

use crate::SerialNumber;
use crate::bytes::{u16_at, u32_at};
use dns_record::{NameRef, Record, RecordType};
use std::marker::Model;

/// What an RRSIG rdata says (RFC 4034, 3.1).
#[derive(Drop)]
pub struct Rrsig<'a> {
    /// The type of the set that is signed.
    pub type_covered: RecordType,
    /// The algorithm of the signature (RFC 4034, A.1).
    pub algorithm: u8,
    /// How many labels the owner had when it was signed, a leading `*` aside.
    pub labels: u8,
    /// Seconds.
    pub original_ttl: u32,
    /// The last second at which the signature is valid.
    pub expiration: SerialNumber,
    /// The first such second.
    pub inception: SerialNumber,
    /// The tag of the key that signed.
    pub key_tag: u16,
    /// The zone whose key signed.
    pub signer: NameRef<'a>,
    /// The signature itself.
    pub signature: &'a [u8],
}

impl<'a> Model for Rrsig<'a> {
    ghost use Rattle.dns_model.specs.Views.{RrsigValue};

    ghost Value = { RrsigValue };

    ghost view = { λ s. record {
      covered = s.type_covered.0;
      algorithm = s.algorithm;
      labels = s.labels;
      original_ttl = s.original_ttl;
      expiration = s.expiration.0;
      inception = s.inception.0;
      key_tag = s.key_tag;
      signer = s.signer;
      signature = s.signature.now;
    } };
}

impl<'a> Rrsig<'a> {
    /// What these bytes say as the rdata of an RRSIG; None exactly where they have not its shape.
    #[tactic(auto, unfolding(dns_model::specs::Views::rrsig_in))]
    pub fn read(rdata: &'a [u8]) -> Option<Rrsig<'a>>
        ensures { result ≡ rrsig_in rdata.now }
    {
        if rdata.len() < 18 {
            return None;
        }
        let (signer, signature) = NameRef::front(&rdata[18..])?;
        Some(Rrsig {
            type_covered: RecordType(u16_at(rdata, 0)),
            algorithm: rdata[2],
            labels: rdata[3],
            original_ttl: u32_at(rdata, 4),
            expiration: SerialNumber(u32_at(rdata, 8)),
            inception: SerialNumber(u32_at(rdata, 12)),
            key_tag: u16_at(rdata, 16),
            signer,
            signature,
        })
    }

    /// What a record says as an RRSIG; None exactly where its type or its shape is another.
    pub fn of(from: &'a Record) -> Option<Rrsig<'a>>
        ensures { result ≡ rrsig_of from.now }
    {
        if from.record_type != RecordType::RRSIG {
            return None;
        }
        Rrsig::read(from.rdata.as_slice())
    }

    /// The ttl that the signature leaves to records at a moment, both in seconds: no more than the original ttl, nor than the
    /// time for which it is still valid (RFC 4035, 5.3.3).
    pub fn ttl_left(&self, now: u64) -> u32
        ensures { result ≡ signed_ttl (Some self.now) now }
    {
        let left = SerialNumber::of_moment(now).distance_to(self.expiration);
        self.original_ttl.min(left)
    }

    /// The ttl that a record leaves to others as their signature: that of what it says as an RRSIG, and 0 where it is none.
    pub fn ttl_left_by(from: &Record, now: u64) -> u32
        ensures { result ≡ signed_ttl (rrsig_of from.now) now }
    {
        match Rrsig::of(from) {
            Some(read) => read.ttl_left(now),
            None => 0,
        }
    }
}

//! What a DS record says (RFC 4034, 5.1).
ghost use Rattle.std.specs.Prelude.{◌≡◌};
ghost use Rattle.dns_model.specs.Types.{type_ds};
ghost use Rattle.dns_model.specs.Views.{ds_in};
ghost use Rattle.dns_model.specs.RecordViews.{read_as};

use crate::bytes::u16_at;
use dns_record::{Record, RecordType};
use std::marker::Model;

/// What a DS rdata says (RFC 4034, 5.1).
#[derive(Drop)]
pub struct Ds<'a> {
    /// The tag of the key that is meant.
    pub key_tag: u16,
    /// The algorithm of the key that is meant.
    pub algorithm: u8,
    /// `SHA1`, `SHA256` or `SHA384` where it is supported.
    pub digest_type: u8,
    /// The digest of the key's owner and rdata.
    pub digest: &'a [u8],
}

impl<'a> Model for Ds<'a> {
    ghost use Rattle.dns_model.specs.Views.{DsValue};

    ghost Value = { DsValue };

    ghost view = { λ d. record {
      key_tag = d.key_tag;
      algorithm = d.algorithm;
      digest_type = d.digest_type;
      digest = d.digest.now;
    } };
}

impl<'a> Ds<'a> {
    /// The digest type of SHA-1 (RFC 4034, A.2).
    pub const SHA1: u8 = 1;

    /// The digest type of SHA-256 (RFC 4509, 5).
    pub const SHA256: u8 = 2;

    /// The digest type of SHA-384 (RFC 6605, 5).
    pub const SHA384: u8 = 4;

    /// What these bytes say as the rdata of a DS; None exactly where they have not its shape.
    #[tactic(auto, unfolding(dns_model::specs::Views::ds_in))]
    pub fn read(rdata: &'a [u8]) -> Option<Ds<'a>>
        ensures { result ≡ ds_in rdata.now }
    {
        if rdata.len() < 4 {
            return None;
        }
        Some(Ds {
            key_tag: u16_at(rdata, 0),
            algorithm: rdata[2],
            digest_type: rdata[3],
            digest: &rdata[4..],
        })
    }

    /// What a record says as a DS; None exactly where its type or its shape is another.
    pub fn of(from: &'a Record) -> Option<Ds<'a>>
        ensures { result ≡ read_as type_ds ds_in from.now }
    {
        if from.record_type != RecordType::DS {
            return None;
        }
        Ds::read(from.rdata.as_slice())
    }
}

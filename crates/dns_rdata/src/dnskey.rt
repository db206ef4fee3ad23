//! What a DNSKEY record says (RFC 4034, 2.1).
ghost use Rattle.std.specs.Prelude.{◌≡◌};
ghost use Rattle.dns_model.specs.Views.{dnskey_in, is_zone_key, is_revoked};
ghost use Rattle.dns_model.specs.RecordViews.{dnskey_of};

use crate::bytes::u16_at;
use dns_record::{Record, RecordType};
use std::marker::Model;

/// The flag of a zone's key (RFC 4034, 2.1.1).
const ZONE_KEY: u16 = 0x0100;

/// The flag of a revoked key (RFC 5011, 2.1).
const REVOKED: u16 = 0x0080;

/// What a DNSKEY rdata says (RFC 4034, 2.1).
#[derive(Drop)]
pub struct Dnskey<'a> {
    /// Bits, of which 0x0100 marks a zone's key and 0x0080 a revoked one.
    pub flags: u16,
    /// 3 in every key that counts.
    pub protocol: u8,
    /// The algorithm of its signatures (RFC 4034, A.1).
    pub algorithm: u8,
    /// The public key, in its algorithm's form.
    pub key: &'a [u8],
}

impl<'a> Model for Dnskey<'a> {
    ghost use Rattle.dns_model.specs.Views.{DnskeyValue};

    ghost Value = { DnskeyValue };

    ghost view = { λ k. record { flags = k.flags; protocol = k.protocol; algorithm = k.algorithm; key = k.key.now } };
}

impl<'a> Dnskey<'a> {
    /// What these bytes say as the rdata of a DNSKEY; None exactly where they have not its shape.
    #[tactic(auto, unfolding(dns_model::specs::Views::dnskey_in))]
    pub fn read(rdata: &'a [u8]) -> Option<Dnskey<'a>>
        ensures { result ≡ dnskey_in rdata.now }
    {
        if rdata.len() < 4 {
            return None;
        }
        Some(Dnskey {
            flags: u16_at(rdata, 0),
            protocol: rdata[2],
            algorithm: rdata[3],
            key: &rdata[4..],
        })
    }

    /// What a record says as a DNSKEY; None exactly where its type or its shape is another.
    pub fn of(from: &'a Record) -> Option<Dnskey<'a>>
        ensures { result ≡ dnskey_of from.now }
    {
        if from.record_type != RecordType::DNSKEY {
            return None;
        }
        Dnskey::read(from.rdata.as_slice())
    }

    /// Whether it is a zone's key (RFC 4034, 2.1.1).
    pub fn is_zone_key(&self) -> bool
        ensures { result ≡ is_zone_key self.now }
    {
        self.flags & ZONE_KEY != 0
    }

    /// Whether it is revoked (RFC 5011, 2.1).
    pub fn is_revoked(&self) -> bool
        ensures { result ≡ is_revoked self.now }
    {
        self.flags & REVOKED != 0
    }
}

//! What an SOA record says (RFC 1035, 3.3.13).
ghost use Rattle.std.specs.Prelude.{◌≡◌};
ghost use Rattle.dns_model.specs.Types.{type_soa};
ghost use Rattle.dns_model.specs.Views.{soa_in};
ghost use Rattle.dns_model.specs.RecordViews.{read_as};

use crate::bytes::u32_at;
use dns_record::{NameRef, Record, RecordType};
use std::marker::Model;

/// What an SOA rdata says (RFC 1035, 3.3.13).
#[derive(Drop)]
pub struct Soa<'a> {
    /// The zone's first name server.
    pub mname: NameRef<'a>,
    /// The mailbox of who is answerable for the zone.
    pub rname: NameRef<'a>,
    /// The zone's version, a serial number (RFC 1982).
    pub serial: u32,
    /// Seconds, as the next three.
    pub refresh: u32,
    /// Seconds until a refresh that failed is tried again.
    pub retry: u32,
    /// Seconds after which the zone no longer counts without a refresh.
    pub expire: u32,
    /// Seconds for which it may be believed that there are no records (RFC 2308, 4).
    pub minimum: u32,
}

impl<'a> Model for Soa<'a> {
    ghost use Rattle.dns_model.specs.Views.{SoaValue};

    ghost Value = { SoaValue };

    ghost view = { λ s. record {
      mname = s.mname;
      rname = s.rname;
      serial = s.serial;
      refresh = s.refresh;
      retry = s.retry;
      expire = s.expire;
      minimum = s.minimum;
    } };
}

impl<'a> Soa<'a> {
    /// What these bytes say as the rdata of an SOA; None exactly where they have not its shape.
    #[tactic(auto, unfolding(dns_model::specs::Views::soa_in))]
    pub fn read(rdata: &'a [u8]) -> Option<Soa<'a>>
        ensures { result ≡ soa_in rdata.now }
    {
        let (mname, rest) = NameRef::front(rdata)?;
        let (rname, rest) = NameRef::front(rest)?;
        if rest.len() != 20 {
            return None;
        }
        Some(Soa {
            mname,
            rname,
            serial: u32_at(rest, 0),
            refresh: u32_at(rest, 4),
            retry: u32_at(rest, 8),
            expire: u32_at(rest, 12),
            minimum: u32_at(rest, 16),
        })
    }

    /// What a record says as an SOA; None exactly where its type or its shape is another.
    pub fn of(from: &'a Record) -> Option<Soa<'a>>
        ensures { result ≡ read_as type_soa soa_in from.now }
    {
        if from.record_type != RecordType::SOA {
            return None;
        }
        Soa::read(from.rdata.as_slice())
    }
}

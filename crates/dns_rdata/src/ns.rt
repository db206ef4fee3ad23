//! What an NS record says (RFC 1035, 3.3.11).
ghost use Rattle.std.specs.Prelude.{◌≡◌};
ghost use Rattle.dns_model.specs.Types.{type_ns};
ghost use Rattle.dns_model.specs.Views.{ns_in};
ghost use Rattle.dns_model.specs.RecordViews.{read_as};

use dns_record::{NameRef, Record, RecordType};
use std::marker::Model;

/// The name server that an NS rdata names (RFC 1035, 3.3.11). Contracts see it as its labels.
#[derive(Drop)]
pub struct Ns<'a> {
    /// The server's name.
    pub name: NameRef<'a>,
}

impl<'a> Model for Ns<'a> {
    ghost use Rattle.dns_model.specs.Names.{Labels};

    ghost Value = { Labels };

    ghost view = { λ n. n.name };
}

impl<'a> Ns<'a> {
    /// What these bytes say as the rdata of an NS; None exactly where they have not its shape.
    #[tactic(auto, unfolding(dns_model::specs::Views::ns_in))]
    pub fn read(rdata: &'a [u8]) -> Option<Ns<'a>>
        ensures { result ≡ ns_in rdata.now }
    {
        let (name, rest) = NameRef::front(rdata)?;
        match rest {
            [] => Some(Ns { name }),
            _ => None,
        }
    }

    /// What a record says as an NS; None exactly where its type or its shape is another.
    pub fn of(from: &'a Record) -> Option<Ns<'a>>
        ensures { result ≡ read_as type_ns ns_in from.now }
    {
        if from.record_type != RecordType::NS {
            return None;
        }
        Ns::read(from.rdata.as_slice())
    }
}

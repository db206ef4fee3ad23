//! What an NSEC record says (RFC 4034, 4.1).
ghost use Rattle.std.specs.Prelude.{◌≡◌, IfOk};
ghost use Rattle.std.specs.Option.{option_map};
ghost use Rattle.dns_model.specs.Types.{type_nsec};
ghost use Rattle.dns_model.specs.Views.{nsec_in};
ghost use Rattle.dns_model.specs.RecordViews.{read_as};

use crate::TypeSet;
use crate::type_set::is_bitmap;
use dns_record::{Name, NameRef, NoMemory, Octets, Record, RecordType};
use std::alloc::Global;
use std::marker::Model;

/// What an NSEC rdata says (RFC 4034, 4.1).
#[derive(Drop)]
pub struct Nsec<'a> {
    /// The next owner in canonical order.
    pub next: NameRef<'a>,
    /// The types that stand at the owner.
    pub types: TypeSet<'a>,
}

impl<'a> Model for Nsec<'a> {
    ghost use Rattle.dns_model.specs.Views.{NsecValue};

    ghost Value = { NsecValue };

    ghost view = { λ n. record { next = n.next; types = n.types } };
}

impl<'a> Nsec<'a> {
    /// What these bytes say as the rdata of an NSEC; None exactly where they have not its shape.
    #[tactic(auto, unfolding(dns_model::specs::Views::nsec_in))]
    pub fn read(rdata: &'a [u8]) -> Option<Nsec<'a>>
        ensures { result ≡ nsec_in rdata.now }
    {
        let (next, types) = NameRef::front(rdata)?;
        if !is_bitmap(types) {
            return None;
        }
        Some(Nsec {
            next,
            types: TypeSet::over(types),
        })
    }

    /// What a record says as an NSEC; None exactly where its type or its shape is another.
    pub fn of(from: &'a Record) -> Option<Nsec<'a>>
        ensures { result ≡ read_as type_nsec nsec_in from.now }
    {
        if from.record_type != RecordType::NSEC {
            return None;
        }
        Nsec::read(from.rdata.as_slice())
    }
}

/// An NSEC record that owns what it says.
#[derive(Drop)]
pub struct NsecRecord {
    /// The name at which the record stands.
    pub owner: Name,
    /// The next owner in canonical order.
    pub next: Name,
    /// The type bitmap, which `TypeSet::over` reads.
    pub types: Octets,
}

impl Model for NsecRecord {
    ghost use Rattle.dns_model.specs.Owned.{OwnedNsec};

    ghost Value = { OwnedNsec };

    ghost view = { λ n. record { owner = n.owner; fields = record { next = n.next; types = n.types } } };
}

impl NsecRecord {
    /// What a record says as an NSEC, with its owner; None exactly where its type or its shape is another.
    pub fn of(alloc: Global, from: &Record) -> Result<Option<NsecRecord>, NoMemory>
        ensures { IfOk result (λ n.
            n ≡ option_map (λ t. record { owner = from.now.owner; fields = t }) (read_as type_nsec nsec_in from.now)) }
    {
        let Some(nsec) = Nsec::of(from) else {
            return Ok(None);
        };
        let owner = from.name.try_clone()?;
        let next = nsec.next.to_name(alloc)?;
        let types = Octets::from_slice(alloc, nsec.types.as_slice())?;
        Ok(Some(NsecRecord { owner, next, types }))
    }

    /// An equal value in memory of its own.
    pub fn try_clone(&self) -> Result<NsecRecord, NoMemory>
        ensures { IfOk result (λ n. n ≡ self.now) }
    {
        let owner = self.owner.try_clone()?;
        let next = self.next.try_clone()?;
        let types = self.types.try_clone()?;
        Ok(NsecRecord { owner, next, types })
    }

    /// The types that stand at the owner.
    pub fn type_set(&self) -> TypeSet<'_>
        ensures { result ≡ self.now.fields.types }
    {
        TypeSet::over(self.types.as_slice())
    }
}

//! What an NSEC3 record says (RFC 5155, 3).
ghost use Rattle.std.specs.Prelude.{◌≡◌, IfOk};
ghost use Rattle.std.specs.Option.{option_map};
ghost use Rattle.dns_model.specs.Types.{type_nsec3};
ghost use Rattle.dns_model.specs.Views.{nsec3_in};
ghost use Rattle.dns_model.specs.RecordViews.{read_as};

use crate::TypeSet;
use crate::bytes::u16_at;
use crate::counted::counted_front;
use crate::type_set::is_bitmap;
use dns_record::{Name, NoMemory, Octets, Record, RecordType};
use std::alloc::Global;
use std::marker::Model;

/// What an NSEC3 rdata says (RFC 5155, 3.2).
#[derive(Drop)]
pub struct Nsec3<'a> {
    /// 1 for SHA-1, the only one there is.
    pub hash_algorithm: u8,
    /// Bit 1 is opt-out.
    pub flags: u8,
    /// How many more rounds there are after the first.
    pub iterations: u16,
    /// The bytes that are added before each hash.
    pub salt: &'a [u8],
    /// The next hash in order.
    pub next: &'a [u8],
    /// The types that stand at the name whose hash the owner's first label is.
    pub types: TypeSet<'a>,
}

impl<'a> Model for Nsec3<'a> {
    ghost use Rattle.dns_model.specs.Views.{Nsec3Value};

    ghost Value = { Nsec3Value };

    ghost view = { λ n. record {
      hash_algorithm = n.hash_algorithm;
      flags = n.flags;
      iterations = n.iterations;
      salt = n.salt.now;
      next = n.next.now;
      types = n.types;
    } };
}

impl<'a> Nsec3<'a> {
    /// What these bytes say as the rdata of an NSEC3; None exactly where they have not its shape.
    #[tactic(auto, unfolding(dns_model::specs::Views::nsec3_in))]
    pub fn read(rdata: &'a [u8]) -> Option<Nsec3<'a>>
        ensures { result ≡ nsec3_in rdata.now }
    {
        if rdata.len() < 4 {
            return None;
        }
        let (salt, rest) = counted_front(&rdata[4..])?;
        let (next, types) = counted_front(rest)?;
        if !is_bitmap(types) {
            return None;
        }
        Some(Nsec3 {
            hash_algorithm: rdata[0],
            flags: rdata[1],
            iterations: u16_at(rdata, 2),
            salt,
            next,
            types: TypeSet::over(types),
        })
    }

    /// What a record says as an NSEC3; None exactly where its type or its shape is another.
    pub fn of(from: &'a Record) -> Option<Nsec3<'a>>
        ensures { result ≡ read_as type_nsec3 nsec3_in from.now }
    {
        if from.record_type != RecordType::NSEC3 {
            return None;
        }
        Nsec3::read(from.rdata.as_slice())
    }
}

/// An NSEC3 record that owns what it says.
#[derive(Drop)]
pub struct Nsec3Record {
    /// The name at which the record stands: a hash below the zone.
    pub owner: Name,
    /// 1 for SHA-1, the only one there is.
    pub hash_algorithm: u8,
    /// Bit 1 is opt-out.
    pub flags: u8,
    /// How many more rounds there are after the first.
    pub iterations: u16,
    /// The bytes that are added before each hash.
    pub salt: Octets,
    /// The next hash in order.
    pub next: Octets,
    /// The type bitmap, which `TypeSet::over` reads.
    pub types: Octets,
}

impl Model for Nsec3Record {
    ghost use Rattle.dns_model.specs.Owned.{OwnedNsec3};

    ghost Value = { OwnedNsec3 };

    ghost view = { λ n. record {
      owner = n.owner;
      fields = record {
        hash_algorithm = n.hash_algorithm;
        flags = n.flags;
        iterations = n.iterations;
        salt = n.salt;
        next = n.next;
        types = n.types;
      };
    } };
}

impl Nsec3Record {
    /// What a record says as an NSEC3, with its owner; None exactly where its type or its shape is another.
    pub fn of(alloc: Global, from: &Record) -> Result<Option<Nsec3Record>, NoMemory>
        ensures { IfOk result (λ n.
            n ≡ option_map (λ t. record { owner = from.now.owner; fields = t })
            (read_as type_nsec3 nsec3_in from.now)) }
    {
        let Some(nsec3) = Nsec3::of(from) else {
            return Ok(None);
        };
        let owner = from.name.try_clone()?;
        let salt = Octets::from_slice(alloc, nsec3.salt)?;
        let next = Octets::from_slice(alloc, nsec3.next)?;
        let types = Octets::from_slice(alloc, nsec3.types.as_slice())?;
        Ok(Some(Nsec3Record {
            owner,
            hash_algorithm: nsec3.hash_algorithm,
            flags: nsec3.flags,
            iterations: nsec3.iterations,
            salt,
            next,
            types,
        }))
    }

    /// An equal value in memory of its own.
    pub fn try_clone(&self) -> Result<Nsec3Record, NoMemory>
        ensures { IfOk result (λ n. n ≡ self.now) }
    {
        let owner = self.owner.try_clone()?;
        let salt = self.salt.try_clone()?;
        let next = self.next.try_clone()?;
        let types = self.types.try_clone()?;
        Ok(Nsec3Record {
            owner,
            hash_algorithm: self.hash_algorithm,
            flags: self.flags,
            iterations: self.iterations,
            salt,
            next,
            types,
        })
    }

    /// The types that stand at the name whose hash the owner's first label is.
    pub fn type_set(&self) -> TypeSet<'_>
        ensures { result ≡ self.now.fields.types }
    {
        TypeSet::over(self.types.as_slice())
    }
}

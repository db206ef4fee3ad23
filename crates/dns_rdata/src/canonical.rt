//! The canonical form of an rdata (RFC 4034, 6.2).
ghost use Rattle.std.specs.Prelude.{◌≡◌, IfOk};
ghost use Rattle.dns_model.specs.Shapes.{has_shape as fits_shape, canonical_form, is_lowered_type};
ghost use Rattle.std.specs.Option.{option_map};
ghost use Rattle.dns_rdata.specs.Lowered.{lowered_form};

use crate::part::part_front;
use crate::shape::fields_of;
use dns_record::{NoMemory, Octets, RecordType};
use std::alloc::Global;

/// Whether an rdata, names spelled out, has its type's shape (RFC 1035, 3.3; RFC 4034; RFC 5155, 3).
pub fn has_shape(record_type: RecordType, rdata: &[u8]) -> bool
    ensures { result ≡ fits_shape record_type.0 rdata.now }
{
    let fields = fields_of(record_type);
    let mut rest = rdata;
    for field in fields {
        let Some((_, after)) = part_front(*field, rest) else {
            return false;
        };
        rest = after;
    }
    rest.is_empty()
}

/// An rdata in canonical form: the names in it lower-cased where its type asks it (RFC 4034, 6.2; RFC 6840, 5.1). One
/// that has not its type's shape stays as it is.
#[tactic(auto, using(crate::proofs::CanonicalLemmas::canonical_as))]
pub fn canonical_rdata(
    alloc: Global,
    record_type: RecordType,
    rdata: &[u8],
) -> Result<Octets, NoMemory>
    ensures { IfOk result (λ o. o ≡ canonical_form record_type.0 rdata.now) }
{
    if !is_lowered(record_type) {
        return Octets::from_slice(alloc, rdata);
    }
    match lowered_rdata(alloc, record_type, rdata)? {
        Some(lowered) => Ok(Octets::from_vec(lowered)),
        None => Octets::from_slice(alloc, rdata),
    }
}

// The rdata with the names in it lower-cased, or None where it has not its type's shape.
fn lowered_rdata(
    alloc: Global,
    record_type: RecordType,
    rdata: &[u8],
) -> Result<Option<Vec<u8>>, NoMemory>
    ensures { IfOk result (λ o. option_map (λ v. v.items) o ≡ lowered_form record_type.0 rdata.now) }
{
    let fields = fields_of(record_type);
    let mut lowered = Vec::with_capacity(alloc, rdata.len())?;
    let mut rest = rdata;
    for field in fields {
        let Some((part, after)) = part_front(*field, rest) else {
            return Ok(None);
        };
        part.push_canonical(&mut lowered)?;
        rest = after;
    }
    if rest.is_empty() {
        Ok(Some(lowered))
    } else {
        Ok(None)
    }
}

// Whether the names in an rdata of this type are lower-cased in canonical form.
#[tactic(auto, unfolding(dns_model::specs::Shapes::is_lowered_type))]
pub(crate) fn is_lowered(record_type: RecordType) -> bool
    ensures { result ≡ is_lowered_type record_type.0 }
{
    matches!(
        record_type,
        RecordType::NS
            | RecordType::CNAME
            | RecordType::SOA
            | RecordType::PTR
            | RecordType::MX
            | RecordType::RP
            | RecordType::AFSDB
            | RecordType::RT
            | RecordType::PX
            | RecordType::SRV
            | RecordType::NAPTR
            | RecordType::KX
            | RecordType::DNAME
            | RecordType::RRSIG
    )
}

//! The records of zones, and their signatures.
ghost use Rattle.std.specs.Prelude.{◌≡◌, ◌≤◌, ◌++◌, length, IfOk};
ghost use Rattle.dns_model.specs.Names.{folded, wire};
ghost use Rattle.dns_model.specs.Signing.{signed_head};
ghost use Rattle.dns_bench_zones.specs.NestedZones.{record_of, key_record, ds_record, ds_rdata, host_record, signature_by, signature_record, signature_octets};

use crate::zone::Zone;
use dns_model::Proof;
use dns_rdata::{FoldedWire, Rrsig, SerialNumber, push_u16, push_u32};
use dns_record::{DNSClass, Name, NoMemory, Octets, Rdata, Record, RecordType};
use sha2::{Digest, Sha256};
use std::alloc::Global;

/// The algorithm of each key: ECDSA on the curve P-256 with SHA-256 (RFC 6605).
pub(crate) const ALGORITHM: u8 = 13;

/// The octets of each signature.
pub(crate) fn signature_octets() -> &'static [u8]
    ensures { result.now ≡ signature_octets }
{
    b"SI"
}

// A record of class IN that may be kept for an hour.
fn record_of(name: Name, record_type: RecordType, rdata: Rdata) -> Record
    ensures { result ≡ record_of name record_type.0 rdata }
{
    Record {
        name,
        record_type,
        dns_class: DNSClass::IN,
        ttl: 3600,
        rdata,
        proof: Proof::Indeterminate,
    }
}

/// The key of a zone.
pub(crate) fn key_record(alloc: Global, zone: &Zone) -> Result<Record, NoMemory>
    ensures { IfOk result (λ r. r ≡ key_record zone.now) }
{
    let name = zone.name().try_clone()?;
    let rdata = Rdata::from_slice(alloc, &zone.key())?;
    Ok(record_of(name, RecordType::DNSKEY, rdata))
}

// The rdata of the DS record of a zone.
fn ds_rdata(alloc: Global, zone: &Zone) -> Result<Rdata, NoMemory>
    ensures { IfOk result (λ r. r ≡ ds_rdata zone.now) }
{
    let mut hasher = Sha256::new();
    hasher.update(FoldedWire::of(zone.name()).as_slice());
    hasher.update(&zone.key());
    let digest = hasher.finalize();
    let mut bytes = Vec::new(alloc);
    push_u16(&mut bytes, zone.key_tag())?;
    bytes.extend_from_slice(&[ALGORITHM, 2])?;
    bytes.extend_from_slice(&digest)?;
    Ok(Rdata::from_octets(Octets::from_vec(bytes)))
}

/// The DS record of a zone.
pub(crate) fn ds_record(alloc: Global, zone: &Zone) -> Result<Record, NoMemory>
    ensures { IfOk result (λ r. r ≡ ds_record zone.now) }
{
    let name = zone.name().try_clone()?;
    let rdata = ds_rdata(alloc, zone)?;
    Ok(record_of(name, RecordType::DS, rdata))
}

/// The address of a zone's host.
pub(crate) fn host_record(alloc: Global, zone: &Zone) -> Result<Record, NoMemory>
    ensures { IfOk result (λ r. r ≡ host_record zone.now) }
{
    let name = zone.host_name(alloc)?;
    let rdata = Rdata::from_slice(alloc, &[192, 0, 2, 1])?;
    Ok(record_of(name, RecordType::A, rdata))
}

/// What a zone's signature of a record says.
pub(crate) fn signature_by<'a>(zone: &'a Zone, signed: &Record) -> Rrsig<'a>
    ensures says { result ≡ signature_by zone.now signed.now }
    ensures short { length (wire (folded result.signer)) ≤ 255 }
{
    Rrsig {
        type_covered: signed.record_type,
        algorithm: ALGORITHM,
        labels: signed.name.num_labels(),
        original_ttl: 3600,
        expiration: SerialNumber(2000),
        inception: SerialNumber(900),
        key_tag: zone.key_tag(),
        signer: zone.name().borrowed(),
        signature: signature_octets(),
    }
}

// The rdata of a signature whose signer has small letters alone.
fn signature_rdata(alloc: Global, sig: &Rrsig) -> Result<Rdata, NoMemory>
    requires signer { length (wire (folded sig.now.signer)) ≤ 255 }
    requires signature { length sig.now.signature ≤ 2 }
    ensures { IfOk result (λ r. r ≡ signed_head sig.now ++ sig.now.signature) }
{
    let mut bytes = Vec::new(alloc);
    push_u16(&mut bytes, sig.type_covered.0)?;
    bytes.extend_from_slice(&[sig.algorithm, sig.labels])?;
    push_u32(&mut bytes, sig.original_ttl)?;
    push_u32(&mut bytes, sig.expiration.0)?;
    push_u32(&mut bytes, sig.inception.0)?;
    push_u16(&mut bytes, sig.key_tag)?;
    sig.signer.push_folded(&mut bytes)?;
    bytes.extend_from_slice(sig.signature)?;
    Ok(Rdata::from_octets(Octets::from_vec(bytes)))
}

/// A zone's signature of a record.
pub(crate) fn signature_record(
    alloc: Global,
    zone: &Zone,
    signed: &Record,
) -> Result<Record, NoMemory>
    ensures { IfOk result (λ r. r ≡ signature_record zone.now signed.now) }
{
    let name = signed.name.try_clone()?;
    let rdata = signature_rdata(alloc, &signature_by(zone, signed))?;
    Ok(record_of(name, RecordType::RRSIG, rdata))
}

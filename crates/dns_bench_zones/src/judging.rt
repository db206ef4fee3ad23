//! By what nested zones are judged: the root's key is trusted, and the signatures that were made are accepted.
ghost use Rattle.std.specs.Prelude.{◌≡◌, ◌<◌, ◌+◌, IfOk, OnOk};
ghost use Rattle.dns_evidence.specs.Listing.{with_accepted};
ghost use Rattle.dns_bench_zones.specs.NestedZones.{accepted_by, anchors, ds_record, host_record, verifier};

use crate::ZoneCount;
use crate::records::{ALGORITHM, ds_record, host_record, signature_by, signature_octets};
use crate::zone::Zone;
use dns_evidence::Listed;
use dns_rdata::{RdataSet, signed_data_of};
use dns_record::{Name, NoMemory, Octets, Record};
use dns_trust::TrustAnchors;
use std::alloc::Global;

/// The root's key is trusted.
pub(crate) fn root_anchor(alloc: Global) -> Result<TrustAnchors, NoMemory>
    ensures { IfOk result (λ a. a ≡ anchors) }
{
    let mut trusted = TrustAnchors::empty(alloc);
    let owner = Name::root(alloc)?;
    let key = Octets::from_slice(alloc, &[0, 0])?;
    trusted.insert_with_name(owner, ALGORITHM, key)?;
    Ok(trusted)
}

// Accepts a zone's signature of a record.
fn accept(alloc: Global, verifier: &mut Listed, zone: &Zone, signed: Record) -> Result<(), NoMemory>
    ensures { OnOk result (verifier.new ≡ with_accepted verifier.old (accepted_by zone.now signed)) }
{
    let sig = signature_by(zone, &signed);
    let Record {
        name,
        record_type,
        dns_class,
        ttl: _,
        rdata,
        proof: _,
    } = signed;
    let rdatas = [rdata];
    let set = RdataSet {
        name: &name,
        record_type,
        dns_class,
        rdatas: &rdatas,
    };
    let bytes = signed_data_of(alloc, &set, &sig)?;
    let key = Octets::from_slice(alloc, &zone.key()[4..])?;
    let signature = Octets::from_slice(alloc, signature_octets())?;
    verifier.accept_octets(ALGORITHM, key, bytes, signature)
}

// Accepts a zone's signature of the DS record of the zone below it, and answers that zone.
fn accept_below(alloc: Global, verifier: &mut Listed, zone: &Zone) -> Result<Zone, NoMemory>
    requires { zone.now < 100 }
    ensures accepted { OnOk result
        (verifier.new ≡ with_accepted verifier.old (accepted_by zone.now (ds_record (zone.now + 1)))) }
    ensures child { IfOk result (λ z. z ≡ zone.now + 1) }
{
    let child = zone.child(alloc)?;
    let ds = ds_record(alloc, &child)?;
    accept(alloc, verifier, zone, ds)?;
    Ok(child)
}

// Accepts a zone's signature of the address of its host.
fn accept_host(alloc: Global, verifier: &mut Listed, zone: &Zone) -> Result<(), NoMemory>
    ensures { OnOk result (verifier.new ≡ with_accepted verifier.old (accepted_by zone.now (host_record zone.now))) }
{
    let host = host_record(alloc, zone)?;
    accept(alloc, verifier, zone, host)
}

/// Accepts the signatures of so many zones, and no other.
#[tactic(auto, unfolding(crate::specs::NestedZones::accepted_to))]
pub(crate) fn zones_verifier(alloc: Global, zones: ZoneCount) -> Result<Listed, NoMemory>
    ensures { IfOk result (λ v. v ≡ verifier zones) }
{
    let mut verifier = Listed::new(alloc);
    verifier.support(ALGORITHM);
    let mut zone = Zone::root(alloc)?;
    'zones: while zone.number() < zones.number() {
        zone = accept_below(alloc, &mut verifier, &zone)?;
    }
    accept_host(alloc, &mut verifier, &zone)?;
    Ok(verifier)
}

//! The records of a response that are kept for later denials (RFC 8198, 5.1, 5.2 and 5.4).
ghost use Rattle.std.specs.Prelude.{◌≡◌, ◌++◌, ◌∷◌, [], IfOk, OnOk, Some, false};
ghost use Rattle.std.specs.List.{filter_map};
ghost use Rattle.std.specs.Option.{option_or};
ghost use Rattle.dns_evidence.specs.Link.{link_value};
ghost use Rattle.dns_model.specs.Chains.{last_link};
ghost use Rattle.dns_model.specs.Sections.{is_signature};
ghost use Rattle.dns_aggressive.specs.Chains.{AreIndexed};
ghost use Rattle.dns_aggressive.specs.Taking.{expires_at, if_plain, is_plain_hash as is_plain_hash_in, item_of as item_in, kept_as, signer_in, taken as taken_in, taken_as, zone_in};
ghost use Rattle.dns_rules.specs.Denying.{owned_nsec3};

use crate::chain_index::{ChainIndex, last};
use crate::kept::{Kept, KeptRecord};
use dns_evidence::{Chain, Link};
use dns_handle::DnsResponse;
use dns_model::Proof;
use dns_rdata::{Nsec3Record, NsecRecord, Rrsig};
use dns_record::{DNSClass, NameRef, NoMemory, Record};
use std::alloc::Global;

/// The records that a response gives at a moment, in the order of its authority section.
pub(crate) fn taken(alloc: Global, response: &DnsResponse, now: u64) -> Result<Vec<Kept>, NoMemory>
    ensures { IfOk result (λ taken. taken.items ≡ taken_in response.now now) }
{
    let chains = ChainIndex::new(alloc, &response.chains)?;
    let mut taken = Vec::new(alloc);
    for met in &response.message.authorities {
        push_taken(alloc, &mut taken, &chains, met, now)?;
    }
    Ok(taken)
}

// Adds a record, if it is one that may be kept.
fn push_taken<'a>(
    alloc: Global,
    taken: &mut Vec<Kept>,
    chains: &ChainIndex<'a>,
    met: &'a Record,
    now: u64,
) -> Result<(), NoMemory>
    ensures { (list : _) → AreIndexed chains.now list
        → OnOk result (taken.new.items ≡ taken.old.items ++ filter_map (taken_as list now) (met.now ∷ [])) }
{
    if met.proof != Proof::Secure || met.dns_class != DNSClass::IN {
        return Ok(());
    }
    let Some(item) = item_of(alloc, met)? else {
        return Ok(());
    };
    let Some(zone) = zone_of(chains, met) else {
        return Ok(());
    };
    taken.push(Kept {
        zone: zone.to_name(alloc)?,
        item,
        expires: now.saturating_add(u64::from(met.ttl)),
    })?;
    Ok(())
}

// A record as NSEC or as NSEC3 without flags.
fn item_of(alloc: Global, met: &Record) -> Result<Option<KeptRecord>, NoMemory>
    ensures { IfOk result (λ item. item ≡ item_in met.now) }
{
    if let Some(nsec) = NsecRecord::of(alloc, met)? {
        return Ok(Some(KeptRecord::Nsec(nsec)));
    }
    match Nsec3Record::of(alloc, met)? {
        Some(nsec3) if is_plain_hash(&nsec3) => Ok(Some(KeptRecord::Nsec3(nsec3))),
        _ => Ok(None),
    }
}

// Whether names are hashed by SHA-1 and no flag is set (RFC 8198, 5.3; RFC 5155, 3.1).
fn is_plain_hash(nsec3: &Nsec3Record) -> bool
    ensures { result ≡ is_plain_hash_in nsec3.now }
{
    nsec3.hash_algorithm == 1 && nsec3.flags == 0
}

// The zone that signed the set of an NSEC or NSEC3 record.
fn zone_of<'a>(chains: &ChainIndex<'a>, met: &'a Record) -> Option<NameRef<'a>>
    ensures { (list : _) → AreIndexed chains.now list → is_signature met.now ≡ false → result ≡ zone_in list met.now }
{
    signer_of(chains.get(&met.name, met.record_type)?)
}

// Who signed the set at the end of a chain (RFC 4034, 3.1.7).
fn signer_of<'a>(chain: &'a Chain) -> Option<NameRef<'a>>
    ensures { result ≡ signer_in (last_link chain.now.links) }
{
    signer_by(last(chain)?)
}

// Who signed the set that a link is.
fn signer_by<'a>(link: &'a Link) -> Option<NameRef<'a>>
    ensures { result ≡ signer_in (Some (link_value link.now)) }
{
    match link {
        Link::Signed { sig, .. } => {
            let sig = Rrsig::read(sig.as_slice())?;
            Some(sig.signer)
        }
        _ => None,
    }
}

//! Which keys trust anchors stand for.
ghost use Rattle.std.specs.Prelude.{◌≡◌, ◌++◌, IfOk, OnOk};
ghost use Rattle.dns_anchor_keys.specs.Matching.{anchor_in, anchors_of, anchors_of_line, is_key_of, is_usable_key, matched};

use dns_evidence::Verifier;
use dns_master_file::RecordLine;
use dns_rdata::Dnskey;
use dns_record::{DNSClass, Name, NoMemory, Octets, Record, RecordType};
use dns_session::Anchor;
use dns_trust::{ds_matches, is_usable};
use std::alloc::Global;

// Whether a rdata is that of a key that may sign.
fn is_usable_key<V: Verifier>(verifier: &V, rdata: &[u8]) -> bool
    ensures { result ≡ is_usable_key (V.answers verifier.now) rdata.now }
{
    match Dnskey::read(rdata) {
        Some(key) => is_usable(verifier, &key),
        None => false,
    }
}

// Whether a record is a key of the zone that may sign and that a digest stands for.
fn is_key_of<V: Verifier>(verifier: &V, zone: &Name, ds: &[u8], found: &Record) -> bool
    ensures { result ≡ is_key_of (V.answers verifier.now) zone.now ds.now found.now }
{
    let rdata = found.rdata.as_slice();
    found.record_type == RecordType::DNSKEY
        && found.dns_class == DNSClass::IN
        && found.name == *zone
        && is_usable_key(verifier, rdata)
        && ds_matches(verifier, zone, rdata, ds)
}

// Trusts the key of a rdata, if that can be read.
fn push_key(
    alloc: Global,
    zone: &Name,
    rdata: &[u8],
    into: &mut Vec<Anchor>,
) -> Result<(), NoMemory>
    ensures { OnOk result (into.new.items ≡ into.old.items ++ anchor_in zone.now rdata.now) }
{
    let Some(read) = Dnskey::read(rdata) else {
        return Ok(());
    };
    let owner = zone.try_clone()?;
    let key = Octets::from_slice(alloc, read.key)?;
    into.push(Anchor {
        owner,
        algorithm: read.algorithm,
        key,
    })?;
    Ok(())
}

// Trusts the keys of a zone that a digest stands for.
#[tactic(auto, unfolding(crate::specs::Matching::matched))]
fn push_matched<V: Verifier>(
    alloc: Global,
    verifier: &V,
    zone: &Name,
    ds: &[u8],
    keys: &[Record],
    into: &mut Vec<Anchor>,
) -> Result<(), NoMemory>
    ensures { OnOk result (into.new.items ≡ into.old.items ++ matched (V.answers verifier.now) zone.now ds.now keys.now) }
{
    let mut rest = keys;
    'keys: while let Some((key, more)) = rest.split_first() {
        if is_key_of(verifier, zone, ds, key) {
            push_key(alloc, zone, key.rdata.as_slice(), into)?;
        }
        rest = more;
    }
    Ok(())
}

// Trusts the keys that one line stands for.
fn push_line<V: Verifier>(
    alloc: Global,
    verifier: &V,
    keys: &[Record],
    line: &RecordLine,
    into: &mut Vec<Anchor>,
) -> Result<(), NoMemory>
    ensures { OnOk result (into.new.items ≡ into.old.items ++ anchors_of_line (V.answers verifier.now) keys.now line.now) }
{
    let rdata = line.rdata.as_slice();
    match line.record_type {
        RecordType::DS => push_matched(alloc, verifier, &line.name, rdata, keys, into),
        RecordType::DNSKEY => push_key(alloc, &line.name, rdata, into),
        _ => Ok(()),
    }
}

/// The keys that lines stand for, in their order, where zones have these keys.
#[tactic(auto, unfolding(crate::specs::Matching::anchors_of))]
pub(crate) fn anchors_of<V: Verifier>(
    alloc: Global,
    verifier: &V,
    keys: &[Record],
    lines: &[RecordLine],
) -> Result<Vec<Anchor>, NoMemory>
    ensures { IfOk result (λ v. v.items ≡ anchors_of (V.answers verifier.now) keys.now lines.now) }
{
    let mut anchors = Vec::new(alloc);
    let mut rest = lines;
    'lines: while let Some((line, more)) = rest.split_first() {
        push_line(alloc, verifier, keys, line, &mut anchors)?;
        rest = more;
    }
    Ok(anchors)
}

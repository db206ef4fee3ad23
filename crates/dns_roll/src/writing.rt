//! The lines of the trusted keys.
ghost use Rattle.std.specs.Prelude.{◌≡◌, ◌++◌, None, IfOk, OnOk};
ghost use Rattle.std.specs.List.{flat_map};
ghost use Rattle.dns_anchor_roll.specs.After.{starting};
ghost use Rattle.dns_roll.specs.RollGrammar.{fall_of};
ghost use Rattle.dns_roll.specs.TrustedText.{sightings_in, texts_of, trusted_line, trusted_text, without_revoke as without_revoke_of};

use crate::naming::{first_rdatas, named_rdatas, rdatas_of};
use crate::roll_text::{GivenKey, Sight};
use crate::seen::sightings_of;
use crate::trusting::{after_sightings, trusted_of};
use dns_evidence::Verifier;
use dns_record::{Name, NoMemory};
use dns_text::push_octets;
use std::alloc::Global;

// A copy of a key's rdata without the flag REVOKE (RFC 5011, 3).
fn without_revoke(alloc: Global, rdata: &[u8]) -> Result<Vec<u8>, NoMemory>
    ensures { IfOk result (λ v. v.items ≡ without_revoke_of rdata.now) }
{
    let mut copy = Vec::from_slice(alloc, rdata)?;
    if copy.len() >= 2 {
        copy[1] %= 128;
    }
    Ok(copy)
}

// Adds the line of a trusted key.
fn push_trusted(alloc: Global, into: &mut Vec<u8>, rdata: &[u8]) -> Result<(), NoMemory>
    ensures { OnOk result (into.new.items ≡ into.old.items ++ trusted_line rdata.now) }
{
    into.extend_from_slice(b"trusted ")?;
    push_octets(into, &without_revoke(alloc, rdata)?)?;
    into.push(b'\n')?;
    Ok(())
}

// The lines of trusted keys.
fn trusted_lines(alloc: Global, rdatas: &[&[u8]]) -> Result<Vec<u8>, NoMemory>
    ensures { IfOk result (λ v. v.items ≡ flat_map trusted_line (texts_of rdatas.now)) }
{
    let mut text = Vec::new(alloc);
    for rdata in rdatas {
        push_trusted(alloc, &mut text, *rdata)?;
    }
    Ok(text)
}

/// A line for each key of a zone that is trusted after the sightings of sights, whose moments don't fall, by a verifier and the keys that
/// are trusted at the start: those first, then by the first sight that shows the key. It fails only where memory runs out.
pub fn write_trusted<V: Verifier + Drop>(
    alloc: Global,
    verifier: V,
    zone: Name,
    keys: &[GivenKey],
    sights: &[Sight],
) -> Result<Vec<u8>, NoMemory>
    requires { fall_of sights.now ≡ None }
    ensures { IfOk result (λ v. v.items
        ≡ trusted_text (starting (V.answers verifier) zone keys.now) (sightings_in zone sights.now)) }
{
    let sightings = sightings_of(alloc, &zone, sights)?;
    let given = rdatas_of(alloc, keys)?;
    let followed = after_sightings(alloc, verifier, zone, given, sights, &sightings)?;
    let named = named_rdatas(alloc, keys, &sightings)?;
    let trusted = trusted_of(alloc, &followed, &named)?;
    let first = first_rdatas(alloc, &trusted)?;
    trusted_lines(alloc, &first)
}

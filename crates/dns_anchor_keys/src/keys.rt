//! The keys that are trusted.
ghost use Rattle.dns_anchor_keys.specs.Trusting.{Trusts};

use crate::asking::ask_zones;
use crate::fault::AnchorsFault;
use crate::matching::anchors_of;
use crate::zones::zones_of;
use dns_evidence::Verifier;
use dns_handle::DnsHandle;
use dns_master_file::RecordLine;
use dns_record::Record;
use dns_session::Anchor;
use std::alloc::Global;
use std::marker::Model;

/// Keys that are trusted, and the key sets that were asked for.
#[derive(Drop)]
pub struct TrustedKeys {
    /// The keys, in the order of the records that stand for them.
    pub anchors: Vec<Anchor>,
    /// All keys that zones answered with for which digests stand.
    pub keys: Vec<Record>,
}

impl Model for TrustedKeys {
    ghost use Rattle.dns_anchor_keys.specs.Trusting.{TrustedValue};

    ghost Value = { TrustedValue };

    ghost view = { λ t. record { anchors = t.anchors.items; keys = t.keys.items } };
}

/// The keys that the records of a file of trust anchors stand for (RFC 4035, 4.4; RFC 7958). A DNSKEY record stands for its key. For a DS
/// record its zone is asked, over the handle at a moment in seconds since 1970, for its key set; it stands for those keys of the set
/// that may sign and have its digest. Zones are asked in the order of the records, and once where a zone's digests stand one behind
/// another.
///
/// `Unanswered` names the zone and the error where a key set wasn't answered, and then nothing more is asked; `NoKey` where the records
/// stand for no key.
pub fn anchor_keys<H: DnsHandle, V: Verifier>(
    alloc: Global,
    handle: &mut H,
    verifier: &V,
    lines: &[RecordLine],
    now: u64,
) -> Result<TrustedKeys, AnchorsFault>
    ensures { Trusts H.DnsHandle (V.answers verifier.now) now lines.now handle.old handle.new result }
{
    let zones = zones_of(alloc, lines)?;
    let keys = ask_zones(alloc, handle, &zones, now)?;
    let anchors = anchors_of(alloc, verifier, &keys, lines)?;
    if anchors.is_empty() {
        return Err(AnchorsFault::NoKey);
    }
    Ok(TrustedKeys { anchors, keys })
}

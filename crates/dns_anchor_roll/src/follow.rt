//! Keys that may come to be trust anchors of a zone (RFC 4034, 2.1.1; RFC 5011, 2.1).
ghost use Rattle.std.specs.Prelude.{◌≡◌, drop};
ghost use Rattle.dns_anchor_roll.specs.FollowedKeys.{counts as counts_in, followed as followed_in, key_bytes, key_in};
ghost use Rattle.dns_model.specs.Views.{is_revoked as is_revoked_in};

use dns_rdata::Dnskey;
use dns_record::{Name, Record, RecordType};
use std::marker::Model;

/// The flag of a key that is meant to be an anchor (RFC 4034, 2.1.1).
const ENTRY_POINT: u16 = 0x0001;

// A zone's key that is meant to be an anchor.
fn counts(key: &Dnskey<'_>) -> bool
    ensures { result ≡ counts_in key.now }
{
    key.is_zone_key() && key.flags & ENTRY_POINT != 0
}

// The algorithm and the public key of a DNSKEY rdata, which stand behind its flags and its protocol (RFC 4034, 2.1).
fn bytes_in(rdata: &[u8]) -> &[u8]
    ensures { result.now ≡ drop 3 rdata.now }
{
    if rdata.len() < 3 {
        return &[];
    }
    &rdata[3..]
}

/// A key that counts.
#[derive(Drop)]
pub(crate) struct FollowedKey<'a> {
    key: Dnskey<'a>,
    bytes: &'a [u8],
}

impl<'a> Model for FollowedKey<'a> {
    ghost use Rattle.std.specs.Prelude.{◌≡◌};
    ghost use Rattle.dns_model.specs.Views.{DnskeyValue};
    ghost use Rattle.dns_anchor_roll.specs.FollowedKeys.{key_bytes};

    ghost Value = { DnskeyValue };

    ghost view = { λ k. k.key };

    ghost invariant = { λ k. k.bytes.now ≡ key_bytes k.key };
}

impl<'a> FollowedKey<'a> {
    /// Whether it has the flag REVOKE.
    pub(crate) fn is_revoked(&self) -> bool
        ensures { result ≡ is_revoked_in self.now }
    {
        self.key.is_revoked()
    }

    /// Which key it is: its algorithm, and its public key behind that.
    pub(crate) fn bytes(&self) -> &'a [u8]
        ensures { result.now ≡ key_bytes self.now }
    {
        self.bytes
    }
}

/// What an rdata says as a key that counts.
#[tactic(auto, using(crate::proofs::Keys::bytes_behind))]
pub(crate) fn key_of(rdata: &[u8]) -> Option<FollowedKey<'_>>
    ensures { result ≡ key_in rdata.now }
{
    let key = Dnskey::read(rdata)?;
    if !counts(&key) {
        return None;
    }
    let bytes = bytes_in(rdata);
    Some(FollowedKey { key, bytes })
}

/// What a record says as a key of a zone that counts.
pub(crate) fn followed<'a>(zone: &Name, of: &'a Record) -> Option<FollowedKey<'a>>
    ensures { result ≡ followed_in zone.now of.now }
{
    if *zone != of.name || of.record_type != RecordType::DNSKEY {
        return None;
    }
    key_of(of.rdata.as_slice())
}

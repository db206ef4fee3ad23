//! Whether a signature fits a set, a key and a moment, before any arithmetic on it (RFC 4035, 5.3.1).

ghost use Rattle.std.specs.Prelude.{◌≡◌, Some};
ghost use Rattle.dns_model.specs.Serial.{timely};
ghost use Rattle.dns_model.specs.RecordViews.{dnskey_of};
ghost use Rattle.dns_rules.specs.Validity.{validity, is_of_set as is_set_signature};
ghost use Rattle.dns_rules.specs.MarkParts.{sig_validity, key_validity as key_fits};
ghost use Rattle.dns_trust.specs.Validities.{validity_of};

use crate::{SetSignature, is_timely};
use dns_rdata::{Dnskey, Rrsig, key_tag};
use dns_record::{Record, RecordSet};

/// Whether a signature fits a set, a key and a moment, before any arithmetic on it (RFC 4035, 5.3.1).
#[derive(Clone, Copy, Debug, PartialEq, Eq)]
pub enum RrsigValidity {
    /// It fits.
    ValidRrsig,
    /// The moment isn't in the signature's validity.
    ExpiredRrsig,
    /// The key isn't the one that the signature names, or is no zone key.
    WrongDnskey,
    /// The signature isn't one of the set.
    WrongRrsig,
}

impl RrsigValidity {
    /// Whether a signature fits a set, a key and a moment in seconds since 1970: the first test that fails, of the signature,
    /// of the moment and of the key (RFC 4035, 5.3.1). A record of another type is no signature and no key, whatever its rdata.
    #[tactic(auto, unfolding(dns_rules::specs::Validity::validity))]
    pub fn check(sig: &Record, set: &RecordSet, key: &Record, now: u64) -> RrsigValidity
        ensures { validity_of result ≡ validity (λ s. timely s now) set.now sig.now key.now }
    {
        let Some(read) = Rrsig::of(sig) else {
            return RrsigValidity::WrongRrsig;
        };
        let signature = SetSignature {
            set,
            sig,
            read: &read,
        };
        RrsigValidity::check_read(&signature, key, now)
    }

    /// The same of a signature that is read already. Whoever tests several keys for one signature reads it once.
    pub fn check_read(signature: &SetSignature<'_>, key: &Record, now: u64) -> RrsigValidity
        ensures { validity_of result ≡ sig_validity (λ s. timely s now)
            signature.now.set.now signature.now.sig.now key.now (Some signature.now.read.now) }
    {
        let SetSignature { set, sig, read } = *signature;
        if !is_of_set(set, sig, read) {
            return RrsigValidity::WrongRrsig;
        }
        if !is_timely(read, now) {
            return RrsigValidity::ExpiredRrsig;
        }
        key_validity(read, key)
    }
}

// The signature stands at the set's owner and class, under a signer at or above it, over the set's type and no more labels.
fn is_of_set(set: &RecordSet, sig: &Record, read: &Rrsig<'_>) -> bool
    ensures { result ≡ is_set_signature set.now sig.now read.now }
{
    set.name == sig.name
        && set.dns_class == sig.dns_class
        && read.signer.zone_of(&set.name.borrowed())
        && read.type_covered == set.record_type
        && read.labels <= set.name.borrowed().num_labels()
}

// The key is the signer's, has the signature's algorithm and tag, and is a zone key.
#[tactic(auto, unfolding(dns_model::specs::Views::dnskey_in))]
fn key_validity(read: &Rrsig<'_>, key: &Record) -> RrsigValidity
    ensures { validity_of result ≡ key_fits read.now key.now (dnskey_of key.now) }
{
    let Some(dnskey) = Dnskey::of(key) else {
        return RrsigValidity::WrongDnskey;
    };
    let Some(tag) = key_tag(key.rdata.as_slice()) else {
        return RrsigValidity::WrongDnskey;
    };
    let is_named = read.signer.eq_name(&key.name.borrowed())
        && dnskey.algorithm == read.algorithm
        && tag == read.key_tag
        && dnskey.is_zone_key();
    if is_named {
        RrsigValidity::ValidRrsig
    } else {
        RrsigValidity::WrongDnskey
    }
}

//! Which keys may sign (RFC 4034, 2.1; RFC 5011, 2.1).

ghost use Rattle.std.specs.Prelude.{◌≡◌, ◌==◌, ◌&&◌};
ghost use Rattle.dns_model.specs.Keys.{usable_key};
ghost use Rattle.dns_model.specs.Views.{is_zone_key};
ghost use Rattle.dns_rules.specs.Validity.{usable_but_for_revoke};
ghost use Rattle.dns_trust.specs.KeyFaults.{fault_of};

use dns_evidence::Verifier;
use dns_rdata::Dnskey;

/// Why a key may sign nothing, whatever its algorithm.
#[derive(Clone, Copy, Debug)]
pub enum KeyFault {
    /// The flag REVOKE is set (RFC 5011, 2.1).
    Revoked,
    /// The flag ZONE is clear, or the protocol isn't DNSSEC's (RFC 4034, 2.1.1 and 2.1.2).
    NotZoneKey,
}

/// The first test that a key fails by its flags and its protocol; None where it may sign, if its algorithm is supported.
pub fn key_fault(key: &Dnskey<'_>) -> Option<KeyFault>
    ensures { result ≡ fault_of key.now }
{
    if key.is_revoked() {
        return Some(KeyFault::Revoked);
    }
    if !is_zone_key_of_dnssec(key) {
        return Some(KeyFault::NotZoneKey);
    }
    None
}

// The key is a zone's, of DNSSEC's protocol (RFC 4034, 2.1.1 and 2.1.2).
fn is_zone_key_of_dnssec(key: &Dnskey<'_>) -> bool
    ensures { result ≡ (is_zone_key key.now && (key.now.protocol == 3)) }
{
    key.is_zone_key() && key.protocol == 3
}

/// The key may sign: a zone's key that isn't revoked, of DNSSEC's protocol, under an algorithm that the verifier supports
/// (RFC 4034, 2.1; RFC 5011, 2.1).
pub fn is_usable<V: Verifier>(verifier: &V, key: &Dnskey<'_>) -> bool
    ensures { result ≡ usable_key (V.answers verifier.now) key.now }
{
    match key_fault(key) {
        Some(_) => false,
        None => verifier.supports(key.algorithm),
    }
}

/// The key may sign but for its flag REVOKE, which isn't looked at (RFC 5011, 2.1).
pub fn is_usable_but_for_revoke<V: Verifier>(verifier: &V, key: &Dnskey<'_>) -> bool
    ensures { result ≡ usable_but_for_revoke (V.answers verifier.now) key.now }
{
    is_zone_key_of_dnssec(key) && verifier.supports(key.algorithm)
}

//! A delegation to a zone that isn't signed, shown by NSEC3 records (RFC 5155, 8.9).
ghost use Rattle.std.specs.Prelude.{◌≡◌, true};
ghost use Rattle.std.specs.List.{find};
ghost use Rattle.dns_rules.specs.Nsec3Covering.{nsec3_matches as matches_in};
ghost use Rattle.dns_rules.specs.Nsec3Verdict.{hashed, is_unsigned_at as is_unsigned_at_in, is_unsigned_by as is_unsigned_by_in, is_unsigned_in as is_unsigned_in_zone, may_be_unsigned as may_be_unsigned_in, parameters_of as parameters_of_in, provable_encloser as provable_encloser_in, shows_insecure_delegation};
ghost use Rattle.dns_hashed_denial.specs.HashedDenial.{IsInsecureByHashes};

use crate::listed_types::is_unsigned_cut;
use crate::nsec3_encloser::provable_encloser;
use crate::nsec3_fields::is_opt_out;
use crate::nsec3_parameters::Nsec3Parameters;
use crate::nsec3_records::Nsec3Records;
use dns_rdata::Nsec3Record;
use dns_record::{Name, NameRef};

/// Whether the NSEC3 records show that a child's zone isn't signed, or that nothing can show that it is (RFC 5155, 8.9): the
/// child is a delegation without DS, or the next closer name lies in an opt-out span. The zone is that right above the first
/// record's owner. Limits of iterations aren't looked at.
pub fn verify_nsec3_insecure_delegation(child: &Name, nsec3s: &[Nsec3Record]) -> bool
    ensures shown { result ≡ shows_insecure_delegation child.now nsec3s.now }
    ensures insecure { result ≡ true → IsInsecureByHashes child.now nsec3s.now }
{
    shows_insecure_delegation(child, nsec3s)
}

// By the zone right above the first record's owner.
#[tactic(auto, unfolding(dns_rules::specs::Nsec3Verdict::shows_insecure_delegation))]
fn shows_insecure_delegation(child: &Name, nsec3s: &[Nsec3Record]) -> bool
    ensures { result ≡ shows_insecure_delegation child.now nsec3s.now }
{
    match nsec3s {
        [first, ..] => is_unsigned_in(&first.owner.borrowed().parent(), nsec3s, &child.borrowed()),
        [] => false,
    }
}

// The same of the records of a zone.
fn is_unsigned_in(zone: &NameRef<'_>, nsec3s: &[Nsec3Record], child: &NameRef<'_>) -> bool
    ensures { result ≡ is_unsigned_in_zone zone.now nsec3s.now child.now }
{
    zone.strictly_above(child) && nsec3s.are_of_zone(zone) && is_unsigned_by(zone, nsec3s, child)
}

// By the parameters that the records share, if there are any.
fn is_unsigned_by(zone: &NameRef<'_>, nsec3s: &[Nsec3Record], child: &NameRef<'_>) -> bool
    ensures { result ≡ is_unsigned_by_in zone.now nsec3s.now child.now (parameters_of_in nsec3s.now) }
{
    match nsec3s.parameters() {
        Some(by) => is_unsigned_at(&by, zone, nsec3s, child),
        None => false,
    }
}

// By the record at the child, or else by the one that covers the next closer name.
fn is_unsigned_at(
    by: &Nsec3Parameters<'_>,
    zone: &NameRef<'_>,
    nsec3s: &[Nsec3Record],
    child: &NameRef<'_>,
) -> bool
    ensures { result ≡ is_unsigned_at_in by.now zone.now nsec3s.now child.now (find (matches_in (hashed by.now child.now)) nsec3s.now) }
{
    let hash = by.hash(child);
    match nsec3s.matching(&hash, &mut ()) {
        Some(nsec3) => is_unsigned_cut(&nsec3.type_set()),
        None => may_be_unsigned(by, zone, nsec3s, child, &hash),
    }
}

// Whether the next closer name of a child with this hash lies in an opt-out span.
fn may_be_unsigned(
    by: &Nsec3Parameters<'_>,
    zone: &NameRef<'_>,
    nsec3s: &[Nsec3Record],
    child: &NameRef<'_>,
    hash: &[u8; 20],
) -> bool
    requires { hash.now ≡ hashed by.now child.now }
    ensures { result ≡ may_be_unsigned_in by.now nsec3s.now child.now (provable_encloser_in by.now zone.now nsec3s.now child.now) }
{
    let Some(encloser) = provable_encloser(by, zone, &nsec3s, child, hash, &mut ()) else {
        return false;
    };
    match nsec3s.covering(&encloser.hash, &mut ()) {
        Some(closer) => is_opt_out(closer),
        None => false,
    }
}

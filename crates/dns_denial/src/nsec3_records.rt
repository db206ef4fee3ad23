//! The searches of a verdict on NSEC3 records: a list is scanned, and an index of it may find them faster.
ghost use Rattle.std.specs.Prelude.{◌≡◌, ◌+◌, ◌≤◌, ◌&&◌};
ghost use Rattle.std.specs.List.{find, list_all, list_any};
ghost use Rattle.std.specs.Option.{option_copied};
ghost use Rattle.dns_rules.specs.ListedTypes.{wildcard_lacks as wildcard_lacks_in};
ghost use Rattle.dns_rules.specs.Nsec3Covering.{nsec3_covering as covering_in, nsec3_matches as matches_in};
ghost use Rattle.dns_rules.specs.Nsec3Verdict.{hashed, is_of_zone as is_of_zone_in, parameters_of as parameters_of_in};

use crate::hash_covering::covering_nsec3;
use crate::hash_text::HashText;
use crate::listed_types::wildcard_lacks;
use crate::nsec3_fields::{is_of_zone, matches};
use crate::nsec3_parameters::{Nsec3Parameters, parameters_of};
use dns_rdata::Nsec3Record;
use dns_record::{NameRef, RecordType};

/// NSEC3 records of which a verdict can be made: a list of them, or what answers as that list does. Contracts see the list.
/// Hashes are those of SHA-1.
pub trait Nsec3Records {
    ghost use Rattle.std.specs.Prelude.{List, ℕ};
    ghost use Rattle.dns_model.specs.Owned.{OwnedNsec3};

    /// What is noted in searches, as the steps that they take, or the names that are hashed; `()` where nothing is.
    type Notes;

    // The list.
    ghost records: { Self → List OwnedNsec3 };

    // How many steps were taken.
    ghost steps: { Self.Notes → ℕ } = { λ _. 0 };

    // How many steps one search takes at most.
    ghost most_steps: { Self → ℕ } = { λ _. 0 };

    // How often a name was hashed.
    ghost hashes: { Self.Notes → ℕ } = { λ _. 0 };

    /// Whether each record stands right below the zone's apex (RFC 5155, 3).
    fn are_of_zone(&self, zone: &NameRef<'_>) -> bool
        ensures { result ≡ list_all (is_of_zone_in zone.now) (records self.now) };

    /// The parameters of all records that aren't ignored; `None` where there is no such record, or they differ (RFC 5155, 8.2).
    fn parameters(&self) -> Option<Nsec3Parameters<'_>>
        ensures { result ≡ parameters_of_in (records self.now) };

    /// The first record that matches the hash (RFC 5155, 1.3).
    fn matching(&self, hash: &[u8; 20], notes: &mut Self::Notes) -> Option<&Nsec3Record>
        ensures matching { option_copied result ≡ find (matches_in hash.now) (records self.now) }
        ensures steps { steps notes.new ≤ steps notes.old + most_steps self.now }
        ensures hashes { hashes notes.new ≡ hashes notes.old };

    /// The record that covers the hash (RFC 5155, 1.3), also where one matches it.
    fn covering(&self, hash: &[u8; 20], notes: &mut Self::Notes) -> Option<&Nsec3Record>
        ensures covering { option_copied result ≡ covering_in hash.now (records self.now) }
        ensures steps { steps notes.new ≤ steps notes.old + most_steps self.now }
        ensures hashes { hashes notes.new ≡ hashes notes.old };

    /// Whether some record that matches a wildcard's hash shows that it has no data of the type (RFC 5155, 8.7).
    fn wildcard_denies(
        &self,
        wildcard: &[u8; 20],
        record_type: RecordType,
        notes: &mut Self::Notes,
    ) -> bool
        ensures denies { result ≡ list_any (λ nsec3. matches_in wildcard.now nsec3 && wildcard_lacks_in record_type.0 nsec3.fields.types)
            (records self.now) }
        ensures steps { steps notes.new ≤ steps notes.old + most_steps self.now }
        ensures hashes { hashes notes.new ≡ hashes notes.old };

    /// The hash of a name by the parameters. Records of which several verdicts are made may keep it.
    fn hash(
        &self,
        by: &Nsec3Parameters<'_>,
        name: &NameRef<'_>,
        _notes: &mut Self::Notes,
    ) -> [u8; 20]
        ensures hash { result ≡ hashed by.now name.now }
        ensures steps { steps _notes.new ≡ steps _notes.old }
        ensures hashes { hashes _notes.new ≤ hashes _notes.old + 1 }
    {
        by.hash(name)
    }
}

impl<'a> Nsec3Records for &'a [Nsec3Record] {
    type Notes = ();

    ghost records = { λ nsec3s. nsec3s.now };

    fn are_of_zone(&self, zone: &NameRef<'_>) -> bool {
        all_of_zone(zone, self)
    }

    fn parameters(&self) -> Option<Nsec3Parameters<'_>> {
        parameters_of(self)
    }

    fn matching(&self, hash: &[u8; 20], _notes: &mut ()) -> Option<&Nsec3Record> {
        first_match(&HashText::of(hash), self)
    }

    fn covering(&self, hash: &[u8; 20], _notes: &mut ()) -> Option<&Nsec3Record> {
        covering_nsec3(&HashText::of(hash), self)
    }

    fn wildcard_denies(
        &self,
        wildcard: &[u8; 20],
        record_type: RecordType,
        _notes: &mut (),
    ) -> bool {
        some_denies(&HashText::of(wildcard), record_type, self)
    }
}

// Whether each record stands right below the zone's apex.
fn all_of_zone(zone: &NameRef<'_>, nsec3s: &[Nsec3Record]) -> bool
    ensures { result ≡ list_all (is_of_zone_in zone.now) nsec3s.now }
{
    for nsec3 in nsec3s {
        if !is_of_zone(zone, nsec3) {
            return false;
        }
    }
    true
}

// The first record that matches the hash.
fn first_match<'a>(hash: &HashText, nsec3s: &'a [Nsec3Record]) -> Option<&'a Nsec3Record>
    ensures { option_copied result ≡ find (matches_in hash.now) nsec3s.now }
{
    for nsec3 in nsec3s {
        if matches(hash, nsec3) {
            return Some(nsec3);
        }
    }
    None
}

// Whether some record of the wildcard with this hash shows that it has no data of the type.
fn some_denies(wildcard: &HashText, record_type: RecordType, nsec3s: &[Nsec3Record]) -> bool
    ensures { result ≡ list_any (λ nsec3. matches_in wildcard.now nsec3 && wildcard_lacks_in record_type.0 nsec3.fields.types) nsec3s.now }
{
    for nsec3 in nsec3s {
        if is_denied_wildcard(wildcard, record_type, nsec3) {
            return true;
        }
    }
    false
}

// Whether a record is the wildcard's, and shows that it has no data of the type.
fn is_denied_wildcard(wildcard: &HashText, record_type: RecordType, nsec3: &Nsec3Record) -> bool
    ensures { result ≡ (matches_in wildcard.now nsec3.now && wildcard_lacks_in record_type.0 nsec3.now.fields.types) }
{
    matches(wildcard, nsec3) && wildcard_lacks(&nsec3.type_set(), record_type)
}

//! The searches of a verdict on NSEC records: a list is scanned, and an index of it may find them faster.
ghost use Rattle.std.specs.Prelude.{◌≡◌, ◌+◌, ◌≤◌, ◌&&◌, None};
ghost use Rattle.std.specs.List.{find};
ghost use Rattle.std.specs.Option.{option_copied};
ghost use Rattle.dns_rules.specs.Covering.{nsec_covering as covering_in};
ghost use Rattle.dns_rules.specs.ListedTypes.{wildcard_lacks as wildcard_lacks_in};
ghost use Rattle.dns_rules.specs.NsecVerdict.{is_owned_by as is_owned_by_in, wildcard_denies};
ghost use Rattle.dns_denial.specs.NsecFinds.{owned, covered};

use crate::covering::covering_nsec;
use crate::listed_types::wildcard_lacks;
use dns_rdata::NsecRecord;
use dns_record::{NameRef, RecordType};

/// What NSEC records say of a name.
#[derive(Clone, Copy)]
pub enum NsecFind<'a> {
    /// The first record that the name owns.
    Owned(&'a NsecRecord),
    /// The name owns no record, and this one covers it.
    Covered(&'a NsecRecord),
    /// The name owns no record, and none covers it.
    Nothing,
}

/// NSEC records of which a verdict can be made: a list of them, or what answers as that list does. Contracts see the list.
pub trait NsecRecords {
    ghost use Rattle.std.specs.Prelude.{List, ℕ};
    ghost use Rattle.dns_model.specs.Owned.{OwnedNsec};

    /// What is noted in a search, as the steps that it takes; `()` where nothing is.
    type Notes;

    // The list.
    ghost records: { Self → List OwnedNsec };

    // How many steps were taken.
    ghost steps: { Self.Notes → ℕ } = { λ _. 0 };

    // How many steps one search takes at most.
    ghost most_steps: { Self → ℕ } = { λ _. 0 };

    /// The first record that the name owns, or else the one that covers it (RFC 4035, 5.4).
    fn of_name(&self, name: &NameRef<'_>, notes: &mut Self::Notes) -> NsecFind<'_>
        ensures owned { owned result ≡ find (is_owned_by_in name.now) (records self.now) }
        ensures covered { owned result ≡ None → covered result ≡ covering_in name.now (records self.now) }
        ensures steps { steps notes.new ≤ steps notes.old + most_steps self.now };

    /// The record that covers the name, also where the name owns one.
    fn covering(&self, name: &NameRef<'_>, notes: &mut Self::Notes) -> Option<&NsecRecord>
        ensures covering { option_copied result ≡ covering_in name.now (records self.now) }
        ensures steps { steps notes.new ≤ steps notes.old + most_steps self.now };

    /// Whether some record that the wildcard owns shows that it has no data of the type (RFC 4035, 3.1.3.4).
    fn wildcard_denies(
        &self,
        wildcard: &NameRef<'_>,
        record_type: RecordType,
        notes: &mut Self::Notes,
    ) -> bool
        ensures denies { result ≡ wildcard_denies record_type.0 wildcard.now (records self.now) }
        ensures steps { steps notes.new ≤ steps notes.old + most_steps self.now };
}

impl<'a> NsecRecords for &'a [NsecRecord] {
    type Notes = ();

    ghost records = { λ nsecs. nsecs.now };

    fn of_name(&self, name: &NameRef<'_>, _notes: &mut ()) -> NsecFind<'_> {
        if let Some(nsec) = owned_by(name, self) {
            return NsecFind::Owned(nsec);
        }
        match covering_nsec(name, self) {
            Some(nsec) => NsecFind::Covered(nsec),
            None => NsecFind::Nothing,
        }
    }

    fn covering(&self, name: &NameRef<'_>, _notes: &mut ()) -> Option<&NsecRecord> {
        covering_nsec(name, self)
    }

    fn wildcard_denies(
        &self,
        wildcard: &NameRef<'_>,
        record_type: RecordType,
        _notes: &mut (),
    ) -> bool {
        some_denies(wildcard, record_type, self)
    }
}

// The first record that the name owns.
fn owned_by<'a>(name: &NameRef<'_>, nsecs: &'a [NsecRecord]) -> Option<&'a NsecRecord>
    ensures { option_copied result ≡ find (is_owned_by_in name.now) nsecs.now }
{
    for nsec in nsecs {
        if is_owned_by(name, nsec) {
            return Some(nsec);
        }
    }
    None
}

/// Whether the name owns the record.
pub fn is_owned_by(name: &NameRef<'_>, nsec: &NsecRecord) -> bool
    ensures { result ≡ is_owned_by_in name.now nsec.now }
{
    nsec.owner.borrowed().eq_name(name)
}

// Whether some record of a wildcard shows that it has no data of the type.
fn some_denies(wildcard: &NameRef<'_>, record_type: RecordType, nsecs: &[NsecRecord]) -> bool
    ensures { result ≡ wildcard_denies record_type.0 wildcard.now nsecs.now }
{
    for nsec in nsecs {
        if is_denied_wildcard(wildcard, record_type, nsec) {
            return true;
        }
    }
    false
}

// Whether a record is the wildcard's, and shows that it has no data of the type.
fn is_denied_wildcard(wildcard: &NameRef<'_>, record_type: RecordType, nsec: &NsecRecord) -> bool
    ensures { result ≡ (is_owned_by_in wildcard.now nsec.now && wildcard_lacks_in record_type.0 nsec.now.fields.types) }
{
    is_owned_by(wildcard, nsec) && wildcard_lacks(&nsec.type_set(), record_type)
}

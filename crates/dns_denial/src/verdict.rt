//! What NSEC records prove of a query that a response denies or answers from a wildcard (RFC 4035, 5.3.4 and 5.4).
ghost use Rattle.std.specs.Prelude.{◌≡◌, ℕ, ◌+◌, ◌*◌, ◌≤◌, ◌==◌, true, Some, is_some, if◌then◌else◌};
ghost use Rattle.std.specs.List.{find};
ghost use Rattle.dns_model.specs.Names.{is_name, star};
ghost use Rattle.dns_model.specs.declared.answered.Answered.TheVariants.{No, Expanded};
ghost use Rattle.dns_model.specs.declared.proof.Proof.TheVariants.{Secure};
ghost use Rattle.dns_rules.specs.DenialInZones.{IsDeniedIn, IsExpandedIn};
ghost use Rattle.dns_rules.specs.Covering.{nsec_covering as covering_in};
ghost use Rattle.dns_rules.specs.NsecVerdict.{nsec_verdict, secure_if as secure_if_in, code_nx_domain, holds_query as holds_query_in, is_owned_by as is_owned_by_in, wildcard_denies as wildcard_denies_in, missing_name as missing_name_in, proved_by_covering as proved_by_covering_in, proved_at_name as proved_at_name_in, closest_encloser as closest_encloser_of};

use crate::encloser::{closest_encloser, wildcard_below};
use crate::listed_types::is_proved_by_owner;
use crate::nsec_records::{NsecFind, NsecRecords};
use dns_model::{Answered, Proof};
use dns_rdata::NsecRecord;
use dns_record::{Name, NameRef, Query, RecordType, ResponseCode};

/// What the NSEC records of a zone prove of a response to a query (RFC 4035, 5.3.4 and 5.4; RFC 4592; RFC 6840, 4).
///
/// With `No` and `Secure` the data isn't there, and with `NXDomain` the name isn't. With `Expanded` and `Secure` no closer
/// name is there than the wildcard that the answer was made from. Anything else is `Bogus`. The records are taken as true
/// records of that zone; whether they are is for the caller to know.
pub fn verify_nsec(
    query: &Query,
    zone: &Name,
    code: ResponseCode,
    answered: Answered,
    nsecs: &[NsecRecord],
) -> Proof
    ensures verdict { result ≡ nsec_verdict query.now zone.now code.0 answered nsecs.now }
    ensures denial { result ≡ Secure → answered ≡ No → IsDeniedIn query.now zone.now code.0 nsecs.now }
    ensures expansion { (labels : ℕ) → result ≡ Secure → answered ≡ Expanded labels
        → IsExpandedIn query.now zone.now labels nsecs.now }
{
    nsec_verdict(query, zone, code, answered, &nsecs, &mut ())
}

/// The verdict of `verify_nsec` on a list of records, or on what stands for one, as an index of it. The records are searched
/// at most twice.
pub fn nsec_verdict<R: NsecRecords>(
    query: &Query,
    zone: &Name,
    code: ResponseCode,
    answered: Answered,
    records: &R,
    notes: &mut R::Notes,
) -> Proof
    ensures verdict { result ≡ nsec_verdict query.now zone.now code.0 answered (R.records records.now) }
    ensures denial { result ≡ Secure → answered ≡ No → IsDeniedIn query.now zone.now code.0 (R.records records.now) }
    ensures expansion { (labels : ℕ) → result ≡ Secure → answered ≡ Expanded labels
        → IsExpandedIn query.now zone.now labels (R.records records.now) }
    ensures steps { R.steps notes.new ≤ R.steps notes.old + 2 * R.most_steps records.now }
{
    verdict_by_rows(query, zone, code, answered, records, notes)
}

// The verdict, row by row.
#[tactic(auto, unfolding(dns_rules::specs::NsecVerdict::nsec_verdict))]
fn verdict_by_rows<R: NsecRecords>(
    query: &Query,
    zone: &Name,
    code: ResponseCode,
    answered: Answered,
    records: &R,
    notes: &mut R::Notes,
) -> Proof
    ensures verdict { result ≡ nsec_verdict query.now zone.now code.0 answered (R.records records.now) }
    ensures steps { R.steps notes.new ≤ R.steps notes.old + 2 * R.most_steps records.now }
{
    if !code.can_deny() {
        return Proof::Bogus;
    }
    if !holds_query(zone, query) {
        return Proof::Bogus;
    }
    if answered == Answered::Plain {
        return Proof::Bogus;
    }
    secure_if(is_proved(query, code, answered, records, notes))
}

// `Secure` of what is proved, else `Bogus`.
pub(crate) fn secure_if(proved: bool) -> Proof
    ensures { result ≡ secure_if_in proved }
{
    if proved { Proof::Secure } else { Proof::Bogus }
}

// Whether the zone holds the query's name; DS records stand in the zone above the cut (RFC 4035, 2.4).
pub(crate) fn holds_query(zone: &Name, query: &Query) -> bool
    ensures { result ≡ holds_query_in zone.now query.now }
{
    if query.query_type == RecordType::DS {
        zone.borrowed().strictly_above(&query.name.borrowed())
    } else {
        zone.zone_of(&query.name)
    }
}

// Whether the records prove what such a response says: by the record at the name, or by the one that covers it.
fn is_proved<R: NsecRecords>(
    query: &Query,
    code: ResponseCode,
    answered: Answered,
    records: &R,
    notes: &mut R::Notes,
) -> bool
    ensures proved { result ≡ proved_at_name_in query.now code.0 answered (R.records records.now)
        (find (is_owned_by_in query.now.owner) (R.records records.now)) }
    ensures steps { R.steps notes.new ≤ R.steps notes.old + 2 * R.most_steps records.now }
{
    match records.of_name(&query.name.borrowed(), notes) {
        NsecFind::Owned(nsec) => is_proved_by_owner(
            &nsec.type_set(),
            query.query_type,
            code,
            answered,
        ),
        NsecFind::Covered(nsec) => is_proved_by(query, code, answered, records, nsec, notes),
        NsecFind::Nothing => false,
    }
}

// Whether the records prove what the response says of a name that this one covers.
fn is_proved_by<R: NsecRecords>(
    query: &Query,
    code: ResponseCode,
    answered: Answered,
    records: &R,
    nsec: &NsecRecord,
    notes: &mut R::Notes,
) -> bool
    requires { covering_in query.now.owner (R.records records.now) ≡ Some nsec.now }
    ensures proved { result ≡ proved_by_covering_in query.now code.0 answered (R.records records.now) (Some nsec.now) }
    ensures steps { R.steps notes.new ≤ R.steps notes.old + R.most_steps records.now }
{
    // `copy` tells that its labels are a name, as those of the wildcard then are
    let name = query.name.borrowed().copy();
    // an empty non-terminal (RFC 4592, 2.2.2)
    if name.strictly_above(&nsec.next.borrowed()) {
        return answered == Answered::No && code == ResponseCode::NO_ERROR;
    }
    let encloser = closest_encloser(&name, nsec);
    match answered {
        Answered::Expanded(labels) => {
            code == ResponseCode::NO_ERROR && encloser.label_count() == labels
        }
        Answered::Plain => false,
        Answered::No => is_wildcard_denied(&encloser, code, query.query_type, records, notes),
    }
}

// Whether no wildcard below the closest encloser answers: it doesn't exist, or it has no data of the type.
fn is_wildcard_denied<R: NsecRecords>(
    encloser: &NameRef<'_>,
    code: ResponseCode,
    record_type: RecordType,
    records: &R,
    notes: &mut R::Notes,
) -> bool
    requires { is_name (star encloser.now) ≡ true }
    ensures denied { result ≡ missing_name_in No code.0 record_type.0 encloser.now (R.records records.now) }
    ensures steps { R.steps notes.new ≤ R.steps notes.old + R.most_steps records.now }
{
    let bytes = wildcard_below(encloser);
    match NameRef::front(bytes.as_slice()) {
        Some((wildcard, _)) => denies_wildcard(&wildcard, code, record_type, records, notes),
        None => false,
    }
}

// Whether the records show that a wildcard doesn't exist, or with NoError that it has no data of the type.
fn denies_wildcard<R: NsecRecords>(
    wildcard: &NameRef<'_>,
    code: ResponseCode,
    record_type: RecordType,
    records: &R,
    notes: &mut R::Notes,
) -> bool
    ensures denied { result ≡ if code.0 == code_nx_domain then is_some (covering_in wildcard.now (R.records records.now))
        else wildcard_denies_in record_type.0 wildcard.now (R.records records.now) }
    ensures steps { R.steps notes.new ≤ R.steps notes.old + R.most_steps records.now }
{
    if code == ResponseCode::NX_DOMAIN {
        records.covering(wildcard, notes).is_some()
    } else {
        records.wildcard_denies(wildcard, record_type, notes)
    }
}

//! What NSEC3 records prove of a query that a response denies or answers from a wildcard (RFC 5155, 8).
ghost use Rattle.std.specs.Prelude.{◌≡◌, ℕ, ◌+◌, ◌*◌, ◌<◌, ◌≤◌, true, false, length, Some};
ghost use Rattle.std.specs.List.{find};
ghost use Rattle.dns_model.specs.Names.{last_labels};
ghost use Rattle.dns_model.specs.declared.answered.Answered.TheVariants.{No, Expanded};
ghost use Rattle.dns_model.specs.declared.proof.Proof.TheVariants.{Secure};
ghost use Rattle.dns_rules.specs.Nsec3Covering.{nsec3_matches as matches_in};
ghost use Rattle.dns_rules.specs.NsecVerdict.{is_plain};
ghost use Rattle.dns_rules.specs.Nsec3Verdict.{covering_name, hashed, name_error as name_error_in, no_closer_name as no_closer_name_in, no_data as no_data_in, next_closer, no_data_below as no_data_below_in, nsec3_verdict, parameters_of as parameters_of_in, provable_encloser as provable_encloser_in, unmatched_verdict as unmatched_verdict_in, verdict_at_name as verdict_at_name_in, verdict_by as verdict_by_in};
ghost use Rattle.dns_hashed_denial.specs.HashedDenial.{IsDeniedByHashes, IsExpandedByHashes};
ghost use Rattle.dns_denial.specs.Counts.{is_unhashed, most_hashes, steps_above};
ghost use Rattle.dns_denial.specs.Enclosers.{IsEncloserOf};

use crate::listed_types::is_proved_by_owner;
use crate::nsec3_encloser::{Encloser, provable_encloser};
use crate::nsec3_fields::is_opt_out;
use crate::nsec3_parameters::Nsec3Parameters;
use crate::nsec3_records::Nsec3Records;
use crate::verdict::{holds_query, secure_if};
use dns_model::{Answered, Proof};
use dns_rdata::Nsec3Record;
use dns_record::{Name, NameRef, Query, RecordType, ResponseCode};

/// What the NSEC3 records of a zone prove of a response to a query (RFC 5155, 8; RFC 6840, 4; RFC 9276, 3.2).
///
/// With `No` and `Secure` the data isn't there, or in an opt-out span no more than an unsigned delegation is; of a DS that an
/// opt-out span alone denies it is only said that there is none. With `NXDomain` the name isn't there. With `Expanded` and
/// `Secure` no closer name is there than the wildcard that the answer was made from, but for unsigned delegations in an opt-out
/// span and names above these alone. `Insecure` comes where the iterations are above `soft`, the count to which they are
/// judged, and where a name error rests on an opt-out span. Anything else is `Bogus`, as are iterations above `hard`. All this
/// holds of each zone in which the records are true and no two of the names concerned have one hash, for types that zones hold
/// as data.
pub fn verify_nsec3(
    query: &Query,
    zone: &Name,
    code: ResponseCode,
    answered: Answered,
    nsec3s: &[Nsec3Record],
    soft: u16,
    hard: u16,
) -> Proof
    ensures verdict { result ≡ nsec3_verdict query.now zone.now code.0 answered nsec3s.now soft hard }
    ensures denial { result ≡ Secure → answered ≡ No → IsDeniedByHashes query.now zone.now code.0 nsec3s.now }
    ensures expansion { (labels : ℕ) → result ≡ Secure → answered ≡ Expanded labels
        → IsExpandedByHashes query.now labels nsec3s.now }
{
    nsec3_verdict(query, zone, code, answered, &nsec3s, soft, hard, &mut ())
}

/// The verdict of `verify_nsec3` on a list of records, or on what stands for one, as an index of it. The records are searched
/// at most three times more than the query's name has labels. No name is hashed twice, and none where the iterations are above
/// a limit.
pub fn nsec3_verdict<R: Nsec3Records>(
    query: &Query,
    zone: &Name,
    code: ResponseCode,
    answered: Answered,
    records: &R,
    soft: u16,
    hard: u16,
    notes: &mut R::Notes,
) -> Proof
    ensures verdict { result ≡ nsec3_verdict query.now zone.now code.0 answered (R.records records.now) soft hard }
    ensures denial { result ≡ Secure → answered ≡ No → IsDeniedByHashes query.now zone.now code.0 (R.records records.now) }
    ensures expansion { (labels : ℕ) → result ≡ Secure → answered ≡ Expanded labels
        → IsExpandedByHashes query.now labels (R.records records.now) }
    ensures steps { R.steps notes.new ≤ R.steps notes.old + (length query.now.owner + 3) * R.most_steps records.now }
    ensures hashes { R.hashes notes.new ≤ R.hashes notes.old + most_hashes query.now.owner answered }
    ensures unhashed { is_unhashed soft hard (parameters_of_in (R.records records.now)) ≡ true → notes.new ≡ notes.old }
{
    verdict_by_rows(query, zone, code, answered, records, soft, hard, notes)
}

// The verdict, row by row.
#[tactic(auto, unfolding(dns_rules::specs::Nsec3Verdict::nsec3_verdict))]
fn verdict_by_rows<R: Nsec3Records>(
    query: &Query,
    zone: &Name,
    code: ResponseCode,
    answered: Answered,
    records: &R,
    soft: u16,
    hard: u16,
    notes: &mut R::Notes,
) -> Proof
    ensures verdict { result ≡ nsec3_verdict query.now zone.now code.0 answered (R.records records.now) soft hard }
    ensures steps { R.steps notes.new
        ≤ R.steps notes.old + (steps_above (R.most_steps records.now) query.now.owner + 3 * R.most_steps records.now) }
    ensures hashes { R.hashes notes.new ≤ R.hashes notes.old + most_hashes query.now.owner answered }
    ensures unhashed { is_unhashed soft hard (parameters_of_in (R.records records.now)) ≡ true → notes.new ≡ notes.old }
{
    if !holds_query(zone, query) {
        return Proof::Bogus;
    }
    if !records.are_of_zone(&zone.borrowed()) {
        return Proof::Bogus;
    }
    match records.parameters() {
        Some(by) => verdict_by(query, zone, code, answered, records, soft, hard, &by, notes),
        // no record that counts, or records that are hashed in several ways
        None => Proof::Bogus,
    }
}

// The verdict, by how the names of the zone are hashed.
fn verdict_by<R: Nsec3Records>(
    query: &Query,
    zone: &Name,
    code: ResponseCode,
    answered: Answered,
    records: &R,
    soft: u16,
    hard: u16,
    by: &Nsec3Parameters<'_>,
    notes: &mut R::Notes,
) -> Proof
    ensures verdict { result ≡ verdict_by_in query.now zone.now code.0 answered (R.records records.now) soft hard (Some by.now) }
    ensures steps { R.steps notes.new
        ≤ R.steps notes.old + (steps_above (R.most_steps records.now) query.now.owner + 3 * R.most_steps records.now) }
    ensures hashes { R.hashes notes.new ≤ R.hashes notes.old + most_hashes query.now.owner answered }
    ensures unhashed { is_unhashed soft hard (Some by.now) ≡ true → notes.new ≡ notes.old }
{
    if by.iterations > hard {
        return Proof::Bogus;
    }
    if by.iterations > soft {
        return Proof::Insecure;
    }
    if !code.can_deny() {
        return Proof::Bogus;
    }
    if answered == Answered::Plain {
        return Proof::Bogus;
    }
    // a name error has no answer
    if code == ResponseCode::NX_DOMAIN && answered != Answered::No {
        return Proof::Bogus;
    }
    verdict_at_name(query, zone, code, answered, records, by, notes)
}

// The verdict by the record at the name, or else by those around it.
fn verdict_at_name<R: Nsec3Records>(
    query: &Query,
    zone: &Name,
    code: ResponseCode,
    answered: Answered,
    records: &R,
    by: &Nsec3Parameters<'_>,
    notes: &mut R::Notes,
) -> Proof
    requires { is_plain answered ≡ false }
    ensures verdict { result ≡ verdict_at_name_in by.now query.now zone.now code.0 answered (R.records records.now)
        (find (matches_in (hashed by.now query.now.owner)) (R.records records.now)) }
    ensures steps { R.steps notes.new
        ≤ R.steps notes.old + (steps_above (R.most_steps records.now) query.now.owner + 3 * R.most_steps records.now) }
    ensures hashes { R.hashes notes.new ≤ R.hashes notes.old + most_hashes query.now.owner answered }
{
    let hash = records.hash(by, &query.name.borrowed(), notes);
    match records.matching(&hash, notes) {
        Some(nsec3) => secure_if(is_proved_by_owner(
            &nsec3.type_set(),
            query.query_type,
            code,
            answered,
        )),
        None => unmatched_verdict(query, zone, code, answered, records, by, &hash, notes),
    }
}

// The verdict where no record matches the name, which has this hash.
fn unmatched_verdict<R: Nsec3Records>(
    query: &Query,
    zone: &Name,
    code: ResponseCode,
    answered: Answered,
    records: &R,
    by: &Nsec3Parameters<'_>,
    hash: &[u8; 20],
    notes: &mut R::Notes,
) -> Proof
    requires hash { hash.now ≡ hashed by.now query.now.owner }
    requires answered { is_plain answered ≡ false }
    ensures verdict { result ≡ unmatched_verdict_in by.now query.now zone.now code.0 answered (R.records records.now) }
    ensures steps { R.steps notes.new
        ≤ R.steps notes.old + (steps_above (R.most_steps records.now) query.now.owner + 2 * R.most_steps records.now) }
    ensures hashes { R.hashes notes.new + 1 ≤ R.hashes notes.old + most_hashes query.now.owner answered }
{
    let name = query.name.borrowed();
    match answered {
        Answered::Expanded(labels) => secure_if(no_closer_name(
            by, zone, records, &name, labels, hash, notes,
        )),
        Answered::Plain => Proof::Bogus,
        Answered::No => {
            if code == ResponseCode::NX_DOMAIN {
                name_error(by, zone, records, &name, hash, notes)
            } else {
                secure_if(no_data(by, zone, records, query, hash, notes))
            }
        }
    }
}

// A name error: neither the next closer name nor the wildcard is there (RFC 5155, 8.4).
fn name_error<R: Nsec3Records>(
    by: &Nsec3Parameters<'_>,
    zone: &Name,
    records: &R,
    name: &NameRef<'_>,
    hash: &[u8; 20],
    notes: &mut R::Notes,
) -> Proof
    requires { hash.now ≡ hashed by.now name.now }
    ensures verdict { result ≡ name_error_in by.now (R.records records.now) name.now
        (provable_encloser_in by.now zone.now (R.records records.now) name.now) }
    ensures steps { R.steps notes.new
        ≤ R.steps notes.old + (steps_above (R.most_steps records.now) name.now + 2 * R.most_steps records.now) }
    ensures hashes { R.hashes notes.new ≤ R.hashes notes.old + (length name.now + 1) }
{
    match provable_encloser(by, &zone.borrowed(), records, name, hash, notes) {
        Some(encloser) => name_error_below(by, records, name, &encloser, notes),
        None => Proof::Bogus,
    }
}

// The same by the closest encloser.
fn name_error_below<R: Nsec3Records>(
    by: &Nsec3Parameters<'_>,
    records: &R,
    name: &NameRef<'_>,
    encloser: &Encloser<'_>,
    notes: &mut R::Notes,
) -> Proof
    requires { IsEncloserOf by.now name.now encloser.now }
    ensures verdict { result ≡ name_error_in by.now (R.records records.now) name.now (Some encloser.now.name) }
    ensures steps { R.steps notes.new ≤ R.steps notes.old + 2 * R.most_steps records.now }
    ensures hashes { R.hashes notes.new ≤ R.hashes notes.old + 1 }
{
    let Some(closer) = records.covering(&encloser.hash, notes) else {
        return Proof::Bogus;
    };
    let wildcard_hash = encloser.wildcard_hash(by, records, notes);
    let Some(wildcard) = records.covering(&wildcard_hash, notes) else {
        return Proof::Bogus;
    };
    // an unsigned delegation may be there (RFC 5155, 6)
    if is_opt_out(closer) || is_opt_out(wildcard) {
        Proof::Insecure
    } else {
        Proof::Secure
    }
}

// An answer from the wildcard below a name's last labels, this many: no closer name is there (RFC 5155, 8.8).
fn no_closer_name<R: Nsec3Records>(
    by: &Nsec3Parameters<'_>,
    zone: &Name,
    records: &R,
    name: &NameRef<'_>,
    labels: u8,
    hash: &[u8; 20],
    notes: &mut R::Notes,
) -> bool
    requires { hash.now ≡ hashed by.now name.now }
    ensures shown { result ≡ no_closer_name_in by.now zone.now (R.records records.now) name.now labels }
    ensures steps { R.steps notes.new ≤ R.steps notes.old + R.most_steps records.now }
    ensures hashes { R.hashes notes.new ≤ R.hashes notes.old + 1 }
{
    if labels < zone.label_count() || name.label_count() <= labels {
        return false;
    }
    let closer = closer_hash(by, records, name, labels, hash, notes);
    records.covering(&closer, notes).is_some()
}

// The hash of what a name's last labels make, one more than these; the name itself was hashed before.
fn closer_hash<R: Nsec3Records>(
    by: &Nsec3Parameters<'_>,
    records: &R,
    name: &NameRef<'_>,
    labels: u8,
    hash: &[u8; 20],
    notes: &mut R::Notes,
) -> [u8; 20]
    requires fewer { labels < length name.now }
    requires hash { hash.now ≡ hashed by.now name.now }
    ensures hash { result ≡ hashed by.now (last_labels (labels + 1) name.now) }
    ensures steps { R.steps notes.new ≡ R.steps notes.old }
    ensures hashes { R.hashes notes.new ≤ R.hashes notes.old + 1 }
{
    let count = name.label_count();
    let closer = labels + 1;
    if closer == count {
        *hash
    } else {
        records.hash(by, &name.last_labels(closer), notes)
    }
}

// No data of the type at a name that has no record of its own: in an opt-out span, or at the wildcard (RFC 5155, 8.6 and 8.7).
fn no_data<R: Nsec3Records>(
    by: &Nsec3Parameters<'_>,
    zone: &Name,
    records: &R,
    query: &Query,
    hash: &[u8; 20],
    notes: &mut R::Notes,
) -> bool
    requires { hash.now ≡ hashed by.now query.now.owner }
    ensures shown { result ≡ no_data_in by.now query.now (R.records records.now)
        (provable_encloser_in by.now zone.now (R.records records.now) query.now.owner) }
    ensures steps { R.steps notes.new
        ≤ R.steps notes.old + (steps_above (R.most_steps records.now) query.now.owner + 2 * R.most_steps records.now) }
    ensures hashes { R.hashes notes.new ≤ R.hashes notes.old + (length query.now.owner + 1) }
{
    let name = query.name.borrowed();
    match provable_encloser(by, &zone.borrowed(), records, &name, hash, notes) {
        Some(encloser) => no_data_below(by, records, &name, query.query_type, &encloser, notes),
        None => false,
    }
}

// The same by the closest encloser.
fn no_data_below<R: Nsec3Records>(
    by: &Nsec3Parameters<'_>,
    records: &R,
    name: &NameRef<'_>,
    record_type: RecordType,
    encloser: &Encloser<'_>,
    notes: &mut R::Notes,
) -> bool
    requires { IsEncloserOf by.now name.now encloser.now }
    ensures shown { result ≡ no_data_below_in by.now record_type.0 (R.records records.now) encloser.now.name
        (covering_name by.now (R.records records.now) (next_closer encloser.now.name name.now)) }
    ensures steps { R.steps notes.new ≤ R.steps notes.old + 2 * R.most_steps records.now }
    ensures hashes { R.hashes notes.new ≤ R.hashes notes.old + 1 }
{
    let Some(closer) = records.covering(&encloser.hash, notes) else {
        return false;
    };
    if record_type == RecordType::DS && is_opt_out(closer) {
        return true;
    }
    let wildcard = encloser.wildcard_hash(by, records, notes);
    records.wildcard_denies(&wildcard, record_type, notes)
}

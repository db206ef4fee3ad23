//! The DS verdict of a zone, by the answer to the ask for its DS set (RFC 4035, 5.2; RFC 5155, 8.9).

ghost use Rattle.std.specs.Prelude.{◌≡◌, ◌&&◌, ◌||◌, false, not, IfOk, Some};
ghost use Rattle.std.specs.List.{filter, list_all, list_any};
ghost use Rattle.dns_model.specs.Types.{type_ds, type_nsec};
ghost use Rattle.dns_model.specs.SoundAnswers.{is_secure};
ghost use Rattle.dns_handle.specs.ErrorKinds.{is_no_memory};
ghost use Rattle.dns_handle.specs.Replies.{error_of};
ghost use Rattle.dns_handle.specs.Responses.{all_records};
ghost use Rattle.dns_rules.specs.ProofErrors as cause;
ghost use Rattle.dns_rules.specs.Delegations as delegations;
ghost use Rattle.dns_rules.specs.Delegations.{ds_question as ds_question_of};
ghost use Rattle.dns_marks.specs.ZoneVerdicts.{zone_verdict_value, answer_verdict, in_class, by_message, by_ds as by_ds_set, by_supported, without_ds as without_ds_set, has_ds_set as has_set_in, are_secure_in_set, authority_shows_no_ds as shows_none, hashes_show_no_ds as shows_none_by_hash, is_insecure_record_above as is_above, shown_by, is_record_of};

use crate::hashed::hashes_show_no_ds;
use dns_cache::ProofErrorKind;
use dns_evidence::Verifier;
use dns_handle::{DnsResponse, NetError};
use dns_message::Message;
use dns_model::Proof;
use dns_rdata::Ds;
use dns_record::{DNSClass, Name, NoMemory, Record, RecordType, clone_records};
use dns_trust::{ds_query, is_supported_ds, shows_unsigned_cut};
use std::alloc::Global;

/// What a lookup answers.
pub type DnsAnswer = Result<DnsResponse, NetError>;

/// What the DS set of a zone says of it (RFC 4035, 5.2).
pub enum ZoneVerdict {
    /// The zone is signed, and by these DS records its keys are known.
    Signed(Vec<Record>),
    /// No more than Insecure can be expected.
    Insecure(ProofErrorKind),
    /// Neither is shown.
    Bogus(ProofErrorKind),
}

// By hand, so that a function that lets one go calls this.
impl Drop for ZoneVerdict {
    fn drop(self) {
        match self {
            ZoneVerdict::Signed(_) => {}
            ZoneVerdict::Insecure(_) => {}
            ZoneVerdict::Bogus(_) => {}
        }
    }
}

impl ZoneVerdict {
    /// An equal verdict in memory of its own.
    pub fn try_clone(&self) -> Result<ZoneVerdict, NoMemory>
        ensures { IfOk result (λ v. zone_verdict_value v ≡ zone_verdict_value self.now) }
    {
        match self {
            ZoneVerdict::Signed(ds) => Ok(ZoneVerdict::Signed(clone_records(ds)?)),
            ZoneVerdict::Insecure(kind) => Ok(ZoneVerdict::Insecure(kind.try_clone()?)),
            ZoneVerdict::Bogus(kind) => Ok(ZoneVerdict::Bogus(kind.try_clone()?)),
        }
    }
}

/// The DS verdict of a zone, by the answer to the ask for its DS set (RFC 4035, 5.2; RFC 5155, 8.9). Records of another class
/// say nothing of it. A set counts as Secure where all its records are; one record of any section that is Insecure, at the
/// zone or above it, is enough where there is no DS set. An ask that ran out of memory is out of memory here too; any other error
/// is a failed ask.
#[tactic(auto, unfolding(dns_rules::specs::Delegations::zone_verdict))]
pub fn ds_verdict<V: Verifier>(
    alloc: Global,
    verifier: &V,
    zone: &Name,
    class: DNSClass,
    answer: &DnsAnswer,
) -> Result<ZoneVerdict, NoMemory>
    ensures { IfOk result
        (λ v. answer_verdict (V.answers verifier.now) class.0 zone.now answer.now ≡ Some (zone_verdict_value v)) }
{
    match answer {
        Ok(response) => verdict_by(alloc, verifier, zone, class, &response.message),
        Err(error) => unanswered(zone, class, error),
    }
}

// The ask failed.
fn unanswered(zone: &Name, class: DNSClass, error: &NetError) -> Result<ZoneVerdict, NoMemory>
    ensures wanting { IfOk result (λ v. is_no_memory (error_of error.now) ≡ false) }
    ensures verdict { IfOk result
        (λ v. zone_verdict_value v ≡ delegations.Bogus (cause.Net (ds_question_of class.0 zone.now))) }
{
    if error.is_no_memory() {
        return Err(NoMemory);
    }
    let query = ds_query(zone.try_clone()?, class);
    Ok(ZoneVerdict::Bogus(ProofErrorKind::Net { query }))
}

// The verdict by the records of a message.
#[tactic(auto, using(crate::proofs::ClassLemmas::zone_verdict_in))]
fn verdict_by<V: Verifier>(
    alloc: Global,
    verifier: &V,
    zone: &Name,
    class: DNSClass,
    message: &Message,
) -> Result<ZoneVerdict, NoMemory>
    ensures { IfOk result (λ v. zone_verdict_value v ≡
        delegations.zone_verdict (V.answers verifier.now) class.0 zone.now (Some (shown_by (in_class class.0 message.now)))) }
{
    if has_ds_set(zone, class, &message.answers) {
        by_ds(alloc, verifier, zone, class, &message.answers)
    } else {
        without_ds(alloc, zone, class, message)
    }
}

// The verdict by the DS set of the answer section.
fn by_ds<V: Verifier>(
    alloc: Global,
    verifier: &V,
    zone: &Name,
    class: DNSClass,
    answers: &[Record],
) -> Result<ZoneVerdict, NoMemory>
    ensures { IfOk result
        (λ v. zone_verdict_value v ≡ by_ds_set (V.answers verifier.now) class.0 zone.now answers.now) }
{
    if !are_secure(zone, class, RecordType::DS, answers) {
        return unshown(zone);
    }
    let ds = supported(alloc, verifier, zone, class, answers)?;
    verdict_of(zone, has_readable_ds(zone, class, answers), ds)
}

// A Secure DS set has these supported records, and one that can be read.
fn verdict_of(zone: &Name, is_readable: bool, ds: Vec<Record>) -> Result<ZoneVerdict, NoMemory>
    ensures { IfOk result (λ v. zone_verdict_value v ≡ by_supported zone.now is_readable ds.items) }
{
    if !ds.is_empty() {
        return Ok(ZoneVerdict::Signed(ds));
    }
    if is_readable {
        return Ok(ZoneVerdict::Insecure(ProofErrorKind::UnknownKeyAlgorithm));
    }
    unshown(zone)
}

// Neither a DS set nor its absence is shown.
fn unshown(zone: &Name) -> Result<ZoneVerdict, NoMemory>
    ensures { IfOk result (λ v. zone_verdict_value v ≡ delegations.Bogus (cause.DsRecordShouldExist zone.now)) }
{
    let name = zone.try_clone()?;
    Ok(ZoneVerdict::Bogus(ProofErrorKind::DsRecordShouldExist { name }))
}

// The verdict where the answer section has no DS set of the zone.
fn without_ds(
    alloc: Global,
    zone: &Name,
    class: DNSClass,
    message: &Message,
) -> Result<ZoneVerdict, NoMemory>
    ensures { IfOk result (λ v. zone_verdict_value v ≡ without_ds_set class.0 zone.now message.now) }
{
    if !is_insecure(alloc, zone, class, message)? {
        return unshown(zone);
    }
    let name = zone.try_clone()?;
    Ok(ZoneVerdict::Insecure(ProofErrorKind::DsResponseInsecure { name }))
}

// The delegation is shown to have no DS, or a record of the zone or above it is Insecure. Hashes are dear, so they come last.
#[tactic(auto, using(crate::proofs::HashedLemmas::first_decides, crate::proofs::HashedLemmas::last_decides))]
fn is_insecure(
    alloc: Global,
    zone: &Name,
    class: DNSClass,
    message: &Message,
) -> Result<bool, NoMemory>
    ensures { IfOk result (λ b. b ≡ (shows_none class.0 zone.now message.now.authorities
        || (shows_none_by_hash class.0 zone.now message.now.authorities
        || list_any (is_above class.0 zone.now) (all_records message.now)))) }
{
    if is_insecure_unhashed(zone, class, message) {
        return Ok(true);
    }
    hashes_show_no_ds(alloc, zone, class, &message.authorities)
}

// No hash is needed to see it.
fn is_insecure_unhashed(zone: &Name, class: DNSClass, message: &Message) -> bool
    ensures { result ≡ (shows_none class.0 zone.now message.now.authorities
        || list_any (is_above class.0 zone.now) (all_records message.now)) }
{
    shows_no_ds(zone, class, &message.authorities) || has_insecure(zone, class, message)
}

// A Secure NSEC set of the zone shows that its delegation has no DS.
fn shows_no_ds(zone: &Name, class: DNSClass, authorities: &[Record]) -> bool
    ensures { result ≡ shows_none class.0 zone.now authorities.now }
{
    are_secure(zone, class, RecordType::NSEC, authorities)
        && has_unsigned_cut(zone, class, authorities)
}

// Some NSEC of the zone shows a delegation to an unsigned zone.
fn has_unsigned_cut(zone: &Name, class: DNSClass, authorities: &[Record]) -> bool
    ensures { result ≡ list_any
        (λ r. is_record_of class.0 zone.now type_nsec r && delegations.shows_unsigned_cut r) authorities.now }
{
    for next in authorities {
        if is_of(zone, class, RecordType::NSEC, next) && shows_unsigned_cut(next) {
            return true;
        }
    }
    false
}

// A record of some section is Insecure, at the zone or above it.
fn has_insecure(zone: &Name, class: DNSClass, message: &Message) -> bool
    ensures { result ≡ list_any (is_above class.0 zone.now) (all_records message.now) }
{
    has_insecure_in(zone, class, &message.answers)
        || has_insecure_in(zone, class, &message.authorities)
        || has_insecure_in(zone, class, &message.additionals)
}

// One of these records is Insecure, at the zone or above it.
fn has_insecure_in(zone: &Name, class: DNSClass, records: &[Record]) -> bool
    ensures { result ≡ list_any (is_above class.0 zone.now) records.now }
{
    for next in records {
        if is_insecure_above(zone, class, next) {
            return true;
        }
    }
    false
}

// The record is Insecure, at the zone or above it.
fn is_insecure_above(zone: &Name, class: DNSClass, next: &Record) -> bool
    ensures { result ≡ is_above class.0 zone.now next.now }
{
    class == next.dns_class && (next.proof == Proof::Insecure && next.name.zone_of(zone))
}

// There is a DS of the zone.
fn has_ds_set(zone: &Name, class: DNSClass, answers: &[Record]) -> bool
    ensures { result ≡ has_set_in class.0 zone.now answers.now }
{
    for next in answers {
        if is_of(zone, class, RecordType::DS, next) {
            return true;
        }
    }
    false
}

// All records of a set are Secure.
fn are_secure(name: &Name, class: DNSClass, record_type: RecordType, records: &[Record]) -> bool
    ensures { result ≡ are_secure_in_set class.0 name.now record_type.0 records.now }
{
    for next in records {
        if is_of(name, class, record_type, next) && next.proof != Proof::Secure {
            return false;
        }
    }
    true
}

// The record is one of the set of a name, a class and a type.
fn is_of(name: &Name, class: DNSClass, record_type: RecordType, next: &Record) -> bool
    ensures { result ≡ is_record_of class.0 name.now record_type.0 next.now }
{
    class == next.dns_class && (*name == next.name && next.record_type == record_type)
}

// A DS of the zone can be read.
fn has_readable_ds(zone: &Name, class: DNSClass, answers: &[Record]) -> bool
    ensures { result
        ≡ list_any (λ r. is_record_of class.0 zone.now type_ds r && delegations.is_readable_ds r) answers.now }
{
    for next in answers {
        if is_of(zone, class, RecordType::DS, next) && Ds::of(next).is_some() {
            return true;
        }
    }
    false
}

// The supported DS records of the zone.
fn supported<V: Verifier>(
    alloc: Global,
    verifier: &V,
    zone: &Name,
    class: DNSClass,
    answers: &[Record],
) -> Result<Vec<Record>, NoMemory>
    ensures { IfOk result (λ v. v.items ≡ filter (λ r. is_record_of class.0 zone.now type_ds r
        && delegations.is_supported_ds (V.answers verifier.now) r) answers.now) }
{
    let mut supported = Vec::new(alloc);
    for next in answers {
        if is_supported_of(verifier, zone, class, next) {
            supported.push(next.try_clone()?)?;
        }
    }
    Ok(supported)
}

// The record is a supported one of the zone's DS set.
fn is_supported_of<V: Verifier>(verifier: &V, zone: &Name, class: DNSClass, next: &Record) -> bool
    ensures { result ≡ (is_record_of class.0 zone.now type_ds next.now
        && delegations.is_supported_ds (V.answers verifier.now) next.now) }
{
    is_of(zone, class, RecordType::DS, next) && is_supported_ds(verifier, next)
}

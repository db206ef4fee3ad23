//! What is said of a signature that doesn't prove its set (RFC 4035, 5.3.1; RFC 4034, 3.1.5).
ghost use Rattle.std.specs.Prelude.{◌≡◌, ◌++◌, OnOk};
ghost use Rattle.std.specs.List.{find};
ghost use Rattle.std.specs.Option.{option_copied};
ghost use Rattle.dns_query_answer.specs.PlaceValues.{place_of};
ghost use Rattle.dns_query_answer.specs.SignatureWords.{covers_set, covers_timely, named_record as record_named, key_words, named_signature as signature_named, signature_words, signer_words, untimely_signature as untimely, validity_words};

use crate::places::{Place, records_beside};
use crate::words::{push_name_ref, push_span};
use dns_evidence::JudgedSet;
use dns_rdata::{Rrsig, SerialNumber};
use dns_record::{NoMemory, Record};
use dns_text::{push_decimal, push_text};
use dns_trust::is_timely;

// Whether a record is a signature of a set.
fn covers(set: &JudgedSet, one: &Record) -> bool
    ensures { result ≡ covers_set set.now one.now }
{
    if set.owner != one.name {
        return false;
    }
    match Rrsig::of(one) {
        Some(read) => read.type_covered == set.record_type,
        None => false,
    }
}

// Whether a record is a signature of a set, at whose time a moment lies.
fn covers_timely(moment: u64, set: &JudgedSet, one: &Record) -> bool
    ensures { result ≡ covers_timely moment set.now one.now }
{
    if !covers(set, one) {
        return false;
    }
    match Rrsig::of(one) {
        Some(read) => is_timely(&read, moment),
        None => false,
    }
}

// The first signature of a set, at whose time a moment lies.
fn first_timely<'a>(moment: u64, set: &JudgedSet, records: &'a [Record]) -> Option<&'a Record>
    ensures { option_copied result ≡ find (covers_timely moment set.now) records.now }
{
    records.iter().find(|one| covers_timely(moment, set, one))
}

// The first signature of a set.
fn first_covering<'a>(set: &JudgedSet, records: &'a [Record]) -> Option<&'a Record>
    ensures { option_copied result ≡ find (covers_set set.now) records.now }
{
    records.iter().find(|one| covers(set, one))
}

// The record of the signature that is named.
fn named_record<'a>(moment: u64, set: &JudgedSet, records: &'a [Record]) -> Option<&'a Record>
    ensures { option_copied result ≡ record_named moment set.now records.now (find (covers_timely moment set.now) records.now) }
{
    match first_timely(moment, set, records) {
        Some(one) => Some(one),
        None => first_covering(set, records),
    }
}

/// The signature of a set that is named: the first of its time, or the first.
#[tactic(auto, unfolding(crate::specs::SignatureWords::named_signature))]
pub(crate) fn named_signature<'a>(moment: u64, place: &Place<'a>) -> Option<Rrsig<'a>>
    ensures { result ≡ signature_named moment (place_of place.now) }
{
    let one = named_record(moment, place.set, records_beside(place))?;
    Rrsig::of(one)
}

/// The signature that is named, where none of the set is of its time.
pub(crate) fn untimely_signature<'a>(moment: u64, place: &Place<'a>) -> Option<Rrsig<'a>>
    ensures { result ≡ untimely moment (place_of place.now) }
{
    let read = named_signature(moment, place)?;
    if is_timely(&read, moment) {
        None
    } else {
        Some(read)
    }
}

// Appends that a signature ended, begins later, or isn't accepted.
#[tactic(auto, unfolding(crate::specs::SignatureWords::validity_words))]
fn push_validity(into: &mut Vec<u8>, moment: u64, read: &Rrsig<'_>) -> Result<(), NoMemory>
    ensures { OnOk result (into.new.items ≡ into.old.items ++ validity_words moment read.now) }
{
    let now = SerialNumber::of_moment(moment);
    if !now.at_or_before(read.expiration) {
        push_text(into, b" ended ")?;
        push_span(into, read.expiration.distance_to(now))?;
        return push_text(into, b" ago");
    }
    if !read.inception.at_or_before(now) {
        push_text(into, b" begins in ")?;
        return push_span(into, now.distance_to(read.inception));
    }
    push_text(into, b" isn't accepted")
}

// Appends whose signature it is.
fn push_signer(into: &mut Vec<u8>, read: &Rrsig<'_>) -> Result<(), NoMemory>
    ensures { OnOk result (into.new.items ≡ into.old.items ++ signer_words read.now) }
{
    push_text(into, b"the signature of ")?;
    push_name_ref(into, &read.signer)
}

// Appends by which key it is.
fn push_key(into: &mut Vec<u8>, read: &Rrsig<'_>) -> Result<(), NoMemory>
    ensures { OnOk result (into.new.items ≡ into.old.items ++ key_words read.now) }
{
    push_text(into, b" (key ")?;
    push_decimal(into, u64::from(read.key_tag))?;
    push_text(into, b")")
}

/// Appends what is said of a signature.
#[tactic(auto, unfolding(crate::specs::SignatureWords::signature_words))]
pub(crate) fn push_signature(
    into: &mut Vec<u8>,
    moment: u64,
    read: &Rrsig<'_>,
) -> Result<(), NoMemory>
    ensures { OnOk result (into.new.items ≡ into.old.items ++ signature_words moment read.now) }
{
    push_signer(into, read)?;
    push_key(into, read)?;
    push_validity(into, moment, read)
}

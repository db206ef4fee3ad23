//! A DS record that names a key of its zone and has another digest (RFC 4034, 5.1; RFC 4035, 5.2).
ghost use Rattle.std.specs.Prelude.{◌≡◌, ◌++◌, OnOk};
ghost use Rattle.std.specs.List.{find, list_any};
ghost use Rattle.std.specs.Option.{option_copied};
ghost use Rattle.dns_query_answer.specs.DigestWords.{blamed_ds as ds_blamed, digest_words, ds_records as records_of, ds_key_words, ds_words, has_digest as is_digest_of, has_tag as is_tagged, is_of_another_digest as is_astray, names_key as is_named, tells_another_digest as tells_astray};
ghost use Rattle.dns_query_answer.specs.PlaceValues.{explained_by, place_of};

use crate::following::blamed_ask;
use crate::places::{Context, Place, records_beside, section_of};
use crate::words::push_numbered;
use dns_model::{AskRef, Section};
use dns_rdata::{DigestType, Dnskey, Ds, key_tag};
use dns_record::{Name, NoMemory, Record};
use dns_text::push_text;

// Whether the rdata of a key has this tag.
fn has_tag(rdata: &[u8], tag: u16) -> bool
    ensures { result ≡ is_tagged tag rdata.now }
{
    match key_tag(rdata) {
        Some(found) => found == tag,
        None => false,
    }
}

// Whether a record is a key of an owner that a DS record names.
fn names_key(owner: &Name, ds: &Ds<'_>, one: &Record) -> bool
    ensures { result ≡ is_named owner.now ds.now one.now }
{
    if *owner != one.name {
        return false;
    }
    match Dnskey::of(one) {
        Some(key) => key.algorithm == ds.algorithm && has_tag(one.rdata.as_slice(), ds.key_tag),
        None => false,
    }
}

// The same, and the DS record has its digest.
fn has_digest(owner: &Name, ds: &Ds<'_>, one: &Record) -> bool
    ensures { result ≡ is_digest_of owner.now ds.now one.now }
{
    names_key(owner, ds, one) && ds.covers(owner, one.rdata.as_slice())
}

// Whether a DS record names a key among some records.
fn names_any(owner: &Name, ds: &Ds<'_>, keys: &[Record]) -> bool
    ensures { result ≡ list_any (is_named owner.now ds.now) keys.now }
{
    keys.iter().any(|one| names_key(owner, ds, one))
}

// Whether it has the digest of one that it names.
fn has_any_digest(owner: &Name, ds: &Ds<'_>, keys: &[Record]) -> bool
    ensures { result ≡ list_any (is_digest_of owner.now ds.now) keys.now }
{
    keys.iter().any(|one| has_digest(owner, ds, one))
}

// Whether a DS record names a key, and has the digest of none that it names.
fn is_of_another_digest(owner: &Name, keys: &[Record], ds: &Ds<'_>) -> bool
    ensures { result ≡ is_astray owner.now keys.now ds.now }
{
    DigestType::of(ds.digest_type).is_some()
        && names_any(owner, ds, keys)
        && !has_any_digest(owner, ds, keys)
}

// Whether a record is such a DS record.
fn tells_another_digest(owner: &Name, keys: &[Record], one: &Record) -> bool
    ensures { result ≡ tells_astray owner.now keys.now one.now }
{
    match Ds::of(one) {
        Some(ds) => is_of_another_digest(owner, keys, &ds),
        None => false,
    }
}

// The first such DS record among some.
fn first_astray<'a>(owner: &Name, keys: &[Record], records: &'a [Record]) -> Option<&'a Record>
    ensures { option_copied result ≡ find (tells_astray owner.now keys.now) records.now }
{
    records
        .iter()
        .find(|one| tells_another_digest(owner, keys, one))
}

// The records that an ask was answered with.
fn ds_records<'a>(context: &Context<'a>, made: Option<AskRef>) -> &'a [Record]
    ensures { result.now ≡ records_of (explained_by context.now) made }
{
    let Some(AskRef::Step(number)) = made else {
        return &[];
    };
    match context.steps.get(number as usize) {
        Some(step) => section_of(&step.reply, Section::Answer),
        None => &[],
    }
}

// The DS record that is to blame for a key set.
fn blamed_ds<'a>(context: &Context<'a>, place: &Place<'a>) -> Option<Ds<'a>>
    ensures { result ≡ ds_blamed (explained_by context.now) (place_of place.now) }
{
    let set = place.set;
    let records = ds_records(context, blamed_ask(context.steps, &set.asked));
    let one = first_astray(&set.owner, records_beside(place), records)?;
    Ds::of(one)
}

// Appends which key a DS record names.
#[tactic(auto, unfolding(crate::specs::DigestWords::ds_key_words))]
fn push_ds_key(into: &mut Vec<u8>, ds: &Ds<'_>) -> Result<(), NoMemory>
    ensures { OnOk result (into.new.items ≡ into.old.items ++ ds_key_words ds.now) }
{
    push_numbered(into, b": the DS record of key ", ds.key_tag)
}

// Appends what is said of a DS record.
#[tactic(auto, unfolding(crate::specs::DigestWords::ds_words))]
fn push_ds(into: &mut Vec<u8>, ds: &Ds<'_>) -> Result<(), NoMemory>
    ensures { OnOk result (into.new.items ≡ into.old.items ++ ds_words ds.now) }
{
    push_ds_key(into, ds)?;
    push_text(into, b" has another digest")
}

/// Appends which DS record of another digest is to blame for a key set, if one is.
pub(crate) fn push_digest<'a>(
    into: &mut Vec<u8>,
    context: &Context<'a>,
    place: &Place<'a>,
) -> Result<(), NoMemory>
    ensures { OnOk result (into.new.items ≡ into.old.items
        ++ digest_words (explained_by context.now) (place_of place.now)) }
{
    match blamed_ds(context, place) {
        Some(ds) => push_ds(into, &ds),
        None => Ok(()),
    }
}

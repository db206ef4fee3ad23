//! Why a set isn't Secure, as words, down to the set or the query whose fault is its own (RFC 4035, 4.3, 5.2 and 5.3).
ghost use Rattle.std.specs.Prelude.{◌≡◌, ◌++◌, codes, OnOk};
ghost use Rattle.std.specs.Option.{option_map};
ghost use Rattle.dns_query_answer.specs.PlaceValues.{explained_by, place_of};
ghost use Rattle.dns_query_answer.specs.Reasons.{deeper_words, ended_signature as signature_ended, last_words, next_words, origin_words, reason_words};
ghost use Rattle.dns_query_answer.specs.SignatureWords.{signature_words};

use crate::cause_words::{is_unmatched, is_unverified, push_cause, tries};
use crate::digests::push_digest;
use crate::following::{ask_to_follow, blamed_place, push_ask_fault};
use crate::places::{Context, Place, origin_place};
use crate::signatures::{named_signature, push_signature, untimely_signature};
use crate::words::{push_set, title};
use dns_evidence::Asked;
use dns_rdata::Rrsig;
use dns_record::NoMemory;
use dns_text::push_text;

// The signature that isn't of its time, where signatures were tried.
fn ended_signature<'a>(moment: u64, place: &Place<'a>) -> Option<Rrsig<'a>>
    ensures { result ≡ signature_ended moment (place_of place.now) }
{
    if tries(place.cause) {
        untimely_signature(moment, place)
    } else {
        None
    }
}

/// Appends the set that comes next, and its mark.
pub(crate) fn push_next(into: &mut Vec<u8>, place: &Place<'_>) -> Result<(), NoMemory>
    ensures { OnOk result (into.new.items ≡ into.old.items ++ next_words (place_of place.now)) }
{
    let set = place.set;
    push_text(into, b": ")?;
    push_set(into, &set.owner, set.record_type)?;
    push_text(into, b" is ")?;
    push_text(into, title(set.mark))?;
    push_text(into, b": ")
}

// Appends what is said of a signature, behind a colon.
fn push_fault(into: &mut Vec<u8>, moment: u64, read: &Rrsig<'_>) -> Result<(), NoMemory>
    ensures { OnOk result (into.new.items ≡ into.old.items ++ (codes ": " ++ signature_words moment read.now)) }
{
    push_text(into, b": ")?;
    push_signature(into, moment, read)
}

// Appends what is said of a set's signature, or of a DS record, where nothing else is to blame.
fn push_last<'a>(
    into: &mut Vec<u8>,
    context: &Context<'a>,
    place: &Place<'a>,
) -> Result<(), NoMemory>
    ensures { OnOk result (into.new.items ≡ into.old.items
        ++ last_words (explained_by context.now) (place_of place.now)) }
{
    if is_unmatched(place.cause) {
        return push_digest(into, context, place);
    }
    if !is_unverified(place.cause) {
        return Ok(());
    }
    match named_signature(context.moment, place) {
        Some(read) => push_fault(into, context.moment, &read),
        None => Ok(()),
    }
}

// Appends what comes next, and why; or what is said of a set's signature.
#[cycle(reason)]
fn push_deeper<'a>(
    into: &mut Vec<u8>,
    context: &Context<'a>,
    left: &[Asked],
    place: &Place<'a>,
    next: Option<Place<'a>>,
) -> Result<(), NoMemory>
    ensures { OnOk result (into.new.items ≡ into.old.items ++ deeper_words (explained_by context.now) (place_of place.now)
        (reason_words left.now (explained_by context.now)) (option_map place_of next.entry)) }
{
    match next {
        Some(next) => {
            push_next(into, &next)?;
            push_reason(into, context, left, &next)
        }
        None => push_last(into, context, place),
    }
}

// Appends what the cause of a set stands on.
#[cycle(reason)]
fn push_ground<'a>(
    into: &mut Vec<u8>,
    context: &Context<'a>,
    left: &[Asked],
    place: &Place<'a>,
) -> Result<(), NoMemory>
    ensures { OnOk result (into.new.items ≡ into.old.items ++ origin_words (explained_by context.now) (place_of place.now)
        (reason_words left.now (explained_by context.now))) }
{
    match ended_signature(context.moment, place) {
        Some(read) => push_fault(into, context.moment, &read),
        None => {
            let made = ask_to_follow(context, place);
            push_ask_fault(into, context.steps, made)?;
            push_deeper(into, context, left, place, blamed_place(context, made))
        }
    }
}

/// Appends why a set isn't Secure, at most so many sets deep as these steps are many.
#[cycle(reason)]
#[tactic(auto, unfolding(crate::specs::Reasons::reason_words))]
pub(crate) fn push_reason<'a>(
    into: &mut Vec<u8>,
    context: &Context<'a>,
    steps: &[Asked],
    place: &Place<'a>,
) -> Result<(), NoMemory>
    ensures { OnOk result (into.new.items ≡ into.old.items ++ reason_words steps.now (explained_by context.now) (place_of place.now)) }
{
    push_cause(into, place)?;
    match steps.split_first() {
        Some((_, left)) => push_ground(into, context, left, &origin_place(context, place)),
        None => Ok(()),
    }
}

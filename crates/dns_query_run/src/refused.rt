//! What is wrong with arguments, in words.
ghost use Rattle.std.specs.Prelude.{◌≡◌, ◌++◌, map, IfOk, OnOk};
ghost use Rattle.dns_query_run.specs.Complaints.{argument_at, arguments_complaint, missing_value, numbered, quoted, refused_words};
ghost use Rattle.dns_query_run.specs.Told.{IsSilent, told_of};

use crate::complaints::{BAD_ARGUMENTS, complaint_line, silent};
use crate::told::Told;
use dns_query_words::Refusal;
use dns_record::NoMemory;
use dns_text::push_decimal;
use std::alloc::Global;

/// Where the arguments are told.
const HELP_HINT: &[u8] = b"Try 'dns_query --help' for its arguments.\n";

// The argument of a number, counted from 0; nothing behind the last one.
fn argument_at(arguments: &[Vec<u8>], place: usize) -> &[u8]
    ensures { result.now ≡ argument_at (map (λ a. a.items) arguments.now) place }
{
    match arguments.get(place) {
        Some(argument) => argument.as_slice(),
        None => &[],
    }
}

// Appends a text in quotes.
#[tactic(auto, unfolding(crate::specs::Complaints::quoted))]
fn push_quoted(into: &mut Vec<u8>, text: &[u8]) -> Result<(), NoMemory>
    ensures { OnOk result (into.new.items ≡ into.old.items ++ quoted text.now) }
{
    into.push(b'\'')?;
    into.extend_from_slice(text)?;
    into.push(b'\'')?;
    Ok(())
}

// Appends a text in quotes behind another.
fn push_quoted_behind(into: &mut Vec<u8>, before: &[u8], text: &[u8]) -> Result<(), NoMemory>
    ensures { OnOk result (into.new.items ≡ into.old.items ++ (before.now ++ quoted text.now)) }
{
    into.extend_from_slice(before)?;
    push_quoted(into, text)
}

// Appends which argument is refused, between words.
#[tactic(auto, unfolding(crate::specs::Complaints::numbered))]
fn push_numbered(
    into: &mut Vec<u8>,
    arguments: &[Vec<u8>],
    place: usize,
    before: &[u8],
    behind: &[u8],
) -> Result<(), NoMemory>
    ensures { OnOk result (into.new.items
        ≡ into.old.items ++ numbered (map (λ a. a.items) arguments.now) place before.now behind.now) }
{
    into.extend_from_slice(b"argument ")?;
    push_decimal(into, (place as u64).saturating_add(1))?;
    into.extend_from_slice(b": ")?;
    into.extend_from_slice(before)?;
    push_quoted(into, argument_at(arguments, place))?;
    into.extend_from_slice(behind)?;
    Ok(())
}

// Appends which option lacks its value.
#[tactic(auto, unfolding(crate::specs::Complaints::missing_value))]
fn push_missing(into: &mut Vec<u8>, arguments: &[Vec<u8>], place: usize) -> Result<(), NoMemory>
    ensures { OnOk result (into.new.items ≡ into.old.items ++ missing_value (map (λ a. a.items) arguments.now) place) }
{
    let option = argument_at(arguments, place.saturating_sub(1));
    push_quoted_behind(into, b"missing value for ", option)
}

// Appends what is wrong, and with which argument.
fn push_refused(
    into: &mut Vec<u8>,
    given: &[Vec<u8>],
    refusal: Refusal,
    n: usize,
) -> Result<(), NoMemory>
    ensures { OnOk result (into.new.items ≡ into.old.items ++ refused_words (map (λ a. a.items) given.now) refusal n) }
{
    match refusal {
        Refusal::UnknownOption => push_numbered(into, given, n, b"unknown option ", b""),
        Refusal::Repeated => push_numbered(into, given, n, b"", b" is given more than once"),
        Refusal::SecondServer => push_numbered(into, given, n, b"", b" is a second server"),
        Refusal::MissingValue => push_missing(into, given, n),
        Refusal::BadDepth => push_numbered(into, given, n, b"", b" is not a depth from 0 to 255"),
        Refusal::BadSeconds => push_numbered(
            into,
            given,
            n,
            b"",
            b" is not a number of seconds from 1 to 65535",
        ),
        Refusal::BadName => push_numbered(into, given, n, b"", b" is not a valid domain name"),
        Refusal::BadType => push_numbered(into, given, n, b"", b" is not a record type"),
        Refusal::ExtraWord => push_numbered(
            into,
            given,
            n,
            b"unexpected ",
            b" after the record type",
        ),
        Refusal::MissingName => {
            into.extend_from_slice(b"missing domain name")?;
            Ok(())
        }
    }
}

/// The arguments aren't a call: one of them, counted from 0, and what is wrong with it.
#[tactic(auto, unfolding(crate::specs::Complaints::arguments_complaint))]
pub(crate) fn arguments_told(
    alloc: Global,
    arguments: &[Vec<u8>],
    refusal: Refusal,
    place: usize,
) -> Result<Told, NoMemory>
    ensures { IfOk result (λ told. IsSilent 2 (arguments_complaint (map (λ a. a.items) arguments.now) refusal place) (told_of told)) }
{
    let mut text = Vec::new(alloc);
    push_refused(&mut text, arguments, refusal, place)?;
    let mut lines = complaint_line(alloc, &text)?;
    lines.extend_from_slice(HELP_HINT)?;
    Ok(silent(alloc, BAD_ARGUMENTS, lines))
}

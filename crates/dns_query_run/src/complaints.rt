//! What is said on the standard error.
ghost use Rattle.std.specs.Prelude.{◌≡◌, ◌≤◌, ◌++◌, IfOk, OnOk};
ghost use Rattle.std.specs.Fmt.{decimal};
ghost use Rattle.dns_handle.specs.Replies.{error_of};
ghost use Rattle.dns_model.specs.NameText.{printed};
ghost use Rattle.dns_report.specs.Faults.{fault_text};
ghost use Rattle.dns_query_run.specs.Answers.{IsUntrusted};
ghost use Rattle.dns_query_run.specs.Complaints.{anchors_line, column_words, complaint, key_words, line_words, trusted_key, trusted_line, trusted_lines, unanswered_complaint, unsaved_complaint, unsaved_words, zone_words};
ghost use Rattle.dns_query_run.specs.Files.{IsUnread};
ghost use Rattle.dns_query_run.specs.Told.{IsSilent, told_of};
ghost use Rattle.dns_query_run.specs.declared.files.AnchorsStop.TheVariants.{Bad};

use crate::told::Told;
use dns_anchor_keys::AnchorsFault;
use dns_handle::NetError;
use dns_master_file::Refusal;
use dns_query_files::AnchorsError;
use dns_rdata::{Dnskey, key_tag};
use dns_record::{Name, NoMemory, Record};
use dns_report::write_fault;
use dns_saved_lookup::SaveError;
use dns_text::push_decimal;
use dns_trust::TrustAnchors;
use std::alloc::Global;

/// The arguments aren't a call, or name no server.
pub(crate) const BAD_ARGUMENTS: u8 = 2;

/// There is no answer.
pub(crate) const NO_ANSWER: u8 = 4;

/// A line of the program.
#[tactic(auto, unfolding(crate::specs::Complaints::complaint))]
pub(crate) fn complaint_line(alloc: Global, text: &[u8]) -> Result<Vec<u8>, NoMemory>
    ensures { IfOk result (λ v. v.items ≡ complaint text.now) }
{
    let mut line = Vec::new(alloc);
    line.extend_from_slice(b"dns_query: ")?;
    line.extend_from_slice(text)?;
    line.push(b'\n')?;
    Ok(line)
}

// A line of two parts.
fn two_part_line(alloc: Global, first: &[u8], second: &[u8]) -> Result<Vec<u8>, NoMemory>
    ensures { IfOk result (λ v. v.items ≡ complaint (first.now ++ second.now)) }
{
    let mut text = Vec::new(alloc);
    text.extend_from_slice(first)?;
    text.extend_from_slice(second)?;
    complaint_line(alloc, &text)
}

/// Nothing but a complaint, with a status.
pub(crate) fn silent(alloc: Global, status: u8, complaint: Vec<u8>) -> Told
    ensures { IsSilent status complaint.items (told_of result) }
{
    Told {
        status,
        text: Vec::new(alloc),
        saved: Vec::new(alloc),
        complaint,
    }
}

/// The same of a complaint of one line.
pub(crate) fn complaint_of(alloc: Global, status: u8, text: &[u8]) -> Result<Told, NoMemory>
    ensures { IfOk result (λ told. IsSilent status (complaint text.now) (told_of told)) }
{
    let line = complaint_line(alloc, text)?;
    Ok(silent(alloc, status, line))
}

// Appends a name as text.
fn push_name(into: &mut Vec<u8>, name: &Name) -> Result<(), NoMemory>
    ensures { OnOk result (into.new.items ≡ into.old.items ++ printed name.now) }
{
    let text = name.to_ascii()?;
    into.extend_from_slice(text.as_bytes())?;
    Ok(())
}

// Says which zone wasn't answered for, and why.
#[tactic(auto, unfolding(crate::specs::Complaints::unanswered_complaint))]
fn unanswered_line(alloc: Global, zone: &Name, error: &NetError) -> Result<Vec<u8>, NoMemory>
    ensures { IfOk result (λ v. v.items ≡ unanswered_complaint zone.now (fault_text (error_of error.now))) }
{
    let fault = write_fault(alloc, error)?;
    let mut line = Vec::new(alloc);
    line.extend_from_slice(b"dns_query: no keys of ")?;
    push_name(&mut line, zone)?;
    line.extend_from_slice(b": ")?;
    line.extend_from_slice(&fault)?;
    Ok(line)
}

/// No key is trusted.
pub(crate) fn fault_told(alloc: Global, fault: AnchorsFault) -> Result<Told, NoMemory>
    ensures tells { IfOk result (λ told. IsUntrusted fault (told_of told)) }
    ensures most { IfOk result (λ told. told.status ≤ 5) }
{
    match &fault {
        AnchorsFault::Unanswered(zone, error) => {
            let line = unanswered_line(alloc, zone, error)?;
            Ok(silent(alloc, NO_ANSWER, line))
        }
        AnchorsFault::NoKey => complaint_of(
            alloc,
            NO_ANSWER,
            b"no key of the zone matches a DS trust anchor",
        ),
        AnchorsFault::NoMemory => Err(NoMemory),
    }
}

// Appends a number between texts.
fn push_number(
    into: &mut Vec<u8>,
    before: &[u8],
    number: u64,
    behind: &[u8],
) -> Result<(), NoMemory>
    ensures { OnOk result (into.new.items ≡ into.old.items ++ (before.now ++ (decimal number ++ behind.now))) }
{
    into.extend_from_slice(before)?;
    push_decimal(into, number)?;
    into.extend_from_slice(behind)?;
    Ok(())
}

// Appends a name and a text.
fn push_named(into: &mut Vec<u8>, name: &Name, behind: &[u8]) -> Result<(), NoMemory>
    ensures { OnOk result (into.new.items ≡ into.old.items ++ (printed name.now ++ behind.now)) }
{
    push_name(into, name)?;
    into.extend_from_slice(behind)?;
    Ok(())
}

// Appends which key is meant.
#[tactic(auto, unfolding(crate::specs::Complaints::key_words))]
fn push_key_words(into: &mut Vec<u8>, tag: u16) -> Result<(), NoMemory>
    ensures { OnOk result (into.new.items ≡ into.old.items ++ key_words tag) }
{
    push_number(into, b"dns_query: the key ", u64::from(tag), b" of ")
}

// Appends that it is trusted for a zone.
#[tactic(auto, unfolding(crate::specs::Complaints::zone_words))]
fn push_zone_words(into: &mut Vec<u8>, zone: &Name) -> Result<(), NoMemory>
    ensures { OnOk result (into.new.items ≡ into.old.items ++ zone_words zone.now) }
{
    push_named(into, zone, b" is trusted: a DS trust anchor matches it\n")
}

// Appends that a key of a zone is trusted.
#[tactic(auto, unfolding(crate::specs::Complaints::trusted_line))]
fn push_trusted(into: &mut Vec<u8>, zone: &Name, tag: u16) -> Result<(), NoMemory>
    ensures { OnOk result (into.new.items ≡ into.old.items ++ trusted_line zone.now tag) }
{
    push_key_words(into, tag)?;
    push_zone_words(into, zone)
}

// Appends that a key is trusted that a zone answered with, where it is.
#[tactic(auto, unfolding(crate::specs::Complaints::trusted_key))]
fn push_key(into: &mut Vec<u8>, anchors: &TrustAnchors, key: &Record) -> Result<(), NoMemory>
    ensures { OnOk result (into.new.items ≡ into.old.items ++ trusted_key anchors.now key.now) }
{
    let rdata = key.rdata.as_slice();
    let Some(read) = Dnskey::read(rdata) else {
        return Ok(());
    };
    let Some(tag) = key_tag(rdata) else {
        return Ok(());
    };
    if anchors.contains_with_name(&key.name, read.algorithm, read.key) {
        push_trusted(into, &key.name, tag)
    } else {
        Ok(())
    }
}

/// Appends which keys are trusted of those that zones answered with, since DS records match them.
pub(crate) fn push_keys(
    into: &mut Vec<u8>,
    anchors: &TrustAnchors,
    keys: &[Record],
) -> Result<(), NoMemory>
    ensures { OnOk result (into.new.items ≡ into.old.items ++ trusted_lines anchors.now keys.now) }
{
    for key in keys {
        push_key(into, anchors, key)?;
    }
    Ok(())
}

// Why a lookup isn't saved.
fn unsaved_words(why: SaveError) -> &'static [u8]
    ensures { result.now ≡ unsaved_words why }
{
    match why {
        SaveError::Differs => b"a lookup over the responses that came has another answer",
        SaveError::LongMessage => b"a response has more than 65535 bytes",
        SaveError::LongText => b"it has more than 16777216 bytes",
        SaveError::NoMemory => b"out of memory",
    }
}

/// Says why a lookup isn't saved.
pub(crate) fn unsaved_line(alloc: Global, why: SaveError) -> Result<Vec<u8>, NoMemory>
    ensures { IfOk result (λ v. v.items ≡ unsaved_complaint why) }
{
    two_part_line(alloc, b"the session isn't saved: ", unsaved_words(why))
}

// What is wrong with a line of a master file.
fn line_words(refusal: Refusal) -> &'static [u8]
    ensures { result.now ≡ line_words refusal }
{
    match refusal {
        Refusal::NoOwner => b"the owner name is missing",
        Refusal::Directive => b"directives aren't supported",
        Refusal::Bracket => b"records over several lines aren't supported",
        Refusal::MissingWord => b"a field is missing",
        Refusal::ExtraWord => b"unexpected field",
        Refusal::QuotedWord => b"unexpected quoted text",
        Refusal::BadName => b"not a valid domain name",
        Refusal::BadClass => b"not a class",
        Refusal::BadType => b"not a record type",
        Refusal::BadNumber => b"not a number, or out of range",
        Refusal::BadDigits => b"not hexadecimal",
        Refusal::BadBase64 => b"not base64",
        Refusal::BadAddress => b"not an address",
        Refusal::BadTime => b"not a time",
        Refusal::BadHash => b"not a hash in base32",
        Refusal::BadTag => b"not a tag",
        Refusal::BadEscape => b"not a valid escape",
        Refusal::OpenQuote => b"the closing quote is missing",
        Refusal::LongText => b"a text of more than 255 bytes",
        Refusal::BadLength => b"another number of bytes than is given",
        Refusal::NoForm => b"the type needs the generic form, \\# and the bytes",
        Refusal::LongRdata => b"more than 65535 bytes of rdata",
    }
}

// Appends which line of the trust anchors is wrong, and what is said of it.
#[tactic(auto, unfolding(crate::specs::Complaints::anchors_line))]
fn push_line(into: &mut Vec<u8>, number: u64, text: &[u8]) -> Result<(), NoMemory>
    ensures { OnOk result (into.new.items ≡ into.old.items ++ anchors_line number text.now) }
{
    push_number(into, b"trust anchors, line ", number, text)
}

// Appends in which column that is.
#[tactic(auto, unfolding(crate::specs::Complaints::column_words))]
fn push_column(into: &mut Vec<u8>, column: usize, text: &[u8]) -> Result<(), NoMemory>
    ensures { OnOk result (into.new.items ≡ into.old.items ++ column_words column text.now) }
{
    into.extend_from_slice(b", column ")?;
    push_decimal(into, column as u64)?;
    into.extend_from_slice(b": ")?;
    into.extend_from_slice(text)?;
    Ok(())
}

// A line of the trust anchors can't be used, and what is said of it.
fn line_told(alloc: Global, number: u64, words: &[u8]) -> Result<Told, NoMemory>
    ensures { IfOk result (λ told. IsSilent 4 (complaint (anchors_line number words.now)) (told_of told)) }
{
    let mut text = Vec::new(alloc);
    push_line(&mut text, number, words)?;
    complaint_of(alloc, NO_ANSWER, &text)
}

// A line of the trust anchors can't be read.
fn bad_line_told(
    alloc: Global,
    number: u64,
    refusal: Refusal,
    column: usize,
) -> Result<Told, NoMemory>
    ensures { IfOk result (λ told. IsSilent 4 (complaint (anchors_line number (column_words column (line_words refusal)))) (told_of told)) }
{
    let mut words = Vec::new(alloc);
    push_column(&mut words, column, line_words(refusal))?;
    line_told(alloc, number, &words)
}

/// A file of trust anchors can't be used.
pub(crate) fn anchors_told(alloc: Global, error: AnchorsError) -> Result<Told, NoMemory>
    ensures tells { IfOk result (λ told. IsUnread (Bad error) (told_of told)) }
    ensures most { IfOk result (λ told. told.status ≤ 5) }
{
    match error {
        AnchorsError::BadLine(line, refusal, column) => bad_line_told(alloc, line, refusal, column),
        AnchorsError::NoAnchor(line) => line_told(
            alloc,
            line,
            b": a trust anchor is a DS record, or a DNSKEY record of a zone key that isn't revoked, in the class IN",
        ),
        AnchorsError::Empty => complaint_of(
            alloc,
            NO_ANSWER,
            b"the file of trust anchors has no DS or DNSKEY record",
        ),
        AnchorsError::NoMemory => Err(NoMemory),
    }
}

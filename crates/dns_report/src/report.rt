//! The text of a report.
ghost use Rattle.std.specs.Prelude.{◌≡◌, ◌++◌, OnOk, IfOk, IsTrue};
ghost use Rattle.std.specs.List.{list_all};
ghost use Rattle.dns_report.specs.Fields.{is_u16};
ghost use Rattle.dns_report.specs.TrailView.{fitting_trail};
ghost use Rattle.dns_report.specs.TrailLines.{trail_text};
ghost use Rattle.dns_report.specs.View.{View, trail_view, view_of, fitting_record, fitting_view, all_justified};
ghost use Rattle.dns_model.specs.Chains.{Judge};
ghost use Rattle.dns_model.specs.SoundAnswers.{ResponseValue};
ghost use Rattle.dns_report.specs.Report.{head_text, records_text, view_body, view_text, report_text};
ghost use Rattle.dns_report.specs.WrittenLines.{code_line, denial_line};

use crate::Parts;
use crate::link::push_chains;
use crate::record::push_section;
use crate::trail::push_trail;
use crate::words::push_denial_words;
use dns_evidence::Trail;
use dns_handle::DnsResponse;
use dns_message::Message;
use dns_model::{Denial, Section};
use dns_record::{NoMemory, ResponseCode};
use dns_text::{end_line, push_number, push_text};
use std::alloc::Global;

// Appends the line of a code.
fn push_code(into: &mut Vec<u8>, code: ResponseCode) -> Result<(), NoMemory>
    ensures ok { OnOk result (into.new.items ≡ into.old.items ++ code_line code.0) }
    ensures fits { IsTrue (is_u16 code.0) }
{
    push_text(into, b"code")?;
    push_number(into, u64::from(code.0))?;
    end_line(into)
}

// Appends the line of a denial.
#[tactic(auto, using(crate::proofs::SpacedWords::rest_spaced))]
fn push_denial(into: &mut Vec<u8>, denial: Denial) -> Result<(), NoMemory>
    ensures { OnOk result (into.new.items ≡ into.old.items ++ denial_line denial) }
{
    push_text(into, b"denial")?;
    push_denial_words(into, denial)?;
    end_line(into)
}

// Appends the lines of a message's records: answers, then authorities, then additionals.
#[tactic(auto, unfolding(crate::specs::Report::records_text))]
fn push_records(into: &mut Vec<u8>, message: &Message) -> Result<(), NoMemory>
    ensures ok { OnOk result (into.new.items ≡ into.old.items
        ++ records_text message.now.answers message.now.authorities message.now.additionals) }
    ensures answers { OnOk result (IsTrue (list_all fitting_record message.now.answers)) }
    ensures authorities { OnOk result (IsTrue (list_all fitting_record message.now.authorities)) }
    ensures additionals { OnOk result (IsTrue (list_all fitting_record message.now.additionals)) }
{
    push_section(into, Section::Answer, &message.answers)?;
    push_section(into, Section::Authority, &message.authorities)?;
    push_section(into, Section::Additional, &message.additionals)
}

// Appends the lines before the records.
#[tactic(auto, unfolding(crate::specs::Report::head_text))]
fn push_head(into: &mut Vec<u8>, code: ResponseCode, denial: Denial) -> Result<(), NoMemory>
    ensures ok { OnOk result (into.new.items ≡ into.old.items ++ head_text code.0 denial) }
    ensures fits { OnOk result (IsTrue (is_u16 code.0)) }
{
    push_text(into, b"dns-report 1\n")?;
    push_code(into, code)?;
    push_denial(into, denial)
}

// Appends the lines of a trail, where it is asked for.
fn push_shown_trail(into: &mut Vec<u8>, parts: Parts, trail: &Trail) -> Result<(), NoMemory>
    ensures ok { OnOk result (into.new.items ≡ into.old.items ++ trail_text (trail_view parts trail.now)) }
    ensures fits { OnOk result (IsTrue (fitting_trail (trail_view parts trail.now))) }
{
    match parts {
        Parts::Answer => Ok(()),
        Parts::WithTrail => push_trail(into, trail),
    }
}

// Appends the lines of a report but the last.
#[tactic(auto, unfolding(crate::specs::Report::view_body))]
fn push_body(into: &mut Vec<u8>, parts: Parts, answer: &DnsResponse) -> Result<(), NoMemory>
    ensures ok { OnOk result (into.new.items ≡ into.old.items ++ view_body (view_of parts answer.now)) }
    ensures fits { OnOk result (IsTrue (fitting_view (view_of parts answer.now))) }
{
    push_head(into, answer.message.response_code, answer.denial)?;
    push_records(into, &answer.message)?;
    push_chains(into, &answer.chains)?;
    push_shown_trail(into, parts, &answer.trail)
}

/// The report on an answer: its code, what it denies, each record with its mark, the chains of its Secure sets, and its trail
/// where `parts` asks for it. Names are printed in the case in which they came. It fails only where memory
/// runs out.
///
/// The text tells what it shows, and whether it shows the trail: of all views with names, bytes and numbers that can stand in an
/// answer, no other has it. Where all chains of two answers with one text are justified, the chains are the same too, whole.
#[tactic(auto, unfolding(crate::specs::Report::report_text, crate::specs::Report::view_text))]
pub fn write_report(alloc: Global, answer: &DnsResponse, parts: Parts) -> Result<Vec<u8>, NoMemory>
    ensures text { IfOk result (λ v. v.items ≡ report_text parts answer.now) }
    ensures fits { OnOk result (IsTrue (fitting_view (view_of parts answer.now))) }
    ensures tells { IfOk result (λ v. (other : View) → IsTrue (fitting_view other)
        → view_text other ≡ v.items → other ≡ view_of parts answer.now) }
    ensures chains { IfOk result (λ v. (other : ResponseValue) (j k : Judge)
        → IsTrue (fitting_view (view_of parts other))
        → report_text parts other ≡ v.items
        → IsTrue (all_justified j other.chains) → IsTrue (all_justified k answer.now.chains)
        → other.chains ≡ answer.now.chains) }
{
    let mut text = Vec::new(alloc);
    push_body(&mut text, parts, answer)?;
    push_text(&mut text, b"end\n")?;
    Ok(text)
}

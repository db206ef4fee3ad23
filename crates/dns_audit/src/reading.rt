//! Reading a report, line after line, alone or after the session that it answers.
ghost use Rattle.std.specs.Prelude.{◌≡◌, ◌<◌, ◌^◌, length, IfOk};
ghost use Rattle.dns_model.specs.declared.section.Section.TheVariants.{Answer, Authority, Additional};
ghost use Rattle.dns_session.specs.LinePlaces.{Place, one, many};
ghost use Rattle.dns_session.specs.Lines.{end_line};
ghost use Rattle.dns_session.specs.Stops.{ReadsAs};
ghost use Rattle.dns_audit.specs.ReportLines.{report_header, code_line, denial_line, record_line};
ghost use Rattle.dns_audit.specs.ReportGrammar.{end_at, report_at, audit_of};

use crate::answer_lines::{code_of, denial_of};
use crate::chains::chains_at;
use crate::records::{RecordKind, Sections, read_sections};
use crate::report::Report;
use crate::steps::trail_at;
use dns_model::Denial;
use dns_record::ResponseCode;
use dns_session::{Lines, Session, SessionStop, read_front};
use std::alloc::Global;

// The lines after the one that names the form.
#[tactic(auto, unfolding(dns_session::specs::LinePlaces::one))]
fn after_header<'a>(lines: Lines<'a>) -> Result<Lines<'a>, SessionStop>
    ensures { ReadsAs (λ (after : Place). (tt, after)) result (one report_header lines.entry) }
{
    let bad = SessionStop::BadLine(lines.number());
    let (line, after) = lines.next().ok_or(bad)?;
    if line != b"dns-report 1".as_slice() {
        return Err(bad);
    }
    Ok(after)
}

// The code, and the lines after it.
#[tactic(auto, unfolding(dns_session::specs::LinePlaces::one))]
fn one_code<'a>(lines: Lines<'a>) -> Result<(ResponseCode, Lines<'a>), SessionStop>
    ensures { ReadsAs (λ x. (x.0.0, x.1)) result (one code_line lines.entry) }
{
    let bad = SessionStop::BadLine(lines.number());
    let (line, after) = lines.next().ok_or(bad)?;
    let code = code_of(line).ok_or(bad)?;
    Ok((code, after))
}

// The denial, and the lines after it.
#[tactic(auto, unfolding(dns_session::specs::LinePlaces::one))]
fn one_denial<'a>(lines: Lines<'a>) -> Result<(Denial, Lines<'a>), SessionStop>
    ensures { ReadsAs (λ x. (x.0, x.1)) result (one denial_line lines.entry) }
{
    let bad = SessionStop::BadLine(lines.number());
    let (line, after) = lines.next().ok_or(bad)?;
    let denial = denial_of(line).ok_or(bad)?;
    Ok((denial, after))
}

// Nothing, where the next line is the last and no byte follows it.
#[tactic(auto, unfolding(dns_session::specs::LinePlaces::one))]
fn end<'a>(lines: Lines<'a>) -> Result<(), SessionStop>
    ensures { ReadsAs (λ x. tt) result (end_at lines.entry) }
{
    let bad = SessionStop::BadLine(lines.number());
    let (line, after) = lines.next().ok_or(bad)?;
    if line != b"end".as_slice() {
        return Err(bad);
    }
    if !after.is_ended() {
        return Err(SessionStop::BadLine(after.number()));
    }
    Ok(())
}

/// The report that the next lines are, with which the text ends. Lines end with LF, words are separated by one space.
///
/// `BadLine` has the number of the first line that can't stand at its place, is missing or has no LF; the line after the last is bad
/// where anything follows.
#[tactic(auto, unfolding(crate::specs::ReportGrammar::report_at))]
pub fn read_report<'a>(alloc: Global, lines: Lines<'a>) -> Result<Report, SessionStop>
    ensures { ReadsAs (λ r. r) result (report_at lines.entry) }
{
    let lines = after_header(lines)?;
    let (code, lines) = one_code(lines)?;
    let (denial, lines) = one_denial(lines)?;
    let (sections, lines) = read_sections(alloc, RecordKind::Marked, lines)?;
    let (chains, lines) = chains_at(alloc, lines)?;
    let (trail, lines) = trail_at(alloc, lines)?;
    end(lines)?;
    let Sections {
        answers,
        authorities,
        additionals,
    } = sections;
    Ok(Report {
        code,
        denial,
        answers,
        authorities,
        additionals,
        chains,
        trail,
    })
}

/// What an audit reads: the session that bytes begin with, and the report that follows it, with which they end.
///
/// `BadLine` has the number, counted from the session's first line, of the first line that can't stand at its place, is missing or has
/// no LF; the line after the report's last is bad where anything follows.
#[tactic(auto, unfolding(crate::specs::ReportGrammar::audit_of))]
pub fn read_audit(alloc: Global, bytes: &[u8]) -> Result<(Session, Report), SessionStop>
    requires { length bytes.now < 2 ^ 32 }
    ensures { ReadsAs (λ x. (x.0, x.1)) result (audit_of bytes.now) }
{
    let (session, lines) = read_front(alloc, Lines::of(bytes))?;
    let report = read_report(alloc, lines)?;
    Ok((session, report))
}

//! The report of an answer with its trail, or of the answer inside a refusal, and why each of its sets isn't Secure.
ghost use Rattle.std.specs.Prelude.{◌≡◌, ◌++◌, ◌<◌, ◌^◌, length, IfOk};
ghost use Rattle.std.specs.Option.{option_map};
ghost use Rattle.dns_handle.specs.Replies.{error_of, reply_of};
ghost use Rattle.dns_report.specs.declared.parts.Parts.TheVariants.{WithTrail};
ghost use Rattle.dns_report.specs.Report.{report_text};
ghost use Rattle.dns_session.specs.Grammar.{session_of};
ghost use Rattle.dns_run.specs.Explaining.{ExplainEnds, Explains, IsExplained, denied_answer, judge_by, refused_by, why_text};

use crate::judging::{Judging, judging_at};
use dns_causes::{trail_causes, write_causes};
use dns_evidence::Trail;
use dns_handle::{DnsError, DnsResponse, NetError};
use dns_io::status;
use dns_record::NoMemory;
use dns_report::{Parts, write_fault, write_report};
use dns_session::{Session, SessionStop, bad_line_text, read_session};
use dns_session_lookup::{Verification, session_answer};
use std::alloc::Global;

// The answer inside a denial.
fn denied_answer(error: &NetError) -> Option<&DnsResponse>
    ensures { option_map (λ a. a.now) result ≡ denied_answer (error_of error.now) }
{
    match error {
        NetError::Dns(
            DnsError::Nsec {
                query: _,
                response,
                proof: _,
            },
        ) => Some(&**response),
        _ => None,
    }
}

// A line for each set of a trail, which says why it isn't Secure.
fn why_lines(alloc: Global, judging: &Judging, trail: &Trail) -> Result<Vec<u8>, NoMemory>
    ensures { IfOk result (λ v. v.items ≡ why_text (judge_by judging.now) judging.now.limits trail.now) }
{
    let causes = trail_causes(
        alloc,
        &judging.anchors,
        &judging.verifier,
        judging.moment,
        &judging.limits,
        trail,
    )?;
    write_causes(alloc, trail, &causes)
}

// An answer with its trail, a line, and why its sets aren't Secure.
fn told(
    alloc: Global,
    judging: &Judging,
    answer: &DnsResponse,
    line: &[u8],
) -> Result<Vec<u8>, NoMemory>
    ensures { IfOk result (λ v. v.items ≡ report_text WithTrail answer.now
        ++ (line.now ++ why_text (judge_by judging.now) judging.now.limits answer.now.trail)) }
{
    let mut text = write_report(alloc, answer, Parts::WithTrail)?;
    text.extend_from_slice(line)?;
    let why = why_lines(alloc, judging, &answer.trail)?;
    text.extend_from_slice(&why)?;
    Ok(text)
}

// What is written of an error: its line, behind the report of the answer that it has inside.
fn refused(alloc: Global, judging: &Judging, error: &NetError) -> Result<Vec<u8>, NoMemory>
    ensures { IfOk result (λ v. v.items ≡ refused_by (judge_by judging.now) judging.now.limits (error_of error.now)) }
{
    let line = write_fault(alloc, error)?;
    match denied_answer(error) {
        Some(answer) => told(alloc, judging, answer, &line),
        None => Ok(line),
    }
}

/// The status and the text of an answer with its causes.
#[tactic(auto, using(dns_handle::proofs::ErrorLemmas::untold_no_memory))]
pub(crate) fn explained(
    alloc: Global,
    judging: &Judging,
    reply: &Result<DnsResponse, NetError>,
) -> Result<(u8, Vec<u8>), NoMemory>
    ensures ends { IfOk result (λ x. IsExplained (judge_by judging.now) judging.now.limits (reply_of reply.now) x.0 x.1.items) }
    ensures low { IfOk result (λ x. x.0 < 4) }
{
    match reply {
        Ok(answer) => {
            let text = told(alloc, judging, answer, b"")?;
            Ok((status::DONE, text))
        }
        Err(error) => {
            if error.is_no_memory() {
                return Err(NoMemory);
            }
            let text = refused(alloc, judging, error)?;
            Ok((status::FAULT, text))
        }
    }
}

// What a session comes to.
fn session_explained(
    alloc: Global,
    how: Verification,
    session: Session,
) -> Result<(u8, Vec<u8>), NoMemory>
    ensures ends { IfOk result (λ x. Explains how session x.0 x.1.items) }
    ensures low { IfOk result (λ x. x.0 < 4) }
{
    let judging = judging_at(alloc, how, &session, session.moment)?;
    let reply = session_answer(alloc, how, session);
    explained(alloc, &judging, &reply)
}

/// The status of a session's explained answer, and what is written of it.
pub(crate) fn explain_ending(
    alloc: Global,
    how: Verification,
    bytes: &[u8],
) -> Result<(u8, Vec<u8>), NoMemory>
    requires { length bytes.now < 2 ^ 32 }
    ensures ends { IfOk result (λ x. ExplainEnds how (session_of bytes.now) x.0 x.1.items) }
    ensures low { IfOk result (λ x. x.0 < 4) }
{
    match read_session(alloc, bytes) {
        Ok(session) => session_explained(alloc, how, session),
        Err(SessionStop::BadLine(number)) => {
            let text = bad_line_text(alloc, number)?;
            Ok((status::BAD_INPUT, text))
        }
        Err(SessionStop::NoMemory) => Err(NoMemory),
    }
}

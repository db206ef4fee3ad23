//! What bytes that were read come to, before anything is written.
ghost use Rattle.std.specs.Prelude.{◌<◌, ◌^◌, length, IfOk};
ghost use Rattle.dns_handle.specs.Replies.{reply_of};
ghost use Rattle.dns_lookup.specs.LookupAnswers.{UnlessNoMemory};
ghost use Rattle.dns_session.specs.SessionValue.{SessionValue};
ghost use Rattle.dns_session_lookup.specs.Causes.{AnswersSession};
ghost use Rattle.dns_session_lookup.specs.declared.verification.Verification.{Verification};
ghost use Rattle.dns_run.specs.Endings.{IsOutcome, IsAnswered};

use dns_handle::{DnsResponse, NetError};
use dns_record::NoMemory;
use dns_report::{Parts, write_fault, write_report};
use dns_session::{Session, SessionStop, bad_line_text, read_session};
use dns_session_lookup::{Verification, session_answer};
use std::alloc::Global;

/// How a run ends where its input was read.
#[derive(Clone, Copy)]
pub enum InputEnding {
    /// The lookup answered: its report is written.
    Report,
    /// The lookup failed: the fault's line is written.
    Fault,
    /// The input is no session: its first bad line is named.
    BadLine,
}

// The report of a session's lookup, or the line of its fault.
fn answered(
    alloc: Global,
    how: Verification,
    shows: Parts,
    session: Session,
) -> Result<(InputEnding, Vec<u8>), NoMemory>
    ensures { IfOk result (λ x. IsAnswered how shows session x.0 x.1.items) }
{
    let reply = session_answer(alloc, how, session);
    reply_ending(alloc, shows, &reply)
}

// The report of an answer, or the line of a fault.
fn reply_ending(
    alloc: Global,
    shows: Parts,
    reply: &Result<DnsResponse, NetError>,
) -> Result<(InputEnding, Vec<u8>), NoMemory>
    ensures { (how : Verification) (s : SessionValue) → UnlessNoMemory reply.now (AnswersSession how s (reply_of reply.now))
        → IfOk result (λ x. IsAnswered how shows s x.0 x.1.items) }
{
    match reply {
        Ok(answer) => {
            let text = write_report(alloc, answer, shows)?;
            Ok((InputEnding::Report, text))
        }
        Err(error) => {
            if error.is_no_memory() {
                return Err(NoMemory);
            }
            let text = write_fault(alloc, error)?;
            Ok((InputEnding::Fault, text))
        }
    }
}

/// What an input comes to, and the text of it.
pub(crate) fn session_ending(
    alloc: Global,
    how: Verification,
    shows: Parts,
    bytes: &[u8],
) -> Result<(InputEnding, Vec<u8>), NoMemory>
    requires { length bytes.now < 2 ^ 32 }
    ensures { IfOk result (λ x. IsOutcome how shows bytes.now x.0 x.1.items) }
{
    match read_session(alloc, bytes) {
        Ok(session) => answered(alloc, how, shows, session),
        Err(SessionStop::BadLine(number)) => {
            let text = bad_line_text(alloc, number)?;
            Ok((InputEnding::BadLine, text))
        }
        Err(SessionStop::NoMemory) => Err(NoMemory),
    }
}

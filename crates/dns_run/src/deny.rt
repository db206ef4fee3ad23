//! What bytes come to that are a session with questions behind it.
ghost use Rattle.std.specs.Prelude.{◌≡◌, ◌<◌, ◌^◌, length, IfOk};
ghost use Rattle.dns_handle.specs.Replies.{reply_of};
ghost use Rattle.dns_lookup.specs.LookupAnswers.{UnlessNoMemory};
ghost use Rattle.dns_session_lookup.specs.Causes.{AnswersSession};
ghost use Rattle.dns_session_lookup.specs.declared.verification.Verification.TheVariants.{ByList};
ghost use Rattle.dns_deny.specs.DenyGrammar.{DenyValue, deny_of};
ghost use Rattle.dns_run.specs.Tasks.{AnswersDeny, DenyEnds};

use crate::fault::fault_ending;
use dns_deny::{DenyText, ThenLine, read_denials, write_denials};
use dns_handle::{DnsResponse, NetError};
use dns_io::status;
use dns_record::NoMemory;
use dns_session::{SessionStop, bad_line_text};
use dns_session_lookup::{Verification, session_answer};
use std::alloc::Global;

// What an answer to the session denies, or the line of a fault.
fn reply_ending(
    alloc: Global,
    moment: u64,
    lines: &[ThenLine],
    reply: &Result<DnsResponse, NetError>,
) -> Result<(u8, Vec<u8>), NoMemory>
    ensures ends { (t : DenyValue) → moment ≡ t.session.moment → lines.now ≡ t.questions
        → UnlessNoMemory reply.now (AnswersSession ByList t.session (reply_of reply.now))
        → IfOk result (λ x. AnswersDeny t x.0 x.1.items) }
    ensures low { IfOk result (λ x. x.0 < 4) }
{
    match reply {
        Ok(answer) => {
            let text = write_denials(alloc, answer, lines, moment)?;
            Ok((status::DONE, text))
        }
        Err(error) => fault_ending(alloc, error),
    }
}

// What a session with questions behind it comes to.
fn session_denials(alloc: Global, text: DenyText) -> Result<(u8, Vec<u8>), NoMemory>
    ensures ends { IfOk result (λ x. AnswersDeny text x.0 x.1.items) }
    ensures low { IfOk result (λ x. x.0 < 4) }
{
    let DenyText { session, lines } = text;
    let moment = session.moment;
    let reply = session_answer(alloc, Verification::ByList, session);
    reply_ending(alloc, moment, &lines, &reply)
}

/// The status of a session with questions behind it, and what is written of those.
pub(crate) fn deny_ending(alloc: Global, bytes: &[u8]) -> Result<(u8, Vec<u8>), NoMemory>
    requires { length bytes.now < 2 ^ 32 }
    ensures ends { IfOk result (λ x. DenyEnds (deny_of bytes.now) x.0 x.1.items) }
    ensures low { IfOk result (λ x. x.0 < 4) }
{
    match read_denials(alloc, bytes) {
        Ok(text) => session_denials(alloc, text),
        Err(SessionStop::BadLine(number)) => {
            let text = bad_line_text(alloc, number)?;
            Ok((status::BAD_INPUT, text))
        }
        Err(SessionStop::NoMemory) => Err(NoMemory),
    }
}

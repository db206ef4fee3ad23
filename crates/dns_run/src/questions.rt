//! What bytes come to that are a session whose lookup has questions.
ghost use Rattle.std.specs.Prelude.{◌≡◌, ◌<◌, ◌^◌, [], length, None, Err, IfOk};
ghost use Rattle.std.specs.Option.{option_map};
ghost use Rattle.dns_evidence.specs.Listing.{answers_of};
ghost use Rattle.dns_handle.specs.Replies.{error_of, reply_of};
ghost use Rattle.dns_lookup.specs.LookupAnswers.{UnlessNoMemory};
ghost use Rattle.dns_model.specs.Chains.{judge};
ghost use Rattle.dns_questions.specs.Questions.{questions};
ghost use Rattle.dns_questions.specs.QuestionsText.{questions_text};
ghost use Rattle.dns_session.specs.Grammar.{session_of};
ghost use Rattle.dns_session.specs.SessionValue.{SessionValue};
ghost use Rattle.dns_session_lookup.specs.Causes.{AnswersSession};
ghost use Rattle.dns_session_lookup.specs.Verifying.{listing};
ghost use Rattle.dns_session_lookup.specs.declared.verification.Verification.TheVariants.{ByList};
ghost use Rattle.dns_run.specs.Tasks.{AnswersQuestions, QuestionsEnd, MayFail, denied_trail};

use crate::fault::fault_ending;
use dns_evidence::{Listed, Trail};
use dns_handle::{DnsError, DnsResponse, NetError};
use dns_io::status;
use dns_questions::{trail_questions, write_questions};
use dns_record::NoMemory;
use dns_session::{Session, SessionStop, bad_line_text, read_session};
use dns_session_lookup::{Verification, listed_verifier, session_answer};
use std::alloc::Global;

// The trail of the response inside a denial.
fn denied_trail(error: &NetError) -> Option<&Trail>
    ensures { option_map (λ t. t.now) result ≡ denied_trail (error_of error.now) }
{
    match error {
        NetError::Dns(
            DnsError::Nsec {
                query: _,
                response,
                proof: _,
            },
        ) => Some(&response.trail),
        _ => None,
    }
}

// The questions of a trail, as a text.
fn listed(alloc: Global, verifier: &Listed, moment: u64, trail: &Trail) -> Result<Vec<u8>, NoMemory>
    ensures { IfOk result (λ v. v.items
        ≡ questions_text (questions (judge (answers_of verifier.now) [] moment) trail.now)) }
{
    let questions = trail_questions(alloc, verifier, moment, trail)?;
    write_questions(alloc, &questions)
}

// The line of an error, which has no trail.
fn failed(alloc: Global, error: &NetError) -> Result<(u8, Vec<u8>), NoMemory>
    requires { denied_trail (error_of error.now) ≡ None }
    ensures ends { (s : SessionValue) → MayFail s error.now → IfOk result (λ x. AnswersQuestions s x.0 x.1.items) }
    ensures low { IfOk result (λ x. x.0 < 4) }
{
    fault_ending(alloc, error)
}

// What an answer to a session comes to.
fn reply_ending(
    alloc: Global,
    verifier: &Listed,
    moment: u64,
    reply: &Result<DnsResponse, NetError>,
) -> Result<(u8, Vec<u8>), NoMemory>
    ensures ends { (s : SessionValue) → answers_of verifier.now ≡ answers_of (listing s.algorithms []) → moment ≡ s.moment
        → UnlessNoMemory reply.now (AnswersSession ByList s (reply_of reply.now))
        → IfOk result (λ x. AnswersQuestions s x.0 x.1.items) }
    ensures low { IfOk result (λ x. x.0 < 4) }
{
    match reply {
        Ok(answer) => {
            let text = listed(alloc, verifier, moment, &answer.trail)?;
            Ok((status::DONE, text))
        }
        Err(error) => match denied_trail(error) {
            Some(trail) => {
                let text = listed(alloc, verifier, moment, trail)?;
                Ok((status::DONE, text))
            }
            None => failed(alloc, error),
        },
    }
}

// What a session comes to.
fn session_questions(alloc: Global, session: Session) -> Result<(u8, Vec<u8>), NoMemory>
    ensures ends { IfOk result (λ x. AnswersQuestions session x.0 x.1.items) }
    ensures low { IfOk result (λ x. x.0 < 4) }
{
    let verifier = listed_verifier(alloc, &session.algorithms, Vec::new(alloc))?;
    let moment = session.moment;
    let reply = session_answer(alloc, Verification::ByList, session);
    reply_ending(alloc, &verifier, moment, &reply)
}

/// The status of a session's questions, and what is written of them.
pub(crate) fn questions_ending(alloc: Global, bytes: &[u8]) -> Result<(u8, Vec<u8>), NoMemory>
    requires { length bytes.now < 2 ^ 32 }
    ensures ends { IfOk result (λ x. QuestionsEnd (session_of bytes.now) x.0 x.1.items) }
    ensures low { IfOk result (λ x. x.0 < 4) }
{
    match read_session(alloc, bytes) {
        Ok(session) => session_questions(alloc, session),
        Err(SessionStop::BadLine(number)) => {
            let text = bad_line_text(alloc, number)?;
            Ok((status::BAD_INPUT, text))
        }
        Err(SessionStop::NoMemory) => Err(NoMemory),
    }
}

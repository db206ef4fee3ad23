//! A lookup is saved, and the saved session is looked up again.
ghost use Rattle.std.specs.Prelude.{◌≡◌, ◌≤◌, length, true, false, Ok, IfErr, IfOk, OnOk, IsOk};
ghost use Rattle.std.specs.Option.{option_map};
ghost use Rattle.dns_handle.specs.Replies.{reply_of};
ghost use Rattle.dns_io.specs.Reading.{input_limit};
ghost use Rattle.dns_lookup.specs.LookupAnswers.{UnlessNoMemory};
ghost use Rattle.dns_session.specs.Grammar.{session_of};
ghost use Rattle.dns_session.specs.SessionValue.{SessionValue};
ghost use Rattle.dns_session_lookup.specs.Causes.{AnswersSession};
ghost use Rattle.dns_session_lookup.specs.declared.verification.Verification.TheVariants.{ByList};
ghost use Rattle.dns_saved_session.specs.SavedText.{saved_text, session_saved};
ghost use Rattle.dns_saved_lookup.specs.Alike.{IsAnsweredElse, IsAnsweredSo};
ghost use Rattle.dns_saved_lookup.specs.Lookups.{accepted_by, response_in, saved_by};
ghost use Rattle.dns_saved_lookup.specs.Refusals.{IsUnsaved};

use crate::accepted::accepted_signatures;
use crate::lookup::SavedLookup;
use crate::same::{denied_in, same_reply};
use crate::save_error::SaveError;
use dns_evidence::{Trail, Verifier};
use dns_handle::{DnsResponse, NetError};
use dns_io::INPUT_LIMIT;
use dns_record::NoMemory;
use dns_saved_session::{SavedSession, write_session};
use dns_session::{AcceptedSignature, SessionStop, read_session};
use dns_session_lookup::{Verification, session_answer};
use std::alloc::Global;

// The trail of the response that a lookup came to, be it refused.
fn trail_in(reply: &Result<DnsResponse, NetError>) -> Option<&Trail>
    ensures { option_map (λ t. t.now) result ≡ option_map (λ r. r.trail) (response_in (reply_of reply.now)) }
{
    match reply {
        Ok(response) => Some(&response.trail),
        Err(error) => match denied_in(error) {
            Some(response) => Some(&response.trail),
            None => None,
        },
    }
}

// The signatures of a lookup that its verifier accepts.
fn accepted_by<V: Verifier>(
    alloc: Global,
    verifier: &V,
    lookup: &SavedLookup<'_>,
) -> Result<Vec<AcceptedSignature>, NoMemory>
    ensures { IfOk result (λ v. v.items ≡ accepted_by (V.answers verifier.now) lookup.now) }
{
    match trail_in(lookup.answer) {
        Some(trail) => accepted_signatures(
            alloc,
            verifier,
            lookup.algorithms,
            lookup.moment,
            trail,
        ),
        None => Ok(Vec::new(alloc)),
    }
}

// The text of a lookup's session.
fn saved_text<V: Verifier>(
    alloc: Global,
    verifier: &V,
    lookup: &SavedLookup<'_>,
) -> Result<Vec<u8>, NoMemory>
    ensures text { IfOk result (λ v. v.items ≡ saved_text (saved_by (V.answers verifier.now) lookup.now)) }
    ensures reads { IfOk result (λ v. session_of v.items
        ≡ Ok (session_saved (saved_by (V.answers verifier.now) lookup.now))) }
{
    let accepts = accepted_by(alloc, verifier, lookup)?;
    let saved = SavedSession {
        moment: lookup.moment,
        depth: lookup.depth,
        algorithms: lookup.algorithms,
        anchors: lookup.anchors,
        accepts: &accepts,
        query: lookup.query,
        replies: lookup.replies,
    };
    write_session(alloc, &saved)
}

// The same answer, unless it is that memory ran out.
fn remembered(
    answer: Result<DnsResponse, NetError>,
) -> Result<Result<DnsResponse, NetError>, NoMemory>
    ensures { (s : SessionValue) → UnlessNoMemory answer (AnswersSession ByList s (reply_of answer))
        → IfOk result (λ again. AnswersSession ByList s (reply_of again)) }
{
    match answer {
        Ok(response) => Ok(Ok(response)),
        Err(error) => {
            if error.is_no_memory() {
                return Err(NoMemory);
            }
            Ok(Err(error))
        }
    }
}

// What the session of a text is answered, by the signatures that it lists.
fn answered_again(alloc: Global, text: &[u8]) -> Result<Result<DnsResponse, NetError>, NoMemory>
    requires fits { length text.now ≤ input_limit }
    requires reads { IsOk (session_of text.now) }
    ensures { (s : SessionValue) → session_of text.now ≡ Ok s
        → IfOk result (λ again. AnswersSession ByList s (reply_of again)) }
{
    match read_session(alloc, text) {
        Ok(session) => remembered(session_answer(alloc, Verification::ByList, session)),
        Err(SessionStop::BadLine(_)) => unreachable!(),
        Err(SessionStop::NoMemory) => Err(NoMemory),
    }
}

// Whether the session of a text is answered as a lookup was.
fn is_answered_so(
    alloc: Global,
    text: &[u8],
    answer: &Result<DnsResponse, NetError>,
) -> Result<bool, NoMemory>
    requires fits { length text.now ≤ input_limit }
    requires reads { IsOk (session_of text.now) }
    ensures so { (s : SessionValue) → session_of text.now ≡ Ok s → result ≡ Ok true → IsAnsweredSo s (reply_of answer.now) }
    ensures otherwise { (s : SessionValue) → session_of text.now ≡ Ok s → result ≡ Ok false → IsAnsweredElse s (reply_of answer.now) }
{
    let again = answered_again(alloc, text)?;
    same_reply(alloc, answer, &again)
}

/// The session of a lookup as a text in version 2, with an `accept` line for each signature of its trail that the verifier accepts. The text
/// is read again, and its session looked up by the signatures that it lists: there is one only where that comes to the same report,
/// with the same trail, or to the line of the same error. So `dns_check validate` gives it again from the text alone.
pub fn save_lookup<V: Verifier>(
    alloc: Global,
    verifier: &V,
    lookup: &SavedLookup<'_>,
) -> Result<Vec<u8>, SaveError>
    ensures text { IfOk result (λ v. v.items ≡ saved_text (saved_by (V.answers verifier.now) lookup.now)) }
    ensures reads { IfOk result (λ v. session_of v.items
        ≡ Ok (session_saved (saved_by (V.answers verifier.now) lookup.now))) }
    ensures fits { IfOk result (λ v. length v.items ≤ input_limit) }
    ensures answers { OnOk result (IsAnsweredSo (session_saved (saved_by (V.answers verifier.now) lookup.now)) lookup.now.answer) }
    ensures unsaved { IfErr result (IsUnsaved (V.answers verifier.now) lookup.now) }
{
    let text = saved_text(alloc, verifier, lookup)?;
    if text.len() > INPUT_LIMIT {
        return Err(SaveError::LongText);
    }
    if !is_answered_so(alloc, &text, lookup.answer)? {
        return Err(SaveError::Differs);
    }
    Ok(text)
}

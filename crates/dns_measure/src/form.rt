//! The words that the program takes.
ghost use Rattle.std.specs.Prelude.{◌≡◌};
ghost use Rattle.dns_text.specs.Words.{decimal_in};
ghost use Rattle.dns_measure.specs.Forms.{asked_form, denials_form, judging_in as judging_of_word, passes_in as passes_of_word, reading_form, repeated_form, repeated_work as work_of_word, signed_form};

use crate::denials::Judging;
use dns_text::{decimal_in, u16_in};

/// What is done with a session.
#[derive(Clone, Copy)]
pub enum SessionWork {
    /// Its query is looked up, over one validator, whose cache is filled by the first lookup.
    LookUp,
    /// The same, each time with an empty cache.
    LookUpAnew,
    /// A request for its query is answered, over one validator, whose cache is filled by the first lookup.
    Respond,
    /// The same, each time with an empty cache.
    RespondAnew,
    /// What the NSEC or NSEC3 records of each reply prove is told. Once alone.
    Verdicts,
    /// Something is asked of those records.
    Denials(Judging),
}

/// What is done with an input.
#[derive(Clone, Copy)]
pub enum Work {
    /// Its messages are decoded.
    Decode,
    /// It is a session.
    OnSession(SessionWork),
    /// Each of its lines is a signature, which is verified. Once alone.
    Signatures,
    /// Each of its lines is a request with what its lookup came to, which is replied to. Once alone.
    Replies,
    /// It is a request and a session, over which that is answered. Once alone.
    Responses,
}

/// What the program is asked for.
#[derive(Clone, Copy)]
pub enum Form {
    /// To read an input and to work on it so many times.
    Reading(Work, u32),
    /// To make the signed bytes of a set of so many records so many times.
    Signed(u16, u32),
}

// How often.
fn passes_in(word: &[u8]) -> Option<u32>
    ensures { result ≡ passes_of_word word.now }
{
    let passes = decimal_in(word, 4_294_967_295)?;
    Some(passes as u32)
}

// To work on an input as often as a word says.
fn reading_form(work: Work, passes: &[u8]) -> Option<Form>
    ensures { result ≡ reading_form work (passes_of_word passes.now) }
{
    let passes = passes_in(passes)?;
    Some(Form::Reading(work, passes))
}

// To make signed bytes as two words say.
fn signed_form(records: &[u8], passes: &[u8]) -> Option<Form>
    ensures { result ≡ signed_form (decimal_in 65535 records.now) (passes_of_word passes.now) }
{
    let records = u16_in(records)?;
    let passes = passes_in(passes)?;
    Some(Form::Signed(records, passes))
}

// What is asked of records.
fn judging_in(word: &[u8]) -> Option<Judging>
    ensures { result ≡ judging_of_word word.now }
{
    if word == b"gathered".as_slice() {
        return Some(Judging::Gathered);
    }
    if word == b"listed".as_slice() {
        return Some(Judging::Listed);
    }
    if word == b"indexed".as_slice() {
        return Some(Judging::Indexed);
    }
    if word == b"in-list".as_slice() {
        return Some(Judging::InList);
    }
    if word == b"in-index".as_slice() {
        return Some(Judging::InIndex);
    }
    None
}

// To ask of records as two words say.
fn denials_form(judging: &[u8], passes: &[u8]) -> Option<Form>
    ensures { result ≡ denials_form (judging_of_word judging.now) (passes_of_word passes.now) }
{
    let judging = judging_in(judging)?;
    reading_form(Work::OnSession(SessionWork::Denials(judging)), passes)
}

// What is done as often as is said.
fn repeated_work(word: &[u8]) -> Option<Work>
    ensures { result ≡ work_of_word word.now }
{
    if word == b"decode".as_slice() {
        return Some(Work::Decode);
    }
    if word == b"lookup".as_slice() {
        return Some(Work::OnSession(SessionWork::LookUp));
    }
    if word == b"anew".as_slice() {
        return Some(Work::OnSession(SessionWork::LookUpAnew));
    }
    if word == b"respond".as_slice() {
        return Some(Work::OnSession(SessionWork::Respond));
    }
    if word == b"respond-anew".as_slice() {
        return Some(Work::OnSession(SessionWork::RespondAnew));
    }
    None
}

// To work on an input as two words say.
fn repeated_form(name: &[u8], passes: &[u8]) -> Option<Form>
    ensures { result ≡ repeated_form (work_of_word name.now) (passes_of_word passes.now) }
{
    let work = repeated_work(name)?;
    reading_form(work, passes)
}

/// What words ask for.
pub(crate) fn form_of(words: &[Vec<u8>]) -> Option<Form>
    ensures { result ≡ asked_form words.now }
{
    match words {
        [name] => {
            if name.as_slice() == b"verdicts".as_slice() {
                return Some(Form::Reading(Work::OnSession(SessionWork::Verdicts), 1));
            }
            if name.as_slice() == b"signatures".as_slice() {
                return Some(Form::Reading(Work::Signatures, 1));
            }
            if name.as_slice() == b"forwarded".as_slice() {
                return Some(Form::Reading(Work::Replies, 1));
            }
            if name.as_slice() == b"responded".as_slice() {
                return Some(Form::Reading(Work::Responses, 1));
            }
            None
        }
        [name, passes] => repeated_form(name, passes),
        [name, what, passes] => {
            if name.as_slice() == b"signed".as_slice() {
                return signed_form(what, passes);
            }
            if name.as_slice() == b"denials".as_slice() {
                return denials_form(what, passes);
            }
            None
        }
        _ => None,
    }
}

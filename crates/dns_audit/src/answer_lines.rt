//! The lines before an answer's records.
ghost use Rattle.std.specs.Prelude.{◌≡◌};
ghost use Rattle.std.specs.Option.{option_map, option_copied};
ghost use Rattle.dns_model.specs.declared.denial.Denial.TheVariants.{Absent, Expanded};
ghost use Rattle.dns_session.specs.Lines.{words_left};
ghost use Rattle.dns_audit.specs.ReportLines.{code_line, denial_by, denial_line, marked, whole};

use crate::report_words::mark_in;
use crate::word_cuts::first_of;
use dns_model::{Denial, Proof};
use dns_record::ResponseCode;
use dns_session::{after, single};
use dns_text::u16_in;

/// The code of a `code` line.
pub(crate) fn code_of(line: &[u8]) -> Option<ResponseCode>
    ensures { option_map (λ code. code.0) result ≡ code_line line.now }
{
    let word = single(after(line, b"code")?)?;
    let number = u16_in(word)?;
    Some(ResponseCode(number))
}

/// A mark, and what is left after it.
pub(crate) fn mark_front(rest: Option<&[u8]>) -> Option<(Proof, Option<&[u8]>)>
    ensures { option_map (λ x. (x.0, words_left (option_copied x.1))) result
        ≡ marked (λ mark. mark) (words_left (option_copied rest.entry)) }
{
    let (word, left) = first_of(rest)?;
    let mark = mark_in(word)?;
    Some((mark, left))
}

/// What is denied, by its first word, and what is left after it.
pub(crate) fn denial_by<'a>(
    kind: &[u8],
    rest: Option<&'a [u8]>,
) -> Option<(Denial, Option<&'a [u8]>)>
    ensures { option_map (λ x. (x.0, words_left (option_copied x.1))) result
        ≡ denial_by kind.now (words_left (option_copied rest.entry)) }
{
    if kind == b"none".as_slice() {
        return Some((Denial::None, rest));
    }
    if kind == b"absent".as_slice() {
        let (mark, left) = mark_front(rest)?;
        return Some((Denial::Absent(mark), left));
    }
    if kind == b"expanded".as_slice() {
        let (mark, left) = mark_front(rest)?;
        return Some((Denial::Expanded(mark), left));
    }
    None
}

// What is denied, where no word is left.
#[tactic(auto, unfolding(crate::specs::ReportLines::whole), using(crate::proofs::ShortLines::not_whole))]
fn whole(denial: Denial, rest: Option<&[u8]>) -> Option<Denial>
    ensures { result ≡ whole denial (words_left (option_copied rest.entry)) }
{
    if rest.is_some() { None } else { Some(denial) }
}

/// The denial of a `denial` line.
pub(crate) fn denial_of(line: &[u8]) -> Option<Denial>
    ensures { result ≡ denial_line line.now }
{
    let (kind, more) = first_of(after(line, b"denial")?)?;
    let (denial, left) = denial_by(kind, more)?;
    whole(denial, left)
}

//! Questions as a text.
ghost use Rattle.std.specs.Prelude.{◌≡◌, ◌++◌, ◌∷◌, OnOk, IfOk};
ghost use Rattle.std.specs.List.{flat_map};
ghost use Rattle.dns_text.specs.Words.{octets_word};
ghost use Rattle.dns_questions.specs.QuestionsText.{accept_words, accept_text, questions_text};

use dns_record::NoMemory;
use dns_session::AcceptedSignature;
use dns_text::{push_decimal, push_octets};
use std::alloc::Global;

// Appends a space, and the word of bytes.
fn push_spaced(into: &mut Vec<u8>, bytes: &[u8]) -> Result<(), NoMemory>
    ensures { OnOk result (into.new.items ≡ into.old.items ++ (32 ∷ octets_word bytes.now)) }
{
    into.push(b' ')?;
    push_octets(into, bytes)
}

// Appends the words of a question's line, without LF.
fn push_words(into: &mut Vec<u8>, question: &AcceptedSignature) -> Result<(), NoMemory>
    ensures { OnOk result (into.new.items ≡ into.old.items ++ accept_words question.now) }
{
    into.extend_from_slice(b"accept ")?;
    push_decimal(into, u64::from(question.algorithm))?;
    push_spaced(into, question.key.as_slice())?;
    push_spaced(into, question.bytes.as_slice())?;
    push_spaced(into, question.signature.as_slice())
}

// Appends the line of a question.
fn push_question(into: &mut Vec<u8>, question: &AcceptedSignature) -> Result<(), NoMemory>
    ensures { OnOk result (into.new.items ≡ into.old.items ++ accept_text question.now) }
{
    push_words(into, question)?;
    into.push(b'\n')?;
    Ok(())
}

// Appends a line for each question.
fn push_questions(into: &mut Vec<u8>, questions: &[AcceptedSignature]) -> Result<(), NoMemory>
    ensures { OnOk result (into.new.items ≡ into.old.items ++ flat_map accept_text questions.now) }
{
    for question in questions {
        push_question(into, question)?;
    }
    Ok(())
}

/// Questions as a text: a line for each, in order, as a session says that it is accepted, between a first and a last line. It
/// fails only where memory runs out.
#[tactic(auto, unfolding(crate::specs::QuestionsText::questions_text))]
pub fn write_questions(alloc: Global, questions: &[AcceptedSignature]) -> Result<Vec<u8>, NoMemory>
    ensures { IfOk result (λ v. v.items ≡ questions_text questions.now) }
{
    let mut text = Vec::new(alloc);
    text.extend_from_slice(b"dns-questions 1\n")?;
    push_questions(&mut text, questions)?;
    text.extend_from_slice(b"end\n")?;
    Ok(text)
}

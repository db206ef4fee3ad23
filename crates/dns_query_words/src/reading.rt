//! Reading the words of a command line, from the left.
ghost use Rattle.std.specs.Prelude.{map};
ghost use Rattle.dns_model.specs.Gives.{Gives};
ghost use Rattle.dns_query_words.specs.Reading.{after_word, blank, drafted, form_in, placed};
ghost use Rattle.dns_query_words.specs.declared.stop.WordsError.TheVariants.{NoMemory as without_memory};

use crate::arguments::Form;
use crate::draft::Draft;
use crate::stop::WordsError;
use std::alloc::Global;

// What is known after one more word, the one of this number.
fn taken<'a>(
    alloc: Global,
    draft: Draft<'a>,
    at: usize,
    word: &'a [u8],
) -> Result<Draft<'a>, WordsError>
    ensures { Gives (λ d. d) without_memory result (placed at (after_word draft.entry word.now)) }
{
    match draft.after_word(alloc, word) {
        Ok(next) => Ok(next),
        Err(stop) => Err(stop.at(at)),
    }
}

// What is known after these words.
#[tactic(auto, unfolding(crate::specs::Reading::drafted))]
fn drafted<'a>(alloc: Global, words: &'a [Vec<u8>]) -> Result<Draft<'a>, WordsError>
    ensures { Gives (λ d. d) without_memory result (drafted blank 0 (map (λ w. w.items) words.now)) }
{
    let mut draft = Draft::blank();
    let mut at = 0;
    let mut rest = words;
    'words: while let Some((word, more)) = rest.split_first() {
        draft = taken(alloc, draft, at, word)?;
        at += 1;
        rest = more;
    }
    Ok(draft)
}

/// What the words of a command line ask for, those after the program's name:
/// `[@SERVER] NAME [TYPE] [--tcp] [--no-cd] [--trail] [--chain] [--json] [--anchors FILE] [--depth N] [--save FILE]
/// [--timeout SECONDS]`, `--help` or `--version`.
///
/// Options stand anywhere, and an option's value is the next word. A name is taken from the root, with or without its last dot. A type
/// is a word in whatever case, as `A`, which it is where none is said, or `TYPE` and any type's number (RFC 3597, 5). `--depth` takes 0 to 255,
/// `--timeout` takes 1 to 65,535 seconds. The first word from the left that can't stand is refused; what is missing is told last.
/// What stands behind `@` isn't read here: [`server_in`](crate::server_in) does that.
pub fn read_words<'a>(alloc: Global, words: &'a [Vec<u8>]) -> Result<Form<'a>, WordsError>
    ensures { Gives (λ f. f) without_memory result (form_in (map (λ w. w.items) words.now)) }
{
    let draft = drafted(alloc, words)?;
    draft.finished(words.len())
}

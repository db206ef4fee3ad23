//! A line as words with one space between each two.
ghost use Rattle.std.specs.Prelude.{◌≡◌, ◌∷◌, ◌+◌, ◌<◌, length, IfSome};
ghost use Rattle.std.specs.Option.{option_map, option_copied};
ghost use Rattle.dns_session.specs.Lines.{words, words_left, after, single, double, triple, quadruple};

use crate::lines::cut_at;

/// The first word of a text, and what is left after the space behind it, if there is one.
pub fn next_word(text: &[u8]) -> (&[u8], Option<&[u8]>)
    ensures words { words text.now ≡ result.0.now ∷ words_left (option_copied result.1) }
    ensures shorter { IfSome result.1 (λ rest. length rest.now < length text.now) }
{
    match cut_at(text, b' ') {
        Some((word, rest)) => (word, Some(rest)),
        None => (text, None),
    }
}

/// What is left of a line after its first word, where that is this word.
pub fn after<'a>(line: &'a [u8], word: &[u8]) -> Option<Option<&'a [u8]>>
    ensures { option_map (λ rest. words_left (option_copied rest)) result ≡ after word.now (words line.now) }
{
    let (first, rest) = next_word(line);
    if first == word { Some(rest) } else { None }
}

/// The one word that is left.
pub fn single(rest: Option<&[u8]>) -> Option<&[u8]>
    ensures { option_copied result ≡ single (words_left (option_copied rest.entry)) }
{
    let (word, more) = next_word(rest?);
    match more {
        Some(_) => None,
        None => Some(word),
    }
}

/// The two words that are left.
pub fn double(rest: Option<&[u8]>) -> Option<(&[u8], &[u8])>
    ensures { option_map (λ x. (x.0.now, x.1.now)) result ≡ double (words_left (option_copied rest.entry)) }
{
    let (first, more) = next_word(rest?);
    let second = single(more)?;
    Some((first, second))
}

/// The three words that are left.
pub fn triple(rest: Option<&[u8]>) -> Option<(&[u8], &[u8], &[u8])>
    ensures { option_map (λ x. (x.0.now, x.1.now, x.2.now)) result ≡ triple (words_left (option_copied rest.entry)) }
{
    let (first, more) = next_word(rest?);
    let (second, third) = double(more)?;
    Some((first, second, third))
}

/// The four words that are left.
pub fn quadruple(rest: Option<&[u8]>) -> Option<(&[u8], &[u8], &[u8], &[u8])>
    ensures { option_map (λ x. (x.0.now, x.1.now, x.2.now, x.3.now)) result
        ≡ quadruple (words_left (option_copied rest.entry)) }
{
    let (first, more) = next_word(rest?);
    let (second, third, fourth) = triple(more)?;
    Some((first, second, third, fourth))
}

//! The words in front of what is left of a line.
ghost use Rattle.std.specs.Prelude.{◌≡◌};
ghost use Rattle.std.specs.Option.{option_map, option_copied};
ghost use Rattle.dns_session.specs.Lines.{words_left};
ghost use Rattle.dns_audit.specs.LineParts.{quintuple, sextuple, first_of, two_of, three_of, four_of, six_of};

use dns_session::{next_word, quadruple};

/// The five words that are left.
pub(crate) fn quintuple(rest: Option<&[u8]>) -> Option<(&[u8], &[u8], &[u8], &[u8], &[u8])>
    ensures { option_map (λ x. (x.0.now, x.1.now, x.2.now, x.3.now, x.4.now)) result
        ≡ quintuple (words_left (option_copied rest.entry)) }
{
    let (a, more) = next_word(rest?);
    let (b, c, d, e) = quadruple(more)?;
    Some((a, b, c, d, e))
}

/// The six words that are left.
pub(crate) fn sextuple(rest: Option<&[u8]>) -> Option<(&[u8], &[u8], &[u8], &[u8], &[u8], &[u8])>
    ensures { option_map (λ x. (x.0.now, x.1.now, x.2.now, x.3.now, x.4.now, x.5.now)) result
        ≡ sextuple (words_left (option_copied rest.entry)) }
{
    let (a, more) = next_word(rest?);
    let (b, c, d, e, f) = quintuple(more)?;
    Some((a, b, c, d, e, f))
}

/// The next word, and what is left after it.
pub(crate) fn first_of(rest: Option<&[u8]>) -> Option<(&[u8], Option<&[u8]>)>
    ensures { option_map (λ x. (x.0.now, words_left (option_copied x.1))) result
        ≡ first_of (words_left (option_copied rest.entry)) }
{
    Some(next_word(rest?))
}

/// The next two words, and what is left after them.
pub(crate) fn two_of(rest: Option<&[u8]>) -> Option<(&[u8], &[u8], Option<&[u8]>)>
    ensures { option_map (λ x. (x.0.now, x.1.now, words_left (option_copied x.2))) result
        ≡ two_of (words_left (option_copied rest.entry)) }
{
    let (a, more) = next_word(rest?);
    let (b, left) = first_of(more)?;
    Some((a, b, left))
}

/// The next three words, and what is left after them.
pub(crate) fn three_of(rest: Option<&[u8]>) -> Option<(&[u8], &[u8], &[u8], Option<&[u8]>)>
    ensures { option_map (λ x. (x.0.now, x.1.now, x.2.now, words_left (option_copied x.3))) result
        ≡ three_of (words_left (option_copied rest.entry)) }
{
    let (a, more) = next_word(rest?);
    let (b, c, left) = two_of(more)?;
    Some((a, b, c, left))
}

/// The next four words, and what is left after them.
pub(crate) fn four_of(rest: Option<&[u8]>) -> Option<(&[u8], &[u8], &[u8], &[u8], Option<&[u8]>)>
    ensures { option_map (λ x. (x.0.now, x.1.now, x.2.now, x.3.now, words_left (option_copied x.4))) result
        ≡ four_of (words_left (option_copied rest.entry)) }
{
    let (a, more) = next_word(rest?);
    let (b, c, d, left) = three_of(more)?;
    Some((a, b, c, d, left))
}

/// The next six words, and what is left after them.
pub(crate) fn six_of(
    rest: Option<&[u8]>,
) -> Option<(&[u8], &[u8], &[u8], &[u8], &[u8], &[u8], Option<&[u8]>)>
    ensures { option_map
        (λ x. (x.0.now, x.1.now, x.2.now, x.3.now, x.4.now, x.5.now, words_left (option_copied x.6))) result
        ≡ six_of (words_left (option_copied rest.entry)) }
{
    let (a, b, more) = two_of(rest)?;
    let (c, d, e, f, left) = four_of(more)?;
    Some((a, b, c, d, e, f, left))
}

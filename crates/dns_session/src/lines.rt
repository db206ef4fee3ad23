//! A text as lines that end with LF, each with its number.
ghost use Rattle.std.specs.Prelude.{◌≡◌, ◌∷◌, ◌+◌, ◌<◌, ◌≤◌, ◌==◌, ◌^◌, [], false, length, take, position, MatchOption, IfSome};
ghost use Rattle.std.specs.List.{list_any};
ghost use Rattle.std.specs.Option.{option_map};
ghost use Rattle.dns_session.specs.LinePlaces.{pieces, next_line, start_of, is_ended};

use std::marker::Model;

/// How many bytes are looked at in one step while none of them is the one that is looked for.
const BLOCK: usize = 64;

// Whether a byte of this value stands in a block. No branch looks at a byte, so that many are compared at once.
fn has_byte(block: &[u8], byte: u8) -> bool
    ensures { result ≡ list_any (λ b. b == byte) block.now }
{
    let mut found = false;
    for next in block {
        found |= *next == byte;
    }
    found
}

// How many bytes in front, in whole blocks, have another value.
fn count_before(text: &[u8], byte: u8) -> usize
    ensures within { result ≤ length text.now }
    ensures others { list_any (λ b. b == byte) (take result text.now) ≡ false }
{
    let mut count = 0;
    'steps: while text.len() - count >= BLOCK && !has_byte(&text[count..count + BLOCK], byte) {
        count += BLOCK;
    }
    count
}

// Where a byte of this value stands first, looked for byte by byte.
fn near_place(text: &[u8], byte: u8) -> Option<usize>
    ensures value { result ≡ position (λ b. b == byte) text.now }
    ensures within { IfSome result (λ at. at < length text.now) }
{
    text.iter().position(|b| *b == byte)
}

// Where a byte of this value stands first.
fn place_of(text: &[u8], byte: u8) -> Option<usize>
    ensures value { result ≡ position (λ b. b == byte) text.now }
    ensures within { IfSome result (λ at. at < length text.now) }
{
    let count = count_before(text, byte);
    let at = near_place(&text[count..], byte)?;
    Some(count + at)
}

/// The bytes before the first byte of a value, and those after it.
pub(crate) fn cut_at(text: &[u8], byte: u8) -> Option<(&[u8], &[u8])>
    ensures cut { MatchOption result (pieces byte text.now ≡ text.now ∷ [])
        (λ x. pieces byte text.now ≡ x.0.now ∷ pieces byte x.1.now) }
    ensures shorter { IfSome result (λ x. length x.0.now + 1 + length x.1.now ≡ length text.now) }
{
    let at = place_of(text, byte)?;
    Some((&text[..at], &text[at + 1..]))
}

/// The lines of a text from a place on.
#[derive(Drop)]
pub struct Lines<'a> {
    /// The number of the next line, from 1.
    number: u64,
    rest: &'a [u8],
}

impl<'a> Model for Lines<'a> {
    ghost use Rattle.std.specs.Prelude.{length, ◌+◌, ◌≤◌, ◌<◌, ◌^◌};
    ghost use Rattle.dns_session.specs.LinePlaces.{Place, place, pieces};

    ghost Value = { Place };

    ghost view = { λ l. place l.number (pieces 10 l.rest.now) };

    ghost invariant = { λ l. (l.number + length l.rest.now ≤ 2 ^ 63) × (length l.rest.now < 2 ^ 32) };
}

impl<'a> Lines<'a> {
    /// All lines of a text.
    pub fn of(text: &'a [u8]) -> Lines<'a>
        requires { length text.now < 2 ^ 32 }
        ensures { result ≡ start_of text.now }
    {
        Lines {
            number: 1,
            rest: text,
        }
    }

    /// The number of the next line.
    pub fn number(&self) -> u64
        ensures { result ≡ self.now.number }
    {
        self.number
    }

    /// The next line, and those after it; none where no LF is left.
    pub fn next(&self) -> Option<(&'a [u8], Lines<'a>)>
        ensures next { option_map (λ x. (x.0.now, x.1)) result ≡ next_line self.now }
        ensures short { IfSome result (λ x. length x.0.now < 2 ^ 32) }
    {
        let (line, rest) = cut_at(self.rest, b'\n')?;
        let number = self.number + 1;
        Some((line, Lines { number, rest }))
    }

    /// No bytes are left.
    pub fn is_ended(&self) -> bool
        ensures { result ≡ is_ended self.now }
    {
        self.rest.is_empty()
    }
}

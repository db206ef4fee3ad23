//! Numbers as decimal digits, read and written.
ghost use Rattle.std.specs.Prelude.{◌≡◌, ◌++◌, ◌≤◌, ◌<◌, ◌^◌, ◌-◌, OnOk, OnErr, IfSome};
ghost use Rattle.std.specs.Fmt.{decimal};
ghost use Rattle.std.specs.Int.{IsInRange};
ghost use Rattle.std.specs.Option.{SomeIff, option_map};
ghost use Rattle.dns_text.specs.Words.{is_unpadded, decimal_in};
ghost use Rattle.dns_text.specs.Digits.{with_digit, read_after};

use dns_record::NoMemory;
use itoa::Buffer;

// The number with one more digit, if that is a number of 64 bits.
#[tactic(auto, unfolding(crate::specs::Digits::with_digit))]
fn with_digit(number: u64, byte: u8) -> Option<u64>
    ensures { result ≡ with_digit number byte }
{
    if !byte.is_ascii_digit() {
        return None;
    }
    let tenfold = number.checked_mul(10)?;
    tenfold.checked_add(u64::from(byte - b'0'))
}

// The number that digits are, if it has 64 bits; no digits are 0.
#[tactic(auto, using(crate::proofs::DecimalLemmas::read_after_turn, crate::proofs::DecimalLemmas::read_after_end))]
fn read_digits(word: &[u8]) -> Option<u64>
    ensures { result ≡ read_after 0 word.now }
{
    let mut number = 0;
    for byte in word {
        number = with_digit(number, *byte)?;
    }
    Some(number)
}

// No zero stands before another digit.
fn is_unpadded(word: &[u8]) -> bool
    ensures { result ≡ is_unpadded word.now }
{
    match word {
        [] => false,
        [_] => true,
        [first, ..] => *first != b'0',
    }
}

/// The number that a word is, where it is no more than the limit: decimal digits without a zero before others.
#[tactic(auto, using(crate::proofs::DecimalLemmas::decimal_from_none, crate::proofs::DecimalLemmas::decimal_from_some, crate::proofs::DecimalLemmas::decimal_padded))]
pub fn decimal_in(word: &[u8], limit: u64) -> Option<u64>
    ensures value { result ≡ decimal_in limit word.now }
    ensures within { IfSome result (λ n. n ≤ limit) }
{
    if !is_unpadded(word) {
        return None;
    }
    let number = read_digits(word)?;
    if number <= limit { Some(number) } else { None }
}

/// The number of eight bits that a word is.
pub fn u8_in(word: &[u8]) -> Option<u8>
    ensures { result ≡ decimal_in 255 word.now }
{
    let number = decimal_in(word, 255)?;
    Some(number as u8)
}

/// The number of sixteen bits that a word is.
pub fn u16_in(word: &[u8]) -> Option<u16>
    ensures { result ≡ decimal_in 65535 word.now }
{
    let number = decimal_in(word, 65535)?;
    Some(number as u16)
}

/// Puts a number's digits behind bytes; they stay where memory runs out.
pub fn push_decimal(text: &mut Vec<u8>, number: u64) -> Result<(), NoMemory>
    ensures ok { OnOk result (text.new.items ≡ text.old.items ++ decimal number) }
    ensures err { OnErr result (text.new.items ≡ text.old.items) }
{
    let mut buffer = Buffer::new();
    text.extend_from_slice(buffer.format(number).as_bytes())?;
    Ok(())
}

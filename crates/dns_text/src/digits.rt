//! Pairs of hexadecimal digits as bytes, and bytes as such pairs.
ghost use Rattle.std.specs.Prelude.{◌≡◌, ◌++◌, ◌+◌, ◌*◌, ◌%◌, ◌<◌, ◌≤◌, Some, None, cond, length, slice_index, unwrap_or, IfOk, IfSome, OnOk, OnErr, vec_len};
ghost use Rattle.std.specs.Option.{option_map};
ghost use Rattle.hex.specs.Hex.{encode_lower, hex_digit_value, lower_digits};
ghost use Rattle.dns_text.specs.Pairs.{pairs_in};

use std::alloc::{AllocError, Global};

// The value of a hexadecimal digit of either case; 16 for another byte.
fn digit_value(byte: u8) -> u8
    ensures value { result ≡ unwrap_or (hex_digit_value byte) 16 }
    ensures most { result ≤ 16 }
{
    match byte {
        b'0'..=b'9' => byte - b'0',
        b'a'..=b'f' => byte - b'a' + 10,
        b'A'..=b'F' => byte - b'A' + 10,
        _ => 16,
    }
}

// Writes the bytes of pairs of hexadecimal digits, and answers whether all were digits. Where not, the bytes say nothing.
//
// No branch looks at a digit: the processor would guess it wrong about every other time.
fn decode_pairs(digits: &[u8], into: &mut [u8]) -> bool
    requires { length digits.now ≡ 2 * length into.old }
    ensures { pairs_in digits.now ≡ cond result (Some into.new) None }
{
    let mut worst = 0u8;
    'pairs: for at in 0..into.len() {
        let high = digit_value(digits[2 * at]);
        let low = digit_value(digits[2 * at + 1]);
        into[at] = high % 16 * 16 + low % 16;
        worst = worst.max(high).max(low);
    }
    worst < 16
}

// As many bytes, to be written over.
fn room_for(alloc: Global, count: usize) -> Result<Vec<u8>, AllocError>
    ensures { IfOk result (λ room. vec_len room ≡ count) }
{
    vec![in alloc; 0u8; count]
}

/// The bytes of pairs of hexadecimal digits, if all are digits.
pub(crate) fn bytes_of_pairs(alloc: Global, digits: &[u8]) -> Result<Option<Vec<u8>>, AllocError>
    requires { length digits.now % 2 ≡ 0 }
    ensures { IfOk result (λ bytes. option_map (λ b. b.items) bytes ≡ pairs_in digits.now) }
{
    let mut bytes = room_for(alloc, digits.len() / 2)?;
    if decode_pairs(digits, &mut bytes) {
        Ok(Some(bytes))
    } else {
        Ok(None)
    }
}

// The digit of a value, in lower case.
fn lower_digit(value: u8) -> u8
    requires { value < 16 }
    ensures { result ≡ slice_index lower_digits value }
{
    if value < 10 {
        b'0' + value
    } else {
        b'a' - 10 + value
    }
}

// Writes the digits of bytes, two for each.
//
// LLVM makes vectors of the loop, unless it stands within another.
#[inline(never)]
fn encode_pairs(bytes: &[u8], into: &mut [u8])
    requires { length into.old ≡ 2 * length bytes.now }
    ensures { into.new ≡ encode_lower bytes.now }
{
    'bytes: for at in 0..bytes.len() {
        let high = lower_digit(bytes[at] / 16);
        let low = lower_digit(bytes[at] % 16);
        into[2 * at] = high;
        into[2 * at + 1] = low;
    }
}

// How long a text is with two digits behind it for each of so many bytes, if that is a length.
fn length_with(front: usize, count: usize) -> Option<usize>
    ensures { IfSome result (λ end. end ≡ front + 2 * count) }
{
    let digits = count.checked_mul(2)?;
    front.checked_add(digits)
}

/// Puts the digits of bytes, in lower case, behind a text; the text stays where memory runs out.
pub(crate) fn push_pairs(text: &mut Vec<u8>, bytes: &[u8]) -> Result<(), AllocError>
    ensures ok { OnOk result (text.new.items ≡ text.old.items ++ encode_lower bytes.now) }
    ensures err { OnErr result (text.new.items ≡ text.old.items) }
{
    let front = text.len();
    let Some(end) = length_with(front, bytes.len()) else {
        return Err(AllocError);
    };
    text.resize(end, 0)?;
    encode_pairs(bytes, &mut text[front..]);
    Ok(())
}

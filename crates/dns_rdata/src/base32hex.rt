//! Hashes as texts of base32 with the extended hex alphabet (RFC 4648, 7).
ghost use Rattle.std.specs.Prelude.{◌≡◌, ◌<◌, ◌%◌, length, map};
ghost use Rattle.std.specs.List.{list_all};
ghost use Rattle.std.specs.Int.Digits.{number_from_digits};
ghost use Rattle.dns_model.specs.Nsec3Hash.{base32hex, base32hex_bytes, base32hex_decode as decoded, five_bytes as bytes_of_bits, groups_of_five, is_hash_text as is_text, is_symbol as is_symbol_in, symbol as symbol_of_bits, symbol_bits as bits_of_symbol};

use arrayvec::ArrayVec;

/// A hash as 32 symbols of base32 with the extended hex alphabet, in lower case and without padding (RFC 4648, 7; RFC 5155,
/// 3.3). It takes no memory.
pub fn base32hex_encode(hash: &[u8; 20]) -> [u8; 32]
    ensures text { result ≡ base32hex hash.now }
    ensures read { base32hex_bytes result ≡ hash.now }
{
    encoded(hash.as_slice())
}

// The same of 20 bytes.
fn encoded(hash: &[u8]) -> [u8; 32]
    requires { length hash.now ≡ 20 }
    ensures text { result ≡ base32hex hash.now }
    ensures read { base32hex_bytes result ≡ hash.now }
{
    let mut text = ArrayVec::<u8, 32>::new();
    let mut rest = hash;
    'groups: while let Some((group, after)) = rest.split_first_chunk::<5>() {
        let _fits = text.try_extend_from_slice(symbols(forty_bits(group)).as_slice());
        rest = after;
    }
    // four groups of eight symbols fill it
    text.into_inner().unwrap_or([0; 32])
}

/// The hash that a text is in base32 with the extended hex alphabet (RFC 4648, 7); `None` where it hasn't 32 symbols of 0 to 9
/// and a to v, in either case. It takes no memory.
pub fn base32hex_decode(text: &[u8]) -> Option<[u8; 20]>
    ensures { result ≡ decoded text.now }
{
    if is_hash_text(text) {
        Some(bytes_of(text))
    } else {
        None
    }
}

/// Whether a text is a hash in base32 with the extended hex alphabet, in either case.
pub fn is_hash_text(text: &[u8]) -> bool
    ensures { result ≡ is_text text.now }
{
    if text.len() != 32 {
        return false;
    }
    are_symbols(text)
}

// Whether each byte is a symbol of base32hex, in either case (RFC 4648, 7).
fn are_symbols(text: &[u8]) -> bool
    ensures { result ≡ list_all is_symbol_in text.now }
{
    let mut rest = text;
    'symbols: while let Some((c, more)) = rest.split_first() {
        if !is_symbol(*c) {
            return false;
        }
        rest = more;
    }
    true
}

// The bytes of 32 symbols.
fn bytes_of(text: &[u8]) -> [u8; 20]
    requires { length text.now ≡ 32 }
    ensures { result ≡ base32hex_bytes text.now }
{
    let mut hash = ArrayVec::<u8, 20>::new();
    let mut rest = text;
    'groups: while let Some((group, after)) = rest.split_first_chunk::<8>() {
        let _fits = hash.try_extend_from_slice(five_bytes(symbols_number(group)).as_slice());
        rest = after;
    }
    // four groups of five bytes fill it
    hash.into_inner().unwrap_or([0; 20])
}

// Forty bits as a number, the first byte highest.
fn forty_bits(bytes: &[u8; 5]) -> u64
    ensures { result ≡ number_from_digits 256 bytes.now }
{
    let [a, b, c, d, e] = *bytes;
    let first = (a as u64 * 256 + b as u64) * 256 + c as u64;
    (first * 256 + d as u64) * 256 + e as u64
}

// The same of eight symbols.
fn symbols_number(text: &[u8; 8]) -> u64
    ensures { result ≡ number_from_digits 32 (map bits_of_symbol text.now) }
{
    let [a, b, c, d, e, f, g, h] = *text;
    let first = (symbol_bits(a) * 32 + symbol_bits(b)) * 32 + symbol_bits(c);
    let second = (first * 32 + symbol_bits(d)) * 32 + symbol_bits(e);
    ((second * 32 + symbol_bits(f)) * 32 + symbol_bits(g)) * 32 + symbol_bits(h)
}

// Forty bits as eight symbols.
fn symbols(bits: u64) -> [u8; 8]
    ensures { result ≡ map symbol_of_bits (groups_of_five bits) }
{
    [
        symbol(bits / 34359738368),
        symbol(bits / 1073741824),
        symbol(bits / 33554432),
        symbol(bits / 1048576),
        symbol(bits / 32768),
        symbol(bits / 1024),
        symbol(bits / 32),
        symbol(bits),
    ]
}

// Forty bits as five bytes.
fn five_bytes(bits: u64) -> [u8; 5]
    ensures { result ≡ bytes_of_bits bits }
{
    [
        (bits / 4294967296 % 256) as u8,
        (bits / 16777216 % 256) as u8,
        (bits / 65536 % 256) as u8,
        (bits / 256 % 256) as u8,
        (bits % 256) as u8,
    ]
}

// The symbol of the lowest five bits.
fn symbol(bits: u64) -> u8
    ensures { result ≡ symbol_of_bits (bits % 32) }
{
    let five = (bits % 32) as u8;
    if five < 10 { 48 + five } else { 87 + five }
}

// The five bits of a symbol in either case.
fn symbol_bits(c: u8) -> u64
    ensures value { result ≡ bits_of_symbol c }
    ensures bound { result < 256 }
{
    let bits = if c <= b'9' {
        c.saturating_sub(b'0')
    } else {
        c.to_ascii_lowercase().saturating_sub(87)
    };
    bits as u64
}

// Whether a byte is a symbol of base32hex, in either case (RFC 4648, 7).
fn is_symbol(c: u8) -> bool
    ensures { result ≡ is_symbol_in c }
{
    let lower = c.to_ascii_lowercase();
    (b'0' <= c && c <= b'9') || (b'a' <= lower && lower <= b'v')
}

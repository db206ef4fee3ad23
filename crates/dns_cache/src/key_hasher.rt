//! The hasher by which a cache finds its keys unless it is given another one.
ghost use Rattle.std.specs.Prelude.{◌≡◌};
ghost use Rattle.std.specs.Hash.FoldHasher.{folded_multiply as folded_product};
ghost use Rattle.dns_cache.specs.KeyHashing.{bytes_mixed, first_state, short_word as short_word_of, state_after};

use std::hash::{BuildHasherDefault, Hasher};

const MULTIPLIER: u64 = 0x9e37_79b9_7f4a_7c15;

/// A fast hasher for the keys of a cache, which takes eight bytes at a step. It isn't cryptographic, and its seed is known: whoever can
/// choose keys can choose some that fall together.
#[derive(Clone, Copy)]
pub struct KeyHasher {
    state: u64,
}

/// What makes the hashers of a cache unless it is given another one.
pub type DefaultHasher = BuildHasherDefault<KeyHasher>;

impl Default for KeyHasher {
    ghost is_default = { λ h. h ≡ first_state };

    fn default() -> KeyHasher {
        KeyHasher {
            state: 0x243f_6a88_85a3_08d3,
        }
    }
}

impl Hasher for KeyHasher {
    ghost write = { state_after };

    ghost finish = { λ h. h.state };

    fn finish(&self) -> u64 {
        self.state
    }

    fn write(&mut self, bytes: &[u8]) {
        self.state = mix_bytes(self.state, bytes);
    }
}

// The state after some bytes, taken as words of eight; the last word is shorter, and tells how many bytes there were.
fn mix_bytes(before: u64, bytes: &[u8]) -> u64
    ensures { result ≡ bytes_mixed before bytes.now }
{
    let mut state = before;
    let mut rest = bytes;
    'words: while let Some((word, more)) = rest.split_first_chunk::<8>() {
        state = folded_multiply(state ^ u64::from_le_bytes(*word), MULTIPLIER);
        rest = more;
    }
    let last = short_word(rest) ^ (bytes.len() as u64) << 56;
    folded_multiply(state ^ last, MULTIPLIER)
}

// The halves of a product, joined by xor.
fn folded_multiply(a: u64, b: u64) -> u64
    ensures { result ≡ folded_product a b }
{
    let product = a as u128 * b as u128;
    (product & 0xFFFF_FFFF_FFFF_FFFF) as u64 ^ (product >> 64) as u64
}

// Fewer than eight bytes as a number, the first one highest.
fn short_word(bytes: &[u8]) -> u64
    ensures { result ≡ short_word_of bytes.now }
{
    let mut word = 0;
    for byte in bytes {
        word = word << 8 | *byte as u64;
    }
    word
}

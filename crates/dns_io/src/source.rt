//! What gives bytes, and the loop that reads them all.
ghost use Rattle.std.specs.Prelude.{◌≡◌, ◌≢◌, ℕ, ◌+◌, ◌<◌, ◌≤◌, List, length, vec_len, Option, IfSome, IfOk, OnOk, OnErr, IsErr};
ghost use Rattle.std.specs.Io.{ReadsAtMost};
ghost use Rattle.std.specs.Io.KnownBytes.{IsAtEnd, ReadConsumes};
ghost use Rattle.dns_model.specs.Counts.{Rose};
ghost use Rattle.dns_io.specs.Reading.{input_limit, IsEnded, ReadsFront};
ghost use Rattle.dns_io.specs.Pieces.{ReadsOnto};
ghost use Rattle.dns_io.specs.declared.source.ReadStop.TheVariants.{NoMemory};

use std::alloc::{AllocError, Global};

/// The most bytes that an input may have.
pub const INPUT_LIMIT: usize = 16_777_216;

// How many bytes one read asks for.
const PIECE: usize = 65_536;

/// A read failed. Nothing was read.
#[derive(Clone, Copy, Debug, PartialEq, Eq)]
pub struct Failed;

/// Why an input wasn't read to its end.
#[derive(Clone, Copy, Debug, PartialEq, Eq)]
pub enum ReadStop {
    /// A read failed.
    Failed,
    /// The input has more than [`INPUT_LIMIT`] bytes.
    TooLong,
    /// There was no memory for the bytes.
    NoMemory,
}

impl From<AllocError> for ReadStop {
    ghost from_gives = { λ _ e. e ≡ NoMemory };

    fn from(_: AllocError) -> Self {
        ReadStop::NoMemory
    }
}

/// What gives bytes, a piece at a time.
pub trait Source {
    /// The bytes that are left, where the source tells them.
    ghost left: { Self → Option (List ℕ) };

    /// How many reads have failed. It stops at the greatest `u64`.
    ghost faults: { Self → ℕ };

    /// Reads the next bytes into the front of `buf`, and answers how many. None for a buffer that
    /// isn't empty is the end.
    fn read(&mut self, buf: &mut [u8]) -> Result<usize, Failed>
        ensures bound { ReadsAtMost result buf.new }
        ensures bytes { ReadConsumes (left self.old) (left self.new) result buf.new }
        ensures later { faults self.old ≤ faults self.new }
        ensures failed { OnErr result (Rose (faults self.old) (faults self.new)) };
}

/// Reads all that is left, at most [`INPUT_LIMIT`] bytes. One byte past them is read to tell that an
/// input is too long. After an error the bytes that were read are lost.
pub fn read_all<S: Source>(alloc: Global, source: &mut S) -> Result<Vec<u8>, ReadStop>
    ensures bytes { IfOk result (λ all. IfSome (S.left source.old) (λ left. all.items ≡ left)) }
    ensures ended { OnOk result (IsEnded (S.left source.old) (S.left source.new)) }
    ensures fits { IfOk result (λ all. vec_len all ≤ input_limit) }

    // Too long is answered only for such an input, and such an input is never Ok.
    ensures too_long { result ≡ Err ReadStop.TooLong → IfSome (S.left source.old) (λ left. input_limit < length left) }
    ensures long { IfSome (S.left source.old) (λ left. input_limit < length left → IsErr result) }

    ensures failed { result ≡ Err ReadStop.Failed → Rose (S.faults source.old) (S.faults source.new) }
    ensures later { S.faults source.old ≤ S.faults source.new }
    ensures read { ReadsFront (input_limit + 1) (S.left source.old) (S.left source.new) }
{
    let mut piece = zeros(alloc)?;
    let mut all = Vec::new(alloc);
    while all.len() <= INPUT_LIMIT {
        let room = PIECE.min(INPUT_LIMIT + 1 - all.len());
        let count = read_piece(source, &mut piece[..room], &mut all)?;
        if count == 0 {
            return Ok(all);
        }
    }
    Err(ReadStop::TooLong)
}

// Reads once, and puts the bytes that came behind those of `all`. It answers how many came.
fn read_piece<S: Source>(
    source: &mut S,
    piece: &mut [u8],
    all: &mut Vec<u8>,
) -> Result<usize, ReadStop>
    requires { 0 < length piece.old }
    ensures count { IfOk result (λ n. vec_len all.new ≡ vec_len all.old + n) }
    ensures bound { IfOk result (λ n. n ≤ length piece.old) }
    ensures onto { OnOk result (ReadsOnto (S.left source.old) (S.left source.new) all.old.items all.new.items) }
    ensures end { result ≡ Ok 0 → IsAtEnd (S.left source.new) }
    ensures failed { result ≡ Err ReadStop.Failed → Rose (S.faults source.old) (S.faults source.new) }
    ensures no_limit { result ≢ Err ReadStop.TooLong }
    ensures later { S.faults source.old ≤ S.faults source.new }
    ensures read { ReadsFront (length piece.old) (S.left source.old) (S.left source.new) }
{
    match source.read(piece) {
        Ok(count) => {
            all.extend_from_slice(&piece[..count])?;
            Ok(count)
        }
        Err(Failed) => Err(ReadStop::Failed),
    }
}

// A piece to read into.
fn zeros(alloc: Global) -> Result<Vec<u8>, AllocError>
    ensures { IfOk result (λ piece. vec_len piece ≡ PIECE) }
{
    vec![in alloc; 0u8; PIECE]
}

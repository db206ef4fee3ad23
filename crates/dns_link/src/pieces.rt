//! Bytes that are read piece by piece.
ghost use Rattle.std.specs.Prelude.{◌≡◌, ◌≢◌, ◌+◌, ◌<◌, [], All, IfOk, drop, length, map, min, sum, take};
ghost use Rattle.std.specs.List.{concat};
ghost use Rattle.dns_link.specs.Pairs.{first_or_none, new_pieces, read_of_piece};

use dns_record::{NoMemory, Octets};
use std::alloc::Global;
use std::collections::VecDeque;
use std::marker::Model;

/// Bytes that are read piece by piece.
#[derive(Drop)]
pub(crate) struct Pieces {
    bytes: Vec<u8>,
    /// So many bytes were read.
    at: usize,
    /// How many bytes are left of the piece that is read now, and of each later one.
    piece: usize,
    later: VecDeque<usize>,
}

impl Model for Pieces {
    ghost use Rattle.std.specs.Prelude.{drop, take};
    ghost use Rattle.dns_link.specs.Pairs.{PiecesValue};
    ghost use Rattle.dns_link.specs.Pieces.{ArePieces};

    ghost Value = { PiecesValue };

    ghost view = { λ p. record {
      given = take p.at p.bytes.items;
      left = drop p.at p.bytes.items;
      piece = p.piece;
      later = p.later.items;
    } };

    ghost invariant = { λ p. ArePieces p.at p.piece p.later.items p.bytes.items };
}

/// The bytes of pieces in a row.
fn joined(alloc: Global, pieces: &[Octets]) -> Result<Vec<u8>, NoMemory>
    ensures { IfOk result (λ bytes. bytes.items ≡ concat pieces.now) }
{
    let mut bytes = Vec::new(alloc);
    for piece in pieces {
        bytes.extend_from_slice(piece.as_slice())?;
    }
    Ok(bytes)
}

/// The lengths of pieces.
fn lengths(alloc: Global, pieces: &[Octets]) -> Result<VecDeque<usize>, NoMemory>
    requires { All (λ piece. piece ≢ []) pieces.now }
    ensures lengths { IfOk result (λ all. all.items ≡ map length pieces.now) }
    ensures some { IfOk result (λ all. All (λ n. 0 < n) all.items) }
{
    let mut all = VecDeque::new(alloc);
    for piece in pieces {
        all.push_back(piece.len())?;
    }
    Ok(all)
}

/// Copies what fits of `bytes` into the front of `buf`, and answers how many bytes.
fn copy_front(bytes: &[u8], buf: &mut [u8]) -> usize
    ensures count { result ≡ min (length buf.new) (length bytes.now) }
    ensures bytes { take result buf.new ≡ take result bytes.now }
{
    let count = buf.len().min(bytes.len());
    buf[..count].copy_from_slice(&bytes[..count]);
    count
}

/// The length of the next piece; 0 where none is left.
fn next_piece(later: &mut VecDeque<usize>) -> usize
    requires { All (λ n. 0 < n) later.old.items }
    ensures first { result ≡ first_or_none later.old.items }
    ensures rest { later.new.items ≡ drop 1 later.old.items }
    ensures same { result + sum later.new.items ≡ sum later.old.items }
    ensures some { All (λ n. 0 < n) later.new.items }
    ensures last { result ≡ 0 → later.new.items ≡ [] }
{
    later.pop_front().unwrap_or(0)
}

impl Pieces {
    /// Pieces of which none was read yet.
    pub(crate) fn new(alloc: Global, pieces: &[Octets]) -> Result<Pieces, NoMemory>
        requires { All (λ piece. piece ≢ []) pieces.now }
        ensures { IfOk result (λ p. p ≡ new_pieces pieces.now) }
    {
        let bytes = joined(alloc, pieces)?;
        let mut later = lengths(alloc, pieces)?;
        let piece = next_piece(&mut later);
        Ok(Pieces {
            bytes,
            at: 0,
            piece,
            later,
        })
    }

    /// Reads what fits of the piece that is read now, and answers how many bytes.
    pub(crate) fn read(&mut self, buf: &mut [u8]) -> usize
        ensures count { result ≡ min (length buf.new) self.old.piece }
        ensures bytes { take result buf.new ≡ take result self.old.left }
        ensures after { self.new ≡ read_of_piece result self.old }
        ensures end { result ≡ 0 → 0 < length buf.new → self.new.left ≡ [] }
    {
        let end = self.at + self.piece;
        let count = copy_front(&self.bytes[self.at..end], buf);
        self.at += count;
        self.piece -= count;
        if self.piece == 0 {
            self.piece = next_piece(&mut self.later);
        }
        count
    }
}

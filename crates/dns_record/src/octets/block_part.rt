//! A range of a block of bytes that others may share.
ghost use Rattle.std.specs.Prelude.{◌≡◌, ◌≤◌, length, slice_range, take, IfOk};

use crate::NoMemory;
use std::alloc::Global;
use std::marker::Model;
use std::sync::Arc;

/// The most bytes of a block that any part of it keeps from being freed.
const SMALL_BLOCK: usize = 2048;

/// How many times its own bytes a part of a larger block may keep.
const MOST_TIMES: usize = 8;

/// A range of a block that others may share. It is freed with its last sharer. Contracts see the bytes as a list.
#[derive(Drop)]
pub struct BlockPart {
    block: Arc<Vec<u8>>,
    start: usize,
    end: usize,
}

impl Model for BlockPart {
    ghost use Rattle.std.specs.Prelude.{List, ℕ, ◌≤◌, length, slice_range};
    ghost use Rattle.std.specs.Arc.{arc_value};

    ghost Value = { List ℕ };

    ghost view = { λ p. slice_range (arc_value p.block).items p.start p.end };

    ghost invariant = { λ p. (p.start ≤ p.end) × (p.end ≤ length (arc_value p.block).items) };
}

impl BlockPart {
    /// A block of these bytes, whole.
    pub fn whole(alloc: Global, bytes: Vec<u8>) -> Result<BlockPart, NoMemory>
        ensures { IfOk result (λ p. p ≡ bytes.items) }
    {
        let end = bytes.len();
        let block = Arc::new(alloc, bytes)?;
        Ok(BlockPart {
            block,
            start: 0,
            end,
        })
    }

    /// The bytes, lent.
    pub fn as_slice(&self) -> &[u8]
        ensures { result.now ≡ self.now }
    {
        &self.block.as_slice()[self.start..self.end]
    }

    /// Whether so many bytes are worth the block that they would keep.
    pub fn may_keep(&self, bytes: usize) -> bool {
        let block = self.block.len();
        block <= SMALL_BLOCK || block / MOST_TIMES <= bytes
    }

    /// The bytes from one place up to another, of the same block.
    pub fn part(&self, start: usize, end: usize) -> Result<BlockPart, NoMemory>
        requires rises { start ≤ end }
        requires inside { end ≤ length self.now }
        ensures { IfOk result (λ p. p ≡ slice_range self.now start end) }
    {
        let block = Arc::try_clone(&self.block)?;
        Ok(BlockPart {
            block,
            start: self.start + start,
            end: self.start + end,
        })
    }

    /// The first bytes, this many, or all.
    pub fn truncated(self, len: usize) -> BlockPart
        ensures { result ≡ take len self }
    {
        let BlockPart { block, start, end } = self;
        let end = if len < end - start { start + len } else { end };
        BlockPart { block, start, end }
    }

    /// The same bytes, of the same block.
    pub fn share(&self) -> Result<BlockPart, NoMemory>
        ensures { IfOk result (λ p. p ≡ self.now) }
    {
        let block = Arc::try_clone(&self.block)?;
        Ok(BlockPart {
            block,
            start: self.start,
            end: self.end,
        })
    }
}

//! The columns of a plan: the block and the strand of each position.

ghost use Rattle.std.specs.Prelude.{◌≡◌, ◌<◌, ◌≤◌, ℕ, Some, length, slice_get, slice_index, slice_index_or, MatchOption};

use cilk_types::event::{Pos, StrandNo};

/// The blocks and strands of a plan's positions.
#[derive(Clone, Copy)]
pub struct Columns<'a> {
    /// The position of each block's `sync`.
    pub syncs: &'a [Pos],
    /// The position of each block's first spawn.
    pub firsts: &'a [Pos],
    /// The block of each position; a number past the last block if it has none.
    pub blocks: &'a [u32],
    /// The strand that begins at each position, or 0.
    pub strands: &'a [StrandNo],
}

/// A sync block: its number, and the positions of the `sync` that ends it and of its first spawn.
#[derive(Clone, Copy)]
pub struct Block {
    pub number: usize,
    pub sync: Pos,
    pub first: Pos,
}

/// Returns the block of a position, if it is one of the first `count`.
pub(crate) fn block_in(blocks: &[u32], at: Pos, count: usize) -> Option<usize>
    ensures { MatchOption result ((b : ℕ) → slice_get blocks.now at ≡ Some b → count ≤ b) (λ b. (slice_get blocks.now at ≡ Some b) × (b < count)) }
{
    let block = *blocks.get(at as usize)? as usize;
    if block < count { Some(block) } else { None }
}

/// Returns a block's position in a column of one for each block: of its `sync`, or of its first
/// spawn.
pub(crate) fn position_in(column: &[Pos], block: usize) -> Pos
    requires { block < length column.now }
    ensures { result ≡ slice_index column.now block }
{
    column[block]
}

/// Returns the strand that begins at a position, or 0.
pub(crate) fn strand_in(strands: &[StrandNo], at: Pos) -> StrandNo
    ensures { result ≡ slice_index_or strands.now at 0 }
{
    match strands.get(at as usize) {
        Some(strand) => *strand,
        None => 0,
    }
}

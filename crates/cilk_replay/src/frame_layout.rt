//! The cells and reducers of a frame, by their numbers in a plan's run.

use cilk_types::event::{Cell, FrameNo};

/// The cells of a frame: consecutive numbers, from the first on.
#[derive(Clone, Copy)]
pub struct CellBlock {
    pub first: Cell,
    pub cells: u32,
}

/// The layout of a frame: its cells, and its number, which identifies its reducers. `before` is the
/// number of reducers created before its own: the root's frame creates the global ones first.
#[derive(Clone, Copy)]
pub struct FrameLayout {
    pub block: CellBlock,
    pub frame: FrameNo,
    pub before: u32,
}

/// A reducer: the number of the frame that creates it, and its place among that frame's reducers,
/// from 1.
#[derive(Clone, Copy)]
pub struct ReducerNumber {
    pub frame: FrameNo,
    pub place: u64,
}

//! The limits of texts, inputs and runs. A run's limits count totals, not depth or live frames.

use crate::event::{Cell, Pos};

/// Most bytes of a program text.
pub const MAX_TEXT: usize = 262_144;

/// Most input numbers.
pub const MAX_INPUTS: usize = 65_536;

/// Most events of a run.
pub const MAX_EVENTS: Pos = 1_000_000;

/// Most ticks of a run. A tick is counted as a statement begins, and as a part of an expression has
/// its value.
pub const MAX_TICKS: u32 = 16_000_000;

/// Most frames of a run, including the root frame.
pub const MAX_FRAMES: u32 = 65_536;

/// Most cells of a run: the globals and the blocks of all frames.
pub const MAX_CELLS: Cell = 1_048_576;

/// The greatest number of workers of a parallel run.
pub const MAX_WORKERS: u32 = 64;

/// The greatest number of helpers of a check.
pub const MAX_HELPERS: u32 = 16;

//! The limits of a program.

/// Most functions of a program.
pub const MAX_FUNCTIONS: usize = 1024;

/// Most parameters of a function.
pub const MAX_PARAMETERS: usize = 16;

/// Most cells in the frame of a function or a loop body.
pub const MAX_CELLS: u32 = 256;

/// Most declarations of reducers in a program, not counting parameters.
pub const MAX_REDUCERS: u32 = 64;

/// Most global cells.
pub const MAX_GLOBALS: usize = 1_000_000;

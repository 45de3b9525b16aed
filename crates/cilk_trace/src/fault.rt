//! The faults of trace texts.

use thiserror::Error;

/// Why a text isn't read as a trace.
#[derive(Clone, Copy, Debug, Error)]
pub enum TraceFault {
    /// This line, counted from 1, isn't one that may be there.
    #[error("malformed trace at line {line}")]
    Malformed { line: u32 },
    /// The text ends before the end of this line, counted from 1.
    #[error("truncated trace at line {line}")]
    Truncated { line: u32 },
}

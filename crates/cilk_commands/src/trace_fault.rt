//! The reasons why a trace isn't judged.

ghost use Rattle.std.specs.Prelude.{◌≡◌};
ghost use Rattle.cilk_commands.specs.declared.trace_fault.Unjudged.TheVariants as faults;
ghost use Rattle.cilk_commands.specs.TraceFaults.{told};

use cilk_trace::fault::TraceFault;
use std::alloc::AllocError;
use thiserror::Error;

/// Why a trace isn't judged.
#[derive(Clone, Copy, Debug, Error)]
pub enum Unjudged {
    /// This line, counted from 1, isn't one that may be there.
    #[error("malformed trace at line {line}")]
    Malformed { line: u32 },
    /// The text ends before the end of this line, counted from 1.
    #[error("truncated trace at line {line}")]
    Truncated { line: u32 },
    /// A source's device failed.
    #[error("cannot read")]
    Unread,
    #[error("no memory")]
    Memory,
}

impl From<AllocError> for Unjudged {
    ghost from_gives = { λ _ e. e ≡ faults.Memory };

    fn from(_error: AllocError) -> Self {
        Unjudged::Memory
    }
}

impl From<TraceFault> for Unjudged {
    ghost from_gives = { λ fault e. e ≡ told fault };

    fn from(fault: TraceFault) -> Self {
        match fault {
            TraceFault::Malformed { line } => Unjudged::Malformed { line },
            TraceFault::Truncated { line } => Unjudged::Truncated { line },
        }
    }
}

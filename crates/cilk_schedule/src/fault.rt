//! The error of [`crate::play`].

ghost use Rattle.std.specs.Prelude.{◌≡◌};

use cilk_types::fault::Fault;
use std::alloc::AllocError;
use thiserror::Error;

/// The reason why a script wasn't played to its end.
#[derive(Drop, Debug, Error)]
pub enum PlayFault {
    /// The choices of this line, from 1, would exceed the limit of a script.
    #[error("too many choices at line {0}")]
    Line(usize),
    /// A fault stopped the run in the strand with this name: the path of its frame by ordinals,
    /// then the strand's number in its frame.
    #[error("{fault}")]
    Stop { fault: Fault, name: Vec<u32> },
    /// Out of memory.
    #[error("no memory")]
    Memory,
}

impl From<AllocError> for PlayFault {
    ghost use Rattle.cilk_schedule.specs.declared.fault.PlayFault.TheVariants.{Memory};

    ghost from_gives = { λ _ e. e ≡ Memory };

    fn from(_: AllocError) -> PlayFault {
        PlayFault::Memory
    }
}

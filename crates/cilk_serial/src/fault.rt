//! The error of a run without an outcome.

ghost use Rattle.std.specs.Prelude.{◌≡◌};
ghost use Rattle.cilk_serial.specs.declared.fault.RunFault.TheVariants.{Memory};

use cilk_types::event::Pos;
use cilk_types::fault::Fault;
use std::alloc::{AllocError, AllocFailed};
use thiserror::Error;

/// The reason why a run has no outcome.
#[derive(Drop, Debug, Error)]
pub enum RunFault {
    /// Memory was refused, which says nothing about the program.
    #[error("no memory")]
    Memory,
    /// The run stopped by a fault, in place of the event at this position.
    #[error("{fault} at {at}")]
    At { fault: Fault, at: Pos },
}

impl From<AllocError> for RunFault {
    ghost from_gives = { λ _ e. e ≡ Memory };

    fn from(_: AllocError) -> RunFault {
        RunFault::Memory
    }
}

impl<T: Drop> From<AllocFailed<T>> for RunFault {
    ghost from_gives = { λ _ e. e ≡ Memory };

    fn from(_: AllocFailed<T>) -> RunFault {
        RunFault::Memory
    }
}

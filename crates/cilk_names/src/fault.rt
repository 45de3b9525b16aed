//! The fault of a tree whose names don't resolve.

ghost use Rattle.std.specs.Prelude.{◌≡◌};
ghost use Rattle.cilk_names.specs.declared.fault.NameFault.TheVariants.{Memory};

pub use crate::kind::NameErrorKind;
use std::alloc::{AllocError, AllocFailed};
use thiserror::Error;

/// Why names don't resolve: out of memory, or a reason and the byte where it applies, from 0.
#[derive(Debug, Drop, Error)]
pub enum NameFault {
    #[error("no memory")]
    Memory,
    #[error("{0} at byte {1}")]
    At(NameErrorKind, usize),
}

impl From<AllocError> for NameFault {
    ghost from_gives = { λ _ e. e ≡ Memory };

    fn from(_error: AllocError) -> Self {
        NameFault::Memory
    }
}

impl<T: Drop> From<AllocFailed<T>> for NameFault {
    ghost from_gives = { λ _ e. e ≡ Memory };

    fn from(_error: AllocFailed<T>) -> Self {
        NameFault::Memory
    }
}

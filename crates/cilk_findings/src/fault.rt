//! Reasons why a run can't be explained.

use cilk_names::fault::NameFault;
use cilk_parser::fault::TextFault;
use std::alloc::AllocError;

/// The reason why a run can't be explained.
#[derive(Clone, Copy)]
pub enum CaseFault {
    Memory,
    /// The texts aren't a program and its input, or their run isn't the expected one: it has a
    /// fault where none is expected or the other way round, or it misses an event. Texts unchanged
    /// since they were judged don't cause it.
    Unfit,
}

impl From<AllocError> for CaseFault {
    fn from(_: AllocError) -> CaseFault {
        CaseFault::Memory
    }
}

impl From<TextFault> for CaseFault {
    fn from(fault: TextFault) -> CaseFault {
        match fault {
            TextFault::Memory => CaseFault::Memory,
            TextFault::At(_, _) => CaseFault::Unfit,
        }
    }
}

impl From<NameFault> for CaseFault {
    fn from(fault: NameFault) -> CaseFault {
        match fault {
            NameFault::Memory => CaseFault::Memory,
            NameFault::At(_, _) => CaseFault::Unfit,
        }
    }
}

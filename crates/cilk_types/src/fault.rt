//! The faults that stop a run.

ghost use Rattle.std.specs.Prelude.{◌≡◌};

use thiserror::Error;

/// Why a run fails.
#[derive(Clone, Copy, Debug, Error)]
pub enum Fault {
    #[error("division by zero")]
    DivisionByZero,
    #[error("index outside the array")]
    IndexOutside,
    #[error("input place outside")]
    InputOutside,
    #[error("too many events or ticks")]
    TooManyEvents,
    #[error("too many frames")]
    TooManyFrames,
    #[error("too many cells")]
    TooManyCells,
}

impl Fault {
    ghost use Rattle.cilk_types.specs.Fault.{number_of};

    /// Returns the number by which the fault is reported, 201 to 206.
    pub fn number(self) -> u16
        ensures { result ≡ number_of self }
    {
        match self {
            Fault::DivisionByZero => 201,
            Fault::IndexOutside => 202,
            Fault::InputOutside => 203,
            Fault::TooManyEvents => 204,
            Fault::TooManyFrames => 205,
            Fault::TooManyCells => 206,
        }
    }
}

//! Why reading stops, and the limits on nesting and operators.

ghost use Rattle.std.specs.Prelude.{◌≡◌};
ghost use Rattle.cilk_syntax.specs.declared.stop.Stop.TheVariants.{Memory};

use crate::token::Token;
use std::alloc::{AllocError, AllocFailed};

/// Most statements and parts of an expression that may be nested in one another.
pub const DEEPEST: u32 = 64;

/// Most operators of an expression.
pub const MOST_OPERATORS: u32 = 256;

/// Why reading stopped: out of memory, a token that isn't expected, or a token past a limit. The
/// slice holds the tokens from that one on; it is empty at the end of the text.
#[derive(Drop)]
pub enum Stop<'a> {
    Memory,
    Unexpected(&'a [Token]),
    PastLimit(&'a [Token]),
}

impl From<AllocError> for Stop<'_> {
    ghost from_gives = { λ _ e. e ≡ Memory };

    fn from(_error: AllocError) -> Self {
        Stop::Memory
    }
}

impl<T: Drop> From<AllocFailed<T>> for Stop<'_> {
    ghost from_gives = { λ _ e. e ≡ Memory };

    fn from(_error: AllocFailed<T>) -> Self {
        Stop::Memory
    }
}

//! The faults of program texts and input texts.

ghost use Rattle.std.specs.Prelude.{◌≡◌};
ghost use Rattle.cilk_parser.specs.Texts;
ghost use Rattle.cilk_parser.specs.declared.fault.TextFault.TheVariants.{Memory};

use std::alloc::{AllocError, AllocFailed};
use thiserror::Error;

/// The reason why a text is refused at a place.
#[derive(Clone, Copy, Debug, Error)]
pub enum SyntaxErrorKind {
    #[error("a byte over 127")]
    NotAscii,
    #[error("no token")]
    BadToken,
    #[error("an unexpected token, or the end")]
    Unexpected,
    #[error("nested too deep, or too many operators")]
    TooDeep,
    #[error("a number over 9223372036854775807")]
    TooLarge,
    #[error("the text is too long")]
    TooLong,
    #[error("no number of the input")]
    BadNumber,
    #[error("too many numbers in the input")]
    TooManyNumbers,
}

impl SyntaxErrorKind {
    /// Returns the number by which the fault is reported: 101 to 106 in a program text, 121 and 122
    /// in an input text.
    pub fn number(self) -> u16
        ensures { result ≡ Texts.number self }
    {
        match self {
            SyntaxErrorKind::NotAscii => 101,
            SyntaxErrorKind::BadToken => 102,
            SyntaxErrorKind::Unexpected => 103,
            SyntaxErrorKind::TooDeep => 104,
            SyntaxErrorKind::TooLarge => 105,
            SyntaxErrorKind::TooLong => 106,
            SyntaxErrorKind::BadNumber => 121,
            SyntaxErrorKind::TooManyNumbers => 122,
        }
    }
}

/// Why a text can't be read: out of memory, or a reason and the byte where it applies, from 0.
#[derive(Debug, Drop, Error)]
pub enum TextFault {
    #[error("no memory")]
    Memory,
    #[error("{0} at byte {1}")]
    At(SyntaxErrorKind, usize),
}

impl From<AllocError> for TextFault {
    ghost from_gives = { λ _ e. e ≡ Memory };

    fn from(_error: AllocError) -> Self {
        TextFault::Memory
    }
}

impl<T: Drop> From<AllocFailed<T>> for TextFault {
    ghost from_gives = { λ _ e. e ≡ Memory };

    fn from(_error: AllocFailed<T>) -> Self {
        TextFault::Memory
    }
}

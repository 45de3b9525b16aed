//! Faults of program texts.

use cilk_names::fault::NameErrorKind;
use cilk_parser::fault::SyntaxErrorKind;
use thiserror::Error;

/// The reason why a text is no program. A place is a byte, counted from 0.
#[derive(Debug, Drop, Error)]
pub enum ProgramFault {
    #[error("no memory")]
    Memory,
    /// A lexical or syntax error.
    #[error("{0} at byte {1}")]
    Text(SyntaxErrorKind, usize),
    /// The syntax is right, and a name is wrong.
    #[error("{0} at byte {1}")]
    Name(NameErrorKind, usize),
}

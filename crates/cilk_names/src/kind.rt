//! The faults of names.

ghost use Rattle.std.specs.Prelude.{◌≡◌};
ghost use Rattle.cilk_names.specs.Faults.{number_of, earlier, is_before};

use thiserror::Error;

/// The kind of a fault.
#[derive(Clone, Copy, Debug, Error)]
pub enum NameErrorKind {
    #[error("an unknown name")]
    Unknown,
    #[error("a name that is declared twice in a scope")]
    DeclaredTwice,
    #[error("a wrong count of arguments")]
    WrongCount,
    #[error("a name of the wrong kind")]
    WrongKind,
    #[error("no `int main` without parameters")]
    NoMain,
    #[error("a `return` inside a `cilk_for`")]
    ReturnInLoop,
    #[error("a `cilk_for`'s variable that is written")]
    LoopVariable,
    #[error("a reducer that isn't first in a function's body")]
    ReducerNotFirst,
    #[error("past a limit of a program")]
    OverLimit,
}

impl NameErrorKind {
    /// Returns the number by which the fault is reported, 111 to 119.
    pub fn number(self) -> u16
        ensures { result ≡ number_of self }
    {
        match self {
            NameErrorKind::Unknown => 111,
            NameErrorKind::DeclaredTwice => 112,
            NameErrorKind::WrongCount => 113,
            NameErrorKind::WrongKind => 114,
            NameErrorKind::NoMain => 115,
            NameErrorKind::ReturnInLoop => 116,
            NameErrorKind::LoopVariable => 117,
            NameErrorKind::ReducerNotFirst => 118,
            NameErrorKind::OverLimit => 119,
        }
    }
}

/// A fault of a name: its kind, and the byte of the text where it is, from 0.
#[derive(Clone, Copy)]
pub struct Misnaming {
    pub number: NameErrorKind,
    pub place: usize,
}

impl Misnaming {
    /// Tells whether it comes before another: by place, and at one place by number.
    pub fn is_before(self, other: Misnaming) -> bool
        ensures { result ≡ is_before self other }
    {
        self.place < other.place
            || (self.place == other.place && self.number.number() < other.number.number())
    }

    /// Keeps the earlier of two faults: by place, and at one place by number.
    pub fn note(self, first: &mut Option<Misnaming>)
        ensures { first.new ≡ earlier first.old self }
    {
        match *first {
            None => *first = Some(self),
            Some(other) => {
                if self.is_before(other) {
                    *first = Some(self);
                }
            }
        }
    }
}

//! Refusals, with their numbers and places.

ghost use Rattle.std.specs.Prelude.{◌≡◌};
ghost use Rattle.cilk_checker.specs.declared.refusal.Refusal.TheVariants as refusals;
ghost use Rattle.cilk_checker.specs.declared.refusal.Unaccepted.TheVariants as unaccepted;
ghost use Rattle.cilk_checker.specs.Numbers.{number_of, fields_of};

use crate::hearing::Stop;
use cilk_cert_text::fault::CertFault;
use cilk_names::fault::NameErrorKind;
use cilk_parser::fault::SyntaxErrorKind;
use cilk_types::event::Pos;
use std::alloc::{AllocError, AllocFailed};
use thiserror::Error;

/// The reason for a refusal: the first failing check.
///
/// An item with the number after the run's last one is an extra item of the certificate.
#[derive(Clone, Copy, Debug, Error)]
pub enum Refusal {
    #[error("{0} in the program at byte {1}")]
    Program(SyntaxErrorKind, usize),
    #[error("{0} in the program at byte {1}")]
    Name(NameErrorKind, usize),
    #[error("{0} in the input at byte {1}")]
    Input(SyntaxErrorKind, usize),
    /// The certificate doesn't follow its grammar at this line, counted from 1.
    #[error("malformed certificate at line {line}")]
    Malformed { line: u32 },
    /// The certificate ends too early, at this line.
    #[error("truncated certificate at line {line}")]
    Truncated { line: u32 },
    /// The run has another event at this position, or one of the two has no event there.
    #[error("not the run's event at {at}")]
    Event { at: u64 },
    /// A fault stops the run in place of the event at this position.
    #[error("the run is stopped at {at}")]
    Stops { at: u64 },
    /// The line of this frame is wrong, missing or extra.
    #[error("wrong line of frame {frame}")]
    Frame { frame: u64 },
    /// The frame of this strand is wrong, or the strand's line is missing or extra.
    #[error("wrong frame of strand {strand}")]
    Strand { strand: u64 },
    #[error("wrong Hebrew number of strand {strand}")]
    Hebrew { strand: u64 },
    #[error("wrong peer class of strand {strand}")]
    Class { strand: u64 },
    /// The last earlier write of the cell read at this position is another.
    #[error("wrong source of the read at {at}")]
    ReadSource { at: u64 },
    #[error("wrong result")]
    Result,
    /// Two positions have a determinacy race.
    #[error("a race of {earlier} and {later}")]
    Race { earlier: Pos, later: Pos },
    /// A reducer's creation and a `set` or `value` of it have a view-read race.
    #[error("a view-read race of {created} and {used}")]
    ViewRace { created: Pos, used: Pos },
    #[error("no memory")]
    Memory,
}

/// The places that a refusal reports after its number.
#[derive(Clone, Copy)]
pub enum Fields {
    None,
    One(u64),
    Two(u64, u64),
}

impl Refusal {
    /// Returns the number by which it is reported.
    ///
    /// 101 to 122 are faults of the program and input texts, 301 to 312 are refusals of the
    /// certificate, and 401 is out of memory.
    pub fn number(self) -> u16
        ensures { result ≡ number_of self }
    {
        match self {
            Refusal::Program(fault, _) => fault.number(),
            Refusal::Name(fault, _) => fault.number(),
            Refusal::Input(fault, _) => fault.number(),
            Refusal::Malformed { .. } => 301,
            Refusal::Truncated { .. } => 302,
            Refusal::Event { .. } => 303,
            Refusal::Frame { .. } => 304,
            Refusal::Strand { .. } => 305,
            Refusal::Hebrew { .. } => 306,
            Refusal::Class { .. } => 307,
            Refusal::ReadSource { .. } => 308,
            Refusal::Result => 309,
            Refusal::Stops { .. } => 310,
            Refusal::Race { .. } => 311,
            Refusal::ViewRace { .. } => 312,
            Refusal::Memory => 401,
        }
    }

    /// Returns the places that it names: a byte, line, frame, strand or position, or two positions.
    pub fn fields(self) -> Fields
        ensures { result ≡ fields_of self }
    {
        match self {
            Refusal::Program(_, place) | Refusal::Name(_, place) | Refusal::Input(_, place) => {
                Fields::One(place as u64)
            }
            Refusal::Malformed { line } | Refusal::Truncated { line } => Fields::One(line as u64),
            Refusal::Event { at } | Refusal::Stops { at } | Refusal::ReadSource { at } => {
                Fields::One(at)
            }
            Refusal::Frame { frame } => Fields::One(frame),
            Refusal::Strand { strand } | Refusal::Hebrew { strand } | Refusal::Class { strand } =>
                Fields::One(strand),
            Refusal::Race { earlier, later } => Fields::Two(earlier as u64, later as u64),
            Refusal::ViewRace { created, used } => Fields::Two(created as u64, used as u64),
            Refusal::Result | Refusal::Memory => Fields::None,
        }
    }
}

impl From<AllocError> for Refusal {
    ghost from_gives = { λ _ e. e ≡ refusals.Memory };

    fn from(_error: AllocError) -> Self {
        Refusal::Memory
    }
}

impl<T: Drop> From<AllocFailed<T>> for Refusal {
    ghost from_gives = { λ _ e. e ≡ refusals.Memory };

    fn from(_error: AllocFailed<T>) -> Self {
        Refusal::Memory
    }
}

/// The reason why nothing was accepted: a refusal, or a source that can't be read.
#[derive(Clone, Copy, Debug, Error)]
pub enum Unaccepted {
    #[error("{0}")]
    Refusal(Refusal),
    /// The source's device failed.
    #[error("cannot read")]
    Unread,
}

impl From<AllocError> for Unaccepted {
    ghost from_gives = { λ _ e. e ≡ unaccepted.Refusal refusals.Memory };

    fn from(_error: AllocError) -> Self {
        Unaccepted::Refusal(Refusal::Memory)
    }
}

impl From<Refusal> for Unaccepted {
    ghost from_gives = { λ refusal e. e ≡ unaccepted.Refusal refusal };

    fn from(refusal: Refusal) -> Self {
        Unaccepted::Refusal(refusal)
    }
}

impl From<Stop> for Unaccepted {
    ghost use Rattle.cilk_checker.specs.Told.{told};

    ghost from_gives = { λ stop e. e ≡ told stop };

    fn from(stop: Stop) -> Self {
        match stop {
            Stop::Fault(CertFault::Malformed { line }) => {
                Unaccepted::Refusal(Refusal::Malformed { line })
            }
            Stop::Fault(CertFault::Truncated { line }) => {
                Unaccepted::Refusal(Refusal::Truncated { line })
            }
            Stop::Fault(CertFault::Memory) => Unaccepted::Refusal(Refusal::Memory),
            Stop::Unread => Unaccepted::Unread,
        }
    }
}

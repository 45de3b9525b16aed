//! Requests without arguments of a function.

ghost use Rattle.std.specs.Prelude.{◌≡◌};
ghost use Rattle.cilk_frames.specs.AskSlot.{in_full};

use cilk_program::ask::{Ask, Callee, LoopPart};
use cilk_program::syntax::{Place, Reducer};
use cilk_types::fault::Fault;
use cilk_types::invocation::Invocation;

/// A request other than the invocation of a function. See [`Ask`].
#[derive(Clone, Copy)]
pub enum SmallAsk {
    Begin,
    Read(Place),
    Write(Place, i64),
    Create(Reducer),
    Update(Reducer, i64),
    Set(Reducer, i64),
    Value(Reducer),
    Print(i64),
    /// Begins the frame of some turns of a loop.
    Turns(Invocation, LoopPart),
    Resume,
    Sync,
    Result(i64),
    End(i64),
    Fault(Fault),
}

impl SmallAsk {
    /// Returns the request as an [`Ask`].
    pub fn in_full(self) -> Ask
        ensures { result ≡ in_full self }
    {
        match self {
            SmallAsk::Begin => Ask::Begin,
            SmallAsk::Read(place) => Ask::Read(place),
            SmallAsk::Write(place, word) => Ask::Write(place, word),
            SmallAsk::Create(reducer) => Ask::Create(reducer),
            SmallAsk::Update(reducer, word) => Ask::Update(reducer, word),
            SmallAsk::Set(reducer, word) => Ask::Set(reducer, word),
            SmallAsk::Value(reducer) => Ask::Value(reducer),
            SmallAsk::Print(word) => Ask::Print(word),
            SmallAsk::Turns(how, part) => Ask::Invoke(how, Callee::Loop(part)),
            SmallAsk::Resume => Ask::Resume,
            SmallAsk::Sync => Ask::Sync,
            SmallAsk::Result(word) => Ask::Result(word),
            SmallAsk::End(word) => Ask::End(word),
            SmallAsk::Fault(fault) => Ask::Fault(fault),
        }
    }
}

//! The requests that a frame makes while it runs.

use crate::given::{References, Words};
use crate::syntax::{Place, Reducer};
use cilk_types::fault::Fault;
use cilk_types::invocation::Invocation;

/// A call of a function: its index, the words and reducers that it is given, each in parameter
/// order, and the caller's variable that receives the result.
#[derive(Drop)]
pub struct FunctionCall {
    pub function: u32,
    pub words: Words,
    pub reducers: References,
    pub result: Option<Place>,
}

/// The turns of a loop from `low` up to, but not including, `high`. `number` is the loop's index,
/// and `up` the number of static links from the requesting frame to the frame that contains the
/// loop.
#[derive(Clone, Copy)]
pub struct LoopPart {
    pub number: u32,
    pub up: u32,
    pub low: i64,
    pub high: i64,
}

/// The code that a new frame runs.
#[derive(Drop)]
pub enum Callee {
    /// The main function, with which a run begins.
    Root,
    Function(FunctionCall),
    Loop(LoopPart),
}

/// The next request of a frame. Each is an event of the run except `Fault`, which ends the run.
#[derive(Drop)]
pub enum Ask {
    /// Begins the frame.
    Begin,
    /// Reads a place. The answer is its value.
    Read(Place),
    /// Writes a value to a place.
    Write(Place, i64),
    /// Creates a reducer, whose view is its monoid's unit.
    Create(Reducer),
    /// Combines a reducer's view with a number on the right.
    Update(Reducer, i64),
    /// Replaces a reducer's view by that of a number alone.
    Set(Reducer, i64),
    /// Reads the number of a reducer's view. The answer is that number.
    Value(Reducer),
    /// Appends a number to the ordered output.
    Print(i64),
    /// Begins a child. The answer comes when the frame may continue.
    Invoke(Invocation, Callee),
    /// Continues the frame after a child.
    Resume,
    /// Waits for the children that the frame spawned.
    Sync,
    /// Writes the frame's result to its caller's variable.
    Result(i64),
    /// Ends the frame with a result.
    End(i64),
    /// Stops the run by a fault.
    Fault(Fault),
}

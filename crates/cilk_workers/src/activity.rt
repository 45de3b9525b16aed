//! The state of a worker between two turns, and the ways in which it ends.

use crate::lock::Key;
use crate::naming::Naming;
use crate::rack::{Picker, Rack};
use crate::work::Work;
use cilk_shared::piece::Piece;
use cilk_types::event::Pos;

/// The reason why a worker ends.
#[derive(Drop)]
pub enum ExitReason {
    /// The worker has the piece of the whole run, and the run's result.
    Whole(Piece, i64),
    /// The run departs from its plan at this position.
    Departed(Pos),
    /// Another worker has ended or stopped the run.
    Stopped,
    /// This worker ran out of memory.
    OutOfMemory,
}

/// The state of a worker between two turns.
#[derive(Drop)]
pub enum Activity {
    /// It has a piece and the frame that runs at its end.
    Holds(Work),
    /// It has an empty piece, and looks for a task.
    Idle(Piece),
    /// The worker has ended.
    Done(ExitReason),
}

/// The tools of one worker: its rack, the stealers of the others' racks, and its key of each
/// shelf's lock.
#[derive(Drop)]
pub struct Tools<N: Naming> {
    pub rack: Rack<N>,
    pub pickers: Vec<Picker<N>>,
    pub keys: Vec<Key>,
}

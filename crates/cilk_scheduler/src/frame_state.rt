//! The state of frames and workers, and the entries of the journal.

ghost use Rattle.std.specs.Prelude.{◌≡◌};
ghost use Rattle.cilk_scheduler.specs.FrameStates.{seated};

use crate::offer_list::Offers;
use cilk_frames::cursor::{Answer, Cursor};
use cilk_hypermap::hypermap::Hypermap;
use cilk_join::join::Join;
use cilk_types::event::Event;
use cilk_types::invocation::Invocation;

/// The place of a frame in the schedule. Workers count from 0 here.
#[derive(Clone, Copy)]
pub enum Status {
    /// A worker holds it.
    Held(u32),
    /// It waits for the child that it called last.
    Calling,
    /// A worker offers its continuation, while the child that it spawned last runs.
    Offered(u32),
    /// It waits at its sync: its own piece has arrived, and a stolen child's is awaited.
    Waiting,
    Finished,
}

/// The point from which a frame continues.
#[derive(Clone, Copy)]
pub enum Due {
    /// Its begin.
    Begin,
    /// The answer to its last event.
    Answer(Answer),
    /// A sync that it has requested.
    Sync,
}

/// The state of a frame, apart from where its cells and reducers are.
///
/// - `parent`, `ordinal`, `how`: the index of its parent, its number among the parent's children
///   from 1 (0 for the first frame), and whether it was called or spawned;
/// - `stolen`: whether the continuation beside it was stolen;
/// - `merged`: whether its block has passed, so that its worker has the block's views;
/// - `children`, `last`: the number of frames that it has started, and the index of the newest;
/// - `strands`: the number of strands that it has begun;
/// - `took`, `counted`: the ticks that it has used, and those that the run has counted;
/// - `due`, `cursor`: where it continues, and its cursor until it has ended;
/// - `join`: the join of its block, once a continuation of that block was stolen.
#[derive(Drop)]
pub struct FrameState {
    pub parent: u32,
    pub ordinal: u32,
    pub how: Invocation,
    pub status: Status,
    pub stolen: bool,
    pub merged: bool,
    pub children: u32,
    pub last: u32,
    pub strands: u32,
    pub took: u32,
    pub counted: u32,
    pub due: Due,
    pub cursor: Option<Cursor>,
    pub join: Option<Box<Join>>,
}

impl FrameState {
    /// Returns a frame before its begin, held by a worker.
    pub fn new(
        parent: u32,
        ordinal: u32,
        how: Invocation,
        worker: u32,
        cursor: Cursor,
    ) -> FrameState
        ensures { result ≡ seated parent ordinal how worker cursor }
    {
        FrameState {
            parent,
            ordinal,
            how,
            status: Status::Held(worker),
            stolen: false,
            merged: false,
            children: 0,
            last: 0,
            strands: 0,
            took: 0,
            counted: 0,
            due: Due::Begin,
            cursor: Some(cursor),
            join: None,
        }
    }
}

/// A worker: the index of the frame that it holds, its reducer views, and the frames whose
/// continuations it offers.
#[derive(Drop)]
pub struct Worker {
    pub frame: Option<u32>,
    pub views: Hypermap,
    pub offered: Offers,
}

/// An event, and the index of the frame that made it.
#[derive(Clone, Copy)]
pub struct JournalEntry {
    pub frame: u32,
    pub event: Event,
}

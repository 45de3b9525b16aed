//! The state of a run.

ghost use Rattle.std.specs.Prelude.{◌≡◌};

use crate::choice::Stop;
use crate::frame_state::{FrameState, JournalEntry, Worker};
use cilk_frames::activation::Activation;
use cilk_frames::asked::AskSlot;
use cilk_types::outcome::Outcome;

/// The state of a run: all frames in the order in which they began, the cells, the workers and the
/// number of continuations that they offer. It also has the events and ticks so far, the latest
/// request, the outcome once the first frame has ended, and the reason why the run stopped.
pub struct Scheduler {
    pub frames: Vec<Activation<FrameState>>,
    pub cells: Vec<i64>,
    pub workers: Vec<Worker>,
    pub offered: usize,
    pub journal: Vec<JournalEntry>,
    pub ticks: u32,
    pub asked: AskSlot,
    pub outcome: Option<Outcome>,
    pub stopped: Option<Stop>,
}

// A function of its own, so that a proof follows one call where a scheduler is dropped.
impl Drop for Scheduler {
    fn drop(self) {
        let Scheduler {
            frames: _frames,
            cells: _cells,
            workers: _workers,
            offered: _,
            journal: _journal,
            ticks: _,
            asked: _asked,
            outcome: _outcome,
            stopped: _stopped,
        } = self;
    }
}

impl Scheduler {
    /// Returns the outcome, if the first frame has ended.
    pub fn into_outcome(self) -> Option<Outcome>
        ensures { result ≡ self.outcome }
    {
        let Scheduler {
            frames: _frames,
            cells: _cells,
            workers: _workers,
            offered: _,
            journal: _journal,
            ticks: _,
            asked: _asked,
            outcome,
            stopped: _stopped,
        } = self;
        outcome
    }
}

//! Choices, and what comes of them.

ghost use Rattle.std.specs.Prelude.{◌≡◌};
ghost use Rattle.cilk_scheduler.specs.declared.choice.Stop.TheVariants.{Memory};

use cilk_types::event::{Event, FrameNo};
use cilk_types::fault::Fault;
use std::alloc::{AllocError, AllocFailed};

/// A scheduling choice. Workers count from 1.
#[derive(Clone, Copy)]
pub enum Choice {
    /// The worker continues with the frame that it holds.
    Run(u32),
    /// The idle worker steals the continuation at this index, from 0, among all that are offered:
    /// worker by worker, each worker's oldest first.
    Steal(u32, usize),
}

/// An event of a frame. Frames are numbered from 1 as this run begins them, so the number depends
/// on the schedule.
#[derive(Clone, Copy)]
pub struct Act {
    pub frame: FrameNo,
    pub event: Event,
}

/// The result of a choice.
#[derive(Clone, Copy)]
pub enum Told {
    /// The worker's frame made its next event.
    Did(Act),
    /// The worker stole the continuation.
    Stole,
    /// The frame came to a sync whose block isn't complete, and its worker is idle. No event was
    /// made.
    Waits,
    /// The choice can't be made, and nothing changed.
    Skipped,
}

/// A strand, by its frame's number in this run and its own place among the frame's strands, from 1.
#[derive(Clone, Copy)]
pub struct Strand {
    pub frame: FrameNo,
    pub number: u32,
}

/// The reason why a run stopped for good.
#[derive(Clone, Copy)]
pub enum Stop {
    /// Out of memory.
    Memory,
    /// A fault in place of the strand's next event.
    At { fault: Fault, strand: Strand },
}

impl From<AllocError> for Stop {
    ghost from_gives = { λ _ s. s ≡ Memory };

    fn from(_: AllocError) -> Stop {
        Stop::Memory
    }
}

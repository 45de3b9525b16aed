//! The continuations that all workers offer.

ghost use Rattle.std.specs.Prelude.{◌≡◌, ℕ, None, slice_get, MatchOption};
ghost use Rattle.cilk_scheduler.specs.Workers.{IsLocated, offers};
ghost use Rattle.cilk_scheduler.specs.OfferLists.{Withdraws};

use crate::frame_state::{FrameState, Worker};
use crate::offer_list::Offers;
use cilk_frames::activation::Activation;

/// Returns the worker that offers the continuation at an index among all, and its index in that
/// worker's list. `None` past the last. Costs a step for each worker.
pub fn locate(workers: &[Worker], place: usize) -> Option<(usize, usize)>
    ensures { MatchOption result (slice_get (offers workers.now) place ≡ None) (λ at. IsLocated workers.now place at.0 at.1) }
{
    let mut rest = place;
    'each: for victim in 0..workers.len() {
        let count = workers[victim].offered.len();
        if rest < count {
            return Some((victim, rest));
        }
        rest -= count;
    }
    None
}

/// Withdraws a frame's continuation from a worker's list. Returns whether it was there.
pub fn withdraw(offered: &mut Offers, frames: &[Activation<FrameState>], frame: u32) -> bool
    ensures { Withdraws offered.old.items frame result offered.new.items }
{
    offered.withdraw(frame, last_child(frames, frame))
}

// The index of a frame's newest child; 0 if there is no such frame.
fn last_child(frames: &[Activation<FrameState>], frame: u32) -> u32 {
    match frames.get(frame as usize) {
        Some(frame) => frame.cursor.last,
        None => 0,
    }
}

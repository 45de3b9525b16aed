//! The journal: the events of the run so far.

ghost use Rattle.std.specs.Prelude.{◌≡◌, ◌+◌, ◌-◌, ◌<◌, ◌≤◌, ◌^◌, ◌∷◌, ◌++◌, [], Some, length, slice_get};
ghost use Rattle.std.specs.Vec.{vec_capacity, vec_len};
ghost use Rattle.cilk_frames.specs.declared.activation.Activation.{Activation};
ghost use Rattle.cilk_scheduler.specs.declared.frame_state.FrameState.{FrameState};
ghost use Rattle.cilk_scheduler.specs.FrameStates.{changed, counted};

use crate::frame_state::{FrameState, JournalEntry};
use crate::frame_states::count;
use cilk_frames::activation::Activation;
use cilk_types::event::Event;

/// Records an event of a frame and counts the frame's ticks. Returns the ticks of the run then. The
/// journal must have room, so this can't fail.
#[inline(always)]
pub fn note(
    frames: &mut Vec<Activation<FrameState>>,
    journal: &mut Vec<JournalEntry>,
    ticks: u32,
    frame: u32,
    event: Event,
) -> u32
    requires here { frame < length frames.old.items }
    requires few { (a : Activation FrameState) → slice_get frames.old.items frame ≡ Some a → ticks + (a.cursor.took - a.cursor.counted) < 2 ^ 32 }
    requires more { (a : Activation FrameState) → slice_get frames.old.items frame ≡ Some a → a.cursor.counted ≤ a.cursor.took }
    requires room { vec_len journal.old < vec_capacity journal.old }
    ensures ticks { (a : Activation FrameState) → slice_get frames.old.items frame ≡ Some a → result ≡ ticks + (a.cursor.took - a.cursor.counted) }
    ensures frames { frames.new.items ≡ changed counted frames.old.items frame }
    ensures journal { journal.new.items ≡ journal.old.items ++ (record { frame = frame; event = event }) ∷ [] }
{
    let ticks = ticks + uncounted(frames.as_slice(), frame as usize);
    count(frames, frame as usize);
    journal.push_reserved(JournalEntry { frame, event });
    ticks
}

/// Returns the ticks of a frame that aren't counted yet.
pub fn uncounted(frames: &[Activation<FrameState>], frame: usize) -> u32
    requires here { frame < length frames.now }
    requires more { (a : Activation FrameState) → slice_get frames.now frame ≡ Some a → a.cursor.counted ≤ a.cursor.took }
    ensures { (a : Activation FrameState) → slice_get frames.now frame ≡ Some a → result ≡ a.cursor.took - a.cursor.counted }
{
    let frame_state = &frames[frame].cursor;
    frame_state.took - frame_state.counted
}

//! The frame of each event of a run.

ghost use Rattle.std.specs.Prelude.{◌≡◌, ◌⊎◌, ℕ, Some};
ghost use Rattle.cilk_tree.specs.Frames.{Enters};

use cilk_types::event::{Event, FrameNo};

/// Returns the frame of an event that follows an event of `frame`.
pub(crate) fn entered(frame: FrameNo, event: &Event) -> FrameNo
    ensures { Enters (Some event.now) result ⊎ ((result ≡ frame) × ((other : ℕ) → Enters (Some event.now) other → ⊥)) }
{
    match *event {
        Event::Begin { frame: begun } => begun,
        Event::Resume { parent } => parent,
        _ => frame,
    }
}

//! Changes of one frame's state in a list of frames.

ghost use Rattle.std.specs.Prelude.{◌≡◌, ◌+◌, ◌<◌, ◌^◌, Some, length, slice_get};
ghost use Rattle.cilk_frames.specs.declared.activation.Activation.{Activation};
ghost use Rattle.cilk_scheduler.specs.declared.frame_state.FrameState.{FrameState};
ghost use Rattle.cilk_scheduler.specs.FrameStates.{answered, changed, counted, finished, moved_to, passed, robbed, started_at, stranded, synced, waiting};

use crate::frame_state::{Due, FrameState, Status};
use cilk_frames::activation::Activation;
use cilk_frames::cursor::{Answer, Cursor};

/// Sets the answer from which the frame continues.
pub fn answer(frames: &mut Vec<Activation<FrameState>>, frame: usize, answer: Answer)
    requires { frame < length frames.old.items }
    ensures { frames.new.items ≡ changed (answered answer) frames.old.items frame }
{
    frames[frame].cursor.due = Due::Answer(answer);
}

/// Begins another strand of the frame, which continues without a value.
pub fn begin_strand(frames: &mut Vec<Activation<FrameState>>, frame: usize)
    requires here { frame < length frames.old.items }
    requires few { (a : Activation FrameState) → slice_get frames.old.items frame ≡ Some a → a.cursor.strands < 2 ^ 31 }
    ensures { frames.new.items ≡ changed stranded frames.old.items frame }
{
    let frame_state = &mut frames[frame].cursor;
    frame_state.strands += 1;
    frame_state.due = Due::Answer(Answer::Done);
}

/// Begins another block of the frame, and a strand with it.
pub fn begin_block(frames: &mut Vec<Activation<FrameState>>, frame: usize)
    requires here { frame < length frames.old.items }
    requires few { (a : Activation FrameState) → slice_get frames.old.items frame ≡ Some a → a.cursor.strands < 2 ^ 31 }
    ensures { frames.new.items ≡ changed synced frames.old.items frame }
{
    let frame_state = &mut frames[frame].cursor;
    frame_state.join = None;
    frame_state.merged = false;
    begin_strand(frames, frame);
}

/// Moves the frame to another status.
pub fn move_to(frames: &mut Vec<Activation<FrameState>>, frame: usize, status: Status)
    requires { frame < length frames.old.items }
    ensures { frames.new.items ≡ changed (moved_to status) frames.old.items frame }
{
    frames[frame].cursor.status = status;
}

/// Marks the frame's block as passed.
pub fn pass(frames: &mut Vec<Activation<FrameState>>, frame: usize)
    requires { frame < length frames.old.items }
    ensures { frames.new.items ≡ changed passed frames.old.items frame }
{
    frames[frame].cursor.merged = true;
}

/// Lets the frame wait at its sync.
pub fn wait(frames: &mut Vec<Activation<FrameState>>, frame: usize)
    requires { frame < length frames.old.items }
    ensures { frames.new.items ≡ changed waiting frames.old.items frame }
{
    let frame_state = &mut frames[frame].cursor;
    frame_state.status = Status::Waiting;
    frame_state.due = Due::Sync;
}

/// Marks the frame as ended. Returns its cursor, which it has no more.
pub fn finish(frames: &mut Vec<Activation<FrameState>>, frame: usize) -> Option<Cursor>
    requires { frame < length frames.old.items }
    ensures { frames.new.items ≡ changed finished frames.old.items frame }
{
    let frame_state = &mut frames[frame].cursor;
    frame_state.status = Status::Finished;
    frame_state.cursor.take()
}

/// Marks the continuation beside the frame as stolen.
pub fn rob(frames: &mut Vec<Activation<FrameState>>, frame: usize)
    requires { frame < length frames.old.items }
    ensures { frames.new.items ≡ changed robbed frames.old.items frame }
{
    frames[frame].cursor.stolen = true;
}

/// Counts the child at `place` as the frame's newest, and moves the frame to another status.
pub fn start(frames: &mut Vec<Activation<FrameState>>, frame: usize, place: u32, status: Status)
    requires here { frame < length frames.old.items }
    requires few { (a : Activation FrameState) → slice_get frames.old.items frame ≡ Some a → a.cursor.children < 2 ^ 31 }
    ensures { frames.new.items ≡ changed (started_at status place) frames.old.items frame }
{
    let frame_state = &mut frames[frame].cursor;
    frame_state.children += 1;
    frame_state.last = place;
    frame_state.due = Due::Answer(Answer::Done);
    frame_state.status = status;
}

/// Marks all ticks of the frame as counted.
pub fn count(frames: &mut Vec<Activation<FrameState>>, frame: usize)
    requires { frame < length frames.old.items }
    ensures { frames.new.items ≡ changed counted frames.old.items frame }
{
    let frame_state = &mut frames[frame].cursor;
    frame_state.counted = frame_state.took;
}

//! Events on cells.

ghost use Rattle.std.specs.Prelude.{◌≡◌, ◌<◌, ◌^◌, ℕ, ℤ, Some, length, slice_get, slice_set};
ghost use Rattle.cilk_types.specs.declared.event.Event.TheVariants as events;
ghost use Rattle.cilk_types.specs.declared.event.Instance.{Instance};
ghost use Rattle.cilk_program.specs.Scopes.{Scope, cell_in};
ghost use Rattle.cilk_program.specs.SerialRun.{itself};
ghost use Rattle.cilk_frames.specs.declared.cursor.Answer.TheVariants as answers;
ghost use Rattle.cilk_scheduler.specs.Events.{SeesAt};
ghost use Rattle.cilk_scheduler.specs.FrameStates.{answered, changed};

use crate::frame_state::FrameState;
use crate::frame_states::answer;
use cilk_frames::activation::Activation;
use cilk_frames::cursor::Answer;
use cilk_frames::places::cell;
use cilk_program::syntax::Place;
use cilk_types::event::{Cell, Event};

/// Returns the number of the cell that a place means to a frame.
#[inline(always)]
pub fn cell_at(frames: &[Activation<FrameState>], frame: usize, place: Place) -> Cell
    requires here { frame < length frames.now }
    requires sees { (scope : Scope ℕ Instance) × SeesAt frames.now frame scope × (cell_in itself scope place < 2 ^ 32) }
    ensures { (scope : Scope ℕ Instance) → SeesAt frames.now frame scope → result ≡ cell_in itself scope place }
{
    cell(frames, &frames[frame], place)
}

/// Reads a cell for a frame, whose answer is the value.
#[inline(always)]
pub fn read(
    frames: &mut Vec<Activation<FrameState>>,
    cells: &[i64],
    frame: usize,
    cell: Cell,
) -> Event
    requires here { frame < length frames.old.items }
    requires there { cell < length cells.now }
    ensures { (v : ℤ) × (slice_get cells.now cell ≡ Some v) × (result ≡ events.Read cell v) × (frames.new.items ≡ changed (answered (answers.Value v)) frames.old.items frame) }
{
    let value = value_at(cells, cell);
    answer(frames, frame, Answer::Value(value));
    Event::Read { cell, value }
}

/// Writes a cell for a frame.
#[inline(always)]
pub fn write(
    frames: &mut Vec<Activation<FrameState>>,
    cells: &mut Vec<i64>,
    frame: usize,
    cell: Cell,
    value: i64,
) -> Event
    requires here { frame < length frames.old.items }
    requires there { cell < length cells.old.items }
    ensures event { result ≡ events.Write cell value }
    ensures cells { cells.new.items ≡ slice_set cells.old.items cell value }
    ensures frames { frames.new.items ≡ changed (answered answers.Done) frames.old.items frame }
{
    cells[cell as usize] = value;
    answer(frames, frame, Answer::Done);
    Event::Write { cell, value }
}

fn value_at(cells: &[i64], cell: Cell) -> i64
    requires { cell < length cells.now }
    ensures { slice_get cells.now cell ≡ Some result }
{
    cells[cell as usize]
}

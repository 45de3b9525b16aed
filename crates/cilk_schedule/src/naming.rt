//! Events by the places of frames, which are in the order in which frames began; and the paths of
//! frames, which no schedule changes.

ghost use Rattle.std.specs.Prelude.{◌≡◌, ◌<◌, ℕ, length, IfOk};
ghost use Rattle.cilk_scheduler.specs.Numbered.{AreNamed};
ghost use Rattle.cilk_determinacy.specs.Runs.{Name};
ghost use Rattle.cilk_schedule.specs.Showing.{IsCellOf, IsNamedAs, ordinal_of, reducer_of};

use cilk_frames::activation::Activation;
use cilk_scheduler::frame_state::FrameState;
use cilk_types::event::{Cell, Event, FrameNo, Instance};
use std::alloc::{AllocError, Global};

/// A global cell by its number; or a frame's cell by the place of the frame and its own place
/// there, from 0. [`Shown::path`](crate::showing::Shown::path) is the frame's path.
#[derive(Clone, Copy, PartialEq, Eq)]
pub enum CellName {
    Global(u32),
    Own { frame: usize, place: u32 },
}

/// The ordered output; or a reducer by the place of the frame that created it and its own place
/// there, from 0.
#[derive(Clone, Copy, PartialEq, Eq)]
pub enum ReducerName {
    Output,
    Own { frame: usize, place: u32 },
}

/// An event of a frame. A child is known by its ordinal among its parent's children, from 1.
#[derive(Clone, Copy, PartialEq, Eq)]
pub enum ShownEvent {
    Begin,
    Spawn { ordinal: u32 },
    Call { ordinal: u32 },
    Resume,
    Sync,
    End,
    Read { cell: CellName, value: i64 },
    Write { cell: CellName, value: i64 },
    Create { reducer: ReducerName },
    Update { reducer: ReducerName, value: i64 },
    Set { reducer: ReducerName, value: i64 },
    Value { reducer: ReducerName, value: i64 },
    Print { value: i64 },
}

/// Returns an event by names. The first `globals` cells are global.
pub fn named(frames: &[Activation<FrameState>], globals: usize, event: Event) -> ShownEvent
    ensures { IsNamedAs frames.now globals event result }
{
    match event {
        Event::Begin { frame: _ } => ShownEvent::Begin,
        Event::Spawn { child } => {
            let ordinal = ordinal(frames, child);
            ShownEvent::Spawn { ordinal }
        }
        Event::Call { child } => {
            let ordinal = ordinal(frames, child);
            ShownEvent::Call { ordinal }
        }
        Event::Resume { parent: _ } => ShownEvent::Resume,
        Event::Sync => ShownEvent::Sync,
        Event::End => ShownEvent::End,
        Event::Read { cell, value } => {
            let cell = named_cell(frames, globals, cell);
            ShownEvent::Read { cell, value }
        }
        Event::Write { cell, value } => {
            let cell = named_cell(frames, globals, cell);
            ShownEvent::Write { cell, value }
        }
        Event::Print { value } => ShownEvent::Print { value },
        Event::Create { instance } => {
            let reducer = named_reducer(instance);
            ShownEvent::Create { reducer }
        }
        Event::Update { instance, value } => {
            let reducer = named_reducer(instance);
            ShownEvent::Update { reducer, value }
        }
        Event::Set { instance, value } => {
            let reducer = named_reducer(instance);
            ShownEvent::Set { reducer, value }
        }
        Event::Value { instance, value } => {
            let reducer = named_reducer(instance);
            ShownEvent::Value { reducer, value }
        }
    }
}

// The ordinal of the frame with this number, or 0 if there is none.
fn ordinal(frames: &[Activation<FrameState>], number: FrameNo) -> u32
    ensures { result ≡ ordinal_of frames.now number }
{
    let Some(place) = number.checked_sub(1) else {
        return 0;
    };
    match frames.get(place as usize) {
        Some(frame) => frame.cursor.ordinal,
        None => 0,
    }
}

// A cell that isn't global is in the last frame whose cells begin at it or before it.
fn named_cell(frames: &[Activation<FrameState>], globals: usize, cell: Cell) -> CellName
    ensures { IsCellOf frames.now globals cell result }
{
    if (cell as usize) < globals {
        return CellName::Global(cell);
    }
    let past = frames.partition_point(|frame| frame.base <= cell);
    let frame = past.saturating_sub(1);
    match frames.get(frame) {
        Some(owner) => CellName::Own {
            frame,
            place: cell.saturating_sub(owner.base),
        },
        None => CellName::Global(cell),
    }
}

// A reducer by its frame's place and its own, both from 0.
fn named_reducer(instance: Instance) -> ReducerName
    ensures { result ≡ reducer_of instance }
{
    if instance.frame == 0 {
        return ReducerName::Output;
    }
    ReducerName::Own {
        frame: (instance.frame - 1) as usize,
        place: instance.place.saturating_sub(1),
    }
}

/// Returns the path of the frame at a place: the ordinals of the frames from the first one's child
/// down to it.
pub fn path(
    alloc: Global,
    frames: &[Activation<FrameState>],
    frame: usize,
) -> Result<Vec<u32>, AllocError>
    ensures { (name : ℕ → Name) → AreNamed frames.now name → frame < length frames.now → IfOk result (λ list. list.items ≡ name frame) }
{
    let mut path = Vec::new(alloc);
    let mut place = frame;
    'each: for _ in 0..frames.len() {
        if place == 0 {
            break;
        }
        let Some(frame_state) = frames.get(place) else {
            break;
        };
        path.push(frame_state.cursor.ordinal)?;
        place = frame_state.cursor.parent as usize;
    }
    path.reverse();
    Ok(path)
}

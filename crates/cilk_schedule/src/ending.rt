//! The end of a frame.

ghost use Rattle.std.specs.Prelude.{◌≡◌, ◌<◌, ◌≤◌, ◌^◌, ℕ, ℤ, List, true, false, Some, length, slice_get, IfOk, OnErr, OnOk};
ghost use Rattle.cilk_types.specs.declared.event.Event.TheVariants as events;
ghost use Rattle.cilk_program.specs.declared.ask.Ask.TheVariants as asks;
ghost use Rattle.cilk_lower.specs.Code.{CodeView};
ghost use Rattle.cilk_lower.specs.Layout.{function_frame};
ghost use Rattle.cilk_frames.specs.declared.activation.Activation.{Activation};
ghost use Rattle.cilk_scheduler.specs.EndParts.{Brings, Seeks};
ghost use Rattle.cilk_scheduler.specs.Ending.{RetiresOwn};
ghost use Rattle.cilk_scheduler.specs.Parts.{working};
ghost use Rattle.cilk_scheduler.specs.FrameStates.{changed, moved_to};
ghost use Rattle.cilk_scheduler.specs.Stopping.{StandAsBefore};
ghost use Rattle.cilk_scheduler.specs.Workers.{altered};
ghost use Rattle.cilk_scheduler.specs.declared.frame_state.FrameState.{FrameState};
ghost use Rattle.cilk_scheduler.specs.declared.frame_state.Status.TheVariants.{Held};
ghost use Rattle.cilk_schedule.specs.Acts.{IsTouch};
ghost use Rattle.cilk_schedule.specs.Ends.{PartsTo, EndsFrame, IsOfferedAmong, MayBring};
ghost use Rattle.cilk_schedule.specs.Sound.{IsQuiet, IsTurn, Makes, SameRest};

use crate::arrivals::leave;
use cilk_frames::activation::Activation;
use cilk_frames::asked::AskSlot;
use cilk_frames::cursor::Cursor;
use cilk_frames::outcome::outcome;
use cilk_hypermap::hypermap::Hypermap;
use cilk_lower::code::Code;
use cilk_scheduler::ending::{bring, retire_own, take_back};
use cilk_scheduler::frame_state::{FrameState, Status, Worker};
use cilk_scheduler::frame_states::{finish, move_to, pass};
use cilk_scheduler::scheduler::Scheduler;
use cilk_types::event::Event;
use std::alloc::{AllocError, Global};

/// Ends a frame, and its own reducers with it. The worker continues the frame that waits for this
/// one, if there is one, and is idle otherwise.
pub fn end(
    alloc: Global,
    code: &Code,
    scheduler: &mut Scheduler,
    worker: usize,
    frame: usize,
    value: i64,
) -> Result<Event, AllocError>
    requires turn { (inputs : List ℤ) × IsTurn code.now inputs scheduler.old frame }
    requires works { worker < length scheduler.old.workers.items }
    requires low { worker < 2 ^ 32 }
    requires ends { scheduler.old.asked ≡ asks.End value }
    ensures made { OnOk result (Makes code.now scheduler.old scheduler.new frame) }
    ensures rest { SameRest scheduler.old scheduler.new }
    ensures outcome { OnErr result (scheduler.new.outcome ≡ scheduler.old.outcome) }
    ensures stands { OnErr result (StandAsBefore scheduler.old.frames.items scheduler.new.frames.items) }
    ensures event { IfOk result (λ e. IsTouch e → ⊥) }
    ensures kind { IfOk result (λ e. e ≡ events.End) }
    ensures ends { OnOk result (EndsFrame code.now scheduler.old scheduler.new worker frame) }
{
    let views = &mut scheduler.workers[worker].views;
    retire_at(code, scheduler.frames.as_slice(), views, frame);
    depart(alloc, code, scheduler, worker, frame, value)?;
    let cursor = finish(&mut scheduler.frames, frame);
    keep_operands(alloc, &mut scheduler.asked, cursor);
    Ok(Event::End)
}

// Keeps the operands of a frame that has ended, for frames that begin later.
fn keep_operands(alloc: Global, asked: &mut AskSlot, cursor: Option<Cursor>)
    ensures { asked.new ≡ asked.old }
{
    let Some(mut cursor) = cursor else { return };
    let operands = cursor.take_operands(alloc);
    asked.keep(alloc, operands);
}

// Removes the reducers that the frame created from the views.
fn retire_at(code: &Code, frames: &[Activation<FrameState>], views: &mut Hypermap, frame: usize)
    requires here { frame < length frames.now }
    requires low { (a : Activation FrameState) → slice_get frames.now frame ≡ Some a → a.first < 65536 }
    requires few { (a : Activation FrameState) → slice_get frames.now frame ≡ Some a → (k : ℕ) → a.creator ≡ Some k → let f = function_frame code.now.layout k in length f.reducers ≤ 64 }
    ensures { (a : Activation FrameState) → slice_get frames.now frame ≡ Some a → RetiresOwn code.now.layout a views.old views.new }
{
    retire_own(code.layout(), &frames[frame], views);
}

// The worker leaves a frame that ends: the run is over, or it continues the parent, or it brings
// its views to the parent's block.
fn depart(
    alloc: Global,
    code: &Code,
    scheduler: &mut Scheduler,
    worker: usize,
    frame: usize,
    value: i64,
) -> Result<(), AllocError>
    requires here { frame < length scheduler.old.frames.items }
    requires works { worker < length scheduler.old.workers.items }
    requires low { worker < 2 ^ 32 }
    requires parent { (a : Activation FrameState) → slice_get scheduler.old.frames.items frame ≡ Some a → a.cursor.parent < length scheduler.old.frames.items }
    requires globals { length code.now.layout.openings ≤ length scheduler.old.cells.items }
    requires few { length code.now.layout.reducers ≤ 64 }
    ensures quiet { OnOk result (IsQuiet scheduler.old.frames.items scheduler.new.frames.items) }
    ensures cells { scheduler.new.cells ≡ scheduler.old.cells }
    ensures rest { SameRest scheduler.old scheduler.new }
    ensures outcome { OnErr result (scheduler.new.outcome ≡ scheduler.old.outcome) }
    ensures stands { OnErr result (StandAsBefore scheduler.old.frames.items scheduler.new.frames.items) }
    ensures fewer { scheduler.new.offered ≤ scheduler.old.offered }
    ensures departs { OnOk result (PartsTo code.now scheduler.old scheduler.new worker frame value) }
{
    if frame == 0 {
        return leave_run(alloc, code, scheduler, worker, value);
    }
    if scheduler.frames[frame].cursor.stolen {
        return hand_in(alloc, scheduler, worker, frame);
    }
    go_back(scheduler, worker, frame);
    Ok(())
}

// Records the outcome at the first frame's end, and makes the worker idle.
fn leave_run(
    alloc: Global,
    code: &Code,
    scheduler: &mut Scheduler,
    worker: usize,
    value: i64,
) -> Result<(), AllocError>
    requires works { worker < length scheduler.old.workers.items }
    requires globals { length code.now.layout.openings ≤ length scheduler.old.cells.items }
    requires few { length code.now.layout.reducers ≤ 64 }
    ensures frames { scheduler.new.frames ≡ scheduler.old.frames }
    ensures cells { scheduler.new.cells ≡ scheduler.old.cells }
    ensures rest { SameRest scheduler.old scheduler.new }
    ensures outcome { OnErr result (scheduler.new.outcome ≡ scheduler.old.outcome) }
    ensures offered { scheduler.new.offered ≡ scheduler.old.offered }
    ensures departs { OnOk result (PartsTo code.now scheduler.old scheduler.new worker 0 value) }
{
    let views = &mut scheduler.workers[worker].views;
    let left = outcome(
        alloc,
        code.layout(),
        scheduler.cells.as_slice(),
        views,
        value,
    )?;
    scheduler.outcome = Some(left);
    leave(&mut scheduler.workers, worker);
    Ok(())
}

// Brings the views of a stolen child to its parent's block. The worker continues the parent if the
// block passes, and is idle otherwise.
fn hand_in(
    alloc: Global,
    scheduler: &mut Scheduler,
    worker: usize,
    frame: usize,
) -> Result<(), AllocError>
    requires child { 0 < frame }
    requires here { frame < length scheduler.old.frames.items }
    requires works { worker < length scheduler.old.workers.items }
    requires low { worker < 2 ^ 32 }
    requires parent { (a : Activation FrameState) → slice_get scheduler.old.frames.items frame ≡ Some a → a.cursor.parent < length scheduler.old.frames.items }
    requires stolen { (a : Activation FrameState) → slice_get scheduler.old.frames.items frame ≡ Some a → a.cursor.stolen ≡ true }
    ensures quiet { OnOk result (IsQuiet scheduler.old.frames.items scheduler.new.frames.items) }
    ensures cells { scheduler.new.cells ≡ scheduler.old.cells }
    ensures rest { SameRest scheduler.old scheduler.new }
    ensures outcome { scheduler.new.outcome ≡ scheduler.old.outcome }
    ensures stands { OnErr result (StandAsBefore scheduler.old.frames.items scheduler.new.frames.items) }
    ensures offered { scheduler.new.offered ≡ scheduler.old.offered }
    ensures departs { OnOk result ((code : CodeView) (v : ℤ) → PartsTo code scheduler.old scheduler.new worker frame v) }
{
    let child = &scheduler.frames[frame].cursor;
    let (parent, key) = (child.parent, child.ordinal);
    let frame_state = &mut scheduler.frames[parent as usize].cursor;
    let views = &mut scheduler.workers[worker].views;
    if bring_awaited(alloc, frame_state, views, key)? {
        pass(&mut scheduler.frames, parent as usize);
        hold(
            &mut scheduler.frames,
            &mut scheduler.workers,
            worker,
            parent,
        );
    } else {
        leave(&mut scheduler.workers, worker);
    }
    Ok(())
}

// Brings the views of a stolen child to a block under this key, if they are awaited there. Returns
// whether the block passes; then the views are the whole block's. If memory runs out, they are
// lost.
fn bring_awaited(
    alloc: Global,
    frame_state: &mut FrameState,
    views: &mut Hypermap,
    key: u32,
) -> Result<bool, AllocError>
    ensures brings { IfOk result (λ passes. MayBring frame_state.old key → Brings frame_state.old key views.old passes frame_state.new views.new) }
    ensures same { frame_state.new ≡ record frame_state.old { join = frame_state.new.join } }
{
    if !may_bring(frame_state, key) {
        return Ok(false);
    }
    bring(alloc, frame_state, views, key)
}

// Whether the views of a stolen child may arrive at a block under this key.
fn may_bring(frame_state: &FrameState, key: u32) -> bool
    ensures yes { result ≡ true → MayBring frame_state.now key }
    ensures no { MayBring frame_state.now key → result ≡ true }
{
    match &frame_state.join {
        Some(join) => join.awaits(key) || join.fresh(key),
        None => false,
    }
}

// The worker continues the parent, which waits for this frame. Its continuation is no longer
// offered.
fn go_back(scheduler: &mut Scheduler, worker: usize, frame: usize)
    requires child { 0 < frame }
    requires here { frame < length scheduler.old.frames.items }
    requires works { worker < length scheduler.old.workers.items }
    requires low { worker < 2 ^ 32 }
    requires parent { (a : Activation FrameState) → slice_get scheduler.old.frames.items frame ≡ Some a → a.cursor.parent < length scheduler.old.frames.items }
    requires kept { (a : Activation FrameState) → slice_get scheduler.old.frames.items frame ≡ Some a → a.cursor.stolen ≡ false }
    ensures quiet { IsQuiet scheduler.old.frames.items scheduler.new.frames.items }
    ensures cells { scheduler.new.cells ≡ scheduler.old.cells }
    ensures rest { SameRest scheduler.old scheduler.new }
    ensures outcome { scheduler.new.outcome ≡ scheduler.old.outcome }
    ensures fewer { scheduler.new.offered ≤ scheduler.old.offered }
    ensures departs { (code : CodeView) (v : ℤ) → PartsTo code scheduler.old scheduler.new worker frame v }
{
    let parent = scheduler.frames[frame].cursor.parent;
    let status = scheduler.frames[parent as usize].cursor.status;
    let frames = scheduler.frames.as_slice();
    scheduler.offered = reclaim(
        &mut scheduler.workers,
        frames,
        scheduler.offered,
        status,
        parent,
    );
    hold(
        &mut scheduler.frames,
        &mut scheduler.workers,
        worker,
        parent,
    );
}

// Withdraws a frame's continuation from the worker that its status names. Returns how many are
// offered then.
fn reclaim(
    workers: &mut Vec<Worker>,
    frames: &[Activation<FrameState>],
    offered: usize,
    status: Status,
    frame: u32,
) -> usize
    ensures same { length workers.new.items ≡ length workers.old.items }
    ensures fewer { result ≤ offered }
    ensures seeks { IsOfferedAmong status (length workers.old.items) → Seeks frame status workers.old.items workers.new.items offered result }
{
    if !offered_among(status, workers.len()) {
        return offered;
    }
    take_back(workers, frames, offered, status, frame)
}

// Whether the worker that offers the continuation, if any, is one of `count` workers.
fn offered_among(status: Status, count: usize) -> bool
    ensures yes { result ≡ true → IsOfferedAmong status count }
    ensures no { IsOfferedAmong status count → result ≡ true }
{
    match status {
        Status::Offered(worker) => (worker as usize) < count,
        _ => true,
    }
}

/// Gives a frame to a worker.
pub fn hold(
    frames: &mut Vec<Activation<FrameState>>,
    workers: &mut Vec<Worker>,
    worker: usize,
    frame: u32,
)
    requires here { frame < length frames.old.items }
    requires works { worker < length workers.old.items }
    requires low { worker < 2 ^ 32 }
    ensures quiet { IsQuiet frames.old.items frames.new.items }
    ensures held { frames.new.items ≡ changed (moved_to (Held worker)) frames.old.items frame }
    ensures has { workers.new.items ≡ altered (working frame) workers.old.items worker }
{
    let status = Status::Held(worker as u32);
    move_to(frames, frame as usize, status);
    workers[worker].frame = Some(frame);
}

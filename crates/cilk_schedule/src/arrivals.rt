//! Views that arrive at a sync block, and the sync itself.

ghost use Rattle.std.specs.Prelude.{◌≡◌, ◌<◌, ◌^◌, false, ℤ, List, Some, length, slice_get, IfOk, OnErr, OnOk};
ghost use Rattle.cilk_types.specs.declared.event.Event.TheVariants as events;
ghost use Rattle.cilk_program.specs.declared.ask.Ask.TheVariants as asks;
ghost use Rattle.cilk_lower.specs.Code.{CodeView};
ghost use Rattle.cilk_frames.specs.declared.activation.Activation.{Activation};
ghost use Rattle.cilk_join.specs.Joins.{MayArrive};
ghost use Rattle.cilk_scheduler.specs.Events.{block_in};
ghost use Rattle.cilk_scheduler.specs.Parts.{freed, must_wait};
ghost use Rattle.cilk_scheduler.specs.Stopping.{StandAsBefore};
ghost use Rattle.cilk_scheduler.specs.Workers.{altered};
ghost use Rattle.cilk_scheduler.specs.declared.frame_state.FrameState.{FrameState};
ghost use Rattle.cilk_schedule.specs.Acts.{IsTouch};
ghost use Rattle.cilk_schedule.specs.Passing.{ComesTo, GoesBehind, OwnComes, PieceComes, StaysAt, WhereOwnIsDue, WhereOwnMayCome};
ghost use Rattle.cilk_schedule.specs.Sound.{IsAsked, IsQuiet, IsTurn, Makes, Runs, SameRest};

use cilk_frames::activation::Activation;
use cilk_hypermap::hypermap::Hypermap;
use cilk_scheduler::arriving::arrive;
use cilk_scheduler::frame_state::{FrameState, Worker};
use cilk_scheduler::frame_states::{begin_block, wait};
use cilk_scheduler::scheduler::Scheduler;
use cilk_types::event::Event;
use std::alloc::{AllocError, Global};

/// Returns whether a frame has to wait at its sync for a stolen child. False once its block has
/// passed.
pub fn must_wait(frames: &[Activation<FrameState>], frame: usize) -> bool
    requires { frame < length frames.now }
    ensures { (a : Activation FrameState) → slice_get frames.now frame ≡ Some a → result ≡ must_wait a.cursor }
{
    let frame_state = &frames[frame].cursor;
    if frame_state.merged {
        return false;
    }
    match &frame_state.join {
        Some(join) => join.waits(),
        None => false,
    }
}

/// Brings the frame's own views to its sync, whose block isn't complete, and makes the worker idle.
pub fn wait_at(
    alloc: Global,
    scheduler: &mut Scheduler,
    worker: usize,
    frame: usize,
) -> Result<(), AllocError>
    requires turn { (code : CodeView) × (inputs : List ℤ) × IsAsked code inputs scheduler.old frame }
    requires works { worker < length scheduler.old.workers.items }
    requires syncs { scheduler.old.asked ≡ asks.Sync }
    ensures runs { OnOk result ((code : CodeView) (inputs : List ℤ) → IsAsked code inputs scheduler.old frame → Runs code inputs scheduler.new) }
    ensures rest { SameRest scheduler.old scheduler.new }
    ensures outcome { scheduler.new.outcome ≡ scheduler.old.outcome }
    ensures stands { OnErr result (StandAsBefore scheduler.old.frames.items scheduler.new.frames.items) }
    ensures stays { OnOk result (WhereOwnIsDue scheduler.old.frames.items frame (StaysAt scheduler.old scheduler.new worker frame)) }
{
    let _waits = bring_own(
        alloc,
        &mut scheduler.frames,
        &mut scheduler.workers,
        worker,
        frame,
    )?;
    wait(&mut scheduler.frames, frame);
    leave(&mut scheduler.workers, worker);
    Ok(())
}

/// Makes the sync of a complete block: the worker has the whole block's views, and the next block
/// begins.
pub fn sync(
    alloc: Global,
    scheduler: &mut Scheduler,
    worker: usize,
    frame: usize,
) -> Result<Event, AllocError>
    requires turn { (code : CodeView) × (inputs : List ℤ) × IsTurn code inputs scheduler.old frame }
    requires works { worker < length scheduler.old.workers.items }
    requires syncs { scheduler.old.asked ≡ asks.Sync }
    ensures made { OnOk result ((code : CodeView) → Makes code scheduler.old scheduler.new frame) }
    ensures rest { SameRest scheduler.old scheduler.new }
    ensures outcome { scheduler.new.outcome ≡ scheduler.old.outcome }
    ensures stands { OnErr result (StandAsBefore scheduler.old.frames.items scheduler.new.frames.items) }
    ensures event { IfOk result (λ e. IsTouch e → ⊥) }
    ensures kind { IfOk result (λ e. e ≡ events.Sync) }
    ensures behind { OnOk result (WhereOwnMayCome scheduler.old.frames.items frame (GoesBehind scheduler.old scheduler.new worker frame)) }
{
    bring_once(
        alloc,
        &mut scheduler.frames,
        &mut scheduler.workers,
        worker,
        frame,
    )?;
    begin_block(&mut scheduler.frames, frame);
    Ok(Event::Sync)
}

// Brings the frame's own views to its block, unless the block has passed.
fn bring_once(
    alloc: Global,
    frames: &mut Vec<Activation<FrameState>>,
    workers: &mut Vec<Worker>,
    worker: usize,
    frame: usize,
) -> Result<(), AllocError>
    requires here { frame < length frames.old.items }
    requires works { worker < length workers.old.items }
    requires few { (a : Activation FrameState) → slice_get frames.old.items frame ≡ Some a → a.cursor.children < 2 ^ 31 }
    ensures quiet { OnOk result (IsQuiet frames.old.items frames.new.items) }
    ensures stands { OnErr result (StandAsBefore frames.old.items frames.new.items) }
    ensures own { OnOk result (WhereOwnMayCome frames.old.items frame (OwnComes frames.old.items frames.new.items workers.old.items workers.new.items worker frame)) }
{
    if frames[frame].cursor.merged {
        return Ok(());
    }
    let _passes = bring_own(alloc, frames, workers, worker, frame)?;
    Ok(())
}

// Brings the frame's own views to its block, if a continuation of it was stolen.
fn bring_own(
    alloc: Global,
    frames: &mut Vec<Activation<FrameState>>,
    workers: &mut Vec<Worker>,
    worker: usize,
    frame: usize,
) -> Result<bool, AllocError>
    requires here { frame < length frames.old.items }
    requires works { worker < length workers.old.items }
    requires few { (a : Activation FrameState) → slice_get frames.old.items frame ≡ Some a → a.cursor.children < 2 ^ 31 }
    ensures frames { OnOk result (IsQuiet frames.old.items frames.new.items) }
    ensures stands { OnErr result (StandAsBefore frames.old.items frames.new.items) }
    ensures workers { length workers.new.items ≡ length workers.old.items }
    ensures own { OnOk result (WhereOwnIsDue frames.old.items frame (OwnComes frames.old.items frames.new.items workers.old.items workers.new.items worker frame)) }
{
    let key = frames[frame].cursor.children + 1;
    bring(alloc, frames, workers, worker, frame, key, true)
}

/// Brings a worker's views to a frame's block under this key, if they may arrive there. Returns
/// whether the block passes; then the worker has the whole block's views. If memory runs out, the
/// views are lost.
pub fn bring(
    alloc: Global,
    frames: &mut Vec<Activation<FrameState>>,
    workers: &mut Vec<Worker>,
    worker: usize,
    frame: usize,
    key: u32,
    last: bool,
) -> Result<bool, AllocError>
    requires here { frame < length frames.old.items }
    requires works { worker < length workers.old.items }
    ensures frames { OnOk result (IsQuiet frames.old.items frames.new.items) }
    ensures stands { OnErr result (StandAsBefore frames.old.items frames.new.items) }
    ensures workers { length workers.new.items ≡ length workers.old.items }
    ensures brings { IfOk result (λ passes. (a : Activation FrameState) → slice_get frames.old.items frame ≡ Some a → MayArrive (block_in a.cursor.join) key last
        → PieceComes frames.old.items frames.new.items workers.old.items workers.new.items worker frame key last passes) }
{
    let views = &mut workers[worker].views;
    bring_to(alloc, &mut frames[frame].cursor, views, key, last)
}

// The same on the frame's state.
fn bring_to(
    alloc: Global,
    frame_state: &mut FrameState,
    views: &mut Hypermap,
    key: u32,
    last: bool,
) -> Result<bool, AllocError>
    ensures same { frame_state.new ≡ record frame_state.old { join = frame_state.new.join } }
    ensures comes { IfOk result (λ passes. MayArrive (block_in frame_state.old.join) key last → ComesTo frame_state.old key last views.old passes frame_state.new views.new) }
{
    let Some(join) = &mut frame_state.join else {
        return Ok(false);
    };
    if (!last && join.awaits(key)) || join.fresh(key) {
        arrive(alloc, join, views, key, last)
    } else {
        Ok(false)
    }
}

/// Makes the worker idle.
pub fn leave(workers: &mut Vec<Worker>, worker: usize)
    requires { worker < length workers.old.items }
    ensures count { length workers.new.items ≡ length workers.old.items }
    ensures has { workers.new.items ≡ altered freed workers.old.items worker }
{
    workers[worker].frame = None;
}

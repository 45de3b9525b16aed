//! The start of a child frame.

ghost use Rattle.std.specs.Prelude.{◌≡◌, ◌+◌, ◌<◌, ◌^◌, ◌++◌, suc, pos, Some, length, replicate, slice_get, IfOk, OnErr, OnOk, ℤ, List};
ghost use Rattle.cilk_program.specs.SerialRun.{invocation};
ghost use Rattle.cilk_program.specs.Syntax.{Source};
ghost use Rattle.cilk_lower.specs.Code.{CodeView};
ghost use Rattle.cilk_frames.specs.declared.activation.Activation.{Activation};
ghost use Rattle.cilk_scheduler.specs.declared.frame_state.FrameState.{FrameState};
ghost use Rattle.cilk_scheduler.specs.Invocations.{ChildBegins, InvocationsAreNoted, offering};

use crate::frame_state::{FrameState, Status, Worker};
use crate::frame_states::start;
use crate::scheduler::Scheduler;
use cilk_frames::activation::Activation;
use cilk_types::event::Event;
use cilk_types::invocation::Invocation;
use std::alloc::AllocError;

/// Adds `count` cells that hold 0.
pub fn add_cells(cells: &mut Vec<i64>, count: u32) -> Result<(), AllocError>
    ensures { OnOk result (cells.new.items ≡ cells.old.items ++ replicate count (pos 0)) }
{
    'each: for _ in 0..count {
        cells.push(0)?;
    }
    Ok(())
}

/// Offers the continuation of a frame that spawns, as the worker's newest. A call offers nothing.
pub fn offer(own: &mut Worker, how: Invocation, frame: u32, child: u32) -> Result<(), AllocError>
    ensures offers { OnOk result (own.new.offered.items ≡ offering how frame own.old.offered.items) }
    ensures frame { own.new.frame ≡ own.old.frame }
    ensures views { own.new.views ≡ own.old.views }
{
    match how {
        Invocation::Call => Ok(()),
        Invocation::Spawn => {
            own.offered.push(frame, child)?;
            Ok(())
        }
    }
}

/// Starts a child frame with `count` new cells: the worker continues with it, and the parent waits
/// for it or is offered. Returns the event, which isn't recorded yet. If out of memory, frames,
/// journal, ticks, outcome and stop are unchanged; cells and offers may not be.
pub fn begin(
    scheduler: &mut Scheduler,
    worker: u32,
    frame: u32,
    how: Invocation,
    child: Activation<FrameState>,
    count: u32,
) -> Result<Event, AllocError>
    requires here { frame < length scheduler.old.frames.items }
    requires works { worker < length scheduler.old.workers.items }
    requires few { length scheduler.old.frames.items < 65536 }
    requires children { (top : Activation FrameState) → slice_get scheduler.old.frames.items frame ≡ Some top → top.cursor.children < 2 ^ 31 }
    requires offered { scheduler.old.offered < 2 ^ 31 }
    ensures event { IfOk result (λ e. e ≡ invocation how (suc (length scheduler.old.frames.items))) }
    ensures begins { OnOk result (ChildBegins scheduler.old scheduler.new worker frame how child count) }
    ensures frames { OnErr result (scheduler.new.frames.items ≡ scheduler.old.frames.items) }
    ensures journal { scheduler.new.journal ≡ scheduler.old.journal }
    ensures ticks { scheduler.new.ticks ≡ scheduler.old.ticks }
    ensures outcome { scheduler.new.outcome ≡ scheduler.old.outcome }
    ensures stopped { scheduler.new.stopped ≡ scheduler.old.stopped }
{
    let place = scheduler.frames.len() as u32;
    offer(&mut scheduler.workers[worker as usize], how, frame, place)?;
    add_cells(&mut scheduler.cells, count)?;
    scheduler.frames.reserve(1)?;
    scheduler.frames.push_reserved(child);
    scheduler.workers[worker as usize].frame = Some(place);
    let at = frame as usize;
    match how {
        Invocation::Call => {
            start(&mut scheduler.frames, at, place, Status::Calling);
            Ok(Event::Call { child: place + 1 })
        }
        Invocation::Spawn => {
            start(&mut scheduler.frames, at, place, Status::Offered(worker));
            scheduler.offered += 1;
            Ok(Event::Spawn { child: place + 1 })
        }
    }
}

/// A worker's frame whose request is a call or a spawn starts its child as the law of invocations
/// requires. The premises are the steps of the code: the child is made and begun, the event is
/// recorded and its ticks are counted.
pub fn invocations_are_noted()
    ensures { (code : CodeView) (p : Source) (inputs : List ℤ) → InvocationsAreNoted code p inputs }
{}

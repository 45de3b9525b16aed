//! The start of a child.

ghost use Rattle.std.specs.Prelude.{◌≡◌, ◌<◌, ◌^◌, ℤ, List, length, IfOk, OnErr, OnOk};
ghost use Rattle.cilk_types.specs.declared.event.Event.TheVariants as events;
ghost use Rattle.cilk_program.specs.declared.ask.Ask.TheVariants as asks;
ghost use Rattle.cilk_program.specs.declared.ask.Callee.TheVariants as callees;
ghost use Rattle.cilk_frames.specs.AskSlot.{IsFunctionCall};
ghost use Rattle.cilk_schedule.specs.Acts.{IsTouch};
ghost use Rattle.cilk_schedule.specs.Sound.{IsTurn, Makes, SameRest};
ghost use Rattle.cilk_schedule.specs.Starting.{Started};

use cilk_lower::code::Code;
use cilk_program::ask::LoopPart;
use cilk_scheduler::beginning::begin;
use cilk_scheduler::invoking::{Starter, function_child, turns_child};
use cilk_scheduler::scheduler::Scheduler;
use cilk_types::event::Event;
use cilk_types::invocation::Invocation;
use std::alloc::{AllocError, Global};

/// Begins the frame of the function that is called or spawned.
pub fn start_function(
    alloc: Global,
    code: &Code,
    scheduler: &mut Scheduler,
    worker: usize,
    frame: u32,
) -> Result<Event, AllocError>
    requires turn { (inputs : List ℤ) × IsTurn code.now inputs scheduler.old frame }
    requires works { worker < length scheduler.old.workers.items }
    requires low { worker < 2 ^ 32 }
    requires begins { IsFunctionCall scheduler.old.asked }
    ensures made { OnOk result (Makes code.now scheduler.old scheduler.new frame) }
    ensures rest { SameRest scheduler.old scheduler.new }
    ensures outcome { scheduler.new.outcome ≡ scheduler.old.outcome }
    ensures same { OnErr result (scheduler.new.frames.items ≡ scheduler.old.frames.items) }
    ensures event { IfOk result (λ e. IsTouch e → ⊥) }
    ensures kind { IfOk result (λ e. e ≡ events.Sync → ⊥) }
    ensures starts { IfOk result (λ e. Started code.now scheduler.old scheduler.new worker frame e) }
{
    let operands = scheduler.asked.spare(alloc);
    let (how, call) = scheduler.asked.invocation();
    let count = code.layout().function_cells(call.function);
    let starter = Starter {
        frame,
        worker: worker as u32,
        base: scheduler.cells.len() as u32,
    };
    let frames = scheduler.frames.as_slice();
    let child = function_child(alloc, operands, code, frames, starter, how, call)?;
    begin(scheduler, worker as u32, frame, how, child, count)
}

/// Begins the frame of the loop turns that are called or spawned.
pub fn start_turns(
    alloc: Global,
    code: &Code,
    scheduler: &mut Scheduler,
    worker: usize,
    frame: u32,
    how: Invocation,
    part: LoopPart,
) -> Result<Event, AllocError>
    requires turn { (inputs : List ℤ) × IsTurn code.now inputs scheduler.old frame }
    requires works { worker < length scheduler.old.workers.items }
    requires low { worker < 2 ^ 32 }
    requires begins { scheduler.old.asked ≡ asks.Invoke how (callees.Loop part) }
    ensures made { OnOk result (Makes code.now scheduler.old scheduler.new frame) }
    ensures rest { SameRest scheduler.old scheduler.new }
    ensures outcome { scheduler.new.outcome ≡ scheduler.old.outcome }
    ensures same { OnErr result (scheduler.new.frames.items ≡ scheduler.old.frames.items) }
    ensures event { IfOk result (λ e. IsTouch e → ⊥) }
    ensures kind { IfOk result (λ e. e ≡ events.Sync → ⊥) }
    ensures starts { IfOk result (λ e. Started code.now scheduler.old scheduler.new worker frame e) }
{
    let operands = scheduler.asked.spare(alloc);
    let count = code.layout().part_cells(&part);
    let starter = Starter {
        frame,
        worker: worker as u32,
        base: scheduler.cells.len() as u32,
    };
    let frames = scheduler.frames.as_slice();
    let child = turns_child(alloc, operands, code, frames, starter, how, &part)?;
    begin(scheduler, worker as u32, frame, how, child, count)
}

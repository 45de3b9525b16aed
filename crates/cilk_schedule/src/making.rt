//! The event that a frame requests.

ghost use Rattle.std.specs.Prelude.{◌≡◌, ◌<◌, ◌^◌, ℤ, List, length, IfOk, OnErr, OnOk};
ghost use Rattle.cilk_types.specs.declared.event.Event.TheVariants as events;
ghost use Rattle.cilk_program.specs.declared.ask.Ask.TheVariants as asks;
ghost use Rattle.cilk_scheduler.specs.Stopping.{StandAsBefore};
ghost use Rattle.cilk_schedule.specs.Acts.{IsTouch, Touched};
ghost use Rattle.cilk_schedule.specs.Ends.{EndsFrame};
ghost use Rattle.cilk_schedule.specs.Starting.{IsStart, Started};
ghost use Rattle.cilk_schedule.specs.Passing.{GoesBehind, WhereOwnMayCome};
ghost use Rattle.cilk_schedule.specs.Sound.{IsTurn, Makes, SameRest};

use crate::arrivals::sync;
use crate::ending::end;
use crate::events::{create, print, read, set, update, value, write, write_result};
use crate::starting::{start_function, start_turns};
use cilk_frames::small_ask::SmallAsk;
use cilk_lower::code::Code;
use cilk_scheduler::frame_states::begin_strand;
use cilk_scheduler::scheduler::Scheduler;
use cilk_types::event::Event;
use std::alloc::{AllocError, Global};

/// Makes the event that the worker's frame requests. It isn't in the journal yet. Each caller takes
/// another `COPY`, so that the compiler makes this a part of each.
pub fn make<const COPY: u8>(
    alloc: Global,
    code: &Code,
    scheduler: &mut Scheduler,
    worker: usize,
    place: u32,
) -> Result<Event, AllocError>
    requires turn { (inputs : List ℤ) × IsTurn code.now inputs scheduler.old place }
    requires works { worker < length scheduler.old.workers.items }
    requires low { worker < 2 ^ 32 }
    ensures made { OnOk result (Makes code.now scheduler.old scheduler.new place) }
    ensures rest { SameRest scheduler.old scheduler.new }
    ensures outcome { OnErr result (scheduler.new.outcome ≡ scheduler.old.outcome) }
    ensures stands { OnErr result (StandAsBefore scheduler.old.frames.items scheduler.new.frames.items) }
    ensures touched { IfOk result (λ e. IsTouch e → Touched scheduler.old scheduler.new worker place e) }
    ensures starts { IfOk result (λ e. IsStart e → Started code.now scheduler.old scheduler.new worker place e) }
    ensures syncs { IfOk result (λ e. e ≡ events.Sync → (scheduler.old.asked ≡ asks.Sync) × WhereOwnMayCome scheduler.old.frames.items place (GoesBehind scheduler.old scheduler.new worker place)) }
    ensures ends { IfOk result (λ e. e ≡ events.End → EndsFrame code.now scheduler.old scheduler.new worker place) }
{
    let frame = place as usize;
    let Some(small_ask) = scheduler.asked.small_ask() else {
        return start_function(alloc, code, scheduler, worker, place);
    };
    match *small_ask {
        SmallAsk::Begin => {
            begin_strand(&mut scheduler.frames, frame);
            Ok(Event::Begin { frame: place + 1 })
        }
        SmallAsk::Resume => {
            begin_strand(&mut scheduler.frames, frame);
            Ok(Event::Resume { parent: place + 1 })
        }
        SmallAsk::Read(cell) => {
            let cells = scheduler.cells.as_slice();
            Ok(read(&mut scheduler.frames, cells, frame, cell))
        }
        SmallAsk::Write(cell, word) => {
            let cells = &mut scheduler.cells;
            Ok(write(&mut scheduler.frames, cells, frame, cell, word))
        }
        SmallAsk::Result(word) => {
            let cells = &mut scheduler.cells;
            Ok(write_result(&mut scheduler.frames, cells, frame, word))
        }
        SmallAsk::Turns(how, part) => start_turns(alloc, code, scheduler, worker, place, how, part),
        SmallAsk::Sync => sync(alloc, scheduler, worker, frame),
        SmallAsk::End(word) => end(alloc, code, scheduler, worker, frame, word),
        SmallAsk::Fault(_) => unreachable!(),
        SmallAsk::Create(reducer) => {
            let views = &mut scheduler.workers[worker].views;
            create(alloc, &mut scheduler.frames, views, frame, reducer)
        }
        SmallAsk::Update(reducer, word) => {
            let views = &mut scheduler.workers[worker].views;
            update(alloc, &mut scheduler.frames, views, frame, reducer, word)
        }
        SmallAsk::Set(reducer, word) => {
            let views = &mut scheduler.workers[worker].views;
            set(alloc, &mut scheduler.frames, views, frame, reducer, word)
        }
        SmallAsk::Value(reducer) => {
            let views = &mut scheduler.workers[worker].views;
            value(alloc, &mut scheduler.frames, views, frame, reducer)
        }
        SmallAsk::Print(word) => {
            let views = &mut scheduler.workers[worker].views;
            print(alloc, &mut scheduler.frames, views, frame, word)
        }
    }
}

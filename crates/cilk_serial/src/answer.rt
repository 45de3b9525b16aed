// The answer to a frame's request.

ghost use Rattle.std.specs.Prelude.{◌≤◌, length, IfOk};
ghost use Rattle.cilk_types.specs.declared.limits.TheConstants.{MAX_CELLS};
ghost use Rattle.cilk_program.specs.Syntax.{Source};
ghost use Rattle.cilk_program.specs.SerialRun.{Frame};
ghost use Rattle.cilk_frames.specs.AskSlot.{in_full};
ghost use Rattle.cilk_serial.specs.Scoped.{IsOnTop, IsThere};
ghost use Rattle.cilk_serial.specs.States.{Passes, Tells};

use crate::state::{Refused, State};
use cilk_frames::call_stack::CallStack;
use cilk_frames::cursor::Answer;
use cilk_frames::small_ask::SmallAsk;
use cilk_program::ask::LoopPart;
use cilk_types::event::Event;
use cilk_types::fault::Fault;
use cilk_types::invocation::Invocation;
use std::alloc::{AllocError, Global};

/// The effect of a request.
#[derive(Clone, Copy)]
pub enum Told {
    /// Its event was made, and the frame continues with this answer.
    Goes(Answer),
    /// The frame of some turns of a loop is to begin.
    Turns(Invocation, LoopPart),
    /// The frame ends with this result.
    Ends(i64),
    /// The frame stops by a fault.
    Stops(Fault),
    /// There is no room for one more event, which the frame would make.
    Full,
}

/// Makes the event of a request of the running frame, if the frame continues at once. Changes
/// nothing otherwise.
#[inline(always)]
pub fn answer<C>(
    alloc: Global,
    state: &mut State,
    frames: &CallStack<C>,
    ask: &SmallAsk,
) -> Result<Told, AllocError>
    requires few { length state.old.cells.items ≤ MAX_CELLS }
    requires there { (p : Source) × (fr : Frame) × IsOnTop frames.now fr × IsThere p fr (length state.old.cells.items) (in_full ask.now) }
    ensures { (p : Source) (fr : Frame) → IsOnTop frames.now fr → IfOk result (λ told. Tells p fr state.old state.new (in_full ask.now) told) }
{
    match ask {
        SmallAsk::Begin => goes(state.make(Event::Begin {
            frame: frames.top.number,
        })),
        SmallAsk::Read(place) => goes(state.read(frames.cell(*place))),
        SmallAsk::Write(place, word) => goes(state.write(frames.cell(*place), *word)),
        SmallAsk::Create(reducer) => {
            let instance = frames.reducer(reducer.place);
            goes(state.create(alloc, instance, reducer.kind))
        }
        SmallAsk::Update(reducer, word) => {
            let instance = frames.reducer(reducer.place);
            goes(state.update(alloc, instance, reducer.kind, *word))
        }
        SmallAsk::Set(reducer, word) => {
            let instance = frames.reducer(reducer.place);
            goes(state.set(alloc, instance, reducer.kind, *word))
        }
        SmallAsk::Value(reducer) => {
            let instance = frames.reducer(reducer.place);
            goes(state.value(alloc, instance, reducer.kind))
        }
        SmallAsk::Print(word) => goes(state.print(*word)),
        SmallAsk::Turns(how, part) => Ok(Told::Turns(*how, *part)),
        SmallAsk::Resume => goes(state.make(Event::Resume {
            parent: frames.top.number,
        })),
        SmallAsk::Sync => goes(state.make(Event::Sync)),
        SmallAsk::Result(word) => {
            let cell = frames.top.result.unwrap();
            goes(state.write(cell, *word))
        }
        SmallAsk::End(result) => Ok(Told::Ends(*result)),
        SmallAsk::Fault(fault) => Ok(Told::Stops(*fault)),
    }
}

#[inline(always)]
fn goes(answer: Result<Answer, Refused>) -> Result<Told, AllocError>
    ensures { Passes answer result }
{
    match answer {
        Ok(answer) => Ok(Told::Goes(answer)),
        Err(Refused::Full) => Ok(Told::Full),
        Err(Refused::Memory) => Err(AllocError),
    }
}

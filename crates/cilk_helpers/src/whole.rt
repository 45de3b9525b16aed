//! Retells a whole run.

ghost use Rattle.std.specs.Prelude.{◌≡◌, [], false, All, IfOk, IfSome};
ghost use Rattle.cilk_lower.specs.Behaves.{Behaves};
ghost use Rattle.cilk_lower.specs.Layout.{LaysOut};
ghost use Rattle.cilk_program.specs.Sources.{source};
ghost use Rattle.cilk_program.specs.declared.ask.Ask.TheVariants as asks;
ghost use Rattle.cilk_program.specs.declared.ask.Callee.TheVariants as callees;
ghost use Rattle.cilk_helpers.specs.Asked.{ask_in};
ghost use Rattle.cilk_helpers.specs.Whole.{IsKept, IsRetold, Retells};
ghost use Rattle.cilk_helpers.specs.Telling.{HasRoom, Tells};

use crate::called::SmallCallee;
use crate::note::{Asked, Note};
use crate::retelling::{Gone, Parting, Retelling};
use cilk_checker::frames::{self, Own, of_callee};
use cilk_lower::code::Code;
use cilk_lower::layout::PlannedFrame;
use cilk_program::ask::{Callee, LoopPart};
use cilk_program::program::Program;
use cilk_serial::outcome::outcome;
use cilk_serial::state::State;
use cilk_types::input::Input;
use cilk_types::invocation::Invocation;
use cilk_types::limits::MAX_EVENTS;
use cilk_types::outcome::Outcome;
use cilk_types::trace::Trace;
use std::alloc::{AllocError, Global};

/// The replay of a frame: its callee, and its notes, the next one last.
#[derive(Drop)]
pub struct Replay {
    pub callee: SmallCallee,
    pub notes: Vec<Note>,
}

/// The result of a step of a run that is retold.
#[derive(Clone, Copy)]
pub enum Step {
    /// An event that begins no frame; the run continues.
    GoesOn,
    /// An event that begins a frame with this body and these cells; the run continues.
    Begins(Own),
    /// The last event: the main function has ended with this result.
    Ends(i64),
    /// The run isn't retold any further.
    Departs,
}

// The replay of the next frame. The other arguments are for the contract.
fn next(code: &Code, program: &Program, input: &Input, replays: &mut Vec<Replay>) -> Option<Replay>
    requires { All (IsKept code.now (source program.now) input.now) replays.old.items }
    ensures rest { All (IsKept code.now (source program.now) input.now) replays.new.items }
    ensures one { IfSome result (IsKept code.now (source program.now) input.now) }
{
    let _ = code;
    let _ = program;
    let _ = input;
    replays.pop()
}

// Begins the frame of the requested function, if this is its replay.
fn begin_function(
    alloc: Global,
    program: &Program,
    code: &Code,
    input: &Input,
    run: &mut Retelling,
    replay: Replay,
) -> Result<Step, AllocError>
    requires tells { Tells code.now (source program.now) input.now run.old }
    requires kept { IsKept code.now (source program.now) input.now replay }
    ensures { IfOk result (λ s. Retells code.now (source program.now) input.now run.old s run.new) }
{
    let _ = input;
    let Asked::Function(how, given) = &run.asked else {
        return Ok(Step::Departs);
    };
    let Some(call) = given.call() else {
        return Ok(Step::Departs);
    };
    let Replay {
        callee: called,
        notes,
    } = replay;
    let is_next = called.is_call(&call);
    drop(called);
    if !is_next {
        return Ok(Step::Departs);
    }
    let how = *how;
    let callee = Callee::Function(call);
    let own = of_callee(program, code.layout(), &callee);
    let Callee::Function(call) = &callee else {
        return Ok(Step::Departs);
    };
    let begun = run.begin_function(alloc, program, how, call, notes)?;
    Ok(if begun {
        Step::Begins(own)
    } else {
        Step::Departs
    })
}

// Begins the frame of the requested turns, if this is its replay.
fn begin_turns(
    alloc: Global,
    program: &Program,
    code: &Code,
    input: &Input,
    run: &mut Retelling,
    turns: (Invocation, LoopPart),
    replay: Replay,
) -> Result<Step, AllocError>
    requires asked { ask_in run.old.asked ≡ asks.Invoke turns.0 (callees.Loop turns.1) }
    requires tells { Tells code.now (source program.now) input.now run.old }
    requires kept { IsKept code.now (source program.now) input.now replay }
    ensures { IfOk result (λ s. Retells code.now (source program.now) input.now run.old s run.new) }
{
    let _ = input;
    let (how, part) = turns;
    let Replay { callee, notes } = replay;
    let is_next = callee.is_part(&part);
    drop(callee);
    if !is_next {
        return Ok(Step::Departs);
    }
    let own = of_callee(program, code.layout(), &Callee::Loop(part));
    let begun = run.begin_turns(alloc, program, how, part, notes)?;
    Ok(if begun {
        Step::Begins(own)
    } else {
        Step::Departs
    })
}

// Ends the frame on top with this result.
fn end(
    program: &Program,
    code: &Code,
    input: &Input,
    run: &mut Retelling,
    value: i64,
) -> Result<Step, AllocError>
    requires ends { ask_in run.old.asked ≡ asks.End value }
    requires room { HasRoom run.old.state }
    requires tells { Tells code.now (source program.now) input.now run.old }
    ensures { IfOk result (λ s. Retells code.now (source program.now) input.now run.old s run.new) }
{
    let _ = code;
    let _ = input;
    match run.end(program, value)? {
        Parting::GoesOn => Ok(Step::GoesOn),
        Parting::WasLast => Ok(Step::Ends(value)),
        Parting::Leaves => Ok(Step::Departs),
    }
}

// Whether the run has as many events as it may have.
fn is_full(state: &State) -> bool
    ensures { result ≡ false → HasRoom state.now }
{
    state.events.len() >= MAX_EVENTS as usize
}

// Makes the next event.
fn make_event(
    alloc: Global,
    program: &Program,
    code: &Code,
    input: &Input,
    run: &mut Retelling,
    replays: &mut Vec<Replay>,
) -> Result<Step, AllocError>
    requires tells { Tells code.now (source program.now) input.now run.old }
    requires kept { All (IsKept code.now (source program.now) input.now) replays.old.items }
    ensures step { IfOk result (λ s. Retells code.now (source program.now) input.now run.old s run.new) }
    ensures kept { All (IsKept code.now (source program.now) input.now) replays.new.items }
{
    if is_full(&run.state) {
        return Ok(Step::Departs);
    }
    let Asked::SmallAsk(small_ask) = run.asked else {
        return match next(code, program, input, replays) {
            Some(replay) => begin_function(alloc, program, code, input, run, replay),
            None => Ok(Step::Departs),
        };
    };
    match run.go_on(alloc, small_ask)? {
        Gone::Made => Ok(Step::GoesOn),
        Gone::Turns(how, part) => match next(code, program, input, replays) {
            Some(replay) => begin_turns(alloc, program, code, input, run, (how, part), replay),
            None => Ok(Step::Departs),
        },
        Gone::Ends(value) => end(program, code, input, run, value),
        Gone::Departs => Ok(Step::Departs),
    }
}

// How many events are noted, at most as many as a run may make.
fn noted(replays: &[Replay]) -> usize {
    let mut count: usize = 0;
    'each: for number in 0..replays.len() {
        count = count.saturating_add(replays[number].notes.len());
    }
    count.min(MAX_EVENTS as usize)
}

// Begins the root's frame by the first replay.
fn begin(
    alloc: Global,
    program: &Program,
    code: &Code,
    input: &Input,
    replays: &mut Vec<Replay>,
) -> Result<Option<Retelling>, AllocError>
    requires behaves { Behaves (source program.now) code.now }
    requires kept { All (IsKept code.now (source program.now) input.now) replays.old.items }
    ensures tells { IfOk result (λ found. IfSome found (Tells code.now (source program.now) input.now)) }
    ensures first { IfOk result (λ found. IfSome found (λ t. t.state.events.items ≡ [])) }
    ensures kept { All (IsKept code.now (source program.now) input.now) replays.new.items }
{
    let events = noted(replays.as_slice());
    let Some(replay) = next(code, program, input, replays) else {
        return Ok(None);
    };
    let Replay { callee, notes } = replay;
    let is_root = callee.is_root();
    drop(callee);
    if !is_root {
        return Ok(None);
    }
    Ok(Some(Retelling::new(alloc, program, notes, events)?))
}

/// A run that was retold: its outcome, its frames in the order of their numbers, and its events.
#[derive(Drop)]
pub struct Retold {
    pub outcome: Outcome,
    pub frames: Vec<PlannedFrame>,
    pub trace: Trace,
}

/// Retells the serial run of a program from the replays of its frames, the last frame first.
///
/// `None` if a replay is missing or had another answer than the run, or if the run doesn't end
/// without a fault.
pub fn retell(
    alloc: Global,
    program: &Program,
    code: &Code,
    input: &Input,
    replays: Vec<Replay>,
) -> Result<Option<Retold>, AllocError>
    requires behaves { Behaves (source program.now) code.now }
    requires layout { LaysOut (source program.now) code.now.layout }
    requires kept { All (IsKept code.now (source program.now) input.now) replays.items }
    ensures { IfOk result (λ found. IfSome found (IsRetold (source program.now) input.now)) }
{
    let mut replays = replays;
    let mut frames = Vec::with_capacity(alloc, replays.len())?;
    let Some(mut run) = begin(alloc, program, code, input, &mut replays)? else {
        return Ok(None);
    };
    let root = of_callee(program, code.layout(), &Callee::Root);
    let mut cells = frames::begin(&mut frames, program.globals.len() as u64, root)?;
    'each: for _ in 0..MAX_EVENTS {
        match make_event(alloc, program, code, input, &mut run, &mut replays)? {
            Step::GoesOn => {}
            Step::Begins(own) => cells = frames::begin(&mut frames, cells, own)?,
            Step::Ends(value) => {
                let (outcome, trace) = outcome(alloc, program, run.into_state(), value)?;
                return Ok(Some(Retold {
                    outcome,
                    frames,
                    trace,
                }));
            }
            Step::Departs => return Ok(None),
        }
    }
    Ok(None)
}

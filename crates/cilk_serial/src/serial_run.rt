//! The serial run, one event at a time.

ghost use Rattle.std.specs.Prelude.{◌≡◌, [], IfOk, IfSome, IsSome, OnOk, OnErr};
ghost use Rattle.cilk_program.specs.Sources.{source};
ghost use Rattle.cilk_lower.specs.Behaves.{Behaves};
ghost use Rattle.cilk_serial.specs.Ran.{Ran};
ghost use Rattle.cilk_serial.specs.SoFar.{BeginsTarget, Comes, IsIntact, IsOver, IsSoFar, IsTargetOf, MakesRest, RunsOn};
ghost use Rattle.cilk_frames.specs.Following.{child_of};
ghost use Rattle.cilk_serial.specs.declared.serial_run.Stage.TheVariants.{Going, Ended, Failed};

use crate::outcome::outcome;
use crate::running::{Halt, Running, Step};
use cilk_frames::asked::AskSlot;
use cilk_frames::operands::LastOperands;
use cilk_frames::small_ask::SmallAsk;
use cilk_lower::code::Code;
use cilk_program::ask::LoopPart;
use cilk_program::program::Program;
use cilk_types::event::Event;
use cilk_types::fault::Fault;
use cilk_types::input::Input;
use cilk_types::limits::MAX_TICKS;
use cilk_types::outcome::Outcome;
use cilk_types::trace::Trace;
use std::alloc::{AllocError, Global};
use std::marker::Model;

/// The next step of a run.
#[derive(Clone, Copy)]
pub enum Next {
    /// This event, which has just been made.
    Made(Event),
    /// The end. All events are made, and [`SerialRun::finish`] returns the outcome.
    Ended,
    /// This fault, in place of another event. No more events follow.
    Stops(Fault),
}

/// The callee of a frame, without its arguments: a function by its number, or turns of a loop.
#[derive(Clone, Copy)]
pub enum Target {
    Function(u32),
    Loop(LoopPart),
}

/// The progress of a run.
#[derive(Clone, Copy)]
pub enum Stage {
    /// Another event or a fault follows.
    Going,
    /// The main function has ended with this result.
    Ended(i64),
    /// Memory was refused during an event.
    Failed,
}

impl Stage {
    fn result(self) -> Option<i64>
        ensures over { IsOver self → IsSome result }
        ensures value { IfSome result (λ v. self ≡ Ended v) }
    {
        match self {
            Stage::Ended(result) => Some(result),
            _ => None,
        }
    }
}

/// A serial run that is made one event at a time. It borrows the program, its code and the input,
/// and owns the store, the frames and the events so far.
pub struct SerialRun<'a> {
    alloc: Global,
    program: &'a Program,
    code: &'a Code,
    input: &'a Input,
    running: Running,
    stage: Stage,
}

// A separate function, so that a proof follows one call where a run is dropped.
impl Drop for SerialRun<'_> {
    fn drop(self) {
        let SerialRun {
            alloc: _alloc,
            program: _program,
            code: _code,
            input: _input,
            running: _running,
            stage: _stage,
        } = self;
    }
}

impl<'a> Model for SerialRun<'a> {
    ghost use Rattle.cilk_program.specs.Sources.{source};
    ghost use Rattle.cilk_serial.specs.SoFar.{RunView, view_code};

    ghost Value = { RunView };

    ghost coded = { view_code };

    ghost use Rattle.cilk_serial.specs.Going.{Keeps};

    ghost view = { λ r. record { program = r.program.now; inputs = r.input.now; events = r.running.state.events.items; stage = r.stage } };

    ghost invariant = { λ r. Keeps r.code.now (source r.program.now) r.input.now r.running r.stage };
}

impl<'a> SerialRun<'a> {
    /// Returns the run before its first event. `code` must be the code of `program`.
    pub fn new(
        alloc: Global,
        program: &'a Program,
        code: &'a Code,
        input: &'a Input,
    ) -> Result<SerialRun<'a>, AllocError>
        requires { Behaves (source program.now) code.now }
        ensures { IfOk result (λ run. run ≡ record { program = program.now; inputs = input.now; events = []; stage = Going }) }
    {
        let running = Running::new(alloc, program, code)?;
        Ok(SerialRun {
            alloc,
            program,
            code,
            input,
            running,
            stage: Stage::Going,
        })
    }

    /// Makes the next event, or returns how the run ends. Once the run has ended or met a fault,
    /// each further call returns the same. If memory is refused, this call and each further one
    /// fail. Cost: linear in the ticks up to the event.
    pub fn next(&mut self) -> Result<Next, AllocError>
        ensures ok { IfOk result (λ next. Comes self.old next self.new) }
        ensures err { OnErr result (self.new.stage ≡ Failed) }
        ensures intact { OnOk result (IsIntact self.old.stage × IsIntact self.new.stage) }
    {
        match self.stage {
            Stage::Going => {}
            Stage::Ended(_) => return Ok(Next::Ended),
            Stage::Failed => return Err(AllocError),
        }
        match self
            .running
            .step::<true>(self.alloc, self.program, self.code, self.input)
        {
            Step::Made => Ok(Next::Made(self.running.state.last_event())),
            Step::Last(result) => {
                self.stage = Stage::Ended(result);
                Ok(Next::Made(self.running.state.last_event()))
            }
            Step::Stops(fault) => Ok(Next::Stops(fault)),
            Step::NoMemory => {
                self.stage = Stage::Failed;
                Err(AllocError)
            }
        }
    }

    /// Makes further events of the running frame, which begin no frame, or none: many at once are
    /// made faster so than by [`SerialRun::next`]. If memory is refused, this call and each further
    /// one fail. Cost: linear in the ticks.
    pub fn run_on(&mut self) -> Result<(), AllocError>
        ensures ok { OnOk result (RunsOn self.old self.new) }
        ensures err { OnErr result (self.new.stage ≡ Failed) }
        ensures intact { OnOk result (IsIntact self.old.stage × IsIntact self.new.stage) }
    {
        match self.stage {
            Stage::Going => {}
            Stage::Ended(_) => return Ok(()),
            Stage::Failed => return Err(AllocError),
        }
        let Ok(()) = self
            .running
            .run_on::<true>(self.alloc, self.program, self.code, self.input)
        else {
            self.stage = Stage::Failed;
            return Err(AllocError);
        };
        Ok(())
    }

    /// Makes all remaining events, and returns the fault that stopped the run, if any. Once the run
    /// has ended or met a fault, each further call returns the same. If memory is refused, this
    /// call and each further one fail. Cost: linear in the ticks.
    pub fn complete(&mut self) -> Result<Option<Fault>, AllocError>
        ensures ok { IfOk result (λ fault. MakesRest self.old fault self.new) }
        ensures err { OnErr result (self.new.stage ≡ Failed) }
        ensures intact { OnOk result (IsIntact self.old.stage × IsIntact self.new.stage) }
    {
        match self.stage {
            Stage::Going => {}
            Stage::Ended(_) => return Ok(None),
            Stage::Failed => return Err(AllocError),
        }
        let Ok(halt) = self
            .running
            .complete(self.alloc, self.program, self.code, self.input)
        else {
            self.stage = Stage::Failed;
            return Err(AllocError);
        };
        match halt {
            Halt::Ended(result) => {
                self.stage = Stage::Ended(result);
                Ok(None)
            }
            Halt::Stopped(fault) => Ok(Some(fault)),
        }
    }

    /// Returns the events so far.
    pub fn events(&self) -> &[Event]
        ensures events { result.now ≡ self.now.events }
        ensures so_far { IsIntact self.now.stage → IsSoFar (source self.now.program) self.now.inputs self.now.events }
    {
        self.running.state.events.as_slice()
    }

    /// Returns what the next event calls or spawns, if it begins a frame, without the arguments. To
    /// be called before that event is made.
    pub fn target(&self) -> Option<Target>
        ensures { BeginsTarget self.now result }
    {
        match self.stage {
            Stage::Going => target_of(&self.running.ask),
            Stage::Ended(_) => None,
            Stage::Failed => None,
        }
    }

    /// Returns the place in the code of the instruction that the next event comes from, or of the one
    /// that can't be done. For messages: nothing is proved of it.
    pub fn place(&self) -> usize {
        self.running.place()
    }

    /// Returns the last operands of the running frame. For messages: nothing is proved of them.
    pub fn last_operands(&self) -> LastOperands {
        self.running.frames.top.cursor.last_operands()
    }

    /// Returns the ticks that the run has taken. For messages: nothing is proved of them.
    pub fn ticks(&self) -> u32 {
        MAX_TICKS.saturating_sub(self.running.left)
    }

    /// Returns the outcome and the trace of a run that has ended.
    pub fn finish(self) -> Result<(Outcome, Trace), AllocError>
        requires { IsOver self.stage }
        ensures ran { IfOk result (λ r. Ran (source self.entry.program) self.entry.inputs r.0 r.1) }
        ensures events { IfOk result (λ r. r.1 ≡ self.entry.events) }
    {
        let SerialRun {
            alloc,
            program,
            code: _,
            input: _,
            running,
            stage,
        } = self;
        let result = stage.result().unwrap();
        outcome(alloc, program, running.into_state(), result)
    }

    /// Returns the events so far as a trace. Meant for a run that a fault has stopped.
    pub fn into_trace(self) -> Trace
        requires { IsIntact self.stage }
        ensures { result ≡ self.entry.events }
    {
        let SerialRun {
            alloc: _,
            program: _,
            code: _,
            input: _,
            running,
            stage: _,
        } = self;
        Trace::new(running.into_state().events)
    }
}

// The callee that a request invokes, if it invokes one, without its arguments.
fn target_of(ask: &AskSlot) -> Option<Target>
    ensures { IsTargetOf (child_of ask.now) result }
{
    match ask.small_ask() {
        None => {
            let (_, call) = ask.invocation();
            Some(Target::Function(call.function))
        }
        Some(SmallAsk::Turns(_, part)) => Some(Target::Loop(*part)),
        Some(_) => None,
    }
}

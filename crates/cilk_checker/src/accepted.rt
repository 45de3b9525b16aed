//! A program whose certificate was accepted.

ghost use Rattle.std.specs.Prelude.{◌≡◌};
ghost use Rattle.cilk_checker.specs.Determinate.{AreFramesOf, HasDeterminateRun};
ghost use Rattle.cilk_lower.specs.Behaves.{Behaves};
ghost use Rattle.cilk_lower.specs.Layout.{LaysOut};
ghost use Rattle.cilk_lower.specs.Lowered.{IsLowered};
ghost use Rattle.cilk_lower.specs.Rooms.{RoomsFit};
ghost use Rattle.cilk_program.specs.Sources.{source};

use cilk_lower::code::Code;
use cilk_lower::layout::PlannedFrame;
use cilk_program::program::Program;
use cilk_types::input::Input;
use cilk_types::outcome::Outcome;
use cilk_types::trace::Trace;
use std::marker::Model;

/// A program that is determinate on its input, with its serial run.
///
/// It holds the program and its code, the input, and the events, outcome and frames of the serial
/// run. In every schedule, each state is a part of that serial run, and each run that ends has its
/// outcome.
pub struct Accepted {
    program: Program,
    code: Code,
    input: Input,
    trace: Trace,
    outcome: Outcome,
    frames: Vec<PlannedFrame>,
}

// A function of its own, so that a proof follows one call where the value is dropped.
impl Drop for Accepted {
    fn drop(self) {
        let Accepted {
            program: _program,
            code: _code,
            input: _input,
            trace: _trace,
            outcome: _outcome,
            frames: _frames,
        } = self;
    }
}

impl Model for Accepted {
    ghost use Rattle.cilk_checker.specs.Determinate.{AcceptedRun, AreFramesOf, HasDeterminateRun, run_code};
    ghost use Rattle.cilk_lower.specs.Lowered.{IsLowered};
    ghost use Rattle.cilk_program.specs.Sources.{source};

    ghost Value = { AcceptedRun };

    ghost coded = { run_code };

    ghost view = { λ a. record { program = a.program; input = a.input; trace = a.trace; outcome = a.outcome } };

    ghost invariant = { λ a. HasDeterminateRun (record { program = a.program; input = a.input; trace = a.trace; outcome = a.outcome }) × AreFramesOf (record { program = a.program; input = a.input; trace = a.trace; outcome = a.outcome }) a.frames.items
        × IsLowered (source a.program) a.code };
}

impl Accepted {
    /// Makes the value from a run that is shown to be determinate.
    pub(crate) fn new(
        program: Program,
        code: Code,
        input: Input,
        trace: Trace,
        outcome: Outcome,
        frames: Vec<PlannedFrame>,
    ) -> Accepted
        requires determinate { HasDeterminateRun (record { program = program; input = input; trace = trace; outcome = outcome }) }
        requires code { IsLowered (source program) code }
        requires frames { AreFramesOf (record { program = program; input = input; trace = trace; outcome = outcome }) frames.items }
        ensures { result ≡ record { program = program; input = input; trace = trace; outcome = outcome } }
    {
        Accepted {
            program,
            code,
            input,
            trace,
            outcome,
            frames,
        }
    }

    pub fn program(&self) -> &Program
        ensures value { result.now ≡ self.now.program }
        ensures determinate { HasDeterminateRun self.now }
    {
        &self.program
    }

    /// Returns the program's code.
    pub fn code(&self) -> &Code
        ensures asks { Behaves (source self.now.program) result.now }
        ensures rooms { RoomsFit (source self.now.program) result.now }
        ensures layout { LaysOut (source self.now.program) result.now.layout }
    {
        &self.code
    }

    pub fn input(&self) -> &Input
        ensures value { result.now ≡ self.now.input }
        ensures determinate { HasDeterminateRun self.now }
    {
        &self.input
    }

    /// Returns the events of the serial run.
    pub fn trace(&self) -> &Trace
        ensures value { result.now ≡ self.now.trace }
        ensures determinate { HasDeterminateRun self.now }
    {
        &self.trace
    }

    /// Returns the outcome of the serial run, and so of every parallel run that has ended.
    pub fn outcome(&self) -> &Outcome
        ensures value { result.now ≡ self.now.outcome }
        ensures determinate { HasDeterminateRun self.now }
    {
        &self.outcome
    }

    /// Returns the body and the cells of each frame of the serial run, in the order of their
    /// numbers.
    pub fn frames(&self) -> &[PlannedFrame]
        ensures { AreFramesOf self.now result.now }
    {
        self.frames.as_slice()
    }
}

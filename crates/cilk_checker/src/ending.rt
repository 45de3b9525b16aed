//! The serial run up to its end or to the fault that stops it.

ghost use Rattle.std.specs.Prelude.{IfOk};
ghost use Rattle.cilk_lower.specs.Lowered.{IsLowered};
ghost use Rattle.cilk_program.specs.Sources.{source};
ghost use Rattle.cilk_checker.specs.Runs.{EndsWith};

use crate::frames::{begin, of_callee, of_next};
use cilk_lower::code::Code;
use cilk_lower::layout::PlannedFrame;
use cilk_lower::lower::lower;
use cilk_program::ask::Callee;
use cilk_program::program::Program;
use cilk_serial::serial_run::{Next, SerialRun};
use cilk_types::fault::Fault;
use cilk_types::input::Input;
use cilk_types::outcome::Outcome;
use cilk_types::trace::Trace;
use std::alloc::{AllocError, Global};

/// How a serial run ends.
#[derive(Drop)]
pub enum End {
    /// Without a fault: its outcome, its frames in the order of their numbers, and the program's
    /// code.
    Left(Outcome, Vec<PlannedFrame>, Code),
    /// By this fault, in place of the next event: with the frames that have begun, of which nothing is
    /// proved, and the program's code.
    Stopped(Fault, Vec<PlannedFrame>, Code),
}

/// Runs a program serially and returns how the run ends, with its events.
///
/// Cost: that of the run; memory: linear in the events and the frames.
pub fn run_to_end(
    alloc: Global,
    program: &Program,
    input: &Input,
) -> Result<(End, Trace), AllocError>
    ensures { IfOk result (λ r. EndsWith (source program.now) input.now r.0 r.1) }
{
    let code = lower(alloc, program)?;
    run_code(alloc, program, code, input)
}

/// The same, for a program that is compiled already.
pub fn run_code(
    alloc: Global,
    program: &Program,
    code: Code,
    input: &Input,
) -> Result<(End, Trace), AllocError>
    requires { IsLowered (source program.now) code }
    ensures { IfOk result (λ r. EndsWith (source program.now) input.now r.0 r.1) }
{
    let mut serial = SerialRun::new(alloc, program, &code, input)?;
    let mut frames = Vec::new(alloc);
    let globals = program.globals.len() as u64;
    let layout = code.layout();
    let mut cells = begin(
        &mut frames,
        globals,
        of_callee(program, layout, &Callee::Root),
    )?;
    'each: loop {
        serial.run_on()?;
        let next = of_next(&serial, layout);
        match serial.next()? {
            Next::Made(_) => {
                if let Some(own) = next {
                    cells = begin(&mut frames, cells, own)?;
                }
            }
            Next::Ended => {
                let (outcome, trace) = serial.finish()?;
                return Ok((End::Left(outcome, frames, code), trace));
            }
            Next::Stops(fault) => {
                let trace = serial.into_trace();
                return Ok((End::Stopped(fault, frames, code), trace));
            }
        }
    }
}

//! The whole serial run.

ghost use Rattle.std.specs.Prelude.{◌≡◌, ◌+◌, ◌≤◌, length, IfOk, IfErr};
ghost use Rattle.cilk_types.specs.declared.limits.TheConstants.{MAX_EVENTS};
ghost use Rattle.cilk_program.specs.Sources.{source};
ghost use Rattle.cilk_lower.specs.Behaves.{Behaves};
ghost use Rattle.cilk_serial.specs.Ran.{Ran, IsRunFault};

use crate::fault::RunFault;
use crate::serial_run::SerialRun;
use cilk_lower::code::Code;
use cilk_lower::lower::lower;
use cilk_program::program::Program;
use cilk_types::event::{Event, Pos};
use cilk_types::input::Input;
use cilk_types::outcome::Outcome;
use cilk_types::trace::Trace;
use std::alloc::Global;

/// Returns the outcome of the program's serial elision on this input, and the trace of its serial
/// run. A fault comes with the position of the event that it replaces. Cost: time linear in the
/// ticks; memory linear in the events, the cells and the depth of frames.
pub fn run(alloc: Global, program: &Program, input: &Input) -> Result<(Outcome, Trace), RunFault>
    ensures ok { IfOk result (λ r. Ran (source program.now) input.now r.0 r.1) }
    ensures fault { IfErr result (λ e. IsRunFault (source program.now) input.now e) }
{
    let code = lower(alloc, program)?;
    run_code(alloc, program, &code, input)
}

// Runs the code of a program.
fn run_code(
    alloc: Global,
    program: &Program,
    code: &Code,
    input: &Input,
) -> Result<(Outcome, Trace), RunFault>
    requires { Behaves (source program.now) code.now }
    ensures ok { IfOk result (λ r. Ran (source program.now) input.now r.0 r.1) }
    ensures fault { IfErr result (λ e. IsRunFault (source program.now) input.now e) }
{
    let mut serial = SerialRun::new(alloc, program, code, input)?;
    match serial.complete()? {
        None => Ok(serial.finish()?),
        Some(fault) => {
            let at = next_position(serial.events());
            Err(RunFault::At { fault, at })
        }
    }
}

// The position of the event after these.
fn next_position(events: &[Event]) -> Pos
    requires { length events.now ≤ MAX_EVENTS }
    ensures { result ≡ length events.now + 1 }
{
    events.len() as Pos + 1
}

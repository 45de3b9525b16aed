// The outcome of a run that has ended.

ghost use Rattle.std.specs.Prelude.{◌≡◌, ℤ, List, IfOk};
ghost use Rattle.cilk_program.specs.Sources.{source};
ghost use Rattle.cilk_serial.specs.Going.{HasEnded};
ghost use Rattle.cilk_serial.specs.Ran.{Ran};

use crate::state::State;
use cilk_frames::outcome::finals;
use cilk_lower::layout::global_kinds;
use cilk_program::program::Program;
use cilk_types::outcome::Outcome;
use cilk_types::sequence::Sequence;
use cilk_types::trace::Trace;
use std::alloc::{AllocError, Global};

/// Returns the outcome and the trace.
pub fn outcome(
    alloc: Global,
    program: &Program,
    state: State,
    value: i64,
) -> Result<(Outcome, Trace), AllocError>
    requires { (inputs : List ℤ) × HasEnded (source program.now) inputs state value }
    ensures ran { (inputs : List ℤ) → HasEnded (source program.now) inputs state value → IfOk result (λ r. Ran (source program.now) inputs r.0 r.1) }
    ensures events { IfOk result (λ r. r.1 ≡ state.events.items) }
{
    let State {
        mut cells,
        mut views,
        output,
        events,
        frames: _,
    } = state;
    let kinds = global_kinds(alloc, &program.reducers)?;
    let reducers = finals(alloc, kinds.as_slice(), &mut views)?;
    cells.truncate(program.globals.len());
    let outcome = Outcome {
        result: value,
        globals: Sequence::new(cells),
        output: Sequence::new(output),
        reducers: Sequence::new(reducers),
    };
    Ok((outcome, Trace::new(events)))
}

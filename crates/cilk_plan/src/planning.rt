//! The plan of an accepted run's events.

ghost use Rattle.std.specs.Prelude.{◌≡◌, ◌≤◌, ℕ, length, pos, slice_index_or, IfOk};
ghost use Rattle.cilk_program.specs.Sources.{source};
ghost use Rattle.cilk_types.specs.declared.limits.TheConstants.{MAX_CELLS};
ghost use Rattle.cilk_plan.specs.Frames.{end_from};
ghost use Rattle.cilk_plan.specs.Plans.{AllNamed, IsPlanOf};

use cilk_checker::accepted::Accepted;
use cilk_lower::layout::PlannedFrame;
use cilk_tree::plan::Plan;
use std::alloc::{AllocError, Global};

/// Makes the plan of an accepted run's events. It is the event order of the serial run on its
/// input: each event is requested, and the cells are those of the run. Cost and memory: linear in
/// the run.
pub fn events(alloc: Global, accepted: &Accepted) -> Result<Plan, AllocError>
    ensures { IfOk result (λ plan. IsPlanOf accepted.now plan) }
{
    let trace = accepted.trace();
    let globals = accepted.program().globals.as_slice();
    let cells = cells_of(accepted);
    let opening = opening(alloc, globals, cells)?;
    let plan = Plan::of(alloc, trace, opening)?;
    Ok(plan)
}

// The number of the run's cells: the globals and those of its frames. The run names no others.
fn cells_of(accepted: &Accepted) -> usize
    ensures globals { length (source accepted.now.program).openings ≤ result }
    ensures named { AllNamed result accepted.now.trace }
    ensures few { result ≤ MAX_CELLS }
{
    let globals = accepted.program().globals.len();
    end_of(accepted.frames(), globals)
}

// The end of the frames' cells, which follow one another from `first` on.
fn end_of(frames: &[PlannedFrame], first: usize) -> usize
    ensures { result ≡ end_from first frames.now }
{
    match frames.last() {
        Some(frame) => frame.first_cell as usize + frame.cells as usize,
        None => first,
    }
}

// The opening values of `cells` cells: those of the globals, then 0 for each other cell.
fn opening(alloc: Global, globals: &[i64], cells: usize) -> Result<Vec<i64>, AllocError>
    requires globals { length globals.now ≤ cells }
    requires few { cells ≤ MAX_CELLS }
    ensures values { IfOk result (λ v. (c : ℕ) → slice_index_or v.items c (pos 0) ≡ slice_index_or globals.now c (pos 0)) }
    ensures cells { IfOk result (λ v. length v.items ≡ cells) }
{
    let mut values = Vec::with_capacity(alloc, cells)?;
    values.extend_from_slice(globals)?;
    values.resize(cells, 0)?;
    Ok(values)
}

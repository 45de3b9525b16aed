//! The table of an accepted run's reducers.

ghost use Rattle.std.specs.Prelude.{◌≡◌, IfOk};
ghost use Rattle.cilk_checker.specs.Determinate.{AreFramesOf, HasDeterminateRun};
ghost use Rattle.cilk_shared.specs.Reducers.{HasFew};
ghost use Rattle.cilk_program.specs.declared.ask.Callee.TheVariants.{Root};
ghost use Rattle.cilk_program.specs.Sources.{source};
ghost use Rattle.cilk_threads.specs.Accepted.{IsTableOf, reducers_in};
ghost use Rattle.cilk_threads.specs.Tables.{reducers_of};

use cilk_checker::accepted::Accepted;
use cilk_lower::layout::PlannedFrame;
use cilk_plan::program_plan::ProgramPlan;
use cilk_program::program::{Body, Program};
use cilk_shared::reducers::{FrameReducers, Reducers};
use cilk_types::sequence::Sequence;
use std::alloc::{AllocError, Global};
use std::snapshot::Snapshot;

/// Returns the reducers that each frame of an accepted run creates. They are settled along the
/// run's plan on any input. Cost and memory: linear in the frames and their reducers.
pub fn plan_reducers(alloc: Global, plan: &ProgramPlan<'_>) -> Result<Reducers, AllocError>
    ensures table { IfOk result (λ r. IsTableOf plan.now.run r) }
    ensures few { IfOk result (λ r. HasFew r) }
{
    plan.laws();
    laid(alloc, plan.accepted(), plan.program(), plan.frames())
}

// The table of a run of the program with these frames.
fn laid(
    alloc: Global,
    run: &Snapshot<Accepted>,
    program: &Program,
    planned: &[PlannedFrame],
) -> Result<Reducers, AllocError>
    requires program { program.now ≡ run.now.value.program }
    requires determinate { HasDeterminateRun run.now.value }
    requires frames { AreFramesOf run.now.value planned.now }
    ensures table { IfOk result (λ r. IsTableOf run.now.value r) }
    ensures few { IfOk result (λ r. HasFew r) }
{
    let _ = run;
    let mut frames = Vec::with_capacity(alloc, planned.len())?;
    frames.push(of_root(alloc, program)?)?;
    'each: for place in 1..planned.len() {
        frames.push(of_body(alloc, program, planned[place].body)?)?;
    }
    Ok(Reducers {
        frames: Sequence::new(frames),
    })
}

// The reducers of the root's frame: the global ones, then its own.
fn of_root(alloc: Global, program: &Program) -> Result<FrameReducers, AllocError>
    ensures { IfOk result (λ o. o ≡ reducers_of (source program.now) Root) }
{
    let mut kinds = Vec::new(alloc);
    'globals: for number in 0..program.reducers.len() {
        kinds.push(program.reducers[number].kind)?;
    }
    if let Some(main) = program.functions.get(program.main as usize) {
        kinds.extend_from_slice(main.reducers.as_slice())?;
    }
    Ok(FrameReducers {
        kinds: Sequence::new(kinds),
        outlive: program.reducers.len() as u32,
    })
}

// The reducers of any other frame with this body.
fn of_body(alloc: Global, program: &Program, body: Body) -> Result<FrameReducers, AllocError>
    ensures { IfOk result (λ o. o ≡ reducers_in (source program.now) body) }
{
    let mut kinds = Vec::new(alloc);
    if let Body::Function(number) = body {
        if let Some(function) = program.functions.get(number as usize) {
            kinds.extend_from_slice(function.reducers.as_slice())?;
        }
    }
    Ok(FrameReducers {
        kinds: Sequence::new(kinds),
        outlive: 0,
    })
}

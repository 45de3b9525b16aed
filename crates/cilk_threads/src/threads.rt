//! A run of an accepted program by several workers, on an input.

ghost use Rattle.std.specs.Prelude.{◌≡◌, IfOk, IfErr};
ghost use Rattle.cilk_shared.specs.Reducers.{HasFew};
ghost use Rattle.cilk_tree.specs.Along.{IsAlong};
ghost use Rattle.cilk_plan.specs.Plans.{IsEventOrderOn};
ghost use Rattle.cilk_program.specs.Sources.{source};
ghost use Rattle.cilk_threads.specs.Accepted.{IsTableOf};
ghost use Rattle.cilk_shared.specs.Values.{OfYard};
ghost use Rattle.cilk_threads.specs.Faults.{IsPool};
ghost use Rattle.cilk_threads.specs.Outcomes.{DepartsNowhereOn, IsFaultOn, IsOutcomeOn, IsWholeOf, NamesNoPosition};

use crate::laws::accepted_event_orders_have_numbers;
use crate::outcome::outcome;
use crate::run::{ThreadFault, run};
use crate::table::plan_reducers;
use cilk_determinacy::words::inputs_are_words;
use cilk_plan::program_plan::ProgramPlan;
use cilk_plan::replay::replay;
use cilk_plan::yards::yard;
use cilk_replay::laws::{
    inputs_run_along, own_event_order, programs_have_one_course, runs_are_elided,
};
use cilk_shared::piece::Piece;
use cilk_shared::reducers::Reducers;
use cilk_shared::yard::{Segment, Yard};
use cilk_types::input::Input;
use cilk_types::limits::MAX_WORKERS;
use cilk_types::outcome::Outcome;
use cilk_workers::columns::Columns;
use cilk_workers::gate::Gate;
use cilk_workers::shared::Shared;
use cilk_workers::turn::first;
use std::alloc::{AllocError, Global};
use std::sync::Wait;
use std::thread::Threads;

/// Runs an accepted program along its plan on an input, the plan's own or another, with 1 to 64
/// workers, each in a thread of its own.
///
/// Returns the outcome of the program's serial elision on that input, if the input departs nowhere
/// from the plan. Each serial run on that input that ends without a fault has this outcome. On the
/// plan's own input it is the accepted run's outcome, and no departure is returned. `gate` is
/// called as each strand begins. Termination is not proved.
pub fn run_threads<R: Threads + Wait + Sync, G: Gate + Sync>(
    rt: &R,
    alloc: Global,
    plan: &ProgramPlan<'_>,
    input: &Input,
    workers: u32,
    gate: &G,
) -> Result<Outcome, ThreadFault>
    ensures ok { IfOk result (λ o. IsPool workers × IsOutcomeOn (source plan.now.run.program) input.now o) }
    ensures own { IfOk result (λ o. input.now ≡ plan.now.run.input → o ≡ plan.now.run.outcome) }
    ensures follows { IfOk result (λ _. DepartsNowhereOn plan.now.run input.now) }
    ensures err { IfErr result (IsFaultOn plan.now input.now workers) }
    ensures stays { IfErr result (λ f. input.now ≡ plan.now.run.input → NamesNoPosition f) }
{
    own_event_order();
    plan.laws();
    if workers == 0 || workers > MAX_WORKERS {
        return Err(ThreadFault::Workers);
    }
    let Ok(table) = plan_reducers(alloc, plan) else {
        return Err(ThreadFault::Memory);
    };
    let Ok((yard, segment)) = yard(alloc, plan, input) else {
        return Err(ThreadFault::Memory);
    };
    let start = Start {
        yard: &yard,
        table: &table,
        segment,
    };
    match run_on(rt, alloc, plan, input, start, workers, gate) {
        Ok((piece, value)) => match left(alloc, plan, input, yard, piece, value) {
            Ok(outcome) => Ok(outcome),
            Err(_) => Err(ThreadFault::Memory),
        },
        Err(fault) => Err(fault),
    }
}

// What a run begins with: its words, the reducers of its frames, and the segment of its first event.
struct Start<'a> {
    yard: &'a Yard,
    table: &'a Reducers,
    segment: Segment,
}

// Runs the workers, and returns the piece of the whole run with its result.
fn run_on<R: Threads + Wait + Sync, G: Gate + Sync>(
    rt: &R,
    alloc: Global,
    plan: &ProgramPlan<'_>,
    input: &Input,
    start: Start<'_>,
    workers: u32,
    gate: &G,
) -> Result<(Piece, i64), ThreadFault>
    requires pool { IsPool workers }
    requires table { IsTableOf plan.now.run start.table.now × HasFew start.table.now }
    requires event_order { IsEventOrderOn plan.now.run plan.now.event_order.opening input.now start.yard.now.event_order }
    requires along { IsAlong plan.now.event_order start.yard.now.event_order }
    requires segment { OfYard start.yard.now start.segment × (start.segment.from ≡ 1) × (start.segment.upto ≡ 2) }
    ensures ok { IfOk result (λ r. IsWholeOf (source plan.now.run.program) plan.now.run.input input.now start.entry.yard.now start.entry.table.now r.0 r.1) }
    ensures err { IfErr result (IsFaultOn plan.now input.now workers) }
{
    let Start {
        yard,
        table,
        segment,
    } = start;
    accepted_event_orders_have_numbers();
    inputs_are_words(input);
    plan.laws();
    let replay = replay(plan, yard, input);
    let blocks = plan.blocks();
    let columns = Columns {
        syncs: plan.syncs(),
        firsts: plan.firsts(),
        blocks,
        strands: plan.strands(),
    };
    let shared = Shared::new(yard, plan.events(), table, replay, columns);
    let piece = Piece::new(alloc, yard, segment, table);
    let Ok(work) = first(alloc, &shared, piece) else {
        return Err(ThreadFault::Memory);
    };
    run(rt, alloc, &shared, gate, work, workers)
}

// The outcome, from the piece of the whole run.
fn left(
    alloc: Global,
    plan: &ProgramPlan<'_>,
    input: &Input,
    yard: Yard,
    piece: Piece,
    value: i64,
) -> Result<Outcome, AllocError>
    requires table { IsTableOf plan.now.run piece.reducers }
    requires event_order { IsEventOrderOn plan.now.run plan.now.event_order.opening input.now yard.event_order }
    requires along { IsAlong plan.now.event_order yard.event_order }
    requires whole { IsWholeOf (source plan.now.run.program) plan.now.run.input input.now yard piece.reducers piece value }
    ensures outcome { IfOk result (λ o. IsOutcomeOn (source plan.now.run.program) input.now o) }
    ensures follows { IfOk result (λ _. DepartsNowhereOn plan.now.run input.now) }
{
    programs_have_one_course();
    inputs_run_along();
    runs_are_elided();
    inputs_are_words(input);
    plan.laws();
    yard.laws();
    outcome(
        alloc,
        plan.program(),
        plan.code().layout(),
        yard,
        piece,
        value,
    )
}

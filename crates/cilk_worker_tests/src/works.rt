//! The first work of a worker on an accepted program's plan, without a pool of workers.

ghost use Rattle.std.specs.Prelude.{◌≡◌};
ghost use Rattle.cilk_shared.specs.Reducers.{HasFew};
ghost use Rattle.cilk_tree.specs.Along.{IsAlong};
ghost use Rattle.cilk_plan.specs.Plans.{IsEventOrderOn};
ghost use Rattle.cilk_threads.specs.Accepted.{IsTableOf};
ghost use Rattle.cilk_shared.specs.Values.{OfYard};

use crate::boxes::joined;
use crate::racks::taken;
use crate::texts::{accepted, input_of, planned};
use crate::thieves::stolen;
use cilk_determinacy::words::inputs_are_words;
use cilk_plan::program_plan::ProgramPlan;
use cilk_plan::replay::replay;
use cilk_plan::yards::yard;
use cilk_shared::piece::Piece;
use cilk_shared::reducers::Reducers;
use cilk_shared::yard::{Segment, Yard};
use cilk_threads::laws::accepted_event_orders_have_numbers;
use cilk_threads::table::plan_reducers;
use cilk_types::input::Input;
use cilk_workers::columns::Columns;
use cilk_workers::shared::Shared;
use cilk_workers::turn::first;
use std::alloc::Global;
use std::marker::Brand;
use std::process::Abort;
use std::sync::Wait;

/// The part to test with it.
#[derive(Clone, Copy)]
pub enum Trial {
    /// Tasks are offered and taken.
    Rack,
    /// Pieces arrive at a join box.
    JoinBox,
    /// A worker steals a task.
    Thief,
}

// What a run begins with: its words, the reducers of its frames, and the segment of its first event.
struct Start<'a> {
    yard: &'a Yard,
    table: &'a Reducers,
    segment: Segment,
}

// Runs the trial on a plan's run.
fn tried_on<R: Abort + Wait>(
    rt: &R,
    alloc: Global,
    plan: &ProgramPlan<'_>,
    input: &Input,
    start: Start<'_>,
    trial: Trial,
)
    requires table { IsTableOf plan.now.run start.table.now × HasFew start.table.now }
    requires event_order { IsEventOrderOn plan.now.run plan.now.event_order.opening input.now start.yard.now.event_order }
    requires along { IsAlong plan.now.event_order start.yard.now.event_order }
    requires segment { OfYard start.yard.now start.segment × (start.segment.from ≡ 1) × (start.segment.upto ≡ 2) }
{
    let Start {
        yard,
        table,
        segment,
    } = start;
    accepted_event_orders_have_numbers();
    inputs_are_words(input);
    plan.laws();
    let replay = replay(plan, yard, input);
    let blocks = plan.blocks();
    let columns = Columns {
        syncs: plan.syncs(),
        firsts: plan.firsts(),
        blocks,
        strands: plan.strands(),
    };
    let shared = Shared::new(yard, plan.events(), table, replay, columns);
    let piece = Piece::new(alloc, yard, segment, table);
    let Ok(work) = first(alloc, &shared, piece) else {
        panic!(rt; "no memory for a frame");
    };
    match trial {
        Trial::Rack => taken::<Brand, R>(rt, alloc, &shared, work),
        Trial::JoinBox => joined(rt, alloc, &shared, work),
        Trial::Thief => stolen::<Brand, R>(rt, alloc, &shared, work),
    }
}

/// Runs the trial on the run of a program without input.
pub fn tried<R: Abort + Wait>(rt: &R, alloc: Global, text: &str, trial: Trial) {
    let accepted = accepted(rt, alloc, text, "");
    let plan = planned(rt, alloc, &accepted);
    let input = input_of(rt, alloc, "");
    let Ok(table) = plan_reducers(alloc, &plan) else {
        panic!(rt; "no memory for the reducers");
    };
    let Ok((yard, segment)) = yard(alloc, &plan, &input) else {
        panic!(rt; "no memory for the yard");
    };
    let start = Start {
        yard: &yard,
        table: &table,
        segment,
    };
    tried_on(rt, alloc, &plan, &input, start, trial);
}

//! Worked programs whose runs read an input: their plans, and their runs on other inputs.

ghost use Rattle.std.specs.Prelude.{◌≡◌, ◌⊎◌, ◌++◌, ◌∷◌, [], pos, IfOk};
ghost use Rattle.cilk_tree.specs.Along.{IsAlong};
ghost use Rattle.cilk_shared.specs.Values.{OfYard};
ghost use Rattle.cilk_thread_tests.specs.Others.{but_for, four, squares, squares_on, squares_plan, three, turns, turns_on, turns_plan, SquaresHavePlan, TurnsHavePlan};
ghost use Rattle.cilk_thread_tests.specs.Programs.{EventOrdersAreOfPrograms};

use cilk_shared::yard::{Segment, Yard};
use cilk_tree::plan::Plan;
use cilk_types::event::{Event, Pos};
use cilk_types::input::Input;
use cilk_types::trace::Trace;
use std::alloc::{AllocError, Global};

/// States that both programs' runs have a plan.
pub fn both_have_plans()
    ensures squares { SquaresHavePlan }
    ensures turns { TurnsHavePlan }
{}

/// States that the event orders written out are those of the programs, on their own inputs and on
/// others.
pub fn event_orders_are_of_programs()
    ensures { EventOrdersAreOfPrograms }
{}

/// Returns the events of the first program's run on four numbers with these squares.
pub fn squares(alloc: Global, a: i64, b: i64, c: i64, d: i64) -> Result<Trace, AllocError>
    ensures { IfOk result (λ trace. trace ≡ squares a b c d) }
{
    let events = vec![in alloc;
        Event::Begin { frame: 1 },
        Event::Call { child: 2 },
        Event::Begin { frame: 2 },
        Event::Spawn { child: 3 },
        Event::Begin { frame: 3 },
        Event::Spawn { child: 4 },
        Event::Begin { frame: 4 },
        Event::Write { cell: 4, value: 0 },
        Event::Read { cell: 4, value: 0 },
        Event::Read { cell: 4, value: 0 },
        Event::Read { cell: 4, value: 0 },
        Event::Write { cell: 0, value: a },
        Event::Sync,
        Event::End,
        Event::Resume { parent: 3 },
        Event::Call { child: 5 },
        Event::Begin { frame: 5 },
        Event::Write { cell: 5, value: 1 },
        Event::Read { cell: 5, value: 1 },
        Event::Read { cell: 5, value: 1 },
        Event::Read { cell: 5, value: 1 },
        Event::Write { cell: 1, value: b },
        Event::Sync,
        Event::End,
        Event::Resume { parent: 3 },
        Event::Sync,
        Event::End,
        Event::Resume { parent: 2 },
        Event::Call { child: 6 },
        Event::Begin { frame: 6 },
        Event::Spawn { child: 7 },
        Event::Begin { frame: 7 },
        Event::Write { cell: 6, value: 2 },
        Event::Read { cell: 6, value: 2 },
        Event::Read { cell: 6, value: 2 },
        Event::Read { cell: 6, value: 2 },
        Event::Write { cell: 2, value: c },
        Event::Sync,
        Event::End,
        Event::Resume { parent: 6 },
        Event::Call { child: 8 },
        Event::Begin { frame: 8 },
        Event::Write { cell: 7, value: 3 },
        Event::Read { cell: 7, value: 3 },
        Event::Read { cell: 7, value: 3 },
        Event::Read { cell: 7, value: 3 },
        Event::Write { cell: 3, value: d },
        Event::Sync,
        Event::End,
        Event::Resume { parent: 6 },
        Event::Sync,
        Event::End,
        Event::Resume { parent: 2 },
        Event::Sync,
        Event::End,
        Event::Resume { parent: 1 },
        Event::Read { cell: 0, value: a },
        Event::Read { cell: 3, value: d },
        Event::Sync,
        Event::End,
    ]?;
    Ok(Trace::new(events))
}

/// Returns the events of the second program's run on the input 1, with `n` as the first number
/// read.
pub fn turns(alloc: Global, n: i64) -> Result<Trace, AllocError>
    ensures { IfOk result (λ trace. trace ≡ turns n) }
{
    let events = vec![in alloc;
        Event::Begin { frame: 1 },
        Event::Write { cell: 7, value: n },
        Event::Read { cell: 7, value: n },
        Event::Call { child: 2 },
        Event::Begin { frame: 2 },
        Event::Write { cell: 8, value: 0 },
        Event::Read { cell: 8, value: 0 },
        Event::Read { cell: 8, value: 0 },
        Event::Write { cell: 0, value: 0 },
        Event::Sync,
        Event::End,
        Event::Resume { parent: 1 },
        Event::Read { cell: 6, value: 0 },
        Event::Sync,
        Event::End,
    ]?;
    Ok(Trace::new(events))
}

/// Returns the plan of the first program's run on 1 2 3 4.
pub fn squares_plan(alloc: Global) -> Result<Plan, AllocError>
    ensures { IfOk result (λ plan. plan ≡ squares_plan) }
{
    both_have_plans();
    let trace = squares(alloc, 1, 4, 9, 16)?;
    Plan::of(alloc, &trace, Vec::from_elem(alloc, 0, 8)?)
}

/// Returns the plan of the second program's run on 1.
pub fn turns_plan(alloc: Global) -> Result<Plan, AllocError>
    ensures { IfOk result (λ plan. plan ≡ turns_plan) }
{
    both_have_plans();
    let trace = turns(alloc, 1)?;
    Plan::of(alloc, &trace, Vec::from_elem(alloc, 0, 9)?)
}

/// Creates the yard of the first program's run along its plan on 5 6 7 8 or 5 6 7.
pub fn squares_yard(
    alloc: Global,
    plan: &Plan,
    input: &Input,
) -> Result<(Yard, Segment), AllocError>
    requires plan { plan.now ≡ squares_plan }
    requires input { (input.now ≡ four) ⊎ (input.now ≡ three) }
    ensures event_order { IfOk result (λ r. r.0.event_order ≡ squares_on input.now) }
    ensures along { IfOk result (λ r. IsAlong plan.now r.0.event_order) }
    ensures segment { IfOk result (λ r. OfYard r.0 r.1) }
{
    plan.laws();
    Yard::new(alloc, plan, input)
}

/// Creates the yard of the second program's run along its plan on 0 or 7.
pub fn turns_yard(alloc: Global, plan: &Plan, input: &Input) -> Result<(Yard, Segment), AllocError>
    requires plan { plan.now ≡ turns_plan }
    requires input { (input.now ≡ pos 0 ∷ []) ⊎ (input.now ≡ pos 7 ∷ []) }
    ensures event_order { IfOk result (λ r. r.0.event_order ≡ turns_on input.now) }
    ensures along { IfOk result (λ r. IsAlong plan.now r.0.event_order) }
    ensures segment { IfOk result (λ r. OfYard r.0 r.1) }
{
    plan.laws();
    Yard::new(alloc, plan, input)
}

/// Returns a list that is true for `first` events, false for `others`, and true for `rest`.
pub fn asked_but_for(
    alloc: Global,
    first: Pos,
    others: Pos,
    rest: Pos,
) -> Result<Vec<bool>, AllocError>
    ensures { IfOk result (λ asked. asked.items ≡ but_for first others rest) }
{
    let mut asked = Vec::from_elem(alloc, true, first as usize)?;
    let others = Vec::from_elem(alloc, false, others as usize)?;
    let rest = Vec::from_elem(alloc, true, rest as usize)?;
    asked.extend_from_slice(others.as_slice())?;
    asked.extend_from_slice(rest.as_slice())?;
    Ok(asked)
}

/// Returns which events of the second program's plan its run on 0 makes.
pub fn asked_on_none(alloc: Global) -> Result<Vec<bool>, AllocError>
    ensures { IfOk result (λ asked. asked.items ≡ but_for 3 1 7 ++ but_for 0 3 1) }
{
    let mut asked = asked_but_for(alloc, 3, 1, 7)?;
    let last = asked_but_for(alloc, 0, 3, 1)?;
    asked.extend_from_slice(last.as_slice())?;
    Ok(asked)
}

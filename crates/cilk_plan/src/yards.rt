//! The shared words of an accepted program's run on an input.

ghost use Rattle.std.specs.Prelude.{◌≡◌, ℤ, List, IfOk};
ghost use Rattle.std.specs.Borrow.{ftrue};
ghost use Rattle.cilk_checker.specs.Determinate.{AcceptedRun};
ghost use Rattle.cilk_tree.specs.Along.{IsAlong};
ghost use Rattle.cilk_tree.specs.Resumptions.{AreResumptions};
ghost use Rattle.cilk_plan.specs.Plans.{HasEventOrderOn, IsEventOrderOn};
ghost use Rattle.cilk_shared.specs.Values.{OfYard, SpawnsResume};
ghost use Rattle.cilk_tree.specs.declared.event_order.EventOrder.{EventOrder};
ghost use Rattle.cilk_tree.specs.Values.{HasValues};

use crate::program_plan::ProgramPlan;
use cilk_determinacy::words::{inputs_are_words, programs_are_of_words};
use cilk_replay::laws::{event_orders_along_have_values, own_event_order};
use cilk_shared::yard::{Segment, Yard};
use cilk_tree::plan::Plan;
use cilk_types::event::Pos;
use cilk_types::input::Input;
use std::alloc::{AllocError, Global};
use std::marker::Model;

// An event order that contracts alone see. It takes no bytes.
#[derive(Drop)]
struct Told {
    ghost event_order: { EventOrder },
}

impl Model for Told {
    ghost also_owns = { λ _. ftrue };
}

impl Told {
    // The event order that the program of this run makes of its plan on this input.
    fn of(plan: &Plan, input: &Input) -> Told
        ghost run: { AcceptedRun }
        requires { HasEventOrderOn run plan.now.opening input.now }
        ensures { IsEventOrderOn run plan.now.opening input.now result.event_order }
    {
        let _ = plan;
        let _ = input;
        Told {}
    }
}

/// Makes the yard of a program's plan on an input, the plan's own or another, and the segment of
/// its first event. The yard's event order is what the program makes of the plan on this input:
/// which events its frames request, and the values in its cells. On the plan's own input it is the
/// plan's.
pub fn yard(alloc: Global, plan: &ProgramPlan, input: &Input) -> Result<(Yard, Segment), AllocError>
    ensures event_order { IfOk result (λ r. IsEventOrderOn plan.now.run plan.now.event_order.opening input.now r.0.event_order) }
    ensures along { IfOk result (λ r. IsAlong plan.now.event_order r.0.event_order) }
    ensures own { IfOk result (λ r. input.now ≡ plan.now.run.input → r.0.event_order ≡ plan.now.event_order) }
    ensures segment { IfOk result (λ r. OfYard r.0 r.1 × (r.1.from ≡ 1) × (r.1.upto ≡ 2)) }
{
    event_orders_along_have_values();
    own_event_order();
    plan.laws();
    programs_are_of_words(plan.program());
    inputs_are_words(plan.input());
    inputs_are_words(input);
    let told = tell(plan, input);
    // That frames resume after their spawns is known of a program with code.
    let _code = plan.code();
    yard_of(alloc, plan.events(), plan.resumptions(), input, &told)
}

// The event order that the program of this run makes of its plan on this input.
fn tell(plan: &ProgramPlan, input: &Input) -> Told
    ghost run: { AcceptedRun }
    requires { HasEventOrderOn run plan.now.event_order.opening input.now }
    ensures { IsEventOrderOn run plan.now.event_order.opening input.now result.event_order }
{
    Told::of(plan.events(), input)
}

// The yard of an event order.
fn yard_of(
    alloc: Global,
    plan: &Plan,
    resumptions: &[Pos],
    input: &Input,
    told: &Told,
) -> Result<(Yard, Segment), AllocError>
    ghost along: { List ℤ → EventOrder }
    requires told { along input.now ≡ told.now.event_order }
    requires plan { IsAlong plan.now told.now.event_order }
    requires values { HasValues told.now.event_order }
    requires resumes { SpawnsResume told.now.event_order }
    requires column { AreResumptions plan.now resumptions.now }
    ensures event_order { IfOk result (λ r. r.0.event_order ≡ told.now.event_order) }
    ensures segment { IfOk result (λ r. OfYard r.0 r.1 × (r.1.from ≡ 1) × (r.1.upto ≡ 2)) }
{
    let _ = told;
    let column = resumptions.to_vec(alloc)?;
    Yard::with_resumptions(alloc, plan, input, column)
}

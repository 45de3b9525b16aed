//! The replay of a plan's run on an input.

ghost use Rattle.cilk_plan.specs.Replays.{IsReplayOn};
ghost use Rattle.cilk_plan.specs.Plans.{IsEventOrderOn};

use crate::program_plan::ProgramPlan;
use cilk_checker::frames::frames_stand_at_their_numbers;
use cilk_determinacy::words::inputs_are_words;
use cilk_replay::laws::event_orders_along_have_values;
use cilk_replay::replay::Replay;
use cilk_shared::yard::Yard;
use cilk_types::input::Input;

/// Makes the replay of a plan's run on an input, the plan's own or another. `yard` is the plan's on
/// that input. It borrows the plan's code and frames, and the input. Cost: constant.
pub fn replay<'p>(plan: &'p ProgramPlan, yard: &Yard, input: &'p Input) -> Replay<'p>
    requires { IsEventOrderOn plan.now.run plan.now.event_order.opening input.now yard.now.event_order }
    ensures { IsReplayOn plan.now.run yard.now input.now result }
{
    event_orders_along_have_values();
    frames_stand_at_their_numbers();
    plan.laws();
    yard.laws();
    inputs_are_words(input);
    Replay::new(
        yard,
        plan.program(),
        plan.input(),
        plan.code(),
        input,
        plan.frames(),
    )
}

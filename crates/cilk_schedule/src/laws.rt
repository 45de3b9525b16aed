//! Laws of the states that choices lead to. Each law is the contract of a function that does
//! nothing.

ghost use Rattle.std.specs.Prelude.{ℤ, List};
ghost use Rattle.cilk_lower.specs.Code.{CodeView};
ghost use Rattle.cilk_program.specs.Syntax.{Source};
ghost use Rattle.cilk_schedule.specs.Deciding.{ChoicesDecide};
ghost use Rattle.cilk_schedule.specs.Played.{ListsDecide};
ghost use Rattle.cilk_schedule.specs.Reached.{ChoicesLeadOn};

/// A choice keeps what holds of each reachable state of the free machine. So the scheduler's state
/// after one choice is ready for the next.
pub fn choices_lead_on()
    ensures { (code : CodeView) (p : Source) (inputs : List ℤ) → ChoicesLeadOn code p inputs }
{}

/// A choice is a function of state and worker table. It has one result and leads to one state and
/// one worker table, up to the views of frames that haven't begun; or it stops the run in one
/// strand by one fault. It never does both.
pub fn choices_decide()
    ensures { (p : Source) (inputs : List ℤ) → ChoicesDecide p inputs }
{}

/// A list of choices has at most one end. It leads to one state and one worker table, up to the
/// views of frames that haven't begun; or it stops the run in one strand by one fault. It never
/// does both. Steps of the free machine lead there.
pub fn lists_decide()
    ensures { (p : Source) (inputs : List ℤ) → ListsDecide p inputs }
{}

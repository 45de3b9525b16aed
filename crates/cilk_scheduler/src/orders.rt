//! Laws of the reachable states of the free machine. Each law is the contract of an empty function.

ghost use Rattle.std.specs.Prelude.{ℤ, List};
ghost use Rattle.cilk_program.specs.Syntax.{Source};
ghost use Rattle.cilk_scheduler.specs.GoneOn.{FramesGoOnBehind};
ghost use Rattle.cilk_scheduler.specs.Histories.{ChoicesAreSteps, FramesDoAsAsked, TotalsStayWithin};

/// Each deed of a frame answers the request that the frame made after its earlier deeds, whether or
/// not the program has a race. So a frame begins exactly when it has done nothing, and resumes
/// exactly when it has just started a child.
pub fn frames_do_as_asked()
    ensures { (p : Source) (inputs : List ℤ) → FramesDoAsAsked p inputs }
{}

/// The ticks, events, frames and cells so far are within the limits of a run, if each name of the
/// program means something.
pub fn totals_stay_within()
    ensures { (p : Source) (inputs : List ℤ) → TotalsStayWithin p inputs }
{}

/// A choice is one step of the free machine or none. So states that choices lead to are reachable,
/// and the laws above hold of them.
pub fn choices_are_steps()
    ensures { (p : Source) (inputs : List ℤ) → ChoicesAreSteps p inputs }
{}

/// Each child that a frame spawned before its last deed has ended, or the continuation beside it
/// was stolen. So a frame that continues has continued after each child that it spawned.
pub fn frames_go_on_behind()
    ensures { (p : Source) (inputs : List ℤ) → FramesGoOnBehind p inputs }
{}

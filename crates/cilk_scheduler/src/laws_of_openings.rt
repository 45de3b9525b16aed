//! Laws of a new scheduler. Each law is the contract of an empty function.

ghost use Rattle.std.specs.Prelude.{ℤ, List};
ghost use Rattle.cilk_lower.specs.Code.{CodeView};
ghost use Rattle.cilk_program.specs.Syntax.{Source};
ghost use Rattle.cilk_scheduler.specs.Openings.{OpeningsAreShown, OpeningsFit};

/// A well-named program is within the limits of a run before its first event.
pub fn openings_fit()
    ensures { (p : Source) (inputs : List ℤ) → OpeningsFit p inputs }
{}

/// A new scheduler shows the first state of the free machine. The first worker holds the first
/// frame before its begin, and no worker has a view.
pub fn openings_are_shown()
    ensures { (code : CodeView) (p : Source) (inputs : List ℤ) → OpeningsAreShown code p inputs }
{}

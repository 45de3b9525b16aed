//! The views that frames of the free machine hold. Each function does nothing: its contract is the
//! law.

ghost use Rattle.std.specs.Prelude.{ℤ, List};
ghost use Rattle.cilk_program.specs.Syntax.{Source};
ghost use Rattle.cilk_determinacy.specs.KeptViews.{StepsKeepViews};

/// In the opening state each frame's piece has views of the language, of each reducer one of its
/// monoid. Each step keeps this, with a race or without, if the frame that makes it updates, sets
/// and prints only words and resumes only after a child. So `combine` gives what a sync joins and
/// what is read of a reducer.
pub fn steps_keep_views()
    ensures { (p : Source) (inputs : List ℤ) → StepsKeepViews p inputs }
{}

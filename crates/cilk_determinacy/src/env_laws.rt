//! Laws of the free machine on the language. Each is a function that does nothing: its contract is
//! the law.

ghost use Rattle.std.specs.Prelude.{ℤ, List};
ghost use Rattle.cilk_program.specs.Syntax.{Source};
ghost use Rattle.cilk_determinacy.specs.Steps.{MachineHasProgress};
ghost use Rattle.cilk_determinacy.specs.FrameEnvViews.{AreMultiplied};

/// In each state that isn't stopped the free machine can make its steps. A frame that isn't waiting
/// makes the next event of its behaviour, a fault or an exceeded limit stops the run, and a
/// continuation that was neither resumed nor stolen can be stolen. A frame waits in no other case.
/// An opening state exists.
pub fn machine_has_progress()
    ensures { (p : Source) (inputs : List ℤ) → MachineHasProgress p inputs }
{}

/// The free machine represents views as functions, and this law ties them to the language's views.
/// The empty view is the unit of the monoid, and two views in serial order have `combine` as their
/// product. Creation, update, set, print and retirement act on views as in the monoid. The number
/// that is read is the monoid's. For example, a sum's view 5 is the function that adds 5.
pub fn views_are_multiplied()
    ensures { AreMultiplied }
{}

//! Laws of scripts: the limit of `all`, that a script has one end, and what one serial run settles
//! about a machine. Each law is the contract of a function that does nothing.

ghost use Rattle.std.specs.Prelude.{◌≡◌, ℤ, List};
ghost use Rattle.cilk_schedule.specs.Playing.{OpeningsAreReached, ScriptsHaveOneEnd, SettlesEachState};
ghost use Rattle.cilk_schedule.specs.Strict.{SkipsAreOne};
ghost use Rattle.cilk_program.specs.Syntax.{Source};
ghost use Rattle.cilk_schedule.specs.declared.player.TheConstants.{MAX_ROUNDS};

/// The maximum number of rounds of one `all`.
pub fn limits_are()
    ensures { MAX_ROUNDS ≡ 4000000 }
{}

/// A script has at most one end, of a program on an input with a number of workers: a state, a stop
/// in a strand, or a line whose choices would exceed the limit. States are compared without the
/// views of frames that haven't begun.
pub fn script_has_one_end()
    ensures { (p : Source) (inputs : List ℤ) → ScriptsHaveOneEnd p inputs }
{}

/// A script has at most one first choice that can't be made, for one reason; or each of its choices can
/// be made; never both. So each result of strict playing, but for want of memory, is the only one.
pub fn skips_are_one()
    ensures { (p : Source) (inputs : List ℤ) → SkipsAreOne p inputs }
{}

/// A new machine represents a reachable state of the free machine, after no steps.
/// `Machine::choose` keeps this.
pub fn openings_are_reached()
    ensures { OpeningsAreReached }
{}

/// If every sequence of steps agrees with one serial run, each state that a machine reaches does
/// too: it is a consistent cut of that run, nothing has stopped it, and each frame's events are the
/// first of its serial events, with the same values. This applies to a program that `check` accepts
/// or `settle` settles.
pub fn each_state_is_settled()
    ensures { SettlesEachState }
{}

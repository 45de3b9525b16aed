//! The serial elision and the serial run agree.

ghost use Rattle.std.specs.Prelude.{ℤ, List};
ghost use Rattle.cilk_program.specs.Syntax.{Source};
ghost use Rattle.cilk_program.specs.Agreement.{EndsAsElided, HasOneElision, IsReached};

/// If the serial run of a well-named program ends without meeting a limit of runs, it ends as the
/// serial elision does: with the same result, globals, output and reducers, or by the same fault.
pub fn serial_run_ends_as_elided()
    ensures { (p : Source) (inputs : List ℤ) → EndsAsElided p inputs }
{}

/// The serial elision of a program ends in at most one way.
pub fn elision_is_one()
    ensures { (p : Source) (inputs : List ℤ) → HasOneElision p inputs }
{}

/// If the serial elision of a well-named program ends, then each serial run with enough ticks and
/// events ends in the same way, unless it has too many frames or too many cells.
pub fn elision_is_reached()
    ensures { (p : Source) (inputs : List ℤ) → IsReached p inputs }
{}

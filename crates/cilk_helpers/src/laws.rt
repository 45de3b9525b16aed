//! Laws of retold runs. Each is a function that does nothing: its contract is the law.

ghost use Rattle.std.specs.Prelude.{ℤ, List};
ghost use Rattle.cilk_program.specs.Syntax.{Source};
ghost use Rattle.cilk_lower.specs.Code.{CodeView};
ghost use Rattle.cilk_helpers.specs.Retold.{RunsAreRetold};

/// A serial run continues by the notes of its frames, event by event up to its end, as long as the
/// store's answers are those in the notes.
pub fn runs_are_retold()
    ensures { (code : CodeView) (p : Source) (inputs : List ℤ) → RunsAreRetold code p inputs }
{}

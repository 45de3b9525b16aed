//! The cursor that a scheduler keeps of a frame between two events. Each function does nothing: its
//! contract is the law.

ghost use Rattle.std.specs.Prelude.{ℤ, List};
ghost use Rattle.cilk_program.specs.Syntax.{Source};
ghost use Rattle.cilk_scheduler.specs.KeptCursors.{NextIsNamed};

/// A scheduler keeps a frame's cursor and the number of ticks that the frame has used. If the
/// cursor continues with the answer to the frame's last event and with the rest of a run's ticks,
/// its next ask is the one that the frame makes in the free machine, by names. The ask costs the
/// ticks that the cursor used, and the cursor is then at the end of the frame's history.
pub fn next_ask_is_named()
    ensures { (p : Source) (inputs : List ℤ) → NextIsNamed p inputs }
{}

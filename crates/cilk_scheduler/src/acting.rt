//! Laws of events that touch a cell, a reducer or the output. Each law is the contract of an empty
//! function.

ghost use Rattle.std.specs.Prelude.{ℤ, List};
ghost use Rattle.cilk_lower.specs.Code.{CodeView};
ghost use Rattle.cilk_program.specs.Syntax.{Source};
ghost use Rattle.cilk_scheduler.specs.Acting.{CreatesAreShown, PrintsAreShown, ReadsAreShown, ResultsAreShown, SetsAreShown, UpdatesAreShown, ValuesAreShown, WritesAreShown};

/// A read, a write or the storing of a result, with no fault in its place, is a step of the free
/// machine. The cell is the one that the place means by number, and the scheduler's state with the
/// event shows the machine's next state.
pub fn cells_are_touched()
    ensures read { (code : CodeView) (p : Source) (inputs : List ℤ) → ReadsAreShown code p inputs }
    ensures write { (code : CodeView) (p : Source) (inputs : List ℤ) → WritesAreShown code p inputs }
    ensures result { (code : CodeView) (p : Source) (inputs : List ℤ) → ResultsAreShown code p inputs }
{}

/// The creation, an update, a set or the value of a reducer, or a print, with no fault in its
/// place, is a step of the free machine. The worker's view of the reducer, or of the output,
/// changes as the event says, and the scheduler's state with the event shows the machine's next
/// state.
pub fn reducers_are_touched()
    ensures create { (code : CodeView) (p : Source) (inputs : List ℤ) → CreatesAreShown code p inputs }
    ensures update { (code : CodeView) (p : Source) (inputs : List ℤ) → UpdatesAreShown code p inputs }
    ensures set { (code : CodeView) (p : Source) (inputs : List ℤ) → SetsAreShown code p inputs }
    ensures value { (code : CodeView) (p : Source) (inputs : List ℤ) → ValuesAreShown code p inputs }
    ensures print { (code : CodeView) (p : Source) (inputs : List ℤ) → PrintsAreShown code p inputs }
{}

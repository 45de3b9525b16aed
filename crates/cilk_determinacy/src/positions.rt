//! The free machine and the serial run's list of events, by positions. Each function does nothing:
//! its contract is the law.

ghost use Rattle.std.specs.Prelude.{ℤ, List};
ghost use Rattle.cilk_program.specs.Syntax.{Source};
ghost use Rattle.cilk_determinacy.specs.Positions.{CutsAreClosed};
ghost use Rattle.cilk_determinacy.specs.StrandNames.{StrandsHaveNames};

/// A consistent cut by positions of the serial run's list: each event is made or not, and if an
/// event is made, each event before it in the list's tree is made.
pub fn cuts_are_closed()
    ensures { (p : Source) (inputs : List ℤ) → CutsAreClosed p inputs }
{}

/// A strand's name is its frame's name and its place among the frame's strands, which no schedule
/// changes. The strands of a serial run are named one to one, in the order of their numbers. Each
/// event of the list is in the strand begun by the last begin, resume or sync of its frame up to
/// there.
pub fn strands_have_names()
    ensures { (p : Source) (inputs : List ℤ) → StrandsHaveNames p inputs }
{}

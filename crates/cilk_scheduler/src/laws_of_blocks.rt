//! Laws of steals and syncs. Each law is the contract of an empty function.

ghost use Rattle.std.specs.Prelude.{ℤ, List};
ghost use Rattle.cilk_lower.specs.Code.{CodeView};
ghost use Rattle.cilk_program.specs.Syntax.{Source};
ghost use Rattle.cilk_scheduler.specs.Syncing.{SyncsAreShown};
ghost use Rattle.cilk_scheduler.specs.Thieves.{StealsAreShown};
ghost use Rattle.cilk_scheduler.specs.Waiting.{WaitsAreShown};

/// A steal by an idle worker is a step of the free machine. Then the thief holds the frame without
/// views, the frame's newest child is marked as stolen from, and that child's piece is awaited at
/// the block.
pub fn steals_are_shown()
    ensures { (code : CodeView) (p : Source) (inputs : List ℤ) → StealsAreShown code p inputs }
{}

/// A frame at a sync waits where a stolen child's piece is awaited: its own piece arrives at the
/// block and its worker becomes idle. No event is made, so the scheduler shows the same state, with
/// the worker table that the choice leads to.
pub fn waits_are_shown()
    ensures { (code : CodeView) (p : Source) (inputs : List ℤ) → WaitsAreShown code p inputs }
{}

/// A sync whose block passes is a step of the free machine. Then the frame begins another block,
/// with the block's views multiplied by its own.
pub fn syncs_are_shown()
    ensures { (code : CodeView) (p : Source) (inputs : List ℤ) → SyncsAreShown code p inputs }
{}

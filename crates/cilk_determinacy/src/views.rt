//! The views that frames of the free machine hold, on the language. Each function does nothing: its
//! contract is the law.

ghost use Rattle.std.specs.Prelude.{ℤ, List};
ghost use Rattle.cilk_program.specs.Syntax.{Source};
ghost use Rattle.cilk_determinacy.specs.Held.{ViewsAreHeld};
ghost use Rattle.cilk_determinacy.specs.Lengths.{ListsAreShort};
ghost use Rattle.cilk_determinacy.specs.Pieces.{PiecesCover};

/// If the numbers of the program and its inputs are words, each view in each frame's piece is a
/// view of the language, of its reducer's monoid. This holds whatever steps are made, with a race
/// or without.
pub fn frames_hold_views()
    ensures { (p : Source) (inputs : List ℤ) → ViewsAreHeld p inputs }
{}

/// If the numbers of the program and its inputs are words, at most 1,000,000 events are made, each
/// list view in a frame's piece has at most as many elements as events were made, and each list
/// length that a frame has read is a word. This holds whatever steps are made, with a race or
/// without.
pub fn lists_are_short()
    ensures { (p : Source) (inputs : List ℤ) → ListsAreShort p inputs }
{}

/// In each consistent cut of a serial run without races each piece covers at most one stretch of
/// the run, without gaps. The stretches are disjoint, and together they are the cut. Each piece has
/// the views of its stretch alone: for each reducer, the effect of the stretch's creations,
/// updates, sets and retirements on the unit.
pub fn pieces_cover_stretches()
    ensures { (p : Source) (inputs : List ℤ) → PiecesCover p inputs }
{}

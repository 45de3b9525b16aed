//! Laws of pieces. Each law is a function that does nothing: its contract is the law.

ghost use Rattle.cilk_shared.specs.Along.{FramesAreAlong};
ghost use Rattle.cilk_shared.specs.Worked.{TwoUpdatesAreSettled};

/// A worked case: the reducers are settled in a small run, in which a spawned function and its
/// parent update one sum.
pub fn worked_run_is_settled()
    ensures { TwoUpdatesAreSettled }
{}

/// On any input, each event along a plan is in the frame that the plan gives, as
/// [`crate::piece::Piece::end`] requires.
pub fn frames_are_along()
    ensures { FramesAreAlong }
{}

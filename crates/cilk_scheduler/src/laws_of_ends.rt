//! Laws of frames that end. Each law is the contract of an empty function.

ghost use Rattle.std.specs.Prelude.{ℤ, List};
ghost use Rattle.cilk_lower.specs.Code.{CodeView};
ghost use Rattle.cilk_program.specs.Syntax.{Source};
ghost use Rattle.cilk_scheduler.specs.Ending.{ArrivalsAreShown, ReturnsAreShown, RunsEnd};
ghost use Rattle.cilk_scheduler.specs.EndParts.{FramesGoBack, PiecesAreHandedIn, PiecesMayArrive, RunsAreLeft};
ghost use Rattle.cilk_scheduler.specs.Parents.{NamesAreKept, ParentsOutlive};

/// The end of the first frame is a step of the free machine. The run is over, and its outcome is
/// that of the machine's state.
pub fn runs_end()
    ensures { (code : CodeView) (p : Source) (inputs : List ℤ) → RunsEnd code p inputs }
{}

/// The end of a frame that was called, or beside which the continuation wasn't stolen, is a step of
/// the free machine. The worker continues with the parent, whose continuation no worker offers
/// then.
pub fn returns_are_shown()
    ensures { (code : CodeView) (p : Source) (inputs : List ℤ) → ReturnsAreShown code p inputs }
{}

/// The end of a frame beside which the continuation was stolen is a step of the free machine. Its
/// piece arrives at its parent's block. If the block passes, the worker continues with the parent
/// at its sync; else it is idle.
pub fn arrivals_are_shown()
    ensures { (code : CodeView) (p : Source) (inputs : List ℤ) → ArrivalsAreShown code p inputs }
{}

/// In each reachable state of the free machine, a frame outlives its children. A child has ended,
/// or its parent hasn't: then the child's start was the parent's last deed, or the continuation
/// beside the child was stolen and the parent has made no sync since.
pub fn parents_outlive()
    ensures { (p : Source) (inputs : List ℤ) → ParentsOutlive p inputs }
{}

/// In each reachable state of the free machine, each frame runs what was started under its name.
pub fn names_are_kept()
    ensures { (p : Source) (inputs : List ℤ) → NamesAreKept p inputs }
{}

/// A frame ends as the laws of ends require, where the code makes the end in these parts. The frame
/// has reached its end, the views lose its reducers, and it is marked as ended, counted and
/// recorded. Meanwhile the outcome is kept, or the worker continues with the parent, whose
/// continuation is withdrawn, or the piece arrives at the parent's block.
pub fn ends_are_put_together()
    ensures left { (code : CodeView) (p : Source) (inputs : List ℤ) → RunsAreLeft code p inputs }
    ensures back { (code : CodeView) (p : Source) (inputs : List ℤ) → FramesGoBack code p inputs }
    ensures handed { (code : CodeView) (p : Source) (inputs : List ℤ) → PiecesAreHandedIn code p inputs }
{}

/// The parent of a frame that ends is in the list of frames. If the continuation beside the frame
/// was stolen, the parent's block awaits its piece.
pub fn pieces_may_arrive()
    ensures { (code : CodeView) (p : Source) (inputs : List ℤ) → PiecesMayArrive code p inputs }
{}

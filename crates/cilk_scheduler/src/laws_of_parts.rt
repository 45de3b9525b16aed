//! Laws that lead from the contracts of the functions here to the laws of steals, of syncs and of a
//! new scheduler. Each law is the contract of an empty function.

ghost use Rattle.std.specs.Prelude.{ℤ, List};
ghost use Rattle.cilk_lower.specs.Code.{CodeView};
ghost use Rattle.cilk_program.specs.Syntax.{Source};
ghost use Rattle.cilk_scheduler.specs.Parts.{SchedulersAreNew, ContinuationsAreOffered, ContinuationsAreTaken, FramesPass, FramesStayBehind, OwnPiecesMayArrive};

/// A continuation that [`crate::offers::locate`] finds is offered, its frame's newest child exists,
/// and that child's piece may be awaited. An idle worker steals it in these parts: the piece is
/// awaited, the child is marked, the continuation is withdrawn, and the worker holds the frame
/// without views.
pub fn continuations_are_taken()
    ensures offered { (code : CodeView) (p : Source) (inputs : List ℤ) → ContinuationsAreOffered code p inputs }
    ensures taken { ContinuationsAreTaken }
{}

/// The own piece of a frame at its sync may arrive at a block that hasn't passed. The frame waits
/// then if a stolen child's piece is awaited; else the block passes, and the sync is recorded.
pub fn own_pieces_arrive()
    ensures arrive { (code : CodeView) (p : Source) (inputs : List ℤ) → OwnPiecesMayArrive code p inputs }
    ensures stay { (code : CodeView) (p : Source) (inputs : List ℤ) → FramesStayBehind code p inputs }
    ensures pass { (code : CodeView) (p : Source) (inputs : List ℤ) → FramesPass code p inputs }
{}

/// A scheduler made in these parts is new: the first frame, its cells after the global ones, and
/// workers. Only the first worker holds the frame.
pub fn schedulers_are_new()
    ensures { (code : CodeView) (p : Source) (inputs : List ℤ) → SchedulersAreNew code p inputs }
{}

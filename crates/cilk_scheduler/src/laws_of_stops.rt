//! Laws of choices that stop the run or are skipped. Each law is the contract of an empty function.

ghost use Rattle.std.specs.Prelude.{ℤ, List};
ghost use Rattle.cilk_lower.specs.Code.{CodeView};
ghost use Rattle.cilk_program.specs.Syntax.{Source};
ghost use Rattle.cilk_scheduler.specs.Stopping.{BlocksAreOver, SkipsAreShown, StopsAreShown, TellingsStay};

/// The frames, events and outcome that the scheduler shows stay the same as long as each frame
/// keeps its index and parent, no event is made and the run isn't over. So after running out of
/// memory it shows what it had shown.
pub fn tellings_stay()
    ensures { (code : CodeView) (p : Source) (inputs : List ℤ) → TellingsStay code p inputs }
{}

/// A fault in place of the event of a worker's frame stops the free machine at that frame's latest
/// strand. The scheduler, whose frame has reached the request, still shows what it had shown.
pub fn stops_are_shown()
    ensures { (code : CodeView) (p : Source) (inputs : List ℤ) → StopsAreShown code p inputs }
{}

/// A choice is skipped, and changes neither state nor worker table, where its worker holds no
/// frame, is to steal and isn't idle, no continuation is offered at that index, or the run is over.
/// A frame that a worker holds is in the list, with its cursor.
pub fn skips_are_shown()
    ensures { (code : CodeView) (p : Source) (inputs : List ℤ) → SkipsAreShown code p inputs }
{}

/// The block of a frame at its sync is over where no stolen child's piece is awaited. So a fault
/// may come in place of the sync.
pub fn blocks_are_over()
    ensures { (code : CodeView) (p : Source) (inputs : List ℤ) → BlocksAreOver code p inputs }
{}

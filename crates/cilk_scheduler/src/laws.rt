//! Laws of the scheduler's state. Each law is the contract of an empty function.

ghost use Rattle.std.specs.Prelude.{ℤ, List};
ghost use Rattle.cilk_lower.specs.Code.{CodeView};
ghost use Rattle.cilk_lower.specs.declared.layout.Layout.{Layout};
ghost use Rattle.cilk_program.specs.Syntax.{Source};
ghost use Rattle.cilk_monoid.specs.declared.kind.MonoidKind.{MonoidKind};
ghost use Rattle.cilk_determinacy.specs.FrameEnvs.{FrameEnv};
ghost use Rattle.cilk_scheduler.specs.Asking.{RefusalsAreFaults};
ghost use Rattle.cilk_scheduler.specs.Schedulers.{AsksAreNamed};
ghost use Rattle.cilk_scheduler.specs.Steps.{BeginsAreShown, ResumesAreShown};
ghost use Rattle.cilk_scheduler.specs.Touching.{TouchesAreShown};
ghost use Rattle.cilk_scheduler.specs.Blocks.{BlockPasses, ChildrenLay, OwnLays, StealsLay};

/// A join keeps the right products of a block's pieces: after a steal, after a stolen child's
/// arrival, and after that of the frame's own piece. Once nothing is awaited, the one product that
/// is left is that of the free machine at the sync.
pub fn pieces_lie_at_blocks()
    ensures steal { (kind : MonoidKind) → StealsLay kind }
    ensures child { (kind : MonoidKind) → ChildrenLay kind }
    ensures own { (kind : MonoidKind) → OwnLays kind }
    ensures passes { (kind : MonoidKind) → BlockPasses kind FrameEnv }
{}

/// The next event of a frame, from its begin, the answer to its last event or its sync, is the next
/// request of the free machine's frame, by names. The ticks used are those that the free machine
/// counts up to that request.
pub fn asks_are_named()
    ensures { (code : CodeView) (p : Source) (inputs : List ℤ) → AsksAreNamed code p inputs }
{}

/// The fault that is found from the numbers of events, frames, cells and ticks is the one by which
/// the free machine stops. Where none is found, the free machine continues.
pub fn refusals_are_faults()
    ensures { (p : Source) (inputs : List ℤ) (l : Layout) → RefusalsAreFaults p inputs l }
{}

/// An event that starts and ends no frame leads from a state shown to the next state shown. Every
/// other frame's state stays, the frame itself has one deed more, and workers, worker table, cells
/// and totals agree. A sync is such an event: the frame begins another block, and its spawned
/// children are joined.
pub fn events_are_shown()
    ensures { (code : CodeView) (p : Source) (inputs : List ℤ) → TouchesAreShown code p inputs }
{}

/// A begin or a resume of a worker's frame, with no fault in its place, is a step of the free
/// machine. The scheduler's state with the event shows the machine's next state.
pub fn strands_are_begun()
    ensures begin { (code : CodeView) (p : Source) (inputs : List ℤ) → BeginsAreShown code p inputs }
    ensures resume { (code : CodeView) (p : Source) (inputs : List ℤ) → ResumesAreShown code p inputs }
{}

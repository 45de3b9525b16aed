//! Laws of child frames. Each law is the contract of an empty function.

ghost use Rattle.std.specs.Prelude.{ℤ, List};
ghost use Rattle.cilk_lower.specs.Code.{CodeView};
ghost use Rattle.cilk_program.specs.Syntax.{Source};
ghost use Rattle.cilk_scheduler.specs.Invocations.{InvocationsAreShown};
ghost use Rattle.cilk_scheduler.specs.Ordinals.{ChildrenAreCounted};
ghost use Rattle.cilk_scheduler.specs.Starting.{ChildrenSee, ChildrenSit, NamesStayApart};

/// A called or spawned frame sees what its callee names, by names and by numbers at once: its own
/// cells after all others, the reducers that it creates and is given, the cell for its result, and
/// for turns of a loop what surrounds the loop.
pub fn children_see()
    ensures { (code : CodeView) (p : Source) (inputs : List ℤ) → ChildrenSee code p inputs }
{}

/// The new frame's state is that of the free machine's frame of that name, which has done nothing.
/// The worker holds it before its begin.
pub fn children_sit()
    ensures { (code : CodeView) (p : Source) (inputs : List ℤ) → ChildrenSit code p inputs }
{}

/// In each reachable state of the free machine, a frame's children are numbered from 1 to the
/// number of frames that it has started. So no frame has the name of its next child.
pub fn children_are_counted()
    ensures { (p : Source) (inputs : List ℤ) → ChildrenAreCounted p inputs }
{}

/// After a start, different frames still have different names.
pub fn names_stay_apart()
    ensures { (code : CodeView) (p : Source) (inputs : List ℤ) → NamesStayApart code p inputs }
{}

/// A call or a spawn is a step of the free machine. The worker then holds the new frame, the last
/// of all and before its begin, and the parent waits for it or is offered.
pub fn invocations_are_shown()
    ensures { (code : CodeView) (p : Source) (inputs : List ℤ) → InvocationsAreShown code p inputs }
{}

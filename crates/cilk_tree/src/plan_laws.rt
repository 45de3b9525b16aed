//! Laws of plans. Each is a function that does nothing: its contract is the law.

ghost use Rattle.cilk_tree.specs.Passes.{PassGivesPredecessors};
ghost use Rattle.cilk_tree.specs.WorkedPlan.{TwoReadsHavePlan, TwoReadsPredecessors};

/// One pass over a run's events, with a stack of the frames that wait for a child, gives the
/// immediate predecessors of each event.
pub fn pass_gives_predecessors()
    ensures { PassGivesPredecessors }
{}

/// A small computed run with a spawned child: it has a plan and these immediate predecessors.
pub fn worked_plans()
    ensures plan { TwoReadsHavePlan }
    ensures predecessors { TwoReadsPredecessors }
{}

//! Laws of the intervals of a trace. Each is a function that does nothing: its contract is the law.

ghost use Rattle.cilk_trace.specs.Opened.{OpenedIsParallel, OpenedIsGreater, FirstIsCurrent, OthersAreLess, OpenedIsSorted};
ghost use Rattle.cilk_trace.specs.Joined.{JoinedIsKept, JoinedIsOpen};
ghost use Rattle.cilk_trace.specs.Positions.{HistoriesAlike, OrderIsTold, RacesAlike};

/// An earlier line is in an open interval exactly where its strand is parallel to the current one.
pub fn opened_is_parallel()
    ensures { OpenedIsParallel }
{}

/// The same, by Hebrew numbers.
pub fn opened_is_greater()
    ensures { OpenedIsGreater }
{}

/// An earlier line is in the current strand exactly where it is not before `first`.
pub fn first_is_current()
    ensures { FirstIsCurrent }
{}

/// What is before `first` and in no open interval has a smaller Hebrew number, and nothing else has.
pub fn others_are_less()
    ensures { OthersAreLess }
{}

/// The intervals are disjoint, and descend.
pub fn opened_is_sorted()
    ensures { OpenedIsSorted }
{}

/// Children that follow each other at once may be joined: the same lines are in intervals, but for those
/// that enter frames.
pub fn joined_is_open()
    ensures { JoinedIsOpen }
{}

/// The kept children ascend, and hold the lines of the joined intervals.
pub fn joined_is_kept()
    ensures { JoinedIsKept }
{}

/// What is told of an earlier line by its position is true.
pub fn order_is_told()
    ensures { OrderIsTold }
{}

/// The kept access that races is the one that races by Hebrew numbers.
pub fn races_alike()
    ensures { RacesAlike }
{}

/// Where nothing races, what is kept of a cell stands for its history by Hebrew numbers.
pub fn histories_alike()
    ensures { HistoriesAlike }
{}

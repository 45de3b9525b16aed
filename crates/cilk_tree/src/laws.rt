//! Laws of trees. Each is a function that does nothing: its contract is the law.

ghost use Rattle.cilk_tree.specs.Reach.{ReachesOnlyLater, IsReachability};
ghost use Rattle.cilk_tree.specs.Shape.{SpellsOneShape};
ghost use Rattle.cilk_tree.specs.Sources.{SourcesAreLastWrites};
ghost use Rattle.cilk_tree.specs.Worked.{EmptyIsChain, SpawnRaceSpells, SpawnRaceLabels, SpawnRaceSpan, SpawnRacePredecessors};

/// A list of events spells at most one shape, so it has one tree.
pub fn events_spell_one_shape()
    ensures { SpellsOneShape }
{}

/// The source of a read is the position of the last earlier write of its cell, or 0 where no
/// earlier event writes it.
pub fn sources_are_last_writes()
    ensures { SourcesAreLastWrites }
{}

/// One event is before another exactly where it is reached from it by immediate predecessors. The
/// predecessors of a `sync` are the event before it and the `end` of each child spawned in its
/// block. The `resume` after a spawn has the spawn, and every other event has the event before it.
/// Where a frame doesn't sync after it spawned, only one direction holds: a reached event is before
/// the other.
pub fn before_is_reachability()
    ensures reached { ReachesOnlyLater }
    ensures both { IsReachability }
{}

/// Two small computed runs: one with a spawned child, with its Hebrew numbers, span and immediate
/// predecessors, and an empty one with its span.
pub fn worked_runs()
    ensures empty { EmptyIsChain }
    ensures spawn_race { SpawnRaceSpells }
    ensures labels { SpawnRaceLabels }
    ensures span { SpawnRaceSpan }
    ensures predecessors { SpawnRacePredecessors }
{}

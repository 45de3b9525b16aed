//! Laws of peers. Each is a function that does nothing: its contract is the law.

ghost use Rattle.cilk_peers.specs.Frames.{FramesKeepPeers};
ghost use Rattle.cilk_peers.specs.ViewRaces.{FirstIsCreationAndUse};
ghost use Rattle.cilk_peers.specs.Worked.{SpawnRaceClasses};

/// A frame's first and last strands have the same peers if each frame of the run syncs after it
/// spawned. So a frame may retire with its last event what it created with its first ones.
pub fn frames_keep_peers()
    ensures { FramesKeepPeers }
{}

/// If each reducer is created once, before its sets and values, the first view-read race is the
/// least set or value whose strand has other peers than its reducer's creation, with that creation.
pub fn first_view_race_has_the_creation()
    ensures { FirstIsCreationAndUse }
{}

/// The peer classes of a small computed run with a spawned child.
pub fn worked_classes()
    ensures { SpawnRaceClasses }
{}

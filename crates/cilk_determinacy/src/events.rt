//! Laws of the list of a serial run's events. Each is a function that does nothing: its contract is
//! the law.

ghost use Rattle.std.specs.Prelude.{ℤ, List};
ghost use Rattle.cilk_program.specs.Syntax.{Source};
ghost use Rattle.cilk_program.specs.SerialRun.{Transcript};
ghost use Rattle.cilk_determinacy.specs.Events.{RunsHaveCreations, ReadsHaveSources, FramesAreCounted};
ghost use Rattle.cilk_determinacy.specs.Numbers.{AreOneToOne, EventsHaveNumbers};
ghost use Rattle.cilk_determinacy.specs.ReducerEvents.{ValuesAreViewed, FinalsAreViewed};
ghost use Rattle.cilk_determinacy.specs.Strands.{SpellOneShape};

/// The events of a serial run that ends without a fault spell exactly one shape, in which each
/// frame syncs after it spawned. So they have one tree, and the contracts that speak of such a
/// shape apply to them: `tree_of`, `first_race`, `first_view_read`, `span`, reachability by
/// immediate predecessors, and that a frame's first and last strands have the same peers.
pub fn serial_runs_spell_one_shape()
    ensures { (p : Source) (inputs : List ℤ) → SpellOneShape p inputs }
{}

/// In a serial run of a well-named program each reducer is created once, before its sets and
/// values. So the first view-read race is the least set or value whose strand has other peers than
/// its reducer's creation, with that creation.
pub fn first_view_race_is_of_a_creation()
    ensures { (p : Source) (inputs : List ℤ) → RunsHaveCreations p inputs }
{}

/// In a serial run of a well-named program each read gives the value of its source, the last
/// earlier write of its cell, or the cell's opening value if there is none.
pub fn reads_have_sources()
    ensures { (p : Source) (inputs : List ℤ) → ReadsHaveSources p inputs }
{}

/// The list of a serial run of a well-named program is its run by names, with each frame, cell and
/// reducer replaced by its number. Frames are numbered from 1 as they begin. The globals are the
/// first cells, and a frame's cells are consecutive. A reducer has its frame's number and its place
/// there from 1. All that the events name exists in the run.
pub fn events_have_numbers()
    ensures { (p : Source) (inputs : List ℤ) → EventsHaveNumbers p inputs }
{}

/// In each run the numbers of its frames, of its cells and of the reducers that it creates are one
/// to one.
pub fn numbers_are_one_to_one()
    ensures { (p : Source) (r : Transcript) → AreOneToOne p r }
{}

/// In a serial run of a well-named program that ends without a fault the frames begin in the order
/// 1, 2, 3 and so on, and there are at most [`MAX_FRAMES`](cilk_types::limits::MAX_FRAMES).
pub fn frames_begin_in_order()
    ensures { (p : Source) (inputs : List ℤ) → FramesAreCounted p inputs }
{}

/// In a serial run of a well-named program each value that is read of a reducer is the number of
/// its view over the earlier events of the reducer: its creation, updates and sets, and its
/// retirement with the end of the frame that created it. The final values of the global reducers
/// are their views over all events of a run that ends.
pub fn values_are_views()
    ensures values { (p : Source) (inputs : List ℤ) → ValuesAreViewed p inputs }
    ensures finals { (p : Source) (inputs : List ℤ) → FinalsAreViewed p inputs }
{}

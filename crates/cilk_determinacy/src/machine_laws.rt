//! The theorem for any program that is known by its behaviour, and the laws around it. Each is a
//! function that does nothing: its contract is the law.
//!
//! In each law `W` is the type of what a frame can be started as, `V` that of a reducer's views,
//! `M` gives the monoid of each reducer, and `next` is the program's behaviour: a frame's next ask
//! after what it has done. `C` has the costs and limits of a whole run. `t` is the serial run,
//! nested.

ghost use Rattle.std.specs.Prelude.{ℤ, List, Option};
ghost use Rattle.cilk_determinacy.specs.Runs.{Cell, Instance, Ask, Deed, Run};
ghost use Rattle.cilk_determinacy.specs.Costs.{Costs};
ghost use Rattle.cilk_monoid.specs.Laws.{MonoidStructure, IsLawful};
ghost use Rattle.cilk_determinacy.specs.Monoids.{IsValue};
ghost use Rattle.cilk_determinacy.specs.Traces.{EventsSpell};
ghost use Rattle.cilk_determinacy.specs.Tested.{TestsTell};
ghost use Rattle.cilk_determinacy.specs.CutPositions.{CutsAreClosed};
ghost use Rattle.cilk_determinacy.specs.Progress.{HasProgress};
ghost use Rattle.cilk_determinacy.specs.MachineTheorem.{IsNestedSerialRun, HasNoRaces, IsOpened, IsKept, CutsAgree, IsDeterminate, follows};
ghost use Rattle.cilk_determinacy.specs.WorkedRuns.{EarlyReadRaces, TwoReadsDoNotRace, TwoWritesRace, BothReadRuns, BothReadIsDeterminate, EarlyValueRaces};

/// In each state that isn't stopped the free machine can make its steps. A frame makes its next ask
/// at its beginning, after an event, after a child that has ended, and after a spawn whose
/// continuation was stolen; at a sync it does so once each child spawned in the block has ended. It
/// waits in no other case. A fault or an exceeded limit stops the run. A continuation that is
/// neither resumed nor stolen can be stolen, whether the child has ended or not. An opening state
/// exists.
pub fn machine_has_progress<W, V>()
    ensures { (M : Instance → MonoidStructure V) (next : W → List (Deed W) → Option (Ask W)) (C : Costs W) → HasProgress W V M (follows next) C }
{}

/// The opening state of the free machine is a consistent cut of any run.
pub fn opening_is_consistent<W, V>()
    ensures { (M : Instance → MonoidStructure V) (next : W → List (Deed W) → Option (Ask W)) (C : Costs W) (w : W) (t : Run W) (opening : Cell → ℤ) → IsOpened W V M (follows next) C w t opening }
{}

/// If the serial run has no race, each step of the free machine leads from a consistent cut of it
/// to a consistent cut.
pub fn step_is_consistent<W, V>()
    ensures { (M : Instance → MonoidStructure V) (next : W → List (Deed W) → Option (Ask W)) (C : Costs W) (w : W) (t : Run W) (opening : Cell → ℤ) → ((i : Instance) → IsLawful (M i) IsValue) → IsNestedSerialRun W V M (follows next) C w t opening → HasNoRaces t → IsKept W V M (follows next) C w t opening }
{}

/// If the serial run has no race, each consistent cut of it agrees with that run, as in
/// `determinate`. A scheduler that makes single steps needs this at its end.
pub fn cuts_agree<W, V>()
    ensures { (M : Instance → MonoidStructure V) (next : W → List (Deed W) → Option (Ask W)) (C : Costs W) (w : W) (t : Run W) (opening : Cell → ℤ) → ((i : Instance) → IsLawful (M i) IsValue) → IsNestedSerialRun W V M (follows next) C w t opening → HasNoRaces t → CutsAgree W V M (follows next) C w t opening }
{}

/// If the serial run of a program has no determinacy race and no view-read race, each state that
/// steps of the free machine lead to is a consistent cut of it. Nothing has stopped the run, and no
/// total is more than the serial run's. Once the root has ended, its events, memory, reducers and
/// totals are the serial run's, and each spawned child was joined exactly once. As long as the run
/// isn't complete, fewer events are made.
///
/// The tree of strands is that of Feng and Leiserson (1997), and the races of reducer reads are
/// those of Lee and Schardl (2015).
pub fn determinate<W, V>()
    ensures { (M : Instance → MonoidStructure V) (next : W → List (Deed W) → Option (Ask W)) (C : Costs W) (w : W) (t : Run W) (opening : Cell → ℤ) → ((i : Instance) → IsLawful (M i) IsValue) → IsNestedSerialRun W V M (follows next) C w t opening → HasNoRaces t → IsDeterminate W V M (follows next) C w t opening }
{}

/// A consistent cut is closed under "before" by positions of the serial run's list: if an event is
/// made, each event before it is made.
pub fn cuts_are_closed<W>()
    ensures { CutsAreClosed W }
{}

/// If each frame of a nested run has its `begin`, `resume`s and `end`, the list of the run's events
/// spells the run's shape, so it has that shape's series-parallel tree.
pub fn events_spell_the_shape<W>()
    ensures { EventsSpell W }
{}

/// A list of events has no race if a test of each pair of its positions finds none. So races of a
/// given list can be decided by computing.
pub fn tests_tell_races()
    ensures { TestsTell }
{}

/// Small programs: the pairs of positions that race, the serial run of one without a race, to which
/// the theorem applies, and one that reads a reducer too early.
pub fn worked_programs()
    ensures early_read { EarlyReadRaces }
    ensures two_reads { TwoReadsDoNotRace }
    ensures two_writes { TwoWritesRace }
    ensures both_read { BothReadRuns }
    ensures both_read_whole { BothReadIsDeterminate }
    ensures early_value { EarlyValueRaces }
{}

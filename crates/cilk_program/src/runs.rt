//! Properties of serial runs.

ghost use Rattle.std.specs.Prelude.{ℕ, ℤ, Bool, List, IsTrue};
ghost use Rattle.cilk_monoid.specs.declared.kind.MonoidKind.{MonoidKind};
ghost use Rattle.cilk_program.specs.Syntax.{Source};
ghost use Rattle.cilk_program.specs.SerialRun.{Transcript};
ghost use Rattle.cilk_program.specs.WellNamed.{is_well_named};
ghost use Rattle.cilk_program.specs.Runs.{AsksAreThere, HasSerialRun, HasOneSerialRun, IsShort, IsInOrder, IsFramed, FramesBehave, EventsAreNumbered, IsSound};
ghost use Rattle.cilk_program.specs.Numbering.{HasOneName, LiesPastGlobals};
ghost use Rattle.cilk_program.specs.Visible.{FramesSee};

/// Every request of a frame of a well-named program refers to something that exists, whatever its
/// answers: places, reducers, functions and loops that the frame sees, with the arguments that they
/// take.
pub fn asks_are_there()
    ensures { (p : Source) → IsTrue (is_well_named p) → AsksAreThere p }
{}

/// A frame of a well-named program sees only cells and reducers that exist: those that its body
/// names, those by its static links, and the cell that receives its result.
///
/// The first frame has this property, and a frame that has it passes it to each child. The global
/// cells and reducers and the frame's own must exist. The law holds for any numbering of cells and
/// reducers, and for any test whether one exists. The lemmas in `proofs/Visible.antt` hold for
/// any kind of name in place of numbers, so that each kind of run can choose its own.
pub fn frames_see_what_is_there()
    ensures { (p : Source) → IsTrue (is_well_named p) → (global_cell global_instance : ℕ → ℕ) (has_cell : ℕ → Bool) (has_reducer : ℕ → MonoidKind → Bool) → FramesSee p global_cell global_instance has_cell has_reducer }
{}

/// Each program has a serial run on each input, within any limit of ticks and events.
pub fn serial_run_exists()
    ensures { (p : Source) (inputs : List ℤ) → HasSerialRun p inputs }
{}

/// Each program has at most one serial run on an input. Program and input determine what the
/// frames do, the events and the end.
pub fn serial_run_is_one()
    ensures { (p : Source) (inputs : List ℤ) → HasOneSerialRun p inputs }
{}

/// A serial run has at most [`MAX_EVENTS`](cilk_types::limits::MAX_EVENTS) events.
pub fn serial_run_is_short()
    ensures { (p : Source) (inputs : List ℤ) → IsShort p inputs }
{}

/// In a serial run, each frame's events follow one order (`IsOrderly`), also where a fault stops
/// it. It begins. It writes its words or its loop's variable, and creates its reducers; the first
/// frame creates the global ones before its own. It runs its statements. It waits for its children.
/// It gives its result, if the caller takes one. It ends.
pub fn frames_are_in_order()
    ensures { (p : Source) (inputs : List ℤ) → IsInOrder p inputs }
{}

/// In a serial run, each frame begins exactly once, as its first event. It resumes right after each
/// child and nowhere else. Its end is its last event, and a sync comes between each child and that
/// end. If a fault stops the run, each frame's events are a prefix of such a sequence.
pub fn frames_are_closed()
    ensures { (p : Source) (inputs : List ℤ) → IsFramed p inputs }
{}

/// In a serial run, each frame's events are the requests of its behaviour, given the answers so
/// far.
pub fn frames_behave()
    ensures { (p : Source) (inputs : List ℤ) → FramesBehave p inputs }
{}

/// The events of a serial run are those of its frames, with frames and cells numbered in serial
/// order.
pub fn events_are_numbered()
    ensures { (p : Source) (inputs : List ℤ) → EventsAreNumbered p inputs }
{}

/// Numbers distinguish frames. Two frames have different numbers, so their reducers are different
/// instances. Their blocks of cells are disjoint from each other and from the globals.
pub fn numbering_is_injective()
    ensures frames { (p : Source) (r : Transcript) → HasOneName p r }
    ensures globals { (p : Source) (r : Transcript) → LiesPastGlobals p r }
{}

/// A serial run of a well-named program is sound. Frames and cells are within the limits, and each
/// cell that is accessed exists. Each reducer is created once, before its other events. Each read
/// gives the last value written to its cell, or the cell's opening value. If the run ends, its
/// final globals and its output are those that the events produce.
pub fn serial_runs_are_sound()
    ensures { (p : Source) (inputs : List ℤ) → IsTrue (is_well_named p) → IsSound p inputs }
{}

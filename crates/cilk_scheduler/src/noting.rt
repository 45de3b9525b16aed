//! Laws that lead from the contracts of the functions here to the laws of events. Each law is the
//! contract of an empty function.

ghost use Rattle.std.specs.Prelude.{ℤ, List};
ghost use Rattle.cilk_lower.specs.Code.{CodeView};
ghost use Rattle.cilk_program.specs.Syntax.{Source};
ghost use Rattle.cilk_scheduler.specs.Noting.{EventsAreNoted, FramesAreReady, FramesCome, ReadCellsAreThere, ReducersAreThere, ResultCellsAreThere, SightStays, TicksAreMore, WrittenCellsAreThere};

/// The frame that a worker holds may continue. After it has, it sees the same cells and reducers,
/// and no more ticks are counted than it used. If no fault comes in place of the event, it has
/// reached its request, and all ticks are within their limit.
pub fn frames_come_to_asks()
    ensures ready { (code : CodeView) (p : Source) (inputs : List ℤ) → FramesAreReady code p inputs }
    ensures sight { SightStays }
    ensures more { (code : CodeView) (p : Source) (inputs : List ℤ) → TicksAreMore code p inputs }
    ensures come { (code : CodeView) (p : Source) (inputs : List ℤ) → FramesCome code p inputs }
{}

/// The cell that a frame is about to read or write, and the one for its result, is a cell of the
/// scheduler.
pub fn cells_are_there()
    ensures read { (code : CodeView) (p : Source) (inputs : List ℤ) → ReadCellsAreThere code p inputs }
    ensures write { (code : CodeView) (p : Source) (inputs : List ℤ) → WrittenCellsAreThere code p inputs }
    ensures result { (code : CodeView) (p : Source) (inputs : List ℤ) → ResultCellsAreThere code p inputs }
{}

/// A frame about to create, update, set or read a reducer has a scope, and the reducer's place has
/// a small number there.
pub fn reducers_are_there()
    ensures { (code : CodeView) (p : Source) (inputs : List ℤ) → ReducersAreThere code p inputs }
{}

/// A frame records its event as the laws of events require, where the code does it in these parts:
/// the frame continues and acts, its ticks are counted and its event is written to the journal.
pub fn events_are_noted()
    ensures { (code : CodeView) (p : Source) (inputs : List ℤ) → EventsAreNoted code p inputs }
{}

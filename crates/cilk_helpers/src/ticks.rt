//! Laws of replays. Each is a function that does nothing: its contract is the law.

ghost use Rattle.cilk_helpers.specs.Notes.{NotesAreWithinFewerTicks};

/// A frame makes the same requests with fewer ticks, as long as they are enough.
///
/// So a replay may have all ticks of a run, and its notes hold with the ticks that other frames
/// leave.
pub fn notes_are_within_fewer_ticks()
    ensures { NotesAreWithinFewerTicks }
{}

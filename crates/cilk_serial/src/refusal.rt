// The limits of a run.

ghost use Rattle.std.specs.Prelude.{◌≡◌, None, Some, true, false};
ghost use Rattle.cilk_types.specs.declared.fault.Fault.TheVariants.{TooManyEvents};
ghost use Rattle.cilk_program.specs.Syntax.{Source};
ghost use Rattle.cilk_program.specs.declared.ask.Callee.{Callee};
ghost use Rattle.cilk_program.specs.SerialRun.{Memory, cells_of, crowded, full};
ghost use Rattle.cilk_serial.specs.States.{Shows};

use crate::state::State;
use cilk_types::fault::Fault;
use cilk_types::limits::{MAX_CELLS, MAX_EVENTS, MAX_FRAMES};

// Returns whether the run has as many events as it may have.
#[inline(always)]
fn is_full(state: &State) -> bool
    ensures full { result ≡ true → (m : Memory) → Shows state.now m → full m ≡ Some TooManyEvents }
    ensures room { result ≡ false → (m : Memory) → Shows state.now m → full m ≡ None }
{
    state.events.len() >= MAX_EVENTS as usize
}

/// Returns the fault that replaces one more frame with `cells` cells, if any.
pub fn crowded(state: &State, cells: u32) -> Option<Fault>
    ensures { (p : Source) (callee : Callee) (m : Memory) → cells ≡ cells_of p callee → Shows state.now m → result ≡ crowded p callee m }
{
    if is_full(state) {
        return Some(Fault::TooManyEvents);
    }
    if state.frames >= MAX_FRAMES {
        return Some(Fault::TooManyFrames);
    }
    if state.cells.len() + cells as usize > MAX_CELLS as usize {
        return Some(Fault::TooManyCells);
    }
    None
}

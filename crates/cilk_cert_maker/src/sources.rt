//! Finds the source of each read: the last earlier write of its cell.

ghost use Rattle.std.specs.Prelude.{◌≡◌, ◌+◌, ◌≤◌, ℕ, List, Some, IfOk, length, slice_get, slice_index};
ghost use Rattle.cilk_types.specs.declared.event.Event.{Event};
ghost use Rattle.cilk_cert_maker.specs.Sources.{AllFit, AreLast, Fits};

use cilk_types::event::{Cell, Event, Pos};
use std::alloc::{AllocError, Global};

/// The position of the last write of each cell so far, 0 if there is none.
#[derive(Drop)]
pub struct LastWrites {
    pub positions: Vec<Pos>,
}

impl LastWrites {
    /// Returns the state before the first event. Only cells below `cells` may be written later; see
    /// [`cells_written`].
    pub fn new(alloc: Global, cells: usize) -> Result<LastWrites, AllocError>
        ensures none { (es : List Event) → IfOk result (λ w. AreLast es 0 w.positions.items) }
        ensures cells { IfOk result (λ w. length w.positions.items ≡ cells) }
    {
        let mut positions = Vec::new(alloc);
        positions.resize(cells, 0)?;
        Ok(LastWrites { positions })
    }

    /// Returns the position of the cell's last write, 0 if there is none.
    pub fn of(&self, cell: Cell) -> Pos
        ensures { result ≡ slice_index self.now.positions.items cell }
    {
        match self.positions.as_slice().get(cell as usize) {
            Some(position) => *position,
            None => 0,
        }
    }

    /// Records the event at a position. Positions count from 1.
    pub fn meet(&mut self, event: &Event, at: Pos)
        requires { Fits (length self.old.positions.items) event.now }
        ensures last { (es : List Event) (n : ℕ) → AreLast es n self.old.positions.items → slice_get es n ≡ Some event.now → at ≡ n + 1 → AreLast es (n + 1) self.new.positions.items }
        ensures cells { length self.new.positions.items ≡ length self.old.positions.items }
    {
        if let Event::Write { cell, .. } = *event {
            self.positions[cell as usize] = at;
        }
    }
}

/// Returns the number of cells up to the last one that an event writes.
pub fn cells_written(events: &[Event]) -> usize
    ensures fit { AllFit result events.now }
    ensures least { (n : ℕ) → AllFit n events.now → result ≤ n }
{
    let mut cells: usize = 0;
    for event in events {
        let needed = cells_in(event);
        if needed > cells {
            cells = needed;
        }
    }
    cells
}

fn cells_in(event: &Event) -> usize
    ensures fit { Fits result event.now }
    ensures least { (n : ℕ) → Fits n event.now → result ≤ n }
{
    match *event {
        Event::Write { cell, .. } => cell as usize + 1,
        _ => 0,
    }
}

//! The accesses of each cell that a pass over a run's events keeps.

ghost use Rattle.std.specs.Prelude.{◌≡◌, ◌↔◌, ◌≤◌, ◌+◌, ◌<◌, ℕ, length, slice_get, slice_index_or, slice_set, replicate, IfNone, IfOk, IfSome};
ghost use Rattle.cilk_types.specs.declared.event.Event.{Event};
ghost use Rattle.cilk_cells.specs.Keeping.{greater_of, racing_with, kept_after, answer_at, untouched, Fits};

use cilk_types::event::{Cell, Event, Pos};
use std::alloc::{AllocError, Global};

/// An access of a cell: its strand's Hebrew number and its position. Both count from 1.
#[derive(Clone, Copy)]
pub struct Access {
    pub hebrew: u32,
    pub at: Pos,
}

impl Access {
    /// No access.
    pub const NONE: Access = Access { hebrew: 0, at: 0 };
}

/// The write and the access of a cell that have the greatest Hebrew number; at equal numbers the
/// earliest.
#[derive(Clone, Copy)]
pub struct Kept {
    pub write: Access,
    pub access: Access,
}

/// The kept accesses of each cell.
#[derive(Drop)]
pub struct Histories {
    pub cells: Vec<Kept>,
}

impl Histories {
    /// Makes the histories of `cells` cells, with no access yet.
    pub fn new(alloc: Global, cells: usize) -> Result<Histories, AllocError>
        ensures { IfOk result (λ h. h.cells.items ≡ replicate cells untouched) }
    {
        let nothing = Kept {
            write: Access::NONE,
            access: Access::NONE,
        };
        let mut kept = Vec::new(alloc);
        kept.resize(cells, nothing)?;
        Ok(Histories { cells: kept })
    }

    /// Records an event, and returns the position of the kept access that races with it, if there
    /// is one.
    #[inline(always)]
    pub fn meet(&mut self, event: &Event, here: Access) -> Option<Pos>
        requires { Fits (length self.old.cells.items) event.now }
        ensures answer { result ≡ answer_at event.now here.hebrew self.old.cells.items }
        ensures kept { self.new.cells.items ≡ kept_after event.now here self.old.cells.items }
    {
        match *event {
            Event::Read { cell, .. } => {
                let kept = &mut self.cells[cell as usize];
                let race = racing(kept.write, here.hebrew);
                keep(&mut kept.access, here);
                race
            }
            Event::Write { cell, .. } => {
                let kept = &mut self.cells[cell as usize];
                let race = racing(kept.access, here.hebrew);
                keep(&mut kept.write, here);
                keep(&mut kept.access, here);
                race
            }
            _ => None,
        }
    }
}

// Returns the position of the kept access if its Hebrew number is greater than `hebrew`.
#[inline(always)]
fn racing(kept: Access, hebrew: u32) -> Option<Pos>
    ensures { result ≡ racing_with kept hebrew }
{
    if hebrew < kept.hebrew {
        return Some(kept.at);
    }
    None
}

// Keeps an access if its Hebrew number is greater than that of the kept one.
#[inline(always)]
fn keep(kept: &mut Access, here: Access)
    ensures { kept.new ≡ greater_of kept.old here }
{
    if kept.hebrew < here.hebrew {
        *kept = here;
    }
}

/// Returns the number of cells that the events name: the least number above all cells they access.
pub fn cells_of(events: &[Event]) -> usize
    ensures room { (k : ℕ) (e : Event) → k < length events.now → Fits result (slice_index_or events.now k e) }
    ensures least { (n : ℕ) → ((k : ℕ) (e : Event) → k < length events.now → Fits n (slice_index_or events.now k e)) → result ≤ n }
{
    let mut cells: usize = 0;
    for event in events {
        if let Some(cell) = cell_of(event) {
            if cell as usize >= cells {
                cells = cell as usize + 1;
            }
        }
    }
    cells
}

// Returns the cell that an event reads or writes.
#[inline(always)]
fn cell_of(event: &Event) -> Option<Cell>
    ensures some { IfSome result (λ cell. (n : ℕ) → Fits n event.now ↔ (cell < n)) }
    ensures none { IfNone result ((n : ℕ) → Fits n event.now) }
{
    match *event {
        Event::Read { cell, .. } => Some(cell),
        Event::Write { cell, .. } => Some(cell),
        _ => None,
    }
}

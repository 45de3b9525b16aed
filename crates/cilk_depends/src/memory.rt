//! The sets of cells and of views.

use crate::graph::Node;
use cilk_types::event::{Cell, Instance};
use cilk_types::limits::MAX_CELLS;
use std::alloc::{AllocError, Global};

/// A reducer of a frame, the set of its view, and the next one of that frame, from 1; 0 for none.
#[derive(Clone, Copy)]
struct View {
    place: u32,
    set: Node,
    next: usize,
}

/// The sets of cells by number, and of views by frame.
#[derive(Drop)]
pub struct Memory {
    cells: Vec<Node>,
    heads: Vec<usize>,
    views: Vec<View>,
}

impl Memory {
    /// Begins with empty sets.
    pub fn new(alloc: Global) -> Memory {
        Memory {
            cells: Vec::new(alloc),
            heads: Vec::new(alloc),
            views: Vec::new(alloc),
        }
    }

    /// Returns the set of a cell.
    pub fn cell(&self, cell: Cell) -> Node {
        match self.cells.get(cell as usize) {
            Some(set) => *set,
            None => 0,
        }
    }

    /// Gives a cell this set.
    pub fn write(&mut self, cell: Cell, set: Node) -> Result<(), AllocError> {
        let place = cell as usize;
        if place >= self.cells.len() {
            if set == 0 || cell >= MAX_CELLS {
                return Ok(());
            }
            let more = place.saturating_sub(self.cells.len());
            for _cell in 0..more.saturating_add(1) {
                self.cells.push(0)?;
            }
        }
        if let Some(kept) = self.cells.get_mut(place) {
            *kept = set;
        }
        Ok(())
    }

    // The place of a reducer's view, if it has one.
    fn find(&self, instance: Instance) -> Option<usize> {
        let mut next = match self.heads.get(instance.frame as usize) {
            Some(head) => *head,
            None => 0,
        };
        for _view in 0..self.views.len() {
            let place = next.checked_sub(1)?;
            let view = self.views.get(place)?;
            if view.place == instance.place {
                return Some(place);
            }
            next = view.next;
        }
        None
    }

    /// Returns the set of a reducer's view.
    pub fn view(&self, instance: Instance) -> Node {
        match self.find(instance) {
            Some(place) => match self.views.get(place) {
                Some(view) => view.set,
                None => 0,
            },
            None => 0,
        }
    }

    /// Gives a reducer's view this set.
    pub fn set_view(&mut self, instance: Instance, set: Node) -> Result<(), AllocError> {
        if let Some(place) = self.find(instance) {
            if let Some(view) = self.views.get_mut(place) {
                view.set = set;
            }
            return Ok(());
        }
        if set == 0 {
            return Ok(());
        }
        let frame = instance.frame as usize;
        for _frame in self.heads.len()..frame.saturating_add(1) {
            self.heads.push(0)?;
        }
        if let Some(head) = self.heads.get_mut(frame) {
            self.views.push(View {
                place: instance.place,
                set,
                next: *head,
            })?;
            *head = self.views.len();
        }
        Ok(())
    }
}

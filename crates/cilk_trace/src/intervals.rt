//! The spawned children of a trace that no sync has joined, line by line, as intervals of lines.

ghost use Rattle.std.specs.Prelude.{◌≡◌, ◌+◌, ◌<◌, ◌≤◌, ◌^◌, ◌++◌, ◌∷◌, [], List, length, nat_le, IfOk};
ghost use Rattle.cilk_trace.specs.declared.line.Line as traces;
ghost use Rattle.cilk_trace.specs.Joined.{stack_at};
ghost use Rattle.cilk_trace.specs.Opened.{opening};
ghost use Rattle.cilk_trace.specs.IntervalStacks.{IsAscending, after_called, after_enter, after_spawned, after_sync, is_among, order_at, pushed, stack_after, stack_of};

use crate::line::Line;
use cilk_types::stack::Stack;
use std::alloc::{AllocError, Global};
use std::marker::Model;

/// A spawned child: its lines are those after `enter`, up to and with `spawned`.
#[derive(Clone, Copy)]
pub struct Child {
    pub enter: u32,
    pub spawned: u32,
}

/// A frame outside the innermost one, in which the frame inside it was entered at `enter`. The
/// children from `mark` on are its own and those of the frames inside it.
#[derive(Clone, Copy)]
pub struct OpenFrame {
    pub enter: u32,
    pub mark: usize,
}

/// How an earlier line is to the current strand.
#[derive(Clone, Copy)]
pub enum Order {
    /// It is in an earlier strand, in series with the current one; or there is no line.
    Series,
    /// It is in the current strand.
    Same,
    /// It is in a strand parallel to the current one.
    Parallel,
}

/// The children that no sync has joined, and the frames that are open. Lines count from 0.
///
/// An earlier line that enters no frame is parallel to the current strand exactly where it is in one of
/// the children, and of the current strand exactly where it isn't before `first` (laws:
/// `interval_laws`). Children that follow each other at once are one. Memory: 8 bytes for each child, 16
/// for each open frame.
#[derive(Drop)]
pub struct Intervals {
    children: Vec<Child>,
    frames: Stack<OpenFrame>,
    mark: usize,
    first: u32,
}

impl Model for Intervals {
    ghost use Rattle.cilk_trace.specs.IntervalStacks.{IntervalStack};

    ghost Value = { IntervalStack };

    ghost view = { λ s. record { children = s.children.items; frames = s.frames; mark = s.mark; first = s.first } };
}

impl Intervals {
    /// Makes the intervals of no line.
    pub fn new(alloc: Global) -> Intervals
        ensures { result ≡ stack_of opening }
    {
        Intervals {
            children: Vec::new(alloc),
            frames: Stack::new(alloc),
            mark: 0,
            first: 0,
        }
    }

    /// Takes the next line, of index `at`.
    pub fn meet(&mut self, at: u32, line: &Line) -> Result<(), AllocError>
        requires { at + 1 < 2 ^ 32 }
        ensures { IfOk result (λ _. (done : List traces.Line) → length done ≡ at → self.old ≡ stack_at done → self.new ≡ stack_at (done ++ line.now ∷ [])) }
    {
        self.take(at, line)
    }

    fn take(&mut self, at: u32, line: &Line) -> Result<(), AllocError>
        requires { at + 1 < 2 ^ 32 }
        ensures { IfOk result (λ _. self.new ≡ stack_after at line.now self.old) }
    {
        match *line {
            Line::Enter { .. } => self.enter(at),
            Line::Spawned => self.end_spawned(at),
            Line::Called => {
                self.end_called(at);
                Ok(())
            }
            Line::Sync => {
                self.sync(at);
                Ok(())
            }
            Line::End => {
                self.sync(at);
                Ok(())
            }
            _ => Ok(()),
        }
    }

    fn enter(&mut self, at: u32) -> Result<(), AllocError>
        requires { at + 1 < 2 ^ 32 }
        ensures { IfOk result (λ _. self.new ≡ after_enter at self.old) }
    {
        self.frames.push(OpenFrame {
            enter: at,
            mark: self.mark,
        })?;
        self.mark = self.children.len();
        self.first = at + 1;
        Ok(())
    }

    // The children of the innermost frame are joined.
    fn sync(&mut self, at: u32)
        requires { at + 1 < 2 ^ 32 }
        ensures { self.new ≡ after_sync at self.old }
    {
        self.children.truncate(self.mark);
        self.first = at + 1;
    }

    fn end_called(&mut self, at: u32)
        requires { at + 1 < 2 ^ 32 }
        ensures { self.new ≡ after_called at self.old self.old.frames }
    {
        self.sync(at);
        if let Some(frame) = self.frames.pop() {
            self.mark = frame.mark;
        }
    }

    fn end_spawned(&mut self, at: u32) -> Result<(), AllocError>
        requires { at + 1 < 2 ^ 32 }
        ensures { IfOk result (λ _. self.new ≡ after_spawned at self.old self.old.frames) }
    {
        self.sync(at);
        if let Some(frame) = self.frames.pop() {
            self.mark = frame.mark;
            return self.push(Child {
                enter: frame.enter,
                spawned: at,
            });
        }
        Ok(())
    }

    // Adds a child of the innermost frame. The child before it is joined to it, if that ended at the line
    // before, as a loop's turns do.
    fn push(&mut self, child: Child) -> Result<(), AllocError>
        ensures { IfOk result (λ _. self.new ≡ record self.old { children = pushed self.old.mark child self.old.children }) }
    {
        let count = self.children.len();
        let mut joined = child;
        if self.mark < count {
            let last = self.children[count - 1];
            if last.spawned < child.enter && last.spawned + 1 == child.enter {
                joined.enter = last.enter;
                self.children.truncate(count - 1);
            }
        }
        self.children.push(joined)?;
        Ok(())
    }

    // Returns whether a line is in one of the children.
    fn has(&self, line: u32) -> bool
        ensures { IsAscending self.now.children → result ≡ is_among self.now.children line }
    {
        let mut low: usize = 0;
        let mut high: usize = self.children.len();
        while low < high {
            let middle = low + (high - low) / 2;
            if line <= self.children[middle].spawned {
                high = middle;
            } else {
                low = middle + 1;
            }
        }
        low < self.children.len() && self.children[low].enter < line
    }

    /// Returns how the line at a position, from 1, is to the current strand; position 0 is none.
    pub fn order(&self, position: u32) -> Order
        ensures { IsAscending self.now.children → result ≡ order_at self.now position }
    {
        if position == 0 {
            return Order::Series;
        }
        let line = position - 1;
        if line >= self.first {
            return Order::Same;
        }
        if self.has(line) {
            Order::Parallel
        } else {
            Order::Series
        }
    }

    /// Returns whether a position is before the current strand, or 0.
    pub fn is_before(&self, position: u32) -> bool
        ensures { result ≡ nat_le position self.now.first }
    {
        position <= self.first
    }
}

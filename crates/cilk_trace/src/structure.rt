//! The structure of a trace: its marks, from its lines one by one.

ghost use Rattle.std.specs.Prelude.{◌≡◌, IfOk, None, Some, false, set, ◌+◌, ◌<◌, ◌≤◌, length};
ghost use Rattle.cilk_trace.specs.Structures.{closed, entered, marks_in, noting, opening, over};

use crate::line::Line;
use cilk_tree::mark::Mark;
use cilk_types::stack::Stack;
use std::alloc::{AllocError, Global};
use std::marker::Model;

/// The most marks of a trace.
pub const MAX_MARKS: usize = 1_073_741_824;

/// Whether a line may come after those before it.
#[derive(Clone, Copy)]
pub enum Placing {
    Fits,
    /// No trace has this line here.
    Misplaced,
    /// The trace would have more than [`MAX_MARKS`] marks.
    TooMany,
}

/// The marks of a trace's lines so far.
///
/// A frame's kind is known only when it ends. So a frame is first noted as called, and its index
/// among the marks is kept until then. Memory: a byte for each mark, and 8 for each open frame.
#[derive(Drop)]
pub struct Structure {
    marks: Vec<Mark>,
    begun: Stack<usize>,
    ended: bool,
}

impl Model for Structure {
    ghost use Rattle.cilk_trace.specs.Structures.{Noted};
    ghost use Rattle.std.specs.Prelude.{◌≤◌, length};

    ghost Value = { Noted };

    ghost view = { λ s. record { marks = s.marks.items; begun = s.begun; ended = s.ended } };

    ghost invariant = { λ s. length s.marks.items ≤ 1073741824 };
}

// How many marks a line has.
fn marks_in(line: &Line) -> usize
    ensures { result ≡ marks_in line.now }
{
    match *line {
        Line::Spawned | Line::Called => 3,
        Line::Enter { .. } | Line::End => 2,
        Line::Sync => 1,
        _ => 0,
    }
}

impl Structure {
    /// Makes the structure of no line: the root has begun.
    pub fn new(alloc: Global) -> Result<Structure, AllocError>
        ensures { IfOk result (λ s. s ≡ opening) }
    {
        let mut marks = Vec::new(alloc);
        marks.push(Mark::Begin)?;
        Ok(Structure {
            marks,
            begun: Stack::new(alloc),
            ended: false,
        })
    }

    /// Takes the next line.
    pub fn meet(&mut self, line: &Line) -> Result<Placing, AllocError>
        ensures fits { IfOk result (λ p. p ≡ Placing.Fits → noting line.now self.old ≡ Some self.new) }
        ensures misplaced { IfOk result (λ p. p ≡ Placing.Misplaced → noting line.now self.old ≡ None) }
        ensures too_many { IfOk result (λ p. p ≡ Placing.TooMany → 1073741824 < length self.old.marks + marks_in line.now) }
        ensures few { IfOk result (λ p. p ≡ Placing.Fits → length self.old.marks + marks_in line.now ≤ 1073741824) }
    {
        if self.ended {
            return Ok(Placing::Misplaced);
        }
        if self.marks.len() + marks_in(line) > MAX_MARKS {
            return Ok(Placing::TooMany);
        }
        match *line {
            Line::Enter { .. } => self.enter(),
            Line::Spawned => self.close(Mark::Spawn),
            Line::Called => self.close(Mark::Call),
            Line::Sync => {
                self.marks.push(Mark::Sync)?;
                Ok(Placing::Fits)
            }
            Line::End => self.end(),
            _ => Ok(Placing::Fits),
        }
    }

    fn enter(&mut self) -> Result<Placing, AllocError>
        requires { length self.old.marks + 2 ≤ 1073741824 }
        ensures { IfOk result (λ p. (p ≡ Placing.Fits) × (self.new ≡ entered self.old)) }
    {
        self.begun.push(self.marks.len())?;
        self.marks.push(Mark::Call)?;
        self.marks.push(Mark::Begin)?;
        Ok(Placing::Fits)
    }

    // The innermost frame ends, and `how` started it.
    fn close(&mut self, how: Mark) -> Result<Placing, AllocError>
        requires { length self.old.marks + 3 ≤ 1073741824 }
        ensures fits { IfOk result (λ p. p ≡ Placing.Fits → closed how self.old self.old.begun ≡ Some self.new) }
        ensures misplaced { IfOk result (λ p. p ≡ Placing.Misplaced → closed how self.old self.old.begun ≡ None) }
        ensures not_many { IfOk result (λ p. p ≡ Placing.TooMany → ⊥) }
    {
        let Some(place) = self.begun.pop() else {
            return Ok(Placing::Misplaced);
        };
        self.put(place, how);
        self.marks.push(Mark::Sync)?;
        self.marks.push(Mark::End)?;
        self.marks.push(Mark::Resume)?;
        Ok(Placing::Fits)
    }

    fn put(&mut self, place: usize, mark: Mark)
        ensures { self.new ≡ record self.old { marks = set self.old.marks place mark } }
    {
        if place < self.marks.len() {
            self.marks[place] = mark;
        }
    }

    fn end(&mut self) -> Result<Placing, AllocError>
        requires { length self.old.marks + 2 ≤ 1073741824 }
        ensures fits { IfOk result (λ p. p ≡ Placing.Fits → over self.old self.old.begun ≡ Some self.new) }
        ensures misplaced { IfOk result (λ p. p ≡ Placing.Misplaced → over self.old self.old.begun ≡ None) }
        ensures not_many { IfOk result (λ p. p ≡ Placing.TooMany → ⊥) }
    {
        if !self.begun.is_empty() {
            return Ok(Placing::Misplaced);
        }
        self.marks.push(Mark::Sync)?;
        self.marks.push(Mark::End)?;
        self.ended = true;
        Ok(Placing::Fits)
    }

    /// Returns the marks so far.
    pub fn marks(&self) -> &[Mark]
        ensures marks { result.now ≡ self.now.marks }
        ensures few { length result.now ≤ 1073741824 }
    {
        &self.marks
    }
}

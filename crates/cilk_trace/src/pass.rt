//! The pass over a trace's lines that looks for races of accesses.

ghost use Rattle.std.specs.Prelude.{◌≡◌, ◌<◌, ◌++◌, ◌∷◌, [], ℕ, List, suc, length, IfOk, IfSome, IfNone};
ghost use Rattle.cilk_tree.specs.Shape.{Shape, SpellsMarks};
ghost use Rattle.cilk_tree.specs.Tree.{tree};
ghost use Rattle.cilk_trace.specs.declared.line.Line.{Line};
ghost use Rattle.cilk_trace.specs.Accesses.{IsFirstTraceRace};
ghost use Rattle.cilk_trace.specs.Frames.{Nests};
ghost use Rattle.cilk_trace.specs.IntervalStacks.{IsAscending};
ghost use Rattle.cilk_trace.specs.Marks.{marks_of};
ghost use Rattle.cilk_trace.specs.Pages.{AreMet, IsLeastRace, positions_of};
ghost use Rattle.cilk_trace.specs.Passes.{Does, IsBefore, IsIdle};

use crate::histories::{Histories, Kind};
use crate::intervals::Intervals;
use crate::line::{Cells, Line};
use cilk_types::event::Pos;
use std::alloc::{AllocError, Global};

/// What a line is to the pass.
#[derive(Clone, Copy)]
pub enum Met {
    /// No race ends here.
    Clean,
    /// The line races with this earlier position, and no line before it races with one.
    Race(Pos),
}

/// A pass over a trace's lines: what is kept of its cells, and the children that no sync has joined.
#[derive(Drop)]
pub struct Pass {
    histories: Histories,
    intervals: Intervals,
}

/// What a line does to its cells, if it has some.
fn deed(line: &Line) -> Option<(Kind, Cells)>
    ensures does { IfSome result (λ d. Does line.now d.0 d.1) }
    ensures idle { IfNone result (IsIdle line.now) }
{
    match *line {
        Line::Read { cells, .. } => Some((Kind::Read, cells)),
        Line::Write { cells, .. } => Some((Kind::Write, cells)),
        Line::Clear { cells } => Some((Kind::Clear, cells)),
        _ => None,
    }
}

impl Pass {
    /// Makes a pass over no line.
    pub fn new(alloc: Global) -> Pass
        ensures { (s : Shape) (more : List Line) → Nests 0 more → SpellsMarks s (marks_of more) → IsBefore s [] more result.intervals (positions_of result.histories.pages.items) }
    {
        Pass {
            histories: Histories::new(alloc),
            intervals: Intervals::new(alloc),
        }
    }

    /// Takes the next line, whose position is `here`.
    pub fn meet(&mut self, here: Pos, line: &Line) -> Result<Met, AllocError>
        requires { 0 < here }
        ensures clean { IfOk result (λ m. m ≡ Met.Clean → (s : Shape) (done more : List Line) → here ≡ suc (length done)
            → IsBefore s done (line.now ∷ more) self.old.intervals (positions_of self.old.histories.pages.items)
            → IsBefore s (done ++ line.now ∷ []) more self.new.intervals (positions_of self.new.histories.pages.items)) }
        ensures race { IfOk result (λ m. (p : ℕ) → m ≡ Met.Race p → (s : Shape) (done more : List Line) → here ≡ suc (length done)
            → IsBefore s done (line.now ∷ more) self.old.intervals (positions_of self.old.histories.pages.items)
            → IsFirstTraceRace (tree s) (done ++ line.now ∷ more) p here) }
    {
        match deed(line) {
            Some((kind, cells)) => self.touch(kind, cells, here),
            None => {
                self.intervals.meet(here - 1, line)?;
                Ok(Met::Clean)
            }
        }
    }

    // Takes a line that accesses or clears cells.
    fn touch(&mut self, kind: Kind, cells: Cells, here: Pos) -> Result<Met, AllocError>
        ensures clean { IfOk result (λ m. m ≡ Met.Clean → IsAscending self.old.intervals.children
            → IsLeastRace self.old.intervals kind cells (positions_of self.old.histories.pages.items) 0
            × AreMet self.old.intervals kind here cells (positions_of self.old.histories.pages.items) (positions_of self.new.histories.pages.items)) }
        ensures race { IfOk result (λ m. (p : ℕ) → m ≡ Met.Race p → (0 < p) × (IsAscending self.old.intervals.children → IsLeastRace self.old.intervals kind cells (positions_of self.old.histories.pages.items) p)) }
        ensures same { self.new.intervals ≡ self.old.intervals }
    {
        let raced = self.histories.meet(kind, cells, here, &self.intervals)?;
        if raced == 0 {
            Ok(Met::Clean)
        } else {
            Ok(Met::Race(raced))
        }
    }
}

//! The survey of a trace: its structure, and its reads of reducers' views.

ghost use Rattle.std.specs.Prelude.{◌≡◌, ◌∷◌, ◌++◌, ◌+◌, ◌<◌, ◌^◌, [], List, IfOk, OnOk, true};
ghost use Rattle.cilk_trace.specs.Accesses.{begun_in};

use crate::births::{Birth, Births};
use crate::line::Line;
use crate::structure::{Placing, Structure};
use crate::views::{ViewRace, ViewRead, first_apart};
use cilk_peers::walk::classes;
use cilk_tree::building::tree_of_marks;
use cilk_types::event::{Pos, StrandNo};
use std::alloc::{AllocError, Global};

/// The survey of a trace's lines so far: their structure, the reducers that are alive, the reads of
/// views by other strands than the creator's, the current strand, and the number of lines.
///
/// Memory: a byte for each mark, 8 for each open frame, some 24 for each reducer that is alive, and 16
/// for each such read.
#[derive(Drop)]
pub struct Survey {
    structure: Structure,
    births: Births,
    reads: Vec<ViewRead>,
    strand: StrandNo,
    count: Pos,
}

/// Whether a line may come after those before it.
#[derive(Clone, Copy)]
pub enum Surveyed {
    Fits,
    /// No trace within the limits has this line here: of fewer than 2^32 lines and at most 2^30 marks.
    Misplaced,
}

/// How many strands a line begins.
fn begun(line: &Line) -> u32
    ensures { result ≡ begun_in line.now }
{
    match *line {
        Line::Spawned | Line::Called => 2,
        Line::Enter { .. } | Line::Sync | Line::End => 1,
        _ => 0,
    }
}

impl Survey {
    ghost use Rattle.cilk_tree.specs.Shape.{Shape, SpellsMarks};
    ghost use Rattle.cilk_tree.specs.Tree.{tree};
    ghost use Rattle.cilk_trace.specs.declared.line.Line.{Line};
    ghost use Rattle.cilk_trace.specs.Marks.{marks_of};
    ghost use Rattle.cilk_trace.specs.Surveys.{IsSurvey, IsTrace, KeepsLimits};
    ghost use Rattle.cilk_trace.specs.Views.{reads_by, view_race};

    /// Makes the survey of no line.
    pub fn new(alloc: Global) -> Result<Survey, AllocError>
        ensures { IfOk result (λ v. IsSurvey [] v) }
    {
        Ok(Survey {
            structure: Structure::new(alloc)?,
            births: Births::new(alloc),
            reads: Vec::new(alloc),
            strand: 1,
            count: 0,
        })
    }

    /// Takes the next line.
    pub fn meet(&mut self, line: &Line) -> Result<Surveyed, AllocError>
        ensures fits { IfOk result (λ p. p ≡ Surveyed.Fits → (ls : List Line) → IsSurvey ls self.old → IsSurvey (ls ++ line.now ∷ []) self.new) }
        ensures counted { IfOk result (λ p. p ≡ Surveyed.Fits → self.new.count ≡ self.old.count + 1) }
        ensures misplaced { IfOk result (λ p. p ≡ Surveyed.Misplaced → (ls more : List Line) → IsSurvey ls self.old → KeepsLimits (ls ++ line.now ∷ []) → IsTrace (ls ++ line.now ∷ more) → ⊥) }
    {
        if self.count == u32::MAX {
            return Ok(Surveyed::Misplaced);
        }
        let here = Birth {
            strand: self.strand,
            at: self.count + 1,
        };
        let Some(set) = self.births.meet(line, here)? else {
            return Ok(Surveyed::Misplaced);
        };
        match self.structure.meet(line)? {
            Placing::Fits => {}
            Placing::Misplaced => return Ok(Surveyed::Misplaced),
            Placing::TooMany => return Ok(Surveyed::Misplaced),
        }
        self.note(set, here)?;
        self.strand = self.strand.saturating_add(begun(line));
        self.count += 1;
        Ok(Surveyed::Fits)
    }

    // Notes a read of a view, if it isn't of the strand that set the view.
    fn note(&mut self, set: Birth, here: Birth) -> Result<(), AllocError>
        ensures reads { OnOk result (self.new.reads.items ≡ self.old.reads.items ++ reads_by set here) }
        ensures same { OnOk result ((self.new.structure ≡ self.old.structure) × (self.new.births ≡ self.old.births) × (self.new.strand ≡ self.old.strand) × (self.new.count ≡ self.old.count)) }
    {
        if set.strand != here.strand {
            self.reads.push(ViewRead { set, here })?;
        }
        Ok(())
    }

    /// Returns the number of lines so far.
    pub fn count(&self) -> Pos
        ensures { result ≡ self.now.count }
    {
        self.count
    }

    /// Returns the first view-read race of a whole trace. Where another strand than a reducer's
    /// creator reads its view, that takes some 30 bytes a strand.
    pub fn view_race(&self, alloc: Global) -> Result<Option<ViewRace>, AllocError>
        ensures { IfOk result (λ o. (ls : List Line) → IsSurvey ls self.now → self.now.structure.ended ≡ true → (s : Shape) → SpellsMarks s (marks_of ls) → o ≡ view_race (tree s) self.now.reads.items) }
    {
        if self.reads.is_empty() {
            return Ok(None);
        }
        let tree = tree_of_marks(alloc, self.structure.marks())?;
        Ok(first_apart(&self.reads, &classes(alloc, &tree)?))
    }
}

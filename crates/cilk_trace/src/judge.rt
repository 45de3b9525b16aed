//! The judgement of a trace, in one reading: is it a trace, and which two of its lines race?

ghost use Rattle.std.specs.Prelude.{◌≡◌, ◌∷◌, ◌++◌, ◌+◌, ◌<◌, ◌^◌, [], List, IfOk, OnOk, suc, length, true};
ghost use Rattle.cilk_trace.specs.Unseen.{unseen_by};

use crate::line::Line;
use crate::pass::{Met, Pass};
use crate::survey::{Survey, Surveyed};
use cilk_types::event::Pos;
use std::alloc::{AllocError, Global};

/// The positions of two accesses that race. Positions count lines from 1, without the header.
#[derive(Clone, Copy)]
pub struct Race {
    pub earlier: Pos,
    pub later: Pos,
}

/// The verdict on a trace. Positions count lines from 1, without the header.
#[derive(Clone, Copy)]
pub enum Verdict {
    /// No two lines race, and this many are `unseen`.
    RaceFree(u32),
    /// The first race of accesses.
    Race(Pos, Pos),
    /// The first view-read race, where no accesses race.
    ViewRace(Pos, Pos),
}

/// The judgement of a trace's lines so far: their survey, the pass over their accesses, the first race
/// of these, and how many lines are `unseen`.
///
/// It continues after a race, so that the first line that may not come is found, too.
#[derive(Drop)]
pub struct Judge {
    survey: Survey,
    pass: Pass,
    race: Option<Race>,
    unseen: u32,
}

// The lines `unseen` so far and this one, if it is one. The count stops at the greatest number.
fn counted(unseen: u32, line: &Line) -> u32
    ensures { unseen + unseen_by line.now < 2 ^ 32 → result ≡ unseen + unseen_by line.now }
{
    match *line {
        Line::Unseen { .. } => unseen.saturating_add(1),
        _ => unseen,
    }
}

impl Judge {
    ghost use Rattle.cilk_trace.specs.declared.line.Line.{Line};
    ghost use Rattle.cilk_trace.specs.Surveys.{IsTrace, KeepsLimits};
    ghost use Rattle.cilk_trace.specs.Judging.{IsAccessed, IsJudged, IsJudging};

    /// Makes the judgement of no line.
    pub fn new(alloc: Global) -> Result<Judge, AllocError>
        ensures { IfOk result (λ j. IsJudging [] j) }
    {
        Ok(Judge {
            survey: Survey::new(alloc)?,
            pass: Pass::new(alloc),
            race: None,
            unseen: 0,
        })
    }

    /// Takes the next line.
    pub fn meet(&mut self, line: &Line) -> Result<Surveyed, AllocError>
        ensures fits { IfOk result (λ p. p ≡ Surveyed.Fits → (done : List Line) → IsJudging done self.old → IsJudging (done ++ line.now ∷ []) self.new) }
        ensures misplaced { IfOk result (λ p. p ≡ Surveyed.Misplaced → (done more : List Line) → IsJudging done self.old → KeepsLimits (done ++ line.now ∷ []) → IsTrace (done ++ line.now ∷ more) → ⊥) }
    {
        match self.survey.meet(line)? {
            Surveyed::Fits => {}
            Surveyed::Misplaced => return Ok(Surveyed::Misplaced),
        }
        self.unseen = counted(self.unseen, line);
        self.access(line)?;
        Ok(Surveyed::Fits)
    }

    // Takes the line as an access, if no race was met. Its position is the number of lines surveyed.
    fn access(&mut self, line: &Line) -> Result<(), AllocError>
        requires { 0 < self.old.survey.count }
        ensures accessed { OnOk result (IsAccessed self.old self.new line.now) }
    {
        if let Some(_) = self.race {
            return Ok(());
        }
        let later = self.survey.count();
        if let Met::Race(earlier) = self.pass.meet(later, line)? {
            self.race = Some(Race { earlier, later });
        }
        Ok(())
    }

    /// Returns the verdict after the last line, the root's end.
    pub fn verdict(&self, alloc: Global) -> Result<Verdict, AllocError>
        ensures { IfOk result (λ v. (done : List Line) → IsJudging done self.now → self.now.survey.structure.ended ≡ true → IsJudged done v) }
    {
        if let Some(race) = self.race {
            return Ok(Verdict::Race(race.earlier, race.later));
        }
        match self.survey.view_race(alloc)? {
            Some(race) => Ok(Verdict::ViewRace(race.earlier, race.later)),
            None => Ok(Verdict::RaceFree(self.unseen)),
        }
    }
}

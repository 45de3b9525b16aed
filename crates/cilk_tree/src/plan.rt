//! The plan of a run.

ghost use Rattle.std.specs.Prelude.{◌≡◌, ◌↔◌, ℕ, ◌+◌, ◌<◌, ◌≤◌, ◌++◌, Option, Some, length, map, replicate, slice_index_or, slice_set, IfOk, IfSome, IsTrue, MatchOption};
ghost use Rattle.cilk_types.specs.declared.limits.TheConstants.{MAX_EVENTS};
ghost use Rattle.cilk_tree.specs.Before.{IsPosition};
ghost use Rattle.cilk_tree.specs.Orders.{IsOrderly};
ghost use Rattle.cilk_tree.specs.Runs.{IsAsked};
ghost use Rattle.cilk_tree.specs.Values.{HasValues};
ghost use Rattle.cilk_tree.specs.Word.{predecessors_of, event, resume, word_step, word, IsWord};
ghost use Rattle.cilk_tree.specs.Earliest.{earliest as earliest_of};
ghost use Rattle.cilk_tree.specs.Frames.{IsInFrame};
ghost use Rattle.cilk_tree.specs.Kinds.{kind_behind, kind_of_event, IsBehind};
ghost use Rattle.cilk_tree.specs.Planned.{planned, HasOneAhead, HasPlan};
ghost use Rattle.cilk_tree.specs.Resumptions.{AreResumptions};

use crate::event_columns::{EventColumns, event_columns};
use crate::kind::{Asked, Kind, events_of_words, words};
use crate::opening::first_words;
use cilk_types::event::{FrameNo, Pos};
use cilk_types::trace::Trace;
use std::alloc::{AllocError, Global};
use std::marker::Model;
use std::snapshot::Snapshot;

/// The plan of a run. It holds the kinds, frames and earliest predecessors of the run's events (0
/// where there is none), and no value of any event. In contracts it is the run's event order.
pub struct Plan {
    opening: Vec<i64>,
    words: Vec<u64>,
    kinds: Vec<Kind>,
    frames: Vec<FrameNo>,
    earliest: Vec<Pos>,
    events: Snapshot<Trace>,
}

// A function of its own, so that a proof follows one call where a plan is dropped.
impl Drop for Plan {
    fn drop(self) {
        let Plan {
            opening: _opening,
            words: _words,
            kinds: _kinds,
            frames: _frames,
            earliest: _earliest,
            events: _events,
        } = self;
    }
}

impl Model for Plan {
    ghost use Rattle.std.specs.Prelude.{◌≡◌, ◌≤◌, ◌+◌, ◌++◌, length, map, replicate};
    ghost use Rattle.cilk_tree.specs.Word.{word};
    ghost use Rattle.cilk_tree.specs.Kinds.{kind_of};
    ghost use Rattle.cilk_types.specs.declared.limits.TheConstants.{MAX_EVENTS};
    ghost use Rattle.cilk_tree.specs.declared.event_order.EventOrder.{EventOrder};
    ghost use Rattle.cilk_tree.specs.Orders.{IsOrderly};
    ghost use Rattle.cilk_tree.specs.Values.{HasValues};
    ghost use Rattle.cilk_tree.specs.Earliest.{all_earliest, number_of};
    ghost use Rattle.cilk_tree.specs.Frames.{AreFrames};
    ghost use Rattle.cilk_tree.specs.Planned.{planned};

    ghost Value = { EventOrder };

    ghost view = { λ p. planned p.events.value p.opening.items };

    ghost invariant = { λ p. IsOrderly (planned p.events.value p.opening.items) × HasValues (planned p.events.value p.opening.items) × (p.kinds.items ≡ map kind_of p.events.value) × (length p.events.value ≤ MAX_EVENTS) × (p.earliest.items ≡ map number_of (all_earliest p.events.value)) × AreFrames p.events.value p.frames.items × (p.words.items ≡ map word p.opening.items ++ replicate (length p.events.value + 1) 0) };
}

impl Plan {
    /// Makes the plan of the run of a trace whose cells open with these values. Cost and memory:
    /// linear in the events and cells.
    pub fn of(alloc: Global, trace: &Trace, opening: Vec<i64>) -> Result<Plan, AllocError>
        requires { HasPlan trace.now opening.items }
        ensures event_order { IfOk result (λ plan. plan ≡ planned trace.now opening.items) }
        ensures asked { IfOk result (λ plan. (p : ℕ) → IsPosition trace.now p → IsAsked plan p) }
    {
        words(opening.as_slice());
        events_of_words(trace);
        let words = first_words(alloc, opening.as_slice(), trace.len())?;
        let EventColumns {
            kinds,
            frames,
            earliest,
        } = event_columns(alloc, trace)?;
        Ok(Plan {
            opening,
            words,
            kinds,
            frames,
            earliest,
            events: Snapshot::of(trace),
        })
    }

    /// Returns the kind and frame of the event after the first `after` events, or `Nothing` past
    /// the last.
    pub fn next(&self, after: Pos) -> Asked
        ensures { IsBehind self.now after result }
    {
        let place = after as usize;
        if place < self.kinds.len() {
            Asked::Next {
                frame: self.frame_behind(place),
                kind: self.kind_behind(place),
            }
        } else {
            Asked::Nothing
        }
    }

    /// Returns the kind of the event after the first `after` events.
    pub(crate) fn kind_behind(&self, after: usize) -> Kind
        requires { after < length self.now.events }
        ensures { kind_behind self.now after ≡ Some result }
    {
        self.kinds[after]
    }

    /// Returns the frame of the event after the first `after` events.
    pub(crate) fn frame_behind(&self, after: usize) -> FrameNo
        requires { after < length self.now.events }
        ensures { IsInFrame self.now.events (after + 1) result }
    {
        self.frames[after]
    }

    /// Returns the earliest immediate predecessor of the event at a position, or `None` for the
    /// first event. A `sync` follows the event before it and the `end`s of the children spawned in
    /// its block.
    pub fn earliest_before(&self, at: Pos) -> Option<Pos>
        ensures { result ≡ earliest_of (predecessors_of self.now at) }
    {
        let first = number_in(&self.earliest, at.saturating_sub(1) as usize);
        if first == 0 { None } else { Some(first) }
    }

    /// Returns the spawn whose continuation is resumed at a position, if the event there is the
    /// `resume` after a spawn.
    pub fn resumed_by(&self, at: Pos) -> Option<Pos>
        ensures { (k : ℕ) → (result ≡ Some k) ↔ (word_step self.now at ≡ resume k) }
    {
        self.laws();
        let Some(Kind::Resume { .. }) = self.kind_at(at) else {
            return None;
        };
        let spawned = self.earliest_before(at)?;
        match self.kind_at(spawned) {
            Some(Kind::Spawn { .. }) => Some(spawned),
            _ => None,
        }
    }

    /// Tells whether the event at a position is a step on a word that threads share.
    pub fn is_word(&self, at: Pos) -> bool
        ensures { IsTrue result ↔ IsWord (word_step self.now at) }
    {
        match self.kind_at(at) {
            Some(Kind::Read { .. } | Kind::Write { .. } | Kind::Spawn { .. }) => true,
            Some(Kind::Resume { .. }) => self.resumed_by(at).is_some(),
            Some(Kind::End) => at as usize == self.kinds.len(),
            _ => false,
        }
    }

    /// Returns a column with the `resume` of each spawn at the spawn's position, and 0, which is no
    /// position, at all others. Cost and memory: linear in the events.
    pub fn resumptions(&self, alloc: Global) -> Result<Vec<Pos>, AllocError>
        ensures { IfOk result (λ column. AreResumptions self.now column.items) }
    {
        self.laws();
        let count = self.count();
        let mut column = Vec::with_capacity(alloc, count + 1)?;
        column.resize(count + 1, 0)?;
        for behind in 0..count {
            if let Kind::Resume { .. } = self.kinds[behind] {
                let at = behind as Pos + 1;
                note(&mut column, self.resumed_by(at), at);
            }
        }
        Ok(column)
    }

    // Returns the kind of the event at a position; position 0 gives the first.
    fn kind_at(&self, at: Pos) -> Option<Kind>
        ensures { result ≡ kind_of_event (event self.now at) }
    {
        self.kinds.get(at.saturating_sub(1) as usize).copied()
    }

    /// Returns the number of events of the run.
    pub fn count(&self) -> usize
        ensures events { result ≡ length self.now.events }
        ensures within { result ≤ MAX_EVENTS }
    {
        self.kinds.len()
    }

    /// Returns the opening values of the cells.
    pub fn opening(&self) -> &[i64]
        ensures { result.now ≡ self.now.opening }
    {
        self.opening.as_slice()
    }

    /// Returns the shared words at the start of the run: the cells' opening values as words, then a
    /// 0 for the end and one for each position.
    pub fn first_words(&self) -> &[u64]
        ensures { result.now ≡ map word self.now.opening ++ replicate (length self.now.events + 1) 0 }
    {
        self.words.as_slice()
    }

    /// The laws that the plan's event order obeys.
    pub fn laws(&self)
        ensures order { IsOrderly self.now }
        ensures values { HasValues self.now }
        ensures ahead { HasOneAhead self.now }
    {
        let _cells = self.opening.len();
    }
}

// Returns the number at a place, or 0 past the end.
fn number_in(column: &Vec<Pos>, place: usize) -> Pos
    ensures { result ≡ slice_index_or column.now.items place 0 }
{
    match column.get(place) {
        Some(number) => *number,
        None => 0,
    }
}

// Notes the `resume` at its spawn, if there is a spawn.
fn note(column: &mut Vec<Pos>, spawned: Option<Pos>, at: Pos)
    requires { IfSome spawned (λ place. place < length column.old.items) }
    ensures { MatchOption spawned (column.new.items ≡ column.old.items) (λ place. column.new.items ≡ slice_set column.old.items place at) }
{
    if let Some(place) = spawned {
        column[place as usize] = at;
    }
}

//! The serial run of a case, with its notes.

use crate::case::Case;
use crate::fault::CaseFault;
use crate::replay::{Replay, follow};
use cilk_lower::code::Code;
use cilk_lower::lower::lower;
use cilk_types::event::Event;
use cilk_types::outcome::Outcome;
use cilk_types::trace::Trace;

/// A run: its code, its events, its outcome, unless a fault stops it, and its notes.
pub struct Run {
    pub code: Code,
    pub trace: Trace,
    pub outcome: Option<Outcome>,
    pub replay: Replay,
}

// Written out, so that a proof follows one call where a run is dropped.
impl Drop for Run {
    fn drop(self) {
        let Run {
            code: _code,
            trace: _trace,
            outcome: _outcome,
            replay: _replay,
        } = self;
    }
}

impl Run {
    /// Makes the serial run of a case and its notes.
    pub fn of(case: &Case<'_>) -> Result<Run, CaseFault> {
        let code = lower(case.alloc, &case.program)?;
        let (trace, outcome, replay) = follow(
            case.alloc,
            &case.program,
            &code,
            &case.input,
            &case.map,
        )?;
        Ok(Run {
            code,
            trace,
            outcome,
            replay,
        })
    }

    /// Returns the code and the outcome, and frees the events and the notes.
    pub fn without_events(self) -> (Code, Option<Outcome>) {
        let Run {
            code,
            trace: _trace,
            outcome,
            replay: _replay,
        } = self;
        (code, outcome)
    }

    /// Returns the code, the events and the notes, and frees the outcome.
    pub fn without_outcome(self) -> (Code, Trace, Replay) {
        let Run {
            code,
            trace,
            outcome: _outcome,
            replay,
        } = self;
        (code, trace, replay)
    }

    /// Returns whether an event, counted from 0, is a child's result: a write that the end of its
    /// frame follows.
    pub fn gives_result(&self, index: usize) -> bool {
        matches!(self.event(index), Some(Event::Write { .. }))
            && matches!(self.event(index.saturating_add(1)), Some(Event::End))
    }

    /// Returns an event, counted from 0.
    pub fn event(&self, index: usize) -> Option<Event> {
        self.trace.as_slice().get(index).copied()
    }
}

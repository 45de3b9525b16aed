//! The two events of a race, and the frames that they are in.

use crate::beside::change_of;
use cilk_findings::scene::Scene;
use cilk_syntax::tree::Name;
use cilk_types::event::{Event, Instance};
use std::alloc::AllocError;

// The number of a determinacy race.
const DETERMINACY: u16 = 311;

/// A race as the checker reports it. Events count from 0.
#[derive(Clone, Copy)]
pub struct Race {
    pub number: u16,
    pub earlier: usize,
    pub later: usize,
}

impl Race {
    /// Returns a race whose events count from 1.
    pub fn of(number: u16, earlier: u64, later: u64) -> Race {
        Race {
            number,
            earlier: (earlier as usize).saturating_sub(1),
            later: (later as usize).saturating_sub(1),
        }
    }

    /// Returns whether two accesses of a cell race; otherwise a reducer is read or set.
    pub fn is_of_cell(&self) -> bool {
        self.number == DETERMINACY
    }
}

/// Two events of a run that no schedule has to order, the earlier first, with their frames.
/// `common` is the nearest frame around both, and `child` its spawned child around the earlier one.
#[derive(Clone, Copy)]
pub struct Pair {
    pub earlier: usize,
    pub later: usize,
    pub beside: usize,
    pub second: usize,
    pub common: usize,
    pub child: usize,
}

// The most reads of a reducer that are looked at.
const VIEWS: usize = 64;

/// Returns the pair of a race: its two accesses, or a read or set of a reducer and the nearest
/// update of it in parallel, if the run has one.
pub fn pair_of(scene: &Scene<'_>, race: Race) -> Result<Option<Pair>, AllocError> {
    if race.is_of_cell() {
        return Ok(of_events(scene, race.earlier, race.later));
    }
    let Some(viewed) = viewed_at(scene, race.later) else {
        return Ok(None);
    };
    let byte = scene.byte_of(race.later);
    let mut left = VIEWS;
    for at in race.later..scene.run.trace.len() {
        let is_again = viewed_at(scene, at) == Some(viewed) && scene.byte_of(at) == byte;
        if left > 0 && is_again {
            left = left.saturating_sub(1);
            if let Some(pair) = of_view(scene, at, viewed, true)? {
                return Ok(Some(pair));
            }
        }
    }
    of_view(scene, race.later, viewed, false)
}

/// Returns the reducer that an event reads or sets.
pub fn viewed_at(scene: &Scene<'_>, index: usize) -> Option<Instance> {
    match scene.run.event(index) {
        Some(Event::Set { instance, .. } | Event::Value { instance, .. }) => Some(instance),
        _ => None,
    }
}

/// Returns the name with which the variable, array or reducer of an event is declared.
pub fn name_of(scene: &Scene<'_>, index: usize) -> Option<Name> {
    let Some((cell, _)) = scene.access(index) else {
        return scene.reducer(viewed_at(scene, index)?);
    };
    match scene.global(cell) {
        Some(global) => Some(global.name),
        None => Some(scene.variable(cell)?.1),
    }
}

fn of_events(scene: &Scene<'_>, earlier: usize, later: usize) -> Option<Pair> {
    let (beside, second) = (scene.frame_of(earlier)?, scene.frame_of(later)?);
    let common = scene.common(scene.above(beside)?, second);
    let child = scene.child_of(common, beside)?;
    Some(Pair {
        earlier,
        later,
        beside,
        second,
        common,
        child,
    })
}

// A read or set of a reducer, with the last update before it, or else the first one after it, that
// runs in parallel. A schedule can change a read only by an update before it.
fn of_view(
    scene: &Scene<'_>,
    at: usize,
    viewed: Instance,
    is_before: bool,
) -> Result<Option<Pair>, AllocError> {
    let frame = scene.frame_of(at).unwrap_or(0);
    let Some((change, child)) = change_of(scene, frame, at, viewed, is_before)? else {
        return Ok(None);
    };
    let other = scene.frame_of(change).unwrap_or(0);
    let (earlier, later) = if is_before {
        (change, at)
    } else {
        (at, change)
    };
    let (beside, second) = if is_before {
        (other, frame)
    } else {
        (frame, other)
    };
    let common = scene.note(child).parent;
    Ok(Some(Pair {
        earlier,
        later,
        beside,
        second,
        common,
        child,
    }))
}

impl Pair {
    /// Returns whether both events are in turns of one loop.
    pub fn is_in_turns(&self, scene: &Scene<'_>) -> bool {
        scene.is_of_loop(self.child)
    }

    /// Returns the frame of the turn of the common loop that a frame is in.
    pub fn turn_of(&self, scene: &Scene<'_>, frame: usize) -> usize {
        let body = scene.note(self.common).body;
        let mut at = frame;
        let mut turn = frame;
        for _level in 0..scene.run.replay.frames.len() {
            if at == self.common {
                break;
            }
            let note = scene.note(at);
            if note.body == body && (at == frame || !scene.halves(at)) {
                turn = at;
            }
            at = note.parent;
        }
        turn
    }
}

//! The child that runs in parallel with a read or set of a reducer.

use cilk_findings::scene::Scene;
use cilk_types::event::{Event, Instance};
use cilk_types::invocation::Invocation;
use std::alloc::AllocError;

/// A change of a reducer, and the spawned child that parts it from the event: the change or the
/// event is in it, and the other one after it.
pub type Change = (usize, usize);

// What a frame is as seen from an event: the event's or one around it, and one of these that has synced
// between; otherwise the child of such a frame that it is in.
const ABOVE: usize = usize::MAX;

const SYNCED: usize = usize::MAX - 1;

/// Returns the last change of a reducer before the event `upto` of a frame that is in a child in parallel
/// with it. Otherwise, without `is_before`, the first change that comes after the event, after the spawned
/// child in which the event is, and before the sync that waits for this child.
pub fn change_of(
    scene: &Scene<'_>,
    frame: usize,
    upto: usize,
    instance: Instance,
    is_before: bool,
) -> Result<Option<Change>, AllocError> {
    let mut sides = Vec::new(scene.case.alloc);
    sides.resize(scene.run.replay.frames.len(), 0)?;
    seat(scene, &mut sides, frame);
    Ok(if is_before {
        changing(scene, &mut sides, upto, instance)
    } else {
        changed(scene, &sides, upto, instance)
    })
}

// Finds what each frame is. Parents have smaller numbers than their children.
fn seat(scene: &Scene<'_>, sides: &mut Vec<usize>, frame: usize) {
    let mut at = frame;
    for _level in 0..sides.len() {
        if let Some(side) = sides.get_mut(at) {
            *side = ABOVE;
        }
        at = scene.note(at).parent;
    }
    for number in 0..sides.len() {
        let of_parent = sides.get(scene.note(number).parent).copied().unwrap_or(0);
        if let Some(side) = sides.get_mut(number)
            && *side != ABOVE
        {
            *side = if of_parent == ABOVE {
                number
            } else {
                of_parent
            };
        }
    }
}

// Goes back from the event, past the syncs of the frames around it.
fn changing(
    scene: &Scene<'_>,
    sides: &mut Vec<usize>,
    upto: usize,
    wanted: Instance,
) -> Option<Change> {
    for back in 1..upto.saturating_add(1) {
        let index = upto - back;
        let (frame, event) = (scene.frame_of(index)?, scene.run.event(index)?);
        if let (Event::Sync, Some(side)) = (event, sides.get_mut(frame))
            && *side == ABOVE
        {
            *side = SYNCED;
        }
        let child = sides.get(frame).copied().unwrap_or(ABOVE);
        if changes(&event, wanted) && child < SYNCED {
            let note = scene.note(child);
            let has_ended = note.ended.unwrap_or(upto) < upto;
            let is_open = sides.get(note.parent).copied() == Some(ABOVE);
            if note.how == Invocation::Spawn && has_ended && is_open {
                return Some((index, child));
            }
        }
    }
    None
}

fn changed(scene: &Scene<'_>, sides: &Vec<usize>, upto: usize, wanted: Instance) -> Option<Change> {
    let mut open: usize = 0;
    for index in upto..scene.run.trace.len() {
        let (frame, event) = (scene.frame_of(index)?, scene.run.event(index)?);
        let is_parent = open > 0 && scene.note(open).parent == frame;
        let is_above = sides.get(frame).copied() == Some(ABOVE);
        match event {
            Event::End if is_above && scene.is_spawned(frame) => open = frame,
            Event::End | Event::Sync if is_parent => open = 0,
            _ => {}
        }
        if changes(&event, wanted) && open > 0 {
            return Some((index, open));
        }
    }
    None
}

fn changes(event: &Event, wanted: Instance) -> bool {
    match *event {
        Event::Update { instance, .. } | Event::Set { instance, .. } => instance == wanted,
        _ => false,
    }
}

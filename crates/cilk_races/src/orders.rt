//! What puts two events of a run in order, in words.

use cilk_findings::scene::Scene;
use cilk_messages::sentence::{Sentence, say};
use cilk_types::event::Event;
use std::alloc::AllocError;

/// Adds what puts two events in order, the earlier first: the sync that waits for a child around the
/// earlier one, or the order of the text.
pub fn push_order(
    scene: &Scene<'_>,
    report: &mut String,
    earlier: usize,
    later: usize,
) -> Result<(), AllocError> {
    if let Some(child) = waited_child(scene, earlier, later) {
        return scene.push(report, &waited_for(scene, child, later));
    }
    let first = scene.frame_of(earlier).unwrap_or(0);
    let second = scene.frame_of(later).unwrap_or(0);
    let common = scene.common(first, second);
    if first == common && second == common {
        let same = say("`{}` makes the two one after the other");
        return scene.push(report, &same.word(scene.function_of(common)));
    }
    scene.push(report, &in_words(scene, common, earlier, &EARLIER))?;
    scene.push(report, &in_words(scene, common, later, &LATER))
}

/// Returns the outermost spawned frame around the earlier of two events that isn't around the later
/// one: a sync that waits for it puts the two in order.
pub fn waited_child(scene: &Scene<'_>, earlier: usize, later: usize) -> Option<usize> {
    let mut at = scene.frame_of(earlier).unwrap_or(0);
    let common = scene.common(at, scene.frame_of(later).unwrap_or(0));
    let mut found = None;
    for _level in 0..scene.run.replay.frames.len() {
        if at == common {
            break;
        }
        if scene.is_spawned(at) {
            found = Some(at);
        }
        at = scene.note(at).parent;
    }
    found
}

// The sync that waits for a spawned child before a later event.
fn waited_for<'a>(scene: &Scene<'a>, child: usize, later: usize) -> Sentence<'a> {
    let parent = scene.note(child).parent;
    let spawn = scene.line(scene.note(child).invoked_at);
    if scene.is_of_loop(child) {
        let words = if is_in_loop_of(scene, child, later) {
            "an earlier run of the `cilk_for` on line {} has ended, with all its turns"
        } else {
            "the `cilk_for` on line {} waits for its turns before line {}"
        };
        return say(words)
            .count(spawn)
            .count(scene.line(scene.byte_of(later)));
    }
    let Some(at) = sync_behind(scene, parent, child) else {
        return say("the child spawned on line {} ends first").count(spawn);
    };
    let line = scene.line(at);
    let text = scene.case.text.get(at..).unwrap_or(&[]);
    if text.starts_with(b"cilk_sync") {
        say("the `cilk_sync` on line {} waits for the child spawned on line {}")
            .count(line)
            .count(spawn)
    } else if scene.is_of_loop(parent) {
        say("each turn of the `cilk_for` on line {} waits for its children at its end").count(line)
    } else {
        say("`{}` waits for its children at its end (line {})")
            .word(scene.function_of(parent))
            .count(line)
    }
}

// Whether an event is in a turn of the loop that a frame is of, in this run of the loop or another.
fn is_in_loop_of(scene: &Scene<'_>, child: usize, event: usize) -> bool {
    let body = scene.note(child).body;
    let mut at = scene.frame_of(event).unwrap_or(0);
    for _level in 0..scene.run.replay.frames.len() {
        let note = scene.note(at);
        if note.body == body {
            return true;
        }
        if at == 0 {
            break;
        }
        at = note.parent;
    }
    false
}

// The byte of the first sync of a frame after a child.
fn sync_behind(scene: &Scene<'_>, parent: usize, child: usize) -> Option<usize> {
    let ended = scene.note(child).ended.unwrap_or(usize::MAX);
    for index in ended..scene.run.trace.len() {
        if matches!(scene.run.event(index), Some(Event::Sync))
            && scene.frame_of(index) == Some(parent)
        {
            return Some(scene.byte_of(index));
        }
    }
    None
}

// Words for an event of a frame, and for the child of the frame that an event is in: turns of a loop,
// a spawned child, a called one. Each has a gap for the line.
type Words = [&'static str; 4];

// A child with an earlier event isn't spawned, or a sync waits for it.
const EARLIER: Words = [
    "line {} comes before ",
    "the `cilk_for` on line {} ends before ",
    "the call on line {} returns before ",
    "the call on line {} returns before ",
];

const LATER: Words = [
    "line {}",
    "the `cilk_for` on line {}",
    "the spawn on line {}",
    "the call on line {}",
];

// An event of a frame, or the child of that frame that it is in.
fn in_words<'a>(scene: &Scene<'a>, common: usize, event: usize, words: &Words) -> Sentence<'a> {
    let [own, turns, spawn, call] = *words;
    let frame = scene.frame_of(event).unwrap_or(0);
    let child = match scene.child_of(common, frame) {
        Some(child) if frame != common => child,
        _ => return say(own).count(scene.line(scene.byte_of(event))),
    };
    let words = if scene.is_of_loop(child) {
        turns
    } else if scene.is_spawned(child) {
        spawn
    } else {
        call
    };
    say(words).count(scene.line(scene.note(child).invoked_at))
}

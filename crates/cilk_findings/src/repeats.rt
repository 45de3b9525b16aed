//! A `cilk_for` that a loop around it begins again and again.

use crate::partings::{end_of, loop_round};
use crate::replay::StepNote;
use crate::scene::Scene;
use cilk_messages::sentence::{Sentence, say};
use cilk_messages::tokens::Tokens;
use cilk_program::program::Body;
use cilk_syntax::token::Kind;
use std::alloc::AllocError;

/// Returns a hint for a run with too many frames at a `cilk_for` which a loop around it has begun
/// at least twice.
pub fn of_repeated<'a>(
    scene: &Scene<'a>,
    step: StepNote,
) -> Result<Option<Sentence<'a>>, AllocError> {
    let tokens = Tokens::new(scene.case.alloc, scene.case.text)?;
    Ok(repeated(scene, &tokens, step))
}

fn repeated<'a>(scene: &Scene<'a>, tokens: &Tokens<'a>, step: StepNote) -> Option<Sentence<'a>> {
    let begun = loop_at(scene, step);
    let round = loop_round(tokens, tokens.number_at(scene.named_at(begun)))?;
    let times = times_of(scene, begun);
    if times < 2 || !matches!(begun, Body::Loop(_)) {
        return None;
    }
    let name = kept_in(tokens, round);
    let begins = say(if name.is_empty() { REPEATED } else { KEPT }).word(tokens.word(round));
    let begins = begins.with(scene.place(tokens.place(round))).count(times);
    Some(begins.word(name).word(name))
}

const REPEATED: &str =
    "the `{}` at {} has begun this `cilk_for` {} times: does that loop end? Each of its turns has to change what its \
     condition asks for. Where it ends, let each turn of the `cilk_for` do a block of turns (`docs/FROM-CILK.md`, \
     \"Many turns, in blocks\")";

const KEPT: &str =
    "the `{}` at {} has begun this `cilk_for` {} times, and reads `{}`, which keeps what was added in earlier turns: \
     let each turn begin with `set({}, 0);`";

// A reducer that a loop reads and never sets; an empty name if there is none.
fn kept_in<'a>(tokens: &Tokens<'a>, round: usize) -> &'a [u8] {
    let end = end_of(tokens, round);
    let mut name: &[u8] = &[];
    for number in round..end {
        if let Some(Kind::Value) = tokens.kind(number) {
            name = tokens.word(number.saturating_add(2));
        }
    }
    for number in round..end {
        if matches!(tokens.kind(number), Some(Kind::Set))
            && tokens.word(number.saturating_add(2)) == name
        {
            return &[];
        }
    }
    name
}

// The `cilk_for` of a step, whether the step halves its turns, begins it or belongs to a turn; otherwise the
// function of the step.
fn loop_at(scene: &Scene<'_>, step: StepNote) -> Body {
    if !scene.halves(step.frame) {
        for number in 0..scene.case.map.loops.len() {
            let body = Body::Loop(u32::try_from(number).unwrap_or(u32::MAX));
            if scene.named_at(body) == step.at {
                return body;
            }
        }
    }
    scene.note(step.frame).body
}

// How often a run has begun a `cilk_for`: its frames whose parents aren't of that loop.
fn times_of(scene: &Scene<'_>, body: Body) -> usize {
    let mut times: usize = 0;
    for frame in 0..scene.run.replay.frames.len() {
        let note = scene.note(frame);
        if note.body == body && scene.note(note.parent).body != body {
            times = times.saturating_add(1);
        }
    }
    times
}

//! The replay of one frame.

ghost use Rattle.std.specs.Prelude.{◌≡◌, IfOk, slice_get};
ghost use Rattle.cilk_types.specs.declared.limits.TheConstants.{MAX_TICKS};
ghost use Rattle.cilk_program.specs.Sources.{source};
ghost use Rattle.cilk_program.specs.declared.ask.Ask.TheVariants.{Begin};
ghost use Rattle.cilk_program.specs.Syntax.{Source};
ghost use Rattle.cilk_lower.specs.Behaves.{Behaves};
ghost use Rattle.cilk_frames.specs.Following.{Runs, owed_for};
ghost use Rattle.cilk_helpers.specs.Notes.{AreNotes, GoAsFar, tells_word};

use crate::note::{Asked, Note};
use cilk_frames::asked::AskSlot;
use cilk_frames::cursor::{Answer, Cursor};
use cilk_frames::stepping::step_into;
use cilk_lower::code::Code;
use cilk_types::input::Input;
use cilk_types::limits::MAX_TICKS;
use std::alloc::{AllocError, Global};

fn word_at(words: &[i64], place: u32) -> Option<i64>
    ensures { result ≡ slice_get words.now place }
{
    words.get(place as usize).copied()
}

// Whether an answer is a word.
fn is_word(answer: Option<Answer>) -> bool
    ensures { result ≡ tells_word answer }
{
    match answer {
        Some(Answer::Value(_)) => true,
        _ => false,
    }
}

/// Replays a frame from its beginning with these words as the values that it reads.
///
/// The result has at most `most` notes. It ends at the frame's end, at its fault, or where a word
/// is missing. Memory for `most` notes is allocated at once.
pub fn replay(
    alloc: Global,
    code: &Code,
    input: &Input,
    cursor: Cursor,
    words: &[i64],
    most: u32,
) -> Result<Vec<Note>, AllocError>
    requires runs { Runs code.now input.now cursor }
    requires owes { cursor.owed ≡ owed_for Begin }
    ensures asks { IfOk result (λ notes. AreNotes code.now input.now cursor MAX_TICKS notes.items) }
    ensures told { IfOk result (λ notes. GoAsFar words.now most notes.items) }
{
    let mut cursor = cursor;
    let mut notes = Vec::with_capacity(alloc, most as usize)?;
    let mut left = MAX_TICKS;
    let mut told = Some(Answer::Done);
    let mut next: u32 = 0;
    let mut slot = AskSlot::new();
    'each: for count in 0..most {
        let Some(answer) = told else {
            return Ok(notes);
        };
        step_into(code, input, &mut cursor, answer, &mut left, &mut slot);
        let asked = Asked::of(alloc, &slot)?;
        told = asked.answer(word_at(words, next));
        if is_word(told) {
            next += 1;
        }
        notes.push(Note::new(answer, asked, left))?;
    }
    Ok(notes)
}

//! A frame that is to be replayed, and its replay.

ghost use Rattle.std.specs.Prelude.{◌≡◌, ◌≤◌, [], ℤ, List, IfOk, length};
ghost use Rattle.cilk_program.specs.Inside.{CalleeIsFit};
ghost use Rattle.cilk_program.specs.Syntax.{Source};
ghost use Rattle.cilk_program.specs.declared.ask.Ask.TheVariants.{Begin};
ghost use Rattle.cilk_lower.specs.Behaves.{Behaves};
ghost use Rattle.cilk_lower.specs.Code.{CodeView};
ghost use Rattle.cilk_frames.specs.Following.{Stands, owed_for};
ghost use Rattle.cilk_helpers.specs.Replayed.{IsReplayed, ticks_of};

use crate::called::SmallCallee;
use crate::listing::FrameHint;
use crate::note::Note;
use crate::replay::replay;
use crate::whole::Replay;
use cilk_frames::cursor::Cursor;
use cilk_lower::code::Code;
use cilk_program::ask::Callee;
use cilk_types::event::FrameNo;
use cilk_types::input::Input;
use cilk_types::limits::MAX_TICKS;
use std::alloc::{AllocError, Global};

/// A frame that is to be replayed: its callee, and its hint.
#[derive(Drop)]
pub struct Due {
    pub frame: FrameNo,
    pub callee: SmallCallee,
    pub hint: FrameHint,
}

/// A replayed frame, and how many ticks it cost.
#[derive(Drop)]
pub struct Replayed {
    pub frame: FrameNo,
    pub replay: Replay,
    pub ticks: u32,
}

// The cursor of a callee's frame before it begins.
fn begun(alloc: Global, code: &Code, callee: &Callee) -> Result<Cursor, AllocError>
    ensures stands { IfOk result (λ c. (p : Source) (inputs : List ℤ) → Behaves p code.now → CalleeIsFit p callee.now → Stands code.now inputs p callee.now c [] 0) }
    ensures owes { IfOk result (λ c. c.owed ≡ owed_for Begin) }
{
    match callee {
        Callee::Root => Cursor::root(alloc, code),
        Callee::Function(call) => Cursor::function(alloc, code, call),
        Callee::Loop(part) => Cursor::turns(alloc, code, part),
    }
}

// The words of a frame, or none if the list is too short.
fn words_of<'a>(words: &'a [i64], hint: &FrameHint) -> &'a [i64] {
    let first = hint.first as usize;
    match words.get(first..first + hint.words as usize) {
        Some(own) => own,
        None => &[],
    }
}

// The ticks that a frame cost up to its last note, which stands first.
fn taken(notes: &[Note]) -> u32
    ensures { result ≡ ticks_of notes.now }
{
    match notes.first() {
        Some(note) => MAX_TICKS.saturating_sub(note.left()),
        None => 0,
    }
}

// The replay of a frame that isn't replayed.
fn missing(alloc: Global, frame: FrameNo) -> Replayed
    ensures replayed { (code : CodeView) (p : Source) (inputs : List ℤ) → IsReplayed code p inputs result }
    ensures none { result.replay.notes.items ≡ [] }
    ensures ticks { result.ticks ≡ 0 }
{
    Replayed {
        frame,
        replay: Replay {
            callee: SmallCallee::nothing(),
            notes: Vec::new(alloc),
        },
        ticks: 0,
    }
}

/// Replays a frame by its hint.
pub fn replay_due(
    alloc: Global,
    code: &Code,
    input: &Input,
    words: &[i64],
    due: Due,
) -> Result<Replayed, AllocError>
    requires { (p : Source) × Behaves p code.now × CalleeIsFit p due.callee }
    ensures replayed { (p : Source) → Behaves p code.now → IfOk result (IsReplayed code.now p input.now) }
    ensures few { IfOk result (λ r. length r.replay.notes.items ≤ due.hint.events) }
    ensures ticks { IfOk result (λ r. r.ticks ≡ ticks_of r.replay.notes.items) }
{
    let Due {
        frame,
        callee,
        hint,
    } = due;
    let Some(begins) = callee.callee() else {
        return Ok(missing(alloc, frame));
    };
    let cursor = begun(alloc, code, &begins)?;
    let own = words_of(words, &hint);
    let mut notes = replay(alloc, code, input, cursor, own, hint.events)?;
    notes.reverse();
    let ticks = taken(notes.as_slice());
    Ok(Replayed {
        frame,
        replay: Replay { callee, notes },
        ticks,
    })
}

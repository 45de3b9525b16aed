//! The remaining notes of a frame.

ghost use Rattle.std.specs.Prelude.{◌≡◌, ◌+◌, ◌-◌, ◌≤◌, ◌∷◌, ◌↔◌, IsTrue, IfSome, List};
ghost use Rattle.cilk_program.specs.Ticks.{IsWithin};
ghost use Rattle.cilk_helpers.specs.Asked.{NoteView, ask_in};
ghost use Rattle.cilk_helpers.specs.Retold.{IsTaken, held};
ghost use Rattle.cilk_helpers.specs.Telling.{held_of};

use crate::note::{Asked, Note};
use cilk_frames::cursor::Answer;
use cilk_frames::small_ask::SmallAsk;

/// The remaining notes of a frame, the next one last, and the ticks left to its replay.
#[derive(Drop)]
pub struct Rest {
    pub notes: Vec<Note>,
    pub left: u32,
}

/// The frame's next request, and the ticks left to the run after it.
#[derive(Drop)]
pub struct Taken {
    pub asked: Asked,
    pub left: u32,
}

fn same(told: Answer, answer: Answer) -> bool
    ensures { IsTrue result ↔ (told ≡ answer) }
{
    match (told, answer) {
        (Answer::Done, Answer::Done) => true,
        (Answer::Value(word), Answer::Value(other)) => word == other,
        _ => false,
    }
}

// Whether a request isn't a fault.
fn goes_on(asked: &Asked) -> bool
    ensures { IsTrue result → IsWithin (ask_in asked.now) }
{
    match asked {
        Asked::SmallAsk(SmallAsk::Fault(_)) => false,
        _ => true,
    }
}

impl Rest {
    /// Takes the next note, if its answer is this one, its request is no fault, and it costs at
    /// most `left` ticks. On `None` the frame can't be used any more.
    #[inline(always)]
    pub fn take(&mut self, answer: Answer, left: u32) -> Option<Taken>
        ensures { IfSome result (λ t. (n : NoteView) × (ns : List NoteView) × (held_of self.old ≡ held self.old.left (n ∷ ns)) × (held_of self.new ≡ held n.left ns)
            × (n.told ≡ answer) × (n.ask ≡ ask_in t.asked) × IsTaken left self.old.left n t.left) }
    {
        let Some(note) = self.notes.pop() else {
            return None;
        };
        let (told, asked, own) = note.into_parts();
        if !same(told, answer) || !goes_on(&asked) || own > self.left {
            return None;
        }
        let spent = self.left - own;
        if spent > left {
            return None;
        }
        self.left = own;
        Some(Taken {
            asked,
            left: left - spent,
        })
    }
}

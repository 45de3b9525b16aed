//! Runs a frame from one request to the next, with the marks of its words.

ghost use Rattle.std.specs.Prelude.{◌≡◌, true, IfOk};
ghost use Rattle.cilk_frames.specs.Following.{Fits, Runs, Steps};
ghost use Rattle.cilk_oblivious.specs.Cursors.{StepsOpenly, hidden_of};

use crate::marks::Marks;
use crate::memory::MarkedAnswer;
use cilk_frames::asked::AskSlot;
use cilk_frames::cursor::Cursor;
use cilk_frames::moves::Moved;
use cilk_frames::stepping::{exec_instr, invoke};
use cilk_lower::code::Code;
use cilk_types::input::Input;
use std::alloc::AllocError;

/// A frame's cursor with its marks.
#[derive(Drop)]
pub struct Waiting {
    pub cursor: Cursor,
    pub marks: Marks,
}

/// A frame's next request, the marks of the words that it sends, and the ticks that are left then.
#[derive(Drop)]
pub struct Request {
    pub asked: AskSlot,
    pub sent: Vec<bool>,
    pub left: u32,
}

/// Runs a frame from an answer to its next request, as [`cilk_frames::stepping::step_into`] does, with
/// the marks of its words. Returns false if a marked word would decide what happens.
pub fn step_openly(
    code: &Code,
    input: &Input,
    hidden: &[bool],
    frame: &mut Waiting,
    told: MarkedAnswer,
    request: &mut Request,
) -> Result<bool, AllocError>
    requires runs { Runs code.now input.now frame.old.cursor }
    requires fits { Fits frame.old.cursor.owed told.answer }
    ensures steps { IfOk result (λ ok. ok ≡ true → Steps code.now input.now frame.old.cursor told.answer request.old.left request.new.asked frame.new.cursor request.new.left) }
    ensures openly { IfOk result (λ ok. ok ≡ true → StepsOpenly (hidden_of hidden.now) code.now input.now frame.old.cursor frame.old.marks told.answer told.mark request.old.left request.new.asked frame.new.cursor frame.new.marks request.new.left request.new.sent.items) }
{
    frame.cursor.receive(told.answer);
    frame.marks.receive(told.answer, told.mark)?;
    let instrs = code.instrs();
    'each: loop {
        let instr = *code.at(instrs, frame.cursor.place());
        let top = frame.cursor.top();
        if !frame
            .marks
            .pass(hidden, code, &instr, top, &mut request.sent)?
        {
            return Ok(false);
        }
        match exec_instr(code, instrs, input, &mut frame.cursor, &mut request.left) {
            Moved::Goes => {}
            Moved::Waits(ask) => {
                request.asked.put(ask);
                return Ok(true);
            }
            Moved::Stops(ask) => {
                request.asked.put(ask);
                return Ok(true);
            }
            Moved::Invokes(number) => {
                invoke(code, &mut frame.cursor, number, &mut request.asked);
                return Ok(true);
            }
        }
    }
}

//! A serial run that is gone through again with marks.

ghost use Rattle.std.specs.Prelude.{◌≡◌, ◌++◌, ◌∷◌, [], IfOk, IfSome, IsSome, MatchOption, List, ℤ, ℕ, Bool, true, false};
ghost use Rattle.cilk_types.specs.declared.event.Event.{Event};
ghost use Rattle.cilk_program.specs.Sources.{source};
ghost use Rattle.cilk_program.specs.SerialRun.{Ending};
ghost use Rattle.cilk_lower.specs.Behaves.{Behaves};
ghost use Rattle.cilk_frames.specs.AskSlot.{IsFunctionCall, in_full};
ghost use Rattle.cilk_frames.specs.Cursor.{first_of};
ghost use Rattle.cilk_frames.specs.Following.{child_of};
ghost use Rattle.cilk_program.specs.Syntax.{Source};
ghost use Rattle.cilk_program.specs.declared.ask.Ask.TheVariants.{End};
ghost use Rattle.cilk_oblivious.specs.Cursors.{hidden_of};
ghost use Rattle.cilk_oblivious.specs.Watching.{Meets, Watching};
ghost use Rattle.cilk_oblivious.specs.declared.watch.Met.TheVariants as mets;

use crate::marks::Marks;
use crate::memory::{MarkedAnswer, MarkedMemory};
use crate::step::{Request, Waiting, step_openly};
use cilk_frames::asked::AskSlot;
use cilk_frames::cursor::{Answer, Cursor};
use cilk_frames::small_ask::SmallAsk;
use cilk_lower::code::Code;
use cilk_program::program::Program;
use cilk_types::event::Event;
use cilk_types::input::Input;
use std::alloc::{AllocError, Global};
use std::mem;

// As of an `AskSlot`: a loop of many turns, halved, has fewer frames at once.
const MAX_SPARES: usize = 64;

/// The running frame, those that wait for a child, the marks of memory, and the running frame's next
/// request.
#[derive(Drop)]
pub struct Watch {
    pub top: Waiting,
    pub below: Vec<Waiting>,
    pub memory: MarkedMemory,
    pub request: Request,
    /// The marks of frames that have ended, for the room that later ones take.
    pub spares: Vec<Marks>,
}

/// What has come of an event.
#[derive(Clone, Copy)]
pub enum Met {
    /// The run goes on.
    Goes,
    /// The root has ended.
    Ended,
    /// A marked word would decide, or the event isn't the request's.
    Blocked,
}

impl Watch {
    /// Meets the next event of the run.
    pub fn meet(
        &mut self,
        alloc: Global,
        program: &Program,
        code: &Code,
        input: &Input,
        hidden: &[bool],
        event: &Event,
    ) -> Result<Met, AllocError>
        requires behaves { Behaves (source program.now) code.now }
        requires watching { (before after : List Event) × (whole : Ending) × Watching (source program.now) input.now (hidden_of hidden.now) code.now self.old before (event.now ∷ after) whole }
        ensures { (before after : List Event) (whole : Ending) → Watching (source program.now) input.now (hidden_of hidden.now) code.now self.old before (event.now ∷ after) whole
            → IfOk result (λ met. Meets (source program.now) input.now (hidden_of hidden.now) code.now met self.new (before ++ event.now ∷ []) after whole) }
    {
        match self.small_ask() {
            None | Some(SmallAsk::Turns(_, _)) => self.begin(alloc, program, code),
            Some(SmallAsk::End(_)) => self.end(alloc, code, input, hidden),
            Some(ask) => {
                let sent = self.request.sent.as_slice();
                let Some(found) = self.memory.answer(&ask, sent, event)? else {
                    return Ok(Met::Blocked);
                };
                let goes = step_openly(
                    code,
                    input,
                    hidden,
                    &mut self.top,
                    found,
                    &mut self.request,
                )?;
                Ok(goes_or_blocked(goes))
            }
        }
    }

    // The request, unless it invokes a function.
    fn small_ask(&self) -> Option<SmallAsk>
        ensures { MatchOption result (IsFunctionCall self.now.request.asked) (λ k. self.now.request.asked ≡ in_full k) }
    {
        self.request.asked.small_ask().copied()
    }

    // Begins the child that is requested.
    fn begin(&mut self, alloc: Global, program: &Program, code: &Code) -> Result<Met, AllocError>
        requires { IsSome (child_of self.old.request.asked) }
        ensures { (inputs : List ℤ) (hidden : ℕ → Bool) (before after : List Event) (event : Event) (whole : Ending) → Behaves (source program.now) code.now
            → Watching (source program.now) inputs hidden code.now self.old before (event ∷ after) whole
            → IfOk result (λ met. Meets (source program.now) inputs hidden code.now met self.new (before ++ event ∷ []) after whole) }
    {
        let cursor = child(alloc, code, &mut self.request.asked)?;
        let mut marks = match self.spares.pop() {
            Some(spare) => spare,
            None => Marks::new(alloc, Vec::new(alloc)),
        };
        marks.renew(&mut self.request.sent);
        let child = Waiting { cursor, marks };
        let parent = mem::replace(&mut self.top, child);
        self.below.push(parent)?;
        self.request.asked.put(SmallAsk::Begin);
        Ok(Met::Goes)
    }

    // Ends the running frame, and continues the one that waits for it, if there is one.
    fn end(
        &mut self,
        alloc: Global,
        code: &Code,
        input: &Input,
        hidden: &[bool],
    ) -> Result<Met, AllocError>
        requires ends { (v : ℤ) × (self.old.request.asked ≡ End v) }
        requires watching { (p : Source) × (before after : List Event) × (whole : Ending) × (event : Event) × Watching p input.now (hidden_of hidden.now) code.now self.old before (event ∷ after) whole }
        ensures { (p : Source) (before after : List Event) (event : Event) (whole : Ending)
            → Watching p input.now (hidden_of hidden.now) code.now self.old before (event ∷ after) whole
            → IfOk result (λ met. Meets p input.now (hidden_of hidden.now) code.now met self.new (before ++ event ∷ []) after whole) }
    {
        let Some(frame) = pop_waiting(&mut self.below) else {
            return Ok(Met::Ended);
        };
        let operands = self.top.cursor.take_operands(alloc);
        self.request.asked.keep(alloc, operands);
        let marks = mem::replace(&mut self.top.marks, Marks::new(alloc, Vec::new(alloc)));
        keep(&mut self.spares, marks);
        self.top = frame;
        let told = MarkedAnswer {
            answer: Answer::Done,
            mark: false,
        };
        let goes = step_openly(code, input, hidden, &mut self.top, told, &mut self.request)?;
        Ok(goes_or_blocked(goes))
    }
}

// The frame that is requested, before it begins: a function's in the operands of one that has ended.
fn child(alloc: Global, code: &Code, asked: &mut AskSlot) -> Result<Cursor, AllocError>
    requires { IsSome (child_of asked.old) }
    ensures first { IfOk result (λ c. IfSome (child_of asked.old) (λ callee. c ≡ first_of code.now callee)) }
    ensures same { asked.new ≡ asked.old }
{
    if let Some(ask) = asked.small_ask() {
        return Cursor::new(alloc, code, &ask.in_full());
    }
    let operands = asked.spare(alloc);
    let (_, call) = asked.invocation();
    Cursor::function_in::<false>(alloc, operands, code, call)
}

// Keeps the marks of a frame that has ended, unless many are kept or memory is refused.
fn keep(spares: &mut Vec<Marks>, marks: Marks) {
    if spares.len() < MAX_SPARES {
        let _ = spares.push(marks);
    }
}

// Pops the frame that began to wait last.
fn pop_waiting(below: &mut Vec<Waiting>) -> Option<Waiting>
    ensures { MatchOption result (below.old.items ≡ []) (λ frame. below.old.items ≡ below.new.items ++ frame ∷ []) }
{
    below.pop()
}

fn goes_or_blocked(goes: bool) -> Met
    ensures { (goes ≡ true → result ≡ mets.Goes) × (goes ≡ false → result ≡ mets.Blocked) }
{
    if goes { Met::Goes } else { Met::Blocked }
}

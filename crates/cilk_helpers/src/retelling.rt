//! The state of a run that is retold.

ghost use Rattle.std.specs.Prelude.{◌≡◌, ◌≤◌, ℤ, List, [], IsTrue, IfOk, Some, length, reverse, true};
ghost use Rattle.cilk_lower.specs.Behaves.{Behaves};
ghost use Rattle.cilk_program.specs.Syntax.{Source};
ghost use Rattle.cilk_program.specs.WellNamed.{is_well_named};
ghost use Rattle.cilk_lower.specs.Code.{CodeView};
ghost use Rattle.cilk_frames.specs.AskSlot.{in_full};
ghost use Rattle.cilk_helpers.specs.Asked.{ask_in};
ghost use Rattle.cilk_program.specs.Sources.{source};
ghost use Rattle.cilk_program.specs.declared.ask.Ask.TheVariants.{End, Invoke};
ghost use Rattle.cilk_program.specs.declared.ask.Callee.TheVariants as callees;
ghost use Rattle.cilk_helpers.specs.Notes.{IsReplay};
ghost use Rattle.cilk_helpers.specs.Telling.{Comes, HasRoom, Parts, Tells, TellsMore};

use crate::note::{Asked, Note};
use crate::rest::{Rest, Taken};
use cilk_frames::beginnings::{function, root, turns};
use cilk_frames::call_stack::CallStack;
use cilk_frames::cursor::Answer;
use cilk_frames::small_ask::SmallAsk;
use cilk_hypermap::hypermap::Hypermap;
use cilk_program::ask::{FunctionCall, LoopPart};
use cilk_program::program::Program;
use cilk_serial::answer::{Told, answer};
use cilk_serial::callee::{function_cells, turn_cells};
use cilk_serial::frames::retire;
use cilk_serial::refusal::crowded;
use cilk_serial::state::{Refused, State};
use cilk_types::event::{Cell, Event};
use cilk_types::invocation::Invocation;
use cilk_types::limits::MAX_TICKS;
use std::alloc::{AllocError, Global};

/// The store, the frames with their remaining notes, the current frame's request, and the ticks
/// left to the run.
#[derive(Drop)]
pub struct Retelling {
    pub state: State,
    pub frames: CallStack<Rest>,
    pub asked: Asked,
    pub left: u32,
}

/// The result of the request of the frame on top.
#[derive(Clone, Copy)]
pub enum Gone {
    /// Its event is made, and the run continues.
    Made,
    /// A frame of these turns of a loop is to begin.
    Turns(Invocation, LoopPart),
    /// The frame is to end with this result.
    Ends(i64),
    /// The frame's replay had another answer, or it can't continue: the run isn't retold.
    Departs,
}

/// The result of a frame's end.
#[derive(Clone, Copy)]
pub enum Parting {
    /// The suspended parent continues.
    GoesOn,
    /// It was the last frame: the run has ended.
    WasLast,
    /// The parent's replay had another answer: the run isn't retold.
    Leaves,
}

// A program has few globals and few global reducers.
fn few(program: &Program)
    ensures globals { length program.now.globals ≤ 1000000 }
    ensures reducers { length program.now.reducers.items ≤ 64 }
{}

impl Retelling {
    /// Returns the state before the root's frame begins. `notes` are those of the root, the next
    /// one last; `events` is the number of events to allocate.
    pub fn new(
        alloc: Global,
        program: &Program,
        notes: Vec<Note>,
        events: usize,
    ) -> Result<Retelling, AllocError>
        ensures tells { (code : CodeView) (inputs : List ℤ) → Behaves (source program.now) code → IsReplay code (source program.now) inputs callees.Root (reverse notes.items)
            → IfOk result (Tells code (source program.now) inputs) }
        ensures first { IfOk result (λ t. t.state.events.items ≡ []) }
    {
        let mut state = State {
            cells: Vec::from_slice(alloc, program.globals.as_slice())?,
            views: Hypermap::new(alloc),
            output: Vec::new(alloc),
            events: Vec::with_capacity(alloc, events)?,
            frames: 1,
        };
        state.extend(function_cells(program, program.main))?;
        let globals = program.globals.len();
        let reducers = program.reducers.len();
        few(program);
        let rest = Rest {
            notes,
            left: MAX_TICKS,
        };
        let frame = root(alloc, rest, globals as Cell, reducers as u32, program.main);
        Ok(Retelling {
            state,
            frames: CallStack::new(alloc, frame),
            asked: Asked::SmallAsk(SmallAsk::Begin),
            left: MAX_TICKS,
        })
    }

    /// Makes the event of a small ask, if the frame continues at once, and steps to its next
    /// request.
    pub fn go_on(&mut self, alloc: Global, small_ask: SmallAsk) -> Result<Gone, AllocError>
        requires asked { ask_in self.old.asked ≡ in_full small_ask }
        requires room { HasRoom self.old.state }
        requires tells { (code : CodeView) × (p : Source) × (inputs : List ℤ) × IsTrue (is_well_named p) × Tells code p inputs self.old }
        ensures { (code : CodeView) (p : Source) (inputs : List ℤ) → IsTrue (is_well_named p) → Tells code p inputs self.old
            → IfOk result (λ gone. Comes code p inputs self.old gone self.new) }
    {
        match answer(alloc, &mut self.state, &self.frames, &small_ask)? {
            Told::Goes(told) => {
                let Some(taken) = self.frames.top.cursor.take(told, self.left) else {
                    return Ok(Gone::Departs);
                };
                let Taken { asked, left } = taken;
                self.asked = asked;
                self.left = left;
                Ok(Gone::Made)
            }
            Told::Turns(how, part) => Ok(Gone::Turns(how, part)),
            Told::Ends(result) => Ok(Gone::Ends(result)),
            Told::Stops(_) => Ok(Gone::Departs),
            Told::Full => Ok(Gone::Departs),
        }
    }

    /// Ends the frame on top with this result, and steps its parent to its next request.
    pub fn end(&mut self, program: &Program, value: i64) -> Result<Parting, AllocError>
        requires ends { ask_in self.old.asked ≡ End value }
        requires room { HasRoom self.old.state }
        requires tells { (code : CodeView) × (inputs : List ℤ) × Tells code (source program.now) inputs self.old }
        ensures { (code : CodeView) (inputs : List ℤ) → Tells code (source program.now) inputs self.old
            → IfOk result (λ parting. Parts code (source program.now) inputs self.old value parting self.new) }
    {
        match self.state.make(Event::End) {
            Ok(_) => {}
            Err(Refused::Full) => return Ok(Parting::Leaves),
            Err(Refused::Memory) => return Err(AllocError),
        }
        retire(program, &mut self.state, &self.frames.top);
        if !self.frames.pop() {
            return Ok(Parting::WasLast);
        }
        let Some(taken) = self.frames.top.cursor.take(Answer::Done, self.left) else {
            return Ok(Parting::Leaves);
        };
        let Taken { asked, left } = taken;
        self.asked = asked;
        self.left = left;
        Ok(Parting::GoesOn)
    }

    /// Begins the frame of some turns of a loop, which the frame on top has requested. `notes` are
    /// its notes, the next one last. False if the limits allow no more frame with its cells.
    pub fn begin_turns(
        &mut self,
        alloc: Global,
        program: &Program,
        how: Invocation,
        part: LoopPart,
        notes: Vec<Note>,
    ) -> Result<bool, AllocError>
        requires asked { ask_in self.old.asked ≡ Invoke how (callees.Loop part) }
        requires tells { (code : CodeView) × (inputs : List ℤ) × Tells code (source program.now) inputs self.old }
        ensures { (code : CodeView) (inputs : List ℤ) → Tells code (source program.now) inputs self.old
            → IsReplay code (source program.now) inputs (callees.Loop part) (reverse notes.items)
            → IfOk result (λ begun. begun ≡ true → TellsMore code (source program.now) inputs self.old (Some (callees.Loop part)) self.new) }
    {
        let cells = turn_cells(program, &part);
        if let Some(_) = crowded(&self.state, cells) {
            return Ok(false);
        }
        let number = self.state.frames + 1;
        let base = self.state.cells.len() as Cell;
        let here = self.frames.depth();
        let rest = Rest {
            notes,
            left: MAX_TICKS,
        };
        let frame = turns(alloc, rest, number, base, here, &self.frames.top, &part);
        self.state.begin(how, cells)?;
        self.frames.push(frame)?;
        self.asked = Asked::SmallAsk(SmallAsk::Begin);
        Ok(true)
    }

    /// Begins the frame of a function, which the frame on top has requested. `notes` are its notes,
    /// the next one last. False if the limits allow no more frame with its cells.
    pub fn begin_function(
        &mut self,
        alloc: Global,
        program: &Program,
        how: Invocation,
        call: &FunctionCall,
        notes: Vec<Note>,
    ) -> Result<bool, AllocError>
        requires asked { ask_in self.old.asked ≡ Invoke how (callees.Function call.now) }
        requires tells { (code : CodeView) × (inputs : List ℤ) × Tells code (source program.now) inputs self.old }
        ensures { (code : CodeView) (inputs : List ℤ) → Tells code (source program.now) inputs self.old
            → IsReplay code (source program.now) inputs (callees.Function call.now) (reverse notes.items)
            → IfOk result (λ begun. begun ≡ true → TellsMore code (source program.now) inputs self.old (Some (callees.Function call.now)) self.new) }
    {
        let cells = function_cells(program, call.function);
        if let Some(_) = crowded(&self.state, cells) {
            return Ok(false);
        }
        let number = self.state.frames + 1;
        let base = self.state.cells.len() as Cell;
        let rest = Rest {
            notes,
            left: MAX_TICKS,
        };
        let below = self.frames.below.as_slice();
        let frame = function(alloc, rest, number, base, below, &self.frames.top, call)?;
        self.state.begin(how, cells)?;
        self.frames.push(frame)?;
        self.asked = Asked::SmallAsk(SmallAsk::Begin);
        Ok(true)
    }

    /// Returns the store and drops the rest.
    pub fn into_state(self) -> State
        ensures { result ≡ self.state }
    {
        let Retelling {
            state,
            frames: _frames,
            asked: _asked,
            left: _left,
        } = self;
        state
    }
}

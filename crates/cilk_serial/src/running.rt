// A run in progress.

ghost use Rattle.std.specs.Prelude.{◌≡◌, ◌<◌, ℤ, List, [], IfOk, OnOk};
ghost use Rattle.cilk_types.specs.declared.limits.TheConstants.{MAX_FRAMES};
ghost use Rattle.cilk_program.specs.Sources.{source};
ghost use Rattle.cilk_program.specs.declared.ask.Ask.TheVariants.{End, Invoke};
ghost use Rattle.cilk_program.specs.declared.ask.Callee.TheVariants as callees;
ghost use Rattle.cilk_lower.specs.Behaves.{Behaves};
ghost use Rattle.cilk_frames.specs.AskSlot.{IsFunctionCall, in_full};
ghost use Rattle.cilk_serial.specs.Going.{AddsNoFrame, Going, Halts, HasBegunIf, IsLater, Progresses, run_of};

use crate::answer::{Told, answer};
use crate::callee::{function_cells, turn_cells};
use crate::frames::{function, retire, root, turns};
use crate::refusal::crowded;
use crate::state::{Refused, State};
use cilk_frames::activation::Activation;
use cilk_frames::asked::AskSlot;
use cilk_frames::call_stack::CallStack;
use cilk_frames::cursor::{Answer, Cursor};
use cilk_frames::moves::Moved;
use cilk_frames::small_ask::SmallAsk;
use cilk_frames::stepping::{exec_instr, exec_plain, invoke, step_into};
use cilk_hypermap::hypermap::Hypermap;
use cilk_lower::code::Code;
use cilk_program::ask::LoopPart;
use cilk_program::program::Program;
use cilk_types::event::Event;
use cilk_types::fault::Fault;
use cilk_types::input::Input;
use cilk_types::invocation::Invocation;
use cilk_types::limits::MAX_TICKS;
use std::alloc::{AllocError, Global};
use std::mem;

/// The store, the frames, the request of the running frame, and the ticks left.
#[derive(Drop)]
pub struct Running {
    pub state: State,
    pub frames: CallStack<Cursor>,
    pub ask: AskSlot,
    pub left: u32,
}

/// The result of a step.
#[derive(Clone, Copy)]
pub enum Step {
    /// An event was made, and the run continues.
    Made,
    /// The last event was made: the main function has ended with this result.
    Last(i64),
    /// A fault stops the run in place of the next event.
    Stops(Fault),
    /// Memory was refused, and the run can't continue. A variant of its own, since a `Result` would
    /// have to be returned in memory.
    NoMemory,
}

/// How a run halts.
#[derive(Clone, Copy)]
pub enum Halt {
    /// The main function has ended with this result.
    Ended(i64),
    /// A fault stops the run in place of the next event.
    Stopped(Fault),
}

// The events for which there is room from the beginning: more than a run may have, and so many that the
// system maps this memory alone, page by page as it is written, and takes it back as it is freed. A list
// that grew would leave holes of its size behind.
const ROOM: usize = 1_400_000;

impl Running {
    /// Returns the run before the root's frame begins.
    pub fn new(alloc: Global, program: &Program, code: &Code) -> Result<Running, AllocError>
        requires { Behaves (source program.now) code.now }
        ensures going { (inputs : List ℤ) → IfOk result (λ running. Going code.now (source program.now) inputs running) }
        ensures unbegun { IfOk result (λ running. running.state.events.items ≡ []) }
    {
        let mut state = State {
            cells: Vec::from_slice(alloc, program.globals.as_slice())?,
            views: Hypermap::new(alloc),
            output: Vec::new(alloc),
            events: Vec::with_capacity(alloc, ROOM)?,
            frames: 1,
        };
        state.extend(function_cells(program, program.main))?;
        let frame = root(alloc, program, code)?;
        Ok(Running {
            state,
            frames: CallStack::new(alloc, frame),
            ask: AskSlot::new(),
            left: MAX_TICKS,
        })
    }

    /// Makes the next event, or returns the fault that replaces it. Each caller takes another `COPY`,
    /// as with `run_on`.
    #[inline(always)]
    pub fn step<const COPY: bool>(
        &mut self,
        alloc: Global,
        program: &Program,
        code: &Code,
        input: &Input,
    ) -> Step
        requires { Going code.now (source program.now) input.now self.old }
        ensures { Progresses code.now (source program.now) input.now self.old result self.new }
    {
        let Some(ask) = self.ask.small_ask() else {
            return self.invoke_function(alloc, program, code);
        };
        let Ok(effect) = answer(alloc, &mut self.state, &self.frames, ask) else {
            return Step::NoMemory;
        };
        match effect {
            Told::Goes(told) => {
                let cursor = &mut self.frames.top.cursor;
                step_into(code, input, cursor, told, &mut self.left, &mut self.ask);
                Step::Made
            }
            Told::Turns(how, part) => self.invoke_turns(alloc, program, code, how, &part),
            Told::Ends(result) => self.end(alloc, program, code, input, result),
            Told::Stops(fault) => Step::Stops(fault),
            Told::Full => Step::Stops(Fault::TooManyEvents),
        }
    }

    /// Makes more events of the running frame, up to its next invocation, its end or a fault.
    ///
    /// Each request is answered in this loop, and the cursor is a local value, so that the place and
    /// the operands' top stay in registers. Each caller takes another `COPY`, so that the compiler
    /// makes the loop a part of each.
    pub fn run_on<const COPY: bool>(
        &mut self,
        alloc: Global,
        program: &Program,
        code: &Code,
        input: &Input,
    ) -> Result<(), AllocError>
        requires { Going code.now (source program.now) input.now self.old }
        ensures going { OnOk result (Going code.now (source program.now) input.now self.new) }
        ensures later { OnOk result (AddsNoFrame self.old.state self.new.state) }
    {
        let Some(ask) = self.ask.small_ask() else {
            return Ok(());
        };
        let Told::Goes(told) = answer(alloc, &mut self.state, &self.frames, ask)? else {
            return Ok(());
        };
        let mut cursor = mem::replace(&mut self.frames.top.cursor, Cursor::idle(alloc));
        let mut left = self.left;
        cursor.receive(told);
        let instrs = code.instrs();
        'each: loop {
            if exec_plain(code, instrs, &mut cursor, &mut left) {
                continue 'each;
            }
            match exec_instr(code, instrs, input, &mut cursor, &mut left) {
                Moved::Goes => {}
                Moved::Waits(ask) => match answer(alloc, &mut self.state, &self.frames, &ask) {
                    Ok(effect) => match effect {
                        Told::Goes(told) => cursor.receive(told),
                        _ => return Ok(self.pause(cursor, left, ask)),
                    },
                    Err(error) => return Err(self.give_up(cursor, left, error)),
                },
                Moved::Stops(ask) => return Ok(self.pause(cursor, left, ask)),
                Moved::Invokes(number) => {
                    self.put_back(cursor, left);
                    invoke(code, &mut self.frames.top.cursor, number, &mut self.ask);
                    return Ok(());
                }
            }
        }
    }

    // Puts the running frame's cursor back, with the ticks that are left.
    #[inline(always)]
    fn put_back(&mut self, cursor: Cursor, left: u32)
        ensures { self.new ≡ run_of self.old.state self.old.frames cursor self.old.ask left }
    {
        self.frames.top.cursor = cursor;
        self.left = left;
    }

    // Puts the running frame's cursor back after memory was refused. To drop it instead would keep
    // it in memory in the whole loop.
    #[inline(always)]
    fn give_up(&mut self, cursor: Cursor, left: u32, error: AllocError) -> AllocError
        ensures { self.new ≡ run_of self.old.state self.old.frames cursor self.old.ask left }
    {
        self.put_back(cursor, left);
        error
    }

    // Puts the running frame's cursor back, with its next request.
    #[inline(always)]
    fn pause(&mut self, cursor: Cursor, left: u32, ask: SmallAsk)
        ensures { self.new ≡ run_of self.old.state self.old.frames cursor (in_full ask) left }
    {
        self.ask.put(ask);
        self.put_back(cursor, left);
    }

    /// Makes all remaining events, up to the end or a fault.
    pub fn complete(
        &mut self,
        alloc: Global,
        program: &Program,
        code: &Code,
        input: &Input,
    ) -> Result<Halt, AllocError>
        requires { Going code.now (source program.now) input.now self.old }
        ensures halts { IfOk result (λ halt. Halts code.now (source program.now) input.now self.new halt) }
        ensures later { OnOk result (IsLater self.old.state self.new.state) }
    {
        'each: loop {
            self.run_on::<false>(alloc, program, code, input)?;
            match self.step::<false>(alloc, program, code, input) {
                Step::Made => {}
                Step::Last(result) => return Ok(Halt::Ended(result)),
                Step::Stops(fault) => return Ok(Halt::Stopped(fault)),
                Step::NoMemory => return Err(AllocError),
            }
        }
    }

    /// Returns the place of the instruction that the next event comes from, or that can't be done.
    pub fn place(&self) -> usize {
        let place = self.frames.top.cursor.place();
        match self.ask.small_ask() {
            Some(SmallAsk::Begin | SmallAsk::End(_) | SmallAsk::Fault(_)) => place,
            _ => place.saturating_sub(1),
        }
    }

    /// Returns the state.
    pub fn into_state(self) -> State
        ensures { result ≡ self.state }
    {
        let Running {
            state,
            frames: _frames,
            ask: _ask,
            left: _left,
        } = self;
        state
    }

    /// Begins the frame of the requested function, unless a limit of events, frames or cells is
    /// met.
    #[inline(never)]
    pub fn invoke_function(&mut self, alloc: Global, program: &Program, code: &Code) -> Step
        requires going { (inputs : List ℤ) × Going code.now (source program.now) inputs self.old }
        requires begins { IsFunctionCall self.old.ask }
        ensures { (inputs : List ℤ) → Going code.now (source program.now) inputs self.old → Progresses code.now (source program.now) inputs self.old result self.new }
    {
        let operands = self.ask.spare(alloc);
        let (how, call) = self.ask.invocation();
        let cells = function_cells(program, call.function);
        if let Some(fault) = crowded(&self.state, cells) {
            return Step::Stops(fault);
        }
        match function(alloc, operands, code, &self.state, &self.frames, call) {
            Ok(frame) => self.begin(how, cells, frame),
            Err(_) => Step::NoMemory,
        }
    }

    /// Begins the frame of some turns of a loop, unless a limit of events, frames or cells is met.
    #[inline(never)]
    pub fn invoke_turns(
        &mut self,
        alloc: Global,
        program: &Program,
        code: &Code,
        how: Invocation,
        part: &LoopPart,
    ) -> Step
        requires going { (inputs : List ℤ) × Going code.now (source program.now) inputs self.old }
        requires begins { self.old.ask ≡ Invoke how (callees.Loop part.now) }
        ensures { (inputs : List ℤ) → Going code.now (source program.now) inputs self.old → Progresses code.now (source program.now) inputs self.old result self.new }
    {
        let cells = turn_cells(program, part);
        if let Some(fault) = crowded(&self.state, cells) {
            return Step::Stops(fault);
        }
        let operands = self.ask.spare(alloc);
        match turns(alloc, operands, code, &self.state, &self.frames, part) {
            Ok(frame) => self.begin(how, cells, frame),
            Err(_) => Step::NoMemory,
        }
    }

    // Begins a child with `cells` cells. The frame that requested it waits.
    #[inline(always)]
    fn begin(&mut self, how: Invocation, cells: u32, child: Activation<Cursor>) -> Step
        requires { self.old.state.frames < MAX_FRAMES }
        ensures { HasBegunIf result self.old self.new how cells child }
    {
        let Ok(()) = self.state.begin(how, cells) else {
            return Step::NoMemory;
        };
        let Ok(()) = self.frames.push(child) else {
            return Step::NoMemory;
        };
        self.ask.put(SmallAsk::Begin);
        Step::Made
    }

    /// Ends the running frame with a value, and continues the frame that waits for it, if there is
    /// one.
    #[inline(never)]
    pub fn end(
        &mut self,
        alloc: Global,
        program: &Program,
        code: &Code,
        input: &Input,
        value: i64,
    ) -> Step
        requires going { Going code.now (source program.now) input.now self.old }
        requires ends { self.old.ask ≡ End value }
        ensures { Progresses code.now (source program.now) input.now self.old result self.new }
    {
        match self.state.make(Event::End) {
            Ok(_) => {}
            Err(Refused::Full) => return Step::Stops(Fault::TooManyEvents),
            Err(Refused::Memory) => return Step::NoMemory,
        }
        retire(program, &mut self.state, &self.frames.top);
        let operands = self.frames.top.cursor.take_operands(alloc);
        self.ask.keep(alloc, operands);
        let goes_on = self.frames.pop();
        if !goes_on {
            return Step::Last(value);
        }
        step_into(
            code,
            input,
            &mut self.frames.top.cursor,
            Answer::Done,
            &mut self.left,
            &mut self.ask,
        );
        Step::Made
    }
}

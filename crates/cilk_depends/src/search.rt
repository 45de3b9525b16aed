//! The search for the numbers that decide.

use crate::frames::{Frame, Word, plain};
use crate::graph::{Graph, Node, Place, Spot, What};
use crate::memory::Memory;
use crate::operators::{apply, change, divides, truth_of};
use cilk_lower::code::{Code, Instr};
use cilk_lower::layout::PlannedFrame;
use cilk_program::ask::Callee;
use cilk_program::program::{Body, Program};
use cilk_program::syntax::Operator;
use cilk_types::compound::Compound;
use cilk_types::event::{Event, Instance};
use cilk_types::input::Input;
use cilk_types::limits::MAX_TICKS;
use cilk_types::word;
use std::alloc::{AllocError, Global};
use std::mem;

/// For each number of the input, whether it decides or was fixed, and the places of the text where
/// numbers that weren't fixed decide, in the order in which the run comes to them.
#[derive(Drop)]
pub struct Found {
    pub decides: Vec<bool>,
    pub places: Vec<Place>,
}

/// A serial run that has ended: its program's code, its events, and its frames in the order in which
/// they began.
#[derive(Clone, Copy)]
pub struct Run<'a> {
    pub code: &'a Code,
    pub events: &'a [Event],
    pub frames: &'a [PlannedFrame],
}

/// Searches a serial run of a program for the numbers of its input that decide. Numbers of which
/// `fixed` holds count as part of the program; it has a flag for each number. Cost: linear in the
/// run's ticks.
pub fn search(
    alloc: Global,
    program: &Program,
    input: &Input,
    run: Run<'_>,
    fixed: &[bool],
) -> Result<Found, AllocError> {
    let root = run.code.entry(&Callee::Root).place;
    let mut pass = Pass {
        alloc,
        program,
        code: run.code,
        input,
        events: run.events,
        frames: run.frames,
        top: Frame::new(alloc, root),
        below: Vec::new(alloc),
        spares: Vec::new(alloc),
        memory: Memory::new(alloc),
        graph: Graph::new(alloc, fixed)?,
        left: MAX_TICKS,
    };
    pass.run()?;
    let Pass {
        alloc: _,
        program: _,
        code: _,
        input: _,
        events: _,
        frames: _,
        top: _top,
        below: _below,
        spares: _spares,
        memory: _memory,
        graph,
        left: _,
    } = pass;
    let (decides, places) = graph.into_parts();
    Ok(Found { decides, places })
}

/// The run so far: the events and the frames that are left, the running frame and those that wait for a
/// child.
#[derive(Drop)]
struct Pass<'a> {
    alloc: Global,
    program: &'a Program,
    code: &'a Code,
    input: &'a Input,
    events: &'a [Event],
    frames: &'a [PlannedFrame],
    top: Frame,
    below: Vec<Frame>,
    // frames that have ended, for their room
    spares: Vec<Frame>,
    memory: Memory,
    graph: Graph,
    left: u32,
}

impl Pass<'_> {
    // Goes through the run, as long as there are numbers of which it isn't known that they decide.
    fn run(&mut self) -> Result<(), AllocError> {
        if self.graph.all_decide() {
            return Ok(());
        }
        // the root begins
        self.begin();
        self.meet();
        for _step in 0..u64::MAX {
            if !self.step()? {
                break;
            }
        }
        Ok(())
    }

    // What a word comes from decides at a spot. Where no other number is left, the run's rest tells nothing more.
    fn decide(&mut self, set: Node, spot: Spot, what: What) -> Result<(), AllocError> {
        self.graph.decide(set, spot, what)?;
        if self.graph.all_decide() {
            self.events = &[];
        }
        Ok(())
    }

    // Takes the next event, if there is one more.
    fn meet(&mut self) -> Option<Event> {
        match self.events {
            [event, behind @ ..] => {
                self.events = behind;
                Some(*event)
            }
            [] => None,
        }
    }

    // Executes one instruction. False at the end of the run.
    fn step(&mut self) -> Result<bool, AllocError> {
        let code = self.code;
        let Some(instr) = code.instrs().get(self.top.place) else {
            return Ok(false);
        };
        let cost = ticks_of(instr);
        if self.left < cost {
            return Ok(false);
        }
        self.left -= cost;
        match instr {
            Instr::Tick => Ok(self.next()),
            Instr::Push(number) => self.push(plain(*number)),
            Instr::InputCount => self.push(plain(self.input.count())),
            Instr::Load(_) | Instr::LoadUncounted(_) | Instr::Value(_) => self.read(),
            Instr::LoadElement(_) => {
                self.index()?;
                self.read()
            }
            Instr::FetchElement(_) => {
                let index = self.index()?;
                self.top.push(index)?;
                self.read()
            }
            Instr::Invoke(_) | Instr::CallLoop(_) | Instr::SpawnHalf | Instr::CallHalf => {
                self.invoke(instr)
            }
            Instr::JumpIfZero(_)
            | Instr::SkipUnlessOne(_)
            | Instr::Jump(_)
            | Instr::JumpBack(_)
            | Instr::JumpBackUnlessZero(_) => self.jump(instr),
            Instr::SetResult => {
                self.top.held = self.top.pop();
                Ok(self.next())
            }
            Instr::End => self.end(),
            Instr::Apply(_)
            | Instr::ApplyNumber(_, _)
            | Instr::Combine(_)
            | Instr::AddNumber(_)
            | Instr::Negate
            | Instr::Not
            | Instr::Truth
            | Instr::Input => self.compute(instr),
            _ => self.send(instr),
        }
    }

    // Continues at the next instruction.
    fn next(&mut self) -> bool {
        self.top.skip(0);
        true
    }

    // Pushes a word, and continues.
    fn push(&mut self, word: Word) -> Result<bool, AllocError> {
        self.top.push(word)?;
        Ok(self.next())
    }

    // The spot of the current instruction.
    fn spot(&self) -> Spot {
        let at = self.code.origin(self.top.place);
        Spot { at, statement: at }
    }

    // Computes a word from operands. False at a fault.
    fn compute(&mut self, instr: &Instr) -> Result<bool, AllocError> {
        match instr {
            Instr::Apply(operator) => {
                let right = self.top.pop();
                self.apply(*operator, right)
            }
            Instr::ApplyNumber(operator, number) => {
                let goes = self.apply(*operator, plain(*number))?;
                self.top.skip(0);
                Ok(goes)
            }
            Instr::Combine(operator) => {
                let right = self.top.pop();
                let left = self.top.pop();
                let value = change(*operator, left.value, right.value);
                self.put(left, right, value)
            }
            Instr::AddNumber(number) => {
                let word = self.top.pop();
                let value = change(Compound::Add, word.value, *number);
                self.put(word, plain(*number), value)
            }
            Instr::Negate => {
                let word = self.top.pop();
                self.put(word, word, word::neg(word.value))
            }
            Instr::Not => {
                let word = self.top.pop();
                self.put(word, word, truth_of(word.value == 0))
            }
            Instr::Truth => {
                let word = self.top.pop();
                self.put(word, word, truth_of(word.value != 0))
            }
            Instr::Input => self.read_input(),
            _ => Ok(false),
        }
    }

    // Applies an operator to the operand on top and another one.
    fn apply(&mut self, operator: Operator, right: Word) -> Result<bool, AllocError> {
        let left = self.top.pop();
        if right.set != 0 && divides(operator) {
            let spot = self.spot();
            self.decide(right.set, spot, What::Divisor)?;
        }
        match apply(operator, left.value, right.value) {
            Some(value) => self.put(left, right, value),
            None => Ok(false),
        }
    }

    // Pushes a word that comes from two others.
    fn put(&mut self, left: Word, right: Word, value: i64) -> Result<bool, AllocError> {
        let set = self.union(left.set, right.set)?;
        self.push(Word { value, set })
    }

    // The set of a word that comes from two others.
    fn union(&mut self, one: Node, other: Node) -> Result<Node, AllocError> {
        if one == 0 && other == 0 {
            return Ok(0);
        }
        let spot = self.spot();
        self.graph.union(one, other, spot)
    }

    // Replaces a place of the input by the number there.
    fn read_input(&mut self) -> Result<bool, AllocError> {
        let place = self.top.pop();
        if place.set != 0 {
            let spot = self.spot();
            self.decide(place.set, spot, What::Input)?;
        }
        let Some(value) = self.input.at(place.value) else {
            return Ok(false);
        };
        let position = usize::try_from(place.value).unwrap_or(0);
        let set = self.graph.of_position(position);
        self.push(Word { value, set })
    }

    // Takes an index from the stack. It decides.
    fn index(&mut self) -> Result<Word, AllocError> {
        let index = self.top.pop();
        if index.set != 0 {
            let spot = self.spot();
            self.decide(index.set, spot, What::Index)?;
        }
        Ok(index)
    }

    // Pushes what the next event reads. False at the end of the run.
    fn read(&mut self) -> Result<bool, AllocError> {
        let (value, set) = match self.meet() {
            Some(Event::Read { cell, value }) => (value, self.memory.cell(cell)),
            Some(Event::Value { instance, value }) => (value, self.memory.view(instance)),
            _ => return Ok(false),
        };
        self.push(Word { value, set })
    }

    // Makes a request that pushes nothing, with the set of the word that it sends. False at the end of the run.
    fn send(&mut self, instr: &Instr) -> Result<bool, AllocError> {
        let set = match instr {
            Instr::Store(_) | Instr::Print | Instr::Update(_) | Instr::Set(_) => self.top.pop().set,
            Instr::StoreElement(_) => {
                let sent = self.top.pop();
                self.index()?;
                sent.set
            }
            Instr::Word(number) => match self.top.words.get(*number as usize) {
                Some(word) => word.set,
                None => 0,
            },
            Instr::GiveResult => return self.give_result(),
            _ => 0,
        };
        match self.meet() {
            Some(Event::Write { cell, value: _ }) => self.memory.write(cell, set)?,
            Some(Event::Update { instance, value: _ } | Event::Set { instance, value: _ }) => {
                self.update(instance, set)?
            }
            Some(Event::Sync) => self.top.stack.clear(),
            Some(Event::Print { .. } | Event::Create { .. } | Event::Resume { .. }) => {}
            _ => return Ok(false),
        }
        Ok(self.next())
    }

    // Writes the result, if a variable takes it. It adds to what its cell had before.
    fn give_result(&mut self) -> Result<bool, AllocError> {
        if let Some(Event::End) = self.events.first() {
            return Ok(self.next());
        }
        let Some(Event::Write { cell, value: _ }) = self.meet() else {
            return Ok(false);
        };
        let old = self.memory.cell(cell);
        let set = self.union(old, self.top.held.set)?;
        self.memory.write(cell, set)?;
        Ok(self.next())
    }

    // A view comes from all words that it took.
    fn update(&mut self, instance: Instance, sent: Node) -> Result<(), AllocError> {
        let old = self.memory.view(instance);
        let set = self.union(old, sent)?;
        self.memory.set_view(instance, set)
    }

    // Begins a child, after the event of its call or spawn and that of its begin.
    fn invoke(&mut self, instr: &Instr) -> Result<bool, AllocError> {
        let child = match instr {
            Instr::Invoke(_) => self.callee()?,
            Instr::CallLoop(number) => {
                let high = self.top.pop();
                let low = self.top.pop();
                let spot = self.spot();
                self.decide(low.set, spot, What::Bound)?;
                self.decide(high.set, spot, What::Bound)?;
                if low.value >= high.value {
                    self.top.skip(1);
                    return Ok(true);
                }
                let place = self.code.loop_entry(*number).place;
                self.turns(place, low.value, high.value)
            }
            _ => self.half(matches!(instr, Instr::SpawnHalf)),
        };
        self.begin();
        self.top.stack.clear();
        self.top.skip(0);
        let parent = mem::replace(&mut self.top, child);
        self.below.push(parent)?;
        self.meet();
        Ok(self.meet().is_some())
    }

    // The frame of a half of this frame's turns.
    fn half(&mut self, is_first: bool) -> Frame {
        let middle = self.top.middle();
        let (low, high) = if is_first {
            (self.top.low, middle)
        } else {
            (middle, self.top.high)
        };
        self.turns(self.top.begun, low, high)
    }

    // The frame of a loop's turns.
    fn turns(&mut self, place: usize, low: i64, high: i64) -> Frame {
        let mut frame = self.frame(place);
        frame.low = low;
        frame.high = high;
        frame
    }

    // A frame before its first instruction, in the room of one that has ended, if there is one.
    fn frame(&mut self, place: usize) -> Frame {
        match self.spares.pop() {
            Some(spare) => spare.again(place),
            None => Frame::new(self.alloc, place),
        }
    }

    // Takes the next frame.
    fn begin(&mut self) {
        if let [_begun, behind @ ..] = self.frames {
            self.frames = behind;
        }
    }

    // The frame of the function that is called or spawned next. Its words are on top.
    fn callee(&mut self) -> Result<Frame, AllocError> {
        let number = match self.frames.first() {
            Some(frame) => function_of(frame.body),
            None => 0,
        };
        let words = match self.program.functions.get(number as usize) {
            Some(function) => function.words as usize,
            None => 0,
        };
        let mut child = self.frame(self.code.function_entry(number).place);
        let first = self.top.stack.len().saturating_sub(words);
        child
            .words
            .extend_from_slice(&self.top.stack.as_slice()[first..])?;
        Ok(child)
    }

    // Jumps, or continues.
    fn jump(&mut self, instr: &Instr) -> Result<bool, AllocError> {
        match instr {
            Instr::JumpIfZero(count) => {
                if self.decided()? {
                    self.top.skip(0);
                } else {
                    self.top.skip(*count);
                }
            }
            Instr::JumpBackUnlessZero(count) => {
                if self.decided()? {
                    self.top.go_back(*count);
                } else {
                    self.top.skip(0);
                }
            }
            Instr::SkipUnlessOne(count) => {
                let is_single = self.top.high.saturating_sub(1) == self.top.low;
                self.top.skip(if is_single { 0 } else { *count });
            }
            Instr::Jump(count) => self.top.skip(*count),
            Instr::JumpBack(count) => self.top.go_back(*count),
            _ => return Ok(false),
        }
        Ok(true)
    }

    // Whether the condition on top holds. The place is that of the instruction before the jump, which made
    // the condition.
    fn decided(&mut self) -> Result<bool, AllocError> {
        let word = self.top.pop();
        if word.set != 0 {
            let spot = Spot {
                at: self.code.origin(self.top.place.saturating_sub(1)),
                statement: self.code.origin(self.top.place),
            };
            self.decide(word.set, spot, What::Condition)?;
        }
        Ok(word.value != 0)
    }

    // Ends the frame. False if it is the root.
    fn end(&mut self) -> Result<bool, AllocError> {
        self.meet();
        match self.below.pop() {
            Some(parent) => {
                let ended = mem::replace(&mut self.top, parent);
                self.spares.push(ended)?;
                Ok(true)
            }
            None => Ok(false),
        }
    }
}

// The function whose body this is.
fn function_of(body: Body) -> u32 {
    match body {
        Body::Function(number) => number,
        Body::Loop(_) => 0,
    }
}

// The ticks that an instruction uses.
fn ticks_of(instr: &Instr) -> u32 {
    match instr {
        Instr::Tick
        | Instr::Push(_)
        | Instr::Load(_)
        | Instr::LoadElement(_)
        | Instr::Negate
        | Instr::Not
        | Instr::Apply(_)
        | Instr::Truth
        | Instr::Value(_)
        | Instr::Input
        | Instr::InputCount => 1,
        Instr::ApplyNumber(_, _) => 2,
        _ => 0,
    }
}

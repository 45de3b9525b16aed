//! The state of a frame in its code.

ghost use Rattle.std.specs.Prelude.{◌≡◌, ◌≢◌, ◌+◌, ◌-◌, ◌<◌, ◌≤◌, ◌^◌, ◌∷◌, length, slice_get, suc, ℤ, List, [], IfOk, IfSome, IsSome, MatchOption, None, Some};
ghost use Rattle.cilk_program.specs.Syntax.{Source};
ghost use Rattle.cilk_program.specs.Inside.{CalleeIsFit};
ghost use Rattle.cilk_program.specs.declared.ask.Ask.TheVariants.{Begin};
ghost use Rattle.cilk_lower.specs.Behaves.{Behaves};
ghost use Rattle.cilk_lower.specs.Machine.{Goes, Move, Stuck, on_two, on_words};
ghost use Rattle.cilk_frames.specs.Cursor.{begins_at, first_of};
ghost use Rattle.cilk_frames.specs.Following.{Fits, Stands, child_of, owed_for};
ghost use Rattle.cilk_frames.specs.Moving.{HasRoom, told};

use crate::operands::{LastOperands, Operands};
use cilk_lower::code::{Code, EntryPoint, Owed};
use cilk_program::ask::{Ask, Callee, FunctionCall, LoopPart};
use cilk_program::given::Words;
use std::alloc::{AllocError, Global};
use std::marker::Model;
use std::mem;

/// The answer to a frame's request.
#[derive(Clone, Copy)]
pub enum Answer {
    /// The event was made. This is the answer to each request except `Read` and `Value`.
    Done,
    /// The value that was read, or the number of a view.
    Value(i64),
}

/// A frame between two steps: its arguments, the place of the next instruction, its operands,
/// whether it is owed a word, and its result so far.
#[derive(Drop)]
pub struct Cursor {
    place: usize,
    operands: Operands,
    held: i64,
    // The turns of a loop, if the frame runs some. They are plain fields, and the small ones stand
    // together: the padding of an `Option` would be copied by itself wherever a cursor is moved.
    low: i64,
    high: i64,
    number: u32,
    runs_turns: bool,
    takes: bool,
    owed: Owed,
    up: u32,
}

impl Model for Cursor {
    ghost use Rattle.cilk_frames.specs.Cursor.{CursorView, turns_if};

    ghost Value = { CursorView };

    ghost view = { λ c. record { given = record { words = c.operands.words; part = turns_if c.runs_turns (record { number = c.number; up = c.up; low = c.low; high = c.high }); takes = c.takes }; place = c.place; owed = c.owed; stack = c.operands.stack; room = c.operands.room; held = c.held } };
}

impl Cursor {
    /// Returns the root's frame before it begins. Allocates room for its words and operands.
    #[tactic(auto, using(crate::proofs::Following::root_stands))]
    pub fn root(alloc: Global, code: &Code) -> Result<Cursor, AllocError>
        ensures stands { IfOk result (λ c. (p : Source) (inputs : List ℤ) → Behaves p code.now → Stands code.now inputs p Callee.Root c [] 0) }
        ensures first { IfOk result (λ c. c ≡ first_of code.now Callee.Root) }
        ensures owes { IfOk result (λ c. c.owed ≡ owed_for Begin) }
    {
        let none = Operands::empty(alloc);
        Cursor::first(alloc, none, code.entry(&Callee::Root), &[], false)
    }

    /// Returns a cursor of no frame, for the time in which a frame's own is elsewhere. Allocates
    /// nothing.
    #[inline(always)]
    pub fn idle(alloc: Global) -> Cursor {
        Cursor {
            place: 0,
            operands: Operands::empty(alloc),
            held: 0,
            low: 0,
            high: 0,
            number: 0,
            runs_turns: false,
            takes: false,
            owed: Owed::Nothing,
            up: 0,
        }
    }

    /// Returns the frame that an invocation requests, before it begins. Allocates room for its
    /// words and operands.
    pub fn new(alloc: Global, code: &Code, ask: &Ask) -> Result<Cursor, AllocError>
        requires { IsSome (child_of ask.now) }
        ensures stands { IfOk result (λ c. IfSome (child_of ask.now) (λ callee. (p : Source) (inputs : List ℤ) → Behaves p code.now → CalleeIsFit p callee → Stands code.now inputs p callee c [] 0)) }
        ensures first { IfOk result (λ c. IfSome (child_of ask.now) (λ callee. c ≡ first_of code.now callee)) }
        ensures owes { IfOk result (λ c. c.owed ≡ owed_for Begin) }
    {
        match invoked(ask).unwrap() {
            Callee::Root => Cursor::root(alloc, code),
            Callee::Function(call) => Cursor::function(alloc, code, call),
            Callee::Loop(part) => Cursor::turns(alloc, code, part),
        }
    }

    /// Returns the frame of a called function before it begins. Allocates room for its words and
    /// operands.
    pub fn function(alloc: Global, code: &Code, call: &FunctionCall) -> Result<Cursor, AllocError>
        ensures stands { IfOk result (λ c. (p : Source) (inputs : List ℤ) → Behaves p code.now → CalleeIsFit p (Callee.Function call.now) → Stands code.now inputs p (Callee.Function call.now) c [] 0) }
        ensures first { IfOk result (λ c. c ≡ first_of code.now (Callee.Function call.now)) }
        ensures owes { IfOk result (λ c. c.owed ≡ owed_for Begin) }
    {
        Cursor::function_in::<false>(alloc, Operands::empty(alloc), code, call)
    }

    /// Returns the same frame as [`Cursor::function`], in the operands of a frame that has ended.
    /// Hot callers take another `COPY` than others, so that the compiler makes this a part of each.
    #[inline(always)]
    pub fn function_in<const COPY: bool>(
        alloc: Global,
        operands: Operands,
        code: &Code,
        call: &FunctionCall,
    ) -> Result<Cursor, AllocError>
        ensures stands { IfOk result (λ c. (p : Source) (inputs : List ℤ) → Behaves p code.now → CalleeIsFit p (Callee.Function call.now) → Stands code.now inputs p (Callee.Function call.now) c [] 0) }
        ensures first { IfOk result (λ c. c ≡ first_of code.now (Callee.Function call.now)) }
        ensures owes { IfOk result (λ c. c.owed ≡ owed_for Begin) }
    {
        let entry = code.function_entry(call.function);
        Cursor::first(
            alloc,
            operands,
            entry,
            call.words.as_slice(),
            call.result.is_some(),
        )
    }

    /// Returns the frame of some turns of a loop before it begins. Allocates room for its operands.
    pub fn turns(alloc: Global, code: &Code, part: &LoopPart) -> Result<Cursor, AllocError>
        ensures stands { IfOk result (λ c. (p : Source) (inputs : List ℤ) → Behaves p code.now → CalleeIsFit p (Callee.Loop part.now) → Stands code.now inputs p (Callee.Loop part.now) c [] 0) }
        ensures first { IfOk result (λ c. c ≡ first_of code.now (Callee.Loop part.now)) }
        ensures owes { IfOk result (λ c. c.owed ≡ owed_for Begin) }
    {
        Cursor::turns_in::<false>(alloc, Operands::empty(alloc), code, part)
    }

    /// Returns the same frame as [`Cursor::turns`], in the operands of a frame that has ended.
    /// `COPY` is as there.
    #[inline(always)]
    pub fn turns_in<const COPY: bool>(
        alloc: Global,
        operands: Operands,
        code: &Code,
        part: &LoopPart,
    ) -> Result<Cursor, AllocError>
        ensures stands { IfOk result (λ c. (p : Source) (inputs : List ℤ) → Behaves p code.now → CalleeIsFit p (Callee.Loop part.now) → Stands code.now inputs p (Callee.Loop part.now) c [] 0) }
        ensures first { IfOk result (λ c. c ≡ first_of code.now (Callee.Loop part.now)) }
        ensures owes { IfOk result (λ c. c.owed ≡ owed_for Begin) }
    {
        let entry = code.loop_entry(part.number);
        let mut cursor = Cursor::first(alloc, operands, entry, &[], false)?;
        cursor.run_turns(*part);
        Ok(cursor)
    }

    // A frame that runs no turns of a loop.
    #[inline(always)]
    fn first(
        alloc: Global,
        operands: Operands,
        entry: EntryPoint,
        words: &[i64],
        takes: bool,
    ) -> Result<Cursor, AllocError>
        ensures { IfOk result (λ c. c ≡ begins_at entry (record { words = words.now; part = None; takes = takes })) }
    {
        let operands = operands.again(alloc, entry.room, words)?;
        Ok(Cursor {
            place: entry.place,
            operands,
            held: 0,
            low: 0,
            high: 0,
            number: 0,
            runs_turns: false,
            takes,
            owed: Owed::Nothing,
            up: 0,
        })
    }

    // Has the frame run some turns of a loop.
    #[inline(always)]
    fn run_turns(&mut self, part: LoopPart)
        ensures { self.new ≡ record self.old { given = record self.old.given { part = Some part } } }
    {
        self.low = part.low;
        self.high = part.high;
        self.number = part.number;
        self.runs_turns = true;
        self.up = part.up;
    }

    /// Takes the operands of a frame that has ended, for another frame.
    #[inline(always)]
    pub fn take_operands(&mut self, alloc: Global) -> Operands {
        mem::replace(&mut self.operands, Operands::empty(alloc))
    }

    /// Returns the place of the next instruction.
    #[inline(always)]
    pub fn place(&self) -> usize
        ensures { result ≡ self.now.place }
    {
        self.place
    }

    /// Returns the operand on top; 0 if there is none.
    pub fn top(&self) -> i64
        ensures { (x : ℤ) (rest : List ℤ) → self.now.stack ≡ x ∷ rest → result ≡ x }
    {
        self.operands.top()
    }

    /// Returns the operand on top and the two that were popped last. For messages: nothing is proved
    /// of them.
    pub fn last_operands(&self) -> LastOperands {
        self.operands.last()
    }

    // The frame's result so far.
    #[inline(always)]
    pub(crate) fn held(&self) -> i64
        ensures { result ≡ self.now.held }
    {
        self.held
    }

    // A word that the frame was given.
    #[inline(always)]
    pub(crate) fn word(&self, number: usize) -> i64
        requires { slice_get self.now.given.words number ≢ None }
        ensures { slice_get self.now.given.words number ≡ Some result }
    {
        self.operands.word(number)
    }

    // The turns of a loop that the frame runs.
    #[inline(always)]
    pub(crate) fn part(&self) -> LoopPart
        requires { self.now.given.part ≢ None }
        ensures { self.now.given.part ≡ Some result }
    {
        LoopPart {
            number: self.number,
            up: self.up,
            low: self.low,
            high: self.high,
        }
    }

    // Whether the caller takes the frame's result.
    #[inline(always)]
    pub(crate) fn gives_result(&self) -> bool
        ensures { result ≡ self.now.given.takes }
    {
        self.takes
    }

    /// Takes an answer, and pushes its value if it has one.
    #[inline(always)]
    pub fn receive(&mut self, answer: Answer)
        requires fits { Fits self.old.owed answer }
        requires room { HasRoom self.old }
        ensures { self.new ≡ told self.old answer }
    {
        match answer {
            Answer::Done => {}
            Answer::Value(word) => self.operands.push(word),
        }
    }

    #[inline(always)]
    pub(crate) fn push(&mut self, word: i64)
        requires { length self.old.stack < self.old.room }
        ensures { self.new ≡ record self.old { stack = word ∷ self.old.stack } }
    {
        self.operands.push(word);
    }

    #[inline(always)]
    pub(crate) fn pop(&mut self) -> i64
        requires { self.old.stack ≢ [] }
        ensures stack { self.old.stack ≡ result ∷ self.new.stack }
        ensures place { self.new.place ≡ self.old.place }
        ensures owed { self.new.owed ≡ self.old.owed }
        ensures room { self.new.room ≡ self.old.room }
        ensures given { self.new.given ≡ self.old.given }
        ensures held { self.new.held ≡ self.old.held }
        ensures bound { length self.new.stack < self.new.room }
    {
        self.operands.pop()
    }

    // Pops an operator's two operands.
    #[inline(always)]
    pub(crate) fn pop_two(&mut self) -> (i64, i64)
        requires { on_two self.old.stack (λ x y rest. Goes 0 rest x 0) ≢ Stuck }
        ensures stack { self.old.stack ≡ result.1 ∷ (result.0 ∷ self.new.stack) }
        ensures place { self.new.place ≡ self.old.place }
        ensures owed { self.new.owed ≡ self.old.owed }
        ensures room { self.new.room ≡ self.old.room }
        ensures given { self.new.given ≡ self.old.given }
        ensures held { self.new.held ≡ self.old.held }
        ensures bound { suc (length self.new.stack) < self.new.room }
    {
        let y = self.pop();
        let x = self.pop();
        (x, y)
    }

    // Pops `count` operands into `words`, in the order of their pushes.
    pub(crate) fn gather(&mut self, count: usize, words: &mut Words)
        requires few { count ≤ 16 }
        requires there { count ≤ length self.old.stack }
        ensures words { (go : List ℤ → List ℤ → Move) → on_words count [] self.old.stack go ≡ go words.new self.new.stack }
        ensures place { self.new.place ≡ self.old.place }
        ensures owed { self.new.owed ≡ self.old.owed }
        ensures room { self.new.room ≡ self.old.room }
        ensures given { self.new.given ≡ self.old.given }
        ensures held { self.new.held ≡ self.old.held }
    {
        self.operands.gather(count, words);
    }

    // For the proof only: the stack is empty, because any operand would leave the machine stuck.
    #[tactic(auto, using(crate::proofs::Given::none_there))]
    #[inline(always)]
    pub(crate) fn no_operand_waits(&self)
        requires { (x : ℤ) (rest : List ℤ) → self.now.stack ≢ (x ∷ rest) }
        ensures { self.now.stack ≡ [] }
    {}

    // Keeps a word as the frame's result.
    #[inline(always)]
    pub(crate) fn hold(&mut self, word: i64)
        ensures { self.new ≡ record self.old { held = word } }
    {
        self.held = word;
    }

    // Continues after skipping `count` instructions.
    #[inline(always)]
    pub(crate) fn skip(&mut self, count: usize)
        requires { self.old.place + 1 + count < 2 ^ 64 }
        ensures { self.new ≡ record self.old { place = self.old.place + 1 + count } }
    {
        self.place += 1 + count;
    }

    // Continues with the next instruction.
    #[inline(always)]
    pub(crate) fn next(&mut self)
        requires { self.old.place + 1 < 2 ^ 64 }
        ensures { self.new ≡ record self.old { place = self.old.place + 1 } }
    {
        self.place += 1;
    }

    // Continues after skipping the next instruction.
    #[inline(always)]
    pub(crate) fn pass_next(&mut self)
        requires { self.old.place + 2 < 2 ^ 64 }
        ensures { self.new ≡ record self.old { place = self.old.place + 2 } }
    {
        self.place += 2;
    }

    // Goes back `count` instructions.
    #[inline(always)]
    pub(crate) fn go_back(&mut self, count: usize)
        requires { count ≤ self.old.place }
        ensures { self.new ≡ record self.old { place = self.old.place - count } }
    {
        self.place -= count;
    }

    // Continues with the next instruction once the answer has come.
    #[inline(always)]
    pub(crate) fn wait(&mut self, owed: Owed)
        requires { self.old.place + 1 < 2 ^ 64 }
        ensures { self.new ≡ record self.old { place = self.old.place + 1; owed = owed } }
    {
        self.owed = owed;
        self.place += 1;
    }
}

// The callee of an invocation; none for other requests.
fn invoked(ask: &Ask) -> Option<&Callee>
    ensures { MatchOption result (child_of ask.now ≡ None) (λ callee. child_of ask.now ≡ Some callee.now) }
{
    match ask {
        Ask::Invoke(_, callee) => Some(callee),
        _ => None,
    }
}

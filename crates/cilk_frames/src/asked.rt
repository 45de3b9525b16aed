//! A slot for a frame's last request.

ghost use Rattle.std.specs.Prelude.{◌≡◌, ◌≤◌, [], length, ℤ, List, MatchOption, None, Some};
ghost use Rattle.cilk_program.specs.declared.ask.Ask.TheVariants.{Begin, Invoke};
ghost use Rattle.cilk_program.specs.declared.ask.Callee.TheVariants as callees;
ghost use Rattle.cilk_lower.specs.Machine.{Move, invoked, on_words};
ghost use Rattle.cilk_frames.specs.AskSlot.{IsFunctionCall, in_full, words_in};

use crate::cursor::Cursor;
use crate::operands::Operands;
use crate::small_ask::SmallAsk;
use cilk_lower::code::Site;
use cilk_program::ask::{Ask, Callee, FunctionCall};
use cilk_program::given::{References, Words};
use cilk_types::invocation::Invocation;
use std::alloc::Global;
use std::marker::Model;

// A loop of many turns, halved, has fewer frames at once. A chain of frames that end one after
// another would keep far more than the frames after it use.
const MAX_SPARES: usize = 64;

/// The last request of a frame. Most of an `Ask` is room for a function's arguments, and would be
/// copied at each step. Here it stays in one place, and is written only when a function is invoked.
/// The slot also keeps the operands of frames that have ended, so that frames that begin later need
/// not allocate theirs.
#[derive(Drop)]
pub struct AskSlot {
    // None if a function is invoked.
    small_ask: Option<SmallAsk>,
    how: Invocation,
    call: FunctionCall,
    // None before the first frame ends.
    spares: Option<Vec<Operands>>,
}

impl Model for AskSlot {
    ghost use Rattle.cilk_program.specs.declared.ask.Ask.{Ask};
    ghost use Rattle.cilk_frames.specs.AskSlot.{ask_of};

    ghost Value = { Ask };

    ghost view = { λ a. ask_of a.small_ask a.how a.call };
}

impl AskSlot {
    /// Returns a slot that holds the request `Begin`.
    pub fn new() -> AskSlot
        ensures { result ≡ Begin }
    {
        AskSlot {
            small_ask: Some(SmallAsk::Begin),
            how: Invocation::Call,
            call: FunctionCall {
                function: 0,
                words: Words::new(),
                reducers: References::new(),
                result: None,
            },
            spares: None,
        }
    }

    /// Keeps the operands of a frame that has ended. Those of the first one are dropped, and others if
    /// many are kept already, or if memory is refused.
    #[inline(always)]
    pub fn keep(&mut self, alloc: Global, operands: Operands)
        ensures { self.new ≡ self.old }
    {
        match &mut self.spares {
            Some(spares) => {
                if spares.len() < MAX_SPARES {
                    let _ = spares.push(operands);
                }
            }
            None => self.spares = Some(Vec::new(alloc)),
        }
    }

    /// Returns the operands that were kept last, or such without room.
    #[inline(always)]
    pub fn spare(&mut self, alloc: Global) -> Operands
        ensures { self.new ≡ self.old }
    {
        match &mut self.spares {
            Some(spares) => match spares.pop() {
                Some(operands) => operands,
                None => Operands::empty(alloc),
            },
            None => Operands::empty(alloc),
        }
    }

    /// Returns the request, unless it invokes a function.
    pub fn small_ask(&self) -> Option<&SmallAsk>
        ensures { MatchOption result (IsFunctionCall self.now) (λ b. self.now ≡ in_full b.now) }
    {
        self.small_ask.as_ref()
    }

    /// Returns the call or spawn of a function, with its arguments. The request must be one.
    pub fn invocation(&self) -> (Invocation, &FunctionCall)
        requires { IsFunctionCall self.now }
        ensures { self.now ≡ Invoke result.0 (callees.Function result.1.now) }
    {
        (self.how, &self.call)
    }

    /// Returns the request by value.
    pub fn in_full(&self) -> Ask
        ensures { result ≡ self.now }
    {
        match self.small_ask {
            Some(small_ask) => small_ask.in_full(),
            None => Ask::Invoke(self.how, function(&self.call)),
        }
    }

    /// Stores a request that doesn't invoke a function.
    pub fn put(&mut self, small_ask: SmallAsk)
        ensures { self.new ≡ in_full small_ask }
    {
        self.small_ask = Some(small_ask);
    }

    // Stores the invocation of a call site's function, with the words popped from a frame's
    // operands.
    pub(crate) fn invoke(&mut self, site: &Site, cursor: &mut Cursor)
        requires few { site.now.words ≤ 16 }
        requires there { site.now.words ≤ length cursor.old.stack }
        ensures asks { self.new ≡ invoked site.now (words_in self.new) }
        ensures words { (go : List ℤ → List ℤ → Move) → on_words site.now.words [] cursor.old.stack go ≡ go (words_in self.new) cursor.new.stack }
        ensures place { cursor.new.place ≡ cursor.old.place }
        ensures owed { cursor.new.owed ≡ cursor.old.owed }
        ensures room { cursor.new.room ≡ cursor.old.room }
        ensures given { cursor.new.given ≡ cursor.old.given }
        ensures held { cursor.new.held ≡ cursor.old.held }
    {
        self.small_ask = None;
        self.how = site.how;
        self.call.function = site.function;
        cursor.gather(site.words, &mut self.call.words);
        self.call.reducers.take_from(&site.reducers);
        self.call.result = site.result;
    }
}

// Returns a copy of a call as a callee.
fn function(call: &FunctionCall) -> Callee
    ensures { result ≡ callees.Function call.now }
{
    Callee::Function(FunctionCall {
        function: call.function,
        words: call.words.copied(),
        reducers: call.reducers.copied(),
        result: call.result,
    })
}

//! Notes: the steps of a replayed frame.

ghost use Rattle.std.specs.Prelude.{◌≡◌, ◌≤◌, length, IfOk, MatchOption, Some, option_map};
ghost use Rattle.cilk_frames.specs.Following.{child_of};
ghost use Rattle.cilk_frames.specs.declared.cursor.Answer.TheVariants.{Value};
ghost use Rattle.cilk_program.specs.declared.ask.Callee.TheVariants as callees;
ghost use Rattle.cilk_helpers.specs.Asked.{IsTooMuch, answer_of, answer_with, ask_in, call_in};

use crate::called::SmallCallee;
use cilk_frames::asked::AskSlot;
use cilk_frames::cursor::Answer;
use cilk_frames::small_ask::SmallAsk;
use cilk_program::ask::FunctionCall;
use cilk_program::given::{References, Words};
use cilk_program::syntax::{Place, Reducer};
use cilk_types::invocation::Invocation;
use std::alloc::{AllocError, Global};
use std::marker::Model;

/// A call of a function, like [`FunctionCall`], in only the memory that its words and reducers
/// need.
#[derive(Drop)]
pub struct Given {
    pub function: u32,
    pub words: Vec<i64>,
    pub reducers: Vec<Reducer>,
    pub result: Option<Place>,
}

impl Given {
    // The same call, in only the memory that it needs.
    fn of(alloc: Global, call: &FunctionCall) -> Result<Given, AllocError>
        ensures { IfOk result (λ given. call_in given ≡ call.now) }
    {
        Ok(Given {
            function: call.function,
            words: Vec::from_slice(alloc, call.words.as_slice())?,
            reducers: Vec::from_slice(alloc, call.reducers.as_slice())?,
            result: call.result,
        })
    }

    /// Returns a copy of the call.
    pub fn copy(&self, alloc: Global) -> Result<Given, AllocError>
        ensures { IfOk result (λ given. call_in given ≡ call_in self.now) }
    {
        Ok(Given {
            function: self.function,
            words: Vec::from_slice(alloc, self.words.as_slice())?,
            reducers: Vec::from_slice(alloc, self.reducers.as_slice())?,
            result: self.result,
        })
    }

    /// Returns the call, if its arguments are no more than a function can have.
    pub fn call(&self) -> Option<FunctionCall>
        ensures { MatchOption result (IsTooMuch (Some (callees.Function (call_in self.now)))) (λ call. call ≡ call_in self.now) }
    {
        if self.words.len() > 16 || self.reducers.len() > 16 {
            return None;
        }
        Some(FunctionCall {
            function: self.function,
            words: words(self.words.as_slice()),
            reducers: references(self.reducers.as_slice()),
            result: self.result,
        })
    }
}

/// A frame's request.
#[derive(Drop)]
pub enum Asked {
    SmallAsk(SmallAsk),
    /// A function is called or spawned.
    Function(Invocation, Box<Given>),
}

// The parts of a note, in an order in which they fill 48 bytes: whether the answer is a word, and
// which one, the request, and the ticks left.
#[derive(Drop)]
pub enum Parts {
    SmallAsk(bool, u32, i64, SmallAsk),
    Function(bool, Invocation, u32, i64, Box<Given>),
}

/// One step of a replayed frame: the answer that it receives, its next request, and the ticks left.
///
/// A note has 48 bytes; one that invokes a function has the arguments besides.
#[derive(Drop)]
pub struct Note {
    parts: Parts,
}

impl Model for Note {
    ghost use Rattle.cilk_helpers.specs.Asked.{NoteView, note_of};

    ghost Value = { NoteView };

    ghost view = { λ n. note_of n.parts };
}

impl Note {
    /// Makes a note.
    #[inline(always)]
    pub fn new(told: Answer, asked: Asked, left: u32) -> Note
        ensures { result ≡ record { told = told; ask = ask_in asked; left = left } }
    {
        let (is_word, word) = coded(told);
        let parts = match asked {
            Asked::SmallAsk(small_ask) => Parts::SmallAsk(is_word, left, word, small_ask),
            Asked::Function(how, given) => Parts::Function(is_word, how, left, word, given),
        };
        Note { parts }
    }

    /// Returns the answer, the request and the ticks left.
    #[inline(always)]
    pub fn into_parts(self) -> (Answer, Asked, u32)
        ensures told { result.0 ≡ self.told }
        ensures asks { ask_in result.1 ≡ self.ask }
        ensures left { result.2 ≡ self.left }
    {
        let Note { parts } = self;
        match parts {
            Parts::SmallAsk(is_word, left, word, small_ask) => {
                (answer(is_word, word), Asked::SmallAsk(small_ask), left)
            }
            Parts::Function(is_word, how, left, word, given) => {
                (answer(is_word, word), Asked::Function(how, given), left)
            }
        }
    }

    /// Returns the ticks left to the frame.
    pub fn left(&self) -> u32
        ensures { result ≡ self.now.left }
    {
        match &self.parts {
            Parts::SmallAsk(_, left, _, _) => *left,
            Parts::Function(_, _, left, _, _) => *left,
        }
    }

    /// Returns the callee of the frame that the request begins, if it begins one.
    pub fn child(&self, alloc: Global) -> Result<Option<SmallCallee>, AllocError>
        ensures { IfOk result (λ child. child ≡ child_of self.now.ask) }
    {
        match &self.parts {
            Parts::SmallAsk(_, _, _, SmallAsk::Turns(_, part)) => {
                Ok(Some(SmallCallee::turns(*part)))
            }
            Parts::SmallAsk(_, _, _, _) => Ok(None),
            Parts::Function(_, _, _, _, given) => Ok(Some(SmallCallee::function(alloc, given)?)),
        }
    }
}

impl Asked {
    /// Returns the request in a slot.
    pub fn of(alloc: Global, slot: &AskSlot) -> Result<Asked, AllocError>
        ensures { IfOk result (λ asked. ask_in asked ≡ slot.now) }
    {
        match slot.small_ask() {
            Some(small_ask) => Ok(Asked::SmallAsk(*small_ask)),
            None => {
                let (how, call) = slot.invocation();
                Ok(Asked::Function(how, Box::new(alloc, Given::of(alloc, call)?)?))
            }
        }
    }

    /// Returns the answer to the request: none after a frame's end or fault, and none if the answer
    /// is a word and `word` is absent.
    pub fn answer(&self, word: Option<i64>) -> Option<Answer>
        ensures { result ≡ answer_with (ask_in self.now) word }
    {
        match self {
            Asked::SmallAsk(SmallAsk::Read(_)) => valued(word),
            Asked::SmallAsk(SmallAsk::Value(_)) => valued(word),
            Asked::SmallAsk(SmallAsk::End(_)) => None,
            Asked::SmallAsk(SmallAsk::Fault(_)) => None,
            Asked::SmallAsk(_) => Some(Answer::Done),
            Asked::Function(_, _) => Some(Answer::Done),
        }
    }
}

// An answer as a flag and a word.
#[inline(always)]
fn coded(answer: Answer) -> (bool, i64)
    ensures { answer_of result.0 result.1 ≡ answer }
{
    match answer {
        Answer::Done => (false, 0),
        Answer::Value(word) => (true, word),
    }
}

// The answer of a flag and a word.
#[inline(always)]
fn answer(is_word: bool, word: i64) -> Answer
    ensures { result ≡ answer_of is_word word }
{
    if is_word {
        Answer::Value(word)
    } else {
        Answer::Done
    }
}

fn valued(word: Option<i64>) -> Option<Answer>
    ensures { result ≡ option_map (λ w. Value w) word }
{
    match word {
        Some(word) => Some(Answer::Value(word)),
        None => None,
    }
}

fn words(list: &[i64]) -> Words
    requires { length list.now ≤ 16 }
    ensures { result ≡ list.now }
{
    let mut words = Words::new();
    let mut next = list.len();
    'each: while next > 0 {
        next -= 1;
        words.put(list[next]);
    }
    words
}

fn references(list: &[Reducer]) -> References
    requires { length list.now ≤ 16 }
    ensures { result ≡ list.now }
{
    let mut references = References::new();
    let mut next = list.len();
    'each: while next > 0 {
        next -= 1;
        references.put(list[next]);
    }
    references
}

//! The words of a frame, allocated once.

ghost use Rattle.std.specs.Prelude.{◌≡◌, ◌≢◌, ◌<◌, ◌≤◌, ◌∷◌, [], length, slice_get, List, ℤ, IfOk, None, Some};
ghost use Rattle.cilk_lower.specs.Machine.{Move, on_words};

use cilk_program::given::Words;
use std::alloc::{AllocError, Global};
use std::marker::Model;

/// The words that a frame was given, and its operands: a stack of at most `room` words.
#[derive(Drop)]
pub struct Operands {
    // First the given words, then the room for the stack, which is filled from the end.
    items: Vec<i64>,
    given: usize,
    start: usize,
}

/// The operand on top of a frame's stack, the one that was popped last, and the one popped before it.
#[derive(Clone, Copy)]
pub struct LastOperands {
    pub top: i64,
    pub popped: i64,
    pub popped_before: i64,
}

impl Model for Operands {
    ghost use Rattle.cilk_frames.specs.Operands.{OperandsView};
    ghost use Rattle.std.specs.Prelude.{◌≤◌, ◌-◌, drop, take, length};

    ghost Value = { OperandsView };

    ghost view = { λ o. record { words = take o.given o.items.items; stack = drop o.start o.items.items; room = length o.items.items - o.given } };

    ghost invariant = { λ o. (o.given ≤ o.start) × (o.start ≤ length o.items.items) };
}

impl Operands {
    /// Allocates an empty stack with room for `room` operands, and copies the given words.
    pub fn new(alloc: Global, room: usize, words: &[i64]) -> Result<Operands, AllocError>
        ensures { IfOk result (λ o. o ≡ record { words = words.now; stack = []; room = room }) }
    {
        let total = room.saturating_add(words.len());
        let mut items = vec![in alloc; 0; total]?;
        'each: for number in 0..words.len() {
            items[number] = words[number];
        }
        Ok(Operands {
            items,
            given: words.len(),
            start: total,
        })
    }

    /// Makes an empty stack as [`Operands::new`] does, in the list of a frame that has ended.
    /// Allocates only if that list is too short.
    #[inline(always)]
    pub fn again(self, alloc: Global, room: usize, words: &[i64]) -> Result<Operands, AllocError>
        ensures { IfOk result (λ o. o ≡ record { words = words.now; stack = []; room = room }) }
    {
        let Operands {
            mut items,
            given: _,
            start: _,
        } = self;
        let total = room.saturating_add(words.len());
        if items.capacity() < total {
            return Operands::new(alloc, room, words);
        }
        items.resize(total, 0)?;
        'each: for number in 0..words.len() {
            items[number] = words[number];
        }
        Ok(Operands {
            items,
            given: words.len(),
            start: total,
        })
    }

    /// Returns operands without room. Allocates nothing.
    #[inline(always)]
    pub fn empty(alloc: Global) -> Operands {
        Operands {
            items: Vec::new(alloc),
            given: 0,
            start: 0,
        }
    }

    /// Returns a given word.
    #[inline(always)]
    pub fn word(&self, number: usize) -> i64
        requires { slice_get self.now.words number ≢ None }
        ensures { slice_get self.now.words number ≡ Some result }
    {
        let words = &self.items[..self.given];
        words[number]
    }

    /// Pushes a word.
    #[inline(always)]
    pub fn push(&mut self, word: i64)
        requires { length self.old.stack < self.old.room }
        ensures { self.new ≡ record self.old { stack = word ∷ self.old.stack } }
    {
        self.start -= 1;
        self.items[self.start] = word;
    }

    /// Pops a word.
    #[inline(always)]
    pub fn pop(&mut self) -> i64
        requires { self.old.stack ≢ [] }
        ensures stack { self.old.stack ≡ result ∷ self.new.stack }
        ensures bound { length self.new.stack < self.new.room }
        ensures room { self.new.room ≡ self.old.room }
        ensures words { self.new.words ≡ self.old.words }
    {
        let word = self.items[self.start];
        self.start += 1;
        word
    }

    /// Returns the word on top; 0 if there is none.
    pub fn top(&self) -> i64
        ensures { (x : ℤ) (rest : List ℤ) → self.now.stack ≡ x ∷ rest → result ≡ x }
    {
        match self.items.get(self.start) {
            Some(word) => *word,
            None => 0,
        }
    }

    /// Returns the operand on top and the two that were popped last. For messages: nothing is proved
    /// of them, and one that isn't there is 0.
    pub fn last(&self) -> LastOperands {
        LastOperands {
            top: self.at(Some(self.start)),
            popped: self.at(self.start.checked_sub(1)),
            popped_before: self.at(self.start.checked_sub(2)),
        }
    }

    // The word at a place, or 0.
    fn at(&self, place: Option<usize>) -> i64 {
        match place {
            Some(place) => self.items.get(place).copied().unwrap_or(0),
            None => 0,
        }
    }

    /// Pops `count` words into `words`, in the order of their pushes.
    #[tactic(auto, using(crate::proofs::Given::words_more))]
    pub fn gather(&mut self, count: usize, words: &mut Words)
        requires few { count ≤ 16 }
        requires there { count ≤ length self.old.stack }
        ensures gathered { (go : List ℤ → List ℤ → Move) → on_words count [] self.old.stack go ≡ go words.new self.new.stack }
        ensures room { self.new.room ≡ self.old.room }
        ensures words { self.new.words ≡ self.old.words }
    {
        words.clear();
        let mut more = count;
        'each: while more > 0 {
            let word = self.pop();
            words.put(word);
            more -= 1;
        }
    }
}

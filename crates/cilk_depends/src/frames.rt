//! The frames of a run that is gone through again, with the set of each word.

use crate::graph::Node;
use std::alloc::{AllocError, Global};

/// A word, with the set of positions that it comes from.
#[derive(Clone, Copy)]
pub struct Word {
    pub value: i64,
    pub set: Node,
}

/// A word that comes from no number of the input.
pub fn plain(value: i64) -> Word {
    Word { value, set: 0 }
}

/// A frame: the place where it began and that of its next instruction, its words, its operands and its result so far,
/// and its turns.
#[derive(Drop)]
pub struct Frame {
    pub begun: usize,
    pub place: usize,
    pub words: Vec<Word>,
    pub stack: Vec<Word>,
    pub held: Word,
    pub low: i64,
    pub high: i64,
}

impl Frame {
    /// Begins a frame at a place in the code, without words.
    pub fn new(alloc: Global, place: usize) -> Frame {
        Frame {
            begun: place,
            place,
            words: Vec::new(alloc),
            stack: Vec::new(alloc),
            held: plain(0),
            low: 0,
            high: 0,
        }
    }

    /// Begins such a frame in the room of this one.
    pub fn again(self, place: usize) -> Frame {
        let Frame {
            begun: _,
            place: _,
            mut words,
            mut stack,
            held: _,
            low: _,
            high: _,
        } = self;
        words.clear();
        stack.clear();
        Frame {
            begun: place,
            place,
            words,
            stack,
            held: plain(0),
            low: 0,
            high: 0,
        }
    }

    /// Pops an operand. A run's frames have what their instructions pop.
    pub fn pop(&mut self) -> Word {
        self.stack.pop().unwrap_or(plain(0))
    }

    /// Pushes an operand.
    pub fn push(&mut self, word: Word) -> Result<(), AllocError> {
        self.stack.push(word)?;
        Ok(())
    }

    /// Continues after `count` more instructions.
    pub fn skip(&mut self, count: usize) {
        self.place = self.place.saturating_add(count).saturating_add(1);
    }

    /// Goes back by `count` instructions.
    pub fn go_back(&mut self, count: usize) {
        self.place = self.place.saturating_sub(count);
    }

    /// Returns the turn at which the turns are halved.
    pub fn middle(&self) -> i64 {
        let low = i128::from(self.low);
        let half = (i128::from(self.high) - low) / 2;
        i64::try_from(low + half).unwrap_or(self.low)
    }
}

//! The arguments of a call: at most 16 words and reducers, stored inline without allocation.

ghost use Rattle.std.specs.Prelude.{◌≡◌, ◌<◌, [], ◌∷◌, length, slice_get};

use crate::syntax::{Reducer, ReducerPlace};
use cilk_monoid::kind::MonoidKind;
use std::marker::Model;

/// A list of at most 16 words, stored inline.
#[derive(Drop)]
pub struct Words {
    // The list is the end of the array, from `start` on.
    start: usize,
    items: [i64; 16],
}

impl Model for Words {
    ghost use Rattle.std.specs.Prelude.{◌≤◌, ℤ, List, drop};

    ghost Value = { List ℤ };

    ghost view = { λ a. drop a.start a.items };

    ghost invariant = { λ a. a.start ≤ 16 };
}

impl Words {
    /// Returns an empty list.
    pub fn new() -> Words
        ensures { result ≡ [] }
    {
        Words {
            start: 16,
            items: [0; 16],
        }
    }

    /// Removes all words.
    pub fn clear(&mut self)
        ensures { self.new ≡ [] }
    {
        self.start = 16;
    }

    /// Inserts a word at the front. There must be room for it.
    pub fn put(&mut self, word: i64)
        requires { length self.old < 16 }
        ensures { self.new ≡ word ∷ self.old }
    {
        self.start -= 1;
        self.items[self.start] = word;
    }

    /// Returns a copy.
    pub fn copied(&self) -> Words
        ensures { result ≡ self.now }
    {
        Words {
            start: self.start,
            items: self.items,
        }
    }

    /// Returns the words in order.
    pub fn as_slice(&self) -> &[i64]
        ensures { result.now ≡ self.now }
    {
        &self.items[self.start..]
    }
}

/// A list of at most 16 reducers, stored inline.
#[derive(Drop)]
pub struct References {
    // The list is the end of the array, from `start` on.
    start: usize,
    items: [Reducer; 16],
}

impl Model for References {
    ghost use Rattle.std.specs.Prelude.{◌≡◌, ◌≤◌, List, drop, length};
    ghost use Rattle.cilk_program.specs.declared.syntax.Reducer.{Reducer};

    ghost Value = { List Reducer };

    ghost view = { λ a. drop a.start a.items };

    ghost invariant = { λ a. (a.start ≤ 16) × (length a.items ≡ 16) };
}

impl References {
    /// Returns an empty list.
    pub fn new() -> References
        ensures { result ≡ [] }
    {
        let any = Reducer {
            place: ReducerPlace::Global(0),
            kind: MonoidKind::Add,
        };
        References {
            start: 16,
            items: [any; 16],
        }
    }

    /// Inserts a reducer at the front. There must be room for it.
    pub fn put(&mut self, reducer: Reducer)
        requires { length self.old < 16 }
        ensures { self.new ≡ reducer ∷ self.old }
    {
        self.start -= 1;
        self.items[self.start] = reducer;
    }

    /// Becomes a copy of `other`. Copies only the reducers that `other` holds, not the whole array.
    pub fn take_from(&mut self, other: &References)
        ensures { self.new ≡ other.now }
    {
        self.start = 16;
        'each: while self.start > other.start {
            self.start -= 1;
            self.items[self.start] = other.items[self.start];
        }
    }

    /// Returns a copy.
    pub fn copied(&self) -> References
        ensures { result ≡ self.now }
    {
        References {
            start: self.start,
            items: self.items,
        }
    }

    /// Returns the reducers in order.
    pub fn as_slice(&self) -> &[Reducer]
        ensures { result.now ≡ self.now }
    {
        &self.items[self.start..]
    }
}

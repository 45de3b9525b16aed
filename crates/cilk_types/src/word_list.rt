//! A list of words.

ghost use Rattle.std.specs.Prelude.{◌≡◌, ◌∷◌, ◌++◌, [], All, OnOk, length};
ghost use Rattle.cilk_types.specs.Word.{IsWord};

use std::alloc::{AllocError, Global};
use std::marker::Model;

/// A list of words, whose contracts speak of its items alone. The type guarantees that each number
/// is a word, so a reader of the list need not check them.
#[derive(Drop)]
pub struct WordList {
    numbers: Vec<i64>,
}

impl Model for WordList {
    ghost use Rattle.std.specs.Prelude.{ℤ, List, All};
    ghost use Rattle.cilk_types.specs.Word.{IsWord};

    ghost Value = { List ℤ };

    ghost view = { λ w. w.numbers.items };

    ghost invariant = { λ w. All IsWord w.numbers.items };
}

impl WordList {
    /// Makes an empty list.
    pub fn new(alloc: Global) -> WordList
        ensures { result ≡ [] }
    {
        WordList {
            numbers: Vec::new(alloc),
        }
    }

    /// Appends a number.
    pub fn push(&mut self, number: i64) -> Result<(), AllocError>
        ensures { OnOk result (self.new ≡ self.old ++ number ∷ []) }
    {
        self.numbers.push(number)?;
        Ok(())
    }

    pub fn as_slice(&self) -> &[i64]
        ensures { result.now ≡ self.now }
    {
        self.numbers.as_slice()
    }

    /// Returns the number of items.
    pub fn len(&self) -> usize
        ensures { result ≡ length self.now }
    {
        self.numbers.len()
    }

    /// Proves that each number is a word. It does nothing at run time.
    pub fn are_words(&self)
        ensures { All IsWord self.now }
    {
        let _numbers = &self.numbers;
    }
}

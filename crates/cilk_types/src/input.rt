//! The input of a run: a list of numbers.

ghost use Rattle.std.specs.Prelude.{◌≡◌, ◌≤◌, All, length, slice_get};
ghost use Rattle.cilk_types.specs.Input.{input_at, input_count};
ghost use Rattle.cilk_types.specs.Word.{IsWord};

use crate::limits::MAX_INPUTS;
use crate::word_list::WordList;
use std::marker::Model;

/// The numbers that a program reads by `input`, counted from 0: at most [`MAX_INPUTS`] words.
#[derive(Drop)]
pub struct Input {
    numbers: WordList,
}

impl Model for Input {
    ghost use Rattle.std.specs.Prelude.{◌≤◌, ℤ, List, length};

    ghost Value = { List ℤ };

    ghost view = { λ i. i.numbers };

    ghost invariant = { λ i. length i.numbers ≤ 65536 };
}

impl Input {
    /// Makes an input of these numbers, without allocating.
    pub fn new(numbers: WordList) -> Input
        requires { length numbers ≤ MAX_INPUTS }
        ensures { result ≡ numbers }
    {
        Input { numbers }
    }

    /// Returns the number at a place, or none if the place is negative or past the end.
    pub fn at(&self, place: i64) -> Option<i64>
        ensures { result ≡ input_at self.now place }
    {
        match usize::try_from(place) {
            Ok(place) => get(self.numbers.as_slice(), place),
            Err(_) => None,
        }
    }

    /// Returns the number of input numbers.
    pub fn count(&self) -> i64
        ensures { result ≡ input_count self.now }
    {
        self.numbers.len() as i64
    }

    /// Returns the numbers: no input has more than [`MAX_INPUTS`].
    pub fn as_slice(&self) -> &[i64]
        ensures value { result.now ≡ self.now }
        ensures few { length result.now ≤ MAX_INPUTS }
    {
        self.numbers.as_slice()
    }

    /// Proves that each number is a word. It does nothing at run time.
    pub fn are_words(&self)
        ensures { All IsWord self.now }
    {
        self.numbers.are_words();
    }
}

fn get(numbers: &[i64], place: usize) -> Option<i64>
    ensures { result ≡ slice_get numbers.now place }
{
    numbers.get(place).copied()
}

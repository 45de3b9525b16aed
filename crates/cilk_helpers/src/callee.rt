//! Compares calls and parts of loops.

ghost use Rattle.std.specs.Prelude.{◌≡◌, IsTrue};
ghost use Rattle.cilk_helpers.specs.Asked.{call_in};

use crate::note::Given;
use cilk_program::ask::{FunctionCall, LoopPart};
use cilk_program::syntax::{Place, Reducer};

/// Returns whether the requested call is this call of a function.
pub fn is_call(given: &Given, call: &FunctionCall) -> bool
    ensures { IsTrue result → call_in given.now ≡ call.now }
{
    if given.function != call.function {
        return false;
    }
    if !same_words(given.words.as_slice(), call.words.as_slice()) {
        return false;
    }
    if !same_reducers(given.reducers.as_slice(), call.reducers.as_slice()) {
        return false;
    }
    same_place(given.result, call.result)
}

fn same_words(one: &[i64], other: &[i64]) -> bool
    ensures { IsTrue result → one.now ≡ other.now }
{
    if one.len() != other.len() {
        return false;
    }
    'each: for number in 0..one.len() {
        if one[number] != other[number] {
            return false;
        }
    }
    true
}

fn same_reducer(one: Reducer, other: Reducer) -> bool
    ensures { IsTrue result → one ≡ other }
{
    one == other
}

fn same_reducers(one: &[Reducer], other: &[Reducer]) -> bool
    ensures { IsTrue result → one.now ≡ other.now }
{
    if one.len() != other.len() {
        return false;
    }
    'each: for number in 0..one.len() {
        if !same_reducer(one[number], other[number]) {
            return false;
        }
    }
    true
}

fn same_place(one: Option<Place>, other: Option<Place>) -> bool
    ensures { IsTrue result → one ≡ other }
{
    match (one, other) {
        (None, None) => true,
        (Some(one), Some(other)) => one == other,
        _ => false,
    }
}

/// Returns whether two parts of loops are equal.
pub fn same_part(one: &LoopPart, other: &LoopPart) -> bool
    ensures { IsTrue result → one.now ≡ other.now }
{
    one.number == other.number
        && one.up == other.up
        && one.low == other.low
        && one.high == other.high
}

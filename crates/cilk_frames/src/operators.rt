//! The values of operators on words.

ghost use Rattle.std.specs.Prelude.{◌≡◌, ◌+◌, ◌^◌, ◌≤◌};
ghost use Rattle.cilk_program.specs.Operators.{apply, change, is_zero, truth, truth_of};
ghost use Rattle.cilk_program.specs.Syntax.{element};

use cilk_program::syntax::{Array, Operator, Place};
use cilk_types::compound::Compound;
use cilk_types::word;

/// Returns the value of an operator, or none for a division by 0.
#[inline]
pub fn apply(operator: Operator, x: i64, y: i64) -> Option<i64>
    ensures { result ≡ apply operator x y }
{
    match operator {
        Operator::Add => Some(word::add(x, y)),
        Operator::Subtract => Some(word::sub(x, y)),
        Operator::Multiply => Some(word::mul(x, y)),
        Operator::Divide => word::div(x, y),
        Operator::Remainder => word::rem(x, y),
        Operator::Less => Some(truth_of(x < y)),
        Operator::LessEqual => Some(truth_of(x <= y)),
        Operator::Greater => Some(truth_of(x > y)),
        Operator::GreaterEqual => Some(truth_of(x >= y)),
        Operator::Equal => Some(truth_of(x == y)),
        Operator::NotEqual => Some(truth_of(x != y)),
    }
}

/// Returns the value of `+=`, `-=` or `*=`.
#[inline]
pub fn change(operator: Compound, x: i64, y: i64) -> i64
    ensures { result ≡ change operator x y }
{
    match operator {
        Compound::Add => word::add(x, y),
        Compound::Subtract => word::sub(x, y),
        Compound::Multiply => word::mul(x, y),
    }
}

/// Returns 1 for true, 0 for false.
#[inline]
pub fn truth_of(holds: bool) -> i64
    ensures { result ≡ truth_of holds }
{
    if holds { 1 } else { 0 }
}

/// Returns 0 for 0, else 1.
#[inline]
pub fn truth(word: i64) -> i64
    ensures { result ≡ truth word }
{
    if word == 0 { 0 } else { 1 }
}

/// Returns 1 for 0, else 0.
#[inline]
pub fn negation(word: i64) -> i64
    ensures { result ≡ truth_of (is_zero word) }
{
    if word == 0 { 1 } else { 0 }
}

/// Returns the element of an array at an index, or none outside the array.
#[inline]
pub fn element(array: Array, index: i64) -> Option<Place>
    requires { array.first + array.length ≤ 2 ^ 32 }
    ensures { result ≡ element array index }
{
    match u32::try_from(index) {
        Ok(number) => {
            if number < array.length {
                Some(Place::Global(array.first + number))
            } else {
                None
            }
        }
        Err(_) => None,
    }
}

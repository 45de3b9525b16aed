//! What operators make of words.

use cilk_program::syntax::Operator;
use cilk_types::compound::Compound;
use cilk_types::word;

/// Returns what an operator makes of two words, or `None` for a divisor of 0.
pub fn apply(operator: Operator, x: i64, y: i64) -> Option<i64> {
    match operator {
        Operator::Add => Some(word::add(x, y)),
        Operator::Subtract => Some(word::sub(x, y)),
        Operator::Multiply => Some(word::mul(x, y)),
        Operator::Divide => word::div(x, y),
        Operator::Remainder => word::rem(x, y),
        Operator::Less => Some(truth_of(x < y)),
        Operator::LessEqual => Some(truth_of(x <= y)),
        Operator::Greater => Some(truth_of(x > y)),
        Operator::GreaterEqual => Some(truth_of(x >= y)),
        Operator::Equal => Some(truth_of(x == y)),
        Operator::NotEqual => Some(truth_of(x != y)),
    }
}

/// Returns what a compound assignment makes of the old word and another one.
pub fn change(operator: Compound, x: i64, y: i64) -> i64 {
    match operator {
        Compound::Add => word::add(x, y),
        Compound::Subtract => word::sub(x, y),
        Compound::Multiply => word::mul(x, y),
    }
}

/// Returns whether the right operand is a divisor.
pub fn divides(operator: Operator) -> bool {
    matches!(operator, Operator::Divide | Operator::Remainder)
}

/// Returns 1 for true, 0 for false.
pub fn truth_of(holds: bool) -> i64 {
    if holds { 1 } else { 0 }
}

//! Operators on resolved operands.

ghost use Rattle.std.specs.Prelude.{◌≡◌};
ghost use Rattle.cilk_program.specs.Programs.{expression};
ghost use Rattle.cilk_names.specs.Operators.{prefixed, joined};

use cilk_program::syntax::{Expr, Operator};
use cilk_syntax::tree::{BinaryOperator, UnaryOperator};

/// Applies a unary operator at a place of the text.
pub fn in_front(at: usize, operator: UnaryOperator, operand: Box<Expr>) -> Expr
    ensures { expression result ≡ prefixed operator (expression operand.value) }
{
    match operator {
        UnaryOperator::Negate => Expr::Negate(at, operand),
        UnaryOperator::Not => Expr::Not(at, operand),
    }
}

/// Applies a binary operator at a place of the text.
pub fn between(at: usize, operator: BinaryOperator, left: Box<Expr>, right: Box<Expr>) -> Expr
    ensures { expression result ≡ joined operator (expression left.value) (expression right.value) }
{
    match operator {
        BinaryOperator::Or => Expr::Or(at, left, right),
        BinaryOperator::And => Expr::And(at, left, right),
        BinaryOperator::Equal => Expr::Binary(at, Operator::Equal, left, right),
        BinaryOperator::NotEqual => Expr::Binary(at, Operator::NotEqual, left, right),
        BinaryOperator::Less => Expr::Binary(at, Operator::Less, left, right),
        BinaryOperator::LessEqual => Expr::Binary(at, Operator::LessEqual, left, right),
        BinaryOperator::Greater => Expr::Binary(at, Operator::Greater, left, right),
        BinaryOperator::GreaterEqual => Expr::Binary(at, Operator::GreaterEqual, left, right),
        BinaryOperator::Add => Expr::Binary(at, Operator::Add, left, right),
        BinaryOperator::Subtract => Expr::Binary(at, Operator::Subtract, left, right),
        BinaryOperator::Multiply => Expr::Binary(at, Operator::Multiply, left, right),
        BinaryOperator::Divide => Expr::Binary(at, Operator::Divide, left, right),
        BinaryOperator::Remainder => Expr::Binary(at, Operator::Remainder, left, right),
    }
}

//! The operators between operands, and their levels.

ghost use Rattle.std.specs.Prelude.{◌≡◌, ℕ, ◌+◌, if◌then◌else◌, List, ◌∷◌, IfSome, IfNone, drop, None};
ghost use Rattle.cilk_syntax.specs.Expected.{Symbol, Operand, Tail, PastLimit, run, level_of};
ghost use Rattle.cilk_syntax.specs.Grammar.{Is, level, mark_of};
ghost use Rattle.cilk_syntax.specs.Limits.{is_many};
ghost use Rattle.cilk_syntax.specs.Stops.{NotOfLevel};

use crate::token::{Kind, Token};
use crate::tree::BinaryOperator;

/// Returns the operator that a mark denotes.
fn operator_of(kind: Kind) -> Option<BinaryOperator>
    ensures found { IfSome result (λ op. mark_of op ≡ kind) }
    ensures none { IfNone result (level_of kind ≡ None) }
{
    match kind {
        Kind::Or => Some(BinaryOperator::Or),
        Kind::And => Some(BinaryOperator::And),
        Kind::Equal => Some(BinaryOperator::Equal),
        Kind::NotEqual => Some(BinaryOperator::NotEqual),
        Kind::Less => Some(BinaryOperator::Less),
        Kind::LessEqual => Some(BinaryOperator::LessEqual),
        Kind::Greater => Some(BinaryOperator::Greater),
        Kind::GreaterEqual => Some(BinaryOperator::GreaterEqual),
        Kind::Plus => Some(BinaryOperator::Add),
        Kind::Minus => Some(BinaryOperator::Subtract),
        Kind::Star => Some(BinaryOperator::Multiply),
        Kind::Slash => Some(BinaryOperator::Divide),
        Kind::Percent => Some(BinaryOperator::Remainder),
        _ => None,
    }
}

/// Returns the level of an operator, from 0 for the weakest.
fn level_of(operator: BinaryOperator) -> u32
    ensures { result ≡ level operator }
{
    match operator {
        BinaryOperator::Or => 0,
        BinaryOperator::And => 1,
        BinaryOperator::Equal | BinaryOperator::NotEqual => 2,
        BinaryOperator::Less
        | BinaryOperator::LessEqual
        | BinaryOperator::Greater
        | BinaryOperator::GreaterEqual => 3,
        BinaryOperator::Add | BinaryOperator::Subtract => 4,
        BinaryOperator::Multiply | BinaryOperator::Divide | BinaryOperator::Remainder => 5,
    }
}

/// Returns the first token's operator, if it is of this level.
pub fn next_operator(tokens: &[Token], wanted: u32) -> Option<BinaryOperator>
    ensures found { IfSome result (λ op. Is (mark_of op) tokens.now (drop 1 tokens.now) × (level op ≡ wanted)) }
    ensures none { IfNone result (NotOfLevel wanted tokens.now) }
    ensures reads { IfSome result (λ op. (d : ℕ) (stack : List Symbol) (n : ℕ) →
        run tokens.now (Tail d ∷ stack) n ≡ (if is_many (n + 1) then PastLimit tokens.now else run (drop 1 tokens.now) (Operand d ∷ Tail d ∷ stack) (n + 1))) }
{
    let [first, ..] = tokens else {
        return None;
    };
    let operator = operator_of(first.kind)?;
    if level_of(operator) == wanted {
        Some(operator)
    } else {
        None
    }
}

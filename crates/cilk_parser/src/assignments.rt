//! Reading assignments.

ghost use Rattle.std.specs.Prelude.{◌≡◌, ◌<◌, ◌≤◌, List, ◌∷◌, IfOk, IfErr, length};
ghost use Rattle.cilk_syntax.specs.Expected as expected;
ghost use Rattle.cilk_syntax.specs.Expected.{Symbol, Named, Subscript, Operation, run};
ghost use Rattle.cilk_syntax.specs.Grammar.{SpellsAssignment, SpellsAssignmentRest, SpellsOperation, SpellsLvalue, SpellsLvalueRest};
ghost use Rattle.cilk_syntax.specs.Stops.{IsStop};
ghost use Rattle.cilk_syntax.specs.Trees as trees;

use crate::expressions::expr;
use crate::openers::after_bracket;
use cilk_syntax::marks::{Punct, name, then_one};
use cilk_syntax::stop::Stop;
use cilk_syntax::token::{Kind, Token};
use cilk_syntax::tree::{Assignment, Lvalue, Name};
use cilk_types::compound::Compound;
use std::alloc::Global;

/// Reads the rest of a place that begins with this name.
#[tactic(auto, using(cilk_syntax::proofs::Runs::no_subscript))]
fn place<'a>(
    alloc: Global,
    name: Name,
    tokens: &'a [Token],
    depth: u32,
) -> Result<(Lvalue, &'a [Token]), Stop<'a>>
    requires { depth ≤ 64 }
    ensures tree { IfOk result (λ x. SpellsLvalueRest (trees.place x.0) name tokens.now x.1.now) }
    ensures shorter { IfOk result (λ x. length x.1.now ≤ length tokens.now) }
    ensures reads { IfOk result (λ x. (stack : List Symbol) →
        run tokens.now (Subscript depth ∷ stack) 0 ≡ run x.1.now stack 0) }
    ensures stops { IfErr result (λ e. (stack : List Symbol) →
        IsStop e (run tokens.now (Subscript depth ∷ stack) 0)) }
{
    let Some(after) = after_bracket(tokens) else {
        return Ok((Lvalue::Variable(name), tokens));
    };
    let (index, rest) = expr(alloc, after, depth + 1)?;
    then_one(Lvalue::Element(name, index), rest, Punct::CloseBracket)
}

/// Reads the operation on a place, after the place.
fn operation<'a>(
    alloc: Global,
    target: Lvalue,
    tokens: &'a [Token],
    depth: u32,
) -> Result<(Assignment, &'a [Token]), Stop<'a>>
    ensures tree { IfOk result (λ x. SpellsOperation (trees.assignment x.0) (trees.place target) tokens.now x.1.now) }
    ensures shorter { IfOk result (λ x. length x.1.now < length tokens.now) }
    ensures reads { IfOk result (λ x. (stack : List Symbol) →
        run tokens.now (Operation depth ∷ stack) 0 ≡ run x.1.now stack 0) }
    ensures stops { IfErr result (λ e. (stack : List Symbol) →
        IsStop e (run tokens.now (Operation depth ∷ stack) 0)) }
{
    let [first, rest @ ..] = tokens else {
        return Err(Stop::Unexpected(tokens));
    };
    match first.kind {
        Kind::Increment => Ok((Assignment::Increment(target), rest)),
        Kind::Decrement => Ok((Assignment::Decrement(target), rest)),
        Kind::Assign => {
            let (value, rest) = expr(alloc, rest, depth)?;
            Ok((Assignment::Set(target, value), rest))
        }
        Kind::PlusAssign => {
            let (value, rest) = expr(alloc, rest, depth)?;
            Ok((
                Assignment::Compound(first.at, Compound::Add, target, value),
                rest,
            ))
        }
        Kind::MinusAssign => {
            let (value, rest) = expr(alloc, rest, depth)?;
            Ok((
                Assignment::Compound(first.at, Compound::Subtract, target, value),
                rest,
            ))
        }
        Kind::StarAssign => {
            let (value, rest) = expr(alloc, rest, depth)?;
            Ok((
                Assignment::Compound(first.at, Compound::Multiply, target, value),
                rest,
            ))
        }
        _ => Err(Stop::Unexpected(tokens)),
    }
}

/// Reads the rest of an assignment that begins with this name.
pub fn assigned<'a>(
    alloc: Global,
    name: Name,
    tokens: &'a [Token],
    depth: u32,
) -> Result<(Assignment, &'a [Token]), Stop<'a>>
    requires { depth ≤ 64 }
    ensures tree { IfOk result (λ x. SpellsAssignmentRest (trees.assignment x.0) name tokens.now x.1.now) }
    ensures shorter { IfOk result (λ x. length x.1.now < length tokens.now) }
    ensures reads { IfOk result (λ x. (stack : List Symbol) →
        run tokens.now (Subscript depth ∷ Operation depth ∷ stack) 0 ≡ run x.1.now stack 0) }
    ensures stops { IfErr result (λ e. (stack : List Symbol) →
        IsStop e (run tokens.now (Subscript depth ∷ Operation depth ∷ stack) 0)) }
{
    let (target, rest) = place(alloc, name, tokens, depth)?;
    operation(alloc, target, rest, depth)
}

/// Reads a place.
pub fn target<'a>(
    alloc: Global,
    tokens: &'a [Token],
    depth: u32,
) -> Result<(Lvalue, &'a [Token]), Stop<'a>>
    requires { depth ≤ 64 }
    ensures tree { IfOk result (λ x. SpellsLvalue (trees.place x.0) tokens.now x.1.now) }
    ensures shorter { IfOk result (λ x. length x.1.now < length tokens.now) }
    ensures reads { IfOk result (λ x. (stack : List Symbol) →
        run tokens.now (Named ∷ Subscript depth ∷ stack) 0 ≡ run x.1.now stack 0) }
    ensures stops { IfErr result (λ e. (stack : List Symbol) →
        IsStop e (run tokens.now (Named ∷ Subscript depth ∷ stack) 0)) }
{
    let (name, rest) = name(tokens)?;
    place(alloc, name, rest, depth)
}

/// Reads an assignment.
pub fn assignment<'a>(
    alloc: Global,
    tokens: &'a [Token],
    depth: u32,
) -> Result<(Assignment, &'a [Token]), Stop<'a>>
    requires { depth ≤ 64 }
    ensures tree { IfOk result (λ x. SpellsAssignment (trees.assignment x.0) tokens.now x.1.now) }
    ensures shorter { IfOk result (λ x. length x.1.now < length tokens.now) }
    ensures reads { IfOk result (λ x. (stack : List Symbol) →
        run tokens.now (expected.Assignment depth ∷ stack) 0 ≡ run x.1.now stack 0) }
    ensures stops { IfErr result (λ e. (stack : List Symbol) →
        IsStop e (run tokens.now (expected.Assignment depth ∷ stack) 0)) }
{
    let [first, rest @ ..] = tokens else {
        return Err(Stop::Unexpected(tokens));
    };
    match first.kind {
        Kind::Name => {
            let name = Name {
                at: first.at,
                end: first.end,
            };
            assigned(alloc, name, rest, depth)
        }
        Kind::Increment => {
            let (target, rest) = target(alloc, rest, depth)?;
            Ok((Assignment::Increment(target), rest))
        }
        Kind::Decrement => {
            let (target, rest) = target(alloc, rest, depth)?;
            Ok((Assignment::Decrement(target), rest))
        }
        _ => Err(Stop::Unexpected(tokens)),
    }
}

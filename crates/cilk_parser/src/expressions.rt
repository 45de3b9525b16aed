//! Reading expressions.
//!
//! Each function receives the tokens that are left and returns those that follow what it read. Its
//! contract says three things: what the tokens that it read spell, that every list of expected
//! symbols continues after them, and where reading stops.

ghost use Rattle.std.specs.Prelude.{◌≡◌, ◌+◌, ◌<◌, ◌≤◌, List, ◌∷◌, IfOk, IfErr, length};
ghost use Rattle.cilk_syntax.specs.Expected.{Symbol, Named, Operand, Index, Tail, Anew, Optional, One, run, kind_of};
ghost use Rattle.cilk_syntax.specs.Grammar.{Is, SpellsExpr, SpellsBehindName, SpellsPart, SpellsClosed, SpellsInside, SpellsEnded, SpellsOptional, level_in, sign_of};
ghost use Rattle.cilk_syntax.specs.Stops.{IsStop, NoOperator};
ghost use Rattle.cilk_syntax.specs.declared.token.Kind.TheVariants as kinds;
ghost use Rattle.cilk_syntax.specs.Trees.{expression, optional};

use crate::openers::after_bracket;
use cilk_syntax::firsts::begins_part;
use cilk_syntax::marks::{Punct, behind, name, one, then_one};
use cilk_syntax::operators::next_operator;
use cilk_syntax::stop::{DEEPEST, MOST_OPERATORS, Stop};
use cilk_syntax::token::{Kind, Token};
use cilk_syntax::tree::{Expr, Name, UnaryOperator};
use std::alloc::Global;

/// Reads the value of a reducer, after `value`.
fn reducer_value<'a>(
    alloc: Global,
    tokens: &'a [Token],
    operators: u32,
) -> Result<(Box<Expr>, &'a [Token], u32), Stop<'a>>
    ensures tree { IfOk result (λ x. SpellsPart kinds.Value (expression x.0.value) tokens.now x.1.now) }
    ensures tight { IfOk result (λ x. 6 ≤ level_in (expression x.0.value)) }
    ensures shorter { IfOk result (λ x. length x.1.now < length tokens.now) }
    ensures few { IfOk result (λ x. x.2 ≡ operators) }
    ensures reads { IfOk result (λ x. (stack : List Symbol) →
        run tokens.now (One Punct.Open ∷ Named ∷ One Punct.Close ∷ stack) operators ≡ run x.1.now stack x.2) }
    ensures stops { IfErr result (λ e. (stack : List Symbol) →
        IsStop e (run tokens.now (One Punct.Open ∷ Named ∷ One Punct.Close ∷ stack) operators)) }
{
    let rest = one(tokens, Punct::Open)?;
    let (reducer, rest) = name(rest)?;
    let rest = one(rest, Punct::Close)?;
    Ok((Box::new(alloc, Expr::Value(reducer))?, rest, operators))
}

/// Reads the number of inputs, after its `input_count` at this place.
fn input_count<'a>(
    alloc: Global,
    at: usize,
    tokens: &'a [Token],
    operators: u32,
) -> Result<(Box<Expr>, &'a [Token], u32), Stop<'a>>
    ensures tree { IfOk result (λ x. SpellsPart kinds.InputCount (expression x.0.value) tokens.now x.1.now) }
    ensures tight { IfOk result (λ x. 6 ≤ level_in (expression x.0.value)) }
    ensures shorter { IfOk result (λ x. length x.1.now < length tokens.now) }
    ensures few { IfOk result (λ x. x.2 ≡ operators) }
    ensures reads { IfOk result (λ x. (stack : List Symbol) →
        run tokens.now (One Punct.Open ∷ One Punct.Close ∷ stack) operators ≡ run x.1.now stack x.2) }
    ensures stops { IfErr result (λ e. (stack : List Symbol) →
        IsStop e (run tokens.now (One Punct.Open ∷ One Punct.Close ∷ stack) operators)) }
{
    let rest = one(tokens, Punct::Open)?;
    let rest = one(rest, Punct::Close)?;
    Ok((Box::new(alloc, Expr::InputCount(at))?, rest, operators))
}

/// Reads an expression whose operators are of this level or tighter.
#[cycle(expressions)]
#[tactic(auto, using(cilk_syntax::proofs::Runs::tightest))]
fn at_level<'a>(
    alloc: Global,
    tokens: &'a [Token],
    wanted: u32,
    depth: u32,
    operators: u32,
) -> Result<(Box<Expr>, &'a [Token], u32), Stop<'a>>
    requires level { wanted ≤ 6 }
    requires few { operators ≤ 256 }
    ensures tree { IfOk result (λ x. SpellsExpr (expression x.0.value) tokens.now x.1.now) }
    ensures tight { IfOk result (λ x. wanted ≤ level_in (expression x.0.value)) }
    ensures ends { IfOk result (λ x. NoOperator wanted x.1.now) }
    ensures shorter { IfOk result (λ x. length x.1.now < length tokens.now) }
    ensures few { IfOk result (λ x. x.2 ≤ 256) }
    ensures reads { IfOk result (λ x. (stack : List Symbol) →
        run tokens.now (Operand depth ∷ Tail depth ∷ stack) operators ≡ run x.1.now (Tail depth ∷ stack) x.2) }
    ensures stops { IfErr result (λ e. (stack : List Symbol) →
        IsStop e (run tokens.now (Operand depth ∷ Tail depth ∷ stack) operators)) }
{
    if wanted == 6 {
        return operand(alloc, tokens, depth, operators);
    }
    let (mut left, mut rest, mut count) = at_level(alloc, tokens, wanted + 1, depth, operators)?;
    'each: while let Some(operator) = next_operator(rest, wanted) {
        if count + 1 > MOST_OPERATORS {
            return Err(Stop::PastLimit(rest));
        }
        let (right, after, more) = at_level(alloc, &rest[1..], wanted + 1, depth, count + 1)?;
        left = Box::new(alloc, Expr::Binary(rest[0].at, operator, left, right))?;
        rest = after;
        count = more;
    }
    Ok((left, rest, count))
}

/// Reads a part of an expression, without operators between operands.
#[cycle(expressions)]
fn operand<'a>(
    alloc: Global,
    tokens: &'a [Token],
    depth: u32,
    operators: u32,
) -> Result<(Box<Expr>, &'a [Token], u32), Stop<'a>>
    requires { operators ≤ 256 }
    ensures tree { IfOk result (λ x. SpellsExpr (expression x.0.value) tokens.now x.1.now) }
    ensures tight { IfOk result (λ x. 6 ≤ level_in (expression x.0.value)) }
    ensures shorter { IfOk result (λ x. length x.1.now < length tokens.now) }
    ensures few { IfOk result (λ x. x.2 ≤ 256) }
    ensures reads { IfOk result (λ x. (stack : List Symbol) →
        run tokens.now (Operand depth ∷ stack) operators ≡ run x.1.now stack x.2) }
    ensures stops { IfErr result (λ e. (stack : List Symbol) →
        IsStop e (run tokens.now (Operand depth ∷ stack) operators)) }
{
    let [first, rest @ ..] = tokens else {
        return Err(Stop::Unexpected(tokens));
    };
    if depth > DEEPEST {
        return Err(if begins_part(first.kind) {
            Stop::PastLimit(tokens)
        } else {
            Stop::Unexpected(tokens)
        });
    }
    match first.kind {
        Kind::Number(value) => Ok((
            Box::new(alloc, Expr::Number(first.at, value))?,
            rest,
            operators,
        )),
        Kind::Name => {
            let name = Name {
                at: first.at,
                end: first.end,
            };
            after_name(alloc, name, rest, depth, operators)
        }
        Kind::Minus => signed(alloc, UnaryOperator::Negate, tokens, rest, depth, operators),
        Kind::Not => signed(alloc, UnaryOperator::Not, tokens, rest, depth, operators),
        Kind::Open => group(alloc, rest, depth, operators),
        Kind::Value => reducer_value(alloc, rest, operators),
        Kind::Input => input(alloc, first.at, rest, depth, operators),
        Kind::InputCount => input_count(alloc, first.at, rest, operators),
        _ => Err(Stop::Unexpected(tokens)),
    }
}

/// Reads a unary operator and its operand. `rest` are the tokens after the operator.
#[cycle(expressions)]
#[tactic(auto, using(cilk_syntax::proofs::Runs::takes_sign, cilk_syntax::proofs::Runs::signs_end))]
fn signed<'a>(
    alloc: Global,
    operator: UnaryOperator,
    tokens: &'a [Token],
    rest: &'a [Token],
    depth: u32,
    operators: u32,
) -> Result<(Box<Expr>, &'a [Token], u32), Stop<'a>>
    requires sign { Is (sign_of operator) tokens.now rest.now }
    requires depth { depth ≤ 64 }
    requires few { operators ≤ 256 }
    ensures tree { IfOk result (λ x. SpellsExpr (expression x.0.value) tokens.now x.1.now) }
    ensures tight { IfOk result (λ x. 6 ≤ level_in (expression x.0.value)) }
    ensures shorter { IfOk result (λ x. length x.1.now < length tokens.now) }
    ensures few { IfOk result (λ x. x.2 ≤ 256) }
    ensures reads { IfOk result (λ x. (stack : List Symbol) →
        run tokens.now (Operand depth ∷ stack) operators ≡ run x.1.now stack x.2) }
    ensures stops { IfErr result (λ e. (stack : List Symbol) →
        IsStop e (run tokens.now (Operand depth ∷ stack) operators)) }
{
    if operators + 1 > MOST_OPERATORS {
        return Err(Stop::PastLimit(tokens));
    }
    let (inner, rest, count) = operand(alloc, rest, depth + 1, operators + 1)?;
    Ok((
        Box::new(alloc, Expr::Unary(tokens[0].at, operator, inner))?,
        rest,
        count,
    ))
}

/// Reads an expression in parentheses, after the opening one.
#[cycle(expressions)]
fn group<'a>(
    alloc: Global,
    tokens: &'a [Token],
    depth: u32,
    operators: u32,
) -> Result<(Box<Expr>, &'a [Token], u32), Stop<'a>>
    requires depth { depth ≤ 64 }
    requires few { operators ≤ 256 }
    ensures tree { IfOk result (λ x. SpellsPart kinds.Open (expression x.0.value) tokens.now x.1.now) }
    ensures tight { IfOk result (λ x. 6 ≤ level_in (expression x.0.value)) }
    ensures shorter { IfOk result (λ x. length x.1.now < length tokens.now) }
    ensures few { IfOk result (λ x. x.2 ≤ 256) }
    ensures reads { IfOk result (λ x. (stack : List Symbol) →
        run tokens.now (Operand (depth + 1) ∷ Tail (depth + 1) ∷ One Punct.Close ∷ stack) operators ≡ run x.1.now stack x.2) }
    ensures stops { IfErr result (λ e. (stack : List Symbol) →
        IsStop e (run tokens.now (Operand (depth + 1) ∷ Tail (depth + 1) ∷ One Punct.Close ∷ stack) operators)) }
{
    let (inner, rest, count) = nested(alloc, tokens, depth + 1, operators, Punct::Close)?;
    Ok((Box::new(alloc, Expr::Group(inner))?, rest, count))
}

/// Reads an input with its index, after its `input` at this place.
#[cycle(expressions)]
fn input<'a>(
    alloc: Global,
    at: usize,
    tokens: &'a [Token],
    depth: u32,
    operators: u32,
) -> Result<(Box<Expr>, &'a [Token], u32), Stop<'a>>
    requires depth { depth ≤ 64 }
    requires few { operators ≤ 256 }
    ensures tree { IfOk result (λ x. SpellsPart kinds.Input (expression x.0.value) tokens.now x.1.now) }
    ensures tight { IfOk result (λ x. 6 ≤ level_in (expression x.0.value)) }
    ensures shorter { IfOk result (λ x. length x.1.now < length tokens.now) }
    ensures few { IfOk result (λ x. x.2 ≤ 256) }
    ensures reads { IfOk result (λ x. (stack : List Symbol) →
        run tokens.now (One Punct.Open ∷ Operand (depth + 1) ∷ Tail (depth + 1) ∷ One Punct.Close ∷ stack) operators ≡ run x.1.now stack x.2) }
    ensures stops { IfErr result (λ e. (stack : List Symbol) →
        IsStop e (run tokens.now (One Punct.Open ∷ Operand (depth + 1) ∷ Tail (depth + 1) ∷ One Punct.Close ∷ stack) operators)) }
{
    let rest = one(tokens, Punct::Open)?;
    let (place, rest, count) = nested(alloc, rest, depth + 1, operators, Punct::Close)?;
    Ok((Box::new(alloc, Expr::Input(at, place))?, rest, count))
}

/// Reads a variable or an element of an array, after its name.
#[cycle(expressions)]
#[tactic(auto, using(cilk_syntax::proofs::Runs::no_index))]
fn after_name<'a>(
    alloc: Global,
    name: Name,
    tokens: &'a [Token],
    depth: u32,
    operators: u32,
) -> Result<(Box<Expr>, &'a [Token], u32), Stop<'a>>
    requires depth { depth ≤ 64 }
    requires few { operators ≤ 256 }
    ensures tree { IfOk result (λ x. SpellsBehindName (expression x.0.value) name tokens.now x.1.now) }
    ensures tight { IfOk result (λ x. 6 ≤ level_in (expression x.0.value)) }
    ensures shorter { IfOk result (λ x. length x.1.now ≤ length tokens.now) }
    ensures few { IfOk result (λ x. x.2 ≤ 256) }
    ensures reads { IfOk result (λ x. (stack : List Symbol) →
        run tokens.now (Index depth ∷ stack) operators ≡ run x.1.now stack x.2) }
    ensures stops { IfErr result (λ e. (stack : List Symbol) →
        IsStop e (run tokens.now (Index depth ∷ stack) operators)) }
{
    let Some(after) = after_bracket(tokens) else {
        return Ok((Box::new(alloc, Expr::Variable(name))?, tokens, operators));
    };
    let (index, rest, count) = nested(alloc, after, depth + 1, operators, Punct::CloseBracket)?;
    Ok((Box::new(alloc, Expr::Element(name, index))?, rest, count))
}

/// Reads an expression within another one, and the mark that closes it.
#[cycle(expressions)]
#[tactic(auto, using(cilk_syntax::proofs::Runs::tail_ends))]
fn nested<'a>(
    alloc: Global,
    tokens: &'a [Token],
    depth: u32,
    operators: u32,
    close: Punct,
) -> Result<(Box<Expr>, &'a [Token], u32), Stop<'a>>
    requires { operators ≤ 256 }
    ensures tree { IfOk result (λ x. SpellsClosed (kind_of close) (expression x.0.value) tokens.now x.1.now) }
    ensures shorter { IfOk result (λ x. length x.1.now < length tokens.now) }
    ensures few { IfOk result (λ x. x.2 ≤ 256) }
    ensures reads { IfOk result (λ x. (stack : List Symbol) →
        run tokens.now (Operand depth ∷ Tail depth ∷ One close ∷ stack) operators ≡ run x.1.now stack x.2) }
    ensures stops { IfErr result (λ e. (stack : List Symbol) →
        IsStop e (run tokens.now (Operand depth ∷ Tail depth ∷ One close ∷ stack) operators)) }
{
    let (inner, rest, count) = at_level(alloc, tokens, 0, depth, operators)?;
    let rest = one(rest, close)?;
    Ok((inner, rest, count))
}

/// Reads a whole expression, whose operators are counted from 0.
#[tactic(auto, using(cilk_syntax::proofs::Runs::ends_anew))]
pub fn expr<'a>(
    alloc: Global,
    tokens: &'a [Token],
    depth: u32,
) -> Result<(Box<Expr>, &'a [Token]), Stop<'a>>
    ensures tree { IfOk result (λ x. SpellsExpr (expression x.0.value) tokens.now x.1.now) }
    ensures shorter { IfOk result (λ x. length x.1.now < length tokens.now) }
    ensures reads { IfOk result (λ x. (stack : List Symbol) →
        run tokens.now (Operand depth ∷ Tail depth ∷ Anew ∷ stack) 0 ≡ run x.1.now stack 0) }
    ensures stops { IfErr result (λ e. (stack : List Symbol) →
        IsStop e (run tokens.now (Operand depth ∷ Tail depth ∷ Anew ∷ stack) 0)) }
{
    let (whole, rest, _) = at_level(alloc, tokens, 0, depth, 0)?;
    Ok((whole, rest))
}

/// Reads an expression in parentheses.
#[tactic(auto, unfolding(cilk_syntax::specs::Grammar::SpellsInside))]
pub fn parenthesized<'a>(
    alloc: Global,
    tokens: &'a [Token],
    depth: u32,
) -> Result<(Box<Expr>, &'a [Token]), Stop<'a>>
    ensures tree { IfOk result (λ x. SpellsInside (expression x.0.value) tokens.now x.1.now) }
    ensures shorter { IfOk result (λ x. length x.1.now < length tokens.now) }
    ensures reads { IfOk result (λ x. (stack : List Symbol) →
        run tokens.now (One Punct.Open ∷ Operand depth ∷ Tail depth ∷ Anew ∷ One Punct.Close ∷ stack) 0 ≡ run x.1.now stack 0) }
    ensures stops { IfErr result (λ e. (stack : List Symbol) →
        IsStop e (run tokens.now (One Punct.Open ∷ Operand depth ∷ Tail depth ∷ Anew ∷ One Punct.Close ∷ stack) 0)) }
{
    let rest = one(tokens, Punct::Open)?;
    let (e, rest) = expr(alloc, rest, depth)?;
    then_one(e, rest, Punct::Close)
}

/// Reads an expression and a semicolon.
pub fn ended<'a>(
    alloc: Global,
    tokens: &'a [Token],
    depth: u32,
) -> Result<(Box<Expr>, &'a [Token]), Stop<'a>>
    ensures tree { IfOk result (λ x. SpellsEnded (expression x.0.value) tokens.now x.1.now) }
    ensures shorter { IfOk result (λ x. length x.1.now < length tokens.now) }
    ensures reads { IfOk result (λ x. (stack : List Symbol) →
        run tokens.now (Operand depth ∷ Tail depth ∷ Anew ∷ One Punct.Semicolon ∷ stack) 0 ≡ run x.1.now stack 0) }
    ensures stops { IfErr result (λ e. (stack : List Symbol) →
        IsStop e (run tokens.now (Operand depth ∷ Tail depth ∷ Anew ∷ One Punct.Semicolon ∷ stack) 0)) }
{
    let (e, rest) = expr(alloc, tokens, depth)?;
    then_one(e, rest, Punct::Semicolon)
}

/// Reads an expression and a semicolon, or a semicolon alone.
#[tactic(auto, using(cilk_syntax::proofs::Runs::some_value), unfolding(cilk_syntax::specs::Grammar::SpellsOptional))]
pub fn optional<'a>(
    alloc: Global,
    tokens: &'a [Token],
    depth: u32,
) -> Result<(Option<Box<Expr>>, &'a [Token]), Stop<'a>>
    ensures tree { IfOk result (λ x. SpellsOptional (optional x.0) tokens.now x.1.now) }
    ensures shorter { IfOk result (λ x. length x.1.now < length tokens.now) }
    ensures reads { IfOk result (λ x. (stack : List Symbol) →
        run tokens.now (Optional depth ∷ stack) 0 ≡ run x.1.now stack 0) }
    ensures stops { IfErr result (λ e. (stack : List Symbol) →
        IsStop e (run tokens.now (Optional depth ∷ stack) 0)) }
{
    if let Some(rest) = behind(tokens, Punct::Semicolon) {
        return Ok((None, rest));
    }
    let (value, rest) = ended(alloc, tokens, depth)?;
    Ok((Some(value), rest))
}

//! Reading statements.

ghost use Rattle.std.specs.Prelude.{◌≡◌, ◌+◌, ◌<◌, ◌≤◌, false, List, ◌∷◌, IfOk, IfErr, length};
ghost use Rattle.cilk_syntax.specs.Expected;
ghost use Rattle.cilk_syntax.specs.Expected.{Symbol, One, Named, Operand, Tail, Anew, Optional, Statement, Statements, ElsePart, AfterName, Subscript, Arguments, UnitStep, Step, run, first_nests};
ghost use Rattle.cilk_syntax.specs.Grammar.{SpellsStmt, SpellsAll, SpellsNamed, SpellsNamedRest, SpellsRest, SpellsUpdate};
ghost use Rattle.cilk_syntax.specs.Stops.{IsStop};
ghost use Rattle.cilk_syntax.specs.declared.token.Kind.TheVariants as kinds;
ghost use Rattle.cilk_syntax.specs.Trees as trees;

use crate::assignments::assigned;
use crate::calls::{Source, arguments, call, right_side};
use crate::declarations::declaration;
use crate::expressions::{expr, optional, parenthesized};
use crate::loops::{bounds, closed, loop_head};
use cilk_syntax::firsts::{begins_statement, may_begin};
use cilk_syntax::marks::{Punct, behind, name, one, then_one};
use cilk_syntax::stop::{DEEPEST, Stop};
use cilk_syntax::token::{Kind, Token};
use cilk_syntax::tree::{Assignment, Call, Expr, Lvalue, Name, Stmt};
use cilk_types::invocation::Invocation;
use std::alloc::Global;

/// Reads a reducer's name and an expression in parentheses, and the semicolon.
#[tactic(auto, unfolding(cilk_syntax::specs::Grammar::SpellsUpdate))]
fn update<'a>(
    alloc: Global,
    tokens: &'a [Token],
    depth: u32,
) -> Result<(Name, Box<Expr>, &'a [Token]), Stop<'a>>
    ensures tree { IfOk result (λ x. SpellsUpdate x.0 (trees.expression x.1.value) tokens.now x.2.now) }
    ensures shorter { IfOk result (λ x. length x.2.now < length tokens.now) }
    ensures reads { IfOk result (λ x. (stack : List Symbol) →
        run tokens.now (One Punct.Open ∷ Named ∷ One Punct.Comma ∷ Operand depth ∷ Tail depth ∷ Anew ∷ One Punct.Close ∷ One Punct.Semicolon ∷ stack) 0 ≡ run x.2.now stack 0) }
    ensures stops { IfErr result (λ e. (stack : List Symbol) →
        IsStop e (run tokens.now (One Punct.Open ∷ Named ∷ One Punct.Comma ∷ Operand depth ∷ Tail depth ∷ Anew ∷ One Punct.Close ∷ One Punct.Semicolon ∷ stack) 0)) }
{
    let rest = one(tokens, Punct::Open)?;
    let (reducer, rest) = name(rest)?;
    let rest = one(rest, Punct::Comma)?;
    let (value, rest) = expr(alloc, rest, depth)?;
    let rest = one(rest, Punct::Close)?;
    let rest = one(rest, Punct::Semicolon)?;
    Ok((reducer, value, rest))
}

/// Reads a call of the function with this name, after its opening parenthesis.
fn called<'a>(
    alloc: Global,
    name: Name,
    tokens: &'a [Token],
    depth: u32,
) -> Result<(Stmt, &'a [Token]), Stop<'a>>
    ensures tree { IfOk result (λ x. SpellsNamedRest kinds.Open (trees.statement x.0) name tokens.now x.1.now) }
    ensures shorter { IfOk result (λ x. length x.1.now < length tokens.now) }
    ensures reads { IfOk result (λ x. (stack : List Symbol) →
        run tokens.now (Arguments depth ∷ One Punct.Semicolon ∷ stack) 0 ≡ run x.1.now stack 0) }
    ensures stops { IfErr result (λ e. (stack : List Symbol) →
        IsStop e (run tokens.now (Arguments depth ∷ One Punct.Semicolon ∷ stack) 0)) }
{
    let (arguments, rest) = arguments(alloc, tokens, depth)?;
    let rest = one(rest, Punct::Semicolon)?;
    let call = Call {
        at: name.at,
        name,
        arguments,
    };
    Ok((Stmt::Invoke(Invocation::Call, Box::new(alloc, call)?), rest))
}

/// Reads the right side of an assignment to the variable with this name, after its `=`.
fn taken<'a>(
    alloc: Global,
    name: Name,
    tokens: &'a [Token],
    depth: u32,
) -> Result<(Stmt, &'a [Token]), Stop<'a>>
    requires { depth ≤ 64 }
    ensures tree { IfOk result (λ x. SpellsNamedRest kinds.Assign (trees.statement x.0) name tokens.now x.1.now) }
    ensures shorter { IfOk result (λ x. length x.1.now < length tokens.now) }
    ensures reads { IfOk result (λ x. (stack : List Symbol) →
        run tokens.now (Expected.Source depth ∷ One Punct.Semicolon ∷ stack) 0 ≡ run x.1.now stack 0) }
    ensures stops { IfErr result (λ e. (stack : List Symbol) →
        IsStop e (run tokens.now (Expected.Source depth ∷ One Punct.Semicolon ∷ stack) 0)) }
{
    let (source, rest) = right_side(alloc, tokens, depth)?;
    let rest = one(rest, Punct::Semicolon)?;
    match source {
        Source::Value(value) => {
            let assignment = Assignment::Set(Lvalue::Variable(name), value);
            Ok((Stmt::Assign(Box::new(alloc, assignment)?), rest))
        }
        Source::Invoke(how, call) => Ok((Stmt::AssignCall(name, how, call), rest)),
    }
}

/// Reads the rest of a statement that begins with this name.
#[tactic(auto, using(cilk_syntax::proofs::Runs::assigns))]
fn named<'a>(
    alloc: Global,
    name: Name,
    tokens: &'a [Token],
    depth: u32,
) -> Result<(Stmt, &'a [Token]), Stop<'a>>
    requires { depth ≤ 64 }
    ensures tree { IfOk result (λ x. SpellsNamed (trees.statement x.0) name tokens.now x.1.now) }
    ensures shorter { IfOk result (λ x. length x.1.now < length tokens.now) }
    ensures reads { IfOk result (λ x. (stack : List Symbol) →
        run tokens.now (AfterName depth ∷ stack) 0 ≡ run x.1.now stack 0) }
    ensures stops { IfErr result (λ e. (stack : List Symbol) →
        IsStop e (run tokens.now (AfterName depth ∷ stack) 0)) }
{
    if let Some(after) = behind(tokens, Punct::Open) {
        return called(alloc, name, after, depth);
    }
    if let Some(after) = behind(tokens, Punct::Assign) {
        return taken(alloc, name, after, depth);
    }
    let (assignment, rest) = assigned(alloc, name, tokens, depth)?;
    let rest = one(rest, Punct::Semicolon)?;
    Ok((Stmt::Assign(Box::new(alloc, assignment)?), rest))
}

/// Reads an assignment and the semicolon.
fn ended_assignment<'a>(
    alloc: Global,
    tokens: &'a [Token],
    depth: u32,
) -> Result<(Stmt, &'a [Token]), Stop<'a>>
    requires { depth ≤ 64 }
    ensures tree { IfOk result (λ x. SpellsStmt (trees.statement x.0) tokens.now x.1.now) }
    ensures shorter { IfOk result (λ x. length x.1.now < length tokens.now) }
    ensures reads { IfOk result (λ x. (stack : List Symbol) →
        run tokens.now (Expected.Assignment depth ∷ One Punct.Semicolon ∷ stack) 0 ≡ run x.1.now stack 0) }
    ensures stops { IfErr result (λ e. (stack : List Symbol) →
        IsStop e (run tokens.now (Expected.Assignment depth ∷ One Punct.Semicolon ∷ stack) 0)) }
{
    let (assignment, rest) = closed(alloc, tokens, depth, Punct::Semicolon)?;
    Ok((Stmt::Assign(Box::new(alloc, assignment)?), rest))
}

/// Reads a spawned call, after its `cilk_spawn` at this place.
fn spawned<'a>(
    alloc: Global,
    at: usize,
    tokens: &'a [Token],
    depth: u32,
) -> Result<(Stmt, &'a [Token]), Stop<'a>>
    ensures tree { IfOk result (λ x. SpellsRest kinds.CilkSpawn (trees.statement x.0) tokens.now x.1.now) }
    ensures shorter { IfOk result (λ x. length x.1.now < length tokens.now) }
    ensures reads { IfOk result (λ x. (stack : List Symbol) →
        run tokens.now (Named ∷ One Punct.Open ∷ Arguments depth ∷ One Punct.Semicolon ∷ stack) 0 ≡ run x.1.now stack 0) }
    ensures stops { IfErr result (λ e. (stack : List Symbol) →
        IsStop e (run tokens.now (Named ∷ One Punct.Open ∷ Arguments depth ∷ One Punct.Semicolon ∷ stack) 0)) }
{
    let (call, rest) = call(alloc, at, tokens, depth)?;
    let spawned = Stmt::Invoke(Invocation::Spawn, call);
    then_one(spawned, rest, Punct::Semicolon)
}

/// Reads a print, after its `print` at this place.
fn printed<'a>(
    alloc: Global,
    at: usize,
    tokens: &'a [Token],
    depth: u32,
) -> Result<(Stmt, &'a [Token]), Stop<'a>>
    ensures tree { IfOk result (λ x. SpellsRest kinds.Print (trees.statement x.0) tokens.now x.1.now) }
    ensures shorter { IfOk result (λ x. length x.1.now < length tokens.now) }
    ensures reads { IfOk result (λ x. (stack : List Symbol) →
        run tokens.now (One Punct.Open ∷ Operand depth ∷ Tail depth ∷ Anew ∷ One Punct.Close ∷ One Punct.Semicolon ∷ stack) 0 ≡ run x.1.now stack 0) }
    ensures stops { IfErr result (λ e. (stack : List Symbol) →
        IsStop e (run tokens.now (One Punct.Open ∷ Operand depth ∷ Tail depth ∷ Anew ∷ One Punct.Close ∷ One Punct.Semicolon ∷ stack) 0)) }
{
    let (value, rest) = parenthesized(alloc, tokens, depth)?;
    then_one(Stmt::Print(at, value), rest, Punct::Semicolon)
}

/// Reads a statement that contains no others and is nested in `depth` statements.
fn simple<'a>(
    alloc: Global,
    tokens: &'a [Token],
    depth: u32,
) -> Result<(Stmt, &'a [Token]), Stop<'a>>
    requires depth { depth ≤ 64 }
    requires plain { first_nests tokens.now ≡ false }
    ensures tree { IfOk result (λ x. SpellsStmt (trees.statement x.0) tokens.now x.1.now) }
    ensures shorter { IfOk result (λ x. length x.1.now < length tokens.now) }
    ensures reads { IfOk result (λ x. (stack : List Symbol) →
        run tokens.now (Statement depth ∷ stack) 0 ≡ run x.1.now stack 0) }
    ensures stops { IfErr result (λ e. (stack : List Symbol) →
        IsStop e (run tokens.now (Statement depth ∷ stack) 0)) }
{
    let [first, rest @ ..] = tokens else {
        return Err(Stop::Unexpected(tokens));
    };
    match first.kind {
        Kind::Semicolon => Ok((Stmt::Empty(first.at), rest)),
        Kind::Int => declaration(alloc, rest, depth),
        Kind::Name => {
            let name = Name {
                at: first.at,
                end: first.end,
            };
            named(alloc, name, rest, depth)
        }
        Kind::Increment => ended_assignment(alloc, tokens, depth),
        Kind::Decrement => ended_assignment(alloc, tokens, depth),
        Kind::CilkSpawn => spawned(alloc, first.at, rest, depth),
        Kind::CilkSync => {
            let rest = one(rest, Punct::Semicolon)?;
            Ok((Stmt::Sync(first.at), rest))
        }
        Kind::Return => {
            let (value, rest) = optional(alloc, rest, depth)?;
            Ok((Stmt::Return(first.at, value), rest))
        }
        Kind::Print => printed(alloc, first.at, rest, depth),
        Kind::Update => {
            let (reducer, value, rest) = update(alloc, rest, depth)?;
            Ok((Stmt::Update(reducer, value), rest))
        }
        Kind::Set => {
            let (reducer, value, rest) = update(alloc, rest, depth)?;
            Ok((Stmt::Set(reducer, value), rest))
        }
        _ => Err(Stop::Unexpected(tokens)),
    }
}

/// Reads a statement that is nested in `depth` others.
#[cycle(statements)]
#[tactic(auto, using(cilk_syntax::proofs::Runs::holds_none))]
fn statement<'a>(
    alloc: Global,
    tokens: &'a [Token],
    depth: u32,
) -> Result<(Stmt, &'a [Token]), Stop<'a>>
    ensures tree { IfOk result (λ x. SpellsStmt (trees.statement x.0) tokens.now x.1.now) }
    ensures shorter { IfOk result (λ x. length x.1.now < length tokens.now) }
    ensures reads { IfOk result (λ x. (stack : List Symbol) →
        run tokens.now (Statement depth ∷ stack) 0 ≡ run x.1.now stack 0) }
    ensures stops { IfErr result (λ e. (stack : List Symbol) →
        IsStop e (run tokens.now (Statement depth ∷ stack) 0)) }
{
    let [first, rest @ ..] = tokens else {
        return Err(Stop::Unexpected(tokens));
    };
    if depth > DEEPEST {
        return Err(if begins_statement(first.kind) {
            Stop::PastLimit(tokens)
        } else {
            Stop::Unexpected(tokens)
        });
    }
    match first.kind {
        Kind::Semicolon => Ok((Stmt::Empty(first.at), rest)),
        Kind::OpenBrace => {
            let (list, rest) = statements(alloc, rest, depth + 1)?;
            let rest = one(rest, Punct::CloseBrace)?;
            Ok((Stmt::Block(first.at, list), rest))
        }
        Kind::If => choice(alloc, first.at, rest, depth),
        Kind::While => while_loop(alloc, first.at, rest, depth),
        Kind::For => for_loop(alloc, first.at, rest, depth),
        Kind::CilkFor => parallel_loop(alloc, first.at, rest, depth),
        _ => simple(alloc, tokens, depth),
    }
}

/// Reads a statement that is part of another one, into a box.
#[cycle(statements)]
fn body<'a>(
    alloc: Global,
    tokens: &'a [Token],
    depth: u32,
) -> Result<(Box<Stmt>, &'a [Token]), Stop<'a>>
    ensures tree { IfOk result (λ x. SpellsStmt (trees.statement x.0.value) tokens.now x.1.now) }
    ensures shorter { IfOk result (λ x. length x.1.now < length tokens.now) }
    ensures reads { IfOk result (λ x. (stack : List Symbol) →
        run tokens.now (Statement depth ∷ stack) 0 ≡ run x.1.now stack 0) }
    ensures stops { IfErr result (λ e. (stack : List Symbol) →
        IsStop e (run tokens.now (Statement depth ∷ stack) 0)) }
{
    let (inner, rest) = statement(alloc, tokens, depth)?;
    Ok((Box::new(alloc, inner)?, rest))
}

/// Reads the rest of a `while` at this place.
#[cycle(statements)]
fn while_loop<'a>(
    alloc: Global,
    at: usize,
    tokens: &'a [Token],
    depth: u32,
) -> Result<(Stmt, &'a [Token]), Stop<'a>>
    requires { depth ≤ 64 }
    ensures tree { IfOk result (λ x. SpellsRest kinds.While (trees.statement x.0) tokens.now x.1.now) }
    ensures shorter { IfOk result (λ x. length x.1.now < length tokens.now) }
    ensures reads { IfOk result (λ x. (stack : List Symbol) →
        run tokens.now (One Punct.Open ∷ Operand depth ∷ Tail depth ∷ Anew ∷ One Punct.Close ∷ Statement (depth + 1) ∷ stack) 0 ≡ run x.1.now stack 0) }
    ensures stops { IfErr result (λ e. (stack : List Symbol) →
        IsStop e (run tokens.now (One Punct.Open ∷ Operand depth ∷ Tail depth ∷ Anew ∷ One Punct.Close ∷ Statement (depth + 1) ∷ stack) 0)) }
{
    let (test, rest) = parenthesized(alloc, tokens, depth)?;
    let (body, rest) = body(alloc, rest, depth + 1)?;
    Ok((Stmt::While(at, test, body), rest))
}

/// Reads the rest of a `cilk_for` at this place.
#[cycle(statements)]
fn parallel_loop<'a>(
    alloc: Global,
    at: usize,
    tokens: &'a [Token],
    depth: u32,
) -> Result<(Stmt, &'a [Token]), Stop<'a>>
    requires { depth ≤ 64 }
    ensures tree { IfOk result (λ x. SpellsRest kinds.CilkFor (trees.statement x.0) tokens.now x.1.now) }
    ensures shorter { IfOk result (λ x. length x.1.now < length tokens.now) }
    ensures reads { IfOk result (λ x. (stack : List Symbol) →
        run tokens.now (One Punct.Open ∷ One Punct.Int ∷ Named ∷ One Punct.Assign ∷ Operand depth ∷ Tail depth ∷ Anew ∷ One Punct.Semicolon
        ∷ Named ∷ One Punct.Less ∷ Operand depth ∷ Tail depth ∷ Anew ∷ One Punct.Semicolon ∷ UnitStep ∷ One Punct.Close ∷ Statement (depth + 1) ∷ stack) 0 ≡ run x.1.now stack 0) }
    ensures stops { IfErr result (λ e. (stack : List Symbol) →
        IsStop e (run tokens.now (One Punct.Open ∷ One Punct.Int ∷ Named ∷ One Punct.Assign ∷ Operand depth ∷ Tail depth ∷ Anew ∷ One Punct.Semicolon
        ∷ Named ∷ One Punct.Less ∷ Operand depth ∷ Tail depth ∷ Anew ∷ One Punct.Semicolon ∷ UnitStep ∷ One Punct.Close ∷ Statement (depth + 1) ∷ stack) 0)) }
{
    let (bounds, rest) = bounds(alloc, tokens, depth)?;
    let head = Box::new(alloc, bounds)?;
    let (body, rest) = body(alloc, rest, depth + 1)?;
    Ok((Stmt::ParallelFor(at, head, body), rest))
}

/// Reads the rest of a `for` at this place.
#[cycle(statements)]
fn for_loop<'a>(
    alloc: Global,
    at: usize,
    tokens: &'a [Token],
    depth: u32,
) -> Result<(Stmt, &'a [Token]), Stop<'a>>
    requires { depth ≤ 64 }
    ensures tree { IfOk result (λ x. SpellsRest kinds.For (trees.statement x.0) tokens.now x.1.now) }
    ensures shorter { IfOk result (λ x. length x.1.now < length tokens.now) }
    ensures reads { IfOk result (λ x. (stack : List Symbol) →
        run tokens.now (One Punct.Open ∷ Expected.Beginning depth ∷ Optional depth ∷ Step depth ∷ Statement (depth + 1) ∷ stack) 0 ≡ run x.1.now stack 0) }
    ensures stops { IfErr result (λ e. (stack : List Symbol) →
        IsStop e (run tokens.now (One Punct.Open ∷ Expected.Beginning depth ∷ Optional depth ∷ Step depth ∷ Statement (depth + 1) ∷ stack) 0)) }
{
    let (head, rest) = loop_head(alloc, tokens, depth)?;
    let head = Box::new(alloc, head)?;
    let (body, rest) = body(alloc, rest, depth + 1)?;
    Ok((Stmt::For(at, head, body), rest))
}

/// Reads the rest of an `if` at this place, with its `else` if one follows.
#[cycle(statements)]
fn choice<'a>(
    alloc: Global,
    at: usize,
    tokens: &'a [Token],
    depth: u32,
) -> Result<(Stmt, &'a [Token]), Stop<'a>>
    requires { depth ≤ 64 }
    ensures tree { IfOk result (λ x. SpellsRest kinds.If (trees.statement x.0) tokens.now x.1.now) }
    ensures shorter { IfOk result (λ x. length x.1.now < length tokens.now) }
    ensures reads { IfOk result (λ x. (stack : List Symbol) →
        run tokens.now (One Punct.Open ∷ Operand depth ∷ Tail depth ∷ Anew ∷ One Punct.Close ∷ Statement (depth + 1) ∷ ElsePart (depth + 1) ∷ stack) 0 ≡ run x.1.now stack 0) }
    ensures stops { IfErr result (λ e. (stack : List Symbol) →
        IsStop e (run tokens.now (One Punct.Open ∷ Operand depth ∷ Tail depth ∷ Anew ∷ One Punct.Close ∷ Statement (depth + 1) ∷ ElsePart (depth + 1) ∷ stack) 0)) }
{
    let (test, rest) = parenthesized(alloc, tokens, depth)?;
    let (first, rest) = body(alloc, rest, depth + 1)?;
    match rest {
        [
            Token {
                kind: Kind::Else,
                ..
            },
            after @ ..,
        ] => {
            let (second, rest) = body(alloc, after, depth + 1)?;
            Ok((Stmt::IfElse(at, test, first, second), rest))
        }
        _ => Ok((Stmt::If(at, test, first), rest)),
    }
}

/// Reads statements up to a token that begins none. It loops, so a long list needs no more stack.
#[cycle(statements)]
#[tactic(auto, using(cilk_syntax::proofs::Lists::repeats, cilk_syntax::proofs::Lists::spells_push))]
pub fn statements<'a>(
    alloc: Global,
    tokens: &'a [Token],
    depth: u32,
) -> Result<(Vec<Stmt>, &'a [Token]), Stop<'a>>
    ensures tree { IfOk result (λ x. SpellsAll (trees.statements x.0.items) tokens.now x.1.now) }
    ensures shorter { IfOk result (λ x. length x.1.now ≤ length tokens.now) }
    ensures reads { IfOk result (λ x. (stack : List Symbol) →
        run tokens.now (Statements depth ∷ stack) 0 ≡ run x.1.now stack 0) }
    ensures stops { IfErr result (λ e. (stack : List Symbol) →
        IsStop e (run tokens.now (Statements depth ∷ stack) 0)) }
{
    let mut list = Vec::new(alloc);
    let mut rest = tokens;
    'each: while may_begin(rest) {
        let (next, after) = statement(alloc, rest, depth)?;
        list.push(next)?;
        rest = after;
    }
    Ok((list, rest))
}

//! Reading calls.

ghost use Rattle.std.specs.Prelude.{◌≡◌, ◌<◌, ◌≤◌, List, ◌∷◌, IfOk, IfErr, length};
ghost use Rattle.cilk_syntax.specs.Expected;
ghost use Rattle.cilk_syntax.specs.Expected.{Symbol, One, Named, Operand, Tail, Anew, Arguments, MoreArguments, run};
ghost use Rattle.cilk_syntax.specs.Grammar.{SpellsArgument, SpellsArguments, SpellsCall, SpellsSome, SpellsSource};
ghost use Rattle.cilk_parser.specs.Sources;
ghost use Rattle.cilk_syntax.specs.Stops.{IsStop, NotFirst};
ghost use Rattle.cilk_syntax.specs.declared.token.Kind.TheVariants as kinds;
ghost use Rattle.cilk_syntax.specs.Trees as trees;

use crate::expressions::expr;
use cilk_syntax::firsts::begins_call;
use cilk_syntax::marks::{Punct, behind, name, one};
use cilk_syntax::stop::Stop;
use cilk_syntax::token::{Kind, Token};
use cilk_syntax::tree::{Argument, Call, Expr};
use cilk_types::invocation::Invocation;
use std::alloc::Global;

/// A right side: an expression, or a call.
#[derive(Drop)]
pub enum Source {
    Value(Box<Expr>),
    Invoke(Invocation, Box<Call>),
}

/// Reads an argument of a call.
fn argument<'a>(
    alloc: Global,
    tokens: &'a [Token],
    depth: u32,
) -> Result<(Argument, &'a [Token]), Stop<'a>>
    ensures tree { IfOk result (λ x. SpellsArgument (trees.argument x.0) tokens.now x.1.now) }
    ensures shorter { IfOk result (λ x. length x.1.now < length tokens.now) }
    ensures reads { IfOk result (λ x. (stack : List Symbol) →
        run tokens.now (Operand depth ∷ Tail depth ∷ Anew ∷ stack) 0 ≡ run x.1.now stack 0) }
    ensures stops { IfErr result (λ e. (stack : List Symbol) →
        IsStop e (run tokens.now (Operand depth ∷ Tail depth ∷ Anew ∷ stack) 0)) }
{
    let [first, ..] = tokens else {
        return Err(Stop::Unexpected(tokens));
    };
    let (value, rest) = expr(alloc, tokens, depth)?;
    let argument = Argument {
        at: first.at,
        value,
    };
    Ok((argument, rest))
}

/// Reads arguments, at least one, separated by commas.
fn listed<'a>(
    alloc: Global,
    tokens: &'a [Token],
    depth: u32,
) -> Result<(Vec<Argument>, &'a [Token]), Stop<'a>>
    ensures tree { IfOk result (λ x. SpellsSome (trees.arguments_of x.0.items) tokens.now x.1.now) }
    ensures shorter { IfOk result (λ x. length x.1.now < length tokens.now) }
    ensures reads { IfOk result (λ x. (stack : List Symbol) →
        run tokens.now (Operand depth ∷ Tail depth ∷ Anew ∷ MoreArguments depth ∷ stack) 0 ≡ run x.1.now (MoreArguments depth ∷ stack) 0) }
    ensures ends { IfOk result (λ x. NotFirst kinds.Comma x.1.now) }
    ensures stops { IfErr result (λ e. (stack : List Symbol) →
        IsStop e (run tokens.now (Operand depth ∷ Tail depth ∷ Anew ∷ MoreArguments depth ∷ stack) 0)) }
{
    let mut list = Vec::new(alloc);
    let (first, mut rest) = argument(alloc, tokens, depth)?;
    list.push(first)?;
    'each: while let Some(after) = behind(rest, Punct::Comma) {
        let (next, after) = argument(alloc, after, depth)?;
        list.push(next)?;
        rest = after;
    }
    Ok((list, rest))
}

/// Reads the arguments of a call, and the closing parenthesis.
#[tactic(auto, using(cilk_syntax::proofs::Runs::some_argument, cilk_syntax::proofs::Lists::spells_arguments))]
pub fn arguments<'a>(
    alloc: Global,
    tokens: &'a [Token],
    depth: u32,
) -> Result<(Vec<Argument>, &'a [Token]), Stop<'a>>
    ensures tree { IfOk result (λ x. SpellsArguments (trees.arguments_of x.0.items) tokens.now x.1.now) }
    ensures shorter { IfOk result (λ x. length x.1.now < length tokens.now) }
    ensures reads { IfOk result (λ x. (stack : List Symbol) →
        run tokens.now (Arguments depth ∷ stack) 0 ≡ run x.1.now stack 0) }
    ensures stops { IfErr result (λ e. (stack : List Symbol) →
        IsStop e (run tokens.now (Arguments depth ∷ stack) 0)) }
{
    if let Some(rest) = behind(tokens, Punct::Close) {
        return Ok((Vec::new(alloc), rest));
    }
    let (list, rest) = listed(alloc, tokens, depth)?;
    match rest {
        [
            Token {
                kind: Kind::Close,
                ..
            },
            after @ ..,
        ] => Ok((list, after)),
        _ => Err(Stop::Unexpected(rest)),
    }
}

/// Reads a call. `at` is the place that it keeps: its own, or that of its `cilk_spawn`.
#[tactic(auto, unfolding(cilk_syntax::specs::Grammar::SpellsCall))]
pub fn call<'a>(
    alloc: Global,
    at: usize,
    tokens: &'a [Token],
    depth: u32,
) -> Result<(Box<Call>, &'a [Token]), Stop<'a>>
    ensures tree { IfOk result (λ x. SpellsCall (trees.call x.0.value) tokens.now x.1.now) }
    ensures shorter { IfOk result (λ x. length x.1.now < length tokens.now) }
    ensures reads { IfOk result (λ x. (stack : List Symbol) →
        run tokens.now (Named ∷ One Punct.Open ∷ Arguments depth ∷ stack) 0 ≡ run x.1.now stack 0) }
    ensures stops { IfErr result (λ e. (stack : List Symbol) →
        IsStop e (run tokens.now (Named ∷ One Punct.Open ∷ Arguments depth ∷ stack) 0)) }
{
    let (name, rest) = name(tokens)?;
    let rest = one(rest, Punct::Open)?;
    let (arguments, rest) = arguments(alloc, rest, depth)?;
    let call = Call {
        at,
        name,
        arguments,
    };
    Ok((Box::new(alloc, call)?, rest))
}

/// Reads a right side, after its `=`.
#[tactic(auto, using(cilk_syntax::proofs::Runs::called_source, cilk_syntax::proofs::Runs::plain_source))]
pub fn right_side<'a>(
    alloc: Global,
    tokens: &'a [Token],
    depth: u32,
) -> Result<(Source, &'a [Token]), Stop<'a>>
    requires { depth ≤ 64 }
    ensures tree { IfOk result (λ x. SpellsSource (Sources.source x.0) tokens.now x.1.now) }
    ensures shorter { IfOk result (λ x. length x.1.now < length tokens.now) }
    ensures reads { IfOk result (λ x. (stack : List Symbol) →
        run tokens.now (Expected.Source depth ∷ stack) 0 ≡ run x.1.now stack 0) }
    ensures stops { IfErr result (λ e. (stack : List Symbol) →
        IsStop e (run tokens.now (Expected.Source depth ∷ stack) 0)) }
{
    match tokens {
        [
            Token {
                kind: Kind::CilkSpawn,
                at,
                ..
            },
            after @ ..,
        ] => {
            let (spawned, rest) = call(alloc, *at, after, depth)?;
            Ok((Source::Invoke(Invocation::Spawn, spawned), rest))
        }
        _ => {
            if begins_call(tokens) {
                let (called, rest) = call(alloc, tokens[0].at, tokens, depth)?;
                Ok((Source::Invoke(Invocation::Call, called), rest))
            } else {
                let (value, rest) = expr(alloc, tokens, depth)?;
                Ok((Source::Value(value), rest))
            }
        }
    }
}

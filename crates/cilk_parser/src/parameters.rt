//! Reading the parameters of a function.

ghost use Rattle.std.specs.Prelude.{◌≡◌, ◌<◌, ◌≤◌, List, ◌∷◌, IfOk, IfErr, length};
ghost use Rattle.cilk_syntax.specs.Expected as expected;
ghost use Rattle.cilk_syntax.specs.Expected.{Symbol, MoreParameters, run};
ghost use Rattle.cilk_syntax.specs.Grammar.{SpellsListed, SpellsParameter, SpellsParameters};
ghost use Rattle.cilk_syntax.specs.Stops.{IsStop, NotFirst};
ghost use Rattle.cilk_syntax.specs.declared.token.Kind.TheVariants as kinds;

use crate::declarations::reducer;
use cilk_syntax::marks::{Punct, behind, one};
use cilk_syntax::stop::Stop;
use cilk_syntax::token::{Kind, Token};
use cilk_syntax::tree::{Name, Parameter};
use std::alloc::Global;

/// Reads a parameter, after its `int`.
fn parameter<'a>(tokens: &'a [Token]) -> Result<(Parameter, &'a [Token]), Stop<'a>>
    ensures tree { IfOk result (λ x. SpellsParameter x.0 tokens.now x.1.now) }
    ensures shorter { IfOk result (λ x. length x.1.now < length tokens.now) }
    ensures reads { IfOk result (λ x. (stack : List Symbol) →
        run tokens.now (expected.Parameter ∷ stack) 0 ≡ run x.1.now stack 0) }
    ensures stops { IfErr result (λ e. (stack : List Symbol) →
        IsStop e (run tokens.now (expected.Parameter ∷ stack) 0)) }
{
    match tokens {
        [
            Token {
                kind: Kind::Name,
                at,
                end,
            },
            rest @ ..,
        ] => Ok((Parameter::Variable(Name { at: *at, end: *end }), rest)),
        [
            Token {
                kind: Kind::CilkReducer,
                ..
            },
            after @ ..,
        ] => {
            let (declared, rest) = reducer(after)?;
            Ok((Parameter::Reducer(declared), rest))
        }
        _ => Err(Stop::Unexpected(tokens)),
    }
}

/// Reads parameters, at least one, after the first `int`.
fn listed<'a>(alloc: Global, tokens: &'a [Token]) -> Result<(Vec<Parameter>, &'a [Token]), Stop<'a>>
    ensures tree { IfOk result (λ x. SpellsListed x.0.items tokens.now x.1.now) }
    ensures shorter { IfOk result (λ x. length x.1.now < length tokens.now) }
    ensures reads { IfOk result (λ x. (stack : List Symbol) →
        run tokens.now (expected.Parameter ∷ MoreParameters ∷ stack) 0 ≡ run x.1.now (MoreParameters ∷ stack) 0) }
    ensures ends { IfOk result (λ x. NotFirst kinds.Comma x.1.now) }
    ensures stops { IfErr result (λ e. (stack : List Symbol) →
        IsStop e (run tokens.now (expected.Parameter ∷ MoreParameters ∷ stack) 0)) }
{
    let mut list = Vec::new(alloc);
    let (first, mut rest) = parameter(tokens)?;
    list.push(first)?;
    'each: while let Some(after) = behind(rest, Punct::Comma) {
        let after = one(after, Punct::Int)?;
        let (next, after) = parameter(after)?;
        list.push(next)?;
        rest = after;
    }
    Ok((list, rest))
}

/// Reads the parameters of a function, and the closing parenthesis.
#[tactic(auto, using(cilk_syntax::proofs::Lists::spells_parameters))]
pub fn parameters<'a>(
    alloc: Global,
    tokens: &'a [Token],
) -> Result<(Vec<Parameter>, &'a [Token]), Stop<'a>>
    ensures tree { IfOk result (λ x. SpellsParameters x.0.items tokens.now x.1.now) }
    ensures shorter { IfOk result (λ x. length x.1.now < length tokens.now) }
    ensures reads { IfOk result (λ x. (stack : List Symbol) →
        run tokens.now (expected.Parameters ∷ stack) 0 ≡ run x.1.now stack 0) }
    ensures stops { IfErr result (λ e. (stack : List Symbol) →
        IsStop e (run tokens.now (expected.Parameters ∷ stack) 0)) }
{
    let [first, after @ ..] = tokens else {
        return Err(Stop::Unexpected(tokens));
    };
    match first.kind {
        Kind::Close => Ok((Vec::new(alloc), after)),
        Kind::Void => {
            let rest = one(after, Punct::Close)?;
            Ok((Vec::new(alloc), rest))
        }
        Kind::Int => {
            let (list, rest) = listed(alloc, after)?;
            match rest {
                [
                    Token {
                        kind: Kind::Close,
                        ..
                    },
                    rest @ ..,
                ] => Ok((list, rest)),
                _ => Err(Stop::Unexpected(rest)),
            }
        }
        _ => Err(Stop::Unexpected(tokens)),
    }
}

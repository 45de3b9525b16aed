//! Reading the declarations in a function's body.

ghost use Rattle.std.specs.Prelude.{◌≡◌, ◌<◌, ◌≤◌, List, ◌∷◌, IfOk, IfErr, length};
ghost use Rattle.cilk_syntax.specs.Expected.{Symbol, One, Named, Declaration, LocalInitial, Locals, run};
ghost use Rattle.cilk_syntax.specs.Grammar.{SpellsLocal, SpellsLocalInitializer, SpellsLocalLine, SpellsLocals, SpellsReducerRest, SpellsRest};
ghost use Rattle.cilk_syntax.specs.Stops.{IsStop, NotFirst};
ghost use Rattle.cilk_syntax.specs.declared.token.Kind.TheVariants as kinds;
ghost use Rattle.cilk_syntax.specs.Trees as trees;

use crate::calls::{Source, right_side};
use crate::openers::after_reducer;
use cilk_syntax::marks::{Punct, behind, name, one};
use cilk_syntax::stop::Stop;
use cilk_syntax::token::{Kind, Token};
use cilk_syntax::tree::{Local, LocalInitializer, Reducer, Stmt};
use std::alloc::Global;

/// Reads a reducer, after its `cilk_reducer`.
#[tactic(auto, unfolding(cilk_syntax::specs::Grammar::SpellsReducer))]
pub fn reducer<'a>(tokens: &'a [Token]) -> Result<(Reducer, &'a [Token]), Stop<'a>>
    ensures tree { IfOk result (λ x. SpellsReducerRest x.0 tokens.now x.1.now) }
    ensures shorter { IfOk result (λ x. length x.1.now < length tokens.now) }
    ensures reads { IfOk result (λ x. (stack : List Symbol) →
        run tokens.now (One Punct.Open ∷ Named ∷ One Punct.Close ∷ Named ∷ stack) 0 ≡ run x.1.now stack 0) }
    ensures stops { IfErr result (λ e. (stack : List Symbol) →
        IsStop e (run tokens.now (One Punct.Open ∷ Named ∷ One Punct.Close ∷ Named ∷ stack) 0)) }
{
    let rest = one(tokens, Punct::Open)?;
    let (monoid, rest) = name(rest)?;
    let rest = one(rest, Punct::Close)?;
    let (name, rest) = name(rest)?;
    Ok((Reducer { monoid, name }, rest))
}

/// Reads the initializer of a local variable, after its name.
#[tactic(auto, using(cilk_syntax::proofs::Runs::no_source))]
fn initializer<'a>(
    alloc: Global,
    tokens: &'a [Token],
    depth: u32,
) -> Result<(LocalInitializer, &'a [Token]), Stop<'a>>
    requires { depth ≤ 64 }
    ensures tree { IfOk result (λ x. SpellsLocalInitializer (trees.local_initializer x.0) tokens.now x.1.now) }
    ensures shorter { IfOk result (λ x. length x.1.now ≤ length tokens.now) }
    ensures reads { IfOk result (λ x. (stack : List Symbol) →
        run tokens.now (LocalInitial depth ∷ stack) 0 ≡ run x.1.now stack 0) }
    ensures stops { IfErr result (λ e. (stack : List Symbol) →
        IsStop e (run tokens.now (LocalInitial depth ∷ stack) 0)) }
{
    let Some(after) = behind(tokens, Punct::Assign) else {
        return Ok((LocalInitializer::Absent, tokens));
    };
    let (taken, rest) = right_side(alloc, after, depth)?;
    match taken {
        Source::Value(value) => Ok((LocalInitializer::Value(value), rest)),
        Source::Invoke(how, call) => Ok((LocalInitializer::Invoke(how, call), rest)),
    }
}

/// Reads a local variable.
#[tactic(auto, unfolding(cilk_syntax::specs::Grammar::SpellsLocal))]
fn local<'a>(
    alloc: Global,
    tokens: &'a [Token],
    depth: u32,
) -> Result<(Local, &'a [Token]), Stop<'a>>
    requires { depth ≤ 64 }
    ensures tree { IfOk result (λ x. SpellsLocal (trees.local x.0) tokens.now x.1.now) }
    ensures shorter { IfOk result (λ x. length x.1.now < length tokens.now) }
    ensures reads { IfOk result (λ x. (stack : List Symbol) →
        run tokens.now (Named ∷ LocalInitial depth ∷ stack) 0 ≡ run x.1.now stack 0) }
    ensures stops { IfErr result (λ e. (stack : List Symbol) →
        IsStop e (run tokens.now (Named ∷ LocalInitial depth ∷ stack) 0)) }
{
    let (name, rest) = name(tokens)?;
    let (initializer, rest) = initializer(alloc, rest, depth)?;
    Ok((Local { name, initializer }, rest))
}

/// Reads local variables, at least one, separated by commas.
fn locals<'a>(
    alloc: Global,
    tokens: &'a [Token],
    depth: u32,
) -> Result<(Vec<Local>, &'a [Token]), Stop<'a>>
    requires { depth ≤ 64 }
    ensures tree { IfOk result (λ x. SpellsLocals (trees.locals_of x.0.items) tokens.now x.1.now) }
    ensures shorter { IfOk result (λ x. length x.1.now < length tokens.now) }
    ensures reads { IfOk result (λ x. (stack : List Symbol) →
        run tokens.now (Named ∷ LocalInitial depth ∷ Locals depth ∷ stack) 0 ≡ run x.1.now (Locals depth ∷ stack) 0) }
    ensures ends { IfOk result (λ x. NotFirst kinds.Comma x.1.now) }
    ensures stops { IfErr result (λ e. (stack : List Symbol) →
        IsStop e (run tokens.now (Named ∷ LocalInitial depth ∷ Locals depth ∷ stack) 0)) }
{
    let mut list = Vec::new(alloc);
    let (first, mut rest) = local(alloc, tokens, depth)?;
    list.push(first)?;
    'each: while let Some(after) = behind(rest, Punct::Comma) {
        let (next, after) = local(alloc, after, depth)?;
        list.push(next)?;
        rest = after;
    }
    Ok((list, rest))
}

/// Reads local variables, and the semicolon.
#[tactic(auto, unfolding(cilk_syntax::specs::Grammar::SpellsLocalLine))]
fn line<'a>(
    alloc: Global,
    tokens: &'a [Token],
    depth: u32,
) -> Result<(Vec<Local>, &'a [Token]), Stop<'a>>
    requires { depth ≤ 64 }
    ensures tree { IfOk result (λ x. SpellsLocalLine (trees.locals_of x.0.items) tokens.now x.1.now) }
    ensures shorter { IfOk result (λ x. length x.1.now < length tokens.now) }
    ensures reads { IfOk result (λ x. (stack : List Symbol) →
        run tokens.now (Named ∷ LocalInitial depth ∷ Locals depth ∷ stack) 0 ≡ run x.1.now stack 0) }
    ensures stops { IfErr result (λ e. (stack : List Symbol) →
        IsStop e (run tokens.now (Named ∷ LocalInitial depth ∷ Locals depth ∷ stack) 0)) }
{
    let (list, rest) = locals(alloc, tokens, depth)?;
    match rest {
        [
            Token {
                kind: Kind::Semicolon,
                ..
            },
            after @ ..,
        ] => Ok((list, after)),
        _ => Err(Stop::Unexpected(rest)),
    }
}

/// Reads a declaration, after its `int`.
#[tactic(auto, using(cilk_syntax::proofs::Runs::declares_locals))]
pub fn declaration<'a>(
    alloc: Global,
    tokens: &'a [Token],
    depth: u32,
) -> Result<(Stmt, &'a [Token]), Stop<'a>>
    requires { depth ≤ 64 }
    ensures tree { IfOk result (λ x. SpellsRest kinds.Int (trees.statement x.0) tokens.now x.1.now) }
    ensures shorter { IfOk result (λ x. length x.1.now < length tokens.now) }
    ensures reads { IfOk result (λ x. (stack : List Symbol) →
        run tokens.now (Declaration depth ∷ stack) 0 ≡ run x.1.now stack 0) }
    ensures stops { IfErr result (λ e. (stack : List Symbol) →
        IsStop e (run tokens.now (Declaration depth ∷ stack) 0)) }
{
    if let Some(after) = after_reducer(tokens) {
        let (declared, rest) = reducer(after)?;
        let rest = one(rest, Punct::Semicolon)?;
        return Ok((Stmt::Reducer(declared), rest));
    }
    let (list, rest) = line(alloc, tokens, depth)?;
    Ok((Stmt::Declare(list), rest))
}

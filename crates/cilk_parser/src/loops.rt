//! Reading the heads of loops.

ghost use Rattle.std.specs.Prelude.{◌≡◌, ◌<◌, ◌≤◌, List, ◌∷◌, IfOk, IfErr, length};
ghost use Rattle.cilk_syntax.specs.Expected as expected;
ghost use Rattle.cilk_syntax.specs.Expected.{Symbol, One, Named, Operand, Tail, Anew, Optional, Step, UnitStep, UnitStepRest, kind_of, run};
ghost use Rattle.cilk_syntax.specs.Grammar.{Is, IsName, SpellsAssignment, SpellsBeginning, SpellsBounds, SpellsEnded, SpellsHead, SpellsStep, SpellsUnit, SpellsUnitStep};
ghost use Rattle.cilk_syntax.specs.Stops.{IsStop};
ghost use Rattle.cilk_syntax.specs.declared.token.Kind.TheVariants as kinds;
ghost use Rattle.cilk_syntax.specs.Trees as trees;

use crate::assignments::assignment;
use crate::expressions::{ended, optional};
use cilk_syntax::marks::{Punct, behind, name, one, single, then_one};
use cilk_syntax::stop::Stop;
use cilk_syntax::token::{Kind, Token};
use cilk_syntax::tree::{Assignment, Beginning, Bounds, Expr, Head, Name};
use std::alloc::Global;

/// Reads a variable, this mark, an expression and the semicolon.
fn valued<'a>(
    alloc: Global,
    tokens: &'a [Token],
    depth: u32,
    mark: Punct,
) -> Result<(Name, Box<Expr>, &'a [Token]), Stop<'a>>
    ensures tree { IfOk result (λ x. (ts1 ts2 : List Token) × IsName x.0 tokens.now ts1 × Is (kind_of mark) ts1 ts2 × SpellsEnded (trees.expression x.1.value) ts2 x.2.now) }
    ensures shorter { IfOk result (λ x. length x.2.now < length tokens.now) }
    ensures reads { IfOk result (λ x. (stack : List Symbol) →
        run tokens.now (Named ∷ One mark ∷ Operand depth ∷ Tail depth ∷ Anew ∷ One Punct.Semicolon ∷ stack) 0 ≡ run x.2.now stack 0) }
    ensures stops { IfErr result (λ e. (stack : List Symbol) →
        IsStop e (run tokens.now (Named ∷ One mark ∷ Operand depth ∷ Tail depth ∷ Anew ∷ One Punct.Semicolon ∷ stack) 0)) }
{
    let (variable, rest) = name(tokens)?;
    let rest = one(rest, mark)?;
    let (value, rest) = ended(alloc, rest, depth)?;
    Ok((variable, value, rest))
}

/// Reads `++` or `+= 1`.
fn unit<'a>(tokens: &'a [Token]) -> Result<&'a [Token], Stop<'a>>
    ensures tree { IfOk result (λ rest. SpellsUnit tokens.now rest.now) }
    ensures shorter { IfOk result (λ rest. length rest.now < length tokens.now) }
    ensures reads { IfOk result (λ rest. (stack : List Symbol) →
        run tokens.now (UnitStepRest ∷ stack) 0 ≡ run rest.now stack 0) }
    ensures stops { IfErr result (λ e. (stack : List Symbol) →
        IsStop e (run tokens.now (UnitStepRest ∷ stack) 0)) }
{
    match tokens {
        [
            Token {
                kind: Kind::Increment,
                ..
            },
            rest @ ..,
        ] => Ok(rest),
        [
            Token {
                kind: Kind::PlusAssign,
                ..
            },
            after @ ..,
        ] => single(after),
        _ => Err(Stop::Unexpected(tokens)),
    }
}

/// Reads an increment by 1, and returns the name in it.
#[tactic(auto, unfolding(cilk_syntax::specs::Grammar::SpellsUnitStep))]
fn unit_step<'a>(tokens: &'a [Token]) -> Result<(Name, &'a [Token]), Stop<'a>>
    ensures tree { IfOk result (λ x. SpellsUnitStep x.0 tokens.now x.1.now) }
    ensures shorter { IfOk result (λ x. length x.1.now < length tokens.now) }
    ensures reads { IfOk result (λ x. (stack : List Symbol) →
        run tokens.now (UnitStep ∷ stack) 0 ≡ run x.1.now stack 0) }
    ensures stops { IfErr result (λ e. (stack : List Symbol) →
        IsStop e (run tokens.now (UnitStep ∷ stack) 0)) }
{
    match tokens {
        [
            Token {
                kind: Kind::Increment,
                ..
            },
            after @ ..,
        ] => name(after),
        [
            Token {
                kind: Kind::Name,
                at,
                end,
            },
            after @ ..,
        ] => {
            let rest = unit(after)?;
            Ok((Name { at: *at, end: *end }, rest))
        }
        _ => Err(Stop::Unexpected(tokens)),
    }
}

/// Reads an increment by 1 and the parenthesis, and returns the name in it.
fn last_step<'a>(tokens: &'a [Token]) -> Result<(Name, &'a [Token]), Stop<'a>>
    ensures tree { IfOk result (λ x. (ts : List Token) × SpellsUnitStep x.0 tokens.now ts × Is kinds.Close ts x.1.now) }
    ensures shorter { IfOk result (λ x. length x.1.now < length tokens.now) }
    ensures reads { IfOk result (λ x. (stack : List Symbol) →
        run tokens.now (UnitStep ∷ One Punct.Close ∷ stack) 0 ≡ run x.1.now stack 0) }
    ensures stops { IfErr result (λ e. (stack : List Symbol) →
        IsStop e (run tokens.now (UnitStep ∷ One Punct.Close ∷ stack) 0)) }
{
    let (name, rest) = unit_step(tokens)?;
    then_one(name, rest, Punct::Close)
}

/// Reads the head of a `cilk_for`.
pub fn bounds<'a>(
    alloc: Global,
    tokens: &'a [Token],
    depth: u32,
) -> Result<(Bounds, &'a [Token]), Stop<'a>>
    ensures tree { IfOk result (λ x. SpellsBounds (trees.bounds x.0) tokens.now x.1.now) }
    ensures shorter { IfOk result (λ x. length x.1.now < length tokens.now) }
    ensures reads { IfOk result (λ x. (stack : List Symbol) →
        run tokens.now (One Punct.Open ∷ One Punct.Int ∷ Named ∷ One Punct.Assign ∷ Operand depth ∷ Tail depth ∷ Anew ∷ One Punct.Semicolon
        ∷ Named ∷ One Punct.Less ∷ Operand depth ∷ Tail depth ∷ Anew ∷ One Punct.Semicolon ∷ UnitStep ∷ One Punct.Close ∷ stack) 0 ≡ run x.1.now stack 0) }
    ensures stops { IfErr result (λ e. (stack : List Symbol) →
        IsStop e (run tokens.now (One Punct.Open ∷ One Punct.Int ∷ Named ∷ One Punct.Assign ∷ Operand depth ∷ Tail depth ∷ Anew ∷ One Punct.Semicolon
        ∷ Named ∷ One Punct.Less ∷ Operand depth ∷ Tail depth ∷ Anew ∷ One Punct.Semicolon ∷ UnitStep ∷ One Punct.Close ∷ stack) 0)) }
{
    let rest = one(tokens, Punct::Open)?;
    let rest = one(rest, Punct::Int)?;
    let (variable, low, rest) = valued(alloc, rest, depth, Punct::Assign)?;
    let (tested, high, rest) = valued(alloc, rest, depth, Punct::Less)?;
    let (stepped, rest) = last_step(rest)?;
    let bounds = Bounds {
        variable,
        low,
        tested,
        high,
        stepped,
    };
    Ok((bounds, rest))
}

/// Reads an assignment, and the mark after it.
pub fn closed<'a>(
    alloc: Global,
    tokens: &'a [Token],
    depth: u32,
    close: Punct,
) -> Result<(Assignment, &'a [Token]), Stop<'a>>
    requires { depth ≤ 64 }
    ensures tree { IfOk result (λ x. (ts : List Token) × SpellsAssignment (trees.assignment x.0) tokens.now ts × Is (kind_of close) ts x.1.now) }
    ensures shorter { IfOk result (λ x. length x.1.now < length tokens.now) }
    ensures reads { IfOk result (λ x. (stack : List Symbol) →
        run tokens.now (expected.Assignment depth ∷ One close ∷ stack) 0 ≡ run x.1.now stack 0) }
    ensures stops { IfErr result (λ e. (stack : List Symbol) →
        IsStop e (run tokens.now (expected.Assignment depth ∷ One close ∷ stack) 0)) }
{
    let (assignment, rest) = assignment(alloc, tokens, depth)?;
    then_one(assignment, rest, close)
}

/// Reads the first part of the head of a `for`, and the semicolon.
#[tactic(auto, using(cilk_syntax::proofs::Runs::begins_assigning), unfolding(cilk_syntax::specs::Grammar::SpellsBeginning, cilk_syntax::specs::Grammar::SpellsDefined))]
fn beginning<'a>(
    alloc: Global,
    tokens: &'a [Token],
    depth: u32,
) -> Result<(Option<Beginning>, &'a [Token]), Stop<'a>>
    requires { depth ≤ 64 }
    ensures tree { IfOk result (λ x. SpellsBeginning (trees.optional_beginning x.0) tokens.now x.1.now) }
    ensures shorter { IfOk result (λ x. length x.1.now < length tokens.now) }
    ensures reads { IfOk result (λ x. (stack : List Symbol) →
        run tokens.now (expected.Beginning depth ∷ stack) 0 ≡ run x.1.now stack 0) }
    ensures stops { IfErr result (λ e. (stack : List Symbol) →
        IsStop e (run tokens.now (expected.Beginning depth ∷ stack) 0)) }
{
    if let Some(rest) = behind(tokens, Punct::Semicolon) {
        return Ok((None, rest));
    }
    if let Some(after) = behind(tokens, Punct::Int) {
        let (variable, value, rest) = valued(alloc, after, depth, Punct::Assign)?;
        return Ok((Some(Beginning::Declares(variable, value)), rest));
    }
    let (first, rest) = closed(alloc, tokens, depth, Punct::Semicolon)?;
    Ok((Some(Beginning::Assigns(first)), rest))
}

/// Reads the last part of the head of a `for`, and the parenthesis.
#[tactic(auto, using(cilk_syntax::proofs::Runs::steps_assigning), unfolding(cilk_syntax::specs::Grammar::SpellsStep))]
fn step<'a>(
    alloc: Global,
    tokens: &'a [Token],
    depth: u32,
) -> Result<(Option<Assignment>, &'a [Token]), Stop<'a>>
    requires { depth ≤ 64 }
    ensures tree { IfOk result (λ x. SpellsStep (trees.optional_assignment x.0) tokens.now x.1.now) }
    ensures shorter { IfOk result (λ x. length x.1.now < length tokens.now) }
    ensures reads { IfOk result (λ x. (stack : List Symbol) →
        run tokens.now (Step depth ∷ stack) 0 ≡ run x.1.now stack 0) }
    ensures stops { IfErr result (λ e. (stack : List Symbol) →
        IsStop e (run tokens.now (Step depth ∷ stack) 0)) }
{
    if let Some(rest) = behind(tokens, Punct::Close) {
        return Ok((None, rest));
    }
    let (step, rest) = closed(alloc, tokens, depth, Punct::Close)?;
    Ok((Some(step), rest))
}

/// Reads the head of a `for`.
#[tactic(auto, unfolding(cilk_syntax::specs::Grammar::SpellsHead))]
pub fn loop_head<'a>(
    alloc: Global,
    tokens: &'a [Token],
    depth: u32,
) -> Result<(Head, &'a [Token]), Stop<'a>>
    requires { depth ≤ 64 }
    ensures tree { IfOk result (λ x. SpellsHead (trees.optional_beginning x.0.beginning) (trees.optional x.0.test) (trees.optional_assignment x.0.step) tokens.now x.1.now) }
    ensures shorter { IfOk result (λ x. length x.1.now < length tokens.now) }
    ensures reads { IfOk result (λ x. (stack : List Symbol) →
        run tokens.now (One Punct.Open ∷ expected.Beginning depth ∷ Optional depth ∷ Step depth ∷ stack) 0 ≡ run x.1.now stack 0) }
    ensures stops { IfErr result (λ e. (stack : List Symbol) →
        IsStop e (run tokens.now (One Punct.Open ∷ expected.Beginning depth ∷ Optional depth ∷ Step depth ∷ stack) 0)) }
{
    let rest = one(tokens, Punct::Open)?;
    let (beginning, rest) = beginning(alloc, rest, depth)?;
    let (test, rest) = optional(alloc, rest, depth)?;
    let (step, rest) = step(alloc, rest, depth)?;
    let head = Head {
        beginning,
        test,
        step,
    };
    Ok((head, rest))
}

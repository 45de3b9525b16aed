//! Reading the items of a program.

ghost use Rattle.std.specs.Prelude.{◌≡◌, ℕ, ◌<◌, ◌≤◌, List, [], ◌∷◌, IfOk, IfErr, IfSome, IfNone, length};
ghost use Rattle.cilk_syntax.specs.Expected as expected;
ghost use Rattle.cilk_syntax.specs.Expected.{Symbol, Named, Declared, Literal, Initial, Variables, Items, One, Statements, Whole, behind_type, run};
ghost use Rattle.cilk_syntax.specs.Grammar.{Is, SpellsBody, SpellsFunction, SpellsGlobal, SpellsInitializer, SpellsItemRest, SpellsItems, SpellsLine, SpellsLiteral, SpellsProgram, SpellsTyped, SpellsVariables, type_of};
ghost use Rattle.cilk_syntax.specs.Stops.{IsStop, NotFirst};
ghost use Rattle.cilk_syntax.specs.declared.token.Kind.TheVariants as kinds;
ghost use Rattle.cilk_syntax.specs.Trees as trees;
ghost use Rattle.cilk_syntax.specs.declared.tree.ReturnType.TheVariants as types;

use crate::declarations::reducer;
use crate::openers::{after_bracket, after_reducer};
use crate::parameters::parameters;
use crate::statements::statements;
use cilk_syntax::marks::{Punct, behind, name, numeral, one};
use cilk_syntax::stop::Stop;
use cilk_syntax::token::{Kind, Token};
use cilk_syntax::tree::{GlobalVariable, Initializer, Item, Name, Parameter, ReturnType, Stmt};
use std::alloc::Global;

/// Reads the literal after the `=` of a global variable.
fn literal<'a>(tokens: &'a [Token]) -> Result<(Initializer, &'a [Token]), Stop<'a>>
    ensures tree { IfOk result (λ x. SpellsLiteral x.0 tokens.now x.1.now) }
    ensures shorter { IfOk result (λ x. length x.1.now < length tokens.now) }
    ensures reads { IfOk result (λ x. (stack : List Symbol) →
        run tokens.now (Literal ∷ stack) 0 ≡ run x.1.now stack 0) }
    ensures stops { IfErr result (λ e. (stack : List Symbol) →
        IsStop e (run tokens.now (Literal ∷ stack) 0)) }
{
    match tokens {
        [
            Token {
                kind: Kind::Number(value),
                ..
            },
            rest @ ..,
        ] => Ok((Initializer::Number(*value), rest)),
        [
            Token {
                kind: Kind::Minus,
                ..
            },
            after @ ..,
        ] => {
            let (value, rest) = numeral(after)?;
            Ok((Initializer::Negative(value), rest))
        }
        _ => Err(Stop::Unexpected(tokens)),
    }
}

/// Reads the rest of a global variable, after its name.
#[tactic(auto, using(cilk_syntax::proofs::Lists::spells_initial))]
fn global<'a>(name: Name, tokens: &'a [Token]) -> Result<(GlobalVariable, &'a [Token]), Stop<'a>>
    ensures tree { IfOk result (λ x. SpellsGlobal x.0 name tokens.now x.1.now) }
    ensures shorter { IfOk result (λ x. length x.1.now ≤ length tokens.now) }
    ensures reads { IfOk result (λ x. (stack : List Symbol) →
        run tokens.now (Initial ∷ stack) 0 ≡ run x.1.now stack 0) }
    ensures stops { IfErr result (λ e. (stack : List Symbol) →
        IsStop e (run tokens.now (Initial ∷ stack) 0)) }
{
    if let Some(after) = behind(tokens, Punct::Assign) {
        let (value, rest) = literal(after)?;
        return Ok((GlobalVariable::Variable(name, value), rest));
    }
    if let Some(after) = after_bracket(tokens) {
        let (length, rest) = numeral(after)?;
        let rest = one(rest, Punct::CloseBracket)?;
        return Ok((GlobalVariable::Array(name, length), rest));
    }
    Ok((GlobalVariable::Variable(name, Initializer::Absent), tokens))
}

/// Reads global variables, after the name of the first.
fn variables<'a>(
    alloc: Global,
    first: Name,
    tokens: &'a [Token],
) -> Result<(Vec<GlobalVariable>, &'a [Token]), Stop<'a>>
    ensures tree { IfOk result (λ x. SpellsVariables first x.0.items tokens.now x.1.now) }
    ensures shorter { IfOk result (λ x. length x.1.now ≤ length tokens.now) }
    ensures reads { IfOk result (λ x. (stack : List Symbol) →
        run tokens.now (Initial ∷ Variables ∷ stack) 0 ≡ run x.1.now (Variables ∷ stack) 0) }
    ensures ends { IfOk result (λ x. NotFirst kinds.Comma x.1.now) }
    ensures stops { IfErr result (λ e. (stack : List Symbol) →
        IsStop e (run tokens.now (Initial ∷ Variables ∷ stack) 0)) }
{
    let mut list = Vec::new(alloc);
    let (variable, mut rest) = global(first, tokens)?;
    list.push(variable)?;
    'each: while let Some(after) = behind(rest, Punct::Comma) {
        let (next, after) = name(after)?;
        let (variable, after) = global(next, after)?;
        list.push(variable)?;
        rest = after;
    }
    Ok((list, rest))
}

/// Reads global variables and the semicolon, after the name of the first.
#[tactic(auto, unfolding(cilk_syntax::specs::Grammar::SpellsLine))]
fn line<'a>(
    alloc: Global,
    first: Name,
    tokens: &'a [Token],
) -> Result<(Vec<GlobalVariable>, &'a [Token]), Stop<'a>>
    ensures tree { IfOk result (λ x. SpellsLine first x.0.items tokens.now x.1.now) }
    ensures shorter { IfOk result (λ x. length x.1.now ≤ length tokens.now) }
    ensures reads { IfOk result (λ x. (stack : List Symbol) →
        run tokens.now (Initial ∷ Variables ∷ stack) 0 ≡ run x.1.now stack 0) }
    ensures stops { IfErr result (λ e. (stack : List Symbol) →
        IsStop e (run tokens.now (Initial ∷ Variables ∷ stack) 0)) }
{
    let (list, rest) = variables(alloc, first, tokens)?;
    match rest {
        [
            Token {
                kind: Kind::Semicolon,
                ..
            },
            after @ ..,
        ] => Ok((list, after)),
        _ => Err(Stop::Unexpected(rest)),
    }
}

/// Reads the body of a function, and returns it with the place of the brace that closes it.
#[tactic(auto, unfolding(cilk_syntax::specs::Grammar::SpellsBody))]
fn body<'a>(alloc: Global, tokens: &'a [Token]) -> Result<(Vec<Stmt>, usize, &'a [Token]), Stop<'a>>
    ensures tree { IfOk result (λ x. SpellsBody (trees.statements x.0.items) tokens.now x.2.now) }
    ensures shorter { IfOk result (λ x. length x.2.now < length tokens.now) }
    ensures reads { IfOk result (λ x. (stack : List Symbol) →
        run tokens.now (One Punct.OpenBrace ∷ Statements 0 ∷ One Punct.CloseBrace ∷ stack) 0 ≡ run x.2.now stack 0) }
    ensures stops { IfErr result (λ e. (stack : List Symbol) →
        IsStop e (run tokens.now (One Punct.OpenBrace ∷ Statements 0 ∷ One Punct.CloseBrace ∷ stack) 0)) }
{
    let rest = one(tokens, Punct::OpenBrace)?;
    let (list, last) = statements(alloc, rest, 0)?;
    let rest = one(last, Punct::CloseBrace)?;
    Ok((list, last[0].at, rest))
}

/// Reads the parameters and the body of a function, after the opening parenthesis. Returns them with
/// the place of the brace that closes the body.
#[tactic(auto, unfolding(cilk_syntax::specs::Grammar::SpellsFunction))]
fn function<'a>(
    alloc: Global,
    tokens: &'a [Token],
) -> Result<(Vec<Parameter>, Vec<Stmt>, usize, &'a [Token]), Stop<'a>>
    ensures tree { IfOk result (λ x. SpellsFunction x.0.items (trees.statements x.1.items) tokens.now x.3.now) }
    ensures shorter { IfOk result (λ x. length x.3.now < length tokens.now) }
    ensures reads { IfOk result (λ x. (stack : List Symbol) →
        run tokens.now (expected.Parameters ∷ One Punct.OpenBrace ∷ Statements 0 ∷ One Punct.CloseBrace ∷ stack) 0 ≡ run x.3.now stack 0) }
    ensures stops { IfErr result (λ e. (stack : List Symbol) →
        IsStop e (run tokens.now (expected.Parameters ∷ One Punct.OpenBrace ∷ Statements 0 ∷ One Punct.CloseBrace ∷ stack) 0)) }
{
    let (list, rest) = parameters(alloc, tokens)?;
    let (body, end, rest) = body(alloc, rest)?;
    Ok((list, body, end, rest))
}

/// Reads the rest of an item that begins with `int` and a name.
#[tactic(auto, using(cilk_syntax::proofs::Runs::declares_variables))]
fn declared<'a>(
    alloc: Global,
    first: Name,
    tokens: &'a [Token],
) -> Result<(Item, &'a [Token]), Stop<'a>>
    ensures tree { IfOk result (λ x. SpellsItemRest types.Int first (trees.item x.0) tokens.now x.1.now) }
    ensures shorter { IfOk result (λ x. length x.1.now ≤ length tokens.now) }
    ensures reads { IfOk result (λ x. (stack : List Symbol) →
        run tokens.now (Declared ∷ stack) 0 ≡ run x.1.now stack 0) }
    ensures stops { IfErr result (λ e. (stack : List Symbol) →
        IsStop e (run tokens.now (Declared ∷ stack) 0)) }
{
    if let Some(after) = behind(tokens, Punct::Open) {
        let (list, body, end, rest) = function(alloc, after)?;
        return Ok((
            Item::Function(ReturnType::Int, first, list, body, end),
            rest,
        ));
    }
    let (list, rest) = line(alloc, first, tokens)?;
    Ok((Item::Globals(list), rest))
}

/// Reads the rest of an item that begins with `int`.
#[tactic(auto, using(cilk_syntax::proofs::Runs::declares_name))]
fn declaration<'a>(alloc: Global, tokens: &'a [Token]) -> Result<(Item, &'a [Token]), Stop<'a>>
    ensures tree { IfOk result (λ x. SpellsTyped types.Int (trees.item x.0) tokens.now x.1.now) }
    ensures shorter { IfOk result (λ x. length x.1.now < length tokens.now) }
    ensures reads { IfOk result (λ x. (stack : List Symbol) →
        run tokens.now (expected.Item ∷ stack) 0 ≡ run x.1.now stack 0) }
    ensures stops { IfErr result (λ e. (stack : List Symbol) →
        IsStop e (run tokens.now (expected.Item ∷ stack) 0)) }
{
    if let Some(after) = after_reducer(tokens) {
        let (declared, rest) = reducer(after)?;
        let rest = one(rest, Punct::Semicolon)?;
        return Ok((Item::Reducer(declared), rest));
    }
    let (first, rest) = name(tokens)?;
    declared(alloc, first, rest)
}

/// Reads a function that returns nothing, after its `void`.
fn procedure<'a>(alloc: Global, tokens: &'a [Token]) -> Result<(Item, &'a [Token]), Stop<'a>>
    ensures tree { IfOk result (λ x. SpellsTyped types.Void (trees.item x.0) tokens.now x.1.now) }
    ensures shorter { IfOk result (λ x. length x.1.now < length tokens.now) }
    ensures reads { IfOk result (λ x. (stack : List Symbol) →
        run tokens.now (behind_type types.Void stack) 0 ≡ run x.1.now stack 0) }
    ensures stops { IfErr result (λ e. (stack : List Symbol) →
        IsStop e (run tokens.now (behind_type types.Void stack) 0)) }
{
    let (name, rest) = name(tokens)?;
    let rest = one(rest, Punct::Open)?;
    let (list, body, end, rest) = function(alloc, rest)?;
    Ok((
        Item::Function(ReturnType::Void, name, list, body, end),
        rest,
    ))
}

/// Reads the type that an item begins with.
fn first_type<'a>(tokens: &'a [Token]) -> Option<(ReturnType, &'a [Token])>
    ensures found { IfSome result (λ x. Is (type_of x.0) tokens.now x.1.now) }
    ensures shorter { IfSome result (λ x. length x.1.now < length tokens.now) }
    ensures none { IfNone result (NotFirst kinds.Int tokens.now × NotFirst kinds.Void tokens.now) }
{
    match tokens {
        [
            Token {
                kind: Kind::Int,
                ..
            },
            rest @ ..,
        ] => Some((ReturnType::Int, rest)),
        [
            Token {
                kind: Kind::Void,
                ..
            },
            rest @ ..,
        ] => Some((ReturnType::Void, rest)),
        _ => None,
    }
}

/// Reads an item, after its type.
fn item<'a>(
    alloc: Global,
    returns: ReturnType,
    tokens: &'a [Token],
) -> Result<(Item, &'a [Token]), Stop<'a>>
    ensures tree { IfOk result (λ x. SpellsTyped returns (trees.item x.0) tokens.now x.1.now) }
    ensures shorter { IfOk result (λ x. length x.1.now < length tokens.now) }
    ensures reads { IfOk result (λ x. (stack : List Symbol) →
        run tokens.now (behind_type returns stack) 0 ≡ run x.1.now stack 0) }
    ensures stops { IfErr result (λ e. (stack : List Symbol) →
        IsStop e (run tokens.now (behind_type returns stack) 0)) }
{
    match returns {
        ReturnType::Int => declaration(alloc, tokens),
        ReturnType::Void => procedure(alloc, tokens),
    }
}

/// Reads items up to a token that begins none.
#[tactic(auto, using(cilk_syntax::proofs::Runs::items_end))]
fn items<'a>(alloc: Global, tokens: &'a [Token]) -> Result<(Vec<Item>, &'a [Token]), Stop<'a>>
    ensures tree { IfOk result (λ x. SpellsItems (trees.items_of x.0.items) tokens.now x.1.now) }
    ensures reads { IfOk result (λ x. run tokens.now (Items ∷ []) 0 ≡ run x.1.now [] 0) }
    ensures stops { IfErr result (λ e. IsStop e (run tokens.now (Items ∷ []) 0)) }
{
    let mut list = Vec::new(alloc);
    let mut rest = tokens;
    'each: while let Some((returns, after)) = first_type(rest) {
        let (next, after) = item(alloc, returns, after)?;
        list.push(next)?;
        rest = after;
    }
    Ok((list, rest))
}

/// Reads the items of a program, which are all of its tokens.
pub fn program<'a>(alloc: Global, tokens: &'a [Token]) -> Result<Vec<Item>, Stop<'a>>
    ensures tree { IfOk result (λ v. SpellsProgram (trees.items_of v.items) tokens.now) }
    ensures whole { IfOk result (λ v. run tokens.now (Items ∷ []) 0 ≡ Whole) }
    ensures stops { IfErr result (λ e. IsStop e (run tokens.now (Items ∷ []) 0)) }
{
    let (list, rest) = items(alloc, tokens)?;
    match rest {
        [] => Ok(list),
        _ => Err(Stop::Unexpected(rest)),
    }
}

//! Readers of single tokens. Each returns the tokens that follow.

ghost use Rattle.std.specs.Prelude.{◌≡◌, ℕ, pos, ◌<◌, List, ◌∷◌, IfOk, IfErr, IfSome, IfNone, length};
ghost use Rattle.cilk_syntax.specs.Expected.{Symbol, One, Named, Numeral, Single, run, kind_of, fits};
ghost use Rattle.cilk_syntax.specs.Grammar.{Is, IsName};
ghost use Rattle.cilk_syntax.specs.Stops.{IsStop, NotFirst};
ghost use Rattle.cilk_syntax.specs.declared.token.Kind.TheVariants as kinds;

use crate::stop::Stop;
use crate::token::{Kind, Token};
use crate::tree::Name;

/// A mark or a reserved word that the grammar requires at a fixed place.
#[derive(Clone, Copy)]
pub enum Punct {
    Open,
    Close,
    OpenBrace,
    CloseBrace,
    CloseBracket,
    Semicolon,
    Comma,
    Assign,
    Less,
    Int,
}

/// Tells whether a token of this kind is the mark.
fn fits(mark: Punct, kind: Kind) -> bool
    ensures { result ≡ fits mark kind }
{
    matches!(
        (mark, kind),
        (Punct::Open, Kind::Open)
            | (Punct::Close, Kind::Close)
            | (Punct::OpenBrace, Kind::OpenBrace)
            | (Punct::CloseBrace, Kind::CloseBrace)
            | (Punct::CloseBracket, Kind::CloseBracket)
            | (Punct::Semicolon, Kind::Semicolon)
            | (Punct::Comma, Kind::Comma)
            | (Punct::Assign, Kind::Assign)
            | (Punct::Less, Kind::Less)
            | (Punct::Int, Kind::Int)
    )
}

/// Reads this mark.
#[tactic(auto, using(crate::proofs::MarkLaws::is_mark))]
pub fn one<'a>(tokens: &'a [Token], mark: Punct) -> Result<&'a [Token], Stop<'a>>
    ensures token { IfOk result (λ rest. Is (kind_of mark) tokens.now rest.now) }
    ensures shorter { IfOk result (λ rest. length rest.now < length tokens.now) }
    ensures reads { IfOk result (λ rest. (stack : List Symbol) (n : ℕ) →
        run tokens.now (One mark ∷ stack) n ≡ run rest.now stack n) }
    ensures stops { IfErr result (λ e. (stack : List Symbol) (n : ℕ) →
        IsStop e (run tokens.now (One mark ∷ stack) n)) }
{
    let [first, rest @ ..] = tokens else {
        return Err(Stop::Unexpected(tokens));
    };
    if fits(mark, first.kind) {
        Ok(rest)
    } else {
        Err(Stop::Unexpected(tokens))
    }
}

/// Reads this mark after a value, and passes the value on.
pub fn then_one<'a, T: Drop>(
    value: T,
    tokens: &'a [Token],
    mark: Punct,
) -> Result<(T, &'a [Token]), Stop<'a>>
    ensures value { IfOk result (λ x. x.0 ≡ value) }
    ensures token { IfOk result (λ x. Is (kind_of mark) tokens.now x.1.now) }
    ensures shorter { IfOk result (λ x. length x.1.now < length tokens.now) }
    ensures reads { IfOk result (λ x. (stack : List Symbol) (n : ℕ) →
        run tokens.now (One mark ∷ stack) n ≡ run x.1.now stack n) }
    ensures stops { IfErr result (λ e. (stack : List Symbol) (n : ℕ) →
        IsStop e (run tokens.now (One mark ∷ stack) n)) }
{
    let rest = one(tokens, mark)?;
    Ok((value, rest))
}

/// Reads this mark if it is the first token.
#[tactic(auto, using(crate::proofs::MarkLaws::is_mark, crate::proofs::MarkLaws::not_mark))]
pub fn behind<'a>(tokens: &'a [Token], mark: Punct) -> Option<&'a [Token]>
    ensures found { IfSome result (λ rest. Is (kind_of mark) tokens.now rest.now) }
    ensures shorter { IfSome result (λ rest. length rest.now < length tokens.now) }
    ensures none { IfNone result (NotFirst (kind_of mark) tokens.now) }
{
    match tokens {
        [first, rest @ ..] if fits(mark, first.kind) => Some(rest),
        _ => None,
    }
}

/// Reads a name.
pub fn name<'a>(tokens: &'a [Token]) -> Result<(Name, &'a [Token]), Stop<'a>>
    ensures token { IfOk result (λ x. IsName x.0 tokens.now x.1.now) }
    ensures shorter { IfOk result (λ x. length x.1.now < length tokens.now) }
    ensures reads { IfOk result (λ x. (stack : List Symbol) (n : ℕ) →
        run tokens.now (Named ∷ stack) n ≡ run x.1.now stack n) }
    ensures stops { IfErr result (λ e. (stack : List Symbol) (n : ℕ) →
        IsStop e (run tokens.now (Named ∷ stack) n)) }
{
    match tokens {
        [
            Token {
                kind: Kind::Name,
                at,
                end,
            },
            rest @ ..,
        ] => Ok((Name { at: *at, end: *end }, rest)),
        _ => Err(Stop::Unexpected(tokens)),
    }
}

/// Reads a number.
pub fn numeral<'a>(tokens: &'a [Token]) -> Result<(i64, &'a [Token]), Stop<'a>>
    ensures token { IfOk result (λ x. Is (kinds.Number x.0) tokens.now x.1.now) }
    ensures shorter { IfOk result (λ x. length x.1.now < length tokens.now) }
    ensures reads { IfOk result (λ x. (stack : List Symbol) (n : ℕ) →
        run tokens.now (Numeral ∷ stack) n ≡ run x.1.now stack n) }
    ensures stops { IfErr result (λ e. (stack : List Symbol) (n : ℕ) →
        IsStop e (run tokens.now (Numeral ∷ stack) n)) }
{
    match tokens {
        [
            Token {
                kind: Kind::Number(value),
                ..
            },
            rest @ ..,
        ] => Ok((*value, rest)),
        _ => Err(Stop::Unexpected(tokens)),
    }
}

/// Reads the number 1.
pub fn single<'a>(tokens: &'a [Token]) -> Result<&'a [Token], Stop<'a>>
    ensures token { IfOk result (λ rest. Is (kinds.Number (pos 1)) tokens.now rest.now) }
    ensures shorter { IfOk result (λ rest. length rest.now < length tokens.now) }
    ensures reads { IfOk result (λ rest. (stack : List Symbol) (n : ℕ) →
        run tokens.now (Single ∷ stack) n ≡ run rest.now stack n) }
    ensures stops { IfErr result (λ e. (stack : List Symbol) (n : ℕ) →
        IsStop e (run tokens.now (Single ∷ stack) n)) }
{
    match tokens {
        [
            Token {
                kind: Kind::Number(1),
                ..
            },
            rest @ ..,
        ] => Ok(rest),
        _ => Err(Stop::Unexpected(tokens)),
    }
}

//! Predicates on the next tokens.

ghost use Rattle.std.specs.Prelude.{◌≡◌};
ghost use Rattle.cilk_syntax.specs.Expected;
ghost use Rattle.cilk_syntax.specs.Expected.{first_begins};

use crate::token::{Kind, Token};

/// Tells whether a part of an expression can begin with this token.
pub fn begins_part(kind: Kind) -> bool
    ensures { result ≡ Expected.begins_part kind }
{
    matches!(
        kind,
        Kind::Number(_)
            | Kind::Name
            | Kind::Minus
            | Kind::Not
            | Kind::Open
            | Kind::Value
            | Kind::Input
            | Kind::InputCount
    )
}

/// Tells whether the tokens begin with a name and an opening parenthesis.
pub fn begins_call(tokens: &[Token]) -> bool
    ensures { result ≡ Expected.begins_call tokens.now }
{
    let [first, second, ..] = tokens else {
        return false;
    };
    matches!((first.kind, second.kind), (Kind::Name, Kind::Open))
}

/// Tells whether a statement can begin with the first token.
pub fn may_begin(tokens: &[Token]) -> bool
    ensures { result ≡ first_begins tokens.now }
{
    match tokens {
        [] => false,
        [first, ..] => begins_statement(first.kind),
    }
}

/// Tells whether a statement can begin with this token.
pub fn begins_statement(kind: Kind) -> bool
    ensures { result ≡ Expected.begins_statement kind }
{
    matches!(
        kind,
        Kind::OpenBrace
            | Kind::Semicolon
            | Kind::Int
            | Kind::Name
            | Kind::Increment
            | Kind::Decrement
            | Kind::CilkSpawn
            | Kind::CilkSync
            | Kind::If
            | Kind::While
            | Kind::For
            | Kind::CilkFor
            | Kind::Return
            | Kind::Print
            | Kind::Update
            | Kind::Set
    )
}

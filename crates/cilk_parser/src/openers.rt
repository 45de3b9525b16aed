//! Readers of the marks and words that decide what follows them.

ghost use Rattle.std.specs.Prelude.{◌<◌, IfSome, IfNone, length};
ghost use Rattle.cilk_syntax.specs.Grammar.{Is};
ghost use Rattle.cilk_syntax.specs.Stops.{NotFirst};
ghost use Rattle.cilk_syntax.specs.declared.token.Kind.TheVariants as kinds;

use cilk_syntax::token::{Kind, Token};

/// Reads an opening bracket if it is the first token.
pub fn after_bracket<'a>(tokens: &'a [Token]) -> Option<&'a [Token]>
    ensures found { IfSome result (λ rest. Is kinds.OpenBracket tokens.now rest.now) }
    ensures shorter { IfSome result (λ rest. length rest.now < length tokens.now) }
    ensures none { IfNone result (NotFirst kinds.OpenBracket tokens.now) }
{
    match tokens {
        [
            Token {
                kind: Kind::OpenBracket,
                ..
            },
            rest @ ..,
        ] => Some(rest),
        _ => None,
    }
}

/// Reads a `cilk_reducer` if it is the first token.
pub fn after_reducer<'a>(tokens: &'a [Token]) -> Option<&'a [Token]>
    ensures found { IfSome result (λ rest. Is kinds.CilkReducer tokens.now rest.now) }
    ensures shorter { IfSome result (λ rest. length rest.now < length tokens.now) }
    ensures none { IfNone result (NotFirst kinds.CilkReducer tokens.now) }
{
    match tokens {
        [
            Token {
                kind: Kind::CilkReducer,
                ..
            },
            rest @ ..,
        ] => Some(rest),
        _ => None,
    }
}

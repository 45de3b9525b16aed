//! From the bytes of a text to its tree.

ghost use Rattle.std.specs.Prelude.{IfErr, IfOk, length, ◌≡◌};
ghost use Rattle.cilk_parser.specs.Texts;
ghost use Rattle.cilk_parser.specs.Texts.{IsText, IsTextFault, place_of};

use crate::fault::{SyntaxErrorKind, TextFault};
use crate::items::program;
use cilk_syntax::lexer::{LexErrorKind, LexFault, lex};
use cilk_syntax::stop::Stop;
use cilk_syntax::token::Token;
use cilk_syntax::tree::Tree;
use cilk_types::limits::MAX_TEXT;
use std::alloc::Global;

fn number_of(bad: LexErrorKind) -> SyntaxErrorKind
    ensures { result ≡ Texts.number_of bad }
{
    match bad {
        LexErrorKind::NotAscii => SyntaxErrorKind::NotAscii,
        LexErrorKind::TooLarge => SyntaxErrorKind::TooLarge,
        _ => SyntaxErrorKind::BadToken,
    }
}

/// Returns the byte at which the first of the tokens begins, or the text ends.
fn place_of(text: &[u8], rest: &[Token]) -> usize
    ensures { result ≡ place_of (length text.now) rest.now }
{
    match rest {
        [] => text.len(),
        [first, ..] => first.at,
    }
}

/// Reads a program text, and returns its tree or its first fault. Linear in the text's length.
///
/// A text of more than [`MAX_TEXT`] bytes is refused first. Next come bytes that aren't tokens, the
/// first place first. Last come the tokens: the first token that no program of the grammar has
/// there, or that is past a limit. A token is past a limit if it begins a statement or a part of an
/// expression that is nested in more than 64 others, or if it is an operator after the first 256 of
/// its expression.
pub fn parse(alloc: Global, text: &[u8]) -> Result<Tree, TextFault>
    ensures tree { IfOk result (λ t. IsText text.now t) }
    ensures fault { IfErr result (λ e. IsTextFault e text.now) }
{
    if text.len() > MAX_TEXT {
        return Err(TextFault::At(SyntaxErrorKind::TooLong, MAX_TEXT));
    }
    let tokens = match lex(alloc, text) {
        Ok(tokens) => tokens,
        Err(LexFault::Memory) => {
            return Err(TextFault::Memory);
        }
        Err(LexFault::At(bad, place)) => {
            return Err(TextFault::At(number_of(bad), place));
        }
    };
    match program(alloc, &tokens) {
        Ok(items) => match text.to_vec(alloc) {
            Ok(text) => Ok(Tree { text, items }),
            Err(_) => Err(TextFault::Memory),
        },
        Err(Stop::Memory) => Err(TextFault::Memory),
        Err(Stop::Unexpected(rest)) => {
            Err(TextFault::At(SyntaxErrorKind::Unexpected, place_of(text, rest)))
        }
        Err(Stop::PastLimit(rest)) => {
            Err(TextFault::At(SyntaxErrorKind::TooDeep, place_of(text, rest)))
        }
    }
}

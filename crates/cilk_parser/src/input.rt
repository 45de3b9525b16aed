//! Input texts: numbers between spaces, tabs and line ends.

ghost use Rattle.std.specs.Prelude.{◌≡◌, ◌∷◌, IfOk, IfErr, IfSome, IfNone, length};
ghost use Rattle.cilk_parser.specs.Inputs;
ghost use Rattle.cilk_parser.specs.Inputs.{IsInput, IsInputFault, number_in};
ghost use Rattle.cilk_parser.specs.Fronts.{IsFront};

use crate::fault::{SyntaxErrorKind, TextFault};
use cilk_syntax::lexer::{Class, all_digits, belongs, split, value_of};
use cilk_types::input::Input;
use cilk_types::limits::MAX_INPUTS;
use cilk_types::word_list::WordList;
use std::alloc::Global;

/// Returns the number with these digits, if it is at most 2^63 - 1.
fn positive(digits: &[u8]) -> Option<i64>
    ensures { result ≡ Inputs.positive digits.now }
{
    if digits.is_empty() || !all_digits(digits) {
        return None;
    }
    match value_of(digits) {
        Some(n) if n <= 9_223_372_036_854_775_807 => Some(n as i64),
        _ => None,
    }
}

/// Returns the negative of the number with these digits, if it is at least -2^63.
fn negative(digits: &[u8]) -> Option<i64>
    ensures { result ≡ Inputs.negative digits.now }
{
    if digits.is_empty() || !all_digits(digits) {
        return None;
    }
    match value_of(digits) {
        Some(n) if n <= 9_223_372_036_854_775_807 => Some(-(n as i64)),
        Some(_) => Some(i64::MIN),
        None => None,
    }
}

/// Returns the number that a word spells.
fn number_in(word: &[u8]) -> Option<i64>
    ensures { result ≡ number_in word.now }
{
    match word {
        [] => None,
        [b'-', digits @ ..] => negative(digits),
        [b'+', digits @ ..] => positive(digits),
        _ => positive(word),
    }
}

/// The first piece of an input text; the slice is the rest.
#[derive(Drop)]
enum Front<'a> {
    Gap(&'a [u8]),
    Number(i64, &'a [u8]),
    BadWord,
}

/// Reads the first piece: a byte between words, a number, or a word that is no number.
#[tactic(auto, using(crate::proofs::InputLaws::word_behind))]
fn piece<'a>(first: u8, tail: &'a [u8], bytes: &'a [u8]) -> Front<'a>
    requires { bytes.now ≡ first ∷ tail.now }
    ensures { IsFront bytes.now result }
{
    if !belongs(Class::Solid, first) {
        return Front::Gap(tail);
    }
    let (word, after) = split(Class::Solid, bytes);
    match number_in(word) {
        Some(number) => Front::Number(number, after),
        None => Front::BadWord,
    }
}

/// Reads the numbers of an input text, or returns its first fault: a word that is no number, or the
/// word of number 65,537. Linear in the text's length.
pub fn parse_input(alloc: Global, text: &[u8]) -> Result<Input, TextFault>
    ensures numbers { IfOk result (λ ns. IsInput text.now ns) }
    ensures fault { IfErr result (λ e. IsInputFault e text.now) }
{
    let mut numbers = WordList::new(alloc);
    let mut rest = text;
    'each: while let [first, tail @ ..] = rest {
        let place = text.len() - rest.len();
        match piece(*first, tail, rest) {
            Front::Gap(after) => {
                rest = after;
            }
            Front::Number(number, after) => {
                if numbers.len() == MAX_INPUTS {
                    return Err(TextFault::At(SyntaxErrorKind::TooManyNumbers, place));
                }
                numbers.push(number)?;
                rest = after;
            }
            Front::BadWord => {
                return Err(TextFault::At(SyntaxErrorKind::BadNumber, place));
            }
        }
    }
    Ok(Input::new(numbers))
}

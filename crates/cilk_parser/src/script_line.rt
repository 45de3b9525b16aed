//! Parsing of one line of a script.

ghost use Rattle.std.specs.Prelude.{◌≡◌};
ghost use Rattle.cilk_parser.specs.Scripts.{behind_word, number, order_in, run_order, steal_order, trimmed, word, words_order};

use crate::script::{LineOrder, MAX_NUMBER};
use cilk_syntax::lexer::{Class, all_digits, split, value_of};

/// Parses a line into its order, or returns `None` if it has no valid form.
pub fn order(line: &[u8]) -> Option<LineOrder>
    ensures { result ≡ order_in line.now }
{
    let (verb, rest) = next_word(line);
    let (first, rest) = next_word(rest);
    let (second, rest) = next_word(rest);
    if !trimmed(rest).is_empty() {
        return None;
    }
    words_order(verb, first, second)
}

// The order of up to three words. A missing word is empty.
fn words_order(verb: &[u8], first: &[u8], second: &[u8]) -> Option<LineOrder>
    ensures { result ≡ words_order verb.now first.now second.now }
{
    if verb == b"all".as_slice() {
        return if first.is_empty() {
            Some(LineOrder::All)
        } else {
            None
        };
    }
    if verb == b"run".as_slice() {
        let count = if second.is_empty() {
            Some(1)
        } else {
            number(second)
        };
        return run_order(number(first), count);
    }
    if verb == b"steal".as_slice() {
        return steal_order(number(first), number(second));
    }
    None
}

// `run W N`, where neither is 0.
fn run_order(worker: Option<u32>, count: Option<u32>) -> Option<LineOrder>
    ensures { result ≡ run_order worker count }
{
    let worker = worker?;
    let count = count?;
    if worker == 0 || count == 0 {
        return None;
    }
    Some(LineOrder::Run { worker, count })
}

// `steal W K`, where W isn't 0.
fn steal_order(worker: Option<u32>, place: Option<u32>) -> Option<LineOrder>
    ensures { result ≡ steal_order worker place }
{
    let worker = worker?;
    let place = place?;
    if worker == 0 {
        return None;
    }
    Some(LineOrder::Steal { worker, place })
}

// Splits off the next word, which is empty at the end of the line.
fn next_word(line: &[u8]) -> (&[u8], &[u8])
    ensures word { result.0.now ≡ word line.now }
    ensures rest { result.1.now ≡ behind_word line.now }
{
    split(Class::Solid, trimmed(line))
}

// Skips leading spaces.
fn trimmed(line: &[u8]) -> &[u8]
    ensures { result.now ≡ trimmed line.now }
{
    let mut rest = line;
    'each: while let [first, tail @ ..] = rest {
        if *first != b' ' {
            return rest;
        }
        rest = tail;
    }
    rest
}

// The number of these digits, if it is at most `MAX_NUMBER`.
fn number(digits: &[u8]) -> Option<u32>
    ensures { result ≡ number digits.now }
{
    if digits.is_empty() || !all_digits(digits) {
        return None;
    }
    match value_of(digits) {
        Some(value) if value <= MAX_NUMBER => Some(value as u32),
        _ => None,
    }
}

//! The words of command lines: of all commands, and of `measure` and `schedule`.

ghost use Rattle.std.specs.Prelude.{◌≡◌, IfOk, Some, option_map};
ghost use Rattle.cilk_messages.specs.Asked.{asks, behind_first, is_form, is_help, is_measure, is_option, is_schedule, number_of, run_of, unformed, words_of_check, words_of_run};
ghost use Rattle.cilk_messages.specs.Words.{order_view, origin_view, texts};

use crate::flags::unmarked;
use crate::words::{Order, Origin};
use cilk_syntax::lexer::{all_digits, value_of};
use std::alloc::{AllocError, Global};

/// Returns whether a word is among the words.
pub fn asks(words: &[&str], wanted: &str) -> bool
    ensures { result ≡ asks wanted.now (texts words.now) }
{
    let mut rest = words;
    'each: while let [first, behind @ ..] = rest {
        if *first == wanted {
            return true;
        }
        rest = behind;
    }
    false
}

/// Returns whether a word begins with `-`.
pub fn is_option(word: &str) -> bool
    ensures { result ≡ is_option word.now }
{
    match word.as_bytes() {
        [first, ..] => *first == b'-',
        [] => false,
    }
}

/// Returns the number that bytes spell, if they are digits, and it is at most 2^63.
pub fn number_of(digits: &[u8]) -> Option<u64>
    ensures { result ≡ number_of digits.now }
{
    if all_digits(digits) {
        value_of(digits)
    } else {
        None
    }
}

/// Returns whether there is one word only, which requests help.
pub fn is_help(words: &[&str]) -> bool
    ensures { result ≡ is_help (texts words.now) }
{
    match words {
        [word] => *word == "--help" || *word == "-h",
        _ => false,
    }
}

/// Returns whether the first word is `measure` and more follows than one request for help.
pub fn is_measure(words: &[&str]) -> bool
    ensures { result ≡ is_measure (texts words.now) }
{
    match words {
        [first, behind @ ..] => *first == "measure" && !is_help(behind),
        [] => false,
    }
}

/// Returns whether a word selects the output of `measure`, or is `--explain`.
fn is_form(word: &str) -> bool
    ensures { result ≡ is_form word.now }
{
    word == "--csv" || word == "--svg" || word == "--dot" || word == "--explain"
}

// The command line without those words.
fn unformed<'a>(alloc: Global, words: &[&'a str]) -> Result<Vec<&'a str>, AllocError>
    ensures { IfOk result (λ plain. texts plain.items ≡ unformed (texts words.now)) }
{
    let mut plain = Vec::new(alloc);
    let mut rest = words;
    'each: while let [word, behind @ ..] = rest {
        if !is_form(word) {
            plain.push(*word)?;
        }
        rest = behind;
    }
    Ok(plain)
}

/// Returns all words but the first.
pub fn behind_first<'a, 'b>(words: &'b [&'a str]) -> &'b [&'a str]
    ensures { texts result.now ≡ behind_first (texts words.entry.now) }
{
    match words {
        [_, behind @ ..] => behind,
        [] => words,
    }
}

/// Returns the command line with `run` in place of `measure`, without the words of `measure` alone.
pub fn run_words<'a>(alloc: Global, words: &[&'a str]) -> Result<Vec<&'a str>, AllocError>
    ensures { IfOk result (λ plain. texts plain.items ≡ words_of_run (texts words.now)) }
{
    let mut plain = unformed(alloc, behind_first(words))?;
    plain.insert(0, "run")?;
    Ok(plain)
}

/// Returns the program and the input of an order to run.
pub fn run_of<'a>(order: Order<'a>) -> Option<(Origin<'a>, Option<&'a str>)>
    ensures { option_map (λ run. (origin_view run.0, option_map (λ p. p.now) run.1)) result ≡ run_of (Some (order_view order.entry)) }
{
    match order {
        Order::Run { program, input } => Some((program, input)),
        Order::Certify { .. }
        | Order::Check { .. }
        | Order::Play { .. }
        | Order::Settle { .. }
        | Order::Judge { .. } => None,
    }
}

/// Returns whether the first word is `schedule` and more follows than one request for help.
pub fn is_schedule(words: &[&str]) -> bool
    ensures { result ≡ is_schedule (texts words.now) }
{
    match words {
        [first, behind @ ..] => *first == "schedule" && !is_help(behind),
        [] => false,
    }
}

/// Returns the command line with `check` in place of `schedule`, without each `--explain`.
pub fn check_words<'a>(alloc: Global, words: &[&'a str]) -> Result<Vec<&'a str>, AllocError>
    ensures { IfOk result (λ plain. texts plain.items ≡ words_of_check (texts words.now)) }
{
    let mut plain = unmarked(alloc, "schedule", behind_first(words))?;
    plain.insert(0, "check")?;
    Ok(plain)
}

//! Answers about the tool itself: its help, the meaning of a number, and the version.

ghost use Rattle.std.specs.Prelude.{◌≡◌, List, [], ◌∷◌, IfOk, cond, count_by, false, true};
ghost use Rattle.cilk_messages.specs.Asked.{Text};
ghost use Rattle.cilk_messages.specs.About.{IsAnswer, IsAskedFor, IsLongerWrong, IsPageText, IsText, IsWrong, asks_help, asks_help_on, asks_list, asks_meaning, asks_unknown, asks_version, has_meaning, is_about, is_command, is_explained, is_help, is_help_on, is_help_on_all, is_version, number_asked, requests, spells_meaning};
ghost use Rattle.cilk_messages.specs.Words.{texts};
ghost use Rattle.cilk_messages.specs.declared.numbers.TheConstants.{TITLES};
ghost use Rattle.cilk_syntax.specs.Lexing.{value_of};

use crate::asked::{asks, is_option, number_of};
use crate::help::{HELP, VERSION, help_on};
use crate::report::{of_all, of_number};
use std::alloc::{AllocError, Global};

/// The answer to a command line about the tool.
#[derive(Drop)]
pub enum About {
    /// The command line isn't about the tool.
    Other,
    /// A text for standard output.
    Text(String),
    /// A text for standard error: the requested help, or an error in the command line.
    Wrong(String),
}

/// Returns whether a word requests help.
fn is_help(word: &str) -> bool
    ensures { result ≡ is_help word.now }
{
    word == "--help" || word == "-h"
}

/// Returns whether a word is the name of a command.
pub fn is_command(word: &str) -> bool
    ensures { result ≡ is_command word.now }
{
    asks(COMMANDS, word)
}

const COMMANDS: &[&str] = &[
    "run", "certify", "check", "threads", "play", "measure", "schedule", "settle", "judge",
    "explain",
];

/// Returns whether a word alone requests the version.
fn is_version(word: &str) -> bool
    ensures { result ≡ is_version word.now }
{
    word == "--version" || word == "-V"
}

/// Returns whether a word alone requests the help on all commands.
fn is_help_on_all(word: &str) -> bool
    ensures { result ≡ is_help_on_all word.now }
{
    word == "help" || is_help(word)
}

/// Returns whether two words request the help on a command.
fn is_help_on(word: &str, other: &str) -> bool
    ensures { result ≡ is_help_on word.now other.now }
{
    (word == "help" && is_command(other)) || (is_command(word) && is_help(other))
}

/// Returns whether two words request the meaning of a number.
fn is_explained(word: &str, other: &str) -> bool
    ensures { result ≡ is_explained word.now other.now }
{
    word == "explain" && !is_option(other)
}

/// Words about the tool request exactly one of six things, and other words none of them: the version,
/// the help on all commands or on one, the list of all numbers, or the meaning of a number, or of what
/// has none.
pub fn requests_are_one()
    ensures { (words : List Text) → count_by (λ asked. asked) (requests words) ≡ cond (is_about words) 1 0 }
{}

/// Answers a command line about the tool: the version, the list of all numbers, the page of one, or the
/// error that lists the numbers; or the help, on all commands or on one.
pub fn answer_about(alloc: Global, words: &[&str]) -> Result<About, AllocError>
    ensures asked { IfOk result (λ answer. IsAskedFor (texts words.now) answer) }
    ensures version { asks_version (texts words.now) ≡ true → IfOk result (λ answer. IsText VERSION.now answer) }
    ensures help { asks_help (texts words.now) ≡ true → IfOk result (λ answer. IsWrong HELP.now answer) }
    ensures help_on { asks_help_on (texts words.now) ≡ true → IfOk result (λ answer. IsLongerWrong VERSION.now answer) }
    ensures list { asks_list (texts words.now) ≡ true → IfOk result (λ answer. IsText TITLES.now answer) }
    ensures meaning { asks_meaning (texts words.now) ≡ true → IfOk result (λ answer. IsPageText (number_asked (texts words.now)) VERSION.now answer) }
    ensures unknown { asks_unknown (texts words.now) ≡ true → IfOk result (λ answer. IsLongerWrong VERSION.now answer) }
{
    match words {
        [word] => answer_one(alloc, word),
        [word, other] => answer_two(alloc, word, other),
        _ => Ok(About::Other),
    }
}

/// Answers a word alone.
fn answer_one(alloc: Global, word: &str) -> Result<About, AllocError>
    ensures asked { IfOk result (λ answer. IsAskedFor (word.now ∷ []) answer) }
    ensures version { asks_version (word.now ∷ []) ≡ true → IfOk result (λ answer. IsText VERSION.now answer) }
    ensures help { asks_help (word.now ∷ []) ≡ true → IfOk result (λ answer. IsWrong HELP.now answer) }
    ensures list { asks_list (word.now ∷ []) ≡ true → IfOk result (λ answer. IsText TITLES.now answer) }
{
    if is_version(word) {
        Ok(About::Text(String::from_str(alloc, VERSION)?))
    } else if is_help_on_all(word) {
        Ok(About::Wrong(String::from_str(alloc, HELP)?))
    } else if word == "explain" {
        Ok(About::Text(of_all(alloc)?))
    } else {
        Ok(About::Other)
    }
}

/// Answers two words.
fn answer_two(alloc: Global, word: &str, other: &str) -> Result<About, AllocError>
    ensures asked { IfOk result (λ answer. IsAskedFor (word.now ∷ other.now ∷ []) answer) }
    ensures help_on { asks_help_on (word.now ∷ other.now ∷ []) ≡ true → IfOk result (λ answer. IsLongerWrong VERSION.now answer) }
    ensures meaning { asks_meaning (word.now ∷ other.now ∷ []) ≡ true → IfOk result (λ answer. IsPageText (number_asked (word.now ∷ other.now ∷ [])) VERSION.now answer) }
    ensures unknown { asks_unknown (word.now ∷ other.now ∷ []) ≡ true → IfOk result (λ answer. IsLongerWrong VERSION.now answer) }
{
    if is_explained(word, other) {
        explained(alloc, other)
    } else if is_help_on(word, other) {
        let command = if word == "help" { other } else { word };
        Ok(About::Wrong(help_on(alloc, command)?))
    } else {
        Ok(About::Other)
    }
}

/// Returns the page of the number that a word spells, or an error that lists the numbers.
fn explained(alloc: Global, word: &str) -> Result<About, AllocError>
    ensures answer { IfOk result (λ answer. IsAnswer answer) }
    ensures meaning { spells_meaning word.now ≡ true → IfOk result (λ answer. IsPageText (value_of word.now) VERSION.now answer) }
    ensures unknown { spells_meaning word.now ≡ false → IfOk result (λ answer. IsLongerWrong VERSION.now answer) }
{
    if let Some(text) = of_number(alloc, number_in(word))? {
        return Ok(About::Text(text));
    }
    let wrong = format!(in alloc;
        "error: nothing is refused by `{word}`: the numbers are 101 to 106, 111 to 119, 121, 122, 201 to 206, 301 to 312 and 502\n"
    )?;
    Ok(About::Wrong(wrong))
}

/// Returns the number that a word spells, or 0 if it spells none up to 65,535.
fn number_in(word: &str) -> u16
    ensures meaning { has_meaning result ≡ spells_meaning word.now }
    ensures number { spells_meaning word.now ≡ true → result ≡ value_of word.now }
{
    match number_of(word.as_bytes()) {
        Some(number) if number <= 65_535 => number as u16,
        _ => 0,
    }
}

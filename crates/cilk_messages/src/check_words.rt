//! The command line of `check` with `--helpers`.

ghost use Rattle.std.specs.Prelude.{◌≡◌, IfOk, IfErr, Some, option_map};
ghost use Rattle.clap.specs.Words.{found_of, rows_of, subcommand_rows_of};
ghost use Rattle.cilk_messages.specs.Words.{HasShape, order_view, texts};
ghost use Rattle.cilk_messages.specs.CheckWords.{IsWordsFault, check_by, check_in, check_view, checked_with, commands_app, helper_count, helpers_in, is_helped, is_helpers, name_helpers};

use crate::threads_words::two_paths;
use crate::words::{Order, WordsFault, check_command, empty, no_order, refusal, taking, with};
use cilk_syntax::lexer::{all_digits, value_of};
use cilk_types::limits::MAX_HELPERS;
use clap::{ArgMatches, Command};
use std::alloc::{AllocError, Global};

// The error of a command line that clap accepts but whose number of helpers isn't valid.
const NO_ORDER: &str = "error: the number of helpers is 1 to 16\n";

// The summary of the command for clap.
const CHECK: &str = "Check a certificate, and whether the run that it is of has a race";

/// An order to check a program's certificate by `helpers` helpers. Without `input` the input is
/// empty.
#[derive(Clone, Copy)]
pub struct CheckOrder<'a> {
    pub program: &'a str,
    pub certificate: &'a str,
    pub input: Option<&'a str>,
    pub helpers: u32,
}

impl<'a> CheckOrder<'a> {
    /// Returns the same order without helpers.
    pub fn alone(&self) -> Order<'a>
        ensures { let asked = check_view self.now in order_view result ≡ asked.check }
    {
        Order::Check {
            program: self.program,
            certificate: self.certificate,
            input: self.input,
        }
    }
}

/// Returns whether the first word is `check` and a later one is an option for helpers.
pub fn is_helped(words: &[&str]) -> bool
    ensures { result ≡ is_helped (texts words.now) }
{
    match words {
        [first, others @ ..] => *first == "check" && name_helpers(others),
        [] => false,
    }
}

// Returns whether one of the words is an option for helpers.
fn name_helpers(words: &[&str]) -> bool
    ensures { result ≡ name_helpers (texts words.now) }
{
    let mut rest = words;
    'each: while let [first, others @ ..] = rest {
        if is_helpers(first) {
            return true;
        }
        rest = others;
    }
    false
}

// Returns whether a word is the option for helpers, with or without its number.
fn is_helpers(word: &str) -> bool
    ensures { result ≡ is_helpers word.now }
{
    word == "--helpers" || word.starts_with("--helpers=")
}

// The command line as clap reads it: `check PROGRAM CERTIFICATE [--input FILE] [--helpers N]`.
fn command<'a>(alloc: Global) -> Result<Command<'a>, AllocError>
    ensures { IfOk result (λ c. HasShape c commands_app) }
{
    let helped = taking(alloc, check_command(alloc), "helpers");
    with(empty(alloc), helped, CHECK)
}

// Returns the number that digits spell, if it is 1 to 16.
fn helper_count(digits: &[u8]) -> Option<u32>
    ensures { result ≡ helper_count digits.now }
{
    if !all_digits(digits) {
        return None;
    }
    match value_of(digits) {
        Some(count) if count >= 1 && count <= MAX_HELPERS as u64 => Some(count as u32),
        _ => None,
    }
}

// Returns the number of helpers for the option's value; 1 without the option.
fn helpers_in(word: Option<&str>) -> Option<u32>
    ensures { result ≡ helpers_in (option_map (λ w. w.now) word.entry) }
{
    match word {
        Some(digits) => helper_count(digits.as_bytes()),
        None => Some(1),
    }
}

// Returns the order of the matches of `check`.
fn check_order<'a>(check: &ArgMatches<'a>) -> Option<CheckOrder<'a>>
    ensures { option_map check_view result ≡ checked_with (rows_of (found_of check.now)) }
{
    let (program, certificate) = two_paths(check)?;
    let word = check.get_str("helpers");
    let helpers = helpers_in(word)?;
    let input = check.get_str("input");
    Some(CheckOrder {
        program,
        certificate,
        input,
        helpers,
    })
}

// Returns the order of the matches.
fn order_of<'a>(matches: &ArgMatches<'a>) -> Option<CheckOrder<'a>>
    ensures { option_map check_view result ≡ check_by (subcommand_rows_of matches.now) }
{
    match matches.subcommand() {
        Some(("check", check)) => check_order(check),
        _ => None,
    }
}

/// Reads the words after the program's name.
pub fn read_check<'a>(alloc: Global, words: &'a [&'a str]) -> Result<CheckOrder<'a>, WordsFault>
    ensures order { IfOk result (λ o. check_in (texts words.now) ≡ Some (check_view o)) }
    ensures fault { IfErr result (λ e. IsWordsFault (texts words.now) e) }
{
    match command(alloc)?.try_get_matches_from(words) {
        Ok(matches) => match order_of(&matches) {
            Some(order) => Ok(order),
            None => Err(no_order(alloc, NO_ORDER)),
        },
        Err(error) => Err(refusal(alloc, &error)),
    }
}

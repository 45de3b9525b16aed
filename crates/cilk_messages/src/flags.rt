//! Words of a command line that add a text on standard error: `--explain`, `--trace` of `play`,
//! `--stats` of `threads`, and `--why LINE` of `settle`.

ghost use Rattle.std.specs.Prelude.{◌≡◌, IfOk, Some};
ghost use Rattle.cilk_messages.specs.Asked.{explains_itself, first_word, is_why, marks, unflagged, unmarked, without_why};
ghost use Rattle.cilk_messages.specs.Words.{order_view, texts};

use crate::asked::{asks, behind_first};
use crate::words::Order;
use cilk_syntax::lexer::{all_digits, value_of};
use std::alloc::{AllocError, Global};

/// The texts that a command line requests besides the reply.
#[derive(Clone, Copy)]
pub struct Extras {
    pub explains: bool,
    pub traces: bool,
    /// How many choices of a script are skipped.
    pub counts: bool,
    pub why: Option<usize>,
}

/// Returns the texts that a command line requests.
pub fn extras_of(words: &[&str]) -> Extras {
    let explains = asks(words, "--explain");
    let traces = asks(words, "--trace");
    Extras {
        explains,
        traces,
        counts: first_word(words) == "play" && (explains || traces),
        why: line_in(words),
    }
}

// The line after `--why`.
fn line_in(words: &[&str]) -> Option<usize> {
    let mut is_next = false;
    for word in words {
        if is_next {
            return if all_digits(word.as_bytes()) {
                Some(value_of(word.as_bytes()).unwrap_or(u64::MAX) as usize)
            } else {
                None
            };
        }
        is_next = *word == "--why";
    }
    None
}

/// Returns whether a word of a command adds a text: `--explain`, or a flag of this command alone.
fn marks(command: &str, word: &str) -> bool
    ensures { result ≡ marks command.now word.now }
{
    word == "--explain"
        || (command == "play" && word == "--trace")
        || (command == "threads" && word == "--stats")
}

/// Returns whether a word is `--why` of `settle`, followed by a number.
fn is_why(command: &str, word: &str, behind: &[&str]) -> bool
    ensures { result ≡ is_why command.now word.now (texts behind.now) }
{
    match behind {
        [number, ..] => command == "settle" && word == "--why" && all_digits(number.as_bytes()),
        [] => false,
    }
}

/// Returns the first word, or an empty one.
fn first_word<'a>(words: &[&'a str]) -> &'a str
    ensures { result.now ≡ first_word (texts words.now) }
{
    match words {
        [first, ..] => first,
        [] => "",
    }
}

/// Returns the command line without the words that add a text: each flag, and the first `--why`
/// with its number.
pub fn unflagged<'a>(alloc: Global, words: &[&'a str]) -> Result<Vec<&'a str>, AllocError>
    ensures { IfOk result (λ plain. texts plain.items ≡ unflagged (texts words.now)) }
{
    let command = first_word(words);
    let rest = without_why(alloc, command, words)?;
    unmarked(alloc, command, rest.as_slice())
}

// These words of a command, without the first `--why` and its number.
fn without_why<'a>(
    alloc: Global,
    command: &str,
    words: &[&'a str],
) -> Result<Vec<&'a str>, AllocError>
    ensures { IfOk result (λ plain. texts plain.items ≡ without_why command.now (texts words.now)) }
{
    let mut plain = Vec::new(alloc);
    let mut rest = words;
    'each: while let [word, behind @ ..] = rest {
        if is_why(command, word, behind) {
            plain.extend_from_slice(behind_first(behind))?;
            return Ok(plain);
        }
        plain.push(*word)?;
        rest = behind;
    }
    Ok(plain)
}

/// Returns these words of a command without each flag.
pub fn unmarked<'a>(
    alloc: Global,
    command: &str,
    words: &[&'a str],
) -> Result<Vec<&'a str>, AllocError>
    ensures { IfOk result (λ plain. texts plain.items ≡ unmarked command.now (texts words.now)) }
{
    let mut plain = Vec::new(alloc);
    let mut rest = words;
    'each: while let [word, behind @ ..] = rest {
        if !marks(command, word) {
            plain.push(*word)?;
        }
        rest = behind;
    }
    Ok(plain)
}

/// Returns whether an order is explained without `--explain`.
pub fn explains_itself(order: &Order<'_>) -> bool
    ensures { result ≡ explains_itself (Some (order_view order.now)) }
{
    match order {
        Order::Settle { .. } => true,
        Order::Judge { sites: Some(_), .. } => true,
        Order::Judge { sites: None, .. } => false,
        Order::Run { .. } | Order::Certify { .. } | Order::Check { .. } | Order::Play { .. } =>
            false,
    }
}

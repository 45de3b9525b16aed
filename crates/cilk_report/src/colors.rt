//! Colours in explanations, by the escape codes that terminals share (ECMA-48).

ghost use Rattle.std.specs.Prelude.{◌≡◌, [], IfOk, Ok, filter, not, string_bytes};
ghost use Rattle.cilk_report.specs.Colors.{is_color};

use cilk_profile::Kept;
use std::alloc::{AllocError, Global};

const BOLD: &str = "\x1b[1m";

const RED: &str = "\x1b[1;31m";

const GREEN: &str = "\x1b[1;32m";

const CYAN: &str = "\x1b[1;36m";

const PLAIN: &str = "\x1b[0m";

/// Returns whether a word asks for colours.
fn is_color(word: &str) -> bool
    ensures { result ≡ is_color word.now }
{
    word == "--color"
}

/// Returns a command line without each word that asks for colours.
pub fn without_color<'a>(alloc: Global, words: &[&'a str]) -> Result<Vec<&'a str>, AllocError>
    ensures { IfOk result (λ plain. plain.items ≡ filter (λ w. not (is_color w.now)) words.now) }
{
    words
        .iter()
        .copied()
        .filter(|word| !is_color(word))
        .collect(alloc)
}

/// Returns an explanation as it is shown: with colours, if explanations have some.
pub(crate) fn colored(alloc: Global, text: String, kept: &Kept) -> Result<String, AllocError>
    ensures { string_bytes text ≡ [] → result ≡ Ok text }
{
    if !kept.has_colors || text.is_empty() {
        return Ok(text);
    }
    let mut shown = String::new(alloc);
    for line in text.as_str().lines() {
        push_line(&mut shown, line)?;
        shown.push('\n')?;
    }
    Ok(shown)
}

// Adds a line with colours: its place, a mark under a text, or the words that it begins with.

fn push_line(shown: &mut String, line: &str) -> Result<(), AllocError> {
    if let Some((place, title)) = line.split_once(": error ") {
        return write!(shown, "{BOLD}{place}: {RED}error {title}{PLAIN}");
    }
    if let Some((place, title)) = line.split_once(": note: ") {
        return write!(shown, "{BOLD}{place}: {CYAN}note:{PLAIN} {title}");
    }
    if line.trim_start().starts_with('^') {
        return write!(shown, "{GREEN}{line}{PLAIN}");
    }
    match line.split_once(":") {
        Some((word, rest)) if !line.starts_with(' ') => {
            write!(shown, "{BOLD}{word}:{PLAIN}{rest}")
        }
        _ => shown.push_str(line),
    }
}

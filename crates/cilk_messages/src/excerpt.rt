//! The line of a fault, with a mark below its place.

use crate::place::{between, character_in, line_at};
use crate::sentence::{Part, printed, push_said};
use std::alloc::{AllocError, Global};
use unicode_width::UnicodeWidthChar;

/// The most bytes of a line that are shown before a place, and from it on.
const SHOWN: usize = 120;

/// Appends the line of a byte, and a mark below that byte. A long line is cut.
pub fn push_excerpt(
    alloc: Global,
    report: &mut String,
    text: &[u8],
    at: usize,
) -> Result<(), AllocError> {
    let (line, first) = line_at(text, at);
    let end = first.saturating_add(line.len());
    let at = at.min(end);
    let from = if at.saturating_sub(first) <= SHOWN {
        first
    } else {
        character_in(text, at.saturating_sub(SHOWN), at)
    };
    let upto = character_in(text, at.saturating_add(SHOWN), end);
    let ahead = between(text, from, at);
    let rest = between(text, at, upto).trim_ascii_end();
    push_said(
        alloc,
        report,
        "{}{}\n",
        &[Part::Word(ahead), Part::Word(rest)],
    )?;
    push_blanks(report, printed(alloc, ahead)?.as_str())
}

// The mark, after blanks as wide as a text. A tab remains a tab.
fn push_blanks(report: &mut String, ahead: &str) -> Result<(), AllocError> {
    for symbol in ahead.chars() {
        let (blank, width) = match symbol {
            '\t' => ('\t', 1),
            _ => (' ', symbol.width().unwrap_or(0)),
        };
        for _column in 0..width {
            report.push(blank)?;
        }
    }
    report.push_str("^\n")
}

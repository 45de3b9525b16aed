// Parsing a line.

ghost use Rattle.std.specs.Prelude.{◌≡◌, option_map};
ghost use Rattle.cilk_trace.specs.Lines.{are_cells, cells_at, rest_at, words_line, line_of};
ghost use Rattle.cilk_trace.specs.Reading.{after_line, line_at, numbered};
ghost use Rattle.cilk_cert_text.specs.Words.{words};
ghost use Rattle.cilk_cert_text.specs.Parsing.{words_in};

use crate::keyword::{Keyword, keyword_in};
use crate::line::{Cells, Line};
use crate::place::Place;
use cilk_cert_text::word::{alone, first, number};

/// The most cells of a line.
pub(crate) const MAX_CELLS: u32 = 4096;

/// Tells whether these are cells of a line.
pub(crate) fn are_cells(first: u32, count: u32) -> bool
    ensures { result ≡ are_cells first count }
{
    let last = u64::from(first) + u64::from(count);
    count > 0 && count <= MAX_CELLS && last <= 1 << 32
}

/// Parses two numbers as cells.
#[tactic(auto, unfolding(crate::specs::Lines::cells_at))]
fn cells<'a>(left: Option<&'a [u8]>) -> Option<(Cells, Option<&'a [u8]>)>
    ensures { option_map (λ r. (r.0, words_in r.1)) result ≡ cells_at (words_in left.entry) }
{
    let (first, rest) = number(left)?;
    let (count, rest) = number(rest)?;
    if are_cells(first, count) {
        Some((Cells { first, count }, rest))
    } else {
        None
    }
}

/// Parses the rest of a line after its keyword.
#[tactic(auto, unfolding(crate::specs::Lines::rest_at))]
fn rest_of<'a>(keyword: Keyword, left: Option<&'a [u8]>) -> Option<(Line, Option<&'a [u8]>)>
    ensures { option_map (λ r. (r.0, words_in r.1)) result ≡ rest_at keyword (words_in left.entry) }
{
    match keyword {
        Keyword::Read => {
            let (cells, rest) = cells(left)?;
            let (site, rest) = number(rest)?;
            Some((Line::Read { cells, site }, rest))
        }
        Keyword::Write => {
            let (cells, rest) = cells(left)?;
            let (site, rest) = number(rest)?;
            Some((Line::Write { cells, site }, rest))
        }
        Keyword::Enter => {
            let (site, rest) = number(left)?;
            Some((Line::Enter { site }, rest))
        }
        Keyword::Spawned => Some((Line::Spawned, left)),
        Keyword::Called => Some((Line::Called, left)),
        Keyword::Sync => Some((Line::Sync, left)),
        Keyword::Clear => {
            let (cells, rest) = cells(left)?;
            Some((Line::Clear { cells }, rest))
        }
        Keyword::Create => {
            let (reducer, rest) = number(left)?;
            let (site, rest) = number(rest)?;
            Some((Line::Create { reducer, site }, rest))
        }
        Keyword::Update => {
            let (reducer, rest) = number(left)?;
            let (site, rest) = number(rest)?;
            Some((Line::Update { reducer, site }, rest))
        }
        Keyword::Value => {
            let (reducer, rest) = number(left)?;
            let (site, rest) = number(rest)?;
            Some((Line::Value { reducer, site }, rest))
        }
        Keyword::Retire => {
            let (reducer, rest) = number(left)?;
            let (site, rest) = number(rest)?;
            Some((Line::Retire { reducer, site }, rest))
        }
        Keyword::Unseen => {
            let (site, rest) = number(left)?;
            Some((Line::Unseen { site }, rest))
        }
        Keyword::End => Some((Line::End, left)),
    }
}

/// Parses a line.
#[tactic(auto, unfolding(crate::specs::Lines::words_line))]
fn line(left: Option<&[u8]>) -> Option<Line>
    ensures { result ≡ words_line (words_in left.entry) }
{
    let (word, rest) = first(left)?;
    let keyword = keyword_in(word)?;
    let (line, rest) = rest_of(keyword, rest)?;
    alone(line, rest)
}

/// Returns what is due after a line.
pub(crate) fn after(line: Line) -> Place
    ensures { result ≡ after_line line }
{
    match line {
        Line::End => Place::Over,
        _ => Place::Lines,
    }
}

/// Parses a line that these bytes spell, and returns what is due after it. The header is none of
/// the lines.
pub(crate) fn line_at(place: Place, bytes: &[u8]) -> Option<(Option<Line>, Place)>
    ensures { result ≡ line_at place bytes.now }
{
    match place {
        Place::Header => {
            if bytes == b"cilktrace 1".as_slice() {
                Some((None, Place::Lines))
            } else {
                None
            }
        }
        Place::Lines => {
            let line = line(Some(bytes))?;
            Some((Some(line), after(line)))
        }
        Place::Over => None,
    }
}

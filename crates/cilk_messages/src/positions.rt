//! Lists of positions in the words: `0,3..5`.

ghost use Rattle.std.specs.Prelude.{◌≡◌, IfOk, length};
ghost use Rattle.cilk_messages.specs.Positions.{after, ends, is_list};
ghost use Rattle.cilk_syntax.specs.Lexing.{is_digit};

use crate::asked::number_of;
use std::alloc::{AllocError, Global};

/// Where a list of positions stands, which decides how it may go on.
#[derive(Clone, Copy)]
enum Listed {
    /// Before a position.
    Open,
    /// In a position, or in the first one of a range.
    First,
    /// After one point.
    Dot,
    /// Before the last position of a range.
    Dots,
    /// In the last position of a range.
    Last,
    /// It is none.
    Wrong,
}

fn is_digit(byte: u8) -> bool
    ensures { result ≡ is_digit byte }
{
    byte > 47 && byte < 58
}

impl Listed {
    // Where it stands after a byte.
    fn after(self, byte: u8) -> Listed
        ensures { result ≡ after self byte }
    {
        match self {
            Listed::Open if is_digit(byte) => Listed::First,
            Listed::First if is_digit(byte) => Listed::First,
            Listed::First if byte == b',' => Listed::Open,
            Listed::First if byte == b'.' => Listed::Dot,
            Listed::Dot if byte == b'.' => Listed::Dots,
            Listed::Dots if is_digit(byte) => Listed::Last,
            Listed::Last if is_digit(byte) => Listed::Last,
            Listed::Last if byte == b',' => Listed::Open,
            _ => Listed::Wrong,
        }
    }

    // Whether it can end there.
    fn ends(self) -> bool
        ensures { result ≡ ends self }
    {
        match self {
            Listed::First | Listed::Last => true,
            Listed::Open | Listed::Dot | Listed::Dots | Listed::Wrong => false,
        }
    }
}

/// Returns whether a word is a list of positions and of ranges `FIRST..LAST`, with commas between them.
pub fn is_list(word: &str) -> bool
    ensures { result ≡ is_list word.now }
{
    let mut at = Listed::Open;
    let mut rest = word.as_bytes();
    'each: while let [byte, behind @ ..] = rest {
        at = at.after(*byte);
        rest = behind;
    }
    at.ends()
}

/// Returns for each of `count` positions whether a list has it. A list may have others too.
pub fn flags_of(alloc: Global, list: &str, count: usize) -> Result<Vec<bool>, AllocError> {
    let mut flags = Vec::new(alloc);
    flags.resize(count, false)?;
    for item in list.split(",") {
        let (first, last) = item.split_once("..").unwrap_or((item, item));
        let end = place_of(last).saturating_add(1).min(count);
        for at in place_of(first)..end {
            flags[at] = true;
        }
    }
    Ok(flags)
}

// The position that digits spell, or the greatest one.
fn place_of(digits: &str) -> usize {
    match number_of(digits.as_bytes()) {
        Some(number) => number as usize,
        None => usize::MAX,
    }
}

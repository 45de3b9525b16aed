//! A light reading of a certificate's lines, for hints: of each line only what the hints need.

use cilk_types::word::{add, mul, neg};

/// A line of a certificate, as far as the hints need it.
#[derive(Clone, Copy)]
pub enum LineHint {
    /// A frame begins.
    Begin,
    /// The current frame ends.
    End,
    /// The current frame reads this word, from a cell or from a reducer.
    Word(i64),
    /// Another event.
    Event,
    /// A line that is no event.
    Nothing,
}

/// Returns what a line says, without its LF. A line that is none of a certificate's is taken for
/// some line or other.
pub fn hint_of(line: &[u8]) -> LineHint {
    match byte_at(line, 0) {
        b'b' => LineHint::Begin,
        b'e' => LineHint::End,
        b'v' => LineHint::Word(word_at(line, u32::MAX)),
        b'r' if byte_at(line, 2) == b'a' => LineHint::Word(word_at(line, 2)),
        b'c' if byte_at(line, 1) == b'i' => LineHint::Nothing,
        b's' if byte_at(line, 1) == b'i' => LineHint::Nothing,
        b's' if byte_at(line, 1) == b't' => LineHint::Nothing,
        b'f' => LineHint::Nothing,
        _ => LineHint::Event,
    }
}

fn byte_at(line: &[u8], place: usize) -> u8 {
    line.get(place).copied().unwrap_or(0)
}

// The number that a line has at this place among its words, from 0, or as its last word.
fn word_at(line: &[u8], place: u32) -> i64 {
    let mut word = 0;
    let mut is_negative = false;
    let mut at: u32 = 0;
    for byte in line {
        match *byte {
            b' ' if at == place => break,
            b' ' => {
                at = at.saturating_add(1);
                word = 0;
                is_negative = false;
            }
            b'-' => is_negative = true,
            digit => word = add(mul(word, 10), i64::from(digit.wrapping_sub(b'0'))),
        }
    }
    if is_negative { neg(word) } else { word }
}

//! A text without what begins no token, so that the rest has tokens.

use crate::around::{byte_at, is_among, is_word, word_after, word_at};
use crate::further::Further;
use crate::marks::{called, no_number, no_token, odd_byte};
use crate::place::{between, character_in};
use crate::sentences::sentence;
use cilk_syntax::lexer::all_digits;
use std::alloc::{AllocError, Global};

/// Returns a text of the same length, with blanks for what begins no token and 0 for each literal
/// of another type, and notes what was there.
pub fn cleaned(
    alloc: Global,
    text: &[u8],
    further: &mut Further<'_, '_>,
) -> Result<Vec<u8>, AllocError> {
    let mut cleaned = Vec::new(alloc);
    let mut piece = Piece::plain(0);
    let mut first = None;
    let mut marks = Marks {
        choices: 0,
        count: 0,
    };
    for place in 0..text.len() {
        let byte = text[place];
        if place >= piece.end {
            piece = piece_at(text, place);
            if piece.first.is_some() && marks.is_told(byte) {
                if let Some(hint) = hint_at(text, place, piece.end) {
                    further.note(place, piece.shown, hint, false);
                }
            }
            first = piece.first;
        }
        cleaned.push(first.unwrap_or(byte))?;
        if first.is_some() {
            first = Some(b' ');
        }
    }
    Ok(cleaned)
}

// The most pieces that hints are looked up for.
const TOLD: usize = 1000;

// How many pieces were taken out, and how many `?` wait for their colons.
#[derive(Clone, Copy)]
struct Marks {
    choices: usize,
    count: usize,
}

impl Marks {
    // Whether a piece that begins with this byte has a hint of its own.
    fn is_told(&mut self, byte: u8) -> bool {
        self.count = self.count.saturating_add(1);
        match byte {
            b'?' => self.choices = self.choices.saturating_add(1),
            b':' if self.choices > 0 => {
                self.choices = self.choices.saturating_sub(1);
                return false;
            }
            _ => {}
        }
        self.count < TOLD
    }
}

// What to write for a piece that is taken out.
fn hint_at(text: &[u8], at: usize, end: usize) -> Option<&'static str> {
    let word = between(text, at, end);
    match byte_at(text, at) {
        b'"' if is_among("printf fprintf puts perror", called(text, at)) => None,
        b'0'..=b'9' | b'.' if word.len() > 1 => of_numeral(word),
        0x80..=0xFF => Some(odd_byte(text, at)),
        _ => no_token(text, at),
    }
}

fn of_numeral(word: &[u8]) -> Option<&'static str> {
    if word.contains(&b'.') {
        Some(sentence("FRACTIONS"))
    } else if all_digits(word) && byte_at(word, 0) != b'0' {
        None
    } else {
        Some(no_number(word))
    }
}

// A piece of a text: a token, a gap, or what is neither.
#[derive(Clone, Copy)]
struct Piece {
    end: usize,
    // The byte in place of its first one, if it is taken out. Each other one becomes a blank.
    first: Option<u8>,
    // How many of its bytes are shown.
    shown: usize,
}

impl Piece {
    // A piece that stays.
    fn plain(end: usize) -> Piece {
        Piece {
            end,
            first: None,
            shown: 0,
        }
    }
}

// A piece that is taken out, whose first byte is replaced.
fn odd(at: usize, end: usize, first: u8) -> Piece {
    let length = end.saturating_sub(at);
    Piece {
        end,
        first: Some(first),
        shown: if length > LONGEST { 1 } else { length },
    }
}

// The most bytes of a literal that are shown.
const LONGEST: usize = 24;

fn piece_at(text: &[u8], at: usize) -> Piece {
    let next = at.saturating_add(1);
    let two = at.saturating_add(2);
    match (byte_at(text, at), byte_at(text, next)) {
        (b'/', b'/') => Piece::plain(line_end(text, at)),
        (b'/', b'*') => Piece::plain(comment_end(text, two)),
        (b'#', _) => directive(text, at),
        (b'"' | b'\'', _) => odd(at, quote_end(text, at), b'0'),
        (b'0'..=b'9', _) | (b'.', b'0'..=b'9') => numeral(text, at),
        (b'&', b'&') | (b'|', b'|') => Piece::plain(two),
        (b':', b':') => odd(at, two, b' '),
        (b'&' | b'|' | b'^', b' ') => odd(at, next, b'*'),
        (b'&' | b'|' | b'^' | b'~' | b'?' | b':' | b'.' | b'\\' | b'$' | b'@', _) => {
            odd(at, next, b' ')
        }
        (0x80..=0xFF, _) => odd(at, character_in(text, next, text.len()), b' '),
        (byte, _) if is_word(byte) => Piece::plain(at.saturating_add(word_at(text, at).len())),
        _ => Piece::plain(next),
    }
}

// The end of the line of a place, past lines that a backslash continues.
fn line_end(text: &[u8], at: usize) -> usize {
    for place in at..text.len() {
        if byte_at(text, place) == b'\n' && byte_at(text, place.saturating_sub(1)) != b'\\' {
            return place;
        }
    }
    text.len()
}

fn comment_end(text: &[u8], at: usize) -> usize {
    for place in at..text.len() {
        if byte_at(text, place) == b'*' && byte_at(text, place + 1) == b'/' {
            return place.saturating_add(2);
        }
    }
    text.len()
}

// The end of a string or character: after the quote that closes it, or at the line's end.
fn quote_end(text: &[u8], at: usize) -> usize {
    let mut is_escaped = false;
    for place in at.saturating_add(1)..text.len() {
        let byte = byte_at(text, place);
        if byte == b'\n' {
            return place;
        }
        if !is_escaped && byte == byte_at(text, at) {
            return place + 1;
        }
        is_escaped = !is_escaped && byte == b'\\';
    }
    text.len()
}

// A line of the preprocessor. Its `#` and first word are shown.
fn directive(text: &[u8], at: usize) -> Piece {
    let first = word_after(text, at.saturating_add(1));
    let word = word_at(text, first);
    if is_among("include pragma", word) {
        return Piece::plain(line_end(text, at));
    }
    let mut piece = odd(at, line_end(text, at), b' ');
    piece.shown = first.saturating_add(word.len()).saturating_sub(at);
    piece
}

// A number: one of the language stays.
fn numeral(text: &[u8], at: usize) -> Piece {
    let word = numeral_at(text, at);
    let end = at.saturating_add(word.len());
    let is_short = word.len() < 2 || (byte_at(word, 0) != b'0' && word.len() <= DIGITS);
    if is_short && all_digits(word) {
        Piece::plain(end)
    } else {
        odd(at, end, b'0')
    }
}

// Each number with this many digits is one of the language.
const DIGITS: usize = 18;

/// Returns the number of C that begins at a place.
pub fn numeral_at(text: &[u8], at: usize) -> &[u8] {
    between(text, at, numeral_end(text, at))
}

// The end of a number of C: with a point, letters, and a sign after the `e` of an exponent.
fn numeral_end(text: &[u8], at: usize) -> usize {
    let is_hexadecimal = matches!(byte_at(text, at.saturating_add(1)), b'x' | b'X');
    for place in at..text.len() {
        let byte = byte_at(text, place);
        let is_sign = matches!(byte, b'+' | b'-')
            && !is_hexadecimal
            && matches!(byte_at(text, place.saturating_sub(1)), b'e' | b'E');
        if !is_word(byte) && byte != b'.' && !is_sign {
            return place;
        }
    }
    text.len()
}

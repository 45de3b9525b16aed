//! Lines and columns of a text, as editors count them.

use crate::around::byte_at;

/// A line and a column of a text, both from 1. Columns count characters of UTF-8.
#[derive(Clone, Copy)]
pub struct Location {
    pub line: usize,
    pub column: usize,
}

impl Location {
    // The location after this byte.
    fn behind(self, byte: u8) -> Location {
        match byte {
            b'\n' => Location {
                line: self.line.saturating_add(1),
                column: 1,
            },
            // a later byte of a character
            0x80..=0xBF => self,
            _ => Location {
                line: self.line,
                column: self.column.saturating_add(1),
            },
        }
    }
}

/// Returns the location of a byte, counted from 0. The place after the last byte is the end.
pub fn locate(text: &[u8], at: usize) -> Location {
    let mut location = Location { line: 1, column: 1 };
    for place in 0..text.len().min(at) {
        location = location.behind(text[place]);
    }
    location
}

/// Returns the line of a byte, without its end, and the place of its first byte.
pub fn line_at(text: &[u8], at: usize) -> (&[u8], usize) {
    let mut first = 0;
    for place in 0..text.len() {
        if text[place] == b'\n' {
            if at <= place {
                return (between(text, first, place), first);
            }
            first = place + 1;
        }
    }
    (between(text, first, text.len()), first)
}

/// Returns the bytes from one place up to another, empty if the text doesn't have them.
pub fn between(text: &[u8], from: usize, upto: usize) -> &[u8] {
    match text.get(from..upto) {
        Some(part) => part,
        None => &[],
    }
}

/// Returns where the first character begins from one place up to another, or the other place.
pub fn character_in(text: &[u8], from: usize, upto: usize) -> usize {
    for place in from..upto {
        if !matches!(byte_at(text, place), 0x80..=0xBF) {
            return place;
        }
    }
    upto
}

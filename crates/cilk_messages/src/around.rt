//! The words of a text around a place.

use crate::place::between;

/// Returns whether a byte can be in a name or a number.
pub fn is_word(byte: u8) -> bool {
    byte.is_ascii_alphanumeric() || byte == b'_'
}

/// Returns the byte at a place, 0 after the end.
pub fn byte_at(text: &[u8], at: usize) -> u8 {
    match text.get(at) {
        Some(byte) => *byte,
        None => 0,
    }
}

/// Returns the word that begins at a place: a name, a number, or a single mark.
pub fn word_at(text: &[u8], at: usize) -> &[u8] {
    if !is_word(byte_at(text, at)) {
        return between(text, at, at.saturating_add(1));
    }
    let mut upto = at;
    for place in at..text.len() {
        if !is_word(text[place]) {
            break;
        }
        upto = place + 1;
    }
    between(text, at, upto)
}

/// Returns where the word before a place begins, if there is one.
pub fn before(text: &[u8], at: usize) -> Option<usize> {
    let mut first = None;
    for back in 0..at {
        let place = at - back - 1;
        let byte = byte_at(text, place);
        match first {
            None if matches!(byte, b' ' | b'\t'..=b'\r') => {}
            None if is_word(byte) => first = Some(place),
            None => return Some(place),
            Some(_) if is_word(byte) => first = Some(place),
            Some(_) => return first,
        }
    }
    first
}

/// Returns the word before a place, empty if there is none.
pub fn word_before(text: &[u8], at: usize) -> &[u8] {
    match before(text, at) {
        Some(place) => word_at(text, place),
        None => &[],
    }
}

/// Returns where the first word from a place on begins, or the end of the text.
pub fn word_after(text: &[u8], at: usize) -> usize {
    for place in at..text.len() {
        if !matches!(text[place], b' ' | b'\t'..=b'\r') {
            return place;
        }
    }
    text.len()
}

/// Returns whether a word is a number.
pub fn is_number(word: &[u8]) -> bool {
    match word.first() {
        Some(byte) => byte.is_ascii_digit(),
        None => false,
    }
}

/// Returns whether a word is a name.
pub fn is_name(word: &[u8]) -> bool {
    match word.first() {
        Some(byte) => byte.is_ascii_alphabetic() || *byte == b'_',
        None => false,
    }
}

/// Returns whether a word is one of these, which blanks separate. `pthread_..` stands for each word
/// that begins so.
pub fn is_among(words: &str, word: &[u8]) -> bool {
    for it in words.split_whitespace() {
        let is_it = match it.strip_suffix("..") {
            Some(front) => word.starts_with(front.as_bytes()),
            None => it.as_bytes() == word,
        };
        if is_it {
            return true;
        }
    }
    false
}

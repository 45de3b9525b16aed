//! What a text says of a name: how it is declared, and where it is written. Read word by word, comments too.

use cilk_messages::around::{byte_at, is_number, is_word, word_after, word_at, word_before};
use cilk_messages::asked::number_of;
use cilk_messages::place::between;

/// Returns where the next occurrence of a name begins from a place on, as a word of its own.
fn next_of(text: &[u8], name: &[u8], from: usize) -> Option<usize> {
    for place in from..text.len() {
        let is_inside = place > 0 && is_word(byte_at(text, place.saturating_sub(1)));
        if !is_inside && !name.is_empty() && word_at(text, place) == name {
            return Some(place);
        }
    }
    None
}

// Whether what follows a name writes it, or what is before it.
fn is_written_at(text: &[u8], at: usize, end: usize) -> bool {
    let next = word_after(text, end);
    let second = byte_at(text, next.saturating_add(1));
    let is_changed = match byte_at(text, next) {
        b'=' => second != b'=',
        b'+' | b'-' => second == b'=' || second == byte_at(text, next),
        b'*' | b'/' | b'%' => second == b'=',
        _ => false,
    };
    is_changed || matches!(word_before(text, at), b"+" | b"-") && is_counted_before(text, at)
}

// Whether `++` or `--` ends before a place.
fn is_counted_before(text: &[u8], at: usize) -> bool {
    let ahead = between(text, at.saturating_sub(2), at);
    ahead == b"++".as_slice() || ahead == b"--".as_slice()
}

// How many braces are open at a place.
fn depth_at(text: &[u8], at: usize) -> usize {
    let mut depth: usize = 0;
    for place in 0..at.min(text.len()) {
        match text[place] {
            b'{' => depth = depth.saturating_add(1),
            b'}' => depth = depth.saturating_sub(1),
            _ => {}
        }
    }
    depth
}

/// Returns whether a variable could be a reducer that one statement alone updates: it is declared once, as a
/// global one or in a function's own block, and written nowhere but there and in the statement.
pub fn is_of_one_statement(text: &[u8], name: &[u8], statement: usize, end: usize) -> bool {
    let mut declared = false;
    let mut from: usize = 0;
    for _occurrence in 0..text.len() {
        let Some(at) = next_of(text, name, from) else {
            return declared;
        };
        let after = at.saturating_add(name.len());
        let is_declaration = word_before(text, at) == b"int".as_slice();
        if is_declaration {
            let next = byte_at(text, word_after(text, after));
            if declared || depth_at(text, at) > 1 || !matches!(next, b'=' | b';') {
                return false;
            }
            declared = true;
        } else if !(statement..end).contains(&at) && is_written_at(text, at, after) {
            return false;
        }
        from = after;
    }
    false
}

/// Returns whether each declaration of a reducer of this name is of an `add` one, and there is one.
pub fn is_sum(text: &[u8], name: &[u8]) -> bool {
    let mut found = false;
    let mut from: usize = 0;
    for _occurrence in 0..text.len() {
        let Some(at) = next_of(text, name, from) else {
            return found;
        };
        if word_before(text, at) == b")".as_slice() {
            let ahead = between(text, 0, at).trim_ascii();
            if !ahead.ends_with(b"cilk_reducer(add)".as_slice()) {
                return false;
            }
            found = true;
        }
        from = at.saturating_add(name.len());
    }
    false
}

// The number of elements of the arrays of a name: the least where there are several, 0 where there is none.
fn length_of(text: &[u8], name: &[u8]) -> u64 {
    let mut least: Option<u64> = None;
    let mut from: usize = 0;
    for _occurrence in 0..text.len() {
        let Some(at) = next_of(text, name, from) else {
            break;
        };
        from = at.saturating_add(name.len());
        let open = word_after(text, from);
        if word_before(text, at) == b"int".as_slice() && byte_at(text, open) == b'[' {
            let length = number_in(text, open);
            least = Some(least.unwrap_or(length).min(length));
        }
    }
    least.unwrap_or(0)
}

// The number in brackets that open at a place, 0 if there is none.
fn number_in(text: &[u8], open: usize) -> u64 {
    let word = word_at(text, word_after(text, open.saturating_add(1)));
    if is_number(word) {
        number_of(word).unwrap_or(0)
    } else {
        0
    }
}

/// Returns whether all elements that a piece of a text names have numbers as indices, which are inside their
/// arrays.
pub fn are_inside(text: &[u8], piece: &[u8]) -> bool {
    for open in 0..piece.len() {
        if piece[open] != b'[' {
            continue;
        }
        let first = word_after(piece, open.saturating_add(1));
        let word = word_at(piece, first);
        let close = word_after(piece, first.saturating_add(word.len()));
        if !is_number(word) || byte_at(piece, close) != b']' {
            return false;
        }
        if number_in(piece, open) >= length_of(text, word_before(piece, open)) {
            return false;
        }
    }
    true
}

//! Hints for bytes that begin no token.

use crate::around::{
    before, byte_at, is_among, is_name, is_number, word_after, word_at, word_before,
};
use crate::cleaned::numeral_at;
use crate::place::{between, line_at};
use crate::rules::{Surroundings, said};
use crate::sentences::sentence;
use crate::vocabulary::{LOCK_WORDS, TYPE_WORDS, said_of};

/// Returns the advice for a byte above 127.
pub fn odd_byte(text: &[u8], at: usize) -> &'static str {
    if at == 0 && text.starts_with(b"\xEF\xBB\xBF") {
        "the file begins with a byte order mark: save it without one"
    } else {
        "letters outside ASCII may stand in comments alone"
    }
}

/// Returns the advice for a word or mark that begins no token.
pub fn no_token(text: &[u8], at: usize) -> Option<&'static str> {
    let word = word_at(text, at);
    if is_number(word) {
        return Some(no_number(numeral_at(text, at)));
    }
    said(&Spot { text, at }, MARKS)
}

// A byte of a text. Its places are `-1`, `-2` and `+1`, the words before and after it; `on`, the text
// from it on; `called`, the word before the parenthesis before it; `directive`, the word after a `#`;
// and conditions (`Spot::fact`). `@` stands for any name, `#` for any number, `:type` for a word of a
// type, and `:lock` for one of locks.
#[derive(Clone, Copy)]
struct Spot<'a> {
    text: &'a [u8],
    at: usize,
}

// Strings and characters; lines of the preprocessor; colons; operators on bits; points; a comment.
const MARKS: &str = "\
on \"\\n\".. | called printf puts print => LINE_END
on '\\n'.. | called putchar print => LINE_END
on '\\n'.. => `print` ends each line itself: leave this away; where it is compared, write 10
on '.. => there are no characters: write their numbers
on \".. | called scanf => INPUT
on \".. => there are no strings: `print(e);` writes a number on a line of its own
on #.. | directive if ifdef ifndef else elif endif undef error => NO_LINE
on #.. | directive define | valued no => NO_LINE
on #.. | directive define | macro => MACRO
on #.. => DEFINITION
on ::.. | -1 ^ std => REDUCER
on ::cout.. ::endl.. => PRINT
on ::cin.. => INPUT
on ::atomic.. ::mutex.. ::lock_guard.. ::unique_lock.. ::scoped_lock.. => LOCKS
on ::.. => LIBRARY
on :=.. => an assignment is `x = e;`
on :.. | -1 default => write `if` and `else if`
on :.. | -2 case => write `if` and `else if`
on :.. | -1 @ | -2 ; { } ) => LABELS
on :.. | -1 @ | first => LABELS
on :.. | -1 @ => a loop counts, and has no `:` in its head: `for (int i = 0; i < n; i++)`
on :.. ?.. => CHOICE
on &.. | -1 :type => REFERENCES
on &.. | -1 ) ] @ # => BITS
on &.. | called :lock => LOCKS
on &.. => there are no pointers: a place in a global array stands for an address, as `i` for `&a[i]`, and for `&x` a function returns the number
on |.. => there are no operators on bits: put numbers together by `*` and `+`, as `2 * x + 1` for `x << 1 | 1`; a flag is set by an `if`
on ^.. => there are no operators on bits: a loop over `x % 2` and `x / 2` stands for `x ^ y`
on ~.. => there are no operators on bits: `-x - 1` stands for `~x`
on ... | -1 # => FRACTIONS
on ... | +1 # => FRACTIONS
on ... | viewed => VIEW_MEMBERS
on ... => STRUCTURES
on /.. => a comment ends with `*/`";

impl Surroundings for Spot<'_> {
    fn has(&self, place: &str, words: &str) -> bool {
        let Spot { text, at } = *self;
        let next = at.saturating_add(1);
        let word = match place {
            "on" => between(text, at, text.len()),
            "-1" => word_before(text, at),
            "-2" => word_before(text, before(text, at).unwrap_or(0)),
            "+1" => word_at(text, next),
            "called" => called(text, at),
            "directive" => word_at(text, word_after(text, next)),
            _ => self.fact(place),
        };
        is_among(words, word)
            || is_among(words, b"@") && is_name(word)
            || is_among(words, b"#") && is_number(word)
            || is_among(words, b":type") && is_among(TYPE_WORDS, word)
            || is_among(words, b":lock") && is_among(LOCK_WORDS, word)
    }
}

impl Spot<'_> {
    // Whether a condition holds.
    fn fact(&self, condition: &str) -> &'static [u8] {
        let Spot { text, at } = *self;
        let holds = match condition {
            "valued" => !between(text, at, word_after(text, defined_end(text, at))).contains(
                &b'\n',
            ),
            "macro" => byte_at(text, defined_end(text, at)) == b'(',
            "first" => {
                let ahead = before(text, at).unwrap_or(0);
                word_after(text, line_at(text, ahead).1) == ahead
            }
            "viewed" => is_view(text, at) || is_reducer(text, word_before(text, at)),
            _ => false,
        };
        if holds { b"yes" } else { b"no" }
    }
}

/// Returns the word before the parenthesis before a place.
pub fn called(text: &[u8], at: usize) -> &[u8] {
    match before(text, at) {
        Some(open) if byte_at(text, open) == b'(' => word_before(text, open),
        _ => &[],
    }
}

// The end of the name that a line of the preprocessor defines.
fn defined_end(text: &[u8], at: usize) -> usize {
    let first = word_after(text, at.saturating_add(1));
    let name = word_after(text, first.saturating_add(word_at(text, first).len()));
    name.saturating_add(word_at(text, name).len())
}

// Whether a point follows the view of a reducer, as in OpenCilk's first reducers.
fn is_view(text: &[u8], at: usize) -> bool {
    for back in 0..at.min(64) {
        let open = at - back - 1;
        if byte_at(text, open) == b'(' {
            return word_before(text, open) == b"REDUCER_VIEW".as_slice();
        }
    }
    false
}

// Whether a text declares a reducer of this name.
fn is_reducer(text: &[u8], name: &[u8]) -> bool {
    let word = b"cilk_reducer".as_slice();
    for place in 0..text.len() {
        let rest = between(text, place, text.len());
        if rest.starts_with(word) && is_name(name) && named_behind(rest) == name {
            return true;
        }
    }
    false
}

// The word after the first closing parenthesis, if there is one nearby.
fn named_behind(text: &[u8]) -> &[u8] {
    for place in 0..text.len().min(128) {
        if text[place] == b')' {
            return word_at(text, word_after(text, place + 1));
        }
    }
    &[]
}

/// Returns the advice for a number of C that isn't one here.
pub fn no_number(word: &[u8]) -> &'static str {
    match (said_of(NUMERALS, word), word.last()) {
        (Some(cure), _) => cure,
        (None, Some(b'l' | b'L' | b'u' | b'U')) =>
            "`int` is the only type: write the number without letters",
        (None, Some(b'f')) => sentence("FRACTIONS"),
        _ if word.contains(&b'e') || word.contains(&b'E') => sentence("FRACTIONS"),
        _ => "a number has digits alone, and doesn't begin with 0",
    }
}

const NUMERALS: &str = "\
0x.. 0X.. => write the number with decimal digits
1e-1 1e-2 1e-3 1e-1f 1e-2f 1e-3f 1e-1L 1e-2L 1e-3L 1e-1l 1e-2l 1e-3l => FRACTIONS
1e-.. => TINY";

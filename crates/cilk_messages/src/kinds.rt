//! Files of another kind in place of a program.

use crate::around::{byte_at, word_after};
use crate::place::between;
use crate::sentences::row_of;

// What a file of each kind has before its first blank or line's end, and what to do with it.
const KINDS: &str = "\
cilktrace-bin => this is a trace in the binary form: `cilk judge TRACE` reads it
cilktrace => this is a trace: `cilk judge TRACE` reads it
cilksites => this is a table of sites: `cilk judge TRACE --sites FILE` reads it
cilkcert => this is a certificate: `cilk check PROGRAM CERTIFICATE` reads it, after the text of the program
run steal all => this is a script: `cilk play PROGRAM SCRIPT` reads it, after the text of the program
\u{7f}ELF.. => this is a compiled program, and no text: give the source, in the language of `docs/LANGUAGE.md`; one that `recorder/cilkrec` built writes a trace as it runs, and `cilk judge TRACE` reads that";

/// Returns what to do with a text that is no program, if it begins as a file of another kind. A
/// script may begin with comments.
pub fn other_kind(text: &[u8]) -> Option<&'static str> {
    let first = behind_comments(text);
    for end in first..text.len() {
        if matches!(text[end], b' ' | b'\t'..=b'\r') {
            return row_of(KINDS, between(text, first, end));
        }
    }
    None
}

// Where the first line begins that isn't a comment of a script, and isn't blank.
fn behind_comments(text: &[u8]) -> usize {
    let mut from = word_after(text, 0);
    for place in 0..text.len() {
        if place >= from {
            if byte_at(text, from) != b'#' {
                return from;
            }
            if text[place] == b'\n' {
                from = word_after(text, place);
            }
        }
    }
    from
}

/// A note on a program of C++.
pub const FOREIGN: &str =
    "this looks like C++: `recorder/cilkrec` builds such a program as it stands so that it writes a trace, and `cilk judge TRACE` tells of its races (`recorder/README.md`)";

/// Returns whether a text names C++'s library, or its reducers.
pub fn is_foreign(text: &[u8]) -> bool {
    for place in 0..text.len() {
        let rest = between(text, place, text.len());
        if rest.starts_with(b"std::")
            || rest.starts_with(b"cilk::")
            || rest.starts_with(b"namespace std;")
        {
            return true;
        }
    }
    false
}

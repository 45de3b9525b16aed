//! Hints for a token that the grammar doesn't allow at its place.

use crate::certain::may_declare;
use crate::hints::meant;
use crate::place::between;
use crate::report::Wanted;
use crate::rules::{fits, said};
use crate::sentence::{Sentence, say};
use crate::sentences::sentence;
use crate::site::Site;
use crate::sites::{head_near, next_of};
use crate::spelling::{is_misspelt_reducer, misspelt_near};
use crate::tokens::Tokens;
use crate::unended::missing_mark;
use crate::uses::of_use;
use crate::vocabulary::{cast_to, other_word, word_of_c};

/// Returns what to write in place of a refused token.
pub fn no_form<'a>(
    tokens: &Tokens<'a>,
    number: usize,
    wanted: &Wanted<'_>,
) -> Option<Sentence<'a>> {
    let site = Site::new(tokens, number);
    if let Some(cure) = of_words(&site) {
        return Some(say(cure));
    }
    if is_misspelt_reducer(&site) {
        return Some(say(sentence("REDUCER")));
    }
    if let Some(reserved) = misspelt_near(&site) {
        return Some(meant(reserved.as_bytes()));
    }
    if let Some(hint) = missing_mark(&site, wanted) {
        return Some(hint);
    }
    match of_use(&site, wanted) {
        Some(cure) => Some(
            say(cure)
                .word(tokens.word_back(number, 1))
                .word(rest_of(&site)),
        ),
        None => None,
    }
}

// What follows a token in its statement.
fn rest_of<'a>(site: &Site<'_, 'a>) -> &'a [u8] {
    let Site { tokens, number, .. } = *site;
    let first = tokens.place(number.saturating_add(1));
    between(
        tokens.text,
        first,
        tokens.place(next_of(tokens, number, ";")),
    )
}

// Words of C: the token itself, the one before it, or the one before the parentheses that end or
// begin there. Before parentheses stands any word of C that the text doesn't declare.
fn of_words(site: &Site<'_, '_>) -> Option<&'static str> {
    let Site { tokens, number, .. } = *site;
    let ahead = Site::new(tokens, number.saturating_sub(1));
    let head = Site::new(tokens, head_near(tokens, number));
    said(site, WORDS)
        .or(cast_near(&head))
        .or(other_word(site.word()))
        .or(said(&ahead, SIZE))
        .or(said(&head, SIZE))
        .or(of_word(&ahead, fits(site, "0 (")))
        .or(of_word(&head, fits(site, "-1 )")))
}

// The advice for a cast, by the token before its parentheses.
fn cast_near(head: &Site<'_, '_>) -> Option<&'static str> {
    if fits(head, "0 ^ @ for cilk_for | +2 &") {
        Some(cast_to(head.tokens.word(head.number.saturating_add(2))))
    } else {
        None
    }
}

// A word of C: of all, where the text doesn't declare it, or of those that need no look.
fn of_word(site: &Site<'_, '_>, is_called: bool) -> Option<&'static str> {
    if !is_called {
        return other_word(site.word());
    }
    for number in 0..site.tokens.count() {
        if site.tokens.word(number) == site.word() && may_declare(&Site::new(site.tokens, number)) {
            return None;
        }
    }
    word_of_c(site.word())
}

// The parameters of `main`, structures, and variables that keep their number.
const WORDS: &str = "\
in main | in :function :procedure => PARAMETERS
0 struct | viewed => VIEW_MEMBERS
0 typedef | +1 struct | viewed => VIEW_MEMBERS
0 struct => STRUCTURES
0 typedef | +1 struct => STRUCTURES
0 static | global no => STATIC
-1 static | global no => STATIC";

// The size of a type or of an array.
const SIZE: &str = "0 sizeof | +2 & => BYTES\n0 sizeof => NO_LENGTH";

//! Forms of other languages that are known by a few tokens alone, wherever they stand.
//!
//! None of them is right anywhere in the language, so that the text around them doesn't matter.

use crate::around::is_among;
use crate::rules::{fits, said};
use crate::site::Site;
use crate::sites::closing;
use crate::tokens::Tokens;
use crate::vocabulary::{cast_to, library_word, word_of_c};
use std::alloc::{AllocError, Global};

/// Returns the words that a text may declare as names of its own, in order.
pub fn own_words<'a>(alloc: Global, tokens: &Tokens<'a>) -> Result<Vec<&'a [u8]>, AllocError> {
    let mut own = Vec::new(alloc);
    for number in 0..tokens.count() {
        if may_declare(&Site::new(tokens, number)) {
            own.push(tokens.word(number))?;
        }
    }
    own.sort()?;
    Ok(own)
}

/// Returns whether a token may be a name in its declaration, by the tokens on both sides.
pub fn may_declare(site: &Site<'_, '_>) -> bool {
    match said(site, DECLARED) {
        Some("library") => library_word(site.word()).is_some(),
        Some("yes") => true,
        _ => false,
    }
}

const DECLARED: &str = "\
+1 ^ , ; = [ ( ) => no
-1 , | +1 ( ) => no
-1 , => yes
-1 ) | -4 cilk_reducer => yes
-1 ) => no
-1 * | -2 * => yes
-1 * | -2 & => yes
-1 * => no
-1 int void => yes
-1 & | +1 ) => library
-1 & => yes";

/// A look at the tokens of a text in order.
#[derive(Clone, Copy)]
pub struct Look {
    /// Whether the last form is a word.
    pub is_word: bool,
    /// The token up to which nothing is shown.
    pub upto: usize,
}

/// Returns what to write for the form that stands at a token, if there is one.
pub fn form_at(site: &Site<'_, '_>, look: &mut Look) -> Option<&'static str> {
    if site.number < look.upto {
        return None;
    }
    if let Some(hint) = said(site, OPENING) {
        look.is_word = !is_among("main", site.word());
        look.upto = closing(site.tokens, site.number);
        return Some(if hint == "cast" {
            cast_to(site.word())
        } else {
            hint
        });
    }
    if let Some(hint) = of_word(site) {
        look.is_word = true;
        return Some(hint);
    }
    look.is_word = is_among("print update set value input input_count", site.word());
    said(site, FORMS)
}

// A `main` with parameters, and the type of a cast.
const OPENING: &str = "\
0 main | -1 int void | +1 ( | +2 ^ ) void => PARAMETERS
-1 ( | -2 ~ ( , ; { } * | 0 & | +1 * => CAST
-1 ( | -2 ~ ( , ; { } * | 0 & | +1 ) => cast
-1 ( | -2 ~ ( , ; { } * | 0 & | +1 & => cast";

// A word of another language.
fn of_word(site: &Site<'_, '_>) -> Option<&'static str> {
    if !fits(site, "0 @ | -2 ^ sizeof | own no") || fits(site, "0 min max | +1 )") {
        return None;
    }
    match word_of_c(site.word()) {
        Some(hint) => Some(said(site, PLACED).unwrap_or(hint)),
        None => None,
    }
}

// The size of a type, a constant of C's headers that a global opens with, and a variable of a
// function.
const PLACED: &str = "\
0 sizeof | +2 & => BYTES
0 static | global no => STATIC
0 INT_MIN LONG_MIN LLONG_MIN INT64_MIN | first => LEAST
0 INT_MAX LONG_MAX LLONG_MAX INT64_MAX | first => GREATEST";

// In this order: an arrow, a `*` that declares a pointer or follows one, a further index, and a list
// of elements; a declaration of an array where none can be; a token in the head of a loop; a
// function without its body, and a call inside an expression; a `++` or `--` inside an expression,
// a second assignment in a statement, a reducer with functions or a first value, two operators that
// the language doesn't have as one, and a reserved word as a name.
const FORMS: &str = "\
0 - | +1 > => ARROW
0 * | -1 & | memory => MEMORY
0 * | -1 & => POINTER
0 * | -1 ~ ( , ; { } => POINTER
0 * | -1 @ | -2 ; { } | in ^ for cilk_for => POINTER
0 [ | -1 ] | +2 ] | +3 [ => THREE_INDICES
0 [ | -1 ] | -3 [ | -4 ] => THREE_INDICES
0 [ | -1 ] => ONE_INDEX
0 { | -1 = => ZEROS
0 [ | -1 @ | -2 & | in ? => ARRAY_PARAMETER
0 [ | -1 @ | -2 & | global no => ARRAYS
0 [ | -1 @ | -2 & | +1 ^ # => LENGTH
0 , | in for => ONE_STEP
0 <= | -2 ; | in cilk_for => UP_TO
0 > >= | -2 ; | in cilk_for => DOWNWARD
0 != | -2 ; | in cilk_for => HEAD
0 -= | in cilk_for => STEP_DOWN
0 -- | in cilk_for => DOWNWARD
0 = | -2 ; | in cilk_for => STEP_HEAD
0 += | +1 ^ 1 | in cilk_for => STEP_HEAD
0 @ | -1 ( | in cilk_for => DECLARES
0 @ | +1 ( | -1 int void | own | prototyped => PROTOTYPE
0 @ | +1 ( | -1 , | own | in ? => CALL
0 @ | +1 ( | -1 cilk_spawn | -2 = | -3 ] | own => SPAWN
0 @ | +1 ( | -1 ^ = | -1 ~ ( | own => CALL
0 @ | +1 ( | -1 = | -2 ] | own => CALL
0 @ | +1 ( | -1 = | own | in ? => CALL
0 @ | +1 ( | -1 = | own | summed => CALL
0 -- | -1 @ | +1 > | in for => COUNT_DOWN
0 ++ -- | -1 @ | -2 ( | -3 if while @ print => STEP
0 ++ -- | -1 @ | +1 ] + - * < > => STEP
0 ++ -- | -1 @ | -2 ~ * => STEP
0 ++ -- | -1 @ | -2 , | in @ print => STEP
0 = += -= *= | chained => ASSIGNMENT
0 ++ -- | -1 ( | -2 if while @ print => STEP
0 ++ -- | -1 ~ => STEP
0 , | +1 ? | -3 cilk_reducer => REDUCER_FUNCTIONS
0 = | +1 ? | -5 cilk_reducer => REDUCER_OPENS
0 = | +1 ? | -7 cilk_reducer => REDUCER_OPENS
0 < | +1 < <= => SHIFT_UP
0 > | +1 > >= => SHIFT_DOWN
0 / % | +1 = => DIVIDED
0 print update set value input input_count | -1 int | +1 ; = , ) [ => RESERVED_NAME";

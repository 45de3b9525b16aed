//! A token, as rules ask for the words around it.
//!
//! Among the words of a rule `@` stands for any name, `@array` for one that is declared as an array,
//! and `:array` for one in such a declaration; in place of `array` may stand `variable`, `reducer`,
//! `function`, `procedure` (a `void` function) and `nothing`. `#` stands for any number, `$` for a
//! name or a reserved word, `&` for a word of a type, `~` for what comes before an operand, and `?`
//! for any token. Places are
//!
//! - `0`, `-1`, `+1` and so on: the token, the one before it, the one after it;
//! - `in`: the token before the parentheses around it; `of`: the one before the parentheses that end
//!   just before it, and `of-1` the one before that;
//! - `main`: the name of the text's function `main`;
//! - a condition that holds, as `begins`, or doesn't, as `begins no` (`Site::holds`).

use crate::around::{byte_at, is_among, is_name, is_number};
use crate::place::between;
use crate::rules::Surroundings;
use crate::sites::{
    begins, begins_line, closed_head, closing, head_of, is_global, is_in_sum, is_viewed,
    mark_ahead, next_of,
};
use crate::tokens::{Declared, Tokens};
use crate::vocabulary::TYPE_WORDS;
use cilk_syntax::token::Kind;

/// A token of a text, by its number.
#[derive(Clone, Copy)]
pub struct Site<'t, 'a> {
    pub tokens: &'t Tokens<'a>,
    pub number: usize,
    /// The words that the text declares as names, in order, where types are asked for.
    pub own: &'t [&'a [u8]],
}

impl<'t, 'a> Site<'t, 'a> {
    /// Returns the site of the token with this number.
    pub fn new(tokens: &'t Tokens<'a>, number: usize) -> Site<'t, 'a> {
        Site {
            tokens,
            number,
            own: &[],
        }
    }

    /// Returns the bytes of the token.
    pub fn word(&self) -> &'a [u8] {
        self.tokens.word(self.number)
    }

    fn is_like(&self, number: usize, words: &str) -> bool {
        let word = self.tokens.word(number);
        if word.is_empty() {
            return false;
        }
        for wanted in words.split_whitespace() {
            let wanted = wanted.as_bytes();
            if wanted == word || self.is_of(number, word, wanted) {
                return true;
            }
        }
        false
    }

    // Whether a token is of a class of words: a sign, and after it the kind of a declaration.
    fn is_of(&self, number: usize, word: &'a [u8], class: &[u8]) -> bool {
        let kind = between(class, 1, class.len());
        match byte_at(class, 0) {
            b'@' if kind.is_empty() => matches!(self.tokens.kind(number), Some(Kind::Name)),
            b'@' => match self.tokens.declaration_of(number) {
                Some((_, declared)) => kind_of(Some(declared)).as_bytes() == kind,
                None => kind == b"nothing".as_slice(),
            },
            b':' => kind_of(self.tokens.declared(number)).as_bytes() == kind,
            b'#' => is_number(word),
            b'$' => is_name(word),
            b'&' if is_among("int void", word) => kind.is_empty(),
            b'&' => kind.is_empty() && is_among(TYPE_WORDS, word) && !self.is_own(word),
            b'~' => is_among(OPERATORS, word),
            b'?' => true,
            _ => false,
        }
    }

    // The token at a place, if it is the place of one.
    fn token_at(&self, place: &str) -> Option<usize> {
        let Site { tokens, number, .. } = *self;
        match place {
            "in" => head_of(tokens, number),
            "of" => closed_head(tokens, number),
            "main" => tokens.main(),
            "of-1" => match closed_head(tokens, number) {
                Some(named) => named.checked_sub(1),
                None => None,
            },
            _ => match place.parse::<isize>() {
                Ok(offset) => number.checked_add_signed(offset),
                Err(_) => None,
            },
        }
    }

    // Whether a condition holds: of the token's surroundings, or of the tokens before it.
    fn holds(&self, condition: &str) -> bool {
        let Site { tokens, number, .. } = *self;
        match condition {
            "begins" => begins(tokens, number),
            "second" => number > 0 && begins(tokens, number.saturating_sub(1)),
            "global" => is_global(tokens, number),
            "brackets" => self.is_like(mark_ahead(tokens, number, "( ["), "["),
            "length" => self.is_like(mark_ahead(tokens, number, "[").saturating_sub(1), ":array"),
            "first" => self.opens_global(mark_ahead(tokens, number, "= ,")),
            "memory" => self.is_like(
                next_of(tokens, number, TO_MEMORY),
                "malloc calloc realloc alloca",
            ),
            "ended" => self.is_like(next_of(tokens, number, ";"), ";"),
            "chained" => self.is_like(mark_ahead(tokens, number, CHAINING), "= return"),
            "summed" => is_in_sum(tokens, number),
            "prototyped" => self.is_like(closing(tokens, number).saturating_add(1), ";"),
            "own" => self.is_own(self.word()),
            "viewed" => is_viewed(tokens, number),
            "line" => begins_line(tokens, number),
            _ => false,
        }
    }

    // Whether the first value of a global begins after a mark.
    fn opens_global(&self, mark: usize) -> bool {
        self.is_like(mark, "=")
            && self.is_like(
                mark.saturating_sub(1),
                ":variable :array :reducer :function :procedure",
            )
            && is_global(self.tokens, mark)
    }

    // Whether the text may declare a word as a name of its own.
    fn is_own(&self, word: &'a [u8]) -> bool {
        self.own.binary_search(&word).is_ok()
    }
}

impl Surroundings for Site<'_, '_> {
    fn has(&self, place: &str, words: &str) -> bool {
        match self.token_at(place) {
            Some(number) => self.is_like(number, words),
            None => {
                let told = if self.holds(place) { "yes" } else { "no" };
                is_among(words, told.as_bytes())
            }
        }
    }
}

// Marks that an operand follows, but for `*`, which may declare a pointer.
const OPERATORS: &str = "return [ = += -= *= + - / % < > <= >= == != && || !";

// Calls that allocate memory, and what ends a statement.
const TO_MEMORY: &str = "malloc calloc realloc alloca ; {";

// Marks that an assignment follows, and those that the expression around it can begin after.
const CHAINING: &str = "= return ( [ ,";

fn kind_of(declared: Option<Declared>) -> &'static str {
    match declared {
        Some(Declared::Variable) => "variable",
        Some(Declared::Array) => "array",
        Some(Declared::Reducer) => "reducer",
        Some(
            Declared::Function {
                has_result: true,
                ..
            },
        ) => "function",
        Some(Declared::Function { .. }) => "procedure",
        None => "nothing",
    }
}

//! The tokens that can follow a beginning of a text: the parser tries each of them.

use cilk_parser::fault::{SyntaxErrorKind, TextFault};
use cilk_parser::parse::parse;
use cilk_types::limits::MAX_TEXT;
use std::alloc::{AllocError, Global};

// Tokens that are listed by themselves where no group has them, each with its words, and with another
// token that is listed by its own words where the first isn't possible.
const TOKENS: &[[&str; 4]] = &[
    [")", "`)`", "", ""],
    ["}", "`}`", "", ""],
    ["]", "`]`", "", ""],
    [",", "`,`", "", ""],
    ["else", "`else`", "", ""],
    ["cilk_reducer", "`cilk_reducer`", "", ""],
    ["%", "an operator", "<", "`<`"],
    ["*=", "an assignment", "=", "`=`"],
    ["(", "`(`", "", ""],
    ["{", "`{`", "", ""],
    ["[", "`[`", "", ""],
    ["++", "`++`", "", ""],
    ["int", "`int`", "", ""],
    ["void", "`void`", "", ""],
    ["cilk_spawn", "`cilk_spawn`", "", ""],
];

// How many of them are listed beside a statement, an expression or a number too.
const ALWAYS: usize = 6;

/// The beginning of a text, after which tokens are tried, and what is listed of them.
struct Trial {
    alloc: Global,
    text: Vec<u8>,
    at: usize,
    listed: Vec<&'static str>,
}

// Written out, so that a proof follows one call where a trial is dropped.
impl Drop for Trial {
    fn drop(self) {
        let Trial {
            alloc: _alloc,
            text: _text,
            at: _at,
            listed: _listed,
        } = self;
    }
}

/// Adds the tokens, in words, that can follow the first `at` bytes of a text, whose tokens the parser
/// accepts, and returns whether a semicolon is among them. Nothing is added for a text that is too
/// long for a trial.
pub fn push_expected(
    alloc: Global,
    words: &mut String,
    text: &[u8],
    at: usize,
) -> Result<bool, AllocError> {
    match text.get(..at) {
        Some(front) if front.len() < MAX_TEXT - 32 => {
            let mut trial = Trial {
                alloc,
                text: front.to_vec(alloc)?,
                at,
                listed: Vec::new(alloc),
            };
            trial.push(words)
        }
        _ => Ok(false),
    }
}

impl Trial {
    // Adds the list in words, with commas and a final `or`.
    fn push(&mut self, words: &mut String) -> Result<bool, AllocError> {
        let semicolon = self.takes(";")?;
        self.list(semicolon)?;
        let count = self.listed.len();
        for place in 0..count {
            let mark = match place {
                0 => "",
                _ if place + 1 == count => " or ",
                _ => ", ",
            };
            words.push_str(mark)?;
            words.push_str(self.listed[place])?;
        }
        Ok(semicolon)
    }

    // Whether this token can follow the beginning.
    fn takes(&mut self, token: &str) -> Result<bool, AllocError> {
        self.text.truncate(self.at);
        self.text.push(b' ')?;
        self.text.extend_from_slice(token.as_bytes())?;
        match parse(self.alloc, self.text.as_slice()) {
            Err(TextFault::Memory) => Err(AllocError),
            Err(TextFault::At(SyntaxErrorKind::Unexpected, place)) => Ok(
                place > self.at.saturating_add(1),
            ),
            _ => Ok(true),
        }
    }

    // Lists the possible tokens: groups first, then single ones.
    fn list(&mut self, semicolon: bool) -> Result<(), AllocError> {
        let is_statement = self.takes("while")?;
        let has_name = self.takes("x")?;
        let has_number = self.takes("0")?;
        let group = match (has_name, has_number) {
            _ if is_statement => "a statement",
            (true, true) => "an expression",
            (true, false) => "a name",
            (false, true) => "a number",
            (false, false) => "",
        };
        if !group.is_empty() {
            self.listed.push(group)?;
        }
        if semicolon && !is_statement {
            self.listed.push("`;`")?;
        }
        let is_grouped = is_statement || has_number;
        let mut count: usize = 0;
        for row in TOKENS {
            if is_grouped && count >= ALWAYS {
                break;
            }
            count = count.saturating_add(1);
            let [token, words, other, others] = *row;
            if self.takes(token)? {
                self.listed.push(words)?;
            } else if !other.is_empty() && self.takes(other)? {
                self.listed.push(others)?;
            }
        }
        Ok(())
    }
}

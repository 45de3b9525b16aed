//! Places for a `cilk_sync` that separates a spawn from later code.

use crate::scene::Scene;
use cilk_messages::sentence::{Sentence, say};
use cilk_messages::sites::{closed_head, is_condition};
use cilk_messages::tokens::Tokens;
use cilk_syntax::token::Kind;

/// Where a sync separates a spawn from later code: in words, with a token.
type Parting = (&'static str, usize);

// Before a statement.
const AHEAD: &str = "put a `cilk_sync;` before {}";

// Before the body of a loop or a branch of an `if`, without braces.
const WITHIN: &str = "put a `cilk_sync;` before {}, in braces with the statement there";

// Before the brace that ends a loop's body.
const AT_END: &str = "put a `cilk_sync;` before {}, at the end of the loop's body";

// After a loop's body without braces.
const BEHIND: &str = "put a `cilk_sync;` after the statement at {}, in braces with it";

// Before a name in the middle of a declaration.
const BETWEEN: &str = "put a `cilk_sync;` before {}, where a declaration of its own has to begin";

/// Says in words where a `cilk_sync` separates the spawn at byte `spawn` from the later code at
/// byte `at`.
pub fn parted_at<'a>(
    scene: &Scene<'a>,
    tokens: &Tokens<'_>,
    spawn: usize,
    at: usize,
) -> Sentence<'a> {
    let (words, number) = parting_of(tokens, tokens.number_at(spawn), tokens.number_at(at));
    say(words).with(scene.place(tokens.place(number)))
}

// The place, by numbers of tokens.
fn parting_of(tokens: &Tokens<'_>, spawn: usize, access: usize) -> Parting {
    let first = statement_of(tokens, access);
    let is_spawn_in = first <= spawn && spawn < end_of(tokens, first);
    let (mut name, mut depth, mut parts): (usize, usize, usize) = (0, 0, 0);
    for earlier in first..access {
        match tokens.kind(earlier) {
            Some(Kind::Open | Kind::OpenBracket) => depth = depth.saturating_add(1),
            Some(Kind::Close | Kind::CloseBracket) => depth = depth.saturating_sub(1),
            Some(Kind::Comma) if depth == 0 => name = earlier.saturating_add(1),
            Some(Kind::Semicolon) => parts = parts.saturating_add(1),
            _ => {}
        }
    }
    match tokens.kind(first) {
        Some(Kind::While) if is_spawn_in => at_end(tokens, first),
        Some(Kind::For) if is_spawn_in && parts > 0 => at_end(tokens, first),
        Some(Kind::Int) if first <= spawn && spawn < name => (BETWEEN, name),
        _ => ahead(tokens, first, spawn),
    }
}

/// Returns the first token of the innermost statement around a token. The head of a loop or condition
/// belongs to that loop or condition; the body is a statement of its own.
pub fn statement_of(tokens: &Tokens<'_>, number: usize) -> usize {
    let mut first: usize = 0;
    let mut depth: usize = 0;
    let mut is_head = false;
    for earlier in 0..number {
        match tokens.kind(earlier) {
            Some(Kind::Open) => {
                if depth == 0 {
                    is_head = is_condition(tokens, earlier.checked_sub(1));
                }
                depth = depth.saturating_add(1);
            }
            Some(Kind::Close) => {
                depth = depth.saturating_sub(1);
                if depth == 0 && is_head {
                    first = earlier.saturating_add(1);
                }
            }
            Some(Kind::Semicolon | Kind::OpenBrace | Kind::CloseBrace) if depth == 0 => {
                first = earlier.saturating_add(1);
            }
            Some(Kind::Else) => first = earlier.saturating_add(1),
            _ => {}
        }
    }
    first
}

/// Returns the token after a statement that begins with token `first`.
pub fn end_of(tokens: &Tokens<'_>, first: usize) -> usize {
    let mut depth: usize = 0;
    for number in first..tokens.count() {
        let kind = tokens.kind(number);
        match kind {
            Some(Kind::Open | Kind::OpenBrace) => depth = depth.saturating_add(1),
            Some(Kind::Close | Kind::CloseBrace) => depth = depth.saturating_sub(1),
            _ => {}
        }
        let ends = matches!(kind, Some(Kind::Semicolon | Kind::CloseBrace));
        if depth == 0 && ends && !matches!(tokens.kind_behind(number), Some(Kind::Else)) {
            return number.saturating_add(1);
        }
    }
    tokens.count()
}

/// Returns the first token of the innermost `while` or `for` around a token.
pub fn loop_round(tokens: &Tokens<'_>, number: usize) -> Option<usize> {
    let mut found = None;
    for first in 0..number {
        if matches!(tokens.kind(first), Some(Kind::While | Kind::For))
            && number < end_of(tokens, first)
        {
            found = Some(first);
        }
    }
    found
}

// The end of the body of the loop that begins at a token.
fn at_end(tokens: &Tokens<'_>, first: usize) -> Parting {
    let body = behind_head(tokens, first);
    match tokens.kind(body) {
        Some(Kind::OpenBrace) => (AT_END, end_of(tokens, body).saturating_sub(1)),
        _ => (BEHIND, body),
    }
}

/// Returns the token after the head of a loop or condition.
pub fn behind_head(tokens: &Tokens<'_>, first: usize) -> usize {
    let mut depth: usize = 0;
    for number in first..tokens.count() {
        match tokens.kind(number) {
            Some(Kind::Open) => depth = depth.saturating_add(1),
            Some(Kind::Close) if depth == 1 => return number.saturating_add(1),
            Some(Kind::Close) => depth = depth.saturating_sub(1),
            _ => {}
        }
    }
    tokens.count()
}

// Before a statement. Where the statement is a body without braces and the spawn is outside of its
// loop or condition, before that one.
fn ahead(tokens: &Tokens<'_>, first: usize, spawn: usize) -> Parting {
    let mut start = first;
    for _level in 0..tokens.count() {
        match closed_head(tokens, start) {
            Some(outer) if spawn < outer || end_of(tokens, outer) <= spawn => start = outer,
            _ => break,
        }
    }
    match tokens.kind_back(start, 1) {
        Some(Kind::Close | Kind::Else) => (WITHIN, start),
        _ => (AHEAD, start),
    }
}

//! The surroundings of a token: parentheses, head, block or declaration.

use crate::around::is_among;
use crate::place::between;
use crate::tokens::Tokens;
use cilk_syntax::token::Kind;

/// Returns the parenthesis that is open at a token, in its own statement. For a closing
/// parenthesis, the one that it closes.
pub fn enclosing(tokens: &Tokens<'_>, number: usize) -> Option<usize> {
    let mut depth: usize = 0;
    for back in 1..number.saturating_add(1) {
        match tokens.kind_back(number, back) {
            Some(Kind::Close) => depth = depth.saturating_add(1),
            Some(Kind::Open) if depth == 0 => return number.checked_sub(back),
            Some(Kind::Open) => depth = depth.saturating_sub(1),
            Some(Kind::OpenBrace | Kind::CloseBrace) => return None,
            _ => {}
        }
    }
    None
}

/// Returns the token before the parentheses around a token.
pub fn head_of(tokens: &Tokens<'_>, number: usize) -> Option<usize> {
    match enclosing(tokens, number) {
        Some(open) => open.checked_sub(1),
        None => None,
    }
}

/// Returns the kind of the token before the parentheses around a token.
pub fn head_kind(tokens: &Tokens<'_>, number: usize) -> Option<Kind> {
    match head_of(tokens, number) {
        Some(named) => tokens.kind(named),
        None => None,
    }
}

/// Returns the token before the parentheses that end just before a token.
pub fn closed_head(tokens: &Tokens<'_>, number: usize) -> Option<usize> {
    match tokens.kind_back(number, 1) {
        Some(Kind::Close) => head_of(tokens, number.saturating_sub(1)),
        _ => None,
    }
}

/// Returns the token before the parentheses that end just before a token, or else around it; the
/// number past all tokens if there is none.
pub fn head_near(tokens: &Tokens<'_>, number: usize) -> usize {
    match closed_head(tokens, number).or(head_of(tokens, number)) {
        Some(named) => named,
        None => tokens.count(),
    }
}

/// Returns the first of these words from a token on, or the number past all tokens.
pub fn next_of(tokens: &Tokens<'_>, number: usize, words: &str) -> usize {
    for later in number..tokens.count() {
        if is_among(words, tokens.word(later)) {
            return later;
        }
    }
    tokens.count()
}

// The most tokens that are looked at for a mark.
const NEAR: usize = 200;

/// Returns the last of these words before a token, past all that is closed between them; the number
/// past all tokens if a mark that ends a statement, or none, comes soon.
pub fn mark_ahead(tokens: &Tokens<'_>, number: usize, marks: &str) -> usize {
    let mut depth: usize = 0;
    for back in 1..number.saturating_add(1).min(NEAR) {
        match tokens.kind_back(number, back) {
            Some(Kind::Semicolon | Kind::OpenBrace | Kind::CloseBrace) => break,
            Some(Kind::Close | Kind::CloseBracket) => depth = depth.saturating_add(1),
            Some(Kind::Open | Kind::OpenBracket) if depth > 0 => depth = depth.saturating_sub(1),
            _ if depth == 0 && is_among(marks, tokens.word_back(number, back)) => {
                return number - back;
            }
            _ => {}
        }
    }
    tokens.count()
}

/// Returns whether a token is outside of all function bodies.
pub fn is_global(tokens: &Tokens<'_>, number: usize) -> bool {
    let mut depth: usize = 0;
    for earlier in 0..number {
        match tokens.kind(earlier) {
            Some(Kind::OpenBrace) => depth = depth.saturating_add(1),
            Some(Kind::CloseBrace) => depth = depth.saturating_sub(1),
            _ => {}
        }
    }
    depth == 0
}

/// Returns whether a statement or an item could begin with a token.
pub fn begins(tokens: &Tokens<'_>, number: usize) -> bool {
    matches!(
        tokens.kind_back(number, 1),
        None | Some(Kind::Semicolon | Kind::OpenBrace | Kind::CloseBrace | Kind::Else)
    ) || is_condition(tokens, closed_head(tokens, number))
}

/// Returns whether a token is the word before a condition or a loop's head.
pub fn is_condition(tokens: &Tokens<'_>, named: Option<usize>) -> bool {
    match named {
        Some(named) => matches!(
            tokens.kind(named),
            Some(Kind::If | Kind::While | Kind::For | Kind::CilkFor)
        ),
        None => false,
    }
}

/// Returns the first closing parenthesis from a token on, or the token itself if none is near.
pub fn closing(tokens: &Tokens<'_>, number: usize) -> usize {
    for later in number..number.saturating_add(NEAR) {
        if let Some(Kind::Close) = tokens.kind(later) {
            return later;
        }
    }
    number
}

/// Returns whether an operator follows the parentheses of a call.
pub fn is_in_sum(tokens: &Tokens<'_>, number: usize) -> bool {
    let mut depth: usize = 0;
    for later in number..number.saturating_add(NEAR) {
        match tokens.kind(later) {
            Some(Kind::Open) => depth = depth.saturating_add(1),
            Some(Kind::Close) if depth > 1 => depth = depth.saturating_sub(1),
            Some(Kind::Close) => {
                let behind = tokens.word(later.saturating_add(1));
                return is_among("+ - * / % < > <= >= == != && ||", behind);
            }
            None => return false,
            _ => {}
        }
    }
    false
}

/// Returns whether a reducer of the type that is declared at a token is declared too.
pub fn is_viewed(tokens: &Tokens<'_>, number: usize) -> bool {
    for later in 1..tokens.count() {
        if matches!(tokens.kind(later), Some(Kind::CilkReducer))
            && declares_type(tokens, number, tokens.word_back(later, 1))
        {
            return true;
        }
    }
    false
}

// Whether the type declared at a token has this name, before its members or after them.
fn declares_type(tokens: &Tokens<'_>, number: usize, name: &[u8]) -> bool {
    let mut depth: usize = 0;
    for later in number..tokens.count() {
        match tokens.kind(later) {
            Some(Kind::OpenBrace) => depth = depth.saturating_add(1),
            Some(Kind::CloseBrace) => depth = depth.saturating_sub(1),
            Some(Kind::Semicolon) if depth == 0 => return false,
            Some(Kind::Name) if depth == 0 && tokens.word(later) == name => return true,
            _ => {}
        }
    }
    false
}

/// Returns whether the token before is on an earlier line.
pub fn begins_line(tokens: &Tokens<'_>, number: usize) -> bool {
    let ahead = tokens.place(number.saturating_sub(1));
    between(tokens.text, ahead, tokens.place(number)).contains(&b'\n')
}

//! Functions that a reducer names: they go away, since it has a monoid in their place.

use crate::rules::fits;
use crate::site::Site;
use crate::sites::closing;
use crate::tokens::Tokens;
use cilk_syntax::token::Kind;

/// Returns the last token of the function whose name is at a token, if a reducer of the text names it.
pub fn end_of_gone(tokens: &Tokens<'_>, number: usize) -> Option<usize> {
    if !fits(&Site::new(tokens, number), "+1 (") {
        return None;
    }
    let brace = closing(tokens, number).saturating_add(1);
    if !fits(&Site::new(tokens, brace), "0 {") || !is_named(tokens, tokens.word(number)) {
        return None;
    }
    let mut depth: usize = 0;
    for later in brace..tokens.count() {
        match tokens.kind(later) {
            Some(Kind::OpenBrace) => depth = depth.saturating_add(1),
            Some(Kind::CloseBrace) if depth == 1 => return Some(later),
            Some(Kind::CloseBrace) => depth = depth.saturating_sub(1),
            _ => {}
        }
    }
    None
}

// Whether a reducer of the text names a function: `cilk_reducer(identity, reduce)`.
fn is_named(tokens: &Tokens<'_>, name: &[u8]) -> bool {
    for number in 0..tokens.count() {
        let comma = number.saturating_add(3);
        if matches!(tokens.kind(number), Some(Kind::CilkReducer))
            && matches!(tokens.kind(comma), Some(Kind::Comma))
            && (tokens.word_back(comma, 1) == name
                || tokens.word(comma.saturating_add(1)) == name)
        {
            return true;
        }
    }
    false
}

//! Marks that may be missing before a refused token.

use crate::place::locate;
use crate::report::Wanted;
use crate::rules::{fits, said};
use crate::sentence::{Part, Sentence, say};
use crate::site::Site;
use crate::tokens::Tokens;
use cilk_syntax::token::Kind;

/// Returns a closing mark that may be missing before a token: the grammar allows it there, and the
/// rest could follow it.
pub fn missing_mark<'a>(site: &Site<'_, 'a>, wanted: &Wanted<'_>) -> Option<Sentence<'a>> {
    let Site { tokens, number, .. } = *site;
    let mark = mark_before(site, wanted);
    if mark.is_empty() {
        return None;
    }
    let (words, place) = if fits(site, "line") || tokens.kind(number).is_none() {
        let ahead = tokens.place(number.saturating_sub(1));
        (
            "a `{}` may be missing at the end of line {}",
            Part::Count(locate(tokens.text, ahead).line),
        )
    } else {
        (
            "a `{}` may be missing before `{}`",
            Part::Word(tokens.word(number)),
        )
    };
    Some(say(words).text(mark).with(place))
}

// That mark, or none. What could follow a closing bracket is the end of the part around it, or an
// assignment if no bracket closes later.
fn mark_before(site: &Site<'_, '_>, wanted: &Wanted<'_>) -> &'static str {
    let follows = said(site, FOLLOWS).is_some();
    if wanted.semicolon && follows && said(site, ENDS).is_some() {
        ";"
    } else if wanted.words.contains("`]`")
        && (fits(site, "0 ) ; { | brackets")
            || (fits(site, "0 = += -= *= | brackets")
                && !is_closed_later(site.tokens, site.number)))
    {
        "]"
    } else if wanted.words.contains("`)`") && (follows || fits(site, "0 ; {")) {
        ")"
    } else {
        ""
    }
}

// What could be the last token of a statement before its semicolon. Parentheses are those of a
// function that the text has, and of no condition.
const ENDS: &str = "\
-1 @ # ] ++ -- cilk_sync return => yes
-1 ) | of ^ @ if while for cilk_for => yes
-1 ) | of @ | of ^ @nothing => yes";

// What could begin a statement, or end a block. A name or a spawn must be on a new line.
const FOLLOWS: &str = "\
0 ^ ? => yes
0 } int if else while for return cilk_sync cilk_for print update set => yes
0 @ ++ -- { cilk_spawn void | line => yes";

// Whether a bracket that is open at a token closes in its statement.
fn is_closed_later(tokens: &Tokens<'_>, number: usize) -> bool {
    let mut depth: usize = 0;
    for later in number..tokens.count() {
        match tokens.kind(later) {
            Some(Kind::OpenBracket) => depth = depth.saturating_add(1),
            Some(Kind::CloseBracket) if depth == 0 => return true,
            Some(Kind::CloseBracket) => depth = depth.saturating_sub(1),
            Some(Kind::Semicolon | Kind::OpenBrace | Kind::CloseBrace) => return false,
            _ => {}
        }
    }
    false
}

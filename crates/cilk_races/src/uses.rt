//! How a statement of a text uses a variable or element: it adds to it, keeps a number in it, sets
//! it as a flag, or swaps it with another one.

use cilk_findings::partings::{behind_head, end_of, statement_of};
use cilk_messages::around::is_among;
use cilk_messages::place::between;
use cilk_messages::sites::head_of;
use cilk_messages::tokens::Tokens;
use cilk_syntax::token::Kind;

/// How a reducer takes what a statement makes of a variable: its monoid, the name of the words that say
/// so, the text of a number and a form with a gap for it, and the part of a condition that goes away, or
/// the variable again.
#[derive(Clone, Copy)]
pub struct Taken<'a> {
    pub monoid: &'static str,
    pub words: &'static str,
    pub form: &'static str,
    pub amount: &'a [u8],
    pub again: &'a [u8],
}

/// What no reducer takes.
pub const NOTHING: Taken<'static> = Taken {
    monoid: "",
    words: "",
    form: "{}",
    amount: &[],
    again: &[],
};

/// Returns whether a token is one of these words, which blanks separate.
pub fn is_at(tokens: &Tokens<'_>, number: usize, words: &str) -> bool {
    is_among(words, tokens.word(number))
}

/// Returns the text from a token up to, but without, another one.
pub fn text_of<'a>(tokens: &Tokens<'a>, from: usize, upto: usize) -> &'a [u8] {
    let last = upto.saturating_sub(1);
    let end = tokens.place(last).saturating_add(tokens.word(last).len());
    between(tokens.text, tokens.place(from), end)
}

/// Returns the first semicolon from a token on.
pub fn semicolon_at(tokens: &Tokens<'_>, first: usize) -> usize {
    for number in first..tokens.count() {
        if let Some(Kind::Semicolon) = tokens.kind(number) {
            return number;
        }
    }
    tokens.count()
}

/// Returns whether a name stands from a token up to, but without, another one.
pub fn has_name(tokens: &Tokens<'_>, from: usize, upto: usize, name: &[u8]) -> bool {
    for number in from..upto {
        if tokens.word(number) == name {
            return true;
        }
    }
    false
}

/// Returns the token after a variable or element that begins at a token.
pub fn behind_place(tokens: &Tokens<'_>, named: usize) -> usize {
    let mut depth: usize = 0;
    for number in named.saturating_add(1)..tokens.count() {
        match tokens.kind(number) {
            Some(Kind::OpenBracket) => depth = depth.saturating_add(1),
            Some(Kind::CloseBracket) if depth > 0 => depth = depth.saturating_sub(1),
            _ if depth == 0 => return number,
            _ => {}
        }
    }
    tokens.count()
}

/// Returns what the statement at a token adds to the variable, or to an element of the array, with
/// this name: a form with a gap for a number, and the number's text.
pub fn adds<'a>(
    tokens: &Tokens<'a>,
    first: usize,
    name: &[u8],
) -> Option<(&'static str, &'a [u8])> {
    let is_ahead = is_at(tokens, first, "++ --");
    let named = if is_ahead {
        first.saturating_add(1)
    } else {
        first
    };
    if tokens.word(named) != name {
        return None;
    }
    let behind = behind_place(tokens, named);
    let rest = behind.saturating_add(1);
    let end = semicolon_at(tokens, rest);
    let (mark, again, close) = joined(tokens, named, rest);
    let (form, from, upto) = match tokens.kind(if is_ahead { first } else { behind }) {
        Some(Kind::Increment) => ("1", rest, rest),
        Some(Kind::Decrement) => ("-1", rest, rest),
        Some(Kind::PlusAssign) => ("{}", rest, end),
        Some(Kind::MinusAssign) => ("-({})", rest, end),
        Some(Kind::Assign) if matches!(mark, Some(Kind::Plus)) => ("{}", again, close),
        _ => return None,
    };
    if has_name(tokens, from, upto, name) {
        return None;
    }
    Some((form, text_of(tokens, from, upto)))
}

// The operator, and the tokens that it joins with the place, of `PLACE = PLACE OPERATOR ..` or of
// `PLACE = .. OPERATOR PLACE`; no operator for others. The right side begins at a token.
fn joined(tokens: &Tokens<'_>, named: usize, right: usize) -> (Option<Kind>, usize, usize) {
    let place = text_of(tokens, named, right.saturating_sub(1));
    let again = behind_place(tokens, right);
    let upto = semicolon_at(tokens, right);
    let last = upto.saturating_sub(2);
    if text_of(tokens, right, again) == place {
        return (tokens.kind(again), again.saturating_add(1), upto);
    }
    if tokens.word(upto.saturating_sub(1)) == place {
        return (tokens.kind(last), right, last);
    }
    (None, right, right)
}

/// Returns whether the statement at a token multiplies a variable.
pub fn multiplies(tokens: &Tokens<'_>, first: usize, name: &[u8]) -> bool {
    let mark = match tokens.kind_behind(first) {
        Some(Kind::Assign) => joined(tokens, first, first.saturating_add(2)).0,
        mark => mark,
    };
    matches!(mark, Some(Kind::Star | Kind::StarAssign)) && tokens.word(first) == name
}

/// Returns how a reducer takes what the statement at a token makes of a variable. The statement may
/// be the `if` around an assignment.
pub fn takes<'a>(tokens: &Tokens<'a>, first: usize, name: &'a [u8]) -> Option<Taken<'a>> {
    let taken = Taken {
        monoid: "add",
        words: "UPDATED",
        again: name,
        ..NOTHING
    };
    if let Some((form, amount)) = adds(tokens, first, name) {
        return Some(Taken {
            form,
            amount,
            ..taken
        });
    }
    let start = assignment_of(tokens, first, name)?;
    let right = start.saturating_add(2);
    let end = semicolon_at(tokens, right);
    let (mark, from, upto) = joined(tokens, start, right);
    if mark.is_some() {
        let monoid = match mark {
            Some(Kind::And) => "min",
            Some(Kind::Or) => "max",
            _ => return None,
        };
        let (form, amount) = (truth(tokens, from, upto), text_of(tokens, from, upto));
        return Some(Taken {
            monoid,
            words: "FLAG",
            form,
            amount,
            ..taken
        });
    }
    match called(tokens, right, end, name) {
        Some((monoid, amount)) => Some(Taken {
            monoid,
            words: "MOST",
            amount,
            ..taken
        }),
        None => set_to(tokens, start, right, end, taken),
    }
}

// The same for an assignment at a token, whose right side doesn't have the variable.
fn set_to<'a>(
    tokens: &Tokens<'a>,
    start: usize,
    right: usize,
    end: usize,
    taken: Taken<'a>,
) -> Option<Taken<'a>> {
    let name = taken.again;
    if has_name(tokens, right, end, name) {
        return None;
    }
    let amount = text_of(tokens, right, end);
    let monoid = set_by(tokens, right);
    let set = Taken {
        monoid,
        words: "FLAG",
        amount,
        ..taken
    };
    let is_flag = is_constant(tokens, right, end);
    match asked_at(tokens, start, name) {
        Some(asked) if has_name(tokens, asked, start, b"else") => None,
        Some(asked) => compared(tokens, asked, right, end, set),
        None if is_flag => Some(set),
        None => Some(Taken {
            monoid: "max",
            words: "LAST",
            ..set
        }),
    }
}

// The name in an assignment to it: the statement at a token, or the first one in that `if`.
fn assignment_of(tokens: &Tokens<'_>, first: usize, name: &[u8]) -> Option<usize> {
    let upto = if is_at(tokens, first, "if") {
        end_of(tokens, first)
    } else {
        first.saturating_add(1)
    };
    for number in first..upto {
        if tokens.word(number) == name && is_at(tokens, number.saturating_add(1), "=") {
            return Some(number);
        }
    }
    None
}

// The form of a number that is used as true or false, as 0 or 1.
fn truth(tokens: &Tokens<'_>, from: usize, upto: usize) -> &'static str {
    for number in from..upto {
        if is_among("! < > <= >= == !=", tokens.word(number)) {
            return "{}";
        }
    }
    "!!({})"
}

// The other argument of a call of a function for the greater or lesser of two numbers, after its monoid.
fn called<'a>(
    tokens: &Tokens<'a>,
    from: usize,
    upto: usize,
    name: &[u8],
) -> Option<(&'static str, &'a [u8])> {
    let word = tokens.word(from);
    let monoid = if has_part(word, b"max") { "max" } else { "min" };
    let first = from.saturating_add(2);
    let close = upto.saturating_sub(1);
    let last = close.saturating_sub(1);
    if !has_part(word, monoid.as_bytes()) {
        None
    } else if tokens.word(first) == name {
        Some((monoid, text_of(tokens, first.saturating_add(2), close)))
    } else if tokens.word(last) == name {
        Some((monoid, text_of(tokens, first, last.saturating_sub(1))))
    } else {
        None
    }
}

/// Returns whether a word or a text has a part.
pub fn has_part(word: &[u8], part: &[u8]) -> bool {
    for at in 0..word.len() {
        if between(word, at, at.saturating_add(part.len())) == part {
            return true;
        }
    }
    false
}

// The name in the condition of the nearest `if` around an assignment to it that asks for it.
fn asked_at(tokens: &Tokens<'_>, start: usize, name: &[u8]) -> Option<usize> {
    let mut found = None;
    for head in 0..start {
        if is_at(tokens, head, "if") && start < end_of(tokens, head) {
            for number in head..behind_head(tokens, head) {
                if tokens.word(number) == name {
                    found = Some(number);
                }
            }
        }
    }
    found
}

// What an `if` keeps that compares a variable at a token and sets it to a number: the greatest or
// least where it is that number, otherwise the first.
fn compared<'a>(
    tokens: &Tokens<'a>,
    asked: usize,
    right: usize,
    end: usize,
    set: Taken<'a>,
) -> Option<Taken<'a>> {
    let ahead = tokens.word_back(asked, 1);
    let behind = tokens.word(asked.saturating_add(1));
    let is_equal = is_among("==", behind) || is_among("! ==", ahead);
    let (from, upto) = if is_among("< <= > >= ==", behind) {
        part_at(tokens, asked.saturating_add(2), false)
    } else {
        part_at(tokens, asked.saturating_sub(1), true)
    };
    let is_same = are_same(tokens, (from, upto), (right, end));
    if is_same || !is_equal && !is_constant(tokens, from, upto) {
        let monoid = monoid_of(ahead, behind)?;
        return Some(Taken {
            monoid,
            words: "COMPARED",
            ..set
        });
    }
    if is_constant(tokens, right, end) {
        return Some(Taken {
            words: "ONCE_FLAG",
            ..set
        });
    }
    let again = text_of(tokens, from.min(asked), upto.max(asked.saturating_add(1)));
    Some(Taken {
        monoid: "min",
        words: "ONCE",
        again,
        ..set
    })
}

// The monoid of a constant that a statement sets: of the least where it is false, otherwise of the greatest.
fn set_by(tokens: &Tokens<'_>, number: usize) -> &'static str {
    match tokens.kind(number) {
        Some(Kind::Number(0) | Kind::Minus) => "min",
        _ => "max",
    }
}

fn is_constant(tokens: &Tokens<'_>, from: usize, upto: usize) -> bool {
    let from = match tokens.kind(from) {
        Some(Kind::Minus) => from.saturating_add(1),
        _ => from,
    };
    matches!(tokens.kind(from), Some(Kind::Number(_))) && from.saturating_add(1) == upto
}

// Whether two ranges have the same words.
fn are_same(tokens: &Tokens<'_>, one: (usize, usize), other: (usize, usize)) -> bool {
    let (length, count) = (one.1.saturating_sub(one.0), other.1.saturating_sub(other.0));
    for at in 0..length {
        let word = tokens.word(one.0.saturating_add(at));
        if word != tokens.word(other.0.saturating_add(at)) {
            return false;
        }
    }
    length == count
}

// The part of a condition before a token, or from it on: to an end of the condition, `&&` or `||`.
fn part_at(tokens: &Tokens<'_>, at: usize, is_ahead: bool) -> (usize, usize) {
    let (ends, opens, closes) = if is_ahead {
        ("( && ||", ") ]", "( [")
    } else {
        (") && ||", "( [", ") ]")
    };
    let mut depth: usize = 0;
    let (mut from, mut upto) = (at, at);
    for _token in 0..tokens.count() {
        let word = tokens.word(if is_ahead {
            from.saturating_sub(1)
        } else {
            upto
        });
        if depth == 0 && is_among(ends, word) {
            break;
        }
        if is_among(opens, word) {
            depth = depth.saturating_add(1);
        } else if is_among(closes, word) {
            depth = depth.saturating_sub(1);
        }
        if is_ahead {
            from = from.saturating_sub(1);
        } else {
            upto = upto.saturating_add(1);
        }
    }
    (from, upto)
}

/// Returns the two writes of the swap of two elements of an array that a statement belongs to:
/// `t = a[i];`, `a[i] = a[j];` and `a[j] = t;`.
pub fn swap_of(tokens: &Tokens<'_>, statement: usize, name: &[u8]) -> Option<(usize, usize)> {
    for one in 0..tokens.count() {
        let mark = behind_place(tokens, one);
        let right = mark.saturating_add(1);
        let end = behind_place(tokens, right);
        let other = end.saturating_add(1);
        let set = behind_place(tokens, other);
        let is_swap = tokens.word(one) == name
            && tokens.word(right) == name
            && is_at(tokens, mark, "=")
            && is_at(tokens, end, ";")
            && is_at(tokens, set, "=")
            && text_of(tokens, right, end) == text_of(tokens, other, set);
        if is_swap {
            let kept = statement_of(tokens, one.saturating_sub(1));
            if statement == kept || statement == one || statement == other {
                return Some((one, other));
            }
        }
    }
    None
}

// The monoid that keeps the same number as a comparison, by the marks before and after what is
// compared.
fn monoid_of(ahead: &[u8], behind: &[u8]) -> Option<&'static str> {
    if is_among("> >=", ahead) {
        Some("max")
    } else if is_among("< <=", ahead) {
        Some("min")
    } else if is_among("< <=", behind) {
        Some("max")
    } else if is_among("> >=", behind) {
        Some("min")
    } else {
        None
    }
}

/// Returns what an `if` keeps in a reducer: it compares the value of the reducer at a token, and
/// then sets the reducer or updates it.
pub fn kept_by<'a>(tokens: &Tokens<'a>, reducer: usize) -> Option<Taken<'a>> {
    let ahead = tokens.word_back(reducer, 3);
    let monoid = monoid_of(ahead, tokens.word(reducer.saturating_add(2)))?;
    let body = behind_head(tokens, condition_of(tokens, reducer)?);
    let first = if is_at(tokens, body, "{") {
        body.saturating_add(1)
    } else {
        body
    };
    let named = first.saturating_add(2);
    let is_kept = is_at(tokens, first, "set update") && tokens.word(named) == tokens.word(reducer);
    let number = named.saturating_add(2);
    let close = semicolon_at(tokens, number).saturating_sub(1);
    let amount = text_of(tokens, number, close);
    if is_kept {
        Some(Taken {
            monoid,
            amount,
            ..NOTHING
        })
    } else {
        None
    }
}

// The `if` whose condition a token is in.
fn condition_of(tokens: &Tokens<'_>, number: usize) -> Option<usize> {
    let mut at = number;
    for _level in 0..number {
        at = head_of(tokens, at)?;
        if is_at(tokens, at, "if") {
            return Some(at);
        }
    }
    None
}

/// Returns the array that is written at an index that has this name, where the name is a counter; an
/// empty name where none is.
pub fn filled<'a>(tokens: &Tokens<'a>, name: &[u8]) -> &'a [u8] {
    let mut array: &[u8] = &[];
    let mut is_counted = false;
    for number in 0..tokens.count() {
        let behind = behind_place(tokens, number);
        let next = number.saturating_add(1);
        if is_at(tokens, next, "[")
            && is_at(tokens, behind, "=")
            && has_name(tokens, next, behind, name)
        {
            array = tokens.word(number);
        }
        is_counted = is_counted || adds(tokens, number, name).is_some();
    }
    if is_counted { array } else { &[] }
}

//! Statements that do by arithmetic what a branch does, so that a number need not decide.

use crate::named::{are_inside, is_of_one_statement, is_sum};
use cilk_messages::around::{byte_at, is_word, word_after, word_at};
use cilk_messages::place::between;

/// A branch whose only statement is an assignment, a count or an update.
#[derive(Clone, Copy)]
pub struct Branch<'a> {
    pub condition: &'a [u8],
    pub target: &'a [u8],
    pub change: Change<'a>,
    // Where the branch begins, and where its statement ends.
    at: usize,
    end: usize,
}

/// What the statement does to its target.
#[derive(Clone, Copy)]
pub enum Change<'a> {
    /// `target = value`
    Becomes(&'a [u8]),
    /// `target += value`
    Grows(&'a [u8]),
    /// `target -= value`
    Shrinks(&'a [u8]),
    /// `target++`
    Counts,
    /// `target--`
    CountsDown,
    /// `update(target, value)` of an `add` reducer
    Adds(&'a [u8]),
}

impl<'a> Change<'a> {
    // What is assigned, added or taken away.
    fn value(self) -> &'a [u8] {
        match self {
            Change::Becomes(value)
            | Change::Grows(value)
            | Change::Shrinks(value)
            | Change::Adds(value) => value,
            Change::Counts | Change::CountsDown => &[],
        }
    }
}

/// Returns the branch at this byte of the text, if it is such an `if`, without an `else`, its condition is
/// one comparison, and its statement has no divisor, and no element but those that the condition reads and
/// those at numbers inside their arrays: so it can't fault where the condition doesn't hold, either.
pub fn branch_at(text: &[u8], at: usize) -> Option<Branch<'_>> {
    if word_at(text, at) != b"if".as_slice() {
        return None;
    }
    let open = token_after(text, at.saturating_add(2));
    let close = closing(text, open)?;
    let condition = between(text, open.saturating_add(1), close).trim_ascii();
    if !is_comparison(condition) || has_comment(condition) {
        return None;
    }
    let body = token_after(text, close.saturating_add(1));
    let is_block = byte_at(text, body) == b'{';
    let first = if is_block {
        token_after(text, body.saturating_add(1))
    } else {
        body
    };
    let end = place_of(text, first, b";")?;
    let mut next = token_after(text, end.saturating_add(1));
    if is_block {
        if byte_at(text, next) != b'}' {
            return None;
        }
        next = token_after(text, next.saturating_add(1));
    }
    if word_at(text, next) == b"else".as_slice() {
        return None;
    }
    let statement = between(text, first, end);
    let (target, change) = change_of(statement)?;
    let sides = sides_of(condition)?;
    if !may_be_read(text, target, sides) || !may_be_read(text, change.value(), sides) {
        return None;
    }
    if matches!(change, Change::Adds(_)) && !is_sum(text, target) {
        return None;
    }
    Some(Branch {
        condition,
        target,
        change,
        at,
        end,
    })
}

// Whether what is read or written is a side of the comparison, or its elements are inside their arrays.
fn may_be_read(text: &[u8], piece: &[u8], sides: (&[u8], &[u8])) -> bool {
    piece == sides.0 || piece == sides.1 || are_inside(text, piece)
}

// Where the first word from a byte on begins that isn't in a comment, or the end of the text.
fn token_after(text: &[u8], at: usize) -> usize {
    let mut place = word_after(text, at);
    for _comment in 0..text.len() {
        match comment_at(text, place) {
            Some(end) => place = word_after(text, end),
            None => break,
        }
    }
    place
}

// Where the comment ends that begins at a byte, if one does.
fn comment_at(text: &[u8], at: usize) -> Option<usize> {
    let after = at.saturating_add(2);
    let mark = between(text, at, after);
    if mark == b"//".as_slice() {
        return Some(place_of(text, after, b"\n").unwrap_or(text.len()));
    }
    if mark != b"/*".as_slice() {
        return None;
    }
    for place in after..text.len() {
        if between(text, place, place + 2) == b"*/".as_slice() {
            return Some(place + 2);
        }
    }
    Some(text.len())
}

// Whether a comment begins in a text.
fn has_comment(text: &[u8]) -> bool {
    for place in 0..text.len() {
        if comment_at(text, place).is_some() {
            return true;
        }
    }
    false
}

// The parenthesis that closes the one at a byte.
fn closing(text: &[u8], open: usize) -> Option<usize> {
    if byte_at(text, open) != b'(' {
        return None;
    }
    let mut depth: usize = 0;
    for place in open..text.len() {
        match text[place] {
            b'(' => depth = depth.saturating_add(1),
            b')' => {
                depth = depth.saturating_sub(1);
                if depth == 0 {
                    return Some(place);
                }
            }
            _ => {}
        }
    }
    None
}

// The first of these marks from a byte on.
fn place_of(text: &[u8], from: usize, marks: &[u8]) -> Option<usize> {
    for place in from..text.len() {
        if marks.contains(&text[place]) {
            return Some(place);
        }
    }
    None
}

// Whether a condition is one comparison, without parentheses, `&&` and `||`.
fn is_comparison(condition: &[u8]) -> bool {
    if place_of(condition, 0, b"()&|!").is_some() && !differs(condition) {
        return false;
    }
    let Some(first) = place_of(condition, 0, b"<>=!") else {
        return false;
    };
    let behind = if byte_at(condition, first.saturating_add(1)) == b'=' {
        first.saturating_add(2)
    } else {
        first.saturating_add(1)
    };
    place_of(condition, behind, b"<>=!").is_none()
}

// Whether the only mark of a condition among these is a `!=`.
fn differs(condition: &[u8]) -> bool {
    match place_of(condition, 0, b"()&|!") {
        Some(mark) => {
            between(condition, mark, mark.saturating_add(2)) == b"!=".as_slice()
                && place_of(condition, mark.saturating_add(1), b"()&|!").is_none()
        }
        None => true,
    }
}

// The target of a statement and what it does to it.
fn change_of(statement: &[u8]) -> Option<(&[u8], Change<'_>)> {
    if word_at(statement, 0) == b"update".as_slice() {
        return update_of(statement);
    }
    if let Some(target) = statement.strip_suffix(b"++".as_slice()) {
        return is_target(target).then_some((target, Change::Counts));
    }
    if let Some(target) = statement.strip_suffix(b"--".as_slice()) {
        return is_target(target).then_some((target, Change::CountsDown));
    }
    let mark = place_of(statement, 0, b"=")?;
    let value = between(statement, mark.saturating_add(1), statement.len()).trim_ascii();
    if place_of(value, 0, BARRED).is_some() {
        return None;
    }
    let ahead = between(statement, 0, mark);
    let (target, change) = if let Some(target) = ahead.strip_suffix(b"+".as_slice()) {
        (target.trim_ascii(), Change::Grows(value))
    } else if let Some(target) = ahead.strip_suffix(b"-".as_slice()) {
        (target.trim_ascii(), Change::Shrinks(value))
    } else {
        (ahead.trim_ascii(), Change::Becomes(value))
    };
    is_target(target).then_some((target, change))
}

// What stands in no value of such a statement: calls, comparisons, divisors.
const BARRED: &[u8] = b"()=<>!&|/%";

// The reducer that an `update` is of, and what it adds.
fn update_of(statement: &[u8]) -> Option<(&[u8], Change<'_>)> {
    let open = token_after(statement, 6);
    let comma = place_of(statement, 0, b",")?;
    let target = between(statement, open.saturating_add(1), comma).trim_ascii();
    let rest = between(statement, comma.saturating_add(1), statement.len()).trim_ascii();
    let value = rest.strip_suffix(b")".as_slice())?.trim_ascii();
    if place_of(value, 0, BARRED).is_some() || place_of(target, 0, b"[").is_some() {
        return None;
    }
    is_target(target).then_some((target, Change::Adds(value)))
}

// Whether a text is a variable or an element.
fn is_target(text: &[u8]) -> bool {
    let first = byte_at(text, 0);
    if !is_word(first) || first.is_ascii_digit() {
        return false;
    }
    match place_of(text, 0, b" \t\r\n()-*/%<>=") {
        Some(_) => false,
        None => true,
    }
}

// The sides of a comparison.
fn sides_of(condition: &[u8]) -> Option<(&[u8], &[u8])> {
    let mark = place_of(condition, 0, b"<>=!")?;
    let after = mark.saturating_add(1);
    let begins = if byte_at(condition, after) == b'=' {
        after.saturating_add(1)
    } else {
        after
    };
    let left = between(condition, 0, mark).trim_ascii();
    let right = between(condition, begins, condition.len()).trim_ascii();
    Some((left, right))
}

/// Returns the kind of reducer that keeps what the branch keeps, if that is the greater or the smaller of
/// two values, and a reducer could take the variable's place: the condition compares what the branch assigns
/// with its target, which the text writes nowhere else.
pub fn kept_by(text: &[u8], branch: &Branch<'_>) -> Option<&'static str> {
    let Change::Becomes(value) = branch.change else {
        return None;
    };
    let mark = place_of(branch.condition, 0, b"<>")?;
    let (left, right) = sides_of(branch.condition)?;
    if !is_of_one_statement(text, branch.target, branch.at, branch.end) {
        return None;
    }
    let is_greater = byte_at(branch.condition, mark) == b'>';
    if left == value && right == branch.target {
        Some(if is_greater { "max" } else { "min" })
    } else if left == branch.target && right == value {
        Some(if is_greater { "min" } else { "max" })
    } else {
        None
    }
}

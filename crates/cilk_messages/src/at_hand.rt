//! The reason for a refusal, with the name or token at the place.

use crate::around::word_at;
use crate::place::{Location, locate};
use crate::rules::said;
use crate::sentence::{Sentence, say};
use crate::site::Site;
use crate::sites::enclosing;
use crate::tokens::{Declared, Tokens};

/// Describes the token at the place of a fault, and what was expected there: nothing if the number
/// says it all. `wanted` describes what the grammar expects there.
pub fn at_hand<'a>(
    tokens: &Tokens<'a>,
    number: u16,
    at: usize,
    wanted: &'a str,
) -> Option<Sentence<'a>> {
    let token = tokens.number_at(at);
    let name = match number {
        102 | 105 | 121 => word_at(tokens.text, at),
        _ => tokens.word(token),
    };
    let words = match number {
        102 | 105 | 121 => "found `{}`",
        103 => return Some(unexpected(name, wanted)),
        111 => "nothing declares `{}` here",
        112 => return Some(declared_twice(tokens, token, name)),
        113 => return Some(miscounted(tokens, token, name)),
        114 => return Some(mistaken(tokens, token, name)),
        115 => said(&Site::new(tokens, token), NO_MAIN)?,
        117 => "`{}` counts the turns of a `cilk_for`, and is written here",
        118 => "`{}` is declared after another statement, or in an inner block",
        119 => "the declaration of `{}` goes past a limit",
        _ => return None,
    };
    Some(say(words).word(name))
}

fn unexpected<'a>(name: &'a [u8], wanted: &'a str) -> Sentence<'a> {
    let words = match (name.is_empty(), wanted.is_empty()) {
        (true, true) => "found the text's end{}",
        (true, false) => "found the text's end{}, wanted {}",
        (false, true) => "found `{}`",
        (false, false) => "found `{}`, wanted {}",
    };
    say(words).word(name).text(wanted)
}

// The place of the name's other declaration.
fn declared_twice<'a>(tokens: &Tokens<'a>, token: usize, name: &'a [u8]) -> Sentence<'a> {
    match tokens.declaration_of(token) {
        Some((earlier, _)) => {
            let Location { line, column } = locate(tokens.text, tokens.place(earlier));
            say("`{}` is declared at line {}, column {} already")
                .word(name)
                .count(line)
                .count(column)
        }
        None => say("`{}` is declared already").word(name),
    }
}

// How many parameters a function has, and how many arguments it is given.
fn miscounted<'a>(tokens: &Tokens<'a>, token: usize, name: &'a [u8]) -> Sentence<'a> {
    let given = tokens.parts_behind(token);
    match tokens.declaration_of(token) {
        Some((_, Declared::Function { parameters, .. })) => say(
            "`{}` wants {} argument{}, and is given {}",
        ).word(name)
            .counted(parameters)
            .count(given),
        _ => say("`{}` is given {} argument{}").word(name).counted(given),
    }
}

// The kind of the name, and its wrong use; or the variable that stands in its place in the head of a
// `cilk_for`.
fn mistaken<'a>(tokens: &Tokens<'a>, token: usize, name: &'a [u8]) -> Sentence<'a> {
    let words = said(&Site::new(tokens, token), MISUSED).unwrap_or("`{}`");
    let variable = match enclosing(tokens, token) {
        Some(open) => tokens.word(open.saturating_add(2)),
        None => &[],
    };
    say(words).word(name).word(variable)
}

// The mistakes in the use of a name.
const MISUSED: &str = "\
0 return | +1 ; => an `int` function returns a number
0 return => a `void` function returns no number
in cilk_for => found `{}`, where `{}`, this `cilk_for`'s variable, is wanted
0 @nothing => `{}` is no reducer, which the parameter is
0 @reducer | +1 ( => `{}` is a reducer, and can't be called
0 @reducer | +1 [ => `{}` is a reducer, and has no index
0 @reducer | +1 , ) | -1 ( , | in @ => `{}` is a reducer, and the parameter is none of its monoid
0 @reducer => `{}` is a reducer: `value(r)` reads it, `update(r, e)` and `set(r, e)` write it
-2 update set value => `{}` is no reducer
0 @array | +1 ( => `{}` is an array, and can't be called
0 @array => `{}` is an array, and stands only with an index: `a[i]`
0 @function @procedure | +1 ( => `{}` is a `void` function, and its call has no result
0 @function @procedure => `{}` is a function, and can only be called
+1 ( => `{}` is a variable, and can't be called
+1 [ => `{}` is no array, and has no index
0 @variable => `{}` is no reducer, which the parameter is";

// Why the text has no right `main`.
const NO_MAIN: &str = "\
main :procedure => `main` is a `void` function, and an `int` one is wanted
main :function => `main` has parameters, and none are wanted
main no => the text has no function `main`";

//! The numbers of the tool, and the meaning of each.

ghost use Rattle.std.specs.Prelude.{◌≡◌};
ghost use Rattle.cilk_messages.specs.About.{has_meaning, is_within};

use crate::numbers::{NUMBERS, TITLES};

/// The lines of a meaning: the mistake in a sentence or two; a text that provokes the number, after a
/// word that says what it is; the line that the tool writes for it; how to read the places in such a
/// line; and the advice.
pub const MEANING: usize = 1;

pub const EXAMPLE: usize = 2;

pub const LINE: usize = 3;

pub const PLACE: usize = 4;

pub const CURE: usize = 5;

/// Returns whether a number of the tool has a meaning.
pub fn has_meaning(number: u16) -> bool
    ensures { result ≡ has_meaning number }
{
    is_within(101, 106, number)
        || is_within(111, 119, number)
        || is_within(121, 122, number)
        || is_within(201, 206, number)
        || is_within(301, 312, number)
        || number == 502
}

fn is_within(first: u16, last: u16, number: u16) -> bool
    ensures { result ≡ is_within first last number }
{
    first <= number && number <= last
}

/// Returns a line of the meaning of a number, empty if the tool has no such number.
pub fn line_of(number: u16, wanted: usize) -> &'static str {
    let mut place = usize::MAX;
    for line in NUMBERS.lines() {
        if is_number(line, number) {
            place = wanted;
        }
        if place == 0 {
            return line;
        }
        place = place.saturating_sub(1);
    }
    ""
}

/// Returns the mistake of a number in a few words, empty for another number.
pub fn title_of(number: u16) -> &'static str {
    for line in TITLES.lines() {
        if let Some((digits, title)) = line.split_once("  ")
            && is_number(digits, number)
        {
            return title;
        }
    }
    ""
}

fn is_number(digits: &str, number: u16) -> bool {
    match digits.parse::<u16>() {
        Ok(known) => known == number,
        Err(_) => false,
    }
}

/// Returns the general advice for a number, empty for another number.
pub fn cure_of(number: u16) -> &'static str {
    line_of(number, CURE)
}

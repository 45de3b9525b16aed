//! The places where numbers decide, in words.

use crate::free::{Branch, Change, branch_at, kept_by};
use crate::graph::{Place, What};
use cilk_messages::excerpt::push_excerpt;
use cilk_messages::place::locate;
use cilk_messages::sentence::{Part, Sentence, push_line, say};
use std::alloc::{AllocError, Global};

/// The most places that are shown.
const SHOWN: usize = 10;

/// Adds a line for each place of the text where numbers decide, of `count` numbers, with the line of the
/// text, and a hint where arithmetic would do.
pub fn push_places(
    alloc: Global,
    report: &mut String,
    file: &str,
    text: &[u8],
    places: &[Place],
    count: usize,
) -> Result<(), AllocError> {
    for number in 0..places.len().min(SHOWN) {
        push_place(alloc, report, file, text, places[number], count)?;
    }
    if places.len() > SHOWN {
        let more = say("and at {} place{} more\n").counted(places.len().saturating_sub(SHOWN));
        more.push(alloc, report)?;
    }
    Ok(())
}

fn push_place(
    alloc: Global,
    report: &mut String,
    file: &str,
    text: &[u8],
    place: Place,
    count: usize,
) -> Result<(), AllocError> {
    let deciders = if place.what == What::Lost {
        say("input {} and {} more of {} numbers may decide at {}: {}\n")
            .count(place.first)
            .count(place.count.saturating_sub(1))
            .count(count)
    } else if place.count > 1 {
        say("input {} and {} more of {} numbers decide at {}: {}\n")
            .count(place.first)
            .count(place.count.saturating_sub(1))
            .count(count)
    } else {
        say("input {} decides at {}: {}\n").count(place.first)
    };
    let told = deciders
        .with(Part::Place(file, locate(text, place.at)))
        .text(named(place.what));
    told.push(alloc, report)?;
    push_excerpt(alloc, report, text, place.at)?;
    match branch_at(text, place.statement) {
        Some(branch) if place.what == What::Condition => push_hint(alloc, report, text, &branch),
        _ => Ok(()),
    }
}

fn named(what: What) -> &'static str {
    match what {
        What::Condition => "the condition",
        What::Index => "the index",
        What::Divisor => "the divisor",
        What::Input => "which number is read",
        What::Bound => "the bound of the loop",
        What::Lost => "so many numbers meet here that it isn't known which do",
    }
}

fn push_hint(
    alloc: Global,
    report: &mut String,
    text: &[u8],
    branch: &Branch<'_>,
) -> Result<(), AllocError> {
    let Branch {
        condition,
        target,
        change,
        ..
    } = *branch;
    let hint: Sentence<'_> = match change {
        Change::Becomes(value) => say(BECOMES)
            .word(target)
            .word(condition)
            .word(value)
            .word(target)
            .word(target),
        Change::Grows(value) => say(GROWS)
            .word(target)
            .word(condition)
            .word(value)
            .word(target),
        Change::Shrinks(value) => say(SHRINKS)
            .word(target)
            .word(condition)
            .word(value)
            .word(target),
        Change::Counts => say(COUNTS).word(target).word(condition).word(target),
        Change::CountsDown => say(COUNTS_DOWN).word(target).word(condition).word(target),
        Change::Adds(value) => say(ADDS).word(target).word(condition).word(value),
    };
    push_line(alloc, report, "hint", &hint)?;
    match (change, kept_by(text, branch)) {
        (Change::Becomes(value), Some(kind)) if is_variable(target) => {
            let kept = say(KEEPS).word(target).text(kind).word(target);
            let kept = kept.word(value).word(target);
            push_line(alloc, report, "hint", &kept)
        }
        _ => Ok(()),
    }
}

// Whether a target isn't an element.
fn is_variable(target: &[u8]) -> bool {
    !target.contains(&b'[')
}

const BECOMES: &str =
    "the condition no longer decides if this statement is `{} += ({}) * ({} - {});`, which always writes `{}`, and \
     so may race in a parallel loop";

const GROWS: &str =
    "the condition no longer decides if this statement is `{} += ({}) * ({});`, which always writes `{}`, and so may \
     race in a parallel loop";

const COUNTS: &str =
    "the condition no longer decides if this statement is `{} += ({});`, which always writes `{}`, and so may race in \
     a parallel loop";

const SHRINKS: &str =
    "the condition no longer decides if this statement is `{} -= ({}) * ({});`, which always writes `{}`, and so may \
     race in a parallel loop";

const COUNTS_DOWN: &str =
    "the condition no longer decides if this statement is `{} -= ({});`, which always writes `{}`, and so may race in \
     a parallel loop";

const ADDS: &str =
    "the condition no longer decides if this statement is `update({}, ({}) * ({}));`";

const KEEPS: &str =
    "or make `{}` a `{}` reducer, with `update({}, {});` in place of the statement; if what it begins with counts, \
     that is an `update` of its own, and `value({})` reads it";

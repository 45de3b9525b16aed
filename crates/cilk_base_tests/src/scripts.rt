//! Scripts whose choices can't all be made.

use crate::playing::{RACE, code_of, no_input};
use cilk_lower::code::Code;
use cilk_parser::script::read;
use cilk_schedule::{Reason, StrictFault, play_counting_on, play_strictly_on};
use std::alloc::Global;

// Scripts of two workers, and the line and the reason of the first choice that can't be made.
const SKIPPED: [(&str, usize, Reason); 8] = [
    ("run 3", 1, Reason::NoWorker),
    ("steal 3 0", 1, Reason::NoWorker),
    ("# the second worker is idle\nrun 2", 2, Reason::NoFrame),
    ("run 1 4\nsteal 2 0\nrun 2 5", 3, Reason::NoFrame),
    ("run 1 4\nsteal 1 0", 2, Reason::HasFrame),
    ("run 1 4\n\nsteal 2 1\nrun 9", 3, Reason::Offers(1)),
    ("steal 2 0", 1, Reason::Offers(0)),
    ("run 1 16", 1, Reason::Ended),
];

fn is_skipped(alloc: Global, code: &Code, text: &str, line: usize, reason: Reason) -> bool {
    let Ok(steps) = read(alloc, text.as_bytes()) else {
        return false;
    };
    match play_strictly_on(alloc, code, &no_input(alloc), 2, steps.as_slice()) {
        Err(StrictFault::Skipped(skip)) => skip.line == line && skip.reason == reason,
        Err(StrictFault::Play(_)) | Ok(_) => false,
    }
}

#[test]
fn the_first_skip_is_told(rt: HostRuntime) {
    let code = code_of(&rt, rt.alloc(), RACE);
    for (text, line, reason) in SKIPPED {
        assert!(rt; is_skipped(rt.alloc(), &code, text, line, reason));
    }
}

// Scripts each of whose choices can be made, and what they leave. In rounds an idle worker may have no
// continuation to steal.
const MADE: [(&str, Option<i64>); 4] = [
    ("run 1 15", Some(1)),
    ("all", Some(0)),
    ("run 1 4\nsteal 2 0\nrun 2 4\nrun 1 8", Some(0)),
    ("run 1 4\nsteal 2 0\nrun 2 4", None),
];

fn is_left(alloc: Global, code: &Code, text: &str, left: Option<i64>) -> bool {
    let Ok(steps) = read(alloc, text.as_bytes()) else {
        return false;
    };
    match play_strictly_on(alloc, code, &no_input(alloc), 2, steps.as_slice()) {
        Ok(Some(outcome)) => left == Some(outcome.result),
        Ok(None) => left.is_none(),
        Err(_) => false,
    }
}

#[test]
fn turns_of_rounds_are_no_choices(rt: HostRuntime) {
    let code = code_of(&rt, rt.alloc(), RACE);
    for (text, left) in MADE {
        assert!(rt; is_left(rt.alloc(), &code, text, left));
    }
}

// Scripts, the number of their choices that are skipped, and the line of the first.
const COUNTED: [(&str, u32, Option<usize>); 3] = [
    ("all", 0, None),
    ("run 1 4\nsteal 2 5\nall", 1, Some(2)),
    ("run 1\nrun 7\nrun 1 3\nsteal 2 1\nall\nrun 1 3", 5, Some(2)),
];

fn is_counted(alloc: Global, code: &Code, text: &str, count: u32, line: Option<usize>) -> bool {
    let Ok(steps) = read(alloc, text.as_bytes()) else {
        return false;
    };
    match play_counting_on(alloc, code, &no_input(alloc), 2, steps.as_slice()) {
        Ok(played) => {
            let first = match played.skips.first {
                Some(skip) => Some(skip.line),
                None => None,
            };
            played.skips.count == count && first == line && played.outcome.is_some()
        }
        Err(_) => false,
    }
}

#[test]
fn skips_are_counted(rt: HostRuntime) {
    let code = code_of(&rt, rt.alloc(), RACE);
    for (text, count, line) in COUNTED {
        assert!(rt; is_counted(rt.alloc(), &code, text, count, line));
    }
}

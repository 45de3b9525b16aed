//! What a schedule leaves, beside what the serial run leaves.

use crate::plays::{Budget, Played, play};
use cilk_findings::case::Case;
use cilk_lower::code::Code;
use cilk_messages::sentence::{Part, Sentence, say};
use cilk_parser::script::Step;
use cilk_types::outcome::{Final, Outcome};
use std::alloc::AllocError;

/// `play` doesn't take the schedule.
pub const NONE: u8 = 0;

/// Its run is too long for a search.
pub const LONG: u8 = 1;

/// Its outcome is the serial run's.
pub const SAME: u8 = 2;

/// It leaves other values in global variables, and nothing else.
pub const OTHER: u8 = 3;

/// It leaves another result, output or reducer, or stops by a fault.
pub const MOST: u8 = 4;

const GLOBALS: &str =
    "this script for `play{}` leaves other values in global variables than `run`; of {} scripts that were tried, \
     none shows more";

const NOTHING: &str =
    "this script for `play{}` makes the later access first; {} scripts were tried, and all leave what `run` leaves";

const SOME: &str =
    "this script for `play` makes the later access first; {} scripts were tried, and all that were played to their \
     end leave what `run` leaves";

const GOES_ON: &str =
    "this script for `play{}` makes the later access first; then its run has many more calls than `run`, and wasn't \
     played to its end; of {} scripts that were tried none that was leaves another outcome";

const STOPS: &str = "by this script for `play{}` the run stops by fault {}";

const RESULT: &str = "this script for `play{}` leaves the result {}, where `run` shows {}";

const OUTPUT: &str = "this script for `play{}` prints other numbers than `run`";

const REDUCER: &str = "this script for `play{}` leaves another value in a reducer than `run`";

/// How many workers play a script, and the words that say so after `play`.
#[derive(Clone, Copy)]
pub struct Players {
    pub count: u32,
    pub words: &'static str,
}

/// The workers that `play` has without further words.
pub const TWO: Players = Players {
    count: 2,
    words: "",
};

/// Plays steps. Returns how much their outcome tells a reader, and in words how it differs from the
/// serial run's. Where it tells little, the next gap of the words is for how many scripts were tried.
pub fn played(
    case: &Case<'_>,
    code: &Code,
    serial: &Outcome,
    players: Players,
    steps: &[Step],
    budget: &mut Budget,
) -> Result<(u8, Sentence<'static>), AllocError> {
    Ok(
        match play(case, code, players.count.max(1), steps, budget)? {
            Played::Ended(outcome) => differing(&outcome, serial, players.words),
            Played::Stopped(fault) => {
                let words = say(STOPS).text(players.words);
                (MOST, words.count(fault.number() as usize))
            }
            Played::Long => (LONG, say(GOES_ON).text(players.words)),
            Played::Cut => (NONE, say("")),
        },
    )
}

/// Returns the words for a schedule that leaves what the serial run does, where others weren't played to their
/// end.
pub fn some_are_same() -> Sentence<'static> {
    say(SOME)
}

// The difference between an outcome and the serial run's.
fn differing(
    outcome: &Outcome,
    serial: &Outcome,
    players: &'static str,
) -> (u8, Sentence<'static>) {
    if outcome.result != serial.result {
        let left = say(RESULT).text(players).with(Part::Number(outcome.result));
        (MOST, left.with(Part::Number(serial.result)))
    } else if outcome.output.as_slice() != serial.output.as_slice() {
        (MOST, say(OUTPUT).text(players))
    } else if !are_same(outcome.reducers.as_slice(), serial.reducers.as_slice()) {
        (MOST, say(REDUCER).text(players))
    } else if outcome.globals.as_slice() != serial.globals.as_slice() {
        (OTHER, say(GLOBALS).text(players))
    } else {
        (SAME, say(NOTHING).text(players))
    }
}

fn are_same(one: &[Final], other: &[Final]) -> bool {
    if one.len() != other.len() {
        return false;
    }
    for (left, right) in one.iter().zip(other.iter()) {
        let same = match (left, right) {
            (Final::Number(left), Final::Number(right)) => left == right,
            (Final::List(left), Final::List(right)) => left.as_slice() == right.as_slice(),
            _ => false,
        };
        if !same {
            return false;
        }
    }
    true
}

//! A search for a schedule that shows a race.

use crate::chance::{Drawn, LONGEST, draw};
use crate::outcomes::{MOST, NONE, SAME, TWO, played, some_are_same};
use crate::pair::Pair;
use crate::plays::Budget;
use cilk_findings::case::Case;
use cilk_findings::runs::Run;
use cilk_findings::scene::Scene;
use cilk_lower::code::Code;
use cilk_messages::sentence::{Sentence, push_line, say};
use cilk_parser::script::{LineOrder, Step};
use cilk_types::event::Event;
use cilk_types::invocation::Invocation;
use cilk_types::outcome::Outcome;
use std::alloc::AllocError;

// Schedules near the race are played until they have made this many moves together, but at least one is: a
// play costs several times as much as the serial run.
const MADE: usize = 40_000;

// The events of the child that the first worker makes before the steal: none, or all up to this many
// before the event after the earlier access.
const NEAR: [usize; 6] = [usize::MAX, 1, 0, 2, 4, 8];

// The events that the second worker makes after the later access, before the first one continues.
const BEYOND: [usize; 7] = [0, 1, 2, 4, 8, 16, usize::MAX];

// The events that the second worker makes where it steals an earlier continuation, and how many of
// these are tried.
const AROUND: [usize; 5] = [1, 5, 20, 60, usize::MAX];

const PLACES: usize = 16;

/// A schedule of two workers, and how its outcome differs from that of the serial run.
///
/// The first worker makes `ahead` events, up to a spawn or into its child. The second steals the
/// continuation at `place` and makes `behind` events. Then the first makes the `child` events that are
/// left of the child, and both continue in turn.
#[derive(Clone, Copy)]
pub struct Found {
    ahead: usize,
    place: usize,
    behind: usize,
    child: usize,
    // How much the outcome tells a reader, and in words.
    told: u8,
    words: Sentence<'static>,
}

/// A schedule that shows a race, one near its events or one drawn by chance, and how many were tried.
#[derive(Drop)]
pub enum Schedule {
    Near(Found, usize),
    Drawn(Drawn, usize),
}

impl Schedule {
    /// Returns the script of the schedule.
    pub fn script(&self, case: &Case<'_>) -> Result<String, AllocError> {
        match self {
            Schedule::Near(found, _) => found.script(case),
            Schedule::Drawn(drawn, _) => drawn.script(case),
        }
    }

    /// Adds the outcome in words, and the script.
    pub fn push(&self, case: &Case<'_>, report: &mut String) -> Result<(), AllocError> {
        match self {
            Schedule::Near(found, tried) => found.push(case, *tried, report),
            Schedule::Drawn(drawn, tried) => drawn.push(case, *tried, report),
        }
    }
}

/// Plays schedules near a race, and then some by chance, until one shows another result, output or
/// reducer than the serial run. Returns the one whose outcome differs most, if `play` takes any. The
/// first makes the later event first.
pub fn search(scene: &Scene<'_>, pair: &Pair) -> Result<Option<Schedule>, AllocError> {
    let Some(serial) = &scene.run.outcome else {
        return Ok(None);
    };
    let mut budget = Budget::of(MADE, scene.run.replay.frames.len());
    let (mut near, played) = best_of(scene, pair, serial, &mut budget)?;
    if near.told == MOST {
        return Ok(Some(Schedule::Near(near, played)));
    }
    let (drawn, tried) = draw(scene, serial, near.told.max(SAME), &mut budget)?;
    let tried = played.saturating_add(tried);
    if near.told == SAME && budget.gave_up() {
        near.words = some_are_same();
    }
    Ok(match drawn {
        Some(drawn) => Some(Schedule::Drawn(drawn, tried)),
        None if near.told == NONE => None,
        None => Some(Schedule::Near(near, tried)),
    })
}

/// Returns the one schedule of a long run, before it is played: the one that makes the later event first.
/// None of a run of which [`search`] plays more, or that a fault stops.
pub fn only_one(scene: &Scene<'_>, pair: &Pair) -> Option<Found> {
    if scene.run.trace.len() <= LONGEST || scene.run.outcome.is_none() {
        return None;
    }
    Some(schedule_of(scene, pair, NEAR[0], BEYOND[0]))
}

/// Plays the one schedule of a long run, and returns what [`search`] would. The run's events and notes are
/// freed first: with those that the play makes they would take twice the memory.
pub fn search_one(case: &Case<'_>, run: Run, found: Found) -> Result<Option<Schedule>, AllocError> {
    let frames = run.replay.frames.len();
    let (code, outcome) = run.without_events();
    let Some(serial) = &outcome else {
        return Ok(None);
    };
    let mut budget = Budget::of(0, frames);
    let (told, words) = found.play(case, &code, serial, &mut budget)?;
    if told == NONE {
        return Ok(None);
    }
    let near = Found {
        told,
        words,
        ..found
    };
    Ok(Some(Schedule::Near(near, 1)))
}

// The schedule near the race that tells most, and how many were played.
fn best_of(
    scene: &Scene<'_>,
    pair: &Pair,
    serial: &Outcome,
    budget: &mut Budget,
) -> Result<(Found, usize), AllocError> {
    let mut best = schedule_of(scene, pair, 0, 0);
    let mut played: usize = 0;
    for number in 0..2 + NEAR.len() * BEYOND.len() + PLACES * AROUND.len() {
        let Some(found) = numbered(scene, pair, number) else {
            break;
        };
        if number > 2 && is_again(scene, pair, number.saturating_sub(2), &found) {
            continue;
        }
        let (told, words) = found.play(scene.case, &scene.run.code, serial, budget)?;
        played = played.saturating_add(1);
        if told > best.told {
            best = Found {
                told,
                words,
                ..found
            };
        }
        if budget.is_spent() || told == MOST {
            break;
        }
    }
    Ok((best, played))
}

const ONE: &str =
    "this script for `play` makes the later access first, and leaves what `run` leaves; no other was tried, as the \
     run is long";

const SCRIPT: &str = "run 1 {}\nsteal 2 {}\nrun 2 {}\nrun 1 {}\nall\n";

const SHOWN: &str = "  run 1 {}\n  steal 2 {}\n  run 2 {}\n  run 1 {}\n  all\n";

impl Found {
    /// Returns the script of the schedule.
    pub fn script(&self, case: &Case<'_>) -> Result<String, AllocError> {
        let mut script = String::new(case.alloc);
        self.say(SCRIPT).push(case.alloc, &mut script)?;
        Ok(script)
    }

    /// Adds the outcome in words, given how many schedules were tried, and the script.
    pub fn push(
        &self,
        case: &Case<'_>,
        tried: usize,
        report: &mut String,
    ) -> Result<(), AllocError> {
        let words = if self.told == SAME && tried == 1 {
            say(ONE)
        } else {
            self.words.count(tried)
        };
        push_line(case.alloc, report, "schedule", &words)?;
        self.say(SHOWN).push(case.alloc, report)
    }

    fn say(&self, words: &'static str) -> Sentence<'static> {
        let steal = say(words).count(self.ahead).count(self.place);
        steal.count(self.behind).count(self.child)
    }

    // How its outcome differs, if `play` takes it and reaches the run's end.
    fn play(
        &self,
        case: &Case<'_>,
        code: &Code,
        serial: &Outcome,
        budget: &mut Budget,
    ) -> Result<(u8, Sentence<'static>), AllocError> {
        let place = u32::try_from(self.place).unwrap_or(u32::MAX);
        let steps = [
            step(1, self.ahead),
            Step {
                line: 2,
                order: LineOrder::Steal { worker: 2, place },
            },
            step(2, self.behind),
            step(1, self.child),
            Step {
                line: 5,
                order: LineOrder::All,
            },
        ];
        played(case, code, serial, TWO, &steps, budget)
    }
}

fn step(worker: u32, count: usize) -> Step {
    let count = u32::try_from(count).unwrap_or(u32::MAX);
    Step {
        line: 1,
        order: LineOrder::Run { worker, count },
    }
}

// The schedule with this number: the one that makes the later event first; the same with the child
// going on beside it; the outermost continuation up to its end, beside the child; those near the first;
// those that steal the continuation of an earlier spawn, the outermost one first.
fn numbered(scene: &Scene<'_>, pair: &Pair, number: usize) -> Option<Found> {
    let first = schedule_of(scene, pair, NEAR[0], BEYOND[0]);
    let near = number.saturating_sub(2);
    match number {
        0 => return Some(first),
        1 => return Some(Found { child: 1, ..first }),
        2 => {
            return Some(Found {
                place: 0,
                behind: scene.run.trace.len(),
                child: 1,
                ..first
            });
        }
        _ => {}
    }
    if let Some(events) = NEAR.get(near / BEYOND.len()) {
        return Some(schedule_of(scene, pair, *events, BEYOND[near % BEYOND.len()]));
    }
    let rest = near.saturating_sub(NEAR.len() * BEYOND.len());
    let found = schedule_of(scene, pair, 0, 0);
    let place = rest / AROUND.len();
    if place >= found.place {
        return None;
    }
    let behind = AROUND[rest % AROUND.len()].min(scene.run.trace.len());
    Some(Found {
        place,
        behind,
        ..found
    })
}

// Whether a schedule with a smaller number leads to the same run: the first worker stops at the child's
// begin already, or the second one is at the sync that waits for the child.
fn is_again(scene: &Scene<'_>, pair: &Pair, number: usize, found: &Found) -> bool {
    if number >= NEAR.len() * BEYOND.len() {
        return false;
    }
    let begun = scene.note(pair.child).begun.saturating_add(1);
    let is_cut = number >= BEYOND.len() && found.ahead <= begun;
    let is_longer = number % BEYOND.len() > 0;
    let shorter = BEYOND[number.saturating_sub(1) % BEYOND.len()];
    is_cut || is_longer && shorter >= events_to_sync(scene, pair)
}

// The events after the later one up to the sync that waits for the child.
fn events_to_sync(scene: &Scene<'_>, pair: &Pair) -> usize {
    for index in pair.later..scene.run.trace.len() {
        let is_common = scene.frame_of(index) == Some(pair.common);
        if is_common && matches!(scene.run.event(index), Some(Event::Sync)) {
            return index.saturating_sub(pair.later);
        }
    }
    usize::MAX
}

// A schedule near the one that makes the later event first.
fn schedule_of(scene: &Scene<'_>, pair: &Pair, near: usize, beyond: usize) -> Found {
    let child = scene.note(pair.child);
    let ended = child.ended.unwrap_or(pair.later);
    let made = pair.earlier.saturating_add(1).saturating_sub(near);
    let ahead = made.max(child.begun.saturating_add(1));
    let left = scene.run.trace.len().saturating_sub(pair.later);
    let mut spawns: usize = 0;
    let mut at = pair.child;
    for _level in 0..scene.run.replay.frames.len() {
        let note = scene.note(at);
        if note.how == Invocation::Spawn {
            spawns = spawns.saturating_add(1);
        }
        at = note.parent;
    }
    Found {
        ahead,
        place: spawns.saturating_sub(1),
        behind: pair
            .later
            .saturating_sub(ended)
            .saturating_add(beyond.min(left)),
        child: ended.saturating_add(1).saturating_sub(ahead),
        told: NONE,
        words: say(""),
    }
}

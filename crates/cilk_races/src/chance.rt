//! Schedules that are drawn by chance.

use crate::outcomes::{MOST, Players, TWO, played};
use crate::plays::Budget;
use cilk_findings::case::Case;
use cilk_findings::scene::Scene;
use cilk_messages::sentence::{Sentence, push_line, say};
use cilk_parser::script::{LineOrder, Step};
use cilk_types::outcome::Outcome;
use rand_core::utils::NextWord;
use rand_pcg::Pcg32;
use std::alloc::{AllocError, Global};

// How many schedules are drawn.
const DRAWN: usize = 16;

/// The most events of a run of which schedules are drawn: a play costs several times as much as the serial
/// run.
pub const LONGEST: usize = 125_000;

// The events that a short run counts as, where moves are allotted to the plays.
const SHORT: usize = 10_000;

// How often a worker steals, if it is idle, and continues.
const MOVES: usize = 100;

// The lines of a script that a report shows.
const SHOWN: usize = 24;

// Who plays, by turns.
const PLAYERS: [Players; 4] = [
    Players {
        count: 8,
        words: " --workers 8",
    },
    Players {
        count: 4,
        words: " --workers 4",
    },
    TWO,
    Players {
        count: 16,
        words: " --workers 16",
    },
];

/// A schedule that tells more than others: its steps, after which all workers go on in turn, and how
/// its outcome differs from the serial run's, in words.
#[derive(Drop)]
pub struct Drawn {
    players: Players,
    steps: Vec<Step>,
    told: u8,
    words: Sentence<'static>,
}

/// Plays schedules by chance until one tells most. Returns a short beginning of the one that tells most,
/// if that is more than `least`, and how many were played: none of a long run.
pub fn draw(
    scene: &Scene<'_>,
    serial: &Outcome,
    least: u8,
    budget: &mut Budget,
) -> Result<(Option<Drawn>, usize), AllocError> {
    let events = scene.run.trace.len();
    let mut best: Option<Drawn> = None;
    let (mut least, mut tried) = (least, 0);
    budget.refill(events.max(SHORT).saturating_mul(DRAWN));
    if events <= LONGEST {
        for number in 0..DRAWN {
            if budget.is_spent() {
                break;
            }
            let drawn = numbered(scene, serial, number, budget)?;
            tried = number + 1;
            if drawn.told > least {
                least = drawn.told;
                best = Some(drawn);
            }
            if least == MOST {
                break;
            }
        }
    }
    match best {
        Some(drawn) => Ok((Some(cut(scene, serial, drawn, budget)?), tried)),
        None => Ok((None, tried)),
    }
}

// The schedule with this number, played.
fn numbered(
    scene: &Scene<'_>,
    serial: &Outcome,
    number: usize,
    budget: &mut Budget,
) -> Result<Drawn, AllocError> {
    let players = PLAYERS[number % PLAYERS.len()];
    let events = scene.run.trace.len();
    // by few events at a time, and by many
    let most = match number / PLAYERS.len() {
        0 => 8,
        1 => events / 40 + 2,
        2 => 40,
        _ => events / 200 + 2,
    };
    let most = u32::try_from(most).unwrap_or(u32::MAX);
    let steps = steps_of(scene.case.alloc, number as u64, players, most)?;
    let (told, words) = play(scene, serial, players, steps.as_slice(), budget)?;
    Ok(Drawn {
        players,
        steps,
        told,
        words,
    })
}

// Steps by chance: the first worker continues, then workers steal and continue.
fn steps_of(
    alloc: Global,
    seed: u64,
    players: Players,
    most: u32,
) -> Result<Vec<Step>, AllocError> {
    let mut chance = Pcg32::new(seed, 1);
    let (workers, most) = (players.count.max(1), most.max(1));
    let mut steps = Vec::new(alloc);
    let count = chance.next_word() % most;
    steps.push(run(1, count.saturating_add(1)))?;
    for _move in 0..MOVES {
        let worker = (chance.next_word() % workers).saturating_add(1);
        // mostly the oldest continuation
        let place = (chance.next_word() % 8).saturating_sub(4);
        let count = chance.next_word() % most;
        steps.push(Step {
            line: 1,
            order: LineOrder::Steal { worker, place },
        })?;
        steps.push(run(worker, count.saturating_add(1)))?;
    }
    Ok(steps)
}

fn run(worker: u32, count: u32) -> Step {
    Step {
        line: 1,
        order: LineOrder::Run { worker, count },
    }
}

// Plays steps, and then lets all workers go on in turn.
fn play(
    scene: &Scene<'_>,
    serial: &Outcome,
    players: Players,
    steps: &[Step],
    budget: &mut Budget,
) -> Result<(u8, Sentence<'static>), AllocError> {
    let mut whole = steps.to_vec(scene.case.alloc)?;
    whole.push(Step {
        line: 1,
        order: LineOrder::All,
    })?;
    let Scene { case, run } = scene;
    played(case, &run.code, serial, players, whole.as_slice(), budget)
}

// Looks for a short beginning that tells as much, by halving. Two steps are left at least, of which the
// second is a steal.
fn cut(
    scene: &Scene<'_>,
    serial: &Outcome,
    drawn: Drawn,
    budget: &mut Budget,
) -> Result<Drawn, AllocError> {
    let Drawn {
        players,
        mut steps,
        told: most,
        mut words,
    } = drawn;
    let mut short: usize = 1;
    for _half in 0..8 {
        let middle = (short.saturating_add(steps.len())) / 2;
        if middle <= short || middle >= steps.len() || budget.is_spent() {
            break;
        }
        let (told, said) = play(scene, serial, players, &steps.as_slice()[..middle], budget)?;
        if told == most {
            steps.truncate(middle);
            words = said;
        } else {
            short = middle;
        }
    }
    Ok(Drawn {
        players,
        steps,
        told: most,
        words,
    })
}

const MORE: &str = "  # and {} more lines, which `schedule` writes\n";

impl Drawn {
    /// Returns the script of the schedule.
    pub fn script(&self, case: &Case<'_>) -> Result<String, AllocError> {
        let mut script = String::new(case.alloc);
        if self.players.count != TWO.count {
            let note = say("# for `play{}`\n").text(self.players.words);
            note.push(case.alloc, &mut script)?;
        }
        push_steps(&mut script, "", self.steps.as_slice())?;
        script.push_str("all\n")?;
        Ok(script)
    }

    /// Adds the outcome in words, given how many schedules were tried, and the script or its beginning.
    pub fn push(
        &self,
        case: &Case<'_>,
        tried: usize,
        report: &mut String,
    ) -> Result<(), AllocError> {
        push_line(case.alloc, report, "schedule", &self.words.count(tried))?;
        let shown = self.steps.len().min(SHOWN);
        push_steps(report, "  ", &self.steps.as_slice()[..shown])?;
        if shown < self.steps.len() {
            let left = self.steps.len().saturating_sub(shown);
            say(MORE).count(left).push(case.alloc, report)?;
        }
        report.push_str("  all\n")
    }
}

// Adds the lines of steps, each after a margin.
fn push_steps(text: &mut String, margin: &str, steps: &[Step]) -> Result<(), AllocError> {
    for step in steps {
        match step.order {
            LineOrder::Run { worker, count } => write!(text, "{margin}run {worker} {count}\n")?,
            LineOrder::Steal { worker, place } => write!(text, "{margin}steal {worker} {place}\n")?,
            LineOrder::All => write!(text, "{margin}all\n")?,
        }
    }
    Ok(())
}

//! Reports on two accesses that race, or on a reducer's read that a schedule can change.

use crate::cures::push_cure;
use crate::pair::{Pair, Race, name_of, pair_of};
use crate::schedules::{Found, Schedule, only_one, search, search_one};
use cilk_findings::case::Case;
use cilk_findings::fault::CaseFault;
use cilk_findings::further::push_further;
use cilk_findings::runs::Run;
use cilk_findings::scene::Scene;
use cilk_messages::reasons::title_of;
use cilk_messages::sentence::{Part, Sentence, say};
use cilk_types::event::Event;
use std::alloc::AllocError;

/// Returns the report that follows the line of a race: both accesses, a hint, the paths from them
/// up to the common frame, the spawn between them, a schedule that was played, and the further races.
/// Events count from 1. Fails with [`CaseFault::Unfit`] where the run doesn't have both events.
pub fn of_race(
    case: &Case<'_>,
    number: u16,
    earlier: u64,
    later: u64,
) -> Result<String, CaseFault> {
    let run = Run::of(case)?;
    let Report {
        mut text,
        schedule,
        further,
    } = report_of(
        &Scene {
            case: &*case,
            run: &run,
        },
        Race::of(number, earlier, later),
    )?;
    if let Some(found) = found_of(case, run, schedule)? {
        found.push(case, &mut text)?;
    }
    text.push_str(further.as_str())?;
    Ok(text)
}

/// The schedule that a report shows.
#[derive(Drop)]
enum Shown {
    /// The one that was found, if one was.
    Played(Option<Schedule>),
    /// This one of a long run, once it is played.
    Due(Found),
}

// The schedule, played. The run isn't needed any more.
fn found_of(case: &Case<'_>, run: Run, schedule: Shown) -> Result<Option<Schedule>, AllocError> {
    match schedule {
        Shown::Played(found) => Ok(found),
        Shown::Due(found) => search_one(case, run, found),
    }
}

/// A report: its text up to the schedule, the schedule, and the further races.
#[derive(Drop)]
struct Report {
    text: String,
    schedule: Shown,
    further: String,
}

fn report_of(scene: &Scene<'_>, race: Race) -> Result<Report, CaseFault> {
    if scene.run.event(race.earlier).is_none() || scene.run.event(race.later).is_none() {
        return Err(CaseFault::Unfit);
    }
    Ok(report_on(scene, race)?)
}

/// Returns the script of the schedule of two workers that the report on a race has, if there is one
/// that `play` accepts. Events count from 1.
pub fn script_of_race(
    case: &Case<'_>,
    number: u16,
    earlier: u64,
    later: u64,
) -> Result<Option<String>, CaseFault> {
    let run = Run::of(case)?;
    let schedule = schedule_of(
        &Scene {
            case: &*case,
            run: &run,
        },
        Race::of(number, earlier, later),
    )?;
    match found_of(case, run, schedule)? {
        Some(found) => Ok(Some(found.script(case)?)),
        None => Ok(None),
    }
}

fn schedule_of(scene: &Scene<'_>, race: Race) -> Result<Shown, AllocError> {
    match pair_of(scene, race)? {
        Some(pair) => schedule_for(scene, &pair),
        None => Ok(Shown::Played(None)),
    }
}

// The schedule that shows a race, or the one that is to be played.
fn schedule_for(scene: &Scene<'_>, pair: &Pair) -> Result<Shown, AllocError> {
    match only_one(scene, pair) {
        Some(found) => Ok(Shown::Due(found)),
        None => Ok(Shown::Played(search(scene, pair)?)),
    }
}

// The race of a reducer is shown by the first of its reads that a schedule can change.
fn report_on(scene: &Scene<'_>, race: Race) -> Result<Report, AllocError> {
    let mut text = String::new(scene.case.alloc);
    let report = &mut text;
    let pair = pair_of(scene, race)?;
    let later = match pair {
        Some(pair) if !race.is_of_cell() && pair.earlier != race.later => pair.later,
        _ => race.later,
    };
    let race = Race { later, ..race };
    push_events(scene, report, race, &pair)?;
    report.push_str("hint: ")?;
    push_cure(scene, report, race, &pair)?;
    match name_of(scene, later) {
        Some(name) => {
            let declared = say("\ndeclared: `{}` at {}\n").word(scene.word(name));
            scene.push(report, &declared.with(scene.place(name.at)))?;
        }
        None => report.push('\n')?,
    }
    let mut schedule = Shown::Played(None);
    if let Some(pair) = pair {
        push_pair(scene, report, &pair)?;
        schedule = schedule_for(scene, &pair)?;
    }
    let mut further = String::new(scene.case.alloc);
    if race.is_of_cell() {
        push_further(scene, &mut further, race.earlier, later)?;
    }
    Ok(Report {
        text,
        schedule,
        further,
    })
}

// Both events with their places, the earlier one first.
fn push_events(
    scene: &Scene<'_>,
    report: &mut String,
    race: Race,
    pair: &Option<Pair>,
) -> Result<(), AllocError> {
    let (first, second) = match pair {
        Some(pair) => (pair.earlier, Some(pair.later)),
        None => (race.later, None),
    };
    let head = say("{}: error {}: {}: ").with(scene.place(scene.byte_of(first)));
    let head = head.count(race.number as usize);
    scene.push(report, &head.with(Part::Text(title_of(race.number))))?;
    push_event(scene, report, first, pair)?;
    scene.push_excerpt(report, scene.byte_of(first))?;
    let Some(second) = second else {
        return Ok(());
    };
    let at = scene.byte_of(second);
    scene.push(report, &say("{}: note: ").with(scene.place(at)))?;
    push_event(scene, report, second, pair)?;
    report.push_str("; nothing orders the two")?;
    scene.push_excerpt(report, at)
}

// What an event accesses, by which value, and in which turn or call.
fn push_event(
    scene: &Scene<'_>,
    report: &mut String,
    index: usize,
    pair: &Option<Pair>,
) -> Result<(), AllocError> {
    let (Some(event), Some(frame)) = (scene.run.event(index), scene.frame_of(index)) else {
        return Ok(());
    };
    scene.push(report, &scene.accessed(&event))?;
    scene.push(report, &done_by(&event))?;
    if scene.run.gives_result(index) {
        report.push_str(", with the result of ")?;
        return scene.push_frame(report, frame);
    }
    report.push_str(", in ")?;
    match pair {
        Some(pair) if pair.is_in_turns(scene) => {
            scene.push(report, &scene.turn(pair.turn_of(scene, frame)))
        }
        _ => scene.push_frame(report, scene.around(frame).0),
    }
}

// What an event does, with the number that it reads or writes.
fn done_by(event: &Event) -> Sentence<'static> {
    let (words, value) = match *event {
        Event::Write { value, .. } => (" is written here ({})", value),
        Event::Update { value, .. } => (" is updated here (by {})", value),
        Event::Set { value, .. } => (" is set here (to {})", value),
        Event::Read { value, .. } => (" is read here ({})", value),
        Event::Value { value, .. } => (" is read here ({})", value),
        _ => return say(""),
    };
    say(words).with(Part::Number(value))
}

// Both paths up to the common frame, and the spawn.
fn push_pair(scene: &Scene<'_>, report: &mut String, pair: &Pair) -> Result<(), AllocError> {
    let common = pair.common;
    for (words, frame, top) in [
        ("the earlier one:\n", pair.beside, Some(common)),
        ("the later one:\n", pair.second, Some(common)),
        ("around both:\n", common, None),
    ] {
        if Some(frame) != top {
            report.push_str(words)?;
            scene.push_path(report, frame, top)?;
        }
    }
    let parallel = if pair.is_in_turns(scene) {
        say("parallel: the turns of a `cilk_for` run in parallel\n")
    } else {
        let spawn = scene.place(scene.note(pair.child).invoked_at);
        say("parallel: the spawn at {} lets its child run beside what follows it\n").with(spawn)
    };
    scene.push(report, &parallel)
}

//! The report on a fault: where it stops a run and why.

use crate::case::Case;
use crate::fault::CaseFault;
use crate::repeats::of_repeated;
use crate::replay::{StepNote, StopNote};
use crate::runs::Run;
use crate::scene::Scene;
use cilk_messages::reasons::{cure_of, title_of};
use cilk_messages::sentence::{Part, Sentence, push_line, say};
use cilk_types::event::Event;
use cilk_types::fault::Fault;
use cilk_types::limits::MAX_EVENTS;
use std::alloc::AllocError;

// The most printed numbers that a report shows.
const TOLD: usize = 20;

// A recursion deeper than this is reported even where it has less than half of the frames.
const DEEP: usize = 1000;

/// Returns the report that follows the line of a fault: its place, the values that were divided or
/// used as an index, the path up to `main`, how far the run came, and a hint. A fault has to stop
/// the case's run; otherwise the error is [`CaseFault::Unfit`].
pub fn of_fault(case: &Case<'_>) -> Result<String, CaseFault> {
    let run = Run::of(case)?;
    let Some(stop) = run.replay.stop else {
        return Err(CaseFault::Unfit);
    };
    let mut report = String::new(case.alloc);
    push_fault(&Scene { case, run: &run }, &mut report, &stop)?;
    Ok(report)
}

fn push_fault(scene: &Scene<'_>, report: &mut String, stop: &StopNote) -> Result<(), AllocError> {
    let alloc = scene.case.alloc;
    let number = stop.fault.number();
    let at = stop.step.at;
    let head = say("{}: error {}: {}")
        .with(scene.place(at))
        .count(number as usize);
    scene.push(report, &head.with(Part::Text(title_of(number))))?;
    scene.push_excerpt(report, at)?;
    push_line(alloc, report, "reason", &reason(scene, stop))?;
    scene.push_path(report, stop.step.frame, None)?;
    push_so_far(scene, report)?;
    push_line(alloc, report, "hint", &cure(scene, stop.fault, stop.step)?)
}

// The values that cause the fault, or the limit that the run met.
fn reason<'a>(scene: &Scene<'a>, stop: &StopNote) -> Sentence<'a> {
    let StopNote {
        fault,
        left,
        right,
        ..
    } = *stop;
    match fault {
        Fault::DivisionByZero => say("{} is divided by 0").with(Part::Number(left)),
        Fault::IndexOutside => outside(scene, left, right),
        Fault::InputOutside => say(INPUT_OUTSIDE)
            .counted(scene.case.input.as_slice().len())
            .with(Part::Number(right)),
        Fault::TooManyEvents if scene.run.trace.len() >= MAX_EVENTS as usize => say(
            "the run has made 1,000,000 events, the most that there may be",
        ),
        Fault::TooManyEvents => say(
            "the run has taken 16,000,000 ticks, the most that there may be",
        ),
        Fault::TooManyFrames => say("the run has begun 65,536 frames, the most that there may be"),
        Fault::TooManyCells => say(
            "the globals and the variables of the frames so far, with those of one frame more, are over 1,048,576 cells",
        ),
    }
}

const INPUT_OUTSIDE: &str = "the input has {} number{}, counted from 0, and number {} is asked for";

// An array, given by its first cell, and an index outside it.
fn outside<'a>(scene: &Scene<'a>, first: i64, index: i64) -> Sentence<'a> {
    let array = match usize::try_from(first) {
        Ok(first) => scene.case.map.global(first),
        Err(_) => None,
    };
    let Some(array) = array else {
        return say("");
    };
    let name = scene.word(array.name);
    let sentence = match array.length.unwrap_or(0).saturating_sub(1) {
        0 => say("`{}` has 1 element, `{}[0]`, and the index is {}")
            .word(name)
            .word(name),
        last => say("`{}` has {} elements, `{}[0]` to `{}[{}]`, and the index is {}")
            .word(name)
            .count(last.saturating_add(1))
            .word(name)
            .word(name)
            .count(last),
    };
    sentence.with(Part::Number(index))
}

// How far the run came, and the numbers that it printed.
fn push_so_far(scene: &Scene<'_>, report: &mut String) -> Result<(), AllocError> {
    let Run { trace, replay, .. } = scene.run;
    let came = say("so far: {} event{}, {} tick{}, {} frame{}").counted(trace.len());
    let came = came
        .counted(replay.ticks as usize)
        .counted(replay.frames.len());
    scene.push(report, &came)?;
    let mut printed: usize = 0;
    for event in trace.as_slice() {
        if let Event::Print { value } = event {
            if printed < TOLD {
                let number = say(if printed == 0 { "; printed {}" } else { ", {}" });
                scene.push(report, &number.with(Part::Number(*value)))?;
            }
            printed = printed.saturating_add(1);
        }
    }
    if printed > TOLD {
        let more = say(" and {} number{} more").counted(printed.saturating_sub(TOLD));
        scene.push(report, &more)?;
    }
    report.push('\n')
}

// The hint.
fn cure<'a>(scene: &Scene<'a>, fault: Fault, step: StepNote) -> Result<Sentence<'a>, AllocError> {
    if fault == Fault::TooManyFrames {
        if let Some(cure) = of_repeated(scene, step)? {
            return Ok(cure);
        }
    }
    let depth = scene.length(step.frame, None);
    let is_deep = depth > DEEP || depth.saturating_mul(2) > scene.run.replay.frames.len();
    Ok(say(match fault {
        Fault::TooManyFrames if scene.is_of_loop(step.frame) => BLOCKS,
        Fault::TooManyFrames | Fault::TooManyCells if is_deep => RECURSION,
        _ => cure_of(fault.number()),
    }))
}

const BLOCKS: &str =
    "a `cilk_for` of n turns begins 2 n - 1 frames: let each turn do a block of turns, `cilk_for (int b = 0; b < (n + 63) / 64; b++) { for (int i = 64 * b; i < n && i < 64 * b + 64; i++) { .. } }`";

const RECURSION: &str = "is there a condition that ends this recursion, and does it hold once?";

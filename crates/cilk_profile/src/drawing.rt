//! Pictures of a run: the speed-up by several workers, its parallelism at each step, and its
//! series-parallel tree.

use crate::burdened::BURDEN;
use crate::chains::profile;
use crate::chart::{
    BOUND, ESTIMATE, HEAD, HEIGHT, KEYS, LEFT, OUTLINE, OUTLINE_END, STEPS_WORDS, WIDTH,
    WORKERS_AXES, push_column, push_file, push_hundredths, push_level, scaled,
};
use crate::dot::dot;
use crate::totals::{Totals, totals_of};
use cilk_findings::case::Case;
use cilk_findings::fault::CaseFault;
use cilk_findings::runs::Run;
use cilk_findings::scene::Scene;
use cilk_types::trace::Trace;
use std::alloc::AllocError;

// The upper ends of the two charts.
const SPEED_UP: usize = 95;

const STEPS: usize = 420;

// The most workers of the chart.
const WORKERS: usize = 64;

/// Draws, as SVG, the speed-up by 1 to 64 workers, estimated and at most, and how many events could
/// be made at each step of the span with enough workers. The case's run has to end without a fault;
/// otherwise the error is [`CaseFault::Unfit`].
pub fn profile_of(case: &Case<'_>) -> Result<String, CaseFault> {
    let run = ended(case)?;
    let mut text = String::new(case.alloc);
    push_charts(case, &run.trace, &mut text)?;
    Ok(text)
}

fn push_charts(case: &Case<'_>, trace: &Trace, text: &mut String) -> Result<(), AllocError> {
    let totals = totals_of(case.alloc, trace)?;
    text.push_str(HEAD)?;
    push_file(text, case.file, true)?;
    push_speed_up(text, &totals)?;
    let steps = profile(case.alloc, trace)?;
    push_steps(text, &totals, steps.as_slice())
}

// The estimate and the bound, for each number of workers.
fn push_speed_up(text: &mut String, totals: &Totals) -> Result<(), AllocError> {
    let Totals {
        work,
        span,
        burdened_span,
        ..
    } = *totals;
    write!(
        text,
        ": speed-up by workers (work {work}, span {span}, parallelism "
    )?;
    push_hundredths(text, totals.parallelism())?;
    write!(
        text,
        ")</text>\n\
        <text x=\"80\" y=\"46\" text-anchor=\"start\" fill=\"#222222\">burdened span {burdened_span}: \
        a burden of {BURDEN} events for each spawn that a steal may take</text>\n"
    )?;
    // The least end of the scale, in hundredths, that holds the greatest speed-up.
    let bound = totals.speed_up_bound(WORKERS as u64) as usize;
    let mut most: usize = 100;
    for _octave in 0..6 {
        if most < bound {
            most = most.saturating_mul(2);
        }
    }
    push_workers(text, most)?;
    text.push_str(WORKERS_AXES)?;
    push_curve(text, totals, most, true)?;
    push_curve(text, totals, most, false)?;
    text.push_str(KEYS)
}

// The scales of the chart of workers.
fn push_workers(text: &mut String, most: usize) -> Result<(), AllocError> {
    for part in 0..5_usize {
        let speed = most.saturating_mul(part) / 4;
        push_level(text, height_at(SPEED_UP, speed, most), speed)?;
    }
    for part in 0..9_usize {
        let workers = (part.saturating_mul(WORKERS) / 8).max(1);
        push_column(text, SPEED_UP, column_of(workers), workers)?;
    }
    Ok(())
}

fn push_curve(
    text: &mut String,
    totals: &Totals,
    most: usize,
    is_bound: bool,
) -> Result<(), AllocError> {
    text.push_str(if is_bound { BOUND } else { ESTIMATE })?;
    for number in 0..WORKERS {
        let workers = number.saturating_add(1);
        let speed = if is_bound {
            totals.speed_up_bound(workers as u64)
        } else {
            totals.speed_up_estimate(workers as u64)
        };
        let to = if number == 0 { "M" } else { " L" };
        let x = column_of(workers);
        let y = height_at(SPEED_UP, speed as usize, most);
        write!(text, "{to}{x} {y}")?;
    }
    text.push_str("\"/>\n")
}

fn column_of(workers: usize) -> usize {
    LEFT.saturating_add(scaled(workers, WORKERS, WIDTH))
}

// The distance from the picture's top for a part of a chart's height.
fn height_at(top: usize, part: usize, whole: usize) -> usize {
    let height = scaled(part, whole, HEIGHT);
    top.saturating_add(HEIGHT).saturating_sub(height)
}

// The events of each step, with a line at the parallelism. The scale has octaves, from a half up.
fn push_steps(text: &mut String, totals: &Totals, steps: &[u32]) -> Result<(), AllocError> {
    let most = most_in(steps, 0, steps.len()).max(1);
    let (whole, rest) = logarithm(most.saturating_mul(100));
    let octaves = if rest > 0 {
        whole.saturating_add(1)
    } else {
        whole
    };
    text.push_str(STEPS_WORDS)?;
    push_scale(text, octaves, steps.len())?;
    push_outline(text, steps, octaves)?;
    let y = height_of(totals.parallelism() as usize, octaves);
    write!(
        text,
        "<path d=\"M80 420 V640 h680\" fill=\"none\" stroke=\"#222222\"/>\n\
        <path fill=\"none\" stroke=\"#222222\" stroke-width=\"2\" stroke-dasharray=\"6 4\" d=\"M80 {y} h680\"/>\n\
        <text x=\"760\" y=\"410\" text-anchor=\"end\" fill=\"#222222\">\
        broken line: the parallelism, which is their mean</text>\n</svg>\n"
    )
}

// The scales of the chart of steps.
fn push_scale(text: &mut String, octaves: usize, span: usize) -> Result<(), AllocError> {
    let mut hundredths: usize = 100;
    for octave in 0..octaves {
        if octaves <= 10 || octave % 2 == 0 {
            push_level(text, height_of(hundredths, octaves), hundredths)?;
        }
        hundredths = hundredths.saturating_mul(2);
    }
    // The least of 1, 2, 5, 10, .. by which the span has at most ten marks beside 0.
    let mut unit: usize = 1;
    for round in 0..18_usize {
        if unit.saturating_mul(11) <= span {
            let half = if round % 3 == 1 { unit / 2 } else { 0 };
            unit = unit.saturating_mul(2).saturating_add(half);
        }
    }
    for part in 0..11_usize {
        let step = unit.saturating_mul(part);
        if step <= span {
            let x = LEFT.saturating_add(scaled(step, span, WIDTH));
            push_column(text, STEPS, x, step)?;
        }
    }
    Ok(())
}

// The outline of the steps, from left to right: in each column the most events of its steps.
fn push_outline(text: &mut String, steps: &[u32], octaves: usize) -> Result<(), AllocError> {
    text.push_str(OUTLINE)?;
    let mut top = STEPS.saturating_add(HEIGHT);
    for column in 0..WIDTH {
        let from = column.saturating_mul(steps.len()) / WIDTH;
        let upto = column.saturating_add(1).saturating_mul(steps.len()) / WIDTH;
        let most = most_in(steps, from, upto.max(from.saturating_add(1)));
        let next = height_of(most.saturating_mul(100), octaves);
        if next != top {
            let x = LEFT.saturating_add(column);
            write!(text, " H{x} V{next}")?;
        }
        top = next;
    }
    text.push_str(OUTLINE_END)
}

// The most events of one of these steps.
fn most_in(steps: &[u32], from: usize, upto: usize) -> usize {
    let mut most: usize = 0;
    for step in from..upto {
        if let Some(events) = steps.get(step) {
            most = most.max(*events as usize);
        }
    }
    most
}

// The height of a number of hundredths on that scale.
fn height_of(number: usize, octaves: usize) -> usize {
    let (whole, rest) = logarithm(number);
    let part = whole.saturating_mul(1000).saturating_add(rest);
    height_at(STEPS, part, octaves.saturating_mul(1000))
}

// The logarithm of a number of hundredths to the base 2, from a half up: whole octaves, and
// thousandths of the next, along the chord.
fn logarithm(number: usize) -> (usize, usize) {
    let mut octaves: usize = 0;
    let mut from: usize = 50;
    for _octave in 0..40 {
        if from.saturating_mul(2) <= number {
            from = from.saturating_mul(2);
            octaves = octaves.saturating_add(1);
        }
    }
    let rest = scaled(number.saturating_sub(from), from, 1000);
    (octaves, rest)
}

/// Draws the series-parallel tree of a small run for Graphviz's `dot`; none of a larger one. The
/// case's run has to end without a fault; otherwise the error is [`CaseFault::Unfit`].
pub fn tree_of_run(case: &Case<'_>) -> Result<Option<String>, CaseFault> {
    let run = ended(case)?;
    Ok(dot(&Scene { case, run: &run })?)
}

/// Returns the run of a case. If a fault stops it, the error is [`CaseFault::Unfit`].
pub fn ended(case: &Case<'_>) -> Result<Run, CaseFault> {
    let run = Run::of(case)?;
    if run.outcome.is_some() {
        Ok(run)
    } else {
        Err(CaseFault::Unfit)
    }
}

//! The outcome of a run as lines.

use cilk_plan::program_plan::ProgramPlan;
use cilk_threads::run::ThreadFault;
use cilk_threads::threads::run_threads;
use cilk_types::input::Input;
use cilk_types::outcome::{Final, Outcome};
use cilk_workers::gate::Gate;
use std::alloc::{AllocError, Global};
use std::sync::Wait;
use std::thread::Threads;

/// Runs a plan by some workers. Returns the outcome in lines, or the number and the place of the
/// fault.
pub fn left<R: Threads + Wait + Sync, G: Gate + Sync>(
    rt: &R,
    alloc: Global,
    plan: &ProgramPlan<'_>,
    input: &Input,
    workers: u32,
    gate: &G,
) -> Result<String, AllocError> {
    match run_threads(rt, alloc, plan, input, workers, gate) {
        Ok(outcome) => shown(alloc, &outcome),
        Err(fault) => told(alloc, &fault),
    }
}

fn told(alloc: Global, fault: &ThreadFault) -> Result<String, AllocError> {
    let number = fault.number();
    match fault {
        ThreadFault::Memory => Err(AllocError),
        ThreadFault::Workers => format!(in alloc; "{number}\n"),
        ThreadFault::Departs(at) => format!(in alloc; "{number} {at}\n"),
    }
}

/// Returns an outcome in lines: each printed number; the numbers of each global reducer; those of
/// all global cells; and the result.
pub fn shown(alloc: Global, outcome: &Outcome) -> Result<String, AllocError> {
    let mut text = String::new(alloc);
    for number in outcome.output.as_slice() {
        text.push_str(format!(in alloc; "{number}\n")?.as_str())?;
    }
    for last in outcome.reducers.as_slice() {
        text.push_str(of_reducer(alloc, last)?.as_str())?;
    }
    text.push_str(row(alloc, "cells", outcome.globals.as_slice())?.as_str())?;
    let result = outcome.result;
    text.push_str(format!(in alloc; "result {result}\n")?.as_str())?;
    Ok(text)
}

fn of_reducer(alloc: Global, last: &Final) -> Result<String, AllocError> {
    match last {
        Final::Number(number) => row(alloc, "reducer", [*number].as_slice()),
        Final::List(numbers) => row(alloc, "reducer", numbers.as_slice()),
    }
}

// A line of a name and numbers.
fn row(alloc: Global, name: &str, numbers: &[i64]) -> Result<String, AllocError> {
    let mut text = String::new(alloc);
    text.push_str(name)?;
    for number in numbers {
        text.push_str(format!(in alloc; " {number}")?.as_str())?;
    }
    text.push('\n')?;
    Ok(text)
}

//! Two runs on one plan. The first may be out of memory. The second run has memory and
//! must end with the expected outcome. In ordinary tests both runs have memory;
//! `tools/each_failure.py --plan` refuses each allocation in turn.

use crate::cases::{Alone, CALLS, LOOPS};
use crate::shown::shown;
use crate::texts::{accepted, planned};
use cilk_plan::program_plan::ProgramPlan;
use cilk_threads::run::ThreadFault;
use cilk_threads::threads::run_threads;
use cilk_types::input::Input;
use cilk_types::outcome::Outcome;
use cilk_workers::gate::Open;
use std::alloc::Global;
use std::process::Abort;
use std::sync::Wait;
use std::thread::Threads;

const POOL: u32 = 2;

// The outcome of a run, or `None` if it was out of memory.
fn outcome_of(rt: &impl Abort, ended: Result<Outcome, ThreadFault>) -> Option<Outcome> {
    match ended {
        Ok(outcome) => Some(outcome),
        Err(ThreadFault::Memory) => None,
        Err(fault) => panic!(rt; "{fault}"),
    }
}

// Checks the outcome of a run.
fn leaves(rt: &impl Abort, alloc: Global, outcome: &Outcome, wanted: &str) {
    let Ok(left) = shown(alloc, outcome) else {
        panic!(rt; "no memory to look at the run");
    };
    assert!(rt; left.as_str() == wanted, "{left} is left, not {wanted}");
}

// Checks the outcomes of two runs. At most one of them is out of memory.
fn leave(
    rt: &impl Abort,
    alloc: Global,
    first: Option<&Outcome>,
    second: Option<&Outcome>,
    wanted: &str,
) {
    match (first, second) {
        (Some(first), Some(second)) => {
            leaves(rt, alloc, first, wanted);
            leaves(rt, alloc, second, wanted);
        }
        (None, Some(second)) => leaves(rt, alloc, second, wanted),
        (Some(_), None) => panic!(rt; "no memory for the second run"),
        (None, None) => panic!(rt; "the second run has memory, and fails as the first did"),
    }
}

// Two runs on one plan.
fn runs_twice<R: Abort + Threads + Wait + Sync>(
    rt: &R,
    alloc: Global,
    plan: &ProgramPlan<'_>,
    input: &Input,
    wanted: &str,
) {
    let first = outcome_of(rt, run_threads(rt, alloc, plan, input, POOL, &Open));
    let second = outcome_of(rt, run_threads(rt, alloc, plan, input, POOL, &Open));
    leave(rt, alloc, first.as_ref(), second.as_ref(), wanted);
}

fn twice<R: Abort + Threads + Wait + Sync>(rt: &R, alloc: Global, case: &Alone) {
    let (text, left) = *case;
    let accepted = accepted(rt, alloc, text, "");
    let plan = planned(rt, alloc, &accepted);
    runs_twice(rt, alloc, &plan, accepted.input(), left);
}

#[test]
fn two_calls(rt: HostRuntime) {
    twice(&rt, rt.alloc(), &CALLS[0]);
}

#[test]
fn a_list(rt: HostRuntime) {
    twice(&rt, rt.alloc(), &LOOPS[2]);
}

#[test]
fn three_prints(rt: HostRuntime) {
    twice(&rt, rt.alloc(), &CALLS[2]);
}

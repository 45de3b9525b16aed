//! Programs run by several workers, with the outcomes of their serial runs.

use crate::cases::{Alone, CALLS, Case, DEPART, LOOPS, NUMBERS, ON_INPUTS};
use crate::gates::Counting;
use crate::shown::left;
use crate::texts::{accepted, input_of, planned};
use crate::waits::{Job, in_time};
use cilk_plan::program_plan::ProgramPlan;
use cilk_types::input::Input;
use std::alloc::Global;
use std::process::Abort;
use std::sync::Wait;
use std::thread::Threads;
use std::time::Clock;

// The numbers of workers that run a case.
const POOLS: [u32; 4] = [1, 2, 4, 8];

// Larger numbers of workers, for few cases and few runs.
const LARGE_POOLS: [u32; 2] = [9, 64];

// Numbers of workers that no run has.
const NO_POOLS: [u32; 2] = [0, 65];

// The runs of a case by each large number of workers.
const FEW_TIMES: u32 = 3;

// The runs of a case by each number of workers.
const TIMES: u32 = 100;

/// A case, the numbers of workers, and the number of runs by each of them.
#[derive(Clone, Copy)]
pub struct Series {
    case: Case,
    pools: &'static [u32],
    times: u32,
    // Whether a run begins every strand of the plan.
    is_whole: bool,
}

// The case of a program without input.
fn on_nothing(case: &Alone) -> Case {
    let (text, left) = *case;
    Case {
        text,
        numbers: "",
        on: "",
        left,
    }
}

// A case whose runs end.
fn whole(case: &Case) -> Series {
    Series {
        case: *case,
        pools: &POOLS,
        times: TIMES,
        is_whole: true,
    }
}

// A case whose runs end, by many workers.
fn by_many(case: &Case) -> Series {
    Series {
        case: *case,
        pools: &LARGE_POOLS,
        times: FEW_TIMES,
        is_whole: true,
    }
}

// A case whose runs depart from the plan.
fn departing(case: &Case) -> Series {
    Series {
        case: *case,
        pools: &POOLS,
        times: TIMES,
        is_whole: false,
    }
}

// A case that is refused for its numbers of workers.
fn refused(case: &Alone) -> Series {
    Series {
        case: on_nothing(&(case.0, "501\n")),
        pools: &NO_POOLS,
        times: 1,
        is_whole: false,
    }
}

// The number of strands of the plan.
fn strands(plan: &ProgramPlan<'_>) -> u64 {
    let mut count: u64 = 0;
    for strand in plan.strands() {
        if *strand != 0 {
            count = count.saturating_add(1);
        }
    }
    count
}

// Checks the outcome of one run and that no strand begins twice. Returns the number of strands that
// begin.
fn strands_of_run<R: Abort + Threads + Wait + Sync>(
    rt: &R,
    alloc: Global,
    plan: &ProgramPlan<'_>,
    input: &Input,
    workers: u32,
    strands: u64,
    wanted: &str,
) -> u64 {
    let Ok(gate) = Counting::new(alloc, strands) else {
        panic!(rt; "no memory for a gate");
    };
    let Ok(left) = left(rt, alloc, plan, input, workers, &gate) else {
        panic!(rt; "no memory by {workers}");
    };
    assert!(rt; left.as_str() == wanted, "by {workers}: {left}");
    let (once, never) = (gate.count(1), gate.count(0));
    assert!(rt;
        gate.others() == 0 && once.saturating_add(never) == strands,
        "{once} of {strands} strands begin once and {never} never by {workers}"
    );
    once
}

// The runs by one number of workers.
fn runs_by<R: Abort + Threads + Wait + Sync>(
    rt: &R,
    alloc: Global,
    plan: &ProgramPlan<'_>,
    input: &Input,
    workers: u32,
    series: &Series,
) {
    let strands = strands(plan);
    let wanted = series.case.left;
    for _ in 0..series.times {
        let begun = strands_of_run(rt, alloc, plan, input, workers, strands, wanted);
        assert!(rt;
            begun == strands || !series.is_whole,
            "{begun} of {strands} strands by {workers}"
        );
    }
}

/// Makes all runs of a series.
pub fn runs<R: Abort + Threads + Wait + Sync>(rt: &R, alloc: Global, series: &Series) {
    let case = &series.case;
    let accepted = accepted(rt, alloc, case.text, case.numbers);
    let plan = planned(rt, alloc, &accepted);
    let input = input_of(rt, alloc, case.on);
    for workers in series.pools {
        runs_by(rt, alloc, &plan, &input, *workers, series);
    }
}

// Makes all runs of programs without input.
fn alone<R: Abort + Threads + Wait + Clock + Sync>(rt: &R, alloc: Global, cases: &[Alone]) {
    for case in cases {
        in_time(rt, alloc, &Job::Series(whole(&on_nothing(case))));
    }
}

#[test]
fn spawned_calls(rt: HostRuntime) {
    alone(&rt, rt.alloc(), &CALLS);
}

#[test]
fn loops(rt: HostRuntime) {
    alone(&rt, rt.alloc(), &LOOPS);
}

#[test]
fn runs_without_spawns(rt: HostRuntime) {
    alone(&rt, rt.alloc(), &NUMBERS);
}

#[test]
fn runs_by_many_workers(rt: HostRuntime) {
    for case in [&CALLS[1], &LOOPS[2]] {
        in_time(&rt, rt.alloc(), &Job::Series(by_many(&on_nothing(case))));
    }
}

#[test]
fn numbers_of_workers(rt: HostRuntime) {
    in_time(&rt, rt.alloc(), &Job::Series(refused(&CALLS[0])));
}

#[test]
fn runs_on_inputs(rt: HostRuntime) {
    for case in &ON_INPUTS {
        in_time(&rt, rt.alloc(), &Job::Series(whole(case)));
    }
}

#[test]
fn other_inputs_depart(rt: HostRuntime) {
    for case in &DEPART {
        in_time(&rt, rt.alloc(), &Job::Series(departing(case)));
    }
}

//! Pseudo-random schedules: the outcomes of a program by 200 of them, with 1 to 8 workers.

use crate::playing::{DIVIDE, code_of, no_input};
use cilk_checker::judge::program;
use cilk_lower::code::Code;
use cilk_parser::input::parse_input;
use cilk_schedule::machine::Machine;
use cilk_scheduler::choice::{Choice, Stop};
use cilk_serial::run::run;
use cilk_types::input::Input;
use cilk_types::outcome::{Final, Outcome};
use std::alloc::Global;
use std::process::Abort;

// A generator of pseudo-random numbers, by a linear congruence.
#[derive(Drop)]
struct Chance {
    state: u32,
}

impl Chance {
    // The next number below `below`, which isn't 0.
    fn next(&mut self, below: u32) -> u32 {
        self.state = self
            .state
            .wrapping_mul(1_664_525)
            .wrapping_add(1_013_904_223);
        (self.state >> 16).checked_rem(below).unwrap_or(0)
    }
}

// A choice of some worker: it continues with its frame, or tries to steal one of the first four
// continuations.
fn choice(machine: &Machine<'_>, workers: u32, chance: &mut Chance) -> Choice {
    let worker = chance.next(workers).saturating_add(1);
    if machine.holds(worker) {
        return Choice::Run(worker);
    }
    Choice::Steal(worker, chance.next(4) as usize)
}

// The outcome by the schedule of a seed, or how it stops. The seed also gives the number of
// workers.
fn by_chance(
    rt: &impl Abort,
    alloc: Global,
    code: &Code,
    input: &Input,
    seed: u32,
) -> Result<Outcome, Stop> {
    let workers = seed % 8 + 1;
    let mut chance = Chance { state: seed };
    let Ok(mut machine) = Machine::new(alloc, code, input, workers) else {
        panic!(rt; "no memory");
    };
    'choices: for _ in 0..1_000_000 {
        if machine.ended() {
            break;
        }
        let choice = choice(&machine, workers, &mut chance);
        machine.choose(alloc, choice)?;
    }
    match machine.into_outcome() {
        Some(outcome) => Ok(outcome),
        None => panic!(rt; "not ended"),
    }
}

fn is_same_final(one: &Final, other: &Final) -> bool {
    match (one, other) {
        (Final::Number(one), Final::Number(other)) => one == other,
        (Final::List(one), Final::List(other)) => one.as_slice() == other.as_slice(),
        _ => false,
    }
}

fn are_same_finals(one: &[Final], other: &[Final]) -> bool {
    one.len() == other.len()
        && one
            .iter()
            .zip(other)
            .all(|(one, other)| is_same_final(one, other))
}

fn are_same_words(one: &Outcome, other: &Outcome) -> bool {
    one.globals.as_slice() == other.globals.as_slice()
        && one.output.as_slice() == other.output.as_slice()
}

fn is_same(one: &Outcome, other: &Outcome) -> bool {
    one.result == other.result
        && are_same_words(one, other)
        && are_same_finals(one.reducers.as_slice(), other.reducers.as_slice())
}

// The outcome of the serial run.
fn serially(rt: &impl Abort, alloc: Global, text: &str, input: &Input) -> Outcome {
    let Ok(program) = program(alloc, text.as_bytes()) else {
        panic!(rt; "no program: {text}");
    };
    match run(alloc, &program, input) {
        Ok((outcome, _)) => outcome,
        Err(fault) => panic!(rt; "{fault}: {text}"),
    }
}

/// Returns how many of 200 schedules of a program have the outcome of the serial run. The input is
/// a text of numbers. A schedule that stops fails the test.
pub fn as_serially(rt: &impl Abort, alloc: Global, text: &str, numbers: &str) -> u32 {
    let Ok(input) = parse_input(alloc, numbers.as_bytes()) else {
        panic!(rt; "no input: {numbers}");
    };
    let code = code_of(rt, alloc, text);
    let expected = serially(rt, alloc, text, &input);
    let mut count: u32 = 0;
    for seed in 0..200u32 {
        match by_chance(rt, alloc, &code, &input, seed) {
            Ok(outcome) => {
                if is_same(&outcome, &expected) {
                    count = count.saturating_add(1);
                }
            }
            Err(_) => panic!(rt; "a play stopped: {text}"),
        }
    }
    count
}

#[test]
fn a_fault_stops_each_schedule(rt: HostRuntime) {
    let alloc = rt.alloc();
    let code = code_of(&rt, alloc, DIVIDE);
    let input = no_input(alloc);
    for seed in 0..200u32 {
        let stop = by_chance(&rt, alloc, &code, &input, seed);
        assert!(rt;
            matches!(
                stop,
                Err(Stop::At {
                    fault: _,
                    strand: _
                })
            ),
            "{seed}"
        );
    }
}

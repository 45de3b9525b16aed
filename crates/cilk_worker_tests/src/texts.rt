//! Accepted programs: certified by their serial runs, and checked.

use cilk_cert_maker::make::make;
use cilk_cert_text::write::write;
use cilk_checker::accepted::Accepted;
use cilk_checker::judge::program;
use cilk_checker::texts::check;
use cilk_parser::input::parse_input;
use cilk_plan::program_plan::{ProgramPlan, plan};
use cilk_types::input::Input;
use std::alloc::Global;
use std::process::Abort;

// The text of the certificate of a program's run on an input.
fn certificate(alloc: Global, text: &str, numbers: &str) -> Option<Vec<u8>> {
    let program = program(alloc, text.as_bytes()).ok()?;
    let input = parse_input(alloc, numbers.as_bytes()).ok()?;
    let certificate = make(alloc, &program, &input).ok()?;
    write(alloc, &certificate).ok()
}

// A program that is accepted on an input with its own certificate, if there is memory for that.
fn certified(alloc: Global, text: &str, numbers: &str) -> Option<Accepted> {
    let certificate = certificate(alloc, text, numbers)?;
    check(
        alloc,
        text.as_bytes(),
        numbers.as_bytes(),
        certificate.as_slice(),
    )
    .ok()
}

/// Certifies and checks a program's run on an input.
pub fn accepted(rt: &impl Abort, alloc: Global, text: &str, numbers: &str) -> Accepted {
    match certified(alloc, text, numbers) {
        Some(accepted) => accepted,
        None => panic!(rt; "no memory ahead of the runs"),
    }
}

/// Returns the input of a text.
pub fn input_of(rt: &impl Abort, alloc: Global, numbers: &str) -> Input {
    let Ok(input) = parse_input(alloc, numbers.as_bytes()) else {
        panic!(rt; "no memory ahead of the runs");
    };
    input
}

/// Returns the plan of an accepted program's run.
pub fn planned<'a>(rt: &impl Abort, alloc: Global, accepted: &'a Accepted) -> ProgramPlan<'a> {
    let Ok(plan) = plan(alloc, accepted) else {
        panic!(rt; "no memory ahead of the runs");
    };
    plan
}

//! The player of scripts.

ghost use Rattle.std.specs.Prelude.{◌≡◌, ◌<◌, ℕ, ◌∷◌, [], IfOk, IfErr, OnOk};
ghost use Rattle.cilk_schedule.specs.Playing.{Choose, ComesToFault, Ends, FailsAsSettled, IsFault, IsFaultOf, IsLeft, Leads, LeavesAsSettled};
ghost use Rattle.cilk_schedule.specs.Playing.{Rounds, Turn, task_of, tasks_of, turns};
ghost use Rattle.cilk_lower.specs.Behaves.{IsCodeOf};
ghost use Rattle.cilk_program.specs.Sources.{source};
ghost use Rattle.cilk_program.specs.Syntax.{Source};
ghost use Rattle.cilk_schedule.specs.Played.{IsUnstopped};

use crate::fault::PlayFault;
use crate::machine::Machine;
use crate::running;
use cilk_lower::code::Code;
use cilk_lower::lower::lower;
use cilk_parser::script::Step;
use cilk_parser::script_choices::{Choices, Next};
use cilk_program::program::Program;
use cilk_scheduler::choice::{Choice, Stop};
use cilk_types::input::Input;
use cilk_types::outcome::Outcome;
use std::alloc::Global;

/// The maximum number of rounds that one `all` makes.
pub const MAX_ROUNDS: u32 = 4_000_000;

/// Makes the choices of a script's steps on a machine with `workers` workers, at least 1. Returns the
/// outcome, or `None` if the run hasn't ended. A stop ends the script.
///
/// Unless memory runs out, the result is the only end that the script has by the rules of the free
/// machine. If one serial run settles the program, the outcome is that run's, and no strand stops
/// by a fault. Apart from the choices' own cost, the time is linear in their number.
pub fn play(
    alloc: Global,
    program: &Program,
    input: &Input,
    workers: u32,
    steps: &[Step],
) -> Result<Option<Outcome>, PlayFault>
    requires { 0 < workers }
    ensures left { IfOk result (λ o. IsLeft (source program.now) input.now workers steps.now o) }
    ensures fault { IfErr result (λ f. IsFault (Ends (source program.now) input.now workers steps.now) f) }
    ensures settled { IfOk result (λ left. LeavesAsSettled (source program.now) input.now left) }
    ensures no_stop { IfErr result (λ f. FailsAsSettled (source program.now) input.now f) }
{
    let code = lower(alloc, program)?;
    play_on(alloc, &code, input, workers, steps)
}

/// Returns what [`play`] does of each program that has this code: for several scripts of one program,
/// which is lowered once.
pub fn play_on(
    alloc: Global,
    code: &Code,
    input: &Input,
    workers: u32,
    steps: &[Step],
) -> Result<Option<Outcome>, PlayFault>
    requires { 0 < workers }
    ensures left { IfOk result (λ o. (p : Source) → IsCodeOf p code.now → IsLeft p input.now workers steps.now o) }
    ensures fault { IfErr result (λ f. (p : Source) → IsCodeOf p code.now → IsFault (Ends p input.now workers steps.now) f) }
    ensures settled { IfOk result (λ left. (p : Source) → IsCodeOf p code.now → LeavesAsSettled p input.now left) }
    ensures no_stop { IfErr result (λ f. (p : Source) → IsCodeOf p code.now → FailsAsSettled p input.now f) }
{
    let mut machine = Machine::new(alloc, code, input, workers)?;
    make_all(alloc, &mut machine, workers, steps)?;
    Ok(machine.into_outcome())
}

// Makes all choices of the steps.
fn make_all(
    alloc: Global,
    machine: &mut Machine<'_>,
    workers: u32,
    steps: &[Step],
) -> Result<(), PlayFault>
    requires { IsUnstopped machine.old }
    ensures made { OnOk result (Leads workers (tasks_of steps.now) machine.old [] machine.new) }
    ensures fault { IfErr result (λ f. ComesToFault workers (tasks_of steps.now) machine.old f) }
{
    let mut choices = Choices::new(steps);
    'choices: while let Some(next) = choices.next() {
        make(alloc, machine, workers, next)?;
    }
    Ok(())
}

// Makes the next choice of a script, or its rounds.
fn make(alloc: Global, machine: &mut Machine<'_>, workers: u32, next: Next) -> Result<(), PlayFault>
    requires { IsUnstopped machine.old }
    ensures going { OnOk result (IsUnstopped machine.new) }
    ensures made { OnOk result (Leads workers (task_of next ∷ []) machine.old [] machine.new) }
    ensures fault { IfErr result (λ f. ComesToFault workers (task_of next ∷ []) machine.old f) }
{
    match next {
        Next::Run(worker) => choose::<0>(alloc, machine, Choice::Run(worker)),
        Next::Steal(worker, place) => choose::<0>(
            alloc,
            machine,
            Choice::Steal(worker, place as usize),
        ),
        Next::Rounds => rounds(alloc, machine, workers),
        Next::Past(line) => Err(PlayFault::Line(line)),
    }
}

/// Makes rounds of all workers until the run has ended, at most `MAX_ROUNDS`.
pub fn rounds(alloc: Global, machine: &mut Machine<'_>, workers: u32) -> Result<(), PlayFault>
    requires { IsUnstopped machine.old }
    ensures going { OnOk result (IsUnstopped machine.new) }
    ensures made { OnOk result (Leads workers (Rounds MAX_ROUNDS ∷ []) machine.old [] machine.new) }
    ensures fault { IfErr result (λ f. ComesToFault workers (Rounds MAX_ROUNDS ∷ []) machine.old f) }
{
    if workers == 1 {
        return rounds_of_one(alloc, machine);
    }
    'rounds: for _made in 0..MAX_ROUNDS {
        if machine.ended() {
            return Ok(());
        }
        round(alloc, machine, workers)?;
    }
    Ok(())
}

// `rounds` of one worker: stretches of its choices.
fn rounds_of_one(alloc: Global, machine: &mut Machine<'_>) -> Result<(), PlayFault>
    requires { IsUnstopped machine.old }
    ensures going { OnOk result (IsUnstopped machine.new) }
    ensures made { OnOk result (Leads 1 (Rounds MAX_ROUNDS ∷ []) machine.old [] machine.new) }
    ensures fault { IfErr result (λ f. ComesToFault 1 (Rounds MAX_ROUNDS ∷ []) machine.old f) }
{
    let mut left = MAX_ROUNDS;
    'stretches: while left > 0 {
        let made = match machine.choose_many(alloc, 1, left) {
            Ok(made) => made,
            Err(stop) => return Err(stopped(alloc, machine, stop)),
        };
        left -= made;
        if left == 0 {
            return Ok(());
        }
        if machine.ended() {
            return Ok(());
        }
        round(alloc, machine, 1)?;
        left -= 1;
    }
    Ok(())
}

// Makes one round: a turn of each worker, in order.
fn round(alloc: Global, machine: &mut Machine<'_>, workers: u32) -> Result<(), PlayFault>
    requires { IsUnstopped machine.old }
    ensures going { OnOk result (IsUnstopped machine.new) }
    ensures made { OnOk result (Leads workers (turns 1 workers) machine.old [] machine.new) }
    ensures fault { IfErr result (λ f. ComesToFault workers (turns 1 workers) machine.old f) }
{
    'turns: for number in 0..workers {
        turn(alloc, machine, number + 1)?;
    }
    Ok(())
}

// A worker's turn: it continues its frame, or steals the first continuation that is offered.
fn turn(alloc: Global, machine: &mut Machine<'_>, worker: u32) -> Result<(), PlayFault>
    requires { IsUnstopped machine.old }
    ensures going { OnOk result (IsUnstopped machine.new) }
    ensures made { OnOk result ((workers : ℕ) → Leads workers (Turn worker ∷ []) machine.old [] machine.new) }
    ensures fault { IfErr result (λ f. (workers : ℕ) → ComesToFault workers (Turn worker ∷ []) machine.old f) }
{
    let choice = if machine.holds(worker) {
        Choice::Run(worker)
    } else {
        Choice::Steal(worker, 0)
    };
    choose::<1>(alloc, machine, choice)
}

// Makes a choice. A stop is reported with the name of its strand. A round takes its own `COPY`, so that
// the compiler makes all of a choice a part of it.
#[inline(always)]
fn choose<const COPY: u8>(
    alloc: Global,
    machine: &mut Machine<'_>,
    choice: Choice,
) -> Result<(), PlayFault>
    requires { IsUnstopped machine.old }
    ensures going { OnOk result (IsUnstopped machine.new) }
    ensures made { OnOk result ((workers : ℕ) → Leads workers (Choose choice ∷ []) machine.old [] machine.new) }
    ensures fault { IfErr result (λ f. (workers : ℕ) → ComesToFault workers (Choose choice ∷ []) machine.old f) }
{
    let scheduler = &mut machine.scheduler;
    match running::choose::<COPY>(alloc, machine.code, machine.input, scheduler, choice) {
        Ok(_told) => Ok(()),
        Err(stop) => Err(stopped(alloc, machine, stop)),
    }
}

/// Returns the error that reports a stop. Apart, so that a choice that doesn't stop is short.
#[inline(never)]
pub fn stopped(alloc: Global, machine: &Machine<'_>, stop: Stop) -> PlayFault
    ensures { IsFaultOf machine.now.scheduler stop result }
{
    let Stop::At { fault, strand: _ } = stop else {
        return PlayFault::Memory;
    };
    match machine.name(alloc, stop) {
        Ok(name) => PlayFault::Stop { fault, name },
        Err(_) => PlayFault::Memory,
    }
}

//! The player of scripts each of whose choices has to be made.

ghost use Rattle.std.specs.Prelude.{◌≡◌, ◌<◌, ◌∷◌, [], ℕ, replicate, true, IfOk, IfErr, IsTrue, OnOk};
ghost use Rattle.cilk_lower.specs.Behaves.{IsCodeOf};
ghost use Rattle.cilk_parser.specs.ScriptChoices.{count_of};
ghost use Rattle.cilk_parser.specs.declared.script_choices.TheConstants.{MAX_CHOICES};
ghost use Rattle.cilk_program.specs.Sources.{source};
ghost use Rattle.cilk_program.specs.Syntax.{Source};
ghost use Rattle.cilk_scheduler.specs.declared.choice.Told.TheVariants as tells;
ghost use Rattle.cilk_schedule.specs.Played.{IsUnstopped};
ghost use Rattle.cilk_schedule.specs.Playing.{Choose, IsLeft, LeavesAsSettled};
ghost use Rattle.cilk_schedule.specs.Strict.{FailsOn, FailsStrictly, FailsStrictlyAsSettled, HasMade, IsStrict, IsStrictFault, MakesMore, line_tasks, tasks_within};

use crate::fault::PlayFault;
use crate::machine::Machine;
use crate::player::{rounds, stopped};
use crate::unmade::{Skip, StrictFault, reason_of};
use cilk_lower::code::Code;
use cilk_lower::lower::lower;
use cilk_parser::script::{LineOrder, Step};
use cilk_parser::script_choices::MAX_CHOICES;
use cilk_program::program::Program;
use cilk_scheduler::choice::{Choice, Told};
use cilk_types::input::Input;
use cilk_types::outcome::Outcome;
use std::alloc::Global;

/// Makes the choices of a script's steps as [`crate::play_steps`], up to the first that can't be made,
/// which is the error. A worker's turn in a round isn't a choice of the script, and may be skipped.
///
/// An outcome, a stop or a line past the limit is the result only if each choice before it can be
/// made. Unless memory runs out, the result is the only one
/// ([`crate::play_laws::skips_are_one`]).
pub fn play_strictly(
    alloc: Global,
    program: &Program,
    input: &Input,
    workers: u32,
    steps: &[Step],
) -> Result<Option<Outcome>, StrictFault>
    requires { 0 < workers }
    ensures left { IfOk result (λ o. IsLeft (source program.now) input.now workers steps.now o) }
    ensures all { OnOk result (IsStrict (source program.now) input.now workers steps.now) }
    ensures fault { IfErr result (λ f. IsStrictFault (source program.now) input.now workers steps.now f) }
    ensures settled { IfOk result (λ left. LeavesAsSettled (source program.now) input.now left) }
    ensures no_stop { IfErr result (λ f. FailsStrictlyAsSettled (source program.now) input.now f) }
{
    let code = lower(alloc, program)?;
    play_strictly_on(alloc, &code, input, workers, steps)
}

/// Returns what [`play_strictly`] does of each program that has this code.
pub fn play_strictly_on(
    alloc: Global,
    code: &Code,
    input: &Input,
    workers: u32,
    steps: &[Step],
) -> Result<Option<Outcome>, StrictFault>
    requires { 0 < workers }
    ensures left { IfOk result (λ o. (p : Source) → IsCodeOf p code.now → IsLeft p input.now workers steps.now o) }
    ensures all { OnOk result ((p : Source) → IsCodeOf p code.now → IsStrict p input.now workers steps.now) }
    ensures fault { IfErr result (λ f. (p : Source) → IsCodeOf p code.now → IsStrictFault p input.now workers steps.now f) }
    ensures settled { IfOk result (λ left. (p : Source) → IsCodeOf p code.now → LeavesAsSettled p input.now left) }
    ensures no_stop { IfErr result (λ f. (p : Source) → IsCodeOf p code.now → FailsStrictlyAsSettled p input.now f) }
{
    let mut machine = Machine::new(alloc, code, input, workers)?;
    make_all(alloc, &mut machine, workers, steps)?;
    Ok(machine.into_outcome())
}

// Makes all choices of the steps, on a new machine.
fn make_all(
    alloc: Global,
    machine: &mut Machine<'_>,
    workers: u32,
    steps: &[Step],
) -> Result<(), StrictFault>
    requires { IsUnstopped machine.old }
    ensures made { OnOk result (HasMade workers machine.old (tasks_within MAX_CHOICES steps.now) machine.new) }
    ensures fault { IfErr result (λ f. FailsStrictly workers machine.old (tasks_within MAX_CHOICES steps.now) f) }
{
    let mut room = MAX_CHOICES;
    'steps: for step in steps {
        let count = count_of(step.order);
        if room < count {
            return Err(StrictFault::Play(PlayFault::Line(step.line)));
        }
        make_step(alloc, machine, workers, *step)?;
        room -= count;
    }
    Ok(())
}

/// Returns the number of choices of an order. Those of `all` don't count.
pub fn count_of(order: LineOrder) -> u32
    ensures { result ≡ count_of order }
{
    match order {
        LineOrder::Run { worker: _, count } => count,
        LineOrder::Steal { .. } => 1,
        LineOrder::All => 0,
    }
}

// Makes the choices of a step, or its rounds.
fn make_step(
    alloc: Global,
    machine: &mut Machine<'_>,
    workers: u32,
    step: Step,
) -> Result<(), StrictFault>
    requires { IsUnstopped machine.old }
    ensures going { OnOk result (IsUnstopped machine.new) }
    ensures made { OnOk result (MakesMore workers (line_tasks step.line step.order) machine.old machine.new) }
    ensures fault { IfErr result (λ f. FailsOn workers (line_tasks step.line step.order) machine.old f) }
{
    match step.order {
        LineOrder::Run { worker, count } => {
            repeat(alloc, machine, step.line, Choice::Run(worker), count)
        }
        LineOrder::Steal { worker, place } => {
            let choice = Choice::Steal(worker, place as usize);
            make(alloc, machine, step.line, choice)
        }
        LineOrder::All => match rounds(alloc, machine, workers) {
            Ok(()) => Ok(()),
            Err(fault) => Err(StrictFault::Play(fault)),
        },
    }
}

// Makes a choice `count` times.
fn repeat(
    alloc: Global,
    machine: &mut Machine<'_>,
    line: usize,
    choice: Choice,
    count: u32,
) -> Result<(), StrictFault>
    requires { IsUnstopped machine.old }
    ensures going { OnOk result (IsUnstopped machine.new) }
    ensures made { OnOk result ((workers : ℕ) → MakesMore workers (replicate count (record { line = line; task = Choose choice })) machine.old machine.new) }
    ensures fault { IfErr result (λ f. (workers : ℕ) → FailsOn workers (replicate count (record { line = line; task = Choose choice })) machine.old f) }
{
    'times: for _made in 0..count {
        make(alloc, machine, line, choice)?;
    }
    Ok(())
}

// Makes a choice, if it can be made.
fn make(
    alloc: Global,
    machine: &mut Machine<'_>,
    line: usize,
    choice: Choice,
) -> Result<(), StrictFault>
    requires { IsUnstopped machine.old }
    ensures going { OnOk result (IsUnstopped machine.new) }
    ensures made { OnOk result ((workers : ℕ) → MakesMore workers ((record { line = line; task = Choose choice }) ∷ []) machine.old machine.new) }
    ensures fault { IfErr result (λ f. (workers : ℕ) → FailsOn workers ((record { line = line; task = Choose choice }) ∷ []) machine.old f) }
{
    match machine.choose(alloc, choice) {
        Ok(told) => {
            if is_skip(&told) {
                let reason = reason_of(machine, choice);
                let skip = Skip {
                    line,
                    choice,
                    reason,
                };
                Err(StrictFault::Skipped(skip))
            } else {
                Ok(())
            }
        }
        Err(stop) => Err(StrictFault::Play(stopped(alloc, machine, stop))),
    }
}

/// Returns whether a choice was skipped.
pub fn is_skip(told: &Told) -> bool
    ensures yes { IsTrue result → told.now ≡ tells.Skipped }
    ensures no { told.now ≡ tells.Skipped → result ≡ true }
{
    matches!(told, Told::Skipped)
}

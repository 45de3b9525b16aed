//! The player of scripts that counts the choices that are skipped.

ghost use Rattle.std.specs.Prelude.{◌≡◌, ◌+◌, ◌<◌, ◌≤◌, ◌∷◌, [], ℕ, map, replicate, IfOk, IfErr, OnOk};
ghost use Rattle.cilk_lower.specs.Behaves.{IsCodeOf};
ghost use Rattle.cilk_parser.specs.ScriptChoices.{count_of};
ghost use Rattle.cilk_parser.specs.declared.script_choices.TheConstants.{MAX_CHOICES};
ghost use Rattle.cilk_program.specs.Sources.{source};
ghost use Rattle.cilk_program.specs.Syntax.{Source};
ghost use Rattle.cilk_schedule.specs.Played.{IsUnstopped};
ghost use Rattle.cilk_schedule.specs.Playing.{Choose, ComesToFault, Ends, FailsAsSettled, IsFault, IsLeft, LeavesAsSettled};
ghost use Rattle.cilk_schedule.specs.Strict.{AreSkips, FailsBehind, HasPlayed, PlaysMore, line_tasks, noted, task_in, tasks_within};

use crate::fault::PlayFault;
use crate::machine::Machine;
use crate::player::{rounds, stopped};
use crate::strict::{count_of, is_skip};
use crate::unmade::{CountedPlay, Skip, Skips, reason_of};
use cilk_lower::code::Code;
use cilk_lower::lower::lower;
use cilk_parser::script::{LineOrder, Step};
use cilk_parser::script_choices::MAX_CHOICES;
use cilk_program::program::Program;
use cilk_scheduler::choice::Choice;
use cilk_types::input::Input;
use std::alloc::Global;

/// Makes the choices of a script's steps as [`crate::play_steps`]. Returns the outcome, and how many of
/// the script's own choices were skipped, with the first of them. A worker's turn in a round isn't a
/// choice of the script.
pub fn play_counting(
    alloc: Global,
    program: &Program,
    input: &Input,
    workers: u32,
    steps: &[Step],
) -> Result<CountedPlay, PlayFault>
    requires { 0 < workers }
    ensures left { IfOk result (λ played. IsLeft (source program.now) input.now workers steps.now played.outcome) }
    ensures skips { IfOk result (λ played. AreSkips (source program.now) input.now workers (tasks_within MAX_CHOICES steps.now) played.skips) }
    ensures fault { IfErr result (λ f. IsFault (Ends (source program.now) input.now workers steps.now) f) }
    ensures settled { IfOk result (λ played. LeavesAsSettled (source program.now) input.now played.outcome) }
    ensures no_stop { IfErr result (λ f. FailsAsSettled (source program.now) input.now f) }
{
    let code = lower(alloc, program)?;
    play_counting_on(alloc, &code, input, workers, steps)
}

/// Returns what [`play_counting`] does of each program that has this code.
pub fn play_counting_on(
    alloc: Global,
    code: &Code,
    input: &Input,
    workers: u32,
    steps: &[Step],
) -> Result<CountedPlay, PlayFault>
    requires { 0 < workers }
    ensures left { IfOk result (λ played. (p : Source) → IsCodeOf p code.now → IsLeft p input.now workers steps.now played.outcome) }
    ensures skips { IfOk result (λ played. (p : Source) → IsCodeOf p code.now → AreSkips p input.now workers (tasks_within MAX_CHOICES steps.now) played.skips) }
    ensures fault { IfErr result (λ f. (p : Source) → IsCodeOf p code.now → IsFault (Ends p input.now workers steps.now) f) }
    ensures settled { IfOk result (λ played. (p : Source) → IsCodeOf p code.now → LeavesAsSettled p input.now played.outcome) }
    ensures no_stop { IfErr result (λ f. (p : Source) → IsCodeOf p code.now → FailsAsSettled p input.now f) }
{
    let mut machine = Machine::new(alloc, code, input, workers)?;
    let skips = make_all(alloc, &mut machine, workers, steps)?;
    let outcome = machine.into_outcome();
    Ok(CountedPlay { outcome, skips })
}

// Makes all choices of the steps, on a new machine. Returns those that were skipped.
fn make_all(
    alloc: Global,
    machine: &mut Machine<'_>,
    workers: u32,
    steps: &[Step],
) -> Result<Skips, PlayFault>
    requires { IsUnstopped machine.old }
    ensures made { IfOk result (λ skips. HasPlayed workers machine.old (tasks_within MAX_CHOICES steps.now) machine.new skips) }
    ensures fault { IfErr result (λ f. ComesToFault workers (map task_in (tasks_within MAX_CHOICES steps.now)) machine.old f) }
{
    let mut skips = Skips {
        count: 0,
        first: None,
    };
    let mut room = MAX_CHOICES;
    'steps: for step in steps {
        let count = count_of(step.order);
        if room < count {
            return Err(PlayFault::Line(step.line));
        }
        make_step(alloc, machine, workers, *step, &mut skips)?;
        room -= count;
    }
    Ok(skips)
}

// Makes the choices of a step, or its rounds.
fn make_step(
    alloc: Global,
    machine: &mut Machine<'_>,
    workers: u32,
    step: Step,
    skips: &mut Skips,
) -> Result<(), PlayFault>
    requires going { IsUnstopped machine.old }
    requires room { skips.old.count + count_of step.order ≤ MAX_CHOICES }
    ensures going { OnOk result (IsUnstopped machine.new) }
    ensures few { skips.new.count ≤ skips.old.count + count_of step.order }
    ensures made { OnOk result (PlaysMore workers (line_tasks step.line step.order) machine.old skips.old machine.new skips.new) }
    ensures fault { IfErr result (λ f. FailsBehind workers (line_tasks step.line step.order) machine.old skips.old f) }
{
    match step.order {
        LineOrder::Run { worker, count } => repeat(
            alloc,
            machine,
            step.line,
            Choice::Run(worker),
            count,
            skips,
        ),
        LineOrder::Steal { worker, place } => {
            let choice = Choice::Steal(worker, place as usize);
            make(alloc, machine, step.line, choice, skips)
        }
        LineOrder::All => rounds(alloc, machine, workers),
    }
}

// Makes a choice `count` times.
fn repeat(
    alloc: Global,
    machine: &mut Machine<'_>,
    line: usize,
    choice: Choice,
    count: u32,
    skips: &mut Skips,
) -> Result<(), PlayFault>
    requires going { IsUnstopped machine.old }
    requires room { skips.old.count + count ≤ MAX_CHOICES }
    ensures going { OnOk result (IsUnstopped machine.new) }
    ensures few { skips.new.count ≤ skips.old.count + count }
    ensures made { OnOk result ((workers : ℕ) → PlaysMore workers (replicate count (record { line = line; task = Choose choice })) machine.old skips.old machine.new skips.new) }
    ensures fault { IfErr result (λ f. (workers : ℕ) → FailsBehind workers (replicate count (record { line = line; task = Choose choice })) machine.old skips.old f) }
{
    'times: for _made in 0..count {
        make(alloc, machine, line, choice, skips)?;
    }
    Ok(())
}

// Makes a choice, or notes that it can't be made.
fn make(
    alloc: Global,
    machine: &mut Machine<'_>,
    line: usize,
    choice: Choice,
    skips: &mut Skips,
) -> Result<(), PlayFault>
    requires going { IsUnstopped machine.old }
    requires room { skips.old.count < MAX_CHOICES }
    ensures going { OnOk result (IsUnstopped machine.new) }
    ensures few { skips.new.count ≤ skips.old.count + 1 }
    ensures made { OnOk result ((workers : ℕ) → PlaysMore workers ((record { line = line; task = Choose choice }) ∷ []) machine.old skips.old machine.new skips.new) }
    ensures fault { IfErr result (λ f. (workers : ℕ) → FailsBehind workers ((record { line = line; task = Choose choice }) ∷ []) machine.old skips.old f) }
{
    match machine.choose(alloc, choice) {
        Ok(told) => {
            if is_skip(&told) {
                let reason = reason_of(machine, choice);
                let skip = Skip {
                    line,
                    choice,
                    reason,
                };
                note(skips, skip);
                Ok(())
            } else {
                Ok(())
            }
        }
        Err(stop) => Err(stopped(alloc, machine, stop)),
    }
}

// Notes a choice that was skipped.
fn note(skips: &mut Skips, skip: Skip)
    requires { skips.old.count < MAX_CHOICES }
    ensures { skips.new ≡ noted skips.old skip }
{
    skips.count += 1;
    if skips.first.is_none() {
        skips.first = Some(skip);
    }
}

//! Judges texts, runs and certifies programs, and plays scripts. Each error is the failure to show.

ghost use Rattle.std.specs.Prelude.{◌≡◌, ◌<◌, IfOk, IfErr, map};
ghost use Rattle.cilk_checker.specs.Judging.{IsProgramText, meant};
ghost use Rattle.cilk_commands.specs.Replies.{NoMemory, answer_view, failure_view};
ghost use Rattle.cilk_parser.specs.Scripts.{IsScript};
ghost use Rattle.cilk_commands.specs.Shown.{CertifyShows, InputFails, MannerShows, ProgramFails, RunShows, SettleShows, ScriptFails, SkipsShow, StepsShow, StrictlyShow, TextShows, left_view, play_fault_view, refusal_of, run_fault_view, strict_fault_view};
ghost use Rattle.cilk_parser.specs.Inputs.{IsInput};

use crate::reply::{Answer, Failure};
use cilk_cert_maker::make::make;
use cilk_checker::fault::ProgramFault;
use cilk_checker::judge;
use cilk_checker::refusal::Refusal;
use cilk_checker::settle::{FirstRace, Verdict, settle as settle_run};
use cilk_messages::words::Manner;
use cilk_parser::fault::TextFault;
use cilk_parser::input::parse_input;
use cilk_parser::script::{ScriptFault, Step, read};
use cilk_program::program::{GlobalReducer, Program};
use cilk_schedule::{PlayFault, Skips, StrictFault, play_counting, play_steps, play_strictly};
use cilk_serial::fault::RunFault;
use cilk_serial::run::run as run_serially;
use cilk_types::input::Input;
use cilk_types::outcome::Outcome;
use cilk_types::sequence::Sequence;
use std::alloc::{AllocError, Global};

/// Returns the program of a text.
pub fn program<'a>(alloc: Global, text: &[u8]) -> Result<Program, Failure<'a>>
    ensures ok { IfOk result (λ p. IsProgramText text.now (meant p)) }
    ensures err { IfErr result (λ e. ProgramFails text.now (failure_view e)) }
{
    match judge::program(alloc, text) {
        Ok(program) => Ok(program),
        Err(ProgramFault::Memory) => Err(Failure::Memory),
        Err(ProgramFault::Text(fault, place)) => Err(Failure::Program {
            number: fault.number(),
            place,
        }),
        Err(ProgramFault::Name(fault, place)) => Err(Failure::Program {
            number: fault.number(),
            place,
        }),
    }
}

/// Returns the numbers of an input text.
pub fn input<'a>(alloc: Global, text: &[u8]) -> Result<Input, Failure<'a>>
    ensures ok { IfOk result (λ i. IsInput text.now i) }
    ensures err { IfErr result (λ e. InputFails text.now (failure_view e)) }
{
    match parse_input(alloc, text) {
        Ok(input) => Ok(input),
        Err(TextFault::Memory) => Err(Failure::Memory),
        Err(TextFault::At(fault, place)) => Err(Failure::Input {
            number: fault.number(),
            place,
        }),
    }
}

/// Returns the names of reducers, in order.
pub fn names(
    alloc: Global,
    reducers: &[GlobalReducer],
) -> Result<Sequence<Sequence<u8>>, AllocError>
    ensures { IfOk result (λ names. names ≡ map (λ r. r.name) reducers.now) }
{
    let mut names = Vec::new(alloc);
    for reducer in reducers {
        let name = reducer.name.as_slice().to_vec(alloc)?;
        names.push(Sequence::new(name))?;
    }
    Ok(Sequence::new(names))
}

/// Returns the failure that shows a run's fault.
pub fn stopped<'a>(fault: &RunFault) -> Failure<'a>
    ensures { failure_view result ≡ run_fault_view fault.now }
{
    match fault {
        RunFault::Memory => Failure::Memory,
        RunFault::At { fault, at } => Failure::Run {
            number: fault.number(),
            at: *at,
        },
    }
}

/// Runs a program serially, and returns its outcome.
pub fn run<'a>(alloc: Global, program: &Program, input: &Input) -> Result<Answer, Failure<'a>>
    ensures ok { IfOk result (λ a. RunShows (meant program.now) input.now (answer_view a)) }
    ensures err { IfErr result (λ e. RunShows (meant program.now) input.now (failure_view e)) }
{
    match run_serially(alloc, program, input) {
        Ok((outcome, _trace)) => Ok(Answer::Outcome {
            names: names(alloc, program.reducers.as_slice())?,
            outcome,
        }),
        Err(fault) => Err(stopped(&fault)),
    }
}

// The refusal of a run that races.
pub(crate) fn refusal(first: FirstRace) -> Refusal
    ensures { result ≡ refusal_of first }
{
    match first {
        FirstRace::Determinacy { earlier, later } => Refusal::Race { earlier, later },
        FirstRace::ViewRead { created, used } => Refusal::ViewRace { created, used },
    }
}

/// Runs a program serially, and returns the outcome of every parallel run, or the first race.
pub fn settle<'a>(alloc: Global, program: &Program, input: &Input) -> Result<Answer, Failure<'a>>
    ensures ok { IfOk result (λ a. SettleShows (meant program.now) input.now (answer_view a)) }
    ensures err { IfErr result (λ e. SettleShows (meant program.now) input.now (failure_view e)) }
{
    match settle_run(alloc, program, input) {
        Ok(Verdict::Settled(outcome)) => Ok(Answer::Settled {
            names: names(alloc, program.reducers.as_slice())?,
            outcome,
        }),
        Ok(Verdict::Race(first)) => Ok(Answer::Refused(refusal(first))),
        Err(fault) => Err(stopped(&fault)),
    }
}

/// Returns the certificate of a program's run.
pub fn certificate<'a>(
    alloc: Global,
    program: &Program,
    input: &Input,
) -> Result<Answer, Failure<'a>>
    ensures ok { IfOk result (λ a. CertifyShows (meant program.now) input.now (answer_view a)) }
    ensures err { IfErr result (λ e. CertifyShows (meant program.now) input.now (failure_view e)) }
{
    match make(alloc, program, input) {
        Ok(certificate) => Ok(Answer::Certificate(certificate)),
        Err(fault) => Err(stopped(&fault)),
    }
}

// The steps of a script's text.
fn steps<'a>(alloc: Global, text: &[u8]) -> Result<Vec<Step>, Failure<'a>>
    ensures ok { IfOk result (λ steps. IsScript text.now steps.items) }
    ensures err { IfErr result (λ e. ScriptFails text.now (failure_view e)) }
{
    match read(alloc, text) {
        Ok(steps) => Ok(steps),
        Err(ScriptFault::Memory) => Err(Failure::Memory),
        Err(ScriptFault::Line(line)) => Err(Failure::Script(line)),
    }
}

// The failure that shows a script's fault.
fn unplayed<'a>(fault: PlayFault) -> Failure<'a>
    ensures { failure_view result ≡ play_fault_view fault }
{
    match fault {
        PlayFault::Line(line) => Failure::Script(line),
        PlayFault::Stop { fault, name } => Failure::Strand {
            number: fault.number(),
            name,
        },
        PlayFault::Memory => Failure::Memory,
    }
}

// The answer to a script that is played to its end: the outcome, if the run has ended.
fn left<'a>(
    alloc: Global,
    program: &Program,
    outcome: Option<Outcome>,
) -> Result<Answer, Failure<'a>>
    ensures ok { IfOk result (λ a. answer_view a ≡ left_view (meant program.now) outcome) }
    ensures err { IfErr result (λ e. failure_view e ≡ NoMemory) }
{
    match outcome {
        Some(outcome) => Ok(Answer::Outcome {
            names: names(alloc, program.reducers.as_slice())?,
            outcome,
        }),
        None => Ok(Answer::NotEnded),
    }
}

// Plays the steps of a script with `workers` workers, at least 1.
fn steps_left<'a>(
    alloc: Global,
    program: &Program,
    input: &Input,
    workers: u32,
    steps: &[Step],
) -> Result<Answer, Failure<'a>>
    requires { 0 < workers }
    ensures ok { IfOk result (λ a. StepsShow workers steps.now (meant program.now) input.now (answer_view a)) }
    ensures err { IfErr result (λ e. StepsShow workers steps.now (meant program.now) input.now (failure_view e)) }
{
    match play_steps(alloc, program, input, workers, steps) {
        Ok(outcome) => left(alloc, program, outcome),
        Err(fault) => Err(unplayed(fault)),
    }
}

// The failure that shows why a script wasn't played strictly to its end.
fn unmade<'a>(fault: StrictFault) -> Failure<'a>
    ensures { failure_view result ≡ strict_fault_view fault }
{
    match fault {
        StrictFault::Skipped(skip) => Failure::Unmade(skip),
        StrictFault::Play(fault) => unplayed(fault),
    }
}

// Plays the steps of a script with `workers` workers, at least 1, up to the first choice that can't be
// made.
fn strictly_left<'a>(
    alloc: Global,
    program: &Program,
    input: &Input,
    workers: u32,
    steps: &[Step],
) -> Result<Answer, Failure<'a>>
    requires { 0 < workers }
    ensures ok { IfOk result (λ a. StrictlyShow workers steps.now (meant program.now) input.now (answer_view a)) }
    ensures err { IfErr result (λ e. StrictlyShow workers steps.now (meant program.now) input.now (failure_view e)) }
{
    match play_strictly(alloc, program, input, workers, steps) {
        Ok(outcome) => left(alloc, program, outcome),
        Err(fault) => Err(unmade(fault)),
    }
}

// Plays the steps of a script in a manner with at least 1 worker.
fn manner_left<'a>(
    alloc: Global,
    program: &Program,
    input: &Input,
    manner: Manner,
    steps: &[Step],
) -> Result<Answer, Failure<'a>>
    requires { 0 < manner.workers }
    ensures ok { IfOk result (λ a. MannerShows manner steps.now (meant program.now) input.now (answer_view a)) }
    ensures err { IfErr result (λ e. MannerShows manner steps.now (meant program.now) input.now (failure_view e)) }
{
    if manner.is_strict {
        strictly_left(alloc, program, input, manner.workers, steps)
    } else {
        steps_left(alloc, program, input, manner.workers, steps)
    }
}

/// Plays the script of a text in a manner with at least 1 worker.
pub fn script<'a>(
    alloc: Global,
    program: &Program,
    input: &Input,
    manner: Manner,
    text: &[u8],
) -> Result<Answer, Failure<'a>>
    requires { 0 < manner.workers }
    ensures ok { IfOk result (λ a. TextShows manner text.now (meant program.now) input.now (answer_view a)) }
    ensures err { IfErr result (λ e. TextShows manner text.now (meant program.now) input.now (failure_view e)) }
{
    let steps = steps(alloc, text)?;
    manner_left(alloc, program, input, manner, steps.as_slice())
}

/// Returns the choices that are skipped of a script's text, which is played with `workers` workers, at
/// least 1, by the texts of a program and its input.
pub fn skips<'a>(
    alloc: Global,
    source: &[u8],
    numbers: &[u8],
    workers: u32,
    script: &[u8],
) -> Result<Skips, Failure<'a>>
    requires { 0 < workers }
    ensures { IfOk result (λ skips. SkipsShow source.now numbers.now workers script.now skips) }
{
    let program = program(alloc, source)?;
    let input = input(alloc, numbers)?;
    let steps = steps(alloc, script)?;
    match play_counting(alloc, &program, &input, workers, steps.as_slice()) {
        Ok(played) => Ok(played.skips),
        Err(fault) => Err(unplayed(fault)),
    }
}

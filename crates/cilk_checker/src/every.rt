//! One serial run settles every parallel run, on every input that agrees with its own where numbers
//! decide.
//!
//! ```text
//! let every = settle_every(alloc, &program, &input, &hidden)?;
//! match every.finding {
//!     Finding::Settled(outcome) => ..,       // the outcome of every parallel run that ends
//!     Finding::Race(first) => ..,            // two positions of the serial run race
//!     Finding::Fault { fault, at } => ..,    // it stops by this fault
//! }
//! if every.is_on_every { .. }                // and so on every input with other hidden numbers
//! ```

ghost use Rattle.std.specs.Prelude.{◌≡◌, ◌+◌, ℤ, List, IfOk, MatchOption, length};
ghost use Rattle.cilk_program.specs.Sources.{source};
ghost use Rattle.cilk_program.specs.Syntax.{Source};
ghost use Rattle.cilk_lower.specs.Lowered.{IsLowered};
ghost use Rattle.cilk_oblivious.specs.Cursors.{hidden_of};
ghost use Rattle.cilk_checker.specs.Every.{IsFoundIn, IsVerdictOnEvery};
ghost use Rattle.cilk_checker.specs.Runs.{EndsWith};
ghost use Rattle.cilk_checker.specs.declared.every.Finding.TheVariants as findings;

use crate::ending::{End, run_to_end};
use crate::settle::{FirstRace, race_of};
use cilk_determinacy::words::{inputs_are_words, programs_are_of_words};
use cilk_lower::code::Code;
use cilk_oblivious::run::is_oblivious;
use cilk_program::program::Program;
use cilk_types::event::Pos;
use cilk_types::fault::Fault;
use cilk_types::input::Input;
use cilk_types::outcome::Outcome;
use cilk_types::trace::Trace;
use std::alloc::{AllocError, Global};

/// What a serial run tells of a program and an input.
#[derive(Drop)]
pub enum Finding {
    /// No two positions race, and every parallel run that ends has this outcome.
    Settled(Outcome),
    /// Two positions race.
    Race(FirstRace),
    /// The run stops by this fault, in place of the event at this position.
    Fault { fault: Fault, at: Pos },
}

/// What a serial run tells of its own input, and whether of every other one too.
#[derive(Drop)]
pub struct Every {
    /// What it tells of its own input, as [`settle`](crate::settle::settle) does.
    pub finding: Finding,
    /// Whether each input with other hidden numbers has such a finding: it is settled too, with an
    /// outcome of its own, has the same first race, or stops by the same fault at the same position.
    /// False says nothing of them.
    pub is_on_every: bool,
}

/// Runs a program serially, and returns its outcome, its first race or its fault, as
/// [`settle`](crate::settle::settle) does. If no hidden number decides anything in the run,
/// `is_on_every` is true: then the same holds of every input of as many numbers that agrees with this
/// one wherever `hidden` is false, but for the outcome. `hidden[n]` is for input number `n`, from 0;
/// a number past its end isn't hidden. Cost: linear in the ticks of the serial run; memory: linear in
/// its events.
pub fn settle_every(
    alloc: Global,
    program: &Program,
    input: &Input,
    hidden: &[bool],
) -> Result<Every, AllocError>
    ensures { IfOk result (λ e. IsVerdictOnEvery (source program.now) input.now (hidden_of hidden.now) e) }
{
    let (ending, trace) = run_to_end(alloc, program, input)?;
    settle_ended(alloc, program, input, ending, &trace, hidden)
}

/// The same, for a serial run that has ended so, with these events.
pub fn settle_ended(
    alloc: Global,
    program: &Program,
    input: &Input,
    ending: End,
    trace: &Trace,
    hidden: &[bool],
) -> Result<Every, AllocError>
    requires { EndsWith (source program.now) input.now ending trace.now }
    ensures { IfOk result (λ e. IsVerdictOnEvery (source program.now) input.now (hidden_of hidden.now) e) }
{
    programs_are_of_words(program);
    inputs_are_words(input);
    let (finding, code) = found(alloc, ending, trace)?;
    let is_on_every = is_oblivious(alloc, program, &code, input, trace.as_slice(), hidden)?;
    Ok(Every {
        finding,
        is_on_every,
    })
}

// What a serial run tells that ends so, and the program's code.
fn found(alloc: Global, ending: End, trace: &Trace) -> Result<(Finding, Code), AllocError>
    ensures { (p : Source) (inputs : List ℤ) → EndsWith p inputs ending trace.now → IfOk result (λ f. IsFoundIn p inputs trace.now f.0 × IsLowered p f.1) }
{
    match ending {
        End::Left(outcome, _frames, code) => {
            let race = race_of(alloc, trace)?;
            Ok((judged(outcome, race), code))
        }
        End::Stopped(fault, _frames, code) => {
            let at = position_after(trace);
            Ok((Finding::Fault { fault, at }, code))
        }
    }
}

// What a run without a fault tells, given its first race.
fn judged(outcome: Outcome, race: Option<FirstRace>) -> Finding
    ensures { MatchOption race (result ≡ findings.Settled outcome) (λ first. result ≡ findings.Race first) }
{
    match race {
        Some(first) => Finding::Race(first),
        None => Finding::Settled(outcome),
    }
}

// The position after the last event.
fn position_after(trace: &Trace) -> Pos
    ensures { result ≡ length trace.now + 1 }
{
    trace.len() as Pos + 1
}

//! The check of a certificate with several helpers.

ghost use Rattle.std.specs.Prelude.{◌≡◌, ◌<◌, ◌≤◌, Some, IfOk, IfErr};
ghost use Rattle.cilk_program.specs.Sources.{source as source_of};
ghost use Rattle.cilk_checker.specs.Judging.{meant as meant_by};
ghost use Rattle.cilk_checker.specs.Runs.{EndsWith};
ghost use Rattle.cilk_checker.specs.Answers.{IsCertified};
ghost use Rattle.cilk_checker.specs.OneVerdict.{AnswersOne, AnswersOnly, IsNoVerdict};
ghost use Rattle.cilk_checker.specs.Texts.{AreTexts, IsTrueAnswer, IsTrueRefusal};

use crate::depths::{Team, replays};
use crate::hints::hints;
use crate::listing::{Hints, MOST_EVENTS};
use crate::watch::Watch;
use crate::whole::retell;
use cilk_checker::accepted::Accepted;
use cilk_checker::check::check_end;
use cilk_checker::ending::{End, run_code};
use cilk_checker::refusal::{Refusal, Unaccepted};
use cilk_checker::source::Whole;
use cilk_checker::texts::{meaning, numbers};
use cilk_lower::lower::lower;
use cilk_program::program::Program;
use cilk_types::input::Input;
use cilk_types::trace::Trace;
use std::alloc::{AllocError, Global};
use std::thread::Threads;

/// Makes the serial run of a program with helpers, and returns how the run ends, with its events.
///
/// Each helper replays some of the listed frames, in a thread of its own. The result is the serial
/// run whatever the hints say: if they are wrong, or list [`MOST_EVENTS`] events, it is made without
/// them.
pub fn run_many<H: Threads + Sync, W: Watch + Sync>(
    rt: &H,
    alloc: Global,
    program: &Program,
    input: &Input,
    hints: Hints,
    helpers: u32,
    watch: &W,
) -> Result<(End, Trace), AllocError>
    requires some { 0 < helpers }
    requires most { helpers ≤ 16 }
    ensures { IfOk result (λ r. EndsWith (source_of program.now) input.now r.0 r.1) }
{
    let code = lower(alloc, program)?;
    if hints.events >= MOST_EVENTS {
        drop(hints);
        return run_code(alloc, program, code, input);
    }
    let team = Team { rt, helpers, watch };
    let replays = replays(team, alloc, program, &code, input, &hints)?;
    drop(hints);
    match retell(alloc, program, &code, input, replays)? {
        Some(run) => Ok((End::Left(run.outcome, run.frames, code), run.trace)),
        None => run_code(alloc, program, code, input),
    }
}

/// The same, with the hints in a certificate's text. Its only fault is that memory runs out.
pub fn listed_run<H: Threads + Sync, W: Watch + Sync>(
    rt: &H,
    alloc: Global,
    program: &Program,
    input: &Input,
    certificate: &[u8],
    helpers: u32,
    watch: &W,
) -> Result<(End, Trace), Refusal>
    requires some { 0 < helpers }
    requires most { helpers ≤ 16 }
    ensures ends { IfOk result (λ r. EndsWith (source_of program.now) input.now r.0 r.1) }
    ensures memory { IfErr result (λ e. e ≡ Refusal.Memory) }
{
    let mut text = Whole::new(certificate);
    let Ok(hints) = hints(alloc, &mut text) else {
        return Err(Refusal::Memory);
    };
    match run_many(rt, alloc, program, input, hints, helpers, watch) {
        Ok(run) => Ok(run),
        Err(_) => Err(Refusal::Memory),
    }
}

// Checks a certificate as `check_from` does.
fn checked<H: Threads + Sync, W: Watch + Sync>(
    rt: &H,
    alloc: Global,
    program: &[u8],
    input: &[u8],
    certificate: &[u8],
    helpers: u32,
    watch: &W,
) -> Result<Accepted, Unaccepted>
    requires some { 0 < helpers }
    requires most { helpers ≤ 16 }
    ensures texts { IfOk result (λ a. AreTexts program.now input.now (meant_by a.program) a.input) }
    ensures accepted { IfOk result (λ a.
        IsCertified (source_of a.program) a.input (Some certificate.now) a.trace a.outcome) }
    ensures unaccepted { IfErr result (λ e. IsTrueAnswer program.now input.now (Some certificate.now) 0 0 e) }
    ensures only { AnswersOnly program.now input.now certificate.now result (λ e. IsNoVerdict e) }
    ensures one { AnswersOne program.now input.now certificate.now result (λ r. Unaccepted.Refusal r) (λ e. IsNoVerdict e) }
{
    let meant = meaning(alloc, program)?;
    let numbers = numbers(alloc, input)?;
    let run = listed_run(rt, alloc, &meant, &numbers, certificate, helpers, watch)?;
    let mut source = Whole::new(certificate);
    check_end(alloc, meant, numbers, run.0, run.1, &mut source)
}

/// Checks a certificate against the texts of program and input, with 1 to 16 helpers.
///
/// The verdict is that of `cilk_checker::texts::check`.
pub fn check_many<H: Threads + Sync, W: Watch + Sync>(
    rt: &H,
    alloc: Global,
    program: &[u8],
    input: &[u8],
    certificate: &[u8],
    helpers: u32,
    watch: &W,
) -> Result<Accepted, Refusal>
    requires some { 0 < helpers }
    requires most { helpers ≤ 16 }
    ensures texts { IfOk result (λ a. AreTexts program.now input.now (meant_by a.program) a.input) }
    ensures accepted { IfOk result (λ a.
        IsCertified (source_of a.program) a.input (Some certificate.now) a.trace a.outcome) }
    ensures refused { IfErr result (λ r. IsTrueRefusal program.now input.now (Some certificate.now) r) }
    ensures only { AnswersOnly program.now input.now certificate.now result (λ e. e ≡ Refusal.Memory) }
    ensures one { AnswersOne program.now input.now certificate.now result (λ r. r) (λ e. e ≡ Refusal.Memory) }
{
    match checked(rt, alloc, program, input, certificate, helpers, watch) {
        Ok(accepted) => Ok(accepted),
        Err(Unaccepted::Refusal(refusal)) => Err(refusal),
        Err(Unaccepted::Unread) => unreachable!(),
    }
}

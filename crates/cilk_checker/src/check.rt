//! The check of a certificate against a program and an input.

ghost use Rattle.std.specs.Prelude.{◌≡◌, ◌<◌, IfOk, IfErr, OnOk};
ghost use Rattle.cilk_program.specs.Sources.{source as source_of};
ghost use Rattle.cilk_checker.specs.Runs.{EndsWith};
ghost use Rattle.cilk_checker.specs.Answers.{IsCertified, IsUnaccepted, IsUncounted};
ghost use Rattle.cilk_checker.specs.Pulls.{TakesAll, TakesUntil};

use crate::accepted::Accepted;
use crate::compare::{ended, stopped};
use crate::ending::{End, run_to_end};
use crate::passes::{events_of, right_of};
use crate::refusal::Unaccepted;
use crate::source::Source;
use cilk_determinacy::words::serial_runs_settle;
use cilk_program::program::Program;
use cilk_types::input::Input;
use cilk_types::trace::Trace;
use std::alloc::Global;

/// Checks a certificate from a source against the serial run of a program on an input.
///
/// It is accepted only if the run ends without a fault, the certificate is right, and no two
/// positions of the run race. Then the program is determinate on its input. Otherwise the error is
/// the first failing check. Pulling stops once the text has a fault. Cost: that of the run, and
/// linear in the text; memory: linear in the run, whatever the length of the text.
pub fn check_run<S: Source>(
    alloc: Global,
    program: Program,
    input: Input,
    source: &mut S,
) -> Result<Accepted, Unaccepted>
    requires { S.failed source.old < 18446744073709551615 }
    ensures program { IfOk result (λ a. a.program ≡ program) }
    ensures input { IfOk result (λ a. a.input ≡ input) }
    ensures accepted { IfOk result (λ a.
        IsCertified (source_of program) input (S.remaining source.old) a.trace a.outcome) }
    ensures unaccepted { let failed = S.failed source.old in let failed' = S.failed source.new in
        IfErr result (λ e. IsUnaccepted (source_of program) input (S.remaining source.old) failed failed' e) }
    ensures unfailed { IfErr result (λ e. IsUncounted (S.failed source.old) (S.failed source.new) e) }
    ensures whole { OnOk result (TakesAll (S.remaining source.old) (S.remaining source.new)) }
    ensures part { IfErr result (λ e.
        TakesUntil (S.remaining source.old) (S.remaining source.new) (S.last source.new) e) }
    ensures uncounted { OnOk result (S.failed source.new ≡ S.failed source.old) }
    ensures lender { S.lender source.new ≡ S.lender source.old }
    ensures kept { S.kept source.new ≡ S.kept source.old }
{
    let (end, trace) = run_to_end(alloc, &program, &input)?;
    check_end(alloc, program, input, end, trace, source)
}

/// Checks a certificate, as [`check_run`] does, against a serial run that is already made.
///
/// Cost: linear in the run and in the text.
pub fn check_end<S: Source>(
    alloc: Global,
    program: Program,
    input: Input,
    end: End,
    trace: Trace,
    source: &mut S,
) -> Result<Accepted, Unaccepted>
    requires ends { EndsWith (source_of program) input end trace }
    requires counts { S.failed source.old < 18446744073709551615 }
    ensures program { IfOk result (λ a. a.program ≡ program) }
    ensures input { IfOk result (λ a. a.input ≡ input) }
    ensures accepted { IfOk result (λ a.
        IsCertified (source_of program) input (S.remaining source.old) a.trace a.outcome) }
    ensures unaccepted { let failed = S.failed source.old in let failed' = S.failed source.new in
        IfErr result (λ e. IsUnaccepted (source_of program) input (S.remaining source.old) failed failed' e) }
    ensures unfailed { IfErr result (λ e. IsUncounted (S.failed source.old) (S.failed source.new) e) }
    ensures whole { OnOk result (TakesAll (S.remaining source.old) (S.remaining source.new)) }
    ensures part { IfErr result (λ e.
        TakesUntil (S.remaining source.old) (S.remaining source.new) (S.last source.new) e) }
    ensures uncounted { OnOk result (S.failed source.new ≡ S.failed source.old) }
    ensures lender { S.lender source.new ≡ S.lender source.old }
    ensures kept { S.kept source.new ≡ S.kept source.old }
{
    match end {
        End::Stopped(_, _, _) => {
            let right = events_of(alloc, trace)?;
            let refusal = stopped(alloc, &right, source)?;
            Err(Unaccepted::Refusal(refusal))
        }
        End::Left(outcome, frames, code) => {
            let right = right_of(alloc, trace)?;
            ended(alloc, &right, &outcome, source)?;
            serial_runs_settle(&program, &input);
            let trace = right.into_trace();
            Ok(Accepted::new(program, code, input, trace, outcome, frames))
        }
    }
}

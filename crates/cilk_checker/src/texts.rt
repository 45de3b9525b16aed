//! The check of a certificate from the texts of program and input.

ghost use Rattle.std.specs.Prelude.{◌≡◌, ◌<◌, ℕ, List, Option, Some, IfOk, IfErr, OnOk};
ghost use Rattle.cilk_program.specs.Sources.{source as source_of};
ghost use Rattle.cilk_parser.specs.Inputs.{IsInput};
ghost use Rattle.cilk_checker.specs.Judging.{IsProgramText, Meant, meant as meant_by};
ghost use Rattle.cilk_checker.specs.Answers.{IsCertified, IsUncounted};
ghost use Rattle.cilk_checker.specs.Pulls.{TakesAll, TakesUntil};
ghost use Rattle.cilk_checker.specs.OneVerdict.{AnswersOne, AnswersOnly, IsNoVerdict};
ghost use Rattle.cilk_checker.specs.Texts.{AreTexts, IsJudgement, IsOfTexts, IsTrueAnswer, IsTrueRefusal};

use crate::accepted::Accepted;
use crate::check::check_run;
use crate::fault::ProgramFault;
use crate::judge::program;
use crate::refusal::{Refusal, Unaccepted};
use crate::source::{Source, Whole};
use cilk_parser::fault::TextFault;
use cilk_parser::input::parse_input;
use cilk_program::program::Program;
use cilk_types::input::Input;
use std::alloc::Global;

/// Checks a certificate from a source against a program text and an input text.
///
/// The two texts are judged before a byte is pulled. Pulling stops once a line is malformed,
/// whatever the error is; before that, at most 134,217,728 bytes are taken. The certificate is
/// accepted exactly if the texts have no fault, the run ends without a fault, the certificate is
/// right, and no two positions of it race. Otherwise the error is the first failing check. Out of
/// memory and a failing device are the only errors that say nothing about the certificate; a
/// failing device is the error only if the texts have no fault.
pub fn check_from<S: Source>(
    alloc: Global,
    program: &[u8],
    input: &[u8],
    source: &mut S,
) -> Result<Accepted, Unaccepted>
    requires { S.failed source.old < 18446744073709551615 }
    ensures texts { IfOk result (λ a. AreTexts program.now input.now (meant_by a.program) a.input) }
    ensures accepted { IfOk result (λ a.
        IsCertified (source_of a.program) a.input (S.remaining source.old) a.trace a.outcome) }
    ensures unaccepted { let failed = S.failed source.old in let failed' = S.failed source.new in
        IfErr result (λ e. IsTrueAnswer program.now input.now (S.remaining source.old) failed failed' e) }
    ensures unfailed { IfErr result (λ e. IsUncounted (S.failed source.old) (S.failed source.new) e) }
    ensures unpulled { IfErr result (λ e. IsOfTexts e → source.new ≡ source.old) }
    ensures whole { OnOk result (TakesAll (S.remaining source.old) (S.remaining source.new)) }
    ensures part { IfErr result (λ e. (IsOfTexts e → ⊥)
        → TakesUntil (S.remaining source.old) (S.remaining source.new) (S.last source.new) e) }
    ensures uncounted { OnOk result (S.failed source.new ≡ S.failed source.old) }
    ensures only { (text : List ℕ) → S.remaining source.old ≡ Some text
        → AnswersOnly program.now input.now text result (λ e. IsNoVerdict e) }
    ensures one { (text : List ℕ) → S.remaining source.old ≡ Some text
        → AnswersOne program.now input.now text result (λ r. Unaccepted.Refusal r) (λ e. IsNoVerdict e) }
{
    let meant = meaning(alloc, program)?;
    let numbers = numbers(alloc, input)?;
    check_run(alloc, meant, numbers, source)
}

/// Checks a certificate whose text is in memory, as [`check_from`] does.
pub fn check(
    alloc: Global,
    program: &[u8],
    input: &[u8],
    certificate: &[u8],
) -> Result<Accepted, Refusal>
    ensures texts { IfOk result (λ a. AreTexts program.now input.now (meant_by a.program) a.input) }
    ensures accepted { IfOk result (λ a.
        IsCertified (source_of a.program) a.input (Some certificate.now) a.trace a.outcome) }
    ensures refused { IfErr result (λ r. IsTrueRefusal program.now input.now (Some certificate.now) r) }
    ensures only { AnswersOnly program.now input.now certificate.now result (λ e. e ≡ Refusal.Memory) }
    ensures one { AnswersOne program.now input.now certificate.now result (λ r. r) (λ e. e ≡ Refusal.Memory) }
{
    let mut source = Whole::new(certificate);
    match check_from(alloc, program, input, &mut source) {
        Ok(accepted) => Ok(accepted),
        Err(Unaccepted::Refusal(refusal)) => Err(refusal),
        Err(Unaccepted::Unread) => unreachable!(),
    }
}

/// Returns the program that a text means, or its first fault.
pub fn meaning(alloc: Global, text: &[u8]) -> Result<Program, Refusal>
    ensures meant { IfOk result (λ p. IsProgramText text.now (meant_by p)) }
    ensures fault { IfErr result (λ r. (input : List ℕ) (known : Option (List ℕ))
        → IsTrueRefusal text.now input known r) }
    ensures judgement { IfErr result (λ r. IsJudgement r) }
{
    match program(alloc, text) {
        Ok(meant) => Ok(meant),
        Err(ProgramFault::Memory) => Err(Refusal::Memory),
        Err(ProgramFault::Text(number, place)) => Err(Refusal::Program(number, place)),
        Err(ProgramFault::Name(number, place)) => Err(Refusal::Name(number, place)),
    }
}

/// Returns the numbers of an input text, or its first fault. The program was judged before.
pub fn numbers(alloc: Global, text: &[u8]) -> Result<Input, Refusal>
    ensures numbers { IfOk result (λ ns. IsInput text.now ns) }
    ensures fault { IfErr result (λ r. (program : List ℕ) (m : Meant) (known : Option (List ℕ))
        → IsProgramText program m → IsTrueRefusal program text.now known r) }
    ensures judgement { IfErr result (λ r. IsJudgement r) }
{
    match parse_input(alloc, text) {
        Ok(numbers) => Ok(numbers),
        Err(TextFault::Memory) => Err(Refusal::Memory),
        Err(TextFault::At(number, place)) => Err(Refusal::Input(number, place)),
    }
}

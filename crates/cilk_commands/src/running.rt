//! The commands. Texts are read and judged in order, and the error is the first one that fails.

ghost use Rattle.std.specs.Prelude.{◌≡◌, ◌≢◌, ◌+◌, ◌<◌, ◌≤◌, ℕ, List, IfOk, IfErr, OnOk, option_map, codes, true};
ghost use Rattle.cilk_checker.specs.Judging.{meant};
ghost use Rattle.cilk_commands.specs.Files.{IsHeld};
ghost use Rattle.cilk_checker.specs.Numbers.{fields_of, number_of};
ghost use Rattle.cilk_checker.specs.declared.refusal.Refusal.TheVariants as refusals;
ghost use Rattle.cilk_commands.specs.Replies.{NoMemory, Refused, answer_view, failure_view, places_of};
ghost use Rattle.cilk_commands.specs.Serving.{AreGiven, CertifyReply, CheckReply, FileFails, GivesInput, GivesProgram, InputFileFails, IsReceived, IsStandard, NoneGiven, OriginFails, PlayReply, RunReply, SettleReply, StandardFails, world};
ghost use Rattle.cilk_commands.specs.Shown.{CheckShows, PlayShows};
ghost use Rattle.cilk_commands.specs.Streams.{TakesAtMost};
ghost use Rattle.cilk_commands.specs.declared.streams.TheConstants.{MAX_READ};
ghost use Rattle.cilk_messages.specs.Words.{origin_view};

use crate::counted::CountedRead;
use crate::files::{FileFault, Files, Parts};
use crate::parts::PartSource;
use crate::programs;
use crate::reply::{Answer, Failure};
use crate::streams::receive;
use cilk_checker::check::check_run;
use cilk_checker::refusal::{Refusal, Unaccepted};
use cilk_messages::words::{Manner, Origin};
use cilk_program::program::Program;
use cilk_types::input::Input;
use std::alloc::Global;

/// Reads the text of a file.
pub fn read_file<'a, F: Files>(
    alloc: Global,
    path: &'a str,
    files: &mut F,
) -> Result<Vec<u8>, Failure<'a>>
    requires { (F.failed files.old).count < 18446744073709551615 }
    ensures held { IfOk result (λ text. IsHeld (F.holds files.old path.entry.now) text.items) }
    ensures fault { IfErr result (λ e. FileFails (F.failed files.old) (F.failed files.new) path.entry.now (failure_view e)) }
    ensures uncounted { OnOk result (F.failed files.new ≡ F.failed files.old) }
    ensures same { (p : List ℕ) → F.holds files.new p ≡ F.holds files.old p }
{
    match files.read(alloc, path) {
        Ok(text) => Ok(text),
        Err(FileFault::Device) => Err(Failure::Unreadable(path)),
        Err(FileFault::Memory) => Err(Failure::Memory),
    }
}

// The text of standard input.
fn read_standard<'a, R: CountedRead>(alloc: Global, reader: &mut R) -> Result<Vec<u8>, Failure<'a>>
    ensures given { IfOk result (λ text. IsReceived (R.remaining reader.old) text.items) }
    ensures fault { IfErr result (λ e. StandardFails (failure_view e)) }
    ensures memory { IfErr result (λ e. failure_view e ≡ NoMemory → R.failed reader.new ≡ R.failed reader.old) }
    ensures device { IfErr result (λ e. failure_view e ≢ NoMemory → R.failed reader.new ≡ true) }
    ensures most { TakesAtMost MAX_READ (R.remaining reader.old) (R.remaining reader.new) }
    ensures few { R.reads reader.new ≤ R.reads reader.old + MAX_READ }
{
    match receive(alloc, reader) {
        Ok(text) => Ok(text),
        Err(FileFault::Device) => Err(Failure::Unreadable("-")),
        Err(FileFault::Memory) => Err(Failure::Memory),
    }
}

// A program text.
#[tactic(auto, using(crate::proofs::Reading::takes_same))]
fn read_program<'a, F: Files, R: CountedRead>(
    alloc: Global,
    origin: Origin<'a>,
    files: &mut F,
    reader: &mut R,
) -> Result<Vec<u8>, Failure<'a>>
    requires { (F.failed files.old).count < 18446744073709551615 }
    ensures given { IfOk result (λ text. GivesProgram (F.holds files.old) (R.remaining reader.old) (origin_view origin.entry) text.items) }
    ensures fault { IfErr result (λ e. OriginFails (F.failed files.old) (F.failed files.new) (origin_view origin.entry) (failure_view e)) }
    ensures uncounted { OnOk result (F.failed files.new ≡ F.failed files.old) }
    ensures same { (p : List ℕ) → F.holds files.new p ≡ F.holds files.old p }
    ensures untouched { (IsStandard (origin_view origin.entry) → ⊥) → reader.new ≡ reader.old }
    ensures most { TakesAtMost MAX_READ (R.remaining reader.old) (R.remaining reader.new) }
    ensures few { R.reads reader.new ≤ R.reads reader.old + MAX_READ }
{
    match origin {
        Origin::Standard => read_standard(alloc, reader),
        Origin::File(path) => read_file(alloc, path, files),
    }
}

// An input text: that of a file, or the empty text.
fn read_input<'a, F: Files>(
    alloc: Global,
    path: Option<&'a str>,
    files: &mut F,
) -> Result<Vec<u8>, Failure<'a>>
    requires { (F.failed files.old).count < 18446744073709551615 }
    ensures given { IfOk result (λ text. GivesInput (F.holds files.old) (option_map (λ p. p.now) path.entry) text.items) }
    ensures fault { IfErr result (λ e. InputFileFails (F.failed files.old) (F.failed files.new) (option_map (λ p. p.now) path.entry) (failure_view e)) }
    ensures uncounted { OnOk result (F.failed files.new ≡ F.failed files.old) }
    ensures same { (p : List ℕ) → F.holds files.new p ≡ F.holds files.old p }
{
    match path {
        Some(path) => read_file(alloc, path, files),
        None => Ok(Vec::new(alloc)),
    }
}

/// Reads a program and its input. Each text is judged before the next one is read.
pub fn given<'a, F: Files, R: CountedRead>(
    alloc: Global,
    program: Origin<'a>,
    input: Option<&'a str>,
    files: &mut F,
    reader: &mut R,
) -> Result<(Program, Input), Failure<'a>>
    requires { (F.failed files.old).count < 18446744073709551615 }
    ensures given { IfOk result (λ r. AreGiven (world (F.holds files.old) (R.remaining reader.old)
        (F.failed files.old) (F.failed files.new))
        (origin_view program.entry) (option_map (λ p. p.now) input.entry) (meant r.0) r.1) }
    ensures failure { IfErr result (λ e. NoneGiven (world (F.holds files.old) (R.remaining reader.old)
        (F.failed files.old) (F.failed files.new))
        (origin_view program.entry) (option_map (λ p. p.now) input.entry) (failure_view e)) }
    ensures uncounted { OnOk result (F.failed files.new ≡ F.failed files.old) }
    ensures same { (p : List ℕ) → F.holds files.new p ≡ F.holds files.old p }
    ensures untouched { (IsStandard (origin_view program.entry) → ⊥) → reader.new ≡ reader.old }
    ensures most { TakesAtMost MAX_READ (R.remaining reader.old) (R.remaining reader.new) }
    ensures few { R.reads reader.new ≤ R.reads reader.old + MAX_READ }
{
    let text = read_program(alloc, program, files, reader)?;
    let program = programs::program(alloc, text.as_slice())?;
    let text = read_input(alloc, input, files)?;
    let input = programs::input(alloc, text.as_slice())?;
    Ok((program, input))
}

/// Runs a program on an input.
pub fn run<'a, F: Files, R: CountedRead>(
    alloc: Global,
    program: Origin<'a>,
    input: Option<&'a str>,
    files: &mut F,
    reader: &mut R,
) -> Result<Answer, Failure<'a>>
    requires { (F.failed files.old).count < 18446744073709551615 }
    ensures answer { IfOk result (λ a. RunReply (world (F.holds files.old) (R.remaining reader.old) (F.failed files.old) (F.failed files.new))
        (origin_view program.entry) (option_map (λ p. p.now) input.entry) (answer_view a)) }
    ensures failure { IfErr result (λ e. RunReply (world (F.holds files.old) (R.remaining reader.old) (F.failed files.old) (F.failed files.new))
        (origin_view program.entry) (option_map (λ p. p.now) input.entry) (failure_view e)) }
    ensures untouched { (IsStandard (origin_view program.entry) → ⊥) → reader.new ≡ reader.old }
    ensures most { TakesAtMost MAX_READ (R.remaining reader.old) (R.remaining reader.new) }
    ensures few { R.reads reader.new ≤ R.reads reader.old + MAX_READ }
{
    let (program, input) = given(alloc, program, input, files, reader)?;
    programs::run(alloc, &program, &input)
}

/// Settles a program on an input: one serial run tells whether it races. If not, no schedule changes
/// its outcome.
pub fn settle<'a, F: Files, R: CountedRead>(
    alloc: Global,
    program: &'a str,
    input: Option<&'a str>,
    files: &mut F,
    reader: &mut R,
) -> Result<Answer, Failure<'a>>
    requires { (F.failed files.old).count < 18446744073709551615 }
    ensures answer { IfOk result (λ a. SettleReply (world (F.holds files.old) (R.remaining reader.old) (F.failed files.old) (F.failed files.new))
        program.entry.now (option_map (λ p. p.now) input.entry) (answer_view a)) }
    ensures failure { IfErr result (λ e. SettleReply (world (F.holds files.old) (R.remaining reader.old) (F.failed files.old) (F.failed files.new))
        program.entry.now (option_map (λ p. p.now) input.entry) (failure_view e)) }
    ensures same { (p : List ℕ) → F.holds files.new p ≡ F.holds files.old p }
    ensures untouched { reader.new ≡ reader.old }
    ensures most { TakesAtMost MAX_READ (R.remaining reader.old) (R.remaining reader.new) }
    ensures few { R.reads reader.new ≤ R.reads reader.old + MAX_READ }
{
    let (program, input) = given(alloc, Origin::File(program), input, files, reader)?;
    programs::settle(alloc, &program, &input)
}

/// Makes the certificate of a program's run on an input.
pub fn certify<'a, F: Files, R: CountedRead>(
    alloc: Global,
    program: &'a str,
    input: Option<&'a str>,
    files: &mut F,
    reader: &mut R,
) -> Result<Answer, Failure<'a>>
    requires { (F.failed files.old).count < 18446744073709551615 }
    ensures answer { IfOk result (λ a. CertifyReply (world (F.holds files.old) (R.remaining reader.old) (F.failed files.old) (F.failed files.new))
        program.entry.now (option_map (λ p. p.now) input.entry) (answer_view a)) }
    ensures failure { IfErr result (λ e. CertifyReply (world (F.holds files.old) (R.remaining reader.old) (F.failed files.old) (F.failed files.new))
        program.entry.now (option_map (λ p. p.now) input.entry) (failure_view e)) }
    ensures untouched { reader.new ≡ reader.old }
    ensures most { TakesAtMost MAX_READ (R.remaining reader.old) (R.remaining reader.new) }
    ensures few { R.reads reader.new ≤ R.reads reader.old + MAX_READ }
{
    let (program, input) = given(alloc, Origin::File(program), input, files, reader)?;
    programs::certificate(alloc, &program, &input)
}

/// Returns a refusal as an answer, or as a failure if it is out of memory.
pub fn refused<'a>(refusal: Refusal) -> Result<Answer, Failure<'a>>
    ensures answer { IfOk result (λ a. (refusal ≢ refusals.Memory) × (answer_view a ≡ Refused (number_of refusal) (places_of (fields_of refusal)))) }
    ensures failure { IfErr result (λ e. failure_view e ≡ NoMemory) }
{
    match refusal {
        Refusal::Memory => Err(Failure::Memory),
        _ => Ok(Answer::Refused(refusal)),
    }
}

// The check of the certificate in a file.
fn checked<'a, F: Files>(
    alloc: Global,
    program: Program,
    input: Input,
    path: &'a str,
    files: &mut F,
) -> Result<Answer, Failure<'a>>
    requires { (F.failed files.old).count < 18446744073709551615 }
    ensures answer { IfOk result (λ a. CheckShows path.entry.now (F.holds files.old path.entry.now) (F.failed files.old) (F.failed files.new)
        (meant program) input (answer_view a)) }
    ensures failure { IfErr result (λ e. CheckShows path.entry.now (F.holds files.old path.entry.now) (F.failed files.old) (F.failed files.new)
        (meant program) input (failure_view e)) }
{
    let mut source = PartSource::new(files, path, Parts::OfFile, path);
    match check_run(alloc, program, input, &mut source) {
        Ok(_accepted) => Ok(Answer::Accepted),
        Err(Unaccepted::Unread) => Err(Failure::Unreadable(path)),
        Err(Unaccepted::Refusal(refusal)) => refused(refusal),
    }
}

/// Checks the certificate of a program's run on an input. The certificate is read after the two
/// texts are judged.
pub fn check<'a, F: Files, R: CountedRead>(
    alloc: Global,
    program: &'a str,
    certificate: &'a str,
    input: Option<&'a str>,
    files: &mut F,
    reader: &mut R,
) -> Result<Answer, Failure<'a>>
    requires { (F.failed files.old).count < 18446744073709551615 }
    ensures answer { IfOk result (λ a. CheckReply (world (F.holds files.old) (R.remaining reader.old) (F.failed files.old) (F.failed files.new))
        program.entry.now certificate.entry.now (option_map (λ p. p.now) input.entry) (answer_view a)) }
    ensures failure { IfErr result (λ e. CheckReply (world (F.holds files.old) (R.remaining reader.old) (F.failed files.old) (F.failed files.new))
        program.entry.now certificate.entry.now (option_map (λ p. p.now) input.entry) (failure_view e)) }
    ensures untouched { reader.new ≡ reader.old }
    ensures most { TakesAtMost MAX_READ (R.remaining reader.old) (R.remaining reader.new) }
    ensures few { R.reads reader.new ≤ R.reads reader.old + MAX_READ }
{
    let (program, input) = given(alloc, Origin::File(program), input, files, reader)?;
    checked(alloc, program, input, certificate, files)
}

// The run of the script in a file, in a manner with at least 1 worker.
fn played<'a, F: Files>(
    alloc: Global,
    program: &Program,
    input: &Input,
    path: &'a str,
    manner: Manner,
    files: &mut F,
) -> Result<Answer, Failure<'a>>
    requires some { 0 < manner.workers }
    requires room { (F.failed files.old).count < 18446744073709551615 }
    ensures answer { IfOk result (λ a. PlayShows path.entry.now (F.holds files.old path.entry.now) (F.failed files.old) (F.failed files.new)
        manner (meant program.now) input.now (answer_view a)) }
    ensures failure { IfErr result (λ e. PlayShows path.entry.now (F.holds files.old path.entry.now) (F.failed files.old) (F.failed files.new)
        manner (meant program.now) input.now (failure_view e)) }
{
    let text = read_file(alloc, path, files)?;
    programs::script(alloc, program, input, manner, text.as_slice())
}

/// Plays a script for a program and an input, in a manner with at least 1 worker. The script is read
/// after the two texts are judged.
pub fn play<'a, F: Files, R: CountedRead>(
    alloc: Global,
    program: &'a str,
    script: &'a str,
    manner: Manner,
    input: Option<&'a str>,
    files: &mut F,
    reader: &mut R,
) -> Result<Answer, Failure<'a>>
    requires some { 0 < manner.workers }
    requires room { (F.failed files.old).count < 18446744073709551615 }
    ensures answer { IfOk result (λ a. PlayReply (world (F.holds files.old) (R.remaining reader.old) (F.failed files.old) (F.failed files.new))
        program.entry.now script.entry.now manner (option_map (λ p. p.now) input.entry) (answer_view a)) }
    ensures failure { IfErr result (λ e. PlayReply (world (F.holds files.old) (R.remaining reader.old) (F.failed files.old) (F.failed files.new))
        program.entry.now script.entry.now manner (option_map (λ p. p.now) input.entry) (failure_view e)) }
    ensures untouched { reader.new ≡ reader.old }
    ensures most { TakesAtMost MAX_READ (R.remaining reader.old) (R.remaining reader.new) }
    ensures few { R.reads reader.new ≤ R.reads reader.old + MAX_READ }
{
    let (program, input) = given(alloc, Origin::File(program), input, files, reader)?;
    played(alloc, &program, &input, script, manner, files)
}

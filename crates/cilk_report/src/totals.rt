//! The totals of a run, from the files of a program and its input, or why nothing is shown of it.

ghost use Rattle.std.specs.Prelude.{◌≡◌, ◌+◌, ◌<◌, ◌≤◌, IfErr, IfOk, option_map};
ghost use Rattle.cilk_report.specs.Measured.{AreTotalsOf, TellsWhy};
ghost use Rattle.cilk_commands.specs.Replies.{failure_view};
ghost use Rattle.cilk_commands.specs.Serving.{IsStandard, RunReply, WordsFail, world};
ghost use Rattle.cilk_commands.specs.Streams.{TakesAtMost};
ghost use Rattle.cilk_commands.specs.declared.streams.TheConstants.{MAX_READ};
ghost use Rattle.cilk_messages.specs.Words.{origin_view};

use cilk_commands::files::Files;
use cilk_commands::reply::Failure;
use cilk_commands::{CountedRead, given, stopped};
use cilk_messages::words::Origin;
use cilk_profile::{NoText, Totals, measure};
use std::alloc::{AllocError, Global};

/// Returns the totals of a program's run on its input. Its failures are those of `run`.
#[tactic(auto, using(cilk_commands::proofs::Reading::takes_same))]
pub fn totals_of<'a, F: Files, R: CountedRead>(
    alloc: Global,
    program: Origin<'a>,
    numbers: Option<&'a str>,
    files: &mut F,
    input: &mut R,
) -> Result<Totals, Failure<'a>>
    requires { (F.failed files.old).count < 18446744073709551615 }
    ensures totals { IfOk result (λ t. AreTotalsOf (world (F.holds files.old) (R.remaining input.old) (F.failed files.old) (F.failed files.new))
        (origin_view program.entry) (option_map (λ p. p.now) numbers.entry) t) }
    ensures failure { IfErr result (λ e. RunReply (world (F.holds files.old) (R.remaining input.old) (F.failed files.old) (F.failed files.new))
        (origin_view program.entry) (option_map (λ p. p.now) numbers.entry) (failure_view e)) }
    ensures untouched { (IsStandard (origin_view program.entry) → ⊥) → input.new ≡ input.old }
    ensures most { TakesAtMost MAX_READ (R.remaining input.old) (R.remaining input.new) }
    ensures few { R.reads input.new ≤ R.reads input.old + MAX_READ }
{
    let (program, numbers) = given(alloc, program, numbers, files, input)?;
    match measure(alloc, &program, &numbers) {
        Ok((totals, _trace)) => Ok(totals),
        Err(fault) => Err(stopped(&fault)),
    }
}

/// Returns the failure of a command line by a text about it, if there was memory for the text.
pub fn wrong_words<'a>(text: Result<String, AllocError>) -> Failure<'a>
    ensures { WordsFail (failure_view result) }
{
    match text {
        Ok(text) => Failure::Words(text),
        Err(_) => Failure::Memory,
    }
}

/// Returns the failure for a reason why nothing is shown.
pub fn undrawn<'a>(alloc: Global, reason: NoText) -> Failure<'a>
    ensures { TellsWhy reason (failure_view result) }
{
    let NoText::Undrawn(text) = reason else {
        return Failure::Memory;
    };
    wrong_words(String::from_str(alloc, text))
}

//! The command `check` by helpers. The certificate's text is kept: its hints come first, then the
//! check.

ghost use Rattle.std.specs.Prelude.{◌≡◌, ◌<◌, ◌≤◌, IfOk, IfErr, Some};
ghost use Rattle.cilk_checker.specs.Judging.{meant};
ghost use Rattle.cilk_commands.specs.Replies.{answer_view, failure_view};
ghost use Rattle.cilk_commands.specs.Serving.{world};
ghost use Rattle.cilk_commands.specs.Shown.{CheckShows};
ghost use Rattle.cilk_messages.specs.CheckWords.{check_view};
ghost use Rattle.cilk_tool.specs.Helped.{Answers};

use cilk_checker::check::check_end;
use cilk_checker::refusal::Unaccepted;
use cilk_checker::source::Whole;
use cilk_commands::files::Files;
use cilk_commands::reply::{Answer, Failure};
use cilk_commands::{CountedRead, carry_out, given, read_file, refused};
use cilk_helpers::many::listed_run;
use cilk_helpers::watch::Unwatched;
use cilk_messages::check_words::CheckOrder;
use cilk_messages::words::Origin;
use cilk_program::program::Program;
use cilk_types::input::Input;
use cilk_types::limits::MAX_HELPERS;
use std::alloc::Global;
use std::thread::Threads;

/// Checks a certificate's file by `helpers` helpers, or by the most that are allowed.
#[tactic(auto, using(cilk_commands::proofs::Replying::none_failed))]
fn checked<'a, H: Threads + Sync, F: Files>(
    rt: &H,
    alloc: Global,
    program: Program,
    input: Input,
    path: &'a str,
    helpers: u32,
    files: &mut F,
) -> Result<Answer, Failure<'a>>
    requires counts { (F.failed files.old).count < 18446744073709551615 }
    requires some { 0 < helpers }
    ensures answer { IfOk result (λ a. CheckShows path.entry.now (F.holds files.old path.entry.now) (F.failed files.old) (F.failed files.new)
        (meant program) input (answer_view a)) }
    ensures failure { IfErr result (λ e. CheckShows path.entry.now (F.holds files.old path.entry.now) (F.failed files.old) (F.failed files.new)
        (meant program) input (failure_view e)) }
{
    let text = read_file(alloc, path, files)?;
    let (text, helpers) = (text.as_slice(), helpers.min(MAX_HELPERS));
    let run = listed_run(rt, alloc, &program, &input, text, helpers, &Unwatched);
    let Ok((end, trace)) = run else {
        return Err(Failure::Memory);
    };
    let mut source = Whole::new(text);
    match check_end(alloc, program, input, end, trace, &mut source) {
        Ok(_accepted) => Ok(Answer::Accepted),
        Err(Unaccepted::Unread) => unreachable!(),
        Err(Unaccepted::Refusal(refusal)) => refused(refusal),
    }
}

/// Checks the certificate of a program's run on an input by helpers. The program is read and judged
/// first, then its input, then the whole certificate. A single helper checks as `check` does, a part of the
/// file at a time, without a thread.
pub fn check_by_helpers<'a, H: Threads + Sync, F: Files, R: CountedRead>(
    rt: &H,
    alloc: Global,
    order: &CheckOrder<'a>,
    files: &mut F,
    reader: &mut R,
) -> Result<Answer, Failure<'a>>
    requires { (F.failed files.old).count < 18446744073709551615 }
    ensures answer { IfOk result (λ a. Answers (world (F.holds files.old) (R.remaining reader.old) (F.failed files.old) (F.failed files.new))
        (Some (check_view order.now)) (answer_view a)) }
    ensures failure { IfErr result (λ e. Answers (world (F.holds files.old) (R.remaining reader.old) (F.failed files.old) (F.failed files.new))
        (Some (check_view order.now)) (failure_view e)) }
    ensures untouched { reader.new ≡ reader.old }
{
    if order.helpers < 2 {
        return carry_out(alloc, order.alone(), files, reader);
    }
    let (program, input) = given(
        alloc,
        Origin::File(order.program),
        order.input,
        files,
        reader,
    )?;
    checked(
        rt,
        alloc,
        program,
        input,
        order.certificate,
        order.helpers,
        files,
    )
}

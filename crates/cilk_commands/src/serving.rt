//! From words to a reply that is shown.

ghost use Rattle.std.specs.Prelude.{◌≡◌, ◌+◌, ◌<◌, ◌≤◌, Bool, IfOk, IfErr};
ghost use Rattle.cilk_commands.specs.OneReply.{HasOneReply};
ghost use Rattle.cilk_commands.specs.Replies.{Reply, answer_view, failure_view, status_of};
ghost use Rattle.cilk_commands.specs.Serving.{Answers, HasWorkers, IsOrNoMemory, ReadsStandard, Serves, Shows, ShowsError, world};
ghost use Rattle.cilk_commands.specs.Streams.{AppendsFront, TakesAtMost};
ghost use Rattle.cilk_commands.specs.declared.streams.TheConstants.{MAX_READ};
ghost use Rattle.cilk_messages.specs.Words.{order_in, order_view, texts};

use crate::counted::CountedRead;
use crate::files::Files;
use crate::judging::judge;
use crate::reply::{Answer, Failure, NO_MEMORY, NO_MEMORY_LINE, WRONG};
use crate::running::{certify, check, play, run, settle};
use crate::streams::send;
use cilk_messages::words::{Order, WordsFault, read};
use std::alloc::Global;
use std::io::Write;

/// Carries out an order. An order to play names at least 1 worker, as each one from
/// [`read`](cilk_messages::words::read) does.
#[tactic(auto, using(crate::proofs::Reading::takes_same))]
pub fn carry_out<'a, F: Files, R: CountedRead>(
    alloc: Global,
    order: Order<'a>,
    files: &mut F,
    input: &mut R,
) -> Result<Answer, Failure<'a>>
    requires some { HasWorkers (Some (order_view order)) }
    requires room { (F.failed files.old).count < 18446744073709551615 }
    ensures answer { IfOk result (λ a. Answers (world (F.holds files.old) (R.remaining input.old) (F.failed files.old) (F.failed files.new))
        (Some (order_view order.entry)) (answer_view a)) }
    ensures failure { IfErr result (λ e. Answers (world (F.holds files.old) (R.remaining input.old) (F.failed files.old) (F.failed files.new))
        (Some (order_view order.entry)) (failure_view e)) }
    ensures untouched { (ReadsStandard (Some (order_view order.entry)) → ⊥) → input.new ≡ input.old }
    ensures most { TakesAtMost MAX_READ (R.remaining input.old) (R.remaining input.new) }
    ensures few { R.reads input.new ≤ R.reads input.old + MAX_READ }
{
    match order {
        Order::Run {
            program,
            input: numbers,
        } => run(alloc, program, numbers, files, input),
        Order::Certify {
            program,
            input: numbers,
        } => certify(alloc, program, numbers, files, input),
        Order::Check {
            program,
            certificate,
            input: numbers,
        } => check(alloc, program, certificate, numbers, files, input),
        Order::Play {
            program,
            script,
            manner,
            input: numbers,
        } => play(alloc, program, script, manner, numbers, files, input),
        Order::Settle {
            program,
            input: numbers,
        } => settle(alloc, program, numbers, files, input),
        Order::Judge { trace, .. } => judge(alloc, trace, files),
    }
}

// Carries out the order of the words.
#[tactic(auto, using(crate::proofs::Reading::takes_same))]
fn answer<'a, F: Files, R: CountedRead>(
    alloc: Global,
    words: &'a [&'a str],
    files: &mut F,
    input: &mut R,
) -> Result<Answer, Failure<'a>>
    requires { (F.failed files.old).count < 18446744073709551615 }
    ensures answer { IfOk result (λ a. Answers (world (F.holds files.old) (R.remaining input.old) (F.failed files.old) (F.failed files.new))
        (order_in (texts words.entry.now)) (answer_view a)) }
    ensures failure { IfErr result (λ e. Answers (world (F.holds files.old) (R.remaining input.old) (F.failed files.old) (F.failed files.new))
        (order_in (texts words.entry.now)) (failure_view e)) }
    ensures untouched { (ReadsStandard (order_in (texts words.entry.now)) → ⊥) → input.new ≡ input.old }
    ensures most { TakesAtMost MAX_READ (R.remaining input.old) (R.remaining input.new) }
    ensures few { R.reads input.new ≤ R.reads input.old + MAX_READ }
{
    match read(alloc, words) {
        Ok(order) => carry_out(alloc, order, files, input),
        Err(WordsFault::Usage(text)) => Err(Failure::Words(text)),
        Err(WordsFault::Memory) => Err(Failure::Memory),
    }
}

/// The result of a call of the tool.
#[derive(Clone, Copy)]
pub struct Served {
    /// The status to end with.
    pub status: u8,
    /// False if a write to standard error failed.
    pub told: bool,
}

/// Writes to standard error, and returns whether all of the text was written.
pub fn tell<E: Write>(err: &mut E, text: &[u8]) -> bool
    ensures { AppendsFront result (E.contents err.old) (E.contents err.new) text.now }
{
    send(err, text)
}

/// Shows a failure.
pub fn complain<E: Write>(alloc: Global, failure: &Failure<'_>, err: &mut E) -> Served
    ensures { (r : Reply) × IsOrNoMemory (failure_view failure.now) r × (result.status ≡ status_of r)
        × ShowsError r result.told (E.contents err.old) (E.contents err.new) }
{
    match failure.text(alloc) {
        Ok(text) => Served {
            told: tell(err, text.as_slice()),
            status: failure.status(),
        },
        Err(_) => Served {
            told: tell(err, NO_MEMORY_LINE.as_bytes()),
            status: NO_MEMORY,
        },
    }
}

/// Shows an answer.
pub fn show<O: Write, E: Write>(alloc: Global, answer: &Answer, out: &mut O, err: &mut E) -> Served
    ensures { (r : Reply) × IsOrNoMemory (answer_view answer.now) r × Shows r result.status result.told
        (O.contents out.old) (O.contents out.new) (E.contents err.old) (E.contents err.new) }
{
    match answer.send(alloc, out) {
        Ok(true) => Served {
            status: answer.status(),
            told: true,
        },
        Ok(false) => Served {
            told: tell(err, b"cannot write\n"),
            status: WRONG,
        },
        Err(_) => complain(alloc, &Failure::Memory, err),
    }
}

/// Does what [`serve`] does, and also returns whether standard error was written.
pub fn serve_and_tell<F: Files, R: CountedRead, O: Write, E: Write>(
    alloc: Global,
    words: &[&str],
    files: &mut F,
    input: &mut R,
    out: &mut O,
    err: &mut E,
) -> Served
    requires { (F.failed files.old).count < 18446744073709551615 }
    ensures served { Serves (texts words.now)
        (world (F.holds files.old) (R.remaining input.old) (F.failed files.old) (F.failed files.new)) result.status result.told
        (O.contents out.old) (O.contents out.new) (E.contents err.old) (E.contents err.new) }
    ensures untouched { (ReadsStandard (order_in (texts words.now)) → ⊥) → input.new ≡ input.old }
    ensures most { TakesAtMost MAX_READ (R.remaining input.old) (R.remaining input.new) }
    ensures few { R.reads input.new ≤ R.reads input.old + MAX_READ }
{
    match answer(alloc, words, files, input) {
        Ok(answer) => show(alloc, &answer, out, err),
        Err(failure) => complain(alloc, &failure, err),
    }
}

/// Serves the words after the program's own name: carries out their order, shows one reply, and
/// returns the status.
///
/// A failure of `err` changes nothing else. `input` is read only if there are no words, in at most
/// [`MAX_READ`](crate::streams::MAX_READ) reads; the trace `-` is one of the files.
pub fn serve<F: Files, R: CountedRead, O: Write, E: Write>(
    alloc: Global,
    words: &[&str],
    files: &mut F,
    input: &mut R,
    out: &mut O,
    err: &mut E,
) -> u8
    requires { (F.failed files.old).count < 18446744073709551615 }
    ensures served { (is_whole : Bool) × Serves (texts words.now)
        (world (F.holds files.old) (R.remaining input.old) (F.failed files.old) (F.failed files.new)) result is_whole
        (O.contents out.old) (O.contents out.new) (E.contents err.old) (E.contents err.new) }
    ensures one { HasOneReply (world (F.holds files.old) (R.remaining input.old) (F.failed files.old) (F.failed files.new))
        (order_in (texts words.now)) }
    ensures untouched { (ReadsStandard (order_in (texts words.now)) → ⊥) → input.new ≡ input.old }
    ensures most { TakesAtMost MAX_READ (R.remaining input.old) (R.remaining input.new) }
    ensures few { R.reads input.new ≤ R.reads input.old + MAX_READ }
{
    serve_and_tell(alloc, words, files, input, out, err).status
}

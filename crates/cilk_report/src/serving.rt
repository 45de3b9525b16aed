//! From a command line to its reply and explanation.

ghost use Rattle.std.specs.Prelude.{◌≡◌, ◌≢◌, ◌+◌, ◌<◌, ◌≤◌, [], Bool, IsTrue, None, Some, false, length, option_map, true};
ghost use Rattle.cilk_report.specs.Explained.{AnswersAbout, Follows, IsReadAgain, Measures, Schedules, ServesExplained, ServesThenExplains, Settles, WritesText, explanation_text, missing_line};
ghost use Rattle.cilk_report.specs.Silence.{Explains, asks_more};
ghost use Rattle.cilk_messages.specs.Asked.{explains_itself, is_measure, is_schedule, measured_run, unflagged, words_of_check, words_of_run};
ghost use Rattle.cilk_messages.specs.About.{is_about};
ghost use Rattle.cilk_messages.specs.Batches.{is_settling};
ghost use Rattle.cilk_commands.specs.Replies.{answer_view, failure_view};
ghost use Rattle.cilk_commands.specs.Serving.{HasWorkers, ReadsStandard, WordsFail};
ghost use Rattle.cilk_commands.specs.Streams.{AppendsFront, TakesAtMost};
ghost use Rattle.cilk_commands.specs.declared.reply.TheConstants.{NO_MEMORY};
ghost use Rattle.cilk_commands.specs.declared.streams.TheConstants.{MAX_READ};
ghost use Rattle.cilk_messages.specs.Words.{order_in, order_view, origin_view, texts};

use crate::Keeps;
use crate::explaining::of_failure;
use crate::extras::{behind_answer, behind_failure};
use crate::judging::{Judged, of_trace_failure, of_trace_race};
use crate::scheduling::serve_schedule;
use crate::settling::serve_settling;
use crate::totals::{totals_of, undrawn, wrong_words};
use cilk_commands::reply::{Answer, Failure, NO_MEMORY, WRONG};
use cilk_commands::streams::send;
use cilk_commands::{CountedRead, Served, carry_out, complain, serve, show, tell};
use cilk_findings::fault::CaseFault;
use cilk_messages::about::{About, answer_about};
use cilk_messages::asked::{asks, is_measure, is_schedule, run_of, run_words};
use cilk_messages::batch::is_settling;
use cilk_messages::flags::{Extras, explains_itself, extras_of, unflagged};
use cilk_messages::help::{help_on, push_advice};
use cilk_messages::words::{Order, Origin, WordsFault, read};
use cilk_profile::{Kept, text_of};
use std::alloc::{AllocError, Global};
use std::io::Write;

/// Serves the words after the program's name and returns the exit status. Command lines of
/// [`cilk_commands::serve`] are served as that function does. With `--explain` an explanation
/// follows the same reply; it follows that of `settle`, and that of `judge` with a table of sites,
/// in any case. `measure`, `schedule`, `settle` for several programs or in a short form, and
/// questions about the tool are answered as well. `input` is read only if there are no words but those
/// that add a text.
#[tactic(auto, using(cilk_commands::proofs::Reading::takes_same))]
pub fn serve_explained<F: Keeps, R: CountedRead, O: Write, E: Write>(
    alloc: Global,
    words: &[&str],
    files: &mut F,
    input: &mut R,
    out: &mut O,
    err: &mut E,
) -> u8
    requires { (F.failed files.old).count < 18446744073709551615 }
    ensures served { ServesExplained (texts words.now) (F.holds files.old) (R.remaining input.old) (F.failed files.old) (F.failed files.new)
        result (O.contents out.old) (O.contents out.new) (E.contents err.old) (E.contents err.new) }
    ensures measured { order_in (texts words.now) ≡ None → is_measure (texts words.now) ≡ true
        → Measures (texts words.now) (F.holds files.old) (R.remaining input.old) (F.failed files.old) (F.failed files.new)
        result (O.contents out.old) (O.contents out.new) (E.contents err.old) (E.contents err.new) }
    ensures scheduled { order_in (texts words.now) ≡ None → is_measure (texts words.now) ≡ false → is_schedule (texts words.now) ≡ true
        → Schedules (words_of_check (texts words.now)) (F.holds files.old) (R.remaining input.old) (F.failed files.old) (F.failed files.new)
        result (O.contents out.old) (O.contents out.new) (E.contents err.old) (E.contents err.new) }
    ensures settles { order_in (texts words.now) ≡ None → is_measure (texts words.now) ≡ false → is_schedule (texts words.now) ≡ false → is_settling (texts words.now) ≡ true
        → Settles (texts words.now) (F.holds files.old) (R.remaining input.old) (F.failed files.old) (F.failed files.new)
        result (O.contents out.old) (O.contents out.new) (E.contents err.old) (E.contents err.new) }
    ensures explained { order_in (texts words.now) ≡ None → is_measure (texts words.now) ≡ false → is_schedule (texts words.now) ≡ false
        → is_settling (texts words.now) ≡ false → is_about (texts words.now) ≡ false
        → length (unflagged (texts words.now)) < length (texts words.now)
        → ServesThenExplains (unflagged (texts words.now)) true (F.holds files.old) (R.remaining input.old) (F.failed files.old) (F.failed files.new)
        result (O.contents out.old) (O.contents out.new) (E.contents err.old) (E.contents err.new) }
    ensures about { order_in (texts words.now) ≡ None → is_measure (texts words.now) ≡ false → is_schedule (texts words.now) ≡ false
        → is_settling (texts words.now) ≡ false → is_about (texts words.now) ≡ true
        → AnswersAbout (texts words.now) result (O.contents out.old) (O.contents out.new) (E.contents err.old) (E.contents err.new) }
    ensures settled { explains_itself (order_in (texts words.now)) ≡ true
        → ServesThenExplains (texts words.now) false (F.holds files.old) (R.remaining input.old) (F.failed files.old) (F.failed files.new)
        result (O.contents out.old) (O.contents out.new) (E.contents err.old) (E.contents err.new) }
    ensures untouched { unflagged (texts words.now) ≢ [] → input.new ≡ input.old }
    ensures most { TakesAtMost MAX_READ (R.remaining input.old) (R.remaining input.new) }
    ensures few { R.reads input.new ≤ R.reads input.old + MAX_READ }
{
    match read(alloc, words) {
        Ok(order) if explains_itself(&order) => {
            files.keep();
            // Words that are an order request no other text.
            let extras = Extras {
                explains: false,
                traces: false,
                counts: false,
                why: None,
            };
            serve_flagged(alloc, words, extras, files, input, out, err)
        }
        Ok(_) => serve(alloc, words, files, input, out, err),
        Err(WordsFault::Usage(usage)) => {
            files.keep();
            serve_other(alloc, words, usage.as_str(), files, input, out, err)
        }
        Err(WordsFault::Memory) => complain(alloc, &Failure::Memory, err).status,
    }
}

/// Serves a command line that isn't one of `serve`.
#[tactic(auto, using(cilk_commands::proofs::Reading::takes_same))]
fn serve_other<F: Keeps, R: CountedRead, O: Write, E: Write>(
    alloc: Global,
    words: &[&str],
    usage: &str,
    files: &mut F,
    input: &mut R,
    out: &mut O,
    err: &mut E,
) -> u8
    requires room { (F.failed files.old).count < 18446744073709551615 }
    requires other { order_in (texts words.now) ≡ None }
    ensures served { ServesExplained (texts words.now) (F.holds files.old) (R.remaining input.old) (F.failed files.old) (F.failed files.new)
        result (O.contents out.old) (O.contents out.new) (E.contents err.old) (E.contents err.new) }
    ensures measured { is_measure (texts words.now) ≡ true
        → Measures (texts words.now) (F.holds files.old) (R.remaining input.old) (F.failed files.old) (F.failed files.new)
        result (O.contents out.old) (O.contents out.new) (E.contents err.old) (E.contents err.new) }
    ensures scheduled { is_measure (texts words.now) ≡ false → is_schedule (texts words.now) ≡ true
        → Schedules (words_of_check (texts words.now)) (F.holds files.old) (R.remaining input.old) (F.failed files.old) (F.failed files.new)
        result (O.contents out.old) (O.contents out.new) (E.contents err.old) (E.contents err.new) }
    ensures settles { is_measure (texts words.now) ≡ false → is_schedule (texts words.now) ≡ false → is_settling (texts words.now) ≡ true
        → Settles (texts words.now) (F.holds files.old) (R.remaining input.old) (F.failed files.old) (F.failed files.new)
        result (O.contents out.old) (O.contents out.new) (E.contents err.old) (E.contents err.new) }
    ensures explained { is_measure (texts words.now) ≡ false → is_schedule (texts words.now) ≡ false → is_settling (texts words.now) ≡ false
        → is_about (texts words.now) ≡ false
        → length (unflagged (texts words.now)) < length (texts words.now)
        → ServesThenExplains (unflagged (texts words.now)) true (F.holds files.old) (R.remaining input.old) (F.failed files.old) (F.failed files.new)
        result (O.contents out.old) (O.contents out.new) (E.contents err.old) (E.contents err.new) }
    ensures about { is_measure (texts words.now) ≡ false → is_schedule (texts words.now) ≡ false → is_settling (texts words.now) ≡ false
        → is_about (texts words.now) ≡ true
        → AnswersAbout (texts words.now) result (O.contents out.old) (O.contents out.new) (E.contents err.old) (E.contents err.new) }
    ensures untouched { unflagged (texts words.now) ≢ [] → input.new ≡ input.old }
    ensures most { TakesAtMost MAX_READ (R.remaining input.old) (R.remaining input.new) }
    ensures few { R.reads input.new ≤ R.reads input.old + MAX_READ }
{
    if is_measure(words) {
        serve_measure(alloc, words, files, input, out, err)
    } else {
        serve_unmeasured(alloc, words, usage, files, input, out, err)
    }
}

/// Serves a command line that isn't one of `serve` or `measure`.
#[tactic(auto, using(cilk_commands::proofs::Reading::takes_same))]
fn serve_unmeasured<F: Keeps, R: CountedRead, O: Write, E: Write>(
    alloc: Global,
    words: &[&str],
    usage: &str,
    files: &mut F,
    input: &mut R,
    out: &mut O,
    err: &mut E,
) -> u8
    requires room { (F.failed files.old).count < 18446744073709551615 }
    requires other { order_in (texts words.now) ≡ None }
    ensures served { ServesExplained (texts words.now) (F.holds files.old) (R.remaining input.old) (F.failed files.old) (F.failed files.new)
        result (O.contents out.old) (O.contents out.new) (E.contents err.old) (E.contents err.new) }
    ensures scheduled { is_schedule (texts words.now) ≡ true
        → Schedules (words_of_check (texts words.now)) (F.holds files.old) (R.remaining input.old) (F.failed files.old) (F.failed files.new)
        result (O.contents out.old) (O.contents out.new) (E.contents err.old) (E.contents err.new) }
    ensures settles { is_schedule (texts words.now) ≡ false → is_settling (texts words.now) ≡ true
        → Settles (texts words.now) (F.holds files.old) (R.remaining input.old) (F.failed files.old) (F.failed files.new)
        result (O.contents out.old) (O.contents out.new) (E.contents err.old) (E.contents err.new) }
    ensures explained { is_schedule (texts words.now) ≡ false → is_settling (texts words.now) ≡ false → is_about (texts words.now) ≡ false
        → length (unflagged (texts words.now)) < length (texts words.now)
        → ServesThenExplains (unflagged (texts words.now)) true (F.holds files.old) (R.remaining input.old) (F.failed files.old) (F.failed files.new)
        result (O.contents out.old) (O.contents out.new) (E.contents err.old) (E.contents err.new) }
    ensures about { is_schedule (texts words.now) ≡ false → is_settling (texts words.now) ≡ false → is_about (texts words.now) ≡ true
        → AnswersAbout (texts words.now) result (O.contents out.old) (O.contents out.new) (E.contents err.old) (E.contents err.new) }
    ensures untouched { unflagged (texts words.now) ≢ [] → input.new ≡ input.old }
    ensures most { TakesAtMost MAX_READ (R.remaining input.old) (R.remaining input.new) }
    ensures few { R.reads input.new ≤ R.reads input.old + MAX_READ }
{
    if is_schedule(words) {
        serve_schedule(alloc, words, files, input, out, err)
    } else if is_settling(words) {
        serve_settling(alloc, words, files, input, out, err)
    } else {
        serve_unscheduled(alloc, words, usage, files, input, out, err)
    }
}

/// Serves a command line that isn't one of `serve`, `measure` or `schedule`, nor of `settle` for
/// several programs.
#[tactic(auto, using(cilk_commands::proofs::Reading::takes_same))]
fn serve_unscheduled<F: Keeps, R: CountedRead, O: Write, E: Write>(
    alloc: Global,
    words: &[&str],
    usage: &str,
    files: &mut F,
    input: &mut R,
    out: &mut O,
    err: &mut E,
) -> u8
    requires room { (F.failed files.old).count < 18446744073709551615 }
    requires other { order_in (texts words.now) ≡ None }
    ensures served { ServesExplained (texts words.now) (F.holds files.old) (R.remaining input.old) (F.failed files.old) (F.failed files.new)
        result (O.contents out.old) (O.contents out.new) (E.contents err.old) (E.contents err.new) }
    ensures explained { is_about (texts words.now) ≡ false → length (unflagged (texts words.now)) < length (texts words.now)
        → ServesThenExplains (unflagged (texts words.now)) true (F.holds files.old) (R.remaining input.old) (F.failed files.old) (F.failed files.new)
        result (O.contents out.old) (O.contents out.new) (E.contents err.old) (E.contents err.new) }
    ensures about { is_about (texts words.now) ≡ true
        → AnswersAbout (texts words.now) result (O.contents out.old) (O.contents out.new) (E.contents err.old) (E.contents err.new) }
    ensures untouched { unflagged (texts words.now) ≢ [] → input.new ≡ input.old }
    ensures most { TakesAtMost MAX_READ (R.remaining input.old) (R.remaining input.new) }
    ensures few { R.reads input.new ≤ R.reads input.old + MAX_READ }
{
    match answer_about(alloc, words) {
        Ok(About::Text(text)) => tell_text(text.as_bytes(), out, err),
        Ok(About::Wrong(text)) => tell_error(text.as_bytes(), err),
        Ok(About::Other) => match unflagged(alloc, words) {
            Ok(plain) if plain.len() < words.len() => {
                let extras = extras_of(words);
                serve_flagged(alloc, plain.as_slice(), extras, files, input, out, err)
            }
            Ok(_) => complain(alloc, &refusal(alloc, words, false, usage), err).status,
            Err(_) => complain(alloc, &Failure::Memory, err).status,
        },
        Err(_) => complain(alloc, &Failure::Memory, err).status,
    }
}

/// Returns the failure for a command line that isn't valid: clap's text and a hint, or the help on
/// `explain`, which clap doesn't know. `is_why` says whether `--why` and a line are left out here.
fn refusal<'a>(alloc: Global, words: &[&str], is_why: bool, usage: &str) -> Failure<'a>
    ensures { WordsFail (failure_view result) }
{
    wrong_words(advised(alloc, words, is_why, usage))
}

fn advised(alloc: Global, words: &[&str], is_why: bool, usage: &str) -> Result<String, AllocError> {
    if matches!(words, ["explain", ..]) {
        return help_on(alloc, "explain");
    }
    if is_why || asks(words, "--why") {
        return String::from_str(alloc, WHY_USAGE);
    }
    let mut text = String::from_str(alloc, usage)?;
    push_advice(alloc, &mut text, words)?;
    Ok(text)
}

// The error of `--why` among words that aren't one program and a line of it.
const WHY_USAGE: &str =
    "error: `--why` of `settle` takes one program and the number of a line in it, without `--every`: `cilk settle prog.c --why 12`\n\
    hint: `cilk help settle` describes `settle` and its options\n";

/// Serves a command line as `serve` does, then adds what else is requested.
#[tactic(auto, using(cilk_commands::proofs::Reading::takes_same))]
fn serve_flagged<F: Keeps, R: CountedRead, O: Write, E: Write>(
    alloc: Global,
    words: &[&str],
    extras: Extras,
    files: &mut F,
    input: &mut R,
    out: &mut O,
    err: &mut E,
) -> u8
    requires { (F.failed files.old).count < 18446744073709551615 }
    ensures shown { ServesThenExplains (texts words.now) (asks_more extras) (F.holds files.old) (R.remaining input.old) (F.failed files.old) (F.failed files.new)
        result (O.contents out.old) (O.contents out.new) (E.contents err.old) (E.contents err.new) }
    ensures untouched { (ReadsStandard (order_in (texts words.now)) → ⊥) → input.new ≡ input.old }
    ensures most { TakesAtMost MAX_READ (R.remaining input.old) (R.remaining input.new) }
    ensures few { R.reads input.new ≤ R.reads input.old + MAX_READ }
{
    match read(alloc, words) {
        Ok(order) => match carry_out(alloc, order, files, input) {
            Ok(answer) => {
                let served = show(alloc, &answer, out, err);
                follow(served, answered(alloc, &order, &answer, extras, files), err)
            }
            Err(failure) => {
                let served = complain(alloc, &failure, err);
                follow(served, failed(alloc, &order, &failure, extras, files), err)
            }
        },
        Err(WordsFault::Usage(usage)) => {
            let is_why = extras.why.is_some();
            complain(alloc, &refusal(alloc, words, is_why, usage.as_str()), err).status
        }
        Err(WordsFault::Memory) => complain(alloc, &Failure::Memory, err).status,
    }
}

/// Returns the text that follows an answer: none after one that tells all, unless more is requested.
/// A trace with a race is read again for it.
fn answered<F: Keeps>(
    alloc: Global,
    order: &Order<'_>,
    answer: &Answer,
    extras: Extras,
    files: &mut F,
) -> Result<String, CaseFault>
    requires { HasWorkers (Some (order_view order.now)) }
    ensures unread { (IsReadAgain (Some (order_view order.now)) (answer_view answer.now) → ⊥) → F.failed files.new ≡ F.failed files.old }
    ensures silent { asks_more extras ≡ false → Explains (answer_view answer.now) (explanation_text result) }
{
    match order {
        Order::Judge { trace, sites } => match answer {
            Answer::Refused(refusal) => {
                let judged = Judged {
                    trace,
                    sites: *sites,
                };
                of_trace_race(alloc, judged, *refusal, files)
            }
            Answer::Outcome { .. }
            | Answer::Certificate(_)
            | Answer::Accepted
            | Answer::NotEnded
            | Answer::Settled { .. }
            | Answer::RaceFree(_) => Ok(String::new(alloc)),
        },
        Order::Run { .. }
        | Order::Certify { .. }
        | Order::Check { .. }
        | Order::Play { .. }
        | Order::Settle { .. } => behind_answer(alloc, order, answer, extras, files.kept()),
    }
}

/// Returns the text that follows a failure. A malformed trace is read again for it.
fn failed<F: Keeps>(
    alloc: Global,
    order: &Order<'_>,
    failure: &Failure<'_>,
    extras: Extras,
    files: &mut F,
) -> Result<String, CaseFault>
    requires { HasWorkers (Some (order_view order.now)) }
    ensures { (IsReadAgain (Some (order_view order.now)) (failure_view failure.now) → ⊥) → F.failed files.new ≡ F.failed files.old }
{
    match order {
        Order::Judge { trace, .. } => of_trace_failure(alloc, trace, failure, files),
        Order::Run { .. }
        | Order::Certify { .. }
        | Order::Check { .. }
        | Order::Play { .. }
        | Order::Settle { .. } => behind_failure(alloc, order, failure, extras, files.kept()),
    }
}

/// Serves `measure`.
fn serve_measure<F: Keeps, R: CountedRead, O: Write, E: Write>(
    alloc: Global,
    words: &[&str],
    files: &mut F,
    input: &mut R,
    out: &mut O,
    err: &mut E,
) -> u8
    requires { (F.failed files.old).count < 18446744073709551615 }
    ensures shown { Measures (texts words.now) (F.holds files.old) (R.remaining input.old) (F.failed files.old) (F.failed files.new)
        result (O.contents out.old) (O.contents out.new) (E.contents err.old) (E.contents err.new) }
    ensures untouched { input.new ≡ input.old }
{
    match run_words(alloc, words) {
        Ok(plain) => serve_run(alloc, words, plain.as_slice(), files, input, out, err),
        Err(_) => complain(alloc, &Failure::Memory, err).status,
    }
}

// The error of `measure` without a program.
const USAGE: &str =
    "error: `measure` takes other words: `cilk measure PROGRAM [--input FILE] [--csv | --svg | --dot] [--explain]`\n\
    hint: what it shows goes to standard output, a picture too: `cilk measure prog.c --svg > prog.svg`\n";

/// Serves `measure` by the words of the run.
fn serve_run<F: Keeps, R: CountedRead, O: Write, E: Write>(
    alloc: Global,
    words: &[&str],
    plain: &[&str],
    files: &mut F,
    input: &mut R,
    out: &mut O,
    err: &mut E,
) -> u8
    requires room { (F.failed files.old).count < 18446744073709551615 }
    requires plain { texts plain.now ≡ words_of_run (texts words.now) }
    ensures shown { Measures (texts words.now) (F.holds files.old) (R.remaining input.old) (F.failed files.old) (F.failed files.new)
        result (O.contents out.old) (O.contents out.new) (E.contents err.old) (E.contents err.new) }
    ensures untouched { input.new ≡ input.old }
{
    match read(alloc, plain) {
        Ok(order) => match run_of(order) {
            Some(run) => show_measured(alloc, words, run, files, input, out, err),
            None => complain(alloc, &wrong_words(String::from_str(alloc, USAGE)), err).status,
        },
        Err(WordsFault::Usage(_)) => complain(
            alloc,
            &wrong_words(String::from_str(alloc, USAGE)),
            err,
        ).status,
        Err(WordsFault::Memory) => complain(alloc, &Failure::Memory, err).status,
    }
}

/// Shows the measures of a run. If the run fails, shows why, with an explanation.
#[tactic(auto, using(crate::proofs::Standard::measured_file))]
fn show_measured<F: Keeps, R: CountedRead, O: Write, E: Write>(
    alloc: Global,
    words: &[&str],
    run: (Origin<'_>, Option<&str>),
    files: &mut F,
    input: &mut R,
    out: &mut O,
    err: &mut E,
) -> u8
    requires room { (F.failed files.old).count < 18446744073709551615 }
    requires named { measured_run (texts words.now) ≡ Some (origin_view run.0, option_map (λ p. p.now) run.1) }
    ensures shown { Measures (texts words.now) (F.holds files.old) (R.remaining input.old) (F.failed files.old) (F.failed files.new)
        result (O.contents out.old) (O.contents out.new) (E.contents err.old) (E.contents err.new) }
    ensures untouched { input.new ≡ input.old }
{
    let order = Order::Run {
        program: run.0,
        input: run.1,
    };
    match totals_of(alloc, run.0, run.1, files, input) {
        Ok(totals) => match text_of(alloc, words, &totals, run.0, run.1, files.kept()) {
            Ok(text) => tell_text(text.as_slice(), out, err),
            Err(reason) => complain(alloc, &undrawn(alloc, reason), err).status,
        },
        Err(failure) => {
            let served = complain(alloc, &failure, err);
            let text = of_failure(alloc, &order, &failure, files.kept());
            follow(served, text, err)
        }
    }
}

/// Writes an explanation, or a line why there is none. It does nothing if a write of the reply
/// failed or if the reply was out of memory, or if the explanation is empty. Returns the reply's
/// status.
pub fn follow<E: Write>(served: Served, text: Result<String, CaseFault>, err: &mut E) -> u8
    ensures status { result ≡ served.status }
    ensures explains { IsTrue served.told → served.status ≢ NO_MEMORY
        → (is_whole : Bool) × AppendsFront is_whole (E.contents err.old) (E.contents err.new) (explanation_text text) }
    ensures follows { Follows result (E.contents err.old) (E.contents err.new) }
    ensures silent { explanation_text text ≡ [] → E.contents err.new ≡ E.contents err.old }
{
    if served.told {
        if served.status != NO_MEMORY {
            explain(text, err);
        }
    }
    served.status
}

/// Writes an explanation, or a line why there is none. Nothing is written for an empty one.
fn explain<E: Write>(text: Result<String, CaseFault>, err: &mut E)
    ensures text { (is_whole : Bool) × AppendsFront is_whole (E.contents err.old) (E.contents err.new) (explanation_text text) }
    ensures silent { explanation_text text ≡ [] → E.contents err.new ≡ E.contents err.old }
{
    match text {
        Ok(text) => {
            if !text.is_empty() {
                let _ = tell(err, text.as_bytes());
            }
        }
        Err(fault) => {
            let _ = tell(err, missing(fault).as_bytes());
        }
    }
}

// The line in place of an explanation.
pub(crate) fn missing(fault: CaseFault) -> &'static str
    ensures { result.now ≡ missing_line fault }
{
    match fault {
        CaseFault::Memory => "explanation: no memory\n",
        CaseFault::Unfit => "explanation: the texts aren't those of this answer\n",
    }
}

/// Writes a text to standard output and returns the status.
pub(crate) fn tell_text<O: Write, E: Write>(text: &[u8], out: &mut O, err: &mut E) -> u8
    ensures { WritesText text.now result (O.contents out.old) (O.contents out.new) (E.contents err.old) (E.contents err.new) }
{
    if send(out, text) {
        return 0;
    }
    tell_error(b"cannot write\n", err)
}

/// Writes a text to standard error in place of an answer, and returns the status.
fn tell_error<E: Write>(text: &[u8], err: &mut E) -> u8
    ensures status { result ≡ 2 }
    ensures told { (told : Bool) × AppendsFront told (E.contents err.old) (E.contents err.new) text.now }
{
    let _ = tell(err, text);
    WRONG
}

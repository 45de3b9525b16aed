//! The command `schedule`: a script for `play` that shows a race.

ghost use Rattle.std.specs.Prelude.{◌≡◌, ◌<◌, IfOk, IfSome};
ghost use Rattle.std.specs.String.{string_bytes};
ghost use Rattle.cilk_messages.specs.Asked.{words_of_check};
ghost use Rattle.cilk_report.specs.Explained.{IsRace, IsStealingScript, Schedules, steals};
ghost use Rattle.cilk_commands.specs.Replies.{answer_view};
ghost use Rattle.cilk_commands.specs.Serving.{ReadsStandard};
ghost use Rattle.cilk_messages.specs.Words.{order_in, texts};

use crate::Keeps;
use crate::explaining::{of_answer, of_failure, race_of, texts_of};
use crate::serving::{follow, tell_text};
use crate::totals::wrong_words;
use cilk_commands::reply::{Answer, Failure};
use cilk_commands::{CountedRead, carry_out, complain, show};
use cilk_findings::fault::CaseFault;
use cilk_messages::asked::{asks, check_words};
use cilk_messages::words::{Order, WordsFault, read};
use cilk_parser::script::{LineOrder, ScriptFault, Step, read as read_script};
use cilk_profile::Kept;
use cilk_races::races::script_of_race;
use std::alloc::{AllocError, Global};
use std::io::Write;

/// Serves the command `schedule`.
pub fn serve_schedule<F: Keeps, R: CountedRead, O: Write, E: Write>(
    alloc: Global,
    words: &[&str],
    files: &mut F,
    input: &mut R,
    out: &mut O,
    err: &mut E,
) -> u8
    requires { (F.failed files.old).count < 18446744073709551615 }
    ensures shown { Schedules (words_of_check (texts words.now)) (F.holds files.old) (R.remaining input.old) (F.failed files.old) (F.failed files.new)
        result (O.contents out.old) (O.contents out.new) (E.contents err.old) (E.contents err.new) }
    ensures untouched { input.new ≡ input.old }
{
    match check_words(alloc, words) {
        Ok(plain) => {
            let explains = asks(words, "--explain");
            serve_checked(alloc, plain.as_slice(), explains, files, input, out, err)
        }
        Err(_) => complain(alloc, &Failure::Memory, err).status,
    }
}

// The error of `schedule` without a certificate.
const USAGE: &str =
    "error: these words name no certificate: `cilk schedule PROGRAM CERTIFICATE [--input FILE] [--explain]`\n\
    hint: the script goes to standard output: `cilk schedule prog.c prog.certificate > prog.script`\n";

// Serves the command by the words of the check.
fn serve_checked<F: Keeps, R: CountedRead, O: Write, E: Write>(
    alloc: Global,
    words: &[&str],
    explains: bool,
    files: &mut F,
    input: &mut R,
    out: &mut O,
    err: &mut E,
) -> u8
    requires { (F.failed files.old).count < 18446744073709551615 }
    ensures shown { Schedules (texts words.now) (F.holds files.old) (R.remaining input.old) (F.failed files.old) (F.failed files.new)
        result (O.contents out.old) (O.contents out.new) (E.contents err.old) (E.contents err.new) }
    ensures untouched { (ReadsStandard (order_in (texts words.now)) → ⊥) → input.new ≡ input.old }
{
    match read(alloc, words) {
        Ok(order) => match carry_out(alloc, order, files, input) {
            Ok(answer) => match script_of(alloc, &order, &answer, files.kept()) {
                Ok(Some(script)) => tell_text(script.as_bytes(), out, err),
                Ok(None) => {
                    let served = show(alloc, &answer, out, err);
                    let text = unscheduled(alloc, explains, &order, &answer, files.kept());
                    follow(served, text, err)
                }
                Err(_) => complain(alloc, &Failure::Memory, err).status,
            },
            Err(failure) => {
                let served = complain(alloc, &failure, err);
                let text = unchecked(alloc, explains, &order, &failure, files.kept());
                follow(served, text, err)
            }
        },
        Err(WordsFault::Usage(_)) => complain(
            alloc,
            &wrong_words(String::from_str(alloc, USAGE)),
            err,
        ).status,
        Err(WordsFault::Memory) => complain(alloc, &Failure::Memory, err).status,
    }
}

// The script that shows the race for which a certificate is refused, if there is one.
fn script_of(
    alloc: Global,
    order: &Order<'_>,
    answer: &Answer,
    kept: &Kept,
) -> Result<Option<String>, CaseFault>
    ensures { IfOk result (λ script. IfSome script (λ text. IsRace (answer_view answer.now) × IsStealingScript (string_bytes text))) }
{
    let Answer::Refused(refusal) = answer else {
        return Ok(None);
    };
    let Some((earlier, later)) = race_of(*refusal) else {
        return Ok(None);
    };
    let Some(texts) = texts_of(order, kept)? else {
        return Err(CaseFault::Unfit);
    };
    let case = texts.case(alloc)?;
    let script = script_of_race(
        &case,
        refusal.number(),
        u64::from(earlier),
        u64::from(later),
    )?;
    readable(alloc, script)
}

// The same script, if `play` can read it and its second step is a steal.
fn readable(alloc: Global, script: Option<String>) -> Result<Option<String>, CaseFault>
    ensures { IfOk result (λ script. IfSome script (λ text. IsStealingScript (string_bytes text))) }
{
    let Some(text) = script else {
        return Ok(None);
    };
    match read_script(alloc, text.as_bytes()) {
        Ok(steps) if steals(steps.as_slice()) => Ok(Some(text)),
        Ok(_) | Err(ScriptFault::Line(_)) => Ok(None),
        Err(ScriptFault::Memory) => Err(CaseFault::Memory),
    }
}

/// Returns whether the second step is a steal.
fn steals(steps: &[Step]) -> bool
    ensures { result ≡ steals steps.now }
{
    match steps {
        [_, second, ..] => matches!(second.order, LineOrder::Steal { .. }),
        _ => false,
    }
}

// The explanation of a refusal, if requested, and a hint that there is no script.
fn unscheduled(
    alloc: Global,
    explains: bool,
    order: &Order<'_>,
    answer: &Answer,
    kept: &Kept,
) -> Result<String, CaseFault> {
    let hint = match answer {
        Answer::Refused(_) => "hint: no script of two workers shows this\n",
        _ =>
            "hint: nothing races here: each schedule that ends leaves what the serial run leaves\n",
    };
    let mut text = if explains {
        of_answer(alloc, order, answer, kept)?
    } else {
        String::new(alloc)
    };
    text.push_str(hint)?;
    Ok(text)
}

/// Returns the explanation of a failure, if requested.
fn unchecked(
    alloc: Global,
    explains: bool,
    order: &Order<'_>,
    failure: &Failure<'_>,
    kept: &Kept,
) -> Result<String, CaseFault> {
    if explains {
        of_failure(alloc, order, failure, kept)
    } else {
        Ok(String::new(alloc))
    }
}

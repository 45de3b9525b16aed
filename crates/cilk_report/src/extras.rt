//! The texts that follow a reply: its explanation, and what `--trace` and `--why` add.

ghost use Rattle.std.specs.Prelude.{◌≡◌, ◌<◌, IfSome, IsOk, Some, false};
ghost use Rattle.cilk_commands.specs.Replies.{answer_view};
ghost use Rattle.cilk_commands.specs.Serving.{HasWorkers};
ghost use Rattle.cilk_messages.specs.Words.{order_view};
ghost use Rattle.cilk_report.specs.Explained.{explanation_text};
ghost use Rattle.cilk_report.specs.Silence.{Explains, asks_more};

use crate::explaining::{of_answer, of_failure};
use cilk_commands::reply::{Answer, Failure};
use cilk_commands::{skips, skips_text};
use cilk_findings::fault::CaseFault;
use cilk_messages::flags::{Extras, explains_itself};
use cilk_messages::words::{Order, Origin};
use cilk_profile::{CaseTexts, Kept, Play, Telling, push_trace};
use cilk_races::push_why;
use cilk_schedule::{Choice, Reason, Skip};
use std::alloc::Global;

/// Returns the text that follows an answer: none after one that tells all, unless more is requested.
pub fn behind_answer(
    alloc: Global,
    order: &Order<'_>,
    answer: &Answer,
    extras: Extras,
    kept: &Kept,
) -> Result<String, CaseFault>
    requires { HasWorkers (Some (order_view order.now)) }
    ensures { asks_more extras ≡ false → Explains (answer_view answer.now) (explanation_text result) }
{
    let mut text = explanation(alloc, order, answer, extras, kept)?;
    push_extras(
        alloc,
        &mut text,
        order,
        extras,
        kept,
        matches!(answer, Answer::Settled { .. }),
    )?;
    Ok(text)
}

// The explanation of an answer, if it is requested.
fn explanation(
    alloc: Global,
    order: &Order<'_>,
    answer: &Answer,
    extras: Extras,
    kept: &Kept,
) -> Result<String, CaseFault>
    ensures { Explains (answer_view answer.now) (explanation_text result) }
{
    if extras.explains || explains_itself(order) {
        return of_answer(alloc, order, answer, kept);
    }
    Ok(String::new(alloc))
}

/// Returns the text that follows a failure.
pub fn behind_failure(
    alloc: Global,
    order: &Order<'_>,
    failure: &Failure<'_>,
    extras: Extras,
    kept: &Kept,
) -> Result<String, CaseFault>
    requires { HasWorkers (Some (order_view order.now)) }
{
    let mut text = if extras.explains || explains_itself(order) {
        of_failure(alloc, order, failure, kept)?
    } else {
        String::new(alloc)
    };
    match (failure, play_of(order)) {
        (Failure::Strand { .. }, _) => {
            push_extras(alloc, &mut text, order, extras, kept, false)?;
        }
        (Failure::Unmade(skip), Some(play)) => {
            if extras.explains {
                push_reason(alloc, &mut text, play, *skip, kept)?;
            }
            push_played(alloc, &mut text, play, extras, kept)?;
        }
        _ => {}
    }
    Ok(text)
}

// The script that an order plays.
fn play_of<'a>(order: &Order<'a>) -> Option<Play<'a>>
    requires { HasWorkers (Some (order_view order.now)) }
    ensures { IfSome result (λ play. 0 < play.manner.workers) }
{
    match *order {
        Order::Play {
            program,
            script: _,
            manner,
            input,
        } => Some(Play {
            program,
            input,
            manner,
        }),
        _ => None,
    }
}

// Adds why a choice can't be made: what its worker did last, or a hint.
fn push_reason(
    alloc: Global,
    text: &mut String,
    play: Play<'_>,
    skip: Skip,
    kept: &Kept,
) -> Result<(), CaseFault>
    requires { 0 < play.manner.workers }
{
    let (Choice::Run(worker) | Choice::Steal(worker, _)) = skip.choice;
    let hint = match skip.reason {
        Reason::NoFrame | Reason::HasFrame => {
            return push_trace(alloc, text, play, Telling::LastOf(worker), kept);
        }
        Reason::NoWorker =>
            "hint: `--workers N` sets the number of workers, which is 2 without it\n",
        Reason::Offers(_) => {
            "hint: `steal W K` takes offer K, counted from 0, worker by worker, each one's oldest first\n"
        }
        Reason::Ended => "hint: leave out what follows the choice that ends the run\n",
    };
    text.push_str(hint)?;
    Ok(())
}

// Adds how many choices of a script were skipped and the trace of it, or what orders the accesses of a
// line of a settled program.
fn push_extras(
    alloc: Global,
    text: &mut String,
    order: &Order<'_>,
    extras: Extras,
    kept: &Kept,
    is_settled: bool,
) -> Result<(), CaseFault>
    requires { HasWorkers (Some (order_view order.now)) }
    ensures none { asks_more extras ≡ false → IsOk result }
    ensures same { asks_more extras ≡ false → text.new ≡ text.old }
{
    if let Some(play) = play_of(order) {
        return push_played(alloc, text, play, extras, kept);
    }
    match (order, extras.why) {
        (Order::Settle { program, input }, Some(line)) if is_settled => {
            push_why(alloc, text, program, *input, line, kept)
        }
        _ => Ok(()),
    }
}

// Adds what is requested of a script that was played.
fn push_played(
    alloc: Global,
    text: &mut String,
    play: Play<'_>,
    extras: Extras,
    kept: &Kept,
) -> Result<(), CaseFault>
    requires { 0 < play.manner.workers }
    ensures none { asks_more extras ≡ false → IsOk result }
    ensures same { asks_more extras ≡ false → text.new ≡ text.old }
{
    if extras.counts && !play.manner.is_strict {
        push_skips(alloc, text, play, kept)?;
    }
    if extras.traces {
        push_trace(alloc, text, play, Telling::All, kept)?;
    }
    Ok(())
}

// Adds how many choices were skipped, and the first of them, if any were.
fn push_skips(
    alloc: Global,
    text: &mut String,
    play: Play<'_>,
    kept: &Kept,
) -> Result<(), CaseFault>
    requires { 0 < play.manner.workers }
{
    let Some(texts) = CaseTexts::of(Origin::File(play.program), play.input, kept)? else {
        return Err(CaseFault::Unfit);
    };
    let skipped = skips(
        alloc,
        texts.program,
        texts.input,
        play.manner.workers,
        kept.last()?,
    );
    match &skipped {
        Ok(skips) => {
            let line = skips_text(alloc, *skips)?;
            text.push_str(String::from_utf8_lossy(alloc, line.as_slice())?.as_str())?;
            Ok(())
        }
        // The fault that stops the run is all that is said of it.
        Err(Failure::Strand { .. }) => Ok(()),
        Err(Failure::Memory) => Err(CaseFault::Memory),
        Err(_) => Err(CaseFault::Unfit),
    }
}

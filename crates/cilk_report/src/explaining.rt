//! Explanations of answers and failures.

ghost use Rattle.std.specs.Prelude.{IfSome};
ghost use Rattle.cilk_checker.specs.Numbers.{number_of};
ghost use Rattle.cilk_commands.specs.Replies.{answer_view};
ghost use Rattle.cilk_report.specs.Explained.{IsRaceNumber, explanation_text};
ghost use Rattle.cilk_report.specs.Silence.{Explains};

use crate::certificate::line_of;
use crate::colors::colored;
use crate::wanted::push_expected;
use cilk_checker::refusal::Refusal;
use cilk_commands::reply::{Answer, Failure};
use cilk_findings::fault::CaseFault;
use cilk_findings::faults::of_fault;
use cilk_messages::named::{Named, of_unreadable};
use cilk_messages::report::{Finding, Wanted, of_line, of_script, of_text};
use cilk_messages::words::{Order, Origin};
use cilk_profile::{CaseTexts, Kept};
use cilk_races::races::of_race;
use cilk_types::event::Pos;
use std::alloc::{AllocError, Global};

/// Returns the explanation of an answer: the reason of a refusal, and nothing for other answers.
/// `kept` has the files as they were read. A trace isn't kept, so that of `judge` is
/// [`crate::judging::of_trace_race`].
///
/// A race, or a fault that stops the run, is explained in the program's text. For other refusals the
/// line of the certificate is shown.
pub fn of_answer(
    alloc: Global,
    order: &Order<'_>,
    answer: &Answer,
    kept: &Kept,
) -> Result<String, CaseFault>
    ensures { Explains (answer_view answer.now) (explanation_text result) }
{
    let text = answer_text(alloc, order, answer, kept)?;
    Ok(colored(alloc, text, kept)?)
}

pub(crate) fn answer_text(
    alloc: Global,
    order: &Order<'_>,
    answer: &Answer,
    kept: &Kept,
) -> Result<String, CaseFault>
    ensures { Explains (answer_view answer.now) (explanation_text result) }
{
    match answer {
        Answer::Refused(refusal) => refusal_text(alloc, order, *refusal, kept),
        _ => Ok(String::new(alloc)),
    }
}

// Explains a refusal.
fn refusal_text(
    alloc: Global,
    order: &Order<'_>,
    refusal: Refusal,
    kept: &Kept,
) -> Result<String, CaseFault> {
    let number = refusal.number();
    let found = race_of(refusal);
    if found.is_some() || number == 310 {
        if let Some(texts) = texts_of(order, kept)? {
            return in_text(alloc, &texts, number, found);
        }
    }
    let line = line_of(kept.front()?, refusal);
    Ok(of_line(alloc, Named::of(order).other, line, number)?)
}

/// Returns the two events of a race, if the refusal is about one.
pub(crate) fn race_of(refusal: Refusal) -> Option<(Pos, Pos)>
    ensures { IfSome result (λ _. IsRaceNumber (number_of refusal)) }
{
    match refusal {
        Refusal::Race { earlier, later } => Some((earlier, later)),
        Refusal::ViewRace { created, used } => Some((created, used)),
        _ => None,
    }
}

// Explains a race of two events, or the fault that stops a run.
fn in_text(
    alloc: Global,
    texts: &CaseTexts<'_>,
    number: u16,
    found: Option<(Pos, Pos)>,
) -> Result<String, CaseFault> {
    let case = texts.case(alloc)?;
    match found {
        Some((earlier, later)) => { of_race(&case, number, u64::from(earlier), u64::from(later)) }
        None => of_fault(&case),
    }
}

/// Returns the texts of an order's program and input, or `None` if the program came from standard
/// input.
pub(crate) fn texts_of<'a>(
    order: &Order<'a>,
    kept: &'a Kept,
) -> Result<Option<CaseTexts<'a>>, CaseFault> {
    let Named { program, input, .. } = Named::of(order);
    CaseTexts::of(program, input, kept)
}

/// Returns the explanation of a failure. `kept` has the files as they were read. A fault of a text
/// is in the one that was read last. Only the number of a fault is known if the program came from
/// standard input.
pub fn of_failure(
    alloc: Global,
    order: &Order<'_>,
    failure: &Failure<'_>,
    kept: &Kept,
) -> Result<String, CaseFault> {
    let text = failure_text(alloc, order, failure, kept)?;
    Ok(colored(alloc, text, kept)?)
}

pub(crate) fn failure_text(
    alloc: Global,
    order: &Order<'_>,
    failure: &Failure<'_>,
    kept: &Kept,
) -> Result<String, CaseFault> {
    let named = Named::of(order);
    let is_file = matches!(named.program, Origin::File(_));
    let text = match failure {
        Failure::Program { number, place } if is_file => {
            at_byte(alloc, named.file(), kept.last()?, *number, *place)
        }
        Failure::Input { number, place } => {
            let path = named.input.unwrap_or("-");
            at_byte(alloc, path, kept.last()?, *number, *place)
        }
        Failure::Run { number, .. } => match texts_of(order, kept)? {
            Some(texts) => return in_text(alloc, &texts, *number, None),
            None => of_line(alloc, named.file(), None, *number),
        },
        Failure::Program { number, .. } | Failure::Strand { number, .. } => {
            of_line(alloc, named.file(), None, *number)
        }
        Failure::Script(line) => of_script(alloc, named.other, *line),
        Failure::Unreadable(path) => of_unreadable(alloc, &named, path),
        _ => return Ok(String::new(alloc)),
    };
    Ok(text?)
}

// Explains a fault at a byte of a text.
fn at_byte(
    alloc: Global,
    file: &str,
    text: &[u8],
    number: u16,
    at: usize,
) -> Result<String, AllocError> {
    let mut words = String::new(alloc);
    let semicolon = number == 103 && push_expected(alloc, &mut words, text, at)?;
    let finding = Finding {
        file,
        text,
        number,
        at,
    };
    let wanted = Wanted {
        words: words.as_str(),
        semicolon,
    };
    of_text(alloc, &finding, &wanted)
}

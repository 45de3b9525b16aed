//! The text or picture that `measure` shows.

ghost use Rattle.std.specs.Prelude.{◌≡◌, IfErr, IfOk};
ghost use Rattle.cilk_profile.specs.Measured.{IsAboutPictures, IsMeasureText, IsTable, is_drawn, mark_in};
ghost use Rattle.cilk_messages.specs.Words.{texts};

use crate::asks;
use crate::drawing::{profile_of, tree_of_run};
use crate::rows::push_tables;
use crate::table::{BLANK, COMMA, totals_text};
use crate::totals::Totals;
use cilk_findings::case::Case;
use cilk_findings::fault::CaseFault;
use cilk_findings::kept::{CaseTexts, Kept};
use cilk_messages::words::Origin;
use std::alloc::Global;

/// The reason why nothing is shown of a run that ended.
#[derive(Clone, Copy)]
pub enum NoText {
    /// A picture is requested that isn't drawn, and why not.
    Undrawn(&'static str),
    Fault(CaseFault),
}

impl From<CaseFault> for NoText {
    fn from(fault: CaseFault) -> NoText {
        NoText::Fault(fault)
    }
}

/// Returns what `measure` shows of a run with these totals: a table that begins with them, or a
/// picture. All but the totals is derived from the kept texts. A program from standard input isn't
/// kept: its table has the totals only, and it isn't drawn.
pub fn text_of(
    alloc: Global,
    words: &[&str],
    totals: &Totals,
    program: Origin<'_>,
    input: Option<&str>,
    kept: &Kept,
) -> Result<Vec<u8>, NoText>
    ensures text { IfOk result (λ text. IsMeasureText (texts words.now) totals.now text.items) }
    ensures undrawn { IfErr result (IsAboutPictures (texts words.now)) }
{
    let read = match CaseTexts::of(program, input, kept) {
        Ok(read) => read,
        Err(fault) => return Err(NoText::Fault(fault)),
    };
    if is_drawn(words) {
        return drawn(alloc, words, read);
    }
    match table(alloc, words, totals, read) {
        Ok(text) => Ok(text),
        Err(fault) => Err(NoText::Fault(fault)),
    }
}

// The errors of a picture that isn't drawn.
const TOO_LARGE: &str = "error: the run has too many strands to be drawn as a tree: more than 250\n\
    hint: measure a smaller input, or draw its steps: `cilk measure PROGRAM --svg`\n";

const TWO_FORMS: &str = "error: one picture or table at a time: `--csv`, `--svg` or `--dot`\n\
    hint: the speed-up and the steps: `cilk measure prog.c --svg > prog.svg`; the tree of strands: `cilk measure prog.c --dot > prog.dot`\n";

const UNKEPT: &str = "error: a program from standard input isn't drawn\n\
    hint: put it into a file: `cilk measure prog.c --svg > prog.svg`\n";

/// Returns whether a picture is requested.
fn is_drawn(words: &[&str]) -> bool
    ensures { result ≡ is_drawn (texts words.now) }
{
    asks(words, "--svg") || asks(words, "--dot")
}

// The picture of the steps or of the tree.
fn drawn(alloc: Global, words: &[&str], read: Option<CaseTexts<'_>>) -> Result<Vec<u8>, NoText> {
    let is_steps = asks(words, "--svg");
    if asks(words, "--csv") || is_steps && asks(words, "--dot") {
        return Err(NoText::Undrawn(TWO_FORMS));
    }
    let Some(read) = read else {
        return Err(NoText::Undrawn(UNKEPT));
    };
    let case = read.case(alloc)?;
    picture_of(&case, is_steps)
}

fn picture_of(case: &Case<'_>, is_steps: bool) -> Result<Vec<u8>, NoText> {
    if is_steps {
        return Ok(profile_of(case)?.into_bytes());
    }
    match tree_of_run(case)? {
        Some(picture) => Ok(picture.into_bytes()),
        None => Err(NoText::Undrawn(TOO_LARGE)),
    }
}

// The table of the totals and rows.
fn table(
    alloc: Global,
    words: &[&str],
    totals: &Totals,
    read: Option<CaseTexts<'_>>,
) -> Result<Vec<u8>, CaseFault>
    ensures { IfOk result (λ text. IsTable (texts words.now) totals.now text.items) }
{
    let mut rest = String::new(alloc);
    let ticks = push_rest(alloc, &mut rest, totals, asks(words, "--csv"), read)?;
    let mut text = totals_text(alloc, mark_in(words), totals, ticks)?;
    text.extend_from_slice(rest.as_bytes())?;
    Ok(text)
}

// The separator before each number.
fn mark_in(words: &[&str]) -> u8
    ensures { result ≡ mark_in (texts words.now) }
{
    if asks(words, "--csv") { COMMA } else { BLANK }
}

// Adds what follows the totals, and returns the ticks.
fn push_rest(
    alloc: Global,
    rest: &mut String,
    totals: &Totals,
    commas: bool,
    read: Option<CaseTexts<'_>>,
) -> Result<Option<u64>, CaseFault> {
    let Some(read) = read else {
        return Ok(None);
    };
    let case = read.case(alloc)?;
    Ok(Some(push_tables(rest, &case, totals, commas)?))
}

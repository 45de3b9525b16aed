//! The texts of explanations.

ghost use Rattle.std.specs.Prelude.{◌≡◌, ◌<◌, is_some, length, string_bytes, IfOk, IfSome, OnOk};
ghost use Rattle.cilk_messages.specs.About.{IsPage, has_meaning};

use crate::at_hand::at_hand;
use crate::excerpt::push_excerpt;
use crate::further::{Told, push_further};
use crate::help::VERSION;
use crate::hints::hint_of;
use crate::kinds::{FOREIGN, is_foreign, other_kind};
use crate::numbers::TITLES;
use crate::place::{Location, locate};
use crate::reasons::{EXAMPLE, LINE, MEANING, PLACE, cure_of, has_meaning, line_of, title_of};
use crate::sentence::{Part, push_line, push_said, say};
use crate::tokens::Tokens;
use std::alloc::{AllocError, Global};

/// A refused place of a text.
#[derive(Clone, Copy)]
pub struct Finding<'a> {
    /// The name of the file.
    pub file: &'a str,
    pub text: &'a [u8],
    /// The number of the fault.
    pub number: u16,
    /// The byte, from 0.
    pub at: usize,
}

/// The expectation of the grammar at a refused token.
#[derive(Clone, Copy)]
pub struct Wanted<'a> {
    /// In words; empty if it isn't known.
    pub words: &'a str,
    /// Whether a semicolon is one of the expected tokens.
    pub semicolon: bool,
}

/// Returns the text of `explain NUMBER`, which begins with the number and is longer than the version, or
/// `None` if the number has no meaning.
pub fn of_number(alloc: Global, number: u16) -> Result<Option<String>, AllocError>
    ensures known { IfOk result (λ told. is_some told ≡ has_meaning number) }
    ensures page { IfOk result (λ told. IfSome told (λ text. IsPage number (string_bytes text))) }
    ensures longer { IfOk result (λ told. IfSome told (λ text. length VERSION.now < length (string_bytes text))) }
{
    if !has_meaning(number) {
        return Ok(None);
    }
    let mut meaning = String::new(alloc);
    push_meaning(alloc, &mut meaning, number, title_of(number))?;
    Ok(Some(format!(in alloc; "{number}: {meaning}")?))
}

fn push_meaning(
    alloc: Global,
    text: &mut String,
    number: u16,
    title: &str,
) -> Result<(), AllocError>
    ensures { OnOk result (length VERSION.now < length (string_bytes text.new)) }
{
    let example = line_of(number, EXAMPLE);
    let (kind, shown) = example.split_once(' ').unwrap_or((example, ""));
    let words = match kind {
        "program" if number > 300 => PROGRAM_WITH_CERTIFICATE,
        "program" => PROGRAM,
        "edit" => EDIT,
        _ => "For example {}: the answer is the line\n\n    {}\n\n",
    };
    let of_trace = match number {
        301 => MALFORMED_TRACE,
        302 => CUT_TRACE,
        _ => "\n",
    };
    let head = [Part::Text(title), Part::Text(line_of(number, MEANING))];
    push_said(alloc, text, "{}\n\n{}\n\n", &head)?;
    let line = line_of(number, LINE);
    push_said(alloc, text, words, &[Part::Text(shown), Part::Text(line)])?;
    text.push_str("The place is read as: ")?;
    text.push_str(line_of(number, PLACE))?;
    text.push_str(".\n\n")?;
    text.push_str(cure_of(number))?;
    text.push_str(of_trace)
}

const PROGRAM: &str = "The program\n\n    {}\n\nis answered by the line\n\n    {}\n\n";

const PROGRAM_WITH_CERTIFICATE: &str =
    "The program\n\n    {}\n\nand the certificate of its run are answered by the line\n\n    {}\n\n";

const EDIT: &str =
    "The certificate of `examples/race.c`, with {}, is answered by the line\n\n    {}\n\n";

const MALFORMED_TRACE: &str =
    "\n\nBy `judge`, `trace 301 at L` says that line L isn't in the form of traces, or can't come there in the trace of a run (`docs/TRACES.md`).\n";

const CUT_TRACE: &str =
    "\n\nBy `judge`, `trace 302 at L` says that a trace is cut off at line L: record the run again, to its end.\n";

/// Returns the text of `explain`: each number with its title.
pub fn of_all(alloc: Global) -> Result<String, AllocError>
    ensures { IfOk result (λ text. string_bytes text ≡ TITLES.now) }
{
    String::from_str(alloc, TITLES)
}

/// Returns the message after the line of a fault of a text: its line and column, the source line
/// with a mark below the place, the token there, a hint, and a line for each further form of other
/// languages.
pub fn of_text(
    alloc: Global,
    finding: &Finding<'_>,
    wanted: &Wanted<'_>,
) -> Result<String, AllocError> {
    let mut report = String::new(alloc);
    push_finding(alloc, &mut report, finding, wanted)?;
    Ok(report)
}

fn push_finding<'a>(
    alloc: Global,
    report: &mut String,
    finding: &Finding<'a>,
    wanted: &Wanted<'a>,
) -> Result<(), AllocError> {
    let Finding {
        file,
        text,
        number,
        ..
    } = *finding;
    let place = if number == 115 {
        text.trim_ascii_end().len()
    } else {
        finding.at
    };
    let head = [
        Part::Place(file, locate(text, place)),
        Part::Count(number as usize),
        Part::Text(title_of(number)),
    ];
    push_said(alloc, report, "{}: error {}: {}\n", &head)?;
    push_excerpt(alloc, report, text, place)?;
    let tokens = Tokens::new(alloc, text)?;
    push_advice(alloc, report, &tokens, finding, wanted)
}

// What was found at the place, the hint or the general cure, and what else has no form here.
fn push_advice<'a>(
    alloc: Global,
    report: &mut String,
    tokens: &Tokens<'a>,
    finding: &Finding<'a>,
    wanted: &Wanted<'a>,
) -> Result<(), AllocError> {
    let Finding { number, at, .. } = *finding;
    if let Some(found) = at_hand(tokens, number, at, wanted.words) {
        push_line(alloc, report, "reason", &found)?;
    }
    let hint = hint_of(tokens, number, at, wanted).unwrap_or(say(cure_of(number)));
    push_line(alloc, report, "hint", &hint)?;
    push_others(alloc, report, finding, hint.words())
}

// What else the text of a program has that has no form here.
fn push_others(
    alloc: Global,
    report: &mut String,
    finding: &Finding<'_>,
    hint: &str,
) -> Result<(), AllocError> {
    let Finding {
        text,
        number,
        at,
        ..
    } = *finding;
    if number == 106 || number > 119 || other_kind(text).is_some() {
        return Ok(());
    }
    push_further(alloc, report, text, Told { at, hint })?;
    if is_foreign(text) {
        return push_line(alloc, report, "note", &say(FOREIGN));
    }
    Ok(())
}

/// Returns the message after a refusal whose place isn't a byte: a line, an event or a run. For a
/// number that the tool doesn't have it is empty.
pub fn of_line(
    alloc: Global,
    file: &str,
    line: Option<u64>,
    number: u16,
) -> Result<String, AllocError> {
    let mut report = String::new(alloc);
    if !title_of(number).is_empty() {
        push_refusal(alloc, &mut report, begin_of(file, line), number)?;
    }
    Ok(report)
}

fn push_refusal(
    alloc: Global,
    report: &mut String,
    place: Part<'_>,
    number: u16,
) -> Result<(), AllocError> {
    let parts = [
        place,
        Part::Count(number as usize),
        Part::Text(title_of(number)),
        Part::Text(line_of(number, MEANING)),
        Part::Text(cure_of(number)),
    ];
    push_said(alloc, report, REFUSAL, &parts)
}

const REFUSAL: &str = "{}: error {}: {}\nreason: {}\nhint: {}\n";

// The place of a line, or a file alone.
fn begin_of(file: &str, line: Option<u64>) -> Part<'_> {
    match line {
        Some(line) => Part::Place(
            file,
            Location {
                line: line as usize,
                column: 1,
            },
        ),
        None => Part::Text(file),
    }
}

/// Returns the message after a refused script.
pub fn of_script(alloc: Global, file: &str, line: usize) -> Result<String, AllocError> {
    let mut report = String::new(alloc);
    let place = begin_of(file, Some(line as u64));
    push_said(alloc, &mut report, SCRIPT, &[place])?;
    Ok(report)
}

const SCRIPT: &str = "{}: error: no line of a script, or too many choices\n\
     reason: a line is `run W`, `run W N`, `steal W K` or `all`, with plain numbers of at most 1,000,000, W and N from \
     1; or it is empty, or begins with `#`\n\
     hint: a script has at most 1,048,576 bytes and 16,000,000 choices (`docs/SCRIPTS.md`)\n";

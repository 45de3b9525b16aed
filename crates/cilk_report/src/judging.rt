//! Explanations of `judge`: the accesses that race, or why a trace isn't judged.

ghost use Rattle.std.specs.Prelude.{◌≡◌};
ghost use Rattle.cilk_report.specs.Explained.{IsTraceFault};
ghost use Rattle.cilk_commands.specs.Replies.{failure_view};

use crate::Keeps;
use crate::accesses::Accesses;
use crate::again::seek;
use crate::colors::colored;
use crate::explaining::race_of;
use cilk_checker::refusal::Refusal;
use cilk_commands::files::Parts;
use cilk_commands::reply::Failure;
use cilk_findings::fault::CaseFault;
use cilk_messages::numbered::LineAt;
use cilk_messages::raced::Raced;
use cilk_messages::table::Sites;
use cilk_trace::line::Line;
use cilk_trace::reader::TraceReader;
use std::alloc::{AllocError, Global};

const HEADER: &str = "the first line of a trace is `cilktrace 1`";

const PROGRAM: &str =
    "the first line of a trace is `cilktrace 1`; a program in the language of this tool is judged by `cilk settle`, others by the trace of a run (`cilk help judge`)";

const MALFORMED: &str = ": error 301: a trace can't have this line here\n";

const BINARY_HEADER: &str = "cilktrace-bin 1";

const BINARY: &str =
    "reason: the trace is in the binary form: `recorder/trace2text FILE` writes its lines up to this one, and what is wrong\n";

const NO_FORM: &str =
    "it has none of the forms of a trace's lines, or a number is out of range or begins with 0 (docs/TRACES.md)";

const NO_FRAME: &str = "only the root frame is open here, and that one ends with the line `end`";

const OPEN: &str =
    "frames are open here: each but the root ends with `spawned` or `called`; or a line `end` came before";

const ALIVE: &str =
    "this reducer is alive already: it isn't retired; or the line `end` came before";

const NOT_ALIVE: &str =
    "this reducer isn't alive: it isn't created, or it is retired; or the line `end` came before";

const BEHIND: &str = "nothing may follow the line `end`";

const SPENT: &str =
    "hint: this trace can't be read again to show its lines, as what comes by a pipe: write it to a file, and judge that\n";

const CUT_OFF: &str =
    "reason: a whole trace ends with the line `end`: the program crashed or was killed, or still runs, or a part of the file is missing\n\
    hint: a trace that is cut off decides nothing: record the run again, to its end\n";

/// The files of an order to judge a trace.
#[derive(Clone, Copy)]
pub struct Judged<'a> {
    pub trace: &'a str,
    pub sites: Option<&'a str>,
}

/// Returns the explanation of a race of a trace. The trace and the table of sites are read for it. A
/// trace that can't be read again has the numbers of its lines alone.
pub fn of_trace_race<F: Keeps>(
    alloc: Global,
    judged: Judged<'_>,
    refusal: Refusal,
    files: &mut F,
) -> Result<String, CaseFault> {
    let mut text = String::new(alloc);
    if let Some((earlier, later)) = race_of(refusal) {
        let mut found = Accesses::new(alloc, earlier, later);
        if seek(judged.trace, Parts::OfStream, files, &mut found)? {
            push_accesses(alloc, &mut text, judged, refusal, &found, files)?;
        } else {
            text = spent_race(alloc, judged.trace, refusal)?;
        }
    }
    Ok(colored(alloc, text, files.kept())?)
}

// The explanation of a race of a trace that can't be read again.
fn spent_race(alloc: Global, trace: &str, refusal: Refusal) -> Result<String, AllocError> {
    match refusal {
        Refusal::ViewRace { created, used } => format!(in alloc;
            "{trace}:{used}:1: error 312: a view-read race: the view is read here\n\
            {trace}:{created}:1: note: earlier in the serial run the reducer is created here\n{SPENT}"
        ),
        Refusal::Race { earlier, later } => format!(in alloc;
            "{trace}:{later}:1: error 311: a determinacy race: the later access\n\
            {trace}:{earlier}:1: note: earlier in the serial run the other access\n{SPENT}"
        ),
        _ => Ok(String::new(alloc)),
    }
}

// Adds the explanation of the accesses that were found. One without a table that can be read has the
// numbers of sites.
fn push_accesses<F: Keeps>(
    alloc: Global,
    text: &mut String,
    judged: Judged<'_>,
    refusal: Refusal,
    found: &Accesses,
    files: &mut F,
) -> Result<(), CaseFault> {
    let (Some(first), Some(second)) = (&found.first, &found.second) else {
        return Err(CaseFault::Unfit);
    };
    let call = match found.parted {
        Some(call) => call.site,
        None => second.site,
    };
    let mut sites = Sites::new(alloc, [first.site, second.site, call]);
    let is_read = match judged.sites {
        Some(path) => seek(path, Parts::OfFile, files, &mut sites)?,
        None => true,
    };
    let raced = Raced {
        trace: judged.trace,
        table: judged.sites,
        lacks: !is_read,
        sites: &sites,
        is_of_view: !matches!(refusal, Refusal::Race { .. }),
        first: first.access(),
        second: second.access(),
        parted: found.parted,
    };
    Ok(raced.push(alloc, text)?)
}

/// Returns the explanation of a trace that isn't judged. It is read again for a malformed line.
pub fn of_trace_failure<F: Keeps>(
    alloc: Global,
    trace: &str,
    failure: &Failure<'_>,
    files: &mut F,
) -> Result<String, CaseFault>
    ensures { (IsTraceFault (failure_view failure.now) → ⊥) → F.failed files.new ≡ F.failed files.old }
{
    let text = failure_text(alloc, trace, failure, files)?;
    Ok(colored(alloc, text, files.kept())?)
}

fn failure_text<F: Keeps>(
    alloc: Global,
    trace: &str,
    failure: &Failure<'_>,
    files: &mut F,
) -> Result<String, CaseFault>
    ensures { (IsTraceFault (failure_view failure.now) → ⊥) → F.failed files.new ≡ F.failed files.old }
{
    match failure {
        Failure::Trace { number: 301, line } => of_malformed(alloc, trace, *line, files),
        Failure::Trace { number, line } => Ok(format!(in alloc;
            "{trace}:{line}:1: error {number}: the trace is cut off here\n{CUT_OFF}"
        )?),
        Failure::Unreadable(_) => Ok(format!(in alloc;
            "hint: is `{trace}` a file that can be read? `-` stands for standard input\n"
        )?),
        _ => Ok(String::new(alloc)),
    }
}

// Explains a malformed line, and shows it.
fn of_malformed<F: Keeps>(
    alloc: Global,
    trace: &str,
    number: u32,
    files: &mut F,
) -> Result<String, CaseFault> {
    let mut found = LineAt::new(alloc, 1);
    if !seek(trace, Parts::OfStream, files, &mut found)? {
        return Ok(format!(in alloc; "{trace}:{number}:1{MALFORMED}{SPENT}")?);
    }
    if found.is(BINARY_HEADER) {
        return Ok(format!(in alloc; "{trace}:{number}:1{MALFORMED}{BINARY}")?);
    }
    found = LineAt::new(alloc, number);
    seek(trace, Parts::OfStream, files, &mut found)?;
    let text = found.text(alloc)?;
    Ok(of_text(alloc, trace, number, text.as_str())?)
}

fn of_text(alloc: Global, trace: &str, number: u32, text: &str) -> Result<String, AllocError> {
    let reason = match line_in(alloc, text) {
        _ if number == 1 && trace.ends_with(".c") => PROGRAM,
        _ if number == 1 => HEADER,
        None => NO_FORM,
        Some(line) => misplaced(line),
    };
    format!(in alloc; "{trace}:{number}:1{MALFORMED}{text}\n^\nreason: {reason}\n")
}

// The line of the text form that this spells.
fn line_in(alloc: Global, text: &str) -> Option<Line> {
    let text = format!(in alloc; "cilktrace 1\n{text}\n").ok()?;
    let mut reader = TraceReader::new(alloc);
    first_line(&mut reader, text.as_bytes())
}

fn first_line(reader: &mut TraceReader, text: &[u8]) -> Option<Line> {
    let mut rest = text;
    let mut found = None;
    for _piece in 0..text.len() {
        reader.reserve().ok()?;
        let (taken, line) = reader.next(rest).ok()?;
        rest = &rest[taken..];
        found = found.or(line);
    }
    found
}

// The reason why a line can't be in its place.
fn misplaced(line: Line) -> &'static str {
    match line {
        Line::Spawned | Line::Called => NO_FRAME,
        Line::End => OPEN,
        Line::Create { .. } => ALIVE,
        Line::Update { .. } | Line::Value { .. } | Line::Retire { .. } => NOT_ALIVE,
        Line::Enter { .. }
        | Line::Sync
        | Line::Read { .. }
        | Line::Write { .. }
        | Line::Clear { .. }
        | Line::Unseen { .. } => BEHIND,
    }
}

//! The command `judge`. A trace is read once, as a stream, and nothing of it is kept.

ghost use Rattle.std.specs.Prelude.{◌≡◌, ◌<◌, IfOk, IfErr};
ghost use Rattle.cilk_commands.specs.Replies.{answer_view, failure_view};
ghost use Rattle.cilk_commands.specs.Traces.{IsNumbered, JudgeShows, unjudged_view, verdict_view};

use crate::files::{Files, Parts};
use crate::parts::PartSource;
use crate::reply::{Answer, Failure};
use crate::trace_fault::Unjudged;
use crate::trace_texts::judge_text;
use cilk_checker::refusal::Refusal;
use cilk_trace::judge::Verdict;
use std::alloc::Global;

/// The number of a malformed trace, as of a malformed certificate.
const MALFORMED: u16 = 301;

/// The number of a truncated trace, as of a truncated certificate.
const TRUNCATED: u16 = 302;

// The failure that shows why the trace in a file isn't judged.
fn unjudged<'a>(fault: Unjudged, path: &'a str) -> Failure<'a>
    ensures { failure_view result ≡ unjudged_view path.entry.now fault }
{
    match fault {
        Unjudged::Malformed { line } => Failure::Trace {
            number: MALFORMED,
            line,
        },
        Unjudged::Truncated { line } => Failure::Trace {
            number: TRUNCATED,
            line,
        },
        Unjudged::Unread => Failure::Unreadable(path),
        Unjudged::Memory => Failure::Memory,
    }
}

// The answer that shows a verdict. It names lines of the file, where the header is line 1.
fn shown(verdict: Verdict) -> Answer
    requires { IsNumbered verdict }
    ensures { answer_view result ≡ verdict_view verdict }
{
    match verdict {
        Verdict::RaceFree(unseen) => Answer::RaceFree(unseen),
        Verdict::Race(earlier, later) => Answer::Refused(Refusal::Race {
            earlier: earlier + 1,
            later: later + 1,
        }),
        Verdict::ViewRace(created, used) => Answer::Refused(Refusal::ViewRace {
            created: created + 1,
            used: used + 1,
        }),
    }
}

/// Judges the trace in a file, or that on standard input for the path `-`, in one reading. Memory: a byte for each mark of the trace, 8 bytes for each
/// grain of 8, 4, 2 or 1 cells of the pages of 4,096 that it accesses; some 30 a strand only where
/// another strand than a reducer's creator reads its view.
pub fn judge<'a, F: Files>(
    alloc: Global,
    trace: &'a str,
    files: &mut F,
) -> Result<Answer, Failure<'a>>
    requires { (F.failed files.old).count < 18446744073709551615 }
    ensures answer { IfOk result (λ a. JudgeShows trace.entry.now (F.holds files.old trace.entry.now) (F.failed files.old) (F.failed files.new) (answer_view a)) }
    ensures failure { IfErr result (λ e. JudgeShows trace.entry.now (F.holds files.old trace.entry.now) (F.failed files.old) (F.failed files.new) (failure_view e)) }
{
    let mut source = PartSource::new(files, trace, Parts::OfStream, trace);
    match judge_text(alloc, &mut source) {
        Ok(verdict) => Ok(shown(verdict)),
        Err(fault) => Err(unjudged(fault, trace)),
    }
}

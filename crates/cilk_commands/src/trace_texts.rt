//! Judging a trace's text: whether two accesses of the program that wrote it race, in any schedule.
//!
//! `docs/TRACES.md` has the text and its meaning. A text is read once from a
//! [`Source`](cilk_checker::source::Source), in pieces, and nothing of it is kept. (Races: Feng and
//! Leiserson 1997; views: Lee and Schardl 2015.)
//!
//! ```text
//! let verdict = judge_text(alloc, &mut source)?;        // Malformed, Truncated, ..
//! ```

ghost use Rattle.std.specs.Prelude.{◌≡◌, ◌<◌, Err, IfErr, IfOk, OnOk};
ghost use Rattle.cilk_checker.specs.Pulls.{Takes};
ghost use Rattle.cilk_commands.specs.TraceFaults.{IsUnjudged};
ghost use Rattle.cilk_commands.specs.TraceTexts.{GivesText, HasNoMalformedLine, HasVerdict};

use crate::trace_fault::Unjudged;
use crate::trace_pieces::Pieces;
use cilk_checker::source::Source;
use cilk_trace::judge::{Judge, Verdict};
use cilk_trace::survey::Surveyed;
use std::alloc::Global;

/// Judges a trace's text.
///
/// The error is the text's first fault. Pulling stops there: a device that would fail later isn't
/// told. Time is linear in the text and the cells that it names. Memory: a byte for each mark, 8 bytes
/// for each open frame, each child that no sync has joined and each grain of the pages of 4,096 cells that
/// are accessed, and 24 for each reducer that is alive; and where another strand than a reducer's creator
/// reads its view, 16 for each such read, and some 30 a strand at the end.
pub fn judge_text<S: Source>(alloc: Global, source: &mut S) -> Result<Verdict, Unjudged>
    requires { S.failed source.old < 18446744073709551615 }
    ensures verdict { IfOk result (λ v. GivesText (S.remaining source.old) (λ text. HasVerdict text v)) }
    ensures fault { IfErr result (λ e. IsUnjudged (S.remaining source.old) (S.failed source.old) (S.failed source.new) e) }
    ensures part { result ≡ Err Unjudged.Unread → Takes (S.remaining source.old) (S.remaining source.new) HasNoMalformedLine }
    ensures uncounted { OnOk result (S.failed source.new ≡ S.failed source.old) }
    ensures lender { S.lender source.new ≡ S.lender source.old }
    ensures kept { S.kept source.new ≡ S.kept source.old }
{
    let mut judge = Judge::new(alloc)?;
    let mut pieces = Pieces::new(alloc);
    'lines: while let Some(found) = pieces.next(source)? {
        match judge.meet(&found.line)? {
            Surveyed::Fits => {}
            Surveyed::Misplaced => {
                let line = found.number;
                return Err(Unjudged::Malformed { line });
            }
        }
    }
    let verdict = judge.verdict(alloc)?;
    Ok(verdict)
}

//! The laws of verdicts and of accepted runs. Each function does nothing: its contract is the law.

ghost use Rattle.std.specs.Prelude.{ℕ, List};
ghost use Rattle.cilk_checker.specs.ConsistentCuts.{HasConsistentCuts};
ghost use Rattle.cilk_checker.specs.OneVerdict.{HasOneVerdict};

use crate::accepted::Accepted;
use cilk_determinacy::laws::{serial_run_is_numbered, words_make_words};
use cilk_determinacy::positions::cuts_are_closed;
use cilk_determinacy::views::pieces_cover_stretches;
use cilk_determinacy::words::{inputs_are_words, programs_are_of_words};

/// The texts of a program, an input and a certificate have at most one verdict.
///
/// At most one refusal is true of them, out of memory aside, and none if they are to be accepted.
/// An acceptance is of one program, one input and one run.
#[tactic(auto, using(crate::proofs::OneVerdict::one_verdict))]
pub fn texts_have_one_verdict()
    ensures { (program input certificate : List ℕ) → HasOneVerdict program input certificate }
{}

/// Each state of an accepted program, after any steps, is a consistent cut of its serial run.
///
/// If an event is made, each event before it is made. Each cell holds the value of the last write
/// to it that is made, in serial order, or its opening value. Each piece covers one range of the
/// run without gaps and has the views of its range alone. The ranges don't overlap, and together
/// they are the events made.
pub fn accepted_runs_have_consistent_cuts(accepted: &Accepted)
    ensures { HasConsistentCuts accepted.now }
{
    programs_are_of_words(accepted.program());
    inputs_are_words(accepted.input());
    words_make_words();
    serial_run_is_numbered();
    cuts_are_closed();
    pieces_cover_stretches();
}

//! The first difference between a certificate and a run.

ghost use Rattle.std.specs.Prelude.{◌≡◌, ◌↔◌, IsTrue, MatchOption};
ghost use Rattle.cilk_tree.specs.Shape.{Shape};
ghost use Rattle.cilk_cert_text.specs.Certificates.{Contents};
ghost use Rattle.cilk_cert_maker.specs.Right.{EventIsWrong, FrameIsWrong, OwnerIsWrong, HebrewIsWrong, ClassIsWrong, SourceIsWrong, IsNowhere, IsRight};
ghost use Rattle.cilk_checker.specs.Columns.{HasColumns, IsFirstPlace, place_of};
ghost use Rattle.cilk_checker.specs.Refusals.{IsFound};
ghost use Rattle.cilk_checker.specs.Tallies.{Tallied};

use crate::first::First;
use crate::refusal::Refusal;
use crate::right::Right;
use crate::tally::Tally;
use cilk_types::outcome::Outcome;

// The place of the first wrong item, from 1. `count` is the length of the right column.
fn place(first: First, count: usize) -> Option<u64>
    ensures { result ≡ place_of first count }
{
    if first.differs || (first.agreed as usize) < count {
        Some(first.agreed as u64 + 1)
    } else {
        None
    }
}

fn is_same(one: &i64, other: &i64) -> bool
    ensures { IsTrue result ↔ (one.now ≡ other.now) }
{
    *one == *other
}

/// Returns the position of the first event that isn't the run's.
pub(crate) fn wrong_event(tally: &Tally, right: &Right) -> Option<u64>
    ensures { (c : Contents) → Tallied right.now c tally.now
        → IsFirstPlace (EventIsWrong right.now.trace c) result }
{
    place(tally.events, right.trace.len())
}

fn wrong_frame(tally: &Tally, right: &Right) -> Option<u64>
    ensures { (s : Shape) (c : Contents) → HasColumns s right.now → Tallied right.now c tally.now
        → IsFirstPlace (FrameIsWrong s c) result }
{
    place(tally.frames, right.frame_count())
}

fn wrong_owner(tally: &Tally, right: &Right) -> Option<u64>
    ensures { (s : Shape) (c : Contents) → HasColumns s right.now → Tallied right.now c tally.now
        → IsFirstPlace (OwnerIsWrong s c) result }
{
    place(tally.owners, right.owner_count())
}

fn wrong_hebrew(tally: &Tally, right: &Right) -> Option<u64>
    ensures { (s : Shape) (c : Contents) → HasColumns s right.now → Tallied right.now c tally.now
        → IsFirstPlace (HebrewIsWrong s c) result }
{
    place(tally.hebrews, right.labels.count() as usize)
}

fn wrong_class(tally: &Tally, right: &Right) -> Option<u64>
    ensures { (s : Shape) (c : Contents) → HasColumns s right.now → Tallied right.now c tally.now
        → IsFirstPlace (ClassIsWrong s c) result }
{
    place(tally.classes, right.classes.count() as usize)
}

// Meaningful only if all events are the run's.
fn wrong_source(tally: &Tally, right: &Right) -> Option<u64>
    ensures { (c : Contents) → IsNowhere (EventIsWrong right.now.trace c) → Tallied right.now c tally.now
        → IsFirstPlace (SourceIsWrong right.now.trace c) result }
{
    place(tally.sources, right.trace.len())
}

/// Returns the first difference between a certificate and the run, in the order of the checks.
pub(crate) fn first_difference(tally: &Tally, right: &Right, outcome: &Outcome) -> Option<Refusal>
    ensures { (s : Shape) (c : Contents) → HasColumns s right.now → Tallied right.now c tally.now
        → MatchOption result (IsRight s right.now.trace outcome.now.result c)
        (λ r. IsFound s right.now.trace outcome.now.result c r) }
{
    if let Some(at) = wrong_event(tally, right) {
        return Some(Refusal::Event { at });
    }
    if let Some(frame) = wrong_frame(tally, right) {
        return Some(Refusal::Frame { frame });
    }
    if let Some(strand) = wrong_owner(tally, right) {
        return Some(Refusal::Strand { strand });
    }
    if let Some(strand) = wrong_hebrew(tally, right) {
        return Some(Refusal::Hebrew { strand });
    }
    if let Some(strand) = wrong_class(tally, right) {
        return Some(Refusal::Class { strand });
    }
    if let Some(at) = wrong_source(tally, right) {
        return Some(Refusal::ReadSource { at });
    }
    let is_result = is_same(&tally.result, &outcome.result);
    if !is_result {
        return Some(Refusal::Result);
    }
    None
}

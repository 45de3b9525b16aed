//! Laws of the views that ranges of a run's events give.

ghost use Rattle.cilk_monoid.specs.Ranges.{RangesMultiply, BeginsAtLastReset};

use crate::monoid::Monoid;

/// The views of two adjacent ranges multiply to the view of both, for each reducer instance that
/// the right range doesn't reset after an event in the left one. So the pieces of a run can be
/// multiplied in serial order if no piece resets an instance that an earlier piece mentions (Frigo,
/// Halpern, Leiserson and Lewin-Berlin 2009).
pub fn ranges_multiply<M: Monoid>()
    ensures { RangesMultiply M.structure }
{}

/// The view of a range starts at the last event in it that creates, sets or ends the instance, or
/// with the unit if there is none. The updates after that are multiplied in serial order.
pub fn begins_at_last_reset<M: Monoid>()
    ensures { BeginsAtLastReset M.structure }
{}

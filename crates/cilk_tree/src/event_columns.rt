//! The kinds, frames and earliest immediate predecessors of a run's events, found in one pass.

ghost use Rattle.std.specs.Prelude.{◌≡◌, map, IfOk};
ghost use Rattle.cilk_tree.specs.Earliest.{all_earliest, number_of};
ghost use Rattle.cilk_tree.specs.Frames.{AreFrames, BeginsAFrame};
ghost use Rattle.cilk_tree.specs.Kinds.{kind_of};

use crate::earliest::Pass;
use crate::frames::entered;
use crate::kind::{Kind, without_value};
use crate::mark::Mark;
use cilk_types::event::{FrameNo, Pos};
use cilk_types::trace::Trace;
use std::alloc::{AllocError, Global};

/// A kind, a frame and an earliest immediate predecessor for each event of a run.
#[derive(Drop)]
pub(crate) struct EventColumns {
    pub(crate) kinds: Vec<Kind>,
    pub(crate) frames: Vec<FrameNo>,
    /// 0, which is no position, where there is none.
    pub(crate) earliest: Vec<Pos>,
}

/// Returns the columns of a run's events. Cost and memory: linear in the events. Not inlined, so
/// that its loop's values stay in registers.
#[inline(never)]
pub(crate) fn event_columns(alloc: Global, trace: &Trace) -> Result<EventColumns, AllocError>
    requires { BeginsAFrame trace.now }
    ensures kinds { IfOk result (λ v. v.kinds.items ≡ map kind_of trace.now) }
    ensures frames { IfOk result (λ v. AreFrames trace.now v.frames.items) }
    ensures earliest { IfOk result (λ v. v.earliest.items ≡ map number_of (all_earliest trace.now)) }
{
    let count = trace.len();
    let mut kinds = Vec::with_capacity(alloc, count)?;
    let mut frames = Vec::with_capacity(alloc, count)?;
    let mut earliest = Vec::with_capacity(alloc, count)?;
    let mut pass = Pass::new(alloc);
    let mut frame = 0;
    let mut at: Pos = 0;
    for event in trace.as_slice() {
        at += 1;
        frame = entered(frame, event);
        let kind = without_value(event);
        let first = pass.meet(Mark::of(event), at)?;
        earliest.push_reserved(number(first));
        frames.push_reserved(frame);
        kinds.push_reserved(kind);
    }
    Ok(EventColumns {
        kinds,
        frames,
        earliest,
    })
}

// A position as a number, 0 if there is none.
fn number(position: Option<Pos>) -> Pos
    ensures { result ≡ number_of position }
{
    match position {
        Some(at) => at,
        None => 0,
    }
}

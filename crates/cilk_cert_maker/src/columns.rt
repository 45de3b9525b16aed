//! The pass that finds the frames of a run and the frame of each strand.

ghost use Rattle.std.specs.Prelude.{◌≡◌, IfOk};
ghost use Rattle.cilk_tree.specs.Shape.{Shape, Spells};
ghost use Rattle.cilk_cert_maker.specs.Frames.{frames_of, owners_of};

use crate::column::Columns;
use crate::walk::Walk;
use cilk_tree::mark::Mark;
use cilk_types::trace::Trace;
use std::alloc::{AllocError, Global};

/// Returns the columns of a trace. Cost: linear in the events; memory: linear in the frames and
/// strands. The result is meaningful only if a run makes these events.
pub fn columns(alloc: Global, trace: &Trace) -> Result<Columns, AllocError>
    ensures frames { IfOk result (λ r. (s : Shape) → Spells s trace.now → r.frames.items ≡ frames_of s) }
    ensures owners { IfOk result (λ r. (s : Shape) → Spells s trace.now → r.owners.items ≡ owners_of s) }
{
    let mut walk = Walk::new(alloc)?;
    for event in trace.as_slice() {
        walk.step(Mark::of(event))?;
    }
    let (frames, owners) = walk.into_columns();
    Ok(Columns { frames, owners })
}

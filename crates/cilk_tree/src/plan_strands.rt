//! The strands of a run by the positions at which they begin.

ghost use Rattle.std.specs.Prelude.{IfOk};
ghost use Rattle.cilk_tree.specs.Columns.{AreStrands};

use crate::mark::Mark;
use cilk_types::event::StrandNo;
use cilk_types::trace::Trace;
use std::alloc::{AllocError, Global};

/// Returns a column with the strand that begins at each position, or 0 if none does. Position 0 is
/// never used. Cost and memory: linear in the events.
pub fn strands(alloc: Global, trace: &Trace) -> Result<Vec<StrandNo>, AllocError>
    ensures { IfOk result (λ v. AreStrands trace.now v.items) }
{
    let mut column = Vec::with_capacity(alloc, trace.len() + 1)?;
    column.push_reserved(0);
    let mut strand: StrandNo = 0;
    for event in trace.as_slice() {
        if Mark::of(event).strands() == 1 {
            strand += 1;
            column.push_reserved(strand);
        } else {
            column.push_reserved(0);
        }
    }
    Ok(column)
}

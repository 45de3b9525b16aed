//! The first determinacy race of a run.

ghost use Rattle.std.specs.Prelude.{◌≡◌, MatchOption, IfOk};
ghost use Rattle.cilk_tree.specs.Shape.{Shape, Spells};
ghost use Rattle.cilk_tree.specs.Tree.{tree};
ghost use Rattle.cilk_tree.specs.Hebrew.{hebrews};
ghost use Rattle.cilk_tree.specs.Races.{HasNoRace, IsFirstRace};

use crate::histories::{Access, Histories, cells_of};
use cilk_labels::Labels;
use cilk_tree::mark::Mark;
use cilk_types::event::{Pos, StrandNo};
use cilk_types::trace::Trace;
use std::alloc::{AllocError, Global};

/// Returns the first determinacy race, or `None` if no two accesses race. The later position is the
/// least that an earlier access races with. The earlier one has the greatest Hebrew number of those
/// accesses; at equal numbers it is the earliest. Cost: linear in the events and cells.
pub fn first_race(
    alloc: Global,
    trace: &Trace,
    labels: &Labels,
) -> Result<Option<(Pos, Pos)>, AllocError>
    ensures { IfOk result (λ found. (s : Shape) → Spells s trace.now → labels.now ≡ hebrews (tree s) 1 → MatchOption found (HasNoRace (tree s) trace.now) (λ pair. IsFirstRace (tree s) trace.now pair.0 pair.1)) }
{
    let events = trace.as_slice();
    let mut histories = Histories::new(alloc, cells_of(events))?;
    let mut strand: StrandNo = 0;
    let mut hebrew: u32 = 0;
    for (index, event) in events.iter().enumerate() {
        if Mark::of(event).strands() > 0 {
            strand += 1;
            if strand > labels.count() {
                return Ok(None);
            }
            hebrew = labels.hebrew(strand);
        }
        let here = Access {
            hebrew,
            at: index as Pos + 1,
        };
        if let Some(earlier) = histories.meet(event, here) {
            return Ok(Some((earlier, here.at)));
        }
    }
    Ok(None)
}

//! The first view-read race of a run.

ghost use Rattle.std.specs.Prelude.{◌≡◌, MatchOption, IfOk};
ghost use Rattle.cilk_tree.specs.Shape.{Shape, Spells};
ghost use Rattle.cilk_tree.specs.Tree.{tree};
ghost use Rattle.cilk_peers.specs.Peers.{class_numbers};
ghost use Rattle.cilk_peers.specs.ViewRaces.{HasNoViewRace, IsFirstViewRace};

use crate::first_reads::{FirstReads, Read, has_read, instance_of};
use cilk_peers::class::Classes;
use cilk_tree::mark::Mark;
use cilk_types::event::{Pos, StrandNo};
use cilk_types::trace::Trace;
use std::alloc::{AllocError, Global};

/// Returns the first view-read race, or `None` if there is none. The later position is the least
/// reducer-read whose strand has other peers than an earlier reducer-read of its instance. The
/// earlier position is the instance's first reducer-read. In a serial run of a well-named program
/// that is the instance's creation (`first_view_race_is_of_a_creation` in `cilk_determinacy`).
/// Cost: linear in the events; memory: linear in the instances.
pub fn first_view_read(
    alloc: Global,
    trace: &Trace,
    classes: &Classes,
) -> Result<Option<(Pos, Pos)>, AllocError>
    ensures { IfOk result (λ found. (s : Shape) → Spells s trace.now → classes.now ≡ class_numbers (tree s) 0 1 → MatchOption found (HasNoViewRace (tree s) trace.now) (λ pair. IsFirstViewRace (tree s) trace.now pair.0 pair.1)) }
{
    let events = trace.as_slice();
    if !has_read(events) {
        return Ok(None);
    }
    let mut firsts = FirstReads::new(alloc);
    let mut strand: StrandNo = 0;
    for (index, event) in events.iter().enumerate() {
        strand += Mark::of(event).strands();
        if let Some(instance) = instance_of(event) {
            if strand == 0 || strand > classes.count() {
                return Ok(None);
            }
            let here = Read {
                class: classes.class(strand),
                at: index as Pos + 1,
            };
            let first = firsts.meet(instance, here)?;
            let is_apart = first.class != here.class;
            if is_apart {
                return Ok(Some((first.at, here.at)));
            }
        }
    }
    Ok(None)
}

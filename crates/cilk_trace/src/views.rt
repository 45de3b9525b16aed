//! Reads of reducers' views by other strands than the creator's, and the first of them that races.

ghost use Rattle.std.specs.Prelude.{◌≡◌, ◌≤◌, ◌-◌, length, slice_index};
ghost use Rattle.cilk_trace.specs.Views.{AreHeld, view_race_by};

use crate::births::Birth;
use cilk_peers::class::Classes;
use cilk_types::event::{Pos, StrandNo};

/// A line that reads a reducer's view, and the line where the reducer was created.
#[derive(Clone, Copy)]
pub struct ViewRead {
    pub set: Birth,
    pub here: Birth,
}

/// The positions of two reads of one reducer's view, by strands whose peers differ.
#[derive(Clone, Copy)]
pub struct ViewRace {
    pub earlier: Pos,
    pub later: Pos,
}

// The peer class of a strand that is one of the tree's.
fn class_of(classes: &Classes, strand: StrandNo) -> u32
    ensures { 1 ≤ strand → strand ≤ length classes.now → result ≡ slice_index classes.now (strand - 1) }
{
    if strand >= 1 && strand <= classes.count() {
        classes.class(strand)
    } else {
        0
    }
}

/// Returns the first read whose strand is of another peer class than the reducer's creation.
pub fn first_apart(reads: &[ViewRead], classes: &Classes) -> Option<ViewRace>
    ensures { AreHeld (length classes.now) reads.now → result ≡ view_race_by classes.now reads.now }
{
    'each: for at in 0..reads.len() {
        let read = reads[at];
        if class_of(classes, read.set.strand) != class_of(classes, read.here.strand) {
            return Some(ViewRace {
                earlier: read.set.at,
                later: read.here.at,
            });
        }
    }
    None
}

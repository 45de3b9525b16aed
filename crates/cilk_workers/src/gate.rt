//! Gates: hooks that are called as strands begin.

ghost use Rattle.cilk_workers.specs.Rows.{IsGood};
ghost use Rattle.cilk_workers.specs.Gates.{EndsWithFirst};

use crate::shared::Shared;
use cilk_shared::piece::Piece;
use cilk_shared::yard::Segment;
use cilk_types::event::{Pos, StrandNo};

/// A hook that is called as each strand begins.
pub trait Gate {
    /// Called when the worker has made the first event of the strand, which is the last of the
    /// segment.
    fn at(&self, worker: u32, strand: StrandNo, segment: &Segment)
        requires { EndsWithFirst segment.now strand };
}

/// A gate that does nothing.
#[derive(Clone, Copy)]
pub struct Open;

impl Gate for Open {
    fn at(&self, _worker: u32, _strand: StrandNo, _segment: &Segment) {}
}

/// Calls a worker's gate if the piece's last event is the first of a strand and is new. `before` is
/// where the piece ended before that event.
pub fn tell<G: Gate>(gate: &G, worker: u32, shared: &Shared<'_>, before: Pos, piece: &Piece)
    requires { IsGood shared.now.run piece.now }
{
    let upto = piece.upto();
    let strand = shared.strand_at(upto - 1);
    if strand > 0 && upto != before {
        gate.at(worker, strand, piece.segment());
    }
}

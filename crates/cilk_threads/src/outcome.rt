//! The outcome of a run, from the piece of all its events.

ghost use Rattle.std.specs.Prelude.{◌≡◌, ◌+◌, ◌≤◌, ℕ, pos, [], length, slice_index_or, IfOk};
ghost use Rattle.cilk_lower.specs.Layout.{LaysOut};
ghost use Rattle.cilk_program.specs.Answered.{opening_cells};
ghost use Rattle.cilk_shared.specs.Pieces.{IsPieceOf};
ghost use Rattle.cilk_program.specs.Sources.{source};
ghost use Rattle.cilk_threads.specs.Finals.{IsMadeOf};

use cilk_lower::layout::Layout;
use cilk_program::program::Program;
use cilk_shared::piece::{Parts, Piece};
use cilk_shared::yard::Yard;
use cilk_types::outcome::Outcome;
use std::alloc::{AllocError, Global};

/// Returns the outcome of a run whose root returned `value`: the last values of the global cells and
/// of the views in the piece, which covers all events. The run by names along the plan has this
/// outcome on that input, and so does each serial run with these events. Cost and memory: linear in
/// the yard and the views.
pub fn outcome(
    alloc: Global,
    program: &Program,
    layout: &Layout,
    yard: Yard,
    piece: Piece,
    value: i64,
) -> Result<Outcome, AllocError>
    requires yard { IsPieceOf yard piece }
    requires all { (piece.from ≡ 1) × (piece.upto ≡ length piece.event_order.events + 1) }
    requires layout { LaysOut (source program.now) layout.now }
    requires globals { length (source program.now).openings ≤ length piece.event_order.opening }
    requires opens { (c : ℕ) → slice_index_or piece.event_order.opening c (pos 0) ≡ opening_cells (source program.now) [] c }
    ensures { IfOk result (λ o. IsMadeOf (source program.now) piece.event_order piece.reducers value o) }
{
    let Parts { mut views, segment } = piece.parted();
    let Ok(globals) = yard.globals(alloc, segment, program.globals.len()) else {
        return Err(AllocError);
    };
    cilk_frames::outcome::outcome(alloc, layout, globals.as_slice(), &mut views, value)
}

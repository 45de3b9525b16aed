//! Merging a piece with its neighbours.

ghost use Rattle.std.specs.Prelude.{◌≡◌, ◌<◌, IfOk, IfErr};
ghost use Rattle.cilk_workers.specs.Rows.{between, run_of, AreGood, EndsAt, BeginsAt};

use cilk_join::row::Parts;
use cilk_shared::piece::Piece;
use cilk_shared::yard::Yard;
use std::alloc::Global;

/// Makes one piece of the three, from left to right. If memory runs out, they come back.
pub fn merge(alloc: Global, yard: &Yard, parts: Parts<Piece>) -> Result<Piece, Parts<Piece>>
    requires good { AreGood (run_of yard.now parts.piece.reducers) parts.left parts.piece parts.right }
    requires near { EndsAt parts.left parts.piece.from × BeginsAt parts.right parts.piece.upto }
    ensures ok { IfOk result (λ p. p ≡ between parts.left parts.piece parts.right) }
    ensures left { IfErr result (λ r. r.left ≡ parts.left) }
    ensures piece { IfErr result (λ r. r.piece ≡ parts.piece) }
    ensures right { IfErr result (λ r. r.right ≡ parts.right) }
{
    let Parts { left, piece, right } = parts;
    match (left, right) {
        (None, None) => Ok(piece),
        (Some(left), None) => match Piece::join(alloc, yard, left, piece) {
            Ok(both) => Ok(both),
            Err((left, piece)) => Err(Parts::of(Some(left), piece, None)),
        },
        (None, Some(right)) => match Piece::join(alloc, yard, piece, right) {
            Ok(both) => Ok(both),
            Err((piece, right)) => Err(Parts::of(None, piece, Some(right))),
        },
        (Some(left), Some(right)) => match Piece::join3(alloc, yard, left, piece, right) {
            Ok(all) => Ok(all),
            Err((left, piece, right)) => Err(Parts::of(Some(left), piece, Some(right))),
        },
    }
}

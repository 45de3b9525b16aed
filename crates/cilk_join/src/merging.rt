//! Merging a piece with its neighbours.

ghost use Rattle.std.specs.Prelude.{◌≡◌, IfOk, IfErr};
ghost use Rattle.cilk_join.specs.Products.{between, product, run_of};

use crate::row::Parts;
use cilk_hypermap::hypermap::Hypermap;
use std::alloc::Global;

/// Returns the product of the three, from left to right. If memory runs out, they come back with
/// the same values.
#[tactic(auto, using(crate::proofs::Products::of_left, crate::proofs::Products::of_right, crate::proofs::Products::of_three, crate::proofs::Products::alone, crate::proofs::Products::kept, crate::proofs::Products::kept_run))]
pub fn merge(alloc: Global, parts: Parts<Hypermap>) -> Result<Hypermap, Parts<Hypermap>>
    ensures ok { IfOk result (λ h. product h ≡ between (run_of parts.left) (product parts.piece) (run_of parts.right)) }
    ensures left { IfErr result (λ p. run_of p.left ≡ run_of parts.left) }
    ensures piece { IfErr result (λ p. product p.piece ≡ product parts.piece) }
    ensures right { IfErr result (λ p. run_of p.right ≡ run_of parts.right) }
{
    let Parts { left, piece, right } = parts;
    match (left, right) {
        (None, None) => Ok(piece),
        (Some(left), None) => match Hypermap::merge(alloc, left, piece) {
            Ok(both) => Ok(both),
            Err((left, piece)) => Err(Parts::of(Some(left), piece, None)),
        },
        (None, Some(right)) => match Hypermap::merge(alloc, piece, right) {
            Ok(both) => Ok(both),
            Err((piece, right)) => Err(Parts::of(None, piece, Some(right))),
        },
        (Some(left), Some(right)) => match Hypermap::merge3(alloc, left, piece, right) {
            Ok(all) => Ok(all),
            Err((left, piece, right)) => Err(Parts::of(Some(left), piece, Some(right))),
        },
    }
}

//! Products of several views.

ghost use Rattle.std.specs.Prelude.{◌≡◌, map, IfOk, IfErr};
ghost use Rattle.cilk_monoid.specs.Products.{Grouping, values_in, product, product_by};
ghost use Rattle.cilk_monoid.specs.Values.{ViewValue};

use crate::monoid::Monoid;
use std::alloc::Global;

/// Multiplies the pieces from left to right, and returns the unit if there are none.
///
/// Costs what each piece but the first costs as the right side of a product. If memory runs out, it
/// returns pieces with the same product; some may be multiplied already.
pub fn fold_pieces<M: Monoid>(
    alloc: Global,
    mut pieces: Vec<M::View>,
) -> Result<M::View, Vec<M::View>>
    ensures product { IfOk result (λ v. M.value v ≡ product M.structure (map M.value pieces.items)) }

    // The product is the same for every way to bracket the pieces.
    ensures grouping { IfOk result (λ v. (g : Grouping ViewValue) → values_in g ≡ map M.value pieces.items → M.value v ≡ product_by M.structure g) }
    ensures err { IfErr result (λ rest. product M.structure (map M.value rest.items) ≡ product M.structure (map M.value pieces.items)) }
{
    pieces.reverse();
    let Some(mut product) = pieces.pop() else {
        return Ok(M::unit(alloc));
    };
    while let Some(piece) = pieces.pop() {
        match M::combine(alloc, product, piece) {
            Ok(longer) => product = longer,
            Err((left, right)) => {
                // Both came out of `pieces`, so it has room for them.
                pieces.push(right).unwrap();
                pieces.push(left).unwrap();
                pieces.reverse();
                return Err(pieces);
            }
        }
    }
    Ok(product)
}

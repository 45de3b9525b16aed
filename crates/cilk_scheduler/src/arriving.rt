//! Arrivals of pieces at a sync block.

ghost use Rattle.std.specs.Prelude.{◌≡◌, IfOk, OnErr};
ghost use Rattle.cilk_join.specs.Joins.{MayArrive};
ghost use Rattle.cilk_join.specs.Products.{product};
ghost use Rattle.cilk_join.specs.Waits.{shown};
ghost use Rattle.cilk_scheduler.specs.Events.{Arrives};

use cilk_hypermap::hypermap::Hypermap;
use cilk_join::join::{Arrival, Join};
use std::alloc::{AllocError, Global};
use std::mem;

/// Hands views in at a block, as the piece with this key. Returns whether the block passes: then
/// `views` are those of the whole block, else none are left in it. If out of memory, the views are
/// lost and the block is unchanged.
pub fn arrive(
    alloc: Global,
    join: &mut Join,
    views: &mut Hypermap,
    key: u32,
    last: bool,
) -> Result<bool, AllocError>
    requires { MayArrive (shown join.old) key last }
    ensures ok { IfOk result (λ passes. Arrives (shown join.old) key last (product views.old) passes (shown join.new) views.new) }
    ensures unchanged { OnErr result (shown join.new ≡ shown join.old) }
{
    let piece = mem::replace(views, Hypermap::new(alloc));
    match join.arrive(alloc, key, last, piece) {
        Ok(Arrival::Waits) => Ok(false),
        Ok(Arrival::Passes(all)) => {
            *views = all;
            Ok(true)
        }
        Err(_lost) => Err(AllocError),
    }
}

//! The end of a frame.

ghost use Rattle.std.specs.Prelude.{◌≡◌, ◌<◌, ◌≤◌, ℕ, false, Some, length, IfOk};
ghost use Rattle.cilk_join.specs.Joins.{MayArrive};
ghost use Rattle.cilk_join.specs.Waits.{shown};
ghost use Rattle.cilk_scheduler.specs.declared.frame_state.Status.TheVariants.{Offered};
ghost use Rattle.cilk_scheduler.specs.EndParts.{Brings, Seeks};
ghost use Rattle.cilk_scheduler.specs.Ending.{RetiresOwn, created_by};

use crate::arriving::arrive;
use crate::frame_state::{FrameState, Status, Worker};
use crate::offers::withdraw;
use crate::own_reducers::retire;
use cilk_frames::activation::Activation;
use cilk_hypermap::hypermap::Hypermap;
use cilk_lower::layout::Layout;
use std::alloc::{AllocError, Global};

/// Removes the views of the reducers that a frame created for itself.
pub fn retire_own(layout: &Layout, top: &Activation<FrameState>, views: &mut Hypermap)
    requires low { top.now.first < 65536 }
    requires few { length (created_by layout.now top.now.creator) ≤ 64 }
    ensures { RetiresOwn layout.now top.now views.old views.new }
{
    let Some(creator) = top.creator else { return };
    let kinds = layout.function_reducers(creator);
    retire(views, top.number, top.first, kinds);
}

/// Withdraws the continuation of a frame from the worker that offers it, if one does. Returns the
/// number of continuations that are offered then.
pub fn take_back(
    workers: &mut Vec<Worker>,
    frames: &[Activation<FrameState>],
    offered: usize,
    status: Status,
    frame: u32,
) -> usize
    requires { (v : ℕ) → status ≡ Offered v → v < length workers.old.items }
    ensures { Seeks frame status workers.old.items workers.new.items offered result }
{
    match status {
        Status::Offered(other) => {
            if withdraw(&mut workers[other as usize].offered, frames, frame) {
                offered.saturating_sub(1)
            } else {
                offered
            }
        }
        _ => offered,
    }
}

/// Hands a child's views in at its parent's block. Returns whether the block passes: then `views`
/// are those of the whole block. If out of memory, the views are lost.
pub fn bring(
    alloc: Global,
    frame_state: &mut FrameState,
    views: &mut Hypermap,
    key: u32,
) -> Result<bool, AllocError>
    requires { (l : _) × (frame_state.old.join ≡ Some l) × MayArrive (shown l.value) key false }
    ensures brings { IfOk result (λ passes. Brings frame_state.old key views.old passes frame_state.new views.new) }
    ensures same { frame_state.new ≡ record frame_state.old { join = frame_state.new.join } }
{
    match &mut frame_state.join {
        Some(join) => arrive(alloc, join, views, key, false),
        None => unreachable!(),
    }
}

//! The block of a frame whose continuation is stolen.

ghost use Rattle.std.specs.Prelude.{◌≡◌, OnOk};
ghost use Rattle.cilk_join.specs.Joins.{IsOpen};
ghost use Rattle.cilk_scheduler.specs.Events.{AwaitsLast, block_in};

use crate::frame_state::FrameState;
use cilk_join::join::Join;
use std::alloc::{AllocError, Global};

/// Lets the frame's block await the piece of its newest child. Makes the join at the block's first
/// steal. If out of memory, only the join may have changed.
pub fn await_last(alloc: Global, frame_state: &mut FrameState) -> Result<(), AllocError>
    requires { IsOpen (block_in frame_state.old.join) frame_state.old.children }
    ensures awaits { OnOk result (AwaitsLast frame_state.old frame_state.new) }
    ensures same { frame_state.new ≡ record frame_state.old { join = frame_state.new.join } }
{
    let key = frame_state.children;
    match &mut frame_state.join {
        Some(join) => {
            join.steal(key)?;
            Ok(())
        }
        None => {
            let mut join = Join::new(alloc);
            join.steal(key)?;
            frame_state.join = Some(Box::new(alloc, join)?);
            Ok(())
        }
    }
}

//! The views of a frame that ends.

ghost use Rattle.std.specs.Prelude.{◌<◌, ◌^◌, length};
ghost use Rattle.cilk_shared.specs.Reducers.{HasEnded, HasFew, own};

use crate::reducers::{FrameReducers, Reducers};
use cilk_hypermap::hypermap::Hypermap;
use cilk_types::event::{FrameNo, Instance};

/// Retires the views of the frame's reducers that don't outlive it.
pub fn retire(views: &mut Hypermap, frame: FrameNo, own: &FrameReducers)
    requires { length own.now.kinds < 2 ^ 32 }
    ensures { HasEnded frame own.now views.old views.new }
{
    'each: for place in own.outlive as usize..own.kinds.len() {
        views.retire(Instance {
            frame,
            place: place as u32 + 1,
        });
    }
}

/// The same for the frame with this number.
pub fn retire_own(views: &mut Hypermap, reducers: &Reducers, frame: FrameNo)
    requires { HasFew reducers.now }
    ensures { HasEnded frame (own reducers.now frame) views.old views.new }
{
    let place = frame.saturating_sub(1) as usize;
    if let Some(own) = reducers.frames.as_slice().get(place) {
        retire(views, frame, own);
    }
}

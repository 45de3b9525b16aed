//! The reducers that the frames of a run create.

use cilk_monoid::kind::MonoidKind;
use cilk_types::sequence::Sequence;

/// The reducers that a frame creates: their monoids, by their place from 1 on. The first `outlive`
/// of them outlive the frame, as the global reducers do the root; the frame's `end` retires the
/// others.
#[derive(Drop)]
pub struct FrameReducers {
    pub kinds: Sequence<MonoidKind>,
    pub outlive: u32,
}

/// The reducers of a run's frames, by the frames' numbers from 1 on.
#[derive(Drop)]
pub struct Reducers {
    pub frames: Sequence<FrameReducers>,
}

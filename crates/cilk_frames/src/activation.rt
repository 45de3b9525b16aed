//! The activation record of a frame.

use cilk_types::event::{Cell, FrameNo, Instance};

/// The activation record of a frame. `cursor` is whatever its owner keeps for the frame. `base` is
/// its first cell, `first` the place of its first own reducer, and `given` the reducers that it was
/// given. `outer` is the static link of a loop's frame: the index of the frame around its body.
/// `result` is the cell that receives its result, and `creator` the function whose reducers it
/// creates.
#[derive(Drop)]
pub struct Activation<C> {
    pub cursor: C,
    pub number: FrameNo,
    pub base: Cell,
    pub first: u32,
    pub given: Vec<Instance>,
    pub outer: Option<usize>,
    pub result: Option<Cell>,
    pub creator: Option<u32>,
}

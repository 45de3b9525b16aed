//! The events of a serial run, and the numbers of frames, cells, strands and positions.

/// A frame: one invocation of a function or of a part of a loop. Frames are counted from 1 in the
/// order in which they begin.
pub type FrameNo = u32;

/// A cell of memory. Cells are counted from 0: the globals first, then the block of each frame as
/// it begins.
pub type Cell = u32;

/// A position in a serial run: the number of an event, from 1.
pub type Pos = u32;

/// A strand: a maximal sequence of one frame's events that contains no parallel keyword, counted
/// from 1 in serial order.
pub type StrandNo = u32;

/// A reducer while a program runs: the frame that created it, and its number among that frame's
/// reducers, from 1. The ordered output has `frame` 0 and `place` 0.
#[derive(Clone, Copy, PartialEq, Eq, Hash)]
pub struct Instance {
    pub frame: FrameNo,
    pub place: u32,
}

impl Instance {
    /// The ordered output, to which `print` appends.
    pub const OUTPUT: Instance = Instance { frame: 0, place: 0 };
}

/// An event of a serial run.
#[derive(Clone, Copy, PartialEq, Eq)]
pub enum Event {
    /// A frame begins.
    Begin { frame: FrameNo },
    /// The current frame spawns a child, which may run in parallel with what follows.
    Spawn { child: FrameNo },
    /// The current frame calls a child.
    Call { child: FrameNo },
    /// The parent continues after its child has ended.
    Resume { parent: FrameNo },
    /// The current frame waits for the children that it spawned.
    Sync,
    /// The current frame ends.
    End,
    /// A cell is read and has this value.
    Read { cell: Cell, value: i64 },
    /// This value is written to a cell.
    Write { cell: Cell, value: i64 },
    /// A reducer is created; its view is the monoid's unit.
    Create { instance: Instance },
    /// A reducer is updated: its view is multiplied from the right by the view of this value.
    Update { instance: Instance, value: i64 },
    /// A reducer is set: its view becomes the view of this value alone.
    Set { instance: Instance, value: i64 },
    /// The number of a reducer's view is read; it is this value.
    Value { instance: Instance, value: i64 },
    /// A number is printed: it is appended to the ordered output.
    Print { value: i64 },
}

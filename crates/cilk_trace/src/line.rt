//! The lines of a trace.

/// The cells `first`, `first + 1`, .. of a line, `count` in number.
#[derive(Clone, Copy)]
pub struct Cells {
    pub first: u32,
    pub count: u32,
}

/// A line of a trace after its header.
#[derive(Clone, Copy)]
pub enum Line {
    /// A child of the current frame begins.
    Enter { site: u32 },
    /// The current frame syncs and ends, and it was spawned.
    Spawned,
    /// The current frame syncs and ends, and it was called.
    Called,
    /// The current frame waits for the children that it spawned.
    Sync,
    Read { cells: Cells, site: u32 },
    Write { cells: Cells, site: u32 },
    /// From here on these are new cells.
    Clear { cells: Cells },
    /// A reducer begins, and its view is set.
    Create { reducer: u32, site: u32 },
    Update { reducer: u32, site: u32 },
    /// A reducer's view is read or set, outside of an update.
    Value { reducer: u32, site: u32 },
    /// A reducer ends.
    Retire { reducer: u32, site: u32 },
    /// Code runs here whose accesses the trace lacks, while something is parallel.
    Unseen { site: u32 },
    /// The root frame syncs and ends.
    End,
}

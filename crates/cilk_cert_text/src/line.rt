//! The lines of a certificate.

use cilk_types::event::{Cell, FrameNo, Instance, Pos, StrandNo};

/// The version of the format. The versions differ in how an event names a reducer.
#[derive(Clone, Copy)]
pub enum Version {
    One,
    Two,
}

/// How an event names a reducer.
#[derive(Clone, Copy)]
pub enum Reducer {
    /// In version 1: a number, counted from 1 in the order of creation.
    Number(u32),
    /// In version 2: the frame that created it, and its number among that frame's reducers, from 1.
    Place(Instance),
}

/// An event in a certificate: an event of the run, with the source of each read.
#[derive(Clone, Copy)]
pub enum Entry {
    Begin { frame: FrameNo },
    Spawn { child: FrameNo },
    Call { child: FrameNo },
    Resume { parent: FrameNo },
    Sync,
    End,
    /// The source is the position of the last write of the cell before the read, or 0 if there is
    /// none.
    Read { cell: Cell, value: i64, source: Pos },
    Write { cell: Cell, value: i64 },
    Create { reducer: Reducer },
    Update { reducer: Reducer, value: i64 },
    Set { reducer: Reducer, value: i64 },
    Value { reducer: Reducer, value: i64 },
    Print { value: i64 },
}

const _: () = prove!(std::mem::size_of::<Entry>() <= 40);

/// The number of lines of each kind.
#[derive(Clone, Copy)]
pub struct Size {
    pub events: u32,
    pub frames: u32,
    pub strands: u32,
}

/// The parent of a frame, and the number of its invocation in the parent, from 1. Both are 0 for the
/// root.
#[derive(Clone, Copy, PartialEq, Eq)]
pub struct Frame {
    pub parent: FrameNo,
    pub ordinal: u32,
}

/// The frame of a strand, its Hebrew number (Feng and Leiserson 1997) and its peer class (Lee and
/// Schardl 2015).
#[derive(Clone, Copy)]
pub struct Strand {
    pub frame: FrameNo,
    pub hebrew: u32,
    pub class: StrandNo,
}

/// A line of a certificate.
#[derive(Clone, Copy)]
pub enum Line {
    Version(Version),
    Size(Size),
    Frame { number: FrameNo, frame: Frame },
    Strand { number: StrandNo, strand: Strand },
    Event(Entry),
    Result(i64),
    End,
}

/// The form of a line after the size line.
#[derive(Clone, Copy)]
pub enum Form {
    /// The line of the frame with this number.
    Frame(FrameNo),
    /// The line of the strand with this number.
    Strand(StrandNo),
    /// An event as the version writes it.
    Event(Version),
    Result,
    End,
}

/// Lines of one kind that follow one another.
#[derive(Clone, Copy)]
pub enum Column {
    /// The lines of this many frames, from this number on.
    Frames { first: FrameNo, count: u32 },
    /// The lines of this many strands, from this number on.
    Strands { first: StrandNo, count: u32 },
    /// The lines of this many events, in version 2.
    Events { count: u32 },
}

/// The first word of an event's line.
#[derive(Clone, Copy)]
pub enum Keyword {
    Begin,
    Spawn,
    Call,
    Resume,
    Sync,
    End,
    Read,
    Write,
    Create,
    Update,
    Set,
    Value,
    Print,
}

//! The spelling of lines, written forwards into the caller's room: nothing is copied or cleared.

ghost use Rattle.std.specs.Prelude.{◌≡◌, ◌+◌, ◌<◌, ◌≤◌, [], ◌∷◌, ◌++◌, length, take};
ghost use Rattle.std.specs.Fmt.{decimal, signed_decimal};
ghost use Rattle.cilk_cert_text.specs.Lines.{spelled, reducer_words};
ghost use Rattle.cilk_cert_text.specs.declared.line.Line.TheVariants as lines;
ghost use Rattle.cilk_cert_text.specs.declared.line.Entry.TheVariants as entries;
ghost use Rattle.cilk_cert_text.specs.Writing.{behind_spaces};

use crate::digits::put_number;
use crate::line::{Entry, Frame, Line, Reducer, Size, Strand, Version};

/// Room for the longest line, which has 53 bytes with its LF.
pub const ROOM: usize = 64;

/// Writes a word, and returns where it ends.
#[inline(always)]
fn word(room: &mut [u8], at: usize, word: &[u8]) -> usize
    requires { at + length word.now ≤ length room.old }
    ensures text { take result room.new ≡ take at room.old ++ word.now }
    ensures end { result ≡ at + length word.now }
{
    let end = at + word.len();
    room[at..end].copy_from_slice(word);
    end
}

/// Writes a byte, and returns where it ends.
#[inline(always)]
fn byte(room: &mut [u8], at: usize, byte: u8) -> usize
    requires { at < length room.old }
    ensures text { take result room.new ≡ take at room.old ++ byte ∷ [] }
    ensures end { result ≡ at + 1 }
{
    room[at] = byte;
    at + 1
}

/// Writes a space and a number, and returns where they end.
#[inline(always)]
fn number(room: &mut [u8], at: usize, n: u32) -> usize
    requires { at + 11 ≤ length room.old }
    ensures text { take result room.new ≡ take at room.old ++ (32 ∷ decimal n) }
    ensures short { result ≤ at + 11 }
{
    let at = byte(room, at, b' ');
    put_number(room, at, u64::from(n))
}

/// Writes a space and a value, and returns where they end.
#[inline(always)]
fn value(room: &mut [u8], at: usize, value: i64) -> usize
    requires { at + 21 ≤ length room.old }
    ensures text { take result room.new ≡ take at room.old ++ (32 ∷ signed_decimal value) }
    ensures short { result ≤ at + 21 }
{
    let at = byte(room, at, b' ');
    if value < 0 {
        let at = byte(room, at, b'-');
        return put_number(room, at, value.unsigned_abs());
    }
    put_number(room, at, value.unsigned_abs())
}

/// Writes a space and a reducer's name, and returns where they end.
fn reducer(room: &mut [u8], at: usize, name: Reducer) -> usize
    requires { at + 22 ≤ length room.old }
    ensures text { take result room.new ≡ take at room.old ++ behind_spaces (reducer_words name) }
    ensures short { result ≤ at + 22 }
{
    match name {
        Reducer::Number(n) => number(room, at, n),
        Reducer::Place(instance) => {
            let at = number(room, at, instance.frame);
            number(room, at, instance.place)
        }
    }
}

/// Writes a space, a reducer's name, a space and a value, and returns where they end.
fn change(room: &mut [u8], at: usize, name: Reducer, v: i64) -> usize
    requires { at + 43 ≤ length room.old }
    ensures text { take result room.new ≡ take at room.old ++ behind_spaces (reducer_words name ++ signed_decimal v ∷ []) }
    ensures short { result ≤ at + 43 }
{
    let at = reducer(room, at, name);
    value(room, at, v)
}

/// Writes a space and a frame's number, and returns where they end: `number`, as a call.
fn frame_number(room: &mut [u8], at: usize, frame: u32) -> usize
    requires { at + 11 ≤ length room.old }
    ensures text { take result room.new ≡ take at room.old ++ (32 ∷ decimal frame) }
    ensures short { result ≤ at + 11 }
{
    number(room, at, frame)
}

/// Writes a read's line without its LF, and returns where it ends.
#[tactic(auto, unfolding(crate::specs::Lines::spelled))]
fn read(room: &mut [u8], at: usize, cell: u32, v: i64, source: u32) -> usize
    requires { at + 63 ≤ length room.old }
    ensures text { take result room.new ≡ take at room.old ++ spelled (lines.Event (entries.Read cell v source)) }
    ensures short { result ≤ at + 63 }
    ensures some { at ≤ result }
{
    let at = word(room, at, b"read");
    let at = number(room, at, cell);
    let at = value(room, at, v);
    number(room, at, source)
}

/// Writes a write's line without its LF, and returns where it ends.
#[tactic(auto, unfolding(crate::specs::Lines::spelled))]
fn write(room: &mut [u8], at: usize, cell: u32, v: i64) -> usize
    requires { at + 63 ≤ length room.old }
    ensures text { take result room.new ≡ take at room.old ++ spelled (lines.Event (entries.Write cell v)) }
    ensures short { result ≤ at + 63 }
    ensures some { at ≤ result }
{
    let at = word(room, at, b"write");
    let at = number(room, at, cell);
    value(room, at, v)
}

/// Writes an event's line without its LF, and returns where it ends. Short, so that it can be inlined: what
/// follows an event's word is left to calls.
#[inline(always)]
#[tactic(auto, unfolding(crate::specs::Lines::spelled))]
fn entry(room: &mut [u8], at: usize, entry: Entry) -> usize
    requires { at + 63 ≤ length room.old }
    ensures text { take result room.new ≡ take at room.old ++ spelled (lines.Event entry) }
    ensures short { result ≤ at + 63 }
    ensures some { at ≤ result }
{
    match entry {
        Entry::Begin { frame } => {
            let at = word(room, at, b"begin");
            frame_number(room, at, frame)
        }
        Entry::Spawn { child } => {
            let at = word(room, at, b"spawn");
            frame_number(room, at, child)
        }
        Entry::Call { child } => {
            let at = word(room, at, b"call");
            frame_number(room, at, child)
        }
        Entry::Resume { parent } => {
            let at = word(room, at, b"resume");
            frame_number(room, at, parent)
        }
        Entry::Sync => word(room, at, b"sync"),
        Entry::End => word(room, at, b"end"),
        Entry::Read {
            cell,
            value: v,
            source,
        } => read(room, at, cell, v, source),
        Entry::Write { cell, value: v } => write(room, at, cell, v),
        Entry::Create { reducer: r } => {
            let at = word(room, at, b"create");
            reducer(room, at, r)
        }
        Entry::Update {
            reducer: r,
            value: v,
        } => {
            let at = word(room, at, b"update");
            change(room, at, r, v)
        }
        Entry::Set {
            reducer: r,
            value: v,
        } => {
            let at = word(room, at, b"set");
            change(room, at, r, v)
        }
        Entry::Value {
            reducer: r,
            value: v,
        } => {
            let at = word(room, at, b"value");
            change(room, at, r, v)
        }
        Entry::Print { value: v } => {
            let at = word(room, at, b"print");
            value(room, at, v)
        }
    }
}

/// Writes an event's line and its LF, and returns where they end.
#[inline(always)]
pub fn put_event(room: &mut [u8], at: usize, event: Entry) -> usize
    requires { at + 64 ≤ length room.old }
    ensures text { take result room.new ≡ take at room.old ++ (spelled (lines.Event event) ++ 10 ∷ []) }
    ensures within { result ≤ length room.old }
    ensures some { at < result }
{
    let at = entry(room, at, event);
    byte(room, at, b'\n')
}

/// Writes the line of a run's size without its LF, and returns where it ends.
#[tactic(auto, unfolding(crate::specs::Lines::spelled))]
fn size(room: &mut [u8], at: usize, size: Size) -> usize
    requires { at + 63 ≤ length room.old }
    ensures text { take result room.new ≡ take at room.old ++ spelled (lines.Size size) }
    ensures short { result ≤ at + 63 }
    ensures some { at ≤ result }
{
    let at = word(room, at, b"size");
    let at = number(room, at, size.events);
    let at = number(room, at, size.frames);
    number(room, at, size.strands)
}

/// Writes a frame's line without its LF, and returns where it ends.
#[tactic(auto, unfolding(crate::specs::Lines::spelled))]
fn frame(room: &mut [u8], at: usize, n: u32, frame: Frame) -> usize
    requires { at + 63 ≤ length room.old }
    ensures text { take result room.new ≡ take at room.old ++ spelled (lines.Frame n frame) }
    ensures short { result ≤ at + 63 }
    ensures some { at ≤ result }
{
    let at = word(room, at, b"frame");
    let at = number(room, at, n);
    let at = number(room, at, frame.parent);
    number(room, at, frame.ordinal)
}

/// Writes a strand's line without its LF, and returns where it ends.
#[tactic(auto, unfolding(crate::specs::Lines::spelled))]
fn strand(room: &mut [u8], at: usize, n: u32, strand: Strand) -> usize
    requires { at + 63 ≤ length room.old }
    ensures text { take result room.new ≡ take at room.old ++ spelled (lines.Strand n strand) }
    ensures short { result ≤ at + 63 }
    ensures some { at ≤ result }
{
    let at = word(room, at, b"strand");
    let at = number(room, at, n);
    let at = number(room, at, strand.frame);
    let at = number(room, at, strand.hebrew);
    number(room, at, strand.class)
}

/// Writes a line without its LF, and returns where it ends.
#[inline(always)]
#[tactic(auto, unfolding(crate::specs::Lines::spelled))]
fn line(room: &mut [u8], at: usize, line: Line) -> usize
    requires { at + 63 ≤ length room.old }
    ensures text { take result room.new ≡ take at room.old ++ spelled line }
    ensures short { result ≤ at + 63 }
    ensures some { at ≤ result }
{
    match line {
        Line::Version(Version::One) => word(room, at, b"cilkcert 1"),
        Line::Version(Version::Two) => word(room, at, b"cilkcert 2"),
        Line::Size(known) => size(room, at, known),
        Line::Frame {
            number: n,
            frame: known,
        } => frame(room, at, n, known),
        Line::Strand {
            number: n,
            strand: known,
        } => strand(room, at, n, known),
        Line::Event(event) => entry(room, at, event),
        Line::Result(result) => {
            let at = word(room, at, b"result");
            value(room, at, result)
        }
        Line::End => word(room, at, b"end"),
    }
}

/// Writes a line and its LF, and returns where they end.
#[inline(always)]
pub fn put_line(room: &mut [u8], at: usize, known: Line) -> usize
    requires { at + 64 ≤ length room.old }
    ensures text { take result room.new ≡ take at room.old ++ (spelled known ++ 10 ∷ []) }
    ensures within { result ≤ length room.old }
    ensures some { at < result }
{
    let at = line(room, at, known);
    byte(room, at, b'\n')
}

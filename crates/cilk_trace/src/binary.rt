//! Reading a trace's binary form: lines of a kind at once, all else byte by byte.

ghost use Rattle.std.specs.Prelude.{◌≡◌, ◌+◌, ◌*◌, ◌<◌, ◌≤◌, ◌^◌, ◌++◌, ◌==◌, ◌&&◌, nat_lt, ℕ, List, length as len_of, drop, IfSome};
ghost use Rattle.cilk_trace.specs.Numbers.{Next, numbers};
ghost use Rattle.cilk_trace.specs.declared.place.Place.TheVariants.{Over};

use crate::event::{Due, Kind, Step, access_line, next_step};
use crate::fault::TraceFault;
use crate::line::{Cells, Line};
use crate::parse::after;
use crate::place::Place;
use std::alloc::{AllocError, Global};

/// The most kinds of lines.
const MAX_KINDS: usize = 1 << 24;

/// What the fourth byte of a number counts. The fifth is the last one.
const FOURTH_UNIT: u64 = 1 << 21;

/// Reads a trace's binary form, after its header, in pieces that are cut anywhere, and returns its
/// lines one by one. Memory: 20 bytes for each kind of line that is declared.
#[derive(Drop)]
pub(crate) struct EventReader {
    kinds: Vec<Kind>,
    // The first cell of the last line that has cells.
    last: u32,
    place: Place,
    due: Due,
    // What the bytes of the current number make so far, and how often the next one counts.
    value: u64,
    unit: u64,
    // The number of the current line.
    number: u32,
    fault: Option<TraceFault>,
    ghost started: { 1 ≤ unit },
    ghost short: { unit ≤ 268435456 },
    ghost below: { value < unit },
    ghost later: { 2 ≤ number },
    ghost over: { place ≡ Over → unit ≡ 1 },
}

// Tells whether a number has a last byte that says nothing.
fn is_needless(byte: u8, unit: u64) -> bool
    ensures { result ≡ (byte == 0 && nat_lt 1 unit) }
{
    byte == 0 && unit > 1
}

/// A number in a piece, and the place after it.
#[derive(Clone, Copy)]
struct Number {
    value: u64,
    end: usize,
}

/// A use of a kind in a piece, and the place after it.
#[derive(Clone, Copy)]
struct Used {
    kind: usize,
    cells: Cells,
    end: usize,
}

// Returns the number that begins at a place of the piece, if all of it is there and may be.
#[inline]
fn number_at(piece: &[u8], at: usize) -> Option<Number>
    ensures number { IfSome result (λ n. (more : List ℕ) → numbers (drop at piece.now ++ more) ≡ Next n.value (numbers (drop n.end piece.now ++ more))) }
    ensures some { IfSome result (λ n. at < n.end) }
    ensures within { IfSome result (λ n. n.end ≤ len_of piece.now) }
    ensures short { IfSome result (λ n. n.end ≤ at + 268435456) }
{
    let mut value: u64 = 0;
    let mut unit: u64 = 1;
    let mut end = at;
    'bytes: while end < piece.len() {
        let byte = piece[end];
        end += 1;
        if byte < 128 {
            if is_needless(byte, unit) {
                return None;
            }
            value += u64::from(byte) * unit;
            return Some(Number { value, end });
        }
        if unit > FOURTH_UNIT {
            return None;
        }
        value += u64::from(byte - 128) * unit;
        unit *= 128;
    }
    None
}

impl EventReader {
    ghost use Rattle.std.specs.Prelude.{◌-◌, ◌≢◌, [], ◌∷◌, Some, None, IfErr, IfNone, IfOk, IsTrue, OnErr, OnOk, Err};
    ghost use Rattle.cilk_trace.specs.declared.event.Due.TheVariants as due;
    ghost use Rattle.cilk_trace.specs.declared.fault.TraceFault.{TraceFault};
    ghost use Rattle.cilk_trace.specs.declared.fault.TraceFault.TheVariants.{Malformed, Truncated};
    ghost use Rattle.cilk_trace.specs.Binary.{after_number, after_step, binary_reading, events_reading};
    ghost use Rattle.cilk_trace.specs.EventReaders.{ahead, events_in, fault_of, line_number, returned, room_for, room_of, HasSlot};
    ghost use Rattle.cilk_trace.specs.declared.event.Step.TheVariants.{Uses};
    ghost use Rattle.cilk_trace.specs.Events.{LeavesFewer};
    ghost use Rattle.cilk_trace.specs.Reading.{count_of, stops, whole, with_lines};
    ghost use Rattle.cilk_trace.specs.WholeEvents.{step_reading};

    /// Makes a reader after the header of a binary form.
    pub fn new(alloc: Global) -> Self
        ensures text { (more : List ℕ) → ahead result more ≡ binary_reading more }
        ensures fault { fault_of result ≡ None }
        ensures number { line_number result ≡ 2 }
        ensures room { room_of result < 2 ^ 70 }
    {
        EventReader {
            kinds: Vec::new(alloc),
            last: 0,
            place: Place::Lines,
            due: Due::Tag,
            value: 0,
            unit: 1,
            number: 2,
            fault: None,
        }
    }

    /// Returns the number of the current line, from 1.
    pub fn number(&self) -> u32
        ensures { result ≡ line_number self.now }
    {
        self.number
    }

    /// Makes room for what the next call may keep.
    pub fn reserve(&mut self) -> Result<(), AllocError>
        ensures slot { OnOk result (HasSlot self.new) }
        ensures ahead { (more : List ℕ) → ahead self.new more ≡ ahead self.old more }
        ensures fault { fault_of self.new ≡ fault_of self.old }
        ensures number { line_number self.new ≡ line_number self.old }
        ensures room { room_of self.new ≡ room_of self.old }
    {
        if self.kinds.len() >= self.kinds.capacity() {
            self.kinds.reserve(1)?;
        }
        Ok(())
    }

    // Ends with the current line as malformed.
    fn malformed(&mut self) -> TraceFault
        ensures value { result ≡ Malformed (line_number self.old) }
        ensures stays { fault_of self.new ≡ Some result }
    {
        let line = self.number;
        let fault = TraceFault::Malformed { line };
        self.fault = Some(fault);
        fault
    }

    // Takes the next line of a kind.
    fn use_kind(&mut self, kind: usize, cells: Cells) -> Option<Line>
        requires { self.old.number < 2 ^ 32 - 1 }
        ensures step { IfSome result (λ l. after_step (events_in self.old) self.old.number (Uses kind cells) ≡ Some (Some l, events_in self.new)) }
        ensures none { IfNone result (after_step (events_in self.old) self.old.number (Uses kind cells) ≡ None) }
        ensures number { IfSome result (λ _. self.new.number ≡ self.old.number + 1) }
        ensures kinds { len_of self.new.kinds.items ≡ len_of self.old.kinds.items }
        ensures due { IfSome result (λ _. self.new.due ≡ due.Tag) }
        ensures unit { self.new.unit ≡ self.old.unit }
        ensures value { self.new.value ≡ self.old.value }
        ensures fault { self.new.fault ≡ self.old.fault }
        ensures stays { IfNone result (self.new.number ≡ self.old.number) }
    {
        let used = self.kinds.get_mut(kind)?;
        used.last = cells;
        let line = access_line(used.touch, cells, used.site);
        self.last = cells.first;
        self.due = Due::Tag;
        self.number += 1;
        Some(line)
    }

    // Takes the next step of an event.
    #[inline]
    fn take_step(&mut self, step: Step) -> Option<Option<Line>>
        requires slot { HasSlot self.old }
        requires unit { self.old.unit ≡ 1 }
        requires fewer { LeavesFewer self.old.due step }
        ensures step { IfSome result (λ o. after_step (events_in self.old) self.old.number step ≡ Some (o, events_in self.new)) }
        ensures none { IfNone result (after_step (events_in self.old) self.old.number step ≡ None) }
        ensures number { IfSome result (λ o. self.new.number ≡ self.old.number + count_of o) }
        ensures stays { IfNone result (self.new.number ≡ self.old.number) }
        ensures unit { self.new.unit ≡ self.old.unit }
        ensures value { self.new.value ≡ self.old.value }
        ensures fault { self.new.fault ≡ self.old.fault }
        ensures room { IfSome result (λ _. room_of self.new + 2 ^ 35 ≤ room_of self.old) }
    {
        match step {
            Step::More(due) => {
                self.due = due;
                Some(None)
            }
            Step::Declares(kind) => {
                if self.kinds.len() >= MAX_KINDS {
                    return None;
                }
                self.kinds.push_reserved(kind);
                self.due = Due::Tag;
                Some(None)
            }
            Step::Says(line) => {
                if self.number == u32::MAX {
                    return None;
                }
                self.number += 1;
                self.place = after(line);
                self.due = Due::Tag;
                Some(Some(line))
            }
            Step::Uses { kind, cells } => {
                if self.number == u32::MAX {
                    return None;
                }
                let line = self.use_kind(kind, cells)?;
                Some(Some(line))
            }
        }
    }

    // Tells whether an event is due, and nothing of it was read.
    fn is_between(&self) -> bool
        ensures unit { IsTrue result → self.now.unit ≡ 1 }
        ensures due { IsTrue result → self.now.due ≡ due.Tag }
        ensures place { IsTrue result → self.now.place ≢ Over }
    {
        self.unit == 1 && self.due.is_tag() && !self.place.is_over()
    }

    // Returns the use of a kind at the front of the piece, if all of it is there and may be.
    #[inline]
    fn used(&self, piece: &[u8]) -> Option<Used>
        requires due { self.now.due ≡ due.Tag }
        requires place { self.now.place ≢ Over }
        ensures read { IfSome result (λ u. (more : List ℕ) → events_reading (events_in self.now) self.now.number (numbers (piece.now ++ more))
            ≡ step_reading (events_in self.now) self.now.number (Uses u.kind u.cells) (numbers (drop u.end piece.now ++ more))) }
        ensures some { IfSome result (λ u. 0 < u.end) }
        ensures within { IfSome result (λ u. u.end ≤ len_of piece.now) }
        ensures short { IfSome result (λ u. u.end ≤ 2 ^ 30) }
    {
        let tag = number_at(piece, 0)?;
        let step = next_step(&self.kinds, self.last, Due::Tag, tag.value)?;
        let Step::More(Due::Moved { kind }) = step else {
            return None;
        };
        let moved = number_at(piece, tag.end)?;
        match next_step(&self.kinds, self.last, Due::Moved { kind }, moved.value)? {
            Step::Uses { kind, cells } => Some(Used {
                kind,
                cells,
                end: moved.end,
            }),
            Step::More(due) => self.counted(piece, due, moved.end),
            _ => None,
        }
    }

    // Returns the use of a kind whose COUNT is at a place of the piece.
    #[inline]
    fn counted(&self, piece: &[u8], due: Due, at: usize) -> Option<Used>
        requires place { self.now.place ≢ Over }
        ensures read { IfSome result (λ u. (more : List ℕ) → events_reading (record (events_in self.now) { due = due }) self.now.number (numbers (drop at piece.now ++ more))
            ≡ step_reading (events_in self.now) self.now.number (Uses u.kind u.cells) (numbers (drop u.end piece.now ++ more))) }
        ensures some { IfSome result (λ u. at < u.end) }
        ensures within { IfSome result (λ u. u.end ≤ len_of piece.now) }
        ensures short { IfSome result (λ u. u.end ≤ at + 268435456) }
    {
        let count = number_at(piece, at)?;
        match next_step(&self.kinds, self.last, due, count.value)? {
            Step::Uses { kind, cells } => Some(Used {
                kind,
                cells,
                end: count.end,
            }),
            _ => None,
        }
    }

    // Takes the next number of an event.
    fn take(&mut self, number: u64) -> Result<Option<Line>, TraceFault>
        requires slot { HasSlot self.old }
        requires fault { fault_of self.old ≡ None }
        requires due { self.old.place ≢ Over }
        requires unit { self.old.unit ≡ 1 }
        ensures step { IfOk result (λ o. after_number (events_in self.old) self.old.number number ≡ Some (o, events_in self.new)) }
        ensures none { OnErr result (after_number (events_in self.old) self.old.number number ≡ None) }
        ensures number { IfOk result (λ o. self.new.number ≡ self.old.number + count_of o) }
        ensures malformed { IfErr result (λ fault. fault ≡ Malformed (line_number self.old)) }
        ensures stays { IfErr result (λ fault. fault_of self.new ≡ Some fault) }
        ensures unit { OnOk result (self.new.unit ≡ self.old.unit) }
        ensures value { OnOk result (self.new.value ≡ self.old.value) }
        ensures room { OnOk result (room_of self.new + 2 ^ 35 ≤ room_of self.old) }
        ensures silent { OnOk result (fault_of self.new ≡ None) }
    {
        let Some(step) = next_step(&self.kinds, self.last, self.due, number) else {
            return Err(self.malformed());
        };
        match self.take_step(step) {
            Some(line) => Ok(line),
            None => Err(self.malformed()),
        }
    }

    // Reads a byte.
    fn byte(&mut self, byte: u8) -> Result<Option<Line>, TraceFault>
        requires slot { HasSlot self.old }
        requires fault { fault_of self.old ≡ None }
        requires due { self.old.place ≢ Over }
        ensures fault { IfErr result (λ fault. (more : List ℕ) → ahead self.old (byte ∷ more) ≡ stops fault) }
        ensures stays { IfErr result (λ fault. fault_of self.new ≡ Some fault) }
        ensures malformed { IfErr result (λ fault. fault ≡ Malformed (line_number self.old)) }
        ensures line { IfOk result (λ o. (more : List ℕ) → ahead self.old (byte ∷ more) ≡ with_lines o (ahead self.new more)) }
        ensures number { IfOk result (λ o. line_number self.new ≡ line_number self.old + count_of o) }
        ensures room { OnOk result (room_of self.new + 1 ≤ room_of self.old) }
        ensures silent { OnOk result (fault_of self.new ≡ None) }
    {
        if byte >= 128 {
            if self.unit > FOURTH_UNIT {
                return Err(self.malformed());
            }
            self.value += u64::from(byte - 128) * self.unit;
            self.unit *= 128;
            return Ok(None);
        }
        if is_needless(byte, self.unit) {
            return Err(self.malformed());
        }
        let number = self.value + u64::from(byte) * self.unit;
        self.value = 0;
        self.unit = 1;
        self.take(number)
    }

    /// Reads bytes from the front of the piece, up to the end of a line at most, or of a declaration
    /// that took the room for one. A line of a kind is read at once, where all of it is there; else
    /// bytes are read one by one. It returns the number of bytes read, and the line if one is
    /// complete. The line's number is that of the current line before the call. A fault is
    /// returned as soon as a number shows it, and again by each later call.
    pub fn next(&mut self, piece: &[u8]) -> Result<(usize, Option<Line>), TraceFault>
        requires slot { HasSlot self.old }
        ensures fault { IfErr result (λ fault. (more : List ℕ) → ahead self.old (piece.now ++ more) ≡ stops fault) }
        ensures stays { IfErr result (λ fault. fault_of self.new ≡ Some fault) }
        ensures same { (fault : TraceFault) → fault_of self.old ≡ Some fault → result ≡ Err fault }
        ensures malformed { IfErr result (λ fault. fault_of self.old ≡ None → fault ≡ Malformed (line_number self.old)) }
        ensures line { IfOk result (λ r. (more : List ℕ) → ahead self.old (piece.now ++ more) ≡ with_lines r.1 (ahead self.new (drop r.0 piece.now ++ more))) }
        ensures taken { IfOk result (λ r. r.0 ≤ len_of piece.now) }
        ensures number { IfOk result (λ r. line_number self.new ≡ line_number self.old + count_of r.1) }
        ensures room { IfOk result (λ r. room_of self.new + r.0 ≤ room_of self.old) }
        ensures progress { IfOk result (λ r. r.0 ≡ 0 → piece.now ≡ []) }
        ensures silent { OnOk result (fault_of self.new ≡ None) }
    {
        if let Some(fault) = self.fault {
            return Err(fault);
        }
        if self.is_between() {
            if let Some(used) = self.used(piece) {
                let (kind, cells) = (used.kind, used.cells);
                return match self.take_step(Step::Uses { kind, cells }) {
                    Some(line) => Ok((used.end, line)),
                    None => Err(self.malformed()),
                };
            }
        }
        let mut taken = 0;
        'bytes: while taken < piece.len() {
            if self.place.is_over() {
                return Err(self.malformed());
            }
            let line = self.byte(piece[taken])?;
            taken += 1;
            if line.is_some() || self.kinds.len() >= self.kinds.capacity() {
                return Ok((taken, line));
            }
        }
        Ok((taken, None))
    }

    /// Ends the trace. If it isn't complete, a fault is returned, and again by each later call.
    pub fn end(&mut self) -> Result<(), TraceFault>
        ensures whole { OnOk result ((ahead self.old [] ≡ whole) × (self.new ≡ self.old)) }
        ensures fault { IfErr result (λ fault. ahead self.old [] ≡ stops fault) }
        ensures stays { IfErr result (λ fault. fault_of self.new ≡ Some fault) }
        ensures same { (fault : TraceFault) → fault_of self.old ≡ Some fault → result ≡ Err fault }
        ensures truncated { IfErr result (λ fault. fault_of self.old ≡ None → fault ≡ Truncated (line_number self.old)) }
    {
        if let Some(fault) = self.fault {
            return Err(fault);
        }
        if self.place.is_over() {
            return Ok(());
        }
        let line = self.number;
        let fault = TraceFault::Truncated { line };
        self.fault = Some(fault);
        Err(fault)
    }
}

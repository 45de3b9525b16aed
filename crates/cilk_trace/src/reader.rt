//! Reading a trace piece by piece, in either form.

ghost use Rattle.std.specs.Prelude.{◌≡◌, ◌<◌};
ghost use Rattle.cilk_trace.specs.declared.reader.Form.TheVariants.{Text, Unknown};

use crate::binary::EventReader;
use crate::fault::TraceFault;
use crate::line::Line;
use crate::text::TextReader;
use std::alloc::{AllocError, Global};

/// The first bytes of a binary form. All else is read as text.
const BINARY_HEADER: [u8; 16] = *b"cilktrace-bin 1\n";

/// The form of a trace.
#[derive(Clone, Copy)]
pub(crate) enum Form {
    /// It isn't known yet.
    Unknown,
    Text,
    Binary,
}

/// Reads a trace in pieces, cut anywhere, and returns its lines one by one. It allocates for the
/// binary form alone: 20 bytes for each kind of line that is declared.
#[derive(Drop)]
pub struct TraceReader {
    alloc: Global,
    form: Form,
    // How many bytes of the binary form's header were read.
    matched: usize,
    text: TextReader,
    events: EventReader,
    ghost begun: { form ≡ Unknown → matched < 16 },
}

impl TraceReader {
    ghost use Rattle.std.specs.Prelude.{◌≢◌, ◌+◌, ◌≤◌, ℕ, List, [], ◌∷◌, ◌++◌, length as len_of, take, drop, IsTrue, false, Some, None, Err, IfErr, IfOk, IfSome, OnOk};
    ghost use Rattle.cilk_trace.specs.declared.fault.TraceFault.{TraceFault};
    ghost use Rattle.cilk_trace.specs.declared.fault.TraceFault.TheVariants.{Malformed, Truncated};
    ghost use Rattle.cilk_trace.specs.declared.place.Place.TheVariants.{Over};
    ghost use Rattle.cilk_trace.specs.Forms.{binary_header, reading_of};
    ghost use Rattle.cilk_trace.specs.Reading.{count_of, stops, text_reading, whole, with_lines};
    ghost use Rattle.cilk_trace.specs.Readers.{ahead, fault_of, line_number, returned, room_of, HasSlot};

    /// Makes a reader at the beginning of a trace.
    pub fn new(alloc: Global) -> Self
        ensures text { (text : List ℕ) → ahead result text ≡ reading_of text }
        ensures fault { fault_of result ≡ None }
        ensures number { line_number result ≡ 1 }
        ensures returned { returned result ≡ 0 }
    {
        TraceReader {
            alloc,
            form: Form::Unknown,
            matched: 0,
            text: TextReader::after(b""),
            events: EventReader::new(alloc),
        }
    }

    /// Returns the number of the current line, from 1.
    pub fn number(&self) -> u32
        ensures { result ≡ line_number self.now }
    {
        match self.form {
            Form::Unknown => 1,
            Form::Text => self.text.number(),
            Form::Binary => self.events.number(),
        }
    }

    /// Makes room for what the next call of [`TraceReader::next`] may keep. Nothing else changes.
    pub fn reserve(&mut self) -> Result<(), AllocError>
        ensures slot { OnOk result (HasSlot self.new) }
        ensures ahead { (more : List ℕ) → ahead self.new more ≡ ahead self.old more }
        ensures fault { fault_of self.new ≡ fault_of self.old }
        ensures number { line_number self.new ≡ line_number self.old }
        ensures returned { returned self.new ≡ returned self.old }
        ensures room { room_of self.new ≡ room_of self.old }
    {
        match self.form {
            Form::Binary => self.events.reserve(),
            Form::Unknown | Form::Text => Ok(()),
        }
    }

    // Reads what was read so far as text.
    fn take_as_text(&mut self)
        requires { self.old.form ≡ Unknown }
        ensures ahead { (more : List ℕ) → ahead self.new more ≡ text_reading (take self.old.matched binary_header ++ more) }
        ensures form { self.new.form ≡ Text }
        ensures due { self.new.text.place ≢ Over }
        ensures fault { fault_of self.new ≡ None }
        ensures number { line_number self.new ≡ 1 }
        ensures room { room_of self.new ≤ room_of self.old }
    {
        self.text = TextReader::after(&BINARY_HEADER[..self.matched]);
        self.form = Form::Text;
    }

    // Reads the next byte of the header, if it may be that of a binary form. From the first one on
    // that isn't, the trace is text.
    fn matches(&mut self, byte: u8) -> bool
        requires { self.old.form ≡ Unknown }
        ensures yes { IsTrue result → (more : List ℕ) → ahead self.old (byte ∷ more) ≡ ahead self.new more }
        ensures no { result ≡ false → (more : List ℕ) → ahead self.old (byte ∷ more) ≡ ahead self.new (byte ∷ more) }
        ensures text { result ≡ false → self.new.form ≡ Text }
        ensures fault { fault_of self.new ≡ None }
        ensures number { result ≡ false → line_number self.new ≡ 1 }
        ensures returned { returned self.new ≡ 0 }
        ensures room { IsTrue result → room_of self.new + 1 ≤ room_of self.old }
        ensures no_less { room_of self.new ≤ room_of self.old }
    {
        if byte != BINARY_HEADER[self.matched] {
            self.take_as_text();
            return false;
        }
        self.matched += 1;
        if self.matched == BINARY_HEADER.len() {
            self.events = EventReader::new(self.alloc);
            self.form = Form::Binary;
        }
        true
    }

    // Reads bytes where the form isn't known yet.
    fn begin(&mut self, piece: &[u8]) -> Result<(usize, Option<Line>), TraceFault>
        requires { self.old.form ≡ Unknown }
        ensures fault { IfErr result (λ fault. (more : List ℕ) → ahead self.old (piece.now ++ more) ≡ stops fault) }
        ensures stays { IfErr result (λ fault. fault_of self.new ≡ Some fault) }
        ensures malformed { IfErr result (λ fault. fault ≡ Malformed (line_number self.old)) }
        ensures line { IfOk result (λ r. (more : List ℕ) → ahead self.old (piece.now ++ more) ≡ with_lines r.1 (ahead self.new (drop r.0 piece.now ++ more))) }
        ensures taken { IfOk result (λ r. r.0 ≤ len_of piece.now) }
        ensures numbered { IfOk result (λ r. IfSome r.1 (λ _. line_number self.old ≡ returned self.old + 2)) }
        ensures returned { IfOk result (λ r. returned self.new ≡ returned self.old + count_of r.1) }
        ensures room { IfOk result (λ r. room_of self.new + r.0 ≤ room_of self.old) }
        ensures progress { IfOk result (λ r. r.0 ≡ 0 → piece.now ≡ []) }
        ensures silent { OnOk result (fault_of self.new ≡ None) }
    {
        if piece.is_empty() {
            return Ok((0, None));
        }
        if self.matches(piece[0]) {
            return Ok((1, None));
        }
        self.text.next(piece)
    }

    /// Reads bytes from the front of the piece, up to the end of a line at most. It returns the
    /// number of bytes read, and the line if one is complete; the header and a declaration give
    /// none. The line's number is that of the current line before the call. A fault is returned as
    /// soon as a byte, a number or the length of a line shows it, and again by each later call.
    pub fn next(&mut self, piece: &[u8]) -> Result<(usize, Option<Line>), TraceFault>
        requires slot { HasSlot self.old }
        ensures fault { IfErr result (λ fault. (more : List ℕ) → ahead self.old (piece.now ++ more) ≡ stops fault) }
        ensures stays { IfErr result (λ fault. fault_of self.new ≡ Some fault) }
        ensures same { (fault : TraceFault) → fault_of self.old ≡ Some fault → result ≡ Err fault }
        ensures malformed { IfErr result (λ fault. fault_of self.old ≡ None → fault ≡ Malformed (line_number self.old)) }
        ensures line { IfOk result (λ r. (more : List ℕ) → ahead self.old (piece.now ++ more) ≡ with_lines r.1 (ahead self.new (drop r.0 piece.now ++ more))) }
        ensures taken { IfOk result (λ r. r.0 ≤ len_of piece.now) }
        ensures numbered { IfOk result (λ r. IfSome r.1 (λ _. line_number self.old ≡ returned self.old + 2)) }
        ensures returned { IfOk result (λ r. returned self.new ≡ returned self.old + count_of r.1) }
        ensures room { IfOk result (λ r. room_of self.new + r.0 ≤ room_of self.old) }
        ensures progress { IfOk result (λ r. r.0 ≡ 0 → piece.now ≡ []) }
        ensures silent { OnOk result (fault_of self.new ≡ None) }
    {
        match self.form {
            Form::Unknown => self.begin(piece),
            Form::Text => self.text.next(piece),
            Form::Binary => self.events.next(piece),
        }
    }

    /// Ends the trace. If it isn't complete, a fault is returned, and again by each later call.
    pub fn end(&mut self) -> Result<(), TraceFault>
        ensures whole { OnOk result ((ahead self.old [] ≡ whole) × (self.new ≡ self.old)) }
        ensures fault { IfErr result (λ fault. ahead self.old [] ≡ stops fault) }
        ensures stays { IfErr result (λ fault. fault_of self.new ≡ Some fault) }
        ensures same { (fault : TraceFault) → fault_of self.old ≡ Some fault → result ≡ Err fault }
        ensures truncated { IfErr result (λ fault. fault_of self.old ≡ None → fault ≡ Truncated (line_number self.old)) }
    {
        match self.form {
            Form::Unknown => {
                self.take_as_text();
                Err(self.text.truncated())
            }
            Form::Text => self.text.end(),
            Form::Binary => self.events.end(),
        }
    }
}

//! Reading a trace's text form piece by piece.

ghost use Rattle.std.specs.Prelude.{◌≡◌, ◌+◌, ◌<◌, ◌≤◌, ◌^◌, [], ◌∷◌, ◌++◌, length as len_of, take, drop, Some, None, IfSome, IfNone};
ghost use Rattle.cilk_trace.specs.declared.place.Place.TheVariants.{Header, Over};
ghost use Rattle.cilk_trace.specs.Reading.{HasNoLf, numbered};

use crate::fault::TraceFault;
use crate::line::Line;
use crate::parse::line_at;
use crate::place::Place;

/// Most bytes of a line, without its LF.
const MAX_LINE: usize = 64;

/// Reads a trace's text form in pieces, cut anywhere, and returns its lines one by one.
#[derive(Drop)]
pub(crate) struct TextReader {
    place: Place,
    // The number of the current line.
    number: u32,
    // The first `length` bytes are those of the current line so far.
    bytes: [u8; MAX_LINE],
    length: usize,
    fault: Option<TraceFault>,
    ghost room: { length ≤ 64 },
    ghost whole: { len_of bytes ≡ 64 },
    ghost no_lf: { HasNoLf (take length bytes) },
    ghost at_end: { place ≡ Over → length ≡ 0 },
    ghost header: { place ≡ Header → number ≡ 1 },
    ghost later: { (place ≡ Header → ⊥) → 2 ≤ number },
}

/// Returns the index of the first LF.
fn end_of_line(piece: &[u8]) -> Option<usize>
    ensures found { IfSome result (λ at. piece.now ≡ take at piece.now ++ 10 ∷ drop (at + 1) piece.now) }
    ensures front { IfSome result (λ at. HasNoLf (take at piece.now)) }
    ensures within { IfSome result (λ at. at < len_of piece.now) }
    ensures none { IfNone result (HasNoLf piece.now) }
{
    for (at, byte) in piece.iter().enumerate() {
        if *byte == b'\n' {
            return Some(at);
        }
    }
    None
}

/// Writes bytes after the first `length`.
fn append(bytes: &mut [u8; MAX_LINE], length: usize, more: &[u8])
    requires { length + len_of more.now ≤ 64 }
    ensures front { take (length + len_of more.now) bytes.new ≡ take length bytes.old ++ more.now }
    ensures whole { len_of bytes.new ≡ 64 }
{
    bytes[length..length + more.len()].copy_from_slice(more);
}

impl TextReader {
    ghost use Rattle.std.specs.Prelude.{◌≢◌, ℕ, List, IfErr, IfOk, OnOk, option_map};
    ghost use Rattle.cilk_trace.specs.declared.fault.TraceFault.{TraceFault};
    ghost use Rattle.cilk_trace.specs.declared.fault.TraceFault.TheVariants.{Malformed, Truncated};
    ghost use Rattle.cilk_trace.specs.Reading.{count_of, text_reading, stops, whole, with_lines};
    ghost use Rattle.cilk_trace.specs.TextReaders.{ahead, fault_of, line_number, returned, room_of};

    /// Makes a reader after the first bytes of a text.
    pub fn after(front: &[u8]) -> Self
        requires short { len_of front.now ≤ 64 }
        requires no_lf { HasNoLf front.now }
        ensures text { (more : List ℕ) → ahead result more ≡ text_reading (front.now ++ more) }
        ensures fault { fault_of result ≡ None }
        ensures number { line_number result ≡ 1 }
        ensures due { result.place ≡ Header }
    {
        let mut bytes = [0; MAX_LINE];
        append(&mut bytes, 0, front);
        TextReader {
            place: Place::Header,
            number: 1,
            bytes,
            length: front.len(),
            fault: None,
        }
    }

    /// Returns the number of the current line, from 1.
    pub fn number(&self) -> u32
        ensures { result ≡ line_number self.now }
    {
        self.number
    }

    // Ends with the current line as malformed.
    fn malformed(&mut self) -> TraceFault
        ensures value { result ≡ Malformed (line_number self.old) }
        ensures stays { fault_of self.new ≡ Some result }
    {
        let line = self.number;
        let fault = TraceFault::Malformed { line };
        self.fault = Some(fault);
        fault
    }

    // Parses the line that these bytes complete, and returns the place after it.
    fn line(&self, front: &[u8]) -> Option<(Option<Line>, Place)>
        requires { self.now.length + len_of front.now ≤ 64 }
        ensures line { result ≡ numbered self.now.place self.now.number (take self.now.length self.now.bytes ++ front.now) }
        ensures few { IfSome result (λ r. self.now.number + 1 < 2 ^ 32) }
    {
        if self.number == u32::MAX {
            return None;
        }
        if self.length == 0 {
            return line_at(self.place, front);
        }
        let mut bytes = self.bytes;
        append(&mut bytes, self.length, front);
        line_at(self.place, &bytes[..self.length + front.len()])
    }

    // Reads the bytes up to the first LF.
    fn end_line(&mut self, at: usize, piece: &[u8]) -> Result<(usize, Option<Line>), TraceFault>
        requires within { at < len_of piece.now }
        requires found { piece.now ≡ take at piece.now ++ 10 ∷ drop (at + 1) piece.now }
        requires front { HasNoLf (take at piece.now) }
        requires fault { fault_of self.old ≡ None }
        requires due { self.old.place ≢ Place.Over }
        ensures fault { IfErr result (λ fault. (more : List ℕ) → ahead self.old (piece.now ++ more) ≡ stops fault) }
        ensures stays { IfErr result (λ fault. fault_of self.new ≡ Some fault) }
        ensures malformed { IfErr result (λ fault. fault ≡ Malformed (line_number self.old)) }
        ensures line { IfOk result (λ r. (more : List ℕ) → ahead self.old (piece.now ++ more) ≡ with_lines r.1 (ahead self.new (drop r.0 piece.now ++ more))) }
        ensures taken { IfOk result (λ r. r.0 ≡ at + 1) }
        ensures number { IfOk result (λ r. line_number self.new ≡ line_number self.old + 1) }
        ensures numbered { IfOk result (λ r. IfSome r.1 (λ _. line_number self.old ≡ returned self.old + 2)) }
        ensures returned { IfOk result (λ r. returned self.new ≡ returned self.old + count_of r.1) }
        ensures room { IfOk result (λ r. room_of self.new + r.0 ≤ room_of self.old) }
        ensures silent { OnOk result (fault_of self.new ≡ None) }
    {
        if at > MAX_LINE - self.length {
            return Err(self.malformed());
        }
        match self.line(&piece[..at]) {
            None => Err(self.malformed()),
            Some((line, place)) => {
                self.place = place;
                self.number += 1;
                self.length = 0;
                Ok((at + 1, line))
            }
        }
    }

    // Reads bytes without an LF.
    fn go_on(&mut self, piece: &[u8]) -> Result<(usize, Option<Line>), TraceFault>
        requires none { HasNoLf piece.now }
        requires fault { fault_of self.old ≡ None }
        requires due { self.old.place ≢ Place.Over }
        ensures fault { IfErr result (λ fault. (more : List ℕ) → ahead self.old (piece.now ++ more) ≡ stops fault) }
        ensures stays { IfErr result (λ fault. fault_of self.new ≡ Some fault) }
        ensures malformed { IfErr result (λ fault. fault ≡ Malformed (line_number self.old)) }
        ensures line { IfOk result (λ r. (more : List ℕ) → ahead self.old (piece.now ++ more) ≡ with_lines r.1 (ahead self.new (drop r.0 piece.now ++ more))) }
        ensures none { IfOk result (λ r. r.1 ≡ None) }
        ensures taken { IfOk result (λ r. r.0 ≡ len_of piece.now) }
        ensures number { IfOk result (λ r. line_number self.new ≡ line_number self.old) }
        ensures room { IfOk result (λ r. room_of self.new + r.0 ≤ room_of self.old) }
        ensures silent { OnOk result (fault_of self.new ≡ None) }
    {
        if piece.len() > MAX_LINE - self.length {
            return Err(self.malformed());
        }
        append(&mut self.bytes, self.length, piece);
        self.length += piece.len();
        Ok((piece.len(), None))
    }

    /// Reads bytes from the front of the piece, up to the end of a line at most. It returns the
    /// number of bytes read, and the line if one is complete; the header gives none. The line's
    /// number is that of the current line before the call. A fault is returned as soon as a byte or
    /// the length of a line shows it, and again by each later call.
    pub fn next(&mut self, piece: &[u8]) -> Result<(usize, Option<Line>), TraceFault>
        ensures fault { IfErr result (λ fault. (more : List ℕ) → ahead self.old (piece.now ++ more) ≡ stops fault) }
        ensures stays { IfErr result (λ fault. fault_of self.new ≡ Some fault) }
        ensures same { (fault : TraceFault) → fault_of self.old ≡ Some fault → result ≡ Err fault }
        ensures malformed { IfErr result (λ fault. fault_of self.old ≡ None → fault ≡ Malformed (line_number self.old)) }
        ensures line { IfOk result (λ r. (more : List ℕ) → ahead self.old (piece.now ++ more) ≡ with_lines r.1 (ahead self.new (drop r.0 piece.now ++ more))) }
        ensures taken { IfOk result (λ r. r.0 ≤ len_of piece.now) }
        ensures numbered { IfOk result (λ r. IfSome r.1 (λ _. line_number self.old ≡ returned self.old + 2)) }
        ensures returned { IfOk result (λ r. returned self.new ≡ returned self.old + count_of r.1) }
        ensures room { IfOk result (λ r. room_of self.new + r.0 ≤ room_of self.old) }
        ensures progress { IfOk result (λ r. r.0 ≡ 0 → piece.now ≡ []) }
        ensures silent { OnOk result (fault_of self.new ≡ None) }
    {
        if let Some(fault) = self.fault {
            return Err(fault);
        }
        if piece.is_empty() {
            return Ok((0, None));
        }
        if self.place.is_over() {
            return Err(self.malformed());
        }
        match end_of_line(piece) {
            Some(at) => self.end_line(at, piece),
            None => self.go_on(piece),
        }
    }

    /// Ends the text before it is complete.
    pub fn truncated(&mut self) -> TraceFault
        requires fault { fault_of self.old ≡ None }
        requires due { self.old.place ≢ Place.Over }
        ensures value { result ≡ Truncated (line_number self.old) }
        ensures ahead { ahead self.old [] ≡ stops result }
        ensures stays { fault_of self.new ≡ Some result }
    {
        let line = self.number;
        let fault = TraceFault::Truncated { line };
        self.fault = Some(fault);
        fault
    }

    /// Ends the text. If it isn't complete, a fault is returned, and again by each later call.
    pub fn end(&mut self) -> Result<(), TraceFault>
        ensures whole { OnOk result ((ahead self.old [] ≡ whole) × (self.new ≡ self.old)) }
        ensures fault { IfErr result (λ fault. ahead self.old [] ≡ stops fault) }
        ensures stays { IfErr result (λ fault. fault_of self.new ≡ Some fault) }
        ensures same { (fault : TraceFault) → fault_of self.old ≡ Some fault → result ≡ Err fault }
        ensures truncated { IfErr result (λ fault. fault_of self.old ≡ None → fault ≡ Truncated (line_number self.old)) }
    {
        if let Some(fault) = self.fault {
            return Err(fault);
        }
        if self.place.is_over() {
            return Ok(());
        }
        Err(self.truncated())
    }
}

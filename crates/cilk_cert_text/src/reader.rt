//! Reading a certificate's text piece by piece.

ghost use Rattle.std.specs.Prelude.{◌≡◌, ◌+◌, ◌<◌, ◌≤◌, [], ◌++◌, length as len_of, take, drop, Some, None, IfSome, IfNone};
ghost use Rattle.cilk_cert_text.specs.Reading.{first_line, Lines};
ghost use Rattle.cilk_cert_text.specs.Places.{due_of};

use crate::fault::CertFault;
use crate::form::is_at;
use crate::line::{Column, Line};
use crate::place::ReaderPlace;
use crate::spelling::{ROOM, put_line};

/// Most bytes of a line, without its LF.
pub const MAX_LINE: usize = 96;

/// Reads a certificate's text in pieces, cut anywhere, and returns its lines one by one. It doesn't
/// allocate.
#[derive(Drop)]
pub struct LineReader {
    place: ReaderPlace,
    // The first `length` bytes are those of the current line so far.
    bytes: [u8; MAX_LINE],
    length: usize,
    fault: Option<CertFault>,
    ghost room: { length ≤ 96 },
    ghost whole: { len_of bytes ≡ 96 },
    ghost no_lf: { first_line (take length bytes) ≡ None },
    ghost at_end: { due_of place ≡ Lines [] → length ≡ 0 },
}

/// Returns the index of the first LF.
fn end_of_line(piece: &[u8]) -> Option<usize>
    ensures found { IfSome result (λ at. first_line piece.now ≡ Some (take at piece.now, drop (at + 1) piece.now)) }
    ensures within { IfSome result (λ at. at < len_of piece.now) }
    ensures none { IfNone result (first_line piece.now ≡ None) }
{
    for (at, byte) in piece.iter().enumerate() {
        if *byte == b'\n' {
            return Some(at);
        }
    }
    None
}

/// Writes bytes after the first `length`.
fn append(bytes: &mut [u8; MAX_LINE], length: usize, more: &[u8])
    requires { length + len_of more.now ≤ 96 }
    ensures front { take (length + len_of more.now) bytes.new ≡ take length bytes.old ++ more.now }
    ensures whole { len_of bytes.new ≡ 96 }
{
    bytes[length..length + more.len()].copy_from_slice(more);
}

impl Default for LineReader {
    ghost use Rattle.std.specs.Prelude.{ℕ, List};
    ghost use Rattle.cilk_cert_text.specs.Reading.{reading_of};
    ghost use Rattle.cilk_cert_text.specs.Readers.{ahead, fault_of, room_of};

    // It is at the beginning of a text.
    ghost is_default = { λ r. ((text : List ℕ) → ahead r text ≡ reading_of text) × (fault_of r ≡ None) × (room_of r ≡ 200357477) };

    fn default() -> Self {
        LineReader::new()
    }
}

impl LineReader {
    ghost use Rattle.std.specs.Prelude.{◌≢◌, ◌∷◌, ℕ, List, MatchResult, IfErr, IfOk, IsSome, IsTrue, OnOk, false, option_map};
    ghost use Rattle.cilk_cert_text.specs.declared.fault.CertFault.{CertFault};
    ghost use Rattle.cilk_cert_text.specs.declared.fault.CertFault.TheVariants.{Malformed, Truncated};
    ghost use Rattle.cilk_cert_text.specs.Certificates.{AllAt, text_of_lines};
    ghost use Rattle.cilk_cert_text.specs.Places.{column_forms, line_at, number_at};
    ghost use Rattle.cilk_cert_text.specs.Reading.{reading_of, stops, whole};
    ghost use Rattle.cilk_cert_text.specs.Readers.{ahead, fault_of, with_all, with_lines, line_number, room_of, Awaits, AwaitsAll, IsCertain};
    ghost use Rattle.cilk_cert_text.specs.Lines.{spelled};

    /// Makes a reader at the beginning of a text.
    pub fn new() -> Self
        ensures text { (text : List ℕ) → ahead result text ≡ reading_of text }
        ensures fault { fault_of result ≡ None }
        ensures room { room_of result ≡ 200357477 }
    {
        LineReader {
            place: ReaderPlace::Version,
            bytes: [0; MAX_LINE],
            length: 0,
            fault: None,
        }
    }

    /// Ends with the current line as malformed.
    fn malformed(&mut self) -> CertFault
        ensures value { result ≡ Malformed (line_number self.old) }
        ensures stays { fault_of self.new ≡ Some result }
    {
        let line = self.place.number();
        let fault = CertFault::Malformed { line };
        self.fault = Some(fault);
        fault
    }

    /// Parses the line that these bytes complete, and returns the place after it.
    fn line(&self, front: &[u8]) -> Option<(Line, ReaderPlace)>
        requires { self.now.length + len_of front.now ≤ 96 }
        ensures line { option_map (λ r. (r.0, due_of r.1)) result ≡ line_at (due_of self.now.place) (take self.now.length self.now.bytes ++ front.now) }
        ensures number { IfSome result (λ r. number_at r.1 ≡ number_at self.now.place + 1) }
        ensures few { IfSome result (λ r. number_at r.1 ≤ 2065541) }
    {
        if self.length == 0 {
            return self.place.line(front);
        }
        let mut bytes = self.bytes;
        append(&mut bytes, self.length, front);
        self.place.line(&bytes[..self.length + front.len()])
    }

    /// Reads the bytes up to the first LF.
    fn end_line(&mut self, at: usize, piece: &[u8]) -> Result<(usize, Option<Line>), CertFault>
        requires within { at < len_of piece.now }
        requires found { first_line piece.now ≡ Some (take at piece.now, drop (at + 1) piece.now) }
        requires fault { fault_of self.old ≡ None }
        requires due { due_of self.old.place ≢ Lines [] }
        ensures fault { IfErr result (λ fault. (more : List ℕ) → ahead self.old (piece.now ++ more) ≡ stops fault) }
        ensures stays { IfErr result (λ fault. fault_of self.new ≡ Some fault) }
        ensures malformed { IfErr result (λ fault. fault ≡ Malformed (line_number self.old)) }
        ensures line { IfOk result (λ r. (more : List ℕ) → ahead self.old (piece.now ++ more) ≡ with_lines r.1 (ahead self.new (drop r.0 piece.now ++ more))) }
        ensures taken { IfOk result (λ r. r.0 ≡ at + 1) }
        ensures room { IfOk result (λ r. room_of self.new + r.0 ≤ room_of self.old) }
        ensures silent { OnOk result (fault_of self.new ≡ None) }
    {
        if at > MAX_LINE - self.length {
            return Err(self.malformed());
        }
        match self.line(&piece[..at]) {
            None => Err(self.malformed()),
            Some((line, place)) => {
                self.place = place;
                self.length = 0;
                Ok((at + 1, Some(line)))
            }
        }
    }

    /// Reads bytes without an LF.
    fn go_on(&mut self, piece: &[u8]) -> Result<(usize, Option<Line>), CertFault>
        requires none { first_line piece.now ≡ None }
        requires fault { fault_of self.old ≡ None }
        requires due { due_of self.old.place ≢ Lines [] }
        ensures fault { IfErr result (λ fault. (more : List ℕ) → ahead self.old (piece.now ++ more) ≡ stops fault) }
        ensures stays { IfErr result (λ fault. fault_of self.new ≡ Some fault) }
        ensures malformed { IfErr result (λ fault. fault ≡ Malformed (line_number self.old)) }
        ensures line { IfOk result (λ r. (more : List ℕ) → ahead self.old (piece.now ++ more) ≡ with_lines r.1 (ahead self.new (drop r.0 piece.now ++ more))) }
        ensures taken { IfOk result (λ r. r.0 ≡ len_of piece.now) }
        ensures room { IfOk result (λ r. room_of self.new + r.0 ≤ room_of self.old) }
        ensures silent { OnOk result (fault_of self.new ≡ None) }
    {
        if piece.len() > MAX_LINE - self.length {
            return Err(self.malformed());
        }
        append(&mut self.bytes, self.length, piece);
        self.length += piece.len();
        Ok((piece.len(), None))
    }

    /// Reads bytes from the front of the piece, up to the end of a line at most. It returns the
    /// number of bytes read, and the line if one is complete. A fault is returned as soon as it is
    /// certain, whatever bytes follow, and again by each later call.
    pub fn next(&mut self, piece: &[u8]) -> Result<(usize, Option<Line>), CertFault>
        ensures fault { IfErr result (λ fault. (more : List ℕ) → ahead self.old (piece.now ++ more) ≡ stops fault) }
        ensures stays { IfErr result (λ fault. fault_of self.new ≡ Some fault) }
        ensures same { (fault : CertFault) → fault_of self.old ≡ Some fault → result ≡ Err fault }
        ensures malformed { IfErr result (λ fault. fault_of self.old ≡ None → fault ≡ Malformed (line_number self.old)) }
        ensures line { IfOk result (λ r. (more : List ℕ) → ahead self.old (piece.now ++ more) ≡ with_lines r.1 (ahead self.new (drop r.0 piece.now ++ more))) }
        ensures taken { IfOk result (λ r. r.0 ≤ len_of piece.now) }
        ensures room { IfOk result (λ r. room_of self.new + r.0 ≤ room_of self.old) }
        ensures progress { IfOk result (λ r. r.0 ≡ 0 → piece.now ≡ []) }
        ensures silent { OnOk result (fault_of self.new ≡ None) }
        ensures prompt { OnOk result ((fault : CertFault) → IsCertain self.new fault → ⊥) }
    {
        if let Some(fault) = self.fault {
            return Err(fault);
        }
        if piece.is_empty() {
            return Ok((0, None));
        }
        if self.place.is_finished() {
            return Err(self.malformed());
        }
        match end_of_line(piece) {
            Some(at) => self.end_line(at, piece),
            None => self.go_on(piece),
        }
    }

    /// Skips a known line, with its LF, at the front of the piece, and returns the number of bytes
    /// skipped. It compares the bytes instead of parsing them, and works only after the size line.
    /// If the piece doesn't begin with this line, if the line isn't due, or if the current line
    /// began in an earlier piece, it returns none and changes nothing.
    pub fn pass(&mut self, piece: &[u8], line: Line) -> Option<usize>
        ensures line { IfSome result (λ taken. (more : List ℕ) → ahead self.old (piece.now ++ more) ≡ with_lines (Some line) (ahead self.new (drop taken piece.now ++ more))) }
        ensures taken { IfSome result (λ taken. taken ≤ len_of piece.now) }
        ensures progress { IfSome result (λ taken. 1 ≤ taken) }
        ensures room { IfSome result (λ taken. room_of self.new + taken ≤ room_of self.old) }
        ensures silent { IfSome result (λ _. fault_of self.new ≡ None) }
        ensures same { IfNone result (self.new ≡ self.old) }
        ensures passed { (rest : List ℕ) → Awaits self.old line → piece.now ≡ (spelled line ++ 10 ∷ []) ++ rest → IsSome result }
    {
        if self.fault.is_some() || self.length > 0 {
            return None;
        }
        let (form, place) = self.place.next()?;
        if !is_at(form, line) {
            return None;
        }
        let mut room = [0u8; ROOM];
        let end = put_line(&mut room, 0, line);
        if !piece.starts_with(&room[..end]) {
            return None;
        }
        self.place = place;
        Some(end)
    }

    /// Tells whether these lines are due, from the next byte on.
    pub fn awaits(&self, lines: Column) -> bool
        ensures { IsTrue result → AwaitsAll self.now (column_forms lines) }
    {
        self.fault.is_none() && self.length == 0 && self.place.after(lines).is_some()
    }

    /// Skips known lines at the front of the piece, and tells whether it did. `text` is the text of
    /// the lines. If the piece doesn't begin with it, if the lines aren't due, or if the current line
    /// began in an earlier piece, nothing changes.
    pub fn pass_all(&mut self, piece: &[u8], text: &[u8], lines: Column) -> bool
        ensures lines { IsTrue result → (known : List Line) → AllAt (column_forms lines) known → text.now ≡ text_of_lines known
            → (more : List ℕ) → ahead self.old (piece.now ++ more) ≡ with_all known (ahead self.new (drop (len_of text.now) piece.now ++ more)) }
        ensures taken { IsTrue result → len_of text.now ≤ len_of piece.now }
        ensures room { IsTrue result → (known : List Line) → AllAt (column_forms lines) known → text.now ≡ text_of_lines known
            → room_of self.new + len_of text.now ≤ room_of self.old }
        ensures silent { IsTrue result → fault_of self.new ≡ None }
        ensures same { result ≡ false → self.new ≡ self.old }
    {
        if self.fault.is_some() || self.length > 0 {
            return false;
        }
        if !piece.starts_with(text) {
            return false;
        }
        let Some(place) = self.place.after(lines) else {
            return false;
        };
        self.place = place;
        true
    }

    /// Ends the text. If it isn't complete, a fault is returned, and again by each later call.
    pub fn end(&mut self) -> Result<(), CertFault>
        ensures whole { OnOk result ((ahead self.old [] ≡ whole) × (self.new ≡ self.old)) }
        ensures fault { IfErr result (λ fault. ahead self.old [] ≡ stops fault) }
        ensures stays { IfErr result (λ fault. fault_of self.new ≡ Some fault) }
        ensures same { (fault : CertFault) → fault_of self.old ≡ Some fault → result ≡ Err fault }
        ensures truncated { IfErr result (λ fault. fault_of self.old ≡ None → fault ≡ Truncated (line_number self.old)) }
    {
        if let Some(fault) = self.fault {
            return Err(fault);
        }
        if self.place.is_finished() {
            return Ok(());
        }
        let line = self.place.number();
        let fault = CertFault::Truncated { line };
        self.fault = Some(fault);
        Err(fault)
    }
}

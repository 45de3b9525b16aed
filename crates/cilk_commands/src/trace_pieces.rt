//! The lines of a trace's text that a source gives in pieces.

ghost use Rattle.std.specs.Prelude.{◌≡◌, ◌≤◌, ◌<◌, length};

use crate::trace_fault::Unjudged;
use cilk_checker::source::{PullFault, Source};
use cilk_trace::fault::TraceFault;
use cilk_trace::line::Line;
use cilk_trace::reader::TraceReader;
use std::alloc::{AllocError, Global};

/// The bytes of a pull. Large, since a file is opened anew for each pull.
const PIECE: usize = 32_768;

/// A line, with its number: the header is line 1.
#[derive(Clone, Copy)]
pub struct Found {
    pub number: u32,
    pub line: Line,
}

/// A piece of a trace's text, and the reader of the text so far.
#[derive(Drop)]
pub struct Pieces {
    reader: TraceReader,
    buffer: [u8; PIECE],
    // The bytes from `at` to `end` are still to be read.
    at: usize,
    end: usize,
    ghost within: { at ≤ end },
    ghost inside: { end ≤ length buffer },
}

impl Pieces {
    ghost use Rattle.std.specs.Prelude.{◌+◌, ◌++◌, ◌∷◌, [], ℕ, List, Option, Err, IfErr, IfOk, IfNone, IfSome, IsTrue, OnOk, false};
    ghost use Rattle.std.specs.Io.KnownBytes.{IsAtEnd};
    ghost use Rattle.cilk_checker.specs.Pulls.{Takes};
    ghost use Rattle.cilk_trace.specs.declared.line.Line.{Line};
    ghost use Rattle.cilk_trace.specs.declared.fault.TraceFault.{TraceFault};
    ghost use Rattle.cilk_trace.specs.Readers.{HasSlot};
    ghost use Rattle.cilk_trace.specs.Texts.{IsTraceText};
    ghost use Rattle.cilk_commands.specs.TraceFaults.{IsUnreadAfter};
    ghost use Rattle.cilk_commands.specs.TracePieces.{HasLines, HasRead, IsReading, StopsAt, line_in, room_in, unread};
    ghost use Rattle.cilk_commands.specs.TraceTexts.{GivesText};

    /// Makes the beginning of a text.
    pub fn new(alloc: Global) -> Pieces
        ensures { (known : Option (List ℕ)) → IsReading known known [] result }
    {
        Pieces {
            reader: TraceReader::new(alloc),
            buffer: [0; PIECE],
            at: 0,
            end: 0,
        }
    }

    // Pulls the next piece if the last one was read, and returns false at the end of the text.
    fn fill<S: Source>(&mut self, source: &mut S) -> Result<bool, Unjudged>
        requires { S.failed source.old < 18446744073709551615 }
        ensures reading { (known : Option (List ℕ)) (ls : List Line) → IsReading known (S.remaining source.old) ls self.old
            → OnOk result (IsReading known (S.remaining source.new) ls self.new) }
        ensures some { IfOk result (λ b. IsTrue b → self.new.at < self.new.end) }
        ensures end { IfOk result (λ b. b ≡ false → IsAtEnd (S.remaining source.new) × (self.new.at ≡ self.new.end)) }
        ensures failed { (known : Option (List ℕ)) (ls : List Line)
            → IfErr result (λ e. IsUnreadAfter known ls (S.failed source.old) (S.failed source.new) e) }
        ensures part { (known : Option (List ℕ)) (ls : List Line) → IsReading known (S.remaining source.old) ls self.old
            → result ≡ Err Unjudged.Unread → Takes known (S.remaining source.new) (λ text. HasLines text ls) }
        ensures reader { self.new.reader ≡ self.old.reader }
        ensures uncounted { OnOk result (S.failed source.new ≡ S.failed source.old) }
        ensures lender { S.lender source.new ≡ S.lender source.old }
        ensures kept { S.kept source.new ≡ S.kept source.old }
    {
        if self.at < self.end {
            return Ok(true);
        }
        match source.pull(&mut self.buffer) {
            Ok(count) => {
                self.at = 0;
                self.end = count;
                Ok(count > 0)
            }
            Err(PullFault::Device) => Err(Unjudged::Unread),
            Err(PullFault::Memory) => Err(Unjudged::Memory),
        }
    }

    // Makes room for what the next step may keep.
    fn reserve(&mut self) -> Result<(), AllocError>
        ensures slot { OnOk result (HasSlot self.new.reader) }
        ensures read { (text : List ℕ) (ls : List Line) → HasRead text ls self.old → HasRead text ls self.new }
        ensures piece { (self.new.at ≡ self.old.at) × (self.new.end ≡ self.old.end) }
        ensures room { room_in self.new ≡ room_in self.old }
    {
        self.reader.reserve()
    }

    // Reads on in the piece, up to the end of a line at most.
    fn step(&mut self) -> Result<Option<Found>, TraceFault>
        requires some { self.old.at < self.old.end }
        requires slot { HasSlot self.old.reader }
        ensures read { (text : List ℕ) (ls : List Line) → HasRead text ls self.old
            → IfOk result (λ o. HasRead text (ls ++ line_in o) self.new) }
        ensures number { (text : List ℕ) (ls : List Line) → HasRead text ls self.old
            → IfOk result (λ o. IfSome o (λ found. found.number ≡ length ls + 2)) }
        ensures fault { (text : List ℕ) (ls : List Line) → HasRead text ls self.old → IfErr result (λ fault. StopsAt text ls fault) }
        ensures room { OnOk result (room_in self.new < room_in self.old) }
    {
        let number = self.reader.number();
        let piece = &self.buffer[..self.end];
        let (taken, line) = self.reader.next(&piece[self.at..])?;
        self.at += taken;
        match line {
            Some(line) => Ok(Some(Found { number, line })),
            None => Ok(None),
        }
    }

    /// Returns the next line of the source's text; none after the last one of a trace's text.
    pub fn next<S: Source>(&mut self, source: &mut S) -> Result<Option<Found>, Unjudged>
        requires { S.failed source.old < 18446744073709551615 }
        ensures line { (known : Option (List ℕ)) (ls : List Line) → IsReading known (S.remaining source.old) ls self.old
            → IfOk result (λ o. IfSome o (λ found. IsReading known (S.remaining source.new) (ls ++ found.line ∷ []) self.new × (found.number ≡ length ls + 2))) }
        ensures whole { (known : Option (List ℕ)) (ls : List Line) → IsReading known (S.remaining source.old) ls self.old
            → IfOk result (λ o. IfNone o (GivesText known (λ text. IsTraceText text ls))) }
        ensures fault { (known : Option (List ℕ)) (ls : List Line) → IsReading known (S.remaining source.old) ls self.old
            → IfErr result (λ e. IsUnreadAfter known ls (S.failed source.old) (S.failed source.new) e) }
        ensures part { (known : Option (List ℕ)) (ls : List Line) → IsReading known (S.remaining source.old) ls self.old
            → result ≡ Err Unjudged.Unread → Takes known (S.remaining source.new) (λ text. HasLines text ls) }
        ensures room { IfOk result (λ o. IfSome o (λ _. room_in self.new < room_in self.old)) }
        ensures uncounted { OnOk result (S.failed source.new ≡ S.failed source.old) }
        ensures lender { S.lender source.new ≡ S.lender source.old }
        ensures kept { S.kept source.new ≡ S.kept source.old }
    {
        'steps: loop {
            if !self.fill(source)? {
                self.reader.end()?;
                return Ok(None);
            }
            self.reserve()?;
            if let Some(found) = self.step()? {
                return Ok(Some(found));
            }
        }
    }
}

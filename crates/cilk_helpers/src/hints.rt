//! Hints about the frames of a run, read from a certificate's text. They may be wrong: a replay by
//! them shows only what a frame does if it reads these values.

ghost use Rattle.std.specs.Prelude.{◌≡◌, ◌<◌, IfOk, OnOk, Err};
ghost use Rattle.cilk_helpers.specs.Listed.{AreFew};

use crate::listing::{Hints, Listing};
use crate::scan::hint_of;
use cilk_checker::source::{PullFault, Source};
use memchr::memchr;
use std::alloc::{AllocError, Global};

/// Most bytes of a line.
const MAX_LINE: usize = 96;

/// Most bytes of a certificate's text.
const MAX_TEXT: usize = 134_217_728;

// The bytes of a pull. Large, since a file is opened anew for each pull.
const PIECE: usize = 32_768;

/// The hints so far, with the bytes of a line that has begun and not ended.
#[derive(Drop)]
struct Reading {
    listing: Listing,
    begun: Vec<u8>,
}

impl Reading {
    // Reads the end of a line. False if the line doesn't fit those before it.
    fn end_line(&mut self, front: &[u8]) -> Result<bool, AllocError> {
        if self.begun.is_empty() {
            return self.listing.meet(hint_of(front));
        }
        self.begun.extend_from_slice(front)?;
        let line = hint_of(self.begun.as_slice());
        self.begun.clear();
        self.listing.meet(line)
    }

    // Reads a piece of the text. False if a line doesn't fit those before it.
    fn piece(&mut self, piece: &[u8]) -> Result<bool, AllocError> {
        let mut rest = piece;
        'lines: while let Some(at) = memchr(b'\n', rest) {
            let (front, back) = rest.split_at(at);
            if !self.end_line(front)? {
                return Ok(false);
            }
            rest = &back[1..];
        }
        if self.begun.len().saturating_add(rest.len()) > MAX_LINE {
            return Ok(false);
        }
        self.begun.extend_from_slice(rest)?;
        Ok(true)
    }
}

// Reads the text of a source, up to the first line that doesn't fit.
fn read_all<S: Source>(reading: &mut Reading, source: &mut S) -> Result<(), PullFault>
    requires { S.failed source.old < 18446744073709551615 }
    ensures counted { result ≡ Err PullFault.Device → S.failed source.old < S.failed source.new }
    ensures uncounted { OnOk result (S.failed source.new ≡ S.failed source.old) }
    ensures lender { S.lender source.new ≡ S.lender source.old }
    ensures kept { S.kept source.new ≡ S.kept source.old }
{
    let mut left = MAX_TEXT;
    let mut buffer = [0u8; PIECE];
    'pieces: while left > 0 {
        let count = source.pull(&mut buffer)?;
        if count == 0 {
            return Ok(());
        }
        match reading.piece(&buffer[..count]) {
            Ok(true) => {}
            Ok(false) => return Ok(()),
            Err(_) => return Err(PullFault::Memory),
        }
        left = left.saturating_sub(count);
    }
    Ok(())
}

/// Reads the hints about frames from a source.
///
/// Of each line only so much is read as the hints need. Reading stops at the first line that doesn't
/// fit those before it, as one more event than [`crate::listing::MOST_EVENTS`]. Cost: linear in the text; memory:
/// linear in the frames and in the values that are read.
pub fn hints<S: Source>(alloc: Global, source: &mut S) -> Result<Hints, PullFault>
    requires { S.failed source.old < 18446744073709551615 }
    ensures few { IfOk result (λ h. AreFew h.words.items h.frames.items) }
    ensures counted { result ≡ Err PullFault.Device → S.failed source.old < S.failed source.new }
    ensures uncounted { OnOk result (S.failed source.new ≡ S.failed source.old) }
    ensures lender { S.lender source.new ≡ S.lender source.old }
    ensures kept { S.kept source.new ≡ S.kept source.old }
{
    let mut reading = Reading {
        listing: Listing::new(alloc),
        begun: Vec::new(alloc),
    };
    read_all(&mut reading, source)?;
    match reading.listing.parted(alloc) {
        Ok(hints) => Ok(hints),
        Err(_) => Err(PullFault::Memory),
    }
}

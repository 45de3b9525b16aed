//! Readers that count their reads, and tell whether one failed.

ghost use Rattle.std.specs.Prelude.{◌≡◌, ℕ, ◌+◌, ◌-◌, ◌^◌, Bool, true, List, Option, IfErr, OnOk, min};
ghost use Rattle.std.specs.Io.{ReadsAtMost};
ghost use Rattle.std.specs.Io.KnownBytes.{ReadConsumes};

use std::io;
use std::io::Read;

/// A reader that counts its reads.
pub trait CountedRead {
    /// The bytes that reads will give from here on, if they are known.
    ghost remaining: { Self → Option (List ℕ) };

    /// The number of reads so far, as far as 64 bits hold it.
    ghost reads: { Self → ℕ };

    /// Whether a read has failed so far.
    ghost failed: { Self → Bool };

    /// Reads once, and counts it.
    fn read(&mut self, piece: &mut [u8]) -> io::Result<usize>
        ensures counted { reads self.new ≡ min (reads self.old + 1) (2 ^ 64 - 1) }
        ensures failed { IfErr result (λ _. failed self.new ≡ true) }
        ensures unfailed { OnOk result (failed self.new ≡ failed self.old) }
        ensures bound { ReadsAtMost result piece.new }
        ensures bytes { ReadConsumes (remaining self.old) (remaining self.new) result piece.new };
}

/// A reader, the number of its reads so far, and whether one failed.
#[derive(Drop)]
pub struct CountedReader<R> {
    reader: R,
    reads: u64,
    failed: bool,
}

impl<R: Read> CountedReader<R> {
    /// Returns the reader with a count of 0.
    pub fn new(reader: R) -> Self
        ensures reader { result.reader ≡ reader }
        ensures reads { result.reads ≡ 0 }
    {
        CountedReader {
            reader,
            reads: 0,
            failed: false,
        }
    }
}

impl<R: Read> CountedRead for CountedReader<R> {
    ghost remaining = { λ s. R.remaining s.reader };

    ghost reads = { λ s. s.reads };

    ghost failed = { λ s. s.failed };

    fn read(&mut self, piece: &mut [u8]) -> io::Result<usize> {
        self.reads = self.reads.saturating_add(1);
        match self.reader.read(piece) {
            Ok(count) => Ok(count),
            Err(error) => {
                self.failed = true;
                Err(error)
            }
        }
    }
}

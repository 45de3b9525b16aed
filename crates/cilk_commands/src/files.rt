//! Files by path, read whole or in parts.

ghost use Rattle.std.specs.Prelude.{◌≡◌, ℕ, ◌+◌, ◌<◌, ◌≤◌, List, Option, IfOk, OnOk, Err, length};
ghost use Rattle.cilk_commands.specs.Files.{EndsAt, Failures, IsHeld, IsPart, StayOrRise};
ghost use Rattle.cilk_commands.specs.declared.disk.TheConstants.{MAX_FILE, MAX_STREAM};

use std::alloc::{AllocError, AllocFailed, Global};
use thiserror::Error;

/// The reason why a file or standard input wasn't read.
#[derive(Clone, Copy, Debug, Error)]
pub enum FileFault {
    /// The file doesn't exist, can't be read, or is too large.
    #[error("cannot read")]
    Device,
    #[error("no memory")]
    Memory,
}

impl From<AllocError> for FileFault {
    ghost use Rattle.cilk_commands.specs.declared.files.FileFault.TheVariants.{Memory};

    ghost from_gives = { λ _ e. e ≡ Memory };

    fn from(_: AllocError) -> FileFault {
        FileFault::Memory
    }
}

impl<T: Drop> From<AllocFailed<T>> for FileFault {
    ghost use Rattle.cilk_commands.specs.declared.files.FileFault.TheVariants.{Memory};

    ghost from_gives = { λ _ e. e ≡ Memory };

    fn from(_: AllocFailed<T>) -> FileFault {
        FileFault::Memory
    }
}

/// How a file is read in parts.
#[derive(Clone, Copy)]
pub enum Parts {
    /// As a file, of at most [`MAX_FILE`](crate::disk::MAX_FILE) bytes.
    OfFile,
    /// As a stream, which needs no end. The path `-` is that of standard input. A stream may give its bytes
    /// once, as standard input and a pipe do: then a reading from its beginning fails where another
    /// one was before.
    OfStream,
}

/// Files as the tool reads them: those of the system, or those of a test.
pub trait Files {
    /// The number of reads so far that met a failing device, the byte from which the last of them
    /// was to read, and how many of them were of other files than that of a path (0 if these files
    /// don't distinguish paths). It shows which file failed, and where.
    ghost failed: { Self → Failures };

    /// The contents of the file of a path, if they are known. No read changes them.
    ghost holds: { Self → List ℕ → Option (List ℕ) };

    /// Reads the whole file of a path. A failure of the device is counted, and nothing else is.
    fn read(&mut self, alloc: Global, path: &str) -> Result<Vec<u8>, FileFault>
        requires { (failed self.old).count < 18446744073709551615 }
        ensures held { IfOk result (λ bytes. IsHeld (holds self.old path.now) bytes.items) }
        ensures counted { result ≡ Err FileFault.Device → (failed self.old).count < (failed self.new).count }
        ensures begun { result ≡ Err FileFault.Device → (failed self.new).at ≡ 0 }
        ensures uncounted { OnOk result (failed self.new ≡ failed self.old) }
        ensures unblamed { result ≡ Err FileFault.Memory → failed self.new ≡ failed self.old }
        ensures risen { StayOrRise (failed self.old) (failed self.new) }
        ensures elsewhere { (failed self.new).elsewhere path.now ≡ (failed self.old).elsewhere path.now }
        ensures same { (p : List ℕ) → holds self.new p ≡ holds self.old p };

    /// Reads the file of a path once, from a byte on, counted from 0.
    ///
    /// Returns how many bytes are now at the front of `into`. If `into` isn't empty, 0 means the
    /// end of the file. No byte past [`MAX_STREAM`](crate::disk::MAX_STREAM) is read. A failure of the
    /// device is counted, and nothing else is.
    fn part(
        &mut self,
        path: &str,
        parts: Parts,
        at: u64,
        into: &mut [u8],
    ) -> Result<usize, FileFault>
        requires { (failed self.old).count < 18446744073709551615 }
        ensures within { IfOk result (λ n. n ≤ length into.old) }
        ensures small { IfOk result (λ n. at + n ≤ MAX_STREAM) }
        ensures limited { parts ≡ Parts.OfFile → IfOk result (λ n. at + n ≤ MAX_FILE) }
        ensures held { IfOk result (λ n. IsPart (holds self.old path.now) at n into.new) }
        ensures last { IfOk result (λ n. n ≡ 0 → 0 < length into.old → EndsAt (holds self.old path.now) at) }
        ensures counted { result ≡ Err FileFault.Device → (failed self.old).count < (failed self.new).count }
        ensures begun { result ≡ Err FileFault.Device → (failed self.new).at ≡ at }
        ensures uncounted { OnOk result (failed self.new ≡ failed self.old) }
        ensures unblamed { result ≡ Err FileFault.Memory → failed self.new ≡ failed self.old }
        ensures risen { StayOrRise (failed self.old) (failed self.new) }
        ensures elsewhere { (failed self.new).elsewhere path.now ≡ (failed self.old).elsewhere path.now }
        ensures same { (p : List ℕ) → holds self.new p ≡ holds self.old p };

    /// Returns the number of reads so far that met a failing device.
    fn failures(&self) -> u64
        ensures { result ≡ (failed self.now).count };
}

//! Files with copies of what was read, so that an explanation is about the texts that were judged.

ghost use Rattle.std.specs.Prelude.{◌≡◌, ◌+◌, ◌<◌, ◌≤◌, ℕ, [], Err, IfErr, IfOk, IsFalse, IsTrue, List, OnOk, Some, length};
ghost use Rattle.cilk_commands.specs.Files.{EndsAt, IsHeld, IsPart, StayOrRise};
ghost use Rattle.cilk_commands.specs.declared.disk.TheConstants.{MAX_FILE, MAX_STREAM};
ghost use Rattle.cilk_findings.specs.Keeping.{AddsCopy, KeepsCopies, copies_in};

use cilk_commands::files::{FileFault, Files, Parts};
use cilk_profile::Kept;
use std::alloc::Global;

/// Files that keep copies of what is read after a call of `keep`.
pub trait Keeps: Files {
    /// Keeps copies of what is read from now on, and forgets earlier ones.
    fn keep(&mut self)
        ensures failures { Self.failed self.new ≡ Self.failed self.old }
        ensures same { Self.holds self.new ≡ Self.holds self.old };

    /// Returns the copies.
    fn kept(&self) -> &Kept;
}

/// Any files, with copies of what is read.
#[derive(Drop)]
pub struct KeptFiles<F> {
    pub files: F,
    kept: Kept,
    keeps: bool,
}

impl<F: Files> KeptFiles<F> {
    /// Wraps files. No copies are kept yet. Explanations have colours on request.
    pub fn new(alloc: Global, files: F, has_colors: bool) -> Self
        ensures files { result.files ≡ files }
        ensures none { IsFalse result.keeps }
    {
        KeptFiles {
            files,
            kept: Kept::new(alloc, has_colors),
            keeps: false,
        }
    }
}

impl<F: Files> Files for KeptFiles<F> {
    ghost failed = { λ k. F.failed k.files };

    ghost holds = { λ k. F.holds k.files };

    fn read(&mut self, alloc: Global, path: &str) -> Result<Vec<u8>, FileFault>
        requires { (F.failed self.old.files).count < 18446744073709551615 }
        ensures held { IfOk result (λ bytes. IsHeld (F.holds self.old.files path.now) bytes.items) }
        ensures counted { result ≡ Err FileFault.Device → (F.failed self.old.files).count < (F.failed self.new.files).count }
        ensures begun { result ≡ Err FileFault.Device → (F.failed self.new.files).at ≡ 0 }
        ensures uncounted { OnOk result (F.failed self.new.files ≡ F.failed self.old.files) }
        ensures unblamed { result ≡ Err FileFault.Memory → F.failed self.new.files ≡ F.failed self.old.files }
        ensures risen { StayOrRise (F.failed self.old.files) (F.failed self.new.files) }
        ensures elsewhere { (F.failed self.new.files).elsewhere path.now ≡ (F.failed self.old.files).elsewhere path.now }
        ensures same { (p : List ℕ) → F.holds self.new.files p ≡ F.holds self.old.files p }
        ensures keeps { self.new.keeps ≡ self.old.keeps }
        ensures copied { IfOk result (λ bytes. IsTrue self.old.keeps → AddsCopy self.old.kept self.new.kept bytes.items) }
        ensures unread { IfErr result (λ _. self.new.kept ≡ self.old.kept) }
    {
        match self.files.read(alloc, path) {
            Ok(text) => {
                if self.keeps {
                    self.kept.add(alloc, text.as_slice());
                }
                Ok(text)
            }
            Err(fault) => Err(fault),
        }
    }

    fn part(
        &mut self,
        path: &str,
        parts: Parts,
        at: u64,
        into: &mut [u8],
    ) -> Result<usize, FileFault>
        requires { (F.failed self.old.files).count < 18446744073709551615 }
        ensures within { IfOk result (λ n. n ≤ length into.old) }
        ensures small { IfOk result (λ n. at + n ≤ MAX_STREAM) }
        ensures limited { parts ≡ Parts.OfFile → IfOk result (λ n. at + n ≤ MAX_FILE) }
        ensures held { IfOk result (λ n. IsPart (F.holds self.old.files path.now) at n into.new) }
        ensures last { IfOk result (λ n. n ≡ 0 → 0 < length into.old → EndsAt (F.holds self.old.files path.now) at) }
        ensures counted { result ≡ Err FileFault.Device → (F.failed self.old.files).count < (F.failed self.new.files).count }
        ensures begun { result ≡ Err FileFault.Device → (F.failed self.new.files).at ≡ at }
        ensures uncounted { OnOk result (F.failed self.new.files ≡ F.failed self.old.files) }
        ensures unblamed { result ≡ Err FileFault.Memory → F.failed self.new.files ≡ F.failed self.old.files }
        ensures risen { StayOrRise (F.failed self.old.files) (F.failed self.new.files) }
        ensures elsewhere { (F.failed self.new.files).elsewhere path.now ≡ (F.failed self.old.files).elsewhere path.now }
        ensures same { (p : List ℕ) → F.holds self.new.files p ≡ F.holds self.old.files p }
        ensures keeps { self.new.keeps ≡ self.old.keeps }
        ensures copied { KeepsCopies self.old.kept self.new.kept }
    {
        match self.files.part(path, parts, at, into) {
            Ok(count) => {
                if self.keeps {
                    self.kept.add_part(at, &into[..count]);
                }
                Ok(count)
            }
            Err(fault) => Err(fault),
        }
    }

    fn failures(&self) -> u64 {
        self.files.failures()
    }
}

impl<F: Files> Keeps for KeptFiles<F> {
    fn keep(&mut self)
        ensures failures { F.failed self.new.files ≡ F.failed self.old.files }
        ensures same { F.holds self.new.files ≡ F.holds self.old.files }
        ensures keeps { IsTrue self.new.keeps }
        ensures copied { copies_in self.new.kept ≡ Some [] }
    {
        self.kept.clear();
        self.keeps = true;
    }

    fn kept(&self) -> &Kept
        ensures { result.now ≡ self.now.kept }
    {
        &self.kept
    }
}

//! A file as the source of a certificate's or a trace's text, read in parts.

ghost use Rattle.std.specs.Prelude.{◌≡◌, ◌<◌, ◌≤◌, Err, IfErr, IfOk, OnOk, drop, length, option_map, take};
ghost use Rattle.std.specs.Io.KnownBytes.{Consumes, IsAtEnd};
ghost use Rattle.cilk_commands.specs.Files.{StayOrRise};
ghost use Rattle.cilk_commands.specs.Sources.{kept_of};

use crate::files::{FileFault, Files, Parts};
use cilk_checker::source::{PullFault, Source};

/// The file `path`, from a byte on. The contents of the file `other` stay known. A read that fails is
/// from that byte on, or from an earlier one.
#[derive(Drop)]
pub struct PartSource<'f, 'p, F: Files> {
    files: &'f mut F,
    path: &'p str,
    other: &'p str,
    parts: Parts,
    at: u64,
    // The number of bytes that the last pull gave.
    last: usize,
    // The number of reads that had failed before.
    before: u64,
    ghost stopped: { before < (F.failed files.now).count → (F.failed files.now).at ≤ at },
}

impl<'f, 'p, F: Files> PartSource<'f, 'p, F> {
    /// Returns a source at the beginning of the file `path`, which is read in such parts. The other file
    /// may be the same.
    pub fn new(files: &'f mut F, path: &'p str, parts: Parts, other: &'p str) -> Self
        ensures same_reference { result.files.ghost_name ≡ files.entry.ghost_name }
        ensures files { result.files.now ≡ files.old }
        ensures path { result.path.now ≡ path.entry.now }
        ensures other { result.other.now ≡ other.entry.now }
        ensures at { result.at ≡ 0 }
        ensures before { result.before ≡ (F.failed files.old).count }
    {
        let before = files.failures();
        PartSource {
            files,
            path,
            other,
            parts,
            at: 0,
            last: 0,
            before,
        }
    }
}

impl<F: Files> Source for PartSource<'_, '_, F> {
    ghost failed = { λ s. (F.failed s.files.now).count };

    ghost remaining = { λ s. option_map (drop s.at) (F.holds s.files.now s.path.now) };

    ghost last = { λ s. s.last };

    ghost lender = { λ s. s.files.ghost_name };

    // Failed reads before, those of other files than `path`, both paths, and the contents of both.
    ghost kept = { λ s. kept_of s.before (F.failed s.files.now) (F.holds s.files.now) s.path.now s.other.now };

    fn pull(&mut self, into: &mut [u8]) -> Result<usize, PullFault>
        requires { (F.failed self.old.files.now).count < 18446744073709551615 }
        ensures within { IfOk result (λ n. n ≤ length into.old) }
        ensures taken { IfOk result (λ n. Consumes (option_map (drop self.old.at) (F.holds self.old.files.now self.old.path.now))
            (option_map (drop self.new.at) (F.holds self.new.files.now self.new.path.now)) (take n into.new)) }
        ensures untaken { IfErr result (λ _. option_map (drop self.new.at) (F.holds self.new.files.now self.new.path.now)
            ≡ option_map (drop self.old.at) (F.holds self.old.files.now self.old.path.now)) }
        ensures given { IfOk result (λ n. self.new.last ≡ n) }
        ensures ended { IfOk result (λ n. n ≡ 0 → 0 < length into.old
            → IsAtEnd (option_map (drop self.new.at) (F.holds self.new.files.now self.new.path.now))) }
        ensures counted { result ≡ Err PullFault.Device → (F.failed self.old.files.now).count < (F.failed self.new.files.now).count }
        ensures uncounted { OnOk result ((F.failed self.new.files.now).count ≡ (F.failed self.old.files.now).count) }
        ensures unblamed { result ≡ Err PullFault.Memory → (F.failed self.new.files.now).count ≡ (F.failed self.old.files.now).count }
        ensures risen { StayOrRise (F.failed self.old.files.now) (F.failed self.new.files.now) }
        ensures lender { self.new.files.ghost_name ≡ self.old.files.ghost_name }
        ensures kept { kept_of self.new.before (F.failed self.new.files.now) (F.holds self.new.files.now) self.new.path.now self.new.other.now
            ≡ kept_of self.old.before (F.failed self.old.files.now) (F.holds self.old.files.now) self.old.path.now self.old.other.now }
    {
        match self.files.part(self.path, self.parts, self.at, into) {
            Ok(count) => {
                self.at += count as u64;
                self.last = count;
                Ok(count)
            }
            Err(FileFault::Device) => Err(PullFault::Device),
            Err(FileFault::Memory) => Err(PullFault::Memory),
        }
    }

    fn failures(&self) -> u64 {
        self.files.failures()
    }
}

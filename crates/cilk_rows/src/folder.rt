//! Files in memory, by name.

ghost use Rattle.std.specs.Prelude.{◌≡◌, ◌<◌, IfErr, OnOk};

use cilk_commands::disk::{MAX_FILE, STANDARD};
use cilk_commands::files::{FileFault, Files, Parts};
use std::alloc::Global;

#[derive(Drop)]
pub struct File {
    pub name: String,
    pub bytes: Vec<u8>,
}

/// Returns the bytes of the last file with a name; none where there is no such file.
pub fn bytes_of<'a>(files: &'a [File], name: &str) -> &'a [u8] {
    match found(files, name) {
        Some(bytes) => bytes,
        None => &[],
    }
}

/// Returns the bytes of the last file with a name, if there is one.
fn found<'a>(files: &'a [File], name: &str) -> Option<&'a [u8]> {
    let mut bytes = None;
    for file in files {
        if file.name.as_str() == name {
            bytes = Some(file.bytes.as_slice());
        }
    }
    bytes
}

/// The files of a case, as the tool reads them, and standard input, which is the file `stdin` and gives
/// its bytes once. An unknown path counts as a failure, and so does each read once none is left. The
/// byte from which the last of these was to read is noted.
#[derive(Drop)]
pub struct Folder<'a> {
    files: &'a [File],
    // The number of bytes of standard input that were read.
    taken: u64,
    left: u64,
    pub reads: u64,
    failures: u64,
    failed_at: u64,
}

impl<'a> Folder<'a> {
    /// Creates a folder with these files, which can be read so many times.
    pub fn new(files: &'a [File], left: u64) -> Folder<'a>
        ensures { result.failures ≡ 0 }
    {
        Folder {
            files,
            taken: 0,
            left,
            reads: 0,
            failures: 0,
            failed_at: 0,
        }
    }

    /// Returns the text of a path, to be read from a byte on.
    fn text(&mut self, path: &str, at: u64) -> Result<&'a [u8], FileFault>
        requires { self.old.failures < 18446744073709551615 }
        ensures device { IfErr result (λ fault. fault ≡ FileFault.Device) }
        ensures counted { IfErr result (λ _. self.old.failures < self.new.failures) }
        ensures begun { IfErr result (λ _. self.new.failed_at ≡ at) }
        ensures uncounted { OnOk result ((self.new.failures ≡ self.old.failures) × (self.new.failed_at ≡ self.old.failed_at)) }
    {
        self.give(found(self.files, path), at)
    }

    /// Returns the text of standard input, to be read from a byte on, where what was read of it ends.
    fn standard(&mut self, at: u64) -> Result<&'a [u8], FileFault>
        requires { self.old.failures < 18446744073709551615 }
        ensures device { IfErr result (λ fault. fault ≡ FileFault.Device) }
        ensures counted { IfErr result (λ _. self.old.failures < self.new.failures) }
        ensures begun { IfErr result (λ _. self.new.failed_at ≡ at) }
        ensures uncounted { OnOk result ((self.new.failures ≡ self.old.failures) × (self.new.failed_at ≡ self.old.failed_at)) }
    {
        let is_next = at == self.taken;
        self.give(
            if is_next {
                Some(bytes_of(self.files, "stdin"))
            } else {
                None
            },
            at,
        )
    }

    /// Counts a read from a byte on, and returns the text where there is one and a read is left.
    fn give(&mut self, text: Option<&'a [u8]>, at: u64) -> Result<&'a [u8], FileFault>
        requires { self.old.failures < 18446744073709551615 }
        ensures device { IfErr result (λ fault. fault ≡ FileFault.Device) }
        ensures counted { IfErr result (λ _. self.old.failures < self.new.failures) }
        ensures begun { IfErr result (λ _. self.new.failed_at ≡ at) }
        ensures uncounted { OnOk result ((self.new.failures ≡ self.old.failures) × (self.new.failed_at ≡ self.old.failed_at)) }
    {
        self.reads = self.reads.saturating_add(1);
        match text {
            Some(bytes) if self.left > 0 => {
                self.left -= 1;
                Ok(bytes)
            }
            _ => {
                self.failures += 1;
                self.failed_at = at;
                Err(FileFault::Device)
            }
        }
    }
}

/// Whether a path read in such parts is standard input.
fn is_standard(path: &str, parts: Parts) -> bool {
    match parts {
        Parts::OfFile => false,
        Parts::OfStream => path == STANDARD,
    }
}

impl Files for Folder<'_> {
    ghost use Rattle.std.specs.Prelude.{None};
    ghost use Rattle.cilk_commands.specs.Files.{failures};

    ghost failed = { λ f. failures f.failures f.failed_at (λ _. 0) };

    ghost holds = { λ _ _. None };

    fn read(&mut self, alloc: Global, path: &str) -> Result<Vec<u8>, FileFault> {
        Ok(self.text(path, 0)?.to_vec(alloc)?)
    }

    fn part(
        &mut self,
        path: &str,
        parts: Parts,
        at: u64,
        into: &mut [u8],
    ) -> Result<usize, FileFault> {
        let is_standard = is_standard(path, parts);
        let whole = if is_standard {
            self.standard(at)?
        } else {
            self.text(path, at)?
        };
        if at > MAX_FILE {
            self.failures += 1;
            self.failed_at = at;
            return Err(FileFault::Device);
        }
        let rest = &whole[whole.len().min(at as usize)..];
        let room = (MAX_FILE - at) as usize;
        let count = rest.len().min(into.len()).min(room);
        into[..count].copy_from_slice(&rest[..count]);
        if is_standard {
            self.taken = at + count as u64;
        }
        Ok(count)
    }

    fn failures(&self) -> u64 {
        self.failures
    }
}

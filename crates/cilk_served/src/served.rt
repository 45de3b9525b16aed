//! Calls of the tool over files, readers and writers in memory.

ghost use Rattle.std.specs.Prelude.{◌≡◌, ◌+◌, ◌<◌, ◌≤◌, List, ℕ, Some, IfSome, length, option_map};
ghost use Rattle.cilk_served.specs.Folders.{elsewhere_in, failures_in, held_in};
ghost use Rattle.cilk_commands.specs.declared.disk.TheConstants.{MAX_FILE};

use cilk_commands::disk::MAX_FILE;
use cilk_commands::files::{FileFault, Files, Parts};
use cilk_commands::{CountedReader, Served, serve, serve_and_tell};
use std::alloc::Global;
use std::io;
use std::io::{ErrorKind, Read, Write};

/// A folder of a program, an input, a certificate and a script. It counts the reads, and those that
/// fail: of the certificate, and of others; and it notes from which byte the last of these was to read.
/// Once `parts` parts were read, each further one fails.
#[derive(Drop)]
pub struct Folder<'a> {
    program: &'a [u8],
    input: &'a [u8],
    certificate: &'a [u8],
    script: &'a [u8],
    pub parts: u64,
    pub reads: u64,
    pub failures: u64,
    failed_at: u64,
    certificate_failures: u64,
    other_failures: u64,
}

impl<'a> Folder<'a> {
    /// Creates a folder with these texts.
    pub fn new(
        program: &'a [u8],
        input: &'a [u8],
        certificate: &'a [u8],
        script: &'a [u8],
    ) -> Folder<'a>
        ensures { result.failures ≡ 0 }
    {
        Folder {
            program,
            input,
            certificate,
            script,
            parts: u64::MAX,
            reads: 0,
            failures: 0,
            failed_at: 0,
            certificate_failures: 0,
            other_failures: 0,
        }
    }

    // Counts a failed read of a path from a byte on.
    fn fail(&mut self, path: &str, at: u64) -> FileFault
        requires { self.old.failures < 18446744073709551615 }
        ensures device { result ≡ FileFault.Device }
        ensures counted { self.new.failures ≡ self.old.failures + 1 }
        ensures begun { self.new.failed_at ≡ at }
        ensures elsewhere { elsewhere_in self.new path.now ≡ elsewhere_in self.old path.now }
        ensures same { (p : List ℕ) → held_in self.new p ≡ held_in self.old p }
    {
        self.failures += 1;
        self.failed_at = at;
        if path == "certificate" {
            self.certificate_failures = self.certificate_failures.saturating_add(1);
        } else {
            self.other_failures = self.other_failures.saturating_add(1);
        }
        FileFault::Device
    }

    /// Returns the text of a path. An unknown path and a text of more than `MAX_FILE` bytes have none.
    fn text(&mut self, path: &str) -> Option<&'a [u8]>
        ensures held { IfSome result (λ t. held_in self.old path.now ≡ Some t.now) }
        ensures small { IfSome result (λ t. length t.now ≤ MAX_FILE) }
        ensures uncounted { failures_in self.new ≡ failures_in self.old }
        ensures same { (p : List ℕ) → held_in self.new p ≡ held_in self.old p }
    {
        self.reads = self.reads.saturating_add(1);
        match self.find(path) {
            Some(text) if text.len() as u64 <= MAX_FILE => Some(text),
            _ => None,
        }
    }

    // The text of a path, if there is one.
    fn find(&self, path: &str) -> Option<&'a [u8]>
        ensures { option_map (λ t. t.now) result ≡ held_in self.now path.now }
    {
        if path == "program" {
            Some(self.program)
        } else if path == "input" {
            Some(self.input)
        } else if path == "certificate" {
            Some(self.certificate)
        } else if path == "script" {
            Some(self.script)
        } else {
            None
        }
    }
}

impl Files for Folder<'_> {
    ghost use Rattle.cilk_served.specs.Folders.{failures_in, held_in};

    ghost failed = { failures_in };

    ghost holds = { held_in };

    fn read(&mut self, alloc: Global, path: &str) -> Result<Vec<u8>, FileFault> {
        match self.text(path) {
            Some(text) => Ok(text.to_vec(alloc)?),
            None => Err(self.fail(path, 0)),
        }
    }

    fn part(
        &mut self,
        path: &str,
        _parts: Parts,
        at: u64,
        into: &mut [u8],
    ) -> Result<usize, FileFault> {
        let whole = match self.text(path) {
            Some(text) if at <= MAX_FILE && self.parts > 0 => text,
            _ => return Err(self.fail(path, at)),
        };
        self.parts -= 1;
        let rest = &whole[whole.len().min(at as usize)..];
        let count = rest.len().min(into.len());
        into[..count].copy_from_slice(&rest[..count]);
        Ok(count)
    }

    fn failures(&self) -> u64 {
        self.failures
    }
}

/// A reader whose every read fails.
#[derive(Drop)]
pub struct Broken;

impl Read for Broken {
    fn read(&mut self, _piece: &mut [u8]) -> io::Result<usize> {
        Err(io::Error::from(ErrorKind::Other))
    }
}

/// A reader of some bytes that fails after the last one.
#[derive(Drop)]
pub struct Torn<'a> {
    pub rest: &'a [u8],
}

impl Read for Torn<'_> {
    fn read(&mut self, piece: &mut [u8]) -> io::Result<usize> {
        if self.rest.is_empty() {
            return Err(io::Error::from(ErrorKind::Other));
        }
        self.rest.read(piece)
    }
}

/// A writer with room for a number of bytes, which it accepts one by one. After that it fails, or
/// accepts 0 bytes.
#[derive(Drop)]
pub struct Short {
    pub taken: Vec<u8>,
    room: usize,
    fails: bool,
}

impl Write for Short {
    fn write(&mut self, piece: &[u8]) -> io::Result<usize> {
        if self.room > 0 && !piece.is_empty() {
            self.taken.push(piece[0])?;
            self.room -= 1;
            return Ok(1);
        }
        if self.fails {
            return Err(io::Error::from(ErrorKind::Other));
        }
        Ok(0)
    }

    fn flush(&mut self) -> io::Result<()> {
        Ok(())
    }
}

pub fn short_writer(alloc: Global, room: usize, fails: bool) -> Short {
    Short {
        taken: Vec::new(alloc),
        room,
        fails,
    }
}

/// The result of a call: its status, the bytes on both streams, and the number of reads.
#[derive(Drop)]
pub struct Ended {
    pub status: u8,
    pub out: Vec<u8>,
    pub err: Vec<u8>,
    pub reads: u64,
}

impl Ended {
    /// Returns whether this status and these texts were shown.
    pub fn is(&self, status: u8, out: &str, err: &str) -> bool {
        self.status == status
            && self.out.as_slice() == out.as_bytes()
            && self.err.as_slice() == err.as_bytes()
    }
}

/// Makes a call over a folder with the program and the input, and with standard input.
pub fn shown<R: Read>(
    alloc: Global,
    words: &[&str],
    program: &[u8],
    input: &[u8],
    standard: &mut R,
) -> Ended {
    served(
        alloc,
        words,
        Folder::new(program, input, b"", b""),
        standard,
    )
}

/// Checks a program's certificate. Reads of the certificate's file fail after `parts` parts.
pub fn checked_in_parts(alloc: Global, program: &[u8], certificate: &[u8], parts: u64) -> Ended {
    let words = ["check", "program", "certificate"];
    let mut files = Folder::new(program, b"", certificate, b"");
    files.parts = parts;
    served(alloc, &words, files, &mut Broken)
}

/// Makes a call over an unread folder and standard input.
fn served<R: Read>(alloc: Global, words: &[&str], mut files: Folder<'_>, standard: &mut R) -> Ended
    requires { files.failures ≡ 0 }
{
    let (mut out, mut err) = (Vec::new(alloc), Vec::new(alloc));
    let mut counted = CountedReader::new(standard);
    let status = serve(alloc, words, &mut files, &mut counted, &mut out, &mut err);
    Ended {
        status,
        out,
        err,
        reads: files.reads,
    }
}

/// Makes a call without words over standard input and these two writers. Returns its status, and
/// whether all of standard error was written.
pub fn served_over<O: Write, E: Write>(
    alloc: Global,
    standard: &mut &[u8],
    out: &mut O,
    err: &mut E,
) -> Served {
    let mut files = Folder::new(b"", b"", b"", b"");
    let mut counted = CountedReader::new(standard);
    serve_and_tell(alloc, &[], &mut files, &mut counted, out, err)
}

/// Returns the status of a call over a program and a certificate and these two writers.
pub fn status_with<O: Write, E: Write>(
    alloc: Global,
    words: &[&str],
    program: &[u8],
    certificate: &[u8],
    out: &mut O,
    err: &mut E,
) -> u8 {
    let mut files = Folder::new(program, b"", certificate, b"");
    let mut counted = CountedReader::new(Broken);
    serve(alloc, words, &mut files, &mut counted, out, err)
}

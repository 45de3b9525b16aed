//! The files of the operating system, and standard input among them.

ghost use Rattle.std.specs.Prelude.{◌≡◌, ◌⊎◌, ◌↔◌, ◌+◌, ◌<◌, ◌≤◌, None, IfOk, IsTrue, length, string_bytes};
ghost use Rattle.std.specs.IoError.{error_kind};

use crate::files::{FileFault, Files, Parts};
use std::alloc::Global;
use std::fs::OpenFile;
use std::io::{ErrorKind, Input, Read, Seek, SeekFrom};
use std::rt::Files as System;
use std::{fs, io};

/// The size of the largest file that is read, in bytes, but for one that is read as a stream.
pub const MAX_FILE: u64 = 268_435_456;

/// The greatest size of a stream, in bytes: no system has a larger file.
pub const MAX_STREAM: u64 = 9_223_372_036_854_775_807;

/// The path of standard input, where a file is read as a stream.
pub const STANDARD: &str = "-";

// A file that is open, its path, the byte that a read of it comes to, and whether it keeps its bytes,
// as a pipe doesn't.
#[derive(Drop)]
struct Open<F> {
    path: String,
    file: F,
    at: u64,
    keeps: bool,
}

/// The files of the operating system, the number of failed reads so far, and the byte from which the
/// last of these was to read. The file that was read last in parts stays open: its further parts come
/// from the same file, though another one may have its path by then. A pipe and standard input give
/// their bytes once, so a second reading of them fails.
#[derive(Drop)]
pub struct Disk<'a, R: System + Input> {
    alloc: Global,
    system: &'a R,
    failures: u64,
    failed_at: u64,
    open: Option<Open<R::File>>,
    // The number of bytes of standard input that were read.
    taken: u64,
}

impl<'a, R: System + Input> Disk<'a, R> {
    /// Returns the files of a system, with no failure yet.
    pub fn new(alloc: Global, system: &'a R) -> Self
        ensures { result.failures ≡ 0 }
    {
        Disk {
            alloc,
            system,
            failures: 0,
            failed_at: 0,
            open: None,
            taken: 0,
        }
    }
}

// Whether a file of this size isn't read, where so many bytes are at most.
fn is_too_large(size: u64, most: u64) -> bool
    ensures { IsTrue result ↔ (most < size) }
{
    size > most
}

// Opens a file of at most so many bytes, and returns its size too, and whether it keeps its bytes.
fn opened<R: System>(system: &R, path: &str, most: u64) -> io::Result<(R::File, u64, bool)>
    ensures { IfOk result (λ o. o.1 ≤ most) }
{
    let file = fs::open(system, path)?;
    let metadata = file.metadata()?;
    let size = metadata.len();
    if is_too_large(size, most) {
        return Err(io::Error::from(ErrorKind::FileTooLarge));
    }
    Ok((file, size, metadata.is_file()))
}

// The bytes of a file. At most one byte past the limit is read.
fn contents<R: System>(system: &R, alloc: Global, path: &str) -> io::Result<Vec<u8>>
    ensures { IfOk result (λ bytes. length bytes.items ≤ MAX_FILE) }
{
    let (file, size, _keeps) = opened(system, path, MAX_FILE)?;
    let mut bytes = Vec::with_capacity(alloc, size as usize)?;
    file.take(MAX_FILE + 1).read_to_end(&mut bytes)?;
    if is_too_large(bytes.len() as u64, MAX_FILE) {
        return Err(io::Error::from(ErrorKind::FileTooLarge));
    }
    Ok(bytes)
}

// The most bytes that are read of a file in such parts.
fn most_of(parts: Parts) -> u64
    ensures most { result ≤ MAX_STREAM }
    ensures file { parts ≡ Parts.OfFile → result ≡ MAX_FILE }
{
    match parts {
        Parts::OfFile => MAX_FILE,
        Parts::OfStream => MAX_STREAM,
    }
}

// Opens a file to read it in parts.
fn opened_at<R: System>(
    system: &R,
    alloc: Global,
    path: &str,
    most: u64,
) -> io::Result<Open<R::File>>
    ensures path { IfOk result (λ o. string_bytes o.path ≡ path.now) }
    ensures first { IfOk result (λ o. o.at ≡ 0) }
{
    let (file, _size, keeps) = opened(system, path, most)?;
    let path = String::from_str(alloc, path)?;
    Ok(Open {
        path,
        file,
        at: 0,
        keeps,
    })
}

// The byte behind a read from a byte on, of a file of at most so many bytes.
fn end_of(at: u64, count: usize, most: u64) -> io::Result<u64>
    requires { at ≤ most }
    ensures end { IfOk result (λ end. end ≡ at + count) }
    ensures small { IfOk result (λ end. end ≤ most) }
{
    if is_too_large(count as u64, most - at) {
        return Err(io::Error::from(ErrorKind::FileTooLarge));
    }
    Ok(at + count as u64)
}

impl<F> Open<F> {
    // Whether bytes of it were read, and it doesn't give them again.
    fn is_spent(&self) -> bool {
        !self.keeps && self.at > 0
    }
}

impl<F: Read + Seek> Open<F> {
    // One read from a byte on, of at most the bytes up to the limit. A file that is read from
    // beginning to end is never moved, so it may be a pipe.
    fn part(&mut self, at: u64, most: u64, into: &mut [u8]) -> io::Result<usize>
        requires { at ≤ most }
        ensures within { IfOk result (λ n. n ≤ length into.old) }
        ensures small { IfOk result (λ n. at + n ≤ most) }
        ensures moved { IfOk result (λ n. self.new.at ≡ at + n) }
        ensures path { self.new.path ≡ self.old.path }
    {
        if self.at != at {
            self.file.seek(SeekFrom::Start(at))?;
        }
        let count = self.file.read(into)?;
        self.at = end_of(at, count, most)?;
        Ok(count)
    }
}

impl<R: System + Input> Disk<'_, R> {
    // The fault of an error of a read from a byte on. A failure of the device is counted; each error
    // is one but a want of memory.
    fn fault(&mut self, error: &io::Error, at: u64) -> FileFault
        requires { self.old.failures < 18446744073709551615 }
        ensures device { result ≡ FileFault.Device → self.old.failures < self.new.failures }
        ensures place { result ≡ FileFault.Device → self.new.failed_at ≡ at }
        ensures memory { result ≡ FileFault.Memory → (self.new.failures ≡ self.old.failures) × (self.new.failed_at ≡ self.old.failed_at) }
        ensures risen { ((self.new.failures ≡ self.old.failures) × (self.new.failed_at ≡ self.old.failed_at)) ⊎ (self.old.failures < self.new.failures) }
        ensures kind { (result ≡ FileFault.Memory) ↔ (error_kind error.now ≡ ErrorKind.OutOfMemory) }
    {
        if error.kind() == ErrorKind::OutOfMemory {
            return FileFault::Memory;
        }
        self.failures += 1;
        self.failed_at = at;
        FileFault::Device
    }

    // The file of a path, to be read from a byte on. It is opened, but where parts of it were read
    // just before.
    fn file_at(&mut self, path: &str, at: u64, most: u64) -> io::Result<Open<R::File>>
        ensures path { IfOk result (λ o. string_bytes o.path ≡ path.now) }
        ensures failures { (self.new.failures ≡ self.old.failures) × (self.new.failed_at ≡ self.old.failed_at) }
    {
        match self.open.take() {
            Some(open) if at > 0 && open.path.as_str() == path => Ok(open),
            Some(open) if open.is_spent() && open.path.as_str() == path => {
                self.open = Some(open);
                Err(io::Error::from(ErrorKind::NotSeekable))
            }
            _ => opened_at(self.system, self.alloc, path, most),
        }
    }

    // One read of standard input, from the byte at which the last one ended.
    fn standard_part(&mut self, at: u64, into: &mut [u8]) -> io::Result<usize>
        requires { at ≤ MAX_STREAM }
        ensures within { IfOk result (λ n. n ≤ length into.old) }
        ensures small { IfOk result (λ n. at + n ≤ MAX_STREAM) }
        ensures failures { (self.new.failures ≡ self.old.failures) × (self.new.failed_at ≡ self.old.failed_at) }
    {
        if self.taken != at {
            return Err(io::Error::from(ErrorKind::NotSeekable));
        }
        let count = self.system.reader().read(into)?;
        self.taken = end_of(at, count, MAX_STREAM)?;
        Ok(count)
    }

    // One read of a file from a byte on, up to the limit.
    fn file_part(&mut self, path: &str, at: u64, most: u64, into: &mut [u8]) -> io::Result<usize>
        requires { at ≤ most }
        ensures within { IfOk result (λ n. n ≤ length into.old) }
        ensures small { IfOk result (λ n. at + n ≤ most) }
        ensures failures { (self.new.failures ≡ self.old.failures) × (self.new.failed_at ≡ self.old.failed_at) }
    {
        let mut file = self.file_at(path, at, most)?;
        let count = file.part(at, most, into);
        if count.is_ok() {
            self.open = Some(file);
        }
        count
    }

    // One read of a file, or of standard input, from a byte on.
    fn part_of(&mut self, path: &str, parts: Parts, at: u64, into: &mut [u8]) -> io::Result<usize>
        ensures within { IfOk result (λ n. n ≤ length into.old) }
        ensures small { IfOk result (λ n. at + n ≤ MAX_STREAM) }
        ensures limited { parts ≡ Parts.OfFile → IfOk result (λ n. at + n ≤ MAX_FILE) }
        ensures failures { (self.new.failures ≡ self.old.failures) × (self.new.failed_at ≡ self.old.failed_at) }
    {
        let most = most_of(parts);
        if is_too_large(at, most) {
            return Err(io::Error::from(ErrorKind::FileTooLarge));
        }
        match parts {
            Parts::OfStream if path == STANDARD => self.standard_part(at, into),
            _ => self.file_part(path, at, most, into),
        }
    }
}

impl<R: System + Input> Files for Disk<'_, R> {
    ghost use Rattle.cilk_commands.specs.Files.{failures};

    ghost failed = { λ d. failures d.failures d.failed_at (λ _. 0) };

    ghost holds = { λ _ _. None };

    fn read(&mut self, alloc: Global, path: &str) -> Result<Vec<u8>, FileFault> {
        match contents(self.system, alloc, path) {
            Ok(bytes) => Ok(bytes),
            Err(error) => Err(self.fault(&error, 0)),
        }
    }

    fn part(
        &mut self,
        path: &str,
        parts: Parts,
        at: u64,
        into: &mut [u8],
    ) -> Result<usize, FileFault> {
        match self.part_of(path, parts, at, into) {
            Ok(count) => Ok(count),
            Err(error) => Err(self.fault(&error, at)),
        }
    }

    fn failures(&self) -> u64 {
        self.failures
    }
}

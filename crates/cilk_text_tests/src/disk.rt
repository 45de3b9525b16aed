//! The system's files, as far as every system has them.

use cilk_commands::disk::{Disk, MAX_FILE, MAX_STREAM};
use cilk_commands::files::{FileFault, Files, Parts};
use std::alloc::Global;
use std::io::Input;
use std::rt::Files as System;

// Whether a path can't be read, and the failure is counted.
fn is_unread<R: System + Input>(system: &R, alloc: Global, path: &str) -> bool {
    let mut disk = Disk::new(alloc, system);
    let answer = disk.read(alloc, path);
    matches!(answer, Err(FileFault::Device)) && disk.failures() == 1
}

// Whether no part of a path can be read there, and the failure is counted.
fn has_no_part<R: System + Input>(
    system: &R,
    alloc: Global,
    path: &str,
    parts: Parts,
    at: u64,
) -> bool {
    let mut disk = Disk::new(alloc, system);
    let answer = disk.part(path, parts, at, &mut [0; 4]);
    matches!(answer, Err(FileFault::Device)) && disk.failures() == 1
}

// Whether a file ends at this place.
fn ends_at<R: System + Input>(
    system: &R,
    alloc: Global,
    path: &str,
    parts: Parts,
    at: u64,
) -> bool {
    let mut disk = Disk::new(alloc, system);
    let answer = disk.part(path, parts, at, &mut [0; 4]);
    matches!(answer, Ok(0)) && disk.failures() == 0
}

// Whether a file is read, and has no bytes.
fn is_empty<R: System + Input>(system: &R, alloc: Global, path: &str) -> bool {
    let mut disk = Disk::new(alloc, system);
    let answer = disk.read(alloc, path);
    matches!(&answer, Ok(bytes) if bytes.is_empty()) && disk.failures() == 0
}

#[test]
fn what_is_no_file_is_not_read(rt: HostRuntime) {
    for path in ["", "/", "/no/such/file", "/dev/null/file"] {
        assert!(rt; is_unread(&rt, rt.alloc(), path), "`{path}`");
        for parts in [Parts::OfFile, Parts::OfStream] {
            assert!(rt; has_no_part(&rt, rt.alloc(), path, parts, 0), "`{path}`");
        }
    }
}

#[test]
fn an_empty_file_has_no_bytes(rt: HostRuntime) {
    assert!(rt; is_empty(&rt, rt.alloc(), "/dev/null"));
    for at in [0, 1, MAX_FILE] {
        assert!(rt;
            ends_at(&rt, rt.alloc(), "/dev/null", Parts::OfFile, at),
            "at {at}"
        );
    }
    assert!(rt; has_no_part(&rt, rt.alloc(), "/dev/null", Parts::OfFile, MAX_FILE + 1));
}

#[test]
fn a_stream_has_no_limit_but_that_of_files(rt: HostRuntime) {
    for at in [0, 1, MAX_FILE + 1] {
        assert!(rt;
            ends_at(&rt, rt.alloc(), "/dev/null", Parts::OfStream, at),
            "at {at}"
        );
    }
    assert!(rt;
        has_no_part(
            &rt,
            rt.alloc(),
            "/dev/null",
            Parts::OfStream,
            MAX_STREAM + 1
        )
    );
}

#[test]
fn standard_input_is_read_from_its_beginning(rt: HostRuntime) {
    assert!(rt; has_no_part(&rt, rt.alloc(), "-", Parts::OfStream, 1));
    assert!(rt; has_no_part(&rt, rt.alloc(), "-", Parts::OfFile, 0));
}

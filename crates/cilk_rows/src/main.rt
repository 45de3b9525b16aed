//! Tests of whole calls of the tool, one file of texts for each case.
//!
//! A case has a command line, its files and its standard input, and the expected bytes on both
//! output streams with the exit status. This program serves each case with
//! [`cilk_tool::serve`] over files in memory. It prints what differs, and the counts in
//! its last line. The exit status is 0 if all cases pass, 1 if one fails, and 2 if memory runs out
//! or a line can't be printed.
//!
//! | Text of a case | Content |
//! |---|---|
//! | `words` | the command line, one word to a line |
//! | `stdin`, and files that `words` names | what the call reads |
//! | `makes` | a file to make first by another call, as a certificate |
//! | `fills` | texts to repeat at the end of a file, for long inputs |
//! | `unread` | the number of reads of files after which each further one fails |
//! | `out`, `err`, `status` | the expected reply; `<..>` matches any bytes |
//! | `reads` | the expected number of reads of files |
//!
//! A missing text is empty, so a case holds only what matters for it. `tools/cases.py` writes the
//! files, and runs the built program with the same cases. `data/words-explain-103-111.case`:
//!
//! ```text
//! -- words --
//! explain
//! 103
//! 111
//! -- status --
//! 2
//! -- err --
//! the expected standard error
//! ```
#![tactic(auto)]

mod case;
mod compare;
mod folder;
mod texts;

use crate::case::{Case, loaded, text_of};
use crate::compare::{agrees, start_of};
use crate::folder::{File, Folder, bytes_of};
use cilk_commands::CountedReader;
use cilk_report::{KeptFiles, without_color};
use cilk_tool::serve;
use std::alloc::AllocError;
use std::io;
use std::process::ExitCode;
use std::sync::Wait;
use std::thread::Threads;
use std::time::Clock;

/// The reply to a call, and how many times it read a file.
#[derive(Drop)]
struct Shown {
    status: u8,
    reads: u64,
    out: Vec<u8>,
    err: Vec<u8>,
}

/// Serves words over files that can be read `left` times. The file `stdin` is the standard input.
fn served<H: Threads + Wait + Clock + Sync>(
    rt: &HostRuntime,
    handle: &H,
    words: &str,
    files: &[File],
    left: u64,
) -> Result<Shown, AllocError> {
    let alloc = rt.alloc();
    let all: Vec<&str> = words.lines().collect(alloc)?;
    let words = without_color(alloc, all.as_slice())?;
    let has_colors = words.len() < all.len();
    let mut input = CountedReader::new(bytes_of(files, "stdin"));
    let mut folder = KeptFiles::new(alloc, Folder::new(files, left), has_colors);
    let (mut out, mut err) = (Vec::new(alloc), Vec::new(alloc));
    let status = serve(
        handle,
        alloc,
        words.as_slice(),
        &mut folder,
        &mut input,
        &mut out,
        &mut err,
    );
    let reads = folder.files.reads;
    Ok(Shown {
        status,
        reads,
        out,
        err,
    })
}

/// Makes the file of a case's own call, if it has one: the standard output of that call.
fn make<H: Threads + Wait + Clock + Sync>(
    rt: &HostRuntime,
    handle: &H,
    case: &mut Case,
) -> Result<(), AllocError> {
    let alloc = rt.alloc();
    let Some((name, words)) = case.makes.as_str().split_once('\n') else {
        return Ok(());
    };
    let made = served(rt, handle, words, case.files.as_slice(), u64::MAX)?;
    let name = String::from_str(alloc, name)?;
    let bytes = made.out.as_slice().to_vec(alloc)?;
    case.files.push(File { name, bytes })?;
    Ok(())
}

/// Prints an expected and a shown text, if they differ.
fn print_difference(
    rt: &HostRuntime,
    name: &str,
    stream: &str,
    wanted: &[u8],
    shown: &[u8],
) -> io::Result<()> {
    if agrees(wanted, shown) {
        return Ok(());
    }
    println!(rt; "{name}: {stream} is wanted as\n{}", start_of(wanted))?;
    println!(rt; "{name}: {stream} is\n{}", start_of(shown))
}

/// Returns whether a case shows its expected reply; prints the differences.
fn is_passed<H: Threads + Wait + Clock + Sync>(
    rt: &HostRuntime,
    handle: &H,
    name: &str,
) -> io::Result<bool> {
    let mut case = loaded(rt, name)?;
    make(rt, handle, &mut case)?;
    case.fill(rt.alloc())?;
    let (words, files) = (case.words.as_str(), case.files.as_slice());
    let shown = served(rt, handle, words, files, case.left)?;
    let (out, err) = (case.out.as_slice(), case.err.as_slice());
    if shown.status != case.status {
        let (wanted, status) = (case.status, shown.status);
        println!(rt; "{name}: status {wanted} is wanted, and it is {status}")?;
    }
    let reads = case.reads.unwrap_or(shown.reads);
    if shown.reads != reads {
        let read = shown.reads;
        println!(rt; "{name}: {reads} reads of files are wanted, and there are {read}")?;
    }
    print_difference(rt, name, "standard output", out, shown.out.as_slice())?;
    print_difference(rt, name, "standard error", err, shown.err.as_slice())?;
    Ok(
        shown.status == case.status
            && shown.reads == reads
            && agrees(out, shown.out.as_slice())
            && agrees(err, shown.err.as_slice()),
    )
}

/// Serves each case, prints the counts, and returns how many fail.
fn run_all<H: Threads + Wait + Clock + Sync>(rt: &HostRuntime, handle: &H) -> io::Result<u64> {
    let names = text_of(rt, "cases")?;
    let (mut passed, mut failed) = (0u64, 0u64);
    for name in names.as_str().lines() {
        if is_passed(rt, handle, name)? {
            passed = passed.saturating_add(1);
        } else {
            failed = failed.saturating_add(1);
        }
    }
    println!(rt; "{passed} passed, {failed} failed")?;
    Ok(failed)
}

fn main(rt: HostRuntime) -> ExitCode {
    match run_all(&rt, &rt) {
        Ok(0) => ExitCode::from(0),
        Ok(_) => ExitCode::from(1),
        Err(_) => ExitCode::from(2),
    }
}

//! The program `cilk`: runs Cilk programs, and certifies that a run's result doesn't depend on the
//! schedule.
//!
//! The program hands its arguments, the system's files and the standard streams to
//! [`cilk_tool::serve`], and exits with the status of that call. It contains nothing else,
//! so every command line can be tested without a process.
//!
//! The runtime handle is passed on only here. `threads` needs threads and waiting, and `check` with
//! `--helpers` needs threads. All other commands are served by functions that can't use either.
//!
//! | Command | Purpose |
//! |---|---|
//! | `settle` | tells whether a program's run races; if not, every schedule leaves the same |
//! | `run` | runs a program serially |
//! | `certify`, `check` | writes a certificate of a run; checks it, and that the run has no race |
//! | `threads` | runs an accepted program by work stealing |
//! | `judge` | tells whether a recorded run of a C or C++ program has a race |
//! | `play`, `schedule` | plays a script of a schedule; writes one that shows a race |
//! | `measure` | prints work, span and parallelism |
//! | `explain`, `help` | explains a number; describes a command |
//!
//! Arguments that aren't valid text are refused with a line on standard error. `--color` may stand
//! anywhere among them: explanations then have colours.
//!
//! ```text
//! cilk run fib.c
//! cilk certify fib.c > fib.cert
//! cilk threads fib.c fib.cert --workers 4
//! ```
#![tactic(auto)]

use cilk_commands::CountedReader;
use cilk_commands::disk::Disk;
use cilk_commands::reply::{NO_MEMORY, NO_MEMORY_LINE, WRONG};
use cilk_report::{KeptFiles, without_color};
use cilk_tool::serve;
use std::alloc::{AllocError, Global};
use std::io::ErrorKind;
use std::process::ExitCode;
use std::{env, io};

/// The arguments after the program's name. Fails if one of them isn't text.
fn arguments(rt: &HostRuntime) -> io::Result<Vec<String>> {
    let mut words = Vec::new(rt.alloc());
    for word in env::args(rt)?.skip(1) {
        words.push(word)?;
    }
    Ok(words)
}

/// The arguments without each `--color`, and whether explanations have colours.
fn as_texts<'a>(alloc: Global, words: &'a [String]) -> Result<(Vec<&'a str>, bool), AllocError> {
    let all: Vec<&str> = words.iter().map(|word| word.as_str()).collect(alloc)?;
    let plain = without_color(alloc, all.as_slice())?;
    let has_colors = plain.len() < all.len();
    Ok((plain, has_colors))
}

/// Reports that the arguments couldn't be read: out of memory, or an argument isn't text.
fn refused(rt: &HostRuntime, error: io::Error) -> ExitCode {
    if error.kind() == ErrorKind::OutOfMemory {
        let _ = eprint!(rt; "{NO_MEMORY_LINE}");
        return ExitCode::from(NO_MEMORY);
    }
    let _ = eprintln!(rt; "error: an argument is not text");
    ExitCode::from(WRONG)
}

fn main(rt: HostRuntime) -> ExitCode {
    let words = match arguments(&rt) {
        Ok(words) => words,
        Err(error) => return refused(&rt, error),
    };
    let (words, has_colors) = match as_texts(rt.alloc(), words.as_slice()) {
        Ok(found) => found,
        Err(error) => return refused(&rt, io::Error::from(error)),
    };
    let status = serve(
        &rt,
        rt.alloc(),
        words.as_slice(),
        &mut KeptFiles::new(rt.alloc(), Disk::new(rt.alloc(), &rt), has_colors),
        &mut CountedReader::new(rt.reader()),
        &mut rt.stdout(),
        &mut rt.stderr(),
    );
    ExitCode::from(status)
}

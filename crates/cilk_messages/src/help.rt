//! The tool's help.

ghost use Rattle.std.specs.Prelude.{◌<◌, length, string_bytes, IfOk};

use crate::about::is_command;
use crate::around::is_among;
use crate::sentence::{Part, say};
use crate::sentences::row_of;
use std::alloc::{AllocError, Global};

/// The text of `--version`.
pub const VERSION: &str = "cilk 1.0.0 (Ruqwabi)\n";

/// The text of `--help`. It also follows clap's text where a command line isn't valid.
pub const HELP: &str = "\
Runs and checks programs of a small integer C with cilk_spawn, cilk_sync, cilk_for and reducers, and finds races in
recorded runs of C and C++ programs.

Usage: cilk COMMAND ARGUMENTS.. [OPTIONS]

All commands:
  settle PROGRAM..            run each program serially, and tell whether it races: if not, `settled` and the outcome
                              of every schedule; or the first race, where it is, why, and what to write instead
  run PROGRAM                 run the program serially; show the numbers that it prints, its global reducers, its result
  certify PROGRAM             make that run and write its certificate: a list of its events, frames and strands
  check PROGRAM CERTIFICATE   check that the certificate is right and that nothing races: if so, `accepted`, and every
                              parallel run that ends has the serial run's outcome; if not, the first thing that is wrong
  threads PROGRAM CERTIFICATE
                              check as `check` does; if that accepts, run the program on threads, by work stealing:
                              on the certificate's input the outcome is the serial run's
  play PROGRAM SCRIPT         run the program in parallel, step by step, by the orders of a script to its workers
  schedule PROGRAM CERTIFICATE
                              if `check` finds a race, write a script for `play` that makes its later access first
  judge TRACE                 tell whether a recorded run of a C or C++ program has a race (docs/TRACES.md)
  measure PROGRAM             run the program serially and show, instead of its outcome, its events, ticks, frames,
                              strands, work, span and parallelism, and a table by function and loop
  explain [NUMBER]            explain a refusal's number: its meaning, a text that provokes it, the cure; or list all
  help COMMAND                describe a command, its arguments and its options
  --help, --version           show this text, or the version
  (no command)                run the program whose text is on standard input

Arguments:
  PROGRAM         a file with a program text, of at most 262,144 bytes
  CERTIFICATE     a certificate, such as `certify` writes, of at most 268,435,456 bytes
  SCRIPT          a file with a script, of at most 1,048,576 bytes (docs/SCRIPTS.md)
  TRACE           a trace, as text or binary, or `-` for standard input; a program made by recorder/cilkrec writes it

Options of settle, run, certify, check, threads, play, schedule and measure:
  --input FILE    the numbers for `input(k)`, at most 65,536, separated by blanks; without this option there are none
  --explain       after a refusal, say on standard error at which line and column it is, why, and what to write instead;
                  `settle` does so without it

Option of all commands:
  --color         show explanations with colours; `./cilk` adds it where standard error is a terminal, unless NO_COLOR is set

Options of settle:
  --short, --json
                  a line for each program: its name and the first line of the answer, and with `--explain` an explanation
                  on standard error; or a JSON object with its name, the status, the whole answer, its explanation, and
                  the line and column where that begins
  --why LINE      after `settled`, say on standard error what orders the accesses of this line with those of others
  --every         speak of every input that agrees where numbers decide; --fix LIST names the positions where it does

Options of judge:
  --sites FILE    after a refusal, say on standard error at which files, lines and functions the accesses are, by the
                  table of sites in FILE
  --explain       the same without a table, by lines of the trace; and why a text isn't a trace

Options of measure:
  --csv           write the table with commas
  --svg           write a picture instead: the speed-up by workers, and how many events could be made at each step
  --dot           write the tree of the run instead, for Graphviz's `dot`; only of a run with at most 500 nodes

Option of check:
  --helpers N     share the work among N threads, 1 to 16: the same answer, sooner where frames compute long

Options of play and threads:
  --workers N     the number of workers, 1 to 64; 2 without this option
  --strict        of play: stop at the first choice that can't be made, with status 3; without it such choices are skipped
  --trace         of play: say on standard error what each worker does: its strands, steals, waits and ends
  --stats         of threads: say on standard error how many strands each worker began, and how many by a steal
  --on FILE       of threads: run with the numbers of FILE in place of those of --input; the answer is `refused 502`
                  if the program departs from the certified run on them

Status:
  0 done    2 wrong words, file, program, input, script or trace; or a failed write; or this help
  3 a fault of the run, or a choice of a script that `--strict` stops at
  4 a race, or a refused certificate, or refused numbers of --on    5 out of memory

Limits of a run:
  1,000,000 events, 16,000,000 ticks of work, 65,536 frames, 1,048,576 variables and elements

Documents, beside the program's sources: README.md, docs/LANGUAGE.md, docs/FROM-CILK.md (what differs from C and
OpenCilk), docs/REFUSALS.md, docs/CHECKER.md, docs/SCRIPTS.md, docs/TRACES.md, docs/EDITORS.md, docs/PROVED.md
";

/// The help on each command, after a line with its name, but for the hint at its end. A line with a word
/// of [`SHARED`] stands for the line of that word.
const PAGES: &str = "\
== explain
Explain the number of a refusal: its meaning, a text that provokes it, and the cure

Usage: cilk explain [NUMBER]

Arguments:
  [NUMBER]  101 to 106, 111 to 119, 121, 122, 201 to 206, 301 to 312 or 502; without it, list each with its title
== settle
Run programs serially, and tell of each whether it races: if not, no schedule changes what it leaves

Usage: cilk settle PROGRAM.. [--input FILE] [--every [--fix LIST]] [--short | --json | --why LINE] [--explain]

The answer is one of
  settled         and the lines that `run` shows: every parallel run on this input that ends leaves the same
  refused 311 P Q or refused 312 P Q: the first race, by two events of the run; status 4
  fault N at P    on standard error: the run stops by a fault in place of event P; status 3
or what `run` writes for a wrong program or input.
An explanation follows on standard error: at which lines and columns it is, why, and what to write instead.
Several programs are settled one after the other, on the same input, each under a line with its name. The status is the
greatest of theirs; no memory, or a write that fails, ends the call.

Arguments:
PROGRAM

Options:
INPUT
  --short         a line for each program: its name and the first line of the answer
  --json          a line for each program: a JSON object of `program`, `status`, `reply` (the whole answer) and
                  `explanation` (empty if there is none), with `--every` a claim as `every`, and `line` and `column`
                  where the explanation begins in the program
  --why LINE      for one program: after `settled`, say on standard error what orders the accesses of this line with
                  those of other strands
  --explain       with `--short`, explanations on standard error too; the other forms have them in any case
  --every         speak of other inputs too: `settled on every input of N numbers with these: P is V, ..` means that each
                  input of N numbers with these at these positions, from 0, is settled as well (what it leaves is its
                  own); a race or a fault is said to be on every such input, but by `--short` alone. Standard error
                  says which numbers decide and where: these are fixed
  --fix LIST      with `--every`, fix the numbers at these positions, such as 0,3..5, and no others
HELP
== run
Run a program serially; show the numbers that it prints, its global reducers and its result

Usage: cilk run PROGRAM [--input FILE] [--explain]

Arguments:
PROGRAM

Options:
INPUT
EXPLAIN
HELP
== certify
Write the certificate of a program's serial run to standard output: a list of its events, frames and strands

Usage: cilk certify PROGRAM [--input FILE] [--explain]

Arguments:
PROGRAM

Options:
INPUT
EXPLAIN
HELP
== check
Check that a certificate is right and that no two events race; if not, show the first thing that is wrong

Usage: cilk check PROGRAM CERTIFICATE [--input FILE] [--helpers N] [--explain]

Arguments:
PROGRAM
CERTIFICATE

Options:
INPUT
  --helpers N     share the work among N threads, 1 to 16: the same answer, sooner where frames compute long
EXPLAIN
HELP
== threads
Check as `check` does; if that accepts, run the program on threads, by work stealing

Usage: cilk threads PROGRAM CERTIFICATE [--workers N] [--input FILE] [--on FILE] [--stats] [--explain]

Arguments:
PROGRAM
CERTIFICATE

Options:
INPUT
  --workers N     the number of workers, 1 to 64; 2 without this option
  --on FILE       run on threads with the numbers of FILE in place of those of --input; the answer is `refused 502`
                  if the program departs from the certified run on them
  --stats         say on standard error how many strands each worker began, how many of these were continuations that it
                  stole, how many seconds the run took, and with `--on` whether the numbers that differ are known to
                  decide nothing
EXPLAIN
HELP
== play
Run a program in parallel, step by step, by the orders of a script to its workers

Usage: cilk play PROGRAM SCRIPT [--workers N] [--input FILE] [--strict] [--trace] [--explain]

Arguments:
PROGRAM
  SCRIPT          a file with a script, of at most 1,048,576 bytes (docs/SCRIPTS.md)

Options:
INPUT
  --workers N     the number of workers, 1 to 64; 2 without this option
  --strict        stop at the first choice that can't be made: `choice at 17: run 2, but worker 2 has no frame` on
                  standard error means line 17 of the script, and the status is 3. Without this option such choices are
                  skipped; `--explain` and `--trace` say how many were, and which was the first
  --trace         say on standard error what each worker does, in up to 200 lines: its strands, with their lines and the
                  events of the serial run, its steals, waits and ends
EXPLAIN
HELP
== schedule
If `check` finds a race, write to standard output a script for `play` that makes its later access first

Usage: cilk schedule PROGRAM CERTIFICATE [--input FILE] [--explain]

Arguments:
PROGRAM
CERTIFICATE

Options:
INPUT
EXPLAIN
HELP
== measure
Run a program, and show, instead of its outcome, its events, ticks, frames, strands, work, span, burdened span
(with 1,000 events for each spawn on the way) and parallelism, and a table by function and loop

Usage: cilk measure PROGRAM [--input FILE] [--csv | --svg | --dot] [--explain]

Arguments:
PROGRAM

Options:
INPUT
  --csv           write the table with commas
  --svg           write a picture instead: the speed-up by workers, and how many events could be made at each step
  --dot           write the tree of the run instead, for Graphviz's `dot`; only of a run with at most 500 nodes
EXPLAIN
HELP
== judge
Tell whether a recorded run of a C or C++ program has a race

Usage: cilk judge TRACE [--sites FILE] [--explain]

The answer is one of
  race-free       no two accesses to one cell may come in either order, unless both read, and no reducer is read
                  where its view depends on the schedule
  refused 311 P Q or refused 312 P Q: the first race, by two lines of the trace; status 4
  trace 301 at L  on standard error: line L isn't one of a trace, or not there (302: the trace is cut off); status 2

Arguments:
  TRACE           a trace, as text or in the binary form (docs/TRACES.md), of any size: it is read once, so it may be a
                  pipe, or `-` for standard input

Options:
  --sites FILE    after a refusal, say on standard error at which files, lines and functions the accesses are, by the
                  table of sites in FILE
  --explain       the same without a table, by lines of the trace; and why a text isn't a trace. Of a pipe it has the
                  numbers of lines alone
HELP

To record a run (recorder/README.md):
  recorder/cilkrec gcc -O2 prog.c -o prog
  CILK_TRACE=prog.trace CILK_SITES=prog.sites ./prog
  cilk judge prog.trace --sites prog.sites
To judge it beside the run, through a pipe:
  mkfifo pipe; CILK_TRACE=pipe ./prog & cilk judge pipe";

/// Lines of several pages, each after its word.
const SHARED: &str = "\
PROGRAM =>   PROGRAM         a file with a program text, of at most 262,144 bytes
CERTIFICATE =>   CERTIFICATE     a certificate, such as `certify` writes, of at most 268,435,456 bytes
INPUT =>   --input FILE    the numbers for `input(k)`, at most 65,536, separated by blanks; without this option there are none
EXPLAIN =>   --explain       after a refusal, say on standard error at which line and column it is, why, and what to write instead
HELP =>   -h, --help      show this text, if it is the only word after the command";

/// Returns the text of the help on a command, which is longer than the version.
pub fn help_on(alloc: Global, command: &str) -> Result<String, AllocError>
    ensures { IfOk result (λ text. length VERSION.now < length (string_bytes text)) }
{
    let mut text = String::new(alloc);
    let mut is_wanted = false;
    for line in PAGES.lines() {
        if let Some(name) = line.strip_prefix("== ") {
            is_wanted = name == command;
        } else if is_wanted {
            text.push_str(row_of(SHARED, line.as_bytes()).unwrap_or(line))?;
            text.push_str("\n")?;
        }
    }
    text.push_str("\nhint: `cilk --help` describes all commands")?;
    text.push_str(if command == "explain" {
        "\n"
    } else {
        ", statuses and limits\n"
    })?;
    Ok(text)
}

/// Adds the hint that follows clap's text for a command line that isn't valid.
pub fn push_advice(alloc: Global, text: &mut String, words: &[&str]) -> Result<(), AllocError> {
    let first = match words {
        [first, ..] => *first,
        [] => "",
    };
    text.push('\n')?;
    say(hint_of(words, first))
        .with(Part::Text(first))
        .with(Part::Text(first))
        .push(alloc, text)
}

// The hint, with gaps for the first word.
fn hint_of(words: &[&str], first: &str) -> &'static str {
    if first.starts_with("-") || first == "help" {
        HELP
    } else if is_command(first) {
        "hint: `cilk help {}` describes `{}` and its options\n"
    } else if first.ends_with(".c") {
        "hint: to run this program: `cilk run {}`; to see whether it races: `cilk settle {}`\n"
    } else if first.ends_with(".trace") {
        "hint: to judge this trace: `cilk judge {}`\n"
    } else if is_among(NEAR_SETTLE, first.as_bytes()) {
        "hint: perhaps `settle` is meant: `cilk help settle` describes it; `cilk --help` lists the commands\n"
    } else if is_among(NEAR_JUDGE, first.as_bytes()) {
        "hint: perhaps `judge` is meant: `cilk help judge` describes it; `cilk --help` lists the commands\n"
    } else if words.len() == 1 {
        "hint: to run the program `{}`: `cilk run {}`; `cilk --help` lists the commands\n"
    } else {
        "hint: `cilk --help` lists the commands\n"
    }
}

// Words that may stand for `settle`, and for `judge`.
const NEAR_SETTLE: &str = "settled settles setle settel race races verify";

const NEAR_JUDGE: &str = "judged judges jugde juge judg trace traces cilkscreen";

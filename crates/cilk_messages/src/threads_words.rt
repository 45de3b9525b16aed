//! The command line of `threads`.

ghost use Rattle.std.specs.Prelude.{◌≡◌, IfOk, IfErr, Some, option_map};
ghost use Rattle.clap.specs.Words.{found_of, rows_of, subcommand_rows_of};
ghost use Rattle.cilk_messages.specs.Words.{HasShape, texts};
ghost use Rattle.cilk_messages.specs.ThreadsWords.{IsWordsFault, order_by, order_in, order_view, parallel_app, texts_in, texts_view, threads_app, threads_with};

use crate::words::{
    NO_ORDER, WordsFault, empty, named, needing, no_order, refusal, taking, with, workers_in,
};
use clap::{ArgMatches, Command};
use std::alloc::{AllocError, Global};

// The summary of the command for clap.
const THREADS: &str =
    "Check a certificate, and where it is accepted run the program by workers on threads";

/// An order to check a program's certificate and then to run the program by `workers` workers.
/// Without `input` the certificate's input is empty. The run is on the input `on`, or without it on
/// the certificate's.
#[derive(Clone, Copy)]
pub struct Order<'a> {
    pub program: &'a str,
    pub certificate: &'a str,
    pub workers: u32,
    pub input: Option<&'a str>,
    pub on: Option<&'a str>,
}

// `threads PROGRAM CERTIFICATE [--workers N] [--input FILE] [--on FILE]`
fn threads_command<'a>(alloc: Global) -> Result<Command<'a>, AllocError>
    ensures { IfOk result (λ c. HasShape c threads_app) }
{
    let program = needing(alloc, Ok(named(alloc, "threads")), "program");
    let workers = taking(alloc, needing(alloc, program, "certificate"), "workers");
    let input = taking(alloc, workers, "input");
    taking(alloc, input, "on")
}

// The command line as clap reads it.
fn command<'a>(alloc: Global) -> Result<Command<'a>, AllocError>
    ensures { IfOk result (λ c. HasShape c parallel_app) }
{
    with(empty(alloc), threads_command(alloc), THREADS)
}

/// Returns the paths of the program and of the certificate in the matches.
pub(crate) fn two_paths<'a>(matches: &ArgMatches<'a>) -> Option<(&'a str, &'a str)>
    ensures { option_map texts_view result ≡ texts_in (rows_of (found_of matches.now)) }
{
    let program = matches.get_str("program")?;
    let certificate = matches.get_str("certificate")?;
    Some((program, certificate))
}

// The order of the matches of `threads`.
fn threads_order<'a>(threads: &ArgMatches<'a>) -> Option<Order<'a>>
    ensures { option_map order_view result ≡ threads_with (rows_of (found_of threads.now)) }
{
    let (program, certificate) = two_paths(threads)?;
    let word = threads.get_str("workers");
    let workers = workers_in(word)?;
    let input = threads.get_str("input");
    let on = threads.get_str("on");
    Some(Order {
        program,
        certificate,
        workers,
        input,
        on,
    })
}

// The order of the matches.
fn order_of<'a>(matches: &ArgMatches<'a>) -> Option<Order<'a>>
    ensures { option_map order_view result ≡ order_by (subcommand_rows_of matches.now) }
{
    match matches.subcommand() {
        Some(("threads", threads)) => threads_order(threads),
        _ => None,
    }
}

/// Reads the words after the program's name.
pub fn read<'a>(alloc: Global, words: &'a [&'a str]) -> Result<Order<'a>, WordsFault>
    ensures order { IfOk result (λ o. order_in (texts words.now) ≡ Some (order_view o)) }
    ensures fault { IfErr result (λ e. IsWordsFault (texts words.now) e) }
{
    match command(alloc)?.try_get_matches_from(words) {
        Ok(matches) => match order_of(&matches) {
            Some(order) => Ok(order),
            None => Err(no_order(alloc, NO_ORDER)),
        },
        Err(error) => Err(refusal(alloc, &error)),
    }
}

//! The words of a command line.
//!
//! Without words, a program text is read from standard input and run. Otherwise `clap` reads the
//! words: a command and its arguments.

ghost use Rattle.std.specs.Prelude.{◌≡◌, ℕ, option_map, IfOk, IfErr, Some};
ghost use Rattle.clap.specs.Words.{App, found_of, kind_of, new_app, rows_of, subcommand_rows_of, with_rule, with_subcommand};
ghost use Rattle.cilk_messages.specs.Words.{HasShape, is_set, program_app, check_app, cilk_app, empty_app, judge_app, flagged, judge_with, manner_in, order_in, order_by, paths_in, paths_view, play_app, play_with, needed, run_with, certify_with, check_with, settle_with, IsWordsFault, order_view, IsRefusal, taken, texts, worker_count, workers_in};

use cilk_syntax::lexer::{all_digits, value_of};
use cilk_types::limits::MAX_WORKERS;
use clap::error::ErrorKind;
use clap::{Arg, ArgAction, ArgMatches, Command, Error};
use std::alloc::{AllocError, Global};

/// The number of workers of a script, unless the words name another.
pub const WORKERS: u32 = 2;

// The message for words that clap matches though they are no order.
pub(crate) const NO_ORDER: &str = "error: the number of workers is 1 to 64\n";

// The help texts of the commands.
const RUN: &str = "Run a program serially";

const CERTIFY: &str = "Write the certificate of a program's serial run";

const CHECK: &str = "Check a certificate, and whether the run that it is of has a race";

const PLAY: &str = "Run a program in parallel, step by step, by a script";

const SETTLE: &str = "Run a program serially, and tell whether any schedule can change its outcome";

const JUDGE: &str = "Tell whether a recorded run of a C or C++ program has a race";

/// The origin of a program text.
#[derive(Clone, Copy)]
pub enum Origin<'a> {
    /// Standard input.
    Standard,
    /// The file of a path.
    File(&'a str),
}

/// How a script is played.
#[derive(Clone, Copy)]
pub struct Manner {
    /// The number of workers.
    pub workers: u32,
    /// Whether the first choice that can't be made ends the script. Else such choices are skipped.
    pub is_strict: bool,
}

/// The order that the words give.
#[derive(Clone, Copy)]
pub enum Order<'a> {
    /// Run a program, on the input of a file or on the empty input.
    Run {
        program: Origin<'a>,
        input: Option<&'a str>,
    },
    /// Show the certificate of a program's run, on the input of a file or on the empty input.
    Certify {
        program: &'a str,
        input: Option<&'a str>,
    },
    /// Check a certificate of a program's run, on the input of a file or on the empty input.
    Check {
        program: &'a str,
        certificate: &'a str,
        input: Option<&'a str>,
    },
    /// Play a script in this manner, on the input of a file or on the empty input.
    Play {
        program: &'a str,
        script: &'a str,
        manner: Manner,
        input: Option<&'a str>,
    },
    /// Tell whether a program's run has a race, on the input of a file or on the empty input.
    Settle {
        program: &'a str,
        input: Option<&'a str>,
    },
    /// Tell whether the run of a trace has a race. An explanation names places by a table of sites.
    Judge {
        trace: &'a str,
        sites: Option<&'a str>,
    },
}

/// The reason why words are no order.
#[derive(Drop)]
pub enum WordsFault {
    /// A usage error, or a call for help: clap's own text.
    Usage(String),
    Memory,
}

impl From<AllocError> for WordsFault {
    ghost use Rattle.cilk_messages.specs.declared.words.WordsFault.TheVariants.{Memory};

    ghost from_gives = { λ _ e. e ≡ Memory };

    fn from(_: AllocError) -> WordsFault {
        WordsFault::Memory
    }
}

// A command of this name, without words of its own.
pub(crate) fn named<'a>(alloc: Global, name: &'a str) -> Command<'a>
    ensures { HasShape result (new_app name.entry.now) }
{
    Command::new(alloc, name)
}

// Adds an argument that has to be given. This and what follows take a command as a result, so that
// a failure leaves one value to drop.
pub(crate) fn needing<'a>(
    alloc: Global,
    command: Result<Command<'a>, AllocError>,
    name: &'a str,
) -> Result<Command<'a>, AllocError>
    ensures { (a : App) → IfOk command.entry (λ c. HasShape c a) → IfOk result (λ c. HasShape c (with_rule a (needed name.entry.now))) }
{
    match command {
        Ok(command) => command.arg(Arg::new(alloc, name).required(true)),
        Err(error) => Err(error),
    }
}

// Adds an option `--NAME VALUE`.
pub(crate) fn taking<'a>(
    alloc: Global,
    command: Result<Command<'a>, AllocError>,
    name: &'a str,
) -> Result<Command<'a>, AllocError>
    ensures { (a : App) → IfOk command.entry (λ c. HasShape c a) → IfOk result (λ c. HasShape c (with_rule a (taken name.entry.now))) }
{
    match command {
        Ok(command) => command.arg(Arg::new(alloc, name).long(name).action(ArgAction::Set)),
        Err(error) => Err(error),
    }
}

// Adds a flag `--NAME`.
fn flagging<'a>(
    alloc: Global,
    command: Result<Command<'a>, AllocError>,
    name: &'a str,
) -> Result<Command<'a>, AllocError>
    ensures { (a : App) → IfOk command.entry (λ c. HasShape c a) → IfOk result (λ c. HasShape c (with_rule a (flagged name.entry.now))) }
{
    match command {
        Ok(command) => command.arg(Arg::new(alloc, name).long(name).action(ArgAction::SetTrue)),
        Err(error) => Err(error),
    }
}

// `NAME PROGRAM [--input FILE]`
fn program_command<'a>(alloc: Global, name: &'a str) -> Result<Command<'a>, AllocError>
    ensures { IfOk result (λ c. HasShape c (program_app name.entry.now)) }
{
    let program = needing(alloc, Ok(named(alloc, name)), "program");
    taking(alloc, program, "input")
}

// `check PROGRAM CERTIFICATE [--input FILE]`
pub(crate) fn check_command<'a>(alloc: Global) -> Result<Command<'a>, AllocError>
    ensures { IfOk result (λ c. HasShape c check_app) }
{
    let program = needing(alloc, Ok(named(alloc, "check")), "program");
    taking(alloc, needing(alloc, program, "certificate"), "input")
}

// `play PROGRAM SCRIPT [--workers N] [--input FILE] [--strict]`
fn play_command<'a>(alloc: Global) -> Result<Command<'a>, AllocError>
    ensures { IfOk result (λ c. HasShape c play_app) }
{
    let program = needing(alloc, Ok(named(alloc, "play")), "program");
    let workers = taking(alloc, needing(alloc, program, "script"), "workers");
    flagging(alloc, taking(alloc, workers, "input"), "strict")
}

// `judge TRACE [--sites FILE]`
fn judge_command<'a>(alloc: Global) -> Result<Command<'a>, AllocError>
    ensures { IfOk result (λ c. HasShape c judge_app) }
{
    let trace = needing(alloc, Ok(named(alloc, "judge")), "trace");
    taking(alloc, trace, "sites")
}

/// Adds a command with its help text.
///
/// It takes both as results, so that the caller has nothing to drop.
pub fn with<'a>(
    app: Result<Command<'a>, AllocError>,
    command: Result<Command<'a>, AllocError>,
    about: &'a str,
) -> Result<Command<'a>, AllocError>
    ensures { (a b : App) → IfOk app.entry (λ c. HasShape c a) → IfOk command.entry (λ c. HasShape c b)
        → IfOk result (λ r. HasShape r (with_subcommand a b.top)) }
{
    let described = command?.about(about);
    app?.subcommand(described)
}

/// Returns the program without commands.
pub fn empty<'a>(alloc: Global) -> Result<Command<'a>, AllocError>
    ensures { IfOk result (λ c. HasShape c empty_app) }
{
    Command::new(alloc, "cilk")
        .no_binary_name(true)
        .subcommand_required(true)
        .bin_name("cilk")
}

// The program with all commands.
fn command<'a>(alloc: Global) -> Result<Command<'a>, AllocError>
    ensures { IfOk result (λ c. HasShape c cilk_app) }
{
    let one = with(empty(alloc), program_command(alloc, "run"), RUN);
    let two = with(one, program_command(alloc, "certify"), CERTIFY);
    let three = with(two, check_command(alloc), CHECK);
    let four = with(three, play_command(alloc), PLAY);
    let five = with(four, program_command(alloc, "settle"), SETTLE);
    with(five, judge_command(alloc), JUDGE)
}

// The paths of the program and of the input in a command's matches.
fn paths<'a>(matches: &ArgMatches<'a>) -> Option<(&'a str, Option<&'a str>)>
    ensures { option_map paths_view result ≡ paths_in (rows_of (found_of matches.now)) }
{
    let input = matches.get_str("input");
    match matches.get_str("program") {
        Some(program) => Some((program, input)),
        None => None,
    }
}

// The order of `run` with these matches.
fn run_order<'a>(run: &ArgMatches<'a>) -> Option<Order<'a>>
    ensures { option_map order_view result ≡ run_with (rows_of (found_of run.now)) }
{
    match paths(run) {
        Some((program, input)) => Some(Order::Run {
            program: Origin::File(program),
            input,
        }),
        None => None,
    }
}

// The order of `certify` with these matches.
fn certify_order<'a>(certify: &ArgMatches<'a>) -> Option<Order<'a>>
    ensures { option_map order_view result ≡ certify_with (rows_of (found_of certify.now)) }
{
    match paths(certify) {
        Some((program, input)) => Some(Order::Certify { program, input }),
        None => None,
    }
}

// The order of `check` with these matches.
fn check_order<'a>(check: &ArgMatches<'a>) -> Option<Order<'a>>
    ensures { option_map order_view result ≡ check_with (rows_of (found_of check.now)) }
{
    let certificate = check.get_str("certificate")?;
    match paths(check) {
        Some((program, input)) => Some(Order::Check {
            program,
            certificate,
            input,
        }),
        None => None,
    }
}

// The number that digits name, if it is from 1 to 64.
fn worker_count(digits: &[u8]) -> Option<u32>
    ensures { result ≡ worker_count digits.now }
{
    if !all_digits(digits) {
        return None;
    }
    match value_of(digits) {
        Some(count) if count >= 1 && count <= MAX_WORKERS as u64 => Some(count as u32),
        _ => None,
    }
}

/// Returns the number of workers that a word names, the default without one, or `None` for a wrong
/// one.
pub fn workers_in(word: Option<&str>) -> Option<u32>
    ensures { result ≡ workers_in (option_map (λ w. w.now) word.entry) }
{
    match word {
        Some(digits) => worker_count(digits.as_bytes()),
        None => Some(WORKERS),
    }
}

// Whether a flag is set: clap gives it the value `true` or `false`.
fn is_set(value: Option<&str>) -> bool
    ensures { result ≡ is_set (option_map (λ v. v.now) value.entry) }
{
    match value {
        Some(value) => value == "true",
        None => false,
    }
}

// How these matches of `play` say that the script is played.
fn manner_in(play: &ArgMatches<'_>) -> Option<Manner>
    ensures { result ≡ manner_in (rows_of (found_of play.now)) }
{
    let flag = play.get_str("strict");
    let is_strict = is_set(flag);
    let word = play.get_str("workers");
    match workers_in(word) {
        Some(workers) => Some(Manner { workers, is_strict }),
        None => None,
    }
}

// The order of `play` with these matches.
fn play_order<'a>(play: &ArgMatches<'a>) -> Option<Order<'a>>
    ensures { option_map order_view result ≡ play_with (rows_of (found_of play.now)) }
{
    let script = play.get_str("script")?;
    let (program, input) = paths(play)?;
    match manner_in(play) {
        Some(manner) => Some(Order::Play {
            program,
            script,
            manner,
            input,
        }),
        None => None,
    }
}

// The order of `settle` with these matches.
fn settle_order<'a>(settle: &ArgMatches<'a>) -> Option<Order<'a>>
    ensures { option_map order_view result ≡ settle_with (rows_of (found_of settle.now)) }
{
    match paths(settle) {
        Some((program, input)) => Some(Order::Settle { program, input }),
        None => None,
    }
}

// The order of `judge` with these matches.
fn judge_order<'a>(judge: &ArgMatches<'a>) -> Option<Order<'a>>
    ensures { option_map order_view result ≡ judge_with (rows_of (found_of judge.now)) }
{
    let sites = judge.get_str("sites");
    match judge.get_str("trace") {
        Some(trace) => Some(Order::Judge { trace, sites }),
        None => None,
    }
}

// The order of the matches.
fn order_of<'a>(matches: &ArgMatches<'a>) -> Option<Order<'a>>
    ensures { option_map order_view result ≡ order_by (subcommand_rows_of matches.now) }
{
    let (name, found) = matches.subcommand()?;
    match name {
        "run" => run_order(found),
        "certify" => certify_order(found),
        "check" => check_order(found),
        "play" => play_order(found),
        "settle" => settle_order(found),
        "judge" => judge_order(found),
        _ => None,
    }
}

/// Returns the fault for an error of clap's.
pub fn refusal(alloc: Global, error: &Error) -> WordsFault
    ensures { IsRefusal (kind_of error.now) result }
{
    match error.kind() {
        ErrorKind::OutOfMemory => WordsFault::Memory,
        _ => match format!(in alloc; "{error}") {
            Ok(text) => WordsFault::Usage(text),
            Err(_) => WordsFault::Memory,
        },
    }
}

/// Returns the fault for words that clap matches though they are no order, with its message.
pub(crate) fn no_order(alloc: Global, message: &str) -> WordsFault {
    match String::from_str(alloc, message) {
        Ok(text) => WordsFault::Usage(text),
        Err(_) => WordsFault::Memory,
    }
}

/// Reads the words after the program's own name as an order.
pub fn read<'a>(alloc: Global, words: &'a [&'a str]) -> Result<Order<'a>, WordsFault>
    ensures order { IfOk result (λ o. order_in (texts words.now) ≡ Some (order_view o)) }
    ensures fault { IfErr result (λ e. IsWordsFault (texts words.now) e) }
{
    if words.is_empty() {
        return Ok(Order::Run {
            program: Origin::Standard,
            input: None,
        });
    }
    match command(alloc)?.try_get_matches_from(words) {
        Ok(matches) => match order_of(&matches) {
            Some(order) => Ok(order),
            None => Err(no_order(alloc, NO_ORDER)),
        },
        Err(error) => Err(refusal(alloc, &error)),
    }
}

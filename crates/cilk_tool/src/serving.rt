//! From a command line to its reply.

ghost use Rattle.std.specs.Prelude.{◌≡◌, ◌≢◌, ◌+◌, ◌<◌, ◌≤◌, ◌++◌, [], IfOk, None, OnOk, flat_map, length};
ghost use Rattle.cilk_messages.specs.Asked.{unflagged};
ghost use Rattle.cilk_commands.specs.Replies.{Refused, Reply, failure_view, place_text, refused_line};
ghost use Rattle.cilk_commands.specs.Serving.{IsOrNoMemory, Shows, WordsFail};
ghost use Rattle.cilk_commands.specs.Streams.{TakesAtMost};
ghost use Rattle.cilk_commands.specs.declared.streams.TheConstants.{MAX_READ};
ghost use Rattle.cilk_messages.specs.Words.{texts};
ghost use Rattle.cilk_tool.specs.Endings.{ending_view, place_of};
ghost use Rattle.cilk_tool.specs.Serving.{IsThreadsReply, ServesParallel, ThreadsThenExplains, is_threads};
ghost use Rattle.cilk_messages.specs.ThreadsWords.{order_in};

use crate::check_serving::serve_check;
use crate::running::{Ending, carry_out};
use crate::stats::{Tally, Watch};
use cilk_commands::reply::{Failure, REFUSED, WRONG};
use cilk_commands::streams::send;
use cilk_commands::{CountedRead, Served, complain, show, tell};
use cilk_messages::check_words::is_helped;
use cilk_messages::threads_words::read;
use cilk_messages::words::WordsFault;
use cilk_report::{Keeps, asks, follow, is_help, serve_explained, unflagged};
use cilk_types::event::Pos;
use cilk_workers::gate::Open;
use itoa::Buffer;
use std::alloc::{AllocError, Global};
use std::io::Write;
use std::sync::Wait;
use std::thread::Threads;
use std::time::Clock;

/// The refusal for a number of workers that isn't 1 to 64.
pub const NO_POOL: u32 = 501;

/// The refusal of an input that departs from the plan of the certified run.
pub const DEPARTED: u32 = 502;

// Follows the error of a command line that isn't valid.
const HINT: &str = "\nhint: `cilk help threads` describes `threads` and its options\n";

/// The threads and the memory that a call may use.
#[derive(Drop)]
pub struct System<'a, H> {
    pub rt: &'a H,
    pub alloc: Global,
}

/// Serves the words after the program's name and returns the exit status. `threads` runs an
/// accepted program by workers on threads, and `check` with `--helpers` checks a certificate by
/// helpers on threads. Both wait for their threads. Other command lines are served by
/// [`cilk_report::serve_explained`]. Standard input is read only if there are no words but those
/// that add a text.
#[tactic(auto, using(cilk_commands::proofs::Reading::takes_same))]
pub fn serve<H: Threads + Wait + Clock + Sync, F: Keeps, R: CountedRead, O: Write, E: Write>(
    rt: &H,
    alloc: Global,
    words: &[&str],
    files: &mut F,
    input: &mut R,
    out: &mut O,
    err: &mut E,
) -> u8
    requires { (F.failed files.old).count < 18446744073709551615 }
    ensures shown { ServesParallel (texts words.now) (F.holds files.old) (R.remaining input.old) (F.failed files.old) (F.failed files.new)
        result (O.contents out.old) (O.contents out.new) (E.contents err.old) (E.contents err.new) }
    ensures untouched { unflagged (texts words.now) ≢ [] → input.new ≡ input.old }
    ensures most { TakesAtMost MAX_READ (R.remaining input.old) (R.remaining input.new) }
    ensures few { R.reads input.new ≤ R.reads input.old + MAX_READ }
{
    if is_threads(words) {
        serve_threads(rt, alloc, words, files, input, out, err)
    } else if is_helped(words) {
        serve_check(rt, alloc, words, files, input, out, err)
    } else {
        serve_explained(alloc, words, files, input, out, err)
    }
}

/// Returns whether the first word is `threads` and more follows than one request for help.
fn is_threads(words: &[&str]) -> bool
    ensures { result ≡ is_threads (texts words.now) }
{
    match words {
        [first, behind @ ..] => *first == "threads" && !is_help(behind),
        [] => false,
    }
}

/// Serves `threads`.
fn serve_threads<H: Threads + Wait + Clock + Sync, F: Keeps, R: CountedRead, O: Write, E: Write>(
    rt: &H,
    alloc: Global,
    words: &[&str],
    files: &mut F,
    input: &mut R,
    out: &mut O,
    err: &mut E,
) -> u8
    requires { (F.failed files.old).count < 18446744073709551615 }
    ensures served { IsThreadsReply (texts words.now) (F.holds files.old) (R.remaining input.old) (F.failed files.old) (F.failed files.new)
        result (O.contents out.old) (O.contents out.new) (E.contents err.old) (E.contents err.new) }
    ensures explained { order_in (texts words.now) ≡ None → length (unflagged (texts words.now)) < length (texts words.now)
        → ThreadsThenExplains (unflagged (texts words.now)) (F.holds files.old) (R.remaining input.old) (F.failed files.old) (F.failed files.new)
        result (O.contents out.old) (O.contents out.new) (E.contents err.old) (E.contents err.new) }
    ensures untouched { input.new ≡ input.old }
{
    match read(alloc, words) {
        Ok(order) => match carry_out(rt, alloc, &order, &Open, files, input) {
            Ok(ending) => show_ending(alloc, &ending, out, err).status,
            Err(failure) => complain(alloc, &failure, err).status,
        },
        Err(WordsFault::Usage(usage)) => {
            files.keep();
            serve_unread(&System { rt, alloc }, words, usage, files, input, out, err)
        }
        Err(WordsFault::Memory) => complain(alloc, &Failure::Memory, err).status,
    }
}

/// Serves a command line that can't be read as it is. If `--explain` or `--stats` is among the words,
/// the others are served.
fn serve_unread<H: Threads + Wait + Clock + Sync, F: Keeps, R: CountedRead, O: Write, E: Write>(
    system: &System<'_, H>,
    words: &[&str],
    usage: String,
    files: &mut F,
    input: &mut R,
    out: &mut O,
    err: &mut E,
) -> u8
    requires room { (F.failed files.old).count < 18446744073709551615 }
    requires unread { order_in (texts words.now) ≡ None }
    ensures served { IsThreadsReply (texts words.now) (F.holds files.old) (R.remaining input.old) (F.failed files.old) (F.failed files.new)
        result (O.contents out.old) (O.contents out.new) (E.contents err.old) (E.contents err.new) }
    ensures explained { length (unflagged (texts words.now)) < length (texts words.now)
        → ThreadsThenExplains (unflagged (texts words.now)) (F.holds files.old) (R.remaining input.old) (F.failed files.old) (F.failed files.new)
        result (O.contents out.old) (O.contents out.new) (E.contents err.old) (E.contents err.new) }
    ensures untouched { input.new ≡ input.old }
{
    match unflagged(system.alloc, words) {
        Ok(plain) if plain.len() < words.len() => {
            serve_flagged(system, words, plain.as_slice(), files, input, out, err)
        }
        Ok(_) => complain(system.alloc, &advised(usage), err).status,
        Err(_) => complain(system.alloc, &Failure::Memory, err).status,
    }
}

/// Serves `threads` by the words without those that add a text, then adds it.
fn serve_flagged<H: Threads + Wait + Clock + Sync, F: Keeps, R: CountedRead, O: Write, E: Write>(
    system: &System<'_, H>,
    words: &[&str],
    plain: &[&str],
    files: &mut F,
    input: &mut R,
    out: &mut O,
    err: &mut E,
) -> u8
    requires { (F.failed files.old).count < 18446744073709551615 }
    ensures shown { ThreadsThenExplains (texts plain.now) (F.holds files.old) (R.remaining input.old) (F.failed files.old) (F.failed files.new)
        result (O.contents out.old) (O.contents out.new) (E.contents err.old) (E.contents err.new) }
    ensures untouched { input.new ≡ input.old }
{
    if !asks(words, "--stats") {
        return serve_watched(system, plain, &Open, files, input, out, err);
    }
    match Tally::new(system.rt, system.alloc, asks(words, "--explain")) {
        Ok(tally) => serve_watched(system, plain, &tally, files, input, out, err),
        Err(_) => complain(system.alloc, &Failure::Memory, err).status,
    }
}

/// Serves `threads`, then adds what is known of the run.
fn serve_watched<H: Threads + Wait + Sync, W: Watch, F: Keeps, R: CountedRead, O: Write, E: Write>(
    system: &System<'_, H>,
    words: &[&str],
    watch: &W,
    files: &mut F,
    input: &mut R,
    out: &mut O,
    err: &mut E,
) -> u8
    requires { (F.failed files.old).count < 18446744073709551615 }
    ensures shown { ThreadsThenExplains (texts words.now) (F.holds files.old) (R.remaining input.old) (F.failed files.old) (F.failed files.new)
        result (O.contents out.old) (O.contents out.new) (E.contents err.old) (E.contents err.new) }
    ensures untouched { input.new ≡ input.old }
{
    match read(system.alloc, words) {
        Ok(order) => match carry_out(system.rt, system.alloc, &order, watch, files, input) {
            Ok(ending) => {
                let served = show_ending(system.alloc, &ending, out, err);
                follow(
                    served,
                    watch.behind_ending(system.alloc, &order, &ending, files.kept()),
                    err,
                )
            }
            Err(failure) => {
                let served = complain(system.alloc, &failure, err);
                follow(
                    served,
                    watch.behind_fault(system.alloc, &order, &failure, files.kept()),
                    err,
                )
            }
        },
        Err(WordsFault::Usage(usage)) => complain(system.alloc, &advised(usage), err).status,
        Err(WordsFault::Memory) => complain(system.alloc, &Failure::Memory, err).status,
    }
}

/// Returns the failure for a command line that isn't valid: the error and a hint.
fn advised<'a>(usage: String) -> Failure<'a>
    ensures { WordsFail (failure_view result) }
{
    let mut text = usage;
    match text.push_str(HINT) {
        Ok(()) => Failure::Words(text),
        Err(_) => Failure::Memory,
    }
}

/// Shows the end of the command.
fn show_ending<O: Write, E: Write>(
    alloc: Global,
    ending: &Ending,
    out: &mut O,
    err: &mut E,
) -> Served
    ensures { (r : Reply) × IsOrNoMemory (ending_view ending.now) r × Shows r result.status result.told
        (O.contents out.old) (O.contents out.new) (E.contents err.old) (E.contents err.new) }
{
    match ending {
        Ending::Answer(answer) => show(alloc, answer, out, err),
        Ending::Workers => show_refusal(alloc, NO_POOL, None, out, err),
        Ending::Departed(at) => show_refusal(alloc, DEPARTED, Some(*at), out, err),
    }
}

/// Shows a refusal by its number, and by its place if it has one.
fn show_refusal<O: Write, E: Write>(
    alloc: Global,
    number: u32,
    place: Option<Pos>,
    out: &mut O,
    err: &mut E,
) -> Served
    ensures { (r : Reply) × IsOrNoMemory (Refused number (place_of place)) r × Shows r result.status result.told
        (O.contents out.old) (O.contents out.new) (E.contents err.old) (E.contents err.new) }
{
    match line(alloc, number, place) {
        Ok(text) if send(out, text.as_slice()) => Served {
            status: REFUSED,
            told: true,
        },
        Ok(_) => Served {
            told: tell(err, b"cannot write\n"),
            status: WRONG,
        },
        Err(_) => complain(alloc, &Failure::Memory, err),
    }
}

/// Returns the line `refused N` or `refused N PLACE`.
fn line(alloc: Global, number: u32, place: Option<Pos>) -> Result<Vec<u8>, AllocError>
    ensures { IfOk result (λ text. text.items ≡ refused_line number (place_of place)) }
{
    let mut buffer = Buffer::new();
    let mut text = Vec::from_slice(alloc, b"refused ")?;
    text.extend_from_slice(buffer.format(number).as_bytes())?;
    push_place(&mut text, place)?;
    text.push(b'\n')?;
    Ok(text)
}

/// Adds a space and a place, if there is one.
fn push_place(text: &mut Vec<u8>, place: Option<Pos>) -> Result<(), AllocError>
    ensures { OnOk result (text.new.items ≡ text.old.items ++ flat_map place_text (place_of place)) }
{
    let Some(at) = place else {
        return Ok(());
    };
    let mut buffer = Buffer::new();
    text.push(b' ')?;
    text.extend_from_slice(buffer.format(at).as_bytes())
}

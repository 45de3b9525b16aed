//! From a command line of `check` with `--helpers` to its reply.

ghost use Rattle.std.specs.Prelude.{◌≡◌, ◌<◌, None, length};
ghost use Rattle.cilk_messages.specs.Asked.{unflagged};
ghost use Rattle.cilk_commands.specs.Replies.{failure_view};
ghost use Rattle.cilk_commands.specs.Serving.{WordsFail, world};
ghost use Rattle.cilk_messages.specs.Words.{texts};
ghost use Rattle.cilk_messages.specs.CheckWords.{check_in};
ghost use Rattle.cilk_tool.specs.Helped.{HelpedThenExplains, IsHelpedReply};

use crate::helping::check_by_helpers;
use crate::serving::System;
use cilk_commands::reply::Failure;
use cilk_commands::{CountedRead, complain, show};
use cilk_messages::check_words::read_check;
use cilk_messages::words::WordsFault;
use cilk_report::{Keeps, follow, of_answer, of_failure, unflagged};
use std::alloc::Global;
use std::io::Write;
use std::thread::Threads;

// Follows the error of a command line that isn't valid.
const HINT: &str = "\nhint: `cilk help check` describes `check` and its options\n";

/// Serves `check` with `--helpers`, and waits for the helpers.
pub fn serve_check<H: Threads + Sync, F: Keeps, R: CountedRead, O: Write, E: Write>(
    rt: &H,
    alloc: Global,
    words: &[&str],
    files: &mut F,
    input: &mut R,
    out: &mut O,
    err: &mut E,
) -> u8
    requires { (F.failed files.old).count < 18446744073709551615 }
    ensures served { IsHelpedReply (texts words.now) (world (F.holds files.old) (R.remaining input.old) (F.failed files.old) (F.failed files.new))
        result (O.contents out.old) (O.contents out.new) (E.contents err.old) (E.contents err.new) }
    ensures explained { check_in (texts words.now) ≡ None → length (unflagged (texts words.now)) < length (texts words.now)
        → HelpedThenExplains (unflagged (texts words.now)) (world (F.holds files.old) (R.remaining input.old) (F.failed files.old) (F.failed files.new))
        result (O.contents out.old) (O.contents out.new) (E.contents err.old) (E.contents err.new) }
    ensures untouched { input.new ≡ input.old }
{
    match read_check(alloc, words) {
        Ok(order) => match check_by_helpers(rt, alloc, &order, files, input) {
            Ok(answer) => show(alloc, &answer, out, err).status,
            Err(failure) => complain(alloc, &failure, err).status,
        },
        Err(WordsFault::Usage(usage)) => {
            files.keep();
            serve_unread(&System { rt, alloc }, words, usage, files, input, out, err)
        }
        Err(WordsFault::Memory) => complain(alloc, &Failure::Memory, err).status,
    }
}

/// Serves a command line that can't be read as it is. If `--explain` is among the words, the others
/// are served.
fn serve_unread<H: Threads + Sync, F: Keeps, R: CountedRead, O: Write, E: Write>(
    system: &System<'_, H>,
    words: &[&str],
    usage: String,
    files: &mut F,
    input: &mut R,
    out: &mut O,
    err: &mut E,
) -> u8
    requires room { (F.failed files.old).count < 18446744073709551615 }
    requires unread { check_in (texts words.now) ≡ None }
    ensures served { IsHelpedReply (texts words.now) (world (F.holds files.old) (R.remaining input.old) (F.failed files.old) (F.failed files.new))
        result (O.contents out.old) (O.contents out.new) (E.contents err.old) (E.contents err.new) }
    ensures explained { length (unflagged (texts words.now)) < length (texts words.now)
        → HelpedThenExplains (unflagged (texts words.now)) (world (F.holds files.old) (R.remaining input.old) (F.failed files.old) (F.failed files.new))
        result (O.contents out.old) (O.contents out.new) (E.contents err.old) (E.contents err.new) }
    ensures untouched { input.new ≡ input.old }
{
    match unflagged(system.alloc, words) {
        Ok(plain) if plain.len() < words.len() => {
            serve_flagged(system, plain.as_slice(), files, input, out, err)
        }
        Ok(_) => complain(system.alloc, &advised(usage), err).status,
        Err(_) => complain(system.alloc, &Failure::Memory, err).status,
    }
}

/// Serves the command, then explains what was shown.
fn serve_flagged<H: Threads + Sync, F: Keeps, R: CountedRead, O: Write, E: Write>(
    system: &System<'_, H>,
    words: &[&str],
    files: &mut F,
    input: &mut R,
    out: &mut O,
    err: &mut E,
) -> u8
    requires { (F.failed files.old).count < 18446744073709551615 }
    ensures shown { HelpedThenExplains (texts words.now) (world (F.holds files.old) (R.remaining input.old) (F.failed files.old) (F.failed files.new))
        result (O.contents out.old) (O.contents out.new) (E.contents err.old) (E.contents err.new) }
    ensures untouched { input.new ≡ input.old }
{
    match read_check(system.alloc, words) {
        Ok(order) => match check_by_helpers(system.rt, system.alloc, &order, files, input) {
            Ok(answer) => {
                let served = show(system.alloc, &answer, out, err);
                follow(
                    served,
                    of_answer(system.alloc, &order.alone(), &answer, files.kept()),
                    err,
                )
            }
            Err(failure) => {
                let served = complain(system.alloc, &failure, err);
                follow(
                    served,
                    of_failure(system.alloc, &order.alone(), &failure, files.kept()),
                    err,
                )
            }
        },
        Err(WordsFault::Usage(usage)) => complain(system.alloc, &advised(usage), err).status,
        Err(WordsFault::Memory) => complain(system.alloc, &Failure::Memory, err).status,
    }
}

/// Returns the failure for a command line that isn't valid: the error and a hint.
fn advised<'a>(usage: String) -> Failure<'a>
    ensures { WordsFail (failure_view result) }
{
    let mut text = usage;
    match text.push_str(HINT) {
        Ok(()) => Failure::Words(text),
        Err(_) => Failure::Memory,
    }
}

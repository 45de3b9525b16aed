//! The command `settle` for several programs, for every input, or in a short form.

ghost use Rattle.std.specs.Prelude.{◌≡◌, ◌++◌, ◌<◌, ◌⊎◌, Bool, IfOk, IsFalse, IsTrue, Option, codes, option_map, string_bytes};
ghost use Rattle.std.specs.Io.KnownBytes.{Appends};
ghost use Rattle.cilk_commands.specs.Every.{claimed_text, line_behind, reply_view};
ghost use Rattle.cilk_commands.specs.Replies.{IsErrorText, NoMemory, Text, line, status_of};
ghost use Rattle.cilk_commands.specs.Serving.{SettleReply, ShowsError, Surroundings, world};
ghost use Rattle.cilk_commands.specs.Streams.{AppendsFront, AppendsPart};
ghost use Rattle.cilk_commands.specs.declared.reply.TheConstants.{NO_MEMORY};
ghost use Rattle.cilk_messages.specs.Words.{texts};
ghost use Rattle.cilk_report.specs.Explained.{Settles, explanation_text};
ghost use Rattle.cilk_report.specs.Settling.{Fails, IsClaimed, IsShown, IsTold, SettlesEach, Shows, state};
ghost use Rattle.cilk_report.specs.Silence.{Explains};
ghost use Rattle.cilk_messages.specs.Batches.{batch_view, heading};

use crate::Keeps;
use crate::colors::colored;
use crate::explaining::{answer_text, failure_text};
use crate::serving::missing;
use crate::totals::wrong_words;
use cilk_commands::every::{EveryReply, behind, settle_on_every, text_of};
use cilk_commands::reply::{Answer, Failure, NO_MEMORY, WRONG};
use cilk_commands::streams::send;
use cilk_commands::{CountedRead, complain, settle, tell};
use cilk_depends::told::push_places;
use cilk_findings::fault::CaseFault;
use cilk_messages::batch::{Batch, Form, batch_of, object, place_in, short};
use cilk_messages::claim::Claim;
use cilk_messages::positions::is_list;
use cilk_messages::words::Order;
use cilk_profile::Kept;
use std::alloc::{AllocError, Global};
use std::io::Write;

const USAGE: &str =
    ": `cilk settle PROGRAM.. [--input FILE] [--every [--fix LIST]] [--short | --json] [--explain]`\n\
    hint: `cilk help settle` describes `settle` and its options\n";

// What is wrong with words that name no programs to settle, and how they are used.
fn usage(alloc: Global, words: &[&str]) -> Result<String, AllocError> {
    let mut text = String::from_str(alloc, "error: ")?;
    push_wrong(&mut text, words)?;
    text.push_str(USAGE)?;
    Ok(text)
}

fn push_wrong(text: &mut String, words: &[&str]) -> Result<(), AllocError> {
    let (mut is_every, mut is_fixed, mut is_read, mut is_formed) = (false, false, false, false);
    let (mut wants_file, mut wants_list) = (false, false);
    for word in words.iter().skip(1) {
        if wants_list && !is_list(word) {
            return write!(text, "`{word}` is no list of positions such as 0,3..5");
        }
        if wants_file || wants_list {
            wants_file = false;
            wants_list = false;
            continue;
        }
        match *word {
            "--input" if is_read => return text.push_str("`--input` stands there twice"),
            "--fix" if is_fixed => return text.push_str("`--fix` stands there twice"),
            "--short" | "--json" if is_formed => {
                return text.push_str(
                    "`--short` and `--json` are two forms: one may be named, once",
                );
            }
            "--input" => {
                wants_file = true;
                is_read = true;
            }
            "--fix" => {
                wants_list = true;
                is_fixed = true;
            }
            "--short" | "--json" => is_formed = true,
            "--every" => is_every = true,
            "--explain" | "--color" => {}
            other if other.starts_with("--") => {
                return write!(text, "`settle` has no option `{other}` beside these words");
            }
            _ => {}
        }
    }
    text.push_str(if wants_file {
        "`--input` wants a file"
    } else if wants_list {
        "`--fix` wants a list of positions such as 0,3..5"
    } else if is_fixed && !is_every {
        "`--fix` goes with `--every` alone"
    } else {
        "these words name no programs to settle"
    })
}

/// Serves `settle` for several programs, for every input, or in a short form.
pub fn serve_settling<F: Keeps, R: CountedRead, O: Write, E: Write>(
    alloc: Global,
    words: &[&str],
    files: &mut F,
    input: &mut R,
    out: &mut O,
    err: &mut E,
) -> u8
    ensures shown { Settles (texts words.now) (F.holds files.old) (R.remaining input.old) (F.failed files.old) (F.failed files.new)
        result (O.contents out.old) (O.contents out.new) (E.contents err.old) (E.contents err.new) }
    ensures untouched { input.new ≡ input.old }
{
    match batch_of(alloc, words) {
        Ok(Some(batch)) => settle_each(alloc, &batch, files, input, out, err),
        Ok(None) => complain(alloc, &wrong_words(usage(alloc, words)), err).status,
        Err(_) => complain(alloc, &Failure::Memory, err).status,
    }
}

// Settles the programs in order, and returns the greatest status.
fn settle_each<F: Keeps, R: CountedRead, O: Write, E: Write>(
    alloc: Global,
    batch: &Batch<'_>,
    files: &mut F,
    input: &mut R,
    out: &mut O,
    err: &mut E,
) -> u8
    ensures shown { let b = batch_view batch.now in SettlesEach b.every b.form (F.holds files.old) (R.remaining input.old) b.input b.programs
        (state 0 (F.failed files.old) (O.contents out.old) (E.contents err.old)) (state result (F.failed files.new) (O.contents out.new) (E.contents err.new)) }
    ensures untouched { input.new ≡ input.old }
{
    let mut status = 0;
    let mut rest = batch.programs.as_slice();
    'each: while let [program, behind @ ..] = rest {
        let step = settle_one(alloc, program, batch, files, input, out, err);
        status = status.max(step.status);
        if !step.goes_on {
            return status;
        }
        rest = behind;
    }
    status
}

/// The status for one program, and whether the call continues.
#[derive(Clone, Copy)]
struct Step {
    status: u8,
    goes_on: bool,
}

// Settles a program, and shows the reply.
fn settle_one<F: Keeps, R: CountedRead, O: Write, E: Write>(
    alloc: Global,
    program: &str,
    batch: &Batch<'_>,
    files: &mut F,
    input: &mut R,
    out: &mut O,
    err: &mut E,
) -> Step
    ensures goes_on { IsTrue result.goes_on → let b = batch_view batch.now in Shows b.every b.form (world (F.holds files.old) (R.remaining input.old) (F.failed files.old) (F.failed files.new))
        program.now b.input result.status (O.contents out.old) (O.contents out.new) (E.contents err.old) (E.contents err.new) }
    ensures ends { IsFalse result.goes_on → let b = batch_view batch.now in Fails b.every b.form (world (F.holds files.old) (R.remaining input.old) (F.failed files.old) (F.failed files.new))
        program.now b.input result.status (O.contents out.old) (O.contents out.new) (E.contents err.old) (E.contents err.new) }
    ensures same { F.holds files.new ≡ F.holds files.old }
    ensures untouched { input.new ≡ input.old }
{
    if files.failures() == u64::MAX {
        return starved(alloc, err);
    }
    files.keep();
    let reply = reply_to(alloc, program, batch, files, input);
    show_reply(alloc, program, batch, &reply, files.kept(), out, err)
}

// The reply to a program, and what is claimed of other inputs where all are asked for.
fn reply_to<'a, F: Keeps, R: CountedRead>(
    alloc: Global,
    program: &'a str,
    batch: &Batch<'a>,
    files: &mut F,
    input: &mut R,
) -> EveryReply<'a>
    requires { (F.failed files.old).count < 18446744073709551615 }
    ensures reply { SettleReply (world (F.holds files.old) (R.remaining input.old) (F.failed files.old) (F.failed files.new))
        program.entry.now (let b = batch_view batch.now in b.input) (reply_view result.reply) }
    ensures claim { IsClaimed batch.now.every (world (F.holds files.old) (R.remaining input.old) (F.failed files.old) (F.failed files.new))
        program.entry.now (let b = batch_view batch.now in b.input) (reply_view result.reply) result.claim }
    ensures same { (p : Text) → F.holds files.new p ≡ F.holds files.old p }
    ensures untouched { input.new ≡ input.old }
{
    if batch.every {
        settle_on_every(alloc, program, batch.input, batch.fix, files, input)
    } else {
        EveryReply::of(alloc, settle(alloc, program, batch.input, files, input))
    }
}

// Shows a reply, unless it is out of memory.
fn show_reply<O: Write, E: Write>(
    alloc: Global,
    program: &str,
    batch: &Batch<'_>,
    reply: &EveryReply<'_>,
    kept: &Kept,
    out: &mut O,
    err: &mut E,
) -> Step
    ensures goes_on { IsTrue result.goes_on → (w : Surroundings) (i : Option Text) → SettleReply w program.now i (reply_view reply.now.reply)
        → IsClaimed batch.now.every w program.now i (reply_view reply.now.reply) reply.now.claim
        → Shows batch.now.every batch.now.form w program.now i result.status (O.contents out.old) (O.contents out.new) (E.contents err.old) (E.contents err.new) }
    ensures ends { IsFalse result.goes_on → (w : Surroundings) (i : Option Text) → SettleReply w program.now i (reply_view reply.now.reply)
        → IsClaimed batch.now.every w program.now i (reply_view reply.now.reply) reply.now.claim
        → Fails batch.now.every batch.now.form w program.now i result.status (O.contents out.old) (O.contents out.new) (E.contents err.old) (E.contents err.new) }
{
    let status = status_of(&reply.reply);
    if status == NO_MEMORY {
        return starved(alloc, err);
    }
    match shown(alloc, program, batch, reply, kept) {
        Ok(texts) => write_texts(&texts, status, out, err),
        Err(_) => starved(alloc, err),
    }
}

fn status_of(reply: &Result<Answer, Failure<'_>>) -> u8
    ensures { result ≡ status_of (reply_view reply.now) }
{
    match reply {
        Ok(answer) => answer.status(),
        Err(failure) => failure.status(),
    }
}

// Out of memory: the call ends.
fn starved<E: Write>(alloc: Global, err: &mut E) -> Step
    ensures ends { IsFalse result.goes_on }
    ensures status { result.status ≡ NO_MEMORY }
    ensures told { (told : Bool) × ShowsError NoMemory told (E.contents err.old) (E.contents err.new) }
{
    let served = complain(alloc, &Failure::Memory, err);
    Step {
        status: served.status,
        goes_on: false,
    }
}

/// Texts for standard output and standard error.
struct Texts {
    out: Vec<u8>,
    err: Vec<u8>,
}

// Written out, so that a proof follows one call where texts are dropped.
impl Drop for Texts {
    fn drop(self) {
        let Texts {
            out: _out,
            err: _err,
        } = self;
    }
}

impl Texts {
    // The same with an explanation on standard error.
    fn with(self, explanation: &str) -> Result<Texts, AllocError>
        ensures out { IfOk result (λ all. all.out.items ≡ self.out.items) }
        ensures err { IfOk result (λ all. all.err.items ≡ self.err.items ++ explanation.now) }
    {
        let Texts { out, err } = self;
        let mut full = Texts { out, err };
        full.err.extend_from_slice(explanation.as_bytes())?;
        Ok(full)
    }

    // The text for standard output under a heading, and that for standard error with an explanation.
    fn full(self, alloc: Global, program: &str, explanation: &str) -> Result<Texts, AllocError>
        ensures out { IfOk result (λ all. all.out.items ≡ heading program.now ++ self.out.items) }
        ensures err { IfOk result (λ all. all.err.items ≡ self.err.items ++ explanation.now) }
    {
        let Texts { out: reply, err } = self;
        let mut full = Texts {
            out: Vec::new(alloc),
            err,
        };
        full.out.extend_from_slice(program.as_bytes())?;
        full.out.extend_from_slice(b":\n")?;
        full.out.extend_from_slice(reply.as_slice())?;
        full.err.extend_from_slice(explanation.as_bytes())?;
        Ok(full)
    }

    // Both as one text.
    fn whole(self) -> Result<Vec<u8>, AllocError>
        ensures { IfOk result (λ text. text.items ≡ self.out.items ++ self.err.items) }
    {
        let Texts { out, err } = self;
        let mut text = out;
        text.extend_from_slice(err.as_slice())?;
        Ok(text)
    }
}

// Writes the texts that show a reply with this status. The call ends if a write fails.
fn write_texts<O: Write, E: Write>(texts: &Texts, status: u8, out: &mut O, err: &mut E) -> Step
    ensures goes_on { IsTrue result.goes_on → (result.status ≡ status) × Appends (O.contents out.old) (O.contents out.new) texts.now.out.items
        × Appends (E.contents err.old) (E.contents err.new) texts.now.err.items }
    ensures ends { IsFalse result.goes_on → ((result.status ≡ 2) × AppendsPart (O.contents out.old) (O.contents out.new) texts.now.out.items
        × ((told : Bool) × AppendsFront told (E.contents err.old) (E.contents err.new) (line (codes "cannot write"))))
        ⊎ ((result.status ≡ status) × Appends (O.contents out.old) (O.contents out.new) texts.now.out.items
        × AppendsPart (E.contents err.old) (E.contents err.new) texts.now.err.items) }
{
    if !send(out, texts.out.as_slice()) {
        let _ = tell(err, b"cannot write\n");
        return Step {
            status: WRONG,
            goes_on: false,
        };
    }
    Step {
        status,
        goes_on: send(err, texts.err.as_slice()),
    }
}

// The texts that show a program's reply.
fn shown(
    alloc: Global,
    program: &str,
    batch: &Batch<'_>,
    reply: &EveryReply<'_>,
    kept: &Kept,
) -> Result<Texts, AllocError>
    ensures { IfOk result (λ texts. IsShown batch.now.every reply.now.claim batch.now.form program.now (reply_view reply.now.reply) texts.out.items texts.err.items) }
{
    let texts = texts_of(alloc, &reply.reply, reply.claim.as_ref())?;
    match batch.form {
        Form::Alone => {
            let explanation = explanation(alloc, program, batch, reply, kept)?;
            texts.with(explanation.as_str())
        }
        Form::Full => {
            let explanation = explanation(alloc, program, batch, reply, kept)?;
            texts.full(alloc, program, explanation.as_str())
        }
        Form::Short => {
            let line = short(alloc, program, texts.whole()?.as_slice())?;
            Ok(Texts {
                out: line,
                err: Vec::new(alloc),
            })
        }
        Form::Explained => {
            let line = short(alloc, program, texts.whole()?.as_slice())?;
            let explanation = explanation(alloc, program, batch, reply, kept)?;
            Ok(Texts {
                out: line,
                err: explanation.into_bytes(),
            })
        }
        Form::Json => {
            let whole = texts.whole()?;
            let explanation = explanation(alloc, program, batch, reply, kept)?;
            let told = explanation.as_str();
            let place = place_in(program, told);
            let line = object(
                alloc,
                program,
                status_of(&reply.reply),
                whole.as_slice(),
                told,
                reply.claim.as_ref(),
                place,
            )?;
            Ok(Texts {
                out: line,
                err: Vec::new(alloc),
            })
        }
    }
}

// The texts of a reply, given what is claimed of other inputs.
fn texts_of(
    alloc: Global,
    reply: &Result<Answer, Failure<'_>>,
    claim: Option<&Claim>,
) -> Result<Texts, AllocError>
    ensures { IfOk result (λ texts. (texts.out.items ≡ claimed_text (option_map (λ c. c.now) claim.entry) (reply_view reply.now)) × IsErrorText (reply_view reply.now) texts.err.items) }
{
    match reply {
        Ok(answer) => {
            let out = text_of(alloc, answer, claim)?;
            Ok(Texts {
                out,
                err: Vec::new(alloc),
            })
        }
        Err(failure) => {
            let err = failure.text(alloc)?;
            Ok(Texts {
                out: Vec::new(alloc),
                err,
            })
        }
    }
}

// The explanation of a reply, and which inputs have the same race or fault.
fn explanation(
    alloc: Global,
    program: &str,
    batch: &Batch<'_>,
    reply: &EveryReply<'_>,
    kept: &Kept,
) -> Result<String, AllocError>
    ensures { IfOk result (λ text. IsTold batch.now.every reply.now.claim (reply_view reply.now.reply) (string_bytes text)) }
{
    let told = told(alloc, program, batch, reply, kept)?;
    match &reply.claim {
        Some(claim) => with_claim(alloc, told, &reply.reply, claim),
        None => Ok(told),
    }
}

// An explanation, and which inputs have the same race or fault. A claim is text, so nothing else fails
// than memory.
fn with_claim(
    alloc: Global,
    explanation: String,
    reply: &Result<Answer, Failure<'_>>,
    claim: &Claim,
) -> Result<String, AllocError>
    ensures { IfOk result (λ text. string_bytes text ≡ string_bytes explanation ++ line_behind claim.now (reply_view reply.now)) }
{
    let line = behind(alloc, reply, claim)?;
    let Ok(line) = str::from_utf8(line.as_slice()) else {
        return Err(AllocError);
    };
    let mut text = explanation;
    text.push_str(line)?;
    Ok(text)
}

// The explanation of a reply, or a line why there is none. In JSON it has no colours.
fn told(
    alloc: Global,
    program: &str,
    batch: &Batch<'_>,
    reply: &EveryReply<'_>,
    kept: &Kept,
) -> Result<String, AllocError>
    ensures { IfOk result (λ text. IsFalse batch.now.every → Explains (reply_view reply.now.reply) (string_bytes text)) }
{
    if batch.every {
        return told_on_every(alloc, program, batch, reply, kept);
    }
    own(alloc, program, batch, &reply.reply, kept)
}

// The explanation of a reply, and where numbers decide.
fn told_on_every(
    alloc: Global,
    program: &str,
    batch: &Batch<'_>,
    reply: &EveryReply<'_>,
    kept: &Kept,
) -> Result<String, AllocError> {
    let order = Order::Settle {
        program,
        input: batch.input,
    };
    let mut text = match found(alloc, &order, &reply.reply, kept) {
        Ok(text) => text,
        Err(fault) => return String::from_str(alloc, missing(fault)),
    };
    if let Ok(source) = kept.text(0) {
        push_places(
            alloc,
            &mut text,
            program,
            source,
            reply.places.as_slice(),
            reply.numbers,
        )?;
    }
    push_alone(&mut text, batch, reply)?;
    if batch.form == Form::Json {
        return Ok(text);
    }
    colored(alloc, text, kept)
}

// Adds a line where no other input is meant.
fn push_alone(
    text: &mut String,
    batch: &Batch<'_>,
    reply: &EveryReply<'_>,
) -> Result<(), AllocError> {
    let count = reply.numbers;
    match &reply.claim {
        None if count > 0 => text.push_str("this holds of this input alone\n"),
        Some(_) if count == 0 => {
            text.push_str("no other input has 0 numbers: this holds of this input alone\n")
        }
        Some(claim) if claim.fixed.len() == count => text.push_str(if batch.fix.is_some() {
            "each number is fixed: this holds of this input alone\n"
        } else {
            "each number decides: this holds of this input alone\n"
        }),
        _ => Ok(()),
    }
}

// The explanation of a reply alone.
fn own(
    alloc: Global,
    program: &str,
    batch: &Batch<'_>,
    reply: &Result<Answer, Failure<'_>>,
    kept: &Kept,
) -> Result<String, AllocError>
    ensures { IfOk result (λ text. Explains (reply_view reply.now) (string_bytes text)) }
{
    let order = Order::Settle {
        program,
        input: batch.input,
    };
    match found(alloc, &order, reply, kept) {
        Ok(text) if batch.form == Form::Json => Ok(text),
        Ok(text) => colored(alloc, text, kept),
        Err(fault) => String::from_str(alloc, missing(fault)),
    }
}

// The explanation of a reply, without colours.
fn found(
    alloc: Global,
    order: &Order<'_>,
    reply: &Result<Answer, Failure<'_>>,
    kept: &Kept,
) -> Result<String, CaseFault>
    ensures { Explains (reply_view reply.now) (explanation_text result) }
{
    match reply {
        Ok(answer) => answer_text(alloc, order, answer, kept),
        Err(failure) => failure_text(alloc, order, failure, kept),
    }
}

//! `settle` for every input that agrees with a program's own at some positions.

ghost use Rattle.std.specs.Prelude.{◌≡◌, ◌+◌, ◌<◌, ◌≤◌, ℕ, ◌++◌, IfOk, IfSome, List, None, Some, option_map};
ghost use Rattle.cilk_checker.specs.Every.{IsVerdictOnEvery};
ghost use Rattle.cilk_checker.specs.Judging.{meant};
ghost use Rattle.cilk_commands.specs.Every.{ClaimReply, HoldsOnEvery, claimed_text, finding_view, fixed_from, line_behind, reply_view};
ghost use Rattle.cilk_commands.specs.Replies.{answer_view, line, out_text};
ghost use Rattle.cilk_commands.specs.Serving.{SettleReply, world};
ghost use Rattle.cilk_commands.specs.Shown.{SettleShows};
ghost use Rattle.cilk_commands.specs.Streams.{TakesAtMost};
ghost use Rattle.cilk_commands.specs.declared.streams.TheConstants.{MAX_READ};
ghost use Rattle.cilk_messages.specs.Claims.{every_text};
ghost use Rattle.cilk_oblivious.specs.Cursors.{hidden_of};
ghost use Rattle.cilk_program.specs.Sources.{source};

use crate::counted::CountedRead;
use crate::files::Files;
use crate::programs::{names, refusal};
use crate::render;
use crate::reply::{Answer, Failure};
use crate::running::given;
use cilk_checker::ending::{End, run_to_end};
use cilk_checker::every::{Every, Finding, settle_ended};
use cilk_depends::graph::Place;
use cilk_depends::search::{Found, Run, search};
use cilk_messages::claim::{Claim, push_every};
use cilk_messages::positions::flags_of;
use cilk_messages::words::Origin;
use cilk_program::program::Program;
use cilk_types::input::Input;
use cilk_types::trace::Trace;
use std::alloc::{AllocError, Global};

/// The reply to `settle`, what is claimed of other inputs, how many numbers the input has, and the places of
/// the text where numbers that no list names decide.
#[derive(Drop)]
pub struct EveryReply<'a> {
    pub reply: Result<Answer, Failure<'a>>,
    pub claim: Option<Claim>,
    pub numbers: usize,
    pub places: Vec<Place>,
}

impl<'a> EveryReply<'a> {
    /// A reply that says nothing of other inputs.
    pub fn of(alloc: Global, reply: Result<Answer, Failure<'a>>) -> Self
        ensures reply { reply_view result.reply ≡ reply_view reply.entry }
        ensures claim { result.claim ≡ None }
    {
        EveryReply {
            reply,
            claim: None,
            numbers: 0,
            places: Vec::new(alloc),
        }
    }
}

// The reply that a finding is.
fn found<'a>(
    alloc: Global,
    program: &Program,
    finding: Finding,
) -> Result<Result<Answer, Failure<'a>>, AllocError>
    ensures { IfOk result (λ reply. reply_view reply ≡ finding_view (let m = meant program.now in m.names) finding) }
{
    match finding {
        Finding::Settled(outcome) => {
            let names = names(alloc, program.reducers.as_slice())?;
            Ok(Ok(Answer::Settled { names, outcome }))
        }
        Finding::Race(first) => Ok(Ok(Answer::Refused(refusal(first)))),
        Finding::Fault { fault, at } => Ok(Err(Failure::Run {
            number: fault.number(),
            at,
        })),
    }
}

fn is_hidden(flags: &[bool], at: usize) -> bool
    ensures { result ≡ hidden_of flags.now at }
{
    match flags.get(at) {
        Some(flag) => *flag,
        None => false,
    }
}

// The numbers that aren't hidden, with their positions.
fn fixed_numbers(
    alloc: Global,
    numbers: &[i64],
    hidden: &[bool],
) -> Result<Vec<(usize, i64)>, AllocError>
    ensures { IfOk result (λ fixed. fixed.items ≡ fixed_from (hidden_of hidden.now) 0 numbers.now) }
{
    let mut fixed = Vec::new(alloc);
    let mut at: usize = 0;
    let mut rest = numbers;
    'each: while let [value, behind @ ..] = rest {
        if !is_hidden(hidden, at) {
            fixed.push((at, *value))?;
        }
        at += 1;
        rest = behind;
    }
    Ok(fixed)
}

/// The positions that are hidden, and the places of the text where others decide.
#[derive(Drop)]
struct Split {
    hidden: Vec<bool>,
    places: Vec<Place>,
}

// Hides all numbers but those that a list names; without one, all that decide nothing in the run.
fn divided(
    alloc: Global,
    program: &Program,
    input: &Input,
    run: Run<'_>,
    fix: Option<&str>,
) -> Result<Split, AllocError> {
    let count = input.as_slice().len();
    let mut named = Vec::new(alloc);
    match fix {
        Some(list) => named = flags_of(alloc, list, count)?,
        None => named.resize(count, false)?,
    }
    let Found { decides, places } = search(alloc, program, input, run, named.as_slice())?;
    let fixed = if fix.is_some() { named } else { decides };
    let mut hidden = Vec::new(alloc);
    for flag in fixed.as_slice() {
        hidden.push(!*flag)?;
    }
    Ok(Split { hidden, places })
}

// The run that has ended so, with these events.
fn run_of<'a>(ending: &'a End, trace: &'a Trace) -> Run<'a> {
    match ending {
        End::Left(_, frames, code) => Run {
            code,
            events: trace.as_slice(),
            frames: frames.as_slice(),
        },
        End::Stopped(_, frames, code) => Run {
            code,
            events: trace.as_slice(),
            frames: frames.as_slice(),
        },
    }
}

/// Settles a program on an input, and says of which other inputs the same holds: of those that agree where
/// the list says, if there is one, or else where numbers decide.
pub fn settle_given<'a>(
    alloc: Global,
    program: &Program,
    input: &Input,
    fix: Option<&str>,
) -> EveryReply<'a>
    ensures reply { SettleShows (meant program.now) input.now (reply_view result.reply) }
    ensures claim { IfSome result.claim (HoldsOnEvery (meant program.now) input.now (reply_view result.reply)) }
{
    match settle_by_search(alloc, program, input, fix) {
        Ok(reply) => reply,
        Err(AllocError) => EveryReply::of(alloc, Err(Failure::Memory)),
    }
}

// The same, if memory suffices.
fn settle_by_search<'a>(
    alloc: Global,
    program: &Program,
    input: &Input,
    fix: Option<&str>,
) -> Result<EveryReply<'a>, AllocError>
    ensures reply { IfOk result (λ r. SettleShows (meant program.now) input.now (reply_view r.reply)) }
    ensures claim { IfOk result (λ r. IfSome r.claim (HoldsOnEvery (meant program.now) input.now (reply_view r.reply))) }
{
    let (ending, trace) = run_to_end(alloc, program, input)?;
    let run = run_of(&ending, &trace);
    let Split { hidden, places } = divided(alloc, program, input, run, fix)?;
    let every = settle_ended(alloc, program, input, ending, &trace, hidden.as_slice())?;
    let (reply, claim) = settled(alloc, program, input, every, hidden.as_slice())?;
    Ok(EveryReply {
        reply,
        claim,
        numbers: input.as_slice().len(),
        places,
    })
}

// The reply that says what was found, and whether the same holds wherever these positions are hidden.
fn settled<'a>(
    alloc: Global,
    program: &Program,
    input: &Input,
    every: Every,
    hidden: &[bool],
) -> Result<(Result<Answer, Failure<'a>>, Option<Claim>), AllocError>
    requires { IsVerdictOnEvery (source program.now) input.now (hidden_of hidden.now) every }
    ensures reply { IfOk result (λ r. SettleShows (meant program.now) input.now (reply_view r.0)) }
    ensures claim { IfOk result (λ r. IfSome r.1 (HoldsOnEvery (meant program.now) input.now (reply_view r.0))) }
{
    let Every {
        finding,
        is_on_every,
    } = every;
    let reply = found(alloc, program, finding)?;
    if !is_on_every {
        return Ok((reply, None));
    }
    let fixed = fixed_numbers(alloc, input.as_slice(), hidden)?;
    let count = input.as_slice().len();
    Ok((reply, Some(Claim { count, fixed })))
}

/// Settles a program on an input, both in files, and says of which other inputs the same holds.
pub fn settle_on_every<'a, F: Files, R: CountedRead>(
    alloc: Global,
    program: &'a str,
    input: Option<&'a str>,
    fix: Option<&str>,
    files: &mut F,
    reader: &mut R,
) -> EveryReply<'a>
    requires { (F.failed files.old).count < 18446744073709551615 }
    ensures reply { SettleReply (world (F.holds files.old) (R.remaining reader.old) (F.failed files.old) (F.failed files.new))
        program.entry.now (option_map (λ p. p.now) input.entry) (reply_view result.reply) }
    ensures claim { IfSome result.claim (ClaimReply (world (F.holds files.old) (R.remaining reader.old) (F.failed files.old) (F.failed files.new))
        program.entry.now (option_map (λ p. p.now) input.entry) (reply_view result.reply)) }
    ensures same { (p : List ℕ) → F.holds files.new p ≡ F.holds files.old p }
    ensures untouched { reader.new ≡ reader.old }
    ensures most { TakesAtMost MAX_READ (R.remaining reader.old) (R.remaining reader.new) }
    ensures few { R.reads reader.new ≤ R.reads reader.old + MAX_READ }
{
    match given(alloc, Origin::File(program), input, files, reader) {
        Ok((program, input)) => settle_given(alloc, &program, &input, fix),
        Err(failure) => EveryReply::of(alloc, Err(failure)),
    }
}

/// Returns the text of an answer, given what is claimed of other inputs.
pub fn text_of(alloc: Global, answer: &Answer, claim: Option<&Claim>) -> Result<Vec<u8>, AllocError>
    ensures { IfOk result (λ text. text.items ≡ claimed_text (option_map (λ c. c.now) claim.entry) (answer_view answer.now)) }
{
    match claim {
        Some(claim) => claimed(alloc, answer, claim),
        None => plain(alloc, answer),
    }
}

// The text of an answer alone.
fn plain(alloc: Global, answer: &Answer) -> Result<Vec<u8>, AllocError>
    ensures { IfOk result (λ text. text.items ≡ out_text (answer_view answer.now)) }
{
    let mut text = Vec::new(alloc);
    if !answer.send(alloc, &mut text)? {
        return Err(AllocError);
    }
    Ok(text)
}

// The text of an answer on every such input.
fn claimed(alloc: Global, answer: &Answer, claim: &Claim) -> Result<Vec<u8>, AllocError>
    ensures { IfOk result (λ text. text.items ≡ claimed_text (Some claim.now) (answer_view answer.now)) }
{
    match answer {
        Answer::Settled { names, outcome } => {
            let mut text = Vec::from_slice(alloc, b"settled on ")?;
            push_every(&mut text, claim)?;
            text.push(b'\n')?;
            let lines = render::outcome(alloc, names.as_slice(), outcome)?;
            text.extend_from_slice(lines.as_slice())?;
            Ok(text)
        }
        Answer::Outcome { .. }
        | Answer::Certificate(_)
        | Answer::Accepted
        | Answer::Refused(_)
        | Answer::NotEnded
        | Answer::RaceFree(_) => plain(alloc, answer),
    }
}

/// Returns the line that follows an explanation: where a race or a fault is on every such input, of which
/// inputs that is.
pub fn behind(
    alloc: Global,
    reply: &Result<Answer, Failure<'_>>,
    claim: &Claim,
) -> Result<Vec<u8>, AllocError>
    ensures { IfOk result (λ text. text.items ≡ line_behind claim.now (reply_view reply.now)) }
{
    match reply {
        Ok(Answer::Refused(_)) => same_on(alloc, b"the first race is the same on ", claim),
        Err(Failure::Run { .. }) => same_on(alloc, b"the fault is the same on ", claim),
        Ok(_) | Err(_) => Ok(Vec::new(alloc)),
    }
}

fn same_on(alloc: Global, what: &[u8], claim: &Claim) -> Result<Vec<u8>, AllocError>
    ensures { IfOk result (λ text. text.items ≡ line (what.now ++ every_text claim.now)) }
{
    let mut text = Vec::from_slice(alloc, what)?;
    push_every(&mut text, claim)?;
    text.push(b'\n')?;
    Ok(text)
}

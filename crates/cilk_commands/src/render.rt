//! The texts of replies.

ghost use Rattle.std.specs.Prelude.{◌≡◌, ◌++◌, [], ◌∷◌, codes, decimal, flat_map, OnOk, IfOk};
ghost use Rattle.std.specs.Fmt.{signed_decimal};
ghost use Rattle.cilk_checker.specs.Numbers.{fields_of, number_of};
ghost use Rattle.cilk_commands.specs.Replies.{number_line, choice_text, element, elements, reason_text, reducer_line, reducer_lines, outcome_text, place_line, place_text, places_of, race_free_line, refused_line, line, script_line, skip_text, skips_text, strand_line, strand_text, worker_of};

use cilk_checker::refusal::{Fields, Refusal};
use cilk_schedule::{Choice, Reason, Skip, Skips};
use cilk_types::outcome::{Final, Outcome};
use cilk_types::sequence::Sequence;
use itoa::Buffer;
use std::alloc::{AllocError, Global};

fn push_number(text: &mut Vec<u8>, value: i64) -> Result<(), AllocError>
    ensures { OnOk result (text.new.items ≡ text.old.items ++ signed_decimal value) }
{
    let mut buffer = Buffer::new();
    text.extend_from_slice(buffer.format(value).as_bytes())
}

fn push_lines(text: &mut Vec<u8>, values: &[i64]) -> Result<(), AllocError>
    ensures { OnOk result (text.new.items ≡ text.old.items ++ flat_map number_line values.now) }
{
    for value in values {
        push_number(text, *value)?;
        text.push(b'\n')?;
    }
    Ok(())
}

fn push_elements(text: &mut Vec<u8>, values: &[i64]) -> Result<(), AllocError>
    ensures { OnOk result (text.new.items ≡ text.old.items ++ flat_map element values.now) }
{
    for value in values {
        text.push(b' ')?;
        push_number(text, *value)?;
    }
    Ok(())
}

fn push_final(text: &mut Vec<u8>, last: &Final) -> Result<(), AllocError>
    ensures { OnOk result (text.new.items ≡ text.old.items ++ elements last.now) }
{
    match last {
        Final::Number(value) => {
            text.push(b' ')?;
            push_number(text, *value)
        }
        Final::List(values) => push_elements(text, values.as_slice()),
    }
}

fn push_reducer(text: &mut Vec<u8>, name: &[u8], last: &Final) -> Result<(), AllocError>
    ensures { OnOk result (text.new.items ≡ text.old.items ++ reducer_line name.now last.now) }
{
    text.extend_from_slice(b"reducer ")?;
    text.extend_from_slice(name)?;
    push_final(text, last)?;
    text.push(b'\n')?;
    Ok(())
}

fn push_reducers(
    text: &mut Vec<u8>,
    names: &[Sequence<u8>],
    reducers: &[Final],
) -> Result<(), AllocError>
    ensures { OnOk result (text.new.items ≡ text.old.items ++ reducer_lines names.now reducers.now) }
{
    for (name, last) in names.iter().zip(reducers.iter()) {
        push_reducer(text, name.as_slice(), last)?;
    }
    Ok(())
}

/// Returns an outcome's text: a line for each printed number and each global reducer, and the
/// result.
pub fn outcome(
    alloc: Global,
    names: &[Sequence<u8>],
    outcome: &Outcome,
) -> Result<Vec<u8>, AllocError>
    ensures { IfOk result (λ text. text.items ≡ outcome_text names.now outcome.now) }
{
    let mut text = Vec::new(alloc);
    push_lines(&mut text, outcome.output.as_slice())?;
    push_reducers(&mut text, names, outcome.reducers.as_slice())?;
    text.extend_from_slice(b"result ")?;
    push_number(&mut text, outcome.result)?;
    text.push(b'\n')?;
    Ok(text)
}

/// Returns the line `settled` and an outcome's text.
pub fn settled(
    alloc: Global,
    names: &[Sequence<u8>],
    settled: &Outcome,
) -> Result<Vec<u8>, AllocError>
    ensures { IfOk result (λ text. text.items ≡ line (codes "settled") ++ outcome_text names.now settled.now) }
{
    let mut text = Vec::from_slice(alloc, b"settled\n")?;
    let lines = outcome(alloc, names, settled)?;
    text.extend_from_slice(lines.as_slice())?;
    Ok(text)
}

/// Returns the line `WHAT N at PLACE`.
pub fn place(alloc: Global, what: &[u8], number: u16, place: usize) -> Result<Vec<u8>, AllocError>
    ensures { IfOk result (λ text. text.items ≡ place_line what.now number place) }
{
    let mut buffer = Buffer::new();
    let mut text = Vec::from_slice(alloc, what)?;
    text.push(b' ')?;
    text.extend_from_slice(buffer.format(number).as_bytes())?;
    text.extend_from_slice(b" at ")?;
    text.extend_from_slice(buffer.format(place).as_bytes())?;
    text.push(b'\n')?;
    Ok(text)
}

/// Returns the line `script at LINE`.
pub fn script(alloc: Global, at: usize) -> Result<Vec<u8>, AllocError>
    ensures { IfOk result (λ text. text.items ≡ script_line at) }
{
    let mut buffer = Buffer::new();
    let mut text = Vec::from_slice(alloc, b"script at ")?;
    text.extend_from_slice(buffer.format(at).as_bytes())?;
    text.push(b'\n')?;
    Ok(text)
}

fn push_count(text: &mut Vec<u8>, count: usize) -> Result<(), AllocError>
    ensures { OnOk result (text.new.items ≡ text.old.items ++ decimal count) }
{
    let mut buffer = Buffer::new();
    text.extend_from_slice(buffer.format(count).as_bytes())
}

// The worker of a choice.
fn worker_of(choice: Choice) -> u32
    ensures { result ≡ worker_of choice }
{
    match choice {
        Choice::Run(worker) | Choice::Steal(worker, _) => worker,
    }
}

// A choice, as a script has it.
fn push_choice(text: &mut Vec<u8>, choice: Choice) -> Result<(), AllocError>
    ensures { OnOk result (text.new.items ≡ text.old.items ++ choice_text choice) }
{
    match choice {
        Choice::Run(worker) => {
            text.extend_from_slice(b"run ")?;
            push_count(text, worker as usize)
        }
        Choice::Steal(worker, place) => {
            text.extend_from_slice(b"steal ")?;
            push_count(text, worker as usize)?;
            text.push(b' ')?;
            push_count(text, place)
        }
    }
}

// Why a choice of a worker can't be made.
fn push_reason(text: &mut Vec<u8>, worker: u32, reason: Reason) -> Result<(), AllocError>
    ensures { OnOk result (text.new.items ≡ text.old.items ++ reason_text worker reason) }
{
    match reason {
        Reason::NoWorker => {
            text.extend_from_slice(b"there is no worker ")?;
            push_count(text, worker as usize)
        }
        Reason::NoFrame => {
            text.extend_from_slice(b"worker ")?;
            push_count(text, worker as usize)?;
            text.extend_from_slice(b" has no frame")
        }
        Reason::HasFrame => {
            text.extend_from_slice(b"worker ")?;
            push_count(text, worker as usize)?;
            text.extend_from_slice(b" has a frame")
        }
        Reason::Offers(count) => {
            text.extend_from_slice(b"the number of offers is ")?;
            push_count(text, count)
        }
        Reason::Ended => text.extend_from_slice(b"the run has ended"),
    }
}

/// Returns `choice at LINE: CHOICE, but REASON`.
pub fn skip(alloc: Global, skip: Skip) -> Result<Vec<u8>, AllocError>
    ensures { IfOk result (λ text. text.items ≡ skip_text skip) }
{
    let mut text = Vec::from_slice(alloc, b"choice at ")?;
    push_count(&mut text, skip.line)?;
    text.extend_from_slice(b": ")?;
    push_choice(&mut text, skip.choice)?;
    text.extend_from_slice(b", but ")?;
    push_reason(&mut text, worker_of(skip.choice), skip.reason)?;
    Ok(text)
}

/// Returns the same as a line.
pub fn unmade(alloc: Global, unmade: Skip) -> Result<Vec<u8>, AllocError>
    ensures { IfOk result (λ text. text.items ≡ line (skip_text unmade)) }
{
    let mut text = skip(alloc, unmade)?;
    text.push(b'\n')?;
    Ok(text)
}

/// Returns the line `skipped choices: N; first: ..`, or nothing if none was skipped.
pub fn skips(alloc: Global, skips: Skips) -> Result<Vec<u8>, AllocError>
    ensures { IfOk result (λ text. text.items ≡ skips_text skips.count skips.first) }
{
    let mut text = Vec::new(alloc);
    if let Some(first) = skips.first {
        let choice = skip(alloc, first)?;
        text.extend_from_slice(b"skipped choices: ")?;
        push_count(&mut text, skips.count as usize)?;
        text.extend_from_slice(b"; first: ")?;
        text.extend_from_slice(choice.as_slice())?;
        text.push(b'\n')?;
    }
    Ok(text)
}

// A strand's name after the root's `r`: the ordinals of its frame's path, and its number there.
fn push_strand(text: &mut Vec<u8>, name: &[u32]) -> Result<(), AllocError>
    ensures { OnOk result (text.new.items ≡ text.old.items ++ strand_text name.now) }
{
    let mut buffer = Buffer::new();
    let mut rest = name;
    'each: while let [number, behind @ ..] = rest {
        text.push(if behind.is_empty() { b':' } else { b'.' })?;
        text.extend_from_slice(buffer.format(*number).as_bytes())?;
        rest = behind;
    }
    Ok(())
}

/// Returns the line `fault N in STRAND`.
pub fn strand(alloc: Global, number: u16, name: &[u32]) -> Result<Vec<u8>, AllocError>
    ensures { IfOk result (λ text. text.items ≡ strand_line number name.now) }
{
    let mut buffer = Buffer::new();
    let mut text = Vec::from_slice(alloc, b"fault ")?;
    text.extend_from_slice(buffer.format(number).as_bytes())?;
    text.extend_from_slice(b" in r")?;
    push_strand(&mut text, name)?;
    text.push(b'\n')?;
    Ok(text)
}

fn push_place(text: &mut Vec<u8>, place: u64) -> Result<(), AllocError>
    ensures { OnOk result (text.new.items ≡ text.old.items ++ place_text place) }
{
    let mut buffer = Buffer::new();
    text.push(b' ')?;
    text.extend_from_slice(buffer.format(place).as_bytes())
}

fn push_places(text: &mut Vec<u8>, places: Fields) -> Result<(), AllocError>
    ensures { OnOk result (text.new.items ≡ text.old.items ++ flat_map place_text (places_of places)) }
{
    match places {
        Fields::None => Ok(()),
        Fields::One(place) => push_place(text, place),
        Fields::Two(earlier, later) => {
            push_place(text, earlier)?;
            push_place(text, later)
        }
    }
}

/// Returns the line `refused N`, with the places that the refusal names.
pub fn refused(alloc: Global, refusal: Refusal) -> Result<Vec<u8>, AllocError>
    ensures { IfOk result (λ text. text.items ≡ refused_line (number_of refusal) (places_of (fields_of refusal))) }
{
    let mut buffer = Buffer::new();
    let mut text = Vec::from_slice(alloc, b"refused ")?;
    text.extend_from_slice(buffer.format(refusal.number()).as_bytes())?;
    push_places(&mut text, refusal.fields())?;
    text.push(b'\n')?;
    Ok(text)
}

/// Returns the line `race-free`, and how many calls weren't recorded.
pub fn race_free(alloc: Global, unseen: u32) -> Result<Vec<u8>, AllocError>
    ensures { IfOk result (λ text. text.items ≡ race_free_line unseen) }
{
    if unseen == 0 {
        return b"race-free\n".to_vec(alloc);
    }
    if unseen == 1 {
        return b"race-free, but 1 call wasn't recorded\n".to_vec(alloc);
    }
    let mut buffer = Buffer::new();
    let mut text = Vec::from_slice(alloc, b"race-free, but ")?;
    text.extend_from_slice(buffer.format(unseen).as_bytes())?;
    text.extend_from_slice(b" calls weren't recorded")?;
    text.push(b'\n')?;
    Ok(text)
}

/// Returns the line `cannot read NAME`.
pub fn unreadable(alloc: Global, name: &str) -> Result<Vec<u8>, AllocError>
    ensures { IfOk result (λ text. text.items ≡ line (codes "cannot read " ++ name.now)) }
{
    let mut text = Vec::from_slice(alloc, b"cannot read ")?;
    text.extend_from_slice(name.as_bytes())?;
    text.push(b'\n')?;
    Ok(text)
}

/// Returns the line `changed NAME`.
pub fn changed(alloc: Global, name: &str) -> Result<Vec<u8>, AllocError>
    ensures { IfOk result (λ text. text.items ≡ line (codes "changed " ++ name.now)) }
{
    let mut text = Vec::from_slice(alloc, b"changed ")?;
    text.extend_from_slice(name.as_bytes())?;
    text.push(b'\n')?;
    Ok(text)
}

//! `settle` for several programs, for every input, or in a short form: its words, and the lines of its
//! replies.

ghost use Rattle.std.specs.Prelude.{◌≡◌, ◌++◌, [], IfOk, None, OnOk, Some, cond, flat_map, option_map};
ghost use Rattle.cilk_messages.specs.Batches.{alone, batch_in, batch_view, explained, first_line, has_more, is_batch, is_settling, is_whole, object_line, object_tokens, place_tokens, short_line, with_form, with_free_word, with_word};
ghost use Rattle.cilk_messages.specs.Claims.{claim_tokens, count_tokens, every_tokens, fixed_tokens, list_tokens};
ghost use Rattle.cilk_messages.specs.Words.{texts};

use crate::asked::{asks, behind_first, is_help, is_option, number_of};
use crate::claim::Claim;
use crate::place::Location;
use crate::positions::is_list;
use json::Writer;
use std::alloc::{AllocError, Global};

/// The form of the replies to several programs.
#[derive(Clone, Copy)]
pub enum Form {
    /// Under a heading, with an explanation on standard error.
    Full,
    /// One program alone, without a heading.
    Alone,
    /// A line each.
    Short,
    /// A line each, with an explanation on standard error.
    Explained,
    /// A JSON object each, with its explanation.
    Json,
}

impl Form {
    // The form with explanations: only lines have none of their own.
    fn explained(self) -> Form
        ensures { result ≡ explained self }
    {
        match self {
            Form::Short => Form::Explained,
            form => form,
        }
    }

    // The form of a program that is alone.
    fn alone(self) -> Form
        ensures { result ≡ alone self }
    {
        match self {
            Form::Full => Form::Alone,
            form => form,
        }
    }
}

/// What the next word has to be.
#[derive(Clone, Copy)]
enum Awaits {
    /// Any.
    Nothing,
    /// The file of the input.
    Input,
    /// A list of positions.
    Positions,
}

/// The programs to settle, the file of their input, and the form of the replies.
#[derive(Drop)]
pub struct Batch<'a> {
    pub programs: Vec<&'a str>,
    pub input: Option<&'a str>,
    pub form: Form,
    /// Whether they are settled for every input that agrees where numbers decide.
    pub every: bool,
    /// The list of positions where other inputs agree, if the words name it.
    pub fix: Option<&'a str>,
    awaits: Awaits,
}

impl<'a> Batch<'a> {
    // Takes a word, and returns whether it fits.
    fn take(&mut self, word: &'a str) -> Result<bool, AllocError>
        ensures { IfOk result (λ fits. cond fits (Some (batch_view self.new)) None ≡ with_word (batch_view self.old) word.now) }
    {
        match self.awaits {
            Awaits::Nothing => self.take_free(word),
            Awaits::Input => {
                self.awaits = Awaits::Nothing;
                self.input = Some(word);
                Ok(!is_option(word))
            }
            Awaits::Positions => {
                self.awaits = Awaits::Nothing;
                self.fix = Some(word);
                Ok(is_list(word))
            }
        }
    }

    // Takes a word that nothing waits for.
    fn take_free(&mut self, word: &'a str) -> Result<bool, AllocError>
        ensures { IfOk result (λ fits. cond fits (Some (batch_view self.new)) None ≡ with_free_word (batch_view self.old) word.now) }
    {
        if word == "--input" {
            self.awaits = Awaits::Input;
            return Ok(self.input.is_none());
        }
        if word == "--fix" {
            self.awaits = Awaits::Positions;
            return Ok(self.fix.is_none());
        }
        if word == "--every" {
            self.every = true;
            return Ok(true);
        }
        if word == "--short" {
            return Ok(self.choose(Form::Short));
        }
        if word == "--json" {
            return Ok(self.choose(Form::Json));
        }
        if is_option(word) {
            return Ok(word == "--explain");
        }
        self.programs.push(word)?;
        Ok(true)
    }

    // Whether some program is named, and nothing is missing.
    fn is_whole(&self) -> bool
        ensures { result ≡ is_whole (batch_view self.now) }
    {
        let is_open = match self.awaits {
            Awaits::Nothing => false,
            Awaits::Input | Awaits::Positions => true,
        };
        !is_open && !self.programs.is_empty() && (self.every || self.fix.is_none())
    }

    // Chooses a form, and returns whether none was chosen before.
    fn choose(&mut self, form: Form) -> bool
        ensures { cond result (Some (batch_view self.new)) None ≡ with_form (batch_view self.old) form self.old.form }
    {
        let is_first = self.form == Form::Full;
        self.form = form;
        is_first
    }
}

/// Returns whether the first word is `settle`, the rest isn't just a request for help, and no word is
/// `--why`. With `--explain` the words have to name several programs or a form too, since the answer
/// for one program is explained in any case.
pub fn is_settling(words: &[&str]) -> bool
    ensures { result ≡ is_settling (texts words.now) }
{
    match words {
        [first, behind @ ..] => {
            *first == "settle"
                && !is_help(behind)
                && !asks(behind, "--why")
                && (!asks(behind, "--explain") || is_batch(behind))
        }
        [] => false,
    }
}

// Returns whether words name a form, all inputs, or more files than one program and its input.
fn is_batch(words: &[&str]) -> bool
    ensures { result ≡ is_batch (texts words.now) }
{
    let files = if asks(words, "--input") { 2 } else { 1 };
    asks(words, "--every")
        || asks(words, "--short")
        || asks(words, "--json")
        || has_more(words, files)
}

// Returns whether more words than this aren't options.
fn has_more(words: &[&str], most: usize) -> bool
    ensures { result ≡ has_more most (texts words.now) }
{
    let mut left = most;
    let mut rest = words;
    'each: while let [word, behind @ ..] = rest {
        if !is_option(word) {
            if left == 0 {
                return true;
            }
            left -= 1;
        }
        rest = behind;
    }
    false
}

/// Returns what the words after the first name, or `None` if they name no programs.
pub fn batch_of<'a>(alloc: Global, words: &[&'a str]) -> Result<Option<Batch<'a>>, AllocError>
    ensures { IfOk result (λ named. option_map batch_view named ≡ batch_in (texts words.now)) }
{
    let mut batch = Batch {
        programs: Vec::new(alloc),
        input: None,
        form: Form::Full,
        every: false,
        fix: None,
        awaits: Awaits::Nothing,
    };
    let mut rest = behind_first(words);
    'each: while let [word, behind @ ..] = rest {
        if !batch.take(word)? {
            return Ok(None);
        }
        rest = behind;
    }
    if !batch.is_whole() {
        return Ok(None);
    }
    if asks(words, "--explain") {
        batch.form = batch.form.explained();
    }
    if batch.every && batch.programs.len() == 1 {
        batch.form = batch.form.alone();
    }
    Ok(Some(batch))
}

// Adds the first line of a reply.
fn push_first_line(text: &mut Vec<u8>, reply: &[u8]) -> Result<(), AllocError>
    ensures { OnOk result (text.new.items ≡ text.old.items ++ first_line reply.now) }
{
    let mut rest = reply;
    'line: while let [byte, behind @ ..] = rest {
        if *byte == b'\n' {
            return Ok(());
        }
        text.push(*byte)?;
        rest = behind;
    }
    Ok(())
}

/// Returns the line `PROGRAM: REPLY`, with the first line of the reply.
pub fn short(alloc: Global, program: &str, reply: &[u8]) -> Result<Vec<u8>, AllocError>
    ensures { IfOk result (λ text. text.items ≡ short_line program.now reply.now) }
{
    let mut text = program.as_bytes().to_vec(alloc)?;
    text.extend_from_slice(b": ")?;
    push_first_line(&mut text, reply)?;
    text.push(b'\n')?;
    Ok(text)
}

/// Returns a JSON object of the program, the status, the reply, its explanation, of which inputs it is,
/// and its place. A reply is text, so nothing else fails than memory.
pub fn object(
    alloc: Global,
    program: &str,
    status: u8,
    reply: &[u8],
    explanation: &str,
    claim: Option<&Claim>,
    place: Option<Location>,
) -> Result<Vec<u8>, AllocError>
    ensures { IfOk result (λ text. text.items ≡ object_line program.now status reply.now explanation.now (option_map (λ c. c.now) claim.entry) place) }
{
    let Ok(reply) = str::from_utf8(reply) else {
        return Err(AllocError);
    };
    let mut writer = Writer::new(Vec::new(alloc));
    write_object(
        &mut writer,
        program,
        status,
        reply,
        explanation,
        claim,
        place,
    )?;
    let mut text = writer.into_inner();
    text.push(b'\n')?;
    Ok(text)
}

fn write_object(
    writer: &mut Writer<Global>,
    program: &str,
    status: u8,
    reply: &str,
    explanation: &str,
    claim: Option<&Claim>,
    place: Option<Location>,
) -> Result<(), AllocError>
    requires { writer.old.tokens ≡ [] }
    ensures tokens { OnOk result (writer.new.tokens ≡ object_tokens program.now status reply.now explanation.now (option_map (λ c. c.now) claim.entry) place) }
    ensures before { OnOk result (writer.new.before ≡ writer.old.before) }
{
    writer.begin_object()?;
    writer.key("program")?;
    writer.string(program)?;
    writer.key("status")?;
    writer.u64(u64::from(status))?;
    writer.key("reply")?;
    writer.string(reply)?;
    writer.key("explanation")?;
    writer.string(explanation)?;
    write_claim(writer, claim)?;
    write_place(writer, place)?;
    writer.end_object()?;
    Ok(())
}

fn write_claim(writer: &mut Writer<Global>, claim: Option<&Claim>) -> Result<(), AllocError>
    ensures tokens { OnOk result (writer.new.tokens ≡ writer.old.tokens ++ every_tokens (option_map (λ c. c.now) claim.entry)) }
    ensures before { OnOk result (writer.new.before ≡ writer.old.before) }
{
    match claim {
        Some(claim) => write_every(writer, claim),
        None => Ok(()),
    }
}

#[tactic(auto, using(std::proofs::lemmas::List::append_assoc))]
fn write_every(writer: &mut Writer<Global>, claim: &Claim) -> Result<(), AllocError>
    ensures tokens { OnOk result (writer.new.tokens ≡ writer.old.tokens ++ every_tokens (Some claim.now)) }
    ensures before { OnOk result (writer.new.before ≡ writer.old.before) }
{
    write_count(writer, claim.count)?;
    write_list(writer, claim.fixed.as_slice())?;
    writer.end_object()
}

fn write_count(writer: &mut Writer<Global>, count: usize) -> Result<(), AllocError>
    ensures tokens { OnOk result (writer.new.tokens ≡ writer.old.tokens ++ count_tokens count) }
    ensures before { OnOk result (writer.new.before ≡ writer.old.before) }
{
    begin_claim(writer)?;
    writer.u64(count as u64)?;
    writer.key("fixed")?;
    Ok(())
}

fn begin_claim(writer: &mut Writer<Global>) -> Result<(), AllocError>
    ensures tokens { OnOk result (writer.new.tokens ≡ writer.old.tokens ++ claim_tokens) }
    ensures before { OnOk result (writer.new.before ≡ writer.old.before) }
{
    writer.key("every")?;
    writer.begin_object()?;
    writer.key("numbers")?;
    Ok(())
}

#[tactic(auto, using(std::proofs::lemmas::List::append_assoc))]
fn write_list(writer: &mut Writer<Global>, fixed: &[(usize, i64)]) -> Result<(), AllocError>
    ensures tokens { OnOk result (writer.new.tokens ≡ writer.old.tokens ++ list_tokens fixed.now) }
    ensures before { OnOk result (writer.new.before ≡ writer.old.before) }
{
    writer.begin_array()?;
    write_fixed(writer, fixed)?;
    writer.end_array()
}

fn write_fixed(writer: &mut Writer<Global>, fixed: &[(usize, i64)]) -> Result<(), AllocError>
    ensures tokens { OnOk result (writer.new.tokens ≡ writer.old.tokens ++ flat_map fixed_tokens fixed.now) }
    ensures before { OnOk result (writer.new.before ≡ writer.old.before) }
{
    let mut rest = fixed;
    'each: while let [(at, value), behind @ ..] = rest {
        writer.begin_array()?;
        writer.u64(*at as u64)?;
        writer.i64(*value)?;
        writer.end_array()?;
        rest = behind;
    }
    Ok(())
}

fn write_place(writer: &mut Writer<Global>, place: Option<Location>) -> Result<(), AllocError>
    ensures tokens { OnOk result (writer.new.tokens ≡ writer.old.tokens ++ place_tokens place) }
    ensures before { OnOk result (writer.new.before ≡ writer.old.before) }
{
    if let Some(place) = place {
        writer.key("line")?;
        writer.u64(place.line as u64)?;
        writer.key("column")?;
        writer.u64(place.column as u64)?;
    }
    Ok(())
}

/// Returns the place in the program's text at which an explanation begins: `PROGRAM:LINE:COLUMN:`.
pub fn place_in(program: &str, explanation: &str) -> Option<Location> {
    if let Some(place) = explanation.strip_prefix(program)
        && let Some(place) = place.strip_prefix(":")
        && let Some((line, rest)) = place.split_once(":")
        && let Some((column, _)) = rest.split_once(":")
        && let Some(line) = number_of(line.as_bytes())
        && let Some(column) = number_of(column.as_bytes())
    {
        Some(Location {
            line: line as usize,
            column: column as usize,
        })
    } else {
        None
    }
}

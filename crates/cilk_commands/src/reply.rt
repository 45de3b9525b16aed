//! The replies of the tool, with their texts and statuses.

ghost use Rattle.std.specs.Prelude.{◌≡◌, IfOk, IsFalse, IsTrue, OnErr};
ghost use Rattle.std.specs.Io.KnownBytes.{Appends};
ghost use Rattle.cilk_commands.specs.Replies.{status_of, out_text, IsErrorText};
ghost use Rattle.cilk_commands.specs.Streams.{AppendsPart};

use crate::render;
use crate::streams::{send, send_certificate};
use cilk_cert_text::certificate::Certificate;
use cilk_checker::refusal::Refusal;
use cilk_schedule::Skip;
use cilk_types::event::Pos;
use cilk_types::outcome::Outcome;
use cilk_types::sequence::Sequence;
use std::alloc::{AllocError, Global};
use std::io::Write;

/// The status if the words, a file or a text is wrong, or a write fails.
pub const WRONG: u8 = 2;

/// The status if the program's run faults, or a choice that has to be made can't be.
pub const FAULTED: u8 = 3;

/// The status if a certificate is refused, or a race is found.
pub const REFUSED: u8 = 4;

/// The status if memory runs out.
pub const NO_MEMORY: u8 = 5;

/// The line for out of memory.
pub const NO_MEMORY_LINE: &str = "no memory\n";

/// An answer, which is shown on standard output.
pub enum Answer {
    /// The outcome of a run, with the names of its global reducers in order of declaration.
    Outcome {
        names: Sequence<Sequence<u8>>,
        outcome: Outcome,
    },
    /// The certificate of a run.
    Certificate(Certificate),
    /// A certificate is accepted.
    Accepted,
    /// The refusal of a certificate, or the first race of a program's run or of a trace.
    Refused(Refusal),
    /// The run of a script hasn't ended.
    NotEnded,
    /// Every parallel run that ends has this outcome; with the names of the global reducers.
    Settled {
        names: Sequence<Sequence<u8>>,
        outcome: Outcome,
    },
    /// No two positions of a trace race, and this many calls weren't recorded.
    RaceFree(u32),
}

// Written out, so that a proof follows one call where an answer is dropped.
impl Drop for Answer {
    fn drop(self) {
        match self {
            Answer::Outcome {
                names: _names,
                outcome: _outcome,
            } => {}
            Answer::Certificate(_certificate) => {}
            Answer::Accepted => {}
            Answer::Refused(_) => {}
            Answer::NotEnded => {}
            Answer::Settled {
                names: _names,
                outcome: _outcome,
            } => {}
            Answer::RaceFree(_) => {}
        }
    }
}

/// A failure, which is shown on standard error in place of an answer.
pub enum Failure<'a> {
    /// The words are no command: clap's own text.
    Words(String),
    /// A file, or `-` for standard input, can't be read.
    Unreadable(&'a str),
    /// A fault of the program text at a byte, counted from 0.
    Program { number: u16, place: usize },
    /// A fault of the input text at a byte, counted from 0.
    Input { number: u16, place: usize },
    /// A fault stops the run in place of the event at this position, counted from 1.
    Run { number: u16, at: Pos },
    /// A fault stops the run of a script in the strand of this name.
    Strand { number: u16, name: Vec<u32> },
    /// The first wrong line of a script, from 1: of another form, or with choices past the limit.
    Script(usize),
    /// The first choice of a script that can't be made, where each has to be made.
    Unmade(Skip),
    /// A fault of a trace at a line, counted from 1.
    Trace { number: u16, line: u32 },
    /// A file that changed between two readings.
    Changed(&'a str),
    /// Out of memory.
    Memory,
}

// Written out, so that a proof follows one call where a failure is dropped.
impl Drop for Failure<'_> {
    fn drop(self) {
        match self {
            Failure::Words(_text) => {}
            Failure::Unreadable(_) => {}
            Failure::Program {
                number: _,
                place: _,
            } => {}
            Failure::Input {
                number: _,
                place: _,
            } => {}
            Failure::Run { number: _, at: _ } => {}
            Failure::Strand {
                number: _,
                name: _name,
            } => {}
            Failure::Script(_) => {}
            Failure::Unmade(_) => {}
            Failure::Trace { number: _, line: _ } => {}
            Failure::Changed(_) => {}
            Failure::Memory => {}
        }
    }
}

impl Answer {
    ghost use Rattle.cilk_commands.specs.Replies.{answer_view};

    /// Returns 4 for a refused certificate or a race, else 0.
    pub fn status(&self) -> u8
        ensures { result ≡ status_of (answer_view self.now) }
    {
        match self {
            Answer::Outcome { .. }
            | Answer::Certificate(_)
            | Answer::Accepted
            | Answer::NotEnded
            | Answer::Settled { .. }
            | Answer::RaceFree(_) => 0,
            Answer::Refused(_) => REFUSED,
        }
    }

    /// Writes the answer's text, and returns whether all of it was written.
    ///
    /// If not, a beginning of it was written. On an error nothing was. A certificate needs no
    /// memory.
    pub fn send<O: Write>(&self, alloc: Global, out: &mut O) -> Result<bool, AllocError>
        ensures all { IfOk result (λ sent. IsTrue sent → Appends (O.contents out.old) (O.contents out.new) (out_text (answer_view self.now))) }
        ensures part { IfOk result (λ sent. IsFalse sent → AppendsPart (O.contents out.old) (O.contents out.new) (out_text (answer_view self.now))) }
        ensures none { OnErr result (O.contents out.new ≡ O.contents out.old) }
    {
        let text = match self {
            Answer::Certificate(certificate) => return Ok(send_certificate(out, certificate)),
            Answer::Outcome { names, outcome } => {
                render::outcome(alloc, names.as_slice(), outcome)?
            }
            Answer::Accepted => b"accepted\n".to_vec(alloc)?,
            Answer::Refused(refusal) => render::refused(alloc, *refusal)?,
            Answer::NotEnded => b"not ended\n".to_vec(alloc)?,
            Answer::Settled { names, outcome } => {
                render::settled(alloc, names.as_slice(), outcome)?
            }
            Answer::RaceFree(unseen) => render::race_free(alloc, *unseen)?,
        };
        Ok(send(out, text.as_slice()))
    }
}

impl Failure<'_> {
    ghost use Rattle.cilk_commands.specs.Replies.{failure_view};

    /// Returns 2 if words, files or texts are wrong, 3 if the run faults or a choice can't be made, and 5
    /// for out of memory.
    pub fn status(&self) -> u8
        ensures { result ≡ status_of (failure_view self.now) }
    {
        match self {
            Failure::Words(_)
            | Failure::Unreadable(_)
            | Failure::Program { .. }
            | Failure::Input { .. }
            | Failure::Script(_)
            | Failure::Trace { .. }
            | Failure::Changed(_) => WRONG,
            Failure::Run { .. } | Failure::Strand { .. } | Failure::Unmade(_) => FAULTED,
            Failure::Memory => NO_MEMORY,
        }
    }

    /// Returns the text for standard error.
    pub fn text(&self, alloc: Global) -> Result<Vec<u8>, AllocError>
        ensures { IfOk result (λ text. IsErrorText (failure_view self.now) text.items) }
    {
        match self {
            Failure::Words(text) => text.as_bytes().to_vec(alloc),
            Failure::Unreadable(name) => render::unreadable(alloc, name),
            Failure::Program { number, place } => render::place(alloc, b"program", *number, *place),
            Failure::Input { number, place } => render::place(alloc, b"input", *number, *place),
            Failure::Run { number, at } => render::place(alloc, b"fault", *number, *at as usize),
            Failure::Strand { number, name } => render::strand(alloc, *number, name.as_slice()),
            Failure::Script(line) => render::script(alloc, *line),
            Failure::Unmade(skip) => render::unmade(alloc, *skip),
            Failure::Trace { number, line } => render::place(
                alloc,
                b"trace",
                *number,
                *line as usize,
            ),
            Failure::Changed(name) => render::changed(alloc, name),
            Failure::Memory => NO_MEMORY_LINE.as_bytes().to_vec(alloc),
        }
    }
}

impl From<AllocError> for Failure<'_> {
    ghost use Rattle.cilk_commands.specs.declared.reply.Failure.TheVariants.{Memory};

    ghost from_gives = { λ _ e. e ≡ Memory };

    fn from(_: AllocError) -> Self {
        Failure::Memory
    }
}

//! Schedule scripts: short texts that choose what the workers of a stepwise Cilk machine do.
//!
//! A work-stealing run isn't repeatable: which worker moves next and which continuation a thief
//! steals depend on timing. A script fixes these choices in advance, so that one schedule can be
//! replayed and examined.
//!
//! | Line | Choice |
//! |---|---|
//! | `run W` | Worker W continues its frame. |
//! | `run W N` | The same choice N times. |
//! | `steal W K` | Worker W steals the continuation at place K among all that are offered. |
//! | `all` | Rounds of all workers, until the run has ended. |
//!
//! Workers count from 1, places from 0. Words are separated by spaces. Empty lines and lines that
//! begin with `#` are ignored. A line ends with LF or CR LF; the last one may end with the text.
//!
//! ```text
//! // Worker 1 makes four choices, worker 2 steals the first continuation, then all run to the end.
//! let steps = read(alloc, b"run 1 4\nsteal 2 0\nall\n")?;
//! let mut choices = Choices::new(steps.as_slice());
//! choices.next()      // Some(Run(1)), four times; then Some(Steal(2, 0)), Some(Rounds), None
//! ```

ghost use Rattle.std.specs.Prelude.{◌≡◌, ◌≢◌, ◌+◌, ◌++◌, ◌≤◌, length, IfOk, IfErr, OnOk};
ghost use Rattle.cilk_parser.specs.Scripts.{IsBadAt, IsFaultOf, IsLine, IsScript, order_in, steps_of, without_return};

use crate::script_line::order;
use cilk_syntax::lexer::{Class, split};
use std::alloc::{AllocError, AllocFailed, Global};

/// The greatest number in a script.
pub const MAX_NUMBER: u64 = 1_000_000;

/// The maximum size of a script in bytes.
pub const MAX_SCRIPT: usize = 1_048_576;

/// The order of a line. Workers count from 1, continuations from 0.
#[derive(Clone, Copy)]
pub enum LineOrder {
    /// The worker continues its frame, `count` times.
    Run { worker: u32, count: u32 },
    /// The worker steals the continuation at `place` among all that are offered.
    Steal { worker: u32, place: u32 },
    /// Rounds of all workers, until the run has ended.
    All,
}

/// An order with its line number, from 1.
#[derive(Clone, Copy)]
pub struct Step {
    pub line: usize,
    pub order: LineOrder,
}

/// Why a text couldn't be read as a script.
#[derive(Clone, Copy)]
pub enum ScriptFault {
    /// The first line, from 1, that has no valid form or exceeds [`MAX_SCRIPT`].
    Line(usize),
    /// Out of memory.
    Memory,
}

impl From<AllocError> for ScriptFault {
    ghost use Rattle.cilk_parser.specs.declared.script.ScriptFault.TheVariants.{Memory};

    ghost from_gives = { λ _ e. e ≡ Memory };

    fn from(_: AllocError) -> ScriptFault {
        ScriptFault::Memory
    }
}

impl<T: Drop> From<AllocFailed<T>> for ScriptFault {
    ghost use Rattle.cilk_parser.specs.declared.script.ScriptFault.TheVariants.{Memory};

    ghost from_gives = { λ _ e. e ≡ Memory };

    fn from(_: AllocFailed<T>) -> ScriptFault {
        ScriptFault::Memory
    }
}

/// Parses a text into its steps, in order. The time is linear in the text.
pub fn read(alloc: Global, text: &[u8]) -> Result<Vec<Step>, ScriptFault>
    ensures script { IfOk result (λ steps. IsScript text.now steps.items) }
    ensures none { IfErr result (λ e. IsFaultOf text.now e) }
{
    let mut steps = Vec::new(alloc);
    let mut line = 1;
    let mut room = MAX_SCRIPT;
    let mut rest = text;
    'lines: loop {
        let (front, behind) = split(Class::Line, rest);
        match behind {
            [] => {
                if rest.len() > room {
                    return Err(ScriptFault::Line(line));
                }
                push_step(&mut steps, line, rest)?;
                return Ok(steps);
            }
            [_, after @ ..] => {
                if front.len() >= room {
                    return Err(ScriptFault::Line(line));
                }
                push_step(&mut steps, line, without_return(front))?;
                room -= front.len() + 1;
                line += 1;
                rest = after;
            }
        }
    }
}

// Appends the step of a line. Empty lines and comments have none.
fn push_step(steps: &mut Vec<Step>, line: usize, text: &[u8]) -> Result<(), ScriptFault>
    ensures steps { OnOk result (IsLine text.now × (steps.new.items ≡ steps.old.items ++ steps_of line text.now (order_in text.now))) }
    ensures fault { IfErr result (λ e. IsBadAt line text.now e) }
{
    match text {
        [] => Ok(()),
        [b'#', ..] => Ok(()),
        _ => {
            let Some(order) = order(text) else {
                return Err(ScriptFault::Line(line));
            };
            steps.push(Step { line, order })?;
            Ok(())
        }
    }
}

// The line without a carriage return at its end.
fn without_return(line: &[u8]) -> &[u8]
    ensures { result.now ≡ without_return line.now }
{
    if line.is_empty() || line[line.len() - 1] != b'\r' {
        return line;
    }
    &line[..line.len() - 1]
}

//! The earliest immediate predecessor of each event of a run, found in one pass.

ghost use Rattle.std.specs.Prelude.{◌≡◌, ◌+◌, ◌<◌, ◌^◌, length, IfOk};
ghost use Rattle.cilk_tree.specs.Earliest.{ends_of, ahead_of, given, goes_on, met, nothing, returned, sooner, starts};

use crate::mark::Mark;
use cilk_types::event::Pos;
use cilk_types::invocation::Invocation;
use cilk_types::stack::Stack;
use std::alloc::{AllocError, Global};
use std::marker::Model;

/// A frame that waits for a child: how and where it started the child, and the earliest `end` that
/// its block awaits.
#[derive(Clone, Copy)]
pub struct Parent {
    pub how: Invocation,
    pub at: Pos,
    pub ends: Option<Pos>,
}

/// The earliest predecessor of the next event, the earliest `end` that the current block awaits, and
/// the frames that wait.
#[derive(Drop)]
pub(crate) struct Pass {
    ahead: Option<Pos>,
    ends: Option<Pos>,
    waiting: Stack<Parent>,
}

impl Model for Pass {
    ghost use Rattle.cilk_tree.specs.Earliest.{Known};

    ghost Value = { Known };

    ghost view = { λ p. record { ahead = p.ahead; ends = p.ends; waiting = p.waiting } };
}

impl Pass {
    /// Before the first event.
    pub(crate) fn new(alloc: Global) -> Pass
        ensures { result ≡ nothing }
    {
        Pass {
            ahead: None,
            ends: None,
            waiting: Stack::new(alloc),
        }
    }

    /// Meets the event at a position and returns its earliest immediate predecessor.
    pub(crate) fn meet(&mut self, mark: Mark, at: Pos) -> Result<Option<Pos>, AllocError>
        ensures earliest { IfOk result (λ first. first ≡ given mark self.old) }
        ensures met { IfOk result (λ _. self.new ≡ met mark at self.old) }
    {
        let mut first = self.ahead;
        match mark {
            Mark::Plain | Mark::Begin | Mark::Resume => self.ahead = Some(at),
            Mark::Sync => {
                first = earlier(self.ahead, self.ends);
                self.ahead = Some(at);
                self.ends = None;
            }
            Mark::Spawn => self.start(Invocation::Spawn, at)?,
            Mark::Call => self.start(Invocation::Call, at)?,
            Mark::End => self.end(at),
        }
        Ok(first)
    }

    // The current frame starts a child.
    fn start(&mut self, how: Invocation, at: Pos) -> Result<(), AllocError>
        ensures { IfOk result (λ _. self.new ≡ starts how at self.old) }
    {
        let ends = self.ends;
        self.waiting.push(Parent { how, at, ends })?;
        self.ahead = Some(at);
        self.ends = None;
        Ok(())
    }

    // The current frame ends.
    fn end(&mut self, at: Pos)
        ensures { self.new ≡ returned at self.old.ends self.old.waiting }
    {
        let Some(parent) = self.waiting.pop() else {
            self.ahead = Some(at);
            return;
        };
        match parent.how {
            Invocation::Call => {
                self.ahead = Some(at);
                self.ends = parent.ends;
            }
            Invocation::Spawn => {
                self.ahead = Some(parent.at);
                self.ends = earlier(Some(at), parent.ends);
            }
        }
    }
}

// Returns the earlier of two positions, or the only one there is.
fn earlier(first: Option<Pos>, second: Option<Pos>) -> Option<Pos>
    ensures { result ≡ sooner first second }
{
    match (first, second) {
        (None, _) => second,
        (Some(_), None) => first,
        (Some(a), Some(b)) => { if b < a { Some(b) } else { Some(a) } }
    }
}

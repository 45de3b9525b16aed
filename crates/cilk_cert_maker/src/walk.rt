// One pass over a run's events, with a stack of the suspended frames.

ghost use Rattle.std.specs.Prelude.{◌≡◌, ◌+◌, ◌<◌, ◌^◌, length, IfOk};
ghost use Rattle.cilk_cert_maker.specs.Walk.{opening, begun, entered, left, step};

use cilk_cert_text::line::Frame;
use cilk_tree::mark::Mark;
use cilk_types::event::FrameNo;
use cilk_types::stack::Stack;
use std::alloc::{AllocError, Global};
use std::marker::Model;

/// A frame that has begun and hasn't ended: its number, and how many calls and spawns it has made.
#[derive(Clone, Copy)]
pub struct Open {
    pub number: FrameNo,
    pub made: u32,
}

/// The current frame on top of the suspended ones, and the two columns so far.
#[derive(Drop)]
pub struct Walk {
    top: Open,
    below: Stack<Open>,
    frames: Vec<Frame>,
    owners: Vec<FrameNo>,
}

impl Model for Walk {
    ghost use Rattle.cilk_cert_maker.specs.Walk.{Walked};

    ghost Value = { Walked };

    ghost view = { λ w. record { top = w.top; below = w.below; frames = w.frames.items; owners = w.owners.items } };
}

impl Walk {
    /// Returns the state before the first event: the root is current.
    pub fn new(alloc: Global) -> Result<Walk, AllocError>
        ensures { IfOk result (λ w. w ≡ opening) }
    {
        let mut frames = Vec::new(alloc);
        frames.push(Frame {
            parent: 0,
            ordinal: 0,
        })?;
        let mut below = Stack::new(alloc);
        below.push(Open { number: 0, made: 0 })?;
        Ok(Walk {
            top: Open { number: 1, made: 0 },
            below,
            frames,
            owners: Vec::new(alloc),
        })
    }

    /// Processes the next event.
    pub fn step(&mut self, mark: Mark) -> Result<(), AllocError>
        requires made { self.old.top.made + 1 < 2 ^ 32 }
        requires frames { length self.old.frames + 1 < 2 ^ 32 }
        ensures { IfOk result (λ _. self.new ≡ step mark self.old) }
    {
        match mark {
            Mark::Begin | Mark::Sync | Mark::Resume => self.begin()?,
            Mark::Spawn | Mark::Call => self.enter()?,
            Mark::End => self.leave(),
            Mark::Plain => {}
        }
        Ok(())
    }

    // A strand of the current frame begins.
    fn begin(&mut self) -> Result<(), AllocError>
        ensures { IfOk result (λ _. self.new ≡ begun self.old) }
    {
        self.owners.push(self.top.number)?;
        Ok(())
    }

    // A child of the current frame begins.
    fn enter(&mut self) -> Result<(), AllocError>
        requires made { self.old.top.made + 1 < 2 ^ 32 }
        requires frames { length self.old.frames + 1 < 2 ^ 32 }
        ensures { IfOk result (λ _. self.new ≡ entered self.old) }
    {
        let parent = self.top.number;
        let made = self.top.made + 1;
        let number = self.frames.len() as FrameNo + 1;
        self.frames.push(Frame {
            parent,
            ordinal: made,
        })?;
        self.below.push(Open {
            number: parent,
            made,
        })?;
        self.top = Open { number, made: 0 };
        Ok(())
    }

    // The current frame ends, and its parent continues.
    fn leave(&mut self)
        ensures { self.new ≡ left self.old }
    {
        if let Some(open) = self.below.pop() {
            self.top = open;
        }
    }

    /// Returns the frames, and the frame of each strand.
    pub fn into_columns(self) -> (Vec<Frame>, Vec<FrameNo>)
        ensures frames { result.0.items ≡ self.frames }
        ensures owners { result.1.items ≡ self.owners }
    {
        (self.frames, self.owners)
    }
}

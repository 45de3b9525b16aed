//! A case with its run: the frames, places and names that a report speaks of.

use crate::case::Case;
use crate::map::GlobalName;
use crate::replay::{FrameNote, NO_FRAME};
use crate::runs::Run;
use cilk_messages::excerpt::push_excerpt;
use cilk_messages::place::{between, locate};
use cilk_messages::sentence::{Part, Sentence, say};
use cilk_program::program::Body;
use cilk_syntax::tree::Name;
use cilk_types::event::{Event, Instance};
use cilk_types::invocation::Invocation;
use std::alloc::AllocError;

/// A case and its run.
#[derive(Clone, Copy)]
pub struct Scene<'a> {
    pub case: &'a Case<'a>,
    pub run: &'a Run,
}

/// Places.
impl<'a> Scene<'a> {
    /// Returns `FILE:LINE:COLUMN` of a byte.
    pub fn place(&self, at: usize) -> Part<'a> {
        Part::Place(self.case.file, locate(self.case.text, at))
    }

    /// Returns the line of a byte.
    pub fn line(&self, at: usize) -> usize {
        locate(self.case.text, at).line
    }

    /// Returns the byte of an event. Of a child's result it is the place that invokes the child.
    pub fn byte_of(&self, index: usize) -> usize {
        match self.run.replay.steps.get(index) {
            Some(step) if self.run.gives_result(index) => self.note(step.frame).invoked_at,
            Some(step) => step.at,
            None => 0,
        }
    }

    /// Returns the byte of the text at which a body has its name.
    pub fn named_at(&self, body: Body) -> usize {
        match self.case.map.body(body) {
            Some(map) => map.name.at,
            None => 0,
        }
    }

    /// Ends a line about a byte of the text, and adds an excerpt of the text there.
    pub fn push_excerpt(&self, report: &mut String, at: usize) -> Result<(), AllocError> {
        report.push('\n')?;
        push_excerpt(self.case.alloc, report, self.case.text, at)
    }

    /// Adds a sentence.
    pub fn push(&self, report: &mut String, sentence: &Sentence<'_>) -> Result<(), AllocError> {
        sentence.push(self.case.alloc, report)
    }
}

/// Frames. Parents have smaller numbers than their children.
impl<'a> Scene<'a> {
    /// Returns the note of a frame.
    pub fn note(&self, number: usize) -> FrameNote {
        match self.run.replay.frames.get(number) {
            Some(note) => *note,
            None => NO_FRAME,
        }
    }

    /// Returns the frame of an event.
    pub fn frame_of(&self, index: usize) -> Option<usize> {
        match self.run.replay.steps.get(index) {
            Some(step) => Some(step.frame),
            None => None,
        }
    }

    /// Returns the parent of a frame; none for the first frame.
    pub fn above(&self, frame: usize) -> Option<usize> {
        if frame == 0 {
            None
        } else {
            Some(self.note(frame).parent)
        }
    }

    /// Returns the nearest frame that two frames are in.
    pub fn common(&self, one: usize, other: usize) -> usize {
        let mut one = one;
        let mut other = other;
        for _level in 0..self.run.replay.frames.len() {
            if one == other {
                break;
            }
            if one > other {
                one = self.note(one).parent;
            } else {
                other = self.note(other).parent;
            }
        }
        one
    }

    /// Returns the child of `outer` that a frame is in.
    pub fn child_of(&self, outer: usize, frame: usize) -> Option<usize> {
        let mut at = frame;
        for _level in 0..self.run.replay.frames.len() {
            let parent = self.note(at).parent;
            if at == 0 {
                break;
            }
            if parent == outer {
                return Some(at);
            }
            at = parent;
        }
        None
    }

    /// Returns whether a frame runs turns of a loop.
    pub fn is_of_loop(&self, frame: usize) -> bool {
        matches!(self.note(frame).body, Body::Loop(_))
    }

    /// Returns whether a frame halves the turns of its loop.
    pub fn halves(&self, frame: usize) -> bool {
        let note = self.note(frame);
        matches!(note.body, Body::Loop(_)) && note.high.saturating_sub(note.low) > 1
    }

    /// Returns whether a frame is a spawned child.
    pub fn is_spawned(&self, frame: usize) -> bool {
        self.note(frame).how == Invocation::Spawn
    }

    /// Returns the nearest frame of a function around a frame, and the function's number.
    pub fn around(&self, frame: usize) -> (usize, u32) {
        let mut at = frame;
        for _level in 0..self.run.replay.frames.len() {
            let note = self.note(at);
            if let Body::Function(number) = note.body {
                return (at, number);
            }
            at = note.parent;
        }
        (at, 0)
    }
}

/// Names.
impl<'a> Scene<'a> {
    /// Returns the bytes of a name.
    pub fn word(&self, name: Name) -> &'a [u8] {
        between(self.case.text, name.at, name.end)
    }

    /// Returns the name of a body; `cilk_for` for a loop.
    pub fn body_name(&self, body: Body) -> &'a [u8] {
        match self.case.map.body(body) {
            Some(map) => self.word(map.name),
            None => &[],
        }
    }

    /// Returns the name of the function that a frame runs, or in which its loop is.
    pub fn function_of(&self, frame: usize) -> &'a [u8] {
        self.body_name(Body::Function(self.around(frame).1))
    }

    /// Returns the frame that has the variable of a cell, and the variable's name.
    pub fn variable(&self, cell: usize) -> Option<(usize, Name)> {
        let mut owner: usize = 0;
        for frame in 0..self.run.replay.frames.len() {
            if self.note(frame).cell <= cell {
                owner = frame;
            }
        }
        let note = self.note(owner);
        let name = match self.case.map.body(note.body) {
            Some(map) => map.cells.get(cell.saturating_sub(note.cell)),
            None => None,
        };
        match name {
            Some(name) => Some((owner, *name)),
            None => None,
        }
    }

    /// Returns the global that has a cell, if a global has it.
    pub fn global(&self, cell: usize) -> Option<GlobalName> {
        if cell < self.case.program.globals.len() {
            self.case.map.global(cell)
        } else {
            None
        }
    }

    /// Returns the name with which a reducer is declared. The first frame numbers the global
    /// reducers before its own.
    pub fn reducer(&self, instance: Instance) -> Option<Name> {
        let place = (instance.place as usize).saturating_sub(1);
        let frame = (instance.frame as usize).saturating_sub(1);
        let globals = if frame == 0 {
            self.case.map.reducers.len()
        } else {
            0
        };
        if place < globals {
            return self.case.map.reducers.get(place).copied();
        }
        match self.case.map.body(self.note(frame).body) {
            Some(map) => map.reducers.get(place.saturating_sub(globals)).copied(),
            None => None,
        }
    }

    /// Returns the cell that an event reads or writes, and whether it writes.
    pub fn access(&self, index: usize) -> Option<(usize, bool)> {
        match self.run.event(index) {
            Some(Event::Read { cell, .. }) => Some((cell as usize, false)),
            Some(Event::Write { cell, .. }) => Some((cell as usize, true)),
            _ => None,
        }
    }

    /// Returns the variable, element or reducer that an event accesses, in words: none for other
    /// events.
    pub fn accessed(&self, event: &Event) -> Sentence<'a> {
        let cell = match *event {
            Event::Read { cell, .. } | Event::Write { cell, .. } => cell as usize,
            Event::Create { instance }
            | Event::Update { instance, .. }
            | Event::Set { instance, .. }
            | Event::Value { instance, .. } => {
                return match self.reducer(instance) {
                    Some(name) => say("the reducer `{}`").word(self.word(name)),
                    None => say(""),
                };
            }
            _ => return say(""),
        };
        if let Some(
            GlobalName {
                name,
                first,
                length,
            },
        ) = self.global(cell)
        {
            let words = if length.is_some() { "`{}[{}]`" } else { "`{}`" };
            return say(words)
                .word(self.word(name))
                .count(cell.saturating_sub(first));
        }
        match self.variable(cell) {
            Some((frame, name)) => {
                let words = say("`{}` of `{}`").word(self.word(name));
                words.word(self.function_of(frame))
            }
            None => say(""),
        }
    }

    /// Returns the turn of a frame, by the loop's variable.
    pub fn turn(&self, frame: usize) -> Sentence<'a> {
        let note = self.note(frame);
        say("turn `{}` = {}")
            .word(self.turn_variable(note.body))
            .with(Part::Number(note.low))
    }

    /// Returns the name of a loop's variable.
    pub fn turn_variable(&self, body: Body) -> &'a [u8] {
        let variable = match self.case.map.body(body) {
            Some(map) => map.cells.first(),
            None => None,
        };
        match variable {
            Some(name) => self.word(*name),
            None => &[],
        }
    }
}

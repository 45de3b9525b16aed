//! The frames from an event up to the first one, in a report.

use crate::replay::FrameNote;
use crate::scene::Scene;
use cilk_messages::sentence::{Part, say};
use cilk_program::program::Body;
use cilk_types::event::Event;
use cilk_types::invocation::Invocation;
use std::alloc::AllocError;

// The most lines that a report shows of a path.
const SHOWN: usize = 10;

// A frame writes its arguments among this many of its first events.
const ARRIVING: usize = 100;

/// Paths from a frame up to `top`, without `top`. Frames above the first one that only halve turns
/// are left out.
impl<'a> Scene<'a> {
    // The next frame of a path.
    fn next_above(&self, frame: usize, top: Option<usize>) -> Option<usize> {
        let mut at = frame;
        for _level in 0..self.run.replay.frames.len() {
            if at == 0 || Some(self.note(at).parent) == top {
                return None;
            }
            at = self.note(at).parent;
            if !self.halves(at) {
                return Some(at);
            }
        }
        None
    }

    /// Returns the number of frames of a path.
    pub fn length(&self, frame: usize, top: Option<usize>) -> usize {
        let mut at = if Some(frame) == top {
            None
        } else {
            Some(frame)
        };
        let mut length: usize = 0;
        for _level in 0..self.run.replay.frames.len() {
            let Some(frame) = at else {
                break;
            };
            length = length.saturating_add(1);
            at = self.next_above(frame, top);
        }
        length
    }

    /// Adds a line for each frame of a path: what it runs, and where it was invoked. Frames of a
    /// recursion, one above the other, share a line.
    pub fn push_path(
        &self,
        report: &mut String,
        frame: usize,
        top: Option<usize>,
    ) -> Result<(), AllocError> {
        let mut at = if Some(frame) == top {
            None
        } else {
            Some(frame)
        };
        for _line in 0..SHOWN {
            let Some(first) = at else {
                return Ok(());
            };
            let (last, count, next) = self.row_from(first, top);
            self.push_row(report, first, last, count)?;
            at = next;
        }
        match at {
            Some(first) => {
                let more = say("  and {} frame{} more\n").counted(self.length(first, top));
                self.push(report, &more)
            }
            None => Ok(()),
        }
    }

    // The last frame of the longest row that begins with a frame, and their number: each runs one function
    // and is invoked at one place. Then the frame after the row.
    fn row_from(&self, first: usize, top: Option<usize>) -> (usize, usize, Option<usize>) {
        let FrameNote {
            body,
            invoked_at,
            ..
        } = self.note(first);
        let mut last = first;
        let mut count: usize = 1;
        let mut next = self.next_above(first, top);
        for _level in 0..self.run.replay.frames.len() {
            let above = next.unwrap_or(0);
            let note = self.note(above);
            if above == 0 || note.body != body || note.invoked_at != invoked_at {
                break;
            }
            last = above;
            count = count.saturating_add(1);
            next = self.next_above(last, top);
        }
        (last, count, next)
    }

    fn push_row(
        &self,
        report: &mut String,
        first: usize,
        last: usize,
        count: usize,
    ) -> Result<(), AllocError> {
        report.push_str("  in ")?;
        self.push_frame(report, first)?;
        if count > 1 && self.words_of(first) > 0 {
            report.push_str(" to ")?;
            self.push_frame(report, last)?;
        }
        let note = self.note(first);
        let invoked = match (note.body, note.how) {
            (Body::Function(_), Invocation::Call) if first > 0 => ", called at {}",
            (Body::Function(_), Invocation::Spawn) if first > 0 => ", spawned at {}",
            _ => "",
        };
        self.push(report, &say(invoked).with(self.place(note.invoked_at)))?;
        let times = if count > 1 { " ({} times)\n" } else { "\n" };
        self.push(report, &say(times).count(count))
    }

    /// Adds what a frame runs: a call with its arguments, a turn, or a loop.
    pub fn push_frame(&self, report: &mut String, frame: usize) -> Result<(), AllocError> {
        let note = self.note(frame);
        if let Body::Function(number) = note.body {
            return self.push_call(report, frame, number);
        }
        if !self.halves(frame) {
            self.push(report, &self.turn(frame))?;
            report.push_str(" of ")?;
        }
        let at = self.named_at(note.body);
        self.push(report, &say("the `cilk_for` at {}").with(self.place(at)))
    }

    /// Returns how many numbers the function of a frame is given.
    pub fn words_of(&self, frame: usize) -> usize {
        let (_, number) = self.around(frame);
        match self.case.program.functions.get(number as usize) {
            Some(function) => function.words as usize,
            None => 0,
        }
    }

    fn push_call(&self, report: &mut String, frame: usize, number: u32) -> Result<(), AllocError> {
        let name = self.body_name(Body::Function(number));
        self.push(report, &say("`{}").word(name))?;
        let words = self.words_of(frame);
        for place in 0..words {
            let value = self.argument(frame, place).unwrap_or(0);
            let form = if place == 0 { "({}" } else { ", {}" };
            self.push(report, &say(form).with(Part::Number(value)))?;
        }
        report.push_str(if words == 0 { "`" } else { ")`" })
    }

    /// Returns a number that a frame was given, by its place among them from 0.
    pub fn argument(&self, frame: usize, place: usize) -> Option<i64> {
        let note = self.note(frame);
        let wanted = note.cell.saturating_add(place);
        for index in note.begun..note.begun.saturating_add(ARRIVING) {
            match self.run.event(index) {
                Some(Event::Write { cell, value }) if cell as usize == wanted => return Some(value),
                _ => {}
            }
        }
        None
    }
}

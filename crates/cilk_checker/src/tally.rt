//! Compares the lines of a certificate with the run as they arrive.

ghost use Rattle.std.specs.Prelude.{◌≡◌, ◌↔◌, ℕ, List, IsTrue, Some, IfOk, OnOk};
ghost use Rattle.cilk_types.specs.declared.event.Event.{Event};
ghost use Rattle.cilk_cert_text.specs.Certificates.{Contents};
ghost use Rattle.cilk_cert_maker.specs.Sources.{AreLast};
ghost use Rattle.cilk_cert_maker.specs.Listed.{event_in, source_at, source_in};

use crate::first::First;
use crate::right::{Right, event_behind, has, has_class, has_frame, has_hebrew};
use cilk_cert_maker::listed_entries::{Creations, entry, source_due, source_of};
use cilk_cert_maker::sources::{LastWrites, cells_written};
use cilk_cert_text::line::{Entry, Frame, Line, Strand};
use cilk_types::event::Event;
use std::alloc::{AllocError, Global};

/// The first wrong item of each column so far, and the state for the next event.
#[derive(Drop)]
pub struct Tally {
    pub frames: First,
    pub owners: First,
    pub hebrews: First,
    pub classes: First,
    pub events: First,
    pub sources: First,
    pub result: i64,
    pub writes: LastWrites,
    pub made: Creations,
}

// Whether the entry lists the event. `made` are the reducers created up to it.
fn lists(made: &Creations, entry: Entry, event: &Event) -> bool
    ensures { IsTrue result ↔ (event_in made.now.made.items entry ≡ Some event.now) }
{
    match made.event(entry) {
        Some(listed) => listed == *event,
        None => false,
    }
}

// Whether the entry's source is the event's: the last write of its cell for a read, else none.
fn has_source(writes: &LastWrites, entry: Entry, event: &Event) -> bool
    ensures { (es : List Event) (n : ℕ) → AreLast es n writes.now.positions.items
        → IsTrue result ↔ (source_in entry ≡ source_at es n event.now) }
{
    source_of(entry) == source_due(writes, event)
}

impl Tally {
    ghost use Rattle.cilk_cert_text.specs.Gathering.{nothing};
    ghost use Rattle.cilk_cert_text.specs.declared.line.Line.TheVariants as lines;
    ghost use Rattle.cilk_checker.specs.Tallies.{AreFew, Tallied, TalliesLine};

    /// Returns the tally before the first line.
    pub fn new(alloc: Global, right: &Right) -> Result<Tally, AllocError>
        ensures { IfOk result (λ t. Tallied right.now nothing t) }
    {
        Ok(Tally {
            frames: First::NONE,
            owners: First::NONE,
            hebrews: First::NONE,
            classes: First::NONE,
            events: First::NONE,
            sources: First::NONE,
            result: 0,
            writes: LastWrites::new(alloc, cells_written(right.trace.as_slice()))?,
            made: Creations::new(alloc),
        })
    }

    fn meet_frame(&mut self, right: &Right, frame: Frame)
        requires few { AreFew right.now }
        ensures { (number : ℕ) → TalliesLine right.now self.old (lines.Frame number frame) self.new }
    {
        let is_right = has_frame(right.frames.as_slice(), self.frames.agreed, frame);
        self.frames.meet(is_right);
    }

    fn meet_strand(&mut self, right: &Right, strand: Strand)
        requires few { AreFew right.now }
        ensures { (number : ℕ) → TalliesLine right.now self.old (lines.Strand number strand) self.new }
    {
        let is_owner = has(right.owners.as_slice(), self.owners.agreed, strand.frame);
        self.owners.meet(is_owner);
        let is_hebrew = has_hebrew(&right.labels, self.hebrews.agreed, strand.hebrew);
        self.hebrews.meet(is_hebrew);
        let is_class = has_class(&right.classes, self.classes.agreed, strand.class);
        self.classes.meet(is_class);
    }

    fn meet_event(&mut self, right: &Right, entry: Entry) -> Result<(), AllocError>
        requires few { AreFew right.now }
        requires heard { (c : Contents) × Tallied right.now c self.old }
        ensures { OnOk result (TalliesLine right.now self.old (lines.Event entry) self.new) }
    {
        if self.events.differs {
            return Ok(());
        }
        let Some(event) = event_behind(right.trace.as_slice(), self.events.agreed) else {
            self.events.meet(false);
            return Ok(());
        };
        self.made.meet(&event)?;
        let is_listed = lists(&self.made, entry, &event);
        if !is_listed {
            self.events.meet(false);
            return Ok(());
        }
        let is_right = has_source(&self.writes, entry, &event);
        self.sources.meet(is_right);
        let at = self.events.agreed + 1;
        self.writes.meet(&event, at);
        self.events.meet(true);
        Ok(())
    }

    // The expected line of the next frame.
    fn frame_due(&self, right: &Right) -> Option<Line> {
        let number = self.frames.agreed.checked_add(1)?;
        let frame = *right.frames.as_slice().get(self.frames.agreed as usize)?;
        Some(Line::Frame { number, frame })
    }

    // The expected line of the next strand.
    fn strand_due(&self, right: &Right) -> Option<Line> {
        let number = self.owners.agreed.checked_add(1)?;
        let frame = *right.owners.as_slice().get(self.owners.agreed as usize)?;
        if number > right.labels.count() || number > right.classes.count() {
            return None;
        }
        let hebrew = right.labels.hebrew(number);
        let class = right.classes.class(number);
        let strand = Strand {
            frame,
            hebrew,
            class,
        };
        Some(Line::Strand { number, strand })
    }

    // The expected line of the next event, in version 2.
    fn event_due(&self, right: &Right) -> Option<Line> {
        let event = event_behind(right.trace.as_slice(), self.events.agreed)?;
        Some(Line::Event(entry(&event, &self.writes)))
    }

    /// Returns the line that comes next if all lines so far are right.
    ///
    /// It is a guess: a text that begins with this line need not be parsed. `None` if the next line
    /// is none of a frame, a strand or an event.
    pub fn due(&self, right: &Right) -> Option<Line> {
        if self.events.differs {
            return None;
        }
        if let Some(line) = self.frame_due(right) {
            return Some(line);
        }
        match self.strand_due(right) {
            Some(line) => Some(line),
            None => self.event_due(right),
        }
    }

    /// Compares one more line.
    pub fn meet(&mut self, right: &Right, line: Line) -> Result<(), AllocError>
        requires few { AreFew right.now }
        requires heard { (c : Contents) × Tallied right.now c self.old }
        ensures { OnOk result (TalliesLine right.now self.old line self.new) }
    {
        match line {
            Line::Version(_) | Line::Size(_) | Line::End => {}
            Line::Frame { frame, .. } => self.meet_frame(right, frame),
            Line::Strand { strand, .. } => self.meet_strand(right, strand),
            Line::Event(entry) => self.meet_event(right, entry)?,
            Line::Result(value) => self.result = value,
        }
        Ok(())
    }
}

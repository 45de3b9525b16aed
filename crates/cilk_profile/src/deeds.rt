//! What the workers of a stepwise run do: a line for each steal, wait and end, and for the strands
//! that a worker makes before the next line of another one.
//!
//! Each frame is followed beside its twin, the frame of the serial run that was invoked at the same
//! place. So lines, strands and events are those of the serial run, as long as a frame makes the
//! same events. A frame that departs, as a race lets it, is shown by the number of its events.

use crate::rows::{push_range, push_runner, push_runners};
use cilk_findings::replay::Replay;
use cilk_findings::scene::Scene;
use cilk_messages::sentence::say;
use cilk_schedule::{Choice, Told};
use cilk_types::event::Event;
use std::alloc::{AllocError, Global};

/// The most lines that are shown.
const SHOWN: usize = 200;

// The place of no event of the serial run. So is the one after it.
const NOWHERE: usize = usize::MAX;

/// A frame of the run: its parent, its twin, and the place of the event of the serial run that is its
/// next one, if it is still like its twin.
#[derive(Clone, Copy)]
struct Seat {
    parent: usize,
    is_spawned: bool,
    twin: Option<usize>,
    next: usize,
}

/// A continuation that a worker offers: its frame, and the byte of the spawn.
#[derive(Clone, Copy)]
struct Offer {
    worker: usize,
    frame: usize,
    at: Option<usize>,
}

/// What a worker is at: its frame, its last deed and that one's number, and the strand of its last
/// event, if that deed has it.
#[derive(Clone, Copy)]
struct Hand {
    frame: usize,
    strand: Option<u32>,
    deed: usize,
    last: Option<Deed>,
}

// A worker that has done nothing.
const IDLE: Hand = Hand {
    frame: 0,
    strand: None,
    deed: NOWHERE,
    last: None,
};

/// Events that a worker makes one after the other, without a counterpart in the serial run where
/// `strand` is 0: from a strand and an event of that run to others, and from a byte to another one.
#[derive(Clone, Copy)]
struct Stretch {
    strand: u32,
    end: u32,
    count: usize,
    first: usize,
    last: usize,
    from: usize,
    upto: usize,
}

/// Words with a gap for the worker and one for a line, and those where the line isn't known.
type Words = (&'static str, &'static str);

const STEALS: Words = (
    "worker {} steals the continuation of line {} from worker {}",
    "worker {} steals a continuation from worker {}",
);

const WAITS: Words = (
    "worker {} waits at the sync of line {}",
    "worker {} waits at a sync",
);

const STOPS: Words = (
    "worker {} stops at line {} by fault {}",
    "worker {} stops by fault {}",
);

#[derive(Clone, Copy)]
enum Deed {
    Makes(Stretch),
    /// These words, by a byte of the text, and the number of a fault or of the worker stolen from.
    Tells(Words, Option<usize>, usize),
    /// The frame with this twin ends, which is the first or has a parent that was stolen.
    Ends(Option<usize>),
}

/// An event of the serial run: its form, and its strand.
#[derive(Clone, Copy)]
struct Twin {
    form: u32,
    strand: u32,
}

/// What each worker did so far. Of the serial run it has the frames and places, and of each event only
/// what tells whether another one is alike.
pub struct Deeds<'a> {
    replay: &'a Replay,
    // How many cells globals have.
    globals: usize,
    twins: Vec<Twin>,
    seats: Vec<Seat>,
    // By worker; each worker's oldest first.
    offers: Vec<Offer>,
    hands: Vec<Hand>,
    deeds: Vec<(usize, Deed)>,
    // The number of deeds, with those that aren't shown.
    count: usize,
}

// Written out, so that a proof follows one call where deeds are dropped.
impl Drop for Deeds<'_> {
    fn drop(self) {
        let Deeds {
            replay: _replay,
            globals: _globals,
            twins: _twins,
            seats: _seats,
            offers: _offers,
            hands: _hands,
            deeds: _deeds,
            count: _count,
        } = self;
    }
}

impl<'a> Deeds<'a> {
    /// Deeds of no workers yet. The events are those of the serial run with these frames and places.
    pub fn new(
        alloc: Global,
        globals: usize,
        events: &[Event],
        replay: &'a Replay,
    ) -> Result<Deeds<'a>, AllocError> {
        let mut twins = Vec::with_capacity(alloc, events.len())?;
        let mut strand: u32 = 0;
        for event in events {
            if let Event::Begin { .. } | Event::Resume { .. } | Event::Sync = event {
                strand = strand.saturating_add(1);
            }
            twins.push(Twin {
                form: form_of(event, globals),
                strand,
            })?;
        }
        Ok(Deeds {
            replay,
            globals,
            twins,
            seats: Vec::new(alloc),
            offers: Vec::new(alloc),
            hands: Vec::new(alloc),
            deeds: Vec::new(alloc),
            count: 0,
        })
    }

    /// Begins with the first frame, which the first of the workers holds.
    pub fn open(&mut self, workers: u32) -> Result<(), AllocError> {
        self.hands.resize(workers as usize, IDLE)?;
        self.seats.push(Seat {
            parent: 0,
            is_spawned: false,
            twin: Some(0),
            next: 0,
        })?;
        Ok(())
    }

    /// Notes what came of a choice, or the number of the fault that stops the worker.
    pub fn note(&mut self, choice: Choice, told: Result<Told, u16>) -> Result<(), AllocError> {
        let (worker, place) = match choice {
            Choice::Run(worker) => (worker, SHOWN),
            Choice::Steal(worker, place) => (worker, place),
        };
        let worker = (worker as usize).saturating_sub(1);
        let hand = self.hands.get(worker).copied().unwrap_or(IDLE);
        match told {
            Ok(Told::Did(act)) => {
                let frame = (act.frame as usize).saturating_sub(1);
                self.make(worker, frame, &act.event)
            }
            Ok(Told::Waits) => {
                let at = self.byte_of(self.next_of(hand.frame));
                self.add(worker, Deed::Tells(WAITS, at, 0))
            }
            Err(number) => {
                let at = self.byte_of(self.next_of(hand.frame));
                self.add(worker, Deed::Tells(STOPS, at, number as usize))
            }
            Ok(Told::Stole) => self.steal(worker, place),
            Ok(Told::Skipped) => Ok(()),
        }
    }

    // Makes an event of a frame. It is the one of the serial run if the frame is still like its twin.
    fn make(&mut self, worker: usize, frame: usize, event: &Event) -> Result<(), AllocError> {
        let next = self.next_of(frame);
        let made = match self.twins.get(next) {
            Some(twin) if twin.form == form_of(event, self.globals) => next,
            _ => NOWHERE,
        };
        self.work(worker, frame, made)?;
        let behind = match event {
            Event::Spawn { .. } => self.invoke(worker, frame, made, true)?,
            Event::Call { .. } => self.invoke(worker, frame, made, false)?,
            Event::End => self.end(worker, frame)?,
            _ => made,
        };
        if let Some(seat) = self.seats.get_mut(frame) {
            seat.next = behind.saturating_add(1);
        }
        Ok(())
    }

    // Adds an event to the worker's stretch. Another stretch begins where the run departs or no longer
    // does, and with another strand if another deed came meanwhile.
    fn work(&mut self, worker: usize, frame: usize, made: usize) -> Result<(), AllocError> {
        let at = self.byte_of(made).unwrap_or(0);
        let strand = self.strand_of(made);
        let hand = self.hands.get(worker).copied().unwrap_or(IDLE);
        let is_latest = hand.deed.saturating_add(1) == self.count;
        let goes_on = match hand.strand {
            Some(0) => strand == 0,
            Some(last) => last == strand || is_latest && strand > 0,
            None => false,
        };
        if !goes_on {
            let stretch = Stretch {
                strand,
                end: strand,
                count: 1,
                first: made,
                last: made,
                from: at,
                upto: at,
            };
            self.add(worker, Deed::Makes(stretch))?;
        } else if let Some(Deed::Makes(stretch)) = hand.last {
            self.renew(
                worker,
                hand.deed,
                Deed::Makes(Stretch {
                    strand: stretch.strand,
                    end: strand,
                    count: stretch.count.saturating_add(1),
                    first: stretch.first,
                    last: made,
                    from: stretch.from.min(at),
                    upto: stretch.upto.max(at),
                }),
            );
        }
        if let Some(hand) = self.hands.get_mut(worker) {
            hand.frame = frame;
            hand.strand = Some(strand);
        }
        Ok(())
    }

    // Notes a child, with which the worker continues. Its twin is the frame that the serial run begins
    // by the next event. Returns the last event of that one, after which the parent continues. An
    // offer comes after those of the same worker.
    fn invoke(
        &mut self,
        worker: usize,
        frame: usize,
        made: usize,
        is_spawned: bool,
    ) -> Result<usize, AllocError> {
        let next = made.saturating_add(1);
        let twin = match self.replay.steps.get(next) {
            Some(step) => Some(step.frame),
            None => None,
        };
        let (ended, at) = match self.replay.frames.get(twin.unwrap_or(NOWHERE)) {
            Some(note) => (note.ended.unwrap_or(NOWHERE), Some(note.invoked_at)),
            None => (NOWHERE, None),
        };
        let child = self.seats.len();
        self.seats.push(Seat {
            parent: frame,
            is_spawned,
            twin,
            next,
        })?;
        if is_spawned {
            let mut place = self.offers.len();
            for _offer in 0..self.offers.len() {
                match self.offers.get(place.saturating_sub(1)) {
                    Some(other) if other.worker > worker => place = place.saturating_sub(1),
                    _ => break,
                }
            }
            let place = place.min(self.offers.len());
            self.offers.insert(place, Offer { worker, frame, at })?;
        }
        self.hold(worker, child);
        Ok(ended)
    }

    fn steal(&mut self, worker: usize, place: usize) -> Result<(), AllocError> {
        if place >= self.offers.len() {
            return Ok(());
        }
        let offer = self.offers.remove(place);
        self.hold(worker, offer.frame);
        let victim = offer.worker.saturating_add(1);
        self.add(worker, Deed::Tells(STEALS, offer.at, victim))
    }

    // Ends a frame: no event comes after it. The worker continues its parent. That is a deed only where
    // it no longer offered the continuation there.
    fn end(&mut self, worker: usize, frame: usize) -> Result<usize, AllocError> {
        let Some(seat) = self.seats.get(frame).copied() else {
            return Ok(NOWHERE);
        };
        self.hold(worker, seat.parent);
        if !seat.is_spawned && frame > 0 {
            return Ok(NOWHERE);
        }
        let mut place = self.offers.len();
        for _offer in 0..self.offers.len() {
            place = place.saturating_sub(1);
            if let Some(offer) = self.offers.get(place)
                && offer.worker == worker
                && offer.frame == seat.parent
            {
                self.offers.remove(place);
                return Ok(NOWHERE);
            }
        }
        self.add(worker, Deed::Ends(seat.twin))?;
        Ok(NOWHERE)
    }

    // Adds the worker's last deed.
    fn add(&mut self, worker: usize, deed: Deed) -> Result<(), AllocError> {
        if let Some(hand) = self.hands.get_mut(worker) {
            hand.strand = None;
            hand.deed = self.count;
            hand.last = Some(deed);
        }
        if self.deeds.len() < SHOWN {
            self.deeds.push((worker, deed))?;
        }
        self.count = self.count.saturating_add(1);
        Ok(())
    }

    // Puts another deed in place of the worker's last one.
    fn renew(&mut self, worker: usize, place: usize, deed: Deed) {
        if let Some(hand) = self.hands.get_mut(worker) {
            hand.last = Some(deed);
        }
        if let Some(shown) = self.deeds.get_mut(place) {
            *shown = (worker, deed);
        }
    }

    fn hold(&mut self, worker: usize, frame: usize) {
        if let Some(hand) = self.hands.get_mut(worker) {
            hand.frame = frame;
        }
    }

    // The place of a frame's next event in the serial run.
    fn next_of(&self, frame: usize) -> usize {
        match self.seats.get(frame) {
            Some(seat) => seat.next,
            None => NOWHERE,
        }
    }

    // The byte of an event of the serial run.
    fn byte_of(&self, made: usize) -> Option<usize> {
        match self.replay.steps.get(made) {
            Some(step) => Some(step.at),
            None => None,
        }
    }

    // The strand of an event of the serial run, 0 for none.
    fn strand_of(&self, made: usize) -> u32 {
        match self.twins.get(made) {
            Some(twin) => twin.strand,
            None => 0,
        }
    }

    /// Returns what is to be told, without the serial run.
    pub fn into_record(self) -> Record {
        let Deeds {
            replay: _,
            globals: _,
            twins: _twins,
            seats: _seats,
            offers: _offers,
            hands,
            deeds,
            count,
        } = self;
        Record {
            hands,
            deeds,
            count,
        }
    }
}

/// What is to be told of deeds: the first of them, each worker's last one, and how many there are.
#[derive(Drop)]
pub struct Record {
    hands: Vec<Hand>,
    deeds: Vec<(usize, Deed)>,
    count: usize,
}

impl Record {
    /// Adds a line for each deed.
    pub fn push(&self, scene: &Scene<'_>, report: &mut String) -> Result<(), AllocError> {
        for (worker, deed) in &self.deeds {
            push_deed(scene, report, worker.saturating_add(1), *deed)?;
        }
        let more = self.count.saturating_sub(self.deeds.len());
        if more > 0 {
            let more = say("and {} more line{}\n").counted(more);
            scene.push(report, &more)?;
        }
        Ok(())
    }

    /// Adds a line for the last deed of a worker, counted from 1, or nothing if there is no such worker.
    pub fn push_last(
        &self,
        scene: &Scene<'_>,
        report: &mut String,
        worker: u32,
    ) -> Result<(), AllocError> {
        let worker = worker as usize;
        match self.hands.get(worker.saturating_sub(1)) {
            Some(
                Hand {
                    last: Some(deed),
                    ..
                },
            ) => push_deed(scene, report, worker, *deed),
            Some(_) => scene.push(report, &say("worker {} has done nothing\n").count(worker)),
            None => Ok(()),
        }
    }
}

// A line for a deed.
fn push_deed(
    scene: &Scene<'_>,
    report: &mut String,
    worker: usize,
    deed: Deed,
) -> Result<(), AllocError> {
    match deed {
        Deed::Makes(stretch) => push_stretch(scene, report, worker, &stretch)?,
        Deed::Tells(words, at, number) => {
            let words = match at {
                Some(at) => say(words.0).count(worker).count(scene.line(at)),
                None => say(words.1).count(worker),
            };
            scene.push(report, &words.count(number))?;
        }
        Deed::Ends(twin) => push_end(scene, report, worker, twin)?,
    }
    report.push('\n')
}

// The strands, their lines and events, and the frames of the first and the last.
fn push_stretch(
    scene: &Scene<'_>,
    report: &mut String,
    worker: usize,
    stretch: &Stretch,
) -> Result<(), AllocError> {
    if stretch.strand == 0 {
        let departs = say("worker {}: {} event{} that the serial run doesn't have there");
        return scene.push(report, &departs.count(worker).counted(stretch.count));
    }
    scene.push(report, &say("worker {}: ").count(worker))?;
    push_range(
        report,
        scene,
        ("strand {}, ", "strands {} to {}, "),
        stretch.strand as usize,
        stretch.end as usize,
    )?;
    let (first, last) = (scene.line(stretch.from), scene.line(stretch.upto));
    push_range(report, scene, ("line {} ", "lines {} to {} "), first, last)?;
    let first = stretch.first.saturating_add(1);
    let last = stretch.last.saturating_add(1);
    push_range(
        report,
        scene,
        ("(event {})", "(events {} to {})"),
        first,
        last,
    )?;
    report.push_str(" in ")?;
    push_runners(report, scene, stretch.first, stretch.last)
}

// The frame that ends, and where it was spawned.
fn push_end(
    scene: &Scene<'_>,
    report: &mut String,
    worker: usize,
    twin: Option<usize>,
) -> Result<(), AllocError> {
    let Some(frame) = twin else {
        return scene.push(report, &say("worker {} ends a child").count(worker));
    };
    scene.push(report, &say("worker {} ends ").count(worker))?;
    push_runner(report, scene, frame)?;
    if frame == 0 {
        return Ok(());
    }
    let line = scene.line(scene.note(frame).invoked_at);
    scene.push(report, &say(", spawned on line {}").count(line))
}

// The form of an event, and its cell if a global has it: other cells, and frames, are numbered as a
// schedule begins them. There are fewer cells than 28 bits count.
fn form_of(event: &Event, globals: usize) -> u32 {
    match *event {
        Event::Begin { .. } => 0,
        Event::Spawn { .. } => 1,
        Event::Call { .. } => 2,
        Event::Resume { .. } => 3,
        Event::Sync => 4,
        Event::End => 5,
        Event::Create { .. } => 6,
        Event::Update { .. } => 7,
        Event::Set { .. } => 8,
        Event::Value { .. } => 9,
        Event::Print { .. } => 10,
        Event::Read { cell, .. } => of_cell(11, cell, globals),
        Event::Write { cell, .. } => of_cell(12, cell, globals),
    }
}

fn of_cell(form: u32, cell: u32, globals: usize) -> u32 {
    let cell = if (cell as usize) < globals {
        cell
    } else {
        u32::MAX >> 4
    };
    cell.saturating_mul(16).saturating_add(form)
}

//! Collects the hints about frames from what a certificate's lines say.

ghost use Rattle.std.specs.Prelude.{◌≡◌, ◌<◌, ◌≤◌, ◌+◌, IfOk, IsTrue, vec_len};
ghost use Rattle.cilk_types.specs.declared.limits.TheConstants.{MAX_EVENTS};
ghost use Rattle.cilk_helpers.specs.Listed.{AreFew, events_in};

use crate::scan::LineHint;
use cilk_types::event::FrameNo;
use cilk_types::limits::MAX_FRAMES;
use std::alloc::{AllocError, Global};

/// The most events whose lines are read for hints.
///
/// A run with more is made without helpers. Between two of its events it takes some 100 ticks or less,
/// so replays would cost more than they spare, and their notes some 48 MB.
pub const MOST_EVENTS: u32 = 150_000;

/// The hint about a frame.
#[derive(Clone, Copy)]
pub struct FrameHint {
    /// The index of its first word among those of all frames, and how many it has.
    pub first: u32,
    pub words: u32,
    /// How many events it has after its `begin`.
    pub events: u32,
    /// Its first child, and its parent's next child after it.
    pub child: Option<FrameNo>,
    pub sibling: Option<FrameNo>,
}

impl FrameHint {
    /// The hint of a frame that isn't listed.
    pub const EMPTY: FrameHint = FrameHint {
        first: 0,
        words: 0,
        events: 0,
        child: None,
        sibling: None,
    };
}

/// The hints about all frames of a run.
///
/// `words` has the values that frames read, those of each frame together. The hint of a frame is at
/// its number less 1. `events` counts the events that are listed, up to [`MOST_EVENTS`]. 28 bytes a
/// frame, and 8 a word.
#[derive(Drop)]
pub struct Hints {
    pub words: Vec<i64>,
    pub frames: Vec<FrameHint>,
    pub events: u32,
}

/// Returns the index of a frame in a list of all frames, which count from 1. No list has the index
/// of 0.
pub fn place_of(number: FrameNo) -> usize
    ensures { 0 < number → result + 1 ≡ number }
{
    number.wrapping_sub(1) as usize
}

// A word, and the frame that reads it.
#[derive(Clone, Copy)]
struct Told {
    frame: FrameNo,
    word: i64,
}

// A frame that has begun and not ended, and its last child so far.
#[derive(Clone, Copy)]
struct Open {
    frame: FrameNo,
    last: Option<FrameNo>,
}

/// The hints so far, of at most [`MOST_EVENTS`] events. The innermost open frame is the last one of
/// `open`.
#[derive(Drop)]
pub struct Listing {
    told: Vec<Told>,
    frames: Vec<FrameHint>,
    open: Vec<Open>,
    events: u32,
    ghost few: { events ≤ MAX_EVENTS },
    ghost listed: { events_in frames.items ≤ events },
    ghost read: { vec_len told ≤ events },
}

impl Listing {
    /// Returns an empty listing.
    pub fn new(alloc: Global) -> Listing {
        Listing {
            told: Vec::new(alloc),
            frames: Vec::new(alloc),
            open: Vec::new(alloc),
            events: 0,
        }
    }

    /// Takes a line, and returns whether it fits the lines before it.
    pub fn meet(&mut self, line: LineHint) -> Result<bool, AllocError> {
        match line {
            LineHint::Begin => self.begin(),
            LineHint::Word(word) => self.tell(word),
            LineHint::Event => Ok(self.count(0)),
            LineHint::Nothing => Ok(true),
            LineHint::End => {
                let fits = self.count(0);
                self.open.pop();
                Ok(fits)
            }
        }
    }

    // Begins the next frame, inside the innermost open one.
    fn begin(&mut self) -> Result<bool, AllocError> {
        let before = self.frames.len();
        if before >= MAX_FRAMES as usize {
            return Ok(false);
        }
        let frame = before as FrameNo + 1;
        if frame > 1 && !self.link(frame) {
            return Ok(false);
        }
        self.frames.push(FrameHint::EMPTY)?;
        self.open.push(Open { frame, last: None })?;
        Ok(true)
    }

    // Gives the innermost open frame one more child. False if no frame is open.
    fn link(&mut self, child: FrameNo) -> bool {
        let Some(parent) = self.open.last_mut() else {
            return false;
        };
        match parent.last {
            Some(last) => {
                if let Some(hint) = self.frames.get_mut(place_of(last)) {
                    hint.sibling = Some(child);
                }
            }
            None => {
                if let Some(hint) = self.frames.get_mut(place_of(parent.frame)) {
                    hint.child = Some(child);
                }
            }
        }
        parent.last = Some(child);
        true
    }

    // Notes a word that the innermost open frame reads.
    fn tell(&mut self, word: i64) -> Result<bool, AllocError> {
        let Some(open) = self.open.last() else {
            return Ok(false);
        };
        let frame = open.frame;
        if !self.count(1) {
            return Ok(false);
        }
        self.told.push(Told { frame, word })?;
        Ok(true)
    }

    // Counts one more event and `words` more words of the innermost open frame. False if none is
    // open, or if there are as many as are read.
    fn count(&mut self, words: u32) -> bool
        ensures { IsTrue result → vec_len self.new.told < self.new.events }
    {
        let Some(open) = self.open.last() else {
            return false;
        };
        if self.events >= MOST_EVENTS {
            return false;
        }
        self.events += 1;
        if let Some(hint) = self.frames.get_mut(place_of(open.frame)) {
            hint.events = hint.events.saturating_add(1);
            hint.words = hint.words.saturating_add(words);
        }
        true
    }

    /// Returns the hints, with the words of each frame together.
    #[tactic(auto, using(crate::proofs::Events::unchanged))]
    pub fn parted(self, alloc: Global) -> Result<Hints, AllocError>
        ensures { IfOk result (λ h. AreFew h.words.items h.frames.items) }
    {
        let Listing {
            told,
            mut frames,
            events,
            ..
        } = self;
        let mut first: u32 = 0;
        'frames: for hint in frames.iter_mut() {
            hint.first = first;
            first = first.saturating_add(hint.words);
            hint.words = 0;
        }
        let mut words = vec![in alloc; 0i64; told.len()]?;
        'words: for one in &told {
            if let Some(hint) = frames.get_mut(place_of(one.frame)) {
                let place = hint.first.saturating_add(hint.words);
                if let Some(word) = words.get_mut(place as usize) {
                    *word = one.word;
                }
                hint.words = hint.words.saturating_add(1);
            }
        }
        Ok(Hints {
            words,
            frames,
            events,
        })
    }
}

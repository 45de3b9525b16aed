//! A run by frames: the events of each frame, which children were joined, and the outcome. Frames
//! are found by paths, which no schedule changes.

ghost use Rattle.std.specs.Prelude.{◌≡◌, ◌<◌, ◌≤◌, ◌++◌, ◌∷◌, [], ℕ, None, Some, suc, cond, false, length, slice_get, take, IfOk, IfSome, MatchOption, OnOk};
ghost use Rattle.std.specs.Option.{option_map};
ghost use Rattle.cilk_program.specs.Syntax.{Source};
ghost use Rattle.cilk_determinacy.specs.Cuts.{times};
ghost use Rattle.cilk_determinacy.specs.Machine.{Frame, HasEnd, State, deeds_at, strands};
ghost use Rattle.cilk_determinacy.specs.Runs.{Name};
ghost use Rattle.cilk_determinacy.specs.Reducers.{View};
ghost use Rattle.cilk_determinacy.specs.Steps.{outcome_in};
ghost use Rattle.cilk_determinacy.specs.FrameEnvs.{FrameEnv};
ghost use Rattle.cilk_schedule.specs.Gathering.{AddsChild, AreGathered, Gathers, HaveLinks};
ghost use Rattle.cilk_schedule.specs.Links.{links_in, links_of};
ghost use Rattle.cilk_schedule.specs.Showing.{AreLinked, AreShown, ShowsScheduler, ShowsRun, joins_child, strands_shown};
ghost use Rattle.cilk_schedule.specs.declared.showing.ShownFrame.{ShownFrame};

use crate::naming::{ShownEvent, named};
use cilk_frames::activation::Activation;
use cilk_frames::outcome::copied;
use cilk_scheduler::frame_state::{FrameState, JournalEntry};
use cilk_scheduler::scheduler::Scheduler;
use cilk_types::outcome::Outcome;
use std::alloc::{AllocError, Global};

/// A frame's link: the place of its parent among all frames, and its ordinal there, from 1. The
/// first frame has 0 for both.
#[derive(Clone, Copy)]
pub struct Link {
    pub parent: u32,
    pub ordinal: u32,
}

/// A frame: its link, the places of its children, and its events. Children and events are in order.
#[derive(Drop)]
struct ShownFrame {
    link: Link,
    children: Vec<usize>,
    events: Vec<ShownEvent>,
}

/// The events of a run by frames, and its outcome. Frames have places from 0, in the order in which
/// they began.
#[derive(Drop)]
pub struct Shown {
    frames: Vec<ShownFrame>,
    outcome: Option<Outcome>,
}

impl Shown {
    /// Returns the outcome, or `None` if the first frame hasn't ended.
    pub fn outcome(&self) -> Option<&Outcome>
        ensures kept { MatchOption result (self.now.outcome ≡ None) (λ left. self.now.outcome ≡ Some left.now) }
        ensures left { (p : Source) (name : ℕ → Name) (s : State FrameEnv View) → ShowsRun p name s self.now → MatchOption result (¬ (HasEnd (deeds_at (s.frames [])))) (λ left. HasEnd (deeds_at (s.frames [])) × (left.now ≡ outcome_in p s)) }
    {
        self.outcome.as_ref()
    }

    /// Returns the number of frames that have begun.
    pub fn frames(&self) -> usize
        ensures { result ≡ length self.now.frames.items }
    {
        self.frames.len()
    }

    /// Returns the link of the frame at a place, if there is one.
    pub fn link(&self, place: u32) -> Option<Link>
        ensures kept { result ≡ option_map (λ (f : ShownFrame). f.link) (slice_get self.now.frames.items place) }
        ensures named { (name : ℕ → Name) → AreLinked self.now.frames.items name → IfSome result (λ l. 0 < place → (l.parent < place) × (name place ≡ name l.parent ++ l.ordinal ∷ [])) }
    {
        let frame = self.frames.get(place as usize)?;
        Some(frame.link)
    }

    /// Returns the events of the frame with this path, in order, or `None` if it hasn't begun. A
    /// path has an ordinal for each frame from the first one's child down; the first frame's is
    /// empty.
    pub fn events(&self, path: &[u32]) -> Option<&[ShownEvent]>
        ensures { (p : Source) (name : ℕ → Name) (s : State FrameEnv View) → ShowsRun p name s self.now →
            MatchOption result (s.frames path.now ≡ None) (λ events. (x : Frame FrameEnv) × (s.frames path.now ≡ Some x) × AreShown name (length self.now.frames.items) path.now 1 x.deeds events.now) }
    {
        let place = self.place(path)?;
        let frame = self.frames.get(place)?;
        Some(frame.events.as_slice())
    }

    /// Returns whether the frame with this path has begun and a sync has joined it. The time is
    /// linear in the path and in the events of its parent.
    pub fn is_joined(&self, path: &[u32]) -> bool
        ensures joined { (p : Source) (name : ℕ → Name) (s : State FrameEnv View) (n : Name) (q : ℕ) → ShowsRun p name s self.now → path.now ≡ n ++ q ∷ [] → times path.now s.joins ≡ cond result 1 0 }
        ensures first { path.now ≡ [] → result ≡ false }
    {
        let Some((ordinal, parent)) = path.split_last() else {
            return false;
        };
        match self.events(parent) {
            Some(events) => joins_child(events, *ordinal),
            None => false,
        }
    }

    /// Returns the place of the frame with this path, or `None` if it hasn't begun.
    pub fn place(&self, path: &[u32]) -> Option<usize>
        ensures { (name : ℕ → Name) → AreLinked self.now.frames.items name → MatchOption result ((k : ℕ) → k < length self.now.frames.items → name k ≡ path.now → ⊥) (λ k. (k < length self.now.frames.items) × (name k ≡ path.now)) }
    {
        let mut place = 0;
        let _root = self.frames.get(place)?;
        'each: for ordinal in path {
            place = self.child(place, *ordinal)?;
        }
        Some(place)
    }

    /// Returns the path of the frame at a place, which no schedule changes. The time is linear in
    /// the path.
    pub fn path(&self, alloc: Global, place: usize) -> Result<Vec<u32>, AllocError>
        ensures { (name : ℕ → Name) → AreLinked self.now.frames.items name → place < length self.now.frames.items → IfOk result (λ path. path.items ≡ name place) }
    {
        let mut path = Vec::new(alloc);
        let mut at = place;
        'each: for _ in 0..self.frames.len() {
            if at == 0 {
                break;
            }
            let Some(frame) = self.frames.get(at) else {
                break;
            };
            path.push(frame.link.ordinal)?;
            at = frame.link.parent as usize;
        }
        path.reverse();
        Ok(path)
    }

    /// Returns the strand of the event at an index among the events of the frame with this path, or
    /// `None` if there is no such event. Strands count from 1 in their frame, and no schedule
    /// changes their numbers.
    pub fn strand(&self, path: &[u32], index: usize) -> Option<usize>
        ensures { (p : Source) (name : ℕ → Name) (s : State FrameEnv View) → ShowsRun p name s self.now →
            MatchOption result (length (deeds_at (s.frames path.now)) ≤ index) (λ number. (index < length (deeds_at (s.frames path.now))) × (number ≡ strands (take (suc index) (deeds_at (s.frames path.now))))) }
    {
        let upto = self.events(path)?.get(..=index)?;
        Some(strands(upto))
    }

    // The place of a frame's child with this ordinal.
    fn child(&self, parent: usize, ordinal: u32) -> Option<usize>
        ensures { (name : ℕ → Name) → AreLinked self.now.frames.items name → parent < length self.now.frames.items
            → MatchOption result ((k : ℕ) → k < length self.now.frames.items → name k ≡ name parent ++ ordinal ∷ [] → ⊥) (λ k. (k < length self.now.frames.items) × (name k ≡ name parent ++ ordinal ∷ [])) }
    {
        let frame = self.frames.get(parent)?;
        let before = ordinal.checked_sub(1)?;
        let place = frame.children.get(before as usize)?;
        Some(*place)
    }
}

// Whether a sync follows the spawn of the child with this ordinal.
fn joins_child(events: &[ShownEvent], ordinal: u32) -> bool
    ensures { result ≡ joins_child ordinal events.now }
{
    let mut spawned = false;
    'each: for event in events {
        match *event {
            ShownEvent::Spawn { ordinal: other } if other == ordinal => spawned = true,
            ShownEvent::Sync if spawned => return true,
            _ => {}
        }
    }
    false
}

// The number of strands that these events begin.
fn strands(events: &[ShownEvent]) -> usize
    ensures { result ≡ strands_shown events.now }
{
    let mut begun = 0;
    'each: for event in events {
        match *event {
            ShownEvent::Begin | ShownEvent::Resume | ShownEvent::Sync => begun += 1,
            _ => {}
        }
    }
    begun
}

/// Returns what the scheduler's state shows. The first `globals` cells are global. The time is
/// linear in frames and events, apart from a binary search for the frame of each cell.
pub fn show(alloc: Global, scheduler: &Scheduler, globals: usize) -> Result<Shown, AllocError>
    ensures outcome { IfOk result (λ shown. shown.outcome ≡ scheduler.now.outcome) }
    ensures links { IfOk result (λ shown. links_in shown.frames.items ≡ links_of scheduler.now.frames.items) }
    ensures run { IfOk result (ShowsScheduler globals scheduler.now) }
{
    let mut frames = links(alloc, scheduler.frames.as_slice())?;
    'each: for entry in scheduler.journal.as_slice() {
        place(scheduler.frames.as_slice(), globals, &mut frames, *entry)?;
    }
    let outcome = left(alloc, &scheduler.outcome)?;
    Ok(Shown { frames, outcome })
}

// A copy of the outcome, if there is one.
fn left(alloc: Global, outcome: &Option<Outcome>) -> Result<Option<Outcome>, AllocError>
    ensures { IfOk result (λ same. same ≡ outcome.now) }
{
    match outcome {
        Some(outcome) => Ok(Some(copied(alloc, outcome)?)),
        None => Ok(None),
    }
}

// The frames with their links and children, without events.
fn links(alloc: Global, frames: &[Activation<FrameState>]) -> Result<Vec<ShownFrame>, AllocError>
    ensures { IfOk result (λ list. HaveLinks frames.now (length frames.now) list.items) }
{
    let mut list = Vec::with_capacity(alloc, frames.len())?;
    'each: for frame in frames {
        let link = Link {
            parent: frame.cursor.parent,
            ordinal: frame.cursor.ordinal,
        };
        add_child(&mut list, link.parent)?;
        list.push(ShownFrame {
            link,
            children: Vec::new(alloc),
            events: Vec::new(alloc),
        })?;
    }
    Ok(list)
}

// Adds the next frame to the children of its parent. The first frame has none.
fn add_child(list: &mut Vec<ShownFrame>, parent: u32) -> Result<(), AllocError>
    ensures { OnOk result (AddsChild list.old.items list.new.items parent) }
{
    let place = list.len();
    if place == 0 {
        return Ok(());
    }
    if let Some(parent) = list.get_mut(parent as usize) {
        parent.children.push(place)?;
    }
    Ok(())
}

// Adds an event to its frame.
fn place(
    frames: &[Activation<FrameState>],
    globals: usize,
    list: &mut Vec<ShownFrame>,
    entry: JournalEntry,
) -> Result<(), AllocError>
    ensures { OnOk result (Gathers frames.now globals list.old.items list.new.items entry) }
{
    let Some(frame) = list.get_mut(entry.frame as usize) else {
        return Ok(());
    };
    frame.events.push(named(frames, globals, entry.event))?;
    Ok(())
}

//! Shelves: the join boxes of several sync blocks, and which of these blocks have passed.

ghost use Rattle.std.specs.Prelude.{◌≡◌, ◌<◌, ◌≤◌, ◌↔◌, ℕ, All, length, IfOk, IfSome, IsTrue, MatchOption, OnErr, Some};
ghost use Rattle.std.specs.Vec.{vec_capacity};
ghost use Rattle.cilk_types.specs.declared.event.Event.TheVariants.{Sync};
ghost use Rattle.cilk_tree.specs.Word.{event};
ghost use Rattle.cilk_workers.specs.Shared.{event_order_in};
ghost use Rattle.cilk_workers.specs.Histories.{Has};
ghost use Rattle.cilk_workers.specs.ShelfHistories.{HasHistory};
ghost use Rattle.cilk_workers.specs.Shelves.{ComesOut, HasNone, HasPassed, HasRoom, IsEmptyShelf, IsSameShelf, LiesOn, PutsBack, TakesOff, passed_with};

use crate::join::JoinBox;
use crate::shared::Shared;
use cilk_replay::replay::ReplayModel;
use cilk_shared::reducers::Reducers;
use cilk_shared::yard::Yard;
use cilk_types::event::Pos;
use std::alloc::{AllocError, Global};
use std::marker::Model;
use std::snapshot::Snapshot;

/// The place of a shelf among the shelves of a run: its number, and how many there are. The box of
/// block `b` is on the shelf with the number `b` modulo `count`.
#[derive(Clone, Copy)]
pub struct Place {
    pub number: usize,
    pub count: usize,
}

/// The join boxes of several blocks, and which of these blocks have passed.
///
/// Only boxes in which something waits are kept. Any other box is as it was at first, and needs no
/// memory, or its block has passed, which the shelf remembers. Contracts see the run to which the
/// blocks belong, the shelf's place, the boxes, and the blocks that have passed.
#[derive(Drop)]
pub struct Shelf {
    of: Snapshot<Yard>,
    reducers: Snapshot<Reducers>,
    replay: Snapshot<ReplayModel>,
    place: Snapshot<Place>,
    boxes: Vec<JoinBox>,
    passed: Vec<Pos>,
}

impl Model for Shelf {
    ghost use Rattle.std.specs.Prelude.{All};
    ghost use Rattle.std.specs.Vec.{vec_capacity};
    ghost use Rattle.std.specs.Coded.{codes};
    ghost use Rattle.cilk_replay.specs.Replays.{replay_code};
    ghost use Rattle.cilk_workers.specs.Rows.{run_of};
    ghost use Rattle.cilk_workers.specs.Shelves.{LiesOn, ShelfValue, shelf};

    ghost Value = { ShelfValue };

    ghost coded = { Prim.hlevel (codes, replay_code) };

    ghost view = { λ s. shelf (run_of s.of.value s.reducers.value) s.replay.value s.place.value s.boxes.items (vec_capacity s.boxes) s.passed.items (vec_capacity s.passed) };

    ghost invariant = { λ s. All (LiesOn (run_of s.of.value s.reducers.value) s.replay.value) s.boxes.items };
}

// Moves out the box of a block, if it is on the shelf.
fn taken(shared: &Shared<'_>, boxes: &mut Vec<JoinBox>, sync: Pos) -> Option<JoinBox>
    requires { All (LiesOn (shared.now.run) shared.now.replay) boxes.old.items }
    ensures rest { All (LiesOn (shared.now.run) shared.now.replay) boxes.new.items }
    ensures found { IfSome result (λ b. LiesOn (shared.now.run) shared.now.replay b × (b.sync ≡ sync)) }
    ensures taken { MatchOption result (HasNone boxes.old.items sync × (boxes.new.items ≡ boxes.old.items)) (λ b. (k : ℕ) × ComesOut boxes.old.items k b boxes.new.items) }
    ensures room { (length boxes.new.items ≤ length boxes.old.items) × (vec_capacity boxes.new ≡ vec_capacity boxes.old) }
{
    let _ = shared;
    'each: for at in 0..boxes.len() {
        let found = &boxes[at];
        if found.sync() == sync {
            return Some(boxes.remove(at));
        }
    }
    None
}

// Whether this block is among those that have passed.
fn is_among(passed: &Vec<Pos>, sync: Pos) -> bool
    ensures { IsTrue result ↔ Has passed.now.items sync }
{
    passed.contains(&sync)
}

// Adds a block to those that have passed, if it passes.
fn mark(passed: &mut Vec<Pos>, sync: Pos, passes: bool)
    requires { length passed.old.items < vec_capacity passed.old }
    ensures { passed.new.items ≡ passed_with passed.old.items sync passes }
{
    if passes {
        passed.push_reserved(sync);
    }
}

impl Shelf {
    /// Returns a shelf without boxes, for this place. None of its blocks has passed.
    pub fn new(alloc: Global, shared: &Shared<'_>, place: Place) -> Shelf
        ensures new { (result.of ≡ shared.now.run) × (result.replay ≡ shared.now.replay) × IsEmptyShelf result }
        ensures place { result.place ≡ place }
        ensures history { HasHistory result }
    {
        Shelf {
            of: Snapshot::of(shared.yard()),
            reducers: Snapshot::of(shared.reducers()),
            replay: shared.replay().snapshot(),
            place: Snapshot::of(&place),
            boxes: Vec::new(alloc),
            passed: Vec::new(alloc),
        }
    }

    /// Returns whether the block that ends with the `sync` at this position has passed. Cost: linear
    /// in the blocks of the shelf that have passed.
    pub fn has_passed(&self, sync: Pos) -> bool
        ensures { IsTrue result ↔ HasPassed self.now sync }
    {
        is_among(&self.passed, sync)
    }

    /// Takes the box of the block that ends with the `sync` at this position off the shelf, which
    /// then has room to put it back, and to remember that the block passes. If memory for that runs
    /// out, nothing changes. Cost: linear in the boxes on the shelf.
    pub fn take(
        &mut self,
        alloc: Global,
        shared: &Shared<'_>,
        sync: Pos,
    ) -> Result<JoinBox, AllocError>
        requires of { (self.old.of ≡ shared.now.run) × (self.old.replay ≡ shared.now.replay) }
        requires sync { event (event_order_in shared.now) sync ≡ Some Sync }
        ensures found { IfOk result (λ b. LiesOn self.old.of self.old.replay b × (b.sync ≡ sync)) }
        ensures taken { IfOk result (λ b. TakesOff self.old sync b self.new × HasRoom self.new) }
        ensures err { OnErr result (self.new.boxes ≡ self.old.boxes) }
        ensures passed { self.new.passed ≡ self.old.passed }
        ensures same { IsSameShelf self.old self.new }
    {
        self.boxes.reserve(1)?;
        self.passed.reserve(1)?;
        if let Some(found) = taken(shared, &mut self.boxes, sync) {
            return Ok(found);
        }
        Ok(JoinBox::new(alloc, shared, sync))
    }

    /// Puts a box back, for which there is room. A box in which nothing waits is dropped. The shelf
    /// remembers its block if that passes.
    pub fn put(&mut self, back: JoinBox, passes: bool)
        requires of { LiesOn self.old.of self.old.replay back }
        requires room { HasRoom self.old }
        ensures put { PutsBack self.old back self.new }
        ensures passed { self.new.passed ≡ passed_with self.old.passed back.sync passes }
        ensures same { IsSameShelf self.old self.new }
    {
        mark(&mut self.passed, back.sync(), passes);
        if !back.is_empty() {
            self.boxes.push_reserved(back);
        }
    }
}

//! Steals and arrivals at the join boxes, each under the lock of its shelf.

ghost use Rattle.std.specs.Prelude.{◌≡◌, ◌%◌, ◌<◌, ◌≤◌, Some, IfOk, IfSome, OnErr, OnOk};
ghost use Rattle.cilk_types.specs.declared.event.Event.TheVariants.{Sync};
ghost use Rattle.cilk_workers.specs.Rows.{FitsIn, IsGood, IsLowest};
ghost use Rattle.cilk_workers.specs.Shelves.{HasPassed, HasRoom, IsSameShelf, LiesOn, TakesOff};
ghost use Rattle.cilk_replay.specs.Chains.{standing};
ghost use Rattle.cilk_workers.specs.Locks.{IsShelf};
ghost use Rattle.cilk_tree.specs.Columns.{IsFirstSpawn, IsOfBlock};
ghost use Rattle.cilk_tree.specs.Word.{event, resume, word_step};
ghost use Rattle.cilk_workers.specs.Shared.{IsNumberOf, event_order_in};
ghost use Rattle.cilk_workers.specs.Activities.{IsMet, IsMetWhole};
ghost use Rattle.cilk_workers.specs.Boxes.{EndsAtKey, MayArrive, is_some};
ghost use Rattle.cilk_workers.specs.Arrivals.{AnswersBy, HasArrived, HasRecorded, is_passing};
ghost use Rattle.cilk_workers.specs.Keys.{AreKeys, IsFreeLike, IsKeyFor, Makes, MakesFor};
ghost use Rattle.cilk_workers.specs.ShelfHistories.{ArrivesAt, StealsAt};
ghost use Rattle.cilk_workers.specs.WorkerContexts.{IsWorkerContext};

use crate::columns::Block;
use crate::context::WorkerContext;
use crate::gate::Gate;
use crate::join::{Boxed, JoinBox};
use crate::lock::{Key, Lock, lock, never, unlock};
use crate::naming::Naming;
use crate::shelf::Shelf;
use crate::work::Work;
use cilk_replay::chain::Chain;
use cilk_shared::piece::Piece;
use cilk_types::event::Pos;
use std::alloc::AllocError;
use std::sync::Wait;

/// A piece that comes to a block: a child's up to its `end`, with the position of its spawn, or the
/// `sync`'s own with that of the `sync` and its chain.
#[derive(Drop)]
pub struct Arrival {
    pub by: Pos,
    pub piece: Piece,
    pub chain: Option<Chain>,
}

/// The outcome of an arrival.
#[derive(Drop)]
pub enum Met {
    /// The block passes, and the worker continues with its `sync`.
    Passes(Work),
    /// The piece waits in the box.
    Waits,
    /// The worker ran out of memory.
    Stopped,
}

// Whether the block passes.
fn is_pass(met: &Met) -> bool
    ensures { result ≡ is_passing met.now }
{
    match met {
        Met::Passes(_) => true,
        Met::Waits => false,
        Met::Stopped => false,
    }
}

// The number of the shelf of a block, of `shelves` shelves.
fn shelf_of(block: usize, shelves: usize) -> usize
    requires { 1 ≤ shelves }
    ensures there { result < shelves }
    ensures number { result ≡ block % shelves }
{
    block % shelves
}

impl<'a, 'b, N: Naming, R: Wait, G: Gate> WorkerContext<'a, 'b, N, R, G> {
    // Waits forever unless a piece may arrive at this box and fits, where the block's first spawn is at
    // `first`.
    fn wait_unless_fits(&self, found: &JoinBox, first: Pos, arrival: &Arrival)
        requires chain { IfSome arrival.now.chain (λ c. c ≡ standing found.now.replay arrival.now.piece.upto) }
        ensures may { MayArrive found.now arrival.now.by arrival.now.piece arrival.now.chain }
        ensures fits { FitsIn found.now.rows arrival.now.by arrival.now.piece }
        ensures begins { arrival.now.piece.from ≤ arrival.now.by }
        ensures first { IsLowest found.now.rows arrival.now.by → arrival.now.piece.from ≤ first }
    {
        if !found.fits(arrival.by, &arrival.piece, arrival.chain.is_some(), first) {
            never(self.rt);
        }
    }

    // A piece arrives at this box of a block, whose first spawn is at `first`.
    fn arrive_at(&self, found: &mut JoinBox, first: Pos, arrival: Arrival) -> Met
        requires run { (found.old.rows.of ≡ self.now.shared.now.run) × (found.old.replay ≡ self.now.shared.now.replay) }
        requires first { IsFirstSpawn (event_order_in self.now.shared.now) found.old.sync first }
        requires good { IsGood self.now.shared.now.run arrival.piece }
        requires chain { IfSome arrival.chain (λ c. c ≡ standing self.now.shared.now.replay arrival.piece.upto) }
        requires ends { EndsAtKey (event_order_in self.now.shared.now) arrival.by arrival.piece (is_some arrival.chain) }
        ensures met { IsMet self.now.shared.now result }
        ensures may { MayArrive found.old arrival.by arrival.piece arrival.chain }
        ensures fits { FitsIn found.old.rows arrival.by arrival.piece }
        ensures answers { AnswersBy found.old arrival result found.new }
        ensures whole { IsMetWhole (event_order_in self.now.shared.now) found.old.sync result }
        ensures same { (found.new.rows.of ≡ found.old.rows.of) × (found.new.replay ≡ found.old.replay) × (found.new.sync ≡ found.old.sync) }
    {
        self.wait_unless_fits(found, first, &arrival);
        let Arrival { by, piece, chain } = arrival;
        match found.arrive(self.alloc, self.shared.yard(), by, piece, chain) {
            Ok(Boxed::Waits) => Met::Waits,
            Ok(Boxed::Passes(piece, chain)) => Met::Passes(Work { piece, chain }),
            Err(_) => Met::Stopped,
        }
    }

    // Takes the box of a block off its shelf, which then has room to put it back.
    fn taken_from(&self, shelf: &mut Shelf, sync: Pos) -> Result<JoinBox, AllocError>
        requires context { IsWorkerContext N.run N.replay N.taken self.now }
        requires shelf { IsShelf N.run N.replay shelf.old }
        requires sync { event (event_order_in self.now.shared.now) sync ≡ Some Sync }
        ensures shelf { IsSameShelf shelf.old shelf.new }
        ensures passed { shelf.new.passed ≡ shelf.old.passed }
        ensures err { OnErr result (shelf.new.boxes ≡ shelf.old.boxes) }
        ensures of { IfOk result (λ b. LiesOn shelf.old.of shelf.old.replay b × (b.sync ≡ sync)) }
        ensures taken { IfOk result (λ b. TakesOff shelf.old sync b shelf.new) }
        ensures room { OnOk result (HasRoom shelf.new) }
        ensures run { IfOk result (λ b. (b.rows.of ≡ self.now.shared.now.run) × (b.replay ≡ self.now.shared.now.replay)) }
    {
        shelf.take(self.alloc, self.shared, sync)
    }

    // Waits forever if the block has passed.
    fn wait_if_passed(&self, shelf: &Shelf, sync: Pos)
        ensures { HasPassed shelf.now sync → ⊥ }
    {
        if shelf.has_passed(sync) {
            never(self.rt);
        }
    }

    // A piece arrives at a block whose box is on this shelf. Nothing arrives at one that has passed.
    fn arrive_on(&self, shelf: &mut Shelf, block: Block, arrival: Arrival) -> Met
        requires context { IsWorkerContext N.run N.replay N.taken self.now }
        requires shelf { IsShelf N.run N.replay shelf.old }
        requires sync { event (event_order_in self.now.shared.now) block.sync ≡ Some Sync }
        requires first { IsFirstSpawn (event_order_in self.now.shared.now) block.sync block.first }
        requires good { IsGood self.now.shared.now.run arrival.piece }
        requires chain { IfSome arrival.chain (λ c. c ≡ standing self.now.shared.now.replay arrival.piece.upto) }
        requires ends { EndsAtKey (event_order_in self.now.shared.now) arrival.by arrival.piece (is_some arrival.chain) }
        ensures shelf { IsSameShelf shelf.old shelf.new }
        ensures arrived { HasArrived shelf.old block.sync arrival result shelf.new }
        ensures met { IsMet self.now.shared.now result }
        ensures whole { IsMetWhole (event_order_in self.now.shared.now) block.sync result }
    {
        self.wait_if_passed(shelf, block.sync);
        let Ok(mut found) = self.taken_from(shelf, block.sync) else {
            return Met::Stopped;
        };
        let met = self.arrive_at(&mut found, block.first, arrival);
        let passes = is_pass(&met);
        shelf.put(found, passes);
        met
    }

    // Records a steal at a block whose box is on this shelf. Nothing is stolen from one that has
    // passed. False if memory ran out.
    fn record_steal_on(&self, shelf: &mut Shelf, block: Block, child: Pos, goes_on: Pos) -> bool
        requires context { IsWorkerContext N.run N.replay N.taken self.now }
        requires shelf { IsShelf N.run N.replay shelf.old }
        requires sync { event (event_order_in self.now.shared.now) block.sync ≡ Some Sync }
        requires resumes { word_step (event_order_in self.now.shared.now) goes_on ≡ resume child }
        ensures shelf { IsSameShelf shelf.old shelf.new }
        ensures recorded { HasRecorded shelf.old block.sync child goes_on result shelf.new }
    {
        self.wait_if_passed(shelf, block.sync);
        let Ok(mut found) = self.taken_from(shelf, block.sync) else {
            return false;
        };
        if !found.open(child, goes_on) {
            never(self.rt);
        }
        let told = found.record_steal(child, goes_on).is_ok();
        shelf.put(found, false);
        told
    }

    // A piece arrives at a block whose shelf has this lock.
    fn arrive_locked(
        &self,
        shelf_lock: &Lock<N>,
        key: &mut Key,
        block: Block,
        arrival: Arrival,
    ) -> Met
        requires context { IsWorkerContext N.run N.replay N.taken self.now }
        requires key { IsKeyFor shelf_lock.now block.number key.old }
        requires number { IsNumberOf (event_order_in self.now.shared.now) block.number block.sync }
        requires block { IsOfBlock (event_order_in self.now.shared.now) block.sync arrival.piece.upto }
        requires sync { event (event_order_in self.now.shared.now) block.sync ≡ Some Sync }
        requires first { IsFirstSpawn (event_order_in self.now.shared.now) block.sync block.first }
        requires good { IsGood self.now.shared.now.run arrival.piece }
        requires chain { IfSome arrival.chain (λ c. c ≡ standing self.now.shared.now.replay arrival.piece.upto) }
        requires ends { EndsAtKey (event_order_in self.now.shared.now) arrival.by arrival.piece (is_some arrival.chain) }
        ensures key { IsFreeLike shelf_lock.now key.old key.new }
        ensures made { Makes key.old (ArrivesAt block.sync arrival result) key.new }
        ensures met { IsMet self.now.shared.now result }
        ensures whole { IsMetWhole (event_order_in self.now.shared.now) block.sync result }
    {
        let mut shelf = lock(self.rt, shelf_lock, key);
        let met = self.arrive_on(&mut shelf, block, arrival);
        unlock(self.rt, shelf_lock, key, shelf);
        met
    }

    // Records a steal at a block whose shelf has this lock.
    fn record_steal_locked(
        &self,
        shelf_lock: &Lock<N>,
        key: &mut Key,
        block: Block,
        child: Pos,
        goes_on: Pos,
    ) -> bool
        requires context { IsWorkerContext N.run N.replay N.taken self.now }
        requires key { IsKeyFor shelf_lock.now block.number key.old }
        requires number { IsNumberOf (event_order_in self.now.shared.now) block.number block.sync }
        requires block { IsOfBlock (event_order_in self.now.shared.now) block.sync goes_on }
        requires sync { event (event_order_in self.now.shared.now) block.sync ≡ Some Sync }
        requires resumes { word_step (event_order_in self.now.shared.now) goes_on ≡ resume child }
        ensures key { IsFreeLike shelf_lock.now key.old key.new }
        ensures made { Makes key.old (StealsAt block.sync child goes_on result) key.new }
    {
        let mut shelf = lock(self.rt, shelf_lock, key);
        let told = self.record_steal_on(&mut shelf, block, child, goes_on);
        unlock(self.rt, shelf_lock, key, shelf);
        told
    }

    /// Takes a piece to a block. What passes has the whole block. Under the block's lock this arrival
    /// is made, and nothing else.
    pub fn arrive(&self, keys: &mut Vec<Key>, block: Block, arrival: Arrival) -> Met
        requires context { IsWorkerContext N.run N.replay N.taken self.now }
        requires keys { AreKeys self.now.locks.now.items keys.old.items }
        requires number { IsNumberOf (event_order_in self.now.shared.now) block.number block.sync }
        requires block { IsOfBlock (event_order_in self.now.shared.now) block.sync arrival.piece.upto }
        requires sync { event (event_order_in self.now.shared.now) block.sync ≡ Some Sync }
        requires first { IsFirstSpawn (event_order_in self.now.shared.now) block.sync block.first }
        requires good { IsGood self.now.shared.now.run arrival.piece }
        requires chain { IfSome arrival.chain (λ c. c ≡ standing self.now.shared.now.replay arrival.piece.upto) }
        requires ends { EndsAtKey (event_order_in self.now.shared.now) arrival.by arrival.piece (is_some arrival.chain) }
        ensures keys { AreKeys self.now.locks.now.items keys.new.items }
        ensures made { MakesFor block.number keys.old.items (ArrivesAt block.sync arrival result) keys.new.items }
        ensures met { IsMet self.now.shared.now result }
        ensures whole { IsMetWhole (event_order_in self.now.shared.now) block.sync result }
    {
        let locks = self.locks;
        let at = shelf_of(block.number, locks.len());
        let shelf_lock = &locks[at];
        let key = &mut keys[at];
        self.arrive_locked(shelf_lock, key, block, arrival)
    }

    /// Records at a block that a thief took the continuation of the spawn at `child`, which continues
    /// at `goes_on`, and nothing else. False if memory ran out.
    pub fn record_steal(&self, keys: &mut Vec<Key>, block: Block, child: Pos, goes_on: Pos) -> bool
        requires context { IsWorkerContext N.run N.replay N.taken self.now }
        requires keys { AreKeys self.now.locks.now.items keys.old.items }
        requires number { IsNumberOf (event_order_in self.now.shared.now) block.number block.sync }
        requires block { IsOfBlock (event_order_in self.now.shared.now) block.sync goes_on }
        requires sync { event (event_order_in self.now.shared.now) block.sync ≡ Some Sync }
        requires resumes { word_step (event_order_in self.now.shared.now) goes_on ≡ resume child }
        ensures keys { AreKeys self.now.locks.now.items keys.new.items }
        ensures made { MakesFor block.number keys.old.items (StealsAt block.sync child goes_on result) keys.new.items }
    {
        let locks = self.locks;
        let number = shelf_of(block.number, locks.len());
        let shelf_lock = &locks[number];
        let key = &mut keys[number];
        self.record_steal_locked(shelf_lock, key, block, child, goes_on)
    }
}

//! The join of a sync block.
//!
//! A key is the ordinal of a spawned child. The frame's own piece has a greater key than all
//! children, and arrives last.

ghost use Rattle.std.specs.Prelude.{◌≡◌, IfOk, IfErr, OnOk, OnErr, Some, true};
ghost use Rattle.cilk_join.specs.Products.{Product, product};
ghost use Rattle.cilk_join.specs.Waits.{shown};
ghost use Rattle.cilk_join.specs.Joins.{Answers, opening, IsAwaited, IsFresh, IsOpen, MayArrive, arrived_at, has_awaited, noted, parts_in, passes, stolen_at};

use crate::merging::merge;
use crate::row::Row;
use cilk_hypermap::hypermap::Hypermap;
use std::alloc::{AllocError, Global};

/// The outcome of an arrival.
#[derive(Drop)]
pub enum Arrival {
    /// The sync's own piece or that of a stolen child is still to come.
    Waits,
    /// All pieces have arrived. These are their views, merged by ascending key.
    Passes(Hypermap),
}

/// The pieces that wait at a sync block, merged into runs.
///
/// It has the run of arrived keys before the first awaited one, and the awaited keys in ascending
/// order, each with the run after it.
#[derive(Drop)]
pub struct Join {
    row: Row<(), Hypermap>,
    stolen: u32,
    arrived: u32,
    closed: bool,
}

impl Join {
    /// Returns a join at which nothing was stolen and nothing has arrived.
    pub fn new(alloc: Global) -> Join
        ensures { shown result ≡ opening }
    {
        Join {
            row: Row::new(alloc),
            stolen: 0,
            arrived: 0,
            closed: false,
        }
    }

    /// Returns whether the key is above every stolen and every arrived key, and the sync's own
    /// piece hasn't arrived.
    pub fn fresh(&self, key: u32) -> bool
        ensures { (result ≡ true → IsFresh (shown self.now) key) × (IsFresh (shown self.now) key → result ≡ true) }
    {
        !self.closed && self.stolen < key && self.arrived < key
    }

    /// Returns whether the continuation of the child with this key may be stolen.
    pub fn open(&self, key: u32) -> bool
        ensures { (result ≡ true → IsOpen (shown self.now) key) × (IsOpen (shown self.now) key → result ≡ true) }
    {
        !self.closed && self.stolen < key && self.arrived <= key
    }

    /// Returns whether the piece of the stolen child with this key is still to come.
    pub fn awaits(&self, key: u32) -> bool
        ensures { (result ≡ true → IsAwaited (shown self.now) key) × (IsAwaited (shown self.now) key → result ≡ true) }
    {
        self.row.awaits(key)
    }

    /// Returns whether the piece of a stolen child is still to come.
    pub fn waits(&self) -> bool
        ensures { result ≡ has_awaited (shown self.now) }
    {
        !self.row.is_whole()
    }

    /// Returns the number of runs of arrived keys, which is the number of hypermaps kept: at most
    /// the number of awaited keys plus one ([`crate::laws::rows_are_of_pieces`]).
    pub fn parts(&self) -> usize
        ensures { result ≡ parts_in (shown self.now) }
    {
        self.row.parts()
    }

    /// Records that a thief took the continuation of child `key`: the child's piece is awaited,
    /// unless it has arrived. If memory runs out, nothing changes.
    pub fn steal(&mut self, key: u32) -> Result<(), AllocError>
        requires { IsOpen (shown self.old) key }
        ensures ok { OnOk result (shown self.new ≡ stolen_at (shown self.old) key) }
        ensures err { OnErr result (shown self.new ≡ shown self.old) }
    {
        if self.arrived != key {
            self.row.wait(key, ())?;
        }
        self.stolen = key;
        Ok(())
    }

    // Notes that a piece with this key has arrived.
    fn note(&mut self, key: u32, last: bool)
        ensures { shown self.new ≡ noted (shown self.old) key last }
    {
        if self.arrived < key {
            self.arrived = key;
        }
        if last {
            self.closed = true;
        }
    }

    // The block passes once its own piece is there and no key is awaited.
    fn answer(&mut self) -> Arrival
        requires { passes (shown self.old) ≡ true → (p : Product) × (let j = shown self.old in let r = j.row in r.run ≡ Some p) }
        ensures { Answers (shown self.old) result (shown self.new) }
    {
        if !self.closed || !self.row.is_whole() {
            return Arrival::Waits;
        }
        match self.row.take() {
            Some(views) => Arrival::Passes(views),
            None => unreachable!(),
        }
    }

    /// Takes in a piece: a child's at its end, or the sync's own, which is the last.
    ///
    /// The piece is merged at once with its neighbours, left first, up to the next awaited key on
    /// either side. Whatever the order of steals and arrivals, the block passes exactly when the
    /// sync's piece and that of each stolen child have arrived, with the product by ascending key
    /// ([`crate::laws::passes_with_all`]). If memory runs out, the piece comes back with the same
    /// values and nothing changes.
    pub fn arrive(
        &mut self,
        alloc: Global,
        key: u32,
        last: bool,
        views: Hypermap,
    ) -> Result<Arrival, Hypermap>
        requires { MayArrive (shown self.old) key last }
        ensures ok { IfOk result (λ a. Answers (arrived_at (shown self.old) key last (product views)) a (shown self.new)) }
        ensures err { IfErr result (λ h. product h ≡ product views) }
        ensures unchanged { OnErr result (shown self.new ≡ shown self.old) }
    {
        let (place, parts) = self.row.open(key, views);
        match merge(alloc, parts) {
            Ok(run) => {
                self.row.close(place, run);
                self.note(key, last);
                Ok(self.answer())
            }
            Err(parts) => Err(self.row.restore(place, parts)),
        }
    }
}

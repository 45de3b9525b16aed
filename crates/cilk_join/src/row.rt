//! A row of awaited keys, and the runs of arrived keys between them, for runs of any type.

ghost use Rattle.std.specs.Prelude.{◌≡◌, ◌↔◌, ◌<◌, suc, [], ◌++◌, drop, take, None, OnOk, OnErr, IsTrue};
ghost use Rattle.cilk_join.specs.AwaitedRows.{Stands, awaiting, closed, is_empty, keys, opened, parts_at, parts_of, place_of, replaced, row, run_at, runs_in, with_beside};

use std::alloc::{AllocError, Global};
use std::marker::Model;
use std::mem;

/// An awaited key, where its child's parent continues, if that is kept, and the run of arrived keys
/// right after it.
#[derive(Drop)]
pub struct Wait<P, T> {
    pub key: u32,
    pub goes_on: P,
    pub run: Option<T>,
}

/// A piece, and the runs on its two sides, if there are any.
#[derive(Drop)]
pub struct Parts<T> {
    pub left: Option<T>,
    pub piece: T,
    pub right: Option<T>,
}

impl<T> Parts<T> {
    /// Returns these parts.
    #[inline(always)]
    pub fn of(left: Option<T>, piece: T, right: Option<T>) -> Parts<T>
        ensures { result ≡ record { left = left; piece = piece; right = right } }
    {
        Parts { left, piece, right }
    }
}

/// The run of arrived keys before the first awaited one, and the awaited keys in ascending order.
#[derive(Drop)]
pub struct Row<P, T> {
    first: Option<T>,
    awaited: Vec<Wait<P, T>>,
}

impl<P, T> Model for Row<P, T> {
    ghost use Rattle.cilk_join.specs.AwaitedRows.{RowValue, row};

    ghost Value = { RowValue P T };

    ghost view = { λ r. row r.first r.awaited.items };
}

impl<P, T> Row<P, T> {
    /// Returns a row without runs or awaited keys.
    pub fn new(alloc: Global) -> Row<P, T>
        ensures { result ≡ row None [] }
    {
        Row {
            first: None,
            awaited: Vec::new(alloc),
        }
    }

    /// Returns the run before all awaited keys.
    pub fn first(&self) -> &Option<T>
        ensures { result.now ≡ self.now.run }
    {
        &self.first
    }

    /// Returns the awaited keys.
    pub fn waits(&self) -> &[Wait<P, T>]
        ensures { result.now ≡ self.now.waits }
    {
        self.awaited.as_slice()
    }

    /// Returns whether no key is awaited.
    pub fn is_whole(&self) -> bool
        ensures { result ≡ is_empty self.now.waits }
    {
        self.awaited.is_empty()
    }

    /// Returns whether the key is awaited.
    pub fn awaits(&self, key: u32) -> bool
        ensures { IsTrue result ↔ Stands (keys self.now.waits) key }
    {
        self.place(key) < self.awaited.len()
    }

    /// Returns the number of runs.
    pub fn parts(&self) -> usize
        ensures { result ≡ parts_of self.now }
    {
        let behind = self.runs();
        if self.first.is_some() {
            behind + 1
        } else {
            behind
        }
    }

    // The number of runs after the awaited keys.
    fn runs(&self) -> usize
        ensures runs { result ≡ runs_in self.now.waits }
        ensures low { result < 18446744073709551615 }
    {
        let mut count = 0;
        'each: for place in 0..self.awaited.len() {
            if self.awaited[place].run.is_some() {
                count += 1;
            }
        }
        count
    }

    /// Appends an awaited key. If memory runs out, nothing changes.
    pub fn wait(&mut self, key: u32, goes_on: P) -> Result<(), AllocError>
    where
        P: Drop,
        T: Drop,
        ensures ok { OnOk result (self.new ≡ awaiting self.old key goes_on) }
        ensures err { OnErr result (self.new ≡ self.old) }
    {
        // Most rows have one key at a time, and a list that grows takes room for four.
        if self.awaited.is_empty() {
            self.awaited.reserve_exact(1)?;
        }
        self.awaited.push(Wait {
            key,
            goes_on,
            run: None,
        })?;
        Ok(())
    }

    /// Moves the first run out.
    pub fn take(&mut self) -> Option<T>
        ensures out { result ≡ self.old.run }
        ensures new { self.new ≡ row None self.old.waits }
    {
        self.first.take()
    }

    // The place of an awaited key, or the end.
    fn place(&self, key: u32) -> usize
        ensures { result ≡ place_of self.now.waits key }
    {
        'each: for place in 0..self.awaited.len() {
            if self.awaited[place].key == key {
                return place;
            }
        }
        self.awaited.len()
    }

    // Puts another run after the awaited key at a place, if there is such a place, and returns the
    // run that was there.
    fn replace_after(&mut self, place: usize, run: Option<T>) -> Option<T>
    where
        T: Drop,
        ensures out { result ≡ run_at self.old.run self.old.waits (suc place) }
        ensures new { self.new ≡ replaced self.old (suc place) run }
    {
        if place < self.awaited.len() {
            mem::replace(&mut self.awaited[place].run, run)
        } else {
            None
        }
    }

    // The same for the run before it.
    fn replace(&mut self, place: usize, run: Option<T>) -> Option<T>
    where
        T: Drop,
        ensures out { result ≡ run_at self.old.run self.old.waits place }
        ensures new { self.new ≡ replaced self.old place run }
    {
        if place == 0 {
            mem::replace(&mut self.first, run)
        } else {
            self.replace_after(place - 1, run)
        }
    }

    // Forgets the awaited key at a place, with the run after it.
    fn forget(&mut self, place: usize)
    where
        P: Drop,
        T: Drop,
        ensures { self.new ≡ row self.old.run (take place self.old.waits ++ drop (suc place) self.old.waits) }
    {
        if place < self.awaited.len() {
            let _gone = self.awaited.remove(place);
        }
    }

    /// Takes the runs on both sides of a key's place out. Returns the place, and the runs with the
    /// piece.
    pub fn open(&mut self, key: u32, piece: T) -> (usize, Parts<T>)
    where
        T: Drop,
        ensures place { result.0 ≡ place_of self.old.waits key }
        ensures parts { result.1 ≡ parts_at self.old result.0 piece }
        ensures new { self.new ≡ opened self.old result.0 }
    {
        let place = self.place(key);
        let left = self.replace(place, None);
        let right = self.replace_after(place, None);
        (place, Parts::of(left, piece, right))
    }

    /// Puts a run at a place that was opened, and forgets its key.
    pub fn close(&mut self, place: usize, run: T)
    where
        P: Drop,
        T: Drop,
        ensures { self.new ≡ closed self.old place run }
    {
        let _none = self.replace(place, Some(run));
        self.forget(place);
    }

    /// Puts the runs back at a place that was opened, and returns the piece.
    pub fn restore(&mut self, place: usize, parts: Parts<T>) -> T
    where
        T: Drop,
        ensures piece { result ≡ parts.piece }
        ensures new { self.new ≡ with_beside self.old place parts.left parts.right }
    {
        let Parts { left, piece, right } = parts;
        let _none = self.replace(place, left);
        let _none = self.replace_after(place, right);
        piece
    }
}

//! The runs of arrived keys of a sync block, and the awaited keys between them.
ghost use Rattle.std.specs.Prelude.{nat_lt, if◌then◌else◌, ◌≡◌, ◌↔◌, ◌<◌, ◌≤◌, IfErr, OnOk, OnErr, IsTrue, None, []};
ghost use Rattle.cilk_workers.specs.Rows.{parts_in, awaiting, end_in, placed_in, FitsIn, IsGood, IsGoodRun, IsLowest, PiecesLieApart, rows, yard_of};
ghost use Rattle.cilk_join.specs.AwaitedRows.{is_empty, row};
ghost use Rattle.cilk_workers.specs.Boxes.{IsAwaitedIf};

use crate::awaited::{end_of_all, end_of_run, fits_from};
use crate::merging::merge;
use crate::shared::Shared;
use cilk_join::row::Row;
use cilk_shared::piece::Piece;
use cilk_shared::reducers::Reducers;
use cilk_shared::yard::Yard;
use cilk_types::event::Pos;
use std::alloc::{AllocError, Global};
use std::marker::Model;
use std::snapshot::Snapshot;

/// The runs of a sync block, with one piece for each run.
#[derive(Drop)]
pub struct Runs {
    of: Snapshot<Yard>,
    reducers: Snapshot<Reducers>,
    row: Row<Pos, Piece>,
}

impl Model for Runs {
    ghost use Rattle.cilk_workers.specs.Rows.{Rows, rows, run_of, MetRows};

    ghost Value = { Rows };

    ghost view = { λ r. rows (run_of r.of.value r.reducers.value) r.row };

    ghost invariant = { λ r. MetRows (rows (run_of r.of.value r.reducers.value) r.row) };
}

// The lesser of two positions.
fn least(one: Pos, other: Pos) -> Pos
    ensures { result ≡ if nat_lt other one then other else one }
{
    if other < one { other } else { one }
}

impl Runs {
    /// Returns a row without runs or awaited keys.
    pub fn new(alloc: Global, shared: &Shared<'_>) -> Runs
        ensures { result ≡ rows shared.now.run (row None []) }
    {
        Runs {
            of: Snapshot::of(shared.yard()),
            reducers: Snapshot::of(shared.reducers()),
            row: Row::new(alloc),
        }
    }

    /// Returns the number of runs, which is the number of pieces kept.
    pub fn parts(&self) -> usize
        ensures { result ≡ parts_in self.now }
    {
        self.row.parts()
    }

    /// A law: the pieces don't overlap, and are in the order of the run.
    pub fn laws(&self)
        ensures { PiecesLieApart self.now }
    {
        let _whole = self.row.is_whole();
    }

    /// Returns the position where the row ends.
    pub fn end(&self) -> Pos
        ensures { result ≡ end_in self.now }
    {
        end_of_all(self.row.waits(), end_of_run(self.row.first(), 0))
    }

    /// Appends an awaited key, whose parent continues at `goes_on`. If memory runs out, nothing
    /// changes.
    pub fn wait(&mut self, key: Pos, goes_on: Pos) -> Result<(), AllocError>
        requires { end_in self.old ≤ goes_on }
        ensures ok { OnOk result (self.new ≡ awaiting self.old key goes_on) }
        ensures err { OnErr result (self.new ≡ self.old) }
    {
        self.row.wait(key, goes_on)?;
        Ok(())
    }

    /// Puts a piece in its place, and makes one run of it and its neighbours. If memory runs out,
    /// it comes back and nothing changes.
    pub fn put(&mut self, alloc: Global, yard: &Yard, key: Pos, piece: Piece) -> Result<(), Piece>
        requires yard { yard_of self.old.of ≡ yard.now }
        requires good { IsGood self.old.of piece }
        requires fits { FitsIn self.old key piece }
        ensures ok { OnOk result (self.new ≡ placed_in self.old key piece) }
        ensures err { IfErr result (λ p. p ≡ piece) }
        ensures unchanged { OnErr result (self.new ≡ self.old) }
    {
        let (place, parts) = self.row.open(key, piece);
        match merge(alloc, yard, parts) {
            Ok(run) => {
                self.row.close(place, run);
                Ok(())
            }
            Err(parts) => Err(self.row.restore(place, parts)),
        }
    }

    /// Returns whether no key is awaited.
    pub fn is_whole(&self) -> bool
        ensures { result ≡ is_empty self.now.row.waits }
    {
        self.row.is_whole()
    }

    /// Moves the first run out.
    pub fn take(&mut self) -> Option<Piece>
        ensures out { result ≡ self.old.row.run }
        ensures new { self.new ≡ rows self.old.of (row None self.old.row.waits) }
        ensures good { IsGoodRun self.old.of result }
    {
        self.row.take()
    }

    /// Returns whether the key is awaited.
    pub fn awaits(&self, key: Pos) -> bool
        ensures { IsAwaitedIf result self.now.row.waits key }
    {
        self.row.awaits(key)
    }

    /// Returns whether the piece adjoins the neighbours of its place and, if its key is the lowest,
    /// begins no later than `first`.
    pub fn fits(&self, key: Pos, piece: &Piece, first: Pos) -> bool
        ensures { IsTrue result ↔ (FitsIn self.now key piece.now × (IsLowest self.now key → piece.now.from ≤ first)) }
    {
        let begin = least(piece.from(), first);
        fits_from(
            self.row.waits(),
            end_of_run(self.row.first(), begin),
            key,
            piece,
        )
    }
}

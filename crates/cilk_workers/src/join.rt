//! The join box of a sync block.
//!
//! A key is the position of a spawn, or that of the sync for the block's own piece, which arrives
//! last.

ghost use Rattle.std.specs.Prelude.{nat_lt, if◌then◌else◌, Some, None, ◌≡◌, ◌<◌, ◌≤◌, ◌↔◌, IfOk, IfErr, OnOk, OnErr, IsTrue, true, false};
ghost use Rattle.cilk_types.specs.declared.event.Event.TheVariants.{Sync};
ghost use Rattle.cilk_tree.specs.Word.{event, resume, word_step};
ghost use Rattle.cilk_workers.specs.Rows.{FitsIn, IsGood, IsLowest, PiecesLieApart, parts_in, yard_of};
ghost use Rattle.cilk_workers.specs.Boxes.{is_some, later, opening, BeginsByFirst, Comes, EndsAtKey, IsFresh, IsOpen, IsUnused, MayArrive, stolen_at, arrived_at};
ghost use Rattle.cilk_workers.specs.Answers.{Answers, PassesWhole};
ghost use Rattle.cilk_workers.specs.Shared.{event_order_in};

use crate::runs::Runs;
use crate::shared::Shared;
use cilk_replay::chain::Chain;
use cilk_replay::replay::ReplayModel;
use cilk_shared::piece::Piece;
use cilk_shared::yard::Yard;
use cilk_types::event::Pos;
use std::alloc::{AllocError, Global};
use std::marker::Model;
use std::snapshot::Snapshot;

/// The outcome of an arrival.
#[derive(Drop)]
pub enum Boxed {
    /// The sync's own piece or that of a stolen child is still to come.
    Waits,
    /// All pieces have arrived. This is their piece, with the chain at the sync.
    Passes(Piece, Chain),
}

/// The pieces that wait at a sync block whose continuations were stolen.
///
/// It keeps one piece for each run of arrived keys with no awaited key between. Its type keeps that
/// the pieces don't overlap, that the one before all awaited keys begins no later than the block's
/// first spawn, and that the chain, once the block's own piece has come, is at the sync.
#[derive(Drop)]
pub struct JoinBox {
    replay: Snapshot<ReplayModel>,
    sync: Pos,
    runs: Runs,
    stolen: Pos,
    arrived: Pos,
    gone: bool,
    chain: Option<Chain>,
}

impl Model for JoinBox {
    ghost use Rattle.std.specs.Prelude.{◌≡◌, Some};
    ghost use Rattle.cilk_types.specs.declared.event.Event.TheVariants.{Sync};
    ghost use Rattle.cilk_tree.specs.Word.{event};
    ghost use Rattle.std.specs.Coded.{codes};
    ghost use Rattle.cilk_replay.specs.Replays.{replay_code};
    ghost use Rattle.cilk_workers.specs.Boxes.{BoxValue, IsClosed, IsGone, StartsByFirst, closed_by};

    ghost Value = { BoxValue };

    ghost coded = { Prim.hlevel (codes, replay_code) };

    ghost view = { λ b. record { rows = b.runs; replay = b.replay.value; sync = b.sync; stolen = b.stolen; arrived = b.arrived; closed = closed_by b.gone b.chain } };

    ghost invariant = { λ b. IsClosed b.runs b.replay.value b.sync b.chain × IsGone b.gone b.runs b.chain × (event b.runs.of.event_order b.sync ≡ Some Sync)
        × StartsByFirst b.runs.of.event_order b.sync b.runs.row.run };
}

// The greater of two keys.
fn most(one: Pos, other: Pos) -> Pos
    ensures { result ≡ if nat_lt one other then other else one }
{
    if one < other { other } else { one }
}

// Keeps the chain that came, if one did.
fn settle(chain: &mut Option<Chain>, other: Option<Chain>)
    requires { is_some other ≡ true → is_some chain.old ≡ false }
    ensures { chain.new ≡ later chain.old other }
{
    if other.is_some() {
        *chain = other;
    }
}

impl JoinBox {
    /// Returns a box at which nothing was stolen and nothing has arrived.
    pub fn new(alloc: Global, shared: &Shared<'_>, sync: Pos) -> JoinBox
        requires { event (event_order_in shared.now) sync ≡ Some Sync }
        ensures { result ≡ opening shared.now.run shared.now.replay sync }
    {
        JoinBox {
            replay: shared.replay().snapshot(),
            sync,
            runs: Runs::new(alloc, shared),
            stolen: 0,
            arrived: 0,
            gone: false,
            chain: None,
        }
    }

    /// Returns the position of the block's sync.
    pub fn sync(&self) -> Pos
        ensures { result ≡ self.now.sync }
    {
        self.sync
    }

    /// The laws of the box: its pieces don't overlap and are in the order of the run, and the event
    /// at the block's sync is a `sync`.
    pub fn laws(&self)
        ensures apart { PiecesLieApart self.now.rows }
        ensures sync { event self.now.rows.of.event_order self.now.sync ≡ Some Sync }
    {
        self.runs.laws();
        let _sync = self.sync;
    }

    // Whether the sync's own piece has arrived.
    fn is_closed(&self) -> bool
        ensures { result ≡ self.now.closed }
    {
        self.gone || self.chain.is_some()
    }

    /// Returns whether the key is above every stolen and every arrived key, and the sync's own
    /// piece hasn't arrived.
    pub fn fresh(&self, key: Pos) -> bool
        ensures { IsTrue result ↔ IsFresh self.now key }
    {
        !self.is_closed() && self.stolen < key && self.arrived < key
    }

    /// Returns whether the continuation of the child `key` may be stolen, if its parent continues
    /// at `goes_on`.
    pub fn open(&self, key: Pos, goes_on: Pos) -> bool
        ensures { IsTrue result ↔ IsOpen self.now key goes_on }
    {
        !self.is_closed() && self.stolen < key && self.arrived <= key && self.runs.end() <= goes_on
    }

    /// Returns the number of runs of arrived keys, which is the number of pieces kept.
    pub fn parts(&self) -> usize
        ensures { result ≡ parts_in self.now.rows }
    {
        self.runs.parts()
    }

    /// Returns whether nothing waits: no piece is there, and no key is awaited.
    pub fn is_empty(&self) -> bool
        ensures { IsTrue result ↔ IsUnused self.now }
    {
        self.runs.is_whole() && self.runs.parts() == 0
    }

    /// Records that a thief took the continuation of the child `key`, which resumes at `goes_on`.
    /// If memory runs out, nothing changes.
    pub fn record_steal(&mut self, key: Pos, goes_on: Pos) -> Result<(), AllocError>
        requires may { IsOpen self.old key goes_on }
        requires resumes { word_step self.old.rows.of.event_order goes_on ≡ resume key }
        ensures ok { OnOk result (self.new ≡ stolen_at self.old key goes_on) }
        ensures err { OnErr result (self.new ≡ self.old) }
    {
        if self.arrived != key {
            self.runs.wait(key, goes_on)?;
        }
        self.stolen = key;
        Ok(())
    }

    /// Returns whether the piece may arrive with this key, before which it begins. It begins at the
    /// `resume` after the greatest lower key, or no later than `first`, the block's first spawn, if
    /// there is none. `last` says whether it is the sync's own.
    pub fn fits(&self, key: Pos, piece: &Piece, last: bool, first: Pos) -> bool
        ensures { IsTrue result ↔ (FitsIn self.now.rows key piece.now × Comes self.now key piece.now last × (piece.now.from ≤ key) × (IsLowest self.now.rows key → piece.now.from ≤ first)) }
    {
        if piece.from() > key || !self.runs.fits(key, piece, first) {
            return false;
        }
        if last {
            self.fresh(key) && piece.upto() == self.sync && !self.runs.awaits(key)
        } else {
            self.runs.awaits(key) || self.fresh(key)
        }
    }

    // The block passes once its own piece is there and no key is awaited.
    fn answer(&mut self) -> Boxed
        ensures answer { Answers self.old result self.new }
        ensures whole { PassesWhole self.old.rows.of.event_order self.old.sync result }
    {
        if !self.runs.is_whole() {
            return Boxed::Waits;
        }
        let Some(chain) = self.chain.take() else {
            return Boxed::Waits;
        };
        let Some(piece) = self.runs.take() else {
            unreachable!()
        };
        self.gone = true;
        Boxed::Passes(piece, chain)
    }

    /// Takes in a piece: a child's at its end, or the sync's own, with its chain. It is merged at
    /// once with its neighbours, in the order of the run. What passes has every child of the block. If
    /// memory runs out, piece and chain come back and nothing changes.
    pub fn arrive(
        &mut self,
        alloc: Global,
        yard: &Yard,
        key: Pos,
        piece: Piece,
        chain: Option<Chain>,
    ) -> Result<Boxed, (Piece, Option<Chain>)>
        requires yard { yard_of self.old.rows.of ≡ yard.now }
        requires good { IsGood self.old.rows.of piece }
        requires fits { FitsIn self.old.rows key piece }
        requires comes { MayArrive self.old key piece chain }
        requires begins { piece.from ≤ key }
        requires first { IsLowest self.old.rows key → BeginsByFirst self.old.rows.of.event_order self.old.sync piece }
        requires ends { EndsAtKey self.old.rows.of.event_order key piece (is_some chain) }
        ensures ok { IfOk result (λ b. Answers (arrived_at self.old key piece (is_some chain)) b self.new) }
        ensures whole { IfOk result (λ b. PassesWhole self.old.rows.of.event_order self.old.sync b) }
        ensures err { IfErr result (λ r. (r.0 ≡ piece) × (r.1 ≡ chain)) }
        ensures unchanged { OnErr result (self.new ≡ self.old) }
    {
        match self.runs.put(alloc, yard, key, piece) {
            Ok(()) => {
                self.arrived = most(self.arrived, key);
                settle(&mut self.chain, chain);
                Ok(self.answer())
            }
            Err(piece) => Err((piece, chain)),
        }
    }
}

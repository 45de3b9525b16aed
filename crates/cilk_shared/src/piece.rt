//! A piece of a run.

ghost use Rattle.std.specs.Prelude.{◌≡◌, ◌<◌, ℤ, [], length, Some, IfOk, IsTrue, MatchResult, OnOk, OnErr};
ghost use Rattle.cilk_types.specs.declared.event.Event.TheVariants.{Read, Create, Update, Set, Value, Print, End};
ghost use Rattle.cilk_hypermap.specs.Ranges.{ShowsRange};
ghost use Rattle.cilk_tree.specs.Frames.{IsInFrame};
ghost use Rattle.cilk_shared.specs.Values.{OfYard, NextRead, NextWrite, NextSpawn, NextFinish, CanTake, CanPass};
ghost use Rattle.cilk_tree.specs.Runs.{IsFollowed};
ghost use Rattle.cilk_tree.specs.Word.{event};
ghost use Rattle.cilk_shared.specs.Pieces.{AreOfOne, Adjoining, Covers, IsPieceOf, IsPieceTaken, PassesOn, grown, joined, none_beside, number_ahead, piece_of, segment_of};
ghost use Rattle.cilk_shared.specs.Rule.{IsStart, Whole};
ghost use Rattle.cilk_shared.specs.Reducers.{HasFew, events_at, events_over, kind_in};
ghost use Rattle.cilk_shared.specs.Settled.{AreSettled};

use crate::reducers::Reducers;
use crate::taken::Taken;
use crate::views::retire_own;
use crate::yard::{Segment, Yard};
use cilk_hypermap::hypermap::Hypermap;
use cilk_monoid::kind::MonoidKind;
use cilk_types::event::{Cell, FrameNo, Instance, Pos};
use std::alloc::{AllocError, Global};
use std::marker::Model;
use std::snapshot::Snapshot;

/// A range of the run's positions that one worker has done, with the reducer views of its events.
///
/// Contracts see its range; its type keeps that the views are those of the range's events.
#[derive(Drop)]
pub struct Piece {
    views: Hypermap,
    segment: Segment,
    reducers: Snapshot<Reducers>,
}

impl Model for Piece {
    ghost use Rattle.cilk_shared.specs.Pieces.{PieceValue, Covers, piece_of};

    ghost Value = { PieceValue };

    ghost view = { λ p. piece_of p.reducers.value p.segment };

    ghost invariant = { λ p. Covers p.views p.reducers.value p.segment };
}

/// The parts of a piece.
#[derive(Drop)]
pub struct Parts {
    pub views: Hypermap,
    pub segment: Segment,
}

impl Piece {
    // The piece of these parts.
    fn of(views: Hypermap, segment: Segment, reducers: Snapshot<Reducers>) -> Piece
        requires { Covers views reducers.value segment }
        ensures { result ≡ piece_of reducers.value segment }
    {
        Piece {
            views,
            segment,
            reducers,
        }
    }

    /// Makes the piece of a yard's first segment, the one of the run's first event.
    pub fn new(alloc: Global, yard: &Yard, segment: Segment, reducers: &Reducers) -> Piece
        requires yard { OfYard yard.now segment }
        requires first { (segment.from ≡ 1) × (segment.upto ≡ 2) }
        requires settled { AreSettled segment.event_order reducers.now }
        requires quiet { events_at segment.event_order reducers.now 1 ≡ [] }
        ensures { result ≡ piece_of reducers.now segment }
    {
        yard.laws();
        Piece {
            views: Hypermap::new(alloc),
            segment,
            reducers: Snapshot::of(reducers),
        }
    }

    /// The laws of the piece. It begins where a range may begin, and the immediate predecessors of
    /// each of its events are in it, except those of a `resume` after a spawn.
    pub fn laws(&self)
        ensures begins { self.now.from < self.now.upto → IsStart self.now.event_order self.now.from }
        ensures whole { Whole self.now.event_order self.now.from self.now.upto }
    {
        let _segment = &self.segment;
    }

    /// Returns the views and the segment.
    pub fn parted(self) -> Parts
        ensures views { ShowsRange (kind_in self.reducers) result.views (events_over self.event_order self.reducers self.from self.upto) }
        ensures segment { result.segment ≡ segment_of self }
    {
        Parts {
            views: self.views,
            segment: self.segment,
        }
    }

    /// Returns the piece unchanged, and an empty piece for another worker.
    pub fn apart(self, alloc: Global, yard: &Yard, reducers: &Reducers) -> (Piece, Piece)
        requires yard { IsPieceOf yard.now self }
        requires reducers { reducers.now ≡ self.reducers }
        ensures first { result.0 ≡ self }
        ensures second { result.1 ≡ none_beside self }
    {
        let Piece {
            views,
            segment,
            reducers: same,
        } = self;
        let (segment, other) = yard.apart(segment);
        (
            Piece {
                views,
                segment,
                reducers: same,
            },
            Piece {
                views: Hypermap::new(alloc),
                segment: other,
                reducers: Snapshot::of(reducers),
            },
        )
    }

    /// Returns the segment.
    pub fn segment(&self) -> &Segment
        ensures { result.now ≡ segment_of self.now }
    {
        &self.segment
    }

    /// Returns the first position, if the piece has events.
    pub fn from(&self) -> Pos
        ensures { result ≡ self.now.from }
    {
        self.segment.from()
    }

    /// Returns the position after the last one, which is that of the next event.
    pub fn upto(&self) -> Pos
        ensures { result ≡ self.now.upto }
    {
        self.segment.upto()
    }

    /// Loads the cell, as the piece's next event does: returns the value of that read in the run's
    /// event order.
    pub fn load(&mut self, yard: &Yard, cell: Cell) -> i64
        requires yard { IsPieceOf yard.now self.old }
        requires next { NextRead yard.now (segment_of self.old) cell }
        ensures piece { self.new ≡ grown self.old }
        ensures value { event yard.now.event_order self.old.upto ≡ Some (Read cell result) }
    {
        yard.laws();
        yard.load(&mut self.segment, cell)
    }

    /// Stores the value in the cell, as the piece's next event does.
    pub fn store(&mut self, yard: &Yard, cell: Cell, value: i64)
        requires yard { IsPieceOf yard.now self.old }
        requires next { NextWrite yard.now (segment_of self.old) cell value }
        ensures { self.new ≡ grown self.old }
    {
        yard.laws();
        yard.store(&mut self.segment, cell, value);
    }

    /// Offers the continuation of the spawn that is the piece's next event, so that any thread may
    /// take it. Returns its ticket, the spawn's position.
    pub fn offer(&mut self, yard: &Yard) -> Pos
        requires yard { IsPieceOf yard.now self.old }
        requires next { NextSpawn yard.now (segment_of self.old) }
        ensures piece { self.new ≡ grown self.old }
        ensures ticket { result ≡ self.old.upto }
    {
        yard.laws();
        yard.offer(&mut self.segment)
    }

    /// Takes the continuation of the spawn at `ticket`, unless it was taken. On success the piece
    /// continues with its `resume`.
    pub fn take(&mut self, yard: &Yard, ticket: Pos) -> Taken
        requires yard { IsPieceOf yard.now self.old }
        requires next { CanTake yard.now (segment_of self.old) ticket }
        ensures { IsPieceTaken yard.now self.old ticket self.new result }
    {
        yard.laws();
        yard.take(&mut self.segment, ticket)
    }

    /// Returns whether the run is seen to have ended. A thread may see the end late. If true, the
    /// frames requested each event of the run.
    pub fn ended(&mut self, yard: &Yard) -> bool
        requires { IsPieceOf yard.now self.old }
        ensures piece { self.new ≡ self.old }
        ensures whole { IsTrue result → IsFollowed self.old.event_order (length self.old.event_order.events) }
    {
        yard.ended(&mut self.segment)
    }

    /// Adds the next event, which is neither a step on a shared word nor an event of a reducer.
    pub fn pass(&mut self, yard: &Yard)
        requires yard { IsPieceOf yard.now self.old }
        requires next { CanPass (segment_of self.old) }
        requires quiet { events_at self.old.event_order self.old.reducers self.old.upto ≡ [] }
        ensures { self.new ≡ grown self.old }
    {
        self.segment.grow(yard);
    }

    /// Creates the reducer with its monoid's unit, as the next event does. If memory runs out,
    /// nothing changes; the same holds for the events below.
    pub fn create(
        &mut self,
        alloc: Global,
        yard: &Yard,
        instance: Instance,
        kind: MonoidKind,
    ) -> Result<(), AllocError>
        requires yard { IsPieceOf yard.now self.old }
        requires next { PassesOn self.old (Create instance) }
        requires kind { kind ≡ kind_in self.old.reducers instance }
        ensures ok { OnOk result (self.new ≡ grown self.old) }
        ensures err { OnErr result (self.new ≡ self.old) }
    {
        self.views.create(alloc, instance, kind)?;
        self.segment.grow(yard);
        Ok(())
    }

    /// Multiplies the reducer's view by the number from the right, as the next event does.
    pub fn update(
        &mut self,
        alloc: Global,
        yard: &Yard,
        instance: Instance,
        kind: MonoidKind,
        value: i64,
    ) -> Result<(), AllocError>
        requires yard { IsPieceOf yard.now self.old }
        requires next { PassesOn self.old (Update instance value) }
        requires kind { kind ≡ kind_in self.old.reducers instance }
        ensures ok { OnOk result (self.new ≡ grown self.old) }
        ensures err { OnErr result (self.new ≡ self.old) }
    {
        self.views.update(alloc, instance, kind, value)?;
        self.segment.grow(yard);
        Ok(())
    }

    /// Sets the reducer's view to that of the single number, as the next event does.
    pub fn set(
        &mut self,
        alloc: Global,
        yard: &Yard,
        instance: Instance,
        kind: MonoidKind,
        value: i64,
    ) -> Result<(), AllocError>
        requires yard { IsPieceOf yard.now self.old }
        requires next { PassesOn self.old (Set instance value) }
        requires kind { kind ≡ kind_in self.old.reducers instance }
        ensures ok { OnOk result (self.new ≡ grown self.old) }
        ensures err { OnErr result (self.new ≡ self.old) }
    {
        self.views.set(alloc, instance, kind, value)?;
        self.segment.grow(yard);
        Ok(())
    }

    /// Returns the number of the reducer's view over all events of the run before the next one,
    /// which reads it. The piece has all of that view.
    pub fn value(
        &mut self,
        alloc: Global,
        yard: &Yard,
        instance: Instance,
        kind: MonoidKind,
    ) -> Result<i64, AllocError>
        requires yard { IsPieceOf yard.now self.old }
        requires next { (v : ℤ) × PassesOn self.old (Value instance v) }
        requires kind { kind ≡ kind_in self.old.reducers instance }
        ensures number { IfOk result (λ n. n ≡ number_ahead self.old instance) }
        ensures ok { OnOk result (self.new ≡ grown self.old) }
        ensures err { OnErr result (self.new ≡ self.old) }
    {
        yard.laws();
        let number = self.views.value(alloc, instance, kind)?;
        self.segment.grow(yard);
        Ok(number)
    }

    /// Appends the number to the output, as the next event does.
    pub fn print(&mut self, alloc: Global, yard: &Yard, value: i64) -> Result<(), AllocError>
        requires yard { IsPieceOf yard.now self.old }
        requires next { PassesOn self.old (Print value) }
        ensures ok { OnOk result (self.new ≡ grown self.old) }
        ensures err { OnErr result (self.new ≡ self.old) }
    {
        self.views.print(alloc, value)?;
        self.segment.grow(yard);
        Ok(())
    }

    /// Ends the frame, as the next event does, and drops the views of its reducers.
    pub fn end(&mut self, yard: &Yard, reducers: &Reducers, frame: FrameNo)
        requires yard { IsPieceOf yard.now self.old }
        requires reducers { (reducers.now ≡ self.old.reducers) × HasFew reducers.now }
        requires next { PassesOn self.old End }
        requires frame { IsInFrame self.old.event_order.events self.old.upto frame }
        ensures { self.new ≡ grown self.old }
    {
        retire_own(&mut self.views, reducers, frame);
        self.segment.grow(yard);
    }

    /// Ends the run: the next event is the root's `end`. So the piece begins with the run's first
    /// event. The reducers that outlive the root keep their views.
    pub fn finish(&mut self, yard: &Yard, reducers: &Reducers, root: FrameNo)
        requires yard { IsPieceOf yard.now self.old }
        requires reducers { (reducers.now ≡ self.old.reducers) × HasFew reducers.now }
        requires next { NextFinish yard.now (segment_of self.old) }
        requires root { IsInFrame self.old.event_order.events self.old.upto root }
        ensures piece { self.new ≡ grown self.old }
        ensures begins { self.old.from ≡ 1 }
    {
        yard.laws();
        retire_own(&mut self.views, reducers, root);
        yard.finish(&mut self.segment);
    }

    /// Makes one piece of two that adjoin. If memory runs out, both come back.
    pub fn join(
        alloc: Global,
        yard: &Yard,
        left: Piece,
        right: Piece,
    ) -> Result<Piece, (Piece, Piece)>
        requires one { AreOfOne yard.now left right }
        requires near { Adjoining left right }
        ensures { MatchResult result (λ p. p ≡ joined left right) (λ r. (r.0 ≡ left) × (r.1 ≡ right)) }
    {
        yard.laws();
        let Piece {
            views,
            segment,
            reducers,
        } = left;
        let Piece {
            views: later_views,
            segment: later,
            reducers: later_reducers,
        } = right;
        match Hypermap::merge(alloc, views, later_views) {
            Ok(views) => Ok(Piece::of(views, yard.together(segment, later), reducers)),
            Err((views, later_views)) => Err((
                Piece::of(views, segment, reducers),
                Piece::of(later_views, later, later_reducers),
            )),
        }
    }

    /// Makes one piece of three that adjoin. If memory runs out, all come back.
    pub fn join3(
        alloc: Global,
        yard: &Yard,
        left: Piece,
        middle: Piece,
        right: Piece,
    ) -> Result<Piece, (Piece, Piece, Piece)>
        requires one { AreOfOne yard.now left middle × AreOfOne yard.now left right }
        requires near { Adjoining left middle × Adjoining (joined left middle) right }
        ensures { MatchResult result (λ p. p ≡ joined (joined left middle) right) (λ r. (r.0 ≡ left) × (r.1 ≡ middle) × (r.2 ≡ right)) }
    {
        yard.laws();
        let Piece {
            views: first,
            segment: one,
            reducers,
        } = left;
        let Piece {
            views: second,
            segment: two,
            reducers: second_reducers,
        } = middle;
        let Piece {
            views: third,
            segment: three,
            reducers: third_reducers,
        } = right;
        match Hypermap::merge3(alloc, first, second, third) {
            Ok(views) => {
                let both = yard.together(one, two);
                let all = yard.together(both, three);
                Ok(Piece::of(views, all, reducers))
            }
            Err((first, second, third)) => Err((
                Piece::of(first, one, reducers),
                Piece::of(second, two, second_reducers),
                Piece::of(third, three, third_reducers),
            )),
        }
    }
}

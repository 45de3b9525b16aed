//! The part of a run that its workers share.

ghost use Rattle.std.specs.Prelude.{◌≡◌, ◌↔◌, ◌≤◌, ℕ, List, Some, length, IfSome, IsSome, IsTrue};
ghost use Rattle.cilk_types.specs.declared.event.Event.TheVariants.{Sync};
ghost use Rattle.cilk_workers.specs.Rows.{yard_of};
ghost use Rattle.cilk_replay.specs.Replays.{IsReplay};
ghost use Rattle.cilk_determinacy.specs.Words.{InputsAreWords};
ghost use Rattle.cilk_shared.specs.Numbers.{HasNumbers};
ghost use Rattle.cilk_shared.specs.Reducers.{HasFew};
ghost use Rattle.cilk_tree.specs.Along.{IsAlong};
ghost use Rattle.cilk_tree.specs.Columns.{AreBlockEnds, IsFirstSpawn, IsOfBlock, IsSpawnOf};
ghost use Rattle.cilk_tree.specs.Orders.{IsOrderly};
ghost use Rattle.cilk_tree.specs.Values.{HasValues};
ghost use Rattle.cilk_tree.specs.PlanStrands.{BeginsStrand};
ghost use Rattle.cilk_tree.specs.Word.{event, is_spawn, resume, word_step};
ghost use Rattle.cilk_workers.specs.Shared.{AreColumns, HasCells, IsNext, IsNumberOf, event_order_in, shared_with, spawn_count};

use crate::columns::{Block, Columns, block_in, position_in, strand_in};
use cilk_determinacy::words::inputs_are_words;
use cilk_replay::replay::Replay;
use cilk_shared::piece_laws::frames_are_along;
use cilk_shared::reducers::Reducers;
use cilk_shared::yard::Yard;
use cilk_tree::kind::{Asked, Kind};
use cilk_tree::plan::Plan;
use cilk_types::event::{Pos, StrandNo};
use std::marker::Model;

/// A run: its shared words, the plan that it follows, the reducers of its frames, its replay, and the
/// plan's columns.
#[derive(Drop)]
pub struct Shared<'a> {
    yard: &'a Yard,
    plan: &'a Plan,
    reducers: &'a Reducers,
    replay: Replay<'a>,
    columns: Columns<'a>,
}

impl<'a> Model for Shared<'a> {
    ghost use Rattle.std.specs.Prelude.{◌≡◌};
    ghost use Rattle.std.specs.Coded.{codes};
    ghost use Rattle.cilk_replay.specs.Replays.{replay_code};
    ghost use Rattle.cilk_shared.specs.Numbers.{HasNumbers};
    ghost use Rattle.cilk_shared.specs.Reducers.{HasFew};
    ghost use Rattle.cilk_tree.specs.Along.{IsAlong};
    ghost use Rattle.cilk_workers.specs.Shared.{AreColumns, HasCells, SharedValue, shared_with};

    ghost Value = { SharedValue };

    ghost coded = { Prim.hlevel (codes, replay_code) };

    ghost view = { λ c. shared_with c.yard.now c.reducers.now c.replay };

    ghost invariant = { λ c. IsAlong c.plan.now c.yard.now.event_order × HasFew c.reducers.now × (c.replay.yard ≡ c.yard.now)
        × HasCells c.yard.now.event_order × HasNumbers c.yard.now.event_order c.reducers.now
        × AreColumns c.yard.now.event_order c.columns.syncs.now c.columns.firsts.now c.columns.blocks.now c.columns.strands.now };
}

impl<'a> Shared<'a> {
    /// Makes the shared part of a run along a plan. The yard has each cell that its events name.
    /// The values that the run reads from reducers are the numbers of the views in pieces.
    pub fn new(
        yard: &'a Yard,
        plan: &'a Plan,
        reducers: &'a Reducers,
        replay: Replay<'a>,
        columns: Columns<'a>,
    ) -> Shared<'a>
        requires along { IsAlong plan.now yard.now.event_order }
        requires few { HasFew reducers.now }
        requires cells { HasCells yard.now.event_order }
        requires numbers { HasNumbers yard.now.event_order reducers.now }
        requires replay { replay.yard ≡ yard.now }
        requires columns { AreColumns yard.now.event_order columns.syncs.now columns.firsts.now columns.blocks.now columns.strands.now }
        ensures { result ≡ shared_with yard.now reducers.now replay.entry }
    {
        Shared {
            yard,
            plan,
            reducers,
            replay,
            columns,
        }
    }

    /// The laws of the run.
    pub fn laws(&self)
        ensures order { IsOrderly (event_order_in self.now) }
        ensures values { HasValues (event_order_in self.now) }
        ensures replay { IsReplay self.now.replay }
        ensures same { self.now.replay.yard ≡ yard_of self.now.run }
        ensures words { InputsAreWords self.now.replay.inputs }
        ensures cells { HasCells (event_order_in self.now) }
        ensures numbers { HasNumbers (event_order_in self.now) self.now.run.reducers }
    {
        self.yard.laws();
        self.replay.laws();
        inputs_are_words(self.replay.input());
    }

    /// Returns the run's shared words.
    pub fn yard(&self) -> &Yard
        ensures { result.now ≡ yard_of self.now.run }
    {
        self.yard
    }

    /// Returns the run's plan.
    pub fn plan(&self) -> &Plan
        ensures { IsAlong result.now (event_order_in self.now) }
    {
        self.plan
    }

    /// Returns the reducers of the run's frames.
    pub fn reducers(&self) -> &Reducers
        ensures reducers { result.now ≡ self.now.run.reducers }
        ensures few { HasFew result.now }
    {
        self.reducers
    }

    /// Returns the run's replay.
    pub fn replay(&self) -> &Replay<'a>
        ensures replay { result.now ≡ self.now.replay }
        ensures yard { self.now.replay.yard ≡ yard_of self.now.run }
    {
        &self.replay
    }

    /// Returns the kind and frame of the event at a position, or `Nothing` if there is no event.
    pub fn next(&self, at: Pos) -> Asked
        ensures { IsNext (event_order_in self.now) at result }
    {
        frames_are_along();
        if at == 0 {
            return Asked::Nothing;
        }
        self.plan.next(at - 1)
    }

    // Whether the event at a position is a spawn.
    fn is_spawn(&self, at: Pos) -> bool
        requires { (1 ≤ at) × (at ≤ length (event_order_in self.now).events) }
        ensures { result ≡ is_spawn (event (event_order_in self.now) at) }
    {
        matches!(
            self.next(at),
            Asked::Next {
                kind: Kind::Spawn { .. },
                ..
            }
        )
    }

    // The number of events.
    fn events(&self) -> Pos
        ensures { result ≡ length (event_order_in self.now).events }
    {
        self.plan.count() as Pos
    }

    /// Returns the number of spawns of the run. Cost: linear in the events.
    pub fn spawns(&self) -> usize
        ensures { result ≡ spawn_count (event_order_in self.now) }
    {
        let mut count: usize = 0;
        'each: for before in 0..self.events() {
            if self.is_spawn(before + 1) {
                count += 1;
            }
        }
        count
    }

    /// Returns whether the position is that of the last event, the root's `end`.
    pub fn is_last(&self, at: Pos) -> bool
        ensures { IsTrue result ↔ (at ≡ length (event_order_in self.now).events) }
    {
        at as usize == self.plan.count()
    }

    /// Returns the spawn whose continuation is resumed at a position, if the event there is the
    /// `resume` after a spawn.
    pub fn resumed_by(&self, at: Pos) -> Option<Pos>
        ensures { (k : ℕ) → (result ≡ Some k) ↔ (word_step (event_order_in self.now) at ≡ resume k) }
    {
        self.plan.resumed_by(at)
    }

    /// Returns the number of blocks.
    pub fn blocks(&self) -> usize
        ensures { (syncs : List ℕ) × AreBlockEnds (event_order_in self.now) syncs × (result ≡ length syncs) }
    {
        self.columns.syncs.len()
    }

    /// Returns the block of a position, if it has one: the `resume` after a spawn has one, and the
    /// `sync` that ends a block with spawns.
    pub fn block_at(&self, at: Pos) -> Option<Block>
        ensures block { IfSome result (λ b. IsOfBlock (event_order_in self.now) b.sync at) }
        ensures number { IfSome result (λ b. IsNumberOf (event_order_in self.now) b.number b.sync) }
        ensures sync { IfSome result (λ b. event (event_order_in self.now) b.sync ≡ Some Sync) }
        ensures first { IfSome result (λ b. IsFirstSpawn (event_order_in self.now) b.sync b.first) }
        ensures resumed { (k : ℕ) → word_step (event_order_in self.now) at ≡ resume k → IsSome result }
        ensures ends { (k : ℕ) → IsSpawnOf (event_order_in self.now) at k → IsSome result }
    {
        self.yard.laws();
        let syncs = self.columns.syncs;
        let number = block_in(self.columns.blocks, at, syncs.len())?;
        let sync = position_in(syncs, number);
        let first = position_in(self.columns.firsts, number);
        Some(Block {
            number,
            sync,
            first,
        })
    }

    /// Returns the strand that begins at a position, or 0.
    pub fn strand_at(&self, at: Pos) -> StrandNo
        ensures { (n : ℕ) → 1 ≤ n → (result ≡ n) ↔ (let s = event_order_in self.now in BeginsStrand s.events n at) }
    {
        strand_in(self.columns.strands, at)
    }
}

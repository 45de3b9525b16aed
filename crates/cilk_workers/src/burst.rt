//! The turns of a worker that holds a piece.

ghost use Rattle.std.specs.Prelude.{◌≡◌, ℕ, [], ◌∷◌, ◌++◌, IfNone, IfSome, MatchOption};
ghost use Rattle.cilk_tree.specs.Word.{resume, word_step};
ghost use Rattle.cilk_workers.specs.Arrivals.{EndsWhereItWaits};
ghost use Rattle.cilk_workers.specs.Shared.{event_order_in};
ghost use Rattle.cilk_workers.specs.Rows.{IsGood};
ghost use Rattle.cilk_replay.specs.Chains.{standing};
ghost use Rattle.cilk_workers.specs.Racks.{Of};
ghost use Rattle.cilk_workers.specs.Turns.{Works};
ghost use Rattle.cilk_workers.specs.Activities.{IsActivity};
ghost use Rattle.cilk_workers.specs.Bursts.{ArrivedOnce};
ghost use Rattle.cilk_workers.specs.Held.{AreTaken, IsOfferedIf, IsSameRack, waiting};
ghost use Rattle.cilk_workers.specs.Keys.{AreKeys, Arrived};
ghost use Rattle.cilk_workers.specs.WorkerContexts.{IsWorkerContext};

use crate::activity::{Activity, ExitReason, Tools};
use crate::along::along;
use crate::context::WorkerContext;
use crate::gate::{Gate, tell};
use crate::lock::{Key, never};
use crate::locks::{Arrival, Met};
use crate::naming::Naming;
use crate::rack::Rack;
use crate::shared::Shared;
use crate::turn::act;
use crate::work::{Turn, Work};
use cilk_replay::chain::{Chain, Task};
use cilk_shared::piece::Piece;
use cilk_shared::taken::Denied;
use cilk_types::event::Pos;
use std::sync::Wait;

/// The greatest number of turns before a worker checks whether another has stopped the run. With a
/// stretch before each, that is up to 256 events.
const TURNS: u32 = 16;

// The worker's own newest task, unless the yard refused it the continuation that it was to resume.
fn behind<N: Naming>(rack: &mut Rack<N>, denied: &Option<Denied>) -> Option<Task>
    ensures task { IfSome result (λ t. Of N.replay t) }
    ensures none { IfNone result (IfNone denied.now (AreTaken N.taken rack.new)) }
    ensures rule { MatchOption result (waiting rack.new ≡ waiting rack.old) (λ t. waiting rack.old ≡ waiting rack.new ++ t ∷ []) }
    ensures same { IsSameRack rack.old rack.new }
{
    if denied.is_some() {
        None
    } else {
        rack.newest()
    }
}

// The key of a piece that ends at `at`: the spawn whose `resume` is there, or else `at`.
fn key_at(shared: &Shared<'_>, at: Pos) -> Pos
    ensures child { (k : ℕ) → word_step (event_order_in shared.now) at ≡ resume k → result ≡ k }
    ensures own { ((k : ℕ) → word_step (event_order_in shared.now) at ≡ resume k → ⊥) → result ≡ at }
{
    match shared.resumed_by(at) {
        Some(child) => child,
        None => at,
    }
}

impl<'a, 'b, N: Naming, R: Wait, G: Gate> WorkerContext<'a, 'b, N, R, G> {
    // The worker continues with its own newest task, the continuation of its child, at the task's position.
    fn own(&self, work: &mut Work, task: Task)
        requires piece { IsGood self.now.shared.now.run work.old.piece }
        requires task { task.of ≡ self.now.shared.now.replay }
        ensures works { Works self.now.shared.now work.new }
        ensures same { work.new.piece ≡ work.old.piece }
        ensures resumes { word_step (event_order_in self.now.shared.now) work.old.piece.upto ≡ resume task.ticket }
    {
        self.shared.laws();
        if task.at() != work.piece.upto() {
            never(self.rt);
        }
        work.chain
            .follow(self.alloc, self.shared.replay(), task.rest());
    }

    // A piece arrives at the block of its next position, and nothing else is told. The worker continues
    // with what passes, or with an empty piece.
    fn arrived(&self, keys: &mut Vec<Key>, piece: Piece, chain: Option<Chain>) -> Activity
        requires context { IsWorkerContext N.run N.replay N.taken self.now }
        requires keys { AreKeys self.now.locks.now.items keys.old.items }
        requires piece { IsGood self.now.shared.now.run piece }
        requires chain { IfSome chain (λ c. c ≡ standing self.now.shared.now.replay piece.upto) }
        requires ends { EndsWhereItWaits (event_order_in self.now.shared.now) piece chain }
        ensures keys { AreKeys self.now.locks.now.items keys.new.items }
        ensures told { Arrived (event_order_in self.now.shared.now) piece chain keys.old.items result keys.new.items }
        ensures hand { IsActivity self.now.shared.now result }
    {
        let shared = self.shared;
        let at = piece.upto();
        let by = key_at(shared, at);
        let Some(block) = shared.block_at(at) else {
            unreachable!()
        };
        let (piece, empty) = piece.apart(self.alloc, shared.yard(), shared.reducers());
        match self.arrive(keys, block, Arrival { by, piece, chain }) {
            Met::Passes(work) => Activity::Holds(work),
            Met::Waits => Activity::Idle(empty),
            Met::Stopped => Activity::Done(ExitReason::OutOfMemory),
        }
    }

    // Offers a continuation. False if memory ran out.
    fn offered(&self, rack: &mut Rack<N>, task: Task) -> bool
        requires context { IsWorkerContext N.run N.replay N.taken self.now }
        requires task { task.of ≡ self.now.shared.now.replay }
        ensures rule { IsOfferedIf rack.old task result rack.new }
        ensures same { IsSameRack rack.old rack.new }
    {
        rack.offer(task).is_ok()
    }

    /// Makes up to `TURNS` turns of a worker that holds a piece and a chain, and a stretch of events
    /// before each.
    ///
    /// When a child has ended, the worker continues with its own newest task, the child's
    /// continuation. If it has none, or the yard refused it the continuation that it was to resume, its
    /// piece arrives at the block, and the refusal is returned too. It arrives once at most, and tells no
    /// block anything else. It pushes the continuation of each spawn, and pops a task only where that
    /// continues.
    pub fn run_burst(&self, tools: &mut Tools<N>, mut work: Work) -> (Activity, Option<Denied>)
        requires context { IsWorkerContext N.run N.replay N.taken self.now }
        requires keys { AreKeys self.now.locks.now.items tools.old.keys.items }
        requires works { Works self.now.shared.now work }
        ensures keys { AreKeys self.now.locks.now.items tools.new.keys.items }
        ensures told { ArrivedOnce N.taken (event_order_in self.now.shared.now) work.piece.upto tools.old result tools.new }
        ensures hand { IsActivity self.now.shared.now result.0 }
    {
        'each: for _ in 0..TURNS {
            along(self.alloc, self.shared, self.gate, self.worker, &mut work);
            let before = work.piece.upto();
            match act(self.alloc, self.shared, &mut work) {
                Turn::Goes => tell(self.gate, self.worker, self.shared, before, &work.piece),
                Turn::Offers(task) => {
                    tell(self.gate, self.worker, self.shared, before, &work.piece);
                    if !self.offered(&mut tools.rack, task) {
                        return (Activity::Done(ExitReason::OutOfMemory), None);
                    }
                }
                Turn::Ended(denied) => {
                    tell(self.gate, self.worker, self.shared, before, &work.piece);
                    let Some(task) = behind(&mut tools.rack, &denied) else {
                        let next = self.arrived(&mut tools.keys, work.into_piece(), None);
                        return (next, denied);
                    };
                    self.own(&mut work, task);
                }
                Turn::Arrives => {
                    let Work { piece, chain } = work;
                    return (self.arrived(&mut tools.keys, piece, Some(chain)), None);
                }
                Turn::Finished(value) => {
                    tell(self.gate, self.worker, self.shared, before, &work.piece);
                    let whole = ExitReason::Whole(work.into_piece(), value);
                    return (Activity::Done(whole), None);
                }
                Turn::Departed(at) => return (Activity::Done(ExitReason::Departed(at)), None),
                Turn::Stopped => return (Activity::Done(ExitReason::OutOfMemory), None),
            }
        }
        (Activity::Holds(work), None)
    }
}

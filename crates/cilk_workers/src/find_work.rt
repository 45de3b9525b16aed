//! A turn of a worker without work.

ghost use Rattle.std.specs.Prelude.{◌≡◌, ◌≤◌, ◌<◌, length, IfNone, IfSome, MatchOption};
ghost use Rattle.cilk_tree.specs.Word.{resume, word_step};
ghost use Rattle.cilk_workers.specs.Rows.{OfRun};
ghost use Rattle.cilk_workers.specs.Held.{AreTaken, Steals, TakesNone, TakesOne, all_stolen};
ghost use Rattle.cilk_workers.specs.Racks.{MayPick, Of};
ghost use Rattle.cilk_workers.specs.Activities.{HasSought, HasTold, IsActivity};
ghost use Rattle.cilk_workers.specs.Keys.{AreKeys, TellsSteal};
ghost use Rattle.cilk_workers.specs.Shared.{event_order_in};
ghost use Rattle.cilk_workers.specs.WorkerContexts.{IsWorkerContext};

use crate::activity::{Activity, ExitReason, Tools};
use crate::context::WorkerContext;
use crate::gate::{Gate, tell};
use crate::lock::Key;
use crate::naming::Naming;
use crate::rack::{Picker, Rack};
use crate::turn::begin;
use cilk_replay::chain::Task;
use cilk_shared::piece::Piece;
use cilk_shared::taken::Denied;
use cilk_types::event::Pos;
pub use crossbeam_utils::Backoff;
use std::sync::Wait;

// The oldest task of the worker whose picker is at a place.
fn oldest_at<N: Naming>(pickers: &mut Vec<Picker<N>>, at: usize) -> Option<Task>
    requires pick { MayPick N.taken }
    requires at { at < length pickers.old.items }
    ensures rule { MatchOption result (all_stolen pickers.new.items ≡ all_stolen pickers.old.items)
        (λ t. Of N.replay t × Steals (all_stolen pickers.old.items) t (all_stolen pickers.new.items)) }
    ensures len { length pickers.new.items ≡ length pickers.old.items }
{
    let picker = &mut pickers[at];
    picker.oldest()
}

// The oldest task of another worker, if one was found.
fn another<N: Naming>(pickers: &mut Vec<Picker<N>>) -> Option<Task>
    requires { MayPick N.taken }
    ensures { MatchOption result (all_stolen pickers.new.items ≡ all_stolen pickers.old.items)
        (λ t. Of N.replay t × Steals (all_stolen pickers.old.items) t (all_stolen pickers.new.items)) }
{
    'each: for at in 0..pickers.len() {
        if let Some(task) = oldest_at(pickers, at) {
            return Some(task);
        }
    }
    None
}

// The worker's own newest task, or else the oldest of another.
fn found<N: Naming>(rack: &mut Rack<N>, pickers: &mut Vec<Picker<N>>) -> Option<Task>
    requires { MayPick N.taken }
    ensures task { IfSome result (λ t. Of N.replay t) }
    ensures none { IfNone result (AreTaken N.taken rack.old) }
    ensures takes { MatchOption result (TakesNone rack.old pickers.old.items rack.new pickers.new.items)
        (λ t. TakesOne N.taken rack.old pickers.old.items t rack.new pickers.new.items) }
{
    match rack.newest() {
        Some(task) => Some(task),
        None => another(pickers),
    }
}

impl<'a, 'b, N: Naming, R: Wait, G: Gate> WorkerContext<'a, 'b, N, R, G> {
    // Records at its block the steal of the continuation of the spawn at `child`, which resumes at
    // `at`, and nothing else. False if memory ran out.
    fn announce_steal(&self, keys: &mut Vec<Key>, child: Pos, at: Pos) -> bool
        requires context { IsWorkerContext N.run N.replay N.taken self.now }
        requires keys { AreKeys self.now.locks.now.items keys.old.items }
        requires resumes { word_step (event_order_in self.now.shared.now) at ≡ resume child }
        ensures keys { AreKeys self.now.locks.now.items keys.new.items }
        ensures told { TellsSteal (event_order_in self.now.shared.now) child at keys.old.items result keys.new.items }
    {
        let Some(block) = self.shared.block_at(at) else {
            unreachable!()
        };
        self.record_steal(keys, block, child, at)
    }

    /// Makes one turn of a worker without work: it takes its own newest task, or steals the oldest
    /// of another, and tells its block. If it finds none, it ends once it sees that the run has ended.
    /// A worker that took a task has that task's work, or the yard's refusal of its ticket, which is
    /// returned too, or has ended: there was no memory to tell its block of the steal. It steals only
    /// where none of its own tasks is left.
    pub fn find_work(
        &self,
        tools: &mut Tools<N>,
        backoff: &Backoff,
        mut piece: Piece,
    ) -> (Activity, Option<Denied>)
        requires context { IsWorkerContext N.run N.replay N.taken self.now }
        requires keys { AreKeys self.now.locks.now.items tools.old.keys.items }
        requires piece { OfRun self.now.shared.now.run piece × (piece.upto ≤ piece.from) }
        ensures keys { AreKeys self.now.locks.now.items tools.new.keys.items }
        ensures hand { IsActivity self.now.shared.now result.0 }
        ensures sought { HasSought N.taken (event_order_in self.now.shared.now) tools.old result tools.new }
        ensures told { HasTold (event_order_in self.now.shared.now) tools.old.keys.items result.0 tools.new.keys.items }
    {
        let Some(task) = found(&mut tools.rack, &mut tools.pickers) else {
            if piece.ended(self.shared.yard()) {
                return (Activity::Done(ExitReason::Stopped), None);
            }
            backoff.snooze();
            return (Activity::Idle(piece), None);
        };
        let child = task.ticket();
        let work = match begin(self.shared, piece, task) {
            Ok(work) => work,
            Err((piece, denied)) => return (Activity::Idle(piece), Some(denied)),
        };
        backoff.reset();
        tell(self.gate, self.worker, self.shared, 0, &work.piece);
        if self.announce_steal(&mut tools.keys, child, work.piece.from()) {
            (Activity::Holds(work), None)
        } else {
            (Activity::Done(ExitReason::OutOfMemory), None)
        }
    }
}

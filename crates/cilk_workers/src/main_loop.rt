//! The main loop of a worker.

ghost use Rattle.cilk_workers.specs.Activities.{IsActivity, IsExitReason};
ghost use Rattle.cilk_workers.specs.Keys.{AreKeys};
ghost use Rattle.cilk_workers.specs.WorkerContexts.{IsWorkerContext};

use crate::activity::{Activity, ExitReason, Tools};
use crate::context::WorkerContext;
use crate::gate::Gate;
use crate::naming::Naming;
use crossbeam_utils::Backoff;
use std::sync::Wait;
use std::sync::atomic::{AtomicBool, Ordering};

impl<'a, 'b, N: Naming, R: Wait, G: Gate> WorkerContext<'a, 'b, N, R, G> {
    /// Runs the worker until it ends, and then sets the flag `stop` for the others. A worker that
    /// sees the flag set ends.
    pub fn work(&self, tools: &mut Tools<N>, stop: &AtomicBool, mut hand: Activity) -> ExitReason
        requires context { IsWorkerContext N.run N.replay N.taken self.now }
        requires keys { AreKeys self.now.locks.now.items tools.old.keys.items }
        requires hand { IsActivity self.now.shared.now hand }
        ensures { IsExitReason self.now.shared.now result }
    {
        let backoff = Backoff::new();
        for _ in self.rt.forever() {
            let stopped = stop.load(Ordering::SeqCst);
            hand = match hand {
                Activity::Done(finish) => {
                    stop.store(true, Ordering::SeqCst);
                    return finish;
                }
                Activity::Holds(_) | Activity::Idle(_) if stopped => return ExitReason::Stopped,
                Activity::Holds(work) => {
                    let (next, _denied) = self.run_burst(tools, work);
                    next
                }
                Activity::Idle(piece) => {
                    let (next, _denied) = self.find_work(tools, &backoff, piece);
                    next
                }
            };
        }
        unreachable!()
    }
}

//! The workers of a run, from their start to their end.

ghost use Rattle.std.specs.Prelude.{◌≡◌, IfOk, IfErr};
ghost use Rattle.cilk_workers.specs.Turns.{HasEnded, Works};
ghost use Rattle.cilk_workers.specs.Names.{IsName};
ghost use Rattle.cilk_threads.specs.Answers.{answer_of};
ghost use Rattle.cilk_threads.specs.Faults.{IsPool, IsTrueFault, number_of};

use crate::pool::run_workers;
use cilk_shared::piece::Piece;
use cilk_types::event::Pos;
use cilk_types::limits::MAX_WORKERS;
use cilk_workers::activity::ExitReason;
use cilk_workers::gate::Gate;
use cilk_workers::naming::Naming;
use cilk_workers::shared::Shared;
use cilk_workers::work::Work;
use std::alloc::Global;
use std::marker::Brand;
use std::sync::Wait;
use std::thread::Threads;
use thiserror::Error;

/// Why a run has no outcome.
#[derive(Drop, Debug, Error)]
pub enum ThreadFault {
    /// Out of memory, or a thread could not be started.
    #[error("there is no memory for the run, or no thread")]
    Memory,
    /// The number of workers is not from 1 to 64.
    #[error("the number of workers is 1 to 64")]
    Workers,
    /// The input departs from the plan at this position.
    #[error("the input departs from the plan at {0}")]
    Departs(Pos),
}

impl ThreadFault {
    /// Returns the number by which the fault is reported: 401 for memory, 501 for the number of
    /// workers, 502 where the input departs.
    pub fn number(&self) -> u16
        ensures { result ≡ number_of self.now }
    {
        match self {
            ThreadFault::Memory => 401,
            ThreadFault::Workers => 501,
            ThreadFault::Departs(_) => 502,
        }
    }
}

// The answer of a run that ended so.
fn answer(reason: ExitReason) -> Result<(Piece, i64), ThreadFault>
    ensures { result ≡ answer_of reason }
{
    match reason {
        ExitReason::Whole(piece, value) => Ok((piece, value)),
        ExitReason::Departed(at) => Err(ThreadFault::Departs(at)),
        ExitReason::Stopped | ExitReason::OutOfMemory => Err(ThreadFault::Memory),
    }
}

// The workers of a run that `N` names.
fn run_as<N: Naming + Send + Sync, R: Threads + Wait + Sync, G: Gate + Sync>(
    rt: &R,
    alloc: Global,
    shared: &Shared<'_>,
    gate: &G,
    work: Work,
    workers: u32,
) -> Result<(Piece, i64), ThreadFault>
    requires name { IsName N.run N.replay N.taken shared.now }
    requires works { Works shared.now work }
    requires pool { IsPool workers }
    ensures ok { IfOk result (λ r. HasEnded shared.now r.0 r.1) }
    ensures err { IfErr result (IsTrueFault shared.now.run.event_order workers) }
{
    let Ok(reason) = run_workers::<N, R, G>(rt, alloc, shared, gate, work, workers) else {
        return Err(ThreadFault::Memory);
    };
    answer(reason)
}

/// Runs the plan on `workers` workers, 1 to 64. `work` is what the first one begins with, after the
/// run's first event. Returns the piece of the whole run, and the run's result.
pub fn run<R: Threads + Wait + Sync, G: Gate + Sync>(
    rt: &R,
    alloc: Global,
    shared: &Shared<'_>,
    gate: &G,
    work: Work,
    workers: u32,
) -> Result<(Piece, i64), ThreadFault>
    requires works { Works shared.now work }
    ensures ok { IfOk result (λ r. HasEnded shared.now r.0 r.1 × IsPool workers) }
    ensures err { IfErr result (IsTrueFault shared.now.run.event_order workers) }
{
    if workers == 0 || workers > MAX_WORKERS {
        return Err(ThreadFault::Workers);
    }
    run_as::<Brand, R, G>(rt, alloc, shared, gate, work, workers)
}

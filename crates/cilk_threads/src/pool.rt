//! A pool of workers, each in a thread of its own.

ghost use Rattle.std.specs.Prelude.{◌≡◌, ◌≤◌, ◌+◌, All, Some, length, vec_len, IfOk, IfSome, MatchOption};
ghost use Rattle.std.specs.Vec.{vec_capacity};
ghost use Rattle.std.specs.Thread.{IsSend, IsSync};
ghost use Rattle.cilk_workers.specs.Turns.{Works};
ghost use Rattle.cilk_workers.specs.Activities.{IsExitReason};
ghost use Rattle.cilk_workers.specs.Names.{IsName};
ghost use Rattle.cilk_threads.specs.Answers.{tells};
ghost use Rattle.cilk_threads.specs.WorkerSeeds.{IsWorkerSeed, IsTake};

use crate::seeds::{Take, WorkerSeed, ends, locks, racks, seeds, shelves};
use cilk_workers::activity::{Activity, ExitReason, Tools};
use cilk_workers::context::WorkerContext;
use cilk_workers::gate::{Gate, tell};
use cilk_workers::lock::Lock;
use cilk_workers::naming::Naming;
use cilk_workers::rack::{Picker, Rack};
use cilk_workers::shared::Shared;
use cilk_workers::work::Work;
use std::alloc::{AllocError, Global};
use std::sync::Wait;
use std::sync::atomic::{AtomicBool, Ordering};
use std::thread;
use std::thread::{Promise, PromisedHandle, Threads};

/// The promise of a worker's thread: its exit reason is a true one of this run.
#[derive(Clone, Copy)]
pub struct Ends<'a, 'b> {
    shared: &'a Shared<'b>,
}

impl<'a, 'b> Promise<ExitReason> for Ends<'a, 'b> {
    ghost use Rattle.cilk_workers.specs.Activities.{IsExitReason};

    ghost kept_by = { λ p r. IsExitReason p.shared.now r };
}

// The stealers of the other workers' racks.
fn pickers<N: Naming>(alloc: Global, takes: Vec<Take<N>>) -> Result<Vec<Picker<N>>, AllocError>
    requires { All IsTake takes.items }
{
    let mut all = Vec::new(alloc);
    for (stealer, pass) in takes {
        all.push(Picker::<N>::of(stealer, pass))?;
    }
    Ok(all)
}

/// Runs a worker to its end, from the seed that was sent to its thread.
pub fn worker<N: Naming, R: Wait, G: Gate>(
    rt: &R,
    alloc: Global,
    shared: &Shared<'_>,
    locks: &Vec<Lock<N>>,
    gate: &G,
    stop: &AtomicBool,
    seed: WorkerSeed<N>,
) -> ExitReason
    requires name { IsName N.run N.replay N.taken shared.now }
    requires shelves { 1 ≤ length locks.now.items }
    requires seed { IsWorkerSeed shared.now locks.now.items seed }
    ensures { IsExitReason shared.now result }
{
    let WorkerSeed {
        worker,
        rack,
        takes,
        keys,
        piece,
        chain,
    } = seed;
    let rack = Rack::<N>::of(rack);
    let Ok(pickers) = pickers::<N>(alloc, takes) else {
        stop.store(true, Ordering::SeqCst);
        return ExitReason::OutOfMemory;
    };
    let mut tools = Tools {
        rack,
        pickers,
        keys,
    };
    let context = WorkerContext {
        rt,
        alloc,
        shared,
        locks,
        gate,
        worker,
    };
    let hand = match chain {
        Some(chain) => {
            tell(gate, worker, shared, 0, &piece);
            Activity::Holds(Work { piece, chain })
        }
        None => Activity::Idle(piece),
    };
    context.work(&mut tools, stop, hand)
}

// How much an exit reason tells: nothing, that memory ran out, or how the run ended.
fn told(reason: &ExitReason) -> u8
    ensures { result ≡ tells reason.now }
{
    match reason {
        ExitReason::Stopped => 0,
        ExitReason::OutOfMemory => 1,
        ExitReason::Departed(_) | ExitReason::Whole(_, _) => 2,
    }
}

// The one of two exit reasons that tells more.
fn better(shared: &Shared<'_>, one: ExitReason, other: ExitReason) -> ExitReason
    requires { IsExitReason shared.now one × IsExitReason shared.now other }
    ensures reason { IsExitReason shared.now result }
    ensures more { (tells one ≤ tells result) × (tells other ≤ tells result) }
{
    let _ = shared;
    if told(&one) < told(&other) {
        other
    } else {
        one
    }
}

// The exit reason that tells most.
fn best(shared: &Shared<'_>, reasons: Vec<ExitReason>) -> ExitReason
    requires { All (IsExitReason shared.now) reasons.items }
    ensures reason { IsExitReason shared.now result }
    ensures most { All (λ r. tells r ≤ tells result) reasons.items }
{
    let mut best = ExitReason::Stopped;
    'each: for reason in reasons {
        best = better(shared, best, reason);
    }
    best
}

// Pops the last handle.
fn last_handle<'a, 'b>(
    shared: &Shared<'_>,
    handles: &mut Vec<PromisedHandle<ExitReason, Ends<'a, 'b>>>,
) -> Option<PromisedHandle<ExitReason, Ends<'a, 'b>>>
    requires { All (λ h. h.promise.shared.now ≡ shared.now) handles.old.items }
    ensures rest { All (λ h. h.promise.shared.now ≡ shared.now) handles.new.items }
    ensures one { IfSome result (λ h. h.promise.shared.now ≡ shared.now) }
    ensures fewer { MatchOption result (vec_len handles.old ≡ 0) (λ _. vec_len handles.new + 1 ≡ vec_len handles.old) }
{
    let _ = shared;
    handles.pop()
}

// Joins all threads. Returns their exit reasons in `reasons`, which is empty and has room for them.
fn joined<'a, 'b, R: Threads>(
    rt: &R,
    shared: &Shared<'_>,
    mut handles: Vec<PromisedHandle<ExitReason, Ends<'a, 'b>>>,
    mut reasons: Vec<ExitReason>,
) -> Vec<ExitReason>
    requires handles { All (λ h. h.promise.shared.now ≡ shared.now) handles.items }
    requires empty { vec_len reasons ≡ 0 }
    requires room { vec_len handles ≤ vec_capacity reasons }
    ensures reasons { All (IsExitReason shared.now) result.items }
    ensures all { vec_len result ≡ vec_len handles.entry }
{
    'each: while let Some(handle) = last_handle(shared, &mut handles) {
        reasons.push_reserved(handle.join(rt));
    }
    reasons
}

// Pops the last worker seed.
fn last_seed<N: Naming>(
    shared: &Shared<'_>,
    locks: &Vec<Lock<N>>,
    seeds: &mut Vec<WorkerSeed<N>>,
) -> Option<WorkerSeed<N>>
    requires { All (IsWorkerSeed shared.now locks.now.items) seeds.old.items }
    ensures rest { All (IsWorkerSeed shared.now locks.now.items) seeds.new.items }
    ensures one { IfSome result (IsWorkerSeed shared.now locks.now.items) }
    ensures fewer { IfSome result (λ _. vec_len seeds.new + 1 ≡ vec_len seeds.old) }
{
    let _ = shared;
    let _ = locks;
    seeds.pop()
}

// Starts one worker per seed and joins them. If a thread can't be started, the others are stopped.
fn pool<'a, 'b, N: Naming + Send + Sync, R: Threads + Wait + Sync, G: Gate + Sync>(
    rt: &R,
    alloc: Global,
    shared: &'a Shared<'b>,
    locks: &'a Vec<Lock<N>>,
    gate: &'a G,
    stop: &'a AtomicBool,
    seeds: Vec<WorkerSeed<N>>,
) -> Result<ExitReason, AllocError>
    requires name { IsName N.run N.replay N.taken shared.now }
    requires shelves { 1 ≤ length locks.now.items }
    requires seeds { All (IsWorkerSeed shared.now locks.now.items) seeds.items }
    ensures { IfOk result (IsExitReason shared.now) }
{
    thread::scope(
        thread::scope_env(),
        rt,
        |scope| -> Result<ExitReason, AllocError>
            requires { IsSync R.row × IsSync G.row × IsSend N.row × IsSync N.row × IsName N.run N.replay N.taken shared.now × (1 ≤ length locks.now.items) × All (IsWorkerSeed shared.now locks.now.items) seeds.items }
            ensures { IfOk result (IsExitReason shared.entry.now) }
        {
            let mut seeds = seeds;
            let mut handles = Vec::with_capacity(alloc, seeds.len())?;
            let reasons = Vec::with_capacity(alloc, seeds.len())?;
            'each: for _ in 0..seeds.len() {
                let Some(seed) = last_seed::<N>(shared, locks, &mut seeds) else {
                    break;
                };
                let WorkerSeed {
                    worker: number,
                    rack,
                    takes,
                    keys,
                    piece,
                    chain,
                } = seed;
                let started = scope.spawn_with(Ends { shared: &*shared }, move || {
                    let seed = WorkerSeed {
                        worker: number,
                        rack,
                        takes,
                        keys,
                        piece,
                        chain,
                    };
                    worker::<N, R, G>(rt, alloc, shared, locks, gate, stop, seed)
                });
                let Ok(handle) = started else {
                    stop.store(true, Ordering::SeqCst);
                    return Err(AllocError);
                };
                handles.push_reserved(handle);
            }
            Ok(best(shared, joined(rt, shared, handles, reasons)))
        },
    )
}

/// Runs `count` workers, and returns their best exit reason. The first of them begins with `work`.
pub fn run_workers<N: Naming + Send + Sync, R: Threads + Wait + Sync, G: Gate + Sync>(
    rt: &R,
    alloc: Global,
    shared: &Shared<'_>,
    gate: &G,
    work: Work,
    count: u32,
) -> Result<ExitReason, AllocError>
    requires name { IsName N.run N.replay N.taken shared.now }
    requires works { Works shared.now work }
    ensures { IfOk result (IsExitReason shared.now) }
{
    let (locks, mut keys) = locks::<N, R>(rt, alloc, shared, shelves(shared.blocks()))?;
    let mut racks = racks::<N>(alloc, shared, count)?;
    let ends = ends::<N>(alloc, &mut racks)?;
    let seeds = seeds::<N>(alloc, shared, &locks, &mut keys, racks, ends, work)?;
    let stop = AtomicBool::new(false);
    pool::<N, R, G>(rt, alloc, shared, &locks, gate, &stop, seeds)
}

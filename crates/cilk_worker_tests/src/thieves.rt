//! A worker without a pool: it steals the only task of another's rack and tells its gate, and its
//! loop sets the flag for the others as it ends.

ghost use Rattle.std.specs.Prelude.{◌≡◌, ◌≤◌, IfOk, length};
ghost use Rattle.cilk_workers.specs.Keys.{AreKeys};
ghost use Rattle.cilk_workers.specs.Names.{IsName};
ghost use Rattle.cilk_workers.specs.Rows.{OfRun};
ghost use Rattle.cilk_workers.specs.Turns.{Works};

use crate::gates::Counting;
use crate::works::{Trial, tried};
use cilk_replay::chain::Task;
use cilk_shared::piece::Piece;
use cilk_workers::activity::{Activity, ExitReason, Tools};
use cilk_workers::context::WorkerContext;
use cilk_workers::find_work::Backoff;
use cilk_workers::lock::{Key, Lock, new_locked};
use cilk_workers::naming::Naming;
use cilk_workers::rack::Rack;
use cilk_workers::shared::Shared;
use cilk_workers::shelf::{Place, Shelf};
use cilk_workers::turn::act;
use cilk_workers::work::{Turn, Work};
use std::alloc::{AllocError, Global};
use std::process::Abort;
use std::sync::Wait;
use std::sync::atomic::{AtomicBool, Ordering};

// Two strands begin after the spawn: the child's, and the continuation's, which is stolen.
const SPAWN: &str = "void c() { } int main() { cilk_spawn c(); cilk_sync; return 0; }";

// At least the turns up to the spawn.
const TURNS: u32 = 20;

// At least the strands of the run.
const STRANDS: u64 = 9;

// The first worker's work, and an empty piece for the thief.
fn parted(alloc: Global, shared: &Shared<'_>, work: Work) -> (Work, Piece)
    requires { Works shared.now work }
    ensures work { Works shared.now result.0 }
    ensures spare { OfRun shared.now.run result.1 × (result.1.upto ≤ result.1.from) }
{
    let Work { piece, chain } = work;
    let (piece, spare) = piece.apart(alloc, shared.yard(), shared.reducers());
    (Work { piece, chain }, spare)
}

// The continuation of the first spawn.
fn continuation<R: Abort>(rt: &R, alloc: Global, shared: &Shared<'_>, mut work: Work) -> Task
    requires { Works shared.now work }
    ensures { result.of ≡ shared.now.replay }
{
    'each: for _ in 0..TURNS {
        match act(alloc, shared, &mut work) {
            Turn::Goes => {}
            Turn::Offers(task) => return task,
            _ => panic!(rt; "another turn"),
        }
    }
    panic!(rt; "no spawn");
}

// One lock, for the boxes of all blocks, and its key.
#[tactic(auto, using(cilk_workers::proofs::Keys::locks_all))]
fn one_lock<N: Naming, R: Wait>(
    rt: &R,
    alloc: Global,
    shared: &Shared<'_>,
) -> Result<(Vec<Lock<N>>, Vec<Key>), AllocError>
    requires { IsName N.run N.replay N.taken shared.now }
    ensures keys { IfOk result (λ r. AreKeys r.0.items r.1.items) }
    ensures one { IfOk result (λ r. length r.0.items ≡ 1) }
{
    let place = Place {
        number: 0,
        count: 1,
    };
    let (lock, key) = new_locked::<N, R>(rt, alloc, Shelf::new(alloc, shared, place))?;
    Ok((
        Vec::from_array(alloc, [lock])?,
        Vec::from_array(alloc, [key])?,
    ))
}

// A thief's tools: a rack of its own without tasks, and a picker of the rack that has this task.
fn tools<N: Naming>(
    alloc: Global,
    shared: &Shared<'_>,
    task: Task,
    keys: Vec<Key>,
) -> Result<Tools<N>, AllocError>
    requires name { IsName N.run N.replay N.taken shared.now }
    requires task { task.of ≡ shared.now.replay }
    ensures { IfOk result (λ t. t.keys.items ≡ keys.items) }
{
    let _ = shared;
    let mut victim = Rack::<N>::new(alloc, 1)?;
    let picker = victim.picker()?;
    let Ok(()) = victim.offer(task) else {
        return Err(AllocError);
    };
    let rack = Rack::<N>::new(alloc, 1)?;
    let pickers = Vec::from_array(alloc, [picker])?;
    Ok(Tools {
        rack,
        pickers,
        keys,
    })
}

/// Checks that a thief gets the task, that its gate sees the strand, and that its loop's end sets
/// the flag.
pub fn stolen<N: Naming, R: Abort + Wait>(rt: &R, alloc: Global, shared: &Shared<'_>, work: Work)
    requires name { IsName N.run N.replay N.taken shared.now }
    requires works { Works shared.now work }
{
    let (work, spare) = parted(alloc, shared, work);
    let task = continuation(rt, alloc, shared, work);
    let Ok((locks, keys)) = one_lock::<N, R>(rt, alloc, shared) else {
        panic!(rt; "no memory for a lock");
    };
    let Ok(mut tools) = tools::<N>(alloc, shared, task, keys) else {
        panic!(rt; "no memory for racks");
    };
    let Ok(gate) = Counting::new(alloc, STRANDS) else {
        panic!(rt; "no memory for a gate");
    };
    let context = WorkerContext {
        rt,
        alloc,
        shared,
        locks: &locks,
        gate: &gate,
        worker: 2,
    };
    let (next, denied) = context.find_work(&mut tools, &Backoff::new(), spare);
    assert!(rt; matches!(&next, Activity::Holds(_)) && denied.is_none());
    assert!(rt; gate.count(1) == 1);
    let stop = AtomicBool::new(false);
    let reason = context.work(&mut tools, &stop, Activity::Done(ExitReason::Stopped));
    assert!(rt; matches!(&reason, ExitReason::Stopped) && stop.load(Ordering::SeqCst));
}

#[test]
fn a_thief_tells_its_gate(rt: HostRuntime) {
    tried(&rt, rt.alloc(), SPAWN, Trial::Thief);
}

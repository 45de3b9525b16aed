//! Worker seeds: the parts with which each worker of the pool begins.

ghost use Rattle.std.specs.Prelude.{◌≡◌, ◌≢◌, ◌*◌, ◌+◌, ◌<◌, ◌≤◌, All, Some, length, IfOk, OnOk, IfSome};
ghost use Rattle.cilk_workers.specs.Rows.{OfRun};
ghost use Rattle.cilk_workers.specs.Turns.{Works};
ghost use Rattle.cilk_workers.specs.Held.{IsNewRack};
ghost use Rattle.cilk_workers.specs.Keys.{AreKeys, IsKeyAt};
ghost use Rattle.cilk_workers.specs.Names.{IsName};
ghost use Rattle.cilk_workers.specs.Shared.{event_order_in, spawn_count};
ghost use Rattle.cilk_threads.specs.WorkerSeeds.{Begins, IsWorkerSeed, IsTake, room_of};

use cilk_replay::chain::{Chain, Task};
use cilk_shared::piece::Piece;
use cilk_workers::lock::{Key, Lock, another, new_locked};
use cilk_workers::naming::Naming;
use cilk_workers::rack::{Offers, Rack, Takes, Tasks};
use cilk_workers::shared::Shared;
use cilk_workers::shelf::{Place, Shelf};
use cilk_workers::work::Work;
use crossbeam_deque::Pass;
use std::alloc::{AllocError, Global};
use std::sync::Wait;

/// The stealer of another worker's rack, in its parts.
pub type Take<N> = (Takes<N>, Pass<Task, Offers>);

/// The parts with which a worker begins, in a form that may be sent to a thread.
#[derive(Drop)]
pub struct WorkerSeed<N: Naming> {
    pub worker: u32,
    pub rack: Tasks<N>,
    pub takes: Vec<Take<N>>,
    pub keys: Vec<Key>,
    pub piece: Piece,
    pub chain: Option<Chain>,
}

/// Returns the number of shelves for the join boxes of `blocks` blocks: enough that no shelf has
/// more than 64 boxes, and that workers seldom meet at one.
pub fn shelves(blocks: usize) -> usize
    ensures room { blocks ≤ 64 * result }
    ensures some { 1 ≤ result }
{
    let few = if blocks < 64 { blocks } else { 64 };
    few + blocks / 64 + 1
}

/// Makes `count` locks, each with the empty shelf of its place, and a first key of each.
#[tactic(auto, using(cilk_workers::proofs::Keys::locks_all))]
pub fn locks<N: Naming, R: Wait>(
    rt: &R,
    alloc: Global,
    shared: &Shared<'_>,
    count: usize,
) -> Result<(Vec<Lock<N>>, Vec<Key>), AllocError>
    requires { IsName N.run N.replay N.taken shared.now }
    ensures keys { IfOk result (λ r. AreKeys r.0.items r.1.items) }
    ensures count { IfOk result (λ r. length r.0.items ≡ count) }
{
    let mut all = Vec::new(alloc);
    let mut keys = Vec::new(alloc);
    'each: for made in 0..count {
        let first = Shelf::new(
            alloc,
            shared,
            Place {
                number: made,
                count,
            },
        );
        let (shelf_lock, key) = new_locked::<N, R>(rt, alloc, first)?;
        all.push(shelf_lock)?;
        keys.push(key)?;
    }
    Ok((all, keys))
}

// The key of a lock for one more worker.
fn one_more<N: Naming>(locks: &Vec<Lock<N>>, keys: &mut Vec<Key>, at: usize) -> Key
    requires keys { AreKeys locks.now.items keys.old.items }
    requires at { at < length locks.now.items }
    ensures keys { AreKeys locks.now.items keys.new.items }
    ensures one { IsKeyAt locks.now.items at result }
{
    let shelf_lock = &locks[at];
    let key = &mut keys[at];
    another(shelf_lock, key)
}

/// Makes the keys for one more worker, one for each lock.
#[tactic(auto, using(cilk_workers::proofs::Keys::keys_more, cilk_workers::proofs::Keys::keys_all))]
pub fn more<N: Naming>(
    alloc: Global,
    locks: &Vec<Lock<N>>,
    keys: &mut Vec<Key>,
) -> Result<Vec<Key>, AllocError>
    requires { AreKeys locks.now.items keys.old.items }
    ensures old { AreKeys locks.now.items keys.new.items }
    ensures new { IfOk result (λ v. AreKeys locks.now.items v.items) }
{
    let mut all = Vec::new(alloc);
    'each: for at in 0..locks.len() {
        all.push(one_more::<N>(locks, keys, at))?;
    }
    Ok(all)
}

// Appends the stealer of the rack at a place, unless it is the rack `but`.
#[tactic(auto, using(crate::proofs::Sent::takes_more))]
fn put<N: Naming>(
    all: &mut Vec<Take<N>>,
    racks: &mut Vec<Rack<N>>,
    at: usize,
    but: usize,
) -> Result<(), AllocError>
    requires at { at < length racks.old.items }
    requires all { All IsTake all.old.items }
    ensures all { OnOk result (All IsTake all.new.items) }
    ensures but { OnOk result (at ≡ but → all.new.items ≡ all.old.items) }
    ensures more { OnOk result (at ≢ but → length all.new.items ≡ length all.old.items + 1) }
    ensures racks { length racks.new.items ≡ length racks.old.items }
{
    if at == but {
        return Ok(());
    }
    let rack = &mut racks[at];
    let picker = rack.picker()?;
    all.push(picker.parted())?;
    Ok(())
}

/// Returns the stealers of all racks except `but`.
pub fn takes<N: Naming>(
    alloc: Global,
    racks: &mut Vec<Rack<N>>,
    but: usize,
) -> Result<Vec<Take<N>>, AllocError>
    requires but { but < length racks.old.items }
    ensures takes { IfOk result (λ v. All IsTake v.items) }
    ensures others { IfOk result (λ v. length v.items + 1 ≡ length racks.old.items) }
    ensures racks { length racks.new.items ≡ length racks.old.items }
{
    let mut all = Vec::new(alloc);
    'each: for at in 0..racks.len() {
        put::<N>(&mut all, racks, at, but)?;
    }
    Ok(all)
}

/// The most tasks for which racks have room at first, all together. A deque may round the room of each
/// up to twice as much, and writes each slot as it is made: 28,656 spawns take 2.4 MB a rack, and
/// without this bound 65,535 spawns by 64 workers would take some 300 MB before the run begins.
pub const MAX_ROOM: usize = 262_144;

// The room of each of `count` racks: for every spawn of the run, or else its part of the most.
fn room_for(spawns: usize, count: u32) -> usize
    ensures { result ≡ room_of spawns count }
{
    spawns.min(MAX_ROOM / count.max(1) as usize)
}

/// Makes a rack for each worker, with room for every spawn of the run: up to 65,536 spawns by 4
/// workers. Of a longer run by more workers it has room for some of them, and grows past it.
pub fn racks<N: Naming>(
    alloc: Global,
    shared: &Shared<'_>,
    count: u32,
) -> Result<Vec<Rack<N>>, AllocError>
    ensures count { IfOk result (λ v. length v.items ≡ count) }
    ensures racks { IfOk result (λ v. All (IsNewRack (room_of (spawn_count (event_order_in shared.now)) count)) v.items) }
{
    let room = room_for(shared.spawns(), count);
    let mut all = Vec::new(alloc);
    'each: for made in 0..count {
        let _ = made;
        all.push(Rack::<N>::new(alloc, room)?)?;
    }
    Ok(all)
}

/// Returns, for each rack, the stealers of the others.
pub fn ends<N: Naming>(
    alloc: Global,
    racks: &mut Vec<Rack<N>>,
) -> Result<Vec<Vec<Take<N>>>, AllocError>
    ensures takes { IfOk result (λ v. All (λ ts. All IsTake ts.items) v.items) }
    ensures others { IfOk result (λ v. All (λ ts. length ts.items + 1 ≡ length racks.old.items) v.items) }
    ensures count { IfOk result (λ v. length v.items ≡ length racks.old.items) }
{
    let mut all = Vec::new(alloc);
    'each: for at in 0..racks.len() {
        all.push(takes::<N>(alloc, racks, at)?)?;
    }
    Ok(all)
}

// The first worker's work, and an empty piece.
fn parted(alloc: Global, shared: &Shared<'_>, work: Work) -> (Work, Piece)
    requires { Works shared.now work }
    ensures work { Works shared.now result.0 }
    ensures spare { OfRun shared.now.run result.1 × (result.1.upto ≤ result.1.from) }
{
    let Work { piece, chain } = work;
    let (piece, spare) = piece.apart(alloc, shared.yard(), shared.reducers());
    (Work { piece, chain }, spare)
}

// Two empty pieces: one for a worker, and one to make more of.
fn halved(alloc: Global, shared: &Shared<'_>, spare: Piece) -> (Piece, Piece)
    requires { OfRun shared.now.run spare × (spare.upto ≤ spare.from) }
    ensures one { OfRun shared.now.run result.0 × (result.0.upto ≤ result.0.from) }
    ensures other { OfRun shared.now.run result.1 × (result.1.upto ≤ result.1.from) }
{
    spare.apart(alloc, shared.yard(), shared.reducers())
}

// The piece and chain with which a worker begins: those of `first`, or an empty piece without a
// chain. The third is an empty piece for the next worker.
fn begins(
    alloc: Global,
    shared: &Shared<'_>,
    spare: Piece,
    first: Option<Work>,
) -> (Piece, Option<Chain>, Piece)
    requires spare { OfRun shared.now.run spare × (spare.upto ≤ spare.from) }
    requires first { IfSome first (Works shared.now) }
    ensures begins { Begins shared.now result.0 result.1 }
    ensures spare { OfRun shared.now.run result.2 × (result.2.upto ≤ result.2.from) }
{
    match first {
        Some(Work { piece, chain }) => (piece, Some(chain), spare),
        None => {
            let (piece, spare) = halved(alloc, shared, spare);
            (piece, None, spare)
        }
    }
}

// Pops the last list of stealers.
fn last_ends<N: Naming>(ends: &mut Vec<Vec<Take<N>>>) -> Option<Vec<Take<N>>>
    requires { All (λ ts. All IsTake ts.items) ends.old.items }
    ensures rest { All (λ ts. All IsTake ts.items) ends.new.items }
    ensures one { IfSome result (λ ts. All IsTake ts.items) }
{
    ends.pop()
}

// Appends a worker seed.
fn equip<N: Naming>(
    shared: &Shared<'_>,
    locks: &Vec<Lock<N>>,
    seeds: &mut Vec<WorkerSeed<N>>,
    seed: WorkerSeed<N>,
) -> Result<(), AllocError>
    requires seeds { All (IsWorkerSeed shared.now locks.now.items) seeds.old.items }
    requires seed { IsWorkerSeed shared.now locks.now.items seed }
    ensures { OnOk result (All (IsWorkerSeed shared.now locks.now.items) seeds.new.items) }
{
    let _ = shared;
    let _ = locks;
    seeds.push(seed)?;
    Ok(())
}

/// Makes a seed for each rack. The first one has the work.
pub fn seeds<N: Naming>(
    alloc: Global,
    shared: &Shared<'_>,
    locks: &Vec<Lock<N>>,
    keys: &mut Vec<Key>,
    mut racks: Vec<Rack<N>>,
    mut ends: Vec<Vec<Take<N>>>,
    work: Work,
) -> Result<Vec<WorkerSeed<N>>, AllocError>
    requires keys { AreKeys locks.now.items keys.old.items }
    requires ends { All (λ ts. All IsTake ts.items) ends.items }
    requires work { Works shared.now work }
    ensures { IfOk result (λ v. All (IsWorkerSeed shared.now locks.now.items) v.items) }
{
    let (work, mut spare) = parted(alloc, shared, work);
    let mut first = Some(work);
    let mut all = Vec::new(alloc);
    let mut worker: u32 = 0;
    'each: for _ in 0..racks.len() {
        let Some(takes) = last_ends::<N>(&mut ends) else {
            break;
        };
        let Some(rack) = racks.pop() else {
            break;
        };
        let keys = more::<N>(alloc, locks, keys)?;
        let (piece, chain, rest) = begins(alloc, shared, spare, first);
        spare = rest;
        first = None;
        worker = worker.saturating_add(1);
        let seed = WorkerSeed {
            worker,
            rack: rack.parted(),
            takes,
            keys,
            piece,
            chain,
        };
        equip::<N>(shared, locks, &mut all, seed)?;
    }
    Ok(all)
}

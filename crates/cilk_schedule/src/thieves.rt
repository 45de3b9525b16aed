//! Workers that steal continuations.

ghost use Rattle.std.specs.Prelude.{◌≡◌, ◌<◌, ◌≤◌, ◌⊎◌, ℕ, ℤ, true, List, None, Ok, Some, length, slice_get, IfErr, IfOk, IfSome, IsTrue, MatchOption, OnErr, OnOk};
ghost use Rattle.cilk_join.specs.Joins.{IsOpen};
ghost use Rattle.cilk_lower.specs.Code.{CodeView};
ghost use Rattle.cilk_frames.specs.declared.activation.Activation.{Activation};
ghost use Rattle.cilk_scheduler.specs.Events.{block_in};
ghost use Rattle.cilk_scheduler.specs.Stopping.{StandAsBefore};
ghost use Rattle.cilk_scheduler.specs.Workers.{IsLocated, offers};
ghost use Rattle.cilk_scheduler.specs.declared.choice.Choice.TheVariants as choices;
ghost use Rattle.cilk_scheduler.specs.declared.choice.Stop.TheVariants as stops;
ghost use Rattle.cilk_scheduler.specs.declared.choice.Told.TheVariants as told;
ghost use Rattle.cilk_scheduler.specs.declared.frame_state.FrameState.{FrameState};
ghost use Rattle.cilk_scheduler.specs.declared.frame_state.Worker.{Worker};
ghost use Rattle.cilk_schedule.specs.Choices.{CanSteal};
ghost use Rattle.cilk_schedule.specs.Faults.{KeepsTold};
ghost use Rattle.cilk_schedule.specs.Passing.{HasNoView, OffersLess, Robs, StealsAreSteps};
ghost use Rattle.cilk_schedule.specs.Sound.{IsQuiet, Runs};

use crate::ending::hold;
use cilk_frames::activation::Activation;
use cilk_hypermap::hypermap::Hypermap;
use cilk_scheduler::choice::{Stop, Told};
use cilk_scheduler::frame_state::{FrameState, Worker};
use cilk_scheduler::frame_states::rob;
use cilk_scheduler::offers::locate;
use cilk_scheduler::scheduler::Scheduler;
use cilk_scheduler::stealing::await_last;
use cilk_scheduler::workers::is_idle;
use std::alloc::{AllocError, Global};

/// Lets an idle worker steal the continuation at this place among all that are offered. The thief
/// begins with no views. A steal that isn't possible is skipped.
pub fn steal(
    alloc: Global,
    scheduler: &mut Scheduler,
    worker: u32,
    place: usize,
) -> Result<Told, Stop>
    requires { (code : CodeView) × (inputs : List ℤ) × Runs code inputs scheduler.old }
    ensures runs { IfOk result (λ told. (code : CodeView) (inputs : List ℤ) → Runs code inputs scheduler.old → Runs code inputs scheduler.new) }
    ensures skipped { IfOk result (λ t. t ≡ told.Skipped → scheduler.new ≡ scheduler.old) }
    ensures outcome { scheduler.new.outcome ≡ scheduler.old.outcome }
    ensures stopped { scheduler.new.stopped ≡ scheduler.old.stopped }
    ensures journal { scheduler.new.journal ≡ scheduler.old.journal }
    ensures kind { IfOk result (λ t. (t ≡ told.Stole) ⊎ (t ≡ told.Skipped)) }
    ensures made { (k : ℕ) → CanSteal scheduler.old worker place k → result ≡ Ok told.Skipped → ⊥ }
    ensures vain { ((k : ℕ) → CanSteal scheduler.old worker place k → ⊥) → result ≡ Ok told.Skipped }
    ensures thieves { IfOk result (λ t. scheduler.old.outcome ≡ None → (code : CodeView) (inputs : List ℤ)
        → StealsAreSteps code inputs scheduler.old scheduler.new (choices.Steal worker place) t) }
    ensures memory { IfErr result (λ stop. stop ≡ stops.Memory) }
    ensures kept { IfErr result (λ stop. KeepsTold scheduler.old scheduler.new) }
{
    let Some(found) = find(scheduler, worker, place) else {
        return Ok(Told::Skipped);
    };
    rob_at(alloc, &mut scheduler.frames, found.frame as usize)?;
    let thief = worker as usize - 1;
    withdraw_at(&mut scheduler.workers, found.victim, found.index);
    clear(alloc, &mut scheduler.workers, thief);
    scheduler.offered -= 1;
    hold(
        &mut scheduler.frames,
        &mut scheduler.workers,
        thief,
        found.frame,
    );
    Ok(Told::Stole)
}

// An offered continuation: the worker that offers it, its place in that worker's list, and its
// frame's place.
#[derive(Clone, Copy)]
struct Offer {
    victim: usize,
    index: usize,
    frame: u32,
}

// The continuation at this place among all, if the worker is idle and may steal it.
fn find(scheduler: &Scheduler, worker: u32, place: usize) -> Option<Offer>
    ensures can { MatchOption result ((k : ℕ) → CanSteal scheduler.now worker place k → ⊥) (λ found. CanSteal scheduler.now worker place found.frame) }
    ensures stands { IfSome result (λ found. (g : IsLocated scheduler.now.workers.items place found.victim found.index) × (g.1 ≡ found.frame)) }
{
    if !is_idle(scheduler.workers.as_slice(), worker) || place >= scheduler.offered {
        return None;
    }
    let (victim, index) = locate(scheduler.workers.as_slice(), place)?;
    let Some(frame) = offered_at(scheduler.workers.as_slice(), victim, index) else {
        return None;
    };
    if !may_steal(scheduler.frames.as_slice(), frame as usize) {
        return None;
    }
    Some(Offer {
        victim,
        index,
        frame,
    })
}

// Marks the last child of a frame as stolen, so that its views are awaited at the frame's block.
fn rob_at(
    alloc: Global,
    frames: &mut Vec<Activation<FrameState>>,
    frame: usize,
) -> Result<(), AllocError>
    requires here { frame < length frames.old.items }
    requires opens { (a : Activation FrameState) → slice_get frames.old.items frame ≡ Some a → IsOpen (block_in a.cursor.join) a.cursor.children }
    requires last { (a : Activation FrameState) → slice_get frames.old.items frame ≡ Some a → a.cursor.last < length frames.old.items }
    ensures quiet { OnOk result (IsQuiet frames.old.items frames.new.items) }
    ensures robs { OnOk result (Robs frames.old.items frames.new.items frame) }
    ensures stands { OnErr result (StandAsBefore frames.old.items frames.new.items) }
{
    let child = frames[frame].cursor.last;
    await_last(alloc, &mut frames[frame].cursor)?;
    rob(frames, child as usize);
    Ok(())
}

// The frame of the continuation at a place of a worker's list.
fn offered_at(workers: &[Worker], worker: usize, index: usize) -> Option<u32>
    ensures { (place : ℕ) → IsLocated workers.now place worker index → result ≡ slice_get (offers workers.now) place }
{
    let worker = workers.get(worker)?;
    worker.offered.get(index)
}

// Whether the frame's continuation beside its last child may be stolen.
fn may_steal(frames: &[Activation<FrameState>], frame: usize) -> bool
    ensures yes { IsTrue result → (a : Activation FrameState) × (slice_get frames.now frame ≡ Some a) × IsOpen (block_in a.cursor.join) a.cursor.children }
    ensures no { (a : Activation FrameState) → slice_get frames.now frame ≡ Some a → IsOpen (block_in a.cursor.join) a.cursor.children → result ≡ true }
{
    let Some(frame_state) = frames.get(frame) else {
        return false;
    };
    let key = frame_state.cursor.children;
    match &frame_state.cursor.join {
        Some(join) => join.open(key),
        None => key > 0,
    }
}

// Replaces the worker's views by empty ones.
fn clear(alloc: Global, workers: &mut Vec<Worker>, worker: usize)
    requires { worker < length workers.old.items }
    ensures count { length workers.new.items ≡ length workers.old.items }
    ensures views { HasNoView workers.old.items workers.new.items worker }
{
    workers[worker].views = Hypermap::new(alloc);
}

// Removes the continuation at a place of a worker's list.
fn withdraw_at(workers: &mut Vec<Worker>, worker: usize, index: usize)
    requires here { worker < length workers.old.items }
    requires stands { (u : Worker) → slice_get workers.old.items worker ≡ Some u → index < length u.offered.items }
    ensures count { length workers.new.items ≡ length workers.old.items }
    ensures less { OffersLess workers.old.items workers.new.items worker index }
{
    workers[worker].offered.remove(index);
}

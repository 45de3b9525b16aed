//! The scheduler's state before the first choice.

ghost use Rattle.std.specs.Prelude.{◌≡◌, ◌+◌, ◌-◌, ◌≤◌, ◌<◌, ◌++◌, ℕ, ℤ, pos, List, None, Some, length, replicate, slice_get, IfOk, OnOk};
ghost use Rattle.cilk_scheduler.specs.Parts.{OpensAs};
ghost use Rattle.cilk_scheduler.specs.declared.frame_state.Worker as frame_state;
ghost use Rattle.cilk_program.specs.Syntax.{Source};
ghost use Rattle.cilk_schedule.specs.Reached.{HasOpened};
ghost use Rattle.cilk_lower.specs.Behaves.{IsCodeOf};
ghost use Rattle.cilk_schedule.specs.Sound.{Runs};

use cilk_frames::asked::AskSlot;
use cilk_frames::beginnings::root;
use cilk_frames::cursor::Cursor;
use cilk_hypermap::hypermap::Hypermap;
use cilk_lower::code::Code;
use cilk_scheduler::beginning::add_cells;
use cilk_scheduler::frame_state::{FrameState, Worker};
use cilk_scheduler::offer_list::Offers;
use cilk_scheduler::scheduler::Scheduler;
use cilk_types::invocation::Invocation;
use std::alloc::{AllocError, Global};

/// Returns the state in which the first of `workers` workers, at least 1, holds the first frame and the
/// others are idle.
pub fn open(alloc: Global, code: &Code, workers: u32) -> Result<Scheduler, AllocError>
    requires { 0 < workers }
    ensures runs { IfOk result (λ b. (inputs : List ℤ) → Runs code.now inputs b) }
    ensures workers { IfOk result (λ b. length b.workers.items ≡ workers) }
    ensures running { IfOk result (λ b. (b.stopped ≡ None) × (b.outcome ≡ None)) }
    ensures opened { IfOk result (λ b. (p : Source) (inputs : List ℤ) → IsCodeOf p code.now → HasOpened code.now p inputs b (workers - 1)) }
{
    code.laws();
    let layout = code.layout();
    let mut cells = Vec::from_slice(alloc, layout.openings.as_slice())?;
    add_cells(&mut cells, layout.function_cells(layout.main))?;
    let frame_state = FrameState::new(0, 0, Invocation::Call, 0, Cursor::root(alloc, code)?);
    let globals = layout.openings.len() as u32;
    let reducers = layout.reducers.len() as u32;
    let mut frames = Vec::new(alloc);
    frames.push(root(alloc, frame_state, globals, reducers, layout.main))?;
    Ok(Scheduler {
        frames,
        cells,
        workers: first_workers(alloc, workers)?,
        offered: 0,
        journal: Vec::new(alloc),
        ticks: 0,
        asked: AskSlot::new(),
        outcome: None,
        stopped: None,
    })
}

// All workers. The first one holds the first frame.
fn first_workers(alloc: Global, count: u32) -> Result<Vec<Worker>, AllocError>
    ensures count { IfOk result (λ list. length list.items ≡ count) }
    ensures opens { IfOk result (λ list. (v : ℕ) (u : frame_state.Worker) → slice_get list.items v ≡ Some u → OpensAs v u) }
{
    let mut workers = Vec::new(alloc);
    'each: for number in 0..count {
        workers.push(first_worker(alloc, number))?;
    }
    Ok(workers)
}

// The worker at this place.
fn first_worker(alloc: Global, place: u32) -> Worker
    ensures { OpensAs place result }
{
    Worker {
        frame: if place == 0 { Some(0) } else { None },
        views: Hypermap::new(alloc),
        offered: Offers::new(alloc),
    }
}

//! One choice, and a worker that continues its frame.

ghost use Rattle.std.specs.Prelude.{◌≡◌, ◌≢◌, ◌+◌, ◌-◌, ◌<◌, ◌≤◌, ◌^◌, ℕ, ℤ, true, false, List, Err, None, Ok, Some, length, slice_get, IfOk, IfErr, IsTrue, MatchOption};
ghost use Rattle.cilk_program.specs.declared.ask.Ask.TheVariants as asks;
ghost use Rattle.cilk_frames.specs.declared.activation.Activation.{Activation};
ghost use Rattle.cilk_scheduler.specs.declared.choice.Act.{Act};
ghost use Rattle.cilk_scheduler.specs.declared.choice.Stop.{Stop};
ghost use Rattle.cilk_scheduler.specs.declared.choice.Stop.TheVariants as stops;
ghost use Rattle.cilk_scheduler.specs.Asking.{refusal};
ghost use Rattle.cilk_scheduler.specs.Parts.{must_wait};
ghost use Rattle.cilk_scheduler.specs.declared.choice.Told.TheVariants as told;
ghost use Rattle.cilk_scheduler.specs.declared.frame_state.FrameState.{FrameState};
ghost use Rattle.cilk_types.specs.declared.event.Event.{Event};
ghost use Rattle.cilk_types.specs.declared.event.Event.TheVariants as events;
ghost use Rattle.cilk_scheduler.specs.declared.choice.Choice.TheVariants as choices;
ghost use Rattle.cilk_schedule.specs.Acts.{EventsAreSteps, IsTouch, WentTo, Wrote};
ghost use Rattle.cilk_schedule.specs.Choices.{CanChoose, IsReadyAt, Writes};
ghost use Rattle.cilk_schedule.specs.Passing.{SkipsAreSteps, StealsAreSteps, SyncsAreSteps, WaitsAreSteps, WroteSync};
ghost use Rattle.cilk_schedule.specs.Ends.{EndsAreSteps, TellsEnd};
ghost use Rattle.cilk_schedule.specs.Faults.{FaultsAreStops, KeepsTold};
ghost use Rattle.cilk_schedule.specs.Starting.{StartsAreSteps, TellsStart};
ghost use Rattle.cilk_schedule.specs.Sound.{IsAccepted, IsAsked, Runs, SameShown};
ghost use Rattle.cilk_scheduler.specs.Stopping.{latest};

use crate::arrivals::{must_wait, wait_at};
use crate::making::make;
use crate::thieves::steal;
use cilk_frames::activation::Activation;
use cilk_frames::asked::AskSlot;
use cilk_frames::small_ask::SmallAsk;
use cilk_lower::code::Code;
use cilk_scheduler::asking::{go_on, refusal};
use cilk_scheduler::choice::{Act, Choice, Stop, Strand, Told};
use cilk_scheduler::frame_state::FrameState;
use cilk_scheduler::journal::{note, uncounted};
use cilk_scheduler::scheduler::Scheduler;
use cilk_scheduler::workers::held_by;
use cilk_types::fault::Fault;
use cilk_types::input::Input;
use std::alloc::Global;

/// Makes a choice. Once the run has stopped, each further choice returns the same stop. Inlined, so
/// that what a caller doesn't ask for isn't put together. Each caller takes another `COPY`, so that the
/// compiler makes all of a choice a part of each.
#[inline(always)]
pub fn choose<const COPY: u8>(
    alloc: Global,
    code: &Code,
    input: &Input,
    scheduler: &mut Scheduler,
    choice: Choice,
) -> Result<Told, Stop>
    requires { scheduler.old.stopped ≡ None → Runs code.now input.now scheduler.old }
    ensures runs { IfOk result (λ told. Runs code.now input.now scheduler.new) }
    ensures skipped { IfOk result (λ t. t ≡ told.Skipped → scheduler.new ≡ scheduler.old) }
    ensures going { IfOk result (λ told. (scheduler.old.stopped ≡ None) × (scheduler.new.stopped ≡ None)) }
    ensures stop { IfErr result (λ stop. scheduler.new.stopped ≡ Some stop) }
    ensures again { (stop : Stop) → scheduler.old.stopped ≡ Some stop → (result ≡ Err stop) × (scheduler.new ≡ scheduler.old) }
    ensures over { scheduler.old.stopped ≡ None → scheduler.old.outcome ≢ None → (result ≡ Ok told.Skipped) × (scheduler.new ≡ scheduler.old) }
    ensures made { scheduler.old.stopped ≡ None → scheduler.old.outcome ≡ None → result ≡ Ok told.Skipped → CanChoose scheduler.old choice → ⊥ }
    ensures vain { scheduler.old.stopped ≡ None → (CanChoose scheduler.old choice → ⊥) → result ≡ Ok told.Skipped }
    ensures journal { Writes result scheduler.old.journal.items scheduler.new.journal.items }
    ensures steps { IfOk result (λ t. EventsAreSteps code.now input.now scheduler.old scheduler.new choice t) }
    ensures starts { IfOk result (λ t. StartsAreSteps code.now input.now scheduler.old scheduler.new choice t) }
    ensures thieves { IfOk result (λ t. StealsAreSteps code.now input.now scheduler.old scheduler.new choice t) }
    ensures waits { IfOk result (λ t. WaitsAreSteps code.now input.now scheduler.old scheduler.new choice t) }
    ensures syncs { IfOk result (λ t. SyncsAreSteps code.now input.now scheduler.old scheduler.new choice t) }
    ensures skips { IfOk result (λ t. SkipsAreSteps code.now input.now scheduler.old scheduler.new choice t) }
    ensures ends { IfOk result (λ t. EndsAreSteps code.now input.now scheduler.old scheduler.new choice t) }
    ensures faults { IfErr result (λ stop. scheduler.old.stopped ≡ None → FaultsAreStops code.now input.now scheduler.old scheduler.new choice stop) }
    ensures kept { IfErr result (λ stop. scheduler.old.stopped ≡ None → KeepsTold scheduler.old scheduler.new) }
{
    if let Some(stop) = scheduler.stopped {
        return Err(stop);
    }
    if scheduler.outcome.is_some() {
        return Ok(Told::Skipped);
    }
    let told = match choice {
        Choice::Run(worker) => run::<COPY>(alloc, code, input, scheduler, worker),
        Choice::Steal(worker, place) => steal(alloc, scheduler, worker, place),
    };
    if let Err(stop) = told {
        scheduler.stopped = Some(stop);
    }
    told
}

// The worker's frame makes its next event, or waits at its sync.
fn run<const COPY: u8>(
    alloc: Global,
    code: &Code,
    input: &Input,
    scheduler: &mut Scheduler,
    worker: u32,
) -> Result<Told, Stop>
    requires { Runs code.now input.now scheduler.old }
    ensures runs { IfOk result (λ told. Runs code.now input.now scheduler.new) }
    ensures skipped { IfOk result (λ t. t ≡ told.Skipped → scheduler.new ≡ scheduler.old) }
    ensures stopped { scheduler.new.stopped ≡ scheduler.old.stopped }
    ensures made { (k : ℕ) → IsReadyAt scheduler.old worker k → result ≡ Ok told.Skipped → ⊥ }
    ensures vain { ((k : ℕ) → IsReadyAt scheduler.old worker k → ⊥) → result ≡ Ok told.Skipped }
    ensures journal { Writes result scheduler.old.journal.items scheduler.new.journal.items }
    ensures steps { IfOk result (λ t. scheduler.old.outcome ≡ None → EventsAreSteps code.now input.now scheduler.old scheduler.new (choices.Run worker) t) }
    ensures starts { IfOk result (λ t. scheduler.old.outcome ≡ None → StartsAreSteps code.now input.now scheduler.old scheduler.new (choices.Run worker) t) }
    ensures thieves { IfOk result (λ t. StealsAreSteps code.now input.now scheduler.old scheduler.new (choices.Run worker) t) }
    ensures waits { IfOk result (λ t. scheduler.old.outcome ≡ None → WaitsAreSteps code.now input.now scheduler.old scheduler.new (choices.Run worker) t) }
    ensures syncs { IfOk result (λ t. scheduler.old.outcome ≡ None → SyncsAreSteps code.now input.now scheduler.old scheduler.new (choices.Run worker) t) }
    ensures ends { IfOk result (λ t. scheduler.old.outcome ≡ None → EndsAreSteps code.now input.now scheduler.old scheduler.new (choices.Run worker) t) }
    ensures faults { IfErr result (λ stop. FaultsAreStops code.now input.now scheduler.old scheduler.new (choices.Run worker) stop) }
    ensures kept { IfErr result (λ stop. KeepsTold scheduler.old scheduler.new) }
{
    let Some(frame) = ready(scheduler, worker) else {
        return Ok(Told::Skipped);
    };
    let worker = worker as usize - 1;
    come::<COPY>(code, input, scheduler, frame);
    if stays_behind(scheduler, frame as usize) {
        wait_at(alloc, scheduler, worker, frame as usize)?;
        return Ok(Told::Waits);
    }
    if let Some(fault) = refused(code, scheduler, frame as usize) {
        return Err(stop_at(scheduler.frames.as_slice(), frame, fault));
    }
    act::<COPY>(alloc, code, scheduler, worker, frame)
}

// Steps the frame to its next request. Each caller takes another `COPY`, so that the compiler makes this a
// part of each.
#[inline(always)]
pub fn come<const COPY: u8>(code: &Code, input: &Input, scheduler: &mut Scheduler, frame: u32)
    requires runs { Runs code.now input.now scheduler.old }
    requires ready { (worker : ℕ) × IsReadyAt scheduler.old worker frame }
    ensures asked { IsAsked code.now input.now scheduler.new frame }
    ensures same { SameShown scheduler.old scheduler.new }
    ensures went { WentTo code.now input.now scheduler.old scheduler.new frame }
{
    go_on::<COPY>(
        code,
        input,
        &mut scheduler.frames,
        frame as usize,
        &mut scheduler.asked,
    );
}

// Makes the requested event and adds it to the journal, in room that is reserved first. `COPY` is as for
// `come`.
#[inline(always)]
pub fn act<const COPY: u8>(
    alloc: Global,
    code: &Code,
    scheduler: &mut Scheduler,
    worker: usize,
    frame: u32,
) -> Result<Told, Stop>
    requires asked { (inputs : List ℤ) × IsAsked code.now inputs scheduler.old frame }
    requires accepted { IsAccepted code.now scheduler.old frame }
    requires works { worker < length scheduler.old.workers.items }
    requires low { worker < 2 ^ 32 }
    ensures runs { IfOk result (λ told. (inputs : List ℤ) → IsAsked code.now inputs scheduler.old frame → Runs code.now inputs scheduler.new) }
    ensures did { IfOk result (λ t. (act : Act) × (t ≡ told.Did act)) }
    ensures journal { Writes result scheduler.old.journal.items scheduler.new.journal.items }
    ensures stopped { scheduler.new.stopped ≡ scheduler.old.stopped }
    ensures synced { IfOk result (λ t. (e : Event) × (t ≡ told.Did (record { frame = frame + 1; event = e }))
        × (e ≡ events.Sync → WroteSync scheduler.old scheduler.new worker frame)) }
    ensures wrote { IfOk result (λ t. (e : Event) × (t ≡ told.Did (record { frame = frame + 1; event = e })) × (IsTouch e → Wrote scheduler.old scheduler.new worker frame e)) }
    ensures starts { IfOk result (λ t. TellsStart code.now scheduler.old scheduler.new worker frame t) }
    ensures ends { IfOk result (λ t. TellsEnd code.now scheduler.old scheduler.new worker frame t) }
    ensures memory { IfErr result (λ stop. stop ≡ stops.Memory) }
    ensures kept { IfErr result (λ stop. KeepsTold scheduler.old scheduler.new) }
{
    scheduler.journal.reserve(1)?;
    let event = make::<COPY>(alloc, code, scheduler, worker, frame)?;
    scheduler.ticks = note(
        &mut scheduler.frames,
        &mut scheduler.journal,
        scheduler.ticks,
        frame,
        event,
    );
    Ok(Told::Did(Act {
        frame: frame + 1,
        event,
    }))
}

// The place of the frame that a worker holds and can continue.
#[inline(always)]
pub fn ready(scheduler: &Scheduler, worker: u32) -> Option<u32>
    ensures { MatchOption result ((k : ℕ) → IsReadyAt scheduler.now worker k → ⊥) (λ k. IsReadyAt scheduler.now worker k) }
{
    let frame = held_by(scheduler.workers.as_slice(), worker)?;
    let frame_state = scheduler.frames.get(frame as usize)?;
    if frame_state.cursor.cursor.is_none() {
        return None;
    }
    Some(frame)
}

// Whether the frame is at a sync at which it has to wait.
#[inline(always)]
pub fn stays_behind(scheduler: &Scheduler, frame: usize) -> bool
    requires { frame < length scheduler.now.frames.items }
    ensures waits { IsTrue result → (scheduler.now.asked ≡ asks.Sync)
        × ((a : Activation FrameState) → slice_get scheduler.now.frames.items frame ≡ Some a → must_wait a.cursor ≡ true) }
    ensures passes { result ≡ false → scheduler.now.asked ≡ asks.Sync
        → (a : Activation FrameState) → slice_get scheduler.now.frames.items frame ≡ Some a → must_wait a.cursor ≡ false }
{
    at_sync(&scheduler.asked) && must_wait(scheduler.frames.as_slice(), frame)
}

// Whether a sync is requested.
#[inline(always)]
fn at_sync(asked: &AskSlot) -> bool
    ensures is { IsTrue result → asked.now ≡ asks.Sync }
    ensures told { asked.now ≡ asks.Sync → result ≡ true }
{
    match asked.small_ask() {
        Some(SmallAsk::Sync) => true,
        _ => false,
    }
}

// The fault that comes instead of the requested event, if any.
#[inline(always)]
pub fn refused(code: &Code, scheduler: &Scheduler, frame: usize) -> Option<Fault>
    requires here { frame < length scheduler.now.frames.items }
    requires few { (a : Activation FrameState) → slice_get scheduler.now.frames.items frame ≡ Some a → (a.cursor.counted ≤ a.cursor.took) × (scheduler.now.ticks + a.cursor.took < 2 ^ 32) }
    requires events { length scheduler.now.journal.items < 2 ^ 63 }
    requires frames { length scheduler.now.frames.items < 2 ^ 63 }
    requires cells { length scheduler.now.cells.items < 2 ^ 63 }
    ensures { (a : Activation FrameState) → slice_get scheduler.now.frames.items frame ≡ Some a → result ≡ refusal (scheduler.now.ticks + (a.cursor.took - a.cursor.counted)) (length scheduler.now.journal.items) (length scheduler.now.frames.items) (length scheduler.now.cells.items) code.now.layout scheduler.now.asked }
{
    let ticks = scheduler.ticks + uncounted(scheduler.frames.as_slice(), frame);
    refusal(
        ticks,
        scheduler.journal.len(),
        scheduler.frames.len(),
        scheduler.cells.len(),
        code.layout(),
        &scheduler.asked,
    )
}

// The stop of a frame by a fault, in its latest strand.
pub fn stop_at(frames: &[Activation<FrameState>], frame: u32, fault: Fault) -> Stop
    requires here { frame < length frames.now }
    requires few { length frames.now < 2 ^ 31 }
    ensures { (a : Activation FrameState) → slice_get frames.now frame ≡ Some a → result ≡ stops.At fault (record { frame = frame + 1; number = latest a.cursor.strands }) }
{
    let strands = frames[frame as usize].cursor.strands;
    Stop::At {
        fault,
        strand: Strand {
            frame: frame + 1,
            number: if strands == 0 { 1 } else { strands },
        },
    }
}

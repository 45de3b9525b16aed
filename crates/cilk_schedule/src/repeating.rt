//! Choices of one worker, one after another.

ghost use Rattle.std.specs.Prelude.{◌≡◌, ◌+◌, ◌<◌, ◌≤◌, ◌^◌, ℤ, List, None, length, IfOk, IfErr};
ghost use Rattle.cilk_program.specs.Syntax.{Source};
ghost use Rattle.cilk_lower.specs.Behaves.{IsCodeOf};
ghost use Rattle.cilk_scheduler.specs.declared.choice.Choice.TheVariants as choices;
ghost use Rattle.cilk_scheduler.specs.declared.scheduler.Scheduler.{Scheduler};
ghost use Rattle.cilk_schedule.specs.Acts.{WentTo};
ghost use Rattle.cilk_schedule.specs.Choices.{IsReadyAt};
ghost use Rattle.cilk_schedule.specs.Faults.{FaultsAreStops, KeepsTold};
ghost use Rattle.cilk_schedule.specs.Reached.{LeadsOn};
ghost use Rattle.cilk_schedule.specs.Repeating.{RunsInto, RunsOn};
ghost use Rattle.cilk_schedule.specs.Sound.{IsAsked, Runs};

use crate::arrivals::wait_at;
use crate::running::{act, refused, stays_behind, stop_at};
use crate::stretch::along;
use cilk_lower::code::Code;
use cilk_scheduler::choice::{Stop, Told};
use cilk_scheduler::scheduler::Scheduler;
use cilk_types::input::Input;
use std::alloc::Global;

// Makes the event that the frame has requested, or lets it wait at its sync.
fn settle(
    alloc: Global,
    code: &Code,
    scheduler: &mut Scheduler,
    worker: usize,
    frame: u32,
) -> Result<Told, Stop>
    requires asked { (inputs : List ℤ) × IsAsked code.now inputs scheduler.old frame }
    requires works { worker < length scheduler.old.workers.items }
    requires low { worker < 2 ^ 32 }
    ensures runs { IfOk result (λ told. (inputs : List ℤ) → IsAsked code.now inputs scheduler.old frame → Runs code.now inputs scheduler.new) }
    ensures stopped { scheduler.new.stopped ≡ scheduler.old.stopped }
    ensures leads { (inputs : List ℤ) (b : Scheduler) → IsReadyAt b (worker + 1) frame → WentTo code.now inputs b scheduler.old frame → b.outcome ≡ None
        → IfOk result (λ t. (p : Source) → IsCodeOf p code.now → LeadsOn code.now p inputs b scheduler.new (choices.Run (worker + 1)) t) }
    ensures faults { (inputs : List ℤ) (b : Scheduler) → IsReadyAt b (worker + 1) frame → WentTo code.now inputs b scheduler.old frame
        → IfErr result (λ stop. FaultsAreStops code.now inputs b scheduler.new (choices.Run (worker + 1)) stop) }
    ensures kept { (inputs : List ℤ) (b : Scheduler) → WentTo code.now inputs b scheduler.old frame → IfErr result (λ stop. KeepsTold b scheduler.new) }
{
    if stays_behind(scheduler, frame as usize) {
        wait_at(alloc, scheduler, worker, frame as usize)?;
        return Ok(Told::Waits);
    }
    if let Some(fault) = refused(code, scheduler, frame as usize) {
        return Err(stop_at(scheduler.frames.as_slice(), frame, fault));
    }
    act::<2>(alloc, code, scheduler, worker, frame)
}

/// Makes up to `most` choices of one worker, as long as it can continue a frame. Returns how many.
pub fn run_many(
    alloc: Global,
    code: &Code,
    input: &Input,
    scheduler: &mut Scheduler,
    worker: u32,
    most: u32,
) -> Result<u32, Stop>
    requires { Runs code.now input.now scheduler.old }
    ensures runs { IfOk result (λ n. Runs code.now input.now scheduler.new) }
    ensures few { IfOk result (λ n. n ≤ most) }
    ensures stopped { scheduler.new.stopped ≡ scheduler.old.stopped }
    ensures led { IfOk result (λ n. RunsOn code.now input.now worker n scheduler.old scheduler.new) }
    ensures halted { IfErr result (λ stop. RunsInto code.now input.now worker most scheduler.old scheduler.new stop) }
{
    let mut made: u32 = 0;
    'choices: while made < most {
        if scheduler.outcome.is_some() {
            return Ok(made);
        }
        let (count, asks) = along(code, input, scheduler, worker, most - made);
        let Some(frame) = asks else {
            return Ok(made + count);
        };
        match settle(alloc, code, scheduler, worker as usize - 1, frame) {
            Ok(_told) => made = made + count + 1,
            Err(stop) => return Err(stop),
        }
    }
    Ok(made)
}

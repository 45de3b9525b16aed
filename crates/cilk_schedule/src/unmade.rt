//! Choices of a script that can't be made: why, and what tells of them.

ghost use Rattle.std.specs.Prelude.{◌≡◌, false};
ghost use Rattle.std.specs.Option.{is_some};
ghost use Rattle.cilk_program.specs.Syntax.{Source};
ghost use Rattle.cilk_lower.specs.Behaves.{IsCodeOf};
ghost use Rattle.cilk_scheduler.specs.WorkerTables.{IsSkipped};
ghost use Rattle.cilk_scheduler.specs.declared.choice.Choice.TheVariants as choices;
ghost use Rattle.cilk_schedule.specs.Played.{IsAt};
ghost use Rattle.cilk_schedule.specs.Strict.{IsWhy};

use crate::fault::PlayFault;
use crate::machine::Machine;
use cilk_scheduler::choice::Choice;
use cilk_scheduler::workers::is_idle;
use cilk_types::outcome::Outcome;
use std::alloc::AllocError;

/// Why a choice can't be made.
#[derive(Clone, Copy, Debug, PartialEq, Eq)]
pub enum Reason {
    /// There is no such worker.
    NoWorker,
    /// The worker is to run, and holds no frame: it has had none yet, or its last one waits at a sync
    /// or has ended.
    NoFrame,
    /// The worker is to steal, and holds a frame.
    HasFrame,
    /// Only so many continuations are offered, by all workers.
    Offers(usize),
    /// The run has ended.
    Ended,
}

/// A choice of a script that can't be made.
#[derive(Clone, Copy)]
pub struct Skip {
    /// The line of the script, from 1.
    pub line: usize,
    pub choice: Choice,
    pub reason: Reason,
}

/// The choices of a script that were skipped.
#[derive(Clone, Copy)]
pub struct Skips {
    /// Their number.
    pub count: u32,
    pub first: Option<Skip>,
}

/// What is left of a script that was played to its end, and what of it was skipped.
#[derive(Drop)]
pub struct CountedPlay {
    /// The outcome, or `None` if the run hasn't ended.
    pub outcome: Option<Outcome>,
    pub skips: Skips,
}

/// Why a script wasn't played strictly to its end.
#[derive(Drop)]
pub enum StrictFault {
    /// The first choice that can't be made.
    Skipped(Skip),
    /// All choices up to there can be made.
    Play(PlayFault),
}

impl From<AllocError> for StrictFault {
    ghost use Rattle.cilk_schedule.specs.declared.fault.PlayFault.TheVariants.{Memory};
    ghost use Rattle.cilk_schedule.specs.declared.unmade.StrictFault.TheVariants.{Play};

    ghost from_gives = { λ _ e. e ≡ Play Memory };

    fn from(_: AllocError) -> StrictFault {
        StrictFault::Play(PlayFault::Memory)
    }
}

/// Returns why a choice can't be made, if it can't.
pub fn reason_of(machine: &Machine<'_>, choice: Choice) -> Reason
    ensures { (p : Source) → IsCodeOf p machine.now.code.now → (h : IsAt machine.now p) → IsSkipped h.state h.worker_table choice → IsWhy h.state h.worker_table choice result }
{
    if machine.ended() {
        return Reason::Ended;
    }
    match choice {
        Choice::Run(worker) => of_run(machine, worker),
        Choice::Steal(worker, place) => of_steal(machine, worker, place),
    }
}

// Why a worker can't run.
fn of_run(machine: &Machine<'_>, worker: u32) -> Reason
    requires { is_some machine.now.scheduler.outcome ≡ false }
    ensures { (p : Source) → IsCodeOf p machine.now.code.now → (h : IsAt machine.now p) → IsSkipped h.state h.worker_table (choices.Run worker) → IsWhy h.state h.worker_table (choices.Run worker) result }
{
    if is_idle(machine.scheduler.workers.as_slice(), worker) {
        Reason::NoFrame
    } else {
        Reason::NoWorker
    }
}

// Why a worker can't steal the continuation at a place.
fn of_steal(machine: &Machine<'_>, worker: u32, _place: usize) -> Reason
    requires { is_some machine.now.scheduler.outcome ≡ false }
    ensures { (p : Source) → IsCodeOf p machine.now.code.now → (h : IsAt machine.now p) → IsSkipped h.state h.worker_table (choices.Steal worker _place) → IsWhy h.state h.worker_table (choices.Steal worker _place) result }
{
    if machine.holds(worker) {
        Reason::HasFrame
    } else if is_idle(machine.scheduler.workers.as_slice(), worker) {
        Reason::Offers(machine.offered())
    } else {
        Reason::NoWorker
    }
}

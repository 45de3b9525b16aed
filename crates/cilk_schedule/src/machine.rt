//! The stepwise machine: a program's code, its input, and workers that make one choice after
//! another.

ghost use Rattle.std.specs.Prelude.{◌≡◌, ◌≢◌, ◌⊎◌, ◌-◌, ◌<◌, ◌≤◌, ◌++◌, ◌∷◌, [], ℕ, suc, length, Err, None, Ok, Some, IfOk, IfErr, OnOk};
ghost use Rattle.std.specs.Option.{is_some};
ghost use Rattle.cilk_types.specs.declared.fault.Fault.{Fault};
ghost use Rattle.cilk_determinacy.specs.Runs.{Name};
ghost use Rattle.cilk_scheduler.specs.Numbered.{AreNamed};
ghost use Rattle.cilk_scheduler.specs.Workers.{held_by};
ghost use Rattle.cilk_scheduler.specs.declared.choice.Stop.{Stop};
ghost use Rattle.cilk_scheduler.specs.declared.choice.Stop.TheVariants as stops;
ghost use Rattle.cilk_scheduler.specs.declared.choice.Strand.{Strand};
ghost use Rattle.cilk_scheduler.specs.declared.choice.Told.TheVariants as told;
ghost use Rattle.cilk_schedule.specs.Acts.{EventsAreSteps};
ghost use Rattle.cilk_schedule.specs.Choices.{CanChoose, Writes};
ghost use Rattle.cilk_schedule.specs.Faults.{FaultsAreStops, HasFault, HasStopped, KeepsTold, NamesStop, StopsFrom};
ghost use Rattle.cilk_schedule.specs.Played.{HaltAt, IsPlayed, IsStop, IsUnstopped, LeadOn};
ghost use Rattle.cilk_schedule.specs.Reached.{HasOpened, HasReached, LeadsOn};
ghost use Rattle.cilk_schedule.specs.Shown.{ShowsReached};
ghost use Rattle.cilk_lower.specs.Behaves.{IsCodeOf};
ghost use Rattle.cilk_schedule.specs.Sound.{Runs};
ghost use Rattle.cilk_program.specs.Syntax.{Source};
ghost use Rattle.cilk_schedule.specs.Ends.{EndsAreSteps};
ghost use Rattle.cilk_schedule.specs.Repeating.{RunsInto, RunsOn};
ghost use Rattle.cilk_schedule.specs.Starting.{StartsAreSteps};
ghost use Rattle.cilk_schedule.specs.Passing.{SkipsAreSteps, StealsAreSteps, SyncsAreSteps, WaitsAreSteps};

use crate::naming::path;
use crate::opening::open;
use crate::repeating::run_many;
use crate::running::choose;
use crate::showing::{Shown, show};
use cilk_lower::code::Code;
use cilk_scheduler::choice::{Choice, Stop, Told};
use cilk_scheduler::scheduler::Scheduler;
use cilk_scheduler::workers::held_by;
use cilk_types::input::Input;
use cilk_types::outcome::Outcome;
use std::alloc::{AllocError, Global};

/// A stepwise machine. It borrows the code and the input, and owns the rest.
#[derive(Drop)]
pub struct Machine<'a> {
    pub(crate) code: &'a Code,
    pub(crate) input: &'a Input,
    pub(crate) scheduler: Scheduler,
}

impl<'a> Machine<'a> {
    /// Creates a machine with `workers` workers, at least 1, before its first choice. The first worker
    /// holds the first frame.
    pub fn new(
        alloc: Global,
        code: &'a Code,
        input: &'a Input,
        workers: u32,
    ) -> Result<Machine<'a>, AllocError>
        requires { 0 < workers }
        ensures of { IfOk result (λ m. (m.code.now ≡ code.now) × (m.input.now ≡ input.now)) }
        ensures runs { IfOk result (λ m. Runs m.code.now m.input.now m.scheduler) }
        ensures workers { IfOk result (λ m. length m.scheduler.workers.items ≡ workers) }
        ensures running { IfOk result (λ m. (m.scheduler.stopped ≡ None) × (m.scheduler.outcome ≡ None)) }
        ensures opened { IfOk result (λ m. (p : Source) → IsCodeOf p code.now → HasOpened code.now p input.now m.scheduler (workers - 1)) }
    {
        let scheduler = open(alloc, code, workers)?;
        Ok(Machine {
            code,
            input,
            scheduler,
        })
    }

    /// Makes a choice. A choice that can't be made is skipped and changes nothing. Once the run has
    /// stopped, each further choice returns the same stop.
    ///
    /// A choice is one step of the free machine, or none. If the machine's state represents a
    /// reachable state of the free machine, it does so after the choice too. After a stop the
    /// machine still shows the run before the choice.
    #[inline(always)]
    pub fn choose(&mut self, alloc: Global, choice: Choice) -> Result<Told, Stop>
        requires { self.old.scheduler.stopped ≡ None → Runs self.old.code.now self.old.input.now self.old.scheduler }
        ensures runs { self.new.scheduler.stopped ≡ None → Runs self.new.code.now self.new.input.now self.new.scheduler }
        ensures same { (self.new.code ≡ self.old.code) × (self.new.input ≡ self.old.input) }
        ensures skipped { IfOk result (λ t. t ≡ told.Skipped → self.new ≡ self.old) }
        ensures going { IfOk result (λ told. (self.old.scheduler.stopped ≡ None) × (self.new.scheduler.stopped ≡ None)) }
        ensures stop { IfErr result (λ stop. self.new.scheduler.stopped ≡ Some stop) }
        ensures again { (stop : Stop) → self.old.scheduler.stopped ≡ Some stop → (result ≡ Err stop) × (self.new ≡ self.old) }
        ensures over { self.old.scheduler.stopped ≡ None → self.old.scheduler.outcome ≢ None → (result ≡ Ok told.Skipped) × (self.new ≡ self.old) }
        ensures made { self.old.scheduler.stopped ≡ None → self.old.scheduler.outcome ≡ None → result ≡ Ok told.Skipped → CanChoose self.old.scheduler choice → ⊥ }
        ensures vain { self.old.scheduler.stopped ≡ None → (CanChoose self.old.scheduler choice → ⊥) → result ≡ Ok told.Skipped }
        ensures journal { Writes result self.old.scheduler.journal.items self.new.scheduler.journal.items }
        ensures steps { IfOk result (λ t. EventsAreSteps self.old.code.now self.old.input.now self.old.scheduler self.new.scheduler choice t) }
        ensures starts { IfOk result (λ t. StartsAreSteps self.old.code.now self.old.input.now self.old.scheduler self.new.scheduler choice t) }
        ensures thieves { IfOk result (λ t. StealsAreSteps self.old.code.now self.old.input.now self.old.scheduler self.new.scheduler choice t) }
        ensures waits { IfOk result (λ t. WaitsAreSteps self.old.code.now self.old.input.now self.old.scheduler self.new.scheduler choice t) }
        ensures syncs { IfOk result (λ t. SyncsAreSteps self.old.code.now self.old.input.now self.old.scheduler self.new.scheduler choice t) }
        ensures skips { IfOk result (λ t. SkipsAreSteps self.old.code.now self.old.input.now self.old.scheduler self.new.scheduler choice t) }
        ensures reached { IfOk result (λ t. (p : Source) → IsCodeOf p self.old.code.now → LeadsOn self.old.code.now p self.old.input.now self.old.scheduler self.new.scheduler choice t) }
        ensures ends { IfOk result (λ t. EndsAreSteps self.old.code.now self.old.input.now self.old.scheduler self.new.scheduler choice t) }
        ensures faults { IfErr result (λ stop. self.old.scheduler.stopped ≡ None → FaultsAreStops self.old.code.now self.old.input.now self.old.scheduler self.new.scheduler choice stop) }
        ensures halted { IfErr result (λ stop. self.old.scheduler.stopped ≡ None → (p : Source) → IsCodeOf p self.old.code.now → HasReached self.old.code.now p self.old.input.now self.old.scheduler → HasStopped self.old.code.now p self.old.input.now self.new.scheduler stop) }
        ensures stops { IfErr result (λ stop. self.old.scheduler.stopped ≡ None → (p : Source) → IsCodeOf p self.old.code.now → (h : HasReached self.old.code.now p self.old.input.now self.old.scheduler) → StopsFrom self.old.code.now p self.old.input.now self.old.scheduler h self.new.scheduler choice stop) }
        ensures kept { IfErr result (λ stop. self.old.scheduler.stopped ≡ None → KeepsTold self.old.scheduler self.new.scheduler) }
    {
        choose::<0>(alloc, self.code, self.input, &mut self.scheduler, choice)
    }

    /// Makes up to `most` choices of one worker, as [`Machine::choose`] repeated, as long as it can
    /// continue a frame. Returns how many.
    pub fn choose_many(&mut self, alloc: Global, worker: u32, most: u32) -> Result<u32, Stop>
        requires { IsUnstopped self.old }
        ensures going { IfOk result (λ n. IsUnstopped self.new) }
        ensures same { (self.new.code ≡ self.old.code) × (self.new.input ≡ self.old.input) }
        ensures few { IfOk result (λ n. n ≤ most) }
        ensures led { IfOk result (λ n. RunsOn self.old.code.now self.old.input.now worker n self.old.scheduler self.new.scheduler) }
        ensures halted { IfErr result (λ stop. RunsInto self.old.code.now self.old.input.now worker most self.old.scheduler self.new.scheduler stop) }
    {
        match run_many(
            alloc,
            self.code,
            self.input,
            &mut self.scheduler,
            worker,
            most,
        ) {
            Ok(made) => Ok(made),
            Err(stop) => {
                self.scheduler.stopped = Some(stop);
                Err(stop)
            }
        }
    }

    /// Returns whether a worker holds a frame. Workers count from 1.
    pub fn holds(&self, worker: u32) -> bool
        ensures { result ≡ is_some (held_by self.now.scheduler.workers.items worker) }
    {
        held_by(self.scheduler.workers.as_slice(), worker).is_some()
    }

    /// Returns the number of continuations that are offered.
    pub fn offered(&self) -> usize
        ensures { result ≡ self.now.scheduler.offered }
    {
        self.scheduler.offered
    }

    /// Returns whether the first frame has ended.
    pub fn ended(&self) -> bool
        ensures { result ≡ is_some self.now.scheduler.outcome }
    {
        self.scheduler.outcome.is_some()
    }

    /// Returns the run so far: what its frames did, which of them were joined, and the outcome.
    /// Frames are found by paths, which no schedule changes. After a stop it is the run before the
    /// choice that stopped it.
    pub fn shown(&self, alloc: Global) -> Result<Shown, AllocError>
        ensures outcome { IfOk result (λ shown. shown.outcome ≡ self.now.scheduler.outcome) }
        ensures run { IfOk result (ShowsReached self.now.code.now self.now.input.now self.now.scheduler) }
    {
        show(alloc, &self.scheduler, self.code.layout().openings.len())
    }

    /// Returns the outcome, or `None` if the first frame hasn't ended.
    pub fn into_outcome(self) -> Option<Outcome>
        ensures { result ≡ self.entry.scheduler.outcome }
    {
        let Machine {
            code: _code,
            input: _input,
            scheduler,
        } = self;
        scheduler.into_outcome()
    }

    /// Returns the name of the strand that stopped: the path of its frame by ordinals, then the
    /// strand's number in its frame. It is empty for [`Stop::Memory`].
    pub fn name(&self, alloc: Global, stop: Stop) -> Result<Vec<u32>, AllocError>
        ensures memory { stop ≡ stops.Memory → IfOk result (λ name. name.items ≡ []) }
        ensures name { (fault : Fault) (strand : Strand) (names : ℕ → Name) (place : ℕ) → stop ≡ stops.At fault strand → strand.frame ≡ suc place → AreNamed self.now.scheduler.frames.items names → place < length self.now.scheduler.frames.items
            → IfOk result (λ name. name.items ≡ names place ++ strand.number ∷ []) }
        ensures strand { (p : Source) (fault : Fault) (strand : Strand) → stop ≡ stops.At fault strand → (h : HasFault self.now.code.now p self.now.input.now self.now.scheduler fault strand) → IfOk result (λ name. NamesStop h.state name.items) }
    {
        let Stop::At { fault: _, strand } = stop else {
            return Ok(Vec::new(alloc));
        };
        let frame = (strand.frame as usize).saturating_sub(1);
        let mut name = path(alloc, self.scheduler.frames.as_slice(), frame)?;
        name.push(strand.number)?;
        Ok(name)
    }
}

/// Makes `choices` one after another, on a machine with `workers` workers, at least 1. Returns what the
/// run shows at the state of the free machine to which they lead, or the stop of the choice that
/// stopped the run.
///
/// A fault comes with the name of its strand. If memory runs out, even for that name, the stop is
/// [`Stop::Memory`] without a name. A list of choices has at most one end
/// ([`crate::laws::lists_decide`]), so every other result is that end.
pub fn play(
    alloc: Global,
    code: &Code,
    input: &Input,
    workers: u32,
    choices: &[Choice],
) -> Result<Shown, (Stop, Vec<u32>)>
    requires { 0 < workers }
    ensures played { IfOk result (λ shown. (p : Source) → IsCodeOf p code.now → IsPlayed p input.now workers choices.now shown) }
    ensures stopped { IfErr result (λ e. (p : Source) → IsCodeOf p code.now → IsStop p input.now workers choices.now e.0 e.1.items) }
    ensures unnamed { IfErr result (λ e. e.0 ≡ stops.Memory → e.1.items ≡ []) }
{
    let Ok(mut machine) = Machine::new(alloc, code, input, workers) else {
        return Err((Stop::Memory, Vec::new(alloc)));
    };
    if let Err(stop) = choose_all(alloc, &mut machine, choices) {
        return Err(named(alloc, &machine, stop));
    }
    match machine.shown(alloc) {
        Ok(shown) => Ok(shown),
        Err(_) => Err((Stop::Memory, Vec::new(alloc))),
    }
}

// Makes the choices one after another, until one stops the run.
fn choose_all(alloc: Global, machine: &mut Machine<'_>, choices: &[Choice]) -> Result<(), Stop>
    requires { IsUnstopped machine.old }
    ensures led { OnOk result (LeadOn choices.now machine.old machine.new) }
    ensures halted { IfErr result (λ stop. HaltAt choices.now machine.old machine.new stop) }
{
    'each: for choice in choices {
        if let Err(stop) = machine.choose(alloc, *choice) {
            return Err(stop);
        }
    }
    Ok(())
}

// Adds the name of its strand to a stop.
fn named(alloc: Global, machine: &Machine<'_>, stop: Stop) -> (Stop, Vec<u32>)
    ensures unnamed { result.0 ≡ stops.Memory → result.1.items ≡ [] }
    ensures same { (result.0 ≡ stop) ⊎ (result.0 ≡ stops.Memory) }
    ensures named { (p : Source) (fault : Fault) (strand : Strand) → result.0 ≡ stops.At fault strand → (h : HasFault machine.now.code.now p machine.now.input.now machine.now.scheduler fault strand) → NamesStop h.state result.1.items }
{
    match machine.name(alloc, stop) {
        Ok(name) => (stop, name),
        Err(_) => (Stop::Memory, Vec::new(alloc)),
    }
}

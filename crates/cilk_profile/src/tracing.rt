//! The trace of `play`: what each worker did by the orders of a script.

ghost use Rattle.std.specs.Prelude.{◌≡◌, ◌<◌};
ghost use Rattle.cilk_schedule.specs.Played.{IsUnstopped};

use crate::deeds::{Deeds, Record};
use cilk_findings::case::Case;
use cilk_findings::fault::CaseFault;
use cilk_findings::kept::{CaseTexts, Kept};
use cilk_findings::runs::Run;
use cilk_findings::scene::Scene;
use cilk_messages::words::{Manner, Origin};
use cilk_parser::script::{ScriptFault, Step, read};
use cilk_parser::script_choices::{Choices, Next};
use cilk_schedule::{Choice, Machine, Stop, Told};
use std::alloc::{AllocError, Global};

/// The most rounds of one `all`.
const ROUNDS: u32 = 4_000_000;

/// A script that is played: the files of its program and input, and how.
#[derive(Clone, Copy)]
pub struct Play<'a> {
    pub program: &'a str,
    pub input: Option<&'a str>,
    pub manner: Manner,
}

/// The text about it.
#[derive(Clone, Copy)]
pub enum Telling {
    /// All that each worker does.
    All,
    /// The last that a worker does, counted from 1.
    LastOf(u32),
}

/// The choices that are left: those of the script, and those of an `all` that is under way.
#[derive(Drop)]
struct Left<'a> {
    choices: Choices<'a>,
    workers: u32,
    // Whether the first choice of the script that can't be made ends it.
    is_strict: bool,
    // The turns and rounds that are left of an `all`, and the worker whose turn is the next.
    rounds: u32,
    worker: u32,
}

impl Left<'_> {
    // The next choice on a machine. A round of an `all` is begun unless the run has ended: each worker
    // continues its frame, or steals the first continuation that is offered.
    fn next(&mut self, machine: &Machine<'_>) -> Option<Choice> {
        if self.worker >= self.workers {
            self.worker = 0;
            self.rounds = self.rounds.saturating_sub(1);
        }
        if self.worker == 0 && machine.ended() {
            self.rounds = 0;
        }
        if self.rounds == 0 {
            match self.choices.next() {
                Some(Next::Run(worker)) => return Some(Choice::Run(worker)),
                Some(Next::Steal(worker, place)) => {
                    return Some(Choice::Steal(worker, place as usize));
                }
                Some(Next::Rounds) => {
                    self.rounds = ROUNDS;
                    self.worker = 0;
                }
                Some(Next::Past(_)) | None => return None,
            }
        }
        self.turn(machine)
    }

    // The choice of the next worker of a round that can make one, or else of its last worker. Where nothing
    // is offered, a worker without a frame can't.
    fn turn(&mut self, machine: &Machine<'_>) -> Option<Choice> {
        let is_offered = machine.offered() > 0;
        for _turn in self.worker..self.workers {
            self.worker = self.worker.saturating_add(1);
            if machine.holds(self.worker) {
                return Some(Choice::Run(self.worker));
            }
            if is_offered || self.worker >= self.workers {
                return Some(Choice::Steal(self.worker, 0));
            }
        }
        None
    }

    // Whether what came of the latest choice ends the script. A turn in a round may be skipped.
    fn ends_by(&self, told: &Told) -> bool {
        self.is_strict && self.rounds == 0 && matches!(told, Told::Skipped)
    }
}

/// Adds what each worker does by a script, or what one of them does last, in a manner with at least 1
/// worker. `kept` has the program, its input and the script.
pub fn push_trace(
    alloc: Global,
    report: &mut String,
    play: Play<'_>,
    telling: Telling,
    kept: &Kept,
) -> Result<(), CaseFault>
    requires { 0 < play.manner.workers }
{
    let Some(texts) = CaseTexts::of(Origin::File(play.program), play.input, kept)? else {
        return Err(CaseFault::Unfit);
    };
    let script = kept.last()?;
    let case = texts.case(alloc)?;
    push_script(report, &case, play.manner, telling, script)
}

fn push_script(
    report: &mut String,
    case: &Case<'_>,
    manner: Manner,
    telling: Telling,
    script: &[u8],
) -> Result<(), CaseFault>
    requires { 0 < manner.workers }
{
    let run = Run::of(case)?;
    let record = match read(case.alloc, script) {
        Ok(steps) => record_of(case, run, manner, steps.as_slice())?,
        Err(ScriptFault::Line(_)) => return Err(CaseFault::Unfit),
        Err(ScriptFault::Memory) => return Err(CaseFault::Memory),
    };
    // The events were freed for those of the machine.
    let run = Run::of(case)?;
    let scene = Scene { case, run: &run };
    match telling {
        Telling::All => record.push(&scene, report)?,
        Telling::LastOf(worker) => record.push_last(&scene, report, worker)?,
    }
    Ok(())
}

// Makes the choices of a script, from the run's beginning, and returns what comes of them. Of the serial run
// only what the deeds need stays in memory.
fn record_of(
    case: &Case<'_>,
    run: Run,
    manner: Manner,
    steps: &[Step],
) -> Result<Record, AllocError>
    requires { 0 < manner.workers }
{
    let (code, trace, replay) = run.without_outcome();
    let globals = case.program.globals.len();
    let mut deeds = Deeds::new(case.alloc, globals, trace.as_slice(), &replay)?;
    drop(trace);
    let mut machine = Machine::new(case.alloc, &code, &case.input, manner.workers)?;
    let mut left = Left {
        choices: Choices::new(steps),
        workers: manner.workers,
        is_strict: manner.is_strict,
        rounds: 0,
        worker: 0,
    };
    follow_on(case.alloc, &mut machine, &mut left, &mut deeds)?;
    Ok(deeds.into_record())
}

fn follow_on(
    alloc: Global,
    machine: &mut Machine<'_>,
    left: &mut Left<'_>,
    deeds: &mut Deeds<'_>,
) -> Result<(), AllocError>
    requires { IsUnstopped machine.old }
{
    deeds.open(left.workers)?;
    'choices: for _ in 0..u64::MAX {
        let Some(choice) = left.next(machine) else {
            break;
        };
        match machine.choose(alloc, choice) {
            Ok(told) if left.ends_by(&told) => break,
            Ok(Told::Skipped) => {}
            Ok(told) => deeds.note(choice, Ok(told))?,
            Err(Stop::At { fault, strand: _ }) => {
                return deeds.note(choice, Err(fault.number()));
            }
            Err(Stop::Memory) => return Err(AllocError),
        }
    }
    Ok(())
}

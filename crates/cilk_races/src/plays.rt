//! Plays of scripts whose moves are counted, and whose frames are limited: another order may run far longer than the
//! serial one.

ghost use Rattle.std.specs.Prelude.{◌≡◌, ◌<◌, IfOk};
ghost use Rattle.cilk_schedule.specs.Played.{IsUnstopped};

use cilk_findings::case::Case;
use cilk_lower::code::Code;
use cilk_parser::script::Step;
use cilk_parser::script_choices::{Choices, Next};
use cilk_schedule::{Act, Choice, Machine, Stop, Told};
use cilk_types::event::Event;
use cilk_types::fault::Fault;
use cilk_types::outcome::Outcome;
use std::alloc::AllocError;

// The frames that a play may begin, and how many more for each frame of the serial run: frames take most memory.
const FRAMES: usize = 8_192;

const MORE: usize = 2;

// The most rounds of one `all`, as of `play`.
const ROUNDS: u32 = 4_000_000;

/// The moves that plays may still make: choices that aren't skipped, most of which make an event.
#[derive(Clone, Copy)]
pub struct Budget {
    left: usize,
    frames: usize,
    gave_up: bool,
}

impl Budget {
    /// Returns a budget of `all` moves for all plays together of a program whose serial run has so many
    /// frames. A play that is begun may go past it, to the limits of a run.
    pub fn of(all: usize, frames: usize) -> Budget {
        Budget {
            left: all,
            frames: frames.saturating_mul(MORE).saturating_add(FRAMES),
            gave_up: false,
        }
    }

    /// Allots so many moves to the plays that follow.
    pub fn refill(&mut self, all: usize) {
        self.left = all;
    }

    /// Returns whether no moves are left.
    pub fn is_spent(&self) -> bool {
        self.left == 0
    }

    /// Returns whether a play began more frames than one may.
    pub fn gave_up(&self) -> bool {
        self.gave_up
    }
}

/// What a play comes to.
#[derive(Drop)]
pub enum Played {
    Ended(Outcome),
    Stopped(Fault),
    /// The play began more frames than one may.
    Long,
    /// The script ended before the run, or has more choices than a script may.
    Cut,
}

/// Why a play goes no further.
#[derive(Clone, Copy)]
enum Halt {
    Fault(Fault),
    Long,
    Line,
    Memory,
}

impl From<AllocError> for Halt {
    fn from(_: AllocError) -> Halt {
        Halt::Memory
    }
}

/// A machine, the moves that it made, and the frames that it may still begin.
#[derive(Drop)]
struct Player<'a> {
    machine: Machine<'a>,
    moves: usize,
    frames: usize,
}

impl Player<'_> {
    // Makes a choice.
    fn make(&mut self, case: &Case<'_>, choice: Choice) -> Result<(), Halt>
        requires { IsUnstopped self.old.machine }
        ensures { IfOk result (λ _. IsUnstopped self.new.machine) }
    {
        match self.machine.choose(case.alloc, choice) {
            Ok(Told::Skipped) => Ok(()),
            Ok(told) => self.count(told),
            Err(Stop::At { fault, strand: _ }) => Err(Halt::Fault(fault)),
            Err(Stop::Memory) => Err(Halt::Memory),
        }
    }

    // Counts a move.
    fn count(&mut self, told: Told) -> Result<(), Halt>
        ensures { self.new.machine ≡ self.old.machine }
    {
        self.moves = self.moves.saturating_add(1);
        if let Told::Did(
            Act {
                frame: _,
                event: Event::Begin { frame: _ },
            },
        ) = told
        {
            match self.frames.checked_sub(1) {
                Some(frames) => self.frames = frames,
                None => return Err(Halt::Long),
            }
        }
        Ok(())
    }

    // A worker's turn: it continues its frame, or steals the first continuation that is offered.
    fn turn(&mut self, case: &Case<'_>, worker: u32) -> Result<(), Halt>
        requires { IsUnstopped self.old.machine }
        ensures { IfOk result (λ _. IsUnstopped self.new.machine) }
    {
        if self.machine.holds(worker) {
            return self.make(case, Choice::Run(worker));
        }
        if self.machine.offered() > 0 {
            return self.make(case, Choice::Steal(worker, 0));
        }
        Ok(())
    }

    // Makes rounds of all workers until the run has ended.
    fn rounds(&mut self, case: &Case<'_>, workers: u32) -> Result<(), Halt>
        requires { IsUnstopped self.old.machine }
        ensures { IfOk result (λ _. IsUnstopped self.new.machine) }
    {
        'rounds: for _round in 0..ROUNDS {
            if self.machine.ended() {
                break;
            }
            'turns: for number in 0..workers {
                self.turn(case, number + 1)?;
            }
        }
        Ok(())
    }

    // Makes all choices of the steps.
    fn follow(&mut self, case: &Case<'_>, workers: u32, steps: &[Step]) -> Result<(), Halt>
        requires { IsUnstopped self.old.machine }
        ensures { IfOk result (λ _. IsUnstopped self.new.machine) }
    {
        let mut choices = Choices::new(steps);
        'choices: while let Some(next) = choices.next() {
            match next {
                Next::Run(worker) => self.make(case, Choice::Run(worker))?,
                Next::Steal(worker, place) => {
                    self.make(case, Choice::Steal(worker, place as usize))?
                }
                Next::Rounds => self.rounds(case, workers)?,
                Next::Past(_) => return Err(Halt::Line),
            }
        }
        Ok(())
    }
}

/// Makes the choices of a script's steps by so many workers, and takes its moves off the budget.
pub fn play(
    case: &Case<'_>,
    code: &Code,
    workers: u32,
    steps: &[Step],
    budget: &mut Budget,
) -> Result<Played, AllocError>
    requires { 0 < workers }
{
    let mut player = Player {
        machine: Machine::new(case.alloc, code, &case.input, workers)?,
        moves: 0,
        frames: budget.frames,
    };
    let followed = player.follow(case, workers, steps);
    let Player {
        machine,
        moves,
        frames: _,
    } = player;
    budget.left = budget.left.saturating_sub(moves);
    match followed {
        Ok(()) => Ok(match machine.into_outcome() {
            Some(outcome) => Played::Ended(outcome),
            None => Played::Cut,
        }),
        Err(Halt::Fault(fault)) => Ok(Played::Stopped(fault)),
        Err(Halt::Long) => {
            budget.gave_up = true;
            Ok(Played::Long)
        }
        Err(Halt::Line) => Ok(Played::Cut),
        Err(Halt::Memory) => Err(AllocError),
    }
}

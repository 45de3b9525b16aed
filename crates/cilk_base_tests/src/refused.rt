//! Round-robin runs of two workers that may be out of memory. The run ends with its result, or
//! stops for good and shows a beginning of the serial run. The gate's tests have enough memory;
//! `tools/each_failure.py` runs these with each allocation refused in turn.

ghost use Rattle.std.specs.Prelude.{◌≡◌, None};
ghost use Rattle.cilk_schedule.specs.Sound.{Runs};

use crate::playing::{LIST, LOCAL, no_input, rounds};
use cilk_checker::fault::ProgramFault;
use cilk_checker::judge::program;
use cilk_lower::code::Code;
use cilk_lower::lower::lower;
use cilk_schedule::machine::Machine;
use cilk_schedule::naming::{CellName, ReducerName, ShownEvent};
use cilk_schedule::showing::Shown;
use cilk_scheduler::choice::{Choice, Stop};
use std::alloc::{AllocError, Global};
use std::mem::replace;
use std::process::Abort;

// Two programs, one with an `append` reducer and one with local reducers, and their results.
const ROWS: [(&str, i64); 2] = [(LIST, 5), (LOCAL, 16)];

#[test]
fn rows_by_two_workers(rt: HostRuntime) {
    for (text, wanted) in ROWS {
        let Ok(()) = ends_or_stops(&rt, rt.alloc(), text, wanted) else {
            panic!(rt; "no memory ahead of the run, or to look at it");
        };
    }
}

// Checks that a run of two workers ends with this result, or stops out of memory. After a stop
// three more choices stop too, and the run before the stop is shown. Returns an error if out of
// memory before the run or after it.
fn ends_or_stops(
    rt: &impl Abort,
    alloc: Global,
    text: &str,
    wanted: i64,
) -> Result<(), AllocError> {
    let code = code_in(rt, alloc, text)?;
    let serial = serial(alloc, &code)?;
    let (shown, is_stopped) = by_two(rt, alloc, &code)?;
    assert!(rt; is_beginning(alloc, &shown, &serial)?, "{text}");
    assert!(rt; is_stopped || gives(&shown, wanted), "{text}");
    Ok(())
}

// The run of one worker.
fn serial(alloc: Global, code: &Code) -> Result<Shown, AllocError> {
    let input = no_input(alloc);
    let mut machine = Machine::new(alloc, code, &input, 1)?;
    match rounds(alloc, &mut machine, 1) {
        Ok(()) => machine.shown(alloc),
        Err(_) => Err(AllocError),
    }
}

// The run of two workers, and whether it was stopped.
fn by_two(rt: &impl Abort, alloc: Global, code: &Code) -> Result<(Shown, bool), AllocError> {
    let input = no_input(alloc);
    let mut machine = Machine::new(alloc, code, &input, 2)?;
    let is_stopped = stops(rt, alloc, &mut machine);
    let shown = machine.shown(alloc)?;
    Ok((shown, is_stopped))
}

// Whether a run of two workers stops out of memory; then three more choices must stop too.
fn stops(rt: &impl Abort, alloc: Global, machine: &mut Machine<'_>) -> bool
    requires { machine.old.scheduler.stopped ≡ None → Runs machine.old.code.now machine.old.input.now machine.old.scheduler }
    ensures { machine.new.scheduler.stopped ≡ None → Runs machine.new.code.now machine.new.input.now machine.new.scheduler }
{
    match rounds(alloc, machine, 2) {
        Ok(()) => false,
        Err(stop) => {
            assert!(rt; matches!(stop, Stop::Memory));
            stays_stopped(rt, alloc, machine);
            true
        }
    }
}

// Whether the run has ended with this result.
fn gives(shown: &Shown, wanted: i64) -> bool {
    match shown.outcome() {
        Some(outcome) => outcome.result == wanted,
        None => false,
    }
}

// The code of a program.
fn code_in(rt: &impl Abort, alloc: Global, text: &str) -> Result<Code, AllocError> {
    match program(alloc, text.as_bytes()) {
        Ok(program) => lower(alloc, &program),
        Err(ProgramFault::Memory) => Err(AllocError),
        Err(fault) => panic!(rt; "{fault}: {text}"),
    }
}

// Three more choices have the same stop.
fn stays_stopped(rt: &impl Abort, alloc: Global, machine: &mut Machine<'_>)
    requires { machine.old.scheduler.stopped ≡ None → Runs machine.old.code.now machine.old.input.now machine.old.scheduler }
    ensures { machine.new.scheduler.stopped ≡ None → Runs machine.new.code.now machine.new.input.now machine.new.scheduler }
{
    'choices: for choice in [Choice::Run(1), Choice::Steal(2, 0), Choice::Run(2)] {
        assert!(rt; matches!(machine.choose(alloc, choice), Err(Stop::Memory)));
    }
}

// Whether the events of each frame shown are the first events of that frame in the other run.
fn is_beginning(alloc: Global, shown: &Shown, whole: &Shown) -> Result<bool, AllocError> {
    for place in 0..shown.frames() {
        let path = shown.path(alloc, place)?;
        let Some(begun) = shown.events(path.as_slice()) else {
            return Ok(false);
        };
        let Some(all) = whole.events(path.as_slice()) else {
            return Ok(false);
        };
        if !are_first(shown, begun, whole, all) {
            return Ok(false);
        }
    }
    Ok(true)
}

// Whether these events of one run are the first of those of another.
fn are_first(shown: &Shown, begun: &[ShownEvent], whole: &Shown, all: &[ShownEvent]) -> bool {
    begun.len() <= all.len()
        && begun
            .iter()
            .zip(all)
            .all(|(one, other)| is_same_event(shown, *one, whole, *other))
}

// Whether two events of two runs are the same. Indices of frames depend on the schedule, so frames
// are compared by their paths.
fn is_same_event(shown: &Shown, one: ShownEvent, whole: &Shown, other: ShownEvent) -> bool {
    let (one, owner) = parted(one);
    let (other, other_owner) = parted(other);
    one == other && is_same_frame(shown, owner, whole, other_owner)
}

// An event as of the first frame's cell or reducer, and the index of the frame that owns it; 0 if
// it has neither.
fn parted(event: ShownEvent) -> (ShownEvent, u32) {
    let mut event = event;
    let owner = match &mut event {
        ShownEvent::Read {
            cell: CellName::Own { frame, place: _ },
            value: _,
        }
        | ShownEvent::Write {
            cell: CellName::Own { frame, place: _ },
            value: _,
        }
        | ShownEvent::Create {
            reducer: ReducerName::Own { frame, place: _ },
        }
        | ShownEvent::Update {
            reducer: ReducerName::Own { frame, place: _ },
            value: _,
        }
        | ShownEvent::Set {
            reducer: ReducerName::Own { frame, place: _ },
            value: _,
        }
        | ShownEvent::Value {
            reducer: ReducerName::Own { frame, place: _ },
            value: _,
        } => replace(frame, 0),
        _ => 0,
    };
    (event, u32::try_from(owner).unwrap_or(u32::MAX))
}

// Whether two frames of two runs have the same path: the same ordinals up to the first frame.
fn is_same_frame(shown: &Shown, place: u32, whole: &Shown, other: u32) -> bool {
    let mut place = place;
    let mut other = other;
    for _ in 0..shown.frames() {
        if place == 0 || other == 0 {
            break;
        }
        let (Some(one), Some(two)) = (shown.link(place), whole.link(other)) else {
            return false;
        };
        if one.ordinal != two.ordinal {
            return false;
        }
        place = one.parent;
        other = two.parent;
    }
    place == 0 && other == 0
}

//! A run with its frames, and the place of each event.

ghost use Rattle.cilk_lower.specs.Behaves.{Behaves};
ghost use Rattle.cilk_program.specs.Sources.{source};

use crate::map::{BodyMap, TextMap};
use cilk_frames::operands::LastOperands;
use cilk_lower::code::{Code, Instr};
use cilk_program::program::{Body, Program};
use cilk_program::syntax::ReducerPlace;
use cilk_serial::serial_run::{Next, SerialRun, Target};
use cilk_syntax::tree::Name;
use cilk_types::event::Event;
use cilk_types::fault::Fault;
use cilk_types::input::Input;
use cilk_types::invocation::Invocation;
use cilk_types::limits::MAX_EVENTS;
use cilk_types::outcome::Outcome;
use cilk_types::trace::Trace;
use std::alloc::{AllocError, Global};

/// A frame of the run. Frames and events count from 0 here.
#[derive(Clone, Copy)]
pub struct FrameNote {
    /// The body that it runs. The turns of a loop are from `low` up to but without `high`.
    pub body: Body,
    pub low: i64,
    pub high: i64,
    pub how: Invocation,
    /// The frame that invoked it, with the byte of the text and the event of the invocation. The
    /// first frame is its own parent.
    pub parent: usize,
    pub invoked_at: usize,
    pub begun: usize,
    /// Its last event, once that is made.
    pub ended: Option<usize>,
    /// Its first cell.
    pub cell: usize,
}

/// The note of a frame that no run has.
pub const NO_FRAME: FrameNote = FrameNote {
    body: Body::Function(0),
    low: 0,
    high: 0,
    how: Invocation::Call,
    parent: 0,
    invoked_at: 0,
    begun: 0,
    ended: None,
    cell: 0,
};

/// The frame of an event, and the byte of the text that it comes from.
#[derive(Clone, Copy)]
pub struct StepNote {
    pub frame: usize,
    pub at: usize,
}

// A step in 8 bytes: a run has fewer frames, and a text fewer bytes, than 32 bits count.
#[derive(Clone, Copy)]
struct SmallStep {
    frame: u32,
    at: u32,
}

/// The steps of a run's events, in order.
#[derive(Drop)]
pub struct Steps {
    steps: Vec<SmallStep>,
}

impl Steps {
    // Returns an empty list with room for the longest run, so that it never moves as it grows. Memory that
    // isn't written to isn't taken from the system.
    fn new(alloc: Global) -> Result<Steps, AllocError> {
        Ok(Steps {
            steps: Vec::with_capacity(alloc, MAX_EVENTS as usize)?,
        })
    }

    fn push(&mut self, step: StepNote) -> Result<(), AllocError> {
        self.steps.push(SmallStep {
            frame: u32::try_from(step.frame).unwrap_or(u32::MAX),
            at: u32::try_from(step.at).unwrap_or(u32::MAX),
        })?;
        Ok(())
    }

    /// Returns the step of an event, counted from 0, if there is that event.
    pub fn get(&self, index: usize) -> Option<StepNote> {
        match self.steps.get(index) {
            Some(step) => Some(StepNote {
                frame: step.frame as usize,
                at: step.at as usize,
            }),
            None => None,
        }
    }

    /// Returns the number of events.
    pub fn len(&self) -> usize {
        self.steps.len()
    }
}

/// The fault that stops a run, its step, and the last two operands there.
#[derive(Clone, Copy)]
pub struct StopNote {
    pub fault: Fault,
    pub step: StepNote,
    pub left: i64,
    pub right: i64,
}

/// The notes of a run: its frames, the step of each event, its ticks, and where it stops, if it
/// doesn't end.
pub struct Replay {
    pub frames: Vec<FrameNote>,
    pub steps: Steps,
    pub ticks: u32,
    pub stop: Option<StopNote>,
}

// Written out, so that a proof follows one call where notes are dropped.
impl Drop for Replay {
    fn drop(self) {
        let Replay {
            frames: _frames,
            steps: _steps,
            ticks: _ticks,
            stop: _stop,
        } = self;
    }
}

/// Makes the serial run of a program, and notes its frames and the place of each event. Returns its
/// events, its outcome, unless a fault stops it, and the notes. The map has to be that of the
/// program's text.
pub fn follow(
    alloc: Global,
    program: &Program,
    code: &Code,
    input: &Input,
    map: &TextMap,
) -> Result<(Trace, Option<Outcome>, Replay), AllocError>
    requires { Behaves (source program.now) code.now }
{
    let serial = SerialRun::new(alloc, program, code, input)?;
    let mut notes = Notes::new(alloc, program, code, map)?;
    let (trace, outcome) = notes.follow(serial)?;
    let Notes {
        code: _,
        map: _,
        replay,
        frame: _,
        cells: _,
    } = notes;
    Ok((trace, outcome, replay))
}

/// The notes so far, the frame of the next event, and the cells of all frames so far.
#[derive(Drop)]
struct Notes<'a> {
    code: &'a Code,
    map: &'a TextMap,
    replay: Replay,
    frame: usize,
    cells: usize,
}

impl<'a> Notes<'a> {
    // The first frame is noted, before its first event.
    fn new(
        alloc: Global,
        program: &Program,
        code: &'a Code,
        map: &'a TextMap,
    ) -> Result<Notes<'a>, AllocError> {
        let mut notes = Notes {
            code,
            map,
            replay: Replay {
                frames: Vec::new(alloc),
                steps: Steps::new(alloc)?,
                ticks: 0,
                stop: None,
            },
            frame: 0,
            cells: program.globals.len(),
        };
        let first = StepNote { frame: 0, at: 0 };
        notes.begin(Target::Function(program.main), Invocation::Call, first)?;
        Ok(notes)
    }

    // Makes all events of a run. Returns them and the outcome, unless a fault stops it.
    fn follow(
        &mut self,
        mut serial: SerialRun<'_>,
    ) -> Result<(Trace, Option<Outcome>), AllocError> {
        for _step in 0..u64::MAX {
            let target = serial.target();
            let place = serial.place();
            match serial.next()? {
                Next::Made(event) => self.meet(event, place, target)?,
                Next::Ended => {
                    self.replay.ticks = serial.ticks();
                    let (outcome, trace) = serial.finish()?;
                    return Ok((trace, Some(outcome)));
                }
                Next::Stops(fault) => {
                    self.replay.ticks = serial.ticks();
                    self.replay.stop = Some(self.stop(fault, place, serial.last_operands()));
                    return Ok((serial.into_trace(), None));
                }
            }
        }
        // not reached, as a run has at most 1,000,000 events
        Err(AllocError)
    }

    // The step of an instruction of the current frame, by its place in the code. That of a parameter or
    // reducer is where it is declared.
    fn step(&self, place: usize) -> StepNote {
        let at = match self.declared(place) {
            Some(name) => name.at,
            None => self.code.origin(place),
        };
        StepNote {
            frame: self.frame,
            at,
        }
    }

    // The name of the parameter or reducer that an instruction of the current frame begins. Most begin none,
    // so the frame is asked for last.
    fn declared(&self, place: usize) -> Option<&Name> {
        match self.code.instrs().get(place) {
            Some(Instr::Word(number)) => self.names()?.cells.get(*number as usize),
            Some(Instr::Create(reducer)) => match reducer.place {
                ReducerPlace::Global(number) => self.map.reducers.get(number as usize),
                ReducerPlace::Own(_, number) => self.names()?.reducers.get(number as usize),
                ReducerPlace::Given(_, _) => None,
            },
            _ => None,
        }
    }

    // The names in the body of the current frame.
    fn names(&self) -> Option<&BodyMap> {
        let note = self.replay.frames.get(self.frame)?;
        self.map.body(note.body)
    }

    // Notes an event, with the place of its instruction and what the frame that it begins runs.
    fn meet(
        &mut self,
        event: Event,
        place: usize,
        target: Option<Target>,
    ) -> Result<(), AllocError> {
        let step = self.step(place);
        let number = self.replay.steps.len();
        self.replay.steps.push(step)?;
        match (event, target) {
            (Event::Call { .. }, Some(target)) => self.begin(target, Invocation::Call, step),
            (Event::Spawn { .. }, Some(target)) => self.begin(target, Invocation::Spawn, step),
            (Event::End, _) => {
                if let Some(note) = self.replay.frames.get_mut(step.frame) {
                    note.ended = Some(number);
                    self.frame = note.parent;
                }
                Ok(())
            }
            _ => Ok(()),
        }
    }

    // Notes a frame that was invoked at this step. One of several turns of a loop has no cells.
    fn begin(&mut self, target: Target, how: Invocation, step: StepNote) -> Result<(), AllocError> {
        let (body, low, high) = match target {
            Target::Function(number) => (Body::Function(number), 0, 0),
            Target::Loop(part) => (Body::Loop(part.number), part.low, part.high),
        };
        let cells = match self.map.body(body) {
            Some(map) if low.saturating_add(1) >= high => map.cells.len(),
            _ => 0,
        };
        self.frame = self.replay.frames.len();
        self.replay.frames.push(FrameNote {
            body,
            low,
            high,
            how,
            parent: step.frame,
            invoked_at: step.at,
            begun: self.replay.steps.len().saturating_sub(1),
            ended: None,
            cell: self.cells,
        })?;
        self.cells = self.cells.saturating_add(cells);
        Ok(())
    }

    // The fault that stops the run, its step, and the operands that cause it.
    fn stop(&self, fault: Fault, place: usize, last: LastOperands) -> StopNote {
        let (left, right) = match self.code.instrs().get(place) {
            Some(Instr::LoadElement(array) | Instr::StoreElement(array)) => {
                (i64::from(array.first), last.popped)
            }
            Some(Instr::FetchElement(array)) => (i64::from(array.first), last.top),
            Some(Instr::Input) => (0, last.popped),
            _ => (last.popped, last.popped_before),
        };
        StopNote {
            fault,
            step: self.step(place),
            left,
            right,
        }
    }
}

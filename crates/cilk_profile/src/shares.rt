//! Work and span of groups of a run's frames: the frames of one function or loop.

use crate::chains::Chains;
use cilk_findings::replay::FrameNote;
use cilk_findings::scene::Scene;
use cilk_program::program::Body;
use cilk_types::event::Event;
use std::alloc::AllocError;

/// The measures of a group of frames. Strands and events are those that the frames make themselves.
/// Work is the number of events between the begin and the end of one of the frames, whichever frame
/// makes them, each counted once. Span is the length of the longest chain of events from the begin
/// to the end of one of the frames.
#[derive(Clone, Copy)]
pub struct Share {
    pub frames: u64,
    pub strands: u64,
    pub events: u64,
    pub work: u64,
    pub span: u64,
    /// The event after the frames whose work is counted.
    pub upto: usize,
}

pub const NO_SHARE: Share = Share {
    frames: 0,
    strands: 0,
    events: 0,
    work: 0,
    span: 0,
    upto: 0,
};

/// Finds the measures of each function, then of each loop, of a run that no fault stops. Cost and
/// memory: linear in the events and in the functions and loops.
pub fn find_shares(scene: &Scene<'_>, shares: &mut Vec<Share>) -> Result<(), AllocError> {
    let Scene { case, run } = *scene;
    let functions = case.map.functions.len();
    shares.resize(functions.saturating_add(case.map.loops.len()), NO_SHARE)?;
    let chains = Chains::of(case.alloc, &run.trace)?;
    for note in &run.replay.frames {
        if let Some(share) = shares.get_mut(group_of(note.body, functions)) {
            share.add(note, chains.steps.as_slice());
        }
    }
    for index in 0..run.replay.steps.len() {
        if let Some(step) = run.replay.steps.get(index)
            && let Some(note) = run.replay.frames.get(step.frame)
            && let Some(share) = shares.get_mut(group_of(note.body, functions))
        {
            share.events = share.events.saturating_add(1);
            if let Some(Event::Begin { .. } | Event::Resume { .. } | Event::Sync) = run.event(
                index,
            ) {
                share.strands = share.strands.saturating_add(1);
            }
        }
    }
    Ok(())
}

impl Share {
    /// Adds a frame. Its events are added to the group's work unless an outer frame of the group has
    /// them. Only the first frame is begun by the first event.
    pub fn add(&mut self, note: &FrameNote, steps: &[u32]) {
        let last = note.ended.unwrap_or(0);
        let first = match note.begun {
            0 => 0,
            begun => begun.saturating_add(1),
        };
        let upto = last.saturating_add(1);
        let begin = steps.get(first).copied().unwrap_or(0);
        let end = steps.get(last).copied().unwrap_or(0).saturating_add(1);
        self.frames = self.frames.saturating_add(1);
        self.span = self.span.max(u64::from(end.saturating_sub(begin)));
        if first >= self.upto {
            self.work = self.work.saturating_add(upto.saturating_sub(first) as u64);
            self.upto = upto;
        }
    }
}

// The place of a body: functions first, then loops.
fn group_of(body: Body, functions: usize) -> usize {
    match body {
        Body::Function(number) => number as usize,
        Body::Loop(number) => functions.saturating_add(number as usize),
    }
}

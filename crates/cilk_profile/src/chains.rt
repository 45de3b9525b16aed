//! The longest chains of a run's events: a critical path, and the number of events at each step of the
//! span.

use cilk_types::event::Event;
use cilk_types::trace::Trace;
use std::alloc::{AllocError, Global};

/// A chain: its length, and its last event, counted from 0.
#[derive(Clone, Copy)]
pub struct Chain {
    pub length: usize,
    pub last: usize,
}

const NO_CHAIN: Chain = Chain { length: 0, last: 0 };

/// A running or waiting frame: the longest chain up to its last event, and up to the ends of the
/// children that it spawned in its sync block.
#[derive(Clone, Copy)]
pub struct Depth {
    pub own: Chain,
    spawned: Chain,
    is_spawned: bool,
}

/// The chains of a run: for each event its step, which is the length of the longest chain before it,
/// and the event before it on such a chain, if there is one. In the end `depth` has a longest chain. A run
/// has fewer events than 32 bits count.
pub struct Chains {
    pub steps: Vec<u32>,
    pub before: Vec<u32>,
    waiting: Vec<Depth>,
    pub depth: Depth,
}

// Written out, so that a proof follows one call where chains are dropped.
impl Drop for Chains {
    fn drop(self) {
        let Chains {
            steps: _steps,
            before: _before,
            waiting: _waiting,
            depth: _depth,
        } = self;
    }
}

/// Returns for each step of the span of a run that has ended the number of events there. With enough
/// workers all events of a step can be made at the same time. Cost and memory: linear in the events.
pub fn profile(alloc: Global, trace: &Trace) -> Result<Vec<u32>, AllocError> {
    let chains = Chains::of(alloc, trace)?;
    let mut counts: Vec<u32> = Vec::new(alloc);
    counts.resize(chains.depth.own.length, 0)?;
    for step in &chains.steps {
        if let Some(events) = counts.get_mut(*step as usize) {
            *events = events.saturating_add(1);
        }
    }
    Ok(counts)
}

impl Chains {
    /// Finds the chains of a run's events. Cost and memory: linear in the events.
    pub fn of(alloc: Global, trace: &Trace) -> Result<Chains, AllocError> {
        let mut chains = Chains {
            steps: Vec::with_capacity(alloc, trace.len())?,
            before: Vec::with_capacity(alloc, trace.len())?,
            waiting: Vec::new(alloc),
            depth: Depth {
                own: NO_CHAIN,
                spawned: NO_CHAIN,
                is_spawned: false,
            },
        };
        for event in trace.as_slice() {
            chains.meet(event)?;
        }
        Ok(chains)
    }

    // Adds an event to its frame's chain. Code after a call follows the child; code after a spawn runs
    // beside it.
    fn meet(&mut self, event: &Event) -> Result<(), AllocError> {
        let Depth {
            own,
            spawned,
            is_spawned,
        } = self.depth;
        let (ahead, spawned) = match event {
            Event::Sync => (longer(own, spawned), NO_CHAIN),
            _ => (own, spawned),
        };
        let own = Chain {
            length: ahead.length.saturating_add(1),
            last: self.before.len(),
        };
        self.steps.push(small(ahead.length))?;
        self.before.push(small(ahead.last))?;
        self.depth = Depth {
            own,
            spawned,
            is_spawned,
        };
        match event {
            Event::Spawn { .. } | Event::Call { .. } => {
                self.waiting.push(self.depth)?;
                self.depth.spawned = NO_CHAIN;
                self.depth.is_spawned = matches!(event, Event::Spawn { .. });
            }
            Event::End => {
                if let Some(parent) = self.waiting.pop() {
                    self.depth = parent;
                    if is_spawned {
                        self.depth.spawned = longer(parent.spawned, own);
                    } else {
                        self.depth.own = own;
                    }
                }
            }
            _ => {}
        }
        Ok(())
    }
}

// A number of events in 32 bits.
fn small(number: usize) -> u32 {
    u32::try_from(number).unwrap_or(u32::MAX)
}

// The longer chain, or the first.
fn longer(one: Chain, other: Chain) -> Chain {
    if other.length > one.length {
        other
    } else {
        one
    }
}

//! The first reducer-read of each reducer, as a pass over a run's events keeps it.

ghost use Rattle.std.specs.Prelude.{◌≡◌, ℕ, ◌<◌, None, IfOk, OnOk, false, length, slice_index_or};
ghost use Rattle.cilk_types.specs.declared.event.Event.{Event};
ghost use Rattle.cilk_types.specs.declared.event.Instance.{Instance};
ghost use Rattle.cilk_cells.specs.Reads.{instance_read, read_at, first_of_all, KeepsAt};

use cilk_types::event::{Event, Instance, Pos};
use std::alloc::{AllocError, Global};
use std::collections::HashMap;

/// A reducer-read: its strand's peer class and its position.
#[derive(Clone, Copy)]
pub struct Read {
    pub class: u32,
    pub at: Pos,
}

/// The first reducer-read of each reducer met so far.
pub struct FirstReads {
    reads: HashMap<Instance, Read>,
}

// A function of its own, so that a proof follows one call where the reads are dropped.
impl Drop for FirstReads {
    fn drop(self) {
        let FirstReads { reads: _reads } = self;
    }
}

impl FirstReads {
    /// Makes an empty map.
    pub fn new(alloc: Global) -> FirstReads
        ensures { (i : Instance) → read_at result i ≡ None }
    {
        FirstReads {
            reads: HashMap::new(alloc),
        }
    }

    /// Returns the first reducer-read of the instance, and stores `here` as the first if there was
    /// none.
    pub fn meet(&mut self, instance: Instance, here: Read) -> Result<Read, AllocError>
        ensures first { IfOk result (λ r. r ≡ first_of_all self.old instance here) }
        ensures kept { OnOk result (KeepsAt self.old self.new instance (first_of_all self.old instance here)) }
    {
        if let Some(first) = self.reads.get(&instance) {
            return Ok(*first);
        }
        self.reads.insert(instance, here)?;
        Ok(here)
    }
}

/// Tells whether one of the events is a reducer-read.
pub fn has_read(events: &[Event]) -> bool
    ensures { result ≡ false → (k : ℕ) (e : Event) → k < length events.now → instance_read (slice_index_or events.now k e) ≡ None }
{
    for event in events {
        if instance_of(event).is_some() {
            return true;
        }
    }
    false
}

/// Returns the instance that an event reads: a creation, a set and a value are reducer-reads. Other
/// events give `None`.
#[inline(always)]
pub fn instance_of(event: &Event) -> Option<Instance>
    ensures { result ≡ instance_read event.now }
{
    match *event {
        Event::Create { instance } => Some(instance),
        Event::Set { instance, .. } => Some(instance),
        Event::Value { instance, .. } => Some(instance),
        _ => None,
    }
}

//! The trace of a serial run.

ghost use Rattle.std.specs.Prelude.{◌≡◌, ◌==◌, ◌≤◌, length};
ghost use Rattle.cilk_types.specs.declared.limits.TheConstants.{MAX_EVENTS};

use crate::event::Event;
use std::marker::Model;

/// The events of a serial run in order, at most [`MAX_EVENTS`](crate::limits::MAX_EVENTS). Position
/// `p` is the `p`-th event, from 1.
#[derive(Drop)]
pub struct Trace {
    events: Vec<Event>,
}

impl Model for Trace {
    ghost use Rattle.std.specs.Prelude.{◌≤◌, List, length};
    ghost use Rattle.cilk_types.specs.declared.event.Event.{Event};
    ghost use Rattle.cilk_types.specs.declared.limits.TheConstants.{MAX_EVENTS};

    ghost Value = { List Event };

    ghost view = { λ t. t.events.items };

    ghost invariant = { λ t. length t.events.items ≤ MAX_EVENTS };
}

impl Trace {
    /// Makes a trace of these events, without allocating.
    pub fn new(events: Vec<Event>) -> Trace
        requires { length events.items ≤ MAX_EVENTS }
        ensures { result ≡ events.items }
    {
        Trace { events }
    }

    /// Returns the events; position `p` is at index `p - 1`.
    pub fn as_slice(&self) -> &[Event]
        ensures events { result.now ≡ self.now }
        ensures within { length self.now ≤ MAX_EVENTS }
    {
        self.events.as_slice()
    }

    /// Returns the number of events.
    pub fn len(&self) -> usize
        ensures events { result ≡ length self.now }
        ensures within { result ≤ MAX_EVENTS }
    {
        self.events.len()
    }

    /// Tells whether there are no events.
    pub fn is_empty(&self) -> bool
        ensures { result ≡ (length self.now == 0) }
    {
        self.events.is_empty()
    }
}

//! The event order of a run. It is used in contracts only: no value of it is ever made.

use cilk_types::event::Event;
use std::collections::LinkedList;

/// The event order of a run: its events in serial order, the positions of each event's immediate
/// predecessors, the opening values of its cells, and whether the frames request each event on this
/// input. Positions count from 1.
pub struct EventOrder {
    pub events: LinkedList<Event>,
    pub preceding: LinkedList<LinkedList<u64>>,
    pub opening: LinkedList<i64>,
    pub asked: LinkedList<bool>,
}

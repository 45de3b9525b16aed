//! What is kept of a cell: the positions of two accesses.

ghost use Rattle.std.specs.Prelude.{◌≡◌};
ghost use Rattle.cilk_trace.specs.IntervalStacks.{IsAscending};
ghost use Rattle.cilk_trace.specs.Positions.{after, raced, raced_in, raised, renewed};

use crate::histories::Kind;
use crate::intervals::{Intervals, Order};

/// The positions of the write and of the access of greatest Hebrew number of a cell, the earliest of
/// their strand; 0 for none.
#[derive(Clone, Copy)]
pub struct Positions {
    pub write: u32,
    pub access: u32,
}

impl Positions {
    /// No access.
    pub const NONE: Positions = Positions {
        write: 0,
        access: 0,
    };

    /// Takes an access or a clear at the position `here`. Returns the kept access that races with it,
    /// or 0; only then what is kept is said.
    pub fn meet(&mut self, kind: Kind, here: u32, intervals: &Intervals) -> u32
        ensures raced { IsAscending intervals.now.children → result ≡ raced_in intervals.now kind self.old }
        ensures after { IsAscending intervals.now.children → result ≡ 0 → self.new ≡ after intervals.now kind here self.old }
    {
        match kind {
            Kind::Read => {
                self.access = raised(intervals.order(self.access), self.access, here);
                raced(intervals.order(self.write), self.write)
            }
            Kind::Write => {
                let found = raced(intervals.order(self.access), self.access);
                self.write = renewed(intervals, self.write, here);
                self.access = renewed(intervals, self.access, here);
                found
            }
            Kind::Clear => {
                *self = Positions::NONE;
                0
            }
        }
    }
}

// The position to keep after an access at `here`.
fn raised(order: Order, kept: u32, here: u32) -> u32
    ensures { result ≡ raised order kept here }
{
    match order {
        Order::Series => here,
        Order::Same | Order::Parallel => kept,
    }
}

// The same, where the kept access isn't parallel to the current strand.
fn renewed(intervals: &Intervals, kept: u32, here: u32) -> u32
    ensures { result ≡ renewed intervals.now kept here }
{
    if intervals.is_before(kept) {
        here
    } else {
        kept
    }
}

fn raced(order: Order, kept: u32) -> u32
    ensures { result ≡ raced order kept }
{
    match order {
        Order::Series | Order::Same => 0,
        Order::Parallel => kept,
    }
}

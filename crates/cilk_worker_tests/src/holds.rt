//! Strands that are held until others have begun. With enough workers the others begin meanwhile;
//! with fewer they don't.

use crate::cases::{GETS, TURNS};
use crate::gates::Holding;
use crate::shown::left;
use crate::texts::{accepted, planned};
use crate::waits::{Job, in_time};
use cilk_types::event::StrandNo;
use std::alloc::Global;
use std::process::Abort;
use std::sync::Wait;
use std::thread::Threads;

/// A program on its own input, a number of workers, and strands that are held until others have
/// begun.
#[derive(Clone, Copy)]
pub struct Hold {
    text: &'static str,
    numbers: &'static str,
    workers: u32,
    held: &'static [StrandNo],
    awaited: &'static [StrandNo],
    /// The outcome of the run, in lines.
    left: &'static str,
    /// Whether each held strand is released by the awaited ones before its turns run out.
    opens: bool,
}

// The four strands of the turns of a loop.
const FOUR: &[StrandNo] = &[4, 7, 13, 16];

const HOLDS: [Hold; 4] = [
    Hold {
        text: GETS,
        numbers: "",
        workers: 2,
        held: &[2],
        awaited: &[5],
        left: "cells 7\nresult 14\n",
        opens: true,
    },
    Hold {
        text: GETS,
        numbers: "",
        workers: 1,
        held: &[2],
        awaited: &[5],
        left: "cells 7\nresult 14\n",
        opens: false,
    },
    Hold {
        text: TURNS,
        numbers: "4",
        workers: 4,
        held: FOUR,
        awaited: FOUR,
        left: "cells 0 1 2 3 0 0 0\nresult 0\n",
        opens: true,
    },
    Hold {
        text: TURNS,
        numbers: "4",
        workers: 3,
        held: FOUR,
        awaited: FOUR,
        left: "cells 0 1 2 3 0 0 0\nresult 0\n",
        opens: false,
    },
];

/// Checks the run's outcome, and whether the held strands are released in time.
pub fn holds<R: Abort + Threads + Wait + Sync>(rt: &R, alloc: Global, hold: &Hold) {
    let accepted = accepted(rt, alloc, hold.text, hold.numbers);
    let plan = planned(rt, alloc, &accepted);
    let gate = Holding::new(hold.held, hold.awaited);
    let input = accepted.input();
    let Ok(left) = left(rt, alloc, &plan, input, hold.workers, &gate) else {
        panic!(rt; "no memory");
    };
    assert!(rt; left.as_str() == hold.left, "{left}");
    assert!(rt; gate.was_opened() == hold.opens);
}

#[test]
fn strands_are_held(rt: HostRuntime) {
    for hold in HOLDS.as_slice() {
        in_time(&rt, rt.alloc(), &Job::Hold(*hold));
    }
}

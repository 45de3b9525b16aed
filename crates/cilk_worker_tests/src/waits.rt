//! Runs with a time limit.

use crate::holds::{Hold, holds};
use crate::runs::{Series, runs};
use crossbeam_channel::{Receiver, Sender, bounded};
use std::alloc::Global;
use std::process::Abort;
use std::sync::Wait;
use std::thread;
use std::thread::Threads;
use std::time::{Clock, Duration};

// The seconds to wait for the runs of a program.
const PATIENCE: u64 = 30;

/// Runs of a program with a time limit.
#[derive(Clone, Copy)]
pub enum Job {
    Series(Series),
    Hold(Hold),
}

// Makes the runs, then reports their end.
fn makes_and_tells<R: Abort + Threads + Wait + Sync>(
    rt: &R,
    alloc: Global,
    job: &Job,
    ended: &Sender<bool, Global>,
) {
    match job {
        Job::Series(series) => runs(rt, alloc, series),
        Job::Hold(hold) => holds(rt, alloc, hold),
    }
    assert!(rt; ended.send(rt, true).is_ok());
}

// Fails the test if the runs don't end in time.
fn awaits<R: Abort + Wait + Clock>(rt: &R, ended: &Receiver<bool, Global>) {
    assert!(rt;
        ended
            .recv_timeout(rt, Duration::from_secs(PATIENCE))
            .is_ok(),
        "no end in {PATIENCE} seconds"
    );
}

/// Makes the runs; fails the test if they don't end in time.
pub fn in_time<R: Abort + Threads + Wait + Clock + Sync>(rt: &R, alloc: Global, job: &Job) {
    let Ok((tell, hear)) = bounded(alloc, 1) else {
        panic!(rt; "no memory for a message");
    };
    thread::join(
        rt,
        || makes_and_tells(rt, alloc, job, &tell),
        || awaits(rt, &hear),
    );
}

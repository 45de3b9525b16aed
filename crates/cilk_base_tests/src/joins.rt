//! The pieces that a join keeps while four stolen children arrive.

use cilk_hypermap::hypermap::Hypermap;
use cilk_join::join::{Arrival, Join};
use cilk_monoid::kind::MonoidKind;
use cilk_types::event::Instance;
use cilk_types::outcome::Final;
use std::alloc::{AllocError, Global};

// A piece with one printed number.
fn printed(alloc: Global, number: u32) -> Result<Hypermap, AllocError> {
    let mut views = Hypermap::new(alloc);
    views.print(alloc, i64::from(number))?;
    Ok(views)
}

fn steal(join: &mut Join, key: u32) -> Result<(), AllocError> {
    if join.open(key) {
        join.steal(key)
    } else {
        Err(AllocError)
    }
}

// A stolen child's piece arrives, which prints its key. Returns the number of pieces that are kept,
// if the block still waits.
fn child(alloc: Global, join: &mut Join, key: u32) -> Result<Option<usize>, AllocError> {
    let views = printed(alloc, key)?;
    if !join.awaits(key) {
        return Err(AllocError);
    }
    match join.arrive(alloc, key, false, views) {
        Ok(Arrival::Waits) => Ok(Some(join.parts())),
        Ok(Arrival::Passes(_)) => Ok(None),
        Err(_) => Err(AllocError),
    }
}

// The sync's own piece arrives, which prints its key. Returns the output of the whole block, if it
// passes.
fn last(alloc: Global, join: &mut Join, key: u32) -> Result<Option<Final>, AllocError> {
    let views = printed(alloc, key)?;
    if !join.fresh(key) {
        return Err(AllocError);
    }
    match join.arrive(alloc, key, true, views) {
        Ok(Arrival::Waits) => Ok(None),
        Ok(Arrival::Passes(mut views)) => Ok(views.take(Instance::OUTPUT, MonoidKind::Append)),
        Err(_) => Err(AllocError),
    }
}

fn is_list(value: Option<Final>, numbers: &[i64]) -> bool {
    match value {
        Some(Final::List(list)) => list.as_slice() == numbers,
        _ => false,
    }
}

#[test]
fn arrivals_are_merged_early_and_in_serial_order(rt: HostRuntime) -> Result<(), AllocError> {
    let alloc = rt.alloc();
    let mut join = Join::new(alloc);
    for key in [1, 2, 3, 4] {
        steal(&mut join, key)?;
    }
    for (key, kept) in [(4, 1), (2, 2), (3, 1), (1, 1)] {
        assert_eq!(rt; child(alloc, &mut join, key)?, Some(kept));
    }
    let passed = last(alloc, &mut join, 5)?;
    assert!(rt; is_list(passed, [1, 2, 3, 4, 5].as_slice()));
    Ok(())
}

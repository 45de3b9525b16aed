//! The runs that are written out are those of the programs' texts.

use crate::others::{squares, squares_plan, turns, turns_plan};
use crate::texts::{SQUARES, TURNS, accepted};
use cilk_checker::accepted::Accepted;
use cilk_plan::program_plan::plan;
use cilk_tree::plan::Plan;
use cilk_types::trace::Trace;
use std::alloc::Global;
use std::test::Fail;

// Whether the accepted run of a text has these events.
fn is_run(alloc: Global, text: &str, numbers: &str, events: &Trace) -> bool {
    match accepted(alloc, text, numbers) {
        Some(accepted) => accepted.trace().as_slice() == events.as_slice(),
        None => false,
    }
}

// Whether the plan of an accepted run has as many events as this one and the same initial cells.
fn has_plan(alloc: Global, accepted: &Accepted, written: &Plan) -> bool {
    match plan(alloc, accepted) {
        Ok(plan) => {
            plan.events().count() == written.count() && plan.events().opening() == written.opening()
        }
        Err(_) => false,
    }
}

fn is_plan(alloc: Global, text: &str, numbers: &str, written: &Plan) -> bool {
    match accepted(alloc, text, numbers) {
        Some(accepted) => has_plan(alloc, &accepted, written),
        None => false,
    }
}

#[test]
fn runs_are_written_out(rt: HostRuntime) -> Result<(), Fail> {
    let alloc = rt.alloc();
    assert!(rt; is_run(alloc, SQUARES, "1 2 3 4", &squares(alloc, 1, 4, 9, 16)?));
    assert!(rt; is_run(alloc, SQUARES, "5 6 7 8", &squares(alloc, 25, 36, 49, 64)?));
    assert!(rt; is_run(alloc, TURNS, "1", &turns(alloc, 1)?));
    assert!(rt; is_plan(alloc, SQUARES, "1 2 3 4", &squares_plan(alloc)?));
    assert!(rt; is_plan(alloc, TURNS, "1", &turns_plan(alloc)?));
    Ok(())
}

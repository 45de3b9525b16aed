//! The parallel strands of a worked program, by their labels.

use crate::playing::{RACE, no_input};
use cilk_checker::judge::program;
use cilk_labels::{Labels, label};
use cilk_serial::run::run;
use cilk_tree::building::tree_of;
use std::alloc::{AllocError, Global};
use std::process::Abort;

// The labels of the strands of a text's run, if it has one.
fn labels_of(alloc: Global, text: &str) -> Option<Labels> {
    let program = program(alloc, text.as_bytes()).ok()?;
    let (_, trace) = run(alloc, &program, &no_input(alloc)).ok()?;
    let tree = tree_of(alloc, &trace).ok()?;
    label(alloc, &tree).ok()
}

// The pairs of parallel strands, each in the order of the run.
fn pairs(rt: &impl Abort, alloc: Global, labels: &Labels) -> Result<Vec<(u32, u32)>, AllocError> {
    let count = labels.count();
    assert!(rt; count < 1000);
    let mut pairs = Vec::new(alloc);
    for earlier in 1..count + 1 {
        for later in 1..count + 1 {
            if earlier < later && labels.parallel(earlier, later) {
                pairs.push((earlier, later))?;
            }
        }
    }
    Ok(pairs)
}

#[test]
fn a_child_is_parallel_to_the_rest_of_its_block_alone(rt: HostRuntime) -> Result<(), AllocError> {
    let Some(labels) = labels_of(rt.alloc(), RACE) else {
        return Err(AllocError);
    };
    assert!(rt; labels.count() == 6);
    let pairs = pairs(&rt, rt.alloc(), &labels)?;
    assert!(rt; pairs.as_slice() == [(2, 4), (3, 4)].as_slice());
    Ok(())
}

//! Computes the columns that a right certificate of a run has.

ghost use Rattle.std.specs.Prelude.{◌≡◌, ◌<◌, ◌^◌, IfOk, length};
ghost use Rattle.cilk_tree.specs.Shape.{Shape, Spells};
ghost use Rattle.cilk_tree.specs.Tree.{tree};
ghost use Rattle.cilk_tree.specs.Hebrew.{hebrews};
ghost use Rattle.cilk_peers.specs.Peers.{class_numbers};
ghost use Rattle.cilk_checker.specs.Columns.{HasColumns};
ghost use Rattle.cilk_checker.specs.Tallies.{AreFew};

use crate::right::Right;
use cilk_cert_maker::column::Columns;
use cilk_cert_maker::columns::columns;
use cilk_cert_maker::listing_laws::columns_are_counted;
use cilk_labels::{Labels, label};
use cilk_peers::class::Classes;
use cilk_peers::walk::classes;
use cilk_tree::building::tree_of;
use cilk_types::trace::Trace;
use std::alloc::{AllocError, Global};

/// Computes the columns of a run that ended without a fault. Cost: linear in the events.
pub fn right_of(alloc: Global, trace: Trace) -> Result<Right, AllocError>
    requires { (s : Shape) × Spells s trace }
    ensures few { IfOk result (λ r. AreFew r) }
    ensures trace { IfOk result (λ r. r.trace ≡ trace) }
    ensures columns { IfOk result (λ r. (s : Shape) → Spells s trace → HasColumns s r) }
{
    let (labels, classes) = labelled(alloc, &trace)?;
    let Columns { frames, owners } = columns(alloc, &trace)?;
    columns_are_counted();
    let _count = trace.len();
    Ok(Right {
        frames,
        owners,
        labels,
        classes,
        trace,
    })
}

/// Returns the columns of a run that a fault stopped: only its events, the others empty.
pub fn events_of(alloc: Global, trace: Trace) -> Result<Right, AllocError>
    ensures few { IfOk result (λ r. AreFew r) }
    ensures trace { IfOk result (λ r. r.trace ≡ trace) }
{
    let none = Trace::new(Vec::new(alloc));
    let (labels, classes) = labelled(alloc, &none)?;
    Ok(Right {
        frames: Vec::new(alloc),
        owners: Vec::new(alloc),
        labels,
        classes,
        trace,
    })
}

/// Computes the Hebrew numbers and the peer classes of the strands. The tree is dropped here.
pub(crate) fn labelled(alloc: Global, trace: &Trace) -> Result<(Labels, Classes), AllocError>
    ensures labels { IfOk result (λ r. (s : Shape) → Spells s trace.now → r.0 ≡ hebrews (tree s) 1) }
    ensures classes { IfOk result (λ r. (s : Shape) → Spells s trace.now → r.1 ≡ class_numbers (tree s) 0 1) }
    ensures few_labels { IfOk result (λ r. length r.0 < 2 ^ 32) }
    ensures few_classes { IfOk result (λ r. length r.1 < 2 ^ 32) }
{
    let tree = tree_of(alloc, trace)?;
    let labels = label(alloc, &tree)?;
    let classes = classes(alloc, &tree)?;
    let _labelled = labels.count();
    let _classed = classes.count();
    Ok((labels, classes))
}

//! The burdened span of a run.

ghost use Rattle.std.specs.Prelude.{◌≡◌, ◌≤◌, List, length, IfOk};
ghost use Rattle.cilk_types.specs.declared.event.Event.{Event};
ghost use Rattle.cilk_types.specs.declared.limits.TheConstants.{MAX_EVENTS};
ghost use Rattle.cilk_tree.specs.Shape.{Shape, Spells};
ghost use Rattle.cilk_tree.specs.Tree.{tree as tree_of_shape, preorder};
ghost use Rattle.cilk_tree.specs.Spans.{top, below};
ghost use Rattle.cilk_profile.specs.Burdened.{IsBurdenedSpan, joined};

use cilk_tree::tree::{Node, SpTree};
use cilk_types::stack::Stack;
use std::alloc::{AllocError, Global};

/// What a steal is assumed to cost, in events: the burden of each spawn on a path. Cilkview assumes
/// 15,000 machine instructions.
pub const BURDEN: u64 = 1_000;

/// Returns the burdened span of a run with this tree: the weight of its heaviest path, on which an
/// event weighs 1, and the return or the continuation of a spawn [`BURDEN`] (He, Leiserson and
/// Leiserson 2010). Cost and memory: linear in the strands.
pub fn burdened_span(alloc: Global, tree: &SpTree) -> Result<u64, AllocError>
    ensures { IfOk result (λ n. (s : Shape) (events : List Event) → Spells s events → length events ≤ MAX_EVENTS
        → tree.now ≡ preorder (tree_of_shape s) → IsBurdenedSpan BURDEN (tree_of_shape s) n) }
{
    let nodes = tree.as_slice();
    let mut spans = Stack::new(alloc);
    let mut place = nodes.len();
    while place > 0 {
        place -= 1;
        join(&nodes[place], &mut spans)?;
    }
    Ok(pop(&mut spans))
}

// Replaces the burdened spans of a node's parts by that of the node.
fn join(node: &Node, spans: &mut Stack<u64>) -> Result<(), AllocError>
    ensures { IfOk result (λ _. spans.new ≡ joined BURDEN node.now spans.old) }
{
    match *node {
        Node::Strand { events } => spans.push(u64::from(events))?,
        Node::Series { .. } => {
            let left = pop(spans);
            let right = pop(spans);
            spans.push(left.saturating_add(right))?;
        }
        Node::Parallel { .. } => {
            let left = pop(spans);
            let right = pop(spans);
            spans.push(left.max(right).saturating_add(BURDEN))?;
        }
    }
    Ok(())
}

// Pops a number; 0 if the stack is empty.
fn pop(spans: &mut Stack<u64>) -> u64
    ensures number { result ≡ top spans.old }
    ensures spans { spans.new ≡ below spans.old }
{
    match spans.pop() {
        Some(span) => span,
        None => 0,
    }
}

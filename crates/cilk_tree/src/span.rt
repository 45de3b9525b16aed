//! The span of a run.

ghost use Rattle.std.specs.Prelude.{◌≡◌, ◌≤◌, length, IfOk};
ghost use Rattle.cilk_tree.specs.Shape.{Shape, Spells};
ghost use Rattle.cilk_tree.specs.Tree.{tree as tree_of_shape, preorder};
ghost use Rattle.cilk_tree.specs.Span.{IsSpan};
ghost use Rattle.cilk_tree.specs.Spans.{top, below, joined};

use crate::tree::{Node, SpTree};
use cilk_types::stack::Stack;
use cilk_types::trace::Trace;
use std::alloc::{AllocError, Global};

/// Returns the span of a run: the length of the longest chain of events in which each is before the
/// next in every schedule. The tree must be that of the trace; for another tree the result is only
/// known to be at most the trace's length. Cost and memory: linear in the strands.
pub fn span(alloc: Global, trace: &Trace, tree: &SpTree) -> Result<u64, AllocError>
    ensures within { IfOk result (λ n. n ≤ length trace.now) }
    ensures span { IfOk result (λ n. (s : Shape) → Spells s trace.now → tree.now ≡ preorder (tree_of_shape s) → IsSpan (tree_of_shape s) trace.now n) }
{
    let nodes = tree.as_slice();
    let mut spans = Stack::new(alloc);
    let mut place = nodes.len();
    while place > 0 {
        place -= 1;
        join(&nodes[place], &mut spans)?;
    }
    let most = trace.len() as u64;
    Ok(pop(&mut spans).min(most))
}

// Replaces the spans of a node's parts by the node's span.
fn join(node: &Node, spans: &mut Stack<u64>) -> Result<(), AllocError>
    ensures { IfOk result (λ _. spans.new ≡ joined node.now spans.old) }
{
    match *node {
        Node::Strand { events } => spans.push(u64::from(events))?,
        Node::Series { .. } => {
            let left = pop(spans);
            let right = pop(spans);
            spans.push(left.saturating_add(right))?;
        }
        Node::Parallel { .. } => {
            let left = pop(spans);
            let right = pop(spans);
            spans.push(left.max(right))?;
        }
    }
    Ok(())
}

// Pops a number; 0 if the stack is empty.
fn pop(spans: &mut Stack<u64>) -> u64
    ensures number { result ≡ top spans.old }
    ensures spans { spans.new ≡ below spans.old }
{
    match spans.pop() {
        Some(span) => span,
        None => 0,
    }
}

//! The pass that finds all peer classes.

ghost use Rattle.std.specs.Prelude.{◌≡◌, ◌+◌, ◌<◌, ◌≤◌, ◌^◌, ◌∷◌, ◌++◌, List, IfOk, vec_len};
ghost use Rattle.cilk_tree.specs.Tree.{Tree, preorder};
ghost use Rattle.cilk_tree.specs.declared.tree.Node.{Node};
ghost use Rattle.cilk_peers.specs.Peers.{class_numbers};
ghost use Rattle.cilk_peers.specs.Walk.{classes_from};

use crate::class::Classes;
use cilk_tree::tree::{Node, SpTree};
use cilk_types::stack::Stack;
use std::alloc::{AllocError, Global};

/// Returns the peer classes of a tree's strands. Cost and memory: linear in the strands.
pub fn classes(alloc: Global, tree: &SpTree) -> Result<Classes, AllocError>
    ensures { IfOk result (λ c. (t : Tree) → tree.now ≡ preorder t → c ≡ class_numbers t 0 1) }
{
    let mut numbers = Vec::new(alloc);
    let mut waiting = Stack::new(alloc);
    waiting.push(0)?;
    for node in tree.as_slice() {
        visit(node, &mut waiting, &mut numbers)?;
    }
    Ok(Classes::new(numbers))
}

// Visits a node, whose class is on top of the stack.
fn visit(node: &Node, waiting: &mut Stack<u32>, numbers: &mut Vec<u32>) -> Result<(), AllocError>
    requires { vec_len numbers.old + 1 < 2 ^ 32 }
    ensures numbered { IfOk result (λ _. (rest : List Node) → numbers.new.items ++ classes_from rest (vec_len numbers.new + 1) waiting.new ≡ numbers.old.items ++ classes_from (node.now ∷ rest) (vec_len numbers.old + 1) waiting.old) }
    ensures grows { IfOk result (λ _. vec_len numbers.new ≤ vec_len numbers.old + 1) }
{
    let Some(class) = waiting.pop() else {
        return Ok(());
    };
    match *node {
        Node::Strand { .. } => numbers.push(class)?,
        Node::Series { .. } => {
            waiting.push(class)?;
            waiting.push(class)?;
        }
        Node::Parallel { left, .. } => {
            let first = numbers.len() as u32 + 1;
            waiting.push(first.saturating_add(left))?;
            waiting.push(first)?;
        }
    }
    Ok(())
}

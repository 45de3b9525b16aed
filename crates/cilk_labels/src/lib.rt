//! Labels of strands, by which two comparisons tell whether two strands of a run may run in
//! parallel.
//!
//! Each strand has two numbers. The first is its place in serial order. The second is its Hebrew
//! number: its place when the series-parallel tree is walked with the right part of each P node
//! before the left part, and the left part of each S node before the right. At an S node both walks
//! agree, and at a P node they disagree. So two strands are parallel exactly where the two orders
//! disagree. (Bender, Fineman, Gilbert and Leiserson 2004, "On-the-fly maintenance of
//! series-parallel relationships in fork-join multithreaded programs", section 2. There the two
//! orders are kept while the program runs; here the tree is known, and the numbers are plain
//! integers.)
//!
//! Among the earlier strands, those parallel to a strand are the ones with a greater Hebrew number,
//! so a race detector can keep the greatest alone.
//!
//! | Call | Result |
//! |---|---|
//! | [`label`] | the [`Labels`] of all strands of a tree, in one pass over its nodes |
//! | [`Labels::parallel`] | whether two strands are parallel, in constant time |
//! | [`Labels::hebrew`] | the Hebrew number of a strand |
//! | [`Labels::count`] | the number of strands |
//!
//! ```text
//! let tree = tree_of(alloc, &trace)?;
//! let labels = label(alloc, &tree)?;
//! labels.parallel(2, 4)                      // may strands 2 and 4 run in parallel?
//! ```
#![tactic(auto)]

ghost use Rattle.std.specs.Prelude.{◌≡◌, ◌↔◌, ◌+◌, ◌≤◌, ◌-◌, ◌<◌, ◌^◌, ◌∷◌, ◌++◌, List, IsTrue, IfOk, length, slice_index, vec_len};
ghost use Rattle.cilk_tree.specs.Hebrew.{hebrews};
ghost use Rattle.cilk_tree.specs.Parallel.{Parallel};
ghost use Rattle.cilk_tree.specs.Tree.{Tree, preorder};
ghost use Rattle.cilk_tree.specs.declared.tree.Node.{Node};
ghost use Rattle.cilk_labels.specs.Walk.{numbers_from};

use cilk_tree::tree::{Node, SpTree};
use cilk_types::event::StrandNo;
use cilk_types::stack::Stack;
use std::alloc::{AllocError, Global};
use std::marker::Model;

/// The Hebrew numbers of a run's strands, in serial order.
#[derive(Drop)]
pub struct Labels {
    numbers: Vec<u32>,
}

impl Model for Labels {
    ghost use Rattle.std.specs.Prelude.{ℕ, List, ◌<◌, ◌^◌, vec_len};

    ghost Value = { List ℕ };

    ghost view = { λ l. l.numbers.items };

    ghost invariant = { λ l. vec_len l.numbers < 2 ^ 32 };
}

impl Labels {
    /// Returns the number of strands.
    pub fn count(&self) -> u32
        ensures { result ≡ length self.now }
    {
        self.numbers.len() as u32
    }

    /// Returns the Hebrew number of a strand.
    pub fn hebrew(&self, strand: StrandNo) -> u32
        requires first { 1 ≤ strand }
        requires last { strand ≤ length self.now }
        ensures { result ≡ slice_index self.now (strand - 1) }
    {
        self.numbers[strand as usize - 1]
    }

    /// Tells whether two strands may run in parallel.
    pub fn parallel(&self, one: StrandNo, other: StrandNo) -> bool
        requires one_first { 1 ≤ one }
        requires one_last { one ≤ length self.now }
        requires other_first { 1 ≤ other }
        requires other_last { other ≤ length self.now }
        ensures { (t : Tree) → self.now ≡ hebrews t 1 → IsTrue result ↔ Parallel t 1 one other }
    {
        let is_earlier = one < other;
        let is_less = self.hebrew(one) < self.hebrew(other);
        is_earlier != is_less
    }
}

/// Numbers the strands of a tree. Cost and memory: linear in the strands.
pub fn label(alloc: Global, tree: &SpTree) -> Result<Labels, AllocError>
    ensures { IfOk result (λ l. (t : Tree) → tree.now ≡ preorder t → l ≡ hebrews t 1) }
{
    let mut numbers = Vec::new(alloc);
    let mut starts = Stack::new(alloc);
    starts.push(1)?;
    for node in tree.as_slice() {
        visit(node, &mut starts, &mut numbers)?;
    }
    Ok(Labels { numbers })
}

// Visits a node, whose first number is on top of the stack.
fn visit(node: &Node, starts: &mut Stack<u32>, numbers: &mut Vec<u32>) -> Result<(), AllocError>
    ensures numbered { IfOk result (λ _. (rest : List Node) → numbers.new.items ++ numbers_from rest starts.new ≡ numbers.old.items ++ numbers_from (node.now ∷ rest) starts.old) }
    ensures grows { IfOk result (λ _. vec_len numbers.new ≤ vec_len numbers.old + 1) }
{
    let Some(start) = starts.pop() else {
        return Ok(());
    };
    match *node {
        Node::Strand { .. } => numbers.push(start)?,
        Node::Series { left } => {
            starts.push(start.saturating_add(left))?;
            starts.push(start)?;
        }
        Node::Parallel { right, .. } => {
            starts.push(start)?;
            starts.push(start.saturating_add(right))?;
        }
    }
    Ok(())
}

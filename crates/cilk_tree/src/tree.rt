//! The series-parallel tree as a list of nodes.

ghost use Rattle.std.specs.Prelude.{◌≡◌, ◌≤◌, ◌<◌, ◌^◌, length};

use std::marker::Model;

/// A node of a series-parallel tree. `left` and `right` are the numbers of strands of its two
/// parts.
#[derive(Clone, Copy)]
pub enum Node {
    /// A leaf: a strand of `events` events.
    Strand { events: u32 },
    /// The left part before the right part.
    Series { left: u32 },
    /// The two parts in parallel. The left part is a spawned child.
    Parallel { left: u32, right: u32 },
}

/// A series-parallel tree: its nodes as a list in preorder, so the leaves are in serial order.
#[derive(Drop)]
pub struct SpTree {
    nodes: Vec<Node>,
}

impl Model for SpTree {
    ghost use Rattle.std.specs.Prelude.{List, ◌<◌, ◌^◌, vec_len};
    ghost use Rattle.cilk_tree.specs.declared.tree.Node.{Node};

    ghost Value = { List Node };

    ghost view = { λ t. t.nodes.items };

    ghost invariant = { λ t. vec_len t.nodes < 2 ^ 32 };
}

impl SpTree {
    /// Makes the tree of these nodes, without allocating.
    pub fn new(nodes: Vec<Node>) -> SpTree
        requires { length nodes.items < 2 ^ 32 }
        ensures { result ≡ nodes.items }
    {
        SpTree { nodes }
    }

    /// Returns the nodes, fewer than 2^32.
    pub fn as_slice(&self) -> &[Node]
        ensures nodes { result.now ≡ self.now }
        ensures few { length self.now < 2 ^ 32 }
    {
        self.nodes.as_slice()
    }
}

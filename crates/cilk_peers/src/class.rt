//! The peer classes of a run.

ghost use Rattle.std.specs.Prelude.{◌≡◌, ◌↔◌, ◌≤◌, ◌-◌, ◌<◌, ◌^◌, IsTrue, length, slice_index};
ghost use Rattle.cilk_tree.specs.Shape.{Shape};
ghost use Rattle.cilk_tree.specs.Tree.{tree};
ghost use Rattle.cilk_peers.specs.Peers.{class_numbers, SamePeers};

use cilk_types::event::StrandNo;
use std::marker::Model;

/// The peer classes of a run's strands, in serial order.
#[derive(Drop)]
pub struct Classes {
    numbers: Vec<u32>,
}

impl Model for Classes {
    ghost use Rattle.std.specs.Prelude.{ℕ, List, ◌<◌, ◌^◌, vec_len};

    ghost Value = { List ℕ };

    ghost view = { λ c. c.numbers.items };

    ghost invariant = { λ c. vec_len c.numbers < 2 ^ 32 };
}

impl Classes {
    // Makes the classes from their numbers.
    pub(crate) fn new(numbers: Vec<u32>) -> Classes
        requires { length numbers.items < 2 ^ 32 }
        ensures { result ≡ numbers.items }
    {
        Classes { numbers }
    }

    /// Returns the number of strands.
    pub fn count(&self) -> u32
        ensures { result ≡ length self.now }
    {
        self.numbers.len() as u32
    }

    /// Returns the class of a strand: the first strand of the lowest child of a P node that holds
    /// it, or 0.
    pub fn class(&self, strand: StrandNo) -> u32
        requires first { 1 ≤ strand }
        requires last { strand ≤ length self.now }
        ensures { result ≡ slice_index self.now (strand - 1) }
    {
        self.numbers[strand as usize - 1]
    }

    /// Tells whether two strands have the same peers.
    pub fn same_peers(&self, one: StrandNo, other: StrandNo) -> bool
        requires one_first { 1 ≤ one }
        requires one_last { one ≤ length self.now }
        requires other_first { 1 ≤ other }
        requires other_last { other ≤ length self.now }
        ensures { (s : Shape) → self.now ≡ class_numbers (tree s) 0 1 → IsTrue result ↔ SamePeers (tree s) one other }
    {
        self.class(one) == self.class(other)
    }
}

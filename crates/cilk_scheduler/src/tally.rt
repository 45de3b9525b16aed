//! A list of numbers with prefix sums.

ghost use Rattle.std.specs.Prelude.{◌≡◌, ◌+◌, ◌-◌, ◌<◌, ◌≤◌, ◌^◌, [], sum, take, set, max, replicate, length, slice_index, IfOk};

use std::alloc::{AllocError, Global};
use std::marker::Model;

/// A list of numbers with a tree of sums over it. Finding a number by its prefix sum, raising one
/// and lowering one costs the logarithm of their count.
#[derive(Drop)]
pub struct Tally {
    // Node 1 is the sum of all, and node `i` the sum of the nodes `2i` and `2i + 1`. The numbers
    // are the nodes from `count` on.
    nodes: Vec<usize>,
    count: usize,
}

impl Model for Tally {
    ghost use Rattle.std.specs.Prelude.{ℕ, List, drop};
    ghost use Rattle.cilk_scheduler.specs.Tallies.{IsTree};

    ghost Value = { List ℕ };

    ghost view = { λ t. drop t.count t.nodes.items };

    ghost invariant = { λ t. IsTree t.nodes.items t.count };
}

impl Tally {
    /// Returns an empty list.
    pub fn new(alloc: Global) -> Tally
        ensures { result ≡ [] }
    {
        Tally {
            nodes: Vec::new(alloc),
            count: 0,
        }
    }

    /// Returns a list of zeros of twice this one's length, or of one zero if this one is empty.
    pub fn zeros_of_twice(&self, alloc: Global) -> Result<Tally, AllocError>
        ensures { IfOk result (λ t. t ≡ replicate (max 1 (length self.now + length self.now)) 0) }
    {
        let count = self.nodes.len().max(1);
        let Some(length) = count.checked_mul(2) else {
            return Err(AllocError);
        };
        let nodes = Vec::from_elem(alloc, 0, length)?;
        Ok(Tally { nodes, count })
    }

    /// Returns how many numbers there are.
    pub fn len(&self) -> usize
        ensures { result ≡ length self.now }
    {
        self.count
    }

    /// Returns the sum of all numbers.
    pub fn total(&self) -> usize
        ensures { result ≡ sum self.now }
    {
        match self.nodes.get(1) {
            Some(total) => *total,
            None => 0,
        }
    }

    /// Returns the index of the number with which the prefix sum first exceeds `rest`.
    pub fn find(&self, rest: usize) -> usize
        requires { rest < sum self.now }
        ensures here { result < length self.now }
        ensures before { sum (take result self.now) ≤ rest }
        ensures above { rest < sum (take result self.now) + slice_index self.now result }
    {
        let mut rest = rest;
        let mut node = 1;
        'down: while node < self.count {
            let left = self.nodes[node + node];
            node += node;
            if rest >= left {
                rest -= left;
                node += 1;
            }
        }
        node - self.count
    }

    /// Adds 1 to a number.
    pub fn raise(&mut self, at: usize)
        requires here { at < length self.old }
        requires few { sum self.old < 2 ^ 63 }
        ensures { self.new ≡ set self.old at (slice_index self.old at + 1) }
    {
        let leaf = self.count + at;
        self.nodes[leaf] += 1;
        let mut node = leaf / 2;
        'up: while node > 0 {
            self.nodes[node] += 1;
            node /= 2;
        }
    }

    /// Subtracts 1 from a number.
    pub fn lower(&mut self, at: usize)
        requires here { at < length self.old }
        requires some { 0 < slice_index self.old at }
        ensures { self.new ≡ set self.old at (slice_index self.old at - 1) }
    {
        let leaf = self.count + at;
        self.nodes[leaf] -= 1;
        let mut node = leaf / 2;
        'up: while node > 0 {
            self.nodes[node] -= 1;
            node /= 2;
        }
    }
}

//! The tree of a list of marks, built from the last mark to the first. A trace's marks are those of its events.
//!
//! In this direction a node comes after the nodes of its parts, and the right part before the left.
//! So the pass needs only a stack of the frames whose `end` was met, with three strand counts each.

ghost use Rattle.std.specs.Prelude.{◌≡◌, ◌+◌, ◌<◌, ◌≤◌, ◌^◌, length, IfOk};
ghost use Rattle.cilk_tree.specs.Shape.{Shape, Spells, SpellsMarks};
ghost use Rattle.cilk_tree.specs.Tree.{tree, preorder};
ghost use Rattle.cilk_tree.specs.Building.{opening, place_at, step, strand_closed, block_closed, frame_closed};

use crate::mark::Mark;
use crate::tree::{Node, SpTree};
use cilk_types::stack::Stack;
use cilk_types::trace::Trace;
use std::alloc::{AllocError, Global};
use std::marker::Model;

/// The position of the pass in a frame, as three counts of the strands met so far: at the end of
/// the frame, at the end of its current block, and at the end of its current child.
#[derive(Clone, Copy)]
pub struct StrandCounts {
    pub frame: u32,
    pub block: u32,
    pub child: u32,
}

impl StrandCounts {
    // At the end of a frame, with so many strands met.
    #[inline(always)]
    fn at(strands: u32) -> StrandCounts
        ensures { result ≡ place_at strands }
    {
        StrandCounts {
            frame: strands,
            block: strands,
            child: strands,
        }
    }
}

/// A tree under construction: its nodes so far, the outer frames, the current frame, the number of
/// strands met, and the number of events met of the current strand.
#[derive(Drop)]
pub struct Building {
    nodes: Stack<Node>,
    outer: Stack<StrandCounts>,
    place: StrandCounts,
    strands: u32,
    events: u32,
}

impl Model for Building {
    ghost use Rattle.cilk_tree.specs.Built.{Built};

    ghost Value = { Built };

    ghost view = { λ b. record { nodes = b.nodes; outer = b.outer; place = b.place; strands = b.strands; events = b.events } };
}

impl Building {
    fn new(alloc: Global) -> Building
        ensures { result ≡ opening }
    {
        Building {
            nodes: Stack::new(alloc),
            outer: Stack::new(alloc),
            place: StrandCounts::at(0),
            strands: 0,
            events: 0,
        }
    }

    // Closes the current strand: in series with the rest of its block, if there is one.
    #[inline(always)]
    fn close_strand(&mut self) -> Result<(), AllocError>
        requires { self.old.strands + 1 < 2 ^ 32 }
        ensures { IfOk result (λ _. self.new ≡ strand_closed self.old) }
    {
        let is_alone = self.strands == self.place.block;
        self.nodes.push(Node::Strand {
            events: self.events,
        })?;
        if !is_alone {
            self.nodes.push(Node::Series { left: 1 })?;
        }
        self.strands += 1;
        self.events = 0;
        Ok(())
    }

    // Closes the current block: in series with the later blocks of its frame, if there are any.
    #[inline(always)]
    fn close_block(&mut self) -> Result<(), AllocError>
        ensures { IfOk result (λ _. self.new ≡ block_closed self.old) }
    {
        if self.place.block != self.place.frame {
            self.nodes.push(Node::Series {
                left: self.strands.saturating_sub(self.place.block),
            })?;
        }
        Ok(())
    }

    // Meets the event before those already met.
    #[inline(always)]
    fn step(&mut self, mark: Mark) -> Result<(), AllocError>
        requires strands { self.old.strands + 1 < 2 ^ 32 }
        requires events { self.old.events + 1 < 2 ^ 32 }
        ensures { IfOk result (λ _. self.new ≡ step mark self.old) }
    {
        self.events += 1;
        match mark {
            Mark::Plain => {}
            Mark::End => {
                self.outer.push(self.place)?;
                self.place = StrandCounts::at(self.strands);
            }
            Mark::Begin => {
                self.close_strand()?;
                self.close_block()?;
                self.leave();
            }
            Mark::Sync => {
                self.close_strand()?;
                self.close_block()?;
                self.place.block = self.strands;
            }
            Mark::Resume => {
                self.close_strand()?;
                self.place.child = self.strands;
            }
            Mark::Spawn => {
                self.nodes.push(Node::Parallel {
                    left: self.strands.saturating_sub(self.place.child),
                    right: self.place.child.saturating_sub(self.place.block),
                })?;
            }
            Mark::Call => {
                self.nodes.push(Node::Series {
                    left: self.strands.saturating_sub(self.place.child),
                })?;
            }
        }
        Ok(())
    }

    // Returns to the outer frame.
    #[inline(always)]
    fn leave(&mut self)
        ensures { self.new ≡ frame_closed self.old }
    {
        if let Some(place) = self.outer.pop() {
            self.place = place;
        }
    }
}

/// Returns the series-parallel tree that a list of marks spells. Cost and memory: linear in the marks.
/// For a list that spells no run, nothing is known of the tree.
pub fn tree_of_marks(alloc: Global, marks: &[Mark]) -> Result<SpTree, AllocError>
    requires { length marks.now ≤ 2 ^ 30 }
    ensures { IfOk result (λ t. (s : Shape) → SpellsMarks s marks.now → t ≡ preorder (tree s)) }
{
    let mut building = Building::new(alloc);
    let mut place = marks.len();
    while place > 0 {
        place -= 1;
        building.step(marks[place])?;
    }
    Ok(SpTree::new(building.nodes.into_vec()))
}

/// Returns the series-parallel tree of a trace. Cost and memory: linear in the events. For a list
/// of events that no run makes, nothing is known of the tree.
pub fn tree_of(alloc: Global, trace: &Trace) -> Result<SpTree, AllocError>
    ensures { IfOk result (λ t. (s : Shape) → Spells s trace.now → t ≡ preorder (tree s)) }
{
    let mut building = Building::new(alloc);
    let events = trace.as_slice();
    let mut place = events.len();
    while place > 0 {
        place -= 1;
        building.step(Mark::of(&events[place]))?;
    }
    Ok(SpTree::new(building.nodes.into_vec()))
}

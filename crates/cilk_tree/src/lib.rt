//! The series-parallel tree of a serial run, and the plan by which workers run the program again.
//!
//! A serial run is a trace: a list of events. Its events fall into strands, stretches of one
//! frame's events with no parallel control inside. Each `begin`, `resume` and `sync` begins a
//! strand, and strands are numbered from 1 in serial order. The strands are the leaves of a tree of
//! S nodes (series) and P nodes (parallel). A spawned child (left) and the rest of its parent's
//! sync block (right) are the two parts of a P node. A called child is in series with the strand
//! before it and the rest of the block; the blocks of a frame are in series. Two strands may run in
//! parallel exactly where their lowest common ancestor is a P node (Feng and Leiserson 1997,
//! "Efficient detection of determinacy races in Cilk programs", section 2; strands are cut finer
//! here).
//!
//! The same trace gives the order of its events. The immediate predecessor of an event is the one
//! before it, with two exceptions: the `resume` after a spawn follows the spawn, and a `sync`
//! follows the event before it and the `end` of each child spawned in its block.
//! [`laws::before_is_reachability`] says that both views agree if each frame syncs after it
//! spawned: an event is before another in the tree exactly where predecessors lead to it.
//!
//! A [`plan::Plan`] is what workers may know of an accepted run: the kinds of its events, their
//! frames and earliest predecessors, and the opening values of the cells. It holds no value of any
//! event, so a worker knows only what it loads or computes. In contracts a plan is an
//! [`event_order::EventOrder`].
//!
//! | Call | Result |
//! |---|---|
//! | [`building::tree_of`] | the tree of a trace, a [`tree::SpTree`] |
//! | [`span::span`] | the span: the length of the longest chain of events |
//! | [`plan_strands::strands`] | the strand that begins at each position |
//! | [`plan::Plan::of`] | the plan of a run in which no two accesses race |
//! | [`blocks::blocks_of`] | the blocks' `sync`s and first spawns, each position's block, each spawn's `resume` |
//!
//! ```text
//! let tree = tree_of(alloc, &trace)?;
//! let longest = span(alloc, &trace, &tree)?;
//! let plan = Plan::of(alloc, &trace, opening)?;
//! ```
#![tactic(auto)]

pub mod along;
pub mod blocks;
pub mod building;
pub mod earliest;
mod event_columns;
pub mod event_order;
pub mod frames;
pub mod kind;
pub mod laws;
pub mod mark;
mod opening;
pub mod order_laws;
pub mod plan;
pub mod plan_laws;
pub mod plan_strands;
pub mod span;
pub mod tree;

//! Peer classes: numbers that tell whether two strands of a run have the same peers.
//!
//! The peers of a strand are the strands parallel to it. The view of a reducer that a strand sees
//! doesn't depend on the schedule if the strand has the same peers as the strand that made the
//! view. Otherwise a steal may have given it a new, empty view: a view-read race (Lee and Schardl
//! 2015, "Efficiently detecting races in Cilk programs that use reducer hyperobjects", section 2).
//!
//! Comparing sets of peers would be slow, so each strand has a class. Each child of a P node is a
//! class of its own, except for the parts inside deeper P nodes. The class of a strand is the first
//! strand of the lowest child of a P node that holds it, and 0 if no P node does. Two strands have
//! the same peers exactly where their classes are equal.
//!
//! | Call | Result |
//! |---|---|
//! | [`walk::classes`] | the [`class::Classes`] of all strands, in one pass over the nodes of the tree |
//! | [`class::Classes::same_peers`] | whether two strands have the same peers, in constant time |
//! | [`laws::frames_keep_peers`] | the first and last strand of a frame that syncs have the same peers |
//!
//! ```text
//! let tree = tree_of(alloc, &trace)?;
//! let classes = classes(alloc, &tree)?;
//! classes.same_peers(1, 5)                   // are the same strands parallel to strands 1 and 5?
//! ```
#![tactic(auto)]

pub mod class;
pub mod laws;
pub mod walk;

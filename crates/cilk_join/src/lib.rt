//! The join of a sync block: it collects the reducer views of stolen children and merges them in
//! order.
//!
//! When a thief steals the continuation of a spawn, the spawned child and its parent run in
//! parallel, each with views of its own. At the `sync` their views must be multiplied in serial
//! order, whatever the order in which they arrive (Frigo, Halpern, Leiserson and Lewin-Berlin
//! 2009). A [`join::Join`] is the meeting point. Each spawned child has a key, its ordinal in the
//! block; the frame's own piece has the greatest key and arrives last. An arrival is merged at once
//! with its neighbours, up to the next key that is still awaited, so at most one hypermap is kept
//! per awaited key, plus one.
//!
//! | Call | Does |
//! |---|---|
//! | [`join::Join::steal`] | records that the continuation of child `key` was stolen |
//! | [`join::Join::arrive`] | merges a piece; answers whether the block waits or passes |
//! | [`join::Join::open`] | whether the continuation of child `key` may be stolen |
//! | [`join::Join::fresh`], [`join::Join::awaits`] | whether a piece with this key may arrive |
//! | [`row::Row`] | awaited keys, with the runs of arrived keys between them, for runs of any type |
//! | [`laws`] | what holds after every sequence of steals and arrivals |
//!
//! ```text
//! if join.open(key) {
//!     join.steal(key)?;                       // a thief runs the continuation of child `key`
//! }
//! ..
//! match join.arrive(alloc, key, last, views) {
//!     Ok(Arrival::Waits) => ..,               // another piece is still to come
//!     Ok(Arrival::Passes(views)) => ..,       // the views of the whole block, in serial order
//!     Err(views) => ..,                       // out of memory: the piece comes back
//! }
//! ```
#![tactic(auto)]

pub mod join;
pub mod laws;
mod merging;
pub mod row;

//! Which numbers of an input decide what happens in a run, and where.
//!
//! A number of the input decides if it reaches a condition or the left side of `&&` and `||`, an index,
//! a divisor, a place in `input(..)` or a bound of a `cilk_for`. [`search::search`] goes through the
//! events of a serial run once, with a set of positions for each word: a node of a graph, which is a
//! position or the union of two nodes ([`graph::Graph`]). Where a word decides, all positions of its set
//! do; from then on they count as none, so that sizes don't spread.
//!
//! Nothing here is trusted. Who needs to know that the other numbers decide nothing has it proved of the
//! positions that this crate finds. The contracts say only that it ends and stays within memory.
//!
//! | Call | Result |
//! |---|---|
//! | [`search::search`] | the positions that decide, and the places of the text where they do |
//! | [`told::push_places`] | these places in words, with hints |
//!
//! ```text
//! let found = search(alloc, &program, &input, run, &fixed)?;
//! found.decides              // for each number of the input, whether it decides or was fixed
//! found.places               // by places of the text: the first number that decides there
//! ```
#![tactic(auto)]

mod frames;
mod free;
pub mod graph;
mod memory;
mod named;
mod operators;
pub mod search;
pub mod told;

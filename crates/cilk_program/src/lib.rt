//! Resolved Cilk programs and the definition of their meaning.
//!
//! A [`program::Program`] is a syntax tree in which each name is replaced by the cell, reducer,
//! function or loop that it refers to. `cilk_names` makes it from the parsed text, and `cilk_lower`
//! compiles it. This crate executes nothing: it has the types, the meaning and the laws.
//!
//! A frame is one activation of a function, or of some turns of a `cilk_for`. It never touches
//! memory: it makes a request, an [`ask::Ask`], and whoever runs it answers. So one definition of a
//! frame serves the serial run and every parallel schedule. `specs/` has three definitions:
//!
//! - `Behaviour`: the next request of a frame, given the answers so far and its ticks.
//! - `Elision`: the serial elision, which is the program without its parallel keywords, run over
//!   one store (Frigo, Leiserson and Randall 1998).
//! - `SerialRun`: the run on one worker. Each child runs where it is called or spawned, and frames,
//!   cells and events are numbered in that order.
//!
//! | Module | Contents |
//! |---|---|
//! | [`program`], [`syntax`] | programs; their statements and expressions |
//! | [`ask`], [`given`] | the requests of a frame; the arguments of a call |
//! | [`agreement`] | the serial run ends as the serial elision does |
//! | [`runs`] | there is exactly one serial run, and it is sound |
//! | [`shortage`] | how a frame's next request depends on its ticks |
//! | [`worked`] | small programs with their events and outcomes |
//!
//! Each law is a function with an empty body, whose contract is the law. Other crates use its
//! lemmas in `proofs/`. This program has one global cell and one function:
//!
//! ```text
//! int g = 3; int main() { return g; }
//!
//! body of main    Return(24, Some(Variable(31, Place::Global(0))))
//! serial run      begin; read cell 0, which is 3; sync; end
//! ```
#![tactic(auto)]

pub mod agreement;
pub mod ask;
pub mod given;
pub mod program;
pub mod runs;
pub mod shortage;
pub mod syntax;
pub mod worked;

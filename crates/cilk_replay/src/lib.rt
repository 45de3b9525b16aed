//! Replay of a run: the frames with which workers follow a plan, on the plan's input or another.
//!
//! A *plan* has the kinds of the events of one serial run of a program, in serial order. Workers
//! that run the program again follow it. Each frame still computes its own requests, by the
//! program's code on the current input. If a request is the plan's event, a worker makes that
//! event; otherwise the run departs from the plan there.
//!
//! A worker holds a [`chain::Chain`]: a frame that has requested its next event, and its callers up
//! to the nearest spawned frame. Frames further out wait at a spawn, on this worker or another. At
//! a spawn a chain splits in two: the child alone, and a [`chain::Rest`], the continuation of the
//! parent (Frigo, Leiserson and Randall 1998). With its *ticket*, the position of the spawn, a rest
//! is a [`chain::Task`].
//!
//! The *course* of a run on an input is the plan's events with the values of that input. A read
//! gives the last write of its cell before it in serial order, and a reducer's value comes from the
//! events before it in serial order. An event that isn't requested stays as the plan has it. A
//! chain's type keeps that each of its frames has had the answers of the course so far. So its next
//! request is the program's, whoever made the events before it.
//!
//! | Item | Use |
//! |---|---|
//! | [`chain::Chain::matches_plan`] | Whether the next request is the plan's event. |
//! | [`chain::Chain::answer`] | Continues the frame; `call`, `spawn` and `end` change the frame. |
//! | [`chain::Chain::along`] | Makes events of one frame, by a [`stretch::Maker`]. |
//! | [`chain::Rest::wake`] | Continues a frame after its child. |
//! | [`replay::Replay`] | The program's code and the input, along a plan. |
//! | [`laws`] | A course in which each event is requested is a serial run. |
//!
//! ```text
//! let mut chain = Chain::root(alloc, &replay)?;
//! match chain.matches_plan(&replay, kind) { // the kind of the plan's event at chain.at()
//!     PlanMatch::Follows => chain.answer(&replay, answer),
//!     PlanMatch::Departs => ..,            // the run departs from the plan
//! }
//! ```
#![tactic(auto)]

pub mod chain;
pub mod child;
pub mod frame_layout;
pub mod laws;
pub mod plan_match;
pub mod reducer;
pub mod replay;
pub mod replay_frame;
pub mod sight;
pub mod sort;
pub mod stretch;

//! Runs an accepted program by work stealing, with each worker in a thread of its own.
//!
//! [`threads::run_threads`] runs a program's plan on an input, the plan's own or another. On
//! success it returns the outcome of the program's serial elision on that input, whatever was
//! stolen. On another input the run may depart from the plan; then the answer is the position where
//! it departs. Termination is not proved.
//!
//! The workers start in one scope. The first begins with the piece of the run's first event, and
//! the others with empty pieces. One of them ends with the piece of the whole run, and its cells
//! and views are the outcome.
//!
//! A piece has the reducer views of its own range alone, and yet a read of a reducer gives the
//! serial value. In a run without a view-read race the read has the same peers as the reducer's
//! creation (Lee and Schardl 2015), so nothing between the reducer's first event and the read is
//! parallel to the read. [`laws`] states this for the accepted run and for each event order along
//! its plan.
//!
//! | Item | Is |
//! |---|---|
//! | [`threads::run_threads`] | a run of a plan on an input |
//! | [`run::run`] | the workers alone, from first piece to whole piece |
//! | [`table::plan_reducers`] | the table of the reducers that each frame creates |
//! | [`outcome::outcome`] | the outcome of a run, from the piece of all its events |
//! | [`ThreadFault`] | out of memory, a wrong number of workers, or a departure |
//! | [`Gate`], [`Open`] | a hook that is called as each strand begins; one that does nothing |
//!
//! ```text
//! let plan = plan(alloc, &accepted)?;
//! match run_threads(rt, alloc, &plan, &input, 4, &Open) {
//!     Ok(outcome) => ..,                       // what the program gives on the input
//!     Err(ThreadFault::Departs(at)) => ..,     // the input departs from the plan there
//!     Err(fault) => ..,
//! }
//! ```
#![tactic(auto)]

pub mod laws;
pub mod outcome;
mod pool;
pub mod run;
mod seeds;
pub mod table;
pub mod threads;

pub use cilk_replay::chain::{Chain, Task};
pub use cilk_shared::piece::Piece;
pub use cilk_workers::gate::{Gate, Open};
pub use cilk_workers::join::JoinBox;
pub use cilk_workers::rack::{Picker, Rack};
pub use run::ThreadFault;
pub use threads::run_threads;

//! The plan of an accepted run: all that workers need to run the program again in parallel.
//!
//! An accepted run is free of races, so a parallel run on its input makes the same events with the
//! same values; only their interleaving differs. A [`program_plan::ProgramPlan`] holds what depends
//! on the accepted run alone, and is made once for any number of parallel runs:
//!
//! - the program, its code and the run's input;
//! - the kinds of the run's events in serial order ([`cilk_tree::plan::Plan`]);
//! - for each frame, the body that it runs and where its cells are;
//! - for each spawn, the `resume` after it; the blocks with spawns, by the `sync` that ends each, and
//!   their first spawns;
//! - the positions at which strands begin.
//!
//! It holds no value of any event and no outcome, so a worker knows only what it loads or computes.
//! A plan can also be run on another input: the run follows the plan as long as the frames request
//! events of the same kinds.
//!
//! | Call | Makes |
//! |---|---|
//! | [`program_plan::plan`] | the plan of an accepted run |
//! | [`yards::yard`] | the words that workers share on an input, and the first segment |
//! | [`replay::replay`] | the code, input and frames with which workers run along the plan |
//!
//! ```text
//! let plan = plan(alloc, &accepted)?;
//! let (yard, segment) = yard(alloc, &plan, &input)?;
//! let replay = replay(&plan, &yard, &input);
//! ```
#![tactic(auto)]

pub mod laws;
pub mod planning;
pub mod program_plan;
pub mod replay;
pub mod yards;

pub use cilk_tree::plan::Plan;
pub use program_plan::{ProgramPlan, plan};

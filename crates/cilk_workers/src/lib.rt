//! A worker of a parallel run: it makes events along a plan, steals, and joins at sync blocks.
//!
//! A worker holds a *piece*, the events that it has done, and a *chain*, the frame that runs there
//! with its callers. A turn makes the next event of both: it compares the plan's event with the
//! frame's request, and if they agree, does it on the shared words and the piece's views. If they
//! differ, the run departs from the plan there.
//!
//! Scheduling is work stealing (Frigo, Leiserson and Randall 1998). At a spawn the worker pushes
//! the continuation on its deque, a [`rack::Rack`] (Chase and Lev 2005), and runs the child. At the
//! child's end it pops the continuation. If a thief took it, the worker's piece arrives at the
//! [`join::JoinBox`] of the block, where it is merged with its neighbours in serial order (Frigo,
//! Halpern, Leiserson and Lewin-Berlin 2009). The last piece to arrive passes, and its worker
//! continues after the `sync`. A worker without work pops its newest task or steals another's
//! oldest.
//!
//! Join boxes lie on a [`shelf::Shelf`]. Each shelf is in a queue of capacity 1, its [`lock`]:
//! popping the shelf locks it. A type names the run in the rules of deques and queues
//! ([`naming::Naming`]). Each turn is proved right whatever the other workers do (`Turned` in
//! `specs/Turns`); termination is not proved.
//!
//! | Call | Does |
//! |---|---|
//! | [`context::WorkerContext::work`] | runs a worker to its end |
//! | [`turn::act`], [`turn::begin`] | makes one event; starts a thief with a task |
//! | [`rack::Rack::offer`], [`rack::Rack::newest`], [`rack::Picker::oldest`] | push, pop, steal |
//! | [`join::JoinBox::record_steal`], [`join::JoinBox::arrive`] | a steal from a block; a piece arrives |
//!
//! ```text
//! let context = WorkerContext { rt, alloc, shared: &shared, locks, gate, worker };
//! match context.work(&mut tools, &stop, Activity::Idle(piece)) {
//!     ExitReason::Whole(piece, value) => ..,   // this worker ended the run, with this result
//!     ExitReason::Departed(at) => ..,          // the run departs from its plan there
//!     ExitReason::Stopped => ..,               // another worker stopped, or out of memory
//! }
//! ```
#![tactic(auto)]

pub mod activity;
mod along;
mod asking;
pub mod awaited;
pub mod burst;
mod cells;
pub mod columns;
pub mod context;
pub mod find_work;
pub mod gate;
pub mod join;
pub mod laws;
pub mod lock;
pub mod locks;
pub mod main_loop;
pub mod merging;
pub mod naming;
mod passing;
pub mod rack;
mod reducing;
pub mod runs;
pub mod shared;
pub mod shelf;
mod starting;
pub mod turn;
pub mod work;

//! A stepwise machine that runs a Cilk program on a schedule that the caller chooses.
//!
//! On threads, the schedule depends on timing. Here the caller decides each move, so that any
//! schedule can be made, repeated and examined. A [`machine::Machine`] has a program's code, an
//! input and some workers; the first worker holds the first frame. A
//! [`Choice`](cilk_scheduler::choice::Choice) lets a worker continue its frame, or lets an idle
//! worker steal a continuation that another worker offers (work stealing: Frigo, Leiserson and
//! Randall 1998). The result is an event, a steal, a wait at a sync, or nothing; or
//! the run stops for good. A thief begins with empty reducer views, and views are merged at the
//! sync in serial order (Frigo, Halpern, Leiserson and Lewin-Berlin 2009).
//!
//! Each choice is at most one step of the free machine of `cilk_determinacy`, in which any frame
//! that isn't waiting may make its next event at any moment. So what holds of each reachable state
//! of that machine holds of the states here. A frame is known by its path: an ordinal for each
//! frame from the first one's child down to it. The path is the same on every schedule.
//!
//! | Item | Use |
//! |---|---|
//! | [`play`] | Makes a list of choices and returns what the run shows. |
//! | [`play_steps`] | Makes the choices of a script (`cilk_parser`) and returns the outcome. |
//! | [`play_steps_on`] | The same on code that is there already. |
//! | [`play_strictly`], [`play_strictly_on`] | The same, up to the first choice that can't be made. |
//! | [`play_counting`], [`play_counting_on`] | The same, with the number of choices that were skipped. |
//! | [`machine::Machine::choose`] | Makes one choice. |
//! | [`machine::Machine::choose_many`] | Makes choices of one worker, one after another. |
//! | [`showing::Shown`] | The events of each frame, joined children and the outcome, by paths. |
//! | [`laws`], [`play_laws`] | A list of choices, and a script, has at most one end. |
//!
//! ```text
//! let mut machine = Machine::new(alloc, &code, &input, 2)?;   // worker 1 holds the first frame
//! machine.choose(alloc, Choice::Run(1))?;                     // Did(begin)
//! machine.choose(alloc, Choice::Steal(2, 0))?;                // Skipped: nothing is offered
//! machine.shown(alloc)?.events(&[])                           // the first frame's events: [Begin]
//! machine.shown(alloc)?.strand(&[], 0)                        // the strand of its first event: 1
//! ```
#![tactic(auto)]

mod arrivals;
mod counting;
mod ending;
mod events;
mod fault;
pub mod laws;
pub mod machine;
mod making;
pub mod naming;
mod opening;
pub mod play_laws;
mod player;
mod repeating;
mod running;
pub mod showing;
mod starting;
mod stretch;
mod strict;
mod thieves;
mod unmade;

pub use cilk_scheduler::choice::{Act, Choice, Stop, Strand, Told};
pub use counting::{play_counting, play_counting_on};
pub use fault::PlayFault;
pub use machine::{Machine, play};
pub use player::{play as play_steps, play_on as play_steps_on};
pub use strict::{play_strictly, play_strictly_on};
pub use unmade::{CountedPlay, Reason, Skip, Skips, StrictFault};

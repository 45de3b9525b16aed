//! What a run did and what it cost, in words, tables and pictures.
//!
//! [`text_of`] is what `measure` shows of a run: its totals, a line for each function and loop, the
//! spawns and lines on its critical path, and bounds of the speed-up by several workers; or a
//! picture. [`push_trace`] says what each worker does by a script.
//!
//! Work is the number of events of a run. Span is the length of its longest chain of events in
//! which each comes before the next under every schedule, so no number of workers needs fewer
//! steps. Their quotient is the parallelism (Frigo, Leiserson and Randall 1998, section 1). In the
//! burdened span each spawn on the way costs what a steal may cost (He, Leiserson and Leiserson 2010).
//! [`measure`] finds these, and is proved to.
//!
//! All else is derived from the texts of the program and its input, by one more serial run
//! (`cilk_findings`), and a trace by a stepwise one too (`cilk_schedule`). [`Kept`] has these texts
//! as they were read. It reads no files, writes no replies and explains no races, so its proof waits
//! neither for `cilk_commands` nor for `cilk_races`.
//!
//! | Call | Result |
//! |---|---|
//! | [`measure`], [`totals_of`] | work, span, burdened span, frames and strands of the serial run |
//! | [`text_of`] | the table or picture of `measure`, or why there is [`NoText`] |
//! | [`push_trace`] | what each worker does by a script, or one of them last |
//! | [`push_cells`] | a line of a table |
//! | [`asks`] | whether a word is on a command line |
//! | [`Kept`], [`CaseTexts`] | copies of what was read, and a program and its input among them |
//!
//! ```text
//! worker 1: strand 1, lines 5 to 7 (events 1 to 4) in `main`
//! worker 2 steals the continuation of line 7 from worker 1
//! worker 2: strand 4, lines 7 to 8 (events 9 to 11) in `main`
//! worker 2 waits at the sync of line 9
//! ```
#![tactic(auto)]

mod burdened;
mod chains;
mod chart;
mod critical;
mod deeds;
mod dot;
mod drawing;
mod rows;
mod shares;
mod speed_up;
mod table;
mod text;
mod totals;
mod tracing;

pub use cilk_findings::kept::{CaseTexts, Kept};
pub use cilk_messages::asked::asks;
pub use rows::push_cells;
pub use text::{NoText, text_of};
pub use totals::{Totals, measure, totals_of};
pub use tracing::{Play, Telling, push_trace};

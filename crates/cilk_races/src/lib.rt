//! Explains a race of a program's run: the two accesses, a cure, the spawn that lets them run in
//! parallel, and a schedule that shows it.
//!
//! The checker reports a race as a refusal number and two events of the serial run. Number 311 is a
//! determinacy race: two strands in parallel access a cell, and at least one of them writes it
//! (Feng and Leiserson 1997). Otherwise a reducer is read or set where the schedule can change its
//! view. This crate turns the events into a report for the programmer. `cilk_findings` supplies the
//! frame and the place of each event.
//!
//! The two accesses have a nearest frame in common. Below it, the earlier access is in a spawned
//! child and the later one in the continuation of that spawn. A read of a reducer is paired with an
//! update that may run beside it. The cure follows from the frames and from how the text uses the
//! variable: as a sum, as a greatest number, as room to work.
//!
//! The schedule is searched for: one worker runs up to the spawn or into the child, a second worker
//! steals the continuation and makes the later access, then the first worker runs the child. Where
//! a run is short, neighbours of that schedule are played until one shows another outcome than the
//! serial run, and then some by chance, of up to 16 workers. The report says how the outcome differs
//! and how many were tried, and has the script for `play`.
//!
//! Last come the further races, a line for each two places of the text, by the same labels of strands
//! as the checker's.
//!
//! Of a program without races [`push_why`] says what orders the accesses of a line with those of other
//! strands: a sync, or the order of the text.
//!
//! | Call | Result |
//! |---|---|
//! | [`races::of_race`] | the report on a race |
//! | [`races::script_of_race`] | the script of the schedule in that report |
//! | [`push_why`] | what orders the accesses of a line |
//!
//! ```text
//! let case = Case::of(alloc, "race.c", text, input)?;
//! of_race(&case, 311, earlier, later)?
//! // "race.c:8:7: error 311: a determinacy race: `x` is written here (1), in `f` ..."
//! ```
#![tactic(auto)]

mod beside;
mod chance;
mod cures;
mod orders;
mod outcomes;
mod pair;
mod plays;
pub mod races;
mod schedules;
mod texts;
mod uses;
mod why;

pub use why::push_why;

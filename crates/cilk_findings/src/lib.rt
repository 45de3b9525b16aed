//! Explains one run of a program in words and with places of its text: the fault that stops it, and
//! the names of its frames and cells.
//!
//! The runtime and the checker know a run by numbers: an event by its position, a cell or frame by
//! its number. This crate leads back to the text. [`case::Case::of`] reads the program and its
//! input, and [`map::TextMap::of`] the names that the text declares. [`replay::follow`] then makes
//! the serial run once more, event by event, and notes for each event its frame and the byte of the
//! text that its instruction comes from, and for each frame its parent ([`runs::Run::of`] has both).
//! Nothing is recorded while a program runs for others, so a run that nobody asks about pays
//! nothing. Results are meaningful only if tree, code and events come from the same text.
//! On top of this one the crate `cilk_races` explains races, and `cilk_profile` what a run costs.
//!
//! | Call | Result |
//! |---|---|
//! | [`faults::of_fault`] | why and where a fault stops the run, and a hint |
//! | [`further::push_further`] | a line for each two places of the text whose accesses race |
//! | [`scene::Scene`] | names, places and paths of a run's frames and events, in words |
//! | [`kept::Kept`], [`kept::CaseTexts`] | copies of what was read, and a program and its input among them |
//! | [`partings::parted_at`] | where a `cilk_sync` would separate a spawn from later code |
//!
//! ```text
//! let case = Case::of(alloc, "sum.c", text, input)?;
//! of_fault(&case)?     // "sum.c:4:16: error 202: an index outside its array\n    s = s + a[i];\n"
//! ```
#![tactic(auto)]

pub mod case;
pub mod fault;
pub mod faults;
pub mod further;
pub mod kept;
pub mod map;
pub mod partings;
pub mod paths;
mod repeats;
pub mod replay;
pub mod runs;
pub mod scene;

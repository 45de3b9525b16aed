//! Explains the answers of `cilk_commands` on request, and adds the commands `measure`, `schedule`,
//! `help` and `explain`, and `settle` for several programs.
//!
//! [`serve_explained`] serves one call of the tool. A command line of [`cilk_commands::serve`] is
//! served as that function does. The word `--explain` adds to it: the same line comes first, on the
//! same stream and with the same status, then an explanation on standard error. It names the place,
//! the reason and a fix. `settle` is explained without that word, and so is `judge` with a table of
//! sites. An explanation is derived from the texts themselves, by a second serial run where that is
//! needed (`cilk_findings`, `cilk_races`). [`KeptFiles`] therefore keeps the texts as they were
//! read, and the first bytes of a certificate. So the explanation is about the texts that were
//! judged. A trace isn't kept, since it may be larger than memory: its file is read again, and one that
//! came by a pipe has the numbers of its lines alone. A command line of `serve` without an explanation
//! keeps no copies.
//!
//! `measure` prints what a run costs; `--trace` of `play` adds what each worker does
//! (`cilk_profile`), and `--why LINE` of `settle` what orders the accesses of a line (`cilk_races`).
//! `schedule` prints a script for `play` that shows a race. `settle` with several programs, `--short`
//! or `--json` shows one reply after the other. `help`, `explain 103` and `--version` are about the
//! tool itself.
//!
//! | Call | Purpose |
//! |---|---|
//! | [`serve_explained`] | serves a command line and returns the exit status |
//! | [`of_answer`], [`of_failure`] | the explanation of an answer or a failure |
//! | [`follow`] | writes an explanation after what was shown |
//! | [`totals_of`] | the totals of a run, which `measure` shows |
//! | [`KeptFiles`] | files with copies of what was read |
//! | [`without_color`] | the words without `--color`, which asks for explanations with colours |
//!
//! ```text
//! program 103 at 61
//! fib.c:3:13: error 103: no text of the language continues like this
//!   return fib(n - 1) + fib(n - 2);
//!             ^
//! reason: found `(`, wanted `;` or an operator
//! hint: a call stands alone or as the whole right side of a variable's assignment: `x = f(a);`
//! ```
#![tactic(auto)]

mod accesses;
mod again;
mod certificate;
mod colors;
mod explaining;
mod extras;
mod judging;
mod kept;
mod scheduling;
mod serving;
mod settling;
mod totals;
mod wanted;

pub use cilk_messages::asked::{asks, behind_first, is_help, is_measure, run_of, run_words};
pub use cilk_messages::flags::unflagged;
pub use cilk_profile::{CaseTexts, Kept, push_cells};
pub use colors::without_color;
pub use explaining::{of_answer, of_failure};
pub use kept::{Keeps, KeptFiles};
pub use serving::{follow, serve_explained};
pub use totals::totals_of;

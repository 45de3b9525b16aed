//! The commands that start threads: `threads`, which runs an accepted program in parallel, and
//! `check` with `--helpers`, which shares the check of a certificate among threads.
//!
//! [`serve`] serves one call of the tool. It is the only function here that the program
//! `cilk` calls. Its handle to the system has to offer threads and waiting. Its contract states the
//! reply to every command line, up to the wording of help and explanations.
//!
//! `threads PROGRAM CERTIFICATE` reads the program, its input and the certificate and checks them
//! as `check` does. A refusal of `check` is shown in the same way. An accepted program is run by
//! workers with work stealing (`cilk_threads`; Frigo, Leiserson and Randall 1998). It runs on its
//! own input, or on that of `--on FILE`, and its outcome is shown as `run` shows one. An input
//! whose run leaves the plan of the certified run ends in `refused 502` with the position.
//!
//! `check PROGRAM CERTIFICATE --helpers N` shows what `check` shows. The helpers, each in a thread
//! of its own, replay the program's frames (`cilk_helpers`). The certificate's text is kept: it
//! is read for hints, which nothing trusts, and then checked. A single helper starts no thread.
//! Then the file is read in parts, as by `check` alone.
//!
//! Both command lines are read in `cilk_messages`. All others are served by
//! [`cilk_report::serve_explained`], without threads or waiting. `--explain` adds an explanation on
//! standard error to both commands.
//!
//! | Call | Purpose |
//! |---|---|
//! | [`serve`] | serves a command line and returns the exit status |
//!
//! ```text
//! cilk certify fib.c > fib.cert
//! cilk check fib.c fib.cert --helpers 4
//! cilk threads fib.c fib.cert --workers 4
//! ```
#![tactic(auto)]

mod check_serving;
mod explaining;
mod helping;
mod running;
mod serving;
mod since;
mod stats;

pub use cilk_commands::files::{FileFault, Files};
pub use cilk_report::{Keeps, KeptFiles};
pub use serving::serve;

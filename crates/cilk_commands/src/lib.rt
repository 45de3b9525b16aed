//! The commands of the tool: from the words of a command line to one reply and a status.
//!
//! [`serve`] reads the words, reads the texts that they name, judges them, and shows one reply. The
//! reply is a text on standard output or a line on standard error. Texts are read and judged in
//! order, and the first one that fails is shown. The outside world is abstract: [`serve`]
//! works with any [`files::Files`], any reader that counts its reads, and any writers. So its
//! contract can say what it shows, given what these hold (`specs/Serving.antt`), and tests run it
//! without a file system.
//!
//! | Call | Result |
//! |---|---|
//! | [`serve`] | the status; [`serve_and_tell`] also returns whether standard error was written |
//! | [`carry_out`] | the answer to one order, not yet shown |
//! | [`given`] | a program and its input, read and judged |
//! | [`settle`] | the answer to an order to settle a program |
//! | [`skips`], [`skips_text`] | the choices that are skipped of a script, and a line about them |
//! | [`trace_texts::judge_text`] | the verdict on the text of a trace |
//! | [`disk::Disk`] | the files of the system |
//! | [`counted::CountedReader`] | a reader that counts its reads, as standard input has to be |
//! | [`parts::PartSource`] | a file as a source of a certificate's or a trace's text |
//! | [`reply::Answer`], [`reply::Failure`] | the replies, with their texts and statuses |
//! | [`laws::reply_is_one`] | one reply to the same words and texts, devices and memory aside |
//!
//! | Status | Meaning |
//! |---|---|
//! | 0 | an answer |
//! | 2 | wrong words, a text with a fault, a file that can't be read, or a failed write |
//! | 3 | the program's run faults, or a choice of a script that has to be made can't be |
//! | 4 | a certificate is refused, or a program or a trace has a race |
//! | 5 | out of memory |
//!
//! ```text
//! let words = ["run", "examples/first.c"];
//! let status = serve(alloc, &words, &mut files, &mut input, &mut out, &mut err);
//! ```
#![tactic(auto)]

pub mod counted;
pub mod disk;
pub mod every;
pub mod files;
mod judging;
pub mod laws;
pub mod parts;
mod programs;
mod render;
pub mod reply;
mod running;
mod serving;
pub mod streams;
pub mod trace_fault;
pub mod trace_pieces;
pub mod trace_texts;

pub use counted::{CountedRead, CountedReader};
pub use programs::{input, names, skips, stopped};
pub use render::skips as skips_text;
pub use running::{given, read_file, refused, settle};
pub use serving::{Served, carry_out, complain, serve, serve_and_tell, show, tell};

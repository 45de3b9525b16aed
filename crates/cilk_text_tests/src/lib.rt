//! Tests of the tool's reads and writes, and of the texts of faults.
//!
//! Whole calls of the tool are compared by `cilk_rows`. This crate has the tests that such a call
//! can't make: a writer that is full, a file that fails at its second part, the number of files
//! that a call reads, and texts that no call shows.
//!
//! | Module | Tests |
//! |---|---|
//! | [`messages`] | the texts of faults |
//! | [`numbers`] | that the list of `explain` has each number with a meaning, and no other |
//! | [`reads`] | the number of files that a call reads |
//! | [`failing`] | replies where a reader, writer or file fails |
//! | [`pieces`] | certificates in pieces, from a device that may fail |
//! | [`disk`] | paths that aren't files |
//!
//! The calls are made by `cilk_served`, over files and streams in memory.
//!
//! ```text
//! let ended = shown(alloc, &["run", "program"], b"int main() {", b"", &mut Broken);
//! assert_eq!(rt; ended.status, 2);
//! ```
#![tactic(auto)]

#[cfg(test)]
mod disk;
#[cfg(test)]
mod failing;
#[cfg(test)]
mod messages;
#[cfg(test)]
mod numbers;
#[cfg(test)]
mod pieces;
#[cfg(test)]
mod reads;

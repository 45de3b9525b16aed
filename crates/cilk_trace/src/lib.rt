//! Traces of Cilk programs: their text, the series-parallel tree that they spell, and their races.
//!
//! A trace lists what one serial run of a program did: where it spawned and synced, and which cells
//! it read and wrote in between. `docs/TRACES.md` has its text and its meaning. A frame's kind is
//! known only at its end; a trace is judged in one reading all the same, since what is parallel to the
//! current strand is in frames that have ended.
//!
//! | Call | Use |
//! |---|---|
//! | [`reader::TraceReader`] | Reads a trace in pieces, cut anywhere, as lines; or the first fault. |
//! | [`judge::Judge`] | Judges the lines: race-free, and how many are `unseen`; or the first race. |
//! | [`survey::Survey`] | Is it a trace? Do frames nest, are reducers used while they are alive? |
//! | [`intervals::Intervals`] | Is an earlier line parallel to the current strand? |
//!
//! **The form.** The text form is lines of words: one space separates two words, and one LF ends
//! each line.
//!
//! ```text
//! trace  = "cilktrace 1" LF { line LF } "end" LF
//! line   = "enter" SP SITE
//!        | "spawned" | "called" | "sync"
//!        | ("read" | "write") SP CELL SP COUNT SP SITE
//!        | "clear" SP CELL SP COUNT
//!        | ("create" | "update" | "value" | "retire") SP REDUCER SP SITE
//!        | "unseen" SP SITE
//! ```
//!
//! A number is below 2^32 and has no leading zeros. COUNT is 1 to 4,096, and CELL + COUNT at most
//! 2^32. A line has at most 64 bytes, there are fewer than 2^32 - 1 lines, and they have at most 2^30
//! marks. A trace that begins with `cilktrace-bin 1` and LF is in the binary form, in which each
//! event is some numbers in LEB128, and lines with cells name a kind that was declared before. A
//! [`fault::TraceFault`] names the line, from 1, at which reading stops. A text is read without a
//! fault exactly if it is a trace's ([`text_laws::reads_traces`]). Whether frames nest, reducers are
//! alive and marks are few is no matter of the form.
//!
//! **The judgement** is made of smaller parts:
//!
//! - [`structure::Structure`] keeps the marks of the lines so far, and patches a frame's mark when
//!   the frame ends.
//! - [`births::Births`] keeps where each reducer that is alive was created, and
//!   [`survey::Survey`] each read of its view by another strand. At the end peer classes tell which of
//!   these race (Lee and Schardl 2015).
//! - [`intervals::Intervals`] keeps the spawned children that no sync has joined, as intervals of lines:
//!   an earlier access is parallel to the current strand exactly where it is in one of them. Those that
//!   follow each other at once, as a loop's turns do, are one.
//! - [`pass::Pass`] looks for races of accesses. Of each cell it keeps the positions of the write and of
//!   the access of greatest Hebrew number ([`positions::Positions`], by pages in
//!   [`histories::Histories`]): if any earlier access races with the current one, the kept one does
//!   (races: Feng and Leiserson 1997; two orders of strands: Bender, Fineman, Gilbert and Leiserson
//!   2004). Hebrew numbers stand in proofs alone ([`interval_laws`]).
//!
//! Time is linear in the lines and in the cells that they name, but for a binary search among the
//! intervals for each cell whose kept access is of another strand. Memory: a byte for each mark; 16 for
//! each open frame; 8 for each interval and for each grain of a page with an access; some 24 for each
//! reducer that is alive. Only where another strand than a reducer's creator reads its view: 16 for each
//! such read, and at the end some 30 a strand. A page has 4,096 cells, in grains of 8, 4, 2 or 1: all
//! lines begin and end where its grains do, so the cells of a grain have one history.
//!
//! ```text
//! let mut reader = TraceReader::new(alloc);
//! reader.reserve()?;
//! let (taken, line) = reader.next(piece)?;     // then continue with piece[taken..]
//! reader.end()?;                               // after the last piece
//!
//! let mut judge = Judge::new(alloc)?;
//! for line in &lines {
//!     judge.meet(line)?;                       // Misplaced: the trace is malformed at this line
//! }
//! let verdict = judge.verdict(alloc)?;         // after the root's end
//! ```
#![tactic(auto)]

mod binary;
pub mod births;
mod event;
pub mod fault;
pub mod histories;
pub mod interval_laws;
pub mod intervals;
pub mod judge;
mod keyword;
pub mod laws;
pub mod line;
mod parse;
pub mod pass;
pub mod place;
pub mod positions;
pub mod reader;
pub mod structure;
pub mod survey;
mod text;
pub mod text_laws;
pub mod views;

//! The text form of certificates: reading and writing it.
//!
//! A certificate lists what a serial run claims: its frames, its strands with their labels, its
//! events with the source of each read, and its result. Its text is lines of words. One space
//! separates two words, and one LF ends each line.
//!
//! ```text
//! cilkcert 1                      or 2; the versions differ in how an event names a reducer
//! size EVENTS FRAMES STRANDS      at most 1,000,000, 65,536 and 1,000,000
//! frame K PARENT ORDINAL          a line for each frame, K = 1, 2, ..
//! strand S FRAME HEBREW CLASS     a line for each strand, S = 1, 2, ..
//! read CELL VALUE SOURCE          a line for each event
//! result VALUE
//! end
//! ```
//!
//! A number is below 2^32 and has no leading zeros. A value is a number of 64 bits; a minus may
//! precede it unless it is 0. Each certificate has one text, and each text is that of one
//! certificate ([`laws`]).
//!
//! | Call | Use |
//! |---|---|
//! | [`write::write`], [`writer::LineWriter`] | Write a text; the second without allocating. |
//! | [`read::read`], [`read::read_pieces`] | Read a text that is in memory. |
//! | [`reader::LineReader`] | Reads a text piece by piece without allocating. |
//! | [`word::first`], [`word::number`], [`word::alone`] | Read a line word by word. |
//!
//! Reading stops at the first fault: a [`fault::CertFault`] with its line, from 1. A line is
//! malformed if it has 97 bytes or more before its LF, isn't of the form due there, or follows the
//! last line. It is truncated if the text ends before its LF.
//!
//! ```text
//! let mut reader = LineReader::new();
//! let (taken, line) = reader.next(piece)?;     // then continue with piece[taken..]
//! reader.end()?;                               // after the last piece
//! ```
#![tactic(auto)]

pub mod certificate;
mod digits;
pub mod fault;
mod form;
pub mod laws;
pub mod line;
mod parse;
mod place;
pub mod read;
pub mod reader;
pub mod spelling;
pub mod word;
pub mod write;
pub mod writer;

//! The vocabulary that every other crate uses: 64-bit words, the events and the trace of a serial
//! run, its limits, the faults that end it, and its outcome.
//!
//! The language is a small Cilk whose numbers are all words: 64-bit integers in two's complement
//! with wrapping arithmetic, as of `i64::wrapping_add` ([`word`]). A serial run executes a program
//! on one worker and records what happens as [`event::Event`]s: frames begin and end, children are
//! spawned and called, cells of memory are read and written, reducers are updated. The list of them
//! is the run's [`trace::Trace`], and an event is known by its position in it. The run ends with an
//! [`outcome::Outcome`], or a [`fault::Fault`] stops it.
//!
//! | Item | Meaning |
//! |---|---|
//! | [`event::Event`] | One event; frames, cells, strands and positions are plain numbers. |
//! | [`trace::Trace`] | The events of a run, at most [`limits::MAX_EVENTS`]. |
//! | [`fault::Fault`] | Why a run failed, with a number from 201 to 206. |
//! | [`outcome::Outcome`] | The result, globals, output and last values of reducers. |
//! | [`input::Input`] | The numbers that a program reads by `input`. |
//! | [`word_list::WordList`] | A list of words. |
//! | [`sequence::Sequence`], [`stack::Stack`] | Their contracts speak of the items alone. |
//! | [`laws`] | Proved laws of word arithmetic, and the limits as numbers. |
//!
//! ```text
//! word::add(i64::MAX, 1)             // i64::MIN: it wraps
//! word::div(1, 0)                    // None
//! Fault::DivisionByZero.number()     // 201
//! ```
#![tactic(auto)]

pub mod compound;
pub mod event;
pub mod fault;
pub mod input;
pub mod invocation;
pub mod laws;
pub mod limits;
pub mod outcome;
pub mod sequence;
pub mod stack;
pub mod trace;
pub mod word;
pub mod word_list;

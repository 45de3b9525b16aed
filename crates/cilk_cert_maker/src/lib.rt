//! Makes the certificate of a program's serial run.
//!
//! A certificate records one run so that a checker can compare it with its own run of the program.
//! It has a line for each frame (its parent, and its ordinal among the parent's calls and spawns),
//! one for each strand (its frame, its Hebrew number and its peer class), and one for each event.
//! The line of a read also names its source: the position of the last earlier write of its cell.
//! Which certificate is right for a run is defined in `specs/Right.antt`, without reference to a
//! checker. `cilk_cert_text` writes a certificate as text.
//!
//! The maker runs the program serially and then makes a few passes over the list of events. Each is
//! linear in the events, and none recurses on the depth of the run.
//!
//! | Call | Result |
//! |---|---|
//! | [`make::make`] | the certificate of a run, or the fault that stops the run |
//! | [`make::certificate`] | the certificate of a run whose events are given |
//! | [`columns::columns`] | the frames, and the frame of each strand |
//! | [`sources::LastWrites`] | the source of each read, found in one pass over the events |
//! | [`listed_entries::entry`] | an event as an entry of the certificate |
//! | [`listed_entries::Creations`] | an entry as an event, in both versions of the format |
//! | [`laws`], [`listing_laws`] | a run has at most one right certificate of each version |
//!
//! ```text
//! let certificate = make(alloc, &program, &input)?;
//! let text = write(alloc, &certificate)?;   // of `int main(){return 0;}`: ten lines, 94 bytes
//!
//! let Columns { frames, owners } = columns(alloc, &trace)?;
//! // a root that spawns one child: frames (0, 0) and (1, 1); owners 1, 2, 2, 1, 1, 1
//! ```
//!
//! The labels are those of Bender, Fineman, Gilbert and Leiserson 2004 (`cilk_labels`) and of Lee
//! and Schardl 2015 (`cilk_peers`).
#![tactic(auto)]

pub mod column;
pub mod columns;
mod entries;
pub mod laws;
pub mod listed_entries;
pub mod listing_laws;
pub mod make;
pub mod sources;
mod strands;
mod walk;

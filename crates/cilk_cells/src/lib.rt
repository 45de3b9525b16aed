//! The first races of a serial run, found in two passes over its events.
//!
//! Two accesses of one cell, at least one of them a write, have a determinacy race if their strands
//! are parallel. To find the first one, a pass keeps for each cell only the write and the access of
//! greatest Hebrew number so far. An earlier access is parallel to the current one exactly where
//! its Hebrew number is greater. So if any earlier access races with the current one, a kept access
//! does too (Feng and Leiserson 1997; Bender, Fineman, Gilbert and Leiserson 2004).
//!
//! A reducer-read is the creation of a reducer, a set or a value. Two reducer-reads of one reducer
//! have a view-read race if their strands have different peers: a thief may then find an empty view
//! where the serial run finds a full one. This pass keeps the first reducer-read of each reducer
//! and compares peer classes (Lee and Schardl 2015).
//!
//! | Call | Result |
//! |---|---|
//! | [`race::first_race`] | the first determinacy race, or `None` if no two accesses race |
//! | [`view_race::first_view_read`] | the first view-read race, or `None` if there is none |
//! | [`histories::Histories`] | the accesses of each cell that the first pass keeps |
//! | [`first_reads::FirstReads`] | the first reducer-read of each reducer, for the second pass |
//!
//! For the labels and classes of the trace's own tree both answers are exact: a pair that is found
//! does race, and `None` means that no two positions race.
//!
//! ```text
//! match first_race(alloc, &trace, &labels)? {
//!     Some((earlier, later)) => ..,          // two positions of the trace, from 1
//!     None => ..,                            // no two positions race
//! }
//! ```
#![tactic(auto)]

pub mod first_reads;
pub mod histories;
pub mod race;
pub mod view_race;

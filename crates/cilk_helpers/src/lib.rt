//! Checks a certificate with several helpers, each in a thread of its own.
//!
//! A frame's behaviour depends only on its arguments, the input, and the values that it reads. A
//! certificate lists these values, so each frame can be replayed independently of the others. The
//! certificate may be wrong, so nothing of it is trusted:
//!
//! 1. One pass over the text collects hints: the values that each frame reads, the number of its
//!    events, and its children ([`hints::hints`]).
//! 2. The frames are replayed in rounds, one for each depth of invocation ([`depths::replays`]).
//!    Frame K belongs to helper 1 + (K - 1) % N. No helper waits for another within a round. The
//!    replays stop once they cost more ticks than a run may.
//! 3. One thread retells the serial run from the replays and compares each value that a frame read
//!    with the store ([`whole::retell`]). If one differs, or a replay is missing, the run is made
//!    without helpers. So is a run with more events than [`listing::MOST_EVENTS`], of which nothing
//!    is replayed.
//! 4. The rest is the check of `cilk_checker`, with this run and the text.
//!
//! | Call | Result |
//! |---|---|
//! | [`check_many`] | the verdict of `cilk_checker::texts::check` on three texts |
//! | [`run_many`] | the end and the events of a serial run, with hints |
//! | [`many::listed_run`] | the same, with the hints in a certificate's text |
//! | [`replay::replay`] | the notes of one frame that is given the values it reads |
//! | [`whole::retell`] | the serial run made from the replays of its frames, or None |
//! | [`watch::Watch`] | is called for each frame as a helper begins it |
//!
//! ```text
//! match check_many(&rt, alloc, program, input, certificate, 4, &Unwatched) {
//!     Ok(accepted) => ..,      // the program is determinate on its input
//!     Err(refusal) => ..,      // the first failing check
//! }
//! ```
//!
//! One thread retells all events, so helpers gain where frames compute long between events. An event
//! that is replayed costs 48 bytes besides the memory of a check. Related: BugNet, which trusts its log of loaded
//! values (Narayanasamy, Pokam and Calder 2005), and NOrec, which validates transactions by the
//! values that they read (Dalessandro, Spear and Scott 2010).
#![tactic(auto)]

pub mod called;
pub mod callee;
pub mod depths;
pub mod fits;
pub mod hints;
pub mod laws;
pub mod listing;
pub mod many;
pub mod note;
pub mod replay;
pub mod replayed;
pub mod rest;
pub mod retelling;
pub mod rounds;
mod scan;
pub mod ticks;
pub mod watch;
pub mod whole;

pub use many::{check_many, run_many};

//! Checks a certificate against the serial run of its program, while the certificate's text
//! arrives.
//!
//! The checker runs the program serially and computes the columns that a right certificate of this
//! run has ([`right::Right`]). It pulls the certificate's text from a [`source::Source`] in pieces
//! of any size, reads it line by line, and compares each line with the run ([`hearing::heard`]). Of
//! each column it keeps only how many items from the front are right, and whether the next one is
//! wrong ([`first::First`]). No certificate is built, and memory doesn't grow with the text.
//!
//! Then the columns are judged in a fixed order: events, frames, the frames of strands, Hebrew
//! numbers, peer classes, the sources of reads, the result, determinacy races, view-read races. The
//! first failing check gives a [`refusal::Refusal`]. If none fails, the result is an
//! [`accepted::Accepted`]: a proof that the program is determinate on its input, whatever the
//! schedule. A race-free serial run is enough for that (Feng and Leiserson 1997).
//!
//! | Call | Result |
//! |---|---|
//! | [`texts::check`] | the verdict on three texts in memory |
//! | [`texts::check_from`] | the same, with a certificate that comes from a source |
//! | [`check::check_run`] | the same for a parsed program |
//! | [`check::check_end`] | the same for a serial run that is already made |
//! | [`judge::program`] | the program that a text means, or its first fault |
//! | [`ending::run_to_end`] | how a serial run ends, its events, and its frames with their cells |
//! | [`ending::run_code`] | the same, with the code that the program was compiled to |
//! | [`settle::settle`] | without a certificate: the outcome of every parallel run, or the first race |
//! | [`every::settle_every`] | the same, and whether it holds on every input with other hidden numbers |
//! | [`every::settle_ended`] | the same for a serial run that is already made |
//! | [`laws::texts_have_one_verdict`] | three texts have at most one verdict |
//! | [`laws::accepted_runs_have_consistent_cuts`] | each state of an accepted run is such a cut |
//!
//! ```text
//! check(alloc, b"int main(){return 0;}", b"", certificate)  // Ok(a), a.outcome().result is 0
//! check(alloc, b"int main(){return 0;}", b"", b"")          // Err(Refusal::Truncated { line: 1 })
//! check(alloc, b"int main(){return x;}", b"", certificate)
//!     // Err(Refusal::Name(NameErrorKind::Unknown, 18))
//! ```
#![tactic(auto)]

pub mod accepted;
mod blocks;
pub mod check;
pub mod compare;
pub mod ending;
pub mod every;
pub mod fault;
pub mod first;
pub mod frames;
pub mod hearing;
pub mod judge;
pub mod judge_laws;
pub mod laws;
pub mod passes;
pub mod refusal;
pub mod right;
pub mod settle;
pub mod source;
pub mod tally;
pub mod texts;
pub mod verdict;

//! Tests of the words that the threads of a run share, of runs on other inputs, and of checks by
//! helpers.
//!
//! A parallel run works on a `Yard` of `cilk_shared`: its cells, a word for each continuation, and
//! a word for its end. A thread holds a `Segment`, the range of positions whose events it made.
//! These tests drive a yard step by step, without the scheduler, so that each order of events can
//! be forced. [`two_threads`] forces an order of two threads by messages: a thief takes the
//! continuation of a spawn while the child runs (Frigo, Leiserson and Randall 1998). A message that
//! doesn't come within ten seconds fails the test.
//!
//! [`others`] has the events of two programs written out, on the input of their plan and on other
//! inputs. Their contracts state that these events are what the programs do. [`written_out`]
//! compares them with the runs of the programs' texts.
//!
//! | Item | Purpose |
//! |---|---|
//! | [`settings::Setting`] | a plan, a yard, its first segment, and the events of its run |
//! | [`steps::step`] | makes the next event of a segment, if the yard allows it |
//! | [`steps::take`] | takes a continuation, if it isn't taken yet |
//! | [`other_inputs`] | runs on other inputs, which end or depart from the plan |
//! | [`plans`] | the plan of an accepted run, event by event |
//! | [`helpers`] | certificates checked by several helpers |
//!
//! ```text
//! let Setting { plan, yard, mut segment, events, asked } = squares_on_four(alloc)?;
//! step(&yard, &plan, events.as_slice(), asked.as_slice(), &mut segment)    // Done::Passed
//! ```
#![tactic(auto)]

#[cfg(test)]
mod helpers;
#[cfg(test)]
mod other_inputs;
#[cfg(test)]
mod others;
#[cfg(test)]
mod plans;
#[cfg(test)]
mod settings;
#[cfg(test)]
mod steps;
#[cfg(test)]
mod texts;
#[cfg(test)]
mod two_threads;
#[cfg(test)]
mod written_out;
